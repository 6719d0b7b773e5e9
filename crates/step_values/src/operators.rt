//! Operators on values with labels.

ghost use Rattle.std.specs.Prelude.{◌≡◌, List};
ghost use Rattle.origin_labels.specs.Stores.{IsKept};
ghost use Rattle.flow_policy.specs.Policies.{Tables};
ghost use Rattle.flow_policy.specs.Inputs.{Given};
ghost use Rattle.js_ast.specs.Functions.{FunctionCode};
ghost use Rattle.js_values.specs.Readings.{HasValue, read_value};
ghost use Rattle.es_meaning.specs.BuiltIns.{BuiltIns};
ghost use Rattle.flow_meaning.specs.Tracked.{labelled};
ghost use Rattle.run_state.specs.Acts.{Acts, Computes, HasAnswer};
ghost use Rattle.step_values.specs.Answers.{came_of};
ghost use Rattle.step_values.specs.Converted.{OperandAsItIs, OperandsAsTheyAre};

use crate::between::between;
use crate::front::in_front;
use crate::refusal::Refusal;
use flow_frames::FlowFault;
use js_ast::{BinaryOperator, UnaryOperator};
use js_number::Primitive;
use js_values::{Labelled, Value};
use origin_labels::Labels;
use run_state::{Outcome, World};
use std::alloc::Global;

/// An operator in front of a value as it is.
pub fn unary<T: Copy>(
    alloc: Global,
    world: &World<T>,
    operator: UnaryOperator,
    value: &Labelled<T>,
) -> Result<Outcome<Labelled<T>, T>, FlowFault<T>>
    ensures computes { (tables : Tables) (inputs : Given) (set : BuiltIns) (functions : List FunctionCode) → Computes (λ reading. read_value reading) (λ reading. (labelled tables inputs set functions).unary operator (read_value reading value.now)) world.now result }
    ensures label { HasAnswer (λ v. v.label ≡ value.now.label) (λ label. label ≡ value.now.label) result }
{
    came(
        value.label,
        in_front(alloc, &world.heap, operator, &value.value),
    )
}

/// Operators that have no operand converted take them as they are.
pub fn taking_operands()
    ensures operand { OperandAsItIs }
    ensures operands { OperandsAsTheyAre }
{}

/// An operator between two values as they are.
pub fn binary<L: Labels>(
    alloc: Global,
    labels: &mut L,
    operator: BinaryOperator,
    left: &Labelled<L::Label>,
    right: &Labelled<L::Label>,
) -> Result<Outcome<Labelled<L::Label>, L::Label>, FlowFault<L::Label>>
    requires left { L.made labels.old left.now.label }
    requires right { L.made labels.old right.now.label }
    ensures acts { (tables : Tables) (inputs : Given) (set : BuiltIns) (functions : List FunctionCode) (world : World L.Label) → Acts L.made L.meaning labels.new (λ reading. read_value reading) (λ reading. (labelled tables inputs set functions).binary operator (read_value reading left.now) (read_value reading right.now)) world world result }
    ensures made { HasAnswer (HasValue (L.made labels.new)) (L.made labels.new) result }
    ensures kept { IsKept L.made L.meaning L.room L.firm labels.old labels.new }
{
    let label = labels.join(left.label, right.label)?;
    came(label, between(alloc, operator, &left.value, &right.value))
}

/// What a run comes to by an operator's answer: the value has this label.
fn came<T: Copy>(
    label: T,
    answer: Result<Primitive, Refusal>,
) -> Result<Outcome<Labelled<T>, T>, FlowFault<T>>
    ensures { result ≡ came_of label answer }
{
    match answer {
        Ok(value) => Ok(Outcome::Goes(Labelled {
            value: Value::Primitive(value),
            label,
        })),
        Err(Refusal::Leaves(why)) => Ok(Outcome::Leaves(why)),
        Err(Refusal::OutOfMemory) => Err(FlowFault::OutOfMemory),
    }
}
