//! Operators between two values (ECMA-262 11.5 to 11.11), `in` among them, none of which has to be converted.

ghost use Rattle.std.specs.Prelude.{◌≡◌, pos, List};
ghost use Rattle.origin_labels.specs.Stores.{IsKept};
ghost use Rattle.flow_policy.specs.Policies.{Tables};
ghost use Rattle.flow_policy.specs.Inputs.{Given};
ghost use Rattle.js_ast.specs.Functions.{FunctionCode};
ghost use Rattle.js_number.specs.declared.num.Num.TheVariants as nums;
ghost use Rattle.js_number.specs.declared.primitive.Primitive.TheVariants as prims;
ghost use Rattle.js_values.specs.Readings.{HasValue, read_value};
ghost use Rattle.es_meaning.specs.BuiltIns.{BuiltIns};
ghost use Rattle.flow_meaning.specs.Tracked.{labelled};
ghost use Rattle.step_values.specs.Converted.{is_keyed};
ghost use Rattle.run_state.specs.Acts.{Acts, HasAnswer};
ghost use Rattle.run_state.specs.Worlds.{Belongs, Grows};
ghost use Rattle.step_objects.specs.Operated.{AreOperated, contained, operated};

use crate::asking::has_key;
use crate::needing::object_needed;
use flow_frames::FlowFault;
use js_ast::BinaryOperator;
use js_number::{Int, Num, Primitive};
use js_values::{Labelled, Value};
use origin_labels::Labels;
use run_state::{Outcome, World};
use std::alloc::Global;
use step_values::binary;

/// What an operator between two values gives, none of which has to be converted.
pub fn operated<L: Labels>(
    alloc: Global,
    labels: &mut L,
    world: &mut World<L::Label>,
    operator: BinaryOperator,
    left: &Labelled<L::Label>,
    right: &Labelled<L::Label>,
) -> Result<Outcome<Labelled<L::Label>, L::Label>, FlowFault<L::Label>>
    requires left { L.made labels.old left.now.label }
    requires right { L.made labels.old right.now.label }
    requires belongs { Belongs L.made L.meaning labels.old world.old }
    ensures acts { (tables : Tables) (inputs : Given) (set : BuiltIns) (functions : List FunctionCode) → Acts L.made L.meaning labels.new (λ reading. read_value reading) (λ reading. operated tables inputs set functions operator (read_value reading left.now) (read_value reading right.now)) world.old world.new result }
    ensures made { HasAnswer (HasValue (L.made labels.new)) (L.made labels.new) result }
    ensures belongs { Belongs L.made L.meaning labels.new world.new }
    ensures grows { Grows world.old world.new }
    ensures kept { IsKept L.made L.meaning L.room L.firm labels.old labels.new }
{
    if is_keyed(operator) {
        contained(alloc, labels, world, left, right)
    } else {
        binary(alloc, labels, operator, left, right)
    }
}

/// An operator that has no operand converted gives what the plan of the meaning gives.
pub fn operating()
    ensures { AreOperated }
{}

/// `in`, which takes its left operand as a key.
fn is_keyed(operator: BinaryOperator) -> bool
    ensures { result ≡ is_keyed operator }
{
    matches!(operator, BinaryOperator::In)
}

/// Whether the right value, which has to be an object, has the left one as a key (ECMA-262 11.8.7).
fn contained<L: Labels>(
    alloc: Global,
    labels: &mut L,
    world: &mut World<L::Label>,
    key: &Labelled<L::Label>,
    object: &Labelled<L::Label>,
) -> Result<Outcome<Labelled<L::Label>, L::Label>, FlowFault<L::Label>>
    requires key { L.made labels.old key.now.label }
    requires object { L.made labels.old object.now.label }
    requires belongs { Belongs L.made L.meaning labels.old world.old }
    ensures acts { (tables : Tables) (inputs : Given) → Acts L.made L.meaning labels.new (λ reading. read_value reading) (λ reading. contained tables inputs (read_value reading key.now) (read_value reading object.now)) world.old world.new result }
    ensures made { HasAnswer (HasValue (L.made labels.new)) (L.made labels.new) result }
    ensures belongs { Belongs L.made L.meaning labels.new world.new }
    ensures grows { Grows world.old world.new }
    ensures kept { IsKept L.made L.meaning L.room L.firm labels.old labels.new }
{
    let object = object.copy(alloc)?;
    let key = key.copy(alloc)?;
    match object_needed(labels, world, object)? {
        Outcome::Goes(object) => has_key(alloc, labels, world, key, object),
        Outcome::Throws(error) => Ok(Outcome::Throws(error)),
        Outcome::Leaves(why) => Ok(Outcome::Leaves(why)),
    }
}

/// A number with one added or taken away (ECMA-262 11.3, 11.4.4, 11.4.5).
pub fn one_more<L: Labels>(
    alloc: Global,
    labels: &mut L,
    operator: BinaryOperator,
    number: &Labelled<L::Label>,
) -> Result<Outcome<Labelled<L::Label>, L::Label>, FlowFault<L::Label>>
    requires number { L.made labels.old number.now.label }
    ensures acts { (tables : Tables) (inputs : Given) (set : BuiltIns) (functions : List FunctionCode) (world : World L.Label) → Acts L.made L.meaning labels.new (λ reading. read_value reading) (λ reading. (labelled tables inputs set functions).binary operator (read_value reading number.now) ((labelled tables inputs set functions).literal (prims.Num (nums.Int (pos 1))))) world world result }
    ensures made { HasAnswer (HasValue (L.made labels.new)) (L.made labels.new) result }
    ensures kept { IsKept L.made L.meaning L.room L.firm labels.old labels.new }
{
    let other = Labelled {
        value: Value::Primitive(Primitive::Num(Num::Int(one()))),
        label: labels.bottom(),
    };
    binary(alloc, labels, operator, number, &other)
}

/// The number one.
fn one() -> Int
    ensures { result ≡ pos 1 }
{
    Int::new(1).unwrap()
}
