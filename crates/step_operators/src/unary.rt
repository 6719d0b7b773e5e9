//! Operators in front of a value (ECMA-262 11.4).

ghost use Rattle.std.specs.Prelude.{◌≡◌, Bool, length, Ok, IfErr, IfOk};
ghost use Rattle.std.specs.List.{All};
ghost use Rattle.flow_frames.specs.Stops.{IfStop};
ghost use Rattle.js_values.specs.Readings.{HasValue, read_value};
ghost use Rattle.es_meaning.specs.Evaluation.{unary_by};
ghost use Rattle.flow_meaning.specs.Planned.{planned};
ghost use Rattle.run_state.specs.Worlds.{Belongs};
ghost use Rattle.continuations.specs.declared.continuation.Continuation.TheVariants as continuation;
ghost use Rattle.continuations.specs.Settings.{entrance};
ghost use Rattle.continuations.specs.Stops.{HasStop};
ghost use Rattle.step_references.specs.Moving.{Begun, Moved, Resumed};

use continuations::{Continuation, Control, Stack};
use flow_frames::FlowFault;
use flow_text::OutOfMemory;
use js_ast::UnaryOperator;
use js_values::Labelled;
use native_protocol::Hint;
use origin_labels::Labels;
use run_state::World;
use std::alloc::Global;
use step_references::hand_on;
use step_values::{converts_operand, taking_operands, unary};

/// An operator in front of its operand's value, which is converted first where the operator takes an object as a number.
pub fn unary_done<'p, L: Labels>(
    alloc: Global,
    labels: &L,
    world: &World<L::Label>,
    stack: &mut Stack<'p, L::Label>,
    operator: UnaryOperator,
) -> Result<Control<'p>, FlowFault<L::Label>>
    requires loose { length stack.old.loose ≡ 1 }
    requires made { All (HasValue (L.made labels.now)) stack.old.loose }
    ensures goes_on { Resumed L.made L.meaning labels.now (continuation.Unary operator) stack.old stack.new world.now world.now result }
    ensures moved { IfOk result (Moved (L.made labels.now) 8 stack.old stack.new world.now world.now) }
    ensures stopped { IfErr result (IfStop (HasStop (L.made labels.now))) }
{
    let value = stack.pop();
    if converts_operand(operator, &value.value) {
        let next = convert_operand(labels, world, stack, operator, value)?;
        Ok(next)
    } else {
        taking_operands();
        apply_unary(alloc, labels, world, stack, operator, &value)
    }
}

/// Behind the conversion of its operand.
pub fn unary_converted<'p, L: Labels>(
    alloc: Global,
    labels: &L,
    world: &World<L::Label>,
    stack: &mut Stack<'p, L::Label>,
    operator: UnaryOperator,
) -> Result<Control<'p>, FlowFault<L::Label>>
    requires loose { length stack.old.loose ≡ 1 }
    requires made { All (HasValue (L.made labels.now)) stack.old.loose }
    ensures goes_on { Resumed L.made L.meaning labels.now (continuation.UnaryConverted operator) stack.old stack.new world.now world.now result }
    ensures moved { IfOk result (Moved (L.made labels.now) 6 stack.old stack.new world.now world.now) }
    ensures stopped { IfErr result (IfStop (HasStop (L.made labels.now))) }
{
    let value = stack.pop();
    apply_unary(alloc, labels, world, stack, operator, &value)
}

/// An operator in front of a value as it is.
fn apply_unary<'p, L: Labels>(
    alloc: Global,
    labels: &L,
    world: &World<L::Label>,
    stack: &mut Stack<'p, L::Label>,
    operator: UnaryOperator,
    value: &Labelled<L::Label>,
) -> Result<Control<'p>, FlowFault<L::Label>>
    requires loose { length stack.old.loose ≡ 0 }
    requires value { L.made labels.now value.now.label }
    ensures goes_on { Begun L.made L.meaning labels.now (λ tables inputs set functions reading e. (planned tables inputs set functions).unary operator (read_value reading value.now)) stack.old stack.new world.now world.now result }
    ensures moved { IfOk result (Moved (L.made labels.now) 6 stack.old stack.new world.now world.now) }
    ensures stopped { IfErr result (IfStop (HasStop (L.made labels.now))) }
{
    let answer = unary(alloc, world, operator, value);
    hand_on(labels, stack, answer)
}

/// The operand is converted to a primitive value.
fn convert_operand<'p, L: Labels>(
    labels: &L,
    world: &World<L::Label>,
    stack: &mut Stack<'p, L::Label>,
    operator: UnaryOperator,
    value: Labelled<L::Label>,
) -> Result<Control<'p>, OutOfMemory>
    requires loose { length stack.old.loose ≡ 0 }
    requires value { L.made labels.now value.label }
    ensures goes_on { IfOk result (λ next. Begun L.made L.meaning labels.now (λ tables inputs set functions reading e. unary_by (planned tables inputs set functions) (entrance tables inputs set functions) Bool.true operator (read_value reading value)) stack.old stack.new world.now world.now (Ok next)) }
    ensures moved { IfOk result (Moved (L.made labels.now) 8 stack.old stack.new world.now world.now) }
{
    stack.push(Continuation::UnaryConverted(operator))?;
    stack.lay(value)?;
    Ok(Control::Convert(Hint::Number))
}
