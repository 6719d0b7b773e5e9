//! Behind the conversion of the left operand that of the right one.

ghost use Rattle.std.specs.Prelude.{◌≡◌, [], ◌∷◌, length, Ok, IfErr, IfOk};
ghost use Rattle.std.specs.List.{All};
ghost use Rattle.origin_labels.specs.Stores.{IsKept};
ghost use Rattle.flow_frames.specs.Stops.{IfStop};
ghost use Rattle.js_values.specs.Readings.{HasValue, read_value};
ghost use Rattle.es_meaning.specs.Evaluation.{compared_left, conversion_of, number_left, primitive_left};
ghost use Rattle.flow_meaning.specs.Planned.{planned};
ghost use Rattle.run_state.specs.Worlds.{Belongs, Grows};
ghost use Rattle.continuations.specs.declared.continuation.Continuation.TheVariants as continuation;
ghost use Rattle.continuations.specs.Pending.{converted_left};
ghost use Rattle.continuations.specs.Settings.{entrance};
ghost use Rattle.continuations.specs.Stops.{HasStop};
ghost use Rattle.step_references.specs.Moving.{Begun, Moved, Resumed};

use crate::applying::{apply, contains};
use continuations::{Continuation, Control, Stack};
use flow_frames::FlowFault;
use flow_text::OutOfMemory;
use js_ast::{BinaryOperator, UnaryOperator};
use js_values::Labelled;
use native_protocol::Hint;
use origin_labels::Labels;
use run_state::World;
use std::alloc::Global;
use step_references::{Went, go_on};
use step_values::{Conversion, conversion_of, unary};

/// The left operand is converted: the right one, which lies below, is next.
pub fn left_converted<'p, L: Labels>(
    alloc: Global,
    labels: &mut L,
    world: &mut World<L::Label>,
    stack: &mut Stack<'p, L::Label>,
    operator: BinaryOperator,
) -> Result<Control<'p>, FlowFault<L::Label>>
    requires loose { length stack.old.loose ≡ 2 }
    requires made { All (HasValue (L.made labels.old)) stack.old.loose }
    requires belongs { Belongs L.made L.meaning labels.old world.old }
    ensures goes_on { Resumed L.made L.meaning labels.new (continuation.ConvertedLeft operator) stack.old stack.new world.old world.new result }
    ensures moved { IfOk result (Moved (L.made labels.new) 8 stack.old stack.new world.old world.new) }
    ensures stopped { IfErr result (IfStop (HasStop (L.made labels.new))) }
    ensures belongs { Belongs L.made L.meaning labels.new world.new }
    ensures grows { Grows world.old world.new }
    ensures kept { IsKept L.made L.meaning L.room L.firm labels.old labels.new }
{
    let left = stack.pop();
    let right = stack.pop();
    convert_next(alloc, labels, world, stack, operator, left, right)
}

/// The right operand is converted, and then the operator is applied.
fn convert_next<'p, L: Labels>(
    alloc: Global,
    labels: &mut L,
    world: &mut World<L::Label>,
    stack: &mut Stack<'p, L::Label>,
    operator: BinaryOperator,
    left: Labelled<L::Label>,
    right: Labelled<L::Label>,
) -> Result<Control<'p>, FlowFault<L::Label>>
    requires loose { length stack.old.loose ≡ 0 }
    requires left { L.made labels.old left.label }
    requires right { L.made labels.old right.label }
    requires belongs { Belongs L.made L.meaning labels.old world.old }
    ensures goes_on { Begun L.made L.meaning labels.new (λ tables inputs set functions reading e. converted_left tables inputs set functions (conversion_of operator) operator (read_value reading right) (read_value reading left)) stack.old stack.new world.old world.new result }
    ensures moved { IfOk result (Moved (L.made labels.new) 8 stack.old stack.new world.old world.new) }
    ensures stopped { IfErr result (IfStop (HasStop (L.made labels.new))) }
    ensures belongs { Belongs L.made L.meaning labels.new world.new }
    ensures grows { Grows world.old world.new }
    ensures kept { IsKept L.made L.meaning L.room L.firm labels.old labels.new }
{
    match conversion_of(operator) {
        Conversion::Unconverted => apply(alloc, labels, world, stack, operator, left, right),
        Conversion::Compared => {
            let next = compare_right(alloc, labels, world, stack, operator, left, right)?;
            Ok(next)
        }
        Conversion::Primitives(hint) => {
            let next = convert_right(labels, world, stack, operator, left, right, hint)?;
            Ok(next)
        }
        Conversion::Numbers => make_number(alloc, labels, world, stack, operator, left, right),
        Conversion::Keyed => contains(alloc, labels, world, stack, left, right),
    }
}

/// The right operand is converted as `==` does beside the left one, which waits.
fn compare_right<'p, L: Labels>(
    alloc: Global,
    labels: &L,
    world: &World<L::Label>,
    stack: &mut Stack<'p, L::Label>,
    operator: BinaryOperator,
    left: Labelled<L::Label>,
    right: Labelled<L::Label>,
) -> Result<Control<'p>, OutOfMemory>
    requires loose { length stack.old.loose ≡ 0 }
    requires left { L.made labels.now left.label }
    requires right { L.made labels.now right.label }
    ensures goes_on { IfOk result (λ next. Begun L.made L.meaning labels.now (λ tables inputs set functions reading e. compared_left (planned tables inputs set functions) (entrance tables inputs set functions) operator (read_value reading right) (read_value reading left)) stack.old stack.new world.now world.now (Ok next)) }
    ensures moved { IfOk result (Moved (L.made labels.now) 8 stack.old stack.new world.now world.now) }
{
    let kept = left.copy(alloc)?;
    stack.lay(kept)?;
    stack.push(Continuation::Operate(operator))?;
    stack.lay(right)?;
    stack.lay(left)?;
    Ok(Control::Compare)
}

/// The right operand is converted to a primitive value, and the left one waits.
fn convert_right<'p, L: Labels>(
    labels: &L,
    world: &World<L::Label>,
    stack: &mut Stack<'p, L::Label>,
    operator: BinaryOperator,
    left: Labelled<L::Label>,
    right: Labelled<L::Label>,
    hint: Hint,
) -> Result<Control<'p>, OutOfMemory>
    requires loose { length stack.old.loose ≡ 0 }
    requires left { L.made labels.now left.label }
    requires right { L.made labels.now right.label }
    ensures goes_on { IfOk result (λ next. Begun L.made L.meaning labels.now (λ tables inputs set functions reading e. primitive_left (planned tables inputs set functions) (entrance tables inputs set functions) hint operator (read_value reading right) (read_value reading left)) stack.old stack.new world.now world.now (Ok next)) }
    ensures moved { IfOk result (Moved (L.made labels.now) 8 stack.old stack.new world.now world.now) }
{
    stack.lay(left)?;
    stack.push(Continuation::Operate(operator))?;
    stack.lay(right)?;
    Ok(Control::Convert(hint))
}

/// The left operand is taken as a number, before the right one is converted.
fn make_number<'p, L: Labels>(
    alloc: Global,
    labels: &L,
    world: &World<L::Label>,
    stack: &mut Stack<'p, L::Label>,
    operator: BinaryOperator,
    left: Labelled<L::Label>,
    right: Labelled<L::Label>,
) -> Result<Control<'p>, FlowFault<L::Label>>
    requires loose { length stack.old.loose ≡ 0 }
    requires left { L.made labels.now left.label }
    requires right { L.made labels.now right.label }
    ensures goes_on { Begun L.made L.meaning labels.now (λ tables inputs set functions reading e. number_left (planned tables inputs set functions) (entrance tables inputs set functions) operator (read_value reading right) (read_value reading left)) stack.old stack.new world.now world.now result }
    ensures moved { IfOk result (Moved (L.made labels.now) 8 stack.old stack.new world.now world.now) }
    ensures stopped { IfErr result (IfStop (HasStop (L.made labels.now))) }
{
    let answer = unary(alloc, world, UnaryOperator::Plus, &left);
    let came = go_on(labels, stack, 0, answer)?;
    match came {
        Went::On(number) => {
            let hint = Hint::Number;
            let next = convert_right(labels, world, stack, operator, number, right, hint)?;
            Ok(next)
        }
        Went::Off(next) => Ok(next),
    }
}
