//! Operators between two values (ECMA-262 11.5 to 11.11): operands that are objects are converted first.

ghost use Rattle.std.specs.Prelude.{◌≡◌, [], ◌∷◌, length, Ok, IfErr, IfOk};
ghost use Rattle.std.specs.List.{All};
ghost use Rattle.origin_labels.specs.Stores.{IsKept};
ghost use Rattle.flow_frames.specs.Stops.{IfStop};
ghost use Rattle.js_values.specs.Readings.{HasValue, read_value};
ghost use Rattle.es_meaning.specs.Operations.{Value};
ghost use Rattle.es_meaning.specs.Evaluation.{binary_by, binary_values, conversion_of, has_right, keyed};
ghost use Rattle.flow_meaning.specs.Planned.{planned};
ghost use Rattle.run_state.specs.Worlds.{Belongs, Grows};
ghost use Rattle.js_ast.specs.declared.operators.BinaryOperator.TheVariants as operator;
ghost use Rattle.continuations.specs.declared.continuation.Continuation.TheVariants as continuation;
ghost use Rattle.continuations.specs.Pending.{converted_left};
ghost use Rattle.continuations.specs.Settings.{entrance};
ghost use Rattle.continuations.specs.Stops.{HasStop};
ghost use Rattle.step_references.specs.Moving.{Begun, Moved, Resumed};

use crate::applying::apply;
use continuations::{Continuation, Control, Stack};
use flow_frames::FlowFault;
use flow_text::OutOfMemory;
use js_ast::BinaryOperator;
use js_values::Labelled;
use native_protocol::Hint;
use origin_labels::Labels;
use run_state::World;
use std::alloc::Global;
use step_objects::{object_needed, operated, operating};
use step_references::{Went, go_on, hand_on};
use step_values::{Conversion, conversion_of, converts};

/// An operator between the value of its left operand, which lies below, and that of its right one.
#[inline(always)]
pub fn binary_done<'p, L: Labels>(
    alloc: Global,
    labels: &mut L,
    world: &mut World<L::Label>,
    stack: &mut Stack<'p, L::Label>,
    operator: BinaryOperator,
) -> Result<Control<'p>, FlowFault<L::Label>>
    requires loose { length stack.old.loose ≡ 2 }
    requires made { All (HasValue (L.made labels.old)) stack.old.loose }
    requires belongs { Belongs L.made L.meaning labels.old world.old }
    ensures goes_on { Resumed L.made L.meaning labels.new (continuation.BinaryDone operator) stack.old stack.new world.old world.new result }
    ensures moved { IfOk result (Moved (L.made labels.new) 10 stack.old stack.new world.old world.new) }
    ensures stopped { IfErr result (IfStop (HasStop (L.made labels.new))) }
    ensures belongs { Belongs L.made L.meaning labels.new world.new }
    ensures grows { Grows world.old world.new }
    ensures kept { IsKept L.made L.meaning L.room L.firm labels.old labels.new }
{
    let right = stack.pop();
    let left = stack.pop();
    operate(alloc, labels, world, stack, operator, left, right)
}

/// An operator between two values. Where none is converted it is one act.
#[inline(always)]
pub(crate) fn operate<'p, L: Labels>(
    alloc: Global,
    labels: &mut L,
    world: &mut World<L::Label>,
    stack: &mut Stack<'p, L::Label>,
    operator: BinaryOperator,
    left: Labelled<L::Label>,
    right: Labelled<L::Label>,
) -> Result<Control<'p>, FlowFault<L::Label>>
    requires loose { length stack.old.loose ≡ 0 }
    requires left { L.made labels.old left.label }
    requires right { L.made labels.old right.label }
    requires belongs { Belongs L.made L.meaning labels.old world.old }
    ensures goes_on { Begun L.made L.meaning labels.new (λ tables inputs set functions reading e. binary_values (planned tables inputs set functions) (entrance tables inputs set functions) operator (read_value reading left) (read_value reading right)) stack.old stack.new world.old world.new result }
    ensures moved { IfOk result (Moved (L.made labels.new) 10 stack.old stack.new world.old world.new) }
    ensures stopped { IfErr result (IfStop (HasStop (L.made labels.new))) }
    ensures belongs { Belongs L.made L.meaning labels.new world.new }
    ensures grows { Grows world.old world.new }
    ensures kept { IsKept L.made L.meaning L.room L.firm labels.old labels.new }
{
    if converts(operator, &left.value, &right.value) {
        convert_operands(alloc, labels, world, stack, operator, left, right)
    } else {
        operating();
        let answer = operated(alloc, labels, world, operator, &left, &right);
        hand_on(labels, stack, answer)
    }
}

/// The operands are converted in their order, and then the operator is applied.
fn convert_operands<'p, L: Labels>(
    alloc: Global,
    labels: &mut L,
    world: &mut World<L::Label>,
    stack: &mut Stack<'p, L::Label>,
    operator: BinaryOperator,
    left: Labelled<L::Label>,
    right: Labelled<L::Label>,
) -> Result<Control<'p>, FlowFault<L::Label>>
    requires loose { length stack.old.loose ≡ 0 }
    requires left { L.made labels.old left.label }
    requires right { L.made labels.old right.label }
    requires belongs { Belongs L.made L.meaning labels.old world.old }
    ensures goes_on { Begun L.made L.meaning labels.new (λ tables inputs set functions reading e. binary_values (planned tables inputs set functions) (entrance tables inputs set functions) operator (read_value reading left) (read_value reading right)) stack.old stack.new world.old world.new result }
    ensures moved { IfOk result (Moved (L.made labels.new) 10 stack.old stack.new world.old world.new) }
    ensures stopped { IfErr result (IfStop (HasStop (L.made labels.new))) }
    ensures belongs { Belongs L.made L.meaning labels.new world.new }
    ensures grows { Grows world.old world.new }
    ensures kept { IsKept L.made L.meaning L.room L.firm labels.old labels.new }
{
    match conversion_of(operator) {
        Conversion::Unconverted => apply(alloc, labels, world, stack, operator, left, right),
        Conversion::Compared => {
            let next = compare_left(alloc, labels, world, stack, operator, left, right)?;
            Ok(next)
        }
        Conversion::Primitives(hint) => {
            let next = convert_left(labels, world, stack, operator, left, right, hint)?;
            Ok(next)
        }
        Conversion::Numbers => {
            let next = convert_left(labels, world, stack, operator, left, right, Hint::Number)?;
            Ok(next)
        }
        Conversion::Keyed => need_object(labels, world, stack, left, right),
    }
}

/// The left operand is converted as `==` does beside the right one, which waits.
#[inline(always)]
fn compare_left<'p, L: Labels>(
    alloc: Global,
    labels: &L,
    world: &World<L::Label>,
    stack: &mut Stack<'p, L::Label>,
    operator: BinaryOperator,
    left: Labelled<L::Label>,
    right: Labelled<L::Label>,
) -> Result<Control<'p>, OutOfMemory>
    requires loose { length stack.old.loose ≡ 0 }
    requires left { L.made labels.now left.label }
    requires right { L.made labels.now right.label }
    ensures goes_on { IfOk result (λ next. Begun L.made L.meaning labels.now (λ tables inputs set functions reading e. (planned tables inputs set functions).bind Value Value ((planned tables inputs set functions).comparable (read_value reading left) (read_value reading right) (entrance tables inputs set functions)) (converted_left tables inputs set functions (conversion_of operator) operator (read_value reading right))) stack.old stack.new world.now world.now (Ok next)) }
    ensures moved { IfOk result (Moved (L.made labels.now) 10 stack.old stack.new world.now world.now) }
{
    let kept = right.copy(alloc)?;
    stack.lay(kept)?;
    stack.push(Continuation::ConvertedLeft(operator))?;
    stack.lay(left)?;
    stack.lay(right)?;
    Ok(Control::Compare)
}

/// The left operand is converted to a primitive value, and the right one waits.
#[inline(always)]
fn convert_left<'p, L: Labels>(
    labels: &L,
    world: &World<L::Label>,
    stack: &mut Stack<'p, L::Label>,
    operator: BinaryOperator,
    left: Labelled<L::Label>,
    right: Labelled<L::Label>,
    hint: Hint,
) -> Result<Control<'p>, OutOfMemory>
    requires loose { length stack.old.loose ≡ 0 }
    requires left { L.made labels.now left.label }
    requires right { L.made labels.now right.label }
    ensures goes_on { IfOk result (λ next. Begun L.made L.meaning labels.now (λ tables inputs set functions reading e. (planned tables inputs set functions).bind Value Value ((planned tables inputs set functions).primitive hint (read_value reading left) (entrance tables inputs set functions)) (converted_left tables inputs set functions (conversion_of operator) operator (read_value reading right))) stack.old stack.new world.now world.now (Ok next)) }
    ensures moved { IfOk result (Moved (L.made labels.now) 10 stack.old stack.new world.now world.now) }
{
    stack.lay(right)?;
    stack.push(Continuation::ConvertedLeft(operator))?;
    stack.lay(left)?;
    Ok(Control::Convert(hint))
}

/// `in`: the right value has to be an object, and then the left one is converted to a key.
#[inline(always)]
fn need_object<'p, L: Labels>(
    labels: &mut L,
    world: &mut World<L::Label>,
    stack: &mut Stack<'p, L::Label>,
    left: Labelled<L::Label>,
    right: Labelled<L::Label>,
) -> Result<Control<'p>, FlowFault<L::Label>>
    requires loose { length stack.old.loose ≡ 0 }
    requires left { L.made labels.old left.label }
    requires right { L.made labels.old right.label }
    requires belongs { Belongs L.made L.meaning labels.old world.old }
    ensures goes_on { Begun L.made L.meaning labels.new (λ tables inputs set functions reading e. binary_by (planned tables inputs set functions) (entrance tables inputs set functions) keyed operator.In (read_value reading left) (read_value reading right)) stack.old stack.new world.old world.new result }
    ensures moved { IfOk result (Moved (L.made labels.new) 10 stack.old stack.new world.old world.new) }
    ensures stopped { IfErr result (IfStop (HasStop (L.made labels.new))) }
    ensures belongs { Belongs L.made L.meaning labels.new world.new }
    ensures grows { Grows world.old world.new }
    ensures kept { IsKept L.made L.meaning L.room L.firm labels.old labels.new }
{
    let answer = object_needed(labels, world, right);
    let came = go_on(labels, stack, 0, answer)?;
    match came {
        Went::On(object) => {
            let next = convert_key(labels, world, stack, left, object)?;
            Ok(next)
        }
        Went::Off(next) => Ok(next),
    }
}

/// A key is converted, and the object waits that may have it.
#[inline(always)]
fn convert_key<'p, L: Labels>(
    labels: &L,
    world: &World<L::Label>,
    stack: &mut Stack<'p, L::Label>,
    key: Labelled<L::Label>,
    object: Labelled<L::Label>,
) -> Result<Control<'p>, OutOfMemory>
    requires loose { length stack.old.loose ≡ 0 }
    requires key { L.made labels.now key.label }
    requires object { L.made labels.now object.label }
    ensures goes_on { IfOk result (λ next. Begun L.made L.meaning labels.now (λ tables inputs set functions reading e. has_right (planned tables inputs set functions) (entrance tables inputs set functions) (read_value reading key) (read_value reading object)) stack.old stack.new world.now world.now (Ok next)) }
    ensures moved { IfOk result (Moved (L.made labels.now) 8 stack.old stack.new world.now world.now) }
{
    stack.lay(object)?;
    stack.push(Continuation::KeyHas)?;
    stack.lay(key)?;
    Ok(Control::Convert(Hint::String))
}
