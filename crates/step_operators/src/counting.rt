//! `++` and `--` (ECMA-262 11.3, 11.4.4, 11.4.5), and compound assignments (ECMA-262 11.13.2).

ghost use Rattle.std.specs.Prelude.{◌≡◌, ◌+◌, length, Ok, IfErr, IfOk};
ghost use Rattle.std.specs.List.{All};
ghost use Rattle.origin_labels.specs.Stores.{IsKept};
ghost use Rattle.flow_frames.specs.Stops.{IfStop};
ghost use Rattle.js_values.specs.Readings.{HasValue, read_value};
ghost use Rattle.step_objects.specs.References.{refers, HasReference};
ghost use Rattle.run_state.specs.Worlds.{Belongs, Grows};
ghost use Rattle.continuations.specs.declared.continuation.Continuation.TheVariants as continuation;
ghost use Rattle.continuations.specs.Pending.{owns_target};
ghost use Rattle.continuations.specs.Stops.{HasStop};
ghost use Rattle.step_references.specs.Moving.{Begun, Moved, Resumed};
ghost use Rattle.step_operators.specs.Counting.{changed_by, given_by, numbered_by};

use crate::binary::operate;
use continuations::{Continuation, Control, Counting, Stack, Target};
use flow_frames::FlowFault;
use flow_text::OutOfMemory;
use js_ast::{BinaryOperator, UnaryOperator};
use js_values::Labelled;
use native_protocol::Hint;
use origin_labels::Labels;
use run_state::World;
use std::alloc::Global;
use step_objects::{Reference, one_more};
use step_references::{Went, assign, assign_giving, go_on, take_reference};
use step_values::unary;

/// The operand of a compound assignment, whose old value lies below: what the operator gives is assigned then.
pub fn compound_done<'p, L: Labels>(
    alloc: Global,
    labels: &mut L,
    world: &mut World<L::Label>,
    stack: &mut Stack<'p, L::Label>,
    operator: BinaryOperator,
    target: Target<'p>,
) -> Result<Control<'p>, FlowFault<L::Label>>
    requires loose { length stack.old.loose ≡ owns_target target + 2 }
    requires made { All (HasValue (L.made labels.old)) stack.old.loose }
    requires belongs { Belongs L.made L.meaning labels.old world.old }
    ensures goes_on { Resumed L.made L.meaning labels.new (continuation.CompoundDone operator target.entry) stack.old stack.new world.old world.new result }
    ensures moved { IfOk result (Moved (L.made labels.new) 16 stack.old stack.new world.old world.new) }
    ensures stopped { IfErr result (IfStop (HasStop (L.made labels.new))) }
    ensures belongs { Belongs L.made L.meaning labels.new world.new }
    ensures grows { Grows world.old world.new }
    ensures kept { IsKept L.made L.meaning L.room L.firm labels.old labels.new }
{
    let operand = stack.pop();
    let old = stack.pop();
    stack.push(Continuation::AssignTo(target))?;
    operate(alloc, labels, world, stack, operator, old, operand)
}

/// The value of the reference that `++` or `--` changes: it is converted.
pub fn counted<'p, L: Labels>(
    labels: &L,
    world: &World<L::Label>,
    stack: &mut Stack<'p, L::Label>,
    counting: Counting,
    operator: BinaryOperator,
    target: Target<'p>,
) -> Result<Control<'p>, OutOfMemory>
    requires loose { length stack.old.loose ≡ owns_target target + 1 }
    requires made { All (HasValue (L.made labels.now)) stack.old.loose }
    ensures goes_on { IfOk result (λ next. Resumed L.made L.meaning labels.now (continuation.Counted counting operator target.entry) stack.old stack.new world.now world.now (Ok next)) }
    ensures moved { IfOk result (Moved (L.made labels.now) 13 stack.old stack.new world.now world.now) }
{
    let value = stack.pop();
    stack.push(Continuation::CountedNumber(counting, operator, target))?;
    stack.lay(value)?;
    Ok(Control::Convert(Hint::Number))
}

/// The same, converted: it is taken as a number, and then the reference is given one more or less.
pub fn counted_number<'p, L: Labels>(
    alloc: Global,
    labels: &mut L,
    world: &mut World<L::Label>,
    stack: &mut Stack<'p, L::Label>,
    counting: Counting,
    operator: BinaryOperator,
    target: Target<'p>,
) -> Result<Control<'p>, FlowFault<L::Label>>
    requires loose { length stack.old.loose ≡ owns_target target + 1 }
    requires made { All (HasValue (L.made labels.old)) stack.old.loose }
    requires belongs { Belongs L.made L.meaning labels.old world.old }
    ensures goes_on { Resumed L.made L.meaning labels.new (continuation.CountedNumber counting operator target.entry) stack.old stack.new world.old world.new result }
    ensures moved { IfOk result (Moved (L.made labels.new) 11 stack.old stack.new world.old world.new) }
    ensures stopped { IfErr result (IfStop (HasStop (L.made labels.new))) }
    ensures belongs { Belongs L.made L.meaning labels.new world.new }
    ensures grows { Grows world.old world.new }
    ensures kept { IsKept L.made L.meaning L.room L.firm labels.old labels.new }
{
    let value = stack.pop();
    let reference = take_reference(labels, stack, target);
    count(
        alloc, labels, world, stack, counting, operator, &reference, value,
    )
}

/// A primitive value is taken as a number, and then the reference is given one more or less.
fn count<'p, L: Labels>(
    alloc: Global,
    labels: &mut L,
    world: &mut World<L::Label>,
    stack: &mut Stack<'p, L::Label>,
    counting: Counting,
    operator: BinaryOperator,
    reference: &Reference<'_, L::Label>,
    value: Labelled<L::Label>,
) -> Result<Control<'p>, FlowFault<L::Label>>
    requires loose { length stack.old.loose ≡ 0 }
    requires reference { HasReference (L.made labels.old) reference.now }
    requires value { L.made labels.old value.label }
    requires belongs { Belongs L.made L.meaning labels.old world.old }
    ensures goes_on { Begun L.made L.meaning labels.new (λ tables inputs set functions reading e. numbered_by counting tables inputs set functions operator (refers reading reference.now) (read_value reading value)) stack.old stack.new world.old world.new result }
    ensures moved { IfOk result (Moved (L.made labels.new) 11 stack.old stack.new world.old world.new) }
    ensures stopped { IfErr result (IfStop (HasStop (L.made labels.new))) }
    ensures belongs { Belongs L.made L.meaning labels.new world.new }
    ensures grows { Grows world.old world.new }
    ensures kept { IsKept L.made L.meaning L.room L.firm labels.old labels.new }
{
    let answer = unary(alloc, world, UnaryOperator::Plus, &value);
    let came = go_on(labels, stack, 0, answer)?;
    match came {
        Went::On(old) => change(
            alloc, labels, world, stack, counting, operator, reference, old,
        ),
        Went::Off(next) => Ok(next),
    }
}

/// The reference is given one more or less than the old number.
fn change<'p, L: Labels>(
    alloc: Global,
    labels: &mut L,
    world: &mut World<L::Label>,
    stack: &mut Stack<'p, L::Label>,
    counting: Counting,
    operator: BinaryOperator,
    reference: &Reference<'_, L::Label>,
    old: Labelled<L::Label>,
) -> Result<Control<'p>, FlowFault<L::Label>>
    requires loose { length stack.old.loose ≡ 0 }
    requires reference { HasReference (L.made labels.old) reference.now }
    requires old { L.made labels.old old.label }
    requires belongs { Belongs L.made L.meaning labels.old world.old }
    ensures goes_on { Begun L.made L.meaning labels.new (λ tables inputs set functions reading e. changed_by counting tables inputs set functions operator (refers reading reference.now) (read_value reading old)) stack.old stack.new world.old world.new result }
    ensures moved { IfOk result (Moved (L.made labels.new) 11 stack.old stack.new world.old world.new) }
    ensures stopped { IfErr result (IfStop (HasStop (L.made labels.new))) }
    ensures belongs { Belongs L.made L.meaning labels.new world.new }
    ensures grows { Grows world.old world.new }
    ensures kept { IsKept L.made L.meaning L.room L.firm labels.old labels.new }
{
    let answer = one_more(alloc, labels, operator, &old);
    let came = go_on(labels, stack, 0, answer)?;
    match came {
        Went::On(new) => give(alloc, labels, world, stack, counting, reference, old, new),
        Went::Off(next) => Ok(next),
    }
}

/// The reference is given the new number, and that or the old one is the value.
fn give<'p, L: Labels>(
    alloc: Global,
    labels: &mut L,
    world: &mut World<L::Label>,
    stack: &mut Stack<'p, L::Label>,
    counting: Counting,
    reference: &Reference<'_, L::Label>,
    old: Labelled<L::Label>,
    new: Labelled<L::Label>,
) -> Result<Control<'p>, FlowFault<L::Label>>
    requires loose { length stack.old.loose ≡ 0 }
    requires reference { HasReference (L.made labels.old) reference.now }
    requires old { L.made labels.old old.label }
    requires new { L.made labels.old new.label }
    requires belongs { Belongs L.made L.meaning labels.old world.old }
    ensures goes_on { Begun L.made L.meaning labels.new (λ tables inputs set functions reading e. given_by counting tables inputs set functions (refers reading reference.now) (read_value reading old) (read_value reading new)) stack.old stack.new world.old world.new result }
    ensures moved { IfOk result (Moved (L.made labels.new) 11 stack.old stack.new world.old world.new) }
    ensures stopped { IfErr result (IfStop (HasStop (L.made labels.new))) }
    ensures belongs { Belongs L.made L.meaning labels.new world.new }
    ensures grows { Grows world.old world.new }
    ensures kept { IsKept L.made L.meaning L.room L.firm labels.old labels.new }
{
    match counting {
        Counting::Prefix => assign(alloc, labels, world, stack, reference, new),
        Counting::Postfix => assign_giving(alloc, labels, world, stack, reference, old, new),
    }
}
