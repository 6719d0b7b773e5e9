//! References, and what is done with them (ECMA-262 11.3, 11.4, 11.13).

ghost use Rattle.std.specs.Prelude.{◌≡◌, ◌<◌, ◌+◌, [], length, map, Ok, IfErr, IfOk};
ghost use Rattle.std.specs.List.{All};
ghost use Rattle.origin_labels.specs.Stores.{IsKept};
ghost use Rattle.flow_frames.specs.Stops.{IfStop};
ghost use Rattle.js_ast.specs.Views.{view_expr, view_exprs};
ghost use Rattle.js_values.specs.Readings.{HasValue, read_value};
ghost use Rattle.native_protocol.specs.declared.request.ErrorKind.TheVariants as error;
ghost use Rattle.es_meaning.specs.Operations as operations;
ghost use Rattle.es_meaning.specs.Operations.{assigned, called, deleted, throws_error};
ghost use Rattle.es_meaning.specs.Evaluation.{use_step, used};
ghost use Rattle.flow_meaning.specs.Planned.{planned, asking};
ghost use Rattle.step_objects.specs.References.{refers, HasReference};
ghost use Rattle.run_state.specs.Worlds.{Belongs, Grows};
ghost use Rattle.continuations.specs.declared.continuation.Use.TheVariants as use_as;
ghost use Rattle.continuations.specs.Pending.{owns_use};
ghost use Rattle.continuations.specs.Settings.{entrance};
ghost use Rattle.continuations.specs.Shapes.{use_of};
ghost use Rattle.continuations.specs.Stops.{HasStop};
ghost use Rattle.step_references.specs.Moving.{Begun, BegunAt, Moved};

use crate::counting::{begin_asking, begin_call, begin_count, begin_update, call_named};
use crate::handing_on::hand_on;
use crate::keeping::lay_reference;
use crate::reading::{assign, read};
use continuations::{Continuation, Control, Counting, Stack, Use, begin_index, begin_member};
use flow_frames::FlowFault;
use flow_text::{OutOfMemory, Text};
use js_ast::{Expr, ExprKind};
use js_number::Primitive;
use js_values::{EnvId, Labelled, Value};
use native_protocol::ErrorKind;
use origin_labels::Labels;
use property_access::{resolve, throw_error};
use run_state::World;
use std::alloc::Global;
use step_numbers::name_value;
use step_objects::{Reference, remove, text_of_key};

/// A reference, or its parentheses, for a use, from the record on in which it stands.
#[tactic(auto, using(js_ast::specs::declared::trees::ExprKind::TheViews::the_lemmas), unfolding(es_meaning::specs::Evaluation::use_step))]
pub fn begin_use<'p, L: Labels>(
    alloc: Global,
    labels: &mut L,
    world: &mut World<L::Label>,
    stack: &mut Stack<'p, L::Label>,
    at: EnvId,
    how: Use<'p>,
    target: &'p Expr,
) -> Result<Control<'p>, FlowFault<L::Label>>
    requires loose { length stack.old.loose ≡ owns_use how }
    requires made { All (HasValue (L.made labels.old)) stack.old.loose }
    requires at { at.0 < length world.old.records }
    requires belongs { Belongs L.made L.meaning labels.old world.old }
    ensures goes_on { BegunAt L.made L.meaning labels.new at.0 (λ tables inputs set functions reading e. use_step (planned tables inputs set functions) (entrance tables inputs set functions) (asking tables inputs set functions) (use_of how.entry (map (read_value reading) stack.old.loose)) (view_expr target.entry.now) e.env.place) stack.old stack.new world.old world.new result }
    ensures moved { IfOk result (Moved (L.made labels.new) 16 stack.old stack.new world.old world.new) }
    ensures stopped { IfErr result (IfStop (HasStop (L.made labels.new))) }
    ensures belongs { Belongs L.made L.meaning labels.new world.new }
    ensures grows { Grows world.old world.new }
    ensures kept { IsKept L.made L.meaning L.room L.firm labels.old labels.new }
{
    match &*target.kind {
        ExprKind::Name(name) => use_name(alloc, labels, world, stack, at, how, name),
        ExprKind::Member { base, name } => {
            let next = begin_member(stack, how, base, name)?;
            Ok(next)
        }
        ExprKind::Index { base, index } => {
            let next = begin_index(stack, how, base, index)?;
            Ok(next)
        }
        ExprKind::Paren(inner) => Ok(Control::Use(how, inner)),
        _ => refuse_use(labels, world, stack, how),
    }
}

/// What is no reference can't be used as one (ECMA-262 8.7.2, step 1). No script that is accepted comes here.
fn refuse_use<'p, L: Labels>(
    labels: &mut L,
    world: &mut World<L::Label>,
    stack: &mut Stack<'p, L::Label>,
    how: Use<'p>,
) -> Result<Control<'p>, FlowFault<L::Label>>
    requires loose { length stack.old.loose ≡ owns_use how }
    requires belongs { Belongs L.made L.meaning labels.old world.old }
    ensures goes_on { Begun L.made L.meaning labels.new (λ tables inputs set functions reading e. (planned tables inputs set functions).act (throws_error error.ReferenceError) []) stack.old stack.new world.old world.new result }
    ensures moved { IfOk result (Moved (L.made labels.new) 16 stack.old stack.new world.old world.new) }
    ensures stopped { IfErr result (IfStop (HasStop (L.made labels.new))) }
    ensures belongs { Belongs L.made L.meaning labels.new world.new }
    ensures grows { Grows world.old world.new }
    ensures kept { IsKept L.made L.meaning L.room L.firm labels.old labels.new }
{
    stack.clear(how.owns());
    let none = labels.bottom();
    let answer = throw_error(labels, world, ErrorKind::ReferenceError, none);
    hand_on(labels, stack, answer)
}

/// A name for a use. A call reads the value of a name at once, where it can.
#[inline(always)]
fn use_name<'p, L: Labels>(
    alloc: Global,
    labels: &mut L,
    world: &mut World<L::Label>,
    stack: &mut Stack<'p, L::Label>,
    at: EnvId,
    how: Use<'p>,
    name: &'p Text,
) -> Result<Control<'p>, FlowFault<L::Label>>
    requires loose { length stack.old.loose ≡ owns_use how }
    requires made { All (HasValue (L.made labels.old)) stack.old.loose }
    requires at { at.0 < length world.old.records }
    requires belongs { Belongs L.made L.meaning labels.old world.old }
    ensures goes_on { BegunAt L.made L.meaning labels.new at.0 (λ tables inputs set functions reading e. (planned tables inputs set functions).resolve operations.Value e.env.place name.entry.now (used (planned tables inputs set functions) (entrance tables inputs set functions) (asking tables inputs set functions) (use_of how.entry (map (read_value reading) stack.old.loose)) e.env.place)) stack.old stack.new world.old world.new result }
    ensures moved { IfOk result (Moved (L.made labels.new) 16 stack.old stack.new world.old world.new) }
    ensures stopped { IfErr result (IfStop (HasStop (L.made labels.new))) }
    ensures belongs { Belongs L.made L.meaning labels.new world.new }
    ensures grows { Grows world.old world.new }
    ensures kept { IsKept L.made L.meaning L.room L.firm labels.old labels.new }
{
    if let Use::Called(list) = how {
        return use_callee(alloc, labels, world, stack, at, name, list);
    }
    let named = resolve(labels, world, at, name)?;
    use_named(alloc, labels, world, stack, how, Reference::Name(named))
}

/// The value of a name is called. It is read at once, where that can be.
#[inline(always)]
fn use_callee<'p, L: Labels>(
    alloc: Global,
    labels: &mut L,
    world: &mut World<L::Label>,
    stack: &mut Stack<'p, L::Label>,
    at: EnvId,
    name: &'p Text,
    list: &'p [Expr],
) -> Result<Control<'p>, FlowFault<L::Label>>
    requires loose { length stack.old.loose ≡ 0 }
    requires at { at.0 < length world.old.records }
    requires belongs { Belongs L.made L.meaning labels.old world.old }
    ensures goes_on { BegunAt L.made L.meaning labels.new at.0 (λ tables inputs set functions reading e. (planned tables inputs set functions).resolve operations.Value e.env.place name.entry.now (used (planned tables inputs set functions) (entrance tables inputs set functions) (asking tables inputs set functions) (called (view_exprs list.entry.now)) e.env.place)) stack.old stack.new world.old world.new result }
    ensures moved { IfOk result (Moved (L.made labels.new) 11 stack.old stack.new world.old world.new) }
    ensures stopped { IfErr result (IfStop (HasStop (L.made labels.new))) }
    ensures belongs { Belongs L.made L.meaning labels.new world.new }
    ensures grows { Grows world.old world.new }
    ensures kept { IsKept L.made L.meaning L.room L.firm labels.old labels.new }
{
    if let Some(callee) = name_value(labels, world, at, name) {
        return call_named(labels, world, stack, at, name, callee, list);
    }
    let named = resolve(labels, world, at, name)?;
    begin_call(alloc, labels, world, stack, Reference::Name(named), list)
}

/// What is done with a reference that is a name, as with any. The most frequent uses don't go through all of them: a call of the large `use_reference` costs more than they do.
#[inline(always)]
fn use_named<'p, L: Labels>(
    alloc: Global,
    labels: &mut L,
    world: &mut World<L::Label>,
    stack: &mut Stack<'p, L::Label>,
    how: Use<'p>,
    reference: Reference<'p, L::Label>,
) -> Result<Control<'p>, FlowFault<L::Label>>
    requires loose { length stack.old.loose ≡ owns_use how }
    requires made { All (HasValue (L.made labels.old)) stack.old.loose }
    requires reference { HasReference (L.made labels.old) reference }
    requires belongs { Belongs L.made L.meaning labels.old world.old }
    ensures goes_on { Begun L.made L.meaning labels.new (λ tables inputs set functions reading e. used (planned tables inputs set functions) (entrance tables inputs set functions) (asking tables inputs set functions) (use_of how.entry (map (read_value reading) stack.old.loose)) e.env.place (refers reading reference.entry)) stack.old stack.new world.old world.new result }
    ensures moved { IfOk result (Moved (L.made labels.new) 16 stack.old stack.new world.old world.new) }
    ensures stopped { IfErr result (IfStop (HasStop (L.made labels.new))) }
    ensures belongs { Belongs L.made L.meaning labels.new world.new }
    ensures grows { Grows world.old world.new }
    ensures kept { IsKept L.made L.meaning L.room L.firm labels.old labels.new }
{
    match how {
        Use::Assigned(value) => {
            let next = begin_assign(labels, world, stack, reference, value)?;
            Ok(next)
        }
        Use::Updated(operator, operand) => {
            begin_update(alloc, labels, world, stack, reference, operator, operand)
        }
        Use::Prefixed(operator) => {
            let counting = Counting::Prefix;
            begin_count(alloc, labels, world, stack, reference, counting, operator)
        }
        Use::Postfixed(operator) => {
            let counting = Counting::Postfix;
            begin_count(alloc, labels, world, stack, reference, counting, operator)
        }
        Use::Called(list) => begin_call(alloc, labels, world, stack, reference, list),
        _ => use_reference(alloc, labels, world, stack, how, reference),
    }
}

/// The same of a property. An assignment isn't among its frequent uses, since with one more use that is inlined it would be too large to be inlined itself.
#[inline(always)]
pub(crate) fn use_keyed<'p, L: Labels>(
    alloc: Global,
    labels: &mut L,
    world: &mut World<L::Label>,
    stack: &mut Stack<'p, L::Label>,
    how: Use<'p>,
    reference: Reference<'p, L::Label>,
) -> Result<Control<'p>, FlowFault<L::Label>>
    requires loose { length stack.old.loose ≡ owns_use how }
    requires made { All (HasValue (L.made labels.old)) stack.old.loose }
    requires reference { HasReference (L.made labels.old) reference }
    requires belongs { Belongs L.made L.meaning labels.old world.old }
    ensures goes_on { Begun L.made L.meaning labels.new (λ tables inputs set functions reading e. used (planned tables inputs set functions) (entrance tables inputs set functions) (asking tables inputs set functions) (use_of how.entry (map (read_value reading) stack.old.loose)) e.env.place (refers reading reference.entry)) stack.old stack.new world.old world.new result }
    ensures moved { IfOk result (Moved (L.made labels.new) 16 stack.old stack.new world.old world.new) }
    ensures stopped { IfErr result (IfStop (HasStop (L.made labels.new))) }
    ensures belongs { Belongs L.made L.meaning labels.new world.new }
    ensures grows { Grows world.old world.new }
    ensures kept { IsKept L.made L.meaning L.room L.firm labels.old labels.new }
{
    match how {
        Use::Valued => read(alloc, labels, world, stack, &reference),
        Use::Called(list) => begin_call(alloc, labels, world, stack, reference, list),
        _ => use_reference(alloc, labels, world, stack, how, reference),
    }
}

/// What is done with a reference.
pub(crate) fn use_reference<'p, L: Labels>(
    alloc: Global,
    labels: &mut L,
    world: &mut World<L::Label>,
    stack: &mut Stack<'p, L::Label>,
    how: Use<'p>,
    reference: Reference<'p, L::Label>,
) -> Result<Control<'p>, FlowFault<L::Label>>
    requires loose { length stack.old.loose ≡ owns_use how }
    requires made { All (HasValue (L.made labels.old)) stack.old.loose }
    requires reference { HasReference (L.made labels.old) reference }
    requires belongs { Belongs L.made L.meaning labels.old world.old }
    ensures goes_on { Begun L.made L.meaning labels.new (λ tables inputs set functions reading e. used (planned tables inputs set functions) (entrance tables inputs set functions) (asking tables inputs set functions) (use_of how.entry (map (read_value reading) stack.old.loose)) e.env.place (refers reading reference.entry)) stack.old stack.new world.old world.new result }
    ensures moved { IfOk result (Moved (L.made labels.new) 16 stack.old stack.new world.old world.new) }
    ensures stopped { IfErr result (IfStop (HasStop (L.made labels.new))) }
    ensures belongs { Belongs L.made L.meaning labels.new world.new }
    ensures grows { Grows world.old world.new }
    ensures kept { IsKept L.made L.meaning L.room L.firm labels.old labels.new }
{
    match how {
        Use::Assigned(value) => {
            let next = begin_assign(labels, world, stack, reference, value)?;
            Ok(next)
        }
        Use::Updated(operator, operand) => {
            begin_update(alloc, labels, world, stack, reference, operator, operand)
        }
        Use::Prefixed(operator) => {
            let counting = Counting::Prefix;
            begin_count(alloc, labels, world, stack, reference, counting, operator)
        }
        Use::Postfixed(operator) => {
            let counting = Counting::Postfix;
            begin_count(alloc, labels, world, stack, reference, counting, operator)
        }
        Use::Asked => begin_asking(alloc, labels, world, stack, &reference),
        Use::Valued => read(alloc, labels, world, stack, &reference),
        Use::Deleted => begin_deletion(alloc, labels, world, stack, &reference),
        Use::Called(list) => begin_call(alloc, labels, world, stack, reference, list),
        Use::GivenText => give_text(alloc, labels, world, stack, &reference),
    }
}

/// An assignment: its value is evaluated first.
#[inline(always)]
fn begin_assign<'p, L: Labels>(
    labels: &L,
    world: &World<L::Label>,
    stack: &mut Stack<'p, L::Label>,
    reference: Reference<'p, L::Label>,
    value: &'p Expr,
) -> Result<Control<'p>, OutOfMemory>
    requires loose { length stack.old.loose ≡ 0 }
    requires reference { HasReference (L.made labels.now) reference }
    ensures goes_on { IfOk result (λ next. Begun L.made L.meaning labels.now (λ tables inputs set functions reading e. used (planned tables inputs set functions) (entrance tables inputs set functions) (asking tables inputs set functions) (assigned (view_expr value.entry.now)) e.env.place (refers reading reference.entry)) stack.old stack.new world.now world.now (Ok next)) }
    ensures moved { IfOk result (Moved (L.made labels.now) 6 stack.old stack.new world.now world.now) }
{
    let target = lay_reference(stack, reference)?;
    stack.push(Continuation::AssignTo(target))?;
    Ok(Control::Expr(value))
}

/// The property that a reference names is deleted.
fn begin_deletion<'p, L: Labels>(
    alloc: Global,
    labels: &mut L,
    world: &mut World<L::Label>,
    stack: &mut Stack<'p, L::Label>,
    reference: &Reference<'_, L::Label>,
) -> Result<Control<'p>, FlowFault<L::Label>>
    requires loose { length stack.old.loose ≡ 0 }
    requires reference { HasReference (L.made labels.old) reference.now }
    requires belongs { Belongs L.made L.meaning labels.old world.old }
    ensures goes_on { Begun L.made L.meaning labels.new (λ tables inputs set functions reading e. used (planned tables inputs set functions) (entrance tables inputs set functions) (asking tables inputs set functions) deleted e.env.place (refers reading reference.now)) stack.old stack.new world.old world.new result }
    ensures moved { IfOk result (Moved (L.made labels.new) 6 stack.old stack.new world.old world.new) }
    ensures stopped { IfErr result (IfStop (HasStop (L.made labels.new))) }
    ensures belongs { Belongs L.made L.meaning labels.new world.new }
    ensures grows { Grows world.old world.new }
    ensures kept { IsKept L.made L.meaning L.room L.firm labels.old labels.new }
{
    let answer = remove(alloc, labels, world, reference);
    hand_on(labels, stack, answer)
}

/// The reference is given the text that lies loose, which has no origin then.
pub(crate) fn give_text<'p, L: Labels>(
    alloc: Global,
    labels: &mut L,
    world: &mut World<L::Label>,
    stack: &mut Stack<'p, L::Label>,
    reference: &Reference<'_, L::Label>,
) -> Result<Control<'p>, FlowFault<L::Label>>
    requires loose { length stack.old.loose ≡ 1 }
    requires reference { HasReference (L.made labels.old) reference.now }
    requires belongs { Belongs L.made L.meaning labels.old world.old }
    ensures goes_on { Begun L.made L.meaning labels.new (λ tables inputs set functions reading e. used (planned tables inputs set functions) (entrance tables inputs set functions) (asking tables inputs set functions) (use_of use_as.GivenText (map (read_value reading) stack.old.loose)) e.env.place (refers reading reference.now)) stack.old stack.new world.old world.new result }
    ensures moved { IfOk result (Moved (L.made labels.new) 11 stack.old stack.new world.old world.new) }
    ensures stopped { IfErr result (IfStop (HasStop (L.made labels.new))) }
    ensures belongs { Belongs L.made L.meaning labels.new world.new }
    ensures grows { Grows world.old world.new }
    ensures kept { IsKept L.made L.meaning L.room L.firm labels.old labels.new }
{
    let text = text_of_key(alloc, stack.pop().value)?;
    let value = Labelled {
        value: Value::Primitive(Primitive::Str(text)),
        label: labels.bottom(),
    };
    assign(alloc, labels, world, stack, reference, value)
}
