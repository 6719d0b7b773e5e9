//! Variables with their first values (ECMA-262 12.2).

ghost use Rattle.std.specs.Prelude.{◌≡◌, ◌<◌, ◌+◌, length, map, IfErr, IfOk, option_map};
ghost use Rattle.std.specs.List.{All};
ghost use Rattle.origin_labels.specs.Stores.{IsKept};
ghost use Rattle.flow_frames.specs.Stops.{IfStop};
ghost use Rattle.js_ast.specs.Views.{view_declarations, view_expr, view_other_declarations};
ghost use Rattle.js_values.specs.Readings.{HasValue, read_value};
ghost use Rattle.es_meaning.specs.Evaluation.{declarations, more_variables, variables};
ghost use Rattle.flow_meaning.specs.Planned.{planned, asking};
ghost use Rattle.step_objects.specs.References.{refers, HasReference};
ghost use Rattle.run_state.specs.Accesses.{HasPutting, read_putting};
ghost use Rattle.run_state.specs.Worlds.{Belongs, Grows};
ghost use Rattle.continuations.specs.declared.continuation.Continuation.TheVariants as continuation;
ghost use Rattle.continuations.specs.declared.continuation.Control.TheVariants as control;
ghost use Rattle.continuations.specs.Pending.{next_plan, owns_target};
ghost use Rattle.continuations.specs.Settings.{entrance};
ghost use Rattle.continuations.specs.Stops.{HasStop};
ghost use Rattle.step_references.specs.Variables.{behind_putting, first_given, initialised};
ghost use Rattle.step_references.specs.Moving.{Begun, BegunAt, Moved, ResumedAt};

use crate::entering::{begin_setter, called};
use crate::handing_on::{Went, go_on};
use crate::keeping::{lay_reference, take_reference};
use crate::uses::give_text;
use continuations::{Continuation, Control, Stack, Target, begin_length};
use flow_frames::FlowFault;
use flow_text::{OutOfMemory, Text};
use js_ast::{Declaration, Declarations, Expr, Ident};
use js_values::{EnvId, Labelled};
use origin_labels::Labels;
use property_access::resolve;
use run_state::{Named, Putting, SetLength, World};
use std::alloc::Global;
use step_objects::{Reference, put_value};

/// Variables in their order: the first that has an initialiser is given its value first.
pub fn declare<'p, L: Labels>(
    labels: &mut L,
    world: &World<L::Label>,
    stack: &mut Stack<'p, L::Label>,
    at: EnvId,
    list: &'p Declarations,
) -> Result<Control<'p>, FlowFault<L::Label>>
    requires loose { length stack.old.loose ≡ 0 }
    requires at { at.0 < length world.now.records }
    requires belongs { Belongs L.made L.meaning labels.old world.now }
    ensures goes_on { BegunAt L.made L.meaning labels.new at.0 (λ tables inputs set functions reading e. declarations (planned tables inputs set functions) (entrance tables inputs set functions) (asking tables inputs set functions) (view_declarations list.entry.now) e.env.place) stack.old stack.new world.now world.now result }
    ensures moved { IfOk result (Moved (L.made labels.new) 6 stack.old stack.new world.now world.now) }
    ensures stopped { IfErr result (IfStop (HasStop (L.made labels.new))) }
    ensures belongs { Belongs L.made L.meaning labels.new world.now }
    ensures kept { IsKept L.made L.meaning L.room L.firm labels.old labels.new }
{
    match &list.first.value {
        Some(value) => {
            let name = &list.first.name.text;
            initialise(labels, world, stack, at, name, value, list.others.items())
        }
        None => declare_others(labels, world, stack, at, list.others.items()),
    }
}

/// Further variables.
fn declare_others<'p, L: Labels>(
    labels: &mut L,
    world: &World<L::Label>,
    stack: &mut Stack<'p, L::Label>,
    at: EnvId,
    list: &'p [Declaration],
) -> Result<Control<'p>, FlowFault<L::Label>>
    requires loose { length stack.old.loose ≡ 0 }
    requires at { at.0 < length world.now.records }
    requires belongs { Belongs L.made L.meaning labels.old world.now }
    ensures goes_on { BegunAt L.made L.meaning labels.new at.0 (λ tables inputs set functions reading e. variables (planned tables inputs set functions) (entrance tables inputs set functions) (asking tables inputs set functions) (view_other_declarations list.entry.now) e.env.place) stack.old stack.new world.now world.now result }
    ensures moved { IfOk result (Moved (L.made labels.new) 6 stack.old stack.new world.now world.now) }
    ensures stopped { IfErr result (IfStop (HasStop (L.made labels.new))) }
    ensures belongs { Belongs L.made L.meaning labels.new world.now }
    ensures kept { IsKept L.made L.meaning L.room L.firm labels.old labels.new }
{
    match first_given(list) {
        Some((name, value, rest)) => initialise(labels, world, stack, at, name, value, rest),
        None => Ok(Control::Done),
    }
}

/// The first variable that has an initialiser, its initialiser, and the variables behind it.
fn first_given<'p>(list: &'p [Declaration]) -> Option<(&'p Text, &'p Expr, &'p [Declaration])>
    ensures { option_map (λ v. (v.0.now, view_expr v.1.now, view_other_declarations v.2.now)) result ≡ first_given (view_other_declarations list.now) }
{
    let mut left = list;
    while let [first, rest @ ..] = left {
        if let Some(value) = &first.value {
            return Some((&first.name.text, value, rest));
        }
        left = rest;
    }
    None
}

/// A variable's initialiser is evaluated, and then the variable is given its value, and those behind it follow.
fn initialise<'p, L: Labels>(
    labels: &mut L,
    world: &World<L::Label>,
    stack: &mut Stack<'p, L::Label>,
    at: EnvId,
    name: &'p Text,
    value: &'p Expr,
    rest: &'p [Declaration],
) -> Result<Control<'p>, FlowFault<L::Label>>
    requires loose { length stack.old.loose ≡ 0 }
    requires at { at.0 < length world.now.records }
    requires belongs { Belongs L.made L.meaning labels.old world.now }
    ensures goes_on { BegunAt L.made L.meaning labels.new at.0 (λ tables inputs set functions reading e. initialised tables inputs set functions (name.entry.now, view_expr value.entry.now, view_other_declarations rest.entry.now) e.env.place) stack.old stack.new world.now world.now result }
    ensures moved { IfOk result (Moved (L.made labels.new) 6 stack.old stack.new world.now world.now) }
    ensures stopped { IfErr result (IfStop (HasStop (L.made labels.new))) }
    ensures belongs { Belongs L.made L.meaning labels.new world.now }
    ensures kept { IsKept L.made L.meaning L.room L.firm labels.old labels.new }
{
    let named = resolve(labels, world, at, name)?;
    let target = lay_reference(stack, Reference::Name(named))?;
    stack.push(Continuation::Variable(target, rest))?;
    Ok(Control::Expr(value))
}

/// Behind an initialiser's value: the variable is given it, and those behind it follow.
pub fn more_variables<'p, L: Labels>(
    alloc: Global,
    labels: &mut L,
    world: &mut World<L::Label>,
    stack: &mut Stack<'p, L::Label>,
    at: EnvId,
    target: Target<'p>,
    rest: &'p [Declaration],
) -> Result<Control<'p>, FlowFault<L::Label>>
    requires loose { length stack.old.loose ≡ owns_target target + 1 }
    requires made { All (HasValue (L.made labels.old)) stack.old.loose }
    requires at { at.0 < length world.old.records }
    requires belongs { Belongs L.made L.meaning labels.old world.old }
    ensures goes_on { ResumedAt L.made L.meaning labels.new at.0 (continuation.Variable target.entry rest.entry) stack.old stack.new world.old world.new result }
    ensures moved { IfOk result (Moved (L.made labels.new) 11 stack.old stack.new world.old world.new) }
    ensures stopped { IfErr result (IfStop (HasStop (L.made labels.new))) }
    ensures belongs { Belongs L.made L.meaning labels.new world.new }
    ensures grows { Grows world.old world.new }
    ensures kept { IsKept L.made L.meaning L.room L.firm labels.old labels.new }
{
    let value = stack.pop();
    let reference = take_reference(labels, stack, target);
    give_first(alloc, labels, world, stack, at, &reference, value, rest)
}

/// A variable is given its value, and those behind it follow.
fn give_first<'p, L: Labels>(
    alloc: Global,
    labels: &mut L,
    world: &mut World<L::Label>,
    stack: &mut Stack<'p, L::Label>,
    at: EnvId,
    reference: &Reference<'_, L::Label>,
    value: Labelled<L::Label>,
    rest: &'p [Declaration],
) -> Result<Control<'p>, FlowFault<L::Label>>
    requires loose { length stack.old.loose ≡ 0 }
    requires reference { HasReference (L.made labels.old) reference.now }
    requires value { L.made labels.old value.label }
    requires at { at.0 < length world.old.records }
    requires belongs { Belongs L.made L.meaning labels.old world.old }
    ensures goes_on { BegunAt L.made L.meaning labels.new at.0 (λ tables inputs set functions reading e. more_variables (planned tables inputs set functions) (entrance tables inputs set functions) (asking tables inputs set functions) (refers reading reference.now) (view_other_declarations rest.entry.now) e.env.place (read_value reading value)) stack.old stack.new world.old world.new result }
    ensures moved { IfOk result (Moved (L.made labels.new) 11 stack.old stack.new world.old world.new) }
    ensures stopped { IfErr result (IfStop (HasStop (L.made labels.new))) }
    ensures belongs { Belongs L.made L.meaning labels.new world.new }
    ensures grows { Grows world.old world.new }
    ensures kept { IsKept L.made L.meaning L.room L.firm labels.old labels.new }
{
    let given = value.copy(alloc)?;
    let answer = put_value(alloc, labels, world, reference, given);
    let came = go_on(labels, stack, 0, answer)?;
    match came {
        Went::On(putting) => behind_putting(alloc, labels, world, stack, at, putting, value, rest),
        Went::Off(next) => Ok(next),
    }
}

/// Behind a put those variables that follow, or its setter is called first, or the `length` of an array is set.
fn behind_putting<'p, L: Labels>(
    alloc: Global,
    labels: &mut L,
    world: &World<L::Label>,
    stack: &mut Stack<'p, L::Label>,
    at: EnvId,
    putting: Putting<L::Label>,
    value: Labelled<L::Label>,
    rest: &'p [Declaration],
) -> Result<Control<'p>, FlowFault<L::Label>>
    requires loose { length stack.old.loose ≡ 0 }
    requires at { at.0 < length world.now.records }
    requires putting { HasPutting (L.made labels.old) putting }
    requires value { L.made labels.old value.label }
    requires belongs { Belongs L.made L.meaning labels.old world.now }
    ensures goes_on { BegunAt L.made L.meaning labels.new at.0 (λ tables inputs set functions reading e. behind_putting tables inputs set functions (view_other_declarations rest.entry.now) e.env.place (read_value reading value) (read_putting reading putting)) stack.old stack.new world.now world.now result }
    ensures moved { IfOk result (Moved (L.made labels.new) 11 stack.old stack.new world.now world.now) }
    ensures stopped { IfErr result (IfStop (HasStop (L.made labels.new))) }
    ensures belongs { Belongs L.made L.meaning labels.new world.now }
    ensures kept { IsKept L.made L.meaning L.room L.firm labels.old labels.new }
{
    match putting {
        Putting::Put => declare_others(labels, world, stack, at, rest),
        Putting::Setter {
            label,
            function,
            this,
        } => {
            let work = Continuation::VariablesBehind(rest);
            let next = begin_setter(stack, work, called(function, label), this, value)?;
            Ok(next)
        }
        Putting::Length { label, array } => {
            stack.push(Continuation::VariablesBehind(rest))?;
            let next = begin_length(alloc, stack, SetLength::Put, called(array, label), value)?;
            Ok(next)
        }
    }
}

/// Behind a setter, which gave a value of no use, the variables that follow.
pub fn variables_behind<'p, L: Labels>(
    labels: &mut L,
    world: &World<L::Label>,
    stack: &mut Stack<'p, L::Label>,
    at: EnvId,
    rest: &'p [Declaration],
) -> Result<Control<'p>, FlowFault<L::Label>>
    requires loose { length stack.old.loose ≡ 1 }
    requires at { at.0 < length world.now.records }
    requires belongs { Belongs L.made L.meaning labels.old world.now }
    ensures goes_on { ResumedAt L.made L.meaning labels.new at.0 (continuation.VariablesBehind rest.entry) stack.old stack.new world.now world.now result }
    ensures moved { IfOk result (Moved (L.made labels.new) 6 stack.old stack.new world.now world.now) }
    ensures stopped { IfErr result (IfStop (HasStop (L.made labels.new))) }
    ensures belongs { Belongs L.made L.meaning labels.new world.now }
    ensures kept { IsKept L.made L.meaning L.room L.firm labels.old labels.new }
{
    stack.clear(1);
    declare_others(labels, world, stack, at, rest)
}

/// A variable is given the text that lies loose, as each key that a `for in` visits.
pub fn give_variable<'p, L: Labels>(
    alloc: Global,
    labels: &mut L,
    world: &mut World<L::Label>,
    stack: &mut Stack<'p, L::Label>,
    at: EnvId,
    variable: &'p Ident,
) -> Result<Control<'p>, FlowFault<L::Label>>
    requires loose { length stack.old.loose ≡ 1 }
    requires at { at.0 < length world.old.records }
    requires belongs { Belongs L.made L.meaning labels.old world.old }
    ensures goes_on { BegunAt L.made L.meaning labels.new at.0 (λ tables inputs set functions reading e. next_plan tables inputs set functions (control.GiveVariable variable.entry) (map (read_value reading) stack.old.loose) e) stack.old stack.new world.old world.new result }
    ensures moved { IfOk result (Moved (L.made labels.new) 11 stack.old stack.new world.old world.new) }
    ensures stopped { IfErr result (IfStop (HasStop (L.made labels.new))) }
    ensures belongs { Belongs L.made L.meaning labels.new world.new }
    ensures grows { Grows world.old world.new }
    ensures kept { IsKept L.made L.meaning L.room L.firm labels.old labels.new }
{
    let named = resolve(labels, world, at, &variable.text)?;
    give_text(alloc, labels, world, stack, &Reference::Name(named))
}
