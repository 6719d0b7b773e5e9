//! Names as values and as targets.

ghost use Rattle.std.specs.Prelude.{◌≡◌, ◌<◌, ◌+◌, [], length, IfErr, IfOk};
ghost use Rattle.std.specs.List.{All};
ghost use Rattle.origin_labels.specs.Stores.{IsKept};
ghost use Rattle.flow_frames.specs.Stops.{IfStop};
ghost use Rattle.js_values.specs.Readings.{HasValue};
ghost use Rattle.es_meaning.specs.Operations.{Value};
ghost use Rattle.es_meaning.specs.Evaluation.{read_value};
ghost use Rattle.es_meaning.specs.Functions.{this_name};
ghost use Rattle.flow_meaning.specs.Planned.{planned, asking};
ghost use Rattle.run_state.specs.Worlds.{Belongs, Grows};
ghost use Rattle.continuations.specs.declared.continuation.Control.TheVariants as control;
ghost use Rattle.continuations.specs.declared.continuation.Continuation.TheVariants as continuation;
ghost use Rattle.continuations.specs.Pending.{next_plan, owns_target};
ghost use Rattle.continuations.specs.Settings.{entrance};
ghost use Rattle.continuations.specs.Stops.{HasStop};
ghost use Rattle.step_references.specs.Moving.{BegunAt, Moved, Resumed};

use crate::keeping::take_reference;
use crate::reading::{assign, read};
use continuations::{Control, Stack, Target};
use flow_frames::FlowFault;
use flow_text::Text;
use js_values::EnvId;
use origin_labels::Labels;
use property_access::resolve;
use run_state::World;
use std::alloc::Global;
use step_objects::Reference;

/// The value of a name (ECMA-262 11.1.2), from the record on in which it stands.
pub fn read_name<'p, L: Labels>(
    alloc: Global,
    labels: &mut L,
    world: &mut World<L::Label>,
    stack: &mut Stack<'p, L::Label>,
    at: EnvId,
    name: &Text,
) -> Result<Control<'p>, FlowFault<L::Label>>
    requires loose { length stack.old.loose ≡ 0 }
    requires at { at.0 < length world.old.records }
    requires belongs { Belongs L.made L.meaning labels.old world.old }
    ensures goes_on { BegunAt L.made L.meaning labels.new at.0 (λ tables inputs set functions reading e. (planned tables inputs set functions).resolve Value e.env.place name.now (read_value (planned tables inputs set functions) (entrance tables inputs set functions) (asking tables inputs set functions))) stack.old stack.new world.old world.new result }
    ensures moved { IfOk result (Moved (L.made labels.new) 8 stack.old stack.new world.old world.new) }
    ensures stopped { IfErr result (IfStop (HasStop (L.made labels.new))) }
    ensures belongs { Belongs L.made L.meaning labels.new world.new }
    ensures grows { Grows world.old world.new }
    ensures kept { IsKept L.made L.meaning L.room L.firm labels.old labels.new }
{
    let named = resolve(labels, world, at, name)?;
    read(alloc, labels, world, stack, &Reference::Name(named))
}

/// The value of `this` (ECMA-262 11.1.1), which a record binds under this name.
pub fn this<'p, L: Labels>(
    alloc: Global,
    labels: &mut L,
    world: &mut World<L::Label>,
    stack: &mut Stack<'p, L::Label>,
    at: EnvId,
    name: &Text,
) -> Result<Control<'p>, FlowFault<L::Label>>
    requires name { name.now ≡ this_name }
    requires loose { length stack.old.loose ≡ 0 }
    requires at { at.0 < length world.old.records }
    requires belongs { Belongs L.made L.meaning labels.old world.old }
    ensures goes_on { BegunAt L.made L.meaning labels.new at.0 (λ tables inputs set functions reading e. next_plan tables inputs set functions control.This [] e) stack.old stack.new world.old world.new result }
    ensures moved { IfOk result (Moved (L.made labels.new) 8 stack.old stack.new world.old world.new) }
    ensures stopped { IfErr result (IfStop (HasStop (L.made labels.new))) }
    ensures belongs { Belongs L.made L.meaning labels.new world.new }
    ensures grows { Grows world.old world.new }
    ensures kept { IsKept L.made L.meaning L.room L.firm labels.old labels.new }
{
    read_name(alloc, labels, world, stack, at, name)
}

/// The value is given to the reference (ECMA-262 11.13.1).
pub fn assigned<'p, L: Labels>(
    alloc: Global,
    labels: &mut L,
    world: &mut World<L::Label>,
    stack: &mut Stack<'p, L::Label>,
    target: Target<'p>,
) -> Result<Control<'p>, FlowFault<L::Label>>
    requires loose { length stack.old.loose ≡ owns_target target + 1 }
    requires made { All (HasValue (L.made labels.old)) stack.old.loose }
    requires belongs { Belongs L.made L.meaning labels.old world.old }
    ensures goes_on { Resumed L.made L.meaning labels.new (continuation.AssignTo target.entry) stack.old stack.new world.old world.new result }
    ensures moved { IfOk result (Moved (L.made labels.new) 11 stack.old stack.new world.old world.new) }
    ensures stopped { IfErr result (IfStop (HasStop (L.made labels.new))) }
    ensures belongs { Belongs L.made L.meaning labels.new world.new }
    ensures grows { Grows world.old world.new }
    ensures kept { IsKept L.made L.meaning L.room L.firm labels.old labels.new }
{
    let value = stack.pop();
    let reference = take_reference(labels, stack, target);
    assign(alloc, labels, world, stack, &reference, value)
}
