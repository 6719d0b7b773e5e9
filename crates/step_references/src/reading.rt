//! Reads of references, and puts.

ghost use Rattle.std.specs.Prelude.{◌≡◌, length, IfErr, IfOk};
ghost use Rattle.origin_labels.specs.Stores.{IsKept};
ghost use Rattle.flow_frames.specs.Stops.{IfStop};
ghost use Rattle.js_values.specs.Readings.{read_value};
ghost use Rattle.es_meaning.specs.Evaluation.{assign_giving, assign_to};
ghost use Rattle.flow_meaning.specs.Planned.{planned};
ghost use Rattle.step_objects.specs.References.{refers, HasReference};
ghost use Rattle.flow_meaning.specs.Tracked.{put_value};
ghost use Rattle.run_state.specs.Accesses.{HasPutting, read_putting};
ghost use Rattle.run_state.specs.Acts.{Acts, HasAnswer};
ghost use Rattle.run_state.specs.Worlds.{Belongs, Grows};
ghost use Rattle.continuations.specs.Settings.{entrance};
ghost use Rattle.continuations.specs.Stops.{HasStop};
ghost use Rattle.step_references.specs.Moving.{Begun, Moved};

use crate::handing_on::{hand_on_access, hand_on_putting};
use continuations::{Control, Stack};
use flow_frames::FlowFault;
use js_values::Labelled;
use origin_labels::Labels;
use run_state::{Outcome, Putting, World};
use std::alloc::Global;
use step_numbers::put_at_once;
use step_objects::{Reference, get_value, put_value};

/// The value of a reference (ECMA-262 8.7.1).
#[inline(always)]
pub(crate) fn read<'p, L: Labels>(
    alloc: Global,
    labels: &mut L,
    world: &mut World<L::Label>,
    stack: &mut Stack<'p, L::Label>,
    reference: &Reference<'_, L::Label>,
) -> Result<Control<'p>, FlowFault<L::Label>>
    requires loose { length stack.old.loose ≡ 0 }
    requires reference { HasReference (L.made labels.old) reference.now }
    requires belongs { Belongs L.made L.meaning labels.old world.old }
    ensures goes_on { Begun L.made L.meaning labels.new (λ tables inputs set functions reading e. (planned tables inputs set functions).get_value (refers reading reference.now) (entrance tables inputs set functions)) stack.old stack.new world.old world.new result }
    ensures moved { IfOk result (Moved (L.made labels.new) 8 stack.old stack.new world.old world.new) }
    ensures stopped { IfErr result (IfStop (HasStop (L.made labels.new))) }
    ensures belongs { Belongs L.made L.meaning labels.new world.new }
    ensures grows { Grows world.old world.new }
    ensures kept { IsKept L.made L.meaning L.room L.firm labels.old labels.new }
{
    let answer = get_value(alloc, labels, world, reference);
    hand_on_access(labels, stack, answer)
}

/// The value is given to the reference, and is what the assignment gives (ECMA-262 11.13.1).
#[inline(always)]
pub fn assign<'p, L: Labels>(
    alloc: Global,
    labels: &mut L,
    world: &mut World<L::Label>,
    stack: &mut Stack<'p, L::Label>,
    reference: &Reference<'_, L::Label>,
    value: Labelled<L::Label>,
) -> Result<Control<'p>, FlowFault<L::Label>>
    requires loose { length stack.old.loose ≡ 0 }
    requires reference { HasReference (L.made labels.old) reference.now }
    requires value { L.made labels.old value.label }
    requires belongs { Belongs L.made L.meaning labels.old world.old }
    ensures goes_on { Begun L.made L.meaning labels.new (λ tables inputs set functions reading e. assign_to (planned tables inputs set functions) (entrance tables inputs set functions) (refers reading reference.now) (read_value reading value)) stack.old stack.new world.old world.new result }
    ensures moved { IfOk result (Moved (L.made labels.new) 11 stack.old stack.new world.old world.new) }
    ensures stopped { IfErr result (IfStop (HasStop (L.made labels.new))) }
    ensures belongs { Belongs L.made L.meaning labels.new world.new }
    ensures grows { Grows world.old world.new }
    ensures kept { IsKept L.made L.meaning L.room L.firm labels.old labels.new }
{
    let answer = put(alloc, labels, world, reference, &value);
    hand_on_putting(alloc, labels, stack, answer, None, value)
}

/// The value is given to the reference, and the assignment gives another.
#[inline(always)]
pub fn assign_giving<'p, L: Labels>(
    alloc: Global,
    labels: &mut L,
    world: &mut World<L::Label>,
    stack: &mut Stack<'p, L::Label>,
    reference: &Reference<'_, L::Label>,
    gives: Labelled<L::Label>,
    value: Labelled<L::Label>,
) -> Result<Control<'p>, FlowFault<L::Label>>
    requires loose { length stack.old.loose ≡ 0 }
    requires reference { HasReference (L.made labels.old) reference.now }
    requires gives { L.made labels.old gives.label }
    requires value { L.made labels.old value.label }
    requires belongs { Belongs L.made L.meaning labels.old world.old }
    ensures goes_on { Begun L.made L.meaning labels.new (λ tables inputs set functions reading e. assign_giving (planned tables inputs set functions) (entrance tables inputs set functions) (refers reading reference.now) (read_value reading gives) (read_value reading value)) stack.old stack.new world.old world.new result }
    ensures moved { IfOk result (Moved (L.made labels.new) 11 stack.old stack.new world.old world.new) }
    ensures stopped { IfErr result (IfStop (HasStop (L.made labels.new))) }
    ensures belongs { Belongs L.made L.meaning labels.new world.new }
    ensures grows { Grows world.old world.new }
    ensures kept { IsKept L.made L.meaning L.room L.firm labels.old labels.new }
{
    let answer = put(alloc, labels, world, reference, &value);
    hand_on_putting(alloc, labels, stack, answer, Some(value), gives)
}

/// Gives a reference a value (ECMA-262 8.7.2), and a name of the global object at once, where it can.
#[inline(always)]
fn put<L: Labels>(
    alloc: Global,
    labels: &mut L,
    world: &mut World<L::Label>,
    reference: &Reference<'_, L::Label>,
    value: &Labelled<L::Label>,
) -> Result<Outcome<Putting<L::Label>, L::Label>, FlowFault<L::Label>>
    requires reference { HasReference (L.made labels.old) reference.now }
    requires value { L.made labels.old value.now.label }
    requires belongs { Belongs L.made L.meaning labels.old world.old }
    ensures acts { Acts L.made L.meaning labels.new (λ reading. read_putting reading) (λ reading. put_value (refers reading reference.now) (read_value reading value.now)) world.old world.new result }
    ensures made { HasAnswer (HasPutting (L.made labels.new)) (L.made labels.new) result }
    ensures belongs { Belongs L.made L.meaning labels.new world.new }
    ensures grows { Grows world.old world.new }
    ensures kept { IsKept L.made L.meaning L.room L.firm labels.old labels.new }
{
    if let Reference::Name(named) = reference {
        return match put_at_once(labels, world, named.place, named.name, value) {
            Some(()) => Ok(Outcome::Goes(Putting::Put)),
            None => put_copy(alloc, labels, world, reference, value),
        };
    }
    put_copy(alloc, labels, world, reference, value)
}

/// Gives a reference a copy of a value.
#[inline(always)]
fn put_copy<L: Labels>(
    alloc: Global,
    labels: &mut L,
    world: &mut World<L::Label>,
    reference: &Reference<'_, L::Label>,
    value: &Labelled<L::Label>,
) -> Result<Outcome<Putting<L::Label>, L::Label>, FlowFault<L::Label>>
    requires reference { HasReference (L.made labels.old) reference.now }
    requires value { L.made labels.old value.now.label }
    requires belongs { Belongs L.made L.meaning labels.old world.old }
    ensures acts { Acts L.made L.meaning labels.new (λ reading. read_putting reading) (λ reading. put_value (refers reading reference.now) (read_value reading value.now)) world.old world.new result }
    ensures made { HasAnswer (HasPutting (L.made labels.new)) (L.made labels.new) result }
    ensures belongs { Belongs L.made L.meaning labels.new world.new }
    ensures grows { Grows world.old world.new }
    ensures kept { IsKept L.made L.meaning L.room L.firm labels.old labels.new }
{
    let given = value.copy(alloc)?;
    put_value(alloc, labels, world, reference, given)
}
