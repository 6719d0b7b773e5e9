//! How a built-in ends: with a value, by a throw, or with the run.

ghost use Rattle.std.specs.Prelude.{◌≡◌, length, IfErr, IfOk};
ghost use Rattle.std.specs.List.{All};
ghost use Rattle.origin_labels.specs.Stores.{IsKept};
ghost use Rattle.flow_policy.specs.Policies.{Tables};
ghost use Rattle.flow_policy.specs.Inputs.{Given};
ghost use Rattle.flow_frames.specs.Stops.{IfStop};
ghost use Rattle.js_values.specs.Readings.{HasValue, read_value};
ghost use Rattle.flow_meaning.specs.Planned.{Give, gave};
ghost use Rattle.step_requests.specs.Asked.{thrown_on};
ghost use Rattle.step_objects.specs.Standing.{StandsBy};
ghost use Rattle.run_state.specs.Acts.{Acts, HasAnswer};
ghost use Rattle.run_state.specs.declared.world.World.{World};
ghost use Rattle.run_state.specs.Worlds.{Belongs, Grows};
ghost use Rattle.continuations.specs.Stops.{HasStop};
ghost use Rattle.step_requests.specs.Doing.{Does, Leaves, IsQuiet, Settles};
ghost use Rattle.step_requests.specs.declared.asked.Asked.TheVariants as asked;

use crate::handing_on::{Went, go_on};
use crate::moved::Moved;
use continuations::{Control, Stack, leave_by, read_register};
use flow_frames::FlowFault;
use flow_text::Text;
use js_number::Primitive;
use js_values::{Labelled, Value};
use native_protocol::{ErrorKind, Reg};
use origin_labels::Labels;
use property_access::throw_error;
use run_state::{Leaving, Outcome, World};
use std::alloc::Global;

/// It gives what a register holds.
pub(crate) fn give_back<'p, L: Labels>(
    alloc: Global,
    labels: &mut L,
    world: &mut World<L::Label>,
    stack: &mut Stack<'p, L::Label>,
    count: u32,
    from: Reg,
) -> Result<Moved<'p, L::Label>, FlowFault<L::Label>>
    requires loose { length stack.old.loose ≡ count }
    requires made { All (HasValue (L.made labels.old)) stack.old.loose }
    requires belongs { Belongs L.made L.meaning labels.old world.old }
    ensures does { (tables : Tables) (inputs : Given) → Does L.made L.meaning labels.new (asked.Return from) stack.old stack.new world.old world.new tables inputs result }
    ensures leaves { IfOk result (Leaves (L.made labels.new) stack.old stack.new world.old world.new) }
    ensures quiet { IfOk result IsQuiet }
    ensures stopped { IfErr result (IfStop (HasStop (L.made labels.new))) }
    ensures belongs { Belongs L.made L.meaning labels.new world.new }
    ensures grows { Grows world.old world.new }
    ensures kept { IsKept L.made L.meaning L.room L.firm labels.old labels.new }
{
    let _state = &*world;
    let value = read_register(alloc, labels, stack, count, from)?;
    stack.clear(count as usize);
    stack.lay(value)?;
    Ok(Moved::Ends(Control::Value))
}

/// It throws what a register holds.
pub(crate) fn throw<'p, L: Labels>(
    alloc: Global,
    labels: &mut L,
    world: &mut World<L::Label>,
    stack: &mut Stack<'p, L::Label>,
    count: u32,
    from: Reg,
) -> Result<Moved<'p, L::Label>, FlowFault<L::Label>>
    requires loose { length stack.old.loose ≡ count }
    requires made { All (HasValue (L.made labels.old)) stack.old.loose }
    requires belongs { Belongs L.made L.meaning labels.old world.old }
    ensures does { (tables : Tables) (inputs : Given) → Does L.made L.meaning labels.new (asked.Throw from) stack.old stack.new world.old world.new tables inputs result }
    ensures leaves { IfOk result (Leaves (L.made labels.new) stack.old stack.new world.old world.new) }
    ensures quiet { IfOk result IsQuiet }
    ensures stopped { IfErr result (IfStop (HasStop (L.made labels.new))) }
    ensures belongs { Belongs L.made L.meaning labels.new world.new }
    ensures grows { Grows world.old world.new }
    ensures kept { IsKept L.made L.meaning L.room L.firm labels.old labels.new }
{
    let value = read_register(alloc, labels, stack, count, from)?;
    let came = throw_value(labels, world, value);
    hand_on_end(labels, stack, count, came)
}

/// Throws a value, which depends on nothing but the present context, by rule W9: the frames inside the one that catches it are left.
fn throw_value<L: Labels>(
    labels: &mut L,
    world: &mut World<L::Label>,
    value: Labelled<L::Label>,
) -> Result<Outcome<Labelled<L::Label>, L::Label>, FlowFault<L::Label>>
    requires value { L.made labels.old value.label }
    requires belongs { Belongs L.made L.meaning labels.old world.old }
    ensures acts { Acts L.made L.meaning labels.new (λ reading. read_value reading) (λ reading. thrown_on (read_value reading value)) world.old world.new result }
    ensures made { HasAnswer (λ x. ⊥) (L.made labels.new) result }
    ensures belongs { Belongs L.made L.meaning labels.new world.new }
    ensures grows { Grows world.old world.new }
    ensures kept { IsKept L.made L.meaning L.room L.firm labels.old labels.new }
{
    let none = labels.bottom();
    let target = world.frames.target();
    world.frames.jump(labels, target, none)?;
    Ok(Outcome::Throws(value))
}

/// What comes behind a throw.
fn hand_on_end<'p, L: Labels>(
    labels: &L,
    stack: &mut Stack<'p, L::Label>,
    count: u32,
    came: Result<Outcome<Labelled<L::Label>, L::Label>, FlowFault<L::Label>>,
) -> Result<Moved<'p, L::Label>, FlowFault<L::Label>>
    requires loose { length stack.old.loose ≡ count }
    requires made { All (HasValue (L.made labels.now)) stack.old.loose }
    requires came { HasAnswer (λ x. ⊥) (L.made labels.now) came }
    ensures settles { Settles L.made L.meaning labels.now (λ reading. read_value reading) (λ tables inputs set functions reading steps vs v. Give (gave v)) stack.old stack.new came result }
    ensures leaves { (world_old : World L.Label) (world_new : World L.Label) → StandsBy world_old world_new came → IfOk result (Leaves (L.made labels.now) stack.old stack.new world_old world_new) }
    ensures quiet { IfOk result IsQuiet }
    ensures stopped { IfErr result (IfStop (HasStop (L.made labels.now))) }
{
    let went = go_on(labels, stack, count, came)?;
    match went {
        Went::On(value) => {
            stack.clear(count as usize);
            stack.lay(value)?;
            Ok(Moved::Ends(Control::Value))
        }
        Went::Off(next) => Ok(Moved::Ends(next)),
    }
}

/// It throws a new error, which depends on nothing but the present context.
pub(crate) fn throw_new<'p, L: Labels>(
    alloc: Global,
    labels: &mut L,
    world: &mut World<L::Label>,
    stack: &mut Stack<'p, L::Label>,
    count: u32,
    kind: ErrorKind,
) -> Result<Moved<'p, L::Label>, FlowFault<L::Label>>
    requires loose { length stack.old.loose ≡ count }
    requires made { All (HasValue (L.made labels.old)) stack.old.loose }
    requires belongs { Belongs L.made L.meaning labels.old world.old }
    ensures does { (tables : Tables) (inputs : Given) → Does L.made L.meaning labels.new (asked.ThrowNew kind) stack.old stack.new world.old world.new tables inputs result }
    ensures leaves { IfOk result (Leaves (L.made labels.new) stack.old stack.new world.old world.new) }
    ensures quiet { IfOk result IsQuiet }
    ensures stopped { IfErr result (IfStop (HasStop (L.made labels.new))) }
    ensures belongs { Belongs L.made L.meaning labels.new world.new }
    ensures grows { Grows world.old world.new }
    ensures kept { IsKept L.made L.meaning L.room L.firm labels.old labels.new }
{
    let _alloc = alloc;
    let none = labels.bottom();
    let came = throw_error(labels, world, kind, none);
    hand_on_end(labels, stack, count, came)
}

/// The run leaves by a name.
pub(crate) fn leave<'p, L: Labels>(
    alloc: Global,
    labels: &mut L,
    world: &mut World<L::Label>,
    stack: &mut Stack<'p, L::Label>,
    count: u32,
    name: Text,
) -> Result<Moved<'p, L::Label>, FlowFault<L::Label>>
    requires loose { length stack.old.loose ≡ count }
    requires made { All (HasValue (L.made labels.old)) stack.old.loose }
    requires belongs { Belongs L.made L.meaning labels.old world.old }
    ensures does { (tables : Tables) (inputs : Given) → Does L.made L.meaning labels.new (asked.Leave name) stack.old stack.new world.old world.new tables inputs result }
    ensures leaves { IfOk result (Leaves (L.made labels.new) stack.old stack.new world.old world.new) }
    ensures quiet { IfOk result IsQuiet }
    ensures stopped { IfErr result (IfStop (HasStop (L.made labels.new))) }
    ensures belongs { Belongs L.made L.meaning labels.new world.new }
    ensures grows { Grows world.old world.new }
    ensures kept { IsKept L.made L.meaning L.room L.firm labels.old labels.new }
{
    let _alloc = alloc;
    let _state = &*world;
    stack.clear(count as usize);
    let next = leave_by(labels, stack, Leaving::Named(name))?;
    Ok(Moved::Ends(next))
}
