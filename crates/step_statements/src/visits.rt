//! Which keys a `for in` visits.

ghost use Rattle.std.specs.Prelude.{◌≡◌, ◌<◌, ◌+◌, ◌-◌, length, map, IfErr, IfOk};
ghost use Rattle.std.specs.List.{All};
ghost use Rattle.origin_labels.specs.Stores.{IsKept};
ghost use Rattle.flow_frames.specs.Stops.{IfStop};
ghost use Rattle.js_values.specs.Readings.{HasValue};
ghost use Rattle.run_state.specs.Worlds.{Belongs, Grows};
ghost use Rattle.continuations.specs.Loads.{Adds};
ghost use Rattle.continuations.specs.Stops.{HasStop};
ghost use Rattle.continuations.specs.Moving.{BeginsWith, Rests, Stands};
ghost use Rattle.step_statements.specs.Visiting.{visits_of, Fails, IfGoes, Looked, Sees};

use continuations::{Control, Enumeration, Stack};
use flow_frames::FlowFault;
use origin_labels::Labels;
use run_state::World;
use std::alloc::Global;
use step_objects::still_has;
use step_references::{Went, go_on};

/// What a look at a key comes to.
#[derive(Clone, Copy)]
pub(crate) enum Look<'p> {
    /// The machine goes on so: the key is still there, or the look didn't end.
    Goes(Control<'p>),
    /// The key is gone.
    Gone,
}

/// The next key of those that lie above the object which it still has: what is asked of each raises the loop's frame. A key that is gone costs no turn. Without a
/// further key the `for in` is over.
pub fn next_visit<'p, L: Labels>(
    alloc: Global,
    labels: &mut L,
    world: &mut World<L::Label>,
    stack: &mut Stack<'p, L::Label>,
    enumeration: Enumeration<'p>,
    count: u32,
) -> Result<Control<'p>, FlowFault<L::Label>>
    requires loose { length stack.old.loose ≡ count + 1 }
    requires made { All (HasValue (L.made labels.old)) stack.old.loose }
    requires belongs { Belongs L.made L.meaning labels.old world.old }
    ensures goes_on { BeginsWith L.made L.meaning labels.new (visits_of enumeration.entry count stack.old.loose) stack.old stack.new world.old world.new result }
    ensures rests { IfOk result (Rests (L.made labels.new) stack.old stack.new) }
    ensures adds { IfOk result (Adds 6 stack.old stack.new) }
    ensures stopped { IfErr result (IfStop (HasStop (L.made labels.new))) }
    ensures stands { IfOk result (Stands world.old world.new) }
    ensures belongs { Belongs L.made L.meaning labels.new world.new }
    ensures grows { Grows world.old world.new }
    ensures kept { IsKept L.made L.meaning L.room L.firm labels.old labels.new }
{
    let mut left = count;
    while left > 0 {
        let seen = look_at(alloc, labels, world, stack, enumeration, left)?;
        match seen {
            Look::Goes(next) => return Ok(next),
            Look::Gone => left -= 1,
        }
    }
    stack.forget();
    Ok(Control::Done)
}

/// Looks whether the object that lies undermost still has the key that lies uppermost.
fn look_at<'p, L: Labels>(
    alloc: Global,
    labels: &mut L,
    world: &mut World<L::Label>,
    stack: &mut Stack<'p, L::Label>,
    enumeration: Enumeration<'p>,
    left: u32,
) -> Result<Look<'p>, FlowFault<L::Label>>
    requires some { 0 < left }
    requires loose { length stack.old.loose ≡ left + 1 }
    requires made { All (HasValue (L.made labels.old)) stack.old.loose }
    requires belongs { Belongs L.made L.meaning labels.old world.old }
    ensures looked { IfOk result (Looked L.made L.meaning labels.new enumeration.entry left stack.old stack.new world.old world.new) }
    ensures fails { IfErr result (Fails L.made L.meaning labels.new enumeration.entry left stack.old stack.new world.old world.new) }
    ensures rests { IfOk result (IfGoes (Rests (L.made labels.new) stack.old stack.new)) }
    ensures adds { IfOk result (IfGoes (Adds 6 stack.old stack.new)) }
    ensures stopped { IfErr result (IfStop (HasStop (L.made labels.new))) }
    ensures stands { length world.new.frames.frames ≡ length world.old.frames.frames }
    ensures belongs { Belongs L.made L.meaning labels.new world.new }
    ensures grows { Grows world.old world.new }
    ensures kept { IsKept L.made L.meaning L.room L.firm labels.old labels.new }
{
    let loose = stack.loose(left as usize + 1);
    let answer = still_has(alloc, labels, world, &loose[0], &loose[left as usize].value);
    let came = go_on(labels, stack, left as usize + 1, answer)?;
    match came {
        Went::On(there) => Ok(looked(stack, enumeration, left, there)),
        Went::Off(next) => Ok(Look::Goes(next)),
    }
}

/// What a look that ended comes to: a turn for a key that is still there, and one that is gone lies there no more.
fn looked<'p, T: Copy>(
    stack: &mut Stack<'p, T>,
    enumeration: Enumeration<'p>,
    left: u32,
    there: bool,
) -> Look<'p>
    requires some { 0 < left }
    requires loose { length stack.old.loose ≡ left + 1 }
    ensures { Sees enumeration.entry left stack.old stack.new there result }
{
    if there {
        return Look::Goes(Control::Visit(enumeration, left - 1));
    }
    stack.forget();
    Look::Gone
}
