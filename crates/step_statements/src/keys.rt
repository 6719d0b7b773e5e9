//! The keys that a `for in` takes.

ghost use Rattle.std.specs.Prelude.{◌≡◌, ◌++◌, length, map, IfErr, IfOk};
ghost use Rattle.std.specs.List.{All};
ghost use Rattle.origin_labels.specs.Stores.{IsKept};
ghost use Rattle.flow_frames.specs.Stops.{IfStop};
ghost use Rattle.js_values.specs.Readings.{HasValue, read_value};
ghost use Rattle.run_state.specs.Worlds.{Belongs, Grows};
ghost use Rattle.continuations.specs.declared.continuation.Control.TheVariants as control;
ghost use Rattle.continuations.specs.Loads.{Adds};
ghost use Rattle.continuations.specs.Pending.{next_plan};
ghost use Rattle.continuations.specs.Stops.{HasStop};
ghost use Rattle.continuations.specs.Moving.{BeginsWith, Rests, Stands};
ghost use Rattle.step_statements.specs.Visiting.{laid_keys};

use continuations::{Control, Enumeration, Stack};
use flow_frames::FlowFault;
use flow_text::OutOfMemory;
use js_number::Primitive;
use js_values::{Key, Labelled, Value};
use origin_labels::Labels;
use run_state::World;
use std::alloc::Global;
use step_objects::keys_of;
use step_references::{Went, go_on};

/// The keys of the value that lies uppermost, which raise the loop's frame. They lie above the value then, and the first to be visited uppermost.
pub fn take_keys<'p, L: Labels>(
    alloc: Global,
    labels: &mut L,
    world: &mut World<L::Label>,
    stack: &mut Stack<'p, L::Label>,
    enumeration: Enumeration<'p>,
) -> Result<Control<'p>, FlowFault<L::Label>>
    requires loose { length stack.old.loose ≡ 1 }
    requires made { All (HasValue (L.made labels.old)) stack.old.loose }
    requires belongs { Belongs L.made L.meaning labels.old world.old }
    ensures goes_on { BeginsWith L.made L.meaning labels.new (λ tables inputs set functions reading e. next_plan tables inputs set functions (control.Keys enumeration.entry) (map (read_value reading) stack.old.loose) e) stack.old stack.new world.old world.new result }
    ensures rests { IfOk result (Rests (L.made labels.new) stack.old stack.new) }
    ensures adds { IfOk result (Adds 7 stack.old stack.new) }
    ensures stopped { IfErr result (IfStop (HasStop (L.made labels.new))) }
    ensures stands { IfOk result (Stands world.old world.new) }
    ensures belongs { Belongs L.made L.meaning labels.new world.new }
    ensures grows { Grows world.old world.new }
    ensures kept { IsKept L.made L.meaning L.room L.firm labels.old labels.new }
{
    let value = stack.pop();
    let answer = keys_of(alloc, labels, world, value.copy(alloc)?);
    let came = go_on(labels, stack, 0, answer)?;
    match came {
        Went::On(keys) => {
            stack.lay(value)?;
            let none = labels.bottom();
            let count = lay_keys(alloc, stack, keys.items(), none)?;
            Ok(Control::Visits(enumeration, count))
        }
        Went::Off(next) => Ok(next),
    }
}

/// Lays keys as texts with a label, the last of them undermost, and counts them.
fn lay_keys<T: Copy>(
    alloc: Global,
    stack: &mut Stack<'_, T>,
    keys: &[Key],
    none: T,
) -> Result<u32, OutOfMemory>
    ensures tasks { stack.new.tasks ≡ stack.old.tasks }
    ensures count { IfOk result (λ count. count ≡ length keys.now) }
    ensures laid { IfOk result (λ count. stack.new.loose ≡ stack.old.loose ++ laid_keys none keys.now) }
{
    let Ok(count) = u32::try_from(keys.len()) else {
        return Err(OutOfMemory);
    };
    let mut left = keys;
    while let [front @ .., last] = left {
        stack.lay(Labelled {
            value: Value::Primitive(Primitive::Str(last.text().copy(alloc)?)),
            label: none,
        })?;
        left = front;
    }
    Ok(count)
}
