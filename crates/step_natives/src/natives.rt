//! How a built-in begins whose state was begun.

ghost use Rattle.std.specs.Prelude.{◌≡◌, ◌+◌, IfOk};
ghost use Rattle.origin_labels.specs.Stores.{IsKept};
ghost use Rattle.run_state.specs.Worlds.{Grows};
ghost use Rattle.continuations.specs.declared.continuation.Control.TheVariants as control;
ghost use Rattle.continuations.specs.Kept.{scopes_of, waiting};
ghost use Rattle.continuations.specs.Loads.{Adds};
ghost use Rattle.continuations.specs.Pending.{values_of};
ghost use Rattle.continuations.specs.Invariant.{Invariant};
ghost use Rattle.step_natives.specs.Framed.{RunsNative};

use crate::frames::enter_frame;
use continuations::{Continuation, Control, Stack};
use flow_frames::Kind;
use flow_text::OutOfMemory;
use origin_labels::Labels;
use run_state::World;

/// The values that no work keeps are the registers of a built-in, which runs in a frame of its own with this label.
pub fn begin_native<'p, L: Labels>(
    labels: &mut L,
    world: &mut World<L::Label>,
    stack: &mut Stack<'p, L::Label>,
    count: u32,
    label: L::Label,
) -> Result<Control<'p>, OutOfMemory>
    requires label { L.made labels.old label }
    requires standing { Invariant L.made L.meaning labels.old stack.old world.old count (scopes_of stack.old.tasks) (waiting stack.old.tasks) control.Value }
    ensures asks { IfOk result (λ move. move ≡ control.Request count) }
    ensures runs { IfOk result (RunsNative L.made L.meaning labels.new label stack.old stack.new world.old world.new) }
    ensures standing { IfOk result (λ move. Invariant L.made L.meaning labels.new stack.new world.new (values_of move) (scopes_of stack.new.tasks) (waiting stack.old.tasks + 1) move) }
    ensures adds { IfOk result (Adds 1 stack.old stack.new) }
    ensures grows { Grows world.old world.new }
    ensures kept { IsKept L.made L.meaning L.room L.firm labels.old labels.new }
{
    let depth = enter_frame(labels, world, stack, Kind::Native, count as usize, label)?;
    stack.push_under(Continuation::EndBranch(true, depth))?;
    Ok(Control::Request(count))
}
