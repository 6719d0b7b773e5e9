//! A jump leaves the frames inside the one that it reaches first, by rule W9.

ghost use Rattle.std.specs.Prelude.{◌≡◌, ◌≤◌, length, map, OnOk, OnErr, IfErr};
ghost use Rattle.origin_labels.specs.Label.{Label};
ghost use Rattle.origin_labels.specs.Stores.{IsKept};
ghost use Rattle.flow_frames.specs.Held.{Belong, CatchByTry, seen_frame};
ghost use Rattle.flow_frames.specs.Stops.{IfStop};
ghost use Rattle.es_meaning.specs.Outcomes.{Exit};
ghost use Rattle.flow_meaning.specs.Scopes.{Val, reached};
ghost use Rattle.continuations.specs.Shapes.{jump_of};
ghost use Rattle.continuations.specs.Stops.{HasStop};
ghost use Rattle.step_jumps.specs.Issuing.{Issues};

use continuations::Jump;
use flow_frames::{FlowFault, Frames, belonging_lasts};
use origin_labels::Labels;

/// The depth of the frame that a jump reaches first which goes to the frame at a depth: what is thrown inside that is caught there.
pub(crate) fn reached<T: Copy>(frames: &Frames<T>, to: usize) -> usize
    ensures reached { (reading : T → Label) → reached to (map (seen_frame reading) frames.now.frames) ≡ result }
    ensures catch { CatchByTry frames.now.frames }
{
    // that only Try frames catch
    let _count = frames.len();
    frames.target_above(to)
}

/// The depth of the frame that a jump goes to.
fn aim(jump: Jump) -> usize
    ensures { (v : Val) → (jump_of jump v).to ≡ result }
{
    match jump {
        Jump::Throws => 0,
        Jump::Returns(to) => to,
        Jump::Leaves(_, to) => to,
    }
}

/// A jump to the frame at a depth, which has no cause. Where no frame stands there, none is left.
fn jump_to<L: Labels>(
    labels: &mut L,
    frames: &mut Frames<L::Label>,
    to: usize,
) -> Result<(), FlowFault<L::Label>>
    requires belongs { Belong L.made L.meaning labels.old frames.old.frames }
    ensures issues { (exit : Exit) → Issues L.made L.meaning labels.new (λ v. record { exit = exit; to = to; value = v }) frames.old.frames frames.new.frames result }
    ensures fewer { length frames.new.frames ≤ length frames.old.frames }
    ensures catch { CatchByTry frames.new.frames }
    ensures stopped { IfErr result (IfStop (HasStop (L.made labels.new))) }
    ensures belongs { Belong L.made L.meaning labels.new frames.new.frames }
    ensures kept { IsKept L.made L.meaning L.room L.firm labels.old labels.new }
{
    belonging_lasts::<L>();
    let first = reached(frames, to);
    if first >= frames.len() {
        return Ok(());
    }
    let none = labels.bottom();
    frames.jump(labels, first, none)?;
    let _count = frames.len();
    Ok(())
}

/// A jump that waited is issued again, or one that is new: it has no cause, and whatever value it takes along, the same frames are left.
pub(crate) fn jump_again<L: Labels>(
    labels: &mut L,
    frames: &mut Frames<L::Label>,
    jump: Jump,
) -> Result<(), FlowFault<L::Label>>
    requires belongs { Belong L.made L.meaning labels.old frames.old.frames }
    ensures issues { Issues L.made L.meaning labels.new (jump_of jump) frames.old.frames frames.new.frames result }
    ensures fewer { length frames.new.frames ≤ length frames.old.frames }
    ensures catch { CatchByTry frames.new.frames }
    ensures stopped { IfErr result (IfStop (HasStop (L.made labels.new))) }
    ensures belongs { Belong L.made L.meaning labels.new frames.new.frames }
    ensures kept { IsKept L.made L.meaning L.room L.firm labels.old labels.new }
{
    jump_to(labels, frames, aim(jump))
}
