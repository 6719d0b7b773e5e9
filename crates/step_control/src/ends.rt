//! The ends of frames, and what raises them: a condition of a loop, and the ends of branches, loops and turns.

ghost use Rattle.std.specs.Prelude.{◌≡◌, ◌+◌, ◌<◌, Bool, ℕ, List, true, false, [], length, map, take, IfOk};
ghost use Rattle.std.specs.Borrow.{Bor};
ghost use Rattle.js_ast.specs.declared.trees.Stmt.{Stmt};
ghost use Rattle.std.specs.List.{All};
ghost use Rattle.origin_labels.specs.Stores.{IsKept};
ghost use Rattle.origin_labels.specs.Label.{Label};
ghost use Rattle.flow_frames.specs.Held.{Belong, meant_at, seen_frame};
ghost use Rattle.js_values.specs.Readings.{HasValue};
ghost use Rattle.continuations.specs.declared.continuation.Continuation.TheVariants as continuation;
ghost use Rattle.continuations.specs.Kept.{without_top};
ghost use Rattle.continuations.specs.Loads.{Adds};
ghost use Rattle.continuations.specs.Resuming.{Closed, Keeps, ResumesDoneIn, ResumesIn};

use continuations::{Control, Round, Stack};
use flow_frames::{Frames, belonging_lasts};
use flow_text::OutOfMemory;
use js_values::Labelled;
use origin_labels::Labels;
use step_values::truth;

/// Leaves the last frame, which stands at the depth, and gives its label.
#[inline(always)]
pub(crate) fn leave<L: Labels>(_labels: &L, frames: &mut Frames<L::Label>, depth: usize) -> L::Label
    requires frame { length frames.old.frames ≡ depth + 1 }
    requires inner { 0 < depth }
    requires belongs { Belong L.made L.meaning _labels.now frames.old.frames }
    ensures outside { (reading : L.Label → Label) → map (seen_frame reading) frames.new.frames ≡ take depth (map (seen_frame reading) frames.old.frames) }
    ensures label { (reading : L.Label → Label) → meant_at (map (seen_frame reading) frames.old.frames) depth ≡ reading result }
    ensures made { L.made _labels.now result }
    ensures length { length frames.new.frames + 1 ≡ length frames.old.frames }
    ensures belongs { Belong L.made L.meaning _labels.now frames.new.frames }
{
    belonging_lasts::<L>();
    let _place = depth;
    frames.pop()
}

/// A loop's condition (ECMA-262 12.6): its label raises the loop's frame, and its value decides on a further turn.
#[inline(always)]
pub fn tested<'p, L: Labels>(
    labels: &mut L,
    frames: &mut Frames<L::Label>,
    stack: &mut Stack<'p, L::Label>,
    round: Round<'p>,
) -> Result<Control<'p>, OutOfMemory>
    requires loose { length stack.old.loose ≡ 1 }
    requires made { All (HasValue (L.made labels.old)) stack.old.loose }
    requires belongs { Belong L.made L.meaning labels.old frames.old.frames }
    ensures goes_on { IfOk result (ResumesIn L.made L.meaning labels.new (continuation.Tested round.entry) stack.old stack.new frames.old.frames frames.new.frames) }
    ensures keeps { IfOk result (Keeps (without_top stack.old) stack.new) }
    ensures adds { IfOk result (Adds 6 stack.old stack.new) }
    ensures length { length frames.new.frames ≡ length frames.old.frames }
    ensures belongs { Belong L.made L.meaning labels.new frames.new.frames }
    ensures kept { IsKept L.made L.meaning L.room L.firm labels.old labels.new }
{
    let value = stack.pop();
    frames.raise_last(labels, value.label)?;
    if truth(&value.value) {
        Ok(Control::Turn(round))
    } else {
        Ok(Control::Done)
    }
}

/// The end of a branch that gives a value, which depends on what chose the branch.
#[inline(always)]
pub fn end_branch_value<'p, L: Labels>(
    labels: &mut L,
    frames: &mut Frames<L::Label>,
    stack: &mut Stack<'p, L::Label>,
    depth: usize,
) -> Result<Control<'p>, OutOfMemory>
    requires loose { length stack.old.loose ≡ 1 }
    requires made { All (HasValue (L.made labels.old)) stack.old.loose }
    requires frame { length frames.old.frames ≡ depth + 1 }
    requires inner { 0 < depth }
    requires belongs { Belong L.made L.meaning labels.old frames.old.frames }
    ensures goes_on { IfOk result (ResumesIn L.made L.meaning labels.new (continuation.EndBranch true depth) stack.old stack.new frames.old.frames frames.new.frames) }
    ensures closed { IfOk result (Closed stack.old stack.new frames.old.frames frames.new.frames) }
    ensures adds { IfOk result (Adds 6 stack.old stack.new) }
    ensures made { IfOk result (λ _. All (HasValue (L.made labels.new)) stack.new.loose) }
    ensures belongs { Belong L.made L.meaning labels.new frames.new.frames }
    ensures kept { IsKept L.made L.meaning L.room L.firm labels.old labels.new }
{
    belonging_lasts::<L>();
    let value = stack.pop();
    let chosen = leave(labels, frames, depth);
    let label = labels.join(value.label, chosen)?;
    let value = Labelled {
        value: value.value,
        label,
    };
    stack.lay(value)?;
    Ok(Control::Value)
}

/// The end of a branch without a value.
#[inline(always)]
pub fn end_branch<'p, L: Labels>(
    labels: &L,
    frames: &mut Frames<L::Label>,
    stack: &mut Stack<'p, L::Label>,
    depth: usize,
) -> Control<'p>
    requires loose { length stack.old.loose ≡ 0 }
    requires frame { length frames.old.frames ≡ depth + 1 }
    requires inner { 0 < depth }
    requires belongs { Belong L.made L.meaning labels.now frames.old.frames }
    ensures goes_on { ResumesDoneIn L.made L.meaning labels.now (continuation.EndBranch false depth) stack.old stack.new frames.old.frames frames.new.frames result }
    ensures closed { Closed stack.old stack.new frames.old.frames frames.new.frames result }
    ensures none { stack.new.loose ≡ [] }
    ensures adds { Adds 6 stack.old stack.new result }
    ensures belongs { Belong L.made L.meaning labels.now frames.new.frames }
{
    let _waiting = &*stack;
    leave(labels, frames, depth);
    Control::Done
}

/// The end of a loop, of a turn, of a `switch`, of a labelled statement or of a `try` statement.
#[inline(always)]
pub fn end_round<'p, L: Labels>(
    labels: &L,
    frames: &mut Frames<L::Label>,
    stack: &mut Stack<'p, L::Label>,
    depth: usize,
) -> Control<'p>
    requires loose { length stack.old.loose ≡ 0 }
    requires frame { length frames.old.frames ≡ depth + 1 }
    requires inner { 0 < depth }
    requires belongs { Belong L.made L.meaning labels.now frames.old.frames }
    ensures goes_on { (turn : Bool) (of : Bor Stmt) → ResumesDoneIn L.made L.meaning labels.now (continuation.EndRound turn depth of) stack.old stack.new frames.old.frames frames.new.frames result }
    ensures label { (text : Bor (List ℕ)) → ResumesDoneIn L.made L.meaning labels.now (continuation.EndLabel depth text) stack.old stack.new frames.old.frames frames.new.frames result }
    ensures tried { ResumesDoneIn L.made L.meaning labels.now (continuation.EndTry depth) stack.old stack.new frames.old.frames frames.new.frames result }
    ensures closed { Closed stack.old stack.new frames.old.frames frames.new.frames result }
    ensures none { stack.new.loose ≡ [] }
    ensures adds { Adds 6 stack.old stack.new result }
    ensures belongs { Belong L.made L.meaning labels.now frames.new.frames }
{
    let _waiting = &*stack;
    leave(labels, frames, depth);
    Control::Done
}
