//! How a jump passes the work that waits.

ghost use Rattle.std.specs.Prelude.{◌≡◌, ◌≤◌, ◌<◌, ◌+◌, ℕ, List, [], Bool, true, false, length, IfOk};
ghost use Rattle.std.specs.Borrow.{Bor};
ghost use Rattle.js_ast.specs.declared.trees.Stmt.{Stmt};
ghost use Rattle.continuations.specs.declared.continuation.Jump.{Jump};
ghost use Rattle.std.specs.List.{All};
ghost use Rattle.flow_frames.specs.Held.{Belong};
ghost use Rattle.js_values.specs.Readings.{HasValue};
ghost use Rattle.continuations.specs.declared.continuation.Continuation.TheVariants as continuation;
ghost use Rattle.continuations.specs.Kept.{may_stay, scope_of};
ghost use Rattle.continuations.specs.Pending.{owns};
ghost use Rattle.continuations.specs.Loads.{Adds};
ghost use Rattle.continuations.specs.Resuming.{LeavesAt, Passed, Passes, PassesIn};

use crate::ends::leave;
use continuations::{Continuation, Control, Jump, Stack};
use flow_frames::Frames;
use flow_text::OutOfMemory;
use js_number::Primitive;
use js_values::{Labelled, Value};
use origin_labels::Labels;

/// A jump passes work without a frame of its own. The operands that the work kept are dropped.
#[inline(always)]
pub fn pass<'p, T: Copy>(
    stack: &mut Stack<'p, T>,
    jump: Jump,
    work: Continuation<'p>,
) -> Result<Control<'p>, OutOfMemory>
    requires scope { scope_of work ≡ [] }
    requires passes { may_stay work ≡ false }
    requires loose { length stack.old.loose ≡ owns work + 1 }
    ensures goes_on { IfOk result (Passes jump work.entry stack.old stack.new) }
    ensures keeps { IfOk result (Passed jump stack.old stack.new) }
    ensures adds { IfOk result (Adds 6 stack.old stack.new) }
{
    let value = stack.pop();
    stack.clear(work.owns());
    stack.lay(value)?;
    Ok(Control::Jumps(jump))
}

/// A jump comes to the end of a branch. If the branch's frame was left before, it passes. Else the frame is the one that it was to reach, and the branch gives undefined, or nothing.
#[inline(always)]
pub fn pass_branch<'p, L: Labels>(
    labels: &L,
    frames: &mut Frames<L::Label>,
    stack: &mut Stack<'p, L::Label>,
    jump: Jump,
    gives: bool,
    depth: usize,
) -> Result<Control<'p>, OutOfMemory>
    requires loose { length stack.old.loose ≡ 1 }
    requires made { All (HasValue (L.made labels.now)) stack.old.loose }
    requires frames { length frames.old.frames ≤ depth + 1 }
    requires inner { 0 < depth }
    requires belongs { Belong L.made L.meaning labels.now frames.old.frames }
    ensures goes_on { IfOk result (PassesIn L.made L.meaning labels.now jump (continuation.EndBranch gives depth) stack.old stack.new frames.old.frames frames.new.frames) }
    ensures leaves { IfOk result (LeavesAt depth stack.old stack.new frames.old.frames frames.new.frames) }
    ensures adds { IfOk result (Adds 6 stack.old stack.new) }
    ensures made { IfOk result (λ _. All (HasValue (L.made labels.now)) stack.new.loose) }
    ensures belongs { Belong L.made L.meaning labels.now frames.new.frames }
{
    if frames.len() <= depth {
        return Ok(Control::Jumps(jump));
    }
    if gives {
        reach_value(labels, frames, stack, jump, depth)
    } else {
        Ok(reach(labels, frames, stack, depth))
    }
}

/// A jump comes to the end of a loop, of a turn, of a `switch`, of a labelled statement or of a `try` statement. If its frame was left before, it passes. Else it is over.
#[inline(always)]
pub fn pass_round<'p, L: Labels>(
    labels: &L,
    frames: &mut Frames<L::Label>,
    stack: &mut Stack<'p, L::Label>,
    jump: Jump,
    depth: usize,
) -> Control<'p>
    requires loose { length stack.old.loose ≡ 1 }
    requires made { All (HasValue (L.made labels.now)) stack.old.loose }
    requires frames { length frames.old.frames ≤ depth + 1 }
    requires inner { 0 < depth }
    requires belongs { Belong L.made L.meaning labels.now frames.old.frames }
    ensures goes_on { (turn : Bool) (of : Bor Stmt) → PassesIn L.made L.meaning labels.now jump (continuation.EndRound turn depth of) stack.old stack.new frames.old.frames frames.new.frames result }
    ensures label { (text : Bor (List ℕ)) → PassesIn L.made L.meaning labels.now jump (continuation.EndLabel depth text) stack.old stack.new frames.old.frames frames.new.frames result }
    ensures tried { PassesIn L.made L.meaning labels.now jump (continuation.EndTry depth) stack.old stack.new frames.old.frames frames.new.frames result }
    ensures leaves { LeavesAt depth stack.old stack.new frames.old.frames frames.new.frames result }
    ensures adds { Adds 6 stack.old stack.new result }
    ensures made { All (HasValue (L.made labels.now)) stack.new.loose }
    ensures belongs { Belong L.made L.meaning labels.now frames.new.frames }
{
    if depth < frames.len() {
        return reach(labels, frames, stack, depth);
    }
    Control::Jumps(jump)
}

/// A jump has reached the frame of a branch that gives a value: undefined, which depends on what chose the branch.
#[inline(always)]
fn reach_value<'p, L: Labels>(
    labels: &L,
    frames: &mut Frames<L::Label>,
    stack: &mut Stack<'p, L::Label>,
    _jump: Jump,
    depth: usize,
) -> Result<Control<'p>, OutOfMemory>
    requires loose { length stack.old.loose ≡ 1 }
    requires frame { length frames.old.frames ≡ depth + 1 }
    requires inner { 0 < depth }
    requires belongs { Belong L.made L.meaning labels.now frames.old.frames }
    ensures goes_on { IfOk result (PassesIn L.made L.meaning labels.now _jump (continuation.EndBranch true depth) stack.old stack.new frames.old.frames frames.new.frames) }
    ensures leaves { IfOk result (LeavesAt depth stack.old stack.new frames.old.frames frames.new.frames) }
    ensures adds { IfOk result (Adds 6 stack.old stack.new) }
    ensures made { IfOk result (λ _. All (HasValue (L.made labels.now)) stack.new.loose) }
    ensures belongs { Belong L.made L.meaning labels.now frames.new.frames }
{
    stack.clear(1);
    let label = leave(labels, frames, depth);
    stack.lay(Labelled {
        value: Value::Primitive(Primitive::Undefined),
        label,
    })?;
    Ok(Control::Value)
}

/// A jump has reached the frame of a branch without a value or of what `end_round` ends.
#[inline(always)]
fn reach<'p, L: Labels>(
    labels: &L,
    frames: &mut Frames<L::Label>,
    stack: &mut Stack<'p, L::Label>,
    depth: usize,
) -> Control<'p>
    requires loose { length stack.old.loose ≡ 1 }
    requires frame { length frames.old.frames ≡ depth + 1 }
    requires inner { 0 < depth }
    requires belongs { Belong L.made L.meaning labels.now frames.old.frames }
    ensures branch { (jump : Jump) → PassesIn L.made L.meaning labels.now jump (continuation.EndBranch false depth) stack.old stack.new frames.old.frames frames.new.frames result }
    ensures label { (jump : Jump) (text : Bor (List ℕ)) → PassesIn L.made L.meaning labels.now jump (continuation.EndLabel depth text) stack.old stack.new frames.old.frames frames.new.frames result }
    ensures tried { (jump : Jump) → PassesIn L.made L.meaning labels.now jump (continuation.EndTry depth) stack.old stack.new frames.old.frames frames.new.frames result }
    ensures round { (jump : Jump) (turn : Bool) (of : Bor Stmt) → PassesIn L.made L.meaning labels.now jump (continuation.EndRound turn depth of) stack.old stack.new frames.old.frames frames.new.frames result }
    ensures leaves { LeavesAt depth stack.old stack.new frames.old.frames frames.new.frames result }
    ensures adds { Adds 6 stack.old stack.new result }
    ensures none { stack.new.loose ≡ [] }
    ensures belongs { Belong L.made L.meaning labels.now frames.new.frames }
{
    stack.clear(1);
    leave(labels, frames, depth);
    Control::Done
}
