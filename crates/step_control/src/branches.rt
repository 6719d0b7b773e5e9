//! Branches: a value chooses what is done next, in a frame with the value's label (ECMA-262 11.11, 11.12, 12.5).

ghost use Rattle.std.specs.Prelude.{◌≡◌, [], ◌∷◌, ◌++◌, ◌+◌, ◌≤◌, true, length, map, IfOk, OnOk};
ghost use Rattle.std.specs.List.{All};
ghost use Rattle.origin_labels.specs.Label.{Label};
ghost use Rattle.origin_labels.specs.Stores.{IsKept};
ghost use Rattle.flow_frames.specs.Changes.{pushed};
ghost use Rattle.flow_frames.specs.Held.{Belong, seen_frame};
ghost use Rattle.js_values.specs.Readings.{HasValue, IsReading};
ghost use Rattle.continuations.specs.declared.continuation.Continuation.TheVariants as continuation;
ghost use Rattle.continuations.specs.Pending.{next_plan, values_of};
ghost use Rattle.continuations.specs.Loads.{Adds, lift, load};
ghost use Rattle.continuations.specs.Resuming.{Forks, Opened, ResumesIn};

use crate::scopes::enter;
use continuations::{Continuation, Control, Stack};
use flow_frames::{Frames, Kind};
use flow_text::OutOfMemory;
use js_ast::{Expr, Stmt};
use origin_labels::Labels;
use step_values::truth;

/// A frame of a branch, with the work that ends it.
#[inline(always)]
fn open_branch<'p, L: Labels>(
    labels: &mut L,
    frames: &mut Frames<L::Label>,
    stack: &mut Stack<'p, L::Label>,
    gives: bool,
    label: L::Label,
) -> Result<(), OutOfMemory>
    requires loose { length stack.old.loose ≡ 0 }
    requires label { L.made labels.old label }
    requires belongs { Belong L.made L.meaning labels.old frames.old.frames }
    ensures frames { OnOk result ((reading : L.Label → Label) → IsReading L.made L.meaning labels.new reading → map (seen_frame reading) frames.new.frames ≡ map (seen_frame reading) frames.old.frames ++ pushed Kind.Branch (reading label) ∷ []) }
    ensures length { OnOk result (length frames.new.frames ≡ length frames.old.frames + 1) }
    ensures pushed { OnOk result (stack.new ≡ record { tasks = stack.old.tasks ++ (continuation.EndBranch gives (length frames.old.frames), stack.old.loose) ∷ []; loose = [] }) }
    ensures load { OnOk result (load stack.new.tasks ≡ load stack.old.tasks + 1) }
    ensures belongs { Belong L.made L.meaning labels.new frames.new.frames }
    ensures kept { IsKept L.made L.meaning L.room L.firm labels.old labels.new }
{
    let depth = frames.len();
    enter(labels, frames, Kind::Branch, label)?;
    stack.push(Continuation::EndBranch(gives, depth))?;
    Ok(())
}

/// One of two parts, in a frame of its own.
#[inline(always)]
fn branch<'p, L: Labels>(
    labels: &mut L,
    frames: &mut Frames<L::Label>,
    stack: &mut Stack<'p, L::Label>,
    gives: bool,
    then: Control<'p>,
    other: Control<'p>,
) -> Result<Control<'p>, OutOfMemory>
    requires loose { length stack.old.loose ≡ 1 }
    requires made { All (HasValue (L.made labels.old)) stack.old.loose }
    requires belongs { Belong L.made L.meaning labels.old frames.old.frames }
    requires then { values_of then ≡ 0 }
    requires other { values_of other ≡ 0 }
    requires little { lift then ≤ 6 }
    requires other_little { lift other ≤ 6 }
    ensures forks { IfOk result (Forks L.made L.meaning labels.new gives (λ tables inputs set functions v e. next_plan tables inputs set functions then.entry [] e) (λ tables inputs set functions v e. next_plan tables inputs set functions other.entry [] e) stack.old stack.new frames.old.frames frames.new.frames) }
    ensures opened { IfOk result (Opened stack.old stack.new frames.old.frames frames.new.frames) }
    ensures adds { IfOk result (Adds 7 stack.old stack.new) }
    ensures belongs { Belong L.made L.meaning labels.new frames.new.frames }
    ensures kept { IsKept L.made L.meaning L.room L.firm labels.old labels.new }
{
    let value = stack.pop();
    open_branch(labels, frames, stack, gives, value.label)?;
    if truth(&value.value) {
        Ok(then)
    } else {
        Ok(other)
    }
}

/// `&&` (ECMA-262 11.11): the right operand where the value is true, and else the value.
#[inline(never)]
pub fn and_right<'p, L: Labels>(
    labels: &mut L,
    frames: &mut Frames<L::Label>,
    stack: &mut Stack<'p, L::Label>,
    right: &'p Expr,
) -> Result<Control<'p>, OutOfMemory>
    requires loose { length stack.old.loose ≡ 1 }
    requires made { All (HasValue (L.made labels.old)) stack.old.loose }
    requires belongs { Belong L.made L.meaning labels.old frames.old.frames }
    ensures goes_on { IfOk result (ResumesIn L.made L.meaning labels.new (continuation.AndRight right.entry) stack.old stack.new frames.old.frames frames.new.frames) }
    ensures opened { IfOk result (Opened stack.old stack.new frames.old.frames frames.new.frames) }
    ensures adds { IfOk result (Adds 7 stack.old stack.new) }
    ensures belongs { Belong L.made L.meaning labels.new frames.new.frames }
    ensures kept { IsKept L.made L.meaning L.room L.firm labels.old labels.new }
{
    let value = stack.pop();
    open_branch(labels, frames, stack, true, value.label)?;
    if truth(&value.value) {
        Ok(Control::Expr(right))
    } else {
        stack.lay(value)?;
        Ok(Control::Value)
    }
}

/// `||` (ECMA-262 11.11): the value where it is true, and else the right operand.
#[inline(never)]
pub fn or_right<'p, L: Labels>(
    labels: &mut L,
    frames: &mut Frames<L::Label>,
    stack: &mut Stack<'p, L::Label>,
    right: &'p Expr,
) -> Result<Control<'p>, OutOfMemory>
    requires loose { length stack.old.loose ≡ 1 }
    requires made { All (HasValue (L.made labels.old)) stack.old.loose }
    requires belongs { Belong L.made L.meaning labels.old frames.old.frames }
    ensures goes_on { IfOk result (ResumesIn L.made L.meaning labels.new (continuation.OrRight right.entry) stack.old stack.new frames.old.frames frames.new.frames) }
    ensures opened { IfOk result (Opened stack.old stack.new frames.old.frames frames.new.frames) }
    ensures adds { IfOk result (Adds 7 stack.old stack.new) }
    ensures belongs { Belong L.made L.meaning labels.new frames.new.frames }
    ensures kept { IsKept L.made L.meaning L.room L.firm labels.old labels.new }
{
    let value = stack.pop();
    open_branch(labels, frames, stack, true, value.label)?;
    if truth(&value.value) {
        stack.lay(value)?;
        Ok(Control::Value)
    } else {
        Ok(Control::Expr(right))
    }
}

/// `?:` (ECMA-262 11.12): one of two expressions.
#[inline(always)]
#[tactic(auto, using(continuations::proofs::BranchLaws::resumes_forked), unfolding(es_meaning::specs::Evaluation::choose_expr))]
pub fn choose_expr<'p, L: Labels>(
    labels: &mut L,
    frames: &mut Frames<L::Label>,
    stack: &mut Stack<'p, L::Label>,
    then: &'p Expr,
    other: &'p Expr,
) -> Result<Control<'p>, OutOfMemory>
    requires loose { length stack.old.loose ≡ 1 }
    requires made { All (HasValue (L.made labels.old)) stack.old.loose }
    requires belongs { Belong L.made L.meaning labels.old frames.old.frames }
    ensures goes_on { IfOk result (ResumesIn L.made L.meaning labels.new (continuation.Choose then.entry other.entry) stack.old stack.new frames.old.frames frames.new.frames) }
    ensures opened { IfOk result (Opened stack.old stack.new frames.old.frames frames.new.frames) }
    ensures adds { IfOk result (Adds 7 stack.old stack.new) }
    ensures belongs { Belong L.made L.meaning labels.new frames.new.frames }
    ensures kept { IsKept L.made L.meaning L.room L.firm labels.old labels.new }
{
    branch(
        labels,
        frames,
        stack,
        true,
        Control::Expr(then),
        Control::Expr(other),
    )
}

/// `if` (ECMA-262 12.5): a statement or nothing.
#[inline(always)]
#[tactic(auto, using(continuations::proofs::BranchLaws::resumes_forked), unfolding(es_meaning::specs::Evaluation::choose_stmt))]
pub fn choose_stmt<'p, L: Labels>(
    labels: &mut L,
    frames: &mut Frames<L::Label>,
    stack: &mut Stack<'p, L::Label>,
    then: &'p Stmt,
) -> Result<Control<'p>, OutOfMemory>
    requires loose { length stack.old.loose ≡ 1 }
    requires made { All (HasValue (L.made labels.old)) stack.old.loose }
    requires belongs { Belong L.made L.meaning labels.old frames.old.frames }
    ensures goes_on { IfOk result (ResumesIn L.made L.meaning labels.new (continuation.ChooseStmt then.entry) stack.old stack.new frames.old.frames frames.new.frames) }
    ensures opened { IfOk result (Opened stack.old stack.new frames.old.frames frames.new.frames) }
    ensures adds { IfOk result (Adds 7 stack.old stack.new) }
    ensures belongs { Belong L.made L.meaning labels.new frames.new.frames }
    ensures kept { IsKept L.made L.meaning L.room L.firm labels.old labels.new }
{
    branch(
        labels,
        frames,
        stack,
        false,
        Control::Stmt(then),
        Control::Done,
    )
}

/// `if` with `else` (ECMA-262 12.5): one of two statements.
#[inline(always)]
#[tactic(auto, using(continuations::proofs::BranchLaws::resumes_forked), unfolding(es_meaning::specs::Evaluation::choose_stmts))]
pub fn choose_stmts<'p, L: Labels>(
    labels: &mut L,
    frames: &mut Frames<L::Label>,
    stack: &mut Stack<'p, L::Label>,
    then: &'p Stmt,
    other: &'p Stmt,
) -> Result<Control<'p>, OutOfMemory>
    requires loose { length stack.old.loose ≡ 1 }
    requires made { All (HasValue (L.made labels.old)) stack.old.loose }
    requires belongs { Belong L.made L.meaning labels.old frames.old.frames }
    ensures goes_on { IfOk result (ResumesIn L.made L.meaning labels.new (continuation.ChooseStmts then.entry other.entry) stack.old stack.new frames.old.frames frames.new.frames) }
    ensures opened { IfOk result (Opened stack.old stack.new frames.old.frames frames.new.frames) }
    ensures adds { IfOk result (Adds 7 stack.old stack.new) }
    ensures belongs { Belong L.made L.meaning labels.new frames.new.frames }
    ensures kept { IsKept L.made L.meaning L.room L.firm labels.old labels.new }
{
    branch(
        labels,
        frames,
        stack,
        false,
        Control::Stmt(then),
        Control::Stmt(other),
    )
}
