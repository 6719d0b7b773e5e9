//! The frame of a `switch` and of a labelled statement.

ghost use Rattle.std.specs.Prelude.{◌≡◌, ◌+◌, ◌++◌, [], ◌∷◌, Some, false, length, map, IfOk, OnOk};
ghost use Rattle.std.specs.List.{All};
ghost use Rattle.origin_labels.specs.Label.{Label, bottom, union};
ghost use Rattle.origin_labels.specs.Stores.{IsKept};
ghost use Rattle.flow_frames.specs.Changes.{pushed};
ghost use Rattle.flow_frames.specs.Held.{Belong, CatchByTry, seen_frame};
ghost use Rattle.js_ast.specs.Views.{view_stmt};
ghost use Rattle.js_values.specs.Readings.{HasValue, IsReading};
ghost use Rattle.flow_meaning.specs.Planned.{planned, asking};
ghost use Rattle.flow_meaning.specs.Scopes.{State, pushed_on, raised_in};
ghost use Rattle.continuations.specs.declared.continuation.Continuation.TheVariants as continuation;
ghost use Rattle.continuations.specs.Loads.{Adds};
ghost use Rattle.continuations.specs.Resuming.{BeginsIn, Opened, ResumesIn, with_frames};
ghost use Rattle.continuations.specs.Invariant.{running};
ghost use Rattle.step_statements.specs.Fronts.{Fronts, ResumesBesideIn};

use crate::clauses::case_from;
use crate::equal::same;
use crate::testing::{choose, test_from};
use continuations::{Continuation, Control, Stack};
use flow_frames::{Frames, Kind, belonging_lasts};
use flow_text::{OutOfMemory, Text};
use js_ast::{ClauseList, Stmt};
use origin_labels::Labels;

/// Enters a Loop frame, on which nothing is decided yet.
fn enter<L: Labels>(labels: &mut L, frames: &mut Frames<L::Label>) -> Result<(), OutOfMemory>
    requires belongs { Belong L.made L.meaning labels.old frames.old.frames }
    ensures entered { OnOk result ((reading : L.Label → Label) → IsReading L.made L.meaning labels.new reading → map (seen_frame reading) frames.new.frames ≡ map (seen_frame reading) frames.old.frames ++ pushed Kind.Loop bottom ∷ []) }
    ensures length { OnOk result (length frames.new.frames ≡ length frames.old.frames + 1) }
    ensures belongs { Belong L.made L.meaning labels.new frames.new.frames }
    ensures kept { IsKept L.made L.meaning L.room L.firm labels.old labels.new }
{
    let none = labels.bottom();
    frames.push(labels, Kind::Loop, none)?;
    Ok(())
}

/// Joins a label to that of the last frame.
fn raise<L: Labels>(
    labels: &mut L,
    frames: &mut Frames<L::Label>,
    label: L::Label,
) -> Result<(), OutOfMemory>
    requires label { L.made labels.old label }
    requires belongs { Belong L.made L.meaning labels.old frames.old.frames }
    ensures raised { OnOk result ((reading : L.Label → Label) (s : State) → IsReading L.made L.meaning labels.new reading → with_frames reading frames.new.frames s ≡ raised_in (reading label) (with_frames reading frames.old.frames s)) }
    ensures length { length frames.new.frames ≡ length frames.old.frames }
    ensures belongs { Belong L.made L.meaning labels.new frames.new.frames }
    ensures kept { IsKept L.made L.meaning L.room L.firm labels.old labels.new }
{
    frames.raise_last(labels, label)?;
    Ok(())
}

/// A labelled statement in its frame.
pub(crate) fn labelled_in<'p, L: Labels>(
    labels: &mut L,
    frames: &mut Frames<L::Label>,
    stack: &mut Stack<'p, L::Label>,
    text: &'p Text,
    body: &'p Stmt,
) -> Result<Control<'p>, OutOfMemory>
    requires loose { length stack.old.loose ≡ 0 }
    requires belongs { Belong L.made L.meaning labels.old frames.old.frames }
    ensures goes_on { IfOk result (BeginsIn L.made L.meaning labels.new (λ tables inputs set functions e. (planned tables inputs set functions).round false (Some text.entry.now ∷ []) e.env ((asking tables inputs set functions).stmt (view_stmt body.entry.now))) stack.old stack.new frames.old.frames frames.new.frames) }
    ensures opened { IfOk result (Opened stack.old stack.new frames.old.frames frames.new.frames) }
    ensures still { IfOk result (λ move. running move ≡ 0) }
    ensures adds { IfOk result (Adds 1 stack.old stack.new) }
    ensures catch { IfOk result (λ _. CatchByTry frames.new.frames) }
    ensures belongs { Belong L.made L.meaning labels.new frames.new.frames }
    ensures kept { IsKept L.made L.meaning L.room L.firm labels.old labels.new }
{
    let depth = frames.len();
    enter(labels, frames)?;
    let _count = frames.len();
    stack.push(Continuation::EndLabel(depth, text))?;
    Ok(Control::Stmt(body))
}

/// A `switch` in its frame, which its value raises.
pub(crate) fn switched_in<'p, L: Labels>(
    labels: &mut L,
    frames: &mut Frames<L::Label>,
    stack: &mut Stack<'p, L::Label>,
    of: &'p Stmt,
    clauses: &'p ClauseList,
) -> Result<Control<'p>, OutOfMemory>
    requires loose { length stack.old.loose ≡ 1 }
    requires made { All (HasValue (L.made labels.old)) stack.old.loose }
    requires belongs { Belong L.made L.meaning labels.old frames.old.frames }
    ensures goes_on { IfOk result (ResumesIn L.made L.meaning labels.new (continuation.Switched of.entry clauses.entry) stack.old stack.new frames.old.frames frames.new.frames) }
    ensures opened { IfOk result (Opened stack.old stack.new frames.old.frames frames.new.frames) }
    ensures still { IfOk result (λ move. running move ≡ 0) }
    ensures adds { IfOk result (Adds 7 stack.old stack.new) }
    ensures catch { IfOk result (λ _. CatchByTry frames.new.frames) }
    ensures belongs { Belong L.made L.meaning labels.new frames.new.frames }
    ensures kept { IsKept L.made L.meaning L.room L.firm labels.old labels.new }
{
    let depth = frames.len();
    let value = stack.pop();
    enter(labels, frames)?;
    raise(labels, frames, value.label)?;
    let _count = frames.len();
    stack.push(Continuation::EndRound(false, depth, of))?;
    stack.lay(value)?;
    let next = test_from(stack, clauses, 0)?;
    Ok(next)
}

/// Joins the labels of two values to that of the last frame.
fn raise_by_both<L: Labels>(
    labels: &mut L,
    frames: &mut Frames<L::Label>,
    left: L::Label,
    right: L::Label,
) -> Result<(), OutOfMemory>
    requires left { L.made labels.old left }
    requires right { L.made labels.old right }
    requires belongs { Belong L.made L.meaning labels.old frames.old.frames }
    ensures raised { OnOk result ((reading : L.Label → Label) (s : State) → IsReading L.made L.meaning labels.new reading → with_frames reading frames.new.frames s ≡ raised_in (union (reading left) (reading right)) (with_frames reading frames.old.frames s)) }
    ensures length { length frames.new.frames ≡ length frames.old.frames }
    ensures catch { OnOk result (CatchByTry frames.new.frames) }
    ensures belongs { Belong L.made L.meaning labels.new frames.new.frames }
    ensures kept { IsKept L.made L.meaning L.room L.firm labels.old labels.new }
{
    belonging_lasts::<L>();
    let label = labels.join(left, right)?;
    raise(labels, frames, label)?;
    let _count = frames.len();
    Ok(())
}

/// The value of a case's test, above that of the `switch`: its frame is raised by both, and an equal case's statements come, or the next test.
pub(crate) fn compared_in<'p, L: Labels>(
    labels: &mut L,
    frames: &mut Frames<L::Label>,
    stack: &mut Stack<'p, L::Label>,
    clauses: &'p ClauseList,
    number: u32,
) -> Result<Control<'p>, OutOfMemory>
    requires loose { length stack.old.loose ≡ 2 }
    requires made { All (HasValue (L.made labels.old)) stack.old.loose }
    requires catch { CatchByTry frames.old.frames }
    requires belongs { Belong L.made L.meaning labels.old frames.old.frames }
    ensures goes_on { IfOk result (ResumesBesideIn L.made L.meaning labels.new (continuation.Compared clauses.entry number) stack.old stack.new frames.old.frames frames.new.frames) }
    ensures fronts { IfOk result (Fronts stack.old stack.new) }
    ensures adds { IfOk result (Adds 6 stack.old stack.new) }
    ensures length { length frames.new.frames ≡ length frames.old.frames }
    ensures catch { IfOk result (λ _. CatchByTry frames.new.frames) }
    ensures belongs { Belong L.made L.meaning labels.new frames.new.frames }
    ensures kept { IsKept L.made L.meaning L.room L.firm labels.old labels.new }
{
    let value = stack.pop();
    let Some(left) = case_from(clauses.items(), number) else {
        let next = test_from(stack, clauses, number)?;
        return Ok(next);
    };
    let operand = &stack.loose(1)[0];
    let equal = same(&operand.value, &value.value);
    raise_by_both(labels, frames, operand.label, value.label)?;
    let next = choose(stack, clauses, left, number, equal)?;
    Ok(next)
}
