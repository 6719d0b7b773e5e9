//! Where jumps go: pending work is walked from the last of it down to what the jump ends, or to the call that it can't leave.

ghost use Rattle.std.specs.Prelude.{◌≡◌, [], Some, length};
ghost use Rattle.std.specs.List.{list_any};
ghost use Rattle.std.specs.Option.{option_map};
ghost use Rattle.js_ast.specs.Views.{view_stmt};
ghost use Rattle.es_meaning.specs.Environments.{find_around, is_label, same_mark};
ghost use Rattle.continuations.specs.JumpTargets.{call_of, ended_by, ends_label, ends_round, env_in, reached_if, rounds_of, stands_before};
ghost use Rattle.continuations.specs.Going.{here};
ghost use Rattle.continuations.specs.Shapes.{labels_at};

use crate::continuation::Continuation;
use flow_text::Text;
use js_ast::{Stmt, StmtKind};

/// The depth of the frame of the call that the work ends.
fn call_of(work: Continuation<'_>) -> Option<usize>
    ensures { result ≡ call_of work.entry }
{
    match work {
        Continuation::EndCall(_, depth) | Continuation::EndNew(_, depth) => Some(depth),
        _ => None,
    }
}

/// How much the work puts round the part above it.
fn rounds_of(work: Continuation<'_>) -> usize
    ensures { result ≡ rounds_of work.entry }
{
    match work {
        Continuation::EndRound(_, _, _) | Continuation::EndLabel(_, _) => 1,
        _ => 0,
    }
}

/// The depth of the innermost call's frame, or 0 in the outermost code.
pub(crate) fn innermost_call(works: &[Continuation<'_>]) -> usize
    ensures { (env_in works.now here).call ≡ result }
{
    let mut rest = works;
    while let [front @ .., last] = rest {
        if let Some(depth) = call_of(*last) {
            return depth;
        }
        rest = front;
    }
    0
}

/// How many loops, turns, `switch` and labelled statements stand round the part in its function.
fn rounds(works: &[Continuation<'_>]) -> usize
    ensures { result ≡ length (env_in works.now here).around }
{
    let mut rest = works;
    let mut count = 0;
    while let [front @ .., last] = rest {
        if call_of(*last).is_some() {
            return count;
        }
        count += rounds_of(*last);
        rest = front;
    }
    count
}

/// The label stands in front of the statement, among others maybe.
fn has_label(s: &Stmt, text: &[u16]) -> bool
    ensures { result ≡ stands_before text.now (view_stmt s.now) }
{
    match &*s.kind {
        StmtKind::Labelled { label, body } => label.units() == text || has_label(body, text),
        _ => false,
    }
}

/// A jump with this label, or none, leaves the loop or the `switch` behind the labels of the statement.
#[tactic(auto, using(crate::proofs::JumpTargetLaws::left_by_text))]
fn is_left_by(label: Option<&[u16]>, of: &Stmt) -> bool
    ensures { result ≡ list_any (λ l. is_label (option_map (λ text. text.now) label.entry) l) (labels_at (view_stmt of.now)) }
{
    match label {
        Some(text) => has_label(of, text),
        None => true,
    }
}

/// The jump has this label.
fn has_text(label: Option<&[u16]>, text: &Text) -> bool
    ensures { result ≡ is_label (option_map (λ text. text.now) label.entry) (Some text.now) }
{
    match label {
        Some(units) => units == text.units(),
        None => false,
    }
}

/// A `continue` ends turns, and a `break` what is none.
fn same_mark(turn: bool, mark: bool) -> bool
    ensures { result ≡ same_mark turn mark }
{
    if turn { mark } else { !mark }
}

fn ends_round(turn: bool, label: Option<&[u16]>, mark: bool, of: &Stmt) -> bool
    ensures { result ≡ ends_round turn (option_map (λ text. text.now) label.entry) mark (view_stmt of.now) }
{
    same_mark(turn, mark) && is_left_by(label, of)
}

fn ends_label(turn: bool, label: Option<&[u16]>, text: &Text) -> bool
    ensures { result ≡ ends_label turn (option_map (λ text. text.now) label.entry) text.now }
{
    same_mark(turn, false) && has_text(label, text)
}

fn reached_if(ends: bool, depth: usize) -> Option<usize>
    ensures { result ≡ reached_if ends depth }
{
    if ends { Some(depth) } else { None }
}

/// The depth of the frame of what the work puts round the part, if the jump ends it.
fn ended_by(turn: bool, label: Option<&[u16]>, work: Continuation<'_>) -> Option<usize>
    ensures { result ≡ ended_by turn (option_map (λ text. text.now) label.entry) work.entry }
{
    match work {
        Continuation::EndRound(mark, depth, of) => reached_if(
            ends_round(turn, label, mark, of),
            depth,
        ),
        Continuation::EndLabel(depth, text) => reached_if(ends_label(turn, label, text), depth),
        _ => None,
    }
}

/// What a `break` or a `continue` ends: how much stands round it in its function, and the depth of its frame.
pub(crate) fn reached(
    works: &[Continuation<'_>],
    turn: bool,
    label: Option<&[u16]>,
) -> Option<(usize, usize)>
    ensures { result ≡ find_around turn (option_map (λ text. text.now) label.entry) (env_in works.now here).around }
{
    let mut rest = works;
    while let [front @ .., last] = rest {
        if let Some(depth) = ended_by(turn, label, *last) {
            return Some((rounds(front), depth));
        }
        if call_of(*last).is_some() {
            return None;
        }
        rest = front;
    }
    None
}
