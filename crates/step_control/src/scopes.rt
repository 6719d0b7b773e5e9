//! Scopes: the frames of branches, loops and turns.

ghost use Rattle.std.specs.Prelude.{◌≡◌, ◌+◌, [], ◌∷◌, ◌++◌, true, false, None, length, map, OnOk, IfOk};
ghost use Rattle.origin_labels.specs.Label.{Label};
ghost use Rattle.origin_labels.specs.Stores.{IsKept};
ghost use Rattle.flow_frames.specs.Changes.{pushed};
ghost use Rattle.flow_frames.specs.Held.{Belong, seen_frame};
ghost use Rattle.js_values.specs.Readings.{IsReading};
ghost use Rattle.es_meaning.specs.Evaluation.{loop, turn_step};
ghost use Rattle.flow_meaning.specs.Planned.{planned, asking};
ghost use Rattle.continuations.specs.Loads.{Adds};
ghost use Rattle.continuations.specs.Resuming.{BeginsIn, Opened};
ghost use Rattle.continuations.specs.Shapes.{round_of};
ghost use Rattle.continuations.specs.Settings.{entrance};

use crate::statements::begin_test;
use continuations::{Continuation, Control, Round, Stack};
use flow_frames::{Frames, Kind};
use flow_text::OutOfMemory;
use origin_labels::Labels;

/// Enters a frame.
#[inline(always)]
pub(crate) fn enter<L: Labels>(
    labels: &mut L,
    frames: &mut Frames<L::Label>,
    kind: Kind,
    label: L::Label,
) -> Result<(), OutOfMemory>
    requires label { L.made labels.old label }
    requires belongs { Belong L.made L.meaning labels.old frames.old.frames }
    ensures entered { OnOk result ((reading : L.Label → Label) → IsReading L.made L.meaning labels.new reading → map (seen_frame reading) frames.new.frames ≡ map (seen_frame reading) frames.old.frames ++ pushed kind (reading label) ∷ []) }
    ensures length { OnOk result (length frames.new.frames ≡ length frames.old.frames + 1) }
    ensures belongs { Belong L.made L.meaning labels.new frames.new.frames }
    ensures kept { IsKept L.made L.meaning L.room L.firm labels.old labels.new }
{
    frames.push(labels, kind, label)?;
    Ok(())
}

/// A loop: its condition, in a frame of its own.
#[inline(always)]
pub fn begin_loop<'p, L: Labels>(
    labels: &mut L,
    frames: &mut Frames<L::Label>,
    stack: &mut Stack<'p, L::Label>,
    round: Round<'p>,
) -> Result<Control<'p>, OutOfMemory>
    requires loose { length stack.old.loose ≡ 0 }
    requires belongs { Belong L.made L.meaning labels.old frames.old.frames }
    ensures goes_on { IfOk result (BeginsIn L.made L.meaning labels.new (λ tables inputs set functions e. loop (planned tables inputs set functions) (entrance tables inputs set functions) (asking tables inputs set functions) (round_of round.entry) e.env) stack.old stack.new frames.old.frames frames.new.frames) }
    ensures opened { IfOk result (Opened stack.old stack.new frames.old.frames frames.new.frames) }
    ensures adds { IfOk result (Adds 2 stack.old stack.new) }
    ensures belongs { Belong L.made L.meaning labels.new frames.new.frames }
    ensures kept { IsKept L.made L.meaning L.room L.firm labels.old labels.new }
{
    let depth = frames.len();
    let none = labels.bottom();
    enter(labels, frames, Kind::Loop, none)?;
    stack.push(Continuation::EndRound(false, depth, round.of))?;
    begin_test(stack, round)
}

/// A loop that begins with a turn.
#[inline(never)]
pub fn begin_do_loop<'p, L: Labels>(
    labels: &mut L,
    frames: &mut Frames<L::Label>,
    stack: &mut Stack<'p, L::Label>,
    round: Round<'p>,
) -> Result<Control<'p>, OutOfMemory>
    requires loose { length stack.old.loose ≡ 0 }
    requires belongs { Belong L.made L.meaning labels.old frames.old.frames }
    ensures goes_on { IfOk result (BeginsIn L.made L.meaning labels.new (λ tables inputs set functions e. (planned tables inputs set functions).round false (round_of round.entry).labels e.env ((asking tables inputs set functions).turn (round_of round.entry))) stack.old stack.new frames.old.frames frames.new.frames) }
    ensures opened { IfOk result (Opened stack.old stack.new frames.old.frames frames.new.frames) }
    ensures adds { IfOk result (Adds 1 stack.old stack.new) }
    ensures belongs { Belong L.made L.meaning labels.new frames.new.frames }
    ensures kept { IsKept L.made L.meaning L.room L.firm labels.old labels.new }
{
    let depth = frames.len();
    let none = labels.bottom();
    enter(labels, frames, Kind::Loop, none)?;
    stack.push(Continuation::EndRound(false, depth, round.of))?;
    Ok(Control::Turn(round))
}

/// A turn of a loop: its body, in a frame of its own, and then what stands behind it.
#[inline(always)]
pub fn begin_turn<'p, L: Labels>(
    labels: &mut L,
    frames: &mut Frames<L::Label>,
    stack: &mut Stack<'p, L::Label>,
    round: Round<'p>,
) -> Result<Control<'p>, OutOfMemory>
    requires loose { length stack.old.loose ≡ 0 }
    requires belongs { Belong L.made L.meaning labels.old frames.old.frames }
    ensures goes_on { IfOk result (BeginsIn L.made L.meaning labels.new (λ tables inputs set functions e. turn_step (planned tables inputs set functions) (entrance tables inputs set functions) (asking tables inputs set functions) (round_of round.entry) e.env) stack.old stack.new frames.old.frames frames.new.frames) }
    ensures opened { IfOk result (Opened stack.old stack.new frames.old.frames frames.new.frames) }
    ensures adds { IfOk result (Adds 2 stack.old stack.new) }
    ensures belongs { Belong L.made L.meaning labels.new frames.new.frames }
    ensures kept { IsKept L.made L.meaning L.room L.firm labels.old labels.new }
{
    stack.push(Continuation::Turned(round))?;
    begin_body(labels, frames, stack, round)
}

// The body of a turn, in its frame.
#[inline(always)]
fn begin_body<'p, L: Labels>(
    labels: &mut L,
    frames: &mut Frames<L::Label>,
    stack: &mut Stack<'p, L::Label>,
    round: Round<'p>,
) -> Result<Control<'p>, OutOfMemory>
    requires loose { length stack.old.loose ≡ 0 }
    requires belongs { Belong L.made L.meaning labels.old frames.old.frames }
    ensures goes_on { IfOk result (BeginsIn L.made L.meaning labels.new (λ tables inputs set functions e. (planned tables inputs set functions).round true (round_of round.entry).labels e.env ((asking tables inputs set functions).stmt (round_of round.entry).body)) stack.old stack.new frames.old.frames frames.new.frames) }
    ensures opened { IfOk result (Opened stack.old stack.new frames.old.frames frames.new.frames) }
    ensures adds { IfOk result (Adds 1 stack.old stack.new) }
    ensures belongs { Belong L.made L.meaning labels.new frames.new.frames }
    ensures kept { IsKept L.made L.meaning L.room L.firm labels.old labels.new }
{
    let depth = frames.len();
    let none = labels.bottom();
    enter(labels, frames, Kind::Turn, none)?;
    stack.push(Continuation::EndRound(true, depth, round.of))?;
    Ok(Control::Stmt(round.body()))
}
