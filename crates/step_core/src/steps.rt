//! What a step comes to.

ghost use Rattle.std.specs.Prelude.{◌≡◌, IfOk};
ghost use Rattle.step_core.specs.Stepping.{Prints, runs_one, step_of, still_step};

use channel_requests::Printed;
use continuations::Control;
use flow_frames::{FlowFault, FlowStop};
use flow_text::OutOfMemory;
use js_values::Labelled;
use run_state::Leaving;
use std::alloc::Global;

/// How a run ends.
#[derive(Drop)]
pub enum Ending<T> {
    /// It reached the end of the script.
    Done,
    /// This was thrown and not caught.
    Threw(Labelled<T>),
    /// A flow rule stopped it.
    Stopped(FlowStop<T>),
    /// It left the language.
    Left(Leaving),
    /// Its turns are spent.
    OutOfTurns,
}

/// What a step of a machine comes to.
#[derive(Drop)]
pub enum Step<T> {
    /// The run goes on.
    Goes,
    /// It printed a line, and goes on. The line lies in a box, since steps are moved and few of them print.
    Line(Box<Printed<T>>),
    /// It ended.
    Ends(Ending<T>),
}

/// What a step comes to, with what is next.
#[derive(Drop)]
pub(crate) enum Advance<'p, T> {
    /// It goes on with this.
    Goes(Control<'p>),
    /// It printed a line, and goes on with this.
    Line(Box<Printed<T>>, Control<'p>),
    /// The run ended.
    Ends(Ending<T>),
}

/// The step that a move is, or the rule that stopped it.
#[inline(always)]
pub(crate) fn step_of<'p, T>(
    moved: Result<Control<'p>, FlowFault<T>>,
) -> Result<Advance<'p, T>, OutOfMemory>
    ensures { result ≡ step_of moved.entry }
{
    match moved {
        Ok(next) => Ok(Advance::Goes(next)),
        Err(FlowFault::Stop(stop)) => Ok(Advance::Ends(Ending::Stopped(stop))),
        Err(FlowFault::OutOfMemory) => Err(OutOfMemory),
    }
}

/// The same of a move behind which no built-in runs: only what begins or tells one has it run next. That it is such a move isn't known here, and is looked at.
#[inline(always)]
pub(crate) fn still_step<'p, T>(
    moved: Result<Control<'p>, FlowFault<T>>,
) -> Result<Advance<'p, T>, OutOfMemory>
    ensures { result ≡ still_step moved.entry }
{
    match moved {
        Ok(Control::Request(_)) => Err(OutOfMemory),
        other => step_of(other),
    }
}

/// The step that printed a line.
#[inline(always)]
pub(crate) fn line_step<'p, T: Copy>(
    alloc: Global,
    line: Printed<T>,
    next: Control<'p>,
) -> Result<Advance<'p, T>, OutOfMemory>
    ensures { IfOk result (Prints line next.entry) }
{
    let line = Box::new(alloc, line)?;
    Ok(Advance::Line(line, next))
}

/// A built-in is to run next.
#[inline(always)]
pub(crate) fn runs(next: Control<'_>) -> bool
    ensures { result ≡ runs_one next.entry }
{
    matches!(next, Control::Request(_))
}
