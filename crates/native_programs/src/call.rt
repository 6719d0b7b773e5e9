//! A call of a built-in that is a program.

ghost use Rattle.std.specs.Prelude.{◌≡◌, ◌∷◌, IfOk};
ghost use Rattle.native_programs.specs.Advancing.{call_begin, call_asks, call_after, run_begin, run_asks, run_after, led, resolve, failed, run};
ghost use Rattle.native_programs.specs.declared.stage.Stage.TheVariants as stage;

use crate::advance::{FAILING, Reached, advance, one_less};
use crate::kept::Kept;
use crate::line::{Ask, Exit, Line};
use crate::lines::{Left, Lines, Loops, Turn};
use crate::stage::{Outcome, Stage};
use flow_text::OutOfMemory;
use native_protocol::{Answer, ErrorKind, Request};
use std::alloc::Global;
use std::mem;

/// A call at a line that asks: the lines behind it, the loops round these, what the line is at, and what the call keeps.
#[derive(Drop)]
pub struct Run {
    rest: Lines,
    loops: Loops,
    stage: Stage,
    values: Kept,
}

/// A call that has begun, or goes on, or of which nothing is left since memory was missing.
#[derive(Drop)]
pub enum Call {
    Begun(Run),
    Running(Run),
    Over,
}

impl Call {
    /// A call of a program.
    pub fn start(
        alloc: Global,
        lines: &'static [Line],
        argc: u64,
        construct: bool,
    ) -> Result<Call, OutOfMemory>
        ensures { IfOk result (λ call. call ≡ call_begin lines.now argc construct) }
    {
        let values = Kept::begin(alloc, argc, construct)?;
        let to = advance(alloc, lines, values)?;
        Ok(Call::Begun(resolve(alloc, Loops::new(alloc), to)?))
    }

    /// Tells the answer to what was asked last, and asks the next. Where memory is missing the state may be any.
    pub fn next(&mut self, alloc: Global, answer: Answer) -> Result<Request, OutOfMemory>
        ensures state { IfOk result (λ request. self.new ≡ call_after self.old answer) }
        ensures asks { IfOk result (λ request. request ≡ call_asks (call_after self.old answer)) }
    {
        let before = mem::replace(self, Call::Over);
        *self = before.after(alloc, answer)?;
        self.request(alloc)
    }

    fn request(&self, alloc: Global) -> Result<Request, OutOfMemory>
        ensures { IfOk result (λ request. request ≡ call_asks self.now) }
    {
        match self {
            Call::Begun(run) => run.request(alloc),
            Call::Running(run) => run.request(alloc),
            Call::Over => Ok(Request::ThrowNew {
                kind: ErrorKind::TypeError,
            }),
        }
    }

    // The first answer tells that it begins.
    fn after(self, alloc: Global, answer: Answer) -> Result<Call, OutOfMemory>
        ensures { IfOk result (λ call. call ≡ call_after self answer) }
    {
        match self {
            Call::Begun(run) => Ok(Call::Running(run)),
            Call::Running(run) => Ok(Call::Running(run.after(alloc, answer)?)),
            Call::Over => Ok(Call::Over),
        }
    }
}

impl Run {
    fn request(&self, alloc: Global) -> Result<Request, OutOfMemory>
        ensures { IfOk result (λ request. request ≡ run_asks self.now) }
    {
        self.stage.request(alloc, self.values.values())
    }

    fn after(self, alloc: Global, answer: Answer) -> Result<Run, OutOfMemory>
        ensures { IfOk result (λ run. run ≡ run_after self answer) }
    {
        let Run {
            rest,
            loops,
            stage,
            values,
        } = self;
        led(alloc, rest, loops, stage.after(alloc, values, answer)?)
    }
}

fn led(alloc: Global, rest: Lines, loops: Loops, outcome: Outcome) -> Result<Run, OutOfMemory>
    ensures { IfOk result (λ run. run ≡ led rest loops outcome) }
{
    match outcome {
        Outcome::Next(values) => {
            let to = advance(alloc, rest.items(), values)?;
            resolve(alloc, loops, to)
        }
        Outcome::Exits(exit, values) => match exit {
            Exit::Stay => {
                let to = advance(alloc, rest.items(), values)?;
                resolve(alloc, loops, to)
            }
            Exit::Ends(end) => resolve(alloc, loops, Reached::Asks(rest, Ask::Ends(end), values)),
            Exit::NextTurn => resolve(alloc, loops, Reached::NextTurn(values)),
            Exit::LeaveLoop => resolve(alloc, loops, Reached::LeavesLoop(values)),
        },
        Outcome::Waits(stage, values) => Ok(Run {
            rest,
            loops,
            stage,
            values,
        }),
    }
}

fn failed(alloc: Global, values: Kept) -> Run
    ensures { result ≡ failed values }
{
    Run {
        rest: Lines::of(&[]),
        loops: Loops::new(alloc),
        stage: Stage::Asking(FAILING),
        values,
    }
}

// Where lines lead in these loops.
fn resolve(alloc: Global, mut loops: Loops, to: Reached) -> Result<Run, OutOfMemory>
    ensures { IfOk result (λ run. run ≡ resolve loops to) }
{
    match to {
        Reached::Asks(rest, ask, values) => Ok(Run {
            rest,
            loops,
            stage: Stage::Asking(ask),
            values,
        }),
        Reached::Enters(turn, values) => entered(loops, turn, values),
        Reached::NextTurn(mut values) => match loops.pop() {
            None => Ok(failed(alloc, values)),
            Some(turn) => {
                values.bump(alloc, turn.count)?;
                match one_less(turn.left) {
                    None => {
                        let next = advance(alloc, turn.behind.items(), values)?;
                        resolve(alloc, loops, next)
                    }
                    Some(left) => entered(loops, with_left(turn, left), values),
                }
            }
        },
        Reached::LeavesLoop(values) => match loops.pop() {
            None => Ok(failed(alloc, values)),
            Some(turn) => {
                let next = advance(alloc, turn.behind.items(), values)?;
                resolve(alloc, loops, next)
            }
        },
    }
}

fn with_left(turn: Turn, left: Left) -> Turn
    ensures { result ≡ record turn { left = left } }
{
    Turn { left, ..turn }
}

// A turn of a loop begins.
fn entered(mut loops: Loops, turn: Turn, values: Kept) -> Result<Run, OutOfMemory>
    ensures { IfOk result (λ r. r ≡ run turn.body (turn ∷ loops) (stage.Asking turn.first) values) }
{
    let (rest, first) = (turn.body.copy(), turn.first);
    loops.push(turn)?;
    Ok(Run {
        rest,
        loops,
        stage: Stage::Asking(first),
        values,
    })
}
