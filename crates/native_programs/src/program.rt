//! A call of a built-in of a table: its lines, or the name of what isn't offered.

ghost use Rattle.std.specs.Prelude.{◌≡◌, IfOk};
ghost use Rattle.native_programs.specs.Programs.{left_begin, lines_begin, program_asks, program_after};
ghost use Rattle.native_programs.specs.Tables.{path};

use crate::call::Call;
use crate::line::Line;
use flow_text::{OutOfMemory, Text};
use native_protocol::{Answer, Request};
use std::alloc::Global;

/// What a call is at.
#[derive(Drop)]
pub enum ProgramCall {
    Lines(Call),
    LeftOut { name: Text },
}

impl ProgramCall {
    /// A call of lines.
    pub fn of_lines(
        alloc: Global,
        lines: &'static [Line],
        argc: u64,
        construct: bool,
    ) -> Result<ProgramCall, OutOfMemory>
        ensures { IfOk result (λ call. call ≡ lines_begin lines.now argc construct) }
    {
        Ok(ProgramCall::Lines(Call::start(alloc, lines, argc, construct)?))
    }

    /// A call of what isn't offered: the run is left by its path.
    pub fn left_out(alloc: Global, holder: &str, name: &str) -> Result<ProgramCall, OutOfMemory>
        ensures { IfOk result (λ call. call ≡ left_begin holder.now name.now) }
    {
        Ok(ProgramCall::LeftOut {
            name: path(alloc, holder, name)?,
        })
    }

    /// Tells the answer to what was asked last, and asks the next. Where memory is missing the state may be any.
    pub fn next(&mut self, alloc: Global, answer: Answer) -> Result<Request, OutOfMemory>
        ensures state { IfOk result (λ request. self.new ≡ program_after self.old answer) }
        ensures asks { IfOk result (λ request. request ≡ program_asks (program_after self.old answer)) }
    {
        match self {
            ProgramCall::Lines(call) => call.next(alloc, answer),
            ProgramCall::LeftOut { name } => Ok(Request::Leave {
                name: name.copy(alloc)?,
            }),
        }
    }
}

// The path of what isn't offered: a global name alone, and any other behind its holder.
fn path(alloc: Global, holder: &str, name: &str) -> Result<Text, OutOfMemory>
    ensures { IfOk result (λ text. text ≡ path holder.now name.now) }
{
    if holder == "global" {
        return Text::spelled(alloc, name);
    }
    let mut text = Text::spelled(alloc, holder)?;
    text.push(u16::from(b'.'))?;
    text.push_units(Text::spelled(alloc, name)?.units())?;
    Ok(text)
}
