//! Lines that are still to come, and the loops round them.

ghost use Rattle.std.specs.Prelude.{◌≡◌, [], ◌∷◌, OnOk, OnErr, IfOk, IfSome, IfNone};
ghost use Rattle.native_programs.specs.Advancing.{behind_ends};

use crate::line::{Ask, Count, Line};
use flow_text::OutOfMemory;
use std::alloc::Global;
use std::marker::Model;

/// Lines of a program.
#[derive(Drop)]
pub struct Lines {
    lines: &'static [Line],
}

impl Model for Lines {
    ghost use Rattle.std.specs.Prelude.{List};
    ghost use Rattle.native_programs.specs.declared.line.Line.{Line};

    ghost Value = { List Line };

    ghost view = { λ l. l.lines.now };
}

impl Lines {
    /// These.
    pub(crate) fn of(lines: &'static [Line]) -> Lines
        ensures { result ≡ lines.now }
    {
        Lines { lines }
    }

    /// The same.
    pub(crate) fn copy(&self) -> Lines
        ensures { result ≡ self.now }
    {
        Lines { lines: self.lines }
    }

    /// They, as a slice.
    pub(crate) fn items(&self) -> &'static [Line]
        ensures { result.now ≡ self.now }
    {
        self.lines
    }
}

/// How many turns of a loop are left behind the present one.
#[derive(Clone, Copy)]
pub enum Left {
    Turns(u64),
    Endless,
}

/// A loop in one of its turns: how it counts, what a turn asks first, how many are left, its lines, and those behind it.
#[derive(Drop)]
pub struct Turn {
    pub count: Count,
    pub first: Ask,
    pub left: Left,
    pub body: Lines,
    pub behind: Lines,
}

/// The loops that a call is in, the innermost first.
#[derive(Drop)]
pub struct Loops {
    turns: Vec<Turn>,
}

impl Model for Loops {
    ghost use Rattle.std.specs.Prelude.{List};
    ghost use Rattle.native_programs.specs.declared.lines.Turn.{Turn};
    ghost use Rattle.native_programs.specs.Reversed.{backwards};

    ghost Value = { List Turn };

    ghost view = { λ l. backwards l.turns.items };
}

impl Loops {
    /// None. It takes no memory.
    pub(crate) fn new(alloc: Global) -> Loops
        ensures { result ≡ [] }
    {
        Loops {
            turns: Vec::new(alloc),
        }
    }

    /// A loop inside.
    pub(crate) fn push(&mut self, turn: Turn) -> Result<(), OutOfMemory>
        ensures { OnOk result (self.new ≡ turn ∷ self.old) }
    {
        self.turns.push(turn)?;
        Ok(())
    }

    /// The innermost loop, which is left.
    pub(crate) fn pop(&mut self) -> Option<Turn>
        ensures some { IfSome result (λ turn. self.old ≡ turn ∷ self.new) }
        ensures none { IfNone result (self.old ≡ []) }
    {
        self.turns.pop()
    }
}

/// The lines behind the ends of so many loops and conditional parts that the lines stand in.
pub(crate) fn behind_ends(
    parts: u64,
    lines: &'static [Line],
) -> Result<&'static [Line], OutOfMemory>
    ensures { IfOk result (λ behind. behind.now ≡ behind_ends parts lines.now) }
{
    if parts == 0 {
        return Ok(lines);
    }
    match lines {
        [] => Ok(lines),
        [line, more @ ..] => match line {
            Line::EndLoop | Line::EndIf => behind_ends(parts - 1, more),
            Line::Loop(_, _) | Line::If(_) => {
                behind_ends(parts.checked_add(1).ok_or(OutOfMemory)?, more)
            }
            _ => behind_ends(parts, more),
        },
    }
}
