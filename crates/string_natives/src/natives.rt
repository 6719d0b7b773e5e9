//! The set.

ghost use Rattle.std.specs.Prelude.{◌≡◌, ◌<◌};
ghost use Rattle.native_programs.specs.Programs.{program_asks, program_after};
ghost use Rattle.string_natives.specs.Dispatch as dispatch;
ghost use Rattle.string_natives.specs.Table as table;

use crate::table::{COUNT, lines_of, row};
use flow_text::OutOfMemory;
use native_programs::ProgramCall;
use native_protocol::{Answer, Entry, Natives, Request};
use std::alloc::Global;
use std::marker::Model;

/// The built-ins of String and of its prototype, and the functions between texts and numbers (ECMA-262 15.5, 15.1.2, 15.7.4.2), as tables of
/// lines.
#[derive(Drop)]
pub struct StringNatives {
    alloc: Global,
}

impl Model for StringNatives {
    ghost Value = { Unit {0} };

    ghost view = { λ n. tt };
}

impl StringNatives {
    /// The set. It takes no memory.
    pub fn new(alloc: Global) -> StringNatives {
        StringNatives { alloc }
    }
}

impl Natives for StringNatives {
    type State = ProgramCall;

    ghost entries = { λ _. table.entries };

    ghost begin = { λ _ which argc construct. dispatch.begin which argc construct };

    ghost after = { λ _ state answer. program_after state answer };

    ghost asks = { λ _ state. program_asks state };

    #[tactic(auto, unfolding(crate::specs::Table::entries))]
    fn count(&self) -> u32 {
        COUNT
    }

    fn entry(&self, which: u32) -> Entry {
        let (holder, name, length, form, _) = row(which);
        Entry {
            holder,
            name,
            length,
            form,
        }
    }

    fn start(
        &self,
        alloc: Global,
        which: u32,
        argc: u64,
        construct: bool,
    ) -> Result<ProgramCall, OutOfMemory> {
        let (holder, name, _, _, built_in) = row(which);
        match lines_of(built_in) {
            Some(lines) => ProgramCall::of_lines(alloc, lines, argc, construct),
            None => ProgramCall::left_out(alloc, holder, name),
        }
    }

    fn next(&self, state: &mut ProgramCall, answer: Answer) -> Result<Request, OutOfMemory> {
        state.next(self.alloc, answer)
    }
}
