//! The set.

ghost use Rattle.std.specs.Prelude.{◌≡◌, IfOk};
ghost use Rattle.all_natives.specs.Together.{all_entries, all_begin, all_after, all_asks};

use crate::order::{COUNT, Part, part_at};
use array_natives::ArrayNatives;
use channels::{ChannelNatives, ChannelState};
use flow_policy::Policy;
use flow_text::OutOfMemory;
use function_natives::FunctionNatives;
use native_programs::ProgramCall;
use native_protocol::{Answer, Entry, Natives, Request};
use object_natives::{ObjectNatives, ObjectState};
use std::alloc::Global;
use std::marker::Model;
use string_natives::StringNatives;

/// The built-ins of `channels`, with the names of the origins that a policy declares, and those of the other sets.
#[derive(Drop)]
pub struct AllNatives {
    channels: ChannelNatives,
    objects: ObjectNatives,
    arrays: ArrayNatives,
    functions: FunctionNatives,
    texts: StringNatives,
}

impl Model for AllNatives {
    ghost use Rattle.std.specs.Prelude.{List, ℕ};

    ghost Value = { List (List ℕ) };

    ghost view = { λ n. n.channels };
}

/// What a call of one of them is at.
#[derive(Drop)]
pub enum AllState {
    Channel(ChannelState),
    Object(ObjectState),
    /// A call of a table of lines, which goes on alike in each set that has such.
    Program(ProgramCall),
}

impl AllNatives {
    /// Those with the origins of a policy.
    pub fn new(alloc: Global, policy: &Policy) -> Result<AllNatives, OutOfMemory>
        ensures { IfOk result (λ natives. natives ≡ policy.now.origins) }
    {
        Ok(AllNatives {
            channels: ChannelNatives::new(alloc, policy)?,
            objects: ObjectNatives::new(alloc),
            arrays: ArrayNatives::new(alloc),
            functions: FunctionNatives::new(alloc),
            texts: StringNatives::new(alloc),
        })
    }
}

impl Natives for AllNatives {
    type State = AllState;

    ghost entries = { λ _. all_entries };

    ghost begin = { λ _ which argc construct. all_begin which argc construct };

    ghost after = { λ names state answer. all_after names state answer };

    ghost asks = { λ _ state. all_asks state };

    #[tactic(auto, unfolding(crate::specs::Together::all_entries, object_natives::specs::Table::entries, array_natives::specs::Table::entries, function_natives::specs::Table::entries, string_natives::specs::Table::entries))]
    fn count(&self) -> u32 {
        COUNT
    }

    fn entry(&self, which: u32) -> Entry {
        match part_at(which) {
            Part::Channel(n) => self.channels.entry(n),
            Part::Object(n) => self.objects.entry(n),
            Part::Array(n) => self.arrays.entry(n),
            Part::Function(n) => self.functions.entry(n),
            Part::Text(n) => self.texts.entry(n),
        }
    }

    fn start(
        &self,
        alloc: Global,
        which: u32,
        argc: u64,
        construct: bool,
    ) -> Result<AllState, OutOfMemory> {
        match part_at(which) {
            Part::Channel(n) => {
                let state = self.channels.start(alloc, n, argc, construct)?;
                Ok(AllState::Channel(state))
            }
            Part::Object(n) => {
                let state = self.objects.start(alloc, n, argc, construct)?;
                Ok(AllState::Object(state))
            }
            Part::Array(n) => {
                let state = self.arrays.start(alloc, n, argc, construct)?;
                Ok(AllState::Program(state))
            }
            Part::Function(n) => {
                let state = self.functions.start(alloc, n, argc, construct)?;
                Ok(AllState::Program(state))
            }
            Part::Text(n) => {
                let state = self.texts.start(alloc, n, argc, construct)?;
                Ok(AllState::Program(state))
            }
        }
    }

    fn next(&self, state: &mut AllState, answer: Answer) -> Result<Request, OutOfMemory> {
        match state {
            AllState::Channel(state) => self.channels.next(state, answer),
            AllState::Object(state) => self.objects.next(state, answer),
            AllState::Program(state) => self.arrays.next(state, answer),
        }
    }
}
