//! The set.

ghost use Rattle.std.specs.Prelude.{◌≡◌, ◌<◌};
ghost use Rattle.object_natives.specs.Dispatch.{state_begin, state_asks, state_after};
ghost use Rattle.object_natives.specs.Table as table;

use crate::call::{Call, ObjectState};
use crate::table::{COUNT, row};
use flow_text::OutOfMemory;
use native_protocol::{Answer, Entry, ErrorKind, Natives, Request};
use primitive_natives::Ending;
use std::alloc::Global;
use std::marker::Model;
use std::mem;

/// The built-ins of Object, Boolean, Number and Math, and the names of the global object that aren't offered.
#[derive(Drop)]
pub struct ObjectNatives {
    alloc: Global,
}

impl Model for ObjectNatives {
    ghost Value = { Unit {0} };

    ghost view = { λ n. tt };
}

impl ObjectNatives {
    /// The set. It takes no memory.
    pub fn new(alloc: Global) -> ObjectNatives {
        ObjectNatives { alloc }
    }
}

impl Natives for ObjectNatives {
    type State = ObjectState;

    ghost entries = { λ _. table.entries };

    ghost begin = { λ _ which argc construct. state_begin which argc construct };

    ghost after = { λ _ state answer. state_after state answer };

    ghost asks = { λ _ state. state_asks state };

    #[tactic(auto, unfolding(crate::specs::Table::entries))]
    fn count(&self) -> u32 {
        COUNT
    }

    fn entry(&self, which: u32) -> Entry {
        let (holder, name, length, form, _) = row(which);
        Entry {
            holder,
            name,
            length,
            form,
        }
    }

    fn start(
        &self,
        alloc: Global,
        which: u32,
        argc: u64,
        construct: bool,
    ) -> Result<ObjectState, OutOfMemory> {
        Ok(ObjectState::Begun(Call::start(alloc, row(which), argc, construct)?))
    }

    fn next(&self, state: &mut ObjectState, answer: Answer) -> Result<Request, OutOfMemory> {
        let ended = Ending::Throw {
            kind: ErrorKind::TypeError,
        };
        let before = mem::replace(state, ObjectState::Running(Call::Ends(ended)));
        *state = before.after(self.alloc, answer)?;
        state.request(self.alloc)
    }
}
