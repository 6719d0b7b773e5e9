//! The five as a set of built-ins.

ghost use Rattle.std.specs.Prelude.{◌≡◌, IfOk};
ghost use Rattle.native_protocol.specs.Sets.{seen_entry};
ghost use Rattle.channels.specs.Entries.{channel_entries, function};
ghost use Rattle.channels.specs.Machine.{channel_begin, channel_after, channel_asks};

use crate::state::{BuiltIn, ChannelState, MANY, Registers};
use flow_policy::Policy;
use flow_text::OutOfMemory;
use native_protocol::{Answer, Entry, Form, Natives, Request};
use origin_labels::Origins;
use std::alloc::Global;
use std::marker::Model;
use std::mem;

/// `read`, `print`, `lbl`, `upgs` and `upge`, with the names of the origins that a policy declares.
#[derive(Drop)]
pub struct ChannelNatives {
    alloc: Global,
    origins: Origins,
}

impl Model for ChannelNatives {
    ghost use Rattle.std.specs.Prelude.{List, ℕ};

    ghost Value = { List (List ℕ) };

    ghost view = { λ n. n.origins };
}

impl ChannelNatives {
    /// Those with the origins of a policy.
    pub fn new(alloc: Global, policy: &Policy) -> Result<ChannelNatives, OutOfMemory>
        ensures { IfOk result (λ natives. natives ≡ policy.now.origins) }
    {
        let origins = copy_of(alloc, policy.origins())?;
        Ok(ChannelNatives { alloc, origins })
    }
}

// The same names.
fn copy_of(alloc: Global, origins: &Origins) -> Result<Origins, OutOfMemory>
    ensures { IfOk result (λ copied. copied ≡ origins.now) }
{
    let mut copied = Origins::new(alloc);
    for i in 0..origins.len() {
        let name = origins.name(i).copy(alloc)?;
        copied.add(name)?;
    }
    Ok(copied)
}

impl Natives for ChannelNatives {
    type State = ChannelState;

    ghost entries = { λ _. channel_entries };

    ghost begin = { λ _ which argc construct. channel_begin which argc construct };

    ghost after = { λ names state answer. channel_after names state answer };

    ghost asks = { λ _ state. channel_asks state };

    fn count(&self) -> u32 {
        5
    }

    fn entry(&self, which: u32) -> Entry {
        match which {
            0 => function("read", 1),
            1 => function("print", 2),
            2 => function("lbl", 1),
            3 => function("upgs", 1),
            _ => function("upge", 2),
        }
    }

    fn start(
        &self,
        _alloc: Global,
        which: u32,
        argc: u64,
        _construct: bool,
    ) -> Result<ChannelState, OutOfMemory> {
        if argc >= MANY {
            return Err(OutOfMemory);
        }
        Ok(ChannelState::Begun(BuiltIn::at(which), Registers::of(argc)))
    }

    fn next(&self, state: &mut ChannelState, answer: Answer) -> Result<Request, OutOfMemory> {
        let before = mem::replace(state, ChannelState::Throw);
        *state = before.after(self.alloc, &self.origins, answer)?;
        state.request(self.alloc)
    }
}

// A function of the global object.
fn function(name: &'static str, length: u32) -> Entry
    ensures { seen_entry result.holder.now result.name.now result.length result.form ≡ function name.now length }
{
    Entry {
        holder: "global",
        name,
        length,
        form: Form::Function,
    }
}
