//! What a state asks for.

ghost use Rattle.std.specs.Prelude.{◌≡◌, IfOk};
ghost use Rattle.channels.specs.Machine.{channel_asks, join_asks, leave_asks};

use crate::origins::copy_of;
use crate::state::{ChannelState as State, FIRST, Joining, Registers, Unknown};
use flow_text::{OutOfMemory, Text};
use js_values::Key;
use native_protocol::{ErrorKind, Reg, Request};
use origin_labels::OriginList;
use std::alloc::Global;

impl State {
    /// What it asks for.
    #[tactic(auto, using(crate::proofs::Words::words))]
    pub(crate) fn request(&self, alloc: Global) -> Result<Request, OutOfMemory>
        ensures { IfOk result (λ request. request ≡ channel_asks self.now) }
    {
        match self {
            State::Begun(..) => Ok(Request::Look { reg: FIRST }),
            State::ReadName(_) => Ok(Request::Look { reg: FIRST }),
            State::ReadLine(registers) => Ok(Request::ReadLine {
                name: FIRST,
                to: registers.value,
            }),
            State::PrintName(_) => Ok(Request::Look { reg: FIRST }),
            State::PrintText(text, _) => text.request(alloc),
            State::PrintLine(from, _) => Ok(Request::PrintLine {
                name: FIRST,
                from: *from,
            }),
            State::StructureObject(_) => Ok(Request::Look { reg: FIRST }),
            State::ExistenceObject(_) => Ok(Request::Look { reg: FIRST }),
            State::ExistenceKey(text, _) => text.request(alloc),
            State::Origin { at, .. } => Ok(Request::Look { reg: Reg(*at) }),
            State::Join {
                origins,
                joining,
                registers,
            } => joining.request(alloc, origins, *registers),
            State::Return(from) => Ok(Request::Return { from: *from }),
            State::Throw => Ok(Request::ThrowNew {
                kind: ErrorKind::TypeError,
            }),
            State::Leave(unknown) => unknown.request(alloc),
        }
    }
}

impl Joining {
    // The origins join what they are for.
    fn request(
        &self,
        alloc: Global,
        origins: &OriginList,
        registers: Registers,
    ) -> Result<Request, OutOfMemory>
        ensures { IfOk result (λ request. request ≡ join_asks origins.now self.now registers) }
    {
        let origins = copy_of(alloc, origins)?;
        Ok(match self {
            Joining::Label => Request::Label {
                from: FIRST,
                origins,
                to: registers.value,
            },
            Joining::Structure => Request::RaiseStructure {
                base: FIRST,
                origins,
            },
            Joining::Existence { key } => Request::RaiseExistence {
                base: FIRST,
                key: Key::new(key.copy(alloc)?),
                origins,
            },
        })
    }
}

impl Unknown {
    #[tactic(auto, using(crate::proofs::Words::words))]
    fn request(self, alloc: Global) -> Result<Request, OutOfMemory>
        ensures { IfOk result (λ request. request ≡ leave_asks self) }
    {
        let name = match self {
            Unknown::Channel => Text::spelled(alloc, "channel")?,
            Unknown::Origin => Text::spelled(alloc, "origin")?,
        };
        Ok(Request::Leave { name })
    }
}
