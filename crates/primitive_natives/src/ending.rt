//! How built-ins end.

ghost use Rattle.std.specs.Prelude.{◌≡◌, IfOk};
ghost use Rattle.primitive_natives.specs.Machines.{left_name, ending_asks, ending_after};

use flow_text::{OutOfMemory, Text};
use js_number::Primitive;
use native_protocol::{ErrorKind, Reg, Request};
use std::alloc::Global;

/// What isn't offered.
#[derive(Clone, Copy, Debug, PartialEq, Eq)]
pub enum Left {
    /// A wrapper of a primitive value.
    Wrapper,
    /// A number that is no integer of the profile.
    Number,
}

/// How a built-in ends: it makes a value and gives it, it gives what a register holds, it throws a new error, or the run is left.
#[derive(Drop)]
pub enum Ending {
    Give { value: Primitive, to: Reg },
    Return { from: Reg },
    Throw { kind: ErrorKind },
    Leave { why: Left },
}

impl Ending {
    /// What it asks for.
    pub fn request(&self, alloc: Global) -> Result<Request, OutOfMemory>
        ensures { IfOk result (λ request. request ≡ ending_asks self.now) }
    {
        Ok(match self {
            Ending::Give { value, to } => Request::Make {
                value: value.copy(alloc)?,
                to: *to,
            },
            Ending::Return { from } => Request::Return { from: *from },
            Ending::Throw { kind } => Request::ThrowNew { kind: *kind },
            Ending::Leave { why } => Request::Leave {
                name: left_name(alloc, *why)?,
            },
        })
    }

    /// Where an answer leads. Behind the last request there is none.
    pub fn after(self) -> Ending
        ensures { result ≡ ending_after self }
    {
        match self {
            Ending::Give { value: _, to } => Ending::Return { from: to },
            Ending::Return { from } => Ending::Return { from },
            Ending::Throw { kind } => Ending::Throw { kind },
            Ending::Leave { why } => Ending::Leave { why },
        }
    }
}

// The name by which the run ends.
#[tactic(auto, using(crate::proofs::Words::words))]
fn left_name(alloc: Global, why: Left) -> Result<Text, OutOfMemory>
    ensures { IfOk result (λ name. name ≡ left_name why) }
{
    match why {
        Left::Wrapper => Text::spelled(alloc, "wrapper"),
        Left::Number => Text::spelled(alloc, "number"),
    }
}
