//! `Object(value)` and `new Object(value)` (ECMA-262 15.2.1.1, 15.2.2.1).

ghost use Rattle.std.specs.Prelude.{◌≡◌, IfOk};
ghost use Rattle.object_functions.specs.ObjectMachine.{object_begin, object_asks, object_after, value_seen};

use crate::registers::Registers;
use flow_text::OutOfMemory;
use js_number::Primitive;
use js_values::Class;
use native_protocol::{Answer, Progress, Reg, Request, Seen};
use primitive_natives::{Ending, Left};

/// A call of it: a look at the argument, and a new object.
#[derive(Clone, Copy)]
pub enum ObjectCall {
    Look { to: Reg },
    New { to: Reg },
}

impl ObjectCall {
    /// How it begins.
    pub fn start(argc: u64) -> Result<ObjectCall, OutOfMemory>
        ensures { IfOk result (λ call. call ≡ object_begin argc) }
    {
        Ok(ObjectCall::Look {
            to: Registers::behind(argc)?.first,
        })
    }

    /// What it asks for.
    pub fn request(&self) -> Request
        ensures { result ≡ object_asks self.now }
    {
        match self {
            ObjectCall::Look { .. } => Request::Look { reg: Reg(2) },
            ObjectCall::New { to } => Request::New {
                class: Class::Object,
                proto: None,
                to: *to,
            },
        }
    }

    /// Where an answer leads.
    pub fn after(self, answer: Answer) -> Progress<ObjectCall, Ending>
        ensures { result ≡ object_after self answer }
    {
        match self {
            ObjectCall::Look { to } => value_seen(&answer.seen(), to),
            ObjectCall::New { to } => Progress::Ready(Ending::Return { from: to }),
        }
    }
}

// What is made of the argument.
fn value_seen(seen: &Seen, to: Reg) -> Progress<ObjectCall, Ending>
    ensures { result ≡ value_seen seen.now to }
{
    match seen {
        Seen::Prim(Primitive::Undefined) | Seen::Prim(Primitive::Null) => {
            Progress::Going(ObjectCall::New { to })
        }
        Seen::Prim(_) => Progress::Ready(Ending::Leave { why: Left::Wrapper }),
        Seen::Object(_) => Progress::Ready(Ending::Return { from: Reg(2) }),
    }
}
