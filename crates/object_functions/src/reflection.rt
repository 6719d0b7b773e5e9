//! The functions of Object that ask one thing of an object (ECMA-262 15.2.3).

ghost use Rattle.std.specs.Prelude.{◌≡◌, IfOk};
ghost use Rattle.object_functions.specs.ReflectionMachine.{reflection_begin, reflection_asks, reflection_after, asked, told};

use crate::needs::{ready_or, unless_object};
use crate::registers::Registers;
use flow_text::OutOfMemory;
use native_protocol::{Answer, Progress, Reg, Request};
use primitive_natives::Ending;

/// Such a function.
#[derive(Clone, Copy, Debug, PartialEq, Eq)]
pub enum ReflectionFunction {
    GetPrototypeOf,
    GetOwnPropertyNames,
    PreventExtensions,
    IsExtensible,
    Keys,
}

/// A call of one: a look at the argument, and what is asked of it.
#[derive(Clone, Copy)]
pub enum ReflectionCall {
    Look {
        function: ReflectionFunction,
        to: Reg,
    },
    Ask {
        function: ReflectionFunction,
        to: Reg,
    },
}

impl ReflectionCall {
    /// How it begins.
    pub fn start(function: ReflectionFunction, argc: u64) -> Result<ReflectionCall, OutOfMemory>
        ensures { IfOk result (λ call. call ≡ reflection_begin function argc) }
    {
        Ok(ReflectionCall::Look {
            function,
            to: Registers::behind(argc)?.first,
        })
    }

    /// What it asks for.
    pub fn request(&self) -> Request
        ensures { result ≡ reflection_asks self.now }
    {
        match self {
            ReflectionCall::Look { .. } => Request::Look { reg: Reg(2) },
            ReflectionCall::Ask { function, to } => asked(*function, *to),
        }
    }

    /// Where an answer leads.
    pub fn after(self, answer: Answer) -> Progress<ReflectionCall, Ending>
        ensures { result ≡ reflection_after self answer }
    {
        match self {
            ReflectionCall::Look { function, to } => ready_or(
                unless_object(&answer.seen()),
                ReflectionCall::Ask { function, to },
            ),
            ReflectionCall::Ask { function, to } => Progress::Ready(Ending::Return {
                from: told(function, to),
            }),
        }
    }
}

// What is asked of the object.
fn asked(function: ReflectionFunction, to: Reg) -> Request
    ensures { result ≡ asked function to }
{
    let base = Reg(2);
    match function {
        ReflectionFunction::GetPrototypeOf => Request::Proto { base, to },
        ReflectionFunction::GetOwnPropertyNames => Request::Keys {
            base,
            all: true,
            to,
        },
        ReflectionFunction::PreventExtensions => Request::Prevent { base },
        ReflectionFunction::IsExtensible => Request::Extensible { base, to },
        ReflectionFunction::Keys => Request::Keys {
            base,
            all: false,
            to,
        },
    }
}

// The register that holds what the call gives.
fn told(function: ReflectionFunction, to: Reg) -> Reg
    ensures { result ≡ told function to }
{
    match function {
        ReflectionFunction::PreventExtensions => Reg(2),
        ReflectionFunction::GetPrototypeOf
        | ReflectionFunction::GetOwnPropertyNames
        | ReflectionFunction::IsExtensible
        | ReflectionFunction::Keys => to,
    }
}
