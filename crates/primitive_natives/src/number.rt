//! The built-ins of Number and of its prototype (ECMA-262 15.7).

ghost use Rattle.std.specs.Prelude.{◌≡◌, IfOk};
ghost use Rattle.primitive_natives.specs.NumberMachine.{number_at, constructor_begin, number_call_begin, number_call_asks, number_call_after, converted, value_seen};

use crate::ending::{Ending, Left};
use crate::scratch::Scratch;
use flow_text::OutOfMemory;
use js_number::{Int, Num, Primitive};
use js_values::Class;
use native_protocol::{Answer, ErrorKind, NumberOf, Progress, Reg, Request, Seen};
use std::alloc::Global;

/// A built-in of Number.
#[derive(Clone, Copy, Debug, PartialEq, Eq)]
pub enum NumberFunction {
    Number,
    ValueOf,
}

/// A call of one: the argument is converted, or `this` is looked at for its value.
#[derive(Clone, Copy)]
pub enum NumberCall {
    Convert { number: NumberOf, to: Reg },
    LookValue,
}

impl NumberCall {
    /// How it begins.
    pub fn start(
        function: NumberFunction,
        argc: u64,
        construct: bool,
    ) -> Result<Progress<NumberCall, Ending>, OutOfMemory>
        ensures { IfOk result (λ progress. progress ≡ number_call_begin function argc construct) }
    {
        match function {
            NumberFunction::Number => constructor(argc, construct),
            NumberFunction::ValueOf => Ok(Progress::Going(NumberCall::LookValue)),
        }
    }

    /// What it asks for.
    pub fn request(&self, alloc: Global) -> Result<Request, OutOfMemory>
        ensures { IfOk result (λ request. request ≡ number_call_asks self.now) }
    {
        match self {
            NumberCall::Convert { number, to: _ } => number.request(alloc),
            NumberCall::LookValue => Ok(Request::Look { reg: Reg(0) }),
        }
    }

    /// Where an answer leads.
    pub fn after(self, answer: Answer) -> Progress<NumberCall, Ending>
        ensures { result ≡ number_call_after self answer }
    {
        match self {
            NumberCall::Convert { number, to } => converted(number.after(answer), to),
            NumberCall::LookValue => Progress::Ready(value_seen(answer.seen())),
        }
    }
}

// How the constructor begins.
fn constructor(argc: u64, construct: bool) -> Result<Progress<NumberCall, Ending>, OutOfMemory>
    ensures { IfOk result (λ progress. progress ≡ constructor_begin argc construct) }
{
    if construct {
        return Ok(Progress::Ready(Ending::Leave { why: Left::Wrapper }));
    }
    let scratch = Scratch::behind(argc)?;
    if argc == 0 {
        return Ok(Progress::Ready(Ending::Give {
            value: Primitive::Num(Num::Int(Int::new(0).unwrap())),
            to: scratch.first,
        }));
    }
    Ok(Progress::Going(NumberCall::Convert {
        number: number_at(Reg(2), scratch),
        to: scratch.first,
    }))
}

/// The conversion of a register's value to a number.
pub(crate) fn number_at(register: Reg, scratch: Scratch) -> NumberOf
    ensures { result ≡ number_at register scratch }
{
    NumberOf::register(register, scratch.first, scratch.second)
}

// Where the conversion of the constructor's argument leads.
fn converted(progress: Progress<NumberOf, Num>, to: Reg) -> Progress<NumberCall, Ending>
    ensures { result ≡ converted progress to }
{
    match progress {
        Progress::Going(number) => Progress::Going(NumberCall::Convert { number, to }),
        Progress::Ready(number) => Progress::Ready(Ending::Give {
            value: Primitive::Num(number),
            to,
        }),
    }
}

// How `valueOf` ends, where this was seen in `this`.
fn value_seen(seen: Seen) -> Ending
    ensures { result ≡ value_seen seen }
{
    match seen {
        Seen::Prim(Primitive::Num(_)) => Ending::Return { from: Reg(0) },
        Seen::Object(Class::Number) => Ending::Leave { why: Left::Wrapper },
        _ => Ending::Throw {
            kind: ErrorKind::TypeError,
        },
    }
}
