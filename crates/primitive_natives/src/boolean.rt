//! The built-ins of Boolean and of its prototype (ECMA-262 15.6).

ghost use Rattle.std.specs.Prelude.{◌≡◌, IfOk};
ghost use Rattle.primitive_natives.specs.Booleans.{truth_of};
ghost use Rattle.primitive_natives.specs.BooleanMachine.{looked_at, boolean_begin, boolean_asks, boolean_after, boolean_seen, boolean_ends, this_boolean_ends};

use crate::ending::{Ending, Left};
use crate::scratch::Scratch;
use flow_text::OutOfMemory;
use js_number::{Primitive, to_boolean, to_text};
use js_values::Class;
use native_protocol::{Answer, ErrorKind, Progress, Reg, Request, Seen};
use std::alloc::Global;

/// A built-in of Boolean.
#[derive(Clone, Copy, Debug, PartialEq, Eq)]
pub enum BooleanFunction {
    Boolean,
    ToString,
    ValueOf,
}

/// A call of one, which looks at a register.
#[derive(Clone, Copy)]
pub struct BooleanCall {
    function: BooleanFunction,
    to: Reg,
}

impl BooleanCall {
    /// How it begins.
    pub fn start(
        function: BooleanFunction,
        argc: u64,
        construct: bool,
    ) -> Result<Progress<BooleanCall, Ending>, OutOfMemory>
        ensures { IfOk result (λ progress. progress ≡ boolean_begin function argc construct) }
    {
        let to = Scratch::behind(argc)?.first;
        if construct && function == BooleanFunction::Boolean {
            return Ok(Progress::Ready(Ending::Leave { why: Left::Wrapper }));
        }
        Ok(Progress::Going(BooleanCall { function, to }))
    }

    /// What it asks for.
    pub fn request(&self) -> Request
        ensures { result ≡ boolean_asks self.now }
    {
        Request::Look {
            reg: looked_at(self.function),
        }
    }

    /// Where an answer leads.
    pub fn after(
        self,
        alloc: Global,
        answer: Answer,
    ) -> Result<Progress<BooleanCall, Ending>, OutOfMemory>
        ensures { IfOk result (λ progress. progress ≡ boolean_after self answer) }
    {
        Ok(Progress::Ready(seen(alloc, self.function, answer.seen(), self.to)?))
    }
}

// The register that is looked at: the argument, or `this`.
fn looked_at(function: BooleanFunction) -> Reg
    ensures { result ≡ looked_at function }
{
    match function {
        BooleanFunction::Boolean => Reg(2),
        BooleanFunction::ToString | BooleanFunction::ValueOf => Reg(0),
    }
}

// How it ends behind the look.
fn seen(
    alloc: Global,
    function: BooleanFunction,
    seen: Seen,
    to: Reg,
) -> Result<Ending, OutOfMemory>
    ensures { IfOk result (λ ending. ending ≡ boolean_seen function seen to) }
{
    match function {
        BooleanFunction::Boolean => ending_of(alloc, function, truth_of(&seen), to),
        BooleanFunction::ToString => this_seen(alloc, function, seen, to),
        BooleanFunction::ValueOf => this_seen(alloc, function, seen, to),
    }
}

// ToBoolean of what was seen.
fn truth_of(seen: &Seen) -> bool
    ensures { result ≡ truth_of seen.now }
{
    match seen {
        Seen::Prim(value) => to_boolean(value),
        Seen::Object(_) => true,
    }
}

// How it ends where this was seen in `this`.
fn this_seen(
    alloc: Global,
    function: BooleanFunction,
    seen: Seen,
    to: Reg,
) -> Result<Ending, OutOfMemory>
    ensures { IfOk result (λ ending. ending ≡ this_boolean_ends function seen to) }
{
    match seen {
        Seen::Prim(Primitive::Bool(value)) => ending_of(alloc, function, value, to),
        Seen::Object(Class::Boolean) => Ok(Ending::Leave { why: Left::Wrapper }),
        _ => Ok(Ending::Throw {
            kind: ErrorKind::TypeError,
        }),
    }
}

// How it ends with a Boolean value.
fn ending_of(
    alloc: Global,
    function: BooleanFunction,
    value: bool,
    to: Reg,
) -> Result<Ending, OutOfMemory>
    ensures { IfOk result (λ ending. ending ≡ boolean_ends function value to) }
{
    let value = Primitive::Bool(value);
    Ok(match function {
        BooleanFunction::Boolean => Ending::Give { value, to },
        BooleanFunction::ToString => Ending::Give {
            value: Primitive::Str(to_text(alloc, &value)?),
            to,
        },
        BooleanFunction::ValueOf => Ending::Return { from: Reg(0) },
    })
}
