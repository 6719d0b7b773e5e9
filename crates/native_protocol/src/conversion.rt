//! The conversion of a register's value to a primitive one (ECMA-262 8.12.8, 9.1).

ghost use Rattle.std.specs.Prelude.{◌≡◌, IfOk};
ghost use Rattle.native_protocol.specs.declared.conversion.Stage.TheVariants as stage;
ghost use Rattle.native_protocol.specs.Pieces.{converting, in_stage, method_name, conversion_asks, behind_method, held_or, conversion_after};
ghost use Rattle.native_protocol.specs.declared.conversion.Method.TheVariants.{First};

use crate::hint::Hint;
use crate::progress::Progress;
use crate::registers::{Reg, RegList};
use crate::request::{Answer, ErrorKind, Request, Seen};
use flow_text::{OutOfMemory, Text};
use js_number::Primitive;
use js_values::Key;
use std::alloc::Global;

/// One of the two methods of an object that are asked for its value.
#[derive(Clone, Copy, Debug, PartialEq, Eq)]
pub enum Method {
    First,
    Second,
}

/// What a conversion asks for: a look at the register, and for each method of the object that it holds the method, a look at it, its call,
/// and a look at what it gave. Behind both methods it fails.
#[derive(Clone, Copy, PartialEq, Eq)]
pub enum Stage {
    Look,
    Get(Method),
    LookMethod(Method),
    Call(Method),
    LookValue(Method),
    Failed,
}

/// A register's value on its way to a primitive one. Two more registers are for an object's methods and for what they give.
#[derive(Clone, Copy)]
pub struct Conversion {
    hint: Hint,
    object: Reg,
    method: Reg,
    value: Reg,
    stage: Stage,
}

/// A primitive value, and the register that holds it.
#[derive(Drop)]
pub struct Held {
    pub value: Primitive,
    pub at: Reg,
}

impl Conversion {
    /// The conversion of what a register holds, an object or not.
    pub fn of_register(hint: Hint, register: Reg, method: Reg, value: Reg) -> Conversion
        ensures { result ≡ converting hint register method value stage.Look }
    {
        Conversion {
            hint,
            object: register,
            method,
            value,
            stage: Stage::Look,
        }
    }

    /// The conversion of the object in a register.
    pub fn of_object(hint: Hint, object: Reg, method: Reg, value: Reg) -> Conversion
        ensures { result ≡ converting hint object method value (stage.Get First) }
    {
        Conversion {
            hint,
            object,
            method,
            value,
            stage: Stage::Get(Method::First),
        }
    }

    /// What it asks for.
    pub fn request(&self, alloc: Global) -> Result<Request, OutOfMemory>
        ensures { IfOk result (λ request. request ≡ conversion_asks self.now) }
    {
        Ok(match self.stage {
            Stage::Look => Request::Look { reg: self.object },
            Stage::Get(method) => Request::Get {
                base: self.object,
                key: Key::new(method_name(alloc, self.hint, method)?),
                to: self.method,
            },
            Stage::LookMethod(_) => Request::Look { reg: self.method },
            Stage::Call(_) => Request::Call {
                callee: self.method,
                this: self.object,
                args: RegList::new(alloc),
                to: self.value,
            },
            Stage::LookValue(_) => Request::Look { reg: self.value },
            Stage::Failed => Request::ThrowNew {
                kind: ErrorKind::TypeError,
            },
        })
    }

    /// Where an answer leads.
    pub fn after(self, answer: Answer) -> Progress<Conversion, Held>
        ensures { result ≡ conversion_after self answer }
    {
        match self.stage {
            Stage::Look => held_or(
                answer.seen(),
                self.object,
                self.in_stage(Stage::Get(Method::First)),
            ),
            Stage::Get(method) => Progress::Going(self.in_stage(Stage::LookMethod(method))),
            Stage::LookMethod(method) => {
                let stage = if answer.seen().is_function() {
                    Stage::Call(method)
                } else {
                    behind_method(method)
                };
                Progress::Going(self.in_stage(stage))
            }
            Stage::Call(method) => Progress::Going(self.in_stage(Stage::LookValue(method))),
            Stage::LookValue(method) => held_or(
                answer.seen(),
                self.value,
                self.in_stage(behind_method(method)),
            ),
            Stage::Failed => Progress::Going(self),
        }
    }

    /// The register in which it puts a value.
    pub fn value_register(&self) -> Reg
        ensures { result ≡ self.now.value }
    {
        self.value
    }

    fn in_stage(self, stage: Stage) -> Conversion
        ensures { result ≡ in_stage self stage }
    {
        Conversion { stage, ..self }
    }
}

// What was seen, where it is primitive, or the conversion goes on.
fn held_or(seen: Seen, at: Reg, conversion: Conversion) -> Progress<Conversion, Held>
    ensures { result ≡ held_or seen at conversion }
{
    match seen {
        Seen::Prim(value) => Progress::Ready(Held { value, at }),
        Seen::Object(_) => Progress::Going(conversion),
    }
}

// Where a method gives nothing, the other one follows, or the failure.
fn behind_method(method: Method) -> Stage
    ensures { result ≡ behind_method method }
{
    match method {
        Method::First => Stage::Get(Method::Second),
        Method::Second => Stage::Failed,
    }
}

// The name of a method.
#[tactic(auto, using(crate::proofs::Words::words))]
fn method_name(alloc: Global, hint: Hint, method: Method) -> Result<Text, OutOfMemory>
    ensures { IfOk result (λ name. name ≡ method_name hint method) }
{
    match hint {
        Hint::Default | Hint::Number => match method {
            Method::First => Text::spelled(alloc, "valueOf"),
            Method::Second => Text::spelled(alloc, "toString"),
        },
        Hint::String => match method {
            Method::First => Text::spelled(alloc, "toString"),
            Method::Second => Text::spelled(alloc, "valueOf"),
        },
    }
}
