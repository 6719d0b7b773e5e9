//! `toString` and `valueOf` of Object.prototype (ECMA-262 15.2.4.2, 15.2.4.4).

ghost use Rattle.std.specs.Prelude.{◌≡◌, IfOk};
ghost use Rattle.object_functions.specs.Prototypes.{class_name};
ghost use Rattle.object_functions.specs.ThisMachine.{this_begin, this_asks, this_after, this_ends, text_ends, value_ends, description_ends};

use crate::registers::Registers;
use flow_text::{OutOfMemory, Text};
use js_number::Primitive;
use js_values::Class;
use native_protocol::{Answer, ErrorKind, Progress, Reg, Request, Seen};
use primitive_natives::{Ending, Left};
use std::alloc::Global;

/// One of the two.
#[derive(Clone, Copy, Debug, PartialEq, Eq)]
pub enum ThisFunction {
    ToString,
    ValueOf,
}

/// A call of one, which looks at `this`.
#[derive(Clone, Copy)]
pub struct ThisCall {
    function: ThisFunction,
    to: Reg,
}

impl ThisCall {
    /// How it begins.
    pub fn start(function: ThisFunction, argc: u64) -> Result<ThisCall, OutOfMemory>
        ensures { IfOk result (λ call. call ≡ this_begin function argc) }
    {
        Ok(ThisCall {
            function,
            to: Registers::behind(argc)?.first,
        })
    }

    /// What it asks for.
    pub fn request(&self) -> Request
        ensures { result ≡ this_asks self.now }
    {
        Request::Look { reg: Reg(0) }
    }

    /// Where an answer leads.
    pub fn after(
        self,
        alloc: Global,
        answer: Answer,
    ) -> Result<Progress<ThisCall, Ending>, OutOfMemory>
        ensures { IfOk result (λ progress. progress ≡ this_after self answer) }
    {
        let ending = match self.function {
            ThisFunction::ToString => text_ends(alloc, &answer.seen(), self.to)?,
            ThisFunction::ValueOf => value_ends(&answer.seen()),
        };
        Ok(Progress::Ready(ending))
    }
}

// How `toString` ends.
#[tactic(auto, using(crate::proofs::Words::words))]
fn text_ends(alloc: Global, seen: &Seen, to: Reg) -> Result<Ending, OutOfMemory>
    ensures { IfOk result (λ ending. ending ≡ text_ends seen.now to) }
{
    match seen {
        Seen::Prim(Primitive::Undefined) => {
            description_ends(alloc, Text::spelled(alloc, "Undefined")?, to)
        }
        Seen::Prim(Primitive::Null) => description_ends(alloc, Text::spelled(alloc, "Null")?, to),
        Seen::Prim(_) => Ok(Ending::Leave { why: Left::Wrapper }),
        Seen::Object(class) => description_ends(alloc, class_name(alloc, *class)?, to),
    }
}

// How `valueOf` ends.
fn value_ends(seen: &Seen) -> Ending
    ensures { result ≡ value_ends seen.now }
{
    match seen {
        Seen::Prim(Primitive::Undefined) | Seen::Prim(Primitive::Null) => Ending::Throw {
            kind: ErrorKind::TypeError,
        },
        Seen::Prim(_) => Ending::Leave { why: Left::Wrapper },
        Seen::Object(_) => Ending::Return { from: Reg(0) },
    }
}

// The text of a class.
#[tactic(auto, using(crate::proofs::Words::words))]
fn description_ends(alloc: Global, name: Text, to: Reg) -> Result<Ending, OutOfMemory>
    ensures { IfOk result (λ ending. ending ≡ description_ends name to) }
{
    let mut text = Text::spelled(alloc, "[object ")?;
    text.push_units(name.units())?;
    text.push(u16::from(b']'))?;
    Ok(Ending::Give {
        value: Primitive::Str(text),
        to,
    })
}

// The name of a class (ECMA-262 8.6.2).
#[tactic(auto, using(crate::proofs::Words::words))]
fn class_name(alloc: Global, class: Class) -> Result<Text, OutOfMemory>
    ensures { IfOk result (λ name. name ≡ class_name class) }
{
    let name = match class {
        Class::Object => "Object",
        Class::Function => "Function",
        Class::Array => "Array",
        Class::Arguments => "Arguments",
        Class::Error => "Error",
        Class::Math => "Math",
        Class::Json => "JSON",
        Class::String => "String",
        Class::Number => "Number",
        Class::Boolean => "Boolean",
    };
    Text::spelled(alloc, name)
}
