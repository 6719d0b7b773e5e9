//! Primitive values, and their conversions (ECMA-262 9.2, 9.3, 9.8).

ghost use Rattle.std.specs.Prelude.{◌≡◌, IfOk};
ghost use Rattle.js_number.specs.Conversions.{boolean_of, number_of, number_text, text_of};

use crate::int::{Int, LeftNumbers};
use crate::num::Num;
use crate::numeric_text::text_to_number;
use flow_text::{OutOfMemory, Text};
use std::alloc::Global;

/// A value that is no object.
#[derive(Debug, Drop, PartialEq, Eq)]
pub enum Primitive {
    Undefined,
    Null,
    Bool(bool),
    Num(Num),
    Str(Text),
}

impl Primitive {
    /// The same value.
    pub fn copy(&self, alloc: Global) -> Result<Primitive, OutOfMemory>
        ensures { IfOk result (λ v. v ≡ self.now) }
    {
        Ok(match self {
            Primitive::Undefined => Primitive::Undefined,
            Primitive::Null => Primitive::Null,
            Primitive::Bool(b) => Primitive::Bool(*b),
            Primitive::Num(n) => Primitive::Num(*n),
            Primitive::Str(text) => Primitive::Str(text.copy(alloc)?),
        })
    }
}

/// ToBoolean.
pub fn to_boolean(v: &Primitive) -> bool
    ensures { result ≡ boolean_of v.now }
{
    match v {
        Primitive::Undefined | Primitive::Null => false,
        Primitive::Bool(b) => *b,
        Primitive::Num(Num::Nan) => false,
        Primitive::Num(Num::Int(n)) => n.get() != 0,
        Primitive::Str(text) => text.len() != 0,
    }
}

/// ToNumber.
pub fn to_number(v: &Primitive) -> Result<Num, LeftNumbers>
    ensures { result ≡ number_of v.now }
{
    match v {
        Primitive::Undefined => Ok(Num::Nan),
        Primitive::Null => Ok(Num::Int(Int::of(0))),
        Primitive::Bool(b) => Ok(Num::Int(Int::of_bool(*b))),
        Primitive::Num(n) => Ok(*n),
        Primitive::Str(text) => text_to_number(text),
    }
}

/// ToString.
#[tactic(auto, using(crate::proofs::Words::words))]
pub fn to_text(alloc: Global, v: &Primitive) -> Result<Text, OutOfMemory>
    ensures { IfOk result (λ t. t ≡ text_of v.now) }
{
    match v {
        Primitive::Undefined => Text::spelled(alloc, "undefined"),
        Primitive::Null => Text::spelled(alloc, "null"),
        Primitive::Bool(true) => Text::spelled(alloc, "true"),
        Primitive::Bool(false) => Text::spelled(alloc, "false"),
        Primitive::Num(n) => number_to_text(alloc, *n),
        Primitive::Str(text) => text.copy(alloc),
    }
}

/// ToString of a number.
#[tactic(auto, using(crate::proofs::Words::words))]
pub fn number_to_text(alloc: Global, a: Num) -> Result<Text, OutOfMemory>
    ensures { IfOk result (λ t. t ≡ number_text a) }
{
    match a {
        Num::Nan => Text::spelled(alloc, "NaN"),
        Num::Int(n) => {
            let mut text = Text::new(alloc);
            text.push_decimal(n.get())?;
            Ok(text)
        }
    }
}
