//! The text of a register's value (ECMA-262 9.8).

ghost use Rattle.std.specs.Prelude.{◌≡◌, IfOk};
ghost use Rattle.native_protocol.specs.Pieces.{text_begin, text_asks, text_after, text_or_make};

use crate::conversion::Conversion;
use crate::hint::Hint;
use crate::progress::Progress;
use crate::registers::Reg;
use crate::request::{Answer, Request};
use flow_text::{OutOfMemory, Text};
use js_number::{Primitive, to_text};
use std::alloc::Global;

/// A register's value on its way to a text: the primitive value of it, and the text of that where it is none.
#[derive(Drop)]
pub enum TextOf {
    Primitive(Conversion),
    Make { text: Text, to: Reg },
}

/// A text, and the register that holds it.
#[derive(Drop)]
pub struct HeldText {
    pub text: Text,
    pub at: Reg,
}

impl TextOf {
    /// The text of what a register holds. Two more registers are for an object's methods and for the text.
    pub fn register(register: Reg, method: Reg, value: Reg) -> TextOf
        ensures { result ≡ text_begin register method value }
    {
        TextOf::Primitive(Conversion::of_register(Hint::String, register, method, value))
    }

    /// What it asks for.
    pub fn request(&self, alloc: Global) -> Result<Request, OutOfMemory>
        ensures { IfOk result (λ request. request ≡ text_asks self.now) }
    {
        match self {
            TextOf::Primitive(conversion) => conversion.request(alloc),
            TextOf::Make { text, to } => Ok(Request::Make {
                value: Primitive::Str(text.copy(alloc)?),
                to: *to,
            }),
        }
    }

    /// Where an answer leads.
    pub fn after(
        self,
        alloc: Global,
        answer: Answer,
    ) -> Result<Progress<TextOf, HeldText>, OutOfMemory>
        ensures { IfOk result (λ progress. progress ≡ text_after self answer) }
    {
        match self {
            TextOf::Primitive(conversion) => {
                let value = conversion.value_register();
                match conversion.after(answer) {
                    Progress::Going(conversion) => {
                        Ok(Progress::Going(TextOf::Primitive(conversion)))
                    }
                    Progress::Ready(held) => text_or_make(alloc, held.value, held.at, value),
                }
            }
            TextOf::Make { text, to } => Ok(Progress::Ready(HeldText { text, at: to })),
        }
    }
}

// The text where it is one, or its text is to be made.
fn text_or_make(
    alloc: Global,
    primitive: Primitive,
    at: Reg,
    value: Reg,
) -> Result<Progress<TextOf, HeldText>, OutOfMemory>
    ensures { IfOk result (λ progress. progress ≡ text_or_make primitive at value) }
{
    match primitive {
        Primitive::Str(text) => Ok(Progress::Ready(HeldText { text, at })),
        other => Ok(Progress::Going(TextOf::Make {
            text: to_text(alloc, &other)?,
            to: value,
        })),
    }
}
