//! The number of a register's value (ECMA-262 9.3).

ghost use Rattle.std.specs.Prelude.{◌≡◌, IfOk};
ghost use Rattle.native_protocol.specs.Pieces.{number_begin, number_asks, number_after};

use crate::conversion::Conversion;
use crate::hint::Hint;
use crate::progress::Progress;
use crate::registers::Reg;
use crate::request::{Answer, Request};
use flow_text::{OutOfMemory, Text};
use js_number::{Num, to_number};
use std::alloc::Global;

/// A register's value on its way to a number: the primitive value of it, or the run is left where that has no number of the profile.
#[derive(Clone, Copy)]
pub enum NumberOf {
    Primitive(Conversion),
    Left,
}

impl NumberOf {
    /// The number of what a register holds. Two more registers are for an object's methods and for what they give.
    pub fn register(register: Reg, method: Reg, value: Reg) -> NumberOf
        ensures { result ≡ number_begin register method value }
    {
        NumberOf::Primitive(Conversion::of_register(Hint::Number, register, method, value))
    }

    /// What it asks for.
    #[tactic(auto, using(crate::proofs::Words::words))]
    pub fn request(&self, alloc: Global) -> Result<Request, OutOfMemory>
        ensures { IfOk result (λ request. request ≡ number_asks self.now) }
    {
        match self {
            NumberOf::Primitive(conversion) => conversion.request(alloc),
            NumberOf::Left => Ok(Request::Leave {
                name: Text::spelled(alloc, "number")?,
            }),
        }
    }

    /// Where an answer leads.
    pub fn after(self, answer: Answer) -> Progress<NumberOf, Num>
        ensures { result ≡ number_after self answer }
    {
        match self {
            NumberOf::Primitive(conversion) => match conversion.after(answer) {
                Progress::Going(conversion) => Progress::Going(NumberOf::Primitive(conversion)),
                Progress::Ready(held) => match to_number(&held.value) {
                    Ok(number) => Progress::Ready(number),
                    Err(_) => Progress::Going(NumberOf::Left),
                },
            },
            NumberOf::Left => Progress::Going(NumberOf::Left),
        }
    }
}
