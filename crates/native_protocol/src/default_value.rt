//! The conversion of an object as a built-in of its own (ECMA-262 8.12.8).

ghost use Rattle.std.specs.Prelude.{◌≡◌, IfOk};
ghost use Rattle.native_protocol.specs.Pieces.{whole_begin, whole_asks, whole_after, whole_conversion};

use crate::conversion::Conversion;
use crate::hint::Hint;
use crate::progress::Progress;
use crate::registers::Reg;
use crate::request::{Answer, Request};
use flow_text::OutOfMemory;
use std::alloc::Global;

/// The conversion of the object in register 0, which gives its primitive value back.
#[derive(Clone, Copy)]
pub enum DefaultValue {
    Begun(Hint),
    Converting(Conversion),
    Converted(Reg),
}

impl DefaultValue {
    /// The state in which it begins.
    pub fn start(hint: Hint) -> DefaultValue
        ensures { result ≡ whole_begin hint }
    {
        DefaultValue::Begun(hint)
    }

    /// Tells the answer to what was asked last, and asks the next. Where memory is missing the state may be any.
    pub fn next(&mut self, alloc: Global, answer: Answer) -> Result<Request, OutOfMemory>
        ensures state { IfOk result (λ request. self.new ≡ whole_after self.old answer) }
        ensures asks { IfOk result (λ request. request ≡ whole_asks (whole_after self.old answer)) }
    {
        *self = self.after(answer);
        self.request(alloc)
    }

    fn after(self, answer: Answer) -> DefaultValue
        ensures { result ≡ whole_after self answer }
    {
        match self {
            DefaultValue::Begun(hint) => DefaultValue::Converting(conversion_of(hint)),
            DefaultValue::Converting(conversion) => match conversion.after(answer) {
                Progress::Going(conversion) => DefaultValue::Converting(conversion),
                Progress::Ready(held) => DefaultValue::Converted(held.at),
            },
            DefaultValue::Converted(at) => DefaultValue::Converted(at),
        }
    }

    fn request(&self, alloc: Global) -> Result<Request, OutOfMemory>
        ensures { IfOk result (λ request. request ≡ whole_asks self.now) }
    {
        match self {
            DefaultValue::Begun(hint) => conversion_of(*hint).request(alloc),
            DefaultValue::Converting(conversion) => conversion.request(alloc),
            DefaultValue::Converted(at) => Ok(Request::Return { from: *at }),
        }
    }
}

// The object is `this`, and the two registers behind what is called are free.
fn conversion_of(hint: Hint) -> Conversion
    ensures { result ≡ whole_conversion hint }
{
    Conversion::of_object(hint, Reg(0), Reg(2), Reg(3))
}
