//! The requests by which a built-in does its work, and what built-ins have in common.
#![tactic(auto)]

mod conversion;
mod default_value;
mod hint;
mod laws;
mod natives;
mod number_of;
mod progress;
mod registers;
mod request;
mod text_of;

pub use conversion::{Conversion, Held};
pub use default_value::DefaultValue;
pub use hint::Hint;
pub use laws::pieces;
pub use natives::{Entry, Form, Natives};
pub use number_of::NumberOf;
pub use progress::Progress;
pub use registers::{Reg, RegList};
pub use request::{Answer, ErrorKind, GivenMarks, Request, Seen};
pub use text_of::{HeldText, TextOf};
