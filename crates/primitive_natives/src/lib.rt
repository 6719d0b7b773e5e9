//! The built-ins of Boolean, Number and Math, as machines that ask for one request after another.
#![tactic(auto)]

mod boolean;
mod ending;
mod laws;
mod math;
mod number;
mod scratch;

pub use boolean::{BooleanCall, BooleanFunction};
pub use ending::{Ending, Left};
pub use laws::follows;
pub use math::{MathCall, MathFunction};
pub use number::{NumberCall, NumberFunction};
pub use scratch::Scratch;
