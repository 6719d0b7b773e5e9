//! Operators on values (ECMA-262 11.4 to 11.11), each with the label of what it depends on.
#![tactic(auto)]

mod arithmetic;
mod between;
mod bits;
mod comparisons;
mod conversions;
mod front;
mod operators;
mod refusal;

pub use conversions::{
    Conversion, conversion_of, converts, converts_beside, converts_operand, is_object,
    takes_number, truth,
};
pub use operators::{binary, taking_operands, unary};
