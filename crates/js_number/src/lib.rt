//! The numbers of the integer profile, primitive values, and what ECMA-262 makes of both.
#![tactic(auto)]

mod arithmetic;
mod bits;
mod compare;
mod digits;
mod int;
mod num;
mod numeric_text;
mod primitive;
mod radix;
mod sum;

pub use arithmetic::{add, div, mul, negate, rem, sub};
pub use bits::{
    bit_and, bit_not, bit_or, bit_xor, shift_left, shift_right, shift_zero, to_int32, to_uint32,
};
pub use compare::{less, loose_equal, same_value, strict_equal};
pub use int::{Int, LeftNumbers};
pub use num::Num;
pub use numeric_text::text_to_number;
pub use primitive::{Primitive, number_to_text, to_boolean, to_number, to_text};
pub use radix::{integer_prefix, number_in_radix, trimmed};
pub use sum::{AddFault, add_prims};
