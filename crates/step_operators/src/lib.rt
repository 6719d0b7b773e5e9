//! Operators on values: operands that are objects are converted first, and what waits for that is resumed.
#![tactic(auto)]

mod applying;
mod binary;
mod converted;
mod counting;
mod instances;
mod lengths;
mod unary;

pub use applying::{key_has, operate_converted};
pub use binary::binary_done;
pub use converted::left_converted;
pub use counting::{compound_done, counted, counted_number};
pub use instances::{instance_done, instance_test};
pub use lengths::{length_once, length_twice};
pub use unary::{unary_converted, unary_done};
