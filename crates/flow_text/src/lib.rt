//! Texts as lists of UTF-16 units, and the bytes that spell them.
#![tactic(auto)]

mod compared;
mod memory;
mod places;
mod shared;
mod text;
mod utf8;
mod written;

pub use memory::OutOfMemory;
pub use places::Place;
pub use text::{Text, TextFault};
