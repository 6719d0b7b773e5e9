//! The built-ins of String and of its prototype, and the functions between texts and numbers (ECMA-262 15.5, 15.1.2, 15.7.4.2), as tables of
//! lines.
#![tactic(auto)]

mod constructor;
mod laws;
mod natives;
mod numbers;
mod parts;
mod places;
mod shared;
mod table;

pub use laws::{follows, pieces_join};
pub use natives::StringNatives;
