//! The functions of a program by their numbers, what a call of each begins with, and what a value is for a call.
#![tactic(auto)]

mod callee;
mod known_keys;
mod table;

pub use callee::Callee;
pub use known_keys::KnownKeys;
pub use table::Functions;
