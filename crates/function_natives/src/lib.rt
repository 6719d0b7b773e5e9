//! The built-ins of Function and of its prototype, and those of errors (ECMA-262 15.3, 15.11), as tables of lines.
#![tactic(auto)]

mod errors;
mod functions;
mod laws;
mod natives;
mod shared;
mod table;

pub use laws::follows;
pub use natives::FunctionNatives;
