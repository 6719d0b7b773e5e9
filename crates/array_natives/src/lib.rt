//! The built-ins of Array and of its prototype (ECMA-262 15.4), as tables of lines.
#![tactic(auto)]

mod constructor;
mod ends;
mod iterating;
mod laws;
mod natives;
mod searching;
mod shared;
mod splice;
mod table;
mod whole;

pub use laws::follows;
pub use natives::ArrayNatives;
