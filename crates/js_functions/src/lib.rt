//! The functions of a program: their numbers, and which code is strict.
#![tactic(auto)]

mod marking;
mod program;
mod prologue;

pub use program::marked_program;
