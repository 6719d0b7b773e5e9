//! Expressions of names, numbers and operators between numbers, evaluated in one step of a machine.
#![tactic(auto)]

mod assigning;
mod evaluating;
mod operators;
mod values;

pub use assigning::{assign, finish, put_at_once};
pub use evaluating::{Evaluated, evaluate};
pub use values::name_value;
