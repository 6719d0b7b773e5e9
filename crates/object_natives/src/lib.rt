//! The built-ins of Object, Boolean, Number and Math, and the names of the global object that aren't offered, as a set.
#![tactic(auto)]

mod call;
mod laws;
mod natives;
mod table;

pub use call::{Call, ObjectState};
pub use laws::follows;
pub use natives::ObjectNatives;
