//! Calls, constructions and functions (ECMA-262 11.2.2, 11.2.3, 13), and what the call of a bound function comes to (15.3.4.5): what is called stands in a frame of its own, and what it is decides there.
#![tactic(auto)]

mod bound_target;
mod calls;
mod constructing;
mod constructions;
mod entries;
mod laying;
mod lists;
mod making;
mod native_calls;
mod reaching;
mod refusals;
mod values;

pub use calls::call;
pub use constructions::construct;
pub use making::function;
pub use values::{callee, constructor};
