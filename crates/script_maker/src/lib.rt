//! Scripts of any length, for measuring: each has a number of functions, which are called once.
#![tactic(auto)]

mod making;

pub use making::make;
