//! The labelled meaning of a script, under the flow rules.
#![tactic(auto)]

mod laws;

pub use laws::{more_turns, performed};
