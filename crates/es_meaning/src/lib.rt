//! The unlabelled meaning of a script.
#![tactic(auto)]

mod laws;

pub use laws::more_turns;
