//! What an observer of a run can tell.
#![tactic(auto)]

mod laws;

pub use laws::{confinement, declared, erasure, lockstep, two_runs};
