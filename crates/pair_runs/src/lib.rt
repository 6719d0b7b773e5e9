//! Pairs of runs: whether an observer can tell two inputs apart by what a script writes.
#![tactic(auto)]

mod comparing;
mod pairing;

pub use pairing::{PairEnd, pair};
