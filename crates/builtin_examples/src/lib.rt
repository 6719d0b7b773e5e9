//! Small scripts over the set of all built-ins, with what they give and how many turns they take, worked out by hand.
#![tactic(auto)]

mod rows;

pub use rows::{documents, standard, turns};
