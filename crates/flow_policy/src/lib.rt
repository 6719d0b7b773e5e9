//! Policies and inputs: which channels there are, who may see them, and which lines came in.
#![tactic(auto)]

mod fault;
mod inputs;
mod lines;
mod listed;
mod lists;
mod names;
mod observed;
mod policy;
mod words;

pub use fault::{InputFault, InputKind, ListFault, PolicyFault, PolicyKind};
pub use inputs::{Inputs, read_inputs};
pub use listed::read_list;
pub use observed::disagree;
pub use policy::{Channel, Policy, read_policy};
