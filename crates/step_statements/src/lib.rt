//! `switch`, statements with a label that are no loop and no `switch`, and `for in` (ECMA-262 12.6.4): the keys that it takes of a value, and which of them it visits.
#![tactic(auto)]

mod clauses;
mod equal;
mod falling;
mod keys;
mod scopes;
mod switching;
mod testing;
mod visits;

pub use keys::take_keys;
pub use switching::{begin_labelled, compared, falls, switched};
pub use visits::next_visit;
