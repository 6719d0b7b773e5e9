//! A store of labels that keeps each set of origins once.
#![tactic(auto)]

mod interned;
mod origin_set;
mod rising;
mod set_table;

pub use interned::{Interned, InternedLabel};
