//! Names, and LISTs of them, as policies, upgrade directives and command lines write them.
#![tactic(auto)]

mod lists;
mod names;

pub use lists::{are_names, first_name, is_bare};
pub use names::is_name;
