//! Expressions and lists of statements from tokens.
#![tactic(auto)]

mod exactness;
mod fault;
mod parts;

pub use exactness::{one_expression, one_list};
pub use fault::{ParseFault, refused};
pub use parts::{expression, statements};
