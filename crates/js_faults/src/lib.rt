//! What is wrong with a tree: upgrade directives without their form, and early errors.
#![tactic(auto)]

mod directives;
mod fault;
mod forms;
mod jumps;
mod names;
mod ordered;
mod own;
mod properties;
mod scope;
mod telling;
mod walk;

pub use directives::BadDirective;
pub use fault::{EarlyError, EarlyErrorKind};
pub use walk::{bad_directive, bad_directive_in_expr, early_error};
