//! What a call, a construction and a `catch` begin with: objects and records, which are made in the present context.
#![tactic(auto)]

mod adding;
mod arguments;
mod binding;
mod calling;
mod constructing;
mod declaring;
mod entering;
mod making;
mod objects;

pub use binding::bind_name;
pub use calling::callee;
pub use constructing::{fresh, prototype_of};
pub use entering::enter;
pub use making::make_function;
