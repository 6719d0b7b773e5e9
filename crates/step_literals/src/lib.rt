//! Values that stand in the script, and the objects and arrays of literals.
#![tactic(auto)]

mod arrays;
mod objects;
mod parts;
mod values;

pub use arrays::array;
pub use objects::object;
pub use values::{boolean, null, number, text};
