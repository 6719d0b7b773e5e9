//! Object, its functions and those of its prototype, as machines that ask for one request after another.
#![tactic(auto)]

mod ancestor;
mod defining;
mod integrity;
mod laws;
mod needs;
mod object;
mod own_test;
mod property;
mod reflection;
mod registers;
mod this;

pub use ancestor::AncestorCall;
pub use defining::{DefiningCall, DefiningFunction};
pub use integrity::{IntegrityCall, IntegrityFunction};
pub use laws::{beginnings, follows};
pub use object::ObjectCall;
pub use own_test::{OwnTest, OwnTestCall};
pub use property::{PropertyCall, PropertyFunction};
pub use reflection::{ReflectionCall, ReflectionFunction};
pub use registers::Registers;
pub use this::{ThisCall, ThisFunction};
