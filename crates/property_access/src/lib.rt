//! Errors that the engine throws, names with their values, and properties of objects.
#![tactic(auto)]

mod assigning;
mod members;
mod naming;
mod primitives;
mod properties;
mod putting;
mod throwing;

pub use assigning::put_name;
pub use members::{get_property, put_property};
pub use naming::{get_name, resolve, typeof_name};
pub use primitives::{find_beyond, has_own};
pub use properties::{find_property, get_global, get_of};
pub use putting::put_on_object;
pub use throwing::{error_prototype, throw_error};
