//! What built-ins ask of the properties of objects: what is known of an own property, how one is defined, which prototype an object has, whether it may get
//! further properties, and which objects are made.
#![tactic(auto)]

mod arrays;
mod binding;
mod bodies;
mod building;
mod defining;
mod definition;
mod descriptor;
mod extending;
mod lengths;
mod making;
mod owning;
mod parts;

pub use arrays::{Element, make_array};
pub use binding::bind;
pub use building::add_row;
pub use defining::define_property;
pub use descriptor::Descriptor;
pub use extending::{is_extensible, prevent_extensions, prototype_of_object};
pub use lengths::set_length;
pub use making::new_object;
pub use owning::{OwnProperty, own_keys, own_property};
