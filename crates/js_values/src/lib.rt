//! The values of a run, and what objects and records are as lists.
#![tactic(auto)]

mod arrays;
mod ids;
mod inner;
mod key;
mod property;
mod value;

pub use arrays::{
    LENGTH, allows_element, element_key, element_of, is_length_key, is_past, length_body,
    names_length,
};
pub use ids::{EnvId, ObjId};
pub use inner::{ArgList, Class, Inner};
pub use key::{Key, KeyRow, array_index};
pub use property::{Body, Marks, Slot};
pub use value::{Labelled, Value};
