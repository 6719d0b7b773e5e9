//! The pieces that the functions of `Object` have in common: descriptors, and loops over the properties of an object.
#![tactic(auto)]

mod define_properties;
mod described;
mod fields;
mod from_descriptor;
mod key_loop;
mod laws;
mod property;
mod seen;
mod set_integrity;
mod test_integrity;
mod to_descriptor;

pub use define_properties::DefineProperties;
pub use fields::{Field, Half, Mark};
pub use from_descriptor::FromDescriptor;
pub use key_loop::{KeyLoop, KeyTurn, LastKeys};
pub use laws::{beginnings, pieces};
pub use property::{Description, Integrity, OwnMarks, PropertyRegisters};
pub use seen::{is_false, is_true, is_undefined, truth};
pub use set_integrity::SetIntegrity;
pub use test_integrity::TestIntegrity;
pub use to_descriptor::ToDescriptor;
