//! Records of variables: which record has a name, and what it holds there.
#![tactic(auto)]

mod binding_place;
mod envs;
mod faults;
mod laws;
mod layout;
mod record;

pub use binding_place::BindingPlace;
pub use envs::Envs;
pub use faults::AssignFault;
pub use laws::{records_belong, records_read};
pub use layout::Layout;
