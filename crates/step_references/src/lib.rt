//! Pending work that acts on the run's state: names and their values, properties, uses of references, variables.
#![tactic(auto)]

mod counting;
mod entering;
mod handing_on;
mod keeping;
mod names;
mod properties;
mod reading;
mod uses;
mod variables;

pub use entering::enter_access;
pub use handing_on::{Went, go_on, hand_on, hand_on_access};
pub use keeping::take_reference;
pub use names::{assigned, read_name, this};
pub use properties::{index_key, key_of, member};
pub use reading::{assign, assign_giving};
pub use uses::begin_use;
pub use variables::{declare, give_variable, more_variables, variables_behind};
