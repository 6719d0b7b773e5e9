//! What built-ins ask of the channels, and of labels.
#![tactic(auto)]

mod channels;
mod labelling;
mod origins;
mod printing;
mod raising;
mod reading;
mod rules;

pub use labelling::join_label;
pub use printing::{Printed, print_line};
pub use raising::{raise_existence, raise_structure};
pub use reading::read_line;
