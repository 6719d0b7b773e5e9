//! Frames: what the place at which a run stands depends on, and the two flow rules on them.
#![tactic(auto)]

mod faults;
mod frame;
mod frames;
mod kind;
mod laws;

pub use faults::{FlowFault, FlowStop, Rule};
pub use frames::Frames;
pub use kind::Kind;
pub use laws::belonging_lasts;
