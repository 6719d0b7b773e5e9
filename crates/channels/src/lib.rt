//! The functions that the product adds to the language, as built-ins: `read`, `print`, `lbl`, `upgs` and `upge`.
#![tactic(auto)]

mod after;
mod asks;
mod laws;
mod natives;
mod origins;
mod state;

pub use laws::follows;
pub use natives::ChannelNatives;
pub use state::{BuiltIn, ChannelState, Joining, Registers, Unknown};
