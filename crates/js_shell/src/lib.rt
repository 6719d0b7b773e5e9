//! The program: one script, which is run under one policy with one input or two, from files to lines, or checked alone, or made.
#![tactic(auto)]

mod commands;
mod comparing;
mod laws;
mod program;
mod putting;
mod report;
mod running;
mod status;
mod trying;

pub use laws::{isolation, never_stopped, replies_once};
pub use program::shell;
pub use status::Status;
