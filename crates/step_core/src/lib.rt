//! One step of a machine: a part of the script is entered, or the work that waits goes on, until a line is printed or the run ends.
#![tactic(auto)]

mod beginning;
mod entering;
mod laws;
mod leaving;
mod machine;
mod passing;
mod progress;
mod requesting;
mod resuming;
mod stepping;
mod steps;
mod telling;

pub use laws::only_adds;
pub use machine::Machine;
pub use progress::Progress;
pub use steps::{Ending, Step};
