//! Whole runs: a machine goes on step by step, and each line goes to a sink as it is printed.
#![tactic(auto)]

mod ending;
mod lines;
mod listing;
mod putting;
mod running;
mod showing;
mod telling;

pub use ending::{Ending, Show};
pub use lines::line_bytes;
pub use listing::origins_in;
pub use running::run;
pub use showing::shown_text;
