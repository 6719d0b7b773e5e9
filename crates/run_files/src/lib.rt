//! The files of a run: its script, policy, observer and inputs, or why they are refused.
#![tactic(auto)]

mod accepting;
mod laws;
mod observers;
mod refusals;
mod sources;

pub use accepting::{Request, Task, accept_program, accept_task};
pub use laws::{judged_once, one_program};
pub use refusals::{Refusal, SourceKind, WhichInput};
