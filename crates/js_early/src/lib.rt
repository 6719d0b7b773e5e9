//! Early errors.
#![tactic(auto)]

mod checking;
mod fault;

pub use checking::early;
pub use fault::EarlyFault;
