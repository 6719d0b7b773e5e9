//! What a call binds (ECMA-262 10.4.3, 10.5): the names, which are planned once for a function, and the values, which each call puts under them.
#![tactic(auto)]

mod call_layout;
mod declaring;
mod entry;
mod naming;
mod placing;
mod variables;

pub use call_layout::CallLayout;
pub use declaring::declared;
pub use entry::Entry;
