//! Jumps: throws, returns, breaks and continues, the directives that raise what jumps depend on, `try` statements (ECMA-262 12.14), and the ends of calls.
#![tactic(auto)]

mod again;
mod calls;
mod directives;
mod jumping;
mod parts;
mod quieting;
mod raising;
mod tries;

pub use calls::{end_call, end_construction, pass_call, pass_construction};
pub use directives::{Directive, Spoken, directive_of};
pub use jumping::{leave_by, return_nothing, return_value, throw_value};
pub use parts::is_try;
pub use raising::raise_by;
pub use tries::{begin_try, end_block, end_handler, end_last, pass_block, pass_handler};
