//! The program that tokens spell.
#![tactic(auto)]

mod exactness;
mod parsing;

pub use exactness::one_program;
pub use js_parse_expr::ParseFault;
pub use parsing::parse;
