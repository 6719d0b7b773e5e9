//! The parser of expressions and statements: one cycle of functions.
#![tactic(auto)]

mod blocks;
mod branches;
mod entries;
mod expression;
mod for_loops;
mod functions;
mod list;
mod lists;
mod objects;
mod operand;
mod primary;
mod statement;
mod values;
mod variables;

pub use entries::{longest_expression, program, statement_list};
