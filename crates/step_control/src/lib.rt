//! The control stack at work: the first step of each node, and what each continuation does with the completion that it waited for, as far as that needs no variables, objects or operators on values: parts in their order, and the frames of branches, loops and turns.
#![tactic(auto)]

mod branches;
mod ends;
mod enter;
mod operators;
mod passing;
mod scopes;
mod statements;
mod visits;

pub use branches::{and_right, choose_expr, choose_stmt, choose_stmts, or_right};
pub use ends::{end_branch, end_branch_value, end_round, tested};
pub use enter::{begin_block, begin_expression, begin_named, begin_statement};
pub use operators::{binary_right, comma_right, compound_right, give_behind, instance_right};
pub use passing::{pass, pass_branch, pass_round};
pub use scopes::{begin_do_loop, begin_loop, begin_turn};
pub use statements::{declared, discard, looped, more_statements, turned, updated};
pub use visits::{begin_enumeration, begin_visit, visit_body, visited};
