//! What a script is made of: its tokens and its trees, and orders of nodes by their keys.
#![tactic(auto)]

mod keys;
mod lending;
mod node_list;
mod operators;
mod orders;
mod program;
mod token;
mod trees;
mod words;

pub use node_list::NodeList;
pub use operators::{AssignOperator, BinaryOperator, PostfixOperator, UnaryOperator};
pub use orders::{ordered_names, ordered_properties};
pub use token::{Token, TokenKind};
pub use trees::{
    Block, Clause, ClauseList, Declaration, DeclarationList, Declarations, Expr, ExprKind,
    ExprList, ForFirst, ForTarget, Function, Ident, IdentList, Item, ItemList, Key, Program,
    Property, PropertyKind, PropertyList, Semi, Stmt, StmtKind, StmtList,
};
pub use words::{Keyword, Sign};
