//! The parser on lists of tokens, which the code of the parser equals, and its laws: it reads each valid tree exactly.
#![tactic(auto)]

mod exactness;

pub use exactness::one_tree;
