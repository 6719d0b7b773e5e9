//! Small scripts with what they must give, computed by the definitions. Nothing is run: each row is a theorem on the meaning of scripts.
#![tactic(auto)]

pub mod labelled;
pub mod plain;
