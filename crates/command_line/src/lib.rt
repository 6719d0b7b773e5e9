//! The command that the words of a command line state, read with `clap`.
#![tactic(auto)]

mod arguments;
mod commands;
mod numbers;
mod reading;
#[cfg(test)]
mod tests;

pub use commands::{Command, PairWords, RunWords, WordsFault};
pub use reading::read_words;
