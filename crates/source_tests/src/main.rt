//! Scripts and trees through the parser and the program, with the answers worked out by hand. They stand here so that those crates are proved once.
//! A program to the kit, so that no library is made of it: its `main` does nothing.
#![tactic(auto)]

#[cfg(test)]
mod asking;
#[cfg(test)]
mod commands;
#[cfg(test)]
mod early;
#[cfg(test)]
mod expressions;
#[cfg(test)]
mod limits;
#[cfg(test)]
mod programs;
#[cfg(test)]
mod requests;
#[cfg(test)]
mod running;
#[cfg(test)]
mod shell;
#[cfg(test)]
mod told;
#[cfg(test)]
mod trees;
#[cfg(test)]
mod whole_trees;

fn main(_rt: HostRuntime) {}
