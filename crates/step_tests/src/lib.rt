//! Calls of the machine's parts with their answers, worked out by hand. They stand here so that those crates are proved once.
#![tactic(auto)]

#[cfg(test)]
mod branching;
#[cfg(test)]
mod told;
