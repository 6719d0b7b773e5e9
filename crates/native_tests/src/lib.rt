//! Calls of built-ins with the requests that they come to, and the objects that a run starts with, worked out by hand. They stand here so that the crates of built-ins are proved once.
#![tactic(auto)]

#[cfg(test)]
mod all;
#[cfg(test)]
mod lists;
#[cfg(test)]
mod objects;
#[cfg(test)]
mod scenes;
#[cfg(test)]
mod start_objects;
