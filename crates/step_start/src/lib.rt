//! What a run holds when it begins (ECMA-262 10.4.1, 10.5, 13.2, 15): the objects of the standard and of a set of built-ins, and what the outermost code declares.
#![tactic(auto)]

mod entering;
mod entries;
mod first;
mod functions;
mod hoisting;
mod holders;
mod script_functions;
mod starting;

pub use entries::start_objects;
pub use starting::{Started, start};
