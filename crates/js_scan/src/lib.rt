//! The tokens of a source (ECMA-262 7).
#![tactic(auto)]

mod class;
mod comments;
mod element;
mod exactness;
mod fault;
mod hexadecimal;
mod names;
mod numbers;
mod punctuators;
mod scanning;
mod spellings;
mod state;
mod strings;
mod units;

pub use exactness::{one_reading, one_white_space};
pub use fault::ScanFault;
pub use names::{is_identifier, is_one_of, spells};
pub use scanning::scan;
