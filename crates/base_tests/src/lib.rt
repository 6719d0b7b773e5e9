//! Calls of the lowest crates with their answers, worked out by hand. They stand here so that those crates are proved once.
#![tactic(auto)]

#[cfg(test)]
mod interned;
#[cfg(test)]
mod labels;
#[cfg(test)]
mod outside;
#[cfg(test)]
mod scripts;
#[cfg(test)]
mod texts;
#[cfg(test)]
mod told;
