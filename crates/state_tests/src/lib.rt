//! Calls of the lower crates with their answers, worked out by hand. They stand here so that those crates are proved once.
#![tactic(auto)]

#[cfg(test)]
mod frames;
#[cfg(test)]
mod heap;
#[cfg(test)]
mod numbers;
#[cfg(test)]
mod operators;
#[cfg(test)]
mod policies;
#[cfg(test)]
mod records;
#[cfg(test)]
mod told;
#[cfg(test)]
mod values;
#[cfg(test)]
mod walks;
