//! Sources through the scanner, with the tokens and faults worked out by hand. They stand here so that it is proved once.
#![tactic(auto)]

#[cfg(test)]
mod asking;
#[cfg(test)]
mod faults;
#[cfg(test)]
mod names;
#[cfg(test)]
mod numbers;
#[cfg(test)]
mod punctuators;
#[cfg(test)]
mod separators;
#[cfg(test)]
mod strings;
#[cfg(test)]
mod told;
