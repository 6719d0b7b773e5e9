//! What a run holds besides its pending work, and what an act on it comes to.
#![tactic(auto)]

mod outcome;
mod world;

pub use outcome::{Access, Defining, Leaving, Named, Outcome, Place, Putting, SetLength};
pub use world::World;
