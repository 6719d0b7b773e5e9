//! Labels: finite sets of origins, their lattice, and the stores that keep them.
#![tactic(auto)]

mod labels;
mod masks;
mod origin_list;
mod origins;

pub use labels::{Labels, join_all, lattice};
pub use masks::{Mask, Masks};
pub use origin_list::OriginList;
pub use origins::Origins;
