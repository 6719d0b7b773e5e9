//! Walks along an object and its prototypes: what is found, what a put does, and which keys there are.
#![tactic(auto)]

mod enumeration;
mod found;
mod key_list;
mod plan;
mod put;
mod room;
mod walk;

pub use enumeration::{keys, own_keys};
pub use found::Found;
pub use key_list::KeyList;
pub use plan::PutPlan;
pub use put::{can_put, can_put_named};
pub use room::{Room, room_for};
pub use walk::{find, find_named, find_slot_named};
