//! All built-ins of the product as one set: those of `channels`, `object_natives`, `array_natives`, `function_natives` and `string_natives`.
#![tactic(auto)]

mod laws;
mod natives;
mod order;
mod sets;

pub use laws::{follows, in_order};
pub use natives::{AllNatives, AllState};
