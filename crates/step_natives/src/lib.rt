//! Built-ins in a machine: the states of those that wait or run, the frames of calls and of built-ins, and the conversion of objects, which is a built-in of its own (ECMA-262 8.12.8, 9.1).
#![tactic(auto)]

mod converting;
mod frames;
mod natives;
mod state;
mod states;

pub use converting::{compare, convert, convert_beside};
pub use frames::{enter_frame, leading};
pub use natives::begin_native;
pub use state::{Accessor, NativeState};
pub use states::NativeStates;
