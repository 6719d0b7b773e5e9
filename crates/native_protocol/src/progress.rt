//! How far a piece of a built-in is.

/// A piece goes on from a state, or is done with what it is to give.
#[derive(Drop)]
pub enum Progress<S, R> {
    Going(S),
    Ready(R),
}
