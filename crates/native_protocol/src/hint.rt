//! Hints of a conversion.

/// Which of an object's two methods is asked first (ECMA-262 8.12.8). No hint is as the hint Number, since no object here is a Date.
#[derive(Clone, Copy, Debug, PartialEq, Eq)]
pub enum Hint {
    Default,
    Number,
    String,
}
