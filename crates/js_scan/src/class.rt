//! What the first units tell.

ghost use Rattle.std.specs.Prelude.{◌≡◌};
ghost use Rattle.js_scan.specs.Found.{class_at};

use crate::units::{is_line_terminator, is_white_space};

/// What the first units of an element tell of it.
#[derive(Clone, Copy, PartialEq, Eq)]
pub(crate) enum Class {
    /// White space or a line terminator.
    Blank,
    LineComment,
    BlockComment,
    Quoted,
    Number,
    /// A name, a punctuator or nothing.
    Other,
}

/// The class of the element that the units begin.
#[tactic(auto, unfolding(crate::specs::Found::class_at, crate::specs::Found::begins_number, crate::specs::Units::begins_with, crate::specs::Units::begins_with_digit, crate::specs::Units::is_quote))]
pub(crate) fn class_at(units: &[u16]) -> Class
    ensures { result ≡ class_at units.now }
{
    match units {
        [0x2F, 0x2F, ..] => Class::LineComment,
        [0x2F, 0x2A, ..] => Class::BlockComment,
        [0x22 | 0x27, ..] => Class::Quoted,
        [0x30..=0x39, ..] | [0x2E, 0x30..=0x39, ..] => Class::Number,
        [unit, ..] if is_white_space(*unit) || is_line_terminator(*unit) => Class::Blank,
        _ => Class::Other,
    }
}
