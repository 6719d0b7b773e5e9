//! The lines and columns of a text.

ghost use Rattle.std.specs.Prelude.{◌≡◌, ◌+◌, ◌<◌, ◌≤◌, ◌++◌, ◌∷◌, length, Some};
ghost use Rattle.std.specs.Fmt.{decimal};
ghost use Rattle.flow_text.specs.Places.{ends_line, place_of};

use crate::text::Text;
use std::fmt;

const LINE_FEED: u16 = 0x0A;

const CARRIAGE_RETURN: u16 = 0x0D;

const LINE_SEPARATOR: u16 = 0x2028;

const PARAGRAPH_SEPARATOR: u16 = 0x2029;

/// A line of a text and a column in it, both from 1. A column counts units, and the LF of a CR LF
/// stands on the line that the two end.
#[derive(Clone, Copy, Debug, PartialEq, Eq)]
pub struct Place {
    pub line: usize,
    pub column: usize,
}

impl fmt::Display for Place {
    ghost output = { λ p. Some (decimal p.line ++ 58 ∷ decimal p.column) };

    fn fmt<W: fmt::Write>(&self, f: &mut fmt::Formatter<W>) -> fmt::Result {
        write!(f, "{}:{}", self.line, self.column)
    }
}

impl Text {
    /// The line and the column of the unit at `at`, or of the text's end. It takes no memory.
    #[tactic(auto, unfolding(crate::specs::Places::place_of))]
    pub fn place(&self, at: usize) -> Place
        requires { at ≤ length self.now }
        ensures place { result ≡ place_of self.now at }
        ensures line_within { 1 ≤ result.line × result.line ≤ at + 1 }
        ensures column_within { 1 ≤ result.column × result.column ≤ at + 1 }
    {
        let units = self.units();
        let mut line = 1;
        let mut column = 1;
        for i in 0..at {
            if ends_line(units, i) {
                line += 1;
                column = 1;
            } else {
                column += 1;
            }
        }
        Place { line, column }
    }
}

#[tactic(auto, unfolding(crate::specs::Places::ends_line))]
fn ends_line(units: &[u16], i: usize) -> bool
    requires { i < length units.now }
    ensures { result ≡ ends_line units.now i }
{
    match units[i] {
        LINE_FEED | LINE_SEPARATOR | PARAGRAPH_SEPARATOR => true,
        CARRIAGE_RETURN => units.get(i + 1) != Some(&LINE_FEED),
        _ => false,
    }
}
