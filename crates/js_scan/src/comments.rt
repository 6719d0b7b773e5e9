//! Comments.

ghost use Rattle.std.specs.Prelude.{◌≡◌, ◌≤◌, List, ℕ, ◌∷◌, length};
ghost use Rattle.std.specs.List.{list_any};
ghost use Rattle.js_scan.specs.Units.{is_line_terminator};
ghost use Rattle.js_scan.specs.Found.{FindsLineComment, FindsBlock};
ghost use Rattle.js_scan.specs.CommentReading.{line_length, close_from};

use crate::units::is_line_terminator;

/// How many units a comment to the end of the line has.
pub(crate) fn line_comment_length(units: &[u16]) -> usize
    requires { (rest : List ℕ) × (units.now ≡ 47 ∷ 47 ∷ rest) }
    ensures { FindsLineComment units.now result }
{
    2 + line_length(&units[2..])
}

// How many units stand in front of the first line terminator.
#[tactic(auto, unfolding(crate::specs::CommentReading::line_length))]
fn line_length(units: &[u16]) -> usize
    ensures count { result ≡ line_length units.now }
    ensures within { result ≤ length units.now }
{
    units
        .iter()
        .take_while(|unit| !is_line_terminator(**unit))
        .count()
}

/// How many units a comment up to its `*/` has, and whether it holds a line terminator.
pub(crate) fn block_comment(units: &[u16]) -> Option<(usize, bool)>
    requires { (rest : List ℕ) × (units.now ≡ 47 ∷ 42 ∷ rest) }
    ensures { FindsBlock units.now result }
{
    let inside = &units[2..];
    let length = close_at(inside)?;
    Some((length + 4, holds_line_terminator(&inside[..length])))
}

fn holds_line_terminator(units: &[u16]) -> bool
    ensures { result ≡ list_any is_line_terminator units.now }
{
    units.iter().any(|unit| is_line_terminator(*unit))
}

// Where `*/` first stands.
fn close_at(units: &[u16]) -> Option<usize>
    ensures { result ≡ close_from 0 units.now }
{
    for at in 0..units.len() {
        if units[at..].starts_with(&[0x2A, 0x2F]) {
            return Some(at);
        }
    }
    None
}
