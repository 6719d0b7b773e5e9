//! Strings.

ghost use Rattle.std.specs.Prelude.{◌≡◌, ◌≤◌, true, Some, None, List, ℕ, ◌∷◌, IfOk, if◌then◌else◌};
ghost use Rattle.std.specs.Char.{is_digit, digit_value};
ghost use Rattle.js_scan.specs.Units.{is_quote};
ghost use Rattle.js_scan.specs.Strings.{escaped_character};
ghost use Rattle.js_scan.specs.StringReading.{hexadecimal_escape, digit_escape, line_continuation, escape, look_ahead};
ghost use Rattle.js_scan.specs.Found.{FindsQuoted};

use crate::hexadecimal::hexadecimal_value;
use crate::units::is_line_terminator;
use flow_text::{OutOfMemory, Text};
use std::alloc::Global;

/// What was found of a string.
#[derive(Drop)]
pub(crate) enum Quoted {
    /// It is whole, with this value and so many units.
    Closed { value: Text, length: usize },
    /// It has no end on its line.
    Open,
    /// Its first bad escape is here.
    BadEscape { at: usize },
}

// What stands ahead in a string.
#[derive(Clone, Copy)]
enum Ahead {
    // So many units that stand for this one.
    Value { unit: u16, length: usize },
    // So many units that stand for none.
    Nothing { length: usize },
    Quote,
    // The string has no end on its line.
    LineEnd,
    BadEscape,
}

/// The string that stands at the front of the units.
pub(crate) fn read_quoted(alloc: Global, units: &[u16]) -> Result<Quoted, OutOfMemory>
    requires { (quote : ℕ) × (rest : List ℕ) × (units.now ≡ quote ∷ rest) × (is_quote quote ≡ true) }
    ensures { IfOk result (λ found. FindsQuoted units.now found) }
{
    let quote = units[0];
    let mut value = Vec::new(alloc);
    let mut at = 1;
    'parts: loop {
        match look_ahead(quote, &units[at..]) {
            Ahead::Value { unit, length } => {
                value.push(unit)?;
                at += length;
            }
            Ahead::Nothing { length } => at += length,
            Ahead::Quote => {
                let value = Text::of_units(alloc, value)?;
                return Ok(Quoted::Closed {
                    value,
                    length: at + 1,
                });
            }
            Ahead::LineEnd => return Ok(Quoted::Open),
            Ahead::BadEscape => return Ok(Quoted::BadEscape { at }),
        }
    }
}

// What stands at the front of the rest of a string.
#[tactic(auto, unfolding(crate::specs::StringReading::look_ahead))]
fn look_ahead(quote: u16, units: &[u16]) -> Ahead
    ensures { result ≡ look_ahead quote units.now }
{
    match units {
        [] => Ahead::LineEnd,
        [0x5C, rest @ ..] => escape(rest),
        [unit, ..] if *unit == quote => Ahead::Quote,
        [unit, ..] if is_line_terminator(*unit) => Ahead::LineEnd,
        [unit, ..] => Ahead::Value {
            unit: *unit,
            length: 1,
        },
    }
}

// What `\` and the units behind it stand for.
#[tactic(auto, unfolding(crate::specs::StringReading::escape))]
fn escape(units: &[u16]) -> Ahead
    ensures { result ≡ escape units.now }
{
    match units {
        [] => Ahead::LineEnd,
        [0x78, digits @ ..] => hexadecimal_escape(2, digits),
        [0x75, digits @ ..] => hexadecimal_escape(4, digits),
        [digit @ 0x30..=0x39, rest @ ..] => digit_escape(*digit, rest),
        [unit, rest @ ..] if is_line_terminator(*unit) => line_continuation(*unit, rest),
        [unit, ..] => Ahead::Value {
            unit: escaped_character(*unit),
            length: 2,
        },
    }
}

// `\x` or `\u` and so many hexadecimal digits.
#[tactic(auto, unfolding(crate::specs::StringReading::hexadecimal_escape))]
fn hexadecimal_escape(count: usize, units: &[u16]) -> Ahead
    requires { count ≤ 4 }
    ensures { result ≡ hexadecimal_escape count units.now }
{
    match hexadecimal_value(count, units) {
        Some(unit) => Ahead::Value {
            unit,
            length: 2 + count,
        },
        None => Ahead::BadEscape,
    }
}

// `\` and a digit: only `\0` is an escape, and only before no digit.
#[tactic(auto, unfolding(crate::specs::StringReading::digit_escape, crate::specs::Units::begins_with_digit))]
fn digit_escape(digit: u16, rest: &[u16]) -> Ahead
    ensures { result ≡ digit_escape digit rest.now }
{
    if digit == 0x30 && !matches!(rest, [0x30..=0x39, ..]) {
        Ahead::Value { unit: 0, length: 2 }
    } else {
        Ahead::BadEscape
    }
}

// `\` and a line terminator, of which CR LF is one.
#[tactic(auto, unfolding(crate::specs::StringReading::line_continuation, crate::specs::Units::begins_with))]
fn line_continuation(terminator: u16, rest: &[u16]) -> Ahead
    ensures { result ≡ line_continuation terminator rest.now }
{
    match rest {
        [0x0A, ..] if terminator == 0x0D => Ahead::Nothing { length: 3 },
        _ => Ahead::Nothing { length: 2 },
    }
}

// What a unit stands for behind `\`.
#[tactic(auto, unfolding(crate::specs::Strings::escaped_character))]
fn escaped_character(unit: u16) -> u16
    ensures { result ≡ escaped_character unit }
{
    match unit {
        0x62 => 0x08, // \b
        0x74 => 0x09, // \t
        0x6E => 0x0A, // \n
        0x76 => 0x0B, // \v
        0x66 => 0x0C, // \f
        0x72 => 0x0D, // \r
        _ => unit,
    }
}
