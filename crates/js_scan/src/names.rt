//! Names.

ghost use Rattle.std.specs.Prelude.{◌≡◌, ◌↔◌, ◌<◌, true, IfOk, IfSome};
ghost use Rattle.std.specs.List.{list_all, list_any};
ghost use Rattle.std.specs.Str.{bytes_eq};
ghost use Rattle.js_scan.specs.Names.{BeginsName, is_identifier, is_reserved};
ghost use Rattle.js_scan.specs.Found.{FindsWord};
ghost use Rattle.js_scan.specs.Units.{is_identifier_part};
ghost use Rattle.js_scan.specs.NameReading.{escaped_unit, unit_at, start_at, part_at};

use crate::hexadecimal::hexadecimal_value;
use crate::units::{is_identifier_part, is_identifier_start};
use flow_text::{OutOfMemory, Text};
use std::alloc::Global;

// Keyword, FutureReservedWord, NullLiteral and BooleanLiteral.
const RESERVED_WORDS: [&[u8]; 36] = [
    b"break",
    b"case",
    b"catch",
    b"continue",
    b"debugger",
    b"default",
    b"delete",
    b"do",
    b"else",
    b"finally",
    b"for",
    b"function",
    b"if",
    b"in",
    b"instanceof",
    b"new",
    b"return",
    b"switch",
    b"this",
    b"throw",
    b"try",
    b"typeof",
    b"var",
    b"void",
    b"while",
    b"with",
    b"class",
    b"const",
    b"enum",
    b"export",
    b"extends",
    b"import",
    b"super",
    b"null",
    b"true",
    b"false",
];

/// A name.
#[derive(Drop)]
pub(crate) struct Word {
    /// What it stands for.
    pub(crate) text: Text,
    /// How many units spell it.
    pub(crate) length: usize,
    /// It has an escape.
    pub(crate) escaped: bool,
}

/// The longest name that stands at the front of the units.
pub(crate) fn read_word(alloc: Global, units: &[u16]) -> Result<Option<Word>, OutOfMemory>
    ensures { IfOk result (λ found. FindsWord units.now found) }
{
    let Some((first, taken)) = start_at(units) else {
        return Ok(None);
    };
    let mut name = Vec::new(alloc);
    name.push(first)?;
    let mut length = taken;
    let mut escaped = 1 < taken;
    while let Some((unit, taken)) = part_at(&units[length..]) {
        name.push(unit)?;
        length += taken;
        escaped |= 1 < taken;
    }
    let text = Text::of_units(alloc, name)?;
    Ok(Some(Word {
        text,
        length,
        escaped,
    }))
}

/// Whether a name stands at the front of the units.
pub(crate) fn begins_name(units: &[u16]) -> bool
    ensures { (result ≡ true) ↔ BeginsName units.now }
{
    start_at(units).is_some()
}

// The first unit of a name, and how many units spell it.
#[tactic(auto, unfolding(crate::specs::NameReading::start_at, crate::specs::NameReading::passing))]
fn start_at(units: &[u16]) -> Option<(u16, usize)>
    ensures { result ≡ start_at units.now }
{
    unit_at(units).filter(|found| is_identifier_start(found.0))
}

// A unit behind the first, and how many units spell it.
#[tactic(auto, unfolding(crate::specs::NameReading::part_at, crate::specs::NameReading::passing))]
fn part_at(units: &[u16]) -> Option<(u16, usize)>
    ensures { result ≡ part_at units.now }
{
    unit_at(units).filter(|found| is_identifier_part(found.0))
}

// The unit that stands first, as itself or by an escape, and how many units spell it.
#[tactic(auto, unfolding(crate::specs::NameReading::unit_at))]
fn unit_at(units: &[u16]) -> Option<(u16, usize)>
    ensures { result ≡ unit_at units.now }
{
    match units {
        [0x5C, behind @ ..] => Some((escaped_unit(behind)?, 6)),
        [unit, ..] => Some((*unit, 1)),
        [] => None,
    }
}

// The unit that an escape stands for, of which these follow the `\`.
#[tactic(auto, unfolding(crate::specs::NameReading::escaped_unit))]
fn escaped_unit(units: &[u16]) -> Option<u16>
    ensures { result ≡ escaped_unit units.now }
{
    match units {
        [0x75, digits @ ..] => hexadecimal_value(4, digits),
        _ => None,
    }
}

/// Whether the units are a name that is no reserved word; an escape is none.
#[tactic(auto, unfolding(crate::specs::Names::is_identifier))]
pub fn is_identifier(text: &[u16]) -> bool
    ensures { result ≡ is_identifier text.now }
{
    match text {
        [] => false,
        [first, others @ ..] => {
            is_identifier_start(*first) && are_identifier_parts(others) && !is_reserved(text)
        }
    }
}

fn are_identifier_parts(units: &[u16]) -> bool
    ensures { result ≡ list_all is_identifier_part units.now }
{
    units.iter().all(|unit| is_identifier_part(*unit))
}

/// Whether the text is a reserved word.
#[tactic(auto, unfolding(crate::specs::Names::is_reserved))]
pub(crate) fn is_reserved(text: &[u16]) -> bool
    ensures { result ≡ is_reserved text.now }
{
    is_one_of(&RESERVED_WORDS, text)
}

/// Whether one of the words has the units of the text, one by one.
pub fn is_one_of(words: &[&[u8]], text: &[u16]) -> bool
    ensures { result ≡ list_any (λ word. bytes_eq text.now word.now) words.now }
{
    words.iter().any(|word| spells(word, text))
}

/// Whether the bytes are the units of the text, one by one.
pub fn spells(word: &[u8], text: &[u16]) -> bool
    ensures { result ≡ bytes_eq text.now word.now }
{
    if word.len() != text.len() {
        return false;
    }
    let mut bytes = word;
    let mut units = text;
    while let ([byte, more_bytes @ ..], [unit, more_units @ ..]) = (bytes, units) {
        if *unit != u16::from(*byte) {
            return false;
        }
        bytes = more_bytes;
        units = more_units;
    }
    true
}
