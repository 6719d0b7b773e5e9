use crate::told::holds;
use flow_text::{OutOfMemory, Place, Text, TextFault};
use std::alloc::Global;
use std::cmp::Ordering;
use std::test::*;

// Bytes, and the units that they spell (Unicode, table 3-7).
const SPELLINGS: &[(&[u8], &[u16])] = &[
    (b"", &[]),
    (&[0x61, 0xC3, 0xA9], &[0x61, 0xE9]),
    (&[0xF0, 0x9F, 0x98, 0x80], &[0xD83D, 0xDE00]),
    (&[0xEF, 0xBF, 0xBF], &[0xFFFF]),
];

// Bytes that spell no text, and the length of their longest front that does.
const BAD_SPELLINGS: &[(&[u8], usize)] = &[
    (&[0x61, 0xC3], 1),
    (&[0xFF], 0),
    (&[0x61, 0x62, 0xED, 0xA0, 0x80], 2),
];

// Units with a surrogate that has no partner, and the bytes that are written for them.
const LONE_SURROGATES: &[(&[u16], &[u8])] = &[
    (&[0xD800], &[0xEF, 0xBF, 0xBD]),
    (&[0xDE00, 0xD83D], &[0xEF, 0xBF, 0xBD, 0xEF, 0xBF, 0xBD]),
    (&[0xD83D, 0x61], &[0xEF, 0xBF, 0xBD, 0x61]),
];

// Two texts, the less one first.
const RISING_PAIRS: &[(&str, &str)] = &[("a", "ab"), ("ab", "b"), ("a", "b"), ("", "a")];

// A text, the index of a unit in it, and its line and column.
const PLACES: &[(&str, usize, &str)] = &[
    ("ab\ncd", 0, "1:1"),
    ("ab\ncd", 1, "1:2"),
    ("ab\ncd", 2, "1:3"),
    ("ab\ncd", 3, "2:1"),
    ("ab\ncd", 4, "2:2"),
    ("ab\ncd", 5, "2:3"),
    ("a\r\nb", 1, "1:2"),
    ("a\r\nb", 2, "1:3"),
    ("a\r\nb", 3, "2:1"),
    ("a\rb", 2, "2:1"),
    ("a\u{2028}b\u{2029}c", 2, "2:1"),
    ("a\u{2028}b\u{2029}c", 4, "3:1"),
    ("\n\n", 2, "3:1"),
    ("\r", 1, "2:1"),
    ("", 0, "1:1"),
    ("😀a", 2, "1:3"),
];

fn is_written(alloc: Global, text: &Text, bytes: &[u8]) -> bool {
    match text.to_utf8(alloc) {
        Ok(written) => written.as_slice() == bytes,
        Err(OutOfMemory) => false,
    }
}

// From bytes to units, and back.
fn spells(alloc: Global, bytes: &[u8], units: &[u16]) -> bool {
    match Text::from_utf8(alloc, bytes) {
        Ok(text) => text.units() == units && is_written(alloc, &text, bytes),
        Err(_) => false,
    }
}

fn spells_none(alloc: Global, bytes: &[u8], at: usize) -> bool {
    Text::from_utf8(alloc, bytes).err() == Some(TextFault::BadUtf8 { at })
}

fn writes(alloc: Global, units: &[u16], bytes: &[u8]) -> Result<bool, OutOfMemory> {
    let mut text = Text::new(alloc);
    text.push_units(units)?;
    Ok(is_written(alloc, &text, bytes))
}

#[test]
fn utf8(rt: HostRuntime) {
    for (bytes, units) in SPELLINGS {
        assert!(rt; spells(rt.alloc(), *bytes, *units), "{bytes:?}");
    }
    for (bytes, at) in BAD_SPELLINGS {
        assert!(rt; spells_none(rt.alloc(), *bytes, *at), "at {at}");
    }
    for (units, bytes) in LONE_SURROGATES {
        assert!(rt; holds(writes(rt.alloc(), *units, *bytes)), "{units:?}");
    }
}

fn is_spelled(alloc: Global, text: &Text, spelling: &str) -> Result<bool, OutOfMemory> {
    Ok(*text == Text::spelled(alloc, spelling)?)
}

fn is_copied(alloc: Global, part: &Text) -> Result<bool, OutOfMemory> {
    Ok(part.copy(alloc)? == *part)
}

fn has_parts(alloc: Global, text: &Text) -> Result<bool, OutOfMemory> {
    if text.len() != 3 || text.unit(2) != 0x63 {
        return Ok(false);
    }
    let part = text.slice(alloc, 1, 3)?;
    Ok(is_spelled(alloc, &part, "bc")? && is_copied(alloc, &part)?)
}

fn joins(alloc: Global) -> Result<bool, OutOfMemory> {
    let front = Text::spelled(alloc, "ab")?;
    let back = Text::spelled(alloc, "c")?;
    let joined = front.concat(alloc, &back)?;
    Ok(is_spelled(alloc, &joined, "abc")? && has_parts(alloc, &joined)?)
}

fn grows(alloc: Global) -> Result<bool, OutOfMemory> {
    let mut text = Text::new(alloc);
    text.push(0x61)?;
    let unit = is_spelled(alloc, &text, "a")?;
    text.push_decimal(-40)?;
    let number = is_spelled(alloc, &text, "a-40")?;
    text.push_char('😀')?;
    Ok(unit && number && is_spelled(alloc, &text, "a-40😀")?)
}

fn is_escaped(alloc: Global, spelling: &str, wanted: &str) -> Result<bool, OutOfMemory> {
    let escaped = Text::spelled(alloc, spelling)?.escaped(alloc)?;
    is_spelled(alloc, &escaped, wanted)
}

#[test]
fn parts(rt: HostRuntime) {
    let alloc = rt.alloc();
    assert!(rt; holds(joins(alloc)));
    assert!(rt; holds(grows(alloc)));
    assert!(rt; holds(is_escaped(alloc, "a\nb\\\r", "a\\nb\\\\\\r")));
}

fn is_less(less: &Text, more: &Text) -> bool {
    less.cmp(more) == Ordering::Less
        && more.partial_cmp(less) == Some(Ordering::Greater)
        && *less != *more
        && *less < *more
}

fn are_ordered(alloc: Global, less: &str, more: &str) -> Result<bool, OutOfMemory> {
    let less = Text::spelled(alloc, less)?;
    let more = Text::spelled(alloc, more)?;
    Ok(is_less(&less, &more))
}

#[test]
fn order(rt: HostRuntime) {
    for (less, more) in RISING_PAIRS {
        assert!(rt;
            holds(are_ordered(rt.alloc(), *less, *more)),
            "{less} and {more}"
        );
    }
}

fn is_place(alloc: Global, place: Place, written: &str) -> Result<bool, OutOfMemory> {
    Ok(place.to_string(alloc)?.as_str() == written)
}

fn has_place(alloc: Global, spelling: &str, at: usize, written: &str) -> Result<bool, OutOfMemory> {
    let text = Text::spelled(alloc, spelling)?;
    if text.len() < at || text.place(0) != (Place { line: 1, column: 1 }) {
        return Ok(false);
    }
    is_place(alloc, text.place(at), written)
}

#[test]
fn places(rt: HostRuntime) {
    for (spelling, at, written) in PLACES {
        assert!(rt;
            holds(has_place(rt.alloc(), *spelling, *at, *written)),
            "{spelling} {at}"
        );
    }
}
