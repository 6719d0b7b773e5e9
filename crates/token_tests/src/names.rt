use crate::asking::{Cut, Faulty, all_cut, all_faulty, is_one};
use crate::told::holds;
use flow_text::{OutOfMemory, Text};
use js_scan::{ScanFault, is_identifier, is_one_of, scan};
use std::alloc::Global;
use std::test::*;

// ECMA-262 7.6: what may start an identifier, what may follow it, and escapes of both.
const NAMES: &[Cut] = &[
    ("a", &[('n', "a", 0, 1, false)]),
    ("$_9", &[('n', "$_9", 0, 3, false)]),
    (
        "a-b",
        &[
            ('n', "a", 0, 1, false),
            ('p', "-", 1, 2, false),
            ('n', "b", 2, 3, false),
        ],
    ),
    ("Ʊx ", &[('n', "Ʊx", 0, 2, false)]),
    ("ⅷ", &[('n', "ⅷ", 0, 1, false)]),
    (
        "e\u{301}+",
        &[('n', "e\u{301}", 0, 2, false), ('p', "+", 2, 3, false)],
    ),
    ("a٣‿", &[('n', "a٣‿", 0, 3, false)]),
    (
        "a\u{200D}b\u{200C}",
        &[('n', "a\u{200D}b\u{200C}", 0, 4, false)],
    ),
    ("\\u0061b", &[('n', "ab", 0, 7, false)]),
    (
        "a\\u0039;",
        &[('n', "a9", 0, 7, false), ('p', ";", 7, 8, false)],
    ),
    ("\\u01b1\\u01B1", &[('n', "ƱƱ", 0, 12, false)]),
];

const MORE_NAMES: &[Cut] = &[
    (
        "$ _x9",
        &[('n', "$", 0, 1, false), ('n', "_x9", 2, 5, false)],
    ),
    ("v\\u0061r2", &[('n', "var2", 0, 9, false)]),
    ("caf\u{E9}", &[('n', "caf\u{E9}", 0, 4, false)]),
    ("\u{2160}", &[('n', "\u{2160}", 0, 1, false)]),
    ("a\u{200D}b", &[('n', "a\u{200D}b", 0, 3, false)]),
    (
        "let yield",
        &[('n', "let", 0, 3, false), ('n', "yield", 4, 9, false)],
    ),
    (
        "var if",
        &[('r', "var", 0, 3, false), ('r', "if", 4, 6, false)],
    ),
];

// A name ends in front of `\` where no escape of a part begins, and there the fault is.
const BAD_ESCAPES: &[Faulty] = &[
    ("ab\\u00", ScanFault::BadToken { at: 2 }),
    ("ab\\u00g0", ScanFault::BadToken { at: 2 }),
    ("a\\u{61}", ScanFault::BadToken { at: 1 }),
    ("a\\u002Db", ScanFault::BadToken { at: 1 }),
    ("a\\u005cu0061", ScanFault::BadToken { at: 1 }),
];

// No name stands first in these.
const OTHERS: &[Cut] = &[
    ("", &[]),
    ("9", &[('#', "9", 0, 1, false)]),
    ("-a", &[('p', "-", 0, 1, false), ('n', "a", 1, 2, false)]),
    (" a", &[('n', "a", 1, 2, false)]),
];

const NO_TOKENS: &[Faulty] = &[
    ("\u{200D}a", ScanFault::BadToken { at: 0 }),
    ("\u{301}a", ScanFault::BadToken { at: 0 }),
    ("٣", ScanFault::BadToken { at: 0 }),
    ("‿a", ScanFault::BadToken { at: 0 }),
    ("𝒳", ScanFault::BadToken { at: 0 }),
    ("\\", ScanFault::BadToken { at: 0 }),
    ("\\U0061", ScanFault::BadToken { at: 0 }),
    ("\\u006", ScanFault::BadToken { at: 0 }),
    ("\\u0039a", ScanFault::BadToken { at: 0 }),
    ("\\u002D", ScanFault::BadToken { at: 0 }),
    ("\\u200Da", ScanFault::BadToken { at: 0 }),
    ("\\ud835", ScanFault::BadToken { at: 0 }),
];

// Texts, and whether each is an identifier. An escape is none.
const IDENTIFIERS: &[(&str, bool)] = &[
    ("a", true),
    ("$_9", true),
    ("Ʊx", true),
    ("ⅷ", true),
    ("e\u{301}", true),
    ("a٣‿", true),
    ("a\u{200D}b\u{200C}", true),
    ("ab", true),
    ("a9", true),
    ("ƱƱ", true),
    ("a-b", false),
    ("", false),
    ("9", false),
    ("-a", false),
    (" a", false),
    ("\u{200D}a", false),
    ("\u{301}a", false),
    ("٣", false),
    ("‿a", false),
    ("𝒳", false),
    ("\\", false),
    ("\\u0061b", false),
];

// ECMA-262 7.6.1. The words that only strict code reserves are names.
const WORDS: &[(&str, bool)] = &[
    ("do", true),
    ("var", true),
    ("this", true),
    ("null", true),
    ("enum", true),
    ("instanceof", true),
    ("d", false),
    ("dO", false),
    ("vary", false),
    ("let", false),
    ("static", false),
    ("yield", false),
    ("undefined", false),
    ("instanceOf", false),
];

const RESERVED: [&[u8]; 6] = [b"do", b"var", b"this", b"null", b"enum", b"instanceof"];

fn identifies(alloc: Global, text: &str, wanted: bool) -> Result<bool, OutOfMemory> {
    let text = Text::spelled(alloc, text)?;
    Ok(is_identifier(text.units()) == wanted)
}

// A word is reserved, or it is a name and an identifier.
fn is_word(alloc: Global, word: &str, reserved: bool) -> Result<bool, ScanFault> {
    let text = Text::spelled(alloc, word)?;
    let kind = if reserved { 'r' } else { 'n' };
    Ok(
        is_one_of(&RESERVED, text.units()) == reserved
            && is_identifier(text.units()) != reserved
            && is_one(alloc, &text, kind)?,
    )
}

fn units_of(alloc: Global, units: &[u16]) -> Result<Text, OutOfMemory> {
    let mut text = Text::new(alloc);
    text.push_units(units)?;
    Ok(text)
}

// The units are no identifier, and this one begins no token.
fn stops(alloc: Global, units: &[u16], at: usize) -> Result<bool, OutOfMemory> {
    let text = units_of(alloc, units)?;
    let bad = match scan(alloc, &text) {
        Ok(_) => false,
        Err(fault) => fault == ScanFault::BadToken { at },
    };
    Ok(bad && !is_identifier(units))
}

#[test]
fn names(rt: HostRuntime) {
    let alloc = rt.alloc();
    all_cut(&rt, alloc, NAMES);
    all_cut(&rt, alloc, MORE_NAMES);
    all_faulty(&rt, alloc, BAD_ESCAPES);
}

#[test]
fn no_names(rt: HostRuntime) {
    let alloc = rt.alloc();
    all_cut(&rt, alloc, OTHERS);
    all_faulty(&rt, alloc, NO_TOKENS);
}

#[test]
fn identifiers(rt: HostRuntime) {
    for (text, wanted) in IDENTIFIERS {
        assert!(rt; holds(identifies(rt.alloc(), *text, *wanted)), "of {text}");
    }
}

#[test]
fn reserved_words(rt: HostRuntime) {
    for (word, reserved) in WORDS {
        assert!(rt; holds(is_word(rt.alloc(), *word, *reserved)), "of {word}");
    }
    assert!(rt; !is_one_of(&RESERVED, &[]));
}

// A surrogate neither starts a name nor follows its start.
#[test]
fn surrogates(rt: HostRuntime) {
    for unit in [0xD800, 0xDBFF, 0xDC00, 0xDFFF] {
        assert!(rt; holds(stops(rt.alloc(), &[unit], 0)), "at {unit}");
        assert!(rt; holds(stops(rt.alloc(), &[0x61, unit], 1)), "at {unit}");
    }
}
