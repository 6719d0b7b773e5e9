use crate::asking::{Cut, Faulty, all_cut, all_faulty};
use crate::told::holds;
use flow_text::Text;
use js_ast::TokenKind;
use js_scan::{ScanFault, scan};
use std::alloc::Global;
use std::process::Abort;
use std::test::*;

// A literal, and the units of its value.
type Literal = (&'static str, &'static [u16]);

// A literal, and the characters of its value.
type Spelling = (&'static str, &'static str);

// Values below are what node 20 gives of `"use strict"; return (LITERAL);`, unit by unit.
const LITERALS: &[Literal] = &[
    ("\"\"", &[]),
    ("''", &[]),
    ("\"a\"", &[0x61]),
    ("'a'", &[0x61]),
    ("\"it's\"", &[0x69, 0x74, 0x27, 0x73]),
    (
        "'say \"hi\"'",
        &[0x73, 0x61, 0x79, 0x20, 0x22, 0x68, 0x69, 0x22],
    ),
    (
        "\"\\b\\t\\n\\v\\f\\r\"",
        &[0x08, 0x09, 0x0A, 0x0B, 0x0C, 0x0D],
    ),
    ("\"\\\\\"", &[0x5C]),
    ("\"\\\"\"", &[0x22]),
    ("'\\''", &[0x27]),
    ("\"\\'\"", &[0x27]),
    ("\"\\0\"", &[0x00]),
    ("\"\\0a\"", &[0x00, 0x61]),
    ("\"\\x41\"", &[0x41]),
    ("\"\\x00\\xfF\"", &[0x00, 0xFF]),
    ("\"\\u0041\"", &[0x41]),
    ("\"\\uD83D\\ude00\"", &[0xD83D, 0xDE00]),
    ("\"\\uD800\"", &[0xD800]),
    ("\"\u{1F600}\"", &[0xD83D, 0xDE00]),
    ("\"\u{E9}\"", &[0xE9]),
];

const MORE_LITERALS: &[Literal] = &[
    ("\"\\\u{E9}\"", &[0xE9]),
    ("\"\\a\\c\\z\"", &[0x61, 0x63, 0x7A]),
    ("\"\\A\\Z\"", &[0x41, 0x5A]),
    ("\"a\\\u{A}b\"", &[0x61, 0x62]),
    ("\"a\\\u{D}\u{A}b\"", &[0x61, 0x62]),
    ("\"a\\\u{D}b\"", &[0x61, 0x62]),
    ("\"a\\\u{2028}b\"", &[0x61, 0x62]),
    ("\"a\\\u{2029}b\"", &[0x61, 0x62]),
    ("\"a\u{9}b\"", &[0x61, 0x09, 0x62]),
    ("\"\\\u{1F600}\"", &[0xD83D, 0xDE00]),
    ("\"\\ \"", &[0x20]),
    ("\"\\-\"", &[0x2D]),
    (
        "\"// no comment\"",
        &[
            0x2F, 0x2F, 0x20, 0x6E, 0x6F, 0x20, 0x63, 0x6F, 0x6D, 0x6D, 0x65, 0x6E, 0x74,
        ],
    ),
    (
        "'/* no comment */'",
        &[
            0x2F, 0x2A, 0x20, 0x6E, 0x6F, 0x20, 0x63, 0x6F, 0x6D, 0x6D, 0x65, 0x6E, 0x74, 0x20,
            0x2A, 0x2F,
        ],
    ),
];

// node gives none of these, or the form is one of later editions (`\u{41}`). The bad escape stands behind the quote.
const BAD_LITERALS: &[Faulty] = &[
    ("\"\\u{41}\"", ScanFault::BadToken { at: 1 }),
    ("\"\\1\"", ScanFault::BadToken { at: 1 }),
    ("\"\\08\"", ScanFault::BadToken { at: 1 }),
    ("\"\\x4\"", ScanFault::BadToken { at: 1 }),
    ("\"\\u12\"", ScanFault::BadToken { at: 1 }),
    ("\"\\8\"", ScanFault::BadToken { at: 1 }),
];

// StringLiteral of ECMA-262 7.8.4, read by hand.
const SPELLINGS: &[Spelling] = &[
    (r#""""#, ""),
    ("''", ""),
    (r#"'"'"#, "\""),
    (r#""\b\t\n\v\f\r""#, "\u{8}\t\n\u{B}\u{C}\r"),
    (r#""\"\'\\\a\Q\é""#, "\"'\\aQé"),
    (r#""\0""#, "\0"),
    (r#""\0a\0""#, "\0a\0"),
    (r#""\x41\u0042\xfF""#, "AB\u{FF}"),
    (r#""\uD83D\uDE00""#, "😀"),
    (r#""\😀😀""#, "😀😀"),
    ("\"a\\\nb\"", "ab"),
    ("\"a\\\rb\"", "ab"),
    ("\"a\\\r\nb\"", "ab"),
    ("\"a\\\n\\\rb\"", "ab"),
    ("\"a\\\u{2028}b\"", "ab"),
    ("\"a\\\u{2029}b\"", "ab"),
];

const FRONTS: &[Cut] = &[
    (
        r#""it's"; 'b'"#,
        &[
            ('$', "\"it's\"", 0, 6, false),
            ('p', ";", 6, 7, false),
            ('$', "'b'", 8, 11, false),
        ],
    ),
    ("'\u{1F600}'", &[('$', "'\u{1F600}'", 0, 4, false)]),
    (
        "'a\\\u{A}b'c",
        &[('$', "'a\\\u{A}b'", 0, 6, false), ('n', "c", 6, 7, false)],
    ),
];

const OPEN: &[Faulty] = &[
    ("\"", ScanFault::Unterminated { at: 0 }),
    ("'a\"", ScanFault::Unterminated { at: 0 }),
    ("\"a\nb\"", ScanFault::Unterminated { at: 0 }),
    ("\"a\rb\"", ScanFault::Unterminated { at: 0 }),
    ("\"a\u{2028}b\"", ScanFault::Unterminated { at: 0 }),
    ("\"a\u{2029}b\"", ScanFault::Unterminated { at: 0 }),
    ("\"a\\\n\n\"", ScanFault::Unterminated { at: 0 }),
    (r#""a\"#, ScanFault::Unterminated { at: 0 }),
    (r#""a\""#, ScanFault::Unterminated { at: 0 }),
];

const BAD_ESCAPES: &[Faulty] = &[
    (r#""\08""#, ScanFault::BadToken { at: 1 }),
    (r#""ab\00""#, ScanFault::BadToken { at: 3 }),
    (r#""\1""#, ScanFault::BadToken { at: 1 }),
    (r#""\9""#, ScanFault::BadToken { at: 1 }),
    (r#""a\x4""#, ScanFault::BadToken { at: 2 }),
    (r#""a\x4"#, ScanFault::BadToken { at: 2 }),
    (r#""a\x4G""#, ScanFault::BadToken { at: 2 }),
    (r#""\u12""#, ScanFault::BadToken { at: 1 }),
    (r#""\u{12}""#, ScanFault::BadToken { at: 1 }),
    (r#""\n\x40\x4:""#, ScanFault::BadToken { at: 7 }),
    ("\"\\\n\\x\"", ScanFault::BadToken { at: 3 }),
];

// The source is one string of this value.
fn is_string(alloc: Global, source: &Text, value: &Text) -> Result<bool, ScanFault> {
    let tokens = scan(alloc, source)?;
    Ok(match tokens.as_slice() {
        [token] => match &token.kind {
            TokenKind::String(found) => {
                *found == *value
                    && token.text == *source
                    && token.from == 0
                    && token.to == source.len()
            }
            _ => false,
        },
        _ => false,
    })
}

fn has_units(alloc: Global, literal: &str, units: &[u16]) -> Result<bool, ScanFault> {
    let mut value = Text::new(alloc);
    value.push_units(units)?;
    is_string(alloc, &Text::spelled(alloc, literal)?, &value)
}

fn has_characters(alloc: Global, literal: &str, characters: &str) -> Result<bool, ScanFault> {
    let value = Text::spelled(alloc, characters)?;
    is_string(alloc, &Text::spelled(alloc, literal)?, &value)
}

fn all_literals(rt: &impl Abort, alloc: Global, rows: &[Literal]) {
    for (literal, units) in rows {
        assert!(rt; holds(has_units(alloc, *literal, *units)), "of {literal}");
    }
}

#[test]
fn string_literals(rt: HostRuntime) {
    let alloc = rt.alloc();
    all_literals(&rt, alloc, LITERALS);
    all_literals(&rt, alloc, MORE_LITERALS);
    all_faulty(&rt, alloc, BAD_LITERALS);
}

#[test]
fn characters_of_strings(rt: HostRuntime) {
    for (literal, characters) in SPELLINGS {
        assert!(rt;
            holds(has_characters(rt.alloc(), *literal, *characters)),
            "of {literal}"
        );
    }
}

#[test]
fn ends_of_strings(rt: HostRuntime) {
    let alloc = rt.alloc();
    all_cut(&rt, alloc, FRONTS);
    all_faulty(&rt, alloc, OPEN);
    all_faulty(&rt, alloc, BAD_ESCAPES);
}
