use crate::asking::{Cut, Faulty, all_cut, all_faulty};
use crate::told::holds;
use flow_text::{OutOfMemory, Text};
use js_scan::{ScanFault, scan};
use std::alloc::Global;
use std::test::*;

// White space and line terminators (ECMA-262 7.2 and 7.3), and whether a unit breaks the line.
const BLANKS: &[(u16, bool)] = &[
    (0x09, false),
    (0x20, false),
    (0xA0, false),
    (0x2007, false),
    (0x3000, false),
    (0xFEFF, false),
    (0x0A, true),
    (0x2029, true),
];

// NEL, U+180E, U+200B and a surrogate are of no category that they name.
const NO_BLANKS: &[u16] = &[0x85, 0x180E, 0x200B, 0xD800];

const BETWEEN: &[Cut] = &[
    ("", &[]),
    ("a", &[('n', "a", 0, 1, false)]),
    (
        " \u{9}\u{B}\u{C}\u{A0}\u{FEFF}\u{2003}a",
        &[('n', "a", 7, 8, false)],
    ),
    (
        "a\u{A}b",
        &[('n', "a", 0, 1, false), ('n', "b", 2, 3, true)],
    ),
    (
        "a\u{D}b",
        &[('n', "a", 0, 1, false), ('n', "b", 2, 3, true)],
    ),
    (
        "a\u{D}\u{A}b",
        &[('n', "a", 0, 1, false), ('n', "b", 3, 4, true)],
    ),
    (
        "a\u{2028}b",
        &[('n', "a", 0, 1, false), ('n', "b", 2, 3, true)],
    ),
    (
        "a\u{2029} b",
        &[('n', "a", 0, 1, false), ('n', "b", 3, 4, true)],
    ),
    (
        "\u{A}a b",
        &[('n', "a", 1, 2, true), ('n', "b", 3, 4, false)],
    ),
    (
        "a//x*/\"\u{A}b",
        &[('n', "a", 0, 1, false), ('n', "b", 8, 9, true)],
    ),
    ("a//x", &[('n', "a", 0, 1, false)]),
    ("//\u{2028}a", &[('n', "a", 3, 4, true)]),
    (
        "a/*//x*/b",
        &[('n', "a", 0, 1, false), ('n', "b", 8, 9, false)],
    ),
    (
        "a/*\u{A}*/b",
        &[('n', "a", 0, 1, false), ('n', "b", 6, 7, true)],
    ),
    (
        "a/*\u{2029}*/b",
        &[('n', "a", 0, 1, false), ('n', "b", 6, 7, true)],
    ),
    (
        "a/***/b",
        &[('n', "a", 0, 1, false), ('n', "b", 6, 7, false)],
    ),
    (
        "a/**// 2",
        &[
            ('n', "a", 0, 1, false),
            ('p', "/", 5, 6, false),
            ('#', "2", 7, 8, false),
        ],
    ),
];

const LINE_COMMENTS: &[Cut] = &[
    ("//", &[]),
    ("// a /* b */", &[]),
    ("//a\nb", &[('n', "b", 4, 5, true)]),
    ("//a\rb", &[('n', "b", 4, 5, true)]),
    ("//\u{2028}b", &[('n', "b", 3, 4, true)]),
    ("//a\u{2029}b", &[('n', "b", 4, 5, true)]),
];

const BLOCK_COMMENTS: &[Cut] = &[
    ("/**/", &[]),
    ("/**/c", &[('n', "c", 4, 5, false)]),
    ("/* // */ b", &[('n', "b", 9, 10, false)]),
    ("/*a\nb*/c", &[('n', "c", 7, 8, true)]),
    ("/*a\rb*/c", &[('n', "c", 7, 8, true)]),
    ("/*\u{2028}*/c", &[('n', "c", 5, 6, true)]),
    ("/*\u{2029}*/c", &[('n', "c", 5, 6, true)]),
    ("/*a*/c", &[('n', "c", 5, 6, false)]),
    ("/*a*/\nc", &[('n', "c", 6, 7, true)]),
];

// A comment ends at its first `*/`: of a second one the `/` can't divide. Without one it has no end.
const ENDS: &[Faulty] = &[
    ("/***/*/", ScanFault::RegExpLiteral { at: 6 }),
    ("/*/**/*/", ScanFault::RegExpLiteral { at: 7 }),
    ("/*/", ScanFault::Unterminated { at: 0 }),
    ("/*", ScanFault::Unterminated { at: 0 }),
    ("/* a\n* /", ScanFault::Unterminated { at: 0 }),
];

// The unit with a name behind it.
fn before_name(alloc: Global, unit: u16) -> Result<Text, OutOfMemory> {
    let mut text = Text::new(alloc);
    text.push_units(&[unit, 0x61])?;
    Ok(text)
}

fn separates(alloc: Global, unit: u16, breaks_line: bool) -> Result<bool, ScanFault> {
    let text = before_name(alloc, unit)?;
    let tokens = scan(alloc, &text)?;
    Ok(match tokens.as_slice() {
        [token] => token.from == 1 && token.to == 2 && token.newline == breaks_line,
        _ => false,
    })
}

fn begins_none(alloc: Global, unit: u16) -> Result<bool, OutOfMemory> {
    let text = before_name(alloc, unit)?;
    Ok(match scan(alloc, &text) {
        Ok(_) => false,
        Err(fault) => fault == ScanFault::BadToken { at: 0 },
    })
}

#[test]
fn blanks(rt: HostRuntime) {
    for (unit, breaks_line) in BLANKS {
        assert!(rt;
            holds(separates(rt.alloc(), *unit, *breaks_line)),
            "at {unit}"
        );
    }
    for unit in NO_BLANKS {
        assert!(rt; holds(begins_none(rt.alloc(), *unit)), "at {unit}");
    }
}

#[test]
fn separators(rt: HostRuntime) {
    all_cut(&rt, rt.alloc(), BETWEEN);
}

#[test]
fn comments(rt: HostRuntime) {
    let alloc = rt.alloc();
    all_cut(&rt, alloc, LINE_COMMENTS);
    all_cut(&rt, alloc, BLOCK_COMMENTS);
    all_faulty(&rt, alloc, ENDS);
}
