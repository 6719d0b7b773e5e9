use crate::asking::{Cut, Faulty, all_cut, all_faulty};
use js_scan::ScanFault;
use std::test::*;

// By the table of faults: at the first lexeme that is none, and there the fault furthest left.
const NO_TOKENS: &[Faulty] = &[
    ("#", ScanFault::BadToken { at: 0 }),
    ("a@", ScanFault::BadToken { at: 1 }),
    ("\\", ScanFault::BadToken { at: 0 }),
    ("a\\u00", ScanFault::BadToken { at: 1 }),
    ("a\\u0020", ScanFault::BadToken { at: 1 }),
    ("v\\u0061r", ScanFault::BadToken { at: 0 }),
    ("x v\\u0061r\\u00", ScanFault::BadToken { at: 10 }),
    ("var\\u00", ScanFault::BadToken { at: 3 }),
    ("\u{1F600}", ScanFault::BadToken { at: 0 }),
    ("\u{200D}a", ScanFault::BadToken { at: 0 }),
    ("'\\1'", ScanFault::BadToken { at: 1 }),
    ("'ab\\x4", ScanFault::BadToken { at: 3 }),
    ("'\\08'", ScanFault::BadToken { at: 1 }),
    ("# 'abc", ScanFault::BadToken { at: 0 }),
    ("1\\u0030", ScanFault::BadToken { at: 1 }),
];

const NO_ENDS: &[Faulty] = &[
    ("'abc", ScanFault::Unterminated { at: 0 }),
    ("a 'b\u{A}c'", ScanFault::Unterminated { at: 2 }),
    ("'a\\", ScanFault::Unterminated { at: 0 }),
    ("'a\u{2028}'", ScanFault::Unterminated { at: 0 }),
    ("/*", ScanFault::Unterminated { at: 0 }),
    ("a /*/", ScanFault::Unterminated { at: 2 }),
    ("a/**", ScanFault::Unterminated { at: 1 }),
];

const REGULAR_EXPRESSIONS: &[Faulty] = &[
    ("/a/", ScanFault::RegExpLiteral { at: 0 }),
    ("var r = /a/;", ScanFault::RegExpLiteral { at: 8 }),
    ("return /a/", ScanFault::RegExpLiteral { at: 7 }),
    ("(/a/", ScanFault::RegExpLiteral { at: 1 }),
    ("/=a/", ScanFault::RegExpLiteral { at: 0 }),
    ("a;/**//b/", ScanFault::RegExpLiteral { at: 6 }),
    ("typeof/a/", ScanFault::RegExpLiteral { at: 6 }),
    ("{}.\u{A}/a/", ScanFault::RegExpLiteral { at: 4 }),
];

const NUMBERS: &[Faulty] = &[
    ("010;", ScanFault::NumberLiteral { at: 0 }),
    ("x=3in", ScanFault::NumberLiteral { at: 2 }),
    ("1\\u0061", ScanFault::NumberLiteral { at: 0 }),
    ("a 1.5", ScanFault::NumberLiteral { at: 2 }),
    ("9007199254740992", ScanFault::NumberLiteral { at: 0 }),
    ("1_0", ScanFault::NumberLiteral { at: 0 }),
];

const NO_FAULTS: &[Cut] = &[
    (
        "0x1F 1.0",
        &[('#', "0x1F", 0, 4, false), ('#', "1.0", 5, 8, false)],
    ),
    (
        "print(\"pub\", \"hi\");",
        &[
            ('n', "print", 0, 5, false),
            ('p', "(", 5, 6, false),
            ('$', "\"pub\"", 6, 11, false),
            ('p', ",", 11, 12, false),
            ('$', "\"hi\"", 13, 17, false),
            ('p', ")", 17, 18, false),
            ('p', ";", 18, 19, false),
        ],
    ),
];

#[test]
fn faults(rt: HostRuntime) {
    let alloc = rt.alloc();
    all_faulty(&rt, alloc, NO_TOKENS);
    all_faulty(&rt, alloc, NO_ENDS);
    all_faulty(&rt, alloc, REGULAR_EXPRESSIONS);
    all_faulty(&rt, alloc, NUMBERS);
}

#[test]
fn no_faults(rt: HostRuntime) {
    all_cut(&rt, rt.alloc(), NO_FAULTS);
}
