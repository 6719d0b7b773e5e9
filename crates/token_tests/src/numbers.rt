use crate::asking::{Cut, Faulty, all_cut, all_faulty, has_fault, is_one, scanned};
use crate::told::holds;
use flow_text::Text;
use js_ast::{Token, TokenKind};
use js_scan::ScanFault;
use std::alloc::Global;
use std::process::Abort;
use std::test::*;

// A literal and its value.
type Reading = (&'static str, Option<i64>);

// Values below are what node 20 gives of `"use strict"; return (LITERAL);`, where that is an integer below 2^53. Where there is none, or
// the form is one of later editions (`0b1`, `0o7`, `1n`, `1_0`), the row has None.
const READINGS: &[Reading] = &[
    ("0", Some(0)),
    ("1", Some(1)),
    ("7", Some(7)),
    ("42", Some(42)),
    ("9007199254740991", Some(9_007_199_254_740_991)),
    ("9007199254740992", None),
    ("123456789012345678", None),
    ("0x0", Some(0)),
    ("0xff", Some(255)),
    ("0XFF", Some(255)),
    ("0xAbCdEf", Some(11_259_375)),
    ("0x1fffffffffffff", Some(9_007_199_254_740_991)),
    ("0x20000000000000", None),
    ("1.0", Some(1)),
    ("1.", Some(1)),
    ("2.50", None),
    (".5", None),
    ("5e-1", None),
    ("50e-1", Some(5)),
    ("1e3", Some(1_000)),
    ("1E3", Some(1_000)),
    ("1e+3", Some(1_000)),
    ("1e-3", None),
    ("1000e-3", Some(1)),
    ("1.5e1", Some(15)),
    ("1.25e2", Some(125)),
    ("1.25e1", None),
    ("0e999", Some(0)),
];

const MORE_READINGS: &[Reading] = &[
    ("0.0", Some(0)),
    ("0e-5", Some(0)),
    (".0", Some(0)),
    (".0e7", Some(0)),
    ("12.5e1", Some(125)),
    ("900719925474099.1e1", Some(9_007_199_254_740_991)),
    ("900719925474099.2e1", None),
    ("1e15", Some(1_000_000_000_000_000)),
    ("1e16", None),
    ("0.1e1", Some(1)),
    ("100e-2", Some(1)),
    ("1e400", None),
    ("1.e2", Some(100)),
    ("010", None),
    ("08", None),
    ("09.5", None),
    ("0x", None),
    ("0xg", None),
    ("1a", None),
    ("1_0", None),
    ("3in", None),
    ("0b1", None),
    ("0o7", None),
    ("1n", None),
    ("1e", None),
    ("1e+", None),
    ("1.e", None),
    ("1.2.3", None),
];

// The tables below are NumericLiteral of ECMA-262 7.8.3, read by hand. These are a number from end to end.
const WHOLE: &[&str] = &[
    "0", "7", "1209", "1.", "0.", ".00", "1e5", "1E05", "1.e5", "1.5e5", "0e0", "0x0", "0X1f",
    "0x09afAF",
];

const FRONTS: &[Cut] = &[
    ("12 3", &[('#', "12", 0, 2, false), ('#', "3", 3, 4, false)]),
    (
        "0xe+1",
        &[
            ('#', "0xe", 0, 3, false),
            ('p', "+", 3, 4, false),
            ('#', "1", 4, 5, false),
        ],
    ),
];

// No number stands first in these.
const OTHERS: &[Cut] = &[
    (".", &[('p', ".", 0, 1, false)]),
    (".e5", &[('p', ".", 0, 1, false), ('n', "e5", 1, 3, false)]),
    ("-1", &[('p', "-", 0, 1, false), ('#', "1", 1, 2, false)]),
    ("", &[]),
    ("e5", &[('n', "e5", 0, 2, false)]),
    ("x1", &[('n', "x1", 0, 2, false)]),
];

// A number that a point ends: the next one begins there, and is no integer.
const POINTS: &[Faulty] = &[
    ("1..5", ScanFault::NumberLiteral { at: 2 }),
    ("1e5.5", ScanFault::NumberLiteral { at: 3 }),
    ("0x1.5", ScanFault::NumberLiteral { at: 3 }),
];

// A digit or a name stands directly behind the number.
const BEHIND: &[Faulty] = &[
    ("12a", ScanFault::NumberLiteral { at: 0 }),
    ("00", ScanFault::NumberLiteral { at: 0 }),
    ("010", ScanFault::NumberLiteral { at: 0 }),
    ("08", ScanFault::NumberLiteral { at: 0 }),
    ("00.5", ScanFault::NumberLiteral { at: 0 }),
    ("1e", ScanFault::NumberLiteral { at: 0 }),
    ("1e+", ScanFault::NumberLiteral { at: 0 }),
    ("1.e-", ScanFault::NumberLiteral { at: 0 }),
    ("1ee5", ScanFault::NumberLiteral { at: 0 }),
    ("1e+-5", ScanFault::NumberLiteral { at: 0 }),
    ("1e.5", ScanFault::NumberLiteral { at: 0 }),
    ("1e5e5", ScanFault::NumberLiteral { at: 0 }),
    ("0xfg", ScanFault::NumberLiteral { at: 0 }),
    ("0x", ScanFault::NumberLiteral { at: 0 }),
    ("0X", ScanFault::NumberLiteral { at: 0 }),
    ("0xg", ScanFault::NumberLiteral { at: 0 }),
    ("0x.5", ScanFault::NumberLiteral { at: 0 }),
    ("00x1", ScanFault::NumberLiteral { at: 0 }),
    ("1x1", ScanFault::NumberLiteral { at: 0 }),
];

// The value is no integer below 2^53.
const OUTSIDE: &[Faulty] = &[
    ("1.5", ScanFault::NumberLiteral { at: 0 }),
    ("0.5", ScanFault::NumberLiteral { at: 0 }),
    (".5", ScanFault::NumberLiteral { at: 0 }),
    ("1.2.3", ScanFault::NumberLiteral { at: 0 }),
    (".5.5", ScanFault::NumberLiteral { at: 0 }),
    ("12e+34", ScanFault::NumberLiteral { at: 0 }),
    ("1E-5", ScanFault::NumberLiteral { at: 0 }),
    (".5e-3", ScanFault::NumberLiteral { at: 0 }),
];

// The value of a source that is one numeric literal.
fn number_of(alloc: Global, source: &str) -> Option<i64> {
    match scanned(alloc, source).ok()?.as_slice() {
        [
            Token {
                kind: TokenKind::Number(n),
                ..
            },
        ] => Some(n.get()),
        _ => None,
    }
}

fn reads(alloc: Global, literal: &str, value: Option<i64>) -> bool {
    number_of(alloc, literal) == value
        && (value.is_some() || has_fault(alloc, literal, ScanFault::NumberLiteral { at: 0 }))
}

fn all_read(rt: &impl Abort, alloc: Global, rows: &[Reading]) {
    for (literal, value) in rows {
        assert!(rt; reads(alloc, *literal, *value), "of {literal}");
    }
}

fn is_number(alloc: Global, source: &str) -> Result<bool, ScanFault> {
    is_one(alloc, &Text::spelled(alloc, source)?, '#')
}

#[test]
fn numeric_literals(rt: HostRuntime) {
    let alloc = rt.alloc();
    all_read(&rt, alloc, READINGS);
    all_read(&rt, alloc, MORE_READINGS);
}

#[test]
fn whole_numbers(rt: HostRuntime) {
    for source in WHOLE {
        assert!(rt; holds(is_number(rt.alloc(), *source)), "of {source}");
    }
}

#[test]
fn ends_of_numbers(rt: HostRuntime) {
    let alloc = rt.alloc();
    all_cut(&rt, alloc, FRONTS);
    all_cut(&rt, alloc, OTHERS);
    all_faulty(&rt, alloc, POINTS);
    all_faulty(&rt, alloc, BEHIND);
    all_faulty(&rt, alloc, OUTSIDE);
}
