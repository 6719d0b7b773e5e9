use crate::told::holds;
use flow_text::{OutOfMemory, Text};
use js_number::*;
use std::alloc::Global;
use std::process::Abort;
use std::test::*;

const LAST: i64 = 9_007_199_254_740_991;

// Two numbers, and their sum, difference, product, quotient and remainder: the operations of `node` on BigInt values,
// kept where the result is below 2^53 and a division leaves no rest.
const ARITHMETIC: &[(i64, i64, &[Option<i64>])] = &[
    (7, 3, &[Some(10), Some(4), Some(21), None, Some(1)]),
    (-7, 3, &[Some(-4), Some(-10), Some(-21), None, Some(-1)]),
    (7, -3, &[Some(4), Some(10), Some(-21), None, Some(1)]),
    (-7, -3, &[Some(-10), Some(-4), Some(21), None, Some(-1)]),
    (-6, -3, &[Some(-9), Some(-3), Some(18), Some(2), Some(0)]),
    (0, -5, &[Some(-5), Some(5), Some(0), Some(0), Some(0)]),
    (5, 0, &[Some(5), Some(5), Some(0), None, None]),
    (0, 0, &[Some(0), Some(0), Some(0), None, None]),
    (
        9007199254740991,
        1,
        &[
            None,
            Some(9007199254740990),
            Some(9007199254740991),
            Some(9007199254740991),
            Some(0),
        ],
    ),
    (
        -9007199254740991,
        1,
        &[
            Some(-9007199254740990),
            None,
            Some(-9007199254740991),
            Some(-9007199254740991),
            Some(0),
        ],
    ),
    (
        9007199254740991,
        -9007199254740991,
        &[Some(0), None, None, Some(-1), Some(0)],
    ),
    (
        94906265,
        94906266,
        &[
            Some(189812531),
            Some(-1),
            Some(9007199231156490),
            None,
            Some(94906265),
        ],
    ),
    (
        94906266,
        94906267,
        &[Some(189812533), Some(-1), None, None, Some(94906266)],
    ),
    (
        -9007199254740991,
        2,
        &[Some(-9007199254740989), None, None, None, Some(-1)],
    ),
    (
        9007199254740990,
        2,
        &[
            None,
            Some(9007199254740988),
            None,
            Some(4503599627370495),
            Some(0),
        ],
    ),
];

// `node -e 'console.log(a << b, a >> b, a >>> b, a & b, a | b, a ^ b, ~a)'`.
const BITS: &[(i64, i64, [i64; 7])] = &[
    (1, 31, [-2147483648, 0, 0, 1, 31, 30, -2]),
    (-1, 0, [-1, -1, 4294967295, 0, -1, -1, 0]),
    (5, 33, [10, 2, 2, 1, 37, 36, -6]),
    (-7, 1, [-14, -4, 2147483644, 1, -7, -8, 6]),
    (1, -1, [-2147483648, 0, 0, 1, -1, -2, -2]),
    (4294967295, 4, [-16, -1, 268435455, 4, -1, -5, 0]),
    (
        2147483648,
        0,
        [
            -2147483648,
            -2147483648,
            2147483648,
            0,
            -2147483648,
            -2147483648,
            2147483647,
        ],
    ),
    (
        -2147483649,
        3,
        [
            -8,
            268435455,
            268435455,
            3,
            2147483647,
            2147483644,
            -2147483648,
        ],
    ),
    (9007199254740991, 5, [-32, -1, 134217727, 5, -1, -6, 0]),
    (-9007199254740991, 37, [32, 0, 0, 1, 37, 36, -2]),
    (61680, 4080, [-252706816, 0, 0, 240, 65520, 65280, -61681]),
    (-1, 255, [-2147483648, -1, 1, 255, -1, -256, 0]),
    (
        12345678901,
        7,
        [
            -301065600, -4212680, 29341752, 5, -539222985, -539222990, 539222986,
        ],
    ),
];

// A text, and the number that it spells.
type Reading = (&'static str, Option<i64>);

// The rows of these six tables are `Number(text)` of `node`, kept where the exact value of the digits, by BigInt,
// is an integer below 2^53. `0b1` and `0o7` came with ECMAScript 2015, and are no numbers here.
const BLANKS: &[Reading] = &[
    ("", Some(0)),
    (" ", Some(0)),
    ("\t\n\u{B}\u{C}\r ", Some(0)),
    ("\u{A0}\u{2028}\u{2029}\u{FEFF}", Some(0)),
    (
        "\u{1680}\u{2000}\u{2001}\u{2002}\u{2003}\u{2004}\u{2005}\u{2006}\u{2007}\u{2008}\u{2009}\u{200A}\u{202F}\u{205F}\u{3000}",
        Some(0),
    ),
    ("\u{180E}", None),
    ("\u{200B}", None),
    ("\u{85}", None),
    ("7", Some(7)),
    (" 7", Some(7)),
    ("7 ", Some(7)),
    ("\u{FEFF}7\u{2028}", Some(7)),
    ("\u{A0}-7\u{3000}", Some(-7)),
    ("7\u{180E}", None),
    ("7 7", None),
];

const SIGNS_AND_POINTS: &[Reading] = &[
    ("+7", Some(7)),
    ("-7", Some(-7)),
    ("+ 7", None),
    ("- 7", None),
    ("--1", None),
    ("+-1", None),
    ("0", Some(0)),
    ("-0", Some(0)),
    ("+0", Some(0)),
    ("00", Some(0)),
    ("007", Some(7)),
    ("0.0", Some(0)),
    ("-0.0", Some(0)),
    ("0.", Some(0)),
    (".0", Some(0)),
    (".", None),
    ("+.", None),
    ("-.", None),
    ("5.", Some(5)),
    (".5", None),
    (".50", None),
    ("5.0", Some(5)),
    ("5.00 ", Some(5)),
    ("1.5", None),
    ("1.5e1", Some(15)),
    ("1.5E1", Some(15)),
    ("15e-1", None),
    ("150e-1", Some(15)),
    ("100e-2", Some(1)),
    ("100e-3", None),
];

const EXPONENTS: &[Reading] = &[
    ("1e0", Some(1)),
    ("1e1", Some(10)),
    ("1e+2", Some(100)),
    ("1e-1", None),
    ("1e", None),
    ("1e+", None),
    ("1e-", None),
    ("e5", None),
    (".e1", None),
    ("1e1.", None),
    ("1e1.5", None),
    ("1 e1", None),
    ("1e 1", None),
    ("1e1 ", Some(10)),
    ("1ee1", None),
    ("1.2.3", None),
    ("1..", None),
    ("0e999999999", Some(0)),
    ("-0e999999999999999999999999", Some(0)),
    ("0e-999999999999999999999999", Some(0)),
    ("1e999999999", None),
    ("1e-999999999", None),
    ("1e99999999999999999999999999", None),
    ("1e-99999999999999999999999999", None),
];

const LIMITS: &[Reading] = &[
    ("1e15", Some(1000000000000000)),
    ("9e15", Some(9000000000000000)),
    ("1e16", None),
    ("9007199254740991", Some(9007199254740991)),
    ("-9007199254740991", Some(-9007199254740991)),
    ("9007199254740992", None),
    ("-9007199254740992", None),
    ("9007199254740993", None),
    ("9007199254740991.0", Some(9007199254740991)),
    ("9007199254740990.5", None),
    ("90071992547409910e-1", Some(9007199254740991)),
    ("900719925474099.1e1", Some(9007199254740991)),
    ("0.9007199254740991e16", Some(9007199254740991)),
    ("0.00000000000000000000000000000000000000012e41", Some(12)),
    ("12000000000000000000000000000000000000000e-39", Some(12)),
    ("12000000000000000000000000000000000000000e-40", None),
    ("1.00000000000000000000000000000000000000000", Some(1)),
    ("1.00000000000000000000000000000000000000001", None),
    (
        "0000000000000000000000000000000000000000000000042",
        Some(42),
    ),
];

const HEXADECIMALS: &[Reading] = &[
    ("0x0", Some(0)),
    ("0X0", Some(0)),
    ("0x10", Some(16)),
    ("0XfF", Some(255)),
    ("0xABCDEF", Some(11259375)),
    ("0xabcdef", Some(11259375)),
    ("0x", None),
    ("0X", None),
    ("0xg", None),
    ("0x1g", None),
    ("+0x1", None),
    ("-0x1", None),
    (" 0x1 ", Some(1)),
    ("0x 1", None),
    ("0x1.", None),
    ("0x1e1", Some(481)),
    ("0x1p1", None),
    ("00x1", None),
    ("0x1FFFFFFFFFFFFF", Some(9007199254740991)),
    ("0x20000000000000", None),
    ("0x00000000000000000000001", Some(1)),
];

const OTHER_KINDS: &[Reading] = &[
    ("1x1", None),
    ("x1", None),
    ("0b1", None),
    ("0o7", None),
    ("1_0", None),
    ("1,0", None),
    ("1n", None),
    ("Infinity", None),
    ("+Infinity", None),
    ("-Infinity", None),
    ("infinity", None),
    ("Infinityx", None),
    ("NaN", None),
    ("undefined", None),
    ("null", None),
    ("true", None),
    ("10px", None),
    ("\u{661}", None),
    ("\u{FF11}", None),
    ("1\u{0}", None),
    ("1e\u{661}", None),
];

// 100,000 units between two texts, and the number. The exact values by hand: `Number` reads these so too.
const LONG_TEXTS: &[(&str, u16, &str, Option<i64>)] = &[
    ("", 0x30, "17", Some(17)),
    ("-", 0x30, ".50e1", Some(-5)),
    ("4", 0x30, "e-100000", Some(4)),
    ("4", 0x30, "e-100001", None),
    ("4", 0x30, "", None),
    (".", 0x30, "25e100002", Some(25)),
    (".", 0x30, "25e100001", None),
    ("3.", 0x30, "", Some(3)),
    ("3.", 0x30, "1", None),
    ("0e", 0x39, "", Some(0)),
    ("1e", 0x39, "", None),
    ("1e-", 0x39, "", None),
    ("12e", 0x30, "1", Some(120)),
    ("0x", 0x30, "fF", Some(255)),
    ("0x", 0x46, "", None),
    ("", 0x2029, "6", Some(6)),
    ("6", 0xA0, "", Some(6)),
    ("", 0x39, "x", None),
];

// Two values, whether they are the same, equal and in order, and their sum. A text stands behind a quote.
type Pair = (
    &'static str,
    &'static str,
    (bool, Option<bool>, Option<bool>),
    Option<&'static str>,
);

// `node -e 'console.log(a === b, a == b, a < b, a + b)'`, with None where an operand of the order is NaN, and where a number leaves.
const PAIRS: &[Pair] = &[
    (
        "undefined",
        "undefined",
        (true, Some(true), None),
        Some("NaN"),
    ),
    ("undefined", "null", (false, Some(true), None), Some("NaN")),
    ("null", "null", (true, Some(true), Some(false)), Some("0")),
    ("null", "0", (false, Some(false), Some(false)), Some("0")),
    ("0", "null", (false, Some(false), Some(false)), Some("0")),
    (
        "null",
        "false",
        (false, Some(false), Some(false)),
        Some("0"),
    ),
    ("undefined", "0", (false, Some(false), None), Some("NaN")),
    ("undefined", "true", (false, Some(false), None), Some("NaN")),
    ("true", "true", (true, Some(true), Some(false)), Some("2")),
    (
        "true",
        "false",
        (false, Some(false), Some(false)),
        Some("1"),
    ),
    ("true", "1", (false, Some(true), Some(false)), Some("2")),
    ("1", "true", (false, Some(true), Some(false)), Some("2")),
    ("false", "0", (false, Some(true), Some(false)), Some("0")),
    (
        "false",
        "'",
        (false, Some(true), Some(false)),
        Some("'false"),
    ),
    (
        "'",
        "false",
        (false, Some(true), Some(false)),
        Some("'false"),
    ),
    ("'", "0", (false, Some(true), Some(false)), Some("'0")),
    ("0", "'", (false, Some(true), Some(false)), Some("'0")),
    ("' 1 ", "1", (false, Some(true), Some(false)), Some("' 1 1")),
    ("1", "' 1 ", (false, Some(true), Some(false)), Some("'1 1 ")),
    (
        "true",
        "' 1 ",
        (false, Some(true), Some(false)),
        Some("'true 1 "),
    ),
    (
        "' 1 ",
        "true",
        (false, Some(true), Some(false)),
        Some("' 1 true"),
    ),
];

const MORE_PAIRS: &[Pair] = &[
    ("'B", "1", (false, Some(false), None), Some("'B1")),
    ("true", "'b", (false, Some(false), None), Some("'trueb")),
    (
        "'",
        "null",
        (false, Some(false), Some(false)),
        Some("'null"),
    ),
    (
        "undefined",
        "'",
        (false, Some(false), None),
        Some("'undefined"),
    ),
    ("'ab", "'b", (false, Some(false), Some(true)), Some("'abb")),
    ("'b", "'ab", (false, Some(false), Some(false)), Some("'bab")),
    ("'B", "'b", (false, Some(false), Some(true)), Some("'Bb")),
    ("'ab", "'ab", (true, Some(true), Some(false)), Some("'abab")),
    ("'", "'B", (false, Some(false), Some(true)), Some("'B")),
    ("'-5", "-5", (false, Some(true), Some(false)), Some("'-5-5")),
    ("-5", "'-5", (false, Some(true), Some(false)), Some("'-5-5")),
    ("-5", "0", (false, Some(false), Some(true)), Some("-5")),
    ("0", "-5", (false, Some(false), Some(false)), Some("-5")),
    ("0", "0", (true, Some(true), Some(false)), Some("0")),
    (
        "'-5",
        "' 1 ",
        (false, Some(false), Some(false)),
        Some("'-5 1 "),
    ),
    ("null", "1", (false, Some(false), Some(true)), Some("1")),
    ("1", "1", (true, Some(true), Some(false)), Some("2")),
    ("null", "true", (false, Some(false), Some(true)), Some("1")),
    ("-5", "-5", (true, Some(true), Some(false)), Some("-10")),
    (
        "'b",
        "undefined",
        (false, Some(false), None),
        Some("'bundefined"),
    ),
    ("'", "'", (true, Some(true), Some(false)), Some("'")),
];

// A value, and as a boolean, a number and a text.
const CONVERSIONS: &[(&str, bool, Option<i64>, &str)] = &[
    ("undefined", false, None, "undefined"),
    ("null", false, Some(0), "null"),
    ("true", true, Some(1), "true"),
    ("false", false, Some(0), "false"),
    ("0", false, Some(0), "0"),
    ("3", true, Some(3), "3"),
    ("-5", true, Some(-5), "-5"),
    ("-9007199254740991", true, Some(-LAST), "-9007199254740991"),
    ("'", false, Some(0), ""),
    ("'0", true, Some(0), "0"),
    ("' x", true, None, " x"),
];

// The integer that an answer is: NaN is none, and neither is one that leaves.
fn value(answer: Result<Num, LeftNumbers>) -> Option<i64> {
    match answer {
        Ok(n) => {
            if n == Num::Nan {
                None
            } else {
                Some(n.to_integer())
            }
        }
        Err(LeftNumbers) => None,
    }
}

// An integer is copied where it is used again, and made a number at each use.
fn arithmetic(a: Int, b: Int) -> [Option<i64>; 5] {
    [
        value(add(Num::Int(a), Num::Int(b))),
        value(sub(Num::Int(a), Num::Int(b))),
        value(mul(Num::Int(a), Num::Int(b))),
        value(div(Num::Int(a), Num::Int(b))),
        value(rem(Num::Int(a), Num::Int(b))),
    ]
}

fn is_arithmetic(a: i64, b: i64, wanted: &[Option<i64>]) -> bool {
    match (Int::new(a), Int::new(b)) {
        (Some(m), Some(n)) => {
            arithmetic(m, n).as_slice() == wanted && negate(Num::Int(m)).to_integer() == -a
        }
        _ => false,
    }
}

#[test]
fn arithmetic_of_two(rt: HostRuntime) {
    for (a, b, wanted) in ARITHMETIC {
        assert!(rt; is_arithmetic(*a, *b, *wanted), "{a} and {b}");
    }
    assert!(rt; Int::new(LAST + 1).is_none() && Int::new(-LAST - 1).is_none());
}

fn bits(a: Int, b: Int) -> [i64; 7] {
    [
        shift_left(Num::Int(a), Num::Int(b)).to_integer(),
        shift_right(Num::Int(a), Num::Int(b)).to_integer(),
        shift_zero(Num::Int(a), Num::Int(b)).to_integer(),
        bit_and(Num::Int(a), Num::Int(b)).to_integer(),
        bit_or(Num::Int(a), Num::Int(b)).to_integer(),
        bit_xor(Num::Int(a), Num::Int(b)).to_integer(),
        bit_not(Num::Int(a)).to_integer(),
    ]
}

fn zero(a: Int) -> Num {
    bit_xor(Num::Int(a), Num::Int(a))
}

fn has_both_integers(a: Int) -> bool {
    i64::from(to_int32(Num::Int(a))) == bit_or(Num::Int(a), zero(a)).to_integer()
        && i64::from(to_uint32(Num::Int(a))) == shift_zero(Num::Int(a), zero(a)).to_integer()
}

fn has_bits(a: i64, b: i64, wanted: &[i64; 7]) -> bool {
    match (Int::new(a), Int::new(b)) {
        (Some(a), Some(b)) => bits(a, b) == *wanted && has_both_integers(a),
        _ => false,
    }
}

#[test]
fn bits_of_two(rt: HostRuntime) {
    for (a, b, wanted) in BITS {
        assert!(rt; has_bits(*a, *b, wanted), "{a} and {b}");
    }
}

fn reads(alloc: Global, spelling: &str, wanted: Option<i64>) -> bool {
    match Text::spelled(alloc, spelling) {
        Ok(text) => value(text_to_number(&text)) == wanted,
        Err(OutOfMemory) => false,
    }
}

fn all_read(rt: &impl Abort, alloc: Global, rows: &[Reading]) {
    for (spelling, wanted) in rows {
        assert!(rt; reads(alloc, *spelling, *wanted), "{spelling}");
    }
}

#[test]
fn numbers_of_texts(rt: HostRuntime) {
    let alloc = rt.alloc();
    all_read(&rt, alloc, BLANKS);
    all_read(&rt, alloc, SIGNS_AND_POINTS);
    all_read(&rt, alloc, EXPONENTS);
    all_read(&rt, alloc, LIMITS);
    all_read(&rt, alloc, HEXADECIMALS);
    all_read(&rt, alloc, OTHER_KINDS);
}

// So many equal units more.
fn push_many(text: &mut Text, count: u32, unit: u16) -> Result<(), OutOfMemory> {
    for _ in 0..count {
        text.push(unit)?;
    }
    Ok(())
}

// A long text of one unit, between two others.
fn long_text(alloc: Global, front: &str, unit: u16, back: &str) -> Result<Text, OutOfMemory> {
    let back = Text::spelled(alloc, back)?;
    let mut text = Text::spelled(alloc, front)?;
    push_many(&mut text, 100_000, unit)?;
    text.push_units(back.units())?;
    Ok(text)
}

fn long_reads(alloc: Global, front: &str, unit: u16, back: &str, wanted: Option<i64>) -> bool {
    match long_text(alloc, front, unit, back) {
        Ok(text) => value(text_to_number(&text)) == wanted,
        Err(OutOfMemory) => false,
    }
}

#[test]
fn numbers_of_long_texts(rt: HostRuntime) {
    for (front, unit, back, wanted) in LONG_TEXTS {
        assert!(rt;
            long_reads(rt.alloc(), *front, *unit, *back, *wanted),
            "{front} and {back}"
        );
    }
}

// A primitive value by its spelling: a text stands behind a quote.
fn prim(alloc: Global, spelling: &str) -> Result<Primitive, OutOfMemory> {
    match spelling {
        "undefined" => Ok(Primitive::Undefined),
        "null" => Ok(Primitive::Null),
        "true" => Ok(Primitive::Bool(true)),
        "false" => Ok(Primitive::Bool(false)),
        _ => text_or_number(alloc, spelling),
    }
}

fn text_or_number(alloc: Global, spelling: &str) -> Result<Primitive, OutOfMemory> {
    match spelling.strip_prefix('\'') {
        Some(text) => Ok(Primitive::Str(Text::spelled(alloc, text)?)),
        None => number_or_undefined(&Text::spelled(alloc, spelling)?),
    }
}

fn number_or_undefined(text: &Text) -> Result<Primitive, OutOfMemory> {
    match text_to_number(text) {
        Ok(n) => Ok(Primitive::Num(n)),
        Err(LeftNumbers) => Ok(Primitive::Undefined),
    }
}

fn compared(x: &Primitive, y: &Primitive) -> (bool, Option<bool>, Option<bool>) {
    let less = match less(x, y) {
        Ok(less) => less,
        Err(LeftNumbers) => None,
    };
    (strict_equal(x, y), loose_equal(x, y).ok(), less)
}

// Whether the sum is the value that this spells; with none, the operands leave the numbers.
fn is_sum(alloc: Global, x: &Primitive, y: &Primitive, wanted: Option<&str>) -> bool {
    let sum = add_prims(alloc, x, y);
    match wanted {
        Some(wanted) => is_prim(alloc, sum, wanted),
        None => sum == Err(AddFault::LeftNumbers),
    }
}

fn is_prim(alloc: Global, found: Result<Primitive, AddFault>, wanted: &str) -> bool {
    match (found, prim(alloc, wanted)) {
        (Ok(found), Ok(wanted)) => found == wanted,
        _ => false,
    }
}

fn is_pair(alloc: Global, row: &Pair) -> Result<bool, OutOfMemory> {
    let x = prim(alloc, row.0)?;
    let y = prim(alloc, row.1)?;
    Ok(compared(&x, &y) == row.2 && is_sum(alloc, &x, &y, row.3))
}

fn all_pairs(rt: &impl Abort, alloc: Global, rows: &[Pair]) {
    for row in rows {
        assert!(rt; holds(is_pair(alloc, row)), "{} and {}", row.0, row.1);
    }
}

#[test]
fn pairs_of_primitives(rt: HostRuntime) {
    all_pairs(&rt, rt.alloc(), PAIRS);
    all_pairs(&rt, rt.alloc(), MORE_PAIRS);
}

fn is_spelled(alloc: Global, v: &Primitive, spelling: &str) -> Result<bool, OutOfMemory> {
    Ok(to_text(alloc, v)? == Text::spelled(alloc, spelling)?)
}

fn is_copied(alloc: Global, v: &Primitive) -> Result<bool, OutOfMemory> {
    Ok(v.copy(alloc)? == *v)
}

fn converts(
    alloc: Global,
    spelling: &str,
    truth: bool,
    number: Option<i64>,
    text: &str,
) -> Result<bool, OutOfMemory> {
    let v = prim(alloc, spelling)?;
    let texts = is_spelled(alloc, &v, text)? && is_copied(alloc, &v)?;
    Ok(texts && to_boolean(&v) == truth && value(to_number(&v)) == number)
}

fn is_number_spelled(alloc: Global, n: i64, spelling: &str) -> Result<bool, OutOfMemory> {
    match Int::new(n) {
        Some(n) => Ok(number_to_text(alloc, Num::Int(n))? == Text::spelled(alloc, spelling)?),
        None => Ok(false),
    }
}

#[test]
fn conversions(rt: HostRuntime) {
    let alloc = rt.alloc();
    for (a, truth, number, text) in CONVERSIONS {
        assert!(rt; holds(converts(alloc, *a, *truth, *number, *text)), "{a}");
    }
    assert!(rt; holds(is_number_spelled(alloc, -5, "-5")));
}

// A text of so many units.
fn text_of(alloc: Global, units: u32) -> Result<Primitive, OutOfMemory> {
    let mut text = Text::new(alloc);
    push_many(&mut text, units, 0x61)?;
    Ok(Primitive::Str(text))
}

fn has_length(v: &Primitive, len: usize) -> bool {
    match v {
        Primitive::Str(text) => text.len() == len,
        _ => false,
    }
}

fn is_too_long(alloc: Global, x: &Primitive, y: &Primitive) -> bool {
    add_prims(alloc, x, y) == Err(AddFault::LeftString)
}

// Whether the two together are as long as a string may be, and with the second one more too long.
fn is_longest(alloc: Global, short: &Primitive, one: &Primitive) -> bool {
    match add_prims(alloc, short, one) {
        Ok(longest) => {
            has_length(&longest, 1_048_576)
                && longest != *short
                && is_too_long(alloc, &longest, one)
                && is_too_long(alloc, one, &longest)
        }
        Err(_) => false,
    }
}

// Two texts of 1,048,576 and 1 units together are longer than a string may be.
#[test]
fn the_longest_string(rt: HostRuntime) -> Result<(), Fail> {
    let one = prim(rt.alloc(), "'b")?;
    let short = text_of(rt.alloc(), 1_048_575)?;
    assert!(rt; is_longest(rt.alloc(), &short, &one));
    Ok(())
}
