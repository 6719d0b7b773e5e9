//! Comparisons (ECMA-262 9.12, 11.8.5, 11.9.3, 11.9.6).

ghost use Rattle.std.specs.Prelude.{◌≡◌};
ghost use Rattle.js_number.specs.Compare.{equal_numbers, strictly_equal, same_number, same_primitive, loosely_equal, equals_number, less_numbers, is_less};

use crate::int::{Int, LeftNumbers};
use crate::num::Num;
use crate::numeric_text::text_to_number;
use crate::primitive::{Primitive, to_number};

// `a === b` of numbers: NaN is equal to nothing.
fn equal_numbers(a: Num, b: Num) -> bool
    ensures { result ≡ equal_numbers a b }
{
    match a {
        Num::Nan => false,
        Num::Int(a) => match b {
            Num::Nan => false,
            Num::Int(b) => a == b,
        },
    }
}

// SameValue of numbers: NaN is the same as NaN.
fn same_number(a: Num, b: Num) -> bool
    ensures { result ≡ same_number a b }
{
    match a {
        Num::Nan => b == Num::Nan,
        Num::Int(a) => match b {
            Num::Nan => false,
            Num::Int(b) => a == b,
        },
    }
}

/// SameValue of `a` and `b`.
pub fn same_value(a: &Primitive, b: &Primitive) -> bool
    ensures { result ≡ same_primitive a.now b.now }
{
    match (a, b) {
        (Primitive::Num(a), Primitive::Num(b)) => same_number(*a, *b),
        _ => strict_equal(a, b),
    }
}

/// `a === b`.
pub fn strict_equal(a: &Primitive, b: &Primitive) -> bool
    ensures { result ≡ strictly_equal a.now b.now }
{
    match (a, b) {
        (Primitive::Undefined, Primitive::Undefined) | (Primitive::Null, Primitive::Null) => true,
        (Primitive::Bool(a), Primitive::Bool(b)) => *a == *b,
        (Primitive::Num(a), Primitive::Num(b)) => equal_numbers(*a, *b),
        (Primitive::Str(a), Primitive::Str(b)) => *a == *b,
        _ => false,
    }
}

/// `a == b`.
pub fn loose_equal(a: &Primitive, b: &Primitive) -> Result<bool, LeftNumbers>
    ensures { result ≡ loosely_equal a.now b.now }
{
    match (a, b) {
        (Primitive::Num(a), b) => number_equals(*a, b),
        (Primitive::Bool(a), b) => number_equals(Num::Int(Int::of_bool(*a)), b),
        (a, Primitive::Num(b)) => number_equals(*b, a),
        (a, Primitive::Bool(b)) => number_equals(Num::Int(Int::of_bool(*b)), a),
        (Primitive::Str(a), Primitive::Str(b)) => Ok(*a == *b),
        (Primitive::Str(_), _) | (_, Primitive::Str(_)) => Ok(false),
        _ => Ok(true),
    }
}

fn number_equals(a: Num, b: &Primitive) -> Result<bool, LeftNumbers>
    ensures { result ≡ equals_number a b.now }
{
    match b {
        Primitive::Undefined | Primitive::Null => Ok(false),
        Primitive::Bool(b) => Ok(equal_numbers(a, Num::Int(Int::of_bool(*b)))),
        Primitive::Num(b) => Ok(equal_numbers(a, *b)),
        Primitive::Str(text) => Ok(equal_numbers(a, text_to_number(text)?)),
    }
}

/// `a < b`, or nothing where both are compared as numbers and one of them is NaN.
pub fn less(a: &Primitive, b: &Primitive) -> Result<Option<bool>, LeftNumbers>
    ensures { result ≡ is_less a.now b.now }
{
    if let (Primitive::Str(a), Primitive::Str(b)) = (a, b) {
        return Ok(Some(*a < *b));
    }
    let (a, b) = (to_number(a)?, to_number(b)?);
    Ok(less_numbers(a, b))
}

fn less_numbers(a: Num, b: Num) -> Option<bool>
    ensures { result ≡ less_numbers a b }
{
    match a {
        Num::Nan => None,
        Num::Int(a) => match b {
            Num::Nan => None,
            Num::Int(b) => Some(a.get() < b.get()),
        },
    }
}
