//! Arithmetic (ECMA-262 11.4.7, 11.5, 11.6).

ghost use Rattle.std.specs.Prelude.{◌≡◌, ◌↔◌, ℤ, Ok};
ghost use Rattle.js_number.specs.declared.num.Num.TheVariants as nums;
ghost use Rattle.js_number.specs.Profile.{IsProfile};
ghost use Rattle.js_number.specs.Arithmetic.{IsQuotient, quotient, quotient_of, remainder, added, subtracted, multiplied, divided, remainder_of, negated};

use crate::int::{Int, LeftNumbers, number, number_or_nan, some_number};
use crate::num::Num;

/// `a + b` of two numbers.
pub fn add(a: Num, b: Num) -> Result<Num, LeftNumbers>
    ensures { result ≡ added a b }
{
    match a {
        Num::Nan => Ok(Num::Nan),
        Num::Int(a) => match b {
            Num::Nan => Ok(Num::Nan),
            Num::Int(b) => number(a.get() + b.get()),
        },
    }
}

/// `a - b`.
pub fn sub(a: Num, b: Num) -> Result<Num, LeftNumbers>
    ensures { result ≡ subtracted a b }
{
    match a {
        Num::Nan => Ok(Num::Nan),
        Num::Int(a) => match b {
            Num::Nan => Ok(Num::Nan),
            Num::Int(b) => number(a.get() - b.get()),
        },
    }
}

/// `a * b`.
pub fn mul(a: Num, b: Num) -> Result<Num, LeftNumbers>
    ensures { result ≡ multiplied a b }
{
    match a {
        Num::Nan => Ok(Num::Nan),
        Num::Int(a) => match b {
            Num::Nan => Ok(Num::Nan),
            Num::Int(b) => match a.get().checked_mul(b.get()) {
                Some(product) => number(product),
                None => Err(LeftNumbers),
            },
        },
    }
}

/// `a / b`.
pub fn div(a: Num, b: Num) -> Result<Num, LeftNumbers>
    ensures value { result ≡ divided a b }
    ensures exact { (m k n : ℤ) → a ≡ nums.Int m → b ≡ nums.Int k → (result ≡ Ok (nums.Int n)) ↔ (IsProfile n × IsQuotient m k n) }
{
    match a {
        Num::Nan => Ok(Num::Nan),
        Num::Int(a) => match b {
            Num::Nan => Ok(Num::Nan),
            Num::Int(b) => integer_quotient(a, b),
        },
    }
}

/// `a % b`.
pub fn rem(a: Num, b: Num) -> Result<Num, LeftNumbers>
    ensures { result ≡ remainder_of a b }
{
    match a {
        Num::Nan => Ok(Num::Nan),
        Num::Int(a) => match b {
            Num::Nan => Ok(Num::Nan),
            Num::Int(b) => number_or_nan(checked_remainder(a, b)),
        },
    }
}

/// `-a`. The negative of zero is zero.
pub fn negate(a: Num) -> Num
    ensures { result ≡ negated a }
{
    match a {
        Num::Nan => Num::Nan,
        Num::Int(a) => Num::Int(Int::of(-a.get())),
    }
}

// The quotient of two integers: NaN of 0 by 0.
fn integer_quotient(a: Int, b: Int) -> Result<Num, LeftNumbers>
    ensures { result ≡ quotient_of a b }
{
    if a.get() == 0 && b.get() == 0 {
        Ok(Num::Nan)
    } else {
        some_number(exact_quotient(a, b))
    }
}

// The quotient, where the division leaves no remainder.
fn exact_quotient(a: Int, b: Int) -> Option<i64>
    ensures { result ≡ quotient a b }
{
    match checked_remainder(a, b) {
        Some(0) => a.get().checked_div(b.get()),
        _ => None,
    }
}

// The remainder, with the dividend's sign.
fn checked_remainder(a: Int, b: Int) -> Option<i64>
    ensures { result ≡ remainder a b }
{
    a.get().checked_rem(b.get())
}
