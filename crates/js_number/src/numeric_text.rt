//! ToNumber of a text (ECMA-262 9.3.1).

ghost use Rattle.std.specs.Prelude.{◌≡◌, ◌<◌, ◌^◌, ◌++◌, ◌↔◌, ℤ, Ok, Some};
ghost use Rattle.std.specs.Str.Parse.{digits_value};
ghost use Rattle.js_number.specs.Bounded.{bounded, bounded_spelled, cut};
ghost use Rattle.js_number.specs.Literal.{IsNumeric, SpellsNumber};
ghost use Rattle.js_number.specs.Profile.{IsProfile};
ghost use Rattle.js_number.specs.declared.num.Num.TheVariants as nums;
ghost use Rattle.js_number.specs.NumericText.{power_of, signed_power, exponent_of, scaled_up, scaled_down, scaled_where, with_exponent, with_fraction, is_infinity, decimal_of, hexadecimal_of, unsigned_of, integer_if, number_spelled, number_behind_blanks, number_of_text};

use crate::digits::{
    after_blanks, all_blank, all_zero, capped_value, digit_count, lone_digits, times_power,
    value_after,
};
use crate::int::{Int, LeftNumbers};
use crate::num::Num;
use flow_text::Text;

/// The number that the text spells: NaN where it is no numeric literal.
#[tactic(auto, unfolding(crate::specs::NumericText::number_of_text))]
pub fn text_to_number(t: &Text) -> Result<Num, LeftNumbers>
    ensures value { result ≡ number_of_text t.now }
    ensures grammar { (n : ℤ) → (result ≡ Ok (nums.Int n)) ↔ (IsProfile n × SpellsNumber t.now n) }
    ensures nan { (result ≡ Ok nums.Nan) ↔ (IsNumeric t.now → ⊥) }
{
    number_behind_blanks(after_blanks(t.units()))
}

#[tactic(auto, unfolding(crate::specs::NumericText::number_behind_blanks))]
fn number_behind_blanks(units: &[u16]) -> Result<Num, LeftNumbers>
    ensures { result ≡ number_behind_blanks units.now }
{
    match units {
        [] => Ok(Num::Int(Int::of(0))),
        [0x2D, rest @ ..] => number_spelled(true, decimal(rest)),
        [0x2B, rest @ ..] => number_spelled(false, decimal(rest)),
        _ => number_spelled(false, unsigned(units)),
    }
}

/// What a text spells.
#[derive(Clone, Copy)]
pub(crate) enum Spelled {
    /// It is no numeric literal.
    NoLiteral,
    /// It is one, and its value is no integer below 2^53.
    NoInteger,
    Integer(u64),
}

/// The integer, where there is one.
pub(crate) fn integer_if(n: Option<u64>) -> Spelled
    ensures { result ≡ integer_if n }
{
    match n {
        Some(n) => Spelled::Integer(n),
        None => Spelled::NoInteger,
    }
}

/// The number of this size, with its sign.
pub(crate) fn number_spelled(negative: bool, size: Spelled) -> Result<Num, LeftNumbers>
    requires { bounded_spelled size ≡ size }
    ensures { result ≡ number_spelled negative size }
{
    match size {
        Spelled::NoLiteral => Ok(Num::Nan),
        Spelled::NoInteger => Err(LeftNumbers),
        Spelled::Integer(n) if negative => Ok(Num::Int(Int::of(-(n as i64)))),
        Spelled::Integer(n) => Ok(Num::Int(Int::of(n as i64))),
    }
}

// A number without a sign.
#[tactic(auto, unfolding(crate::specs::NumericText::unsigned_of))]
fn unsigned(units: &[u16]) -> Spelled
    ensures { result ≡ bounded_spelled (unsigned_of units.now) }
{
    match units {
        [0x30, 0x78 | 0x58, digits @ ..] => hexadecimal(digits),
        _ => decimal(units),
    }
}

// Digits in base 16, and then only blanks.
#[tactic(auto, unfolding(crate::specs::NumericText::hexadecimal_of))]
fn hexadecimal(units: &[u16]) -> Spelled
    ensures { result ≡ bounded_spelled (hexadecimal_of units.now) }
{
    match lone_digits(16, units) {
        Some(digits) => integer_if(value_after(16, 0, digits)),
        None => Spelled::NoLiteral,
    }
}

// The word Infinity, and then only blanks.
#[tactic(auto, unfolding(crate::specs::NumericText::is_infinity))]
fn infinity(units: &[u16]) -> bool
    ensures { result ≡ is_infinity units.now }
{
    match units {
        [0x49, 0x6E, 0x66, 0x69, 0x6E, 0x69, 0x74, 0x79, rest @ ..] => all_blank(rest),
        _ => false,
    }
}

// A decimal number without a sign, and then only blanks.
#[tactic(auto, unfolding(crate::specs::NumericText::decimal_of))]
fn decimal(units: &[u16]) -> Spelled
    ensures { result ≡ bounded_spelled (decimal_of units.now) }
{
    if infinity(units) {
        return Spelled::NoInteger;
    }
    let (whole, rest) = units.split_at(digit_count(10, units));
    with_fraction(whole, rest)
}

#[tactic(auto, unfolding(crate::specs::NumericText::with_fraction))]
fn with_fraction(whole: &[u16], rest: &[u16]) -> Spelled
    ensures { result ≡ bounded_spelled (with_fraction whole.now rest.now) }
{
    match rest {
        [0x2E, digits @ ..] => {
            let (fraction, rest) = digits.split_at(digit_count(10, digits));
            with_exponent(whole, fraction, rest)
        }
        _ => with_exponent(whole, &[], rest),
    }
}

#[tactic(auto, unfolding(crate::specs::NumericText::with_exponent))]
fn with_exponent(whole: &[u16], fraction: &[u16], rest: &[u16]) -> Spelled
    ensures { result ≡ bounded_spelled (with_exponent whole.now fraction.now rest.now) }
{
    if whole.is_empty() && fraction.is_empty() {
        return Spelled::NoLiteral;
    }
    scaled_where(whole, fraction, exponent_of(rest))
}

#[tactic(auto, unfolding(crate::specs::NumericText::scaled_where, crate::specs::NumericText::scaled))]
fn scaled_where(whole: &[u16], fraction: &[u16], power: Option<PowerOfTen>) -> Spelled
    ensures { result ≡ bounded_spelled (scaled_where whole.now fraction.now power) }
{
    match power {
        Some(power) if power.negative => integer_if(scaled_down(whole, fraction, power.size)),
        Some(power) => integer_if(scaled_up(whole, fraction, power.size)),
        None => Spelled::NoLiteral,
    }
}

// A power of ten, and whether it divides.
#[derive(Clone, Copy)]
struct PowerOfTen {
    negative: bool,
    size: usize,
}

// An exponent or none, and then only blanks. Its size stays at the greatest `usize` where it is more.
#[tactic(auto, unfolding(crate::specs::NumericText::exponent_of))]
fn exponent_of(units: &[u16]) -> Option<PowerOfTen>
    ensures { result ≡ cut (exponent_of units.now) }
{
    match units {
        [0x65 | 0x45, rest @ ..] => signed_power(rest),
        _ if all_blank(units) => Some(PowerOfTen {
            negative: false,
            size: 0,
        }),
        _ => None,
    }
}

#[tactic(auto, unfolding(crate::specs::NumericText::signed_power))]
fn signed_power(units: &[u16]) -> Option<PowerOfTen>
    ensures { result ≡ cut (signed_power units.now) }
{
    match units {
        [0x2D, digits @ ..] => power_of(true, digits),
        [0x2B, digits @ ..] => power_of(false, digits),
        _ => power_of(false, units),
    }
}

#[tactic(auto, unfolding(crate::specs::NumericText::power_of))]
fn power_of(negative: bool, units: &[u16]) -> Option<PowerOfTen>
    ensures { result ≡ cut (power_of negative units.now) }
{
    let digits = lone_digits(10, units)?;
    Some(PowerOfTen {
        negative,
        size: capped_value(digits),
    })
}

// The digits times a power of ten: the point moves up, and only zeros may be left behind it.
#[tactic(auto, using(crate::proofs::DigitValues::product_too_large), unfolding(crate::specs::NumericText::scaled_up))]
fn scaled_up(whole: &[u16], fraction: &[u16], by: usize) -> Option<u64>
    ensures { result ≡ bounded (scaled_up whole.now fraction.now by) }
{
    let (taken, left) = fraction.split_at(by.min(fraction.len()));
    if !all_zero(left) {
        return None;
    }
    let value = joined_value(whole, taken)?;
    times_power(value, by - taken.len())
}

#[tactic(auto, using(crate::proofs::DigitValues::joined))]
fn joined_value(front: &[u16], back: &[u16]) -> Option<u64>
    ensures { result ≡ bounded (Some (digits_value 10 (front.now ++ back.now))) }
{
    let value = value_after(10, 0, front)?;
    value_after(10, value, back)
}

// The digits divided by a power of ten: the point moves down, and only zeros may be left behind it.
#[tactic(auto, unfolding(crate::specs::NumericText::scaled_down))]
fn scaled_down(whole: &[u16], fraction: &[u16], by: usize) -> Option<u64>
    ensures { result ≡ bounded (scaled_down whole.now fraction.now by) }
{
    let (kept, left) = whole.split_at(whole.len().saturating_sub(by));
    if !all_zero(left) || !all_zero(fraction) {
        return None;
    }
    value_after(10, 0, kept)
}
