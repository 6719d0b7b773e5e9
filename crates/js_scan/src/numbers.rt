//! The extent of a number.

ghost use Rattle.std.specs.Prelude.{◌≡◌, ◌+◌, ◌≤◌, true, length};
ghost use Rattle.std.specs.Char.{is_digit};
ghost use Rattle.js_number.specs.NumericText.{digit_count};
ghost use Rattle.js_scan.specs.NumberReading.{whole_length, fraction_length, power_length, signed_power_length, exponent_length, mantissa_length, decimal_length, hexadecimal_length};
ghost use Rattle.js_scan.specs.Found.{begins_number, FindsNumber};

/// How many units at the front are a number.
pub(crate) fn number_length(units: &[u16]) -> usize
    requires { begins_number units.now ≡ true }
    ensures { FindsNumber units.now result }
{
    match units {
        [0x30, 0x78 | 0x58, rest @ ..] => hexadecimal_length(rest),
        _ => decimal_length(units),
    }
}

// `0x` and the digits behind it, or `0` alone where there is none.
#[tactic(auto, unfolding(crate::specs::NumberReading::hexadecimal_length))]
fn hexadecimal_length(rest: &[u16]) -> usize
    ensures { result ≡ hexadecimal_length rest.now }
{
    match hexadecimal_digits(rest) {
        0 => 1,
        count => 2 + count,
    }
}

#[tactic(auto, unfolding(crate::specs::NumberReading::decimal_length))]
fn decimal_length(units: &[u16]) -> usize
    ensures { result ≡ decimal_length units.now }
{
    let mantissa = mantissa_length(units);
    mantissa + exponent_length(&units[mantissa..])
}

#[tactic(auto, unfolding(crate::specs::NumberReading::mantissa_length))]
fn mantissa_length(units: &[u16]) -> usize
    ensures is { result ≡ mantissa_length units.now }
    ensures within { result ≤ length units.now }
{
    let whole = whole_length(units);
    whole + fraction_length(&units[whole..])
}

// The digits before the point: a first `0` stands alone.
#[tactic(auto, unfolding(crate::specs::NumberReading::whole_length))]
fn whole_length(units: &[u16]) -> usize
    ensures is { result ≡ whole_length units.now }
    ensures within { result ≤ length units.now }
{
    match units {
        [0x30, ..] => 1,
        _ => decimal_digits(units),
    }
}

// The point and the digits behind it.
#[tactic(auto, unfolding(crate::specs::NumberReading::fraction_length))]
fn fraction_length(units: &[u16]) -> usize
    ensures is { result ≡ fraction_length units.now }
    ensures within { result ≤ length units.now }
{
    match units {
        [0x2E, rest @ ..] => 1 + decimal_digits(rest),
        _ => 0,
    }
}

// An exponent, which has a digit at least.
#[tactic(auto, unfolding(crate::specs::NumberReading::exponent_length))]
fn exponent_length(units: &[u16]) -> usize
    ensures is { result ≡ exponent_length units.now }
    ensures within { result ≤ length units.now }
{
    match units {
        [0x65 | 0x45, rest @ ..] => signed_power_length(rest),
        _ => 0,
    }
}

// An exponent by what stands behind its letter.
#[tactic(auto, unfolding(crate::specs::NumberReading::signed_power_length))]
fn signed_power_length(units: &[u16]) -> usize
    ensures is { result ≡ signed_power_length units.now }
    ensures within { result ≤ 1 + length units.now }
{
    match units {
        [0x2B | 0x2D, rest @ ..] => power_length(2, rest),
        _ => power_length(1, units),
    }
}

// An exponent by its digits, with so many units in front of them.
#[tactic(auto, unfolding(crate::specs::NumberReading::power_length))]
fn power_length(front: usize, units: &[u16]) -> usize
    requires { front ≤ 2 }
    ensures is { result ≡ power_length front units.now }
    ensures within { result ≤ front + length units.now }
{
    match decimal_digits(units) {
        0 => 0,
        count => front + count,
    }
}

// How many decimal digits stand first.
fn decimal_digits(units: &[u16]) -> usize
    ensures count { result ≡ digit_count 10 units.now }
    ensures within { result ≤ length units.now }
{
    units
        .iter()
        .take_while(|unit| is_decimal_digit(**unit))
        .count()
}

// How many hexadecimal digits stand first.
fn hexadecimal_digits(units: &[u16]) -> usize
    ensures count { result ≡ digit_count 16 units.now }
    ensures within { result ≤ length units.now }
{
    units
        .iter()
        .take_while(|unit| is_hexadecimal_digit(**unit))
        .count()
}

fn is_decimal_digit(unit: u16) -> bool
    ensures { result ≡ is_digit unit 10 }
{
    matches!(unit, 0x30..=0x39)
}

fn is_hexadecimal_digit(unit: u16) -> bool
    ensures { result ≡ is_digit unit 16 }
{
    matches!(unit, 0x30..=0x39 | 0x41..=0x46 | 0x61..=0x66)
}
