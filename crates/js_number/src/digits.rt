//! Digits and blanks in a list of units.

ghost use Rattle.std.specs.Prelude.{◌≡◌, ◌<◌, ◌≤◌, ◌*◌, ◌^◌, Some, length};
ghost use Rattle.std.specs.List.{list_all};
ghost use Rattle.std.specs.Option.{option_map};
ghost use Rattle.std.specs.Char.{digit_value};
ghost use Rattle.std.specs.Str.Parse.{digits_value, digits_value_after};
ghost use Rattle.js_number.specs.Literal.{is_blank};
ghost use Rattle.js_number.specs.NumericText.{digit_count, after_blanks, lone_digits, all_zero};
ghost use Rattle.js_number.specs.Bounded.{bounded, capped};

// First WhiteSpace, and then LineTerminator.
const BLANKS: [u16; 25] = [
    0x09, 0x0B, 0x0C, 0xFEFF, 0x20, 0xA0, 0x1680, 0x2000, 0x2001, 0x2002, 0x2003, 0x2004, 0x2005,
    0x2006, 0x2007, 0x2008, 0x2009, 0x200A, 0x202F, 0x205F, 0x3000, 0x0A, 0x0D, 0x2028, 0x2029,
];

const LIMIT: u64 = 1 << 53;

/// Whether the unit is WhiteSpace or a LineTerminator.
pub(crate) fn blank(unit: u16) -> bool
    ensures { result ≡ is_blank unit }
{
    BLANKS.contains(&unit)
}

/// What follows the blanks that stand first.
pub(crate) fn after_blanks(units: &[u16]) -> &[u16]
    ensures { result.now ≡ after_blanks units.now }
{
    let mut rest = units;
    while let [first, others @ ..] = rest {
        if !blank(*first) {
            break;
        }
        rest = others;
    }
    rest
}

pub(crate) fn all_blank(units: &[u16]) -> bool
    ensures { result ≡ list_all is_blank units.now }
{
    units.iter().all(|unit| blank(*unit))
}

pub(crate) fn all_zero(digits: &[u16]) -> bool
    ensures { result ≡ all_zero digits.now }
{
    digits.iter().all(|digit| *digit == 0x30)
}

/// The value of a digit or a letter, and 36 for any other unit.
pub(crate) fn digit_of(unit: u16) -> u16
    ensures { result ≡ digit_value unit }
{
    match unit {
        0x30..=0x39 => unit - 0x30,
        0x41..=0x5A => unit - 0x37,
        0x61..=0x7A => unit - 0x57,
        _ => 36,
    }
}

/// How many digits stand first.
pub(crate) fn digit_count(radix: u16, units: &[u16]) -> usize
    ensures count { result ≡ digit_count radix units.now }
    ensures within { result ≤ length units.now }
{
    for (i, unit) in units.iter().enumerate() {
        if radix <= digit_of(*unit) {
            return i;
        }
    }
    units.len()
}

/// The digits, where nothing but blanks follows one digit or more.
#[tactic(auto, unfolding(crate::specs::NumericText::lone_digits))]
pub(crate) fn lone_digits(radix: u16, units: &[u16]) -> Option<&[u16]>
    ensures { option_map (λ ds. ds.now) result ≡ lone_digits radix units.now }
{
    let (digits, rest) = units.split_at(digit_count(radix, units));
    if digits.is_empty() || !all_blank(rest) {
        None
    } else {
        Some(digits)
    }
}

/// The number that the digits write behind those of `start`, where it is below 2^53.
pub(crate) fn value_after(radix: u16, start: u64, digits: &[u16]) -> Option<u64>
    requires base { (0 < radix) × (radix ≤ 36) }
    requires small { start < 2 ^ 53 }
    ensures { result ≡ bounded (Some (digits_value_after radix start digits.now)) }
{
    let mut value = start;
    let mut rest = digits;
    while let [first, others @ ..] = rest {
        value = value * u64::from(radix) + u64::from(digit_of(*first));
        if LIMIT <= value {
            return None;
        }
        rest = others;
    }
    Some(value)
}

/// The number that the digits write, or the greatest `usize` where it is more.
pub(crate) fn capped_value(digits: &[u16]) -> usize
    ensures { result ≡ capped (digits_value 10 digits.now) }
{
    let mut value: usize = 0;
    let mut rest = digits;
    while let [first, others @ ..] = rest {
        value = value
            .saturating_mul(10)
            .saturating_add(usize::from(digit_of(*first)));
        rest = others;
    }
    value
}

/// A number times a power of ten, where that is below 2^53.
pub(crate) fn times_power(value: u64, power: usize) -> Option<u64>
    requires { value < 2 ^ 53 }
    ensures { result ≡ bounded (Some (value * 10 ^ power)) }
{
    if value == 0 {
        return Some(0);
    }
    let mut product = value;
    for _ in 0..power {
        product *= 10;
        if LIMIT <= product {
            return None;
        }
    }
    Some(product)
}
