//! Integers in another radix than ten (ECMA-262 15.1.2.2, 15.7.4.2), and texts without the blanks at their ends (15.5.4.20).

ghost use Rattle.std.specs.Prelude.{◌≡◌, ◌<◌, ◌≤◌, ◌++◌, ℤ, unsigned_abs, IfOk, OnOk};
ghost use Rattle.std.specs.Char.{digit_char};
ghost use Rattle.js_number.specs.Bounded.{bounded_spelled};
ghost use Rattle.js_number.specs.Conversions.{number_text};
ghost use Rattle.js_number.specs.Radix.{integer_prefix, signed_prefix, behind_sign, behind_prefix, leading, text_in_radix, sign_of, numeral, SpellsInRadix, trimmed, without_blanks_behind};
ghost use Rattle.js_number.specs.declared.num.Num.TheVariants as nums;

use crate::digits::{after_blanks, blank, digit_count, value_after};
use crate::int::LeftNumbers;
use crate::num::Num;
use crate::numeric_text::{Spelled, integer_if, number_spelled};
use crate::primitive::number_to_text;
use flow_text::{OutOfMemory, Text};
use std::alloc::Global;

/// The integer that a text begins with behind its blanks, as `parseInt` reads it: NaN where there is no digit, and where there is no such
/// radix.
#[tactic(auto, unfolding(crate::specs::Radix::integer_prefix))]
pub fn integer_prefix(text: &Text, radix: i64) -> Result<Num, LeftNumbers>
    ensures { result ≡ integer_prefix text.now radix }
{
    signed_prefix(radix, after_blanks(text.units()))
}

#[tactic(auto, unfolding(crate::specs::Radix::signed_prefix))]
fn signed_prefix(radix: i64, units: &[u16]) -> Result<Num, LeftNumbers>
    ensures { result ≡ signed_prefix radix units.now }
{
    match units {
        [0x2D, rest @ ..] => number_spelled(true, behind_sign(radix, rest)),
        [0x2B, rest @ ..] => number_spelled(false, behind_sign(radix, rest)),
        _ => number_spelled(false, behind_sign(radix, units)),
    }
}

// What stands behind the sign spells in a radix, where 0 stands for 10.
#[tactic(auto, unfolding(crate::specs::Radix::behind_sign))]
fn behind_sign(radix: i64, units: &[u16]) -> Spelled
    ensures { result ≡ bounded_spelled (behind_sign radix units.now) }
{
    if radix == 0 {
        return behind_prefix(10, units);
    }
    if radix == 16 {
        return behind_prefix(16, units);
    }
    if radix < 2 || 36 < radix {
        return Spelled::NoLiteral;
    }
    leading(radix.unsigned_abs() as u16, units)
}

// Behind `0x` the digits are hexadecimal.
#[tactic(auto, unfolding(crate::specs::Radix::behind_prefix))]
fn behind_prefix(radix: u16, units: &[u16]) -> Spelled
    requires { (2 ≤ radix) × (radix ≤ 36) }
    ensures { result ≡ bounded_spelled (behind_prefix radix units.now) }
{
    match units {
        [0x30, 0x78 | 0x58, digits @ ..] => leading(16, digits),
        _ => leading(radix, units),
    }
}

// What the digits spell that stand first.
#[tactic(auto, unfolding(crate::specs::Radix::leading))]
fn leading(radix: u16, units: &[u16]) -> Spelled
    requires { (2 ≤ radix) × (radix ≤ 36) }
    ensures { result ≡ bounded_spelled (leading radix units.now) }
{
    let (digits, _) = units.split_at(digit_count(radix, units));
    if digits.is_empty() {
        Spelled::NoLiteral
    } else {
        integer_if(value_after(radix, 0, digits))
    }
}

/// The text of a number in a radix, with small letters.
pub fn number_in_radix(alloc: Global, a: Num, radix: u32) -> Result<Text, OutOfMemory>
    requires { (2 ≤ radix) × (radix ≤ 36) }
    ensures value { IfOk result (λ text. text ≡ text_in_radix radix a) }
    ensures decimal { radix ≡ 10 → IfOk result (λ text. text ≡ number_text a) }
    ensures exact { (n : ℤ) → a ≡ nums.Int n → IfOk result (λ text. SpellsInRadix radix n text) }
{
    text_in_radix(alloc, a, radix)
}

fn text_in_radix(alloc: Global, a: Num, radix: u32) -> Result<Text, OutOfMemory>
    requires { (2 ≤ radix) × (radix ≤ 36) }
    ensures value { IfOk result (λ text. text ≡ text_in_radix radix a) }
    ensures decimal { radix ≡ 10 → IfOk result (λ text. text ≡ number_text a) }
{
    match a {
        Num::Nan => number_to_text(alloc, Num::Nan),
        Num::Int(n) => integer_in_radix(alloc, n.get(), u64::from(radix)),
    }
}

fn integer_in_radix(alloc: Global, n: i64, radix: u64) -> Result<Text, OutOfMemory>
    requires { (2 ≤ radix) × (radix ≤ 36) }
    ensures { IfOk result (λ text. text ≡ sign_of n ++ numeral radix (unsigned_abs n)) }
{
    let mut text = sign_of(alloc, n)?;
    push_digits(&mut text, n.unsigned_abs(), radix)?;
    Ok(text)
}

// `-` for a number below zero.
#[tactic(auto, using(crate::proofs::Words::words))]
fn sign_of(alloc: Global, n: i64) -> Result<Text, OutOfMemory>
    ensures { IfOk result (λ text. text ≡ sign_of n) }
{
    if n < 0 {
        Text::spelled(alloc, "-")
    } else {
        Ok(Text::new(alloc))
    }
}

// Puts the digits of a number behind a text, the greatest place first.
fn push_digits(text: &mut Text, n: u64, radix: u64) -> Result<(), OutOfMemory>
    requires { (2 ≤ radix) × (radix ≤ 36) }
    ensures { OnOk result (text.new ≡ text.old ++ numeral radix n) }
{
    if n < radix {
        return text.push(digit_char(n as u16));
    }
    push_digits(text, n / radix, radix)?;
    text.push(digit_char((n % radix) as u16))
}

fn digit_char(digit: u16) -> u16
    requires { digit < 36 }
    ensures { result ≡ digit_char digit }
{
    if digit < 10 {
        0x30 + digit
    } else {
        0x57 + digit
    }
}

/// The text without the blanks at both ends.
pub fn trimmed(alloc: Global, text: &Text) -> Result<Text, OutOfMemory>
    ensures { IfOk result (λ t. t ≡ trimmed text.now) }
{
    let units = without_blanks_behind(after_blanks(text.units()));
    Text::of_units(alloc, Vec::from_slice(alloc, units)?)
}

fn without_blanks_behind(units: &[u16]) -> &[u16]
    ensures { result.now ≡ without_blanks_behind units.now }
{
    for cut in 0..units.len() {
        let end = units.len() - cut;
        if !blank(units[end - 1]) {
            return &units[..end];
        }
    }
    &[]
}
