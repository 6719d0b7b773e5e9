//! Texts that are computed.

ghost use Rattle.std.specs.Prelude.{◌≡◌, IfOk, map};
ghost use Rattle.js_number.specs.Radix.{integer_prefix};
ghost use Rattle.native_programs.specs.Wordings.{worded, in_radix, primitive_in_radix, spelled_in, number_read, class_text, class_name, part_of, lower, upper};

use crate::line::Wording;
use crate::values::Values;
use flow_text::{OutOfMemory, Text};
use js_number::{Num, Primitive, integer_prefix, number_in_radix, trimmed};
use js_values::Class;
use native_protocol::Seen;
use std::alloc::Global;

impl Values {
    /// A text that is computed.
    #[tactic(auto, using(crate::proofs::Words::words))]
    pub(crate) fn worded(&self, alloc: Global, wording: Wording) -> Result<Text, OutOfMemory>
        ensures { IfOk result (λ text. text ≡ worded wording self.now) }
    {
        match wording {
            Wording::Comma => Text::spelled(alloc, ","),
            Wording::Colon => Text::spelled(alloc, ": "),
            Wording::Error => Text::spelled(alloc, "Error"),
            Wording::ClassSeen => class_text(alloc, &self.seen),
            Wording::InRadix(radix) => in_radix(alloc, &self.seen, self.counter(radix)),
            Wording::Lower(from) => lowered(alloc, self.text(from).units()),
            Wording::Upper(from) => raised(alloc, self.text(from).units()),
            Wording::Trimmed(from) => trimmed(alloc, self.text(from)),
        }
    }
}

/// The units of a text from one place up to another, where these are places of it in order; else none.
pub(crate) fn part_of(
    alloc: Global,
    text: &Text,
    first: i64,
    last: i64,
) -> Result<Text, OutOfMemory>
    ensures { IfOk result (λ part. part ≡ part_of text.now first last) }
{
    if first < 0 || last < first || last.unsigned_abs() > text.len() as u64 {
        return Ok(Text::new(alloc));
    }
    text.slice(
        alloc,
        first.unsigned_abs() as usize,
        last.unsigned_abs() as usize,
    )
}

// The small letters of ASCII in the place of the great ones.
fn lowered(alloc: Global, units: &[u16]) -> Result<Text, OutOfMemory>
    ensures { IfOk result (λ text. text ≡ map lower units.now) }
{
    let mut text = Text::new(alloc);
    for unit in units {
        text.push(lower(*unit))?;
    }
    Ok(text)
}

fn lower(unit: u16) -> u16
    ensures { result ≡ lower unit }
{
    match unit {
        0x41..=0x5A => unit + 0x20,
        _ => unit,
    }
}

// The great letters of ASCII in the place of the small ones.
fn raised(alloc: Global, units: &[u16]) -> Result<Text, OutOfMemory>
    ensures { IfOk result (λ text. text ≡ map upper units.now) }
{
    let mut text = Text::new(alloc);
    for unit in units {
        text.push(upper(*unit))?;
    }
    Ok(text)
}

fn upper(unit: u16) -> u16
    ensures { result ≡ upper unit }
{
    match unit {
        0x61..=0x7A => unit - 0x20,
        _ => unit,
    }
}

// The number that was seen, in a radix.
fn in_radix(alloc: Global, seen: &Seen, radix: i64) -> Result<Text, OutOfMemory>
    ensures { IfOk result (λ text. text ≡ in_radix seen.now radix) }
{
    match seen {
        Seen::Object(_) => Ok(Text::new(alloc)),
        Seen::Prim(primitive) => primitive_in_radix(alloc, primitive, radix),
    }
}

fn primitive_in_radix(alloc: Global, primitive: &Primitive, radix: i64) -> Result<Text, OutOfMemory>
    ensures { IfOk result (λ text. text ≡ primitive_in_radix primitive.now radix) }
{
    match primitive {
        Primitive::Num(number) => spelled_in(alloc, *number, radix),
        Primitive::Undefined => Ok(Text::new(alloc)),
        Primitive::Null => Ok(Text::new(alloc)),
        Primitive::Bool(_) => Ok(Text::new(alloc)),
        Primitive::Str(_) => Ok(Text::new(alloc)),
    }
}

fn spelled_in(alloc: Global, number: Num, radix: i64) -> Result<Text, OutOfMemory>
    ensures { IfOk result (λ text. text ≡ spelled_in number radix) }
{
    if radix < 2 || 36 < radix {
        return Ok(Text::new(alloc));
    }
    number_in_radix(alloc, number, radix.unsigned_abs() as u32)
}

/// The integer that a text begins with, in a radix; NaN where it is no number of the profile.
pub(crate) fn parsed(text: &Text, radix: i64) -> Num
    ensures { result ≡ number_read (integer_prefix text.now radix) }
{
    match integer_prefix(text, radix) {
        Ok(number) => number,
        Err(_) => Num::Nan,
    }
}

// The class of an object (ECMA-262 15.2.4.2).
fn class_text(alloc: Global, seen: &Seen) -> Result<Text, OutOfMemory>
    ensures { IfOk result (λ text. text ≡ class_text seen.now) }
{
    match seen {
        Seen::Prim(_) => Ok(Text::new(alloc)),
        Seen::Object(class) => class_name(alloc, *class),
    }
}

fn class_name(alloc: Global, class: Class) -> Result<Text, OutOfMemory>
    ensures { IfOk result (λ text. text ≡ class_name class) }
{
    match class {
        Class::Object => Text::spelled(alloc, "[object Object]"),
        Class::Function => Text::spelled(alloc, "[object Function]"),
        Class::Array => Text::spelled(alloc, "[object Array]"),
        Class::Arguments => Text::spelled(alloc, "[object Arguments]"),
        Class::Error => Text::spelled(alloc, "[object Error]"),
        Class::Math => Text::spelled(alloc, "[object Math]"),
        Class::Json => Text::spelled(alloc, "[object JSON]"),
        Class::String => Text::spelled(alloc, "[object String]"),
        Class::Number => Text::spelled(alloc, "[object Number]"),
        Class::Boolean => Text::spelled(alloc, "[object Boolean]"),
    }
}
