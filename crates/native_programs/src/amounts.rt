//! Numbers that are computed, and how often loops go on.

ghost use Rattle.std.specs.Prelude.{◌≡◌, ◌+ℤ◌, ◌-ℤ◌, IfOk};
ghost use Rattle.native_programs.specs.Choosing.{turns_between, lesser, greater, within, amount_of, relative, passed, unit_at, whole_of, turns_of};

use crate::line::{Amount, Count, Whole};
use crate::lines::Left;
use crate::searching::{found_back_in, found_in, number_of, piece_end};
use crate::values::Values;
use flow_text::OutOfMemory;
use js_number::{Num, to_int32, to_uint32};

/// A whole number of a number (ECMA-262 9.4 to 9.7): NaN counts as 0.
pub(crate) fn whole_of(whole: Whole, number: Num) -> i64
    ensures { result ≡ whole_of whole number }
{
    match whole {
        Whole::Integer => number.to_integer(),
        Whole::Int32 => i64::from(to_int32(number)),
        Whole::Uint32 => i64::from(to_uint32(number)),
        Whole::Uint16 => i64::from(to_uint32(number) & 0xFFFF),
    }
}

impl Values {
    /// A number that is computed. One that doesn't fit comes from more than memory holds.
    pub(crate) fn amount(&self, amount: Amount) -> Result<i64, OutOfMemory>
        ensures { IfOk result (λ n. n ≡ amount_of self.now amount) }
    {
        match amount {
            Amount::Whole(number) => Ok(number),
            Amount::Of(a) => Ok(self.counter(a)),
            Amount::Next(a) => plus(self.counter(a), 1),
            Amount::Prior(a) => plus(self.counter(a), -1),
            Amount::Half(a) => Ok(self.counter(a) / 2),
            Amount::Plus(a, b) => plus(self.counter(a), self.counter(b)),
            Amount::Minus(a, b) => minus(self.counter(a), self.counter(b)),
            Amount::Lesser(a, b) => Ok(lesser(self.counter(a), self.counter(b))),
            Amount::Greater(a, b) => Ok(greater(self.counter(a), self.counter(b))),
            Amount::Within(a, size) => Ok(within(self.counter(a), self.counter(size))),
            Amount::Relative(a, size) => relative(self.counter(a), self.counter(size)),
            Amount::Passed(from) => passed(self.argc, from),
            Amount::Size(slot) => number_of(self.text(slot).len()),
            Amount::UnitAt(slot, at) => Ok(unit_at(self.text(slot).units(), self.counter(at))),
            Amount::Found(subject, sought, from) => found_in(
                self.text(subject).units(),
                self.text(sought).units(),
                self.counter(from),
            ),
            Amount::FoundBack(subject, sought, from) => found_back_in(
                self.text(subject).units(),
                self.text(sought).units(),
                self.counter(from),
            ),
            Amount::PieceEnd(subject, separator, from) => piece_end(
                self.text(subject).units(),
                self.text(separator).units(),
                self.counter(from),
            ),
        }
    }

    /// How often a loop goes on.
    pub(crate) fn turns(&self, count: Count) -> Result<Left, OutOfMemory>
        ensures { IfOk result (λ left. left ≡ turns_of count self.now) }
    {
        match count {
            Count::Up(index, until) => turns_between(self.counter(index), self.counter(until)),
            Count::Down(index, until) => turns_between(self.counter(until), self.counter(index)),
            Count::Endless => Ok(Left::Endless),
        }
    }
}

/// A sum.
pub(crate) fn plus(a: i64, b: i64) -> Result<i64, OutOfMemory>
    ensures { IfOk result (λ n. n ≡ a +ℤ b) }
{
    a.checked_add(b).ok_or(OutOfMemory)
}

/// A difference.
pub(crate) fn minus(a: i64, b: i64) -> Result<i64, OutOfMemory>
    ensures { IfOk result (λ n. n ≡ a -ℤ b) }
{
    a.checked_sub(b).ok_or(OutOfMemory)
}

fn turns_between(from: i64, until: i64) -> Result<Left, OutOfMemory>
    ensures { IfOk result (λ left. left ≡ turns_between from until) }
{
    let left = minus(until, from)?;
    if left < 0 {
        Ok(Left::Turns(0))
    } else {
        Ok(Left::Turns(left.unsigned_abs()))
    }
}

fn lesser(a: i64, b: i64) -> i64
    ensures { result ≡ lesser a b }
{
    if b < a { b } else { a }
}

fn greater(a: i64, b: i64) -> i64
    ensures { result ≡ greater a b }
{
    if a < b { b } else { a }
}

// Cut to the numbers from zero to a size.
fn within(number: i64, size: i64) -> i64
    ensures { result ≡ within number size }
{
    lesser(greater(number, 0), size)
}

// Counted from the end where it is below zero.
fn relative(number: i64, size: i64) -> Result<i64, OutOfMemory>
    ensures { IfOk result (λ n. n ≡ relative number size) }
{
    if number < 0 {
        Ok(within(plus(size, number)?, size))
    } else {
        Ok(within(number, size))
    }
}

// How many arguments were passed from one on.
fn passed(argc: u64, from: u8) -> Result<i64, OutOfMemory>
    ensures { IfOk result (λ n. n ≡ passed argc from) }
{
    let count = argc.saturating_sub(u64::from(from));
    if count < 1 << 62 {
        Ok(count as i64)
    } else {
        Err(OutOfMemory)
    }
}

// The unit at a place, and 0 where there is none.
fn unit_at(units: &[u16], at: i64) -> i64
    ensures { result ≡ unit_at units.now at }
{
    let place = at.unsigned_abs();
    if 0 <= at && place < units.len() as u64 {
        i64::from(units[place as usize])
    } else {
        0
    }
}
