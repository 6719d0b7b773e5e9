//! What decides without a look.

ghost use Rattle.std.specs.Prelude.{◌≡◌};
ghost use Rattle.native_programs.specs.Choosing.{holds, is_last, is_nan, differs, is_other, is_ascii};

use crate::line::Condition;
use crate::sights::sees;
use crate::values::Values;
use js_number::{Num, integer_prefix};

impl Values {
    /// Whether a condition holds.
    pub(crate) fn holds(&self, condition: Condition) -> bool
        ensures { result ≡ holds condition self.now }
    {
        match condition {
            Condition::Is(a, number) => self.counter(a) == number,
            Condition::Below(a, number) => self.counter(a) < number,
            Condition::NotBelow(a, number) => number <= self.counter(a),
            Condition::NotLess(a, b) => self.counter(b) <= self.counter(a),
            Condition::More(a, b) => self.counter(b) < self.counter(a),
            Condition::Last(a, b) => is_last(self.counter(a), self.counter(b)),
            Condition::Given(count) => u64::from(count) < self.argc,
            Condition::NotGiven(count) => self.argc <= u64::from(count),
            Condition::Constructed => self.construct,
            Condition::Sees(sight) => sees(sight, &self.seen),
            Condition::SeesNot(sight) => !sees(sight, &self.seen),
            Condition::HasText => self.held.is_some(),
            Condition::HasNumber => self.number.is_some(),
            Condition::IsNan => is_nan(self.number),
            Condition::Differs(a) => differs(self.number, self.counter(a)),
            Condition::Empty(slot) => self.text(slot).len() == 0,
            Condition::NotAscii(slot) => !is_ascii(self.text(slot).units()),
            Condition::ParsesNot(from, radix) => {
                integer_prefix(self.text(from), self.counter(radix)).is_err()
            }
        }
    }
}

// Whether nothing stands between a number and another.
fn is_last(a: i64, b: i64) -> bool
    ensures { result ≡ is_last a b }
{
    match a.checked_add(1) {
        Some(next) => b <= next,
        None => true,
    }
}

fn is_nan(number: Option<Num>) -> bool
    ensures { result ≡ is_nan number }
{
    matches!(number, Some(Num::Nan))
}

// Whether a number was converted and is another than this.
fn differs(number: Option<Num>, other: i64) -> bool
    ensures { result ≡ differs number other }
{
    match number {
        None => false,
        Some(number) => is_other(number, other),
    }
}

fn is_other(number: Num, other: i64) -> bool
    ensures { result ≡ is_other number other }
{
    match number {
        Num::Nan => true,
        Num::Int(number) => number.get() != other,
    }
}

fn is_ascii(units: &[u16]) -> bool
    ensures { result ≡ is_ascii units.now }
{
    units.iter().all(|unit| *unit < 0x80)
}
