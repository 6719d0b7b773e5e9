//! Which built-in of which set a number is.

ghost use Rattle.std.specs.Prelude.{◌≡◌, ◌<◌, true, length};
ghost use Rattle.all_natives.specs.Together.{all_entries, part_at, part_in, part_of, ranges_lie, IsPart};

use crate::sets::{RANGES, Range, Set};

/// A built-in of one of the sets, by its number in that set.
#[derive(Clone, Copy)]
pub enum Part {
    Channel(u32),
    Object(u32),
    Array(u32),
    Function(u32),
    Text(u32),
}

/// How many built-ins there are.
pub(crate) const COUNT: u32 = 137;

/// The built-in of a number.
pub(crate) fn part_at(which: u32) -> Part
    requires { which < length all_entries }
    ensures part { result ≡ part_at which }
    ensures there { IsPart result }
{
    part_in(&RANGES, which)
}

// The built-in of a number in ranges that follow each other; one of the first set where there is none.
fn part_in(ranges: &[Range], which: u32) -> Part
    requires { ranges_lie ranges.now ≡ true }
    ensures { result ≡ part_in ranges.now which }
{
    match ranges {
        [] => Part::Channel(0),
        [range, more @ ..] => {
            let Range(set, first, count) = *range;
            if which < count {
                part_of(set, first + which)
            } else {
                part_in(more, which - count)
            }
        }
    }
}

fn part_of(set: Set, number: u32) -> Part
    ensures { result ≡ part_of set number }
{
    match set {
        Set::Channels => Part::Channel(number),
        Set::Objects => Part::Object(number),
        Set::Arrays => Part::Array(number),
        Set::Functions => Part::Function(number),
        Set::Texts => Part::Text(number),
    }
}
