//! The operator `+` (ECMA-262 11.6.1).

ghost use Rattle.std.specs.Prelude.{◌≡◌};
ghost use Rattle.js_number.specs.Conversions.{text_of};
ghost use Rattle.js_number.specs.Sum.{GivesSum, joined, sum_of};
ghost use Rattle.js_number.specs.declared.sum.AddFault.TheVariants as faults;

use crate::arithmetic::add;
use crate::int::LeftNumbers;
use crate::primitive::{Primitive, to_number, to_text};
use flow_text::OutOfMemory;
use std::alloc::Global;

/// Why there is no sum.
#[derive(Clone, Copy, Debug, PartialEq, Eq)]
pub enum AddFault {
    LeftNumbers,
    /// Both texts together are longer than a string may be.
    LeftString,
    OutOfMemory,
}

impl From<LeftNumbers> for AddFault {
    ghost from_gives = { λ _ e. e ≡ faults.LeftNumbers };

    fn from(_error: LeftNumbers) -> AddFault {
        AddFault::LeftNumbers
    }
}

impl From<OutOfMemory> for AddFault {
    ghost from_gives = { λ _ e. e ≡ faults.OutOfMemory };

    fn from(_error: OutOfMemory) -> AddFault {
        AddFault::OutOfMemory
    }
}

const LONGEST: usize = 1_048_576;

/// `a + b`.
pub fn add_prims(alloc: Global, a: &Primitive, b: &Primitive) -> Result<Primitive, AddFault>
    ensures { GivesSum result (sum_of a.now b.now) }
{
    match (a, b) {
        (Primitive::Str(_), _) | (_, Primitive::Str(_)) => joined(alloc, a, b),
        _ => Ok(Primitive::Num(add(to_number(a)?, to_number(b)?)?)),
    }
}

fn joined(alloc: Global, a: &Primitive, b: &Primitive) -> Result<Primitive, AddFault>
    ensures { GivesSum result (joined (text_of a.now) (text_of b.now)) }
{
    let (a, b) = (to_text(alloc, a)?, to_text(alloc, b)?);
    if LONGEST < a.len() || LONGEST - a.len() < b.len() {
        return Err(AddFault::LeftString);
    }
    Ok(Primitive::Str(a.concat(alloc, &b)?))
}
