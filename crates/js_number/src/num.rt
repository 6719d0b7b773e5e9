//! Numbers with NaN.

ghost use Rattle.std.specs.Prelude.{◌≡◌};
ghost use Rattle.js_number.specs.Number.{integer_of};

use crate::int::Int;

/// A number of the profile: NaN or an integer. `==` tells whether both are one, so NaN is equal to NaN here:
/// `===` is `strict_equal`.
#[derive(Clone, Copy, Debug, PartialEq, Eq)]
pub enum Num {
    Nan,
    Int(Int),
}

impl Num {
    /// ToInteger: NaN counts as 0.
    pub fn to_integer(self) -> i64
        ensures { result ≡ integer_of self }
    {
        match self {
            Num::Nan => 0,
            Num::Int(n) => n.get(),
        }
    }
}
