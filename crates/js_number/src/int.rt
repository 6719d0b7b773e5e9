//! A number.

ghost use Rattle.std.specs.Prelude.{◌≡◌, SomeIff};
ghost use Rattle.js_number.specs.Profile.{IsProfile};
ghost use Rattle.js_number.specs.Number.{number, number_of_bool, some_number, number_or_nan};

use crate::num::Num;
use std::marker::Model;

/// An integer between -2^53 and 2^53, without these two. There is one zero.
#[derive(Clone, Copy, Debug, PartialEq, Eq)]
pub struct Int {
    number: i64,
}

impl Model for Int {
    ghost use Rattle.std.specs.Prelude.{ℤ};
    ghost use Rattle.js_number.specs.Profile.{IsProfile};

    ghost Value = { ℤ };

    ghost view = { λ a. a.number };

    ghost invariant = { λ a. IsProfile a.number };

    ghost inverse = { λ z. record { number = z } };
}

/// The result is no number of the profile.
#[derive(Clone, Copy, Debug, PartialEq, Eq)]
pub struct LeftNumbers;

const LIMIT: i64 = 1 << 53;

impl Int {
    /// The number `n`.
    pub fn new(n: i64) -> Option<Int>
        ensures { SomeIff result (IsProfile n) n }
    {
        if -LIMIT < n && n < LIMIT {
            Some(Int { number: n })
        } else {
            None
        }
    }

    /// The number `n` of the profile.
    pub(crate) fn of(n: i64) -> Int
        requires { IsProfile n }
        ensures { result ≡ n }
    {
        Int { number: n }
    }

    /// 1 for true and 0 for false.
    pub(crate) fn of_bool(b: bool) -> Int
        ensures { result ≡ number_of_bool b }
    {
        Int {
            number: i64::from(b),
        }
    }

    /// Its value.
    pub fn get(self) -> i64
        ensures value { result ≡ self }
        ensures profile { IsProfile result }
    {
        self.number
    }
}

/// The number `n`, or that there is none.
pub(crate) fn number(n: i64) -> Result<Num, LeftNumbers>
    ensures { result ≡ number n }
{
    match Int::new(n) {
        Some(n) => Ok(Num::Int(n)),
        None => Err(LeftNumbers),
    }
}

/// The number, where there is one and it is of the profile.
pub(crate) fn some_number(n: Option<i64>) -> Result<Num, LeftNumbers>
    ensures { result ≡ some_number n }
{
    match n {
        Some(n) => number(n),
        None => Err(LeftNumbers),
    }
}

/// The number, or NaN where there is none.
pub(crate) fn number_or_nan(n: Option<i64>) -> Result<Num, LeftNumbers>
    ensures { result ≡ number_or_nan n }
{
    match n {
        Some(n) => number(n),
        None => Ok(Num::Nan),
    }
}
