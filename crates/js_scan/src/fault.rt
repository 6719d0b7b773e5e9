//! Why a source has no tokens.

ghost use Rattle.std.specs.Prelude.{◌≡◌};
ghost use Rattle.js_scan.specs.declared.fault.ScanFault.TheVariants as faults;

use std::alloc::AllocFailed;

/// Why a source has no tokens. `at` counts units.
#[derive(Clone, Copy, Debug, PartialEq, Eq)]
pub enum ScanFault {
    /// A unit begins no token, an escape of a name or a string is none, or a reserved word is spelled with an escape.
    BadToken { at: usize },
    /// A string has no end on its line, or a comment has none.
    Unterminated { at: usize },
    /// A literal of a regular expression begins, and the language has none.
    RegExpLiteral { at: usize },
    /// A number isn't spelled as a number of the profile, or a digit or a name stands directly behind it.
    NumberLiteral { at: usize },
    OutOfMemory,
}

impl From<flow_text::OutOfMemory> for ScanFault {
    ghost from_gives = { λ _ e. e ≡ faults.OutOfMemory };

    fn from(_error: flow_text::OutOfMemory) -> ScanFault {
        ScanFault::OutOfMemory
    }
}

impl<T: Drop> From<AllocFailed<T>> for ScanFault {
    ghost from_gives = { λ _ e. e ≡ faults.OutOfMemory };

    fn from(_error: AllocFailed<T>) -> ScanFault {
        ScanFault::OutOfMemory
    }
}
