//! What is wrong with a policy or an input.

ghost use Rattle.std.specs.Prelude.{◌≡◌};
ghost use Rattle.flow_policy.specs.Faults.{fault_at};
ghost use Rattle.flow_policy.specs.declared.fault.LineFault.TheVariants as line;
ghost use Rattle.flow_policy.specs.declared.fault.InputFault.TheVariants as input;
ghost use Rattle.flow_policy.specs.declared.fault.ListFault.TheVariants as list;

use flow_text::OutOfMemory;
use std::alloc::AllocFailed;
use thiserror::Error;

/// What is wrong with a line of a policy: the first of these that applies.
#[derive(Clone, Copy, Debug, PartialEq, Eq)]
pub enum PolicyKind {
    /// The first word is none of `origin`, `in`, `out`.
    Keyword,
    /// There are not 2 words for `origin`, or 3 for `in` and `out`.
    Words,
    /// The declared name or a name of the list breaks the rule for names.
    Name,
    /// The list has an origin that no earlier line declares.
    Unknown,
    /// The declared name is in its table already.
    Repeat,
    /// The table is full.
    Many,
}

/// Why bytes are no policy. Lines are numbered from 1.
#[derive(Clone, Copy, Debug, PartialEq, Eq, Drop, Error)]
pub enum PolicyFault {
    #[error("line {line} of the policy is bad")]
    Bad { line: usize, kind: PolicyKind },
    #[error("out of memory")]
    OutOfMemory,
}

/// What is wrong with a line of an input: the first of these that applies.
#[derive(Clone, Copy, Debug, PartialEq, Eq)]
pub enum InputKind {
    /// The line isn't UTF-8.
    Utf8,
    /// Its name is no input channel.
    Channel,
}

/// Why bytes are no input of a policy. Lines are numbered from 1.
#[derive(Clone, Copy, Debug, PartialEq, Eq, Drop, Error)]
pub enum InputFault {
    #[error("line {line} of the input is bad")]
    Bad { line: usize, kind: InputKind },
    #[error("out of memory")]
    OutOfMemory,
}

/// Why text is no list of declared origins.
#[derive(Clone, Copy, Debug, PartialEq, Eq, Drop, Error)]
pub enum ListFault {
    /// It is neither `-` nor names with single commas between.
    #[error("it is no list of names")]
    Form,
    /// The name with this number, from 0, is the first that isn't declared.
    #[error("name {which} of the list is no declared origin")]
    Unknown { which: usize },
    #[error("out of memory")]
    OutOfMemory,
}

/// Why a line of a policy declares nothing.
#[derive(Clone, Copy, Debug, PartialEq, Eq)]
pub(crate) enum LineFault {
    Bad(PolicyKind),
    OutOfMemory,
}

impl LineFault {
    /// What is then wrong with the policy.
    pub(crate) fn at(self, number: usize) -> PolicyFault
        ensures { result ≡ fault_at number self }
    {
        match self {
            LineFault::Bad(kind) => PolicyFault::Bad { line: number, kind },
            LineFault::OutOfMemory => PolicyFault::OutOfMemory,
        }
    }
}

impl From<OutOfMemory> for LineFault {
    ghost from_gives = { λ _ e. e ≡ line.OutOfMemory };

    fn from(_error: OutOfMemory) -> LineFault {
        LineFault::OutOfMemory
    }
}

impl<T: Drop> From<AllocFailed<T>> for LineFault {
    ghost from_gives = { λ _ e. e ≡ line.OutOfMemory };

    fn from(_error: AllocFailed<T>) -> LineFault {
        LineFault::OutOfMemory
    }
}

impl From<OutOfMemory> for InputFault {
    ghost from_gives = { λ _ e. e ≡ input.OutOfMemory };

    fn from(_error: OutOfMemory) -> InputFault {
        InputFault::OutOfMemory
    }
}

impl From<OutOfMemory> for ListFault {
    ghost from_gives = { λ _ e. e ≡ list.OutOfMemory };

    fn from(_error: OutOfMemory) -> ListFault {
        ListFault::OutOfMemory
    }
}

impl<T: Drop> From<AllocFailed<T>> for ListFault {
    ghost from_gives = { λ _ e. e ≡ list.OutOfMemory };

    fn from(_error: AllocFailed<T>) -> ListFault {
        ListFault::OutOfMemory
    }
}
