//! How the parser answers.

ghost use Rattle.std.specs.Prelude.{◌≡◌, ◌<◌, ◌≤◌, List, OnOk, IfErr};
ghost use Rattle.js_ast.specs.declared.token.Token.{Token};
ghost use Rattle.js_list_parser.specs.Reading as reading;
ghost use Rattle.js_parse_parts.specs.Answers.{Fails};
ghost use Rattle.js_parse_parts.specs.declared.reading.ReadFault.TheVariants as faults;

use flow_text::OutOfMemory;
use js_ast::Token;
use std::alloc::{AllocError, AllocFailed};

/// Why a token is refused.
#[derive(Clone, Copy, Debug, PartialEq, Eq)]
pub enum Fault {
    /// No tree has it there.
    Syntax,
    /// It is `with`, in the place of a statement.
    With,
    /// No tree within the limit goes through it.
    Nesting,
}

/// Why nothing was read.
#[derive(Debug, Drop)]
pub enum ReadFault<'a> {
    /// The fault, and the tokens from the refused one.
    Refused(Fault, &'a [Token]),
    OutOfMemory,
}

impl From<OutOfMemory> for ReadFault<'_> {
    ghost from_gives = { λ _ e. e ≡ faults.OutOfMemory };

    fn from(_error: OutOfMemory) -> Self {
        ReadFault::OutOfMemory
    }
}

impl From<AllocError> for ReadFault<'_> {
    ghost from_gives = { λ _ e. e ≡ faults.OutOfMemory };

    fn from(_error: AllocError) -> Self {
        ReadFault::OutOfMemory
    }
}

impl<T: Drop> From<AllocFailed<T>> for ReadFault<'_> {
    ghost from_gives = { λ _ e. e ≡ faults.OutOfMemory };

    fn from(_error: AllocFailed<T>) -> Self {
        ReadFault::OutOfMemory
    }
}

/// What was read, how deep it is, and the tokens behind it.
pub type Found<'a, T> = Result<(T, u32, &'a [Token]), ReadFault<'a>>;

/// Whether there is room for a node round parts that are so deep, where only so much is allowed.
pub fn room(limit: u32, parts: u32, tokens: &[Token]) -> Result<(), ReadFault<'_>>
    ensures fits { OnOk result (parts < limit) }
    ensures refused { IfErr result (λ e. (limit ≤ parts) × Fails {Y = List Token} e (Err (reading.refused reading.nesting tokens.now))) }
{
    if limit <= parts {
        return Err(ReadFault::Refused(Fault::Nesting, tokens));
    }
    Ok(())
}

/// A turn of a loop: it goes on with what is built so far, or is done.
#[derive(Drop)]
pub enum Turn<S, A> {
    Again(S),
    Done(A),
}
