//! How far a source is read.

ghost use Rattle.std.specs.Prelude.{◌≡◌, ◌+◌, ◌<◌, ◌^◌, ◌||◌};
ghost use Rattle.js_scan.specs.Tokens.{start, after, divides_behind, is_dot};

use crate::names::{is_one_of, spells};
use flow_text::Text;
use js_ast::{Token, TokenKind};

/// How far a source is read.
#[derive(Clone, Copy, PartialEq, Eq)]
pub(crate) struct State {
    /// How many units are behind.
    pub(crate) at: usize,
    /// A line terminator stands behind the token before.
    pub(crate) newline: bool,
    /// The token before is `.`.
    pub(crate) dot: bool,
    /// A `/` here is a punctuator, and doesn't begin a literal of a regular expression.
    pub(crate) divides: bool,
}

// The reserved words that are values.
const VALUES: [&[u8]; 4] = [b"this", b"null", b"true", b"false"];

// The punctuators that may end an expression.
const ENDS: [&[u8]; 5] = [b")", b"]", b"}", b"++", b"--"];

impl State {
    /// At the first unit.
    pub(crate) fn start() -> State
        ensures { result ≡ start }
    {
        State {
            at: 0,
            newline: false,
            dot: false,
            divides: false,
        }
    }

    /// Behind a separator of so many units.
    pub(crate) fn past(self, length: usize, breaks_line: bool) -> State
        requires { self.at + length < 2 ^ 64 }
        ensures { result ≡ record { at = self.at + length; newline = self.newline || breaks_line; dot = self.dot; divides = self.divides } }
    {
        State {
            at: self.at + length,
            newline: self.newline || breaks_line,
            ..self
        }
    }

    /// Behind a token.
    pub(crate) fn after(self, token: &Token) -> State
        ensures { result ≡ after self token.now }
    {
        State {
            at: token.to,
            newline: false,
            dot: is_dot(&token.kind, &token.text),
            divides: divides_behind(self.dot, &token.kind, &token.text),
        }
    }
}

#[tactic(auto, unfolding(crate::specs::Tokens::is_dot))]
fn is_dot(kind: &TokenKind, text: &Text) -> bool
    ensures { result ≡ is_dot kind.now text.now }
{
    match kind {
        TokenKind::Punctuator => spells(b".", text.units()),
        _ => false,
    }
}

#[tactic(auto, unfolding(crate::specs::Tokens::divides_behind))]
fn divides_behind(dot: bool, kind: &TokenKind, text: &Text) -> bool
    ensures { result ≡ divides_behind dot kind.now text.now }
{
    match kind {
        TokenKind::Name | TokenKind::Number(_) | TokenKind::String(_) => true,
        TokenKind::Reserved => dot || is_one_of(&VALUES, text.units()),
        TokenKind::Punctuator => is_one_of(&ENDS, text.units()),
    }
}
