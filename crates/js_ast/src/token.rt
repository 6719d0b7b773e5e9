//! Tokens.

use flow_text::Text;
use js_number::Int;

/// What a token is (ECMA-262 7.5).
#[derive(Debug, Drop, PartialEq, Eq)]
pub enum TokenKind {
    /// An identifier name that is no reserved word.
    Name,
    Reserved,
    Punctuator,
    /// A numeric literal, with its value.
    Number(Int),
    /// A string literal, with its value.
    String(Text),
}

/// A token of a source.
#[derive(Debug, Drop, PartialEq, Eq)]
pub struct Token {
    pub kind: TokenKind,
    /// Of a name or a reserved word the units that it stands for, and of each other token the units that spell it. The
    /// two differ only in a name with escapes.
    pub text: Text,
    /// The place of its first unit.
    pub from: usize,
    /// The place behind its last unit.
    pub to: usize,
    /// A line terminator stands between it and the token before, or the start.
    pub newline: bool,
}
