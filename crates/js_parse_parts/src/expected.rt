//! Tokens that must come.

ghost use Rattle.std.specs.Prelude.{◌≡◌, IfOk, codes};
ghost use Rattle.std.specs.Option.{option_map};
ghost use Rattle.js_ast.specs.Grammar.{is_close_brace, is_semicolon};
ghost use Rattle.js_list_parser.specs.ExpressionParsing.{is_open_paren, is_close_paren, is_close_bracket, is_open_brace, is_colon, expect, taken, name_at, key_at, has_key, ident_at, begins_accessor};
ghost use Rattle.js_list_parser.specs.StatementParsing.{is_while};
ghost use Rattle.js_ast.specs.Views.{view_ident, view_name, view_key};
ghost use Rattle.js_parse_parts.specs.Answers.{Gives};

use crate::reading::{Fault, ReadFault};
use crate::words::{Word, behind, is_text, place_of, word_at};
use flow_text::{OutOfMemory, Text};
use js_ast::{Ident, Key, Keyword, Sign, Token, TokenKind};
use std::alloc::Global;

/// The tokens behind a `(`.
#[tactic(auto, unfolding(js_list_parser::specs::ExpressionParsing::expect))]
pub fn open_paren(tokens: &[Token]) -> Result<&[Token], ReadFault<'_>>
    ensures { Gives (λ rest. rest.now) result (expect is_open_paren tokens.now) }
{
    match word_at(tokens) {
        Some(Word::Sign(Sign::OpenParen)) => Ok(behind(tokens)),
        _ => Err(ReadFault::Refused(Fault::Syntax, tokens)),
    }
}

/// The tokens behind a `)`.
#[tactic(auto, unfolding(js_list_parser::specs::ExpressionParsing::expect))]
pub fn close_paren(tokens: &[Token]) -> Result<&[Token], ReadFault<'_>>
    ensures { Gives (λ rest. rest.now) result (expect is_close_paren tokens.now) }
{
    match word_at(tokens) {
        Some(Word::Sign(Sign::CloseParen)) => Ok(behind(tokens)),
        _ => Err(ReadFault::Refused(Fault::Syntax, tokens)),
    }
}

/// The tokens behind a `]`.
#[tactic(auto, unfolding(js_list_parser::specs::ExpressionParsing::expect))]
pub fn close_bracket(tokens: &[Token]) -> Result<&[Token], ReadFault<'_>>
    ensures { Gives (λ rest. rest.now) result (expect is_close_bracket tokens.now) }
{
    match word_at(tokens) {
        Some(Word::Sign(Sign::CloseBracket)) => Ok(behind(tokens)),
        _ => Err(ReadFault::Refused(Fault::Syntax, tokens)),
    }
}

/// The tokens behind a `{`.
#[tactic(auto, unfolding(js_list_parser::specs::ExpressionParsing::expect))]
pub fn open_brace(tokens: &[Token]) -> Result<&[Token], ReadFault<'_>>
    ensures { Gives (λ rest. rest.now) result (expect is_open_brace tokens.now) }
{
    match word_at(tokens) {
        Some(Word::Sign(Sign::OpenBrace)) => Ok(behind(tokens)),
        _ => Err(ReadFault::Refused(Fault::Syntax, tokens)),
    }
}

/// The tokens behind a `}`.
#[tactic(auto, unfolding(js_list_parser::specs::ExpressionParsing::expect))]
pub fn close_brace(tokens: &[Token]) -> Result<&[Token], ReadFault<'_>>
    ensures { Gives (λ rest. rest.now) result (expect is_close_brace tokens.now) }
{
    match word_at(tokens) {
        Some(Word::Sign(Sign::CloseBrace)) => Ok(behind(tokens)),
        _ => Err(ReadFault::Refused(Fault::Syntax, tokens)),
    }
}

/// The tokens behind a `:`.
#[tactic(auto, unfolding(js_list_parser::specs::ExpressionParsing::expect))]
pub fn colon(tokens: &[Token]) -> Result<&[Token], ReadFault<'_>>
    ensures { Gives (λ rest. rest.now) result (expect is_colon tokens.now) }
{
    match word_at(tokens) {
        Some(Word::Sign(Sign::Colon)) => Ok(behind(tokens)),
        _ => Err(ReadFault::Refused(Fault::Syntax, tokens)),
    }
}

/// The tokens behind a `;`.
#[tactic(auto, unfolding(js_list_parser::specs::ExpressionParsing::expect))]
pub fn semicolon(tokens: &[Token]) -> Result<&[Token], ReadFault<'_>>
    ensures { Gives (λ rest. rest.now) result (expect is_semicolon tokens.now) }
{
    match word_at(tokens) {
        Some(Word::Sign(Sign::Semicolon)) => Ok(behind(tokens)),
        _ => Err(ReadFault::Refused(Fault::Syntax, tokens)),
    }
}

/// The tokens behind a `while`.
#[tactic(auto, unfolding(js_list_parser::specs::ExpressionParsing::expect))]
pub fn key_while(tokens: &[Token]) -> Result<&[Token], ReadFault<'_>>
    ensures { Gives (λ rest. rest.now) result (expect is_while tokens.now) }
{
    match word_at(tokens) {
        Some(Word::Key(Keyword::While)) => Ok(behind(tokens)),
        _ => Err(ReadFault::Refused(Fault::Syntax, tokens)),
    }
}

/// An identifier name, reserved or not, and the tokens behind it.
#[tactic(auto, unfolding(js_list_parser::specs::ExpressionParsing::taken))]
pub fn identifier_name(tokens: &[Token]) -> Result<(&Text, &[Token]), ReadFault<'_>>
    ensures { Gives (λ x. (x.0.now, x.1.now)) result (taken (name_at tokens.now) tokens.now) }
{
    match tokens {
        [
            Token {
                kind: TokenKind::Name | TokenKind::Reserved,
                text,
                ..
            },
            rest @ ..,
        ] => Ok((text, rest)),
        _ => Err(ReadFault::Refused(Fault::Syntax, tokens)),
    }
}

// The key that the first token is.
fn key_at(alloc: Global, tokens: &[Token]) -> Result<Option<Key>, OutOfMemory>
    ensures { IfOk result (λ key. option_map view_key key ≡ key_at tokens.now) }
{
    let [first, ..] = tokens else {
        return Ok(None);
    };
    match &first.kind {
        TokenKind::Name | TokenKind::Reserved => Ok(Some(Key::Name(first.text.copy(alloc)?))),
        TokenKind::String(value) => {
            let text = first.text.copy(alloc)?;
            let value = value.copy(alloc)?;
            Ok(Some(Key::String { text, value }))
        }
        TokenKind::Number(number) => Ok(Some(Key::Number(*number))),
        TokenKind::Punctuator => Ok(None),
    }
}

/// Whether the first token is the key of a property.
pub fn begins_key(tokens: &[Token]) -> bool
    ensures { result ≡ has_key (key_at tokens.now) }
{
    match tokens {
        [] => false,
        [first, ..] => !matches!(first.kind, TokenKind::Punctuator),
    }
}

/// The key of a property, and the tokens behind it.
#[tactic(auto, unfolding(js_list_parser::specs::ExpressionParsing::taken))]
pub fn property_key(alloc: Global, tokens: &[Token]) -> Result<(Key, &[Token]), ReadFault<'_>>
    ensures { Gives (λ x. (view_key x.0, x.1.now)) result (taken (key_at tokens.now) tokens.now) }
{
    match key_at(alloc, tokens)? {
        Some(key) => Ok((key, behind(tokens))),
        None => Err(ReadFault::Refused(Fault::Syntax, tokens)),
    }
}

/// The name that the first token is, where it may be bound.
pub fn ident_at(alloc: Global, tokens: &[Token]) -> Result<Option<Ident>, OutOfMemory>
    ensures { IfOk result (λ ident. view_name ident ≡ ident_at tokens.now) }
{
    match word_at(tokens) {
        Some(Word::Name(name)) => {
            let at = place_of(tokens);
            let text = name.copy(alloc)?;
            Ok(Some(Ident { at, text }))
        }
        _ => Ok(None),
    }
}

/// A name that is bound, and the tokens behind it.
#[tactic(auto, unfolding(js_list_parser::specs::ExpressionParsing::taken))]
pub fn bound_name(alloc: Global, tokens: &[Token]) -> Result<(Ident, &[Token]), ReadFault<'_>>
    ensures { Gives (λ x. (view_ident x.0, x.1.now)) result (taken (ident_at tokens.now) tokens.now) }
{
    match ident_at(alloc, tokens)? {
        Some(ident) => Ok((ident, behind(tokens))),
        None => Err(ReadFault::Refused(Fault::Syntax, tokens)),
    }
}

const GET: &[u8] = b"get";

const SET: &[u8] = b"set";

// Whether the tokens begin with this name and a key.
#[tactic(auto, unfolding(js_list_parser::specs::ExpressionParsing::begins_accessor))]
fn begins_accessor(name: &[u8], tokens: &[Token]) -> bool
    ensures { result ≡ begins_accessor name.now tokens.now }
{
    match word_at(tokens) {
        Some(Word::Name(text)) => is_text(text.units(), name) && begins_key(behind(tokens)),
        _ => false,
    }
}

/// Whether the tokens begin a property with `get`.
pub fn begins_getter(tokens: &[Token]) -> bool
    ensures { result ≡ begins_accessor (codes "get") tokens.now }
{
    begins_accessor(GET, tokens)
}

/// Whether the tokens begin a property with `set`.
pub fn begins_setter(tokens: &[Token]) -> bool
    ensures { result ≡ begins_accessor (codes "set") tokens.now }
{
    begins_accessor(SET, tokens)
}
