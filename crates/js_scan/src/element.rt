//! One element of a source.

ghost use Rattle.std.specs.Prelude.{◌≡◌, ◌+◌, ◌<◌, ◌≤◌, ◌^◌, length, take, drop, List, ℕ, IfOk, false, true};
ghost use Rattle.js_scan.specs.Units.{begins_with, begins_with_digit};
ghost use Rattle.js_scan.specs.Names.{BeginsName};
ghost use Rattle.js_scan.specs.Found.{class_at, Finds, FindsElement, FindsName};

use crate::class::{Class, class_at};
use crate::comments::{block_comment, line_comment_length};
use crate::fault::ScanFault;
use crate::names::{Word, begins_name, is_reserved, read_word};
use crate::numbers::number_length;
use crate::punctuators::punctuator_length;
use crate::state::State;
use crate::strings::{Quoted, read_quoted};
use crate::units::is_line_terminator;
use flow_text::{OutOfMemory, Text};
use js_ast::{Token, TokenKind};
use js_number::{Num, text_to_number};
use std::alloc::Global;

/// What stands next.
#[derive(Drop)]
pub(crate) enum Found {
    /// White space, a line terminator or a comment, of so many units.
    Separator { length: usize, breaks_line: bool },
    Lexeme { token: Token },
}

/// The longest element that stands at the front of the units.
pub(crate) fn next_element(alloc: Global, state: State, units: &[u16]) -> Result<Found, ScanFault>
    requires some { 0 < length units.now }
    requires room { state.at + length units.now < 2 ^ 64 }
    ensures { Finds state units.now result }
{
    match class_at(units) {
        Class::Blank => Ok(blank(state, units)),
        Class::LineComment => Ok(line_comment(state, units)),
        Class::BlockComment => block(state, units),
        Class::Quoted => string(alloc, state, units),
        Class::Number => number(alloc, state, units),
        Class::Other => name_or_punctuator(alloc, state, units),
    }
}

fn blank(state: State, units: &[u16]) -> Found
    requires { class_at units.now ≡ Class.Blank }
    ensures { FindsElement state units.now result }
{
    match units {
        [unit, ..] => Found::Separator {
            length: 1,
            breaks_line: is_line_terminator(*unit),
        },
        [] => Found::Separator {
            length: 0,
            breaks_line: false,
        },
    }
}

fn line_comment(state: State, units: &[u16]) -> Found
    requires { class_at units.now ≡ Class.LineComment }
    ensures { FindsElement state units.now result }
{
    Found::Separator {
        length: line_comment_length(units),
        breaks_line: false,
    }
}

fn block(state: State, units: &[u16]) -> Result<Found, ScanFault>
    requires { class_at units.now ≡ Class.BlockComment }
    ensures { Finds state units.now result }
{
    match block_comment(units) {
        Some((length, breaks_line)) => Ok(Found::Separator {
            length,
            breaks_line,
        }),
        None => Err(ScanFault::Unterminated { at: state.at }),
    }
}

fn string(alloc: Global, state: State, units: &[u16]) -> Result<Found, ScanFault>
    requires class { class_at units.now ≡ Class.Quoted }
    requires room { state.at + length units.now < 2 ^ 64 }
    ensures { Finds state units.now result }
{
    match read_quoted(alloc, units)? {
        Quoted::Closed { value, length } => {
            let text = copied(alloc, &units[..length])?;
            Ok(lexeme(state, TokenKind::String(value), text, length))
        }
        Quoted::Open => Err(ScanFault::Unterminated { at: state.at }),
        Quoted::BadEscape { at } => Err(ScanFault::BadToken { at: state.at + at }),
    }
}

fn number(alloc: Global, state: State, units: &[u16]) -> Result<Found, ScanFault>
    requires class { class_at units.now ≡ Class.Number }
    requires room { state.at + length units.now < 2 ^ 64 }
    ensures { Finds state units.now result }
{
    let length = number_length(units);
    let rest = &units[length..];
    if begins_with_digit(rest) || begins_name(rest) {
        return Err(ScanFault::NumberLiteral { at: state.at });
    }
    let text = copied(alloc, &units[..length])?;
    match text_to_number(&text) {
        Ok(number) => match number {
            Num::Int(value) => Ok(lexeme(state, TokenKind::Number(value), text, length)),
            Num::Nan => Err(ScanFault::NumberLiteral { at: state.at }),
        },
        Err(_) => Err(ScanFault::NumberLiteral { at: state.at }),
    }
}

fn name_or_punctuator(alloc: Global, state: State, units: &[u16]) -> Result<Found, ScanFault>
    requires class { class_at units.now ≡ Class.Other }
    requires some { 0 < length units.now }
    requires room { state.at + length units.now < 2 ^ 64 }
    ensures { Finds state units.now result }
{
    match read_word(alloc, units)? {
        Some(word) => name(state, word, units),
        None => punctuator(alloc, state, units),
    }
}

fn name(state: State, word: Word, units: &[u16]) -> Result<Found, ScanFault>
    requires class { class_at units.now ≡ Class.Other }
    requires word { FindsName units.now word }
    requires room { state.at + length units.now < 2 ^ 64 }
    ensures { Finds state units.now result }
{
    if begins_with(0x5C, &units[word.length..]) {
        return Err(ScanFault::BadToken {
            at: state.at + word.length,
        });
    }
    let reserved = is_reserved(word.text.units());
    if word.escaped && reserved {
        return Err(ScanFault::BadToken { at: state.at });
    }
    let kind = if reserved {
        TokenKind::Reserved
    } else {
        TokenKind::Name
    };
    Ok(lexeme(state, kind, word.text, word.length))
}

fn punctuator(alloc: Global, state: State, units: &[u16]) -> Result<Found, ScanFault>
    requires class { class_at units.now ≡ Class.Other }
    requires none { BeginsName units.now → ⊥ }
    requires some { 0 < length units.now }
    requires room { state.at + length units.now < 2 ^ 64 }
    ensures { Finds state units.now result }
{
    let length = punctuator_length(units);
    if length == 0 {
        return Err(ScanFault::BadToken { at: state.at });
    }
    if begins_with(0x2F, units) && !state.divides {
        return Err(ScanFault::RegExpLiteral { at: state.at });
    }
    let text = copied(alloc, &units[..length])?;
    Ok(lexeme(state, TokenKind::Punctuator, text, length))
}

fn lexeme(state: State, kind: TokenKind, text: Text, length: usize) -> Found
    requires { state.at + length < 2 ^ 64 }
    ensures { result ≡ Found.Lexeme (record { kind = kind; text = text; from = state.at; to = state.at + length; newline = state.newline }) }
{
    Found::Lexeme {
        token: Token {
            kind,
            text,
            from: state.at,
            to: state.at + length,
            newline: state.newline,
        },
    }
}

fn copied(alloc: Global, units: &[u16]) -> Result<Text, OutOfMemory>
    ensures { IfOk result (λ text. text ≡ units.now) }
{
    let copy = Vec::from_slice(alloc, units)?;
    Text::of_units(alloc, copy)
}

#[tactic(auto, unfolding(crate::specs::Units::begins_with))]
fn begins_with(unit: u16, units: &[u16]) -> bool
    ensures { result ≡ begins_with unit units.now }
{
    units.first() == Some(&unit)
}

#[tactic(auto, unfolding(crate::specs::Units::begins_with_digit))]
fn begins_with_digit(units: &[u16]) -> bool
    ensures { result ≡ begins_with_digit units.now }
{
    matches!(units, [0x30..=0x39, ..])
}
