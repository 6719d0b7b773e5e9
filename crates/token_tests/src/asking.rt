//! Calls of the scanner.

use crate::told::holds;
use flow_text::{OutOfMemory, Text};
use js_ast::{Token, TokenKind};
use js_scan::{ScanFault, scan};
use std::alloc::Global;
use std::process::Abort;
use std::test::*;

/// What a token is to be: its letter, text, place, the place behind it, and whether a line terminator stands before it.
pub(crate) type Row = (char, &'static str, usize, usize, bool);

/// A source with its tokens.
pub(crate) type Cut = (&'static str, &'static [Row]);

/// A source with its fault.
pub(crate) type Faulty = (&'static str, ScanFault);

pub(crate) fn scanned(alloc: Global, source: &str) -> Result<Vec<Token>, ScanFault> {
    scan(alloc, &Text::spelled(alloc, source)?)
}

// A letter for what a token is: name, reserved word, punctuator, number, string.
fn letter(kind: &TokenKind) -> char {
    match kind {
        TokenKind::Name => 'n',
        TokenKind::Reserved => 'r',
        TokenKind::Punctuator => 'p',
        TokenKind::Number(_) => '#',
        TokenKind::String(_) => '$',
    }
}

fn is_token(alloc: Global, token: &Token, row: &Row) -> Result<bool, OutOfMemory> {
    let (kind, text, from, to, newline) = row;
    let text = Text::spelled(alloc, *text)?;
    Ok(
        letter(&token.kind) == *kind
            && token.text == text
            && token.from == *from
            && token.to == *to
            && token.newline == *newline,
    )
}

fn are_tokens(alloc: Global, tokens: &[Token], rows: &[Row]) -> Result<bool, OutOfMemory> {
    for (token, row) in tokens.iter().zip(rows) {
        if !is_token(alloc, token, row)? {
            return Ok(false);
        }
    }
    Ok(tokens.len() == rows.len())
}

fn has_tokens(alloc: Global, source: &str, rows: &[Row]) -> Result<bool, ScanFault> {
    let tokens = scanned(alloc, source)?;
    Ok(are_tokens(alloc, &tokens, rows)?)
}

/// The source is one token, with this letter and from its first unit to its last.
pub(crate) fn is_one(alloc: Global, source: &Text, kind: char) -> Result<bool, ScanFault> {
    let tokens = scan(alloc, source)?;
    Ok(match tokens.as_slice() {
        [token] => {
            letter(&token.kind) == kind
                && token.text == *source
                && token.from == 0
                && token.to == source.len()
        }
        _ => false,
    })
}

pub(crate) fn has_fault(alloc: Global, source: &str, fault: ScanFault) -> bool {
    match scanned(alloc, source) {
        Ok(_) => false,
        Err(found) => found == fault,
    }
}

pub(crate) fn all_cut(rt: &impl Abort, alloc: Global, rows: &[Cut]) {
    for (source, tokens) in rows {
        assert!(rt; holds(has_tokens(alloc, *source, *tokens)), "of {source}");
    }
}

pub(crate) fn all_faulty(rt: &impl Abort, alloc: Global, rows: &[Faulty]) {
    for (source, fault) in rows {
        assert!(rt; has_fault(alloc, *source, *fault), "of {source}");
    }
}
