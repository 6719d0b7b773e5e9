//! Sources: the program that bytes are, or why they are no program.

ghost use Rattle.std.specs.Prelude.{◌≡◌, ◌≤◌, length, Some, Err, IfOk};
ghost use Rattle.flow_text.specs.Places.{place_of};
ghost use Rattle.js_ast.specs.IsMarked.{IsMarked};
ghost use Rattle.js_ast.specs.Views.{view_program};
ghost use Rattle.js_faults.specs.declared.fault.EarlyError.{EarlyError};
ghost use Rattle.js_scan.specs.Tokens.{fault_at, IsTokens, IsFaultOf};
ghost use Rattle.js_early.specs.EarlyErrors.{early_error};
ghost use Rattle.js_parse_expr.specs.Parsed.{fault_at as parse_fault_at};
ghost use Rattle.run_files.specs.Sources.{source_limit};
ghost use Rattle.run_files.specs.Accepting.{TakesText, TakesTokens, TakesTree, TakesEarly, TakesSource, TakesProgram, TakesScript, IsParseFault};
ghost use Rattle.run_files.specs.Seen.{seen_script};

use crate::refusals::{Refusal, SourceKind};
use flow_text::{Text, TextFault};
use js_ast::{Program, Token};
use js_early::{EarlyFault, early};
use js_parse::{ParseFault, parse};
use js_scan::{ScanFault, scan};
use std::alloc::Global;

/// A text and the program that it is.
#[derive(Drop)]
pub(crate) struct Source {
    pub(crate) text: Text,
    pub(crate) program: Program,
}

/// The bytes of a source are a program.
pub(crate) fn check_program<'a>(alloc: Global, bytes: &[u8]) -> Result<(), Refusal<'a>>
    requires { length bytes.now ≤ source_limit }
    ensures { TakesProgram bytes.now result }
{
    let _source = source_of(alloc, bytes)?;
    Ok(())
}

/// The program that the bytes of a source are.
pub(crate) fn script_of<'a>(alloc: Global, bytes: &[u8]) -> Result<Program, Refusal<'a>>
    requires { length bytes.now ≤ source_limit }
    ensures takes { TakesScript bytes.now (seen_script result) }
    ensures marked { IfOk result IsMarked }
{
    let source = source_of(alloc, bytes)?;
    Ok(source.program)
}

/// The program that the bytes of a source are, with its text.
fn source_of<'a>(alloc: Global, bytes: &[u8]) -> Result<Source, Refusal<'a>>
    requires { length bytes.now ≤ source_limit }
    ensures takes { TakesSource bytes.now result }
    ensures marked { IfOk result (λ source. IsMarked source.program) }
{
    let text = text_of(alloc, bytes)?;
    let tokens = tokens_of(alloc, &text)?;
    let program = program_of(alloc, &text, &tokens)?;
    refuse_early_error(&text, &program)?;
    Ok(Source { text, program })
}

/// The text that the bytes of a source are.
#[tactic(auto, unfolding(crate::specs::Sources::source_text))]
fn text_of<'a>(alloc: Global, bytes: &[u8]) -> Result<Text, Refusal<'a>>
    requires { length bytes.now ≤ source_limit }
    ensures { TakesText bytes.now result }
{
    match Text::from_utf8(alloc, bytes) {
        Ok(text) => Ok(text),
        Err(TextFault::BadUtf8 { at }) => Err(Refusal::SourceUtf8 { at }),
        Err(TextFault::OutOfMemory) => Err(Refusal::OutOfMemory),
    }
}

/// The tokens of a source.
fn tokens_of<'a>(alloc: Global, text: &Text) -> Result<Vec<Token>, Refusal<'a>>
    ensures { TakesTokens text.now result }
{
    match scan(alloc, text) {
        Ok(tokens) => Ok(tokens),
        Err(fault) => Err(no_tokens(text, fault)),
    }
}

/// The refusal of a source that has no tokens.
fn no_tokens<'a>(text: &Text, fault: ScanFault) -> Refusal<'a>
    requires place { fault_at fault ≤ length text.now }
    requires fault { IsFaultOf text.now fault }
    ensures { TakesTokens text.now (Err result) }
{
    let (kind, at) = match fault {
        ScanFault::BadToken { at } => (SourceKind::BadToken, at),
        ScanFault::Unterminated { at } => (SourceKind::Unterminated, at),
        ScanFault::RegExpLiteral { at } => (SourceKind::RegExpLiteral, at),
        ScanFault::NumberLiteral { at } => (SourceKind::NumberLiteral, at),
        ScanFault::OutOfMemory => return Refusal::OutOfMemory,
    };
    bad_source(text, kind, at)
}

/// The program that the tokens of a text are.
fn program_of<'a>(alloc: Global, text: &Text, tokens: &[Token]) -> Result<Program, Refusal<'a>>
    requires { IsTokens text.now tokens.now }
    ensures takes { TakesTree text.now tokens.now result }
    ensures marked { IfOk result IsMarked }
{
    match parse(alloc, tokens, text.len()) {
        Ok(program) => Ok(program),
        Err(fault) => Err(no_program(text, tokens, fault)),
    }
}

/// The refusal of tokens that are no program.
fn no_program<'a>(text: &Text, tokens: &[Token], fault: ParseFault) -> Refusal<'a>
    requires place { parse_fault_at fault ≤ length text.now }
    requires fault { IsParseFault tokens.now (length text.now) fault }
    ensures { TakesTree text.now tokens.now (Err result) }
{
    let (kind, at) = match fault {
        ParseFault::Syntax { at } => (SourceKind::Syntax, at),
        ParseFault::With { at } => (SourceKind::With, at),
        ParseFault::Nesting { at } => (SourceKind::Nesting, at),
        ParseFault::Directive { at } => (SourceKind::Directive, at),
        ParseFault::OutOfMemory => return Refusal::OutOfMemory,
    };
    bad_source(text, kind, at)
}

/// Refuses a program that has an early error.
fn refuse_early_error<'a>(text: &Text, program: &Program) -> Result<(), Refusal<'a>>
    requires { (fault : EarlyError) → early_error (view_program program.now) ≡ Some fault → fault.at ≤ length text.now }
    ensures { TakesEarly text.now (view_program program.now) result }
{
    let (kind, at) = match early(program) {
        Ok(()) => return Ok(()),
        Err(EarlyFault::EvalArguments { at }) => (SourceKind::EvalArguments, at),
        Err(EarlyFault::RepeatedParameter { at }) => (SourceKind::RepeatedParameter, at),
        Err(EarlyFault::RepeatedProperty { at }) => (SourceKind::RepeatedProperty, at),
        Err(EarlyFault::DeleteName { at }) => (SourceKind::DeleteName, at),
        Err(EarlyFault::Jump { at }) => (SourceKind::Jump, at),
        Err(EarlyFault::RepeatedLabel { at }) => (SourceKind::RepeatedLabel, at),
        Err(EarlyFault::StrictWord { at }) => (SourceKind::StrictWord, at),
    };
    Err(bad_source(text, kind, at))
}

/// The refusal of a text for a fault at one of its units, or at its end.
fn bad_source<'a>(text: &Text, kind: SourceKind, at: usize) -> Refusal<'a>
    requires { at ≤ length text.now }
    ensures { result ≡ Refusal.BadSource kind (place_of text.now at) }
{
    Refusal::BadSource {
        kind,
        place: text.place(at),
    }
}
