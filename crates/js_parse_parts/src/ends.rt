//! How a statement ends, and what stands on the line of its first word.

ghost use Rattle.std.specs.Prelude.{◌≡◌, ◌||◌, None, IfOk, option_map};
ghost use Rattle.js_ast.specs.Grammar.{continues, may_elide};
ghost use Rattle.js_ast.specs.Levels.{ends_postfix};
ghost use Rattle.js_list_parser.specs.StatementParsing.{semicolon_here, ending, label};
ghost use Rattle.js_ast.specs.Views.{view_expr, view_name, view_semi};
ghost use Rattle.js_parse_parts.specs.Answers.{Gives};
ghost use Rattle.js_list_parser.specs.Reading.{word_at};
ghost use Rattle.js_parse_parts.specs.Labels.{label_of};
ghost use Rattle.js_parse_parts.specs.Words.{word_of};

use crate::expected::ident_at;
use crate::reading::{Fault, ReadFault};
use crate::words::{Word, behind, on_line, word_at};
use flow_text::Text;
use js_ast::{Expr, ExprKind, Ident, Semi, Sign, Token};
use std::alloc::Global;

// Whether the right edge of an expression is an operator behind its operand.
fn ends_postfix(expr: &Expr) -> bool
    ensures { result ≡ ends_postfix (view_expr expr.now) }
{
    match &*expr.kind {
        ExprKind::Postfix { .. } => true,
        ExprKind::Unary { operand, .. } => ends_postfix(operand),
        ExprKind::Binary { right, .. } => ends_postfix(right),
        ExprKind::Conditional { other, .. } => ends_postfix(other),
        ExprKind::Assign { value, .. } => ends_postfix(value),
        ExprKind::Comma { right, .. } => ends_postfix(right),
        _ => false,
    }
}

// Whether a token goes on with the expression before it, where a semicolon may be left out.
fn continues(before: Option<&Expr>, word: Word<'_>) -> bool
    ensures { result ≡ continues (option_map (λ e. view_expr e.now) before.entry) (word_of word.entry) }
{
    match (before, word) {
        (Some(_), Word::Sign(Sign::Plus | Sign::Minus)) => true,
        (Some(expr), Word::Sign(Sign::OpenParen | Sign::OpenBracket)) => !ends_postfix(expr),
        _ => false,
    }
}

// Whether a semicolon may be left out behind this expression, or behind none.
fn may_elide(before: Option<&Expr>, tokens: &[Token]) -> bool
    ensures { result ≡ may_elide (option_map (λ e. view_expr e.now) before.entry) tokens.now }
{
    match word_at(tokens) {
        None | Some(Word::Sign(Sign::CloseBrace)) => true,
        Some(Word::Sign(Sign::Semicolon)) => false,
        Some(word) => !on_line(tokens) && !continues(before, word),
    }
}

// Whether a semicolon comes.
fn semicolon_here(tokens: &[Token]) -> bool
    ensures { result ≡ semicolon_here tokens.now }
{
    matches!(word_at(tokens), Some(Word::Sign(Sign::Semicolon)))
}

/// The end of a statement behind this expression, or behind none, and the tokens behind that.
#[tactic(auto, unfolding(js_list_parser::specs::StatementParsing::ending))]
pub fn ending<'a>(
    before: Option<&Expr>,
    tokens: &'a [Token],
) -> Result<(Semi, &'a [Token]), ReadFault<'a>>
    ensures { Gives (λ x. (view_semi x.0, x.1.now)) result (ending (option_map (λ e. view_expr e.now) before.entry) tokens.now) }
{
    if semicolon_here(tokens) {
        return Ok((Semi::Written, behind(tokens)));
    }
    if may_elide(before, tokens) {
        return Ok((Semi::Elided, tokens));
    }
    Err(ReadFault::Refused(Fault::Syntax, tokens))
}

/// Whether a statement ends behind its first word, so that no value comes.
pub fn ends_here(tokens: &[Token]) -> bool
    ensures { result ≡ (semicolon_here tokens.now || may_elide None tokens.now) }
{
    semicolon_here(tokens) || may_elide(None, tokens)
}

/// A label on the same line, or none, and the tokens behind it.
#[tactic(auto, unfolding(js_list_parser::specs::StatementParsing::label, js_list_parser::specs::StatementParsing::label_by))]
pub fn label(alloc: Global, tokens: &[Token]) -> Result<(Option<Ident>, &[Token]), ReadFault<'_>>
    ensures { Gives (λ x. (view_name x.0, x.1.now)) result (label tokens.now) }
{
    if on_line(tokens) {
        if let Some(name) = ident_at(alloc, tokens)? {
            return Ok((Some(name), behind(tokens)));
        }
    }
    Ok((None, tokens))
}

/// The label that an expression is: a lone name before a colon.
pub fn label_of<'a>(expr: &'a Expr, tokens: &[Token]) -> Option<&'a Text>
    ensures { option_map (λ text. text.now) result ≡ label_of (view_expr expr.now) (word_at tokens.now) }
{
    match (&*expr.kind, word_at(tokens)) {
        (ExprKind::Name(text), Some(Word::Sign(Sign::Colon))) => Some(text),
        _ => None,
    }
}
