//! Where an operator may stand.

ghost use Rattle.std.specs.Prelude.{◌≡◌, Some, false, leb};
ghost use Rattle.js_ast.specs.Words.{a_key, a_sign};
ghost use Rattle.js_list_parser.specs.Reading.{word_at};
ghost use Rattle.js_list_parser.specs.ExpressionParsing.{unary_of, is_base, applies_by, applies, begins_expression, begins_at};
ghost use Rattle.js_ast.specs.Views.{view_expr};
ghost use Rattle.js_parse_parts.specs.Suffixes.{view_suffix};

use crate::levels::{binding, is_bare_new, is_target, level};
use crate::suffixes::{Suffix, suffix_at};
use crate::words::{Word, on_line, word_at};
use js_ast::{BinaryOperator, Expr, Keyword, Sign, Token, UnaryOperator};

fn unary_of_key(key: Keyword) -> Option<UnaryOperator>
    ensures { result ≡ unary_of (Some (a_key key)) }
{
    match key {
        Keyword::Delete => Some(UnaryOperator::Delete),
        Keyword::Void => Some(UnaryOperator::Void),
        Keyword::Typeof => Some(UnaryOperator::Typeof),
        _ => None,
    }
}

fn unary_of_sign(sign: Sign) -> Option<UnaryOperator>
    ensures { result ≡ unary_of (Some (a_sign sign)) }
{
    match sign {
        Sign::Plus => Some(UnaryOperator::Plus),
        Sign::Minus => Some(UnaryOperator::Minus),
        Sign::Tilde => Some(UnaryOperator::BitNot),
        Sign::Not => Some(UnaryOperator::Not),
        Sign::PlusPlus => Some(UnaryOperator::Increment),
        Sign::MinusMinus => Some(UnaryOperator::Decrement),
        _ => None,
    }
}

/// The operator in front that the first token is.
pub fn unary_at(tokens: &[Token]) -> Option<UnaryOperator>
    ensures { result ≡ unary_of (word_at tokens.now) }
{
    match word_at(tokens) {
        Some(Word::Key(key)) => unary_of_key(key),
        Some(Word::Sign(sign)) => unary_of_sign(sign),
        _ => None,
    }
}

/// Whether an operator in front may begin an expression where a level is wanted.
pub fn takes_unary(wanted: u8) -> bool
    ensures { result ≡ leb wanted 13 }
{
    wanted <= 13
}

// Whether an expression may be the base of a member, an element or a call.
fn is_base(expr: &Expr) -> bool
    ensures { result ≡ is_base (view_expr expr.now) }
{
    level(expr) >= 15 && !is_bare_new(expr)
}

// Whether an operator goes on with an expression, where `in` is allowed or not.
fn joins(wanted: u8, free: bool, expr: &Expr, operator: BinaryOperator) -> bool
    ensures { result ≡ applies_by wanted free (view_expr expr.now) false (view_suffix (Suffix.Binary operator)) }
{
    let own = binding(operator);
    (free || !matches!(operator, BinaryOperator::In)) && own <= level(expr) && wanted <= own
}

// Whether a token on the same line or not goes on with an expression.
fn applies_by(wanted: u8, free: bool, expr: &Expr, same_line: bool, suffix: Suffix) -> bool
    ensures { result ≡ applies_by wanted free (view_expr expr.now) same_line (view_suffix suffix) }
{
    match suffix {
        Suffix::Member | Suffix::Index => is_base(expr) && wanted <= level(expr).min(16),
        Suffix::Call => is_base(expr) && wanted <= 15,
        Suffix::Postfix(_) => same_line && is_target(expr) && wanted <= 14,
        Suffix::Binary(operator) => joins(wanted, free, expr, operator),
        Suffix::Conditional => level(expr) >= 3 && wanted <= 2,
        Suffix::Assign(_) => is_target(expr) && wanted <= 1,
        Suffix::Comma => wanted == 0,
        Suffix::Nothing => false,
    }
}

/// Whether the first token goes on with an expression, where a level is wanted and the operator `in` is allowed or not.
pub fn applies(wanted: u8, free: bool, expr: &Expr, tokens: &[Token]) -> bool
    ensures { result ≡ applies wanted free (view_expr expr.now) tokens.now }
{
    applies_by(wanted, free, expr, on_line(tokens), suffix_at(tokens))
}

fn key_begins(key: Keyword) -> bool
    ensures { result ≡ begins_expression (Some (a_key key)) }
{
    matches!(
        key,
        Keyword::This
            | Keyword::Null
            | Keyword::True
            | Keyword::False
            | Keyword::Function
            | Keyword::New
            | Keyword::Delete
            | Keyword::Void
            | Keyword::Typeof
    )
}

fn sign_begins(sign: Sign) -> bool
    ensures { result ≡ begins_expression (Some (a_sign sign)) }
{
    matches!(
        sign,
        Sign::OpenParen
            | Sign::OpenBracket
            | Sign::OpenBrace
            | Sign::Plus
            | Sign::Minus
            | Sign::PlusPlus
            | Sign::MinusMinus
            | Sign::Tilde
            | Sign::Not
    )
}

// Whether the first token begins an expression.
fn begins_expression(tokens: &[Token]) -> bool
    ensures { result ≡ begins_expression (word_at tokens.now) }
{
    match word_at(tokens) {
        Some(Word::Name(_) | Word::Number(_) | Word::String(_, _)) => true,
        Some(Word::Key(key)) => key_begins(key),
        Some(Word::Sign(sign)) => sign_begins(sign),
        _ => false,
    }
}

/// Whether the first token begins an expression where a level is wanted.
pub fn begins_at(wanted: u8, tokens: &[Token]) -> bool
    ensures { result ≡ begins_at wanted (word_at tokens.now) }
{
    begins_expression(tokens) && (takes_unary(wanted) || unary_at(tokens).is_none())
}
