//! What a token makes of the expression before it.

ghost use Rattle.std.specs.Prelude.{◌≡◌, Some};
ghost use Rattle.js_ast.specs.Words.{a_key, a_sign};
ghost use Rattle.js_list_parser.specs.ExpressionParsing.{suffix_of, suffix_at, makes_target};
ghost use Rattle.js_parse_parts.specs.Suffixes.{view_suffix};

use crate::words::{Word, word_at};
use js_ast::{AssignOperator, BinaryOperator, Keyword, PostfixOperator, Sign, Token};

/// What a token makes of the expression before it.
#[derive(Clone, Copy, Debug, PartialEq, Eq)]
pub enum Suffix {
    Member,
    Index,
    Call,
    Postfix(PostfixOperator),
    Binary(BinaryOperator),
    Conditional,
    Assign(AssignOperator),
    Comma,
    /// It doesn't go on with it.
    Nothing,
}

fn suffix_of_key(key: Keyword) -> Suffix
    ensures { view_suffix result ≡ suffix_of (Some (a_key key)) }
{
    match key {
        Keyword::Instanceof => Suffix::Binary(BinaryOperator::Instanceof),
        Keyword::In => Suffix::Binary(BinaryOperator::In),
        _ => Suffix::Nothing,
    }
}

fn suffix_of_sign(sign: Sign) -> Suffix
    ensures { view_suffix result ≡ suffix_of (Some (a_sign sign)) }
{
    match sign {
        Sign::Dot => Suffix::Member,
        Sign::OpenBracket => Suffix::Index,
        Sign::OpenParen => Suffix::Call,
        Sign::PlusPlus => Suffix::Postfix(PostfixOperator::Increment),
        Sign::MinusMinus => Suffix::Postfix(PostfixOperator::Decrement),
        Sign::Star => Suffix::Binary(BinaryOperator::Multiply),
        Sign::Slash => Suffix::Binary(BinaryOperator::Divide),
        Sign::Percent => Suffix::Binary(BinaryOperator::Remainder),
        Sign::Plus => Suffix::Binary(BinaryOperator::Add),
        Sign::Minus => Suffix::Binary(BinaryOperator::Subtract),
        Sign::ShiftLeft => Suffix::Binary(BinaryOperator::ShiftLeft),
        Sign::ShiftRight => Suffix::Binary(BinaryOperator::ShiftRight),
        Sign::ShiftRightZero => Suffix::Binary(BinaryOperator::ShiftRightZero),
        Sign::Less => Suffix::Binary(BinaryOperator::Less),
        Sign::Greater => Suffix::Binary(BinaryOperator::Greater),
        Sign::LessEqual => Suffix::Binary(BinaryOperator::LessEqual),
        Sign::GreaterEqual => Suffix::Binary(BinaryOperator::GreaterEqual),
        Sign::Equal => Suffix::Binary(BinaryOperator::Equal),
        Sign::NotEqual => Suffix::Binary(BinaryOperator::NotEqual),
        Sign::StrictEqual => Suffix::Binary(BinaryOperator::StrictEqual),
        Sign::StrictNotEqual => Suffix::Binary(BinaryOperator::StrictNotEqual),
        Sign::And => Suffix::Binary(BinaryOperator::BitAnd),
        Sign::Xor => Suffix::Binary(BinaryOperator::BitXor),
        Sign::Or => Suffix::Binary(BinaryOperator::BitOr),
        Sign::AndAnd => Suffix::Binary(BinaryOperator::And),
        Sign::OrOr => Suffix::Binary(BinaryOperator::Or),
        Sign::Question => Suffix::Conditional,
        Sign::Assign => Suffix::Assign(AssignOperator::Assign),
        Sign::StarAssign => Suffix::Assign(AssignOperator::Multiply),
        Sign::SlashAssign => Suffix::Assign(AssignOperator::Divide),
        Sign::PercentAssign => Suffix::Assign(AssignOperator::Remainder),
        Sign::PlusAssign => Suffix::Assign(AssignOperator::Add),
        Sign::MinusAssign => Suffix::Assign(AssignOperator::Subtract),
        Sign::ShiftLeftAssign => Suffix::Assign(AssignOperator::ShiftLeft),
        Sign::ShiftRightAssign => Suffix::Assign(AssignOperator::ShiftRight),
        Sign::ShiftRightZeroAssign => Suffix::Assign(AssignOperator::ShiftRightZero),
        Sign::AndAssign => Suffix::Assign(AssignOperator::BitAnd),
        Sign::XorAssign => Suffix::Assign(AssignOperator::BitXor),
        Sign::OrAssign => Suffix::Assign(AssignOperator::BitOr),
        Sign::Comma => Suffix::Comma,
        _ => Suffix::Nothing,
    }
}

/// What the first token makes of the expression before it.
pub fn suffix_at(tokens: &[Token]) -> Suffix
    ensures { view_suffix result ≡ suffix_at tokens.now }
{
    match word_at(tokens) {
        Some(Word::Key(key)) => suffix_of_key(key),
        Some(Word::Sign(sign)) => suffix_of_sign(sign),
        _ => Suffix::Nothing,
    }
}

/// Whether it makes a target.
pub fn makes_target(suffix: Suffix) -> bool
    ensures { result ≡ makes_target (view_suffix suffix) }
{
    matches!(suffix, Suffix::Member | Suffix::Index)
}
