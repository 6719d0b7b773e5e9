//! How an expression begins.

ghost use Rattle.std.specs.Prelude.{◌≤◌, suc, IfOk};
ghost use Rattle.js_ast.specs.Grammar.{place_of};
ghost use Rattle.js_ast.specs.Depth.{depth};
ghost use Rattle.js_list_parser.specs.Reading as reading;
ghost use Rattle.js_list_parser.specs.Parsing.{parsers};
ghost use Rattle.js_list_parser.specs.ExpressionParsing.{primary, primary_by, unary_by, unary_of, function_by, ident_at, new_rest};
ghost use Rattle.js_ast.specs.Views.{view_expr};
ghost use Rattle.js_parse_parts.specs.Answers.{Gives, Deep};

use crate::expression::expression;
use crate::functions::function_rest;
use crate::lists::{arguments, items};
use crate::objects::properties;
use crate::operand::operand;
use js_ast::{Expr, Keyword, Sign, Token};
use js_parse_parts::{
    Fault, Found, ReadFault, Word, array, behind, boolean, close_paren, function, ident_at,
    is_step, is_target, name, new_bare, new_with, null, number, object, operand_level, paren,
    place_of, room, string, takes_unary, this, unary, unary_at, word_at,
};
use std::alloc::Global;

/// An expression up to what may be behind it.
#[cycle(parser)]
#[tactic(auto, unfolding(js_list_parser::specs::ExpressionParsing::primary, js_list_parser::specs::ExpressionParsing::primary_by, js_list_parser::specs::ExpressionParsing::paren_rest, js_list_parser::specs::ExpressionParsing::array_rest, js_list_parser::specs::ExpressionParsing::object_rest))]
pub(crate) fn primary<'a>(
    alloc: Global,
    d: u32,
    wanted: u8,
    free: bool,
    tokens: &'a [Token],
) -> Found<'a, Expr>
    ensures gives { Gives (λ x. (view_expr x.0, x.2.now)) result (primary (parsers d) d wanted free tokens.now) }
    ensures deep { IfOk result (λ x. Deep (suc d) (depth (view_expr x.0)) x.1) }
{
    let at = place_of(tokens);
    let rest = behind(tokens);
    match word_at(tokens) {
        Some(Word::Name(text)) => name(alloc, text, tokens),
        Some(Word::Number(value)) => number(alloc, value, tokens),
        Some(Word::String(text, value)) => string(alloc, text, value, tokens),
        Some(Word::Key(Keyword::This)) => this(alloc, tokens),
        Some(Word::Key(Keyword::Null)) => null(alloc, tokens),
        Some(Word::Key(Keyword::True)) => boolean(alloc, true, tokens),
        Some(Word::Key(Keyword::False)) => boolean(alloc, false, tokens),
        Some(Word::Sign(Sign::OpenParen)) => {
            room(d, 0, tokens)?;
            let (inner, height, rest) = expression(alloc, d, 0, true, rest)?;
            let rest = close_paren(rest)?;
            let (expr, depth) = paren(alloc, at, (inner, height))?;
            Ok((expr, depth, rest))
        }
        Some(Word::Sign(Sign::OpenBracket)) => {
            room(d, 0, tokens)?;
            let (list, height, rest) = items(alloc, d, rest)?;
            let (expr, depth) = array(alloc, at, (list.0, height), list.1)?;
            Ok((expr, depth, rest))
        }
        Some(Word::Sign(Sign::OpenBrace)) => {
            room(d, 0, tokens)?;
            let (list, height, rest) = properties(alloc, d, rest)?;
            let (expr, depth) = object(alloc, at, (list.0, height), list.1)?;
            Ok((expr, depth, rest))
        }
        Some(Word::Key(Keyword::Function)) => {
            room(d, 0, tokens)?;
            function_expression(alloc, d, at, rest)
        }
        Some(Word::Key(Keyword::New)) => {
            room(d, 0, tokens)?;
            new_expression(alloc, d, free, at, rest)
        }
        _ => unary_expression(alloc, d, wanted, free, tokens),
    }
}

// A function, with its name taken where there is one.
#[cycle(parser)]
#[tactic(auto, unfolding(js_list_parser::specs::ExpressionParsing::function_by, js_list_parser::specs::ExpressionParsing::function_named))]
fn function_expression<'a>(alloc: Global, d: u32, at: usize, tokens: &'a [Token]) -> Found<'a, Expr>
    requires { 1 ≤ d }
    ensures gives { Gives (λ x. (view_expr x.0, x.2.now)) result (function_by (parsers d) at (ident_at tokens.now) tokens.now) }
    ensures deep { IfOk result (λ x. Deep (suc d) (depth (view_expr x.0)) x.1) }
{
    let name = ident_at(alloc, tokens)?;
    let inner = match &name {
        Some(_) => behind(tokens),
        None => tokens,
    };
    let (params, body, height, rest) = function_rest(alloc, d, inner)?;
    let (expr, depth) = function(alloc, at, name, params, (body, height))?;
    Ok((expr, depth, rest))
}

// What stands behind `new`.
#[cycle(parser)]
#[tactic(auto, unfolding(js_list_parser::specs::ExpressionParsing::new_rest, js_list_parser::specs::ExpressionParsing::new_by))]
fn new_expression<'a>(
    alloc: Global,
    d: u32,
    free: bool,
    at: usize,
    tokens: &'a [Token],
) -> Found<'a, Expr>
    requires { 1 ≤ d }
    ensures gives { Gives (λ x. (view_expr x.0, x.2.now)) result (new_rest (parsers d) free at tokens.now) }
    ensures deep { IfOk result (λ x. Deep (suc d) (depth (view_expr x.0)) x.1) }
{
    let (callee, height, rest) = expression(alloc, d, 16, free, tokens)?;
    match word_at(rest) {
        Some(Word::Sign(Sign::OpenParen)) => {
            let (args, inner, rest) = arguments(alloc, d, behind(rest))?;
            let (expr, depth) = new_with(alloc, at, (callee, height), (args, inner))?;
            Ok((expr, depth, rest))
        }
        _ => {
            let (expr, depth) = new_bare(alloc, at, (callee, height))?;
            Ok((expr, depth, rest))
        }
    }
}

// An operator in front, where the wanted level allows one, and its operand.
#[cycle(parser)]
#[tactic(auto, unfolding(js_list_parser::specs::ExpressionParsing::unary_by, js_list_parser::specs::ExpressionParsing::unary_rest, js_list_parser::specs::ExpressionParsing::unary_operand, js_list_parser::specs::ExpressionParsing::unary_made))]
fn unary_expression<'a>(
    alloc: Global,
    d: u32,
    wanted: u8,
    free: bool,
    tokens: &'a [Token],
) -> Found<'a, Expr>
    ensures gives { Gives (λ x. (view_expr x.0, x.2.now)) result (unary_by (parsers d) d wanted free (unary_of (reading.word_at tokens.now)) tokens.now) }
    ensures deep { IfOk result (λ x. Deep (suc d) (depth (view_expr x.0)) x.1) }
{
    let at = place_of(tokens);
    let Some(operator) = unary_at(tokens) else {
        return Err(ReadFault::Refused(Fault::Syntax, tokens));
    };
    if !takes_unary(wanted) {
        return Err(ReadFault::Refused(Fault::Syntax, tokens));
    }
    room(d, 0, tokens)?;
    let level = operand_level(operator);
    if !is_step(operator) {
        let (inner, height, rest) = expression(alloc, d, level, free, behind(tokens))?;
        let (expr, depth) = unary(alloc, at, operator, (inner, height))?;
        return Ok((expr, depth, rest));
    }
    let (inner, height, rest) = operand(alloc, d, level, free, behind(tokens))?;
    if !is_target(&inner) {
        return Err(ReadFault::Refused(Fault::Syntax, rest));
    }
    let (expr, depth) = unary(alloc, at, operator, (inner, height))?;
    Ok((expr, depth, rest))
}
