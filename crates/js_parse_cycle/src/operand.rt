//! The operand of `++` and `--`.

ghost use Rattle.std.specs.Prelude.{◌≡◌, ◌≤◌, suc, IfOk};
ghost use Rattle.js_ast.specs.Depth.{depth};
ghost use Rattle.js_list_parser.specs.Reading.{loop};
ghost use Rattle.js_list_parser.specs.Parsing.{parsers};
ghost use Rattle.js_list_parser.specs.ExpressionParsing.{further_at, operand_first, operand_step};
ghost use Rattle.js_ast.specs.Views.{view_expr};
ghost use Rattle.js_parse_parts.specs.Answers.{Gives, Deep, turn_of, TurnIs};
ghost use Rattle.js_parse_parts.specs.Suffixes.{view_suffix};

use crate::expression::suffix;
use crate::primary::primary;
use js_ast::{Expr, Sign, Token};
use js_parse_parts::{
    Fault, Found, ReadFault, Suffix, Turn, Word, applies, begins_at, behind, close_paren,
    makes_target, name, paren, place_of, room, suffix_at, word_at,
};
use std::alloc::Global;

/// An operand of a level at least: a target whose depth and one more are below the limit, or what becomes one.
#[cycle(parser)]
#[tactic(auto, using(crate::proofs::Layers::operand_layer), unfolding(js_list_parser::specs::ExpressionParsing::operand_at, js_list_parser::specs::ExpressionParsing::operand_climb))]
pub(crate) fn operand<'a>(
    alloc: Global,
    limit: u32,
    wanted: u8,
    free: bool,
    tokens: &'a [Token],
) -> Found<'a, Expr>
    requires { 1 ≤ limit }
    ensures gives { Gives (λ x. (view_expr x.0, x.2.now)) result ((parsers limit).operand wanted free tokens.now) }
    ensures deep { IfOk result (λ x. Deep limit (depth (view_expr x.0)) x.1) }
{
    let d = limit - 1;
    let (first, depth, rest) = operand_first(alloc, d, wanted, free, tokens)?;
    operand_climb(alloc, d, wanted, free, (first, depth), rest)
}

// How an operand begins: a name is a target, what is in parentheses may become one, and behind anything else a member must come.
#[cycle(parser)]
#[tactic(auto, using(crate::proofs::Layers::first_layer), unfolding(js_list_parser::specs::ExpressionParsing::operand_first, js_list_parser::specs::ExpressionParsing::operand_first_by, js_list_parser::specs::ExpressionParsing::operand_paren))]
fn operand_first<'a>(
    alloc: Global,
    d: u32,
    wanted: u8,
    free: bool,
    tokens: &'a [Token],
) -> Found<'a, Expr>
    ensures gives { Gives (λ x. (view_expr x.0, x.2.now)) result (operand_first (parsers d) d wanted free tokens.now) }
    ensures deep { IfOk result (λ x. Deep (suc d) (depth (view_expr x.0)) x.1) }
{
    let at = place_of(tokens);
    match word_at(tokens) {
        Some(Word::Name(text)) => name(alloc, text, tokens),
        Some(Word::Sign(Sign::OpenParen)) => {
            room(d, 0, tokens)?;
            let (inner, height, rest) = operand(alloc, d, 0, true, behind(tokens))?;
            let rest = close_paren(rest)?;
            let (expr, depth) = paren(alloc, at, (inner, height))?;
            Ok((expr, depth, rest))
        }
        _ => {
            if !begins_at(wanted, tokens) {
                return Err(ReadFault::Refused(Fault::Syntax, tokens));
            }
            room(d, 0, tokens)?;
            primary(alloc, d - 1, wanted, free, tokens)
        }
    }
}

// An operand with all that goes on with it.
#[cycle(parser)]
fn operand_climb<'a>(
    alloc: Global,
    d: u32,
    wanted: u8,
    free: bool,
    first: (Expr, u32),
    tokens: &'a [Token],
) -> Found<'a, Expr>
    requires { Deep (suc d) (depth (view_expr first.0)) first.1 }
    ensures gives { Gives (λ x. (view_expr x.0, x.2.now)) result (loop (operand_step (parsers d) d wanted free) (view_expr first.0) tokens.now) }
    ensures deep { IfOk result (λ x. Deep (suc d) (depth (view_expr x.0)) x.1) }
{
    let mut expr = first;
    let mut rest = tokens;
    'turns: loop {
        let (turn, after) = operand_step(alloc, d, wanted, free, expr, rest)?;
        match turn {
            Turn::Again(longer) => {
                expr = longer;
                rest = after;
            }
            Turn::Done(whole) => return Ok((whole.0, whole.1, after)),
        }
    }
}

// A turn: the operand goes on, or ends.
#[cycle(parser)]
#[tactic(auto, using(crate::proofs::Layers::further_layer), unfolding(js_list_parser::specs::ExpressionParsing::operand_step, js_list_parser::specs::ExpressionParsing::operand_further))]
fn operand_step<'a>(
    alloc: Global,
    d: u32,
    wanted: u8,
    free: bool,
    expr: (Expr, u32),
    tokens: &'a [Token],
) -> Result<(Turn<(Expr, u32), (Expr, u32)>, &'a [Token]), ReadFault<'a>>
    requires { Deep (suc d) (depth (view_expr expr.0)) expr.1 }
    ensures gives { Gives (λ x. (turn_of (λ e. view_expr e.0) (λ e. view_expr e.0) x.0, x.1.now)) result (operand_step (parsers d) d wanted free (view_expr expr.0) tokens.now) }
    ensures deep { IfOk result (λ x. TurnIs (λ e. Deep (suc d) (depth (view_expr e.0)) e.1) (λ e. Deep (suc d) (depth (view_expr e.0)) e.1) x.0) }
{
    if !applies(wanted, free, &expr.0, tokens) {
        return Ok((Turn::Done(expr), tokens));
    }
    let by = suffix_at(tokens);
    if makes_target(by) {
        let (longer, depth, rest) = further(alloc, d, free, expr, by, tokens)?;
        return Ok((Turn::Again((longer, depth)), rest));
    }
    room(d, 0, tokens)?;
    let (longer, depth, rest) = further(alloc, d - 1, free, expr, by, tokens)?;
    Ok((Turn::Again((longer, depth)), rest))
}

// An expression with what goes on with it, at the token that says what.
#[cycle(parser)]
#[tactic(auto, unfolding(js_list_parser::specs::ExpressionParsing::further_at))]
fn further<'a>(
    alloc: Global,
    d: u32,
    free: bool,
    expr: (Expr, u32),
    by: Suffix,
    tokens: &'a [Token],
) -> Found<'a, Expr>
    requires { expr.1 ≡ depth (view_expr expr.0) }
    ensures gives { Gives (λ x. (view_expr x.0, x.2.now)) result (further_at (parsers d) d free (view_expr expr.0) (view_suffix by) tokens.now) }
    ensures deep { IfOk result (λ x. Deep (suc d) (depth (view_expr x.0)) x.1) }
{
    room(d, expr.1, tokens)?;
    suffix(alloc, d, free, expr, by, behind(tokens))
}
