//! Expressions, by precedence climbing.

ghost use Rattle.std.specs.Prelude.{◌≤◌, suc, IfOk};
ghost use Rattle.js_ast.specs.Depth.{depth};
ghost use Rattle.js_list_parser.specs.Reading.{loop};
ghost use Rattle.js_list_parser.specs.Parsing.{parsers};
ghost use Rattle.js_list_parser.specs.ExpressionParsing.{suffix, climb_step};
ghost use Rattle.js_ast.specs.Views.{view_expr};
ghost use Rattle.js_parse_parts.specs.Answers.{Gives, Deep, turn_of, TurnIs};
ghost use Rattle.js_parse_parts.specs.Suffixes.{view_suffix};

use crate::lists::arguments;
use crate::primary::primary;
use js_ast::{Expr, Token};
use js_parse_parts::{
    Fault, Found, ReadFault, Suffix, Turn, applies, assign, behind, binary, call, close_bracket,
    colon, comma, conditional, identifier_name, index, member, postfix, right_level, room,
    suffix_at,
};
use std::alloc::Global;

/// An expression of a level at least, whose depth is below the limit.
#[cycle(parser)]
#[tactic(auto, using(crate::proofs::Layers::expression_layer), unfolding(js_list_parser::specs::ExpressionParsing::expression_at, js_list_parser::specs::ExpressionParsing::climb))]
pub(crate) fn expression<'a>(
    alloc: Global,
    limit: u32,
    wanted: u8,
    free: bool,
    tokens: &'a [Token],
) -> Found<'a, Expr>
    requires { 1 ≤ limit }
    ensures gives { Gives (λ x. (view_expr x.0, x.2.now)) result ((parsers limit).expression wanted free tokens.now) }
    ensures deep { IfOk result (λ x. Deep limit (depth (view_expr x.0)) x.1) }
{
    let d = limit - 1;
    let (first, depth, rest) = primary(alloc, d, wanted, free, tokens)?;
    climb(alloc, d, wanted, free, (first, depth), rest)
}

// An expression with all that goes on with it.
#[cycle(parser)]
fn climb<'a>(
    alloc: Global,
    d: u32,
    wanted: u8,
    free: bool,
    first: (Expr, u32),
    tokens: &'a [Token],
) -> Found<'a, Expr>
    requires { Deep (suc d) (depth (view_expr first.0)) first.1 }
    ensures gives { Gives (λ x. (view_expr x.0, x.2.now)) result (loop (climb_step (parsers d) d wanted free) (view_expr first.0) tokens.now) }
    ensures deep { IfOk result (λ x. Deep (suc d) (depth (view_expr x.0)) x.1) }
{
    let mut expr = first;
    let mut rest = tokens;
    'turns: loop {
        let (turn, after) = climb_step(alloc, d, wanted, free, expr, rest)?;
        match turn {
            Turn::Again(longer) => {
                expr = longer;
                rest = after;
            }
            Turn::Done(whole) => return Ok((whole.0, whole.1, after)),
        }
    }
}

// A turn: the expression goes on, or ends.
#[cycle(parser)]
#[tactic(auto, unfolding(js_list_parser::specs::ExpressionParsing::climb_step))]
fn climb_step<'a>(
    alloc: Global,
    d: u32,
    wanted: u8,
    free: bool,
    expr: (Expr, u32),
    tokens: &'a [Token],
) -> Result<(Turn<(Expr, u32), (Expr, u32)>, &'a [Token]), ReadFault<'a>>
    requires { Deep (suc d) (depth (view_expr expr.0)) expr.1 }
    ensures gives { Gives (λ x. (turn_of (λ e. view_expr e.0) (λ e. view_expr e.0) x.0, x.1.now)) result (climb_step (parsers d) d wanted free (view_expr expr.0) tokens.now) }
    ensures deep { IfOk result (λ x. TurnIs (λ e. Deep (suc d) (depth (view_expr e.0)) e.1) (λ e. Deep (suc d) (depth (view_expr e.0)) e.1) x.0) }
{
    if !applies(wanted, free, &expr.0, tokens) {
        return Ok((Turn::Done(expr), tokens));
    }
    room(d, expr.1, tokens)?;
    let (longer, depth, rest) = suffix(alloc, d, free, expr, suffix_at(tokens), behind(tokens))?;
    Ok((Turn::Again((longer, depth)), rest))
}

/// The expression with what a token makes of it, from the tokens behind that one.
#[cycle(parser)]
#[tactic(auto, unfolding(js_list_parser::specs::ExpressionParsing::suffix))]
pub(crate) fn suffix<'a>(
    alloc: Global,
    d: u32,
    free: bool,
    base: (Expr, u32),
    by: Suffix,
    tokens: &'a [Token],
) -> Found<'a, Expr>
    requires { Deep d (depth (view_expr base.0)) base.1 }
    ensures gives { Gives (λ x. (view_expr x.0, x.2.now)) result (suffix (parsers d) free (view_expr base.0) (view_suffix by) tokens.now) }
    ensures deep { IfOk result (λ x. Deep (suc d) (depth (view_expr x.0)) x.1) }
{
    match by {
        Suffix::Member => {
            let (name, rest) = identifier_name(tokens)?;
            let (expr, depth) = member(alloc, base, name)?;
            Ok((expr, depth, rest))
        }
        Suffix::Index => {
            let (place, inner, rest) = expression(alloc, d, 0, true, tokens)?;
            let rest = close_bracket(rest)?;
            let (expr, depth) = index(alloc, base, (place, inner))?;
            Ok((expr, depth, rest))
        }
        Suffix::Call => {
            let (args, inner, rest) = arguments(alloc, d, tokens)?;
            let (expr, depth) = call(alloc, base, (args, inner))?;
            Ok((expr, depth, rest))
        }
        Suffix::Postfix(operator) => {
            let (expr, depth) = postfix(alloc, base, operator)?;
            Ok((expr, depth, tokens))
        }
        Suffix::Binary(operator) => {
            let (right, inner, rest) = expression(alloc, d, right_level(operator), free, tokens)?;
            let (expr, depth) = binary(alloc, base, operator, (right, inner))?;
            Ok((expr, depth, rest))
        }
        Suffix::Conditional => {
            let (then, first, rest) = expression(alloc, d, 1, true, tokens)?;
            let rest = colon(rest)?;
            let (other, second, rest) = expression(alloc, d, 1, free, rest)?;
            let (expr, depth) = conditional(alloc, base, (then, first), (other, second))?;
            Ok((expr, depth, rest))
        }
        Suffix::Assign(operator) => {
            let (value, inner, rest) = expression(alloc, d, 1, free, tokens)?;
            let (expr, depth) = assign(alloc, base, operator, (value, inner))?;
            Ok((expr, depth, rest))
        }
        Suffix::Comma => {
            let (right, inner, rest) = expression(alloc, d, 1, free, tokens)?;
            let (expr, depth) = comma(alloc, base, (right, inner))?;
            Ok((expr, depth, rest))
        }
        Suffix::Nothing => Err(ReadFault::Refused(Fault::Syntax, tokens)),
    }
}
