//! `for`.

ghost use Rattle.std.specs.Prelude.{◌≡◌, ℕ, suc, ◌-◌, ◌≤◌, IfOk};
ghost use Rattle.js_ast.specs.Depth.{depth_maybe, depth_first, depth_target, depth_statement};
ghost use Rattle.js_ast.specs.Grammar.{place_of};
ghost use Rattle.js_list_parser.specs.Parsing.{parsers};
ghost use Rattle.js_list_parser.specs.Reading.{behind, room};
ghost use Rattle.js_list_parser.specs.StatementParsing.{header_part, for_steps, for_each, for_variable, for_expression, for_rest};
ghost use Rattle.js_ast.specs.Views.{view_maybe_expr, view_first, view_target, view_stmt};
ghost use Rattle.js_parse_parts.specs.Answers.{Gives, Deep};

use crate::expression::expression;
use crate::statement::statement;
use crate::variables::declarations_from;
use js_ast::{Expr, ForFirst, ForTarget, Keyword, Sign, Stmt, Token};
use js_parse_parts::{
    Fault, Found, ReadFault, Word, behind, bound_name, close_paren, enter, first_expr, first_var,
    for_in, for_loop, is_target, open_paren, semicolon, target_expr, target_var, word_at,
};
use std::alloc::Global;

// A part of a header, which may be missing.
#[cycle(parser)]
#[tactic(auto, unfolding(js_list_parser::specs::StatementParsing::header_part, js_list_parser::specs::StatementParsing::header_part_by))]
fn header_part<'a>(alloc: Global, d: u32, tokens: &'a [Token]) -> Found<'a, Option<Expr>>
    requires { 1 ≤ d }
    ensures gives { Gives (λ x. (view_maybe_expr x.0, x.2.now)) result (header_part (parsers d) tokens.now) }
    ensures deep { IfOk result (λ x. Deep d (depth_maybe (view_maybe_expr x.0)) x.1) }
{
    match word_at(tokens) {
        Some(Word::Sign(Sign::Semicolon | Sign::CloseParen)) => Ok((None, 0, tokens)),
        _ => {
            let (part, depth, rest) = expression(alloc, d, 0, true, tokens)?;
            Ok((Some(part), depth, rest))
        }
    }
}

// The header from its first semicolon on, and the body.
#[cycle(parser)]
#[tactic(auto, unfolding(js_list_parser::specs::StatementParsing::for_steps))]
fn for_steps<'a>(
    alloc: Global,
    d: u32,
    at: usize,
    first: (ForFirst, u32),
    tokens: &'a [Token],
) -> Found<'a, Stmt>
    requires limit { 1 ≤ d }
    requires first { Deep d (depth_first (view_first first.0)) first.1 }
    ensures gives { Gives (λ x. (view_stmt x.0, x.2.now)) result (for_steps (parsers d) at (view_first first.0) tokens.now) }
    ensures deep { IfOk result (λ x. Deep (suc d) (depth_statement (view_stmt x.0)) x.1) }
{
    let (test, test_depth, rest) = header_part(alloc, d, semicolon(tokens)?)?;
    let (update, update_depth, rest) = header_part(alloc, d, semicolon(rest)?)?;
    let (body, body_depth, rest) = statement(alloc, d, close_paren(rest)?)?;
    let (test, update) = ((test, test_depth), (update, update_depth));
    let (made, depth) = for_loop(alloc, at, first, test, update, (body, body_depth))?;
    Ok((made, depth, rest))
}

// The header behind the word `in`, and the body.
#[cycle(parser)]
#[tactic(auto, unfolding(js_list_parser::specs::StatementParsing::for_each))]
fn for_each<'a>(
    alloc: Global,
    d: u32,
    at: usize,
    target: (ForTarget, u32),
    tokens: &'a [Token],
) -> Found<'a, Stmt>
    requires limit { 1 ≤ d }
    requires target { Deep d (depth_target (view_target target.0)) target.1 }
    ensures gives { Gives (λ x. (view_stmt x.0, x.2.now)) result (for_each (parsers d) at (view_target target.0) tokens.now) }
    ensures deep { IfOk result (λ x. Deep (suc d) (depth_statement (view_stmt x.0)) x.1) }
{
    let (object, object_depth, rest) = expression(alloc, d, 0, true, tokens)?;
    let (body, body_depth, rest) = statement(alloc, d, close_paren(rest)?)?;
    let (object, body) = ((object, object_depth), (body, body_depth));
    let (made, depth) = for_in(alloc, at, target, object, body)?;
    Ok((made, depth, rest))
}

// A header that begins with `var`, from behind that on.
#[cycle(parser)]
#[tactic(auto, unfolding(js_list_parser::specs::StatementParsing::for_variable, js_list_parser::specs::StatementParsing::for_variable_by))]
fn for_variable<'a>(alloc: Global, d: u32, at: usize, tokens: &'a [Token]) -> Found<'a, Stmt>
    requires { 1 ≤ d }
    ensures gives { Gives (λ x. (view_stmt x.0, x.2.now)) result (for_variable (parsers d) at tokens.now) }
    ensures deep { IfOk result (λ x. Deep (suc d) (depth_statement (view_stmt x.0)) x.1) }
{
    let (name, rest) = bound_name(alloc, tokens)?;
    match word_at(rest) {
        Some(Word::Key(Keyword::In)) => for_each(alloc, d, at, target_var(name), behind(rest)),
        _ => {
            let (list, depth, rest) = declarations_from(alloc, d, false, name, rest)?;
            for_steps(alloc, d, at, first_var((list, depth)), rest)
        }
    }
}

// A header that begins with an expression.
#[cycle(parser)]
#[tactic(auto, unfolding(js_list_parser::specs::StatementParsing::for_expression, js_list_parser::specs::StatementParsing::for_expression_by))]
fn for_expression<'a>(alloc: Global, d: u32, at: usize, tokens: &'a [Token]) -> Found<'a, Stmt>
    requires { 1 ≤ d }
    ensures gives { Gives (λ x. (view_stmt x.0, x.2.now)) result (for_expression (parsers d) at tokens.now) }
    ensures deep { IfOk result (λ x. Deep (suc d) (depth_statement (view_stmt x.0)) x.1) }
{
    let (expr, depth, rest) = expression(alloc, d, 0, false, tokens)?;
    match word_at(rest) {
        Some(Word::Key(Keyword::In)) => {
            if !is_target(&expr) {
                return Err(ReadFault::Refused(Fault::Syntax, rest));
            }
            for_each(alloc, d, at, target_expr((expr, depth)), behind(rest))
        }
        _ => for_steps(alloc, d, at, first_expr((Some(expr), depth)), rest),
    }
}

/// A `for` loop.
#[cycle(parser)]
#[tactic(auto, unfolding(js_list_parser::specs::StatementParsing::for_rest, js_list_parser::specs::StatementParsing::for_header_by))]
pub(crate) fn for_statement<'a>(alloc: Global, limit: u32, tokens: &'a [Token]) -> Found<'a, Stmt>
    requires { 1 ≤ limit }
    ensures gives { Gives (λ x. (view_stmt x.0, x.2.now)) result (room (limit - 1) 0 tokens.now (for_rest (parsers (limit - 1)) (place_of tokens.now) (behind tokens.now))) }
    ensures deep { IfOk result (λ x. Deep limit (depth_statement (view_stmt x.0)) x.1) }
{
    let d = limit - 1;
    let (at, rest) = enter(d, 0, tokens)?;
    let inner = open_paren(rest)?;
    match word_at(inner) {
        Some(Word::Sign(Sign::Semicolon)) => {
            for_steps(alloc, d, at, first_expr((None, 0)), inner)
        }
        Some(Word::Key(Keyword::Var)) => for_variable(alloc, d, at, behind(inner)),
        _ => for_expression(alloc, d, at, inner),
    }
}
