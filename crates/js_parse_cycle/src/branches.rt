//! `if`, `do` and `while`.

ghost use Rattle.std.specs.Prelude.{◌≡◌, ℕ, suc, ◌-◌, ◌≤◌, IfOk};
ghost use Rattle.js_ast.specs.Depth.{depth, depth_statement};
ghost use Rattle.js_ast.specs.Grammar.{place_of};
ghost use Rattle.js_list_parser.specs.Parsing.{parsers};
ghost use Rattle.js_list_parser.specs.Reading.{behind, room};
ghost use Rattle.js_list_parser.specs.StatementParsing.{condition, if_rest, do_rest, while_rest};
ghost use Rattle.js_ast.specs.Views.{view_expr, view_stmt};
ghost use Rattle.js_parse_parts.specs.Answers.{Gives, Deep};

use crate::expression::expression;
use crate::statement::statement;
use js_ast::{Expr, Keyword, Stmt, Token};
use js_parse_parts::{
    Found, Word, behind, close_paren, do_while, ending, enter, if_else, if_then, key_while,
    open_paren, while_loop, word_at,
};
use std::alloc::Global;

// An expression in parentheses.
#[cycle(parser)]
#[tactic(auto, unfolding(js_list_parser::specs::StatementParsing::condition))]
pub(crate) fn condition<'a>(alloc: Global, d: u32, tokens: &'a [Token]) -> Found<'a, Expr>
    requires { 1 ≤ d }
    ensures gives { Gives (λ x. (view_expr x.0, x.2.now)) result (condition (parsers d) tokens.now) }
    ensures deep { IfOk result (λ x. Deep d (depth (view_expr x.0)) x.1) }
{
    let inner = open_paren(tokens)?;
    let (test, depth, rest) = expression(alloc, d, 0, true, inner)?;
    Ok((test, depth, close_paren(rest)?))
}

/// An `if`.
#[cycle(parser)]
#[tactic(auto, unfolding(js_list_parser::specs::StatementParsing::if_rest, js_list_parser::specs::StatementParsing::else_by))]
pub(crate) fn if_statement<'a>(alloc: Global, limit: u32, tokens: &'a [Token]) -> Found<'a, Stmt>
    requires { 1 ≤ limit }
    ensures gives { Gives (λ x. (view_stmt x.0, x.2.now)) result (room (limit - 1) 0 tokens.now (if_rest (parsers (limit - 1)) (place_of tokens.now) (behind tokens.now))) }
    ensures deep { IfOk result (λ x. Deep limit (depth_statement (view_stmt x.0)) x.1) }
{
    let d = limit - 1;
    let (at, rest) = enter(d, 0, tokens)?;
    let (test, test_depth, rest) = condition(alloc, d, rest)?;
    let (then, then_depth, rest) = statement(alloc, d, rest)?;
    let (test, then) = ((test, test_depth), (then, then_depth));
    match word_at(rest) {
        Some(Word::Key(Keyword::Else)) => {
            let (other, depth, rest) = statement(alloc, d, behind(rest))?;
            let (made, depth) = if_else(alloc, at, test, then, (other, depth))?;
            Ok((made, depth, rest))
        }
        _ => {
            let (made, depth) = if_then(alloc, at, test, then)?;
            Ok((made, depth, rest))
        }
    }
}

/// A `do` loop.
#[cycle(parser)]
#[tactic(auto, unfolding(js_list_parser::specs::StatementParsing::do_rest))]
pub(crate) fn do_statement<'a>(alloc: Global, limit: u32, tokens: &'a [Token]) -> Found<'a, Stmt>
    requires { 1 ≤ limit }
    ensures gives { Gives (λ x. (view_stmt x.0, x.2.now)) result (room (limit - 1) 0 tokens.now (do_rest (parsers (limit - 1)) (place_of tokens.now) (behind tokens.now))) }
    ensures deep { IfOk result (λ x. Deep limit (depth_statement (view_stmt x.0)) x.1) }
{
    let d = limit - 1;
    let (at, rest) = enter(d, 0, tokens)?;
    let (body, body_depth, rest) = statement(alloc, d, rest)?;
    let rest = key_while(rest)?;
    let (test, test_depth, rest) = condition(alloc, d, rest)?;
    let (semi, rest) = ending(None, rest)?;
    let (made, depth) = do_while(alloc, at, (body, body_depth), (test, test_depth), semi)?;
    Ok((made, depth, rest))
}

/// A `while` loop.
#[cycle(parser)]
#[tactic(auto, unfolding(js_list_parser::specs::StatementParsing::while_rest))]
pub(crate) fn while_statement<'a>(alloc: Global, limit: u32, tokens: &'a [Token]) -> Found<'a, Stmt>
    requires { 1 ≤ limit }
    ensures gives { Gives (λ x. (view_stmt x.0, x.2.now)) result (room (limit - 1) 0 tokens.now (while_rest (parsers (limit - 1)) (place_of tokens.now) (behind tokens.now))) }
    ensures deep { IfOk result (λ x. Deep limit (depth_statement (view_stmt x.0)) x.1) }
{
    let d = limit - 1;
    let (at, rest) = enter(d, 0, tokens)?;
    let (test, test_depth, rest) = condition(alloc, d, rest)?;
    let (body, body_depth, rest) = statement(alloc, d, rest)?;
    let (made, depth) = while_loop(alloc, at, (test, test_depth), (body, body_depth))?;
    Ok((made, depth, rest))
}
