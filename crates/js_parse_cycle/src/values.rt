//! `return` and `throw`.

ghost use Rattle.std.specs.Prelude.{◌≡◌, ℕ, ◌-◌, ◌≤◌, IfOk};
ghost use Rattle.js_ast.specs.Depth.{depth_statement};
ghost use Rattle.js_ast.specs.Grammar.{place_of};
ghost use Rattle.js_list_parser.specs.Parsing.{parsers};
ghost use Rattle.js_list_parser.specs.Reading.{behind, room};
ghost use Rattle.js_list_parser.specs.StatementParsing.{return_rest, throw_rest};
ghost use Rattle.js_ast.specs.Views.{view_stmt};
ghost use Rattle.js_parse_parts.specs.Answers.{Gives, Deep};

use crate::expression::expression;
use js_ast::{Stmt, Token};
use js_parse_parts::{
    Fault, Found, ReadFault, ending, ends_here, enter, on_line, return_statement, throw_statement,
};
use std::alloc::Global;

/// A `return`.
#[cycle(parser)]
#[tactic(auto, unfolding(js_list_parser::specs::StatementParsing::return_rest, js_list_parser::specs::StatementParsing::return_nothing, js_list_parser::specs::StatementParsing::return_value))]
pub(crate) fn return_with<'a>(alloc: Global, limit: u32, tokens: &'a [Token]) -> Found<'a, Stmt>
    requires { 1 ≤ limit }
    ensures gives { Gives (λ x. (view_stmt x.0, x.2.now)) result (room (limit - 1) 0 tokens.now (return_rest (parsers (limit - 1)) (place_of tokens.now) (behind tokens.now))) }
    ensures deep { IfOk result (λ x. Deep limit (depth_statement (view_stmt x.0)) x.1) }
{
    let d = limit - 1;
    let (at, rest) = enter(d, 0, tokens)?;
    if ends_here(rest) {
        let (semi, rest) = ending(None, rest)?;
        let (made, depth) = return_statement(alloc, at, (None, 0), semi)?;
        return Ok((made, depth, rest));
    }
    let (value, depth, rest) = expression(alloc, d, 0, true, rest)?;
    let (semi, rest) = ending(Some(&value), rest)?;
    let (made, depth) = return_statement(alloc, at, (Some(value), depth), semi)?;
    Ok((made, depth, rest))
}

/// A `throw`, whose value stands on its line.
#[cycle(parser)]
#[tactic(auto, unfolding(js_list_parser::specs::StatementParsing::throw_rest, js_list_parser::specs::StatementParsing::throw_value))]
pub(crate) fn throw<'a>(alloc: Global, limit: u32, tokens: &'a [Token]) -> Found<'a, Stmt>
    requires { 1 ≤ limit }
    ensures gives { Gives (λ x. (view_stmt x.0, x.2.now)) result (room (limit - 1) 0 tokens.now (throw_rest (parsers (limit - 1)) (place_of tokens.now) (behind tokens.now))) }
    ensures deep { IfOk result (λ x. Deep limit (depth_statement (view_stmt x.0)) x.1) }
{
    let d = limit - 1;
    let (at, rest) = enter(d, 0, tokens)?;
    if !on_line(rest) {
        return Err(ReadFault::Refused(Fault::Syntax, rest));
    }
    let (value, depth, rest) = expression(alloc, d, 0, true, rest)?;
    let (semi, rest) = ending(Some(&value), rest)?;
    let (made, depth) = throw_statement(alloc, at, (value, depth), semi)?;
    Ok((made, depth, rest))
}
