//! Statements of words alone.

ghost use Rattle.std.specs.Prelude.{◌≡◌, ℕ, ◌-◌, ◌<◌, ◌≤◌, Ok, IfOk};
ghost use Rattle.js_ast.specs.Depth.{depth_statement};
ghost use Rattle.js_ast.specs.Grammar.{place_of};
ghost use Rattle.js_list_parser.specs.Reading.{behind, room};
ghost use Rattle.js_list_parser.specs.StatementParsing.{continue_rest, break_rest, debugger_rest};
ghost use Rattle.js_ast.specs.Trees.{empty};
ghost use Rattle.js_ast.specs.Views.{view_stmt};
ghost use Rattle.js_parse_parts.specs.Answers.{Gives, Deep};

use crate::ends::{ending, label};
use crate::entering::enter;
use crate::reading::Found;
use crate::statements;
use js_ast::{Stmt, Token};
use std::alloc::Global;

/// A lone semicolon.
pub fn empty_statement<'a>(alloc: Global, limit: u32, tokens: &'a [Token]) -> Found<'a, Stmt>
    requires { 1 ≤ limit }
    ensures gives { Gives (λ x. (view_stmt x.0, x.2.now)) result (room (limit - 1) 0 tokens.now (Ok (empty (place_of tokens.now), behind tokens.now))) }
    ensures deep { IfOk result (λ x. Deep limit (depth_statement (view_stmt x.0)) x.1) }
{
    let (at, rest) = enter(limit - 1, 0, tokens)?;
    let (made, depth) = statements::empty_statement(alloc, at)?;
    Ok((made, depth, rest))
}

/// A `continue`.
#[tactic(auto, unfolding(js_list_parser::specs::StatementParsing::continue_rest))]
pub fn continue_statement<'a>(alloc: Global, limit: u32, tokens: &'a [Token]) -> Found<'a, Stmt>
    requires { 1 ≤ limit }
    ensures gives { Gives (λ x. (view_stmt x.0, x.2.now)) result (room (limit - 1) 0 tokens.now (continue_rest (place_of tokens.now) (behind tokens.now))) }
    ensures deep { IfOk result (λ x. Deep limit (depth_statement (view_stmt x.0)) x.1) }
{
    let (at, rest) = enter(limit - 1, 0, tokens)?;
    let (label, rest) = label(alloc, rest)?;
    let (semi, rest) = ending(None, rest)?;
    let (made, depth) = statements::continue_statement(alloc, at, label, semi)?;
    Ok((made, depth, rest))
}

/// A `break`.
#[tactic(auto, unfolding(js_list_parser::specs::StatementParsing::break_rest))]
pub fn break_statement<'a>(alloc: Global, limit: u32, tokens: &'a [Token]) -> Found<'a, Stmt>
    requires { 1 ≤ limit }
    ensures gives { Gives (λ x. (view_stmt x.0, x.2.now)) result (room (limit - 1) 0 tokens.now (break_rest (place_of tokens.now) (behind tokens.now))) }
    ensures deep { IfOk result (λ x. Deep limit (depth_statement (view_stmt x.0)) x.1) }
{
    let (at, rest) = enter(limit - 1, 0, tokens)?;
    let (label, rest) = label(alloc, rest)?;
    let (semi, rest) = ending(None, rest)?;
    let (made, depth) = statements::break_statement(alloc, at, label, semi)?;
    Ok((made, depth, rest))
}

/// A `debugger` statement.
#[tactic(auto, unfolding(js_list_parser::specs::StatementParsing::debugger_rest))]
pub fn debugger<'a>(alloc: Global, limit: u32, tokens: &'a [Token]) -> Found<'a, Stmt>
    requires { 1 ≤ limit }
    ensures gives { Gives (λ x. (view_stmt x.0, x.2.now)) result (room (limit - 1) 0 tokens.now (debugger_rest (place_of tokens.now) (behind tokens.now))) }
    ensures deep { IfOk result (λ x. Deep limit (depth_statement (view_stmt x.0)) x.1) }
{
    let (at, rest) = enter(limit - 1, 0, tokens)?;
    let (semi, rest) = ending(None, rest)?;
    let (made, depth) = statements::debugger(alloc, at, semi)?;
    Ok((made, depth, rest))
}
