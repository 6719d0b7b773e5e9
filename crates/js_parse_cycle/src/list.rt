//! Lists of statements.

ghost use Rattle.std.specs.Prelude.{◌≡◌, ℕ, ◌-◌, ◌≤◌, IfOk};
ghost use Rattle.js_ast.specs.Depth.{depth_statement, depth_statements};
ghost use Rattle.js_ast.specs.Grammar.{place_of};
ghost use Rattle.js_ast.specs.Nodes.{nodes_of};
ghost use Rattle.js_list_parser.specs.Parsing.{parsers};
ghost use Rattle.js_list_parser.specs.Reading.{behind, room, word_at};
ghost use Rattle.js_list_parser.specs.StatementParsing.{function_declaration_rest, element_by, statements_step};
ghost use Rattle.js_ast.specs.Views.{view_stmt, view_stmts};
ghost use Rattle.js_parse_parts.specs.Answers.{Gives, Deep, turn_of, TurnIs};

use crate::functions::function_rest;
use crate::statement::statement;
use js_ast::{Keyword, Sign, Stmt, StmtList, Token};
use js_parse_parts::{
    Found, ReadFault, Turn, Word, bound_name, enter, function_declaration, further_statement,
    word_at,
};
use std::alloc::Global;

// A function declaration.
#[cycle(parser)]
#[tactic(auto, unfolding(js_list_parser::specs::StatementParsing::function_declaration_rest))]
fn declared_function<'a>(alloc: Global, limit: u32, tokens: &'a [Token]) -> Found<'a, Stmt>
    requires { 1 ≤ limit }
    ensures gives { Gives (λ x. (view_stmt x.0, x.2.now)) result (room (limit - 1) 0 tokens.now (function_declaration_rest (parsers (limit - 1)) (place_of tokens.now) (behind tokens.now))) }
    ensures deep { IfOk result (λ x. Deep limit (depth_statement (view_stmt x.0)) x.1) }
{
    let (at, rest) = enter(limit - 1, 0, tokens)?;
    let (name, rest) = bound_name(alloc, rest)?;
    let (params, body, depth, rest) = function_rest(alloc, limit - 1, rest)?;
    let (made, depth) = function_declaration(alloc, at, name, params, (body, depth))?;
    Ok((made, depth, rest))
}

// A statement of a list, where function declarations stand or not.
#[cycle(parser)]
#[tactic(auto, using(crate::proofs::Layers::statement_layer), unfolding(js_list_parser::specs::StatementParsing::element_by, js_list_parser::specs::StatementParsing::statement_at))]
fn element<'a>(alloc: Global, limit: u32, outer: bool, tokens: &'a [Token]) -> Found<'a, Stmt>
    requires { 1 ≤ limit }
    ensures gives { Gives (λ x. (view_stmt x.0, x.2.now)) result (element_by (parsers (limit - 1)) (limit - 1) outer (word_at tokens.now) tokens.now) }
    ensures deep { IfOk result (λ x. Deep limit (depth_statement (view_stmt x.0)) x.1) }
{
    match (outer, word_at(tokens)) {
        (true, Some(Word::Key(Keyword::Function))) => declared_function(alloc, limit, tokens),
        _ => statement(alloc, limit, tokens),
    }
}

// A further statement, or the end of the list.
#[cycle(parser)]
#[tactic(auto, unfolding(js_list_parser::specs::StatementParsing::statements_step, js_list_parser::specs::StatementParsing::next_statement))]
fn listed<'a>(
    alloc: Global,
    limit: u32,
    outer: bool,
    list: (StmtList, u32),
    tokens: &'a [Token],
) -> Result<(Turn<(StmtList, u32), (StmtList, u32)>, &'a [Token]), ReadFault<'a>>
    requires limit { 1 ≤ limit }
    requires list { Deep limit (depth_statements (view_stmts (nodes_of list.0))) list.1 }
    ensures gives { Gives (λ x. (turn_of (λ l. view_stmts (nodes_of l.0)) (λ l. view_stmts (nodes_of l.0)) x.0, x.1.now)) result (statements_step (parsers (limit - 1)) (limit - 1) outer (view_stmts (nodes_of list.0)) tokens.now) }
    ensures deep { IfOk result (λ x. TurnIs (λ l. Deep limit (depth_statements (view_stmts (nodes_of l.0))) l.1) (λ l. Deep limit (depth_statements (view_stmts (nodes_of l.0))) l.1) x.0) }
{
    match word_at(tokens) {
        None
        | Some(Word::Sign(Sign::CloseBrace))
        | Some(Word::Key(Keyword::Case | Keyword::Default)) => Ok((Turn::Done(list), tokens)),
        _ => {
            let (next, depth, rest) = element(alloc, limit, outer, tokens)?;
            let longer = further_statement(list, (next, depth))?;
            Ok((Turn::Again(longer), rest))
        }
    }
}

/// The statements of a program or a body, or of any other list.
#[cycle(parser)]
#[tactic(auto, using(crate::proofs::Layers::statements_layer), unfolding(js_list_parser::specs::StatementParsing::statements_at))]
pub(crate) fn statements<'a>(
    alloc: Global,
    limit: u32,
    outer: bool,
    tokens: &'a [Token],
) -> Found<'a, StmtList>
    requires { 1 ≤ limit }
    ensures gives { Gives (λ x. (view_stmts (nodes_of x.0), x.2.now)) result ((parsers limit).statements outer tokens.now) }
    ensures deep { IfOk result (λ x. Deep limit (depth_statements (view_stmts (nodes_of x.0))) x.1) }
{
    let mut list = (StmtList::new(alloc), 0);
    let mut rest = tokens;
    'turns: loop {
        let (turn, after) = listed(alloc, limit, outer, list, rest)?;
        match turn {
            Turn::Again(longer) => {
                list = longer;
                rest = after;
            }
            Turn::Done(whole) => return Ok((whole.0, whole.1, after)),
        }
    }
}
