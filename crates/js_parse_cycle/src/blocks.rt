//! Blocks, `switch` and `try`.

ghost use Rattle.std.specs.Prelude.{◌≡◌, ℕ, suc, ◌-◌, ◌≤◌, IfOk};
ghost use Rattle.js_ast.specs.Depth.{depth_block, depth_clauses, depth_statement};
ghost use Rattle.js_ast.specs.Grammar.{place_of};
ghost use Rattle.js_ast.specs.Nodes.{nodes_of};
ghost use Rattle.js_list_parser.specs.Parsing.{parsers};
ghost use Rattle.js_list_parser.specs.Reading.{behind, room, loop};
ghost use Rattle.js_list_parser.specs.StatementParsing.{block_at, inner_block, clause_step, switch_rest, try_rest, catch_rest};
ghost use Rattle.js_ast.specs.Trees.{no_clauses};
ghost use Rattle.js_ast.specs.Views.{view_block, view_clauses, view_stmt};
ghost use Rattle.js_parse_parts.specs.Answers.{Gives, Deep, turn_of, TurnIs};

use crate::branches::condition;
use crate::expression::expression;
use crate::list::statements;
use js_ast::{Block, ClauseList, Keyword, Sign, Stmt, Token};
use js_parse_parts::{
    Fault, Found, ReadFault, Turn, Word, behind, block_of, bound_name, close_brace, close_paren,
    colon, enter, further_case, further_default, has_default, open_brace, open_paren, switch,
    try_both, try_catch, try_finally, word_at,
};
use std::alloc::Global;

/// A block, which is a part of a statement or a statement.
#[cycle(parser)]
#[tactic(auto, unfolding(js_list_parser::specs::StatementParsing::block_at, js_list_parser::specs::StatementParsing::block_by, js_list_parser::specs::StatementParsing::block_rest))]
pub(crate) fn block<'a>(alloc: Global, limit: u32, tokens: &'a [Token]) -> Found<'a, Block>
    requires { 1 ≤ limit }
    ensures gives { Gives (λ x. (view_block x.0, x.2.now)) result (block_at (parsers (limit - 1)) (limit - 1) tokens.now) }
    ensures deep { IfOk result (λ x. Deep limit (depth_block (view_block x.0)) x.1) }
{
    match word_at(tokens) {
        Some(Word::Sign(Sign::OpenBrace)) => {
            let (at, inner) = enter(limit - 1, 0, tokens)?;
            let (body, depth, rest) = statements(alloc, limit - 1, false, inner)?;
            let rest = close_brace(rest)?;
            let (made, depth) = block_of(at, (body, depth));
            Ok((made, depth, rest))
        }
        _ => Err(ReadFault::Refused(Fault::Syntax, tokens)),
    }
}

// A further clause, or the end of the clauses.
#[cycle(parser)]
#[tactic(auto, unfolding(js_list_parser::specs::StatementParsing::clause_step, js_list_parser::specs::StatementParsing::clause_step_by, js_list_parser::specs::StatementParsing::case_rest, js_list_parser::specs::StatementParsing::default_rest))]
fn clause<'a>(
    alloc: Global,
    d: u32,
    list: (ClauseList, u32),
    tokens: &'a [Token],
) -> Result<(Turn<(ClauseList, u32), (ClauseList, u32)>, &'a [Token]), ReadFault<'a>>
    requires limit { 1 ≤ d }
    requires list { Deep d (depth_clauses (view_clauses (nodes_of list.0))) list.1 }
    ensures gives { Gives (λ x. (turn_of (λ l. view_clauses (nodes_of l.0)) (λ l. view_clauses (nodes_of l.0)) x.0, x.1.now)) result (clause_step (parsers d) (view_clauses (nodes_of list.0)) tokens.now) }
    ensures deep { IfOk result (λ x. TurnIs (λ l. Deep d (depth_clauses (view_clauses (nodes_of l.0))) l.1) (λ l. Deep d (depth_clauses (view_clauses (nodes_of l.0))) l.1) x.0) }
{
    match word_at(tokens) {
        Some(Word::Key(Keyword::Case)) => {
            let (test, test_depth, rest) = expression(alloc, d, 0, true, behind(tokens))?;
            let (body, depth, rest) = statements(alloc, d, false, colon(rest)?)?;
            let longer = further_case(list, (test, test_depth), (body, depth))?;
            Ok((Turn::Again(longer), rest))
        }
        Some(Word::Key(Keyword::Default)) => {
            if has_default(&list.0) {
                return Err(ReadFault::Refused(Fault::Syntax, tokens));
            }
            let (body, depth, rest) = statements(alloc, d, false, colon(behind(tokens))?)?;
            let longer = further_default(list, (body, depth))?;
            Ok((Turn::Again(longer), rest))
        }
        _ => Ok((Turn::Done(list), tokens)),
    }
}

// The clauses of a `switch`.
#[cycle(parser)]
fn clauses<'a>(alloc: Global, d: u32, tokens: &'a [Token]) -> Found<'a, ClauseList>
    requires { 1 ≤ d }
    ensures gives { Gives (λ x. (view_clauses (nodes_of x.0), x.2.now)) result (loop (clause_step (parsers d)) no_clauses tokens.now) }
    ensures deep { IfOk result (λ x. Deep d (depth_clauses (view_clauses (nodes_of x.0))) x.1) }
{
    let mut list = (ClauseList::new(alloc), 0);
    let mut rest = tokens;
    'turns: loop {
        let (turn, after) = clause(alloc, d, list, rest)?;
        match turn {
            Turn::Again(longer) => {
                list = longer;
                rest = after;
            }
            Turn::Done(whole) => return Ok((whole.0, whole.1, after)),
        }
    }
}

/// A `switch`.
#[cycle(parser)]
#[tactic(auto, unfolding(js_list_parser::specs::StatementParsing::switch_rest))]
pub(crate) fn switch_statement<'a>(
    alloc: Global,
    limit: u32,
    tokens: &'a [Token],
) -> Found<'a, Stmt>
    requires { 1 ≤ limit }
    ensures gives { Gives (λ x. (view_stmt x.0, x.2.now)) result (room (limit - 1) 0 tokens.now (switch_rest (parsers (limit - 1)) (place_of tokens.now) (behind tokens.now))) }
    ensures deep { IfOk result (λ x. Deep limit (depth_statement (view_stmt x.0)) x.1) }
{
    let d = limit - 1;
    let (at, rest) = enter(d, 0, tokens)?;
    let (value, value_depth, rest) = condition(alloc, d, rest)?;
    let (list, depth, rest) = clauses(alloc, d, open_brace(rest)?)?;
    let rest = close_brace(rest)?;
    let (made, depth) = switch(alloc, at, (value, value_depth), (list, depth))?;
    Ok((made, depth, rest))
}

// A handler, and a final block or none.
#[cycle(parser)]
#[tactic(auto, using(crate::proofs::Layers::inner_is), unfolding(js_list_parser::specs::StatementParsing::catch_rest, js_list_parser::specs::StatementParsing::finally_by))]
fn catch<'a>(
    alloc: Global,
    d: u32,
    at: usize,
    tried: (Block, u32),
    tokens: &'a [Token],
) -> Found<'a, Stmt>
    requires limit { 1 ≤ d }
    requires tried { Deep d (depth_block (view_block tried.0)) tried.1 }
    ensures gives { Gives (λ x. (view_stmt x.0, x.2.now)) result (catch_rest (parsers d) at (view_block tried.0) tokens.now) }
    ensures deep { IfOk result (λ x. Deep (suc d) (depth_statement (view_stmt x.0)) x.1) }
{
    let (param, rest) = bound_name(alloc, open_paren(tokens)?)?;
    let (handler, depth, rest) = block(alloc, d, close_paren(rest)?)?;
    let handler = (handler, depth);
    match word_at(rest) {
        Some(Word::Key(Keyword::Finally)) => {
            let (last, depth, rest) = block(alloc, d, behind(rest))?;
            let (made, depth) = try_both(alloc, at, tried, param, handler, (last, depth))?;
            Ok((made, depth, rest))
        }
        _ => {
            let (made, depth) = try_catch(alloc, at, tried, param, handler)?;
            Ok((made, depth, rest))
        }
    }
}

/// A `try`.
#[cycle(parser)]
#[tactic(auto, using(crate::proofs::Layers::inner_is), unfolding(js_list_parser::specs::StatementParsing::try_rest, js_list_parser::specs::StatementParsing::handler_by))]
pub(crate) fn try_statement<'a>(alloc: Global, limit: u32, tokens: &'a [Token]) -> Found<'a, Stmt>
    requires { 1 ≤ limit }
    ensures gives { Gives (λ x. (view_stmt x.0, x.2.now)) result (room (limit - 1) 1 tokens.now (try_rest (parsers (limit - 1)) (place_of tokens.now) (behind tokens.now))) }
    ensures deep { IfOk result (λ x. Deep limit (depth_statement (view_stmt x.0)) x.1) }
{
    let d = limit - 1;
    let (at, rest) = enter(d, 1, tokens)?;
    let (tried, depth, rest) = block(alloc, d, rest)?;
    let tried = (tried, depth);
    match word_at(rest) {
        Some(Word::Key(Keyword::Catch)) => catch(alloc, d, at, tried, behind(rest)),
        Some(Word::Key(Keyword::Finally)) => {
            let (last, depth, rest) = block(alloc, d, behind(rest))?;
            let (made, depth) = try_finally(alloc, at, tried, (last, depth))?;
            Ok((made, depth, rest))
        }
        _ => Err(ReadFault::Refused(Fault::Syntax, rest)),
    }
}
