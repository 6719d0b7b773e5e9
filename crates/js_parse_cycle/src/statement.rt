//! Statements, by their first words.

ghost use Rattle.std.specs.Prelude.{◌≡◌, ℕ, ◌-◌, ◌≤◌, IfOk};
ghost use Rattle.js_ast.specs.Depth.{depth_statement};
ghost use Rattle.js_list_parser.specs.Parsing.{parsers};
ghost use Rattle.js_list_parser.specs.StatementParsing.{expression_statement};
ghost use Rattle.js_ast.specs.Views.{view_stmt};
ghost use Rattle.js_parse_parts.specs.Answers.{Gives, Deep};

use crate::blocks::{block, switch_statement, try_statement};
use crate::branches::{do_statement, if_statement, while_statement};
use crate::expression::expression;
use crate::for_loops::for_statement;
use crate::values::{return_with, throw};
use crate::variables::variables;
use js_ast::{Keyword, Sign, Stmt, Token};
use js_parse_parts::{
    Fault, Found, ReadFault, Word, block_statement, break_statement, continue_statement, debugger,
    empty_statement, ending, enter, expression_statement, label_of, labelled, place_of, word_at,
};
use std::alloc::Global;

// An expression, or a statement with a label.
#[cycle(parser)]
#[tactic(auto, using(crate::proofs::Layers::expression_layer, js_parse_parts::proofs::LabelLaws::rest_by_label), unfolding(js_list_parser::specs::StatementParsing::expression_statement))]
fn expression_first<'a>(alloc: Global, limit: u32, tokens: &'a [Token]) -> Found<'a, Stmt>
    requires { 1 ≤ limit }
    ensures gives { Gives (λ x. (view_stmt x.0, x.2.now)) result (expression_statement (parsers (limit - 1)) (limit - 1) tokens.now) }
    ensures deep { IfOk result (λ x. Deep limit (depth_statement (view_stmt x.0)) x.1) }
{
    let at = place_of(tokens);
    let (expr, depth, rest) = expression(alloc, limit, 0, true, tokens)?;
    match label_of(&expr, rest) {
        Some(name) => {
            let label = name.copy(alloc)?;
            let (_, inner) = enter(limit - 1, 0, rest)?;
            let (body, depth, rest) = statement(alloc, limit - 1, inner)?;
            let (made, depth) = labelled(alloc, at, label, (body, depth))?;
            Ok((made, depth, rest))
        }
        None => {
            let (semi, rest) = ending(Some(&expr), rest)?;
            let (made, depth) = expression_statement(alloc, at, (expr, depth), semi)?;
            Ok((made, depth, rest))
        }
    }
}

/// A statement that is no function declaration.
#[cycle(parser)]
#[tactic(auto, using(crate::proofs::Layers::statement_layer), unfolding(js_list_parser::specs::StatementParsing::statement_at, js_list_parser::specs::StatementParsing::statement_by))]
pub(crate) fn statement<'a>(alloc: Global, limit: u32, tokens: &'a [Token]) -> Found<'a, Stmt>
    requires { 1 ≤ limit }
    ensures gives { Gives (λ x. (view_stmt x.0, x.2.now)) result ((parsers limit).statement tokens.now) }
    ensures deep { IfOk result (λ x. Deep limit (depth_statement (view_stmt x.0)) x.1) }
{
    match word_at(tokens) {
        Some(Word::Sign(Sign::OpenBrace)) => {
            let (body, depth, rest) = block(alloc, limit, tokens)?;
            let (made, depth) = block_statement(alloc, (body, depth))?;
            Ok((made, depth, rest))
        }
        Some(Word::Sign(Sign::Semicolon)) => empty_statement(alloc, limit, tokens),
        Some(Word::Key(Keyword::Var)) => variables(alloc, limit, tokens),
        Some(Word::Key(Keyword::If)) => if_statement(alloc, limit, tokens),
        Some(Word::Key(Keyword::Do)) => do_statement(alloc, limit, tokens),
        Some(Word::Key(Keyword::While)) => while_statement(alloc, limit, tokens),
        Some(Word::Key(Keyword::For)) => for_statement(alloc, limit, tokens),
        Some(Word::Key(Keyword::Continue)) => continue_statement(alloc, limit, tokens),
        Some(Word::Key(Keyword::Break)) => break_statement(alloc, limit, tokens),
        Some(Word::Key(Keyword::Return)) => return_with(alloc, limit, tokens),
        Some(Word::Key(Keyword::Throw)) => throw(alloc, limit, tokens),
        Some(Word::Key(Keyword::Switch)) => switch_statement(alloc, limit, tokens),
        Some(Word::Key(Keyword::Try)) => try_statement(alloc, limit, tokens),
        Some(Word::Key(Keyword::Debugger)) => debugger(alloc, limit, tokens),
        Some(Word::Key(Keyword::Function)) => Err(ReadFault::Refused(Fault::Syntax, tokens)),
        Some(Word::Key(Keyword::With)) => Err(ReadFault::Refused(Fault::With, tokens)),
        _ => expression_first(alloc, limit, tokens),
    }
}
