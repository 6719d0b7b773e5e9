//! The parameters of a function.

ghost use Rattle.std.specs.Prelude.{◌≤◌, length, IfOk};
ghost use Rattle.js_ast.specs.Nodes.{nodes_of};
ghost use Rattle.js_list_parser.specs.Reading.{loop};
ghost use Rattle.js_list_parser.specs.ExpressionParsing.{parameter, parameters};
ghost use Rattle.js_ast.specs.Views.{view_idents};
ghost use Rattle.js_ast.specs.Named.{text_of};
ghost use Rattle.js_ast.specs.Orders.{KeepsOrder};
ghost use Rattle.js_parse_parts.specs.Answers.{Gives, turn_of};

use crate::expected::bound_name;
use crate::reading::{Fault, ReadFault, Turn};
use crate::words::{Word, behind, word_at};
use js_ast::{IdentList, Sign, Token, ordered_names};
use std::alloc::Global;

// A further parameter, or the end of the parameters.
#[tactic(auto, using(js_ast::proofs::ViewLaws::idents_append), unfolding(js_list_parser::specs::ExpressionParsing::parameter, js_list_parser::specs::ExpressionParsing::parameter_by))]
fn parameter<'a>(
    alloc: Global,
    mut list: IdentList,
    tokens: &'a [Token],
) -> Result<(Turn<IdentList, IdentList>, &'a [Token]), ReadFault<'a>>
    ensures { Gives (λ x. (turn_of (λ l. view_idents (nodes_of l)) (λ l. view_idents (nodes_of l)) x.0, x.1.now)) result (parameter (view_idents (nodes_of list)) tokens.now) }
{
    match word_at(tokens) {
        Some(Word::Sign(Sign::CloseParen)) => Ok((Turn::Done(list), behind(tokens))),
        Some(Word::Sign(Sign::Comma)) => {
            let (name, rest) = bound_name(alloc, behind(tokens))?;
            list.push(name)?;
            Ok((Turn::Again(list), rest))
        }
        _ => Err(ReadFault::Refused(Fault::Syntax, tokens)),
    }
}

// The parameters behind those of the list.
fn more_parameters<'a>(
    alloc: Global,
    list: IdentList,
    tokens: &'a [Token],
) -> Result<(IdentList, &'a [Token]), ReadFault<'a>>
    ensures { Gives (λ x. (view_idents (nodes_of x.0), x.1.now)) result (loop parameter (view_idents (nodes_of list)) tokens.now) }
{
    let mut list = list;
    let mut rest = tokens;
    'turns: loop {
        let (turn, after) = parameter(alloc, list, rest)?;
        match turn {
            Turn::Again(longer) => {
                list = longer;
                rest = after;
            }
            Turn::Done(whole) => return Ok((whole, after)),
        }
    }
}

/// Parameters, and the tokens behind the parenthesis that closes them.
#[tactic(auto, unfolding(js_list_parser::specs::ExpressionParsing::parameters, js_list_parser::specs::ExpressionParsing::parameters_by))]
pub fn parameters(alloc: Global, tokens: &[Token]) -> Result<(IdentList, &[Token]), ReadFault<'_>>
    ensures gives { Gives (λ x. (view_idents (nodes_of x.0), x.1.now)) result (parameters tokens.now) }
    ensures order { IfOk result (λ x. 8 ≤ length (nodes_of x.0) → KeepsOrder text_of x.0) }
{
    let mut list = IdentList::new(alloc);
    match word_at(tokens) {
        Some(Word::Sign(Sign::CloseParen)) => Ok((list, behind(tokens))),
        _ => {
            let (first, rest) = bound_name(alloc, tokens)?;
            list.push(first)?;
            let (whole, rest) = more_parameters(alloc, list, rest)?;
            Ok((ordered_names(alloc, whole)?, rest))
        }
    }
}
