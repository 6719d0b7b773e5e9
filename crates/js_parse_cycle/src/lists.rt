//! Arguments and the items of arrays.

ghost use Rattle.std.specs.Prelude.{◌≤◌, IfOk};
ghost use Rattle.js_ast.specs.Trees.{no_items};
ghost use Rattle.js_ast.specs.Nodes.{nodes_of};
ghost use Rattle.js_ast.specs.Depth.{depth_exprs, depth_items};
ghost use Rattle.js_list_parser.specs.Reading.{loop};
ghost use Rattle.js_list_parser.specs.Parsing.{parsers};
ghost use Rattle.js_list_parser.specs.ExpressionParsing.{argument, arguments, item_turn};
ghost use Rattle.js_ast.specs.Views.{view_exprs, view_items};
ghost use Rattle.js_parse_parts.specs.Answers.{Gives, Deep, turn_of, TurnIs};

use crate::expression::expression;
use js_ast::{ExprList, ItemList, Sign, Token};
use js_parse_parts::{
    Fault, Found, ReadFault, Turn, Word, behind, ends_with_item, item_end, with_argument,
    with_hole, with_item, word_at,
};
use std::alloc::Global;

/// Arguments, and the parenthesis that closes them.
#[cycle(parser)]
#[tactic(auto, unfolding(js_list_parser::specs::ExpressionParsing::arguments, js_list_parser::specs::ExpressionParsing::arguments_by))]
pub(crate) fn arguments<'a>(alloc: Global, d: u32, tokens: &'a [Token]) -> Found<'a, ExprList>
    requires { 1 ≤ d }
    ensures gives { Gives (λ x. (view_exprs (nodes_of x.0), x.2.now)) result (arguments (parsers d) tokens.now) }
    ensures deep { IfOk result (λ x. Deep d (depth_exprs (view_exprs (nodes_of x.0))) x.1) }
{
    let none = ExprList::new(alloc);
    match word_at(tokens) {
        Some(Word::Sign(Sign::CloseParen)) => Ok((none, 0, behind(tokens))),
        _ => {
            let (first, depth, rest) = expression(alloc, d, 1, true, tokens)?;
            let args = with_argument((none, 0), (first, depth))?;
            more_arguments(alloc, d, args, rest)
        }
    }
}

// The arguments behind others.
#[cycle(parser)]
fn more_arguments<'a>(
    alloc: Global,
    d: u32,
    first: (ExprList, u32),
    tokens: &'a [Token],
) -> Found<'a, ExprList>
    requires limit { 1 ≤ d }
    requires first { Deep d (depth_exprs (view_exprs (nodes_of first.0))) first.1 }
    ensures gives { Gives (λ x. (view_exprs (nodes_of x.0), x.2.now)) result (loop (argument (parsers d)) (view_exprs (nodes_of first.0)) tokens.now) }
    ensures deep { IfOk result (λ x. Deep d (depth_exprs (view_exprs (nodes_of x.0))) x.1) }
{
    let mut args = first;
    let mut rest = tokens;
    'turns: loop {
        let (turn, after) = argument(alloc, d, args, rest)?;
        match turn {
            Turn::Again(more) => {
                args = more;
                rest = after;
            }
            Turn::Done(all) => return Ok((all.0, all.1, after)),
        }
    }
}

// A further argument, or the end of the arguments.
#[cycle(parser)]
#[tactic(auto, unfolding(js_list_parser::specs::ExpressionParsing::argument, js_list_parser::specs::ExpressionParsing::argument_by))]
fn argument<'a>(
    alloc: Global,
    d: u32,
    args: (ExprList, u32),
    tokens: &'a [Token],
) -> Result<(Turn<(ExprList, u32), (ExprList, u32)>, &'a [Token]), ReadFault<'a>>
    requires limit { 1 ≤ d }
    requires args { Deep d (depth_exprs (view_exprs (nodes_of args.0))) args.1 }
    ensures gives { Gives (λ x. (turn_of (λ l. view_exprs (nodes_of l.0)) (λ l. view_exprs (nodes_of l.0)) x.0, x.1.now)) result (argument (parsers d) (view_exprs (nodes_of args.0)) tokens.now) }
    ensures deep { IfOk result (λ x. TurnIs (λ l. Deep d (depth_exprs (view_exprs (nodes_of l.0))) l.1) (λ l. Deep d (depth_exprs (view_exprs (nodes_of l.0))) l.1) x.0) }
{
    match word_at(tokens) {
        Some(Word::Sign(Sign::CloseParen)) => Ok((Turn::Done(args), behind(tokens))),
        Some(Word::Sign(Sign::Comma)) => {
            let (next, depth, rest) = expression(alloc, d, 1, true, behind(tokens))?;
            let args = with_argument(args, (next, depth))?;
            Ok((Turn::Again(args), rest))
        }
        _ => Err(ReadFault::Refused(Fault::Syntax, tokens)),
    }
}

/// The items of an array, whether a comma stands behind its last expression, and the bracket that closes it.
#[cycle(parser)]
pub(crate) fn items<'a>(alloc: Global, d: u32, tokens: &'a [Token]) -> Found<'a, (ItemList, bool)>
    requires { 1 ≤ d }
    ensures gives { Gives (λ x. ((view_items (nodes_of x.0.0), x.0.1), x.2.now)) result (loop (item_turn (parsers d)) no_items tokens.now) }
    ensures deep { IfOk result (λ x. Deep d (depth_items (view_items (nodes_of x.0.0))) x.1) }
{
    let mut items = (ItemList::new(alloc), 0);
    let mut rest = tokens;
    'turns: loop {
        let (turn, after) = item_turn(alloc, d, items, rest)?;
        match turn {
            Turn::Again(more) => {
                items = more;
                rest = after;
            }
            Turn::Done(all) => return Ok((all.0, all.1, after)),
        }
    }
}

// A further item, or the end of the array.
#[cycle(parser)]
#[tactic(auto, unfolding(js_list_parser::specs::ExpressionParsing::item_turn, js_list_parser::specs::ExpressionParsing::item_by))]
fn item_turn<'a>(
    alloc: Global,
    d: u32,
    items: (ItemList, u32),
    tokens: &'a [Token],
) -> Result<(Turn<(ItemList, u32), ((ItemList, bool), u32)>, &'a [Token]), ReadFault<'a>>
    requires limit { 1 ≤ d }
    requires items { Deep d (depth_items (view_items (nodes_of items.0))) items.1 }
    ensures gives { Gives (λ x. (turn_of (λ l. view_items (nodes_of l.0)) (λ l. (view_items (nodes_of l.0.0), l.0.1)) x.0, x.1.now)) result (item_turn (parsers d) (view_items (nodes_of items.0)) tokens.now) }
    ensures deep { IfOk result (λ x. TurnIs (λ l. Deep d (depth_items (view_items (nodes_of l.0))) l.1) (λ l. Deep d (depth_items (view_items (nodes_of l.0.0))) l.1) x.0) }
{
    match word_at(tokens) {
        Some(Word::Sign(Sign::Comma)) => Ok((Turn::Again(with_hole(items)?), behind(tokens))),
        Some(Word::Sign(Sign::CloseBracket)) => {
            let comma = ends_with_item(&items.0);
            Ok((Turn::Done(((items.0, comma), items.1)), behind(tokens)))
        }
        _ => {
            let (next, depth, rest) = expression(alloc, d, 1, true, tokens)?;
            let items = with_item(items, (next, depth))?;
            item_end(items, rest)
        }
    }
}
