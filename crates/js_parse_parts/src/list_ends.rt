//! What may stand behind a node of a list.

ghost use Rattle.std.specs.Prelude.{ℕ, IfOk};
ghost use Rattle.js_ast.specs.Nodes.{nodes_of};
ghost use Rattle.js_ast.specs.Depth.{depth_items, depth_properties};
ghost use Rattle.js_list_parser.specs.Reading.{word_at};
ghost use Rattle.js_list_parser.specs.ExpressionParsing.{item_end, property_end};
ghost use Rattle.js_ast.specs.Views.{view_items, view_properties};
ghost use Rattle.js_parse_parts.specs.Answers.{Gives, Deep, turn_of, TurnIs};

use crate::reading::{Fault, ReadFault, Turn};
use crate::words::{Word, behind, word_at};
use js_ast::{ItemList, PropertyList, Sign, Token};

/// What stands behind an expression in an array: a comma, or its end.
#[tactic(auto, unfolding(js_list_parser::specs::ExpressionParsing::item_end))]
pub fn item_end<'a>(
    items: (ItemList, u32),
    tokens: &'a [Token],
) -> Result<(Turn<(ItemList, u32), ((ItemList, bool), u32)>, &'a [Token]), ReadFault<'a>>
    ensures gives { Gives (λ x. (turn_of (λ l. view_items (nodes_of l.0)) (λ l. (view_items (nodes_of l.0.0), l.0.1)) x.0, x.1.now)) result (item_end (view_items (nodes_of items.0)) (word_at tokens.now) tokens.now) }
    ensures deep { (limit : ℕ) → Deep limit (depth_items (view_items (nodes_of items.0))) items.1 → IfOk result (λ x. TurnIs (λ l. Deep limit (depth_items (view_items (nodes_of l.0))) l.1) (λ l. Deep limit (depth_items (view_items (nodes_of l.0.0))) l.1) x.0) }
{
    match word_at(tokens) {
        Some(Word::Sign(Sign::Comma)) => Ok((Turn::Again(items), behind(tokens))),
        Some(Word::Sign(Sign::CloseBracket)) => {
            Ok((Turn::Done(((items.0, false), items.1)), behind(tokens)))
        }
        _ => Err(ReadFault::Refused(Fault::Syntax, tokens)),
    }
}

/// What stands behind a property of an object: a comma, or its end.
#[tactic(auto, unfolding(js_list_parser::specs::ExpressionParsing::property_end))]
pub fn property_end<'a>(
    properties: (PropertyList, u32),
    tokens: &'a [Token],
) -> Result<
    (
        Turn<(PropertyList, u32), ((PropertyList, bool), u32)>,
        &'a [Token],
    ),
    ReadFault<'a>,
>
    ensures gives { Gives (λ x. (turn_of (λ l. view_properties (nodes_of l.0)) (λ l. (view_properties (nodes_of l.0.0), l.0.1)) x.0, x.1.now)) result (property_end (view_properties (nodes_of properties.0)) (word_at tokens.now) tokens.now) }
    ensures deep { (limit : ℕ) → Deep limit (depth_properties (view_properties (nodes_of properties.0))) properties.1 → IfOk result (λ x. TurnIs (λ l. Deep limit (depth_properties (view_properties (nodes_of l.0))) l.1) (λ l. Deep limit (depth_properties (view_properties (nodes_of l.0.0))) l.1) x.0) }
{
    match word_at(tokens) {
        Some(Word::Sign(Sign::Comma)) => Ok((Turn::Again(properties), behind(tokens))),
        Some(Word::Sign(Sign::CloseBrace)) => {
            Ok((
                Turn::Done(((properties.0, false), properties.1)),
                behind(tokens),
            ))
        }
        _ => Err(ReadFault::Refused(Fault::Syntax, tokens)),
    }
}
