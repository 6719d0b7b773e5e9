//! Objects.

ghost use Rattle.std.specs.Prelude.{◌≤◌, IfOk};
ghost use Rattle.js_ast.specs.Trees.{no_properties};
ghost use Rattle.js_ast.specs.Nodes.{nodes_of};
ghost use Rattle.js_ast.specs.Grammar.{place_of};
ghost use Rattle.js_ast.specs.Depth.{depth_property, depth_properties};
ghost use Rattle.js_list_parser.specs.Reading.{loop};
ghost use Rattle.js_list_parser.specs.Parsing.{parsers};
ghost use Rattle.js_list_parser.specs.ExpressionParsing.{property_at, property_turn};
ghost use Rattle.js_ast.specs.Views.{view_property, view_properties};
ghost use Rattle.js_parse_parts.specs.Answers.{Gives, Deep, turn_of, TurnIs};

use crate::expression::expression;
use crate::functions::body_at;
use js_ast::{Property, PropertyList, Sign, Token};
use js_parse_parts::{
    Found, ReadFault, Turn, Word, begins_getter, begins_setter, behind, bound_name, close_paren,
    colon, getter_property, has_properties, open_paren, place_of, property_end, property_key,
    setter_property, value_property, with_property, word_at,
};
use std::alloc::Global;

/// The properties of an object, whether a comma stands behind the last one, and the brace that closes it.
#[cycle(parser)]
pub(crate) fn properties<'a>(
    alloc: Global,
    d: u32,
    tokens: &'a [Token],
) -> Found<'a, (PropertyList, bool)>
    requires { 1 ≤ d }
    ensures gives { Gives (λ x. ((view_properties (nodes_of x.0.0), x.0.1), x.2.now)) result (loop (property_turn (parsers d)) no_properties tokens.now) }
    ensures deep { IfOk result (λ x. Deep d (depth_properties (view_properties (nodes_of x.0.0))) x.1) }
{
    let mut properties = (PropertyList::new(alloc), 0);
    let mut rest = tokens;
    'turns: loop {
        let (turn, after) = property_turn(alloc, d, properties, rest)?;
        match turn {
            Turn::Again(more) => {
                properties = more;
                rest = after;
            }
            Turn::Done(all) => return Ok((all.0, all.1, after)),
        }
    }
}

// A further property, or the end of the object.
#[cycle(parser)]
#[tactic(auto, unfolding(js_list_parser::specs::ExpressionParsing::property_turn, js_list_parser::specs::ExpressionParsing::property_by))]
fn property_turn<'a>(
    alloc: Global,
    d: u32,
    properties: (PropertyList, u32),
    tokens: &'a [Token],
) -> Result<
    (
        Turn<(PropertyList, u32), ((PropertyList, bool), u32)>,
        &'a [Token],
    ),
    ReadFault<'a>,
>
    requires limit { 1 ≤ d }
    requires properties { Deep d (depth_properties (view_properties (nodes_of properties.0))) properties.1 }
    ensures gives { Gives (λ x. (turn_of (λ l. view_properties (nodes_of l.0)) (λ l. (view_properties (nodes_of l.0.0), l.0.1)) x.0, x.1.now)) result (property_turn (parsers d) (view_properties (nodes_of properties.0)) tokens.now) }
    ensures deep { IfOk result (λ x. TurnIs (λ l. Deep d (depth_properties (view_properties (nodes_of l.0))) l.1) (λ l. Deep d (depth_properties (view_properties (nodes_of l.0.0))) l.1) x.0) }
{
    match word_at(tokens) {
        Some(Word::Sign(Sign::CloseBrace)) => {
            let comma = has_properties(&properties.0);
            Ok((
                Turn::Done(((properties.0, comma), properties.1)),
                behind(tokens),
            ))
        }
        _ => {
            let (next, depth, rest) = property_at(alloc, d, tokens)?;
            let properties = with_property(properties, (next, depth))?;
            property_end(properties, rest)
        }
    }
}

// A property (ECMA-262 11.1.5).
#[cycle(parser)]
#[tactic(auto, unfolding(js_list_parser::specs::ExpressionParsing::property_at, js_list_parser::specs::ExpressionParsing::value_rest, js_list_parser::specs::ExpressionParsing::getter_rest, js_list_parser::specs::ExpressionParsing::setter_rest))]
fn property_at<'a>(alloc: Global, d: u32, tokens: &'a [Token]) -> Found<'a, Property>
    requires { 1 ≤ d }
    ensures gives { Gives (λ x. (view_property x.0, x.2.now)) result (property_at (parsers d) tokens.now) }
    ensures deep { IfOk result (λ x. Deep d (depth_property (view_property x.0)) x.1) }
{
    let at = place_of(tokens);
    if begins_getter(tokens) {
        let (key, rest) = property_key(alloc, behind(tokens))?;
        let rest = close_paren(open_paren(rest)?)?;
        let (body, inner, rest) = body_at(alloc, d, rest)?;
        let (property, depth) = getter_property(alloc, at, key, (body, inner));
        return Ok((property, depth, rest));
    }
    if begins_setter(tokens) {
        let (key, rest) = property_key(alloc, behind(tokens))?;
        let (param, rest) = bound_name(alloc, open_paren(rest)?)?;
        let rest = close_paren(rest)?;
        let (body, inner, rest) = body_at(alloc, d, rest)?;
        let (property, depth) = setter_property(alloc, at, key, param, (body, inner))?;
        return Ok((property, depth, rest));
    }
    let (key, rest) = property_key(alloc, tokens)?;
    let (value, inner, rest) = expression(alloc, d, 1, true, colon(rest)?)?;
    let (property, depth) = value_property(at, key, (value, inner));
    Ok((property, depth, rest))
}
