//! Functions.

ghost use Rattle.std.specs.Prelude.{◌≤◌, IfOk};
ghost use Rattle.js_ast.specs.Nodes.{nodes_of};
ghost use Rattle.js_ast.specs.Depth.{depth_statements};
ghost use Rattle.js_list_parser.specs.Parsing.{parsers};
ghost use Rattle.js_list_parser.specs.ExpressionParsing.{body_at, function_rest};
ghost use Rattle.js_ast.specs.Views.{view_idents, view_stmts};
ghost use Rattle.js_parse_parts.specs.Answers.{Gives, Deep};

use crate::list::statements;
use js_ast::{IdentList, StmtList, Token};
use js_parse_parts::{Found, ReadFault, close_brace, open_brace, open_paren, parameters};
use std::alloc::Global;

/// A body in braces.
#[cycle(parser)]
#[tactic(auto, unfolding(js_list_parser::specs::ExpressionParsing::body_at))]
pub(crate) fn body_at<'a>(alloc: Global, d: u32, tokens: &'a [Token]) -> Found<'a, StmtList>
    requires { 1 ≤ d }
    ensures gives { Gives (λ x. (view_stmts (nodes_of x.0), x.2.now)) result (body_at (parsers d) tokens.now) }
    ensures deep { IfOk result (λ x. Deep d (depth_statements (view_stmts (nodes_of x.0))) x.1) }
{
    let inner = open_brace(tokens)?;
    let (list, depth, rest) = statements(alloc, d, true, inner)?;
    let rest = close_brace(rest)?;
    Ok((list, depth, rest))
}

/// The parameters in parentheses, and the body.
#[cycle(parser)]
#[tactic(auto, unfolding(js_list_parser::specs::ExpressionParsing::function_rest))]
pub(crate) fn function_rest<'a>(
    alloc: Global,
    d: u32,
    tokens: &'a [Token],
) -> Result<(IdentList, StmtList, u32, &'a [Token]), ReadFault<'a>>
    requires { 1 ≤ d }
    ensures gives { Gives (λ x. ((view_idents (nodes_of x.0), view_stmts (nodes_of x.1)), x.3.now)) result (function_rest (parsers d) tokens.now) }
    ensures deep { IfOk result (λ x. Deep d (depth_statements (view_stmts (nodes_of x.1))) x.2) }
{
    let inner = open_paren(tokens)?;
    let (params, rest) = parameters(alloc, inner)?;
    let (body, depth, rest) = body_at(alloc, d, rest)?;
    Ok((params, body, depth, rest))
}
