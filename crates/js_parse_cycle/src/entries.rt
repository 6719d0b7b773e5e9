//! What is read on its own: programs, lists of statements and expressions.

ghost use Rattle.std.specs.Prelude.{◌≡◌, ◌≤◌, []};
ghost use Rattle.js_ast.specs.Grammar.{closes};
ghost use Rattle.js_ast.specs.Nodes.{nodes_of};
ghost use Rattle.js_list_parser.specs.Parsing.{list_at, longest_at, program_at};
ghost use Rattle.js_ast.specs.Views.{view_expr, view_stmts};
ghost use Rattle.js_parse_parts.specs.Answers.{Gives};

use crate::expression::expression;
use crate::list::statements;
use js_ast::{Expr, Sign, StmtList, Token};
use js_parse_parts::{Fault, ReadFault, Word, word_at};
use std::alloc::Global;

/// The statements of a program whose depth is below the limit, to the end of the tokens.
#[tactic(auto, unfolding(js_list_parser::specs::Parsing::program_at, js_list_parser::specs::Parsing::to_end))]
pub fn program(alloc: Global, limit: u32, tokens: &[Token]) -> Result<StmtList, ReadFault<'_>>
    requires { 1 ≤ limit }
    ensures { Gives (λ list. (view_stmts (nodes_of list), [])) result (program_at limit tokens.now) }
{
    let (list, _, rest) = statements(alloc, limit, true, tokens)?;
    if !rest.is_empty() {
        return Err(ReadFault::Refused(Fault::Syntax, rest));
    }
    Ok(list)
}

/// The statements of a program or a body, whose depth is below the limit, to the end of the tokens or to a `}` that closes
/// none of them.
#[tactic(auto, unfolding(js_list_parser::specs::Parsing::list_at, js_list_parser::specs::Parsing::to_close))]
pub fn statement_list<'a>(
    alloc: Global,
    limit: u32,
    tokens: &'a [Token],
) -> Result<(StmtList, &'a [Token]), ReadFault<'a>>
    requires { 1 ≤ limit }
    ensures { Gives (λ x. (view_stmts (nodes_of x.0), x.1.now)) result (list_at limit tokens.now) }
{
    let (list, _, rest) = statements(alloc, limit, true, tokens)?;
    if !closes(rest) {
        return Err(ReadFault::Refused(Fault::Syntax, rest));
    }
    Ok((list, rest))
}

/// The end of the tokens, or `}`.
fn closes(tokens: &[Token]) -> bool
    ensures { result ≡ closes tokens.now }
{
    matches!(word_at(tokens), None | Some(Word::Sign(Sign::CloseBrace)))
}

/// The longest expression whose depth is below the limit, where the operator `in` is allowed or not.
#[tactic(auto, unfolding(js_list_parser::specs::Parsing::longest_at))]
pub fn longest_expression<'a>(
    alloc: Global,
    limit: u32,
    free: bool,
    tokens: &'a [Token],
) -> Result<(Expr, &'a [Token]), ReadFault<'a>>
    requires { 1 ≤ limit }
    ensures { Gives (λ x. (view_expr x.0, x.1.now)) result (longest_at free limit tokens.now) }
{
    let (found, _, rest) = expression(alloc, limit, 0, free, tokens)?;
    Ok((found, rest))
}
