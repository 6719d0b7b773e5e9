//! `var`, and variables in the header of a `for`.

ghost use Rattle.std.specs.Prelude.{◌≡◌, ℕ, ◌-◌, ◌≤◌, IfOk};
ghost use Rattle.js_ast.specs.Depth.{depth_maybe, depth_declarations, depth_statement};
ghost use Rattle.js_ast.specs.Grammar.{place_of};
ghost use Rattle.js_list_parser.specs.Parsing.{parsers};
ghost use Rattle.js_list_parser.specs.Reading.{behind, room};
ghost use Rattle.js_list_parser.specs.StatementParsing.{initialiser, declaration_step, declarations_from, var_rest};
ghost use Rattle.js_ast.specs.Views.{view_ident, view_maybe_expr, view_declarations, view_stmt};
ghost use Rattle.js_parse_parts.specs.Answers.{Gives, Deep, turn_of, TurnIs};

use crate::expression::expression;
use js_ast::{Declarations, Expr, Ident, Sign, Stmt, Token};
use js_parse_parts::{
    Found, ReadFault, Turn, Word, behind, bound_name, ending, enter, first_declaration,
    further_declaration, last_initialiser, var_statement, word_at,
};
use std::alloc::Global;

// The initialiser of a variable, or none.
#[cycle(parser)]
#[tactic(auto, unfolding(js_list_parser::specs::StatementParsing::initialiser, js_list_parser::specs::StatementParsing::initialiser_by))]
fn initialiser<'a>(
    alloc: Global,
    d: u32,
    free: bool,
    tokens: &'a [Token],
) -> Found<'a, Option<Expr>>
    requires { 1 ≤ d }
    ensures gives { Gives (λ x. (view_maybe_expr x.0, x.2.now)) result (initialiser (parsers d) free tokens.now) }
    ensures deep { IfOk result (λ x. Deep d (depth_maybe (view_maybe_expr x.0)) x.1) }
{
    match word_at(tokens) {
        Some(Word::Sign(Sign::Assign)) => {
            let (value, depth, rest) = expression(alloc, d, 1, free, behind(tokens))?;
            Ok((Some(value), depth, rest))
        }
        _ => Ok((None, 0, tokens)),
    }
}

// A further variable behind a comma, or the end of the variables.
#[cycle(parser)]
#[tactic(auto, unfolding(js_list_parser::specs::StatementParsing::declaration_step, js_list_parser::specs::StatementParsing::declaration_step_by, js_list_parser::specs::StatementParsing::next_declaration))]
fn declaration<'a>(
    alloc: Global,
    d: u32,
    free: bool,
    list: (Declarations, u32),
    tokens: &'a [Token],
) -> Result<(Turn<(Declarations, u32), (Declarations, u32)>, &'a [Token]), ReadFault<'a>>
    requires limit { 1 ≤ d }
    requires list { Deep d (depth_declarations (view_declarations list.0)) list.1 }
    ensures gives { Gives (λ x. (turn_of (λ l. view_declarations l.0) (λ l. view_declarations l.0) x.0, x.1.now)) result (declaration_step (parsers d) free (view_declarations list.0) tokens.now) }
    ensures deep { IfOk result (λ x. TurnIs (λ l. Deep d (depth_declarations (view_declarations l.0)) l.1) (λ l. Deep d (depth_declarations (view_declarations l.0)) l.1) x.0) }
{
    match word_at(tokens) {
        Some(Word::Sign(Sign::Comma)) => {
            let (name, rest) = bound_name(alloc, behind(tokens))?;
            let (value, depth, rest) = initialiser(alloc, d, free, rest)?;
            let longer = further_declaration(list, name, (value, depth))?;
            Ok((Turn::Again(longer), rest))
        }
        _ => Ok((Turn::Done(list), tokens)),
    }
}

// The variables of which the first has this name.
#[cycle(parser)]
#[tactic(auto, unfolding(js_list_parser::specs::StatementParsing::declarations_from))]
pub(crate) fn declarations_from<'a>(
    alloc: Global,
    d: u32,
    free: bool,
    name: Ident,
    tokens: &'a [Token],
) -> Found<'a, Declarations>
    requires { 1 ≤ d }
    ensures gives { Gives (λ x. (view_declarations x.0, x.2.now)) result (declarations_from (parsers d) free (view_ident name) tokens.now) }
    ensures deep { IfOk result (λ x. Deep d (depth_declarations (view_declarations x.0)) x.1) }
{
    let (value, depth, after) = initialiser(alloc, d, free, tokens)?;
    let mut list = first_declaration(alloc, name, (value, depth));
    let mut rest = after;
    'turns: loop {
        let (turn, after) = declaration(alloc, d, free, list, rest)?;
        match turn {
            Turn::Again(longer) => {
                list = longer;
                rest = after;
            }
            Turn::Done(whole) => return Ok((whole.0, whole.1, after)),
        }
    }
}

/// A `var` statement.
#[cycle(parser)]
#[tactic(auto, unfolding(js_list_parser::specs::StatementParsing::var_rest, js_list_parser::specs::StatementParsing::declarations))]
pub(crate) fn variables<'a>(alloc: Global, limit: u32, tokens: &'a [Token]) -> Found<'a, Stmt>
    requires { 1 ≤ limit }
    ensures gives { Gives (λ x. (view_stmt x.0, x.2.now)) result (room (limit - 1) 0 tokens.now (var_rest (parsers (limit - 1)) (place_of tokens.now) (behind tokens.now))) }
    ensures deep { IfOk result (λ x. Deep limit (depth_statement (view_stmt x.0)) x.1) }
{
    let d = limit - 1;
    let (at, rest) = enter(d, 0, tokens)?;
    let (name, rest) = bound_name(alloc, rest)?;
    let (list, depth, rest) = declarations_from(alloc, d, true, name, rest)?;
    let (semi, rest) = ending(last_initialiser(&list), rest)?;
    let (made, depth) = var_statement(alloc, at, (list, depth), semi)?;
    Ok((made, depth, rest))
}
