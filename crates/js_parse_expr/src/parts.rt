//! The longest expression, and the statements up to a `}`.

ghost use Rattle.std.specs.Prelude.{◌≡◌, ℕ, ◌≤◌, not, drop, length, IfOk, IfErr, ◌⊎◌};
ghost use Rattle.std.specs.List.{All};
ghost use Rattle.std.specs.Result.{MatchResult};
ghost use Rattle.js_ast.specs.Trees.{Expr as Tree, Statements};
ghost use Rattle.js_ast.specs.Nodes.{nodes_of};
ghost use Rattle.js_list_parser.specs.Refusals.{a_list, an_expression};
ghost use Rattle.js_ast.specs.Views.{view_expr, view_stmts};
ghost use Rattle.js_parse_expr.specs.declared.fault.ParseFault.TheVariants.{OutOfMemory};
ghost use Rattle.js_parse_expr.specs.declared.fault.ParseFault.{ParseFault};
ghost use Rattle.js_parse_expr.specs.Parsed.{IsTreeAt, IsReadFault, fault_at};
ghost use Rattle.js_parse_expr.specs.Parts.{depths_left, IsExpression, IsNoExpression, AreStatements, AreNoStatements};

use crate::fault::{ParseFault, refused};
use js_ast::{Expr, StmtList, Token};
use js_faults::{bad_directive, bad_directive_in_expr};
use js_parse_cycle::{longest_expression, statement_list};
use js_parse_parts::ReadFault;
use std::alloc::Global;

/// The depth of a program is below this.
const DEPTHS: u32 = 201;

/// The longest expression from a token on, and the index of the token behind it (ECMA-262 11). `deep` is the depth that is
/// open round it, with `no_in` the operator `in` stands only inside brackets, parentheses and braces, or between `?` and
/// `:`, and `end` is the place behind the source's last unit.
pub fn expression(
    alloc: Global,
    tokens: &[Token],
    from: usize,
    deep: u32,
    no_in: bool,
    end: usize,
) -> Result<(Expr, usize), ParseFault>
    requires from { from ≤ length tokens.now }
    requires deep { deep ≤ 200 }
    ensures read { IfOk result (λ x. IsExpression tokens.now from deep no_in (view_expr x.0) x.1) }
    ensures fault { IfErr result (λ f. (f ≡ OutOfMemory) ⊎ IsNoExpression tokens.now from deep no_in end f) }
    ensures place { All (λ t. t.from ≤ end) tokens.now → IfErr result (λ f. fault_at f ≤ end) }
    ensures only_read { (e : Tree) (to : ℕ) → IsExpression tokens.now from deep no_in e to → MatchResult result (λ x. (view_expr x.0 ≡ e) × (x.1 ≡ to)) (λ f. f ≡ OutOfMemory) }
    ensures only_fault { (f : ParseFault) → IsNoExpression tokens.now from deep no_in end f → MatchResult result (λ x. ⊥) (λ found. (found ≡ f) ⊎ (found ≡ OutOfMemory)) }
{
    formed_expression(alloc, tokens, from, deep, no_in, end)
}

/// The same, as the causes of each answer.
fn formed_expression(
    alloc: Global,
    tokens: &[Token],
    from: usize,
    deep: u32,
    no_in: bool,
    end: usize,
) -> Result<(Expr, usize), ParseFault>
    requires from { from ≤ length tokens.now }
    requires deep { deep ≤ 200 }
    ensures read { IfOk result (λ x. IsExpression tokens.now from deep no_in (view_expr x.0) x.1) }
    ensures fault { IfErr result (λ f. (f ≡ OutOfMemory) ⊎ IsNoExpression tokens.now from deep no_in end f) }
{
    let (found, to) = expression_tree(alloc, tokens, from, deep, no_in, end)?;
    if let Some(directive) = bad_directive_in_expr(&found) {
        return Err(ParseFault::Directive { at: directive.at });
    }
    Ok((found, to))
}

/// The expression, whatever its directives are.
fn expression_tree(
    alloc: Global,
    tokens: &[Token],
    from: usize,
    deep: u32,
    no_in: bool,
    end: usize,
) -> Result<(Expr, usize), ParseFault>
    requires from { from ≤ length tokens.now }
    requires deep { deep ≤ 200 }
    ensures tree { IfOk result (λ x. IsTreeAt (an_expression (not no_in)) (depths_left deep) tokens.now from (view_expr x.0) x.1) }
    ensures fault { IfErr result (λ f. (f ≡ OutOfMemory) ⊎ IsReadFault (an_expression (not no_in)) (depths_left deep) (drop from tokens.now) end f) }
{
    match longest_expression(alloc, DEPTHS - deep, !no_in, &tokens[from..]) {
        Ok((found, rest)) => Ok((found, tokens.len() - rest.len())),
        Err(ReadFault::Refused(fault, rest)) => Err(refused(fault, rest, end)),
        Err(ReadFault::OutOfMemory) => Err(ParseFault::OutOfMemory),
    }
}

/// The statements from a token on, as those of a program or of a function, up to a `}` that closes none of them or to the
/// end, and the index of the token behind them (ECMA-262 13, 14). `deep` is the depth that is open round them, and `end` is
/// the place behind the source's last unit.
pub fn statements(
    alloc: Global,
    tokens: &[Token],
    from: usize,
    deep: u32,
    end: usize,
) -> Result<(StmtList, usize), ParseFault>
    requires from { from ≤ length tokens.now }
    requires deep { deep ≤ 200 }
    ensures read { IfOk result (λ x. AreStatements tokens.now from deep (view_stmts (nodes_of x.0)) x.1) }
    ensures fault { IfErr result (λ f. (f ≡ OutOfMemory) ⊎ AreNoStatements tokens.now from deep end f) }
    ensures place { All (λ t. t.from ≤ end) tokens.now → IfErr result (λ f. fault_at f ≤ end) }
    ensures only_read { (ss : Statements) (to : ℕ) → AreStatements tokens.now from deep ss to → MatchResult result (λ x. (view_stmts (nodes_of x.0) ≡ ss) × (x.1 ≡ to)) (λ f. f ≡ OutOfMemory) }
    ensures only_fault { (f : ParseFault) → AreNoStatements tokens.now from deep end f → MatchResult result (λ x. ⊥) (λ found. (found ≡ f) ⊎ (found ≡ OutOfMemory)) }
{
    formed_statements(alloc, tokens, from, deep, end)
}

/// The same, as the causes of each answer.
fn formed_statements(
    alloc: Global,
    tokens: &[Token],
    from: usize,
    deep: u32,
    end: usize,
) -> Result<(StmtList, usize), ParseFault>
    requires from { from ≤ length tokens.now }
    requires deep { deep ≤ 200 }
    ensures read { IfOk result (λ x. AreStatements tokens.now from deep (view_stmts (nodes_of x.0)) x.1) }
    ensures fault { IfErr result (λ f. (f ≡ OutOfMemory) ⊎ AreNoStatements tokens.now from deep end f) }
{
    let (list, to) = statement_trees(alloc, tokens, from, deep, end)?;
    if let Some(directive) = bad_directive(&list) {
        return Err(ParseFault::Directive { at: directive.at });
    }
    Ok((list, to))
}

/// The statements, whatever their directives are.
fn statement_trees(
    alloc: Global,
    tokens: &[Token],
    from: usize,
    deep: u32,
    end: usize,
) -> Result<(StmtList, usize), ParseFault>
    requires from { from ≤ length tokens.now }
    requires deep { deep ≤ 200 }
    ensures tree { IfOk result (λ x. IsTreeAt a_list (depths_left deep) tokens.now from (view_stmts (nodes_of x.0)) x.1) }
    ensures fault { IfErr result (λ f. (f ≡ OutOfMemory) ⊎ IsReadFault a_list (depths_left deep) (drop from tokens.now) end f) }
{
    match statement_list(alloc, DEPTHS - deep, &tokens[from..]) {
        Ok((list, rest)) => Ok((list, tokens.len() - rest.len())),
        Err(ReadFault::Refused(fault, rest)) => Err(refused(fault, rest, end)),
        Err(ReadFault::OutOfMemory) => Err(ParseFault::OutOfMemory),
    }
}
