//! Lists of statements, blocks, and the clauses of a `switch`, with their depths.

ghost use Rattle.std.specs.Prelude.{◌≡◌, ℕ, ◌<◌, suc, max, leb, IfOk};
ghost use Rattle.js_ast.specs.Depth.{depth, depth_statement, depth_statements, depth_clauses};
ghost use Rattle.js_ast.specs.Nodes.{nodes_of};
ghost use Rattle.js_ast.specs.Joined.{joined_statements, joined_clauses};
ghost use Rattle.js_ast.specs.Trees as trees;
ghost use Rattle.js_ast.specs.Validity.{defaults};
ghost use Rattle.js_parse_parts.specs.Clauses.{is_default};
ghost use Rattle.js_ast.specs.Views.{view_expr, view_stmt, view_stmts, view_block, view_clauses};

use flow_text::OutOfMemory;
use js_ast::{Block, Clause, ClauseList, Expr, Stmt, StmtList};

/// A further statement.
pub fn further_statement(
    list: (StmtList, u32),
    statement: (Stmt, u32),
) -> Result<(StmtList, u32), OutOfMemory>
    requires list { list.1 ≡ depth_statements (view_stmts (nodes_of list.0)) }
    requires statement { statement.1 ≡ depth_statement (view_stmt statement.0) }
    ensures view { IfOk result (λ x. view_stmts (nodes_of x.0) ≡ joined_statements (view_stmts (nodes_of list.0)) (trees.more_statements (view_stmt statement.0) trees.no_statements)) }
    ensures deep { IfOk result (λ x. x.1 ≡ depth_statements (view_stmts (nodes_of x.0))) }
    ensures size { IfOk result (λ x. x.1 ≡ max list.1 statement.1) }
{
    let mut statements = list.0;
    statements.push(statement.0)?;
    Ok((statements, list.1.max(statement.1)))
}

/// Statements between braces.
#[tactic(auto, using(js_ast::proofs::ViewLaws::held, js_ast::specs::declared::trees::ExprKind::TheViews::the_lemmas))]
pub fn block_of(at: usize, body: (StmtList, u32)) -> (Block, u32)
    requires { body.1 < u32.MAX }
    ensures view { view_block result.0 ≡ trees.block_of at (view_stmts (nodes_of body.0)) }
    ensures depth { result.1 ≡ suc body.1 }
{
    (Block { at, body: body.0 }, body.1 + 1)
}

/// A further clause with a test.
pub fn further_case(
    list: (ClauseList, u32),
    test: (Expr, u32),
    body: (StmtList, u32),
) -> Result<(ClauseList, u32), OutOfMemory>
    requires list { list.1 ≡ depth_clauses (view_clauses (nodes_of list.0)) }
    requires test { test.1 ≡ depth (view_expr test.0) }
    requires body { body.1 ≡ depth_statements (view_stmts (nodes_of body.0)) }
    ensures view { IfOk result (λ x. view_clauses (nodes_of x.0) ≡ joined_clauses (view_clauses (nodes_of list.0)) (trees.case (view_expr test.0) (view_stmts (nodes_of body.0)) trees.no_clauses)) }
    ensures deep { IfOk result (λ x. x.1 ≡ depth_clauses (view_clauses (nodes_of x.0))) }
    ensures size { IfOk result (λ x. x.1 ≡ max list.1 (max test.1 body.1)) }
{
    let mut clauses = list.0;
    clauses.push(Clause {
        test: Some(test.0),
        body: body.0,
    })?;
    Ok((clauses, list.1.max(test.1.max(body.1))))
}

/// The clause with no test behind others.
pub fn further_default(
    list: (ClauseList, u32),
    body: (StmtList, u32),
) -> Result<(ClauseList, u32), OutOfMemory>
    requires list { list.1 ≡ depth_clauses (view_clauses (nodes_of list.0)) }
    requires body { body.1 ≡ depth_statements (view_stmts (nodes_of body.0)) }
    ensures view { IfOk result (λ x. view_clauses (nodes_of x.0) ≡ joined_clauses (view_clauses (nodes_of list.0)) (trees.default (view_stmts (nodes_of body.0)) trees.no_clauses)) }
    ensures deep { IfOk result (λ x. x.1 ≡ depth_clauses (view_clauses (nodes_of x.0))) }
    ensures size { IfOk result (λ x. x.1 ≡ max list.1 body.1) }
{
    let mut clauses = list.0;
    clauses.push(Clause {
        test: None,
        body: body.0,
    })?;
    Ok((clauses, list.1.max(body.1)))
}

/// Whether it is the clause with no test.
fn is_default(clause: &Clause) -> bool
    ensures { result ≡ is_default clause.now }
{
    clause.test.is_none()
}

/// Whether one of them has no test.
pub fn has_default(clauses: &ClauseList) -> bool
    ensures { result ≡ leb 1 (defaults (view_clauses (nodes_of clauses.now))) }
{
    clauses.items().iter().any(|clause| is_default(clause))
}
