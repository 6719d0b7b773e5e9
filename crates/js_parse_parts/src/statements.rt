//! Statements from their parts. Each maker takes its parts with their depths, and gives the statement with its own.

ghost use Rattle.std.specs.Prelude.{◌≡◌, ℕ, ◌<◌, suc, max, Some, IfOk};
ghost use Rattle.js_ast.specs.Nodes.{nodes_of};
ghost use Rattle.js_ast.specs.Trees as trees;
ghost use Rattle.js_ast.specs.Trees.{function_of};
ghost use Rattle.js_ast.specs.Views.{view_ident, view_name, view_idents, view_semi, view_expr, view_maybe_expr, view_declarations, view_first, view_target, view_clauses, view_block, view_stmt, view_stmts};

use crate::functions::unmarked;
use flow_text::{OutOfMemory, Text};
use js_ast::{
    Block, ClauseList, Declarations, Expr, ForFirst, ForTarget, Ident, IdentList, Semi, Stmt,
    StmtKind, StmtList,
};
use std::alloc::Global;

/// One more than a part.
fn above(part: u32) -> u32
    requires { part < u32.MAX }
    ensures { result ≡ suc part }
{
    part + 1
}

/// One more than the deeper of two parts.
fn above_both(left: u32, right: u32) -> u32
    requires left { left < u32.MAX }
    requires right { right < u32.MAX }
    ensures { result ≡ suc (max left right) }
{
    left.max(right) + 1
}

/// The statement that begins at a place.
fn stmt(alloc: Global, at: usize, kind: StmtKind) -> Result<Stmt, OutOfMemory>
    ensures at { IfOk result (λ s. s.at ≡ at) }
    ensures kind { IfOk result (λ s. s.kind.value ≡ kind) }
{
    Ok(Stmt {
        at,
        kind: Box::new(alloc, kind)?,
    })
}

/// A `var` statement.
pub fn var_statement(
    alloc: Global,
    at: usize,
    declarations: (Declarations, u32),
    semi: Semi,
) -> Result<(Stmt, u32), OutOfMemory>
    requires { declarations.1 < u32.MAX }
    ensures view { IfOk result (λ x. view_stmt x.0 ≡ trees.var at (view_declarations declarations.0) (view_semi semi)) }
    ensures depth { IfOk result (λ x. x.1 ≡ suc declarations.1) }
{
    let kind = StmtKind::Var {
        declarations: declarations.0,
        semi,
    };
    Ok((stmt(alloc, at, kind)?, above(declarations.1)))
}

/// A lone semicolon.
pub fn empty_statement(alloc: Global, at: usize) -> Result<(Stmt, u32), OutOfMemory>
    ensures view { IfOk result (λ x. view_stmt x.0 ≡ trees.empty at) }
    ensures depth { IfOk result (λ x. x.1 ≡ 1) }
{
    let kind = StmtKind::Empty;
    Ok((stmt(alloc, at, kind)?, 1))
}

/// An `if` without `else`.
pub fn if_then(
    alloc: Global,
    at: usize,
    test: (Expr, u32),
    then: (Stmt, u32),
) -> Result<(Stmt, u32), OutOfMemory>
    requires test { test.1 < u32.MAX }
    requires then { then.1 < u32.MAX }
    ensures view { IfOk result (λ x. view_stmt x.0 ≡ trees.if_then at (view_expr test.0) (view_stmt then.0)) }
    ensures depth { IfOk result (λ x. x.1 ≡ suc (max test.1 then.1)) }
{
    let kind = StmtKind::If {
        test: test.0,
        then: then.0,
        other: None,
    };
    Ok((stmt(alloc, at, kind)?, above_both(test.1, then.1)))
}

/// An `if` with `else`.
pub fn if_else(
    alloc: Global,
    at: usize,
    test: (Expr, u32),
    then: (Stmt, u32),
    other: (Stmt, u32),
) -> Result<(Stmt, u32), OutOfMemory>
    requires test { test.1 < u32.MAX }
    requires then { then.1 < u32.MAX }
    requires other { other.1 < u32.MAX }
    ensures view { IfOk result (λ x. view_stmt x.0 ≡ trees.if_else at (view_expr test.0) (view_stmt then.0) (view_stmt other.0)) }
    ensures depth { IfOk result (λ x. x.1 ≡ suc (max test.1 (max then.1 other.1))) }
{
    let kind = StmtKind::If {
        test: test.0,
        then: then.0,
        other: Some(other.0),
    };
    Ok((
        stmt(alloc, at, kind)?,
        above_both(test.1, then.1.max(other.1)),
    ))
}

/// A `do` loop.
pub fn do_while(
    alloc: Global,
    at: usize,
    body: (Stmt, u32),
    test: (Expr, u32),
    semi: Semi,
) -> Result<(Stmt, u32), OutOfMemory>
    requires body { body.1 < u32.MAX }
    requires test { test.1 < u32.MAX }
    ensures view { IfOk result (λ x. view_stmt x.0 ≡ trees.do_while at (view_stmt body.0) (view_expr test.0) (view_semi semi)) }
    ensures depth { IfOk result (λ x. x.1 ≡ suc (max body.1 test.1)) }
{
    let kind = StmtKind::DoWhile {
        body: body.0,
        test: test.0,
        semi,
    };
    Ok((stmt(alloc, at, kind)?, above_both(body.1, test.1)))
}

/// A `while` loop.
pub fn while_loop(
    alloc: Global,
    at: usize,
    test: (Expr, u32),
    body: (Stmt, u32),
) -> Result<(Stmt, u32), OutOfMemory>
    requires test { test.1 < u32.MAX }
    requires body { body.1 < u32.MAX }
    ensures view { IfOk result (λ x. view_stmt x.0 ≡ trees.while at (view_expr test.0) (view_stmt body.0)) }
    ensures depth { IfOk result (λ x. x.1 ≡ suc (max test.1 body.1)) }
{
    let kind = StmtKind::While {
        test: test.0,
        body: body.0,
    };
    Ok((stmt(alloc, at, kind)?, above_both(test.1, body.1)))
}

/// A `for` loop.
pub fn for_loop(
    alloc: Global,
    at: usize,
    first: (ForFirst, u32),
    test: (Option<Expr>, u32),
    update: (Option<Expr>, u32),
    body: (Stmt, u32),
) -> Result<(Stmt, u32), OutOfMemory>
    requires first { first.1 < u32.MAX }
    requires test { test.1 < u32.MAX }
    requires update { update.1 < u32.MAX }
    requires body { body.1 < u32.MAX }
    ensures view { IfOk result (λ x. view_stmt x.0 ≡ trees.for at (view_first first.0) (view_maybe_expr test.0) (view_maybe_expr update.0) (view_stmt body.0)) }
    ensures depth { IfOk result (λ x. x.1 ≡ suc (max (max first.1 test.1) (max update.1 body.1))) }
{
    let kind = StmtKind::For {
        first: first.0,
        test: test.0,
        update: update.0,
        body: body.0,
    };
    Ok((
        stmt(alloc, at, kind)?,
        above_both(first.1.max(test.1), update.1.max(body.1)),
    ))
}

/// A `for` loop over the names of properties.
pub fn for_in(
    alloc: Global,
    at: usize,
    target: (ForTarget, u32),
    object: (Expr, u32),
    body: (Stmt, u32),
) -> Result<(Stmt, u32), OutOfMemory>
    requires target { target.1 < u32.MAX }
    requires object { object.1 < u32.MAX }
    requires body { body.1 < u32.MAX }
    ensures view { IfOk result (λ x. view_stmt x.0 ≡ trees.for_in at (view_target target.0) (view_expr object.0) (view_stmt body.0)) }
    ensures depth { IfOk result (λ x. x.1 ≡ suc (max target.1 (max object.1 body.1))) }
{
    let kind = StmtKind::ForIn {
        target: target.0,
        object: object.0,
        body: body.0,
    };
    Ok((
        stmt(alloc, at, kind)?,
        above_both(target.1, object.1.max(body.1)),
    ))
}

/// A `continue`, with a label or none.
pub fn continue_statement(
    alloc: Global,
    at: usize,
    label: Option<Ident>,
    semi: Semi,
) -> Result<(Stmt, u32), OutOfMemory>
    ensures view { IfOk result (λ x. view_stmt x.0 ≡ trees.continue at (view_name label) (view_semi semi)) }
    ensures depth { IfOk result (λ x. x.1 ≡ 1) }
{
    let kind = StmtKind::Continue { label, semi };
    Ok((stmt(alloc, at, kind)?, 1))
}

/// A `break`, with a label or none.
pub fn break_statement(
    alloc: Global,
    at: usize,
    label: Option<Ident>,
    semi: Semi,
) -> Result<(Stmt, u32), OutOfMemory>
    ensures view { IfOk result (λ x. view_stmt x.0 ≡ trees.break at (view_name label) (view_semi semi)) }
    ensures depth { IfOk result (λ x. x.1 ≡ 1) }
{
    let kind = StmtKind::Break { label, semi };
    Ok((stmt(alloc, at, kind)?, 1))
}

/// A `return`, with a value or none.
pub fn return_statement(
    alloc: Global,
    at: usize,
    value: (Option<Expr>, u32),
    semi: Semi,
) -> Result<(Stmt, u32), OutOfMemory>
    requires { value.1 < u32.MAX }
    ensures view { IfOk result (λ x. view_stmt x.0 ≡ trees.return at (view_maybe_expr value.0) (view_semi semi)) }
    ensures depth { IfOk result (λ x. x.1 ≡ suc value.1) }
{
    let kind = StmtKind::Return {
        value: value.0,
        semi,
    };
    Ok((stmt(alloc, at, kind)?, above(value.1)))
}

/// A `throw`.
pub fn throw_statement(
    alloc: Global,
    at: usize,
    value: (Expr, u32),
    semi: Semi,
) -> Result<(Stmt, u32), OutOfMemory>
    requires { value.1 < u32.MAX }
    ensures view { IfOk result (λ x. view_stmt x.0 ≡ trees.throw at (view_expr value.0) (view_semi semi)) }
    ensures depth { IfOk result (λ x. x.1 ≡ suc value.1) }
{
    let kind = StmtKind::Throw {
        value: value.0,
        semi,
    };
    Ok((stmt(alloc, at, kind)?, above(value.1)))
}

/// A `switch`.
pub fn switch(
    alloc: Global,
    at: usize,
    value: (Expr, u32),
    clauses: (ClauseList, u32),
) -> Result<(Stmt, u32), OutOfMemory>
    requires value { value.1 < u32.MAX }
    requires clauses { clauses.1 < u32.MAX }
    ensures view { IfOk result (λ x. view_stmt x.0 ≡ trees.switch at (view_expr value.0) (view_clauses (nodes_of clauses.0))) }
    ensures depth { IfOk result (λ x. x.1 ≡ suc (max value.1 clauses.1)) }
{
    let kind = StmtKind::Switch {
        value: value.0,
        clauses: clauses.0,
    };
    Ok((stmt(alloc, at, kind)?, above_both(value.1, clauses.1)))
}

/// A statement with a label.
pub fn labelled(
    alloc: Global,
    at: usize,
    label: Text,
    body: (Stmt, u32),
) -> Result<(Stmt, u32), OutOfMemory>
    requires { body.1 < u32.MAX }
    ensures view { IfOk result (λ x. view_stmt x.0 ≡ trees.labelled at label (view_stmt body.0)) }
    ensures depth { IfOk result (λ x. x.1 ≡ suc body.1) }
{
    let kind = StmtKind::Labelled {
        label,
        body: body.0,
    };
    Ok((stmt(alloc, at, kind)?, above(body.1)))
}

/// A `try` with a handler.
pub fn try_catch(
    alloc: Global,
    at: usize,
    block: (Block, u32),
    param: Ident,
    handler: (Block, u32),
) -> Result<(Stmt, u32), OutOfMemory>
    requires block { block.1 < u32.MAX }
    requires handler { handler.1 < u32.MAX }
    ensures view { IfOk result (λ x. view_stmt x.0 ≡ trees.try_catch at (view_block block.0) (view_ident param) (view_block handler.0)) }
    ensures depth { IfOk result (λ x. x.1 ≡ suc (max block.1 handler.1)) }
{
    let kind = StmtKind::TryCatch {
        block: block.0,
        param,
        handler: handler.0,
    };
    Ok((stmt(alloc, at, kind)?, above_both(block.1, handler.1)))
}

/// A `try` with a final block.
pub fn try_finally(
    alloc: Global,
    at: usize,
    block: (Block, u32),
    finalizer: (Block, u32),
) -> Result<(Stmt, u32), OutOfMemory>
    requires block { block.1 < u32.MAX }
    requires finalizer { finalizer.1 < u32.MAX }
    ensures view { IfOk result (λ x. view_stmt x.0 ≡ trees.try_finally at (view_block block.0) (view_block finalizer.0)) }
    ensures depth { IfOk result (λ x. x.1 ≡ suc (max block.1 finalizer.1)) }
{
    let kind = StmtKind::TryFinally {
        block: block.0,
        finalizer: finalizer.0,
    };
    Ok((stmt(alloc, at, kind)?, above_both(block.1, finalizer.1)))
}

/// A `try` with both.
pub fn try_both(
    alloc: Global,
    at: usize,
    block: (Block, u32),
    param: Ident,
    handler: (Block, u32),
    finalizer: (Block, u32),
) -> Result<(Stmt, u32), OutOfMemory>
    requires block { block.1 < u32.MAX }
    requires handler { handler.1 < u32.MAX }
    requires finalizer { finalizer.1 < u32.MAX }
    ensures view { IfOk result (λ x. view_stmt x.0 ≡ trees.try_both at (view_block block.0) (view_ident param) (view_block handler.0) (view_block finalizer.0)) }
    ensures depth { IfOk result (λ x. x.1 ≡ suc (max block.1 (max handler.1 finalizer.1))) }
{
    let kind = StmtKind::TryBoth {
        block: block.0,
        param,
        handler: handler.0,
        finalizer: finalizer.0,
    };
    Ok((
        stmt(alloc, at, kind)?,
        above_both(block.1, handler.1.max(finalizer.1)),
    ))
}

/// A `debugger` statement.
pub fn debugger(alloc: Global, at: usize, semi: Semi) -> Result<(Stmt, u32), OutOfMemory>
    ensures view { IfOk result (λ x. view_stmt x.0 ≡ trees.debugger at (view_semi semi)) }
    ensures depth { IfOk result (λ x. x.1 ≡ 1) }
{
    let kind = StmtKind::Debugger(semi);
    Ok((stmt(alloc, at, kind)?, 1))
}

/// A declaration of a function.
pub fn function_declaration(
    alloc: Global,
    at: usize,
    name: Ident,
    params: IdentList,
    body: (StmtList, u32),
) -> Result<(Stmt, u32), OutOfMemory>
    requires { body.1 < u32.MAX }
    ensures view { IfOk result (λ x. view_stmt x.0 ≡ trees.function_declaration at (function_of at (Some (view_ident name)) (view_idents (nodes_of params)) (view_stmts (nodes_of body.0)))) }
    ensures depth { IfOk result (λ x. x.1 ≡ suc body.1) }
{
    let kind = StmtKind::Function(unmarked(at, Some(name), params, body.0));
    Ok((stmt(alloc, at, kind)?, above(body.1)))
}

/// An expression as a statement, of its own depth.
pub fn expression_statement(
    alloc: Global,
    at: usize,
    expr: (Expr, u32),
    semi: Semi,
) -> Result<(Stmt, u32), OutOfMemory>
    ensures view { IfOk result (λ x. view_stmt x.0 ≡ trees.expression at (view_expr expr.0) (view_semi semi)) }
    ensures depth { IfOk result (λ x. x.1 ≡ expr.1) }
{
    let kind = StmtKind::Expr { expr: expr.0, semi };
    Ok((stmt(alloc, at, kind)?, expr.1))
}

/// A block as a statement, of its own depth.
pub fn block_statement(alloc: Global, block: (Block, u32)) -> Result<(Stmt, u32), OutOfMemory>
    ensures view { IfOk result (λ x. view_stmt x.0 ≡ trees.block (view_block block.0)) }
    ensures depth { IfOk result (λ x. x.1 ≡ block.1) }
{
    let kind = StmtKind::Block(block.0.body);
    Ok((stmt(alloc, block.0.at, kind)?, block.1))
}
