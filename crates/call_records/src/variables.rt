//! The names that statements declare as variables are added to a layout, where it doesn't have them (ECMA-262 10.5, step 8).

ghost use Rattle.std.specs.Prelude.{◌≡◌, [], ◌∷◌, OnOk};
ghost use Rattle.js_ast.specs.Nodes.{nodes_of};
ghost use Rattle.js_ast.specs.Views.{view_declarations, view_first, view_target, view_block, view_clauses, view_stmt, view_stmts};
ghost use Rattle.es_meaning.specs.Declared.{declared_in, declared_first, declared_target, declared_block, declared_clauses, declared_statement, declared_statements};
ghost use Rattle.call_records.specs.Planned.{with_names};

use crate::placing::keep;
use env_records::Layout;
use flow_text::OutOfMemory;
use js_ast::{Block, ClauseList, Declarations, ForFirst, ForTarget, Stmt, StmtKind, StmtList};
use std::alloc::Global;

fn in_declarations(
    alloc: Global,
    declarations: &Declarations,
    layout: &mut Layout,
) -> Result<(), OutOfMemory>
    ensures { OnOk result (layout.new ≡ with_names (declared_in (view_declarations declarations.now)) layout.old) }
{
    keep(alloc, &declarations.first.name.text, layout)?;
    'others: for declaration in declarations.others.items() {
        keep(alloc, &declaration.name.text, layout)?;
    }
    Ok(())
}

fn in_first(alloc: Global, first: &ForFirst, layout: &mut Layout) -> Result<(), OutOfMemory>
    ensures { OnOk result (layout.new ≡ with_names (declared_first (view_first first.now)) layout.old) }
{
    match first {
        ForFirst::Expr(_) => Ok(()),
        ForFirst::Var(declarations) => in_declarations(alloc, declarations, layout),
    }
}

fn in_target(alloc: Global, target: &ForTarget, layout: &mut Layout) -> Result<(), OutOfMemory>
    ensures { OnOk result (layout.new ≡ with_names (declared_target (view_target target.now)) layout.old) }
{
    match target {
        ForTarget::Expr(_) => Ok(()),
        ForTarget::Var(name) => keep(alloc, &name.text, layout),
    }
}

#[cycle(walk)]
#[tactic(auto, using(js_ast::proofs::ViewLaws::parts_block))]
fn in_block(alloc: Global, block: &Block, layout: &mut Layout) -> Result<(), OutOfMemory>
    ensures { OnOk result (layout.new ≡ with_names (declared_block (view_block block.now)) layout.old) }
{
    in_list(alloc, &block.body, layout)
}

#[cycle(walk)]
fn in_clauses(alloc: Global, list: &ClauseList, layout: &mut Layout) -> Result<(), OutOfMemory>
    ensures { OnOk result (layout.new ≡ with_names (declared_clauses (view_clauses (nodes_of list.now))) layout.old) }
{
    'clauses: for clause in list.items() {
        in_list(alloc, &clause.body, layout)?;
    }
    Ok(())
}

#[cycle(walk)]
#[tactic(auto, using(crate::proofs::NameLaws::names_append, js_ast::proofs::ViewLaws::held_stmts, js_ast::proofs::ViewLaws::held_clauses, js_ast::specs::declared::trees::ExprKind::TheViews::the_lemmas))]
fn in_statement(alloc: Global, s: &Stmt, layout: &mut Layout) -> Result<(), OutOfMemory>
    ensures { OnOk result (layout.new ≡ with_names (declared_statement (view_stmt s.now)) layout.old) }
{
    match &*s.kind {
        StmtKind::Empty
        | StmtKind::Expr { .. }
        | StmtKind::Continue { .. }
        | StmtKind::Break { .. }
        | StmtKind::Return { .. }
        | StmtKind::Throw { .. }
        | StmtKind::Debugger(_)
        | StmtKind::Function(_) => Ok(()),
        StmtKind::Block(list) => in_list(alloc, list, layout),
        StmtKind::Var { declarations, .. } => in_declarations(alloc, declarations, layout),
        StmtKind::If {
            then,
            other: None,
            ..
        } => in_statement(alloc, then, layout),
        StmtKind::If {
            then,
            other: Some(other),
            ..
        } => {
            in_statement(alloc, then, layout)?;
            in_statement(alloc, other, layout)
        }
        StmtKind::DoWhile { body, .. }
        | StmtKind::While { body, .. }
        | StmtKind::Labelled { body, .. } => in_statement(alloc, body, layout),
        StmtKind::For { first, body, .. } => {
            in_first(alloc, first, layout)?;
            in_statement(alloc, body, layout)
        }
        StmtKind::ForIn { target, body, .. } => {
            in_target(alloc, target, layout)?;
            in_statement(alloc, body, layout)
        }
        StmtKind::Switch { clauses, .. } => in_clauses(alloc, clauses, layout),
        StmtKind::TryCatch { block, handler, .. } => {
            in_block(alloc, block, layout)?;
            in_block(alloc, handler, layout)
        }
        StmtKind::TryFinally { block, finalizer } => {
            in_block(alloc, block, layout)?;
            in_block(alloc, finalizer, layout)
        }
        StmtKind::TryBoth {
            block,
            handler,
            finalizer,
            ..
        } => {
            in_block(alloc, block, layout)?;
            in_block(alloc, handler, layout)?;
            in_block(alloc, finalizer, layout)
        }
    }
}

/// Adds the variables of statements, in their order.
#[cycle(walk)]
pub(crate) fn in_list(
    alloc: Global,
    list: &StmtList,
    layout: &mut Layout,
) -> Result<(), OutOfMemory>
    ensures { OnOk result (layout.new ≡ with_names (declared_statements (view_stmts (nodes_of list.now))) layout.old) }
{
    'statements: for s in list.items() {
        in_statement(alloc, s, layout)?;
    }
    Ok(())
}
