//! The names that statements declare as variables become properties of the global object before the statements run (ECMA-262 10.5).

ghost use Rattle.std.specs.Prelude.{◌≡◌, [], ◌∷◌, OnOk};
ghost use Rattle.js_ast.specs.Nodes.{nodes_of};
ghost use Rattle.js_ast.specs.Views.{view_ident, view_declarations, view_first, view_target, view_block, view_clauses, view_stmt, view_stmts};
ghost use Rattle.es_meaning.specs.Declared.{declared_in, declared_first, declared_target, declared_block, declared_clauses, declared_statement, declared_statements};
ghost use Rattle.plain_heap.specs.Started.{IsStarted};
ghost use Rattle.step_start.specs.Hoisted.{is_there, Declares};

use crate::script_functions::DECLARED;
use flow_text::{OutOfMemory, Text};
use js_ast::{Block, ClauseList, Declarations, ForFirst, ForTarget, Stmt, StmtKind, StmtList};
use js_number::Primitive;
use js_values::{Body, Key, Value};
use plain_heap::{GLOBAL_OBJECT, OBJECT_PROTOTYPE, PlainHeap};
use std::alloc::Global;

// Whether the global object has the name, itself or from its prototype (ECMA-262 8.12.6).
fn is_there<T: Copy>(heap: &PlainHeap<T>, name: &Key) -> bool
    ensures { result ≡ is_there name.now heap.now.objects }
{
    heap.own(GLOBAL_OBJECT, name).is_some() || heap.own(OBJECT_PROTOTYPE, name).is_some()
}

// Declares a variable: a property of the global object that is undefined and can't be deleted, unless the global object has the name.
fn declare<T: Copy>(alloc: Global, name: &Text, heap: &mut PlainHeap<T>) -> Result<(), OutOfMemory>
    requires started { IsStarted heap.old.objects }
    ensures declares { OnOk result (Declares (name.now ∷ []) heap.old heap.new) }
    ensures started { OnOk result (IsStarted heap.new.objects) }
{
    let name = Key::new(name.copy(alloc)?);
    if is_there(heap, &name) {
        return Ok(());
    }
    let body = Body::Data(Value::Primitive(Primitive::Undefined));
    heap.give(GLOBAL_OBJECT, name, body, DECLARED)
}

fn in_declarations<T: Copy>(
    alloc: Global,
    declarations: &Declarations,
    heap: &mut PlainHeap<T>,
) -> Result<(), OutOfMemory>
    requires started { IsStarted heap.old.objects }
    ensures declares { OnOk result (Declares (declared_in (view_declarations declarations.now)) heap.old heap.new) }
    ensures started { OnOk result (IsStarted heap.new.objects) }
{
    declare(alloc, &declarations.first.name.text, heap)?;
    'others: for declaration in declarations.others.items() {
        declare(alloc, &declaration.name.text, heap)?;
    }
    Ok(())
}

fn in_first<T: Copy>(
    alloc: Global,
    first: &ForFirst,
    heap: &mut PlainHeap<T>,
) -> Result<(), OutOfMemory>
    requires started { IsStarted heap.old.objects }
    ensures declares { OnOk result (Declares (declared_first (view_first first.now)) heap.old heap.new) }
    ensures started { OnOk result (IsStarted heap.new.objects) }
{
    match first {
        ForFirst::Expr(_) => Ok(()),
        ForFirst::Var(declarations) => in_declarations(alloc, declarations, heap),
    }
}

fn in_target<T: Copy>(
    alloc: Global,
    target: &ForTarget,
    heap: &mut PlainHeap<T>,
) -> Result<(), OutOfMemory>
    requires started { IsStarted heap.old.objects }
    ensures declares { OnOk result (Declares (declared_target (view_target target.now)) heap.old heap.new) }
    ensures started { OnOk result (IsStarted heap.new.objects) }
{
    match target {
        ForTarget::Expr(_) => Ok(()),
        ForTarget::Var(name) => declare(alloc, &name.text, heap),
    }
}

#[cycle(walk)]
#[tactic(auto, using(js_ast::proofs::ViewLaws::parts_block))]
fn in_block<T: Copy>(
    alloc: Global,
    block: &Block,
    heap: &mut PlainHeap<T>,
) -> Result<(), OutOfMemory>
    requires started { IsStarted heap.old.objects }
    ensures declares { OnOk result (Declares (declared_block (view_block block.now)) heap.old heap.new) }
    ensures started { OnOk result (IsStarted heap.new.objects) }
{
    in_list(alloc, &block.body, heap)
}

#[cycle(walk)]
fn in_clauses<T: Copy>(
    alloc: Global,
    list: &ClauseList,
    heap: &mut PlainHeap<T>,
) -> Result<(), OutOfMemory>
    requires started { IsStarted heap.old.objects }
    ensures declares { OnOk result (Declares (declared_clauses (view_clauses (nodes_of list.now))) heap.old heap.new) }
    ensures started { OnOk result (IsStarted heap.new.objects) }
{
    'clauses: for clause in list.items() {
        in_list(alloc, &clause.body, heap)?;
    }
    Ok(())
}

#[cycle(walk)]
#[tactic(auto, using(js_ast::proofs::ViewLaws::held_stmts, js_ast::proofs::ViewLaws::held_clauses, js_ast::specs::declared::trees::ExprKind::TheViews::the_lemmas))]
fn in_statement<T: Copy>(
    alloc: Global,
    s: &Stmt,
    heap: &mut PlainHeap<T>,
) -> Result<(), OutOfMemory>
    requires started { IsStarted heap.old.objects }
    ensures declares { OnOk result (Declares (declared_statement (view_stmt s.now)) heap.old heap.new) }
    ensures started { OnOk result (IsStarted heap.new.objects) }
{
    match &*s.kind {
        StmtKind::Empty
        | StmtKind::Expr { .. }
        | StmtKind::Continue { .. }
        | StmtKind::Break { .. }
        | StmtKind::Return { .. }
        | StmtKind::Throw { .. }
        | StmtKind::Debugger(_)
        | StmtKind::Function(_) => Ok(()),
        StmtKind::Block(list) => in_list(alloc, list, heap),
        StmtKind::Var { declarations, .. } => in_declarations(alloc, declarations, heap),
        StmtKind::If {
            then,
            other: None,
            ..
        } => in_statement(alloc, then, heap),
        StmtKind::If {
            then,
            other: Some(other),
            ..
        } => {
            in_statement(alloc, then, heap)?;
            in_statement(alloc, other, heap)?;
            Ok(())
        }
        StmtKind::DoWhile { body, .. }
        | StmtKind::While { body, .. }
        | StmtKind::Labelled { body, .. } => in_statement(alloc, body, heap),
        StmtKind::For { first, body, .. } => {
            in_first(alloc, first, heap)?;
            in_statement(alloc, body, heap)?;
            Ok(())
        }
        StmtKind::ForIn { target, body, .. } => {
            in_target(alloc, target, heap)?;
            in_statement(alloc, body, heap)?;
            Ok(())
        }
        StmtKind::Switch { clauses, .. } => in_clauses(alloc, clauses, heap),
        StmtKind::TryCatch { block, handler, .. } => {
            in_block(alloc, block, heap)?;
            in_block(alloc, handler, heap)?;
            Ok(())
        }
        StmtKind::TryFinally { block, finalizer } => {
            in_block(alloc, block, heap)?;
            in_block(alloc, finalizer, heap)?;
            Ok(())
        }
        StmtKind::TryBoth {
            block,
            handler,
            finalizer,
            ..
        } => {
            in_block(alloc, block, heap)?;
            in_block(alloc, handler, heap)?;
            in_block(alloc, finalizer, heap)?;
            Ok(())
        }
    }
}

/// Declares the variables of statements, in their order.
#[cycle(walk)]
pub(crate) fn in_list<T: Copy>(
    alloc: Global,
    list: &StmtList,
    heap: &mut PlainHeap<T>,
) -> Result<(), OutOfMemory>
    requires started { IsStarted heap.old.objects }
    ensures declares { OnOk result (Declares (declared_statements (view_stmts (nodes_of list.now))) heap.old heap.new) }
    ensures started { OnOk result (IsStarted heap.new.objects) }
{
    'statements: for s in list.items() {
        in_statement(alloc, s, heap)?;
    }
    Ok(())
}
