//! Marks the functions of trees, in place: each has its number then, and whether its code is strict. A walk is given
//! whether the code round the tree is strict, and the number of the next function. It answers the number behind those
//! that it gave.

ghost use Rattle.std.specs.Prelude.{IfOk};
ghost use Rattle.js_ast.specs.Nodes.{nodes_of};
ghost use Rattle.js_functions.specs.Marks.{MarkedExpr, MarkedExprs, MarkedItems, MarkedItem, MarkedMaybe, MarkedProperties, MarkedProperty, MarkedFunction, MarkedDeclaration, MarkedOthers, MarkedDeclarations, MarkedFirst, MarkedTarget, MarkedClauses, MarkedClause, MarkedBlock, MarkedStatement, MarkedStatements};

use crate::prologue::body_strict;
use flow_text::OutOfMemory;
use js_ast::{
    Block, Clause, ClauseList, Declaration, DeclarationList, Declarations, Expr, ExprKind,
    ExprList, ForFirst, ForTarget, Function, Item, ItemList, Property, PropertyKind, PropertyList,
    Stmt, StmtKind, StmtList,
};

#[cycle(marking)]
fn mark_expr(e: &mut Expr, strict: bool, next: u32) -> Result<u32, OutOfMemory>
    ensures { IfOk result (MarkedExpr strict next e.old e.new) }
{
    match &mut *e.kind {
        ExprKind::Name(_)
        | ExprKind::Number(_)
        | ExprKind::String { .. }
        | ExprKind::This
        | ExprKind::Null
        | ExprKind::Bool(_) => Ok(next),
        ExprKind::Paren(inner) => mark_expr(inner, strict, next),
        ExprKind::Array { items, .. } => mark_items(items, strict, next),
        ExprKind::Object { properties, .. } => mark_properties(properties, strict, next),
        ExprKind::Function(f) => mark_function(f, strict, next),
        ExprKind::Member { base, .. } => mark_expr(base, strict, next),
        ExprKind::Index { base, index } => {
            let next = mark_expr(base, strict, next)?;
            mark_expr(index, strict, next)
        }
        ExprKind::New { callee, args } => {
            let next = mark_expr(callee, strict, next)?;
            match args {
                Some(args) => mark_exprs(args, strict, next),
                None => Ok(next),
            }
        }
        ExprKind::Call { callee, args } => {
            let next = mark_expr(callee, strict, next)?;
            mark_exprs(args, strict, next)
        }
        ExprKind::Postfix { operand, .. } => mark_expr(operand, strict, next),
        ExprKind::Unary { operand, .. } => mark_expr(operand, strict, next),
        ExprKind::Binary { left, right, .. } => {
            let next = mark_expr(left, strict, next)?;
            mark_expr(right, strict, next)
        }
        ExprKind::Comma { left, right } => {
            let next = mark_expr(left, strict, next)?;
            mark_expr(right, strict, next)
        }
        ExprKind::Assign { target, value, .. } => {
            let next = mark_expr(target, strict, next)?;
            mark_expr(value, strict, next)
        }
        ExprKind::Conditional { test, then, other } => {
            let next = mark_expr(test, strict, next)?;
            let next = mark_expr(then, strict, next)?;
            mark_expr(other, strict, next)
        }
    }
}

#[cycle(marking)]
#[tactic(auto, using(crate::proofs::Numbered::parts))]
fn mark_exprs(list: &mut ExprList, strict: bool, next: u32) -> Result<u32, OutOfMemory>
    ensures { IfOk result (MarkedExprs strict next (nodes_of list.old) (nodes_of list.new)) }
{
    let mut next = next;
    'exprs: for e in list.items_mut() {
        next = mark_expr(e, strict, next)?;
    }
    Ok(next)
}

#[cycle(marking)]
#[tactic(auto, using(crate::proofs::Numbered::parts))]
fn mark_items(list: &mut ItemList, strict: bool, next: u32) -> Result<u32, OutOfMemory>
    ensures { IfOk result (MarkedItems strict next (nodes_of list.old) (nodes_of list.new)) }
{
    let mut next = next;
    'items: for item in list.items_mut() {
        next = mark_item(item, strict, next)?;
    }
    Ok(next)
}

#[cycle(marking)]
#[tactic(auto, using(crate::proofs::Numbered::parts))]
fn mark_item(item: &mut Item, strict: bool, next: u32) -> Result<u32, OutOfMemory>
    ensures { IfOk result (MarkedItem strict next item.old item.new) }
{
    match item {
        Item::Hole => Ok(next),
        Item::Value(e) => mark_expr(e, strict, next),
    }
}

#[cycle(marking)]
#[tactic(auto, using(crate::proofs::Numbered::parts))]
fn mark_maybe(e: &mut Option<Expr>, strict: bool, next: u32) -> Result<u32, OutOfMemory>
    ensures { IfOk result (MarkedMaybe strict next e.old e.new) }
{
    match e {
        Some(e) => mark_expr(e, strict, next),
        None => Ok(next),
    }
}

#[cycle(marking)]
#[tactic(auto, using(crate::proofs::Numbered::parts))]
fn mark_properties(list: &mut PropertyList, strict: bool, next: u32) -> Result<u32, OutOfMemory>
    ensures { IfOk result (MarkedProperties strict next (nodes_of list.old) (nodes_of list.new)) }
{
    let mut next = next;
    'properties: for property in list.items_mut() {
        next = mark_property(property, strict, next)?;
    }
    Ok(next)
}

#[cycle(marking)]
fn mark_property(property: &mut Property, strict: bool, next: u32) -> Result<u32, OutOfMemory>
    ensures { IfOk result (MarkedProperty strict next property.old property.new) }
{
    match &mut property.kind {
        PropertyKind::Value(e) => mark_expr(e, strict, next),
        PropertyKind::Getter(f) => mark_function(f, strict, next),
        PropertyKind::Setter(f) => mark_function(f, strict, next),
    }
}

#[cycle(marking)]
#[tactic(auto, using(crate::proofs::Numbered::parts, crate::proofs::Parts::function))]
fn mark_function(f: &mut Function, strict: bool, next: u32) -> Result<u32, OutOfMemory>
    ensures { IfOk result (MarkedFunction strict next f.old f.new) }
{
    let strict = body_strict(strict, &f.body);
    let after = next.checked_add(1).ok_or(OutOfMemory)?;
    f.number = next;
    f.strict = strict;
    mark_list(&mut f.body, strict, after)
}

#[cycle(marking)]
#[tactic(auto, using(crate::proofs::Numbered::parts, js_ast::proofs::HeldLaws::held_functions, js_ast::proofs::ViewLaws::held))]
fn mark_declaration(
    declaration: &mut Declaration,
    strict: bool,
    next: u32,
) -> Result<u32, OutOfMemory>
    ensures { IfOk result (MarkedDeclaration strict next declaration.old declaration.new) }
{
    mark_maybe(&mut declaration.value, strict, next)
}

#[cycle(marking)]
#[tactic(auto, using(crate::proofs::Numbered::parts))]
fn mark_others(list: &mut DeclarationList, strict: bool, next: u32) -> Result<u32, OutOfMemory>
    ensures { IfOk result (MarkedOthers strict next (nodes_of list.old) (nodes_of list.new)) }
{
    let mut next = next;
    'others: for declaration in list.items_mut() {
        next = mark_declaration(declaration, strict, next)?;
    }
    Ok(next)
}

#[cycle(marking)]
#[tactic(auto, using(crate::proofs::Numbered::parts, crate::proofs::Parts::declarations))]
fn mark_declarations(
    declarations: &mut Declarations,
    strict: bool,
    next: u32,
) -> Result<u32, OutOfMemory>
    ensures { IfOk result (MarkedDeclarations strict next declarations.old declarations.new) }
{
    let next = mark_declaration(&mut declarations.first, strict, next)?;
    mark_others(&mut declarations.others, strict, next)
}

#[cycle(marking)]
fn mark_first(first: &mut ForFirst, strict: bool, next: u32) -> Result<u32, OutOfMemory>
    ensures { IfOk result (MarkedFirst strict next first.old first.new) }
{
    match first {
        ForFirst::Expr(e) => mark_maybe(e, strict, next),
        ForFirst::Var(declarations) => mark_declarations(declarations, strict, next),
    }
}

#[cycle(marking)]
#[tactic(auto, using(crate::proofs::Numbered::parts))]
fn mark_target(target: &mut ForTarget, strict: bool, next: u32) -> Result<u32, OutOfMemory>
    ensures { IfOk result (MarkedTarget strict next target.old target.new) }
{
    match target {
        ForTarget::Expr(e) => mark_expr(e, strict, next),
        ForTarget::Var(_) => Ok(next),
    }
}

#[cycle(marking)]
#[tactic(auto, using(crate::proofs::Numbered::parts))]
fn mark_clauses(list: &mut ClauseList, strict: bool, next: u32) -> Result<u32, OutOfMemory>
    ensures { IfOk result (MarkedClauses strict next (nodes_of list.old) (nodes_of list.new)) }
{
    let mut next = next;
    'clauses: for clause in list.items_mut() {
        next = mark_clause(clause, strict, next)?;
    }
    Ok(next)
}

#[cycle(marking)]
#[tactic(auto, using(crate::proofs::Numbered::parts, crate::proofs::Parts::clause))]
fn mark_clause(clause: &mut Clause, strict: bool, next: u32) -> Result<u32, OutOfMemory>
    ensures { IfOk result (MarkedClause strict next clause.old clause.new) }
{
    let next = mark_maybe(&mut clause.test, strict, next)?;
    mark_list(&mut clause.body, strict, next)
}

#[cycle(marking)]
#[tactic(auto, using(crate::proofs::Numbered::parts, crate::proofs::Parts::block))]
fn mark_block(block: &mut Block, strict: bool, next: u32) -> Result<u32, OutOfMemory>
    ensures { IfOk result (MarkedBlock strict next block.old block.new) }
{
    mark_list(&mut block.body, strict, next)
}

#[cycle(marking)]
fn mark_statement(s: &mut Stmt, strict: bool, next: u32) -> Result<u32, OutOfMemory>
    ensures { IfOk result (MarkedStatement strict next s.old s.new) }
{
    match &mut *s.kind {
        StmtKind::Empty
        | StmtKind::Continue { .. }
        | StmtKind::Break { .. }
        | StmtKind::Debugger(_) => Ok(next),
        StmtKind::Block(list) => mark_list(list, strict, next),
        StmtKind::Var { declarations, .. } => mark_declarations(declarations, strict, next),
        StmtKind::Expr { expr, .. } => mark_expr(expr, strict, next),
        StmtKind::If { test, then, other } => {
            let next = mark_expr(test, strict, next)?;
            let next = mark_statement(then, strict, next)?;
            match other {
                Some(other) => mark_statement(other, strict, next),
                None => Ok(next),
            }
        }
        StmtKind::DoWhile { body, test, .. } => {
            let next = mark_statement(body, strict, next)?;
            mark_expr(test, strict, next)
        }
        StmtKind::While { test, body } => {
            let next = mark_expr(test, strict, next)?;
            mark_statement(body, strict, next)
        }
        StmtKind::For {
            first,
            test,
            update,
            body,
        } => {
            let next = mark_first(first, strict, next)?;
            let next = mark_maybe(test, strict, next)?;
            let next = mark_maybe(update, strict, next)?;
            mark_statement(body, strict, next)
        }
        StmtKind::ForIn {
            target,
            object,
            body,
        } => {
            let next = mark_target(target, strict, next)?;
            let next = mark_expr(object, strict, next)?;
            mark_statement(body, strict, next)
        }
        StmtKind::Return { value, .. } => mark_maybe(value, strict, next),
        StmtKind::Throw { value, .. } => mark_expr(value, strict, next),
        StmtKind::Switch { value, clauses } => {
            let next = mark_expr(value, strict, next)?;
            mark_clauses(clauses, strict, next)
        }
        StmtKind::Labelled { body, .. } => mark_statement(body, strict, next),
        StmtKind::TryCatch { block, handler, .. } => {
            let next = mark_block(block, strict, next)?;
            mark_block(handler, strict, next)
        }
        StmtKind::TryFinally { block, finalizer } => {
            let next = mark_block(block, strict, next)?;
            mark_block(finalizer, strict, next)
        }
        StmtKind::TryBoth {
            block,
            handler,
            finalizer,
            ..
        } => {
            let next = mark_block(block, strict, next)?;
            let next = mark_block(handler, strict, next)?;
            mark_block(finalizer, strict, next)
        }
        StmtKind::Function(f) => mark_function(f, strict, next),
    }
}

#[cycle(marking)]
#[tactic(auto, using(crate::proofs::Numbered::parts))]
pub(crate) fn mark_list(list: &mut StmtList, strict: bool, next: u32) -> Result<u32, OutOfMemory>
    ensures { IfOk result (MarkedStatements strict next (nodes_of list.old) (nodes_of list.new)) }
{
    let mut next = next;
    'statements: for s in list.items_mut() {
        next = mark_statement(s, strict, next)?;
    }
    Ok(next)
}
