use crate::told::holds;
use flow_text::{OutOfMemory, Text};
use js_ast::{
    Clause, Declaration, Expr, ExprKind, ExprList, Ident, Item, Key, NodeList, Program, Property,
    PropertyKind, Semi, Stmt, StmtKind, StmtList,
};
use std::alloc::Global;
use std::test::*;

fn text_of(alloc: Global, units: &[u16]) -> Result<Text, OutOfMemory> {
    let mut text = Text::new(alloc);
    text.push_units(units)?;
    Ok(text)
}

fn ident_at(alloc: Global, at: usize) -> Result<Ident, OutOfMemory> {
    let text = text_of(alloc, &[0x61])?;
    Ok(Ident { at, text })
}

fn expr_at(alloc: Global, at: usize, kind: ExprKind) -> Result<Expr, OutOfMemory> {
    let kind = Box::new(alloc, kind)?;
    Ok(Expr { at, kind })
}

fn stmt_at(alloc: Global, at: usize, kind: StmtKind) -> Result<Stmt, OutOfMemory> {
    let kind = Box::new(alloc, kind)?;
    Ok(Stmt { at, kind })
}

/// A list is empty at first, and has one node once one is added.
fn holds_one<T: Drop>(alloc: Global, node: T) -> Result<bool, OutOfMemory> {
    let mut list = NodeList::new(alloc);
    let empty = list.items().is_empty();
    list.push(node)?;
    Ok(empty && list.items().len() == 1)
}

fn expressions_and_items(alloc: Global) -> Result<bool, OutOfMemory> {
    let this = expr_at(alloc, 0, ExprKind::This)?;
    Ok(holds_one(alloc, this)? && holds_one(alloc, Item::Hole)?)
}

fn properties(alloc: Global) -> Result<bool, OutOfMemory> {
    let key = Key::Name(text_of(alloc, &[0x61])?);
    let kind = PropertyKind::Value(expr_at(alloc, 3, ExprKind::Null)?);
    holds_one(alloc, Property { at: 0, key, kind })
}

fn names(alloc: Global) -> Result<bool, OutOfMemory> {
    let name = ident_at(alloc, 0)?;
    holds_one(alloc, name)
}

fn declarations(alloc: Global) -> Result<bool, OutOfMemory> {
    let name = ident_at(alloc, 4)?;
    holds_one(alloc, Declaration { name, value: None })
}

fn clauses(alloc: Global) -> Result<bool, OutOfMemory> {
    let body = StmtList::new(alloc);
    holds_one(alloc, Clause { test: None, body })
}

fn statements(alloc: Global) -> Result<bool, OutOfMemory> {
    let statement = stmt_at(alloc, 0, StmtKind::Empty)?;
    holds_one(alloc, statement)
}

#[test]
fn one_node_in_each_list(rt: HostRuntime) {
    let alloc = rt.alloc();
    assert!(rt; holds(expressions_and_items(alloc)));
    assert!(rt; holds(properties(alloc)));
    assert!(rt; holds(names(alloc)));
    assert!(rt; holds(declarations(alloc)));
    assert!(rt; holds(clauses(alloc)));
    assert!(rt; holds(statements(alloc)));
}

fn name_at(alloc: Global, at: usize, unit: u16) -> Result<Expr, OutOfMemory> {
    let name = text_of(alloc, &[unit])?;
    expr_at(alloc, at, ExprKind::Name(name))
}

/// `a, this`, behind two units
fn two_arguments(alloc: Global) -> Result<ExprList, OutOfMemory> {
    let mut args = ExprList::new(alloc);
    args.push(name_at(alloc, 2, 0x61)?)?;
    args.push(expr_at(alloc, 5, ExprKind::This)?)?;
    Ok(args)
}

/// `f(a, this);`
fn call_statement(alloc: Global) -> Result<Stmt, OutOfMemory> {
    let callee = name_at(alloc, 0, 0x66)?;
    let args = two_arguments(alloc)?;
    let expr = expr_at(alloc, 0, ExprKind::Call { callee, args })?;
    let semi = Semi::Written;
    stmt_at(alloc, 0, StmtKind::Expr { expr, semi })
}

fn call_program(alloc: Global) -> Result<Program, OutOfMemory> {
    let mut body = StmtList::new(alloc);
    body.push(call_statement(alloc)?)?;
    Ok(Program {
        body,
        strict: false,
        function_count: 0,
    })
}

/// The places of a call's two arguments, where a statement is such a call.
fn argument_places(statement: &Stmt) -> Option<(usize, usize)> {
    let StmtKind::Expr { expr, .. } = &*statement.kind else {
        return None;
    };
    let ExprKind::Call { args, .. } = &*expr.kind else {
        return None;
    };
    let [first, second] = args.items() else {
        return None;
    };
    Some((first.at, second.at))
}

fn has_places(alloc: Global, places: (usize, usize)) -> Result<bool, OutOfMemory> {
    let program = call_program(alloc)?;
    match program.body.items() {
        [statement] => Ok(argument_places(statement) == Some(places)),
        _ => Ok(false),
    }
}

#[test]
fn a_tree_by_hand(rt: HostRuntime) {
    assert!(rt; holds(has_places(rt.alloc(), (2, 5))));
}
