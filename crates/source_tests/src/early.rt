use crate::told::holds;
use flow_text::{OutOfMemory, Text};
use js_ast::{
    Expr, ExprKind, Function, Ident, IdentList, Key, Program, Property, PropertyKind, PropertyList,
    Semi, Stmt, StmtKind, StmtList,
};
use js_early::{EarlyFault, early};
use std::alloc::Global;
use std::test::*;

// Orders of three nodes, right ones and wrong ones. Each is as good as none.
const ORDERS: &[&[usize]] = &[
    &[],
    &[0, 2, 1],
    &[0, 1, 2],
    &[2, 0, 1],
    &[0, 0, 1],
    &[0, 2],
    &[0, 2, 9],
    &[1, 1, 1],
    &[0, 2, 1, 1],
];

fn text_of(alloc: Global, unit: u16) -> Result<Text, OutOfMemory> {
    let mut text = Text::new(alloc);
    text.push_units(&[unit])?;
    Ok(text)
}

fn expr_of(alloc: Global, kind: ExprKind) -> Result<Expr, OutOfMemory> {
    let kind = Box::new(alloc, kind)?;
    Ok(Expr { at: 0, kind })
}

fn program_of(alloc: Global, kind: StmtKind) -> Result<Program, OutOfMemory> {
    let kind = Box::new(alloc, kind)?;
    let mut body = StmtList::new(alloc);
    body.push(Stmt { at: 0, kind })?;
    Ok(Program {
        body,
        strict: true,
        function_count: 0,
    })
}

// A function with such parameters, and that order of them.
fn with_parameters(alloc: Global, names: &[u16], order: &[usize]) -> Result<Program, OutOfMemory> {
    let mut params = IdentList::new(alloc);
    for (at, name) in names.iter().enumerate() {
        let text = text_of(alloc, *name)?;
        params.push(Ident { at, text })?;
    }
    params.set_order(order.to_vec(alloc)?);
    let function = Function {
        at: 0,
        number: 0,
        strict: true,
        name: None,
        params,
        body: StmtList::new(alloc),
    };
    program_of(alloc, StmtKind::Function(function))
}

// An object with such keys, and that order of them.
fn with_keys(alloc: Global, keys: &[u16], order: &[usize]) -> Result<Program, OutOfMemory> {
    let mut properties = PropertyList::new(alloc);
    for (at, key) in keys.iter().enumerate() {
        let key = Key::Name(text_of(alloc, *key)?);
        let kind = PropertyKind::Value(expr_of(alloc, ExprKind::Null)?);
        properties.push(Property { at, key, kind })?;
    }
    properties.set_order(order.to_vec(alloc)?);
    let comma = false;
    let expr = expr_of(alloc, ExprKind::Object { properties, comma })?;
    let semi = Semi::Written;
    program_of(alloc, StmtKind::Expr { expr, semi })
}

fn parameters_answer(
    alloc: Global,
    names: &[u16],
    order: &[usize],
    wanted: Result<(), EarlyFault>,
) -> Result<bool, OutOfMemory> {
    let program = with_parameters(alloc, names, order)?;
    Ok(early(&program) == wanted)
}

fn keys_answer(
    alloc: Global,
    keys: &[u16],
    order: &[usize],
    wanted: Result<(), EarlyFault>,
) -> Result<bool, OutOfMemory> {
    let program = with_keys(alloc, keys, order)?;
    Ok(early(&program) == wanted)
}

// Names of which the third is the first again, and different ones.
const REPEATED: &[u16] = &[0x61, 0x62, 0x61];

const DIFFERENT: &[u16] = &[0x61, 0x63, 0x62];

fn parameters_are_told(alloc: Global, order: &[usize]) -> Result<bool, OutOfMemory> {
    let fault = EarlyFault::RepeatedParameter { at: 2 };
    Ok(
        parameters_answer(alloc, REPEATED, order, Err(fault))?
            && parameters_answer(alloc, DIFFERENT, order, Ok(()))?,
    )
}

fn keys_are_told(alloc: Global, order: &[usize]) -> Result<bool, OutOfMemory> {
    let fault = EarlyFault::RepeatedProperty { at: 2 };
    Ok(
        keys_answer(alloc, REPEATED, order, Err(fault))?
            && keys_answer(alloc, DIFFERENT, order, Ok(()))?,
    )
}

fn is_told(alloc: Global, order: &[usize]) -> Result<bool, OutOfMemory> {
    Ok(parameters_are_told(alloc, order)? && keys_are_told(alloc, order)?)
}

// An order that nobody made, or a wrong one, hides no repeated name and makes none.
#[test]
fn orders_by_hand(rt: HostRuntime) {
    for order in ORDERS {
        assert!(rt; holds(is_told(rt.alloc(), *order)));
    }
}
