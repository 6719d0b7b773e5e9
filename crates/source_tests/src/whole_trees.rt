//! Sources with their whole trees: each node with its place and all its parts, how each statement ends, and what a program and a list keep beside their nodes.

use crate::expressions::scanned;
use crate::programs::parsed;
use js_ast::{
    AssignOperator, Expr, ExprKind, PostfixOperator, Program, Semi, Stmt, StmtKind, UnaryOperator,
};
use js_parse_expr::expression;
use std::alloc::Global;
use std::test::*;

// A name: its place and its letter.
type Name = (usize, u8);

/// A call of a name with one argument, which is a name.
#[derive(Clone, Copy)]
struct Call {
    at: usize,
    callee: Name,
    argument: Name,
}

/// An expression, by its place and its parts.
#[derive(Clone, Copy)]
enum Tree {
    Name(Name),
    Paren(usize, Name),
    /// `++` behind a name.
    Postfix(usize, Name),
    /// `++` before a name.
    Prefix(usize, Name),
    /// `=` between a name and a call.
    Assign(usize, Name, Call),
}

// The statements of a program, each an expression without a `;` behind it: the place of the statement and the expression.
type Statements = &'static [(usize, Tree)];

// One name, and sources in which a line's end is a semicolon or isn't (ECMA-262 7.9). Each node is at its first token.
const PROGRAMS: &[(&str, Statements)] = &[
    ("a", &[(0, Tree::Name((0, b'a')))]),
    (
        "a = b\n(c)",
        &[(
            0,
            Tree::Assign(
                0,
                (0, b'a'),
                Call {
                    at: 4,
                    callee: (4, b'b'),
                    argument: (7, b'c'),
                },
            ),
        )],
    ),
    (
        "a++\n(b)",
        &[
            (0, Tree::Postfix(0, (0, b'a'))),
            (4, Tree::Paren(4, (5, b'b'))),
        ],
    ),
    (
        "a\n++b",
        &[(0, Tree::Name((0, b'a'))), (2, Tree::Prefix(2, (4, b'b')))],
    ),
];

fn is_letter(units: &[u16], letter: u8) -> bool {
    match units {
        [unit] => *unit == u16::from(letter),
        _ => false,
    }
}

fn is_name(e: &Expr, name: Name) -> bool {
    let (at, letter) = name;
    match &*e.kind {
        ExprKind::Name(text) => e.at == at && is_letter(text.units(), letter),
        _ => false,
    }
}

fn is_paren(e: &Expr, at: usize, name: Name) -> bool {
    match &*e.kind {
        ExprKind::Paren(inner) => e.at == at && is_name(inner, name),
        _ => false,
    }
}

fn is_postfix(e: &Expr, at: usize, name: Name) -> bool {
    match &*e.kind {
        ExprKind::Postfix { operand, operator } => {
            e.at == at && *operator == PostfixOperator::Increment && is_name(operand, name)
        }
        _ => false,
    }
}

fn is_prefix(e: &Expr, at: usize, name: Name) -> bool {
    match &*e.kind {
        ExprKind::Unary { operator, operand } => {
            e.at == at && *operator == UnaryOperator::Increment && is_name(operand, name)
        }
        _ => false,
    }
}

fn is_argument(args: &[Expr], name: Name) -> bool {
    match args {
        [argument] => is_name(argument, name),
        _ => false,
    }
}

fn is_call(e: &Expr, call: Call) -> bool {
    match &*e.kind {
        ExprKind::Call { callee, args } => {
            e.at == call.at
                && is_name(callee, call.callee)
                && is_argument(args.items(), call.argument)
                && args.order().is_empty()
        }
        _ => false,
    }
}

fn is_assign(e: &Expr, at: usize, name: Name, call: Call) -> bool {
    match &*e.kind {
        ExprKind::Assign {
            target,
            operator,
            value,
        } => {
            e.at == at
                && is_name(target, name)
                && *operator == AssignOperator::Assign
                && is_call(value, call)
        }
        _ => false,
    }
}

fn is_tree(e: &Expr, tree: Tree) -> bool {
    match tree {
        Tree::Name(name) => is_name(e, name),
        Tree::Paren(at, name) => is_paren(e, at, name),
        Tree::Postfix(at, name) => is_postfix(e, at, name),
        Tree::Prefix(at, name) => is_prefix(e, at, name),
        Tree::Assign(at, name, call) => is_assign(e, at, name, call),
    }
}

fn is_statement(statement: &Stmt, at: usize, tree: Tree) -> bool {
    match &*statement.kind {
        StmtKind::Expr { expr, semi } => {
            statement.at == at && *semi == Semi::Elided && is_tree(expr, tree)
        }
        _ => false,
    }
}

fn are_statements(statements: &[Stmt], wanted: Statements) -> bool {
    statements.len() == wanted.len()
        && statements.iter().zip(wanted).all(|(statement, (at, tree))| is_statement(
            statement, *at, *tree,
        ))
}

// No directive makes the code strict, and there is no function.
fn is_program(program: &Program, wanted: Statements) -> bool {
    are_statements(program.body.items(), wanted)
        && program.body.order().is_empty()
        && !program.strict
        && program.function_count == 0
}

fn has_tree(alloc: Global, source: &str, wanted: Statements) -> bool {
    match parsed(alloc, source) {
        Ok(program) => is_program(&program, wanted),
        Err(_) => false,
    }
}

#[test]
fn whole_programs(rt: HostRuntime) {
    for (source, wanted) in PROGRAMS {
        assert!(rt; has_tree(rt.alloc(), *source, *wanted), "{source}");
    }
}

// The expression that the source begins with, and the index of the token behind it.
fn begins_with(alloc: Global, source: &str, tree: Tree, to: usize) -> bool {
    let Some((tokens, end)) = scanned(alloc, source) else {
        return false;
    };
    match expression(alloc, &tokens, 0, 0, false, end) {
        Ok((found, behind)) => is_tree(&found, tree) && behind == to,
        Err(_) => false,
    }
}

#[test]
fn a_whole_expression(rt: HostRuntime) {
    let tree = Tree::Name((0, b'a'));
    assert!(rt; begins_with(rt.alloc(), "a", tree, 1));
}
