//! Directive prologues (ECMA-262 14.1).

ghost use Rattle.std.specs.Prelude.{◌≡◌, option_map};
ghost use Rattle.js_ast.specs.Nodes.{nodes_of};
ghost use Rattle.js_ast.specs.Views.{view_expr, view_stmt, view_stmts};
ghost use Rattle.js_ast.specs.Functions.{is_use_strict, literal_in, literal_text, prologue_strict, body_strict};

use js_ast::{Expr, ExprKind, Stmt, StmtKind, StmtList};

/// `"use strict"`
const DOUBLE_QUOTED: [u16; 12] = [
    0x22, 0x75, 0x73, 0x65, 0x20, 0x73, 0x74, 0x72, 0x69, 0x63, 0x74, 0x22,
];

/// `'use strict'`
const SINGLE_QUOTED: [u16; 12] = [
    0x27, 0x75, 0x73, 0x65, 0x20, 0x73, 0x74, 0x72, 0x69, 0x63, 0x74, 0x27,
];

#[tactic(auto, unfolding(js_ast::specs::Functions::is_use_strict))]
fn is_use_strict(text: &[u16]) -> bool
    ensures { result ≡ is_use_strict text.now }
{
    text == DOUBLE_QUOTED.as_slice() || text == SINGLE_QUOTED.as_slice()
}

/// The text of the string literal that a statement is.
fn literal_text(statement: &Stmt) -> Option<&[u16]>
    ensures { option_map (λ text. text.now) result ≡ literal_text (view_stmt statement.now) }
{
    match &*statement.kind {
        StmtKind::Expr { expr, .. } => literal_in(expr),
        _ => None,
    }
}

fn literal_in(e: &Expr) -> Option<&[u16]>
    ensures { option_map (λ text. text.now) result ≡ literal_in (view_expr e.now) }
{
    match &*e.kind {
        ExprKind::String { text, .. } => Some(text.units()),
        _ => None,
    }
}

/// Whether the statements begin with a prologue that holds a Use Strict Directive.
pub(crate) fn prologue_strict(statements: &[Stmt]) -> bool
    ensures { result ≡ prologue_strict (view_stmts statements.now) }
{
    let mut rest = statements;
    while let [first, others @ ..] = rest {
        match literal_text(first) {
            Some(text) if is_use_strict(text) => return true,
            Some(_) => {}
            None => return false,
        }
        rest = others;
    }
    false
}

/// Whether the code of a function is strict, where the code round it is strict or not.
#[tactic(auto, unfolding(js_ast::specs::Functions::body_strict))]
pub(crate) fn body_strict(strict: bool, body: &StmtList) -> bool
    ensures { result ≡ body_strict strict (view_stmts (nodes_of body.now)) }
{
    strict || prologue_strict(body.items())
}
