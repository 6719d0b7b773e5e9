//! Makers of expressions from parts, each of which goes with its depth.

ghost use Rattle.std.specs.Prelude.{◌≡◌, suc, max, IfOk};
ghost use Rattle.js_ast.specs.Trees as trees;
ghost use Rattle.js_ast.specs.Nodes.{nodes_of};
ghost use Rattle.js_ast.specs.Depth.{depth, depth_items, depth_properties, depth_exprs, depth_statements};
ghost use Rattle.js_ast.specs.Trees.{at_of, function_of};
ghost use Rattle.js_ast.specs.Views.{view_name, view_idents, view_expr, view_exprs, view_items, view_properties, view_stmts};
ghost use Rattle.js_parse_parts.specs.Answers.{Deep};
ghost use Rattle.js_parse_parts.specs.InOrder.{IsOrderedObject};

use crate::functions::unmarked;
use crate::literals::node;
use flow_text::{OutOfMemory, Text};
use js_ast::{
    AssignOperator, BinaryOperator, Expr, ExprKind, ExprList, Ident, IdentList, ItemList,
    PostfixOperator, PropertyList, StmtList, UnaryOperator, ordered_properties,
};
use std::alloc::Global;

/// An expression in parentheses.
pub fn paren(alloc: Global, at: usize, inner: (Expr, u32)) -> Result<(Expr, u32), OutOfMemory>
    requires { Deep u32.MAX (depth (view_expr inner.0)) inner.1 }
    ensures node { IfOk result (λ x. view_expr x.0 ≡ trees.paren at (view_expr inner.0)) }
    ensures deep { IfOk result (λ x. x.1 ≡ depth (view_expr x.0)) }
    ensures size { IfOk result (λ x. x.1 ≡ suc inner.1) }
{
    node(alloc, at, ExprKind::Paren(inner.0), inner.1 + 1)
}

/// An array, with a comma behind its last expression or none.
pub fn array(
    alloc: Global,
    at: usize,
    items: (ItemList, u32),
    comma: bool,
) -> Result<(Expr, u32), OutOfMemory>
    requires { Deep u32.MAX (depth_items (view_items (nodes_of items.0))) items.1 }
    ensures node { IfOk result (λ x. view_expr x.0 ≡ trees.array at (view_items (nodes_of items.0)) comma) }
    ensures deep { IfOk result (λ x. x.1 ≡ depth (view_expr x.0)) }
    ensures size { IfOk result (λ x. x.1 ≡ suc items.1) }
{
    let kind = ExprKind::Array {
        items: items.0,
        comma,
    };
    node(alloc, at, kind, items.1 + 1)
}

/// An object, with a comma behind its last property or none.
pub fn object(
    alloc: Global,
    at: usize,
    properties: (PropertyList, u32),
    comma: bool,
) -> Result<(Expr, u32), OutOfMemory>
    requires { Deep u32.MAX (depth_properties (view_properties (nodes_of properties.0))) properties.1 }
    ensures node { IfOk result (λ x. view_expr x.0 ≡ trees.object at (view_properties (nodes_of properties.0)) comma) }
    ensures deep { IfOk result (λ x. x.1 ≡ depth (view_expr x.0)) }
    ensures size { IfOk result (λ x. x.1 ≡ suc properties.1) }
    ensures order { IfOk result (λ x. IsOrderedObject x.0) }
{
    let list = ordered_properties(alloc, properties.0)?;
    let kind = ExprKind::Object {
        properties: list,
        comma,
    };
    node(alloc, at, kind, properties.1 + 1)
}

/// A function.
pub fn function(
    alloc: Global,
    at: usize,
    name: Option<Ident>,
    params: IdentList,
    body: (StmtList, u32),
) -> Result<(Expr, u32), OutOfMemory>
    requires { Deep u32.MAX (depth_statements (view_stmts (nodes_of body.0))) body.1 }
    ensures node { IfOk result (λ x. view_expr x.0 ≡ trees.function at (function_of at (view_name name) (view_idents (nodes_of params)) (view_stmts (nodes_of body.0)))) }
    ensures deep { IfOk result (λ x. x.1 ≡ depth (view_expr x.0)) }
    ensures size { IfOk result (λ x. x.1 ≡ suc body.1) }
{
    let kind = ExprKind::Function(unmarked(at, name, params, body.0));
    node(alloc, at, kind, body.1 + 1)
}

/// A member.
pub fn member(alloc: Global, base: (Expr, u32), name: &Text) -> Result<(Expr, u32), OutOfMemory>
    requires { Deep u32.MAX (depth (view_expr base.0)) base.1 }
    ensures node { IfOk result (λ x. view_expr x.0 ≡ trees.member (at_of (view_expr base.0)) (view_expr base.0) name.now) }
    ensures deep { IfOk result (λ x. x.1 ≡ depth (view_expr x.0)) }
    ensures size { IfOk result (λ x. x.1 ≡ suc base.1) }
{
    let at = base.0.at;
    let name = name.copy(alloc)?;
    let kind = ExprKind::Member { base: base.0, name };
    node(alloc, at, kind, base.1 + 1)
}

/// An element.
pub fn index(
    alloc: Global,
    base: (Expr, u32),
    index: (Expr, u32),
) -> Result<(Expr, u32), OutOfMemory>
    requires base { Deep u32.MAX (depth (view_expr base.0)) base.1 }
    requires index { Deep u32.MAX (depth (view_expr index.0)) index.1 }
    ensures node { IfOk result (λ x. view_expr x.0 ≡ trees.index (at_of (view_expr base.0)) (view_expr base.0) (view_expr index.0)) }
    ensures deep { IfOk result (λ x. x.1 ≡ depth (view_expr x.0)) }
    ensures size { IfOk result (λ x. x.1 ≡ suc (max base.1 index.1)) }
{
    let at = base.0.at;
    let depth = base.1.max(index.1) + 1;
    let kind = ExprKind::Index {
        base: base.0,
        index: index.0,
    };
    node(alloc, at, kind, depth)
}

/// `new` without arguments.
pub fn new_bare(alloc: Global, at: usize, callee: (Expr, u32)) -> Result<(Expr, u32), OutOfMemory>
    requires { Deep u32.MAX (depth (view_expr callee.0)) callee.1 }
    ensures node { IfOk result (λ x. view_expr x.0 ≡ trees.new_bare at (view_expr callee.0)) }
    ensures deep { IfOk result (λ x. x.1 ≡ depth (view_expr x.0)) }
    ensures size { IfOk result (λ x. x.1 ≡ suc callee.1) }
{
    let kind = ExprKind::New {
        callee: callee.0,
        args: None,
    };
    node(alloc, at, kind, callee.1 + 1)
}

/// `new` with arguments.
pub fn new_with(
    alloc: Global,
    at: usize,
    callee: (Expr, u32),
    args: (ExprList, u32),
) -> Result<(Expr, u32), OutOfMemory>
    requires callee { Deep u32.MAX (depth (view_expr callee.0)) callee.1 }
    requires args { Deep u32.MAX (depth_exprs (view_exprs (nodes_of args.0))) args.1 }
    ensures node { IfOk result (λ x. view_expr x.0 ≡ trees.new_with at (view_expr callee.0) (view_exprs (nodes_of args.0))) }
    ensures deep { IfOk result (λ x. x.1 ≡ depth (view_expr x.0)) }
    ensures size { IfOk result (λ x. x.1 ≡ suc (max callee.1 args.1)) }
{
    let depth = callee.1.max(args.1) + 1;
    let kind = ExprKind::New {
        callee: callee.0,
        args: Some(args.0),
    };
    node(alloc, at, kind, depth)
}

/// A call.
pub fn call(
    alloc: Global,
    callee: (Expr, u32),
    args: (ExprList, u32),
) -> Result<(Expr, u32), OutOfMemory>
    requires callee { Deep u32.MAX (depth (view_expr callee.0)) callee.1 }
    requires args { Deep u32.MAX (depth_exprs (view_exprs (nodes_of args.0))) args.1 }
    ensures node { IfOk result (λ x. view_expr x.0 ≡ trees.call (at_of (view_expr callee.0)) (view_expr callee.0) (view_exprs (nodes_of args.0))) }
    ensures deep { IfOk result (λ x. x.1 ≡ depth (view_expr x.0)) }
    ensures size { IfOk result (λ x. x.1 ≡ suc (max callee.1 args.1)) }
{
    let at = callee.0.at;
    let depth = callee.1.max(args.1) + 1;
    let kind = ExprKind::Call {
        callee: callee.0,
        args: args.0,
    };
    node(alloc, at, kind, depth)
}

/// An operator behind its operand.
pub fn postfix(
    alloc: Global,
    operand: (Expr, u32),
    operator: PostfixOperator,
) -> Result<(Expr, u32), OutOfMemory>
    requires { Deep u32.MAX (depth (view_expr operand.0)) operand.1 }
    ensures node { IfOk result (λ x. view_expr x.0 ≡ trees.postfix (at_of (view_expr operand.0)) (view_expr operand.0) operator) }
    ensures deep { IfOk result (λ x. x.1 ≡ depth (view_expr x.0)) }
    ensures size { IfOk result (λ x. x.1 ≡ suc operand.1) }
{
    let at = operand.0.at;
    let kind = ExprKind::Postfix {
        operand: operand.0,
        operator,
    };
    node(alloc, at, kind, operand.1 + 1)
}

/// An operator in front of its operand.
pub fn unary(
    alloc: Global,
    at: usize,
    operator: UnaryOperator,
    operand: (Expr, u32),
) -> Result<(Expr, u32), OutOfMemory>
    requires { Deep u32.MAX (depth (view_expr operand.0)) operand.1 }
    ensures node { IfOk result (λ x. view_expr x.0 ≡ trees.unary at operator (view_expr operand.0)) }
    ensures deep { IfOk result (λ x. x.1 ≡ depth (view_expr x.0)) }
    ensures size { IfOk result (λ x. x.1 ≡ suc operand.1) }
{
    let kind = ExprKind::Unary {
        operator,
        operand: operand.0,
    };
    node(alloc, at, kind, operand.1 + 1)
}

/// An operator between its operands.
pub fn binary(
    alloc: Global,
    left: (Expr, u32),
    operator: BinaryOperator,
    right: (Expr, u32),
) -> Result<(Expr, u32), OutOfMemory>
    requires left { Deep u32.MAX (depth (view_expr left.0)) left.1 }
    requires right { Deep u32.MAX (depth (view_expr right.0)) right.1 }
    ensures node { IfOk result (λ x. view_expr x.0 ≡ trees.binary (at_of (view_expr left.0)) (view_expr left.0) operator (view_expr right.0)) }
    ensures deep { IfOk result (λ x. x.1 ≡ depth (view_expr x.0)) }
    ensures size { IfOk result (λ x. x.1 ≡ suc (max left.1 right.1)) }
{
    let at = left.0.at;
    let depth = left.1.max(right.1) + 1;
    let kind = ExprKind::Binary {
        left: left.0,
        operator,
        right: right.0,
    };
    node(alloc, at, kind, depth)
}

/// A conditional.
pub fn conditional(
    alloc: Global,
    test: (Expr, u32),
    then: (Expr, u32),
    other: (Expr, u32),
) -> Result<(Expr, u32), OutOfMemory>
    requires test { Deep u32.MAX (depth (view_expr test.0)) test.1 }
    requires then { Deep u32.MAX (depth (view_expr then.0)) then.1 }
    requires other { Deep u32.MAX (depth (view_expr other.0)) other.1 }
    ensures node { IfOk result (λ x. view_expr x.0 ≡ trees.conditional (at_of (view_expr test.0)) (view_expr test.0) (view_expr then.0) (view_expr other.0)) }
    ensures deep { IfOk result (λ x. x.1 ≡ depth (view_expr x.0)) }
    ensures size { IfOk result (λ x. x.1 ≡ suc (max test.1 (max then.1 other.1))) }
{
    let at = test.0.at;
    let depth = test.1.max(then.1.max(other.1)) + 1;
    let kind = ExprKind::Conditional {
        test: test.0,
        then: then.0,
        other: other.0,
    };
    node(alloc, at, kind, depth)
}

/// An assignment.
pub fn assign(
    alloc: Global,
    target: (Expr, u32),
    operator: AssignOperator,
    value: (Expr, u32),
) -> Result<(Expr, u32), OutOfMemory>
    requires target { Deep u32.MAX (depth (view_expr target.0)) target.1 }
    requires value { Deep u32.MAX (depth (view_expr value.0)) value.1 }
    ensures node { IfOk result (λ x. view_expr x.0 ≡ trees.assign (at_of (view_expr target.0)) (view_expr target.0) operator (view_expr value.0)) }
    ensures deep { IfOk result (λ x. x.1 ≡ depth (view_expr x.0)) }
    ensures size { IfOk result (λ x. x.1 ≡ suc (max target.1 value.1)) }
{
    let at = target.0.at;
    let depth = target.1.max(value.1) + 1;
    let kind = ExprKind::Assign {
        target: target.0,
        operator,
        value: value.0,
    };
    node(alloc, at, kind, depth)
}

/// A comma between expressions.
pub fn comma(
    alloc: Global,
    left: (Expr, u32),
    right: (Expr, u32),
) -> Result<(Expr, u32), OutOfMemory>
    requires left { Deep u32.MAX (depth (view_expr left.0)) left.1 }
    requires right { Deep u32.MAX (depth (view_expr right.0)) right.1 }
    ensures node { IfOk result (λ x. view_expr x.0 ≡ trees.comma (at_of (view_expr left.0)) (view_expr left.0) (view_expr right.0)) }
    ensures deep { IfOk result (λ x. x.1 ≡ depth (view_expr x.0)) }
    ensures size { IfOk result (λ x. x.1 ≡ suc (max left.1 right.1)) }
{
    let at = left.0.at;
    let depth = left.1.max(right.1) + 1;
    let kind = ExprKind::Comma {
        left: left.0,
        right: right.0,
    };
    node(alloc, at, kind, depth)
}
