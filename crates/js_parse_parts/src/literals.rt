//! Readers of the expressions that are one token.

ghost use Rattle.std.specs.Prelude.{◌≡◌, IfOk};
ghost use Rattle.js_ast.specs.Trees as trees;
ghost use Rattle.js_ast.specs.Grammar.{place_of};
ghost use Rattle.js_ast.specs.Depth.{depth};
ghost use Rattle.js_list_parser.specs.Reading.{behind};
ghost use Rattle.js_ast.specs.Views.{view_expr_kind, view_expr};
ghost use Rattle.js_parse_parts.specs.Answers.{found, Gives, Deep};

use crate::reading::Found;
use crate::words::{behind, place_of};
use flow_text::{OutOfMemory, Text};
use js_ast::{Expr, ExprKind, Token};
use js_number::Int;
use std::alloc::Global;

/// A node with its depth.
pub(crate) fn node(
    alloc: Global,
    at: usize,
    kind: ExprKind,
    depth: u32,
) -> Result<(Expr, u32), OutOfMemory>
    ensures node { IfOk result (λ x. view_expr x.0 ≡ view_expr_kind at kind) }
    ensures depth { IfOk result (λ x. x.1 ≡ depth) }
    ensures kind { IfOk result (λ x. x.0.kind.value ≡ kind) }
{
    let kind = Box::new(alloc, kind)?;
    Ok((Expr { at, kind }, depth))
}

/// The name that the first token is.
pub fn name<'a>(alloc: Global, text: &Text, tokens: &'a [Token]) -> Found<'a, Expr>
    ensures gives { Gives (λ x. (view_expr x.0, x.2.now)) result (found (trees.name (place_of tokens.now) text.now) (behind tokens.now)) }
    ensures deep { IfOk result (λ x. Deep 1 (depth (view_expr x.0)) x.1) }
{
    let text = text.copy(alloc)?;
    let (expr, depth) = node(alloc, place_of(tokens), ExprKind::Name(text), 0)?;
    Ok((expr, depth, behind(tokens)))
}

/// The number that the first token is.
pub fn number<'a>(alloc: Global, value: &Int, tokens: &'a [Token]) -> Found<'a, Expr>
    ensures gives { Gives (λ x. (view_expr x.0, x.2.now)) result (found (trees.number (place_of tokens.now) value.now) (behind tokens.now)) }
    ensures deep { IfOk result (λ x. Deep 1 (depth (view_expr x.0)) x.1) }
{
    let (expr, depth) = node(alloc, place_of(tokens), ExprKind::Number(*value), 0)?;
    Ok((expr, depth, behind(tokens)))
}

/// The string that the first token is.
pub fn string<'a>(alloc: Global, text: &Text, value: &Text, tokens: &'a [Token]) -> Found<'a, Expr>
    ensures gives { Gives (λ x. (view_expr x.0, x.2.now)) result (found (trees.string (place_of tokens.now) text.now value.now) (behind tokens.now)) }
    ensures deep { IfOk result (λ x. Deep 1 (depth (view_expr x.0)) x.1) }
{
    let text = text.copy(alloc)?;
    let value = value.copy(alloc)?;
    let kind = ExprKind::String { text, value };
    let (expr, depth) = node(alloc, place_of(tokens), kind, 0)?;
    Ok((expr, depth, behind(tokens)))
}

/// `this`, where it is the first token.
pub fn this(alloc: Global, tokens: &[Token]) -> Found<'_, Expr>
    ensures gives { Gives (λ x. (view_expr x.0, x.2.now)) result (found (trees.this (place_of tokens.now)) (behind tokens.now)) }
    ensures deep { IfOk result (λ x. Deep 1 (depth (view_expr x.0)) x.1) }
{
    let (expr, depth) = node(alloc, place_of(tokens), ExprKind::This, 0)?;
    Ok((expr, depth, behind(tokens)))
}

/// `null`, where it is the first token.
pub fn null(alloc: Global, tokens: &[Token]) -> Found<'_, Expr>
    ensures gives { Gives (λ x. (view_expr x.0, x.2.now)) result (found (trees.null (place_of tokens.now)) (behind tokens.now)) }
    ensures deep { IfOk result (λ x. Deep 1 (depth (view_expr x.0)) x.1) }
{
    let (expr, depth) = node(alloc, place_of(tokens), ExprKind::Null, 0)?;
    Ok((expr, depth, behind(tokens)))
}

/// `true` or `false`, where it is the first token.
pub fn boolean(alloc: Global, value: bool, tokens: &[Token]) -> Found<'_, Expr>
    ensures gives { Gives (λ x. (view_expr x.0, x.2.now)) result (found (trees.boolean (place_of tokens.now) value) (behind tokens.now)) }
    ensures deep { IfOk result (λ x. Deep 1 (depth (view_expr x.0)) x.1) }
{
    let (expr, depth) = node(alloc, place_of(tokens), ExprKind::Bool(value), 0)?;
    Ok((expr, depth, behind(tokens)))
}
