//! Makers of lists of nodes, each of which goes with the depth of its deepest node, and of properties.

ghost use Rattle.std.specs.Prelude.{◌≡◌, [], ◌∷◌, max, None, IfOk};
ghost use Rattle.js_ast.specs.Trees.{more_exprs, no_exprs, hole, item, no_items, value, getter, setter, function_of, more_properties, no_properties};
ghost use Rattle.js_ast.specs.Nodes.{nodes_of};
ghost use Rattle.js_ast.specs.Validity.{ends_with_item, has_properties};
ghost use Rattle.js_ast.specs.Depth.{depth, depth_exprs, depth_items, depth_property, depth_properties, depth_statements};
ghost use Rattle.js_ast.specs.Joined.{joined_exprs, joined_items, joined_properties};
ghost use Rattle.js_ast.specs.Views.{view_ident, view_key, view_expr, view_exprs, view_item, view_items, view_property, view_properties, view_stmts};

use crate::functions::unmarked;
use flow_text::OutOfMemory;
use js_ast::{
    Expr, ExprList, Ident, IdentList, Item, ItemList, Key, Property, PropertyKind, PropertyList,
    StmtList,
};
use std::alloc::Global;

/// A further argument.
pub fn with_argument(
    args: (ExprList, u32),
    arg: (Expr, u32),
) -> Result<(ExprList, u32), OutOfMemory>
    requires args { args.1 ≡ depth_exprs (view_exprs (nodes_of args.0)) }
    requires arg { arg.1 ≡ depth (view_expr arg.0) }
    ensures node { IfOk result (λ x. view_exprs (nodes_of x.0) ≡ joined_exprs (view_exprs (nodes_of args.0)) (more_exprs (view_expr arg.0) no_exprs)) }
    ensures deep { IfOk result (λ x. x.1 ≡ depth_exprs (view_exprs (nodes_of x.0))) }
    ensures size { IfOk result (λ x. x.1 ≡ max args.1 arg.1) }
{
    let mut list = args.0;
    list.push(arg.0)?;
    Ok((list, args.1.max(arg.1)))
}

/// A further expression of an array.
pub fn with_item(items: (ItemList, u32), expr: (Expr, u32)) -> Result<(ItemList, u32), OutOfMemory>
    requires items { items.1 ≡ depth_items (view_items (nodes_of items.0)) }
    requires expr { expr.1 ≡ depth (view_expr expr.0) }
    ensures node { IfOk result (λ x. view_items (nodes_of x.0) ≡ joined_items (view_items (nodes_of items.0)) (item (view_expr expr.0) no_items)) }
    ensures deep { IfOk result (λ x. x.1 ≡ depth_items (view_items (nodes_of x.0))) }
    ensures size { IfOk result (λ x. x.1 ≡ max items.1 expr.1) }
{
    let mut list = items.0;
    list.push(Item::Value(expr.0))?;
    Ok((list, items.1.max(expr.1)))
}

/// A further hole of an array.
pub fn with_hole(items: (ItemList, u32)) -> Result<(ItemList, u32), OutOfMemory>
    requires { items.1 ≡ depth_items (view_items (nodes_of items.0)) }
    ensures node { IfOk result (λ x. view_items (nodes_of x.0) ≡ joined_items (view_items (nodes_of items.0)) (hole no_items)) }
    ensures deep { IfOk result (λ x. x.1 ≡ depth_items (view_items (nodes_of x.0))) }
    ensures size { IfOk result (λ x. x.1 ≡ items.1) }
{
    let mut list = items.0;
    list.push(Item::Hole)?;
    Ok((list, items.1))
}

fn is_value(item: &Item) -> bool
    ensures { result ≡ ends_with_item (view_item item.now no_items) }
{
    matches!(item, Item::Value(_))
}

/// Whether the last item is an expression.
pub fn ends_with_item(items: &ItemList) -> bool
    ensures { result ≡ ends_with_item (view_items (nodes_of items.now)) }
{
    let mut ends = false;
    for item in items.items() {
        ends = is_value(item);
    }
    ends
}

/// A further property.
pub fn with_property(
    properties: (PropertyList, u32),
    property: (Property, u32),
) -> Result<(PropertyList, u32), OutOfMemory>
    requires properties { properties.1 ≡ depth_properties (view_properties (nodes_of properties.0)) }
    requires property { property.1 ≡ depth_property (view_property property.0) }
    ensures node { IfOk result (λ x. view_properties (nodes_of x.0) ≡ joined_properties (view_properties (nodes_of properties.0)) (more_properties (view_property property.0) no_properties)) }
    ensures deep { IfOk result (λ x. x.1 ≡ depth_properties (view_properties (nodes_of x.0))) }
    ensures size { IfOk result (λ x. x.1 ≡ max properties.1 property.1) }
{
    let mut list = properties.0;
    list.push(property.0)?;
    Ok((list, properties.1.max(property.1)))
}

/// Whether there are properties.
pub fn has_properties(properties: &PropertyList) -> bool
    ensures { result ≡ has_properties (view_properties (nodes_of properties.now)) }
{
    match properties.items() {
        [] => false,
        _ => true,
    }
}

/// A property with a value.
pub fn value_property(at: usize, key: Key, expr: (Expr, u32)) -> (Property, u32)
    requires { expr.1 ≡ depth (view_expr expr.0) }
    ensures node { view_property result.0 ≡ value at (view_key key) (view_expr expr.0) }
    ensures deep { result.1 ≡ depth_property (view_property result.0) }
    ensures size { result.1 ≡ expr.1 }
{
    let kind = PropertyKind::Value(expr.0);
    (Property { at, key, kind }, expr.1)
}

/// A property with `get`, which has no parameter.
pub fn getter_property(alloc: Global, at: usize, key: Key, body: (StmtList, u32)) -> (Property, u32)
    requires { body.1 ≡ depth_statements (view_stmts (nodes_of body.0)) }
    ensures node { view_property result.0 ≡ getter at (view_key key) (function_of at None [] (view_stmts (nodes_of body.0))) }
    ensures deep { result.1 ≡ depth_property (view_property result.0) }
    ensures size { result.1 ≡ body.1 }
{
    let params = IdentList::new(alloc);
    let kind = PropertyKind::Getter(unmarked(at, None, params, body.0));
    (Property { at, key, kind }, body.1)
}

/// A property with `set`, and its one parameter.
pub fn setter_property(
    alloc: Global,
    at: usize,
    key: Key,
    param: Ident,
    body: (StmtList, u32),
) -> Result<(Property, u32), OutOfMemory>
    requires { body.1 ≡ depth_statements (view_stmts (nodes_of body.0)) }
    ensures node { IfOk result (λ x. view_property x.0 ≡ setter at (view_key key) (function_of at None (view_ident param ∷ []) (view_stmts (nodes_of body.0)))) }
    ensures deep { IfOk result (λ x. x.1 ≡ depth_property (view_property x.0)) }
    ensures size { IfOk result (λ x. x.1 ≡ body.1) }
{
    let mut params = IdentList::new(alloc);
    params.push(param)?;
    let kind = PropertyKind::Setter(unmarked(at, None, params, body.0));
    Ok((Property { at, key, kind }, body.1))
}
