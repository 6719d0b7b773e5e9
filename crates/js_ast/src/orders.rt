//! Orders of nodes by their keys, which lists keep for who looks for equal ones.

ghost use Rattle.std.specs.Prelude.{◌≡◌, ◌<◌, ◌≤◌, length, map, IfOk};
ghost use Rattle.std.specs.List.{enumerate_from};
ghost use Rattle.js_ast.specs.Keys.{key_text};
ghost use Rattle.js_ast.specs.Nodes.{nodes_of, order_of};
ghost use Rattle.js_ast.specs.Views.{view_key};
ghost use Rattle.js_ast.specs.Named.{text_of, name_of};
ghost use Rattle.js_ast.specs.Orders.{IsOrder, KeepsOrder};

use crate::trees::{Ident, IdentList, Key, Property, PropertyList};
use flow_text::{OutOfMemory, Text};
use std::alloc::Global;

// A shorter list is read pair by pair as fast.
const LONG: usize = 8;

/// Parameters, with their order by name where they are many.
pub fn ordered_names(alloc: Global, names: IdentList) -> Result<IdentList, OutOfMemory>
    ensures nodes { IfOk result (λ list. nodes_of list ≡ nodes_of names) }
    ensures long { IfOk result (λ list. 8 ≤ length (nodes_of list) → KeepsOrder text_of list) }
    ensures short { IfOk result (λ list. length (nodes_of list) < 8 → order_of list ≡ order_of names) }
{
    let mut list = names;
    if list.items().len() < LONG {
        return Ok(list);
    }
    let order = order_of_names(alloc, list.items())?;
    list.set_order(order);
    Ok(list)
}

/// Properties, with their order by key where they are many.
pub fn ordered_properties(
    alloc: Global,
    properties: PropertyList,
) -> Result<PropertyList, OutOfMemory>
    ensures nodes { IfOk result (λ list. nodes_of list ≡ nodes_of properties) }
    ensures long { IfOk result (λ list. 8 ≤ length (nodes_of list) → KeepsOrder name_of list) }
    ensures short { IfOk result (λ list. length (nodes_of list) < 8 → order_of list ≡ order_of properties) }
{
    let mut list = properties;
    if list.items().len() < LONG {
        return Ok(list);
    }
    let order = order_of_properties(alloc, list.items())?;
    list.set_order(order);
    Ok(list)
}

// The places of parameters, by name.
fn order_of_names(alloc: Global, names: &[Ident]) -> Result<Vec<usize>, OutOfMemory>
    ensures { IfOk result (λ order. IsOrder (map text_of names.now) order.items) }
{
    let mut keyed = keyed_names(alloc, names)?;
    keyed.sort_unstable();
    let order = places(alloc, &keyed)?;
    Ok(order)
}

// The places of properties, by key.
fn order_of_properties(alloc: Global, properties: &[Property]) -> Result<Vec<usize>, OutOfMemory>
    ensures { IfOk result (λ order. IsOrder (map name_of properties.now) order.items) }
{
    let mut keyed = keyed_properties(alloc, properties)?;
    keyed.sort_unstable_by(|a, b| a.0.compared(b.0).then(a.1.cmp(&b.1)));
    let order = places(alloc, &keyed)?;
    Ok(order)
}

fn keyed_names<'a>(alloc: Global, names: &'a [Ident]) -> Result<Vec<(&'a Text, usize)>, OutOfMemory>
    ensures { IfOk result (λ keyed. map (λ k. (k.1, k.0.now)) keyed.items ≡ enumerate_from 0 (map text_of names.now)) }
{
    let mut keyed = Vec::new(alloc);
    'names: for (i, name) in names.iter().enumerate() {
        keyed.push((&name.text, i))?;
    }
    Ok(keyed)
}

fn keyed_properties<'a>(
    alloc: Global,
    properties: &'a [Property],
) -> Result<Vec<(&'a Key, usize)>, OutOfMemory>
    ensures { IfOk result (λ keyed. map (λ k. (k.1, key_text (view_key k.0.now))) keyed.items ≡ enumerate_from 0 (map name_of properties.now)) }
{
    let mut keyed = Vec::new(alloc);
    'properties: for (i, property) in properties.iter().enumerate() {
        keyed.push((&property.key, i))?;
    }
    Ok(keyed)
}

/// The places that stand beside keys.
fn places<K>(alloc: Global, keyed: &[(K, usize)]) -> Result<Vec<usize>, OutOfMemory>
    ensures { IfOk result (λ order. order.items ≡ map (λ k. k.1) keyed.now) }
{
    let mut order = Vec::new(alloc);
    'keyed: for (_, place) in keyed {
        order.push(*place)?;
    }
    Ok(order)
}
