//! The parts of an object literal, as the heap takes them.

ghost use Rattle.std.specs.Prelude.{◌≡◌, map, IfOk};
ghost use Rattle.js_ast.specs.Keys.{key_text};
ghost use Rattle.js_ast.specs.Views.{view_key};
ghost use Rattle.step_objects.specs.Literals.{kind_of};
ghost use Rattle.step_literals.specs.Building.{AreParts, kind_in};

use flow_text::OutOfMemory;
use js_ast::{Key as PropertyKey, Property, PropertyKind};
use js_number::{Num, number_to_text};
use js_values::{Key, Labelled};
use std::alloc::Global;
use step_objects::{LiteralPart, Part};

/// The parts of a literal with their values, as far as both go.
pub(crate) fn parts_of<T: Copy>(
    alloc: Global,
    properties: &[Property],
    values: &[Labelled<T>],
) -> Result<Vec<LiteralPart<T>>, OutOfMemory>
    ensures { IfOk result (λ parts. AreParts properties.now values.now parts.items) }
{
    let mut parts = Vec::with_capacity(alloc, properties.len())?;
    for (property, value) in properties.iter().zip(values) {
        let key = key_of(alloc, &property.key)?;
        let part = kind_of(&property.kind);
        let value = value.copy(alloc)?;
        parts.push(LiteralPart { part, key, value })?;
    }
    Ok(parts)
}

/// What a part of a literal is.
fn kind_of(kind: &PropertyKind) -> Part
    ensures { kind_of result ≡ kind_in kind.now }
{
    match kind {
        PropertyKind::Value(_) => Part::Value,
        PropertyKind::Getter(_) => Part::Getter,
        PropertyKind::Setter(_) => Part::Setter,
    }
}

/// The key of a property of an object (ECMA-262 11.1.5).
fn key_of(alloc: Global, key: &PropertyKey) -> Result<Key, OutOfMemory>
    ensures { IfOk result (λ made. made ≡ key_text (view_key key.now)) }
{
    let text = match key {
        PropertyKey::Name(text) => text.copy(alloc)?,
        PropertyKey::String { value, .. } => value.copy(alloc)?,
        PropertyKey::Number(n) => number_to_text(alloc, Num::Int(*n))?,
    };
    Ok(Key::new(text))
}
