//! What several acts are made of.

ghost use Rattle.std.specs.Prelude.{◌≡◌, IfOk, map};
ghost use Rattle.origin_labels.specs.Label.{union};
ghost use Rattle.origin_labels.specs.Stores.{IsKept};
ghost use Rattle.es_meaning.specs.Plain.{key_text};
ghost use Rattle.prototype_walk.specs.Answers.{Means};

use flow_text::{OutOfMemory, Text};
use js_number::{Primitive, to_text};
use js_values::{Key, Value};
use origin_labels::Labels;
use std::alloc::Global;

/// The key that a value is, whose text it takes. That of an object is empty: whoever calls has converted it.
pub(crate) fn key_of(alloc: Global, value: Value) -> Result<Key, OutOfMemory>
    ensures { IfOk result (λ key. key ≡ key_text value) }
{
    let text = text_of_key(alloc, value)?;
    Ok(Key::new(text))
}

/// The text of that key.
pub fn text_of_key(alloc: Global, value: Value) -> Result<Text, OutOfMemory>
    ensures { IfOk result (λ text. text ≡ key_text value) }
{
    match value {
        Value::Primitive(Primitive::Str(text)) => Ok(text),
        Value::Primitive(other) => Ok(to_text(alloc, &other)?),
        Value::Object(_) => Ok(Text::new(alloc)),
    }
}

/// The union of two labels.
pub(crate) fn join<T: Copy, L: Labels<Label = T>>(
    labels: &mut L,
    a: T,
    b: T,
) -> Result<T, OutOfMemory>
    requires first { L.made labels.old a }
    requires second { L.made labels.old b }
    ensures means { IfOk result (λ label. Means L.made L.meaning labels.new label (λ reading. union (reading a) (reading b))) }
    ensures kept { IsKept L.made L.meaning L.room L.firm labels.old labels.new }
{
    labels.join(a, b)
}
