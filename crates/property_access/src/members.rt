//! Properties of values, by keys that are values.

ghost use Rattle.std.specs.Prelude.{◌≡◌, IfOk};
ghost use Rattle.origin_labels.specs.Stores.{IsKept};
ghost use Rattle.js_values.specs.Readings.{read_value};
ghost use Rattle.es_meaning.specs.Plain as plain;
ghost use Rattle.flow_meaning.specs.Tracked.{accessed, put_value};
ghost use Rattle.run_state.specs.Accesses.{HasAccess, HasPutting, read_access, read_putting};
ghost use Rattle.property_access.specs.KeyTexts.{text_held};
ghost use Rattle.run_state.specs.Acts.{Acts, HasAnswer};
ghost use Rattle.run_state.specs.Names.{property_of};
ghost use Rattle.run_state.specs.Worlds.{Belongs, Grows};

use crate::primitives::{get_of_primitive, put_on_primitive};
use crate::properties::{get_of, join};
use crate::putting::put_on_object;
use flow_frames::{FlowFault, Rule};
use flow_text::{OutOfMemory, Text};
use js_number::{Primitive, to_text};
use js_values::{Labelled, Value};
use origin_labels::Labels;
use run_state::{Access, Outcome, Putting, World};
use std::alloc::Global;

/// What the property of a base comes to that a key names, a primitive value (ECMA-262 8.7.1).
pub fn get_property<T: Copy, L: Labels<Label = T>>(
    alloc: Global,
    labels: &mut L,
    world: &World<T>,
    base: &Labelled<T>,
    key: &Labelled<T>,
) -> Result<Outcome<Access<T>, T>, FlowFault<T>>
    requires base { L.made labels.old base.now.label }
    requires key { L.made labels.old key.now.label }
    requires belongs { Belongs L.made L.meaning labels.old world.now }
    ensures acts { Acts L.made L.meaning labels.new (λ reading. read_access reading) (λ reading. accessed (property_of (read_value reading base.now) (read_value reading key.now))) world.now world.now result }
    ensures made { HasAnswer (HasAccess (L.made labels.new)) (L.made labels.new) result }
    ensures belongs { Belongs L.made L.meaning labels.new world.now }
    ensures kept { IsKept L.made L.meaning L.room L.firm labels.old labels.new }
{
    let label = join(labels, base.label, key.label)?;
    let name = key_text(alloc, &key.value)?;
    let text = name.text();
    match &base.value {
        Value::Object(o) => {
            let access = get_of(alloc, labels, world, *o, base.label, text, label)?;
            Ok(Outcome::Goes(access))
        }
        Value::Primitive(p) => {
            let read = get_of_primitive(alloc, labels, world, p, base.label, text, label)?;
            Ok(Outcome::Goes(read))
        }
    }
}

/// Gives the property of a base that a key names, a primitive value, another value (ECMA-262 8.7.2), by rule W2 or W3, or comes to its setter.
pub fn put_property<T: Copy, L: Labels<Label = T>>(
    alloc: Global,
    labels: &mut L,
    world: &mut World<T>,
    base: &Labelled<T>,
    key: &Labelled<T>,
    value: Labelled<T>,
) -> Result<Outcome<Putting<T>, T>, FlowFault<T>>
    requires base { L.made labels.old base.now.label }
    requires key { L.made labels.old key.now.label }
    requires value { L.made labels.old value.label }
    requires belongs { Belongs L.made L.meaning labels.old world.old }
    ensures acts { Acts L.made L.meaning labels.new (λ reading. read_putting reading) (λ reading. put_value (property_of (read_value reading base.now) (read_value reading key.now)) (read_value reading value)) world.old world.new result }
    ensures made { HasAnswer (HasPutting (L.made labels.new)) (L.made labels.new) result }
    ensures belongs { Belongs L.made L.meaning labels.new world.new }
    ensures grows { Grows world.old world.new }
    ensures kept { IsKept L.made L.meaning L.room L.firm labels.old labels.new }
{
    let label = join(labels, base.label, key.label)?;
    let name = key_text(alloc, &key.value)?;
    let text = name.text();
    match &base.value {
        Value::Object(o) => put_on_object(
            alloc,
            labels,
            world,
            Rule::W2,
            *o,
            text,
            label,
            base.label,
            value,
        ),
        Value::Primitive(p) => put_on_primitive(alloc, labels, world, p, base.label, text, label),
    }
}

/// The text of a key: that of a value that is one, or one that was made.
#[derive(Drop)]
enum KeyText<'k> {
    Held(&'k Text),
    Made(Text),
}

impl KeyText<'_> {
    /// The text.
    fn text(&self) -> &Text
        ensures { result.now ≡ text_held self.now }
    {
        match self {
            KeyText::Held(text) => text,
            KeyText::Made(text) => text,
        }
    }
}

/// The text of the key that a value is. That of an object is empty: whoever calls has converted it.
fn key_text<'k>(alloc: Global, key: &'k Value) -> Result<KeyText<'k>, OutOfMemory>
    ensures { IfOk result (λ k. text_held k ≡ plain.key_text key.entry.now) }
{
    match key {
        Value::Primitive(Primitive::Str(text)) => Ok(KeyText::Held(text)),
        Value::Primitive(other) => Ok(KeyText::Made(to_text(alloc, other)?)),
        Value::Object(_) => Ok(KeyText::Made(Text::new(alloc))),
    }
}
