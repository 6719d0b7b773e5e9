//! How a property is deleted.

ghost use Rattle.std.specs.Prelude.{◌≡◌, true, IsSome, slice_get};
ghost use Rattle.origin_labels.specs.Stores.{IsKept};
ghost use Rattle.js_values.specs.declared.value.Value.TheVariants as value_kind;
ghost use Rattle.js_number.specs.declared.primitive.Primitive.TheVariants as prims;
ghost use Rattle.js_values.specs.Readings.{HasValue, read_value};
ghost use Rattle.object_heap.specs.Formed.{own_in};
ghost use Rattle.es_meaning.specs.Primitives.{own_value_of};
ghost use Rattle.flow_meaning.specs.Tracked.{remove, remove_property, removed_if, removed_of_primitive};
ghost use Rattle.run_state.specs.Acts.{Acts, HasAnswer};
ghost use Rattle.run_state.specs.Names.{property_of};
ghost use Rattle.run_state.specs.Worlds.{Belongs, Grows};

use crate::parts::{join, key_of};
use flow_frames::FlowFault;
use js_number::Primitive;
use js_values::{Key, Labelled, ObjId, Value};
use native_protocol::ErrorKind;
use origin_labels::Labels;
use property_access::{has_own, throw_error};
use run_state::{Outcome, World};
use std::alloc::Global;

/// Deletes the property of a base that a key names (ECMA-262 8.12.7), by rules W4 and W5. True where the object has none, which depends on its structure. One
/// that can't be deleted throws a TypeError, as code is strict.
pub fn remove_property<T: Copy, L: Labels<Label = T>>(
    alloc: Global,
    labels: &mut L,
    world: &mut World<T>,
    base: &Labelled<T>,
    key: &Labelled<T>,
) -> Result<Outcome<Labelled<T>, T>, FlowFault<T>>
    requires base { L.made labels.old base.now.label }
    requires key { L.made labels.old key.now.label }
    requires belongs { Belongs L.made L.meaning labels.old world.old }
    ensures acts { Acts L.made L.meaning labels.new (λ reading. read_value reading) (λ reading. remove (property_of (read_value reading base.now) (read_value reading key.now))) world.old world.new result }
    ensures made { HasAnswer (HasValue (L.made labels.new)) (L.made labels.new) result }
    ensures belongs { Belongs L.made L.meaning labels.new world.new }
    ensures grows { Grows world.old world.new }
    ensures kept { IsKept L.made L.meaning L.room L.firm labels.old labels.new }
{
    let label = join(labels, base.label, key.label)?;
    let value = key.value.copy(alloc)?;
    let name = key_of(alloc, value)?;
    match &base.value {
        Value::Object(o) => remove_from(labels, world, *o, &name, label),
        Value::Primitive(p) => remove_of_primitive(labels, world, p, &name, label),
    }
}

/// Deletes a property of a primitive value, where the label is that of base and key: its own properties stay (ECMA-262 15.5.5).
fn remove_of_primitive<T: Copy, L: Labels<Label = T>>(
    labels: &mut L,
    world: &mut World<T>,
    value: &Primitive,
    key: &Key,
    label: T,
) -> Result<Outcome<Labelled<T>, T>, FlowFault<T>>
    requires label { L.made labels.old label }
    requires belongs { Belongs L.made L.meaning labels.old world.old }
    ensures acts { Acts L.made L.meaning labels.new (λ reading. read_value reading) (λ reading. removed_of_primitive (own_value_of value.now key.now) (reading label)) world.old world.new result }
    ensures made { HasAnswer (HasValue (L.made labels.new)) (L.made labels.new) result }
    ensures belongs { Belongs L.made L.meaning labels.new world.new }
    ensures grows { Grows world.old world.new }
    ensures kept { IsKept L.made L.meaning L.room L.firm labels.old labels.new }
{
    if has_own(value, key.text()) {
        return throw_error(labels, world, ErrorKind::TypeError, label);
    }
    Ok(Outcome::Goes(yes(label)))
}

/// Deletes a property of an object, where the label is that of base and key.
fn remove_from<T: Copy, L: Labels<Label = T>>(
    labels: &mut L,
    world: &mut World<T>,
    o: ObjId,
    key: &Key,
    label: T,
) -> Result<Outcome<Labelled<T>, T>, FlowFault<T>>
    requires label { L.made labels.old label }
    requires belongs { Belongs L.made L.meaning labels.old world.old }
    ensures acts { Acts L.made L.meaning labels.new (λ reading. read_value reading) (λ reading. remove_property (reading label) (value_kind.Object o) key.now) world.old world.new result }
    ensures made { HasAnswer (HasValue (L.made labels.new)) (L.made labels.new) result }
    ensures belongs { Belongs L.made L.meaning labels.new world.new }
    ensures grows { Grows world.old world.new }
    ensures kept { IsKept L.made L.meaning L.room L.firm labels.old labels.new }
{
    if o.0 >= world.heap.len() {
        return Ok(Outcome::Goes(yes(label)));
    }
    let Some(slot) = world.heap.own(o, key) else {
        let structure = world.heap.shape(o).structure;
        let depends = join(labels, label, structure)?;
        return Ok(Outcome::Goes(yes(depends)));
    };
    let configurable = slot.marks.configurable;
    let place = join(labels, label, slot.existence)?;
    remove_present(labels, world, o, key, configurable, place)
}

/// Deletes a property that the object has, if it can be deleted. `place` is the label of base, key and existence.
fn remove_present<T: Copy, L: Labels<Label = T>>(
    labels: &mut L,
    world: &mut World<T>,
    o: ObjId,
    key: &Key,
    configurable: bool,
    place: T,
) -> Result<Outcome<Labelled<T>, T>, FlowFault<T>>
    requires present { IsSome (own_in key.now (slice_get world.old.heap o.0)) }
    requires place { L.made labels.old place }
    requires belongs { Belongs L.made L.meaning labels.old world.old }
    ensures acts { Acts L.made L.meaning labels.new (λ reading. read_value reading) (λ reading. removed_if configurable (reading place) o.0 key.now) world.old world.new result }
    ensures made { HasAnswer (HasValue (L.made labels.new)) (L.made labels.new) result }
    ensures belongs { Belongs L.made L.meaning labels.new world.new }
    ensures grows { Grows world.old world.new }
    ensures kept { IsKept L.made L.meaning L.room L.firm labels.old labels.new }
{
    if !configurable {
        return throw_error(labels, world, ErrorKind::TypeError, place);
    }
    let context = world.frames.context(labels);
    let need = join(labels, context, place)?;
    world.heap.remove(labels, o, key, need)?;
    Ok(Outcome::Goes(yes(place)))
}

/// True, with a label.
fn yes<T>(label: T) -> Labelled<T>
    ensures { result ≡ record { value = value_kind.Primitive (prims.Bool true); label = label } }
{
    Labelled {
        value: Value::Primitive(Primitive::Bool(true)),
        label,
    }
}
