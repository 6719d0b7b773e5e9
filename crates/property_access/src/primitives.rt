//! Properties of primitive values (ECMA-262 8.7.1, 8.7.2): those of the object that the value would be wrapped in.

ghost use Rattle.std.specs.Prelude.{◌≡◌, None, IfOk, is_some, length, pos};
ghost use Rattle.std.specs.Option.{option_map};
ghost use Rattle.origin_labels.specs.Stores.{IsKept};
ghost use Rattle.js_number.specs.declared.primitive.Primitive.TheVariants as prims;
ghost use Rattle.js_values.specs.declared.value.Value.TheVariants as values;
ghost use Rattle.js_values.specs.Numerals.{index_of};
ghost use Rattle.js_values.specs.Readings.{read_heap};
ghost use Rattle.js_values.specs.Walks.{find};
ghost use Rattle.es_meaning.specs.Definitions.{is_accessor};
ghost use Rattle.es_meaning.specs.Primitives.{own_value_of, prototype_of_primitive};
ghost use Rattle.flow_meaning.specs.Tracked.{found_by, primitive_access, primitive_chain, put_on_primitive};
ghost use Rattle.prototype_walk.specs.Answers.{IsFoundFor};
ghost use Rattle.property_access.specs.Accessors.{accessor_in, unit_in};
ghost use Rattle.run_state.specs.Accesses.{HasPutting, IsAccess, read_putting};
ghost use Rattle.run_state.specs.Acts.{Acts, HasAnswer};
ghost use Rattle.run_state.specs.Worlds.{Belongs, Grows};

use crate::properties::{find_property, held, join, undefined};
use crate::putting::{FoundSetter, enter_setter, setter_in};
use crate::throwing::throw_error;
use flow_frames::FlowFault;
use flow_text::{OutOfMemory, Text};
use js_number::{Int, Num, Primitive};
use js_values::{Body, Labelled, ObjId, Slot, Value, array_index, is_length_key};
use native_protocol::ErrorKind;
use origin_labels::Labels;
use run_state::{Access, Outcome, Putting, World};
use std::alloc::Global;

/// Boolean.prototype (ECMA-262 15.6.4), with which a run starts.
const BOOLEAN_PROTOTYPE: ObjId = ObjId(10);

/// Number.prototype (ECMA-262 15.7.4).
const NUMBER_PROTOTYPE: ObjId = ObjId(11);

/// String.prototype (ECMA-262 15.5.4).
const STRING_PROTOTYPE: ObjId = ObjId(15);

/// Whether a primitive value has an own property of a key: a text has its `length` and its units (ECMA-262 15.5.5). None of these can be changed.
pub fn has_own(value: &Primitive, key: &Text) -> bool
    ensures { result ≡ is_some (own_value_of value.now key.now) }
{
    match value {
        Primitive::Str(text) => text_has(text, key),
        _ => false,
    }
}

/// Whether a text has an own property of a key.
fn text_has(text: &Text, key: &Text) -> bool
    ensures { result ≡ is_some (own_value_of (prims.Str text.now) key.now) }
{
    if is_length_key(key) {
        return true;
    }
    unit_at(text, key).is_some()
}

/// What an own property of a primitive value holds.
fn own_value(alloc: Global, value: &Primitive, key: &Text) -> Result<Option<Primitive>, OutOfMemory>
    ensures { IfOk result (λ own. own ≡ own_value_of value.now key.now) }
{
    match value {
        Primitive::Str(text) => own_value_of_text(alloc, text, key),
        _ => Ok(None),
    }
}

/// The `length` of a text, or one of its units as a text.
fn own_value_of_text(
    alloc: Global,
    text: &Text,
    key: &Text,
) -> Result<Option<Primitive>, OutOfMemory>
    ensures { IfOk result (λ own. own ≡ own_value_of (prims.Str text.now) key.now) }
{
    if is_length_key(key) {
        let length = length_of(text)?;
        return Ok(Some(Primitive::Num(Num::Int(length))));
    }
    match unit_at(text, key) {
        Some(unit) => {
            let mut own = Text::new(alloc);
            own.push(unit)?;
            Ok(Some(Primitive::Str(own)))
        }
        None => Ok(None),
    }
}

/// How many units a text has.
fn length_of(text: &Text) -> Result<Int, OutOfMemory>
    ensures { IfOk result (λ n. n ≡ pos (length text.now)) }
{
    let Ok(length) = i64::try_from(text.len()) else {
        return Err(OutOfMemory);
    };
    // No text is so long that it has no such number.
    match Int::new(length) {
        Some(length) => Ok(length),
        None => Err(OutOfMemory),
    }
}

/// The unit of a text that a key names.
fn unit_at(text: &Text, key: &Text) -> Option<u16>
    ensures { result ≡ unit_in text.now (index_of key.now) }
{
    let place = array_index(key.units())? as usize;
    if place < text.len() {
        return Some(text.unit(place));
    }
    None
}

/// The prototype of the object that a value would be wrapped in (ECMA-262 9.9).
fn prototype_of(value: &Primitive) -> Option<ObjId>
    ensures { result ≡ prototype_of_primitive value.now }
{
    match value {
        Primitive::Undefined | Primitive::Null => None,
        Primitive::Bool(_) => Some(BOOLEAN_PROTOTYPE),
        Primitive::Num(_) => Some(NUMBER_PROTOTYPE),
        Primitive::Str(_) => Some(STRING_PROTOTYPE),
    }
}

/// The property that a key names from the prototype of a primitive value on, and the label of the walk to it.
pub fn find_beyond<'w, T: Copy, L: Labels<Label = T>>(
    labels: &mut L,
    world: &'w World<T>,
    value: &Primitive,
    key: &Text,
) -> Result<(Option<(ObjId, &'w Slot<T>)>, T), OutOfMemory>
    requires { Belongs L.made L.meaning labels.old world.now }
    ensures found { IfOk result (λ r. IsFoundFor L.made L.meaning labels.new (λ reading. find key.now (primitive_chain (read_heap reading world.now.heap) value.now)) (option_map (λ f. (f.0, f.1.now)) r.0) r.1) }
    ensures kept { IsKept L.made L.meaning L.room L.firm labels.old labels.new }
{
    match prototype_of(value) {
        Some(o) => find_property(labels, world, o, key),
        None => Ok((None, labels.bottom())),
    }
}

/// What a property of a primitive value comes to: an own one has an empty walk, and else it is one of its prototype, with the value as the base. `label` is that
/// of base and key.
pub(crate) fn get_of_primitive<T: Copy, L: Labels<Label = T>>(
    alloc: Global,
    labels: &mut L,
    world: &World<T>,
    value: &Primitive,
    this_label: T,
    key: &Text,
    label: T,
) -> Result<Access<T>, OutOfMemory>
    requires this { L.made labels.old this_label }
    requires label { L.made labels.old label }
    requires belongs { Belongs L.made L.meaning labels.old world.now }
    ensures access { IfOk result (IsAccess L.made L.meaning labels.new (λ reading. primitive_access (reading label) (own_value_of value.now key.now) (found_by (reading label) (record { value = values.Primitive value.now; label = reading this_label }) (find key.now (primitive_chain (read_heap reading world.now.heap) value.now))))) }
    ensures kept { IsKept L.made L.meaning L.room L.firm labels.old labels.new }
{
    if let Some(own) = own_value(alloc, value, key)? {
        return Ok(Access::Value(Labelled {
            value: Value::Primitive(own),
            label,
        }));
    }
    get_beyond(alloc, labels, world, value, this_label, key, label)
}

/// What a property of the prototype of a primitive value comes to.
fn get_beyond<T: Copy, L: Labels<Label = T>>(
    alloc: Global,
    labels: &mut L,
    world: &World<T>,
    value: &Primitive,
    this_label: T,
    key: &Text,
    label: T,
) -> Result<Access<T>, OutOfMemory>
    requires this { L.made labels.old this_label }
    requires label { L.made labels.old label }
    requires belongs { Belongs L.made L.meaning labels.old world.now }
    ensures access { IfOk result (IsAccess L.made L.meaning labels.new (λ reading. found_by (reading label) (record { value = values.Primitive value.now; label = reading this_label }) (find key.now (primitive_chain (read_heap reading world.now.heap) value.now)))) }
    ensures kept { IsKept L.made L.meaning L.room L.firm labels.old labels.new }
{
    let (place, walk) = find_beyond(labels, world, value, key)?;
    let depends = join(labels, label, walk)?;
    match place {
        Some((_, slot)) => {
            let this = primitive(alloc, value, this_label)?;
            held(alloc, labels, depends, slot, this)
        }
        None => Ok(Access::Value(undefined(depends))),
    }
}

/// Puts a value on a primitive one by a key: it gets no properties, so the put calls the setter that its prototype has, and is refused else. `label` is that of
/// base and key.
pub(crate) fn put_on_primitive<T: Copy, L: Labels<Label = T>>(
    alloc: Global,
    labels: &mut L,
    world: &mut World<T>,
    value: &Primitive,
    this_label: T,
    key: &Text,
    label: T,
) -> Result<Outcome<Putting<T>, T>, FlowFault<T>>
    requires this { L.made labels.old this_label }
    requires label { L.made labels.old label }
    requires belongs { Belongs L.made L.meaning labels.old world.old }
    ensures acts { Acts L.made L.meaning labels.new (λ reading. read_putting reading) (λ reading. put_on_primitive (own_value_of value.now key.now) (reading label) (record { value = values.Primitive value.now; label = reading this_label }) value.now key.now) world.old world.new result }
    ensures made { HasAnswer (HasPutting (L.made labels.new)) (L.made labels.new) result }
    ensures belongs { Belongs L.made L.meaning labels.new world.new }
    ensures grows { Grows world.old world.new }
    ensures kept { IsKept L.made L.meaning L.room L.firm labels.old labels.new }
{
    if has_own(value, key) {
        return throw_error(labels, world, ErrorKind::TypeError, label);
    }
    put_beyond(alloc, labels, world, value, this_label, key, label)
}

/// The same by the prototype of the value.
fn put_beyond<T: Copy, L: Labels<Label = T>>(
    alloc: Global,
    labels: &mut L,
    world: &mut World<T>,
    value: &Primitive,
    this_label: T,
    key: &Text,
    label: T,
) -> Result<Outcome<Putting<T>, T>, FlowFault<T>>
    requires this { L.made labels.old this_label }
    requires label { L.made labels.old label }
    requires belongs { Belongs L.made L.meaning labels.old world.old }
    ensures acts { Acts L.made L.meaning labels.new (λ reading. read_putting reading) (λ reading. put_on_primitive None (reading label) (record { value = values.Primitive value.now; label = reading this_label }) value.now key.now) world.old world.new result }
    ensures made { HasAnswer (HasPutting (L.made labels.new)) (L.made labels.new) result }
    ensures belongs { Belongs L.made L.meaning labels.new world.new }
    ensures grows { Grows world.old world.new }
    ensures kept { IsKept L.made L.meaning L.room L.firm labels.old labels.new }
{
    let (place, walk) = find_beyond(labels, world, value, key)?;
    let found = accessor_at(place);
    let depends = join(labels, label, walk)?;
    match found {
        Some(found) => {
            let this = primitive(alloc, value, this_label)?;
            let whole = join(labels, depends, found.label)?;
            enter_setter(labels, world, whole, found.set, this)
        }
        None => throw_error(labels, world, ErrorKind::TypeError, depends),
    }
}

/// The setter of what was found, if that is an accessor.
fn accessor_at<T: Copy>(place: Option<(ObjId, &Slot<T>)>) -> Option<FoundSetter<T>>
    ensures { result ≡ accessor_in (option_map (λ f. f.1.now) place.entry) }
{
    let Some((_, slot)) = place else {
        return None;
    };
    if is_accessor(&slot.body) {
        return Some(FoundSetter {
            label: slot.label,
            set: setter_in(&slot.body),
        });
    }
    None
}

fn is_accessor(body: &Body) -> bool
    ensures { result ≡ is_accessor body.now }
{
    matches!(body, Body::Accessor { .. })
}

/// A primitive value with a label.
fn primitive<T: Copy>(
    alloc: Global,
    value: &Primitive,
    label: T,
) -> Result<Labelled<T>, OutOfMemory>
    ensures { IfOk result (λ v. v ≡ record { value = values.Primitive value.now; label = label }) }
{
    let value = value.copy(alloc)?;
    Ok(Labelled {
        value: Value::Primitive(value),
        label,
    })
}
