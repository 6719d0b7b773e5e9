//! What is known of an own property.

ghost use Rattle.std.specs.Prelude.{◌≡◌, ℕ, List, [], ◌∷◌, ◌++◌, IfOk, OnOk, length, slice_get};
ghost use Rattle.std.specs.Option.{option_map};
ghost use Rattle.origin_labels.specs.Stores.{IsKept};
ghost use Rattle.flow_policy.specs.Policies.{Tables};
ghost use Rattle.flow_policy.specs.Inputs.{Given};
ghost use Rattle.js_values.specs.Readings.{HasValue, read_value, read_object};
ghost use Rattle.es_meaning.specs.Operations as operations;
ghost use Rattle.es_meaning.specs.Operations.{OwnPart};
ghost use Rattle.es_meaning.specs.Requested.{part_of_property};
ghost use Rattle.flow_meaning.specs.Erased.{erased_slot};
ghost use Rattle.flow_meaning.specs.Tracked.{act, own_property_in};
ghost use Rattle.run_state.specs.Acts.{Acts, HasAnswer};
ghost use Rattle.run_state.specs.Worlds.{Belongs, Grows};
ghost use Rattle.property_requests.specs.Finding.{Finds, IfGoes, nothing};
ghost use Rattle.prototype_walk.specs.Answers.{IsOwnList};
ghost use Rattle.property_requests.specs.Arrays.{AreKeys};
ghost use Rattle.property_requests.specs.Owning.{part_in, HasParts, own_label};

use crate::arrays::{Element, make_array};
use crate::bodies::{function_value, getter_in, marks_value, setter_in, value_in};
use crate::parts::{join, place_of, undefined};
use flow_frames::FlowFault;
use flow_text::OutOfMemory;
use js_number::Primitive;
use js_values::{Key, KeyRow, Labelled, ObjId, Slot, Value};
use native_protocol::ErrorKind;
use origin_labels::Labels;
use property_access::throw_error;
use prototype_walk::{KeyList, own_keys as list_own_keys};
use run_state::{Outcome, World};
use std::alloc::Global;

/// What is known of an own property. All of it is undefined where there is none.
#[derive(Drop)]
pub struct OwnProperty<T> {
    /// The sum of 1 for writable, 2 for enumerable, 4 for configurable and 8 for an accessor.
    pub marks: Labelled<T>,
    pub value: Labelled<T>,
    pub get: Labelled<T>,
    pub set: Labelled<T>,
}

/// What is known of the own property that an object has of a key (ECMA-262 8.12.1): each of the four parts is that of the act that asks for it alone. A
/// primitive base throws a TypeError.
pub fn own_property<T: Copy, L: Labels<Label = T>>(
    alloc: Global,
    labels: &mut L,
    world: &mut World<T>,
    base: &Labelled<T>,
    key: &Key,
) -> Result<Outcome<OwnProperty<T>, T>, FlowFault<T>>
    requires base { L.made labels.old base.now.label }
    requires belongs { Belongs L.made L.meaning labels.old world.old }
    ensures acts { (tables : Tables) (inputs : Given) (part : OwnPart) → Acts L.made L.meaning labels.new (λ reading p. read_value reading (part_in part p)) (λ reading. act tables inputs (operations.own_property part key.now) (read_value reading base.now ∷ [])) world.old world.new result }
    ensures still { IfOk result (IfGoes (λ p. world.new ≡ world.old)) }
    ensures made { HasAnswer (HasParts (L.made labels.new)) (L.made labels.new) result }
    ensures belongs { Belongs L.made L.meaning labels.new world.new }
    ensures grows { Grows world.old world.new }
    ensures kept { IsKept L.made L.meaning L.room L.firm labels.old labels.new }
{
    let Value::Object(o) = base.value else {
        return throw_error(labels, world, ErrorKind::TypeError, base.label);
    };
    let known = known_of(alloc, labels, world, o, key, base.label)?;
    Ok(Outcome::Goes(known))
}

/// The own keys of an object as an array (ECMA-262 15.2.3.4, 15.2.3.14): all, or the enumerable ones. The reference to it depends on which there are, and on their
/// marks. A primitive base throws a TypeError.
pub fn own_keys<T: Copy, L: Labels<Label = T>>(
    alloc: Global,
    labels: &mut L,
    world: &mut World<T>,
    base: &Labelled<T>,
    all: bool,
) -> Result<Outcome<Labelled<T>, T>, FlowFault<T>>
    requires base { L.made labels.old base.now.label }
    requires belongs { Belongs L.made L.meaning labels.old world.old }
    ensures acts { (tables : Tables) (inputs : Given) → Acts L.made L.meaning labels.new (λ reading. read_value reading) (λ reading. act tables inputs (operations.own_keys all) (read_value reading base.now ∷ [])) world.old world.new result }
    ensures made { HasAnswer (HasValue (L.made labels.new)) (L.made labels.new) result }
    ensures belongs { Belongs L.made L.meaning labels.new world.new }
    ensures grows { Grows world.old world.new }
    ensures kept { IsKept L.made L.meaning L.room L.firm labels.old labels.new }
{
    let Value::Object(o) = base.value else {
        return throw_error(labels, world, ErrorKind::TypeError, base.label);
    };
    let list = keys_of(alloc, labels, world, o, all)?;
    let label = join(labels, base.label, list.walk)?;
    let elements = elements_of(alloc, labels, list.keys.items())?;
    let count = count_of(&elements)?;
    let array = make_array(alloc, labels, world, count, elements)?;
    Ok(Outcome::Goes(Labelled {
        value: array.value,
        label,
    }))
}

/// The own keys of an object. One that isn't there has none.
fn keys_of<T: Copy, L: Labels<Label = T>>(
    alloc: Global,
    labels: &mut L,
    world: &World<T>,
    o: ObjId,
    all: bool,
) -> Result<KeyList<T>, OutOfMemory>
    requires { Belongs L.made L.meaning labels.old world.now }
    ensures keys { IfOk result (IsOwnList L.made L.meaning labels.new world.now.heap o.0 all) }
    ensures kept { IsKept L.made L.meaning L.room L.firm labels.old labels.new }
{
    if o.0 < world.heap.len() {
        return list_own_keys(alloc, &world.heap, labels, o, all);
    }
    Ok(KeyList {
        keys: KeyRow::new(alloc),
        walk: labels.bottom(),
    })
}

/// Elements that are the texts of keys, which depend on nothing.
fn elements_of<T: Copy, L: Labels<Label = T>>(
    alloc: Global,
    labels: &L,
    keys: &[Key],
) -> Result<Vec<Element<T>>, OutOfMemory>
    ensures { IfOk result (λ elements. AreKeys L.made L.meaning labels.now keys.now elements.items) }
{
    let mut elements = Vec::new(alloc);
    for key in keys {
        add_key(alloc, labels, key, &mut elements)?;
    }
    Ok(elements)
}

/// Appends the text of a key as an element, behind those that are there.
fn add_key<T: Copy, L: Labels<Label = T>>(
    alloc: Global,
    labels: &L,
    key: &Key,
    elements: &mut Vec<Element<T>>,
) -> Result<(), OutOfMemory>
    ensures { OnOk result ((keys : List (List ℕ)) → AreKeys L.made L.meaning labels.now keys elements.old.items → AreKeys L.made L.meaning labels.now (keys ++ key.now ∷ []) elements.new.items) }
{
    let place = number_of(elements.len())?;
    let text = key.text().copy(alloc)?;
    let value = Labelled {
        value: Value::Primitive(Primitive::Str(text)),
        label: labels.bottom(),
    };
    elements.push(Element { place, value })?;
    Ok(())
}

/// How many elements there are.
fn count_of<T>(elements: &[Element<T>]) -> Result<u32, OutOfMemory>
    ensures { IfOk result (λ n. n ≡ length elements.now) }
{
    number_of(elements.len())
}

fn number_of(n: usize) -> Result<u32, OutOfMemory>
    ensures { IfOk result (λ m. m ≡ n) }
{
    match u32::try_from(n) {
        Ok(n) => Ok(n),
        Err(_) => Err(OutOfMemory),
    }
}

/// What an object itself has of a key, where the label is that of the base. Nothing of an object that isn't there.
fn known_of<T: Copy, L: Labels<Label = T>>(
    alloc: Global,
    labels: &mut L,
    world: &World<T>,
    o: ObjId,
    key: &Key,
    label: T,
) -> Result<OwnProperty<T>, OutOfMemory>
    requires label { L.made labels.old label }
    requires belongs { Belongs L.made L.meaning labels.old world.now }
    ensures known { IfOk result (λ p. (part : OwnPart) → Finds L.made L.meaning labels.new (λ reading. own_property_in part key.now (reading label) (option_map (read_object reading) (slice_get world.now.heap o.0))) (part_in part p)) }
    ensures made { IfOk result (HasParts (L.made labels.new)) }
    ensures kept { IsKept L.made L.meaning L.room L.firm labels.old labels.new }
{
    if o.0 >= world.heap.len() {
        return Ok(nothing_known(label));
    }
    let place = place_of(labels, &world.heap, o, key, label)?;
    match world.heap.own(o, key) {
        None => Ok(nothing_known(place)),
        Some(slot) => {
            let depends = join(labels, place, slot.label)?;
            let parts = parts_of(alloc, slot, place, depends)?;
            Ok(parts)
        }
    }
}

/// Undefined in each part.
fn nothing_known<T: Copy>(label: T) -> OwnProperty<T>
    ensures { (part : OwnPart) → part_in part result ≡ nothing label }
{
    OwnProperty {
        marks: undefined(label),
        value: undefined(label),
        get: undefined(label),
        set: undefined(label),
    }
}

/// The parts of a property: the marks depend on its place, and all else on its value label besides.
fn parts_of<T: Copy>(
    alloc: Global,
    slot: &Slot<T>,
    place: T,
    depends: T,
) -> Result<OwnProperty<T>, OutOfMemory>
    ensures { IfOk result (λ p. (part : OwnPart) → part_in part p ≡ record { value = part_of_property part (erased_slot slot.now); label = own_label part place depends }) }
{
    let marks = marks_value(slot.marks, &slot.body);
    let value = value_in(alloc, &slot.body)?;
    let get = function_value(getter_in(&slot.body));
    let set = function_value(setter_in(&slot.body));
    Ok(OwnProperty {
        marks: Labelled {
            value: marks,
            label: place,
        },
        value: Labelled {
            value,
            label: depends,
        },
        get: Labelled {
            value: get,
            label: depends,
        },
        set: Labelled {
            value: set,
            label: depends,
        },
    })
}
