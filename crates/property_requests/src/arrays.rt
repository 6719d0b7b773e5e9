//! New arrays (ECMA-262 11.1.4, 15.4.2).

ghost use Rattle.std.specs.Prelude.{◌≡◌, ◌<◌, ◌≤◌, suc, None, IfOk, IfSome, OnOk, length, map, slice_get};
ghost use Rattle.origin_labels.specs.Stores.{IsKept};
ghost use Rattle.flow_policy.specs.Policies.{Tables};
ghost use Rattle.flow_policy.specs.Inputs.{Given};
ghost use Rattle.js_values.specs.Readings.{HasHeap, HasValue, read_value};
ghost use Rattle.es_meaning.specs.Operations as operations;
ghost use Rattle.flow_meaning.specs.Tracked.{act};
ghost use Rattle.run_state.specs.Acts.{Acts, HasAnswer};
ghost use Rattle.run_state.specs.Worlds.{Belongs, Grows};
ghost use Rattle.property_requests.specs.Arrays.{HasElements, MakesArray, MakesEmpty, places_in, values_in};
ghost use Rattle.property_requests.specs.Building.{Adds, AddsAlone, IsOpenFor};
ghost use Rattle.js_values.specs.declared.property.Body.TheVariants as bodies;
ghost use Rattle.js_values.specs.Arrays.{element_key, length_body, length_key};
ghost use Rattle.object_heap.specs.Formed.{own_in};
ghost use Rattle.es_meaning.specs.Objects.{made_by_script};
ghost use Rattle.es_meaning.specs.Start.{length_marks};
ghost use Rattle.property_requests.specs.Finding.{valued};

use crate::building::add_row;
use flow_text::{OutOfMemory, Text};
use js_values::{
    Body, Class, Inner, Key, LENGTH, Labelled, Marks, ObjId, Value, element_key, length_body,
};
use object_heap::Heap;
use origin_labels::Labels;
use run_state::World;
use std::alloc::Global;

/// Array.prototype (ECMA-262 15.4.4), with which a run starts.
pub(crate) const ARRAY_PROTOTYPE: ObjId = ObjId(14);

/// The attributes of the `length` of an array (ECMA-262 15.4.5.2).
const LENGTH_MARKS: Marks = Marks {
    writable: true,
    enumerable: false,
    configurable: false,
};

/// The attributes of an element.
const MADE_BY_SCRIPT: Marks = Marks {
    writable: true,
    enumerable: true,
    configurable: true,
};

/// An element of a new array: its number, and its value.
#[derive(Drop)]
pub struct Element<T> {
    pub place: u32,
    pub value: Labelled<T>,
}

/// Makes an array in the present context, with this `length` and these elements, which stand below it. No flow rule stops that.
pub fn make_array<T: Copy, L: Labels<Label = T>>(
    alloc: Global,
    labels: &mut L,
    world: &mut World<T>,
    count: u32,
    elements: Vec<Element<T>>,
) -> Result<Labelled<T>, OutOfMemory>
    requires elements { HasElements (L.made labels.old) count elements.items }
    requires belongs { Belongs L.made L.meaning labels.old world.old }
    ensures acts { (tables : Tables) (inputs : Given) → Acts L.made L.meaning labels.new (λ reading. read_value reading) (λ reading. act tables inputs (operations.array_of (places_in elements.items) count) (map (read_value reading) (values_in elements.items))) world.old world.new (valued result) }
    ensures made { HasAnswer (HasValue (L.made labels.new)) (L.made labels.new) (valued result) }
    ensures belongs { Belongs L.made L.meaning labels.new world.new }
    ensures grows { Grows world.old world.new }
    ensures kept { IsKept L.made L.meaning L.room L.firm labels.old labels.new }
{
    let context = world.frames.context(labels);
    let o = make_with(alloc, labels, &mut world.heap, context, count, elements)?;
    Ok(Labelled {
        value: Value::Object(o),
        label: labels.bottom(),
    })
}

/// Makes an array in the context, with this `length` and these elements.
fn make_with<T: Copy, L: Labels<Label = T>>(
    alloc: Global,
    labels: &mut L,
    heap: &mut Heap<T>,
    context: T,
    count: u32,
    elements: Vec<Element<T>>,
) -> Result<ObjId, OutOfMemory>
    requires proto { 14 < length heap.old }
    requires elements { HasElements (L.made labels.old) count elements.items }
    requires context { L.made labels.old context }
    requires belongs { HasHeap (L.made labels.old) heap.old }
    ensures makes { IfOk result (λ o. MakesArray L.made L.meaning labels.new context count elements.items heap.old heap.new) }
    ensures number { IfOk result (λ o. o.0 ≡ length heap.old) }
    ensures longer { length heap.old ≤ length heap.new }
    ensures belongs { HasHeap (L.made labels.new) heap.new }
    ensures kept { IsKept L.made L.meaning L.room L.firm labels.old labels.new }
{
    let proto = Some(ARRAY_PROTOTYPE);
    let o = make_empty(alloc, labels, heap, context, context, proto, count)?;
    for element in elements {
        add_element(alloc, labels, heap, o, context, element)?;
    }
    Ok(o)
}

/// Makes an array without elements in the context, with this `length`, prototype and link.
pub(crate) fn make_empty<T: Copy, L: Labels<Label = T>>(
    alloc: Global,
    labels: &mut L,
    heap: &mut Heap<T>,
    context: T,
    link: T,
    proto: Option<ObjId>,
    count: u32,
) -> Result<ObjId, OutOfMemory>
    requires proto { IfSome proto (λ o. o.0 < length heap.old) }
    requires context { L.made labels.old context }
    requires link { L.made labels.old link }
    requires belongs { HasHeap (L.made labels.old) heap.old }
    ensures makes { IfOk result (λ o. MakesEmpty L.made L.meaning labels.new context link proto count heap.old heap.new) }
    ensures number { IfOk result (λ o. o.0 ≡ length heap.old) }
    ensures longer { length heap.old ≤ length heap.new }
    ensures more { IfOk result (λ o. length heap.new ≡ suc (length heap.old)) }
    ensures belongs { HasHeap (L.made labels.new) heap.new }
    ensures kept { IsKept L.made L.meaning L.room L.firm labels.old labels.new }
{
    let o = heap.new_object(Class::Array, proto, link, context, Inner::Plain)?;
    add_length(alloc, labels, heap, o, context, count)?;
    Ok(o)
}

/// Adds the `length` to an array that was made in the context.
fn add_length<T: Copy, L: Labels<Label = T>>(
    alloc: Global,
    labels: &mut L,
    heap: &mut Heap<T>,
    o: ObjId,
    context: T,
    count: u32,
) -> Result<(), OutOfMemory>
    requires there { o.0 < length heap.old }
    requires absent { own_in length_key (slice_get heap.old o.0) ≡ None }
    requires opened { IsOpenFor L.made L.meaning labels.old heap.old o.0 length_key context }
    requires context { L.made labels.old context }
    requires belongs { HasHeap (L.made labels.old) heap.old }
    ensures adds { OnOk result (AddsAlone L.made L.meaning labels.new context o.0 length_key (length_body count) length_marks heap.old heap.new) }
    ensures length { length heap.new ≡ length heap.old }
    ensures belongs { HasHeap (L.made labels.new) heap.new }
    ensures kept { IsKept L.made L.meaning L.room L.firm labels.old labels.new }
{
    let key = length_key(alloc)?;
    let none = labels.bottom();
    let body = length_body(count);
    add_row(labels, heap, o, context, key, body, none, LENGTH_MARKS)?;
    Ok(())
}

/// The key `length`.
pub(crate) fn length_key(alloc: Global) -> Result<Key, OutOfMemory>
    ensures { IfOk result (λ key. key ≡ length_key) }
{
    let mut text = Text::new(alloc);
    text.push_units(&LENGTH)?;
    Ok(Key::new(text))
}

/// Adds an element to an array that was made in the context, below its `length`.
fn add_element<T: Copy, L: Labels<Label = T>>(
    alloc: Global,
    labels: &mut L,
    heap: &mut Heap<T>,
    o: ObjId,
    context: T,
    element: Element<T>,
) -> Result<(), OutOfMemory>
    requires there { o.0 < length heap.old }
    requires absent { own_in (element_key element.place) (slice_get heap.old o.0) ≡ None }
    requires opened { IsOpenFor L.made L.meaning labels.old heap.old o.0 (element_key element.place) context }
    requires context { L.made labels.old context }
    requires value { HasValue (L.made labels.old) element.value }
    requires belongs { HasHeap (L.made labels.old) heap.old }
    ensures adds { OnOk result (Adds L.made L.meaning labels.new context o.0 (element_key element.place) (bodies.Data element.value.value) element.value.label made_by_script heap.old heap.new) }
    ensures length { length heap.new ≡ length heap.old }
    ensures belongs { HasHeap (L.made labels.new) heap.new }
    ensures kept { IsKept L.made L.meaning L.room L.firm labels.old labels.new }
{
    let key = element_key(alloc, element.place)?;
    let Labelled { value, label } = element.value;
    let body = Body::Data(value);
    add_row(labels, heap, o, context, key, body, label, MADE_BY_SCRIPT)?;
    Ok(())
}
