//! What several acts are made of.

ghost use Rattle.std.specs.Prelude.{None, ◌&&◌, ◌≡◌, ◌<◌, IfOk, length, map, slice_get};
ghost use Rattle.std.specs.Option.{option_map};
ghost use Rattle.origin_labels.specs.Label.{union};
ghost use Rattle.origin_labels.specs.Stores.{IsKept};
ghost use Rattle.flow_frames.specs.Frames.{context};
ghost use Rattle.flow_frames.specs.Held.{Belong, seen_frame};
ghost use Rattle.js_values.specs.Readings.{HasHeap, read_object};
ghost use Rattle.object_heap.specs.Formed.{own_in};
ghost use Rattle.flow_meaning.specs.Requested.{own_walk};
ghost use Rattle.prototype_walk.specs.Answers.{Means};
ghost use Rattle.property_requests.specs.Finding.{IsTest, nothing};
ghost use Rattle.property_requests.specs.Defining.{may_add_in, test_of_definition};

use flow_frames::Frames;
use flow_text::OutOfMemory;
use js_number::Primitive;
use js_values::{Key, Labelled, ObjId, Value, element_of};
use object_heap::Heap;
use origin_labels::Labels;
use prototype_walk::room_for;

/// The union of two labels.
pub(crate) fn join<T: Copy, L: Labels<Label = T>>(
    labels: &mut L,
    a: T,
    b: T,
) -> Result<T, OutOfMemory>
    requires first { L.made labels.old a }
    requires second { L.made labels.old b }
    ensures means { IfOk result (λ label. Means L.made L.meaning labels.new label (λ reading. union (reading a) (reading b))) }
    ensures kept { IsKept L.made L.meaning L.room L.firm labels.old labels.new }
{
    labels.join(a, b)
}

/// The present context and a label.
pub(crate) fn need_of<T: Copy, L: Labels<Label = T>>(
    labels: &mut L,
    frames: &Frames<T>,
    label: T,
) -> Result<T, OutOfMemory>
    requires belongs { Belong L.made L.meaning labels.old frames.now.frames }
    requires label { L.made labels.old label }
    ensures means { IfOk result (λ need. Means L.made L.meaning labels.new need (λ reading. union (context (map (seen_frame reading) frames.now.frames)) (reading label))) }
    ensures kept { IsKept L.made L.meaning L.room L.firm labels.old labels.new }
{
    let context = frames.context(labels);
    let need = join(labels, context, label)?;
    Ok(need)
}

/// The label that tells whether an object itself has a key: the property's existence label, or that of the structure where there is none.
fn own_test<T: Copy>(heap: &Heap<T>, o: ObjId, key: &Key) -> T
    requires { o.0 < length heap.now }
    ensures { IsTest key.now (slice_get heap.now o.0) result }
{
    match heap.own(o, key) {
        None => heap.shape(o).structure,
        Some(slot) => slot.existence,
    }
}

/// A label, and that of the own test.
pub(crate) fn place_of<T: Copy, L: Labels<Label = T>>(
    labels: &mut L,
    heap: &Heap<T>,
    o: ObjId,
    key: &Key,
    label: T,
) -> Result<T, OutOfMemory>
    requires there { o.0 < length heap.now }
    requires label { L.made labels.old label }
    requires belongs { HasHeap (L.made labels.old) heap.now }
    ensures means { IfOk result (λ place. Means L.made L.meaning labels.new place (λ reading. union (reading label) (own_walk key.now (option_map (read_object reading) (slice_get heap.now o.0))))) }
    ensures kept { IsKept L.made L.meaning L.room L.firm labels.old labels.new }
{
    let test = own_test(heap, o, key);
    let place = join(labels, label, test)?;
    Ok(place)
}

/// A label, and that of the own test of a definition: that an array hasn't an element depends on its `length` too (ECMA-262 15.4.5.1, step 4.b). Beside it whether
/// the object may get such a property.
pub(crate) fn place_of_definition<T: Copy, L: Labels<Label = T>>(
    labels: &mut L,
    heap: &Heap<T>,
    o: ObjId,
    key: &Key,
    label: T,
) -> Result<(T, bool), OutOfMemory>
    requires there { o.0 < length heap.now }
    requires label { L.made labels.old label }
    requires belongs { HasHeap (L.made labels.old) heap.now }
    ensures means { IfOk result (λ r. Means L.made L.meaning labels.new r.0 (λ reading. union (reading label) (test_of_definition reading key.now (slice_get heap.now o.0)))) }
    ensures allowed { own_in key.now (slice_get heap.now o.0) ≡ None → IfOk result (λ r. r.1 ≡ may_add_in key.now (slice_get heap.now o.0)) }
    ensures kept { IsKept L.made L.meaning L.room L.firm labels.old labels.new }
{
    let place = place_of(labels, heap, o, key, label)?;
    let shape = heap.shape(o);
    if heap.own(o, key).is_some() {
        return Ok((place, shape.extensible));
    }
    let Some(i) = element_of(shape.class, key.text()) else {
        return Ok((place, shape.extensible));
    };
    let room = room_for(heap, labels, o, i)?;
    let joined = join(labels, place, room.label)?;
    Ok((joined, both(shape.extensible, room.allowed)))
}

/// Whether both are true.
fn both(first: bool, second: bool) -> bool
    ensures { result ≡ (first && second) }
{
    first && second
}

/// Undefined, with a label.
pub(crate) fn undefined<T>(label: T) -> Labelled<T>
    ensures { result ≡ nothing label }
{
    Labelled {
        value: Value::Primitive(Primitive::Undefined),
        label,
    }
}
