//! The walk from an object along its prototypes.

ghost use Rattle.std.specs.Prelude.{◌≡◌, ◌<◌, true, IfOk, IsOk, length};
ghost use Rattle.std.specs.Option.{option_map};
ghost use Rattle.origin_labels.specs.Label.{union};
ghost use Rattle.origin_labels.specs.Stores.{IsKept};
ghost use Rattle.js_values.specs.Readings.{HasHeap};
ghost use Rattle.prototype_walk.specs.Answers.{Means, IsPlace, IsFound};

use crate::found::Found;
use flow_text::{OutOfMemory, Text};
use js_values::{Key, ObjId, Slot};
use object_heap::{Heap, Shape};
use origin_labels::Labels;

/// The object with the property that the key names: the first one of the object and its prototypes that has it. The label is that of the walk: the structure and
/// the link of each object before it, and its existence.
pub fn find<T: Copy, L: Labels<Label = T>>(
    heap: &Heap<T>,
    labels: &mut L,
    o: ObjId,
    key: &Key,
) -> Result<Found<T>, OutOfMemory>
    requires there { o.0 < length heap.now }
    requires belongs { HasHeap (L.made labels.old) heap.now }
    ensures found { IfOk result (IsFound L.made L.meaning labels.new heap.now o.0 key.now) }
    ensures kept { IsKept L.made L.meaning L.room L.firm labels.old labels.new }
    ensures firm { L.firm labels.old ≡ true → IsOk result }
{
    find_named(heap, labels, o, key.text())
}

/// The same for the key of a text.
pub fn find_named<T: Copy, L: Labels<Label = T>>(
    heap: &Heap<T>,
    labels: &mut L,
    o: ObjId,
    name: &Text,
) -> Result<Found<T>, OutOfMemory>
    requires there { o.0 < length heap.now }
    requires belongs { HasHeap (L.made labels.old) heap.now }
    ensures found { IfOk result (IsFound L.made L.meaning labels.new heap.now o.0 name.now) }
    ensures kept { IsKept L.made L.meaning L.room L.firm labels.old labels.new }
    ensures firm { L.firm labels.old ≡ true → IsOk result }
{
    let (place, walk) = find_slot_named(heap, labels, o, name)?;
    let at = place.map(|(at, _)| at);
    Ok(Found { at, walk })
}

/// The property that the key of a text names with the object that has it, and the label of the walk to it.
pub fn find_slot_named<'h, T: Copy, L: Labels<Label = T>>(
    heap: &'h Heap<T>,
    labels: &mut L,
    o: ObjId,
    name: &Text,
) -> Result<(Option<(ObjId, &'h Slot<T>)>, T), OutOfMemory>
    requires there { o.0 < length heap.now }
    requires belongs { HasHeap (L.made labels.old) heap.now }
    ensures place { IfOk result (λ r. IsPlace L.made L.meaning labels.new heap.now o.0 name.now (option_map (λ f. (f.0, f.1.now)) r.0) r.1) }
    ensures kept { IsKept L.made L.meaning L.room L.firm labels.old labels.new }
    ensures firm { L.firm labels.old ≡ true → IsOk result }
{
    // Its clause says that each prototype's number is below its object's, so that the walk ends.
    let count = heap.len();
    prove!(o.0 < count);
    let mut at = o;
    let mut walk = labels.bottom();
    'along: loop {
        if let Some(slot) = heap.own_named(at, name) {
            let walk = join(labels, walk, slot.existence)?;
            return Ok((Some((at, slot)), walk));
        }
        let shape = heap.shape(at);
        walk = pass(labels, walk, shape)?;
        match shape.proto {
            Some(proto) => at = proto,
            None => return Ok((None, walk)),
        }
    }
}

/// The union of two labels.
pub(crate) fn join<T: Copy, L: Labels<Label = T>>(
    labels: &mut L,
    a: T,
    b: T,
) -> Result<T, OutOfMemory>
    requires first { L.made labels.old a }
    requires second { L.made labels.old b }
    ensures means { IfOk result (λ label. Means L.made L.meaning labels.new label (λ reading. union (reading a) (reading b))) }
    ensures kept { IsKept L.made L.meaning L.room L.firm labels.old labels.new }
    ensures firm { L.firm labels.old ≡ true → IsOk result }
{
    labels.join(a, b)
}

/// The label of a walk that passes an object: with the object's structure and its link.
pub(crate) fn pass<T: Copy, L: Labels<Label = T>>(
    labels: &mut L,
    walk: T,
    shape: Shape<T>,
) -> Result<T, OutOfMemory>
    requires walk { L.made labels.old walk }
    requires structure { L.made labels.old shape.structure }
    requires link { L.made labels.old shape.link }
    ensures means { IfOk result (λ label. Means L.made L.meaning labels.new label (λ reading. union (union (reading walk) (reading shape.structure)) (reading shape.link))) }
    ensures kept { IsKept L.made L.meaning L.room L.firm labels.old labels.new }
    ensures firm { L.firm labels.old ≡ true → IsOk result }
{
    let passed = labels.join(walk, shape.structure)?;
    labels.join(passed, shape.link)
}
