//! What a put does.

ghost use Rattle.std.specs.Prelude.{◌≡◌, ◌<◌, ◌&&◌, true, IfOk, IfSome, IsOk, length};
ghost use Rattle.std.specs.Option.{option_map};
ghost use Rattle.origin_labels.specs.Stores.{IsKept};
ghost use Rattle.js_values.specs.Readings.{HasHeap, read_heap, read_slot};
ghost use Rattle.js_values.specs.Walks.{object_chain};
ghost use Rattle.prototype_walk.specs.Plans.{beyond_plan, can_put, own_plan, inherited_plan, setter_plan};
ghost use Rattle.prototype_walk.specs.Answers.{IsPlan};

use crate::plan::PutPlan;
use crate::room::room_for;
use crate::walk::{find_slot_named, join};
use flow_text::{OutOfMemory, Text};
use js_values::{Body, Key, ObjId, Slot, element_of};
use object_heap::Heap;
use origin_labels::Labels;

/// What a put of the key does, by the property that the walk finds, by whether the object is extensible, and for a new element of an array by its `length`.
pub fn can_put<T: Copy, L: Labels<Label = T>>(
    heap: &Heap<T>,
    labels: &mut L,
    o: ObjId,
    key: &Key,
) -> Result<PutPlan<T>, OutOfMemory>
    requires there { o.0 < length heap.now }
    requires belongs { HasHeap (L.made labels.old) heap.now }
    ensures plan { IfOk result (IsPlan L.made L.meaning labels.new (λ reading. can_put key.now (object_chain (read_heap reading heap.now) o.0))) }
    ensures kept { IsKept L.made L.meaning L.room L.firm labels.old labels.new }
    ensures firm { L.firm labels.old ≡ true → IsOk result }
{
    can_put_named(heap, labels, o, key.text())
}

/// The same for the key of a text.
pub fn can_put_named<T: Copy, L: Labels<Label = T>>(
    heap: &Heap<T>,
    labels: &mut L,
    o: ObjId,
    name: &Text,
) -> Result<PutPlan<T>, OutOfMemory>
    requires there { o.0 < length heap.now }
    requires belongs { HasHeap (L.made labels.old) heap.now }
    ensures plan { IfOk result (IsPlan L.made L.meaning labels.new (λ reading. can_put name.now (object_chain (read_heap reading heap.now) o.0))) }
    ensures kept { IsKept L.made L.meaning L.room L.firm labels.old labels.new }
    ensures firm { L.firm labels.old ≡ true → IsOk result }
{
    let count = heap.len();
    prove!(o.0 < count);
    if let Some(slot) = heap.own_named(o, name) {
        return plan_own(labels, o, slot);
    }
    let (place, walk) = find_slot_named(heap, labels, o, name)?;
    let shape = heap.shape(o);
    let Some(i) = element_of(shape.class, name) else {
        return plan_beyond(labels, shape.extensible, place, walk);
    };
    let room = room_for(heap, labels, o, i)?;
    let joined = join(labels, walk, room.label)?;
    plan_beyond(labels, both(shape.extensible, room.allowed), place, joined)
}

/// Whether both are true.
fn both(first: bool, second: bool) -> bool
    ensures { result ≡ (first && second) }
{
    first && second
}

/// What is allowed where the object itself has no such property: an addition, by what its prototypes have.
fn plan_beyond<T: Copy, L: Labels<Label = T>>(
    labels: &mut L,
    allowed: bool,
    place: Option<(ObjId, &Slot<T>)>,
    walk: T,
) -> Result<PutPlan<T>, OutOfMemory>
    requires walk { L.made labels.old walk }
    requires place { IfSome place (λ f. L.made labels.old f.1.now.label) }
    ensures plan { IfOk result (IsPlan L.made L.meaning labels.new (λ reading. beyond_plan allowed (option_map (λ f. (f.0.0, read_slot reading f.1.now)) place.entry) (reading walk))) }
    ensures kept { IsKept L.made L.meaning L.room L.firm labels.old labels.new }
    ensures firm { L.firm labels.old ≡ true → IsOk result }
{
    match place {
        Some((at, slot)) => plan_inherited(labels, allowed, at, slot, walk),
        None if allowed => Ok(PutPlan::Add { walk }),
        None => Ok(PutPlan::Refused { walk }),
    }
}

/// What a property of the object itself allows.
fn plan_own<T: Copy, L: Labels<Label = T>>(
    labels: &mut L,
    o: ObjId,
    slot: &Slot<T>,
) -> Result<PutPlan<T>, OutOfMemory>
    requires label { L.made labels.old slot.now.label }
    requires existence { L.made labels.old slot.now.existence }
    ensures plan { IfOk result (IsPlan L.made L.meaning labels.new (λ reading. own_plan o.0 (read_slot reading slot.now) slot.now.body (reading slot.now.existence))) }
    ensures kept { IsKept L.made L.meaning L.room L.firm labels.old labels.new }
    ensures firm { L.firm labels.old ≡ true → IsOk result }
{
    let walk = slot.existence;
    match &slot.body {
        Body::Accessor { set, .. } => plan_setter(labels, o, *set, slot.label, walk),
        Body::Data(_) if slot.marks.writable => Ok(PutPlan::Write { walk }),
        Body::Data(_) => Ok(PutPlan::Refused { walk }),
    }
}

/// What a property of a prototype allows.
fn plan_inherited<T: Copy, L: Labels<Label = T>>(
    labels: &mut L,
    allowed: bool,
    at: ObjId,
    slot: &Slot<T>,
    walk: T,
) -> Result<PutPlan<T>, OutOfMemory>
    requires label { L.made labels.old slot.now.label }
    requires walk { L.made labels.old walk }
    ensures plan { IfOk result (IsPlan L.made L.meaning labels.new (λ reading. inherited_plan allowed at.0 (read_slot reading slot.now) slot.now.body (reading walk))) }
    ensures kept { IsKept L.made L.meaning L.room L.firm labels.old labels.new }
    ensures firm { L.firm labels.old ≡ true → IsOk result }
{
    match &slot.body {
        Body::Accessor { set, .. } => plan_setter(labels, at, *set, slot.label, walk),
        Body::Data(_) if allowed && slot.marks.writable => Ok(PutPlan::Add { walk }),
        Body::Data(_) => Ok(PutPlan::Refused { walk }),
    }
}

/// What an accessor allows: a call of its setter, if it has one.
fn plan_setter<T: Copy, L: Labels<Label = T>>(
    labels: &mut L,
    at: ObjId,
    set: Option<ObjId>,
    label: T,
    walk: T,
) -> Result<PutPlan<T>, OutOfMemory>
    requires label { L.made labels.old label }
    requires walk { L.made labels.old walk }
    ensures plan { IfOk result (IsPlan L.made L.meaning labels.new (λ reading. setter_plan at.0 set (reading label) (reading walk))) }
    ensures kept { IsKept L.made L.meaning L.room L.firm labels.old labels.new }
    ensures firm { L.firm labels.old ≡ true → IsOk result }
{
    match set {
        Some(_) => Ok(PutPlan::Setter { at, walk }),
        None => {
            let walk = join(labels, walk, label)?;
            Ok(PutPlan::Refused { walk })
        }
    }
}
