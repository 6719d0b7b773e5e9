//! Whether an array has room for an element that it hasn't.

ghost use Rattle.std.specs.Prelude.{◌≡◌, ◌<◌, true, Some, IfOk, IsOk, length, slice_get};
ghost use Rattle.std.specs.Option.{option_map};
ghost use Rattle.origin_labels.specs.Stores.{IsKept};
ghost use Rattle.js_values.specs.Arrays.{element_label, length_key};
ghost use Rattle.js_values.specs.Readings.{HasHeap, HasSlot, read_slot};
ghost use Rattle.object_heap.specs.Formed.{own_in};
ghost use Rattle.prototype_walk.specs.Answers.{Means};
ghost use Rattle.prototype_walk.specs.Plans.{gets_element};

use crate::walk::join;
use flow_text::OutOfMemory;
use js_values::{ObjId, Slot, allows_element};
use object_heap::Heap;
use origin_labels::Labels;

/// Whether an element may be added beside the `length` of an array (ECMA-262 15.4.5.1, step 4.b), and the label of `length` on which that depends.
#[derive(Clone, Copy)]
pub struct Room<T> {
    pub allowed: bool,
    pub label: T,
}

/// The room that an array has for an element that it hasn't.
pub fn room_for<T: Copy, L: Labels<Label = T>>(
    heap: &Heap<T>,
    labels: &mut L,
    o: ObjId,
    i: u32,
) -> Result<Room<T>, OutOfMemory>
    requires there { o.0 < length heap.now }
    requires belongs { HasHeap (L.made labels.old) heap.now }
    ensures allowed { IfOk result (λ room. room.allowed ≡ gets_element (Some i) (own_in length_key (slice_get heap.now o.0))) }
    ensures label { IfOk result (λ room. Means L.made L.meaning labels.new room.label (λ reading. element_label (Some i) (option_map (read_slot reading) (own_in length_key (slice_get heap.now o.0))))) }
    ensures kept { IsKept L.made L.meaning L.room L.firm labels.old labels.new }
    ensures firm { L.firm labels.old ≡ true → IsOk result }
{
    match heap.length(o) {
        Some(slot) => room_beside(labels, slot, i),
        None => Ok(Room {
            allowed: true,
            label: labels.bottom(),
        }),
    }
}

/// The room beside this `length`. That it can be written depends on its existence label, and what it is on its value label besides.
fn room_beside<T: Copy, L: Labels<Label = T>>(
    labels: &mut L,
    slot: &Slot<T>,
    i: u32,
) -> Result<Room<T>, OutOfMemory>
    requires { HasSlot (L.made labels.old) slot.now }
    ensures allowed { IfOk result (λ room. room.allowed ≡ gets_element (Some i) (Some slot.now)) }
    ensures label { IfOk result (λ room. Means L.made L.meaning labels.new room.label (λ reading. element_label (Some i) (Some (read_slot reading slot.now)))) }
    ensures kept { IsKept L.made L.meaning L.room L.firm labels.old labels.new }
    ensures firm { L.firm labels.old ≡ true → IsOk result }
{
    let allowed = allows_element(i, slot.marks, &slot.body);
    if slot.marks.writable {
        return Ok(Room {
            allowed,
            label: slot.existence,
        });
    }
    let label = join(labels, slot.existence, slot.label)?;
    Ok(Room { allowed, label })
}
