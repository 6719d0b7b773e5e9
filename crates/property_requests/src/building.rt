//! Objects that are made with properties, one after the other.

ghost use Rattle.std.specs.Prelude.{◌≡◌, ◌<◌, None, OnOk, length, slice_get};
ghost use Rattle.origin_labels.specs.Stores.{IsKept};
ghost use Rattle.js_values.specs.Readings.{HasHeap};
ghost use Rattle.object_heap.specs.Formed.{own_in};
ghost use Rattle.property_requests.specs.Building.{Adds, IsOpenFor};

use flow_frames::FlowFault;
use flow_text::OutOfMemory;
use js_values::{Body, Key, Marks, ObjId};
use object_heap::Heap;
use origin_labels::Labels;

/// Adds a property to an object that was made in the context, which has none of this key. No flow rule stops that.
pub fn add_row<T: Copy, L: Labels<Label = T>>(
    labels: &mut L,
    heap: &mut Heap<T>,
    o: ObjId,
    context: T,
    key: Key,
    body: Body,
    label: T,
    marks: Marks,
) -> Result<(), OutOfMemory>
    requires there { o.0 < length heap.old }
    requires absent { own_in key (slice_get heap.old o.0) ≡ None }
    requires opened { IsOpenFor L.made L.meaning labels.old heap.old o.0 key context }
    requires context { L.made labels.old context }
    requires label { L.made labels.old label }
    requires belongs { HasHeap (L.made labels.old) heap.old }
    ensures adds { OnOk result (Adds L.made L.meaning labels.new context o.0 key body label marks heap.old heap.new) }
    ensures length { length heap.new ≡ length heap.old }
    ensures belongs { HasHeap (L.made labels.new) heap.new }
    ensures kept { IsKept L.made L.meaning L.room L.firm labels.old labels.new }
{
    match heap.add(labels, o, key, context, body, label, marks) {
        Ok(()) => Ok(()),
        Err(FlowFault::OutOfMemory) => Err(OutOfMemory),
        Err(FlowFault::Stop(_)) => unreachable!(),
    }
}
