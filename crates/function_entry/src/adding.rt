//! Properties that an object gets while it is made.

ghost use Rattle.std.specs.Prelude.{◌≡◌, ◌<◌, OnOk, length};
ghost use Rattle.js_values.specs.Readings.{HasHeap};
ghost use Rattle.object_heap.specs.Acts.{give};
ghost use Rattle.es_meaning.specs.Start.{fixed_accessor};
ghost use Rattle.plain_heap.specs.PlainObjects.{slot_with};
ghost use Rattle.function_entry.specs.Making.{count_body};

use flow_text::OutOfMemory;
use js_number::{Int, Num, Primitive};
use js_values::{Body, Key, Marks, ObjId, Slot, Value};
use object_heap::Heap;
use origin_labels::Labels;
use plain_heap::FIXED;
use std::alloc::Global;

/// A property that holds a number.
pub(crate) fn count_body(n: u32) -> Body
    ensures { result ≡ count_body n }
{
    let count = Int::new(i64::from(n)).unwrap();
    Body::Data(Value::Primitive(Primitive::Num(Num::Int(count))))
}

/// Gives an object that was made in the context a property, which depends on that alone.
pub(crate) fn give<T: Copy, L: Labels<Label = T>>(
    alloc: Global,
    _labels: &L,
    heap: &mut Heap<T>,
    o: ObjId,
    context: T,
    key: &Key,
    body: Body,
    marks: Marks,
) -> Result<(), OutOfMemory>
    requires there { o.0 < length heap.old }
    requires context { L.made _labels.now context }
    requires belongs { HasHeap (L.made _labels.now) heap.old }
    ensures gives { OnOk result (heap.new ≡ give o.0 key.now (slot_with context (record { body = body; marks = marks })) heap.old) }
    ensures length { length heap.new ≡ length heap.old }
    ensures belongs { HasHeap (L.made _labels.now) heap.new }
{
    let key = key.copy(alloc)?;
    let slot = Slot {
        body,
        label: context,
        existence: context,
        marks,
    };
    heap.give(o, key, slot)?;
    Ok(())
}

/// The same of an accessor that is its own getter and setter, and can't be changed.
pub(crate) fn give_accessor<T: Copy, L: Labels<Label = T>>(
    alloc: Global,
    labels: &L,
    heap: &mut Heap<T>,
    o: ObjId,
    context: T,
    key: &Key,
    accessor: ObjId,
) -> Result<(), OutOfMemory>
    requires there { o.0 < length heap.old }
    requires context { L.made labels.now context }
    requires belongs { HasHeap (L.made labels.now) heap.old }
    ensures gives { OnOk result (heap.new ≡ give o.0 key.now (slot_with context (fixed_accessor accessor)) heap.old) }
    ensures length { length heap.new ≡ length heap.old }
    ensures belongs { HasHeap (L.made labels.now) heap.new }
{
    let body = Body::Accessor {
        get: Some(accessor),
        set: Some(accessor),
    };
    give(alloc, labels, heap, o, context, key, body, FIXED)
}
