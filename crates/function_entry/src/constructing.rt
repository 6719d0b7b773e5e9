//! What `new` makes, and the `prototype` that it takes.

ghost use Rattle.std.specs.Prelude.{◌≡◌, ◌<◌, length, IfOk, OnOk};
ghost use Rattle.origin_labels.specs.Stores.{IsKept};
ghost use Rattle.js_values.specs.Readings.{IsReading, HasValue, read_heap, read_value};
ghost use Rattle.origin_labels.specs.Label.{Label};
ghost use Rattle.flow_meaning.specs.Tracked.{prototype_of, with_fresh};
ghost use Rattle.es_meaning.specs.Definitions.{value_in};
ghost use Rattle.es_meaning.specs.Plain.{object_or_default};
ghost use Rattle.run_state.specs.Worlds.{Belongs, Grows};
ghost use Rattle.function_entry.specs.Changing.{Changes};
ghost use Rattle.function_entry.specs.Making.{standing_in};

use flow_text::OutOfMemory;
use function_table::Functions;
use js_number::Primitive;
use js_values::{Body, Class, Inner, Labelled, ObjId, Value};
use object_heap::Heap;
use origin_labels::Labels;
use plain_heap::OBJECT_PROTOTYPE;
use prototype_walk::find_slot_named;
use run_state::World;
use std::alloc::Global;

// The object that a value is, or the prototype of all objects.
fn object_or_default(value: &Value) -> ObjId
    ensures { result ≡ object_or_default value.now }
{
    match value {
        Value::Primitive(_) => OBJECT_PROTOTYPE,
        Value::Object(o) => *o,
    }
}

// An object that stands in the heap, and else the prototype of all objects.
fn standing<T: Copy>(heap: &Heap<T>, o: ObjId) -> ObjId
    requires { 0 < length heap.now }
    ensures is { result ≡ standing_in heap.now o }
    ensures there { result.0 < length heap.now }
{
    let stands = o.0 < heap.len();
    if stands { o } else { OBJECT_PROTOTYPE }
}

/// Makes an object without properties, whose prototype is this value (ECMA-262 13.2.2). Its link depends on the value besides the present context.
pub fn fresh<T: Copy, L: Labels<Label = T>>(
    labels: &mut L,
    world: &mut World<T>,
    proto: &Labelled<T>,
) -> Result<ObjId, OutOfMemory>
    requires proto { L.made labels.old proto.now.label }
    requires belongs { Belongs L.made L.meaning labels.old world.old }
    ensures makes { OnOk result (Changes L.made L.meaning labels.new (λ reading. with_fresh (read_value reading proto.now)) world.old world.new) }
    ensures number { IfOk result (λ o. o.0 ≡ length world.old.heap) }
    ensures there { IfOk result (λ o. o.0 < length world.new.heap) }
    ensures frames { world.new.frames ≡ world.old.frames }
    ensures records { world.new.records ≡ world.old.records }
    ensures positions { world.new.positions ≡ world.old.positions }
    ensures belongs { Belongs L.made L.meaning labels.new world.new }
    ensures grows { Grows world.old world.new }
    ensures kept { IsKept L.made L.meaning L.room L.firm labels.old labels.new }
{
    let o = standing(&world.heap, object_or_default(&proto.value));
    let context = world.frames.context(labels);
    let link = labels.join(context, proto.label)?;
    let heap = &mut world.heap;
    let made = heap.new_object(Class::Object, Some(o), link, context, Inner::Plain)?;
    Ok(made)
}

// What a body holds, if it is data.
fn value_in(alloc: Global, body: &Body) -> Result<Value, OutOfMemory>
    ensures { IfOk result (λ v. v ≡ value_in body.now) }
{
    match body {
        Body::Data(value) => {
            let value = value.copy(alloc)?;
            Ok(value)
        }
        Body::Accessor { .. } => Ok(Value::Primitive(Primitive::Undefined)),
    }
}

/// The `prototype` of a function. It depends on the walk to it.
pub fn prototype_of<T: Copy, L: Labels<Label = T>>(
    alloc: Global,
    labels: &mut L,
    world: &World<T>,
    functions: &Functions<'_>,
    function: ObjId,
) -> Result<Labelled<T>, OutOfMemory>
    requires { Belongs L.made L.meaning labels.old world.now }
    ensures is { IfOk result (λ v. (reading : T → Label) → IsReading L.made L.meaning labels.new reading → read_value reading v ≡ prototype_of (read_heap reading world.now.heap) function.0) }
    ensures made { IfOk result (HasValue (L.made labels.new)) }
    ensures belongs { Belongs L.made L.meaning labels.new world.now }
    ensures kept { IsKept L.made L.meaning L.room L.firm labels.old labels.new }
{
    let past = function.0 >= world.heap.len();
    if past {
        let none = labels.bottom();
        return Ok(Labelled {
            value: Value::Primitive(Primitive::Undefined),
            label: none,
        });
    }
    let name = functions.keys().prototype().text();
    let (place, walk) = find_slot_named(&world.heap, labels, function, name)?;
    match place {
        Some((_, slot)) => {
            let label = labels.join(walk, slot.label)?;
            let value = value_in(alloc, &slot.body)?;
            Ok(Labelled { value, label })
        }
        None => Ok(Labelled {
            value: Value::Primitive(Primitive::Undefined),
            label: walk,
        }),
    }
}
