//! New objects.

ghost use Rattle.std.specs.Prelude.{◌≡◌, ◌<◌, ◌≤◌, IfOk, IfSome, length};
ghost use Rattle.std.specs.Option.{is_some, option_map};
ghost use Rattle.origin_labels.specs.Stores.{IsKept};
ghost use Rattle.flow_policy.specs.Policies.{Tables};
ghost use Rattle.flow_policy.specs.Inputs.{Given};
ghost use Rattle.js_values.specs.Readings.{HasHeap, HasValue, read_value};
ghost use Rattle.es_meaning.specs.Operations as operations;
ghost use Rattle.es_meaning.specs.Requested.{class_prototype, prototype_given};
ghost use Rattle.flow_meaning.specs.Tracked.{act, make_new};
ghost use Rattle.run_state.specs.Acts.{Acts, HasAnswer};
ghost use Rattle.run_state.specs.Worlds.{Belongs, Grows};
ghost use Rattle.property_requests.specs.Defining.{HasGiven};
ghost use Rattle.property_requests.specs.Making.{MakesOf, arguments_of, standing_in};

use crate::arrays::{ARRAY_PROTOTYPE, make_empty};
use crate::parts::join;
use flow_frames::FlowFault;
use flow_text::OutOfMemory;
use js_number::Primitive;
use js_values::{Class, Inner, Labelled, ObjId, Value};
use object_heap::Heap;
use origin_labels::Labels;
use run_state::{Outcome, World};
use std::alloc::Global;

/// Object.prototype, with which a run starts (ECMA-262 15.2.4).
const OBJECT_PROTOTYPE: ObjId = ObjId(0);

/// String.prototype (ECMA-262 15.5.4).
const STRING_PROTOTYPE: ObjId = ObjId(15);

/// Error.prototype (ECMA-262 15.11.4).
const ERROR_PROTOTYPE: ObjId = ObjId(2);

/// Function.prototype (ECMA-262 15.3.4).
const FUNCTION_PROTOTYPE: ObjId = ObjId(9);

/// Boolean.prototype (ECMA-262 15.6.4).
const BOOLEAN_PROTOTYPE: ObjId = ObjId(10);

/// Number.prototype (ECMA-262 15.7.4).
const NUMBER_PROTOTYPE: ObjId = ObjId(11);

/// Makes an object of a class, with the prototype that a value gives, or else with that of the class. Its link depends on the value besides the present
/// context. An array has a `length` of 0.
pub fn new_object<T: Copy, L: Labels<Label = T>>(
    alloc: Global,
    labels: &mut L,
    world: &mut World<T>,
    class: Class,
    proto: Option<Labelled<T>>,
) -> Result<Outcome<Labelled<T>, T>, FlowFault<T>>
    requires proto { HasGiven (L.made labels.old) proto }
    requires belongs { Belongs L.made L.meaning labels.old world.old }
    ensures acts { (tables : Tables) (inputs : Given) → Acts L.made L.meaning labels.new (λ reading. read_value reading) (λ reading. act tables inputs (operations.new_object class (is_some proto)) (arguments_of reading proto)) world.old world.new result }
    ensures made { HasAnswer (HasValue (L.made labels.new)) (L.made labels.new) result }
    ensures belongs { Belongs L.made L.meaning labels.new world.new }
    ensures grows { Grows world.old world.new }
    ensures kept { IsKept L.made L.meaning L.room L.firm labels.old labels.new }
{
    match proto {
        None => {
            let none = labels.bottom();
            let proto = Some(class_prototype(class));
            make(alloc, labels, world, class, proto, none)
        }
        Some(v) => {
            let proto = standing(&world.heap, prototype_given(&v.value));
            make(alloc, labels, world, class, proto, v.label)
        }
    }
}

/// The prototype of a new object of a class (ECMA-262 15.2.2.1, 15.2.3.5).
fn class_prototype(class: Class) -> ObjId
    ensures { result ≡ class_prototype class }
{
    match class {
        Class::Function => FUNCTION_PROTOTYPE,
        Class::Array => ARRAY_PROTOTYPE,
        Class::String => STRING_PROTOTYPE,
        Class::Error => ERROR_PROTOTYPE,
        Class::Boolean => BOOLEAN_PROTOTYPE,
        Class::Number => NUMBER_PROTOTYPE,
        _ => OBJECT_PROTOTYPE,
    }
}

/// The prototype that a value gives: none where it is null, and Object.prototype where it is another primitive value.
fn prototype_given(value: &Value) -> Option<ObjId>
    ensures { result ≡ prototype_given value.now }
{
    match value {
        Value::Primitive(Primitive::Null) => None,
        Value::Primitive(_) => Some(OBJECT_PROTOTYPE),
        Value::Object(o) => Some(*o),
    }
}

/// A prototype that stands in the heap, and else Object.prototype.
fn standing<T: Copy>(heap: &Heap<T>, o: Option<ObjId>) -> Option<ObjId>
    requires { 0 < length heap.now }
    ensures is { result ≡ option_map (standing_in heap.now) o }
    ensures there { IfSome result (λ p. p.0 < length heap.now) }
{
    match o {
        Some(p) if p.0 >= heap.len() => Some(OBJECT_PROTOTYPE),
        _ => o,
    }
}

/// Makes an object with this prototype, where the label is that of what gave it.
fn make<T: Copy, L: Labels<Label = T>>(
    alloc: Global,
    labels: &mut L,
    world: &mut World<T>,
    class: Class,
    proto: Option<ObjId>,
    label: T,
) -> Result<Outcome<Labelled<T>, T>, FlowFault<T>>
    requires proto { IfSome proto (λ o. o.0 < length world.old.heap) }
    requires label { L.made labels.old label }
    requires belongs { Belongs L.made L.meaning labels.old world.old }
    ensures acts { Acts L.made L.meaning labels.new (λ reading. read_value reading) (λ reading. make_new class proto (reading label)) world.old world.new result }
    ensures made { HasAnswer (HasValue (L.made labels.new)) (L.made labels.new) result }
    ensures belongs { Belongs L.made L.meaning labels.new world.new }
    ensures grows { Grows world.old world.new }
    ensures kept { IsKept L.made L.meaning L.room L.firm labels.old labels.new }
{
    let context = world.frames.context(labels);
    let link = join(labels, context, label)?;
    let o = make_of(alloc, labels, &mut world.heap, class, context, link, proto)?;
    Ok(Outcome::Goes(Labelled {
        value: Value::Object(o),
        label: labels.bottom(),
    }))
}

/// Makes an object of a class in the context, with this link and prototype. An array has a `length` of 0.
fn make_of<T: Copy, L: Labels<Label = T>>(
    alloc: Global,
    labels: &mut L,
    heap: &mut Heap<T>,
    class: Class,
    context: T,
    link: T,
    proto: Option<ObjId>,
) -> Result<ObjId, OutOfMemory>
    requires proto { IfSome proto (λ o. o.0 < length heap.old) }
    requires context { L.made labels.old context }
    requires link { L.made labels.old link }
    requires belongs { HasHeap (L.made labels.old) heap.old }
    ensures makes { IfOk result (λ o. MakesOf L.made L.meaning labels.new context link class proto heap.old heap.new) }
    ensures number { IfOk result (λ o. o.0 ≡ length heap.old) }
    ensures longer { length heap.old ≤ length heap.new }
    ensures belongs { HasHeap (L.made labels.new) heap.new }
    ensures kept { IsKept L.made L.meaning L.room L.firm labels.old labels.new }
{
    match class {
        Class::Array => make_empty(alloc, labels, heap, context, link, proto, 0),
        _ => heap.new_object(class, proto, link, context, Inner::Plain),
    }
}
