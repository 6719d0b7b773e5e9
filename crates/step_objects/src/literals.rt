//! The objects of literals.

ghost use Rattle.std.specs.Prelude.{◌≡◌, ◌<◌, List, [], None, IsSome, length, slice_get, IfErr, IfOk, OnOk};
ghost use Rattle.std.specs.List.{All};
ghost use Rattle.origin_labels.specs.Stores.{IsKept};
ghost use Rattle.flow_frames.specs.declared.faults.FlowFault.TheVariants as fault;
ghost use Rattle.flow_policy.specs.Policies.{Tables};
ghost use Rattle.flow_policy.specs.Inputs.{Given};
ghost use Rattle.js_values.specs.Objects.{Object};
ghost use Rattle.js_values.specs.Readings.{HasHeap, HasValue, read_value};
ghost use Rattle.object_heap.specs.Formed.{own_in};
ghost use Rattle.prototype_walk.specs.Answers.{Means};
ghost use Rattle.es_meaning.specs.Definitions.{getter_in, setter_in};
ghost use Rattle.es_meaning.specs.Operations as operations;
ghost use Rattle.es_meaning.specs.Requested.{function_in, part_body, part_marks};
ghost use Rattle.flow_meaning.specs.Tracked.{act};
ghost use Rattle.run_state.specs.Acts.{Acts, HasAnswer};
ghost use Rattle.run_state.specs.Worlds.{Belongs, Grows};
ghost use Rattle.step_objects.specs.Literals.{Does, IsLiteral, body_over, defined_on, keys_in, kind_of, label_over, redefined, values_in};

use crate::parts::join;
use flow_frames::FlowFault;
use flow_text::OutOfMemory;
use js_values::{Body, Class, Inner, Key, Labelled, Marks, ObjId, Value};
use object_heap::Heap;
use origin_labels::Labels;
use run_state::{Outcome, World};

/// Object.prototype, with which a run starts (ECMA-262 15.2.4).
const OBJECT_PROTOTYPE: ObjId = ObjId(0);

/// The attributes of a property that a literal makes (ECMA-262 11.1.5). An accessor can't be written.
const MADE_BY_SCRIPT: Marks = Marks {
    writable: true,
    enumerable: true,
    configurable: true,
};

const ACCESSOR_BY_SCRIPT: Marks = Marks {
    writable: false,
    enumerable: true,
    configurable: true,
};

/// What a part of an object literal gives the object under its key (ECMA-262 11.1.5): a value, a getter or a setter.
#[derive(Clone, Copy, Debug, PartialEq, Eq)]
pub enum Part {
    Value,
    Getter,
    Setter,
}

/// A part of an object literal: its key, and the value that was evaluated, which is a function for a getter and a setter.
#[derive(Drop)]
pub struct LiteralPart<T> {
    pub part: Part,
    pub key: Key,
    pub value: Labelled<T>,
}

/// The object of a literal (ECMA-262 11.1.5), made in the present context. Of equal keys the first one has the place, and the last one the value; a getter and a
/// setter of one key are the halves of one property.
pub fn make_object<T: Copy, L: Labels<Label = T>>(
    labels: &mut L,
    world: &mut World<T>,
    parts: Vec<LiteralPart<T>>,
) -> Result<Outcome<Labelled<T>, T>, FlowFault<T>>
    requires parts { All (λ p. HasValue (L.made labels.old) p.value) parts.items }
    requires belongs { Belongs L.made L.meaning labels.old world.old }
    ensures acts { (tables : Tables) (inputs : Given) → Acts L.made L.meaning labels.new (λ reading. read_value reading) (λ reading. act tables inputs (operations.object_of (keys_in parts.items)) (values_in reading parts.items)) world.old world.new result }
    ensures made { HasAnswer (HasValue (L.made labels.new)) (L.made labels.new) result }
    ensures belongs { Belongs L.made L.meaning labels.new world.new }
    ensures grows { Grows world.old world.new }
    ensures kept { IsKept L.made L.meaning L.room L.firm labels.old labels.new }
{
    let context = world.frames.context(labels);
    let proto = Some(OBJECT_PROTOTYPE);
    let heap = &mut world.heap;
    let o = heap.new_object(Class::Object, proto, context, context, Inner::Plain)?;
    define_all(labels, heap, o, context, parts)?;
    Ok(Outcome::Goes(Labelled {
        value: Value::Object(o),
        label: labels.bottom(),
    }))
}

/// Defines the properties of a literal one after the other. No rule stops that.
fn define_all<T: Copy, L: Labels<Label = T>>(
    labels: &mut L,
    heap: &mut Heap<T>,
    o: ObjId,
    context: T,
    parts: Vec<LiteralPart<T>>,
) -> Result<(), FlowFault<T>>
    requires there { o.0 < length heap.old }
    requires context { L.made labels.old context }
    requires parts { All (λ p. HasValue (L.made labels.old) p.value) parts.items }
    requires belongs { HasHeap (L.made labels.old) heap.old }
    ensures literal { (before : List (Object T)) → o.0 ≡ length before → IsLiteral L.made L.meaning labels.old before heap.old context [] → OnOk result (IsLiteral L.made L.meaning labels.new before heap.new context parts.items) }
    ensures memory { (before : List (Object T)) → o.0 ≡ length before → IsLiteral L.made L.meaning labels.old before heap.old context [] → IfErr result (λ f. f ≡ fault.OutOfMemory) }
    ensures length { length heap.new ≡ length heap.old }
    ensures belongs { HasHeap (L.made labels.new) heap.new }
    ensures kept { IsKept L.made L.meaning L.room L.firm labels.old labels.new }
{
    for part in parts {
        define(labels, heap, o, context, part)?;
    }
    Ok(())
}

/// Gives an object the property of a part, whether it had one of the key or not.
fn define<T: Copy, L: Labels<Label = T>>(
    labels: &mut L,
    heap: &mut Heap<T>,
    o: ObjId,
    context: T,
    part: LiteralPart<T>,
) -> Result<(), FlowFault<T>>
    requires there { o.0 < length heap.old }
    requires context { L.made labels.old context }
    requires value { L.made labels.old part.value.label }
    requires belongs { HasHeap (L.made labels.old) heap.old }
    ensures does { Does L.made L.meaning labels.new (λ reading. defined_on o.0 (kind_of part.part) part.key (reading context) (read_value reading part.value)) heap.old heap.new result }
    ensures length { length heap.new ≡ length heap.old }
    ensures belongs { HasHeap (L.made labels.new) heap.new }
    ensures kept { IsKept L.made L.meaning L.room L.firm labels.old labels.new }
{
    let kind = part.part;
    let key = part.key;
    let value = part.value;
    let marks = marks_of(kind);
    let Some(slot) = heap.own(o, &key) else {
        let body = body_of(kind, value.value);
        return heap.add(labels, o, key, context, body, value.label, marks);
    };
    let body = body_over(kind, &slot.body, value.value);
    let label = label_over(labels, kind, value.label, slot.label)?;
    redefine(labels, heap, o, &key, context, marks, body, label)
}

/// Gives a property that is there other attributes and another body.
fn redefine<T: Copy, L: Labels<Label = T>>(
    labels: &mut L,
    heap: &mut Heap<T>,
    o: ObjId,
    key: &Key,
    context: T,
    marks: Marks,
    body: Body,
    label: T,
) -> Result<(), FlowFault<T>>
    requires present { IsSome (own_in key.now (slice_get heap.old o.0)) }
    requires context { L.made labels.old context }
    requires label { L.made labels.old label }
    requires belongs { HasHeap (L.made labels.old) heap.old }
    ensures does { Does L.made L.meaning labels.new (λ reading. redefined o.0 key.now (reading context) marks body (reading label)) heap.old heap.new result }
    ensures length { length heap.new ≡ length heap.old }
    ensures belongs { HasHeap (L.made labels.new) heap.new }
    ensures kept { IsKept L.made L.meaning L.room L.firm labels.old labels.new }
{
    heap.set_attributes(labels, o, key, context, marks)?;
    heap.set_body(labels, o, key, context, body, label)
}

/// The attributes of a property that a part makes.
fn marks_of(part: Part) -> Marks
    ensures { result ≡ part_marks (kind_of part) }
{
    match part {
        Part::Value => MADE_BY_SCRIPT,
        Part::Getter | Part::Setter => ACCESSOR_BY_SCRIPT,
    }
}

/// What a property holds that a part makes.
fn body_of(part: Part, value: Value) -> Body
    ensures { result ≡ part_body (kind_of part) None value }
{
    match part {
        Part::Value => Body::Data(value),
        Part::Getter => Body::Accessor {
            get: function_in(&value),
            set: None,
        },
        Part::Setter => Body::Accessor {
            get: None,
            set: function_in(&value),
        },
    }
}

/// What a property holds behind a part that had this body: the other half of an accessor stays.
fn body_over(part: Part, old: &Body, value: Value) -> Body
    ensures { result ≡ body_over (kind_of part) old.now value }
{
    match part {
        Part::Value => Body::Data(value),
        Part::Getter => Body::Accessor {
            get: function_in(&value),
            set: setter_in(old),
        },
        Part::Setter => Body::Accessor {
            get: getter_in(old),
            set: function_in(&value),
        },
    }
}

/// The function that a value is.
fn function_in(value: &Value) -> Option<ObjId>
    ensures { result ≡ function_in value.now }
{
    match value {
        Value::Primitive(_) => None,
        Value::Object(o) => Some(*o),
    }
}

/// The getter of what a property holds.
fn getter_in(body: &Body) -> Option<ObjId>
    ensures { result ≡ getter_in body.now }
{
    match body {
        Body::Data(_) => None,
        Body::Accessor { get, .. } => *get,
    }
}

/// The setter of what a property holds.
fn setter_in(body: &Body) -> Option<ObjId>
    ensures { result ≡ setter_in body.now }
{
    match body {
        Body::Data(_) => None,
        Body::Accessor { set, .. } => *set,
    }
}

/// The value label of a property behind a part: a getter or a setter has that of the property besides.
fn label_over<T: Copy, L: Labels<Label = T>>(
    labels: &mut L,
    part: Part,
    given: T,
    old: T,
) -> Result<T, OutOfMemory>
    requires given { L.made labels.old given }
    requires old { L.made labels.old old }
    ensures means { IfOk result (λ label. Means L.made L.meaning labels.new label (λ reading. label_over (kind_of part) (reading given) (reading old))) }
    ensures kept { IsKept L.made L.meaning L.room L.firm labels.old labels.new }
{
    match part {
        Part::Value => Ok(given),
        Part::Getter => join(labels, given, old),
        Part::Setter => join(labels, given, old),
    }
}
