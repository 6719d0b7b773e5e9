//! What is shown of a value that an exception took out of the script.

ghost use Rattle.std.specs.Prelude.{◌≡◌, ◌++◌, ◌<◌, ℕ, List, IfOk, codes, length, slice_get};
ghost use Rattle.std.specs.Option.{option_map};
ghost use Rattle.flow_text.specs.Utf8.{units_of};
ghost use Rattle.js_values.specs.Walks.{plain_chain, plain_find};
ghost use Rattle.es_meaning.specs.Start.{class_name, shown, shown_primitive, shown_name, shown_body, shown_found};
ghost use Rattle.flow_meaning.specs.Erased.{erased_heap, erased_slot};

use flow_text::{OutOfMemory, Text};
use js_number::{Primitive, number_to_text, to_text};
use js_values::{Body, Class, Key, ObjId, Slot, Value};
use object_heap::Heap;
use std::alloc::Global;

/// The type and the text of a primitive value; of an object its class, and its name where that is a text.
#[tactic(auto, unfolding(es_meaning::specs::Start::shown))]
pub fn shown_text<T: Copy>(
    alloc: Global,
    heap: &Heap<T>,
    value: &Value,
) -> Result<Text, OutOfMemory>
    ensures { IfOk result (λ t. t ≡ shown (erased_heap heap.now) value.now) }
{
    match value {
        Value::Primitive(p) => shown_primitive(alloc, p),
        Value::Object(o) => shown_object(alloc, heap, *o),
    }
}

#[tactic(auto, using(crate::proofs::Words::words))]
fn shown_primitive(alloc: Global, p: &Primitive) -> Result<Text, OutOfMemory>
    ensures { IfOk result (λ t. t ≡ shown_primitive p.now) }
{
    match p {
        Primitive::Undefined => Text::spelled(alloc, "undefined"),
        Primitive::Null => Text::spelled(alloc, "null"),
        Primitive::Bool(_) => behind(alloc, "boolean ", &to_text(alloc, p)?),
        Primitive::Num(n) => behind(alloc, "number ", &number_to_text(alloc, *n)?),
        Primitive::Str(text) => behind(alloc, "string ", &text.escaped(alloc)?),
    }
}

/// A word, and a text behind it.
fn behind(alloc: Global, word: &str, text: &Text) -> Result<Text, OutOfMemory>
    ensures { IfOk result (λ t. t ≡ units_of word.now ++ text.now) }
{
    let mut all = Text::spelled(alloc, word)?;
    all.push_units(text.units())?;
    Ok(all)
}

/// What is shown of an object.
fn shown_object<T: Copy>(alloc: Global, heap: &Heap<T>, o: ObjId) -> Result<Text, OutOfMemory>
    ensures { IfOk result (λ t. t ≡ shown (erased_heap heap.now) (Value.Object o)) }
{
    if o.0 < heap.len() {
        object_text(alloc, heap, o)
    } else {
        Text::spelled(alloc, "object ")
    }
}

/// The same, of one that stands in the heap.
fn object_text<T: Copy>(alloc: Global, heap: &Heap<T>, o: ObjId) -> Result<Text, OutOfMemory>
    requires { o.0 < length heap.now }
    ensures { IfOk result (λ t. t ≡ shown (erased_heap heap.now) (Value.Object o)) }
{
    let class = class_text(alloc, heap.shape(o).class)?;
    let name = name_text(alloc, heap, o)?;
    let mut all = behind(alloc, "object ", &class)?;
    all.push_units(name.units())?;
    Ok(all)
}

#[tactic(auto, using(crate::proofs::Words::words))]
fn class_text(alloc: Global, class: Class) -> Result<Text, OutOfMemory>
    ensures { IfOk result (λ t. t ≡ class_name class) }
{
    match class {
        Class::Object => Text::spelled(alloc, "Object"),
        Class::Function => Text::spelled(alloc, "Function"),
        Class::Array => Text::spelled(alloc, "Array"),
        Class::Arguments => Text::spelled(alloc, "Arguments"),
        Class::Error => Text::spelled(alloc, "Error"),
        Class::Math => Text::spelled(alloc, "Math"),
        Class::Json => Text::spelled(alloc, "JSON"),
        Class::String => Text::spelled(alloc, "String"),
        Class::Number => Text::spelled(alloc, "Number"),
        Class::Boolean => Text::spelled(alloc, "Boolean"),
    }
}

/// A space and the name of an object, which stands in it or in a prototype, where it is a text.
#[tactic(auto, using(crate::proofs::Words::words))]
fn name_text<T: Copy>(alloc: Global, heap: &Heap<T>, o: ObjId) -> Result<Text, OutOfMemory>
    requires { o.0 < length heap.now }
    ensures { IfOk result (λ t. t ≡ shown_found (plain_find (codes "name") (plain_chain (erased_heap heap.now) o.0))) }
{
    let name = Key::new(Text::spelled(alloc, "name")?);
    match found(heap, o, &name) {
        Some(slot) => body_text(alloc, &slot.body),
        None => Ok(Text::new(alloc)),
    }
}

#[tactic(auto, using(crate::proofs::Words::words))]
fn body_text(alloc: Global, body: &Body) -> Result<Text, OutOfMemory>
    ensures { IfOk result (λ t. t ≡ shown_body body.now) }
{
    match body {
        Body::Data(Value::Primitive(Primitive::Str(text))) => {
            behind(alloc, " ", &text.escaped(alloc)?)
        }
        _ => Ok(Text::new(alloc)),
    }
}

/// The property that a key names, in an object or in its prototypes.
fn found<'h, T: Copy>(heap: &'h Heap<T>, o: ObjId, key: &Key) -> Option<&'h Slot<T>>
    requires { o.0 < length heap.now }
    ensures { option_map (λ s. erased_slot s.now) result ≡ option_map (λ f. f.1) (plain_find key.now (plain_chain (erased_heap heap.entry.now) o.0)) }
{
    // Its clause says that each prototype's number is below its object's, so that the walk ends.
    let count = heap.len();
    prove!(o.0 < count);
    let mut at = o;
    'along: loop {
        if let Some(slot) = heap.own(at, key) {
            return Some(slot);
        }
        match heap.shape(at).proto {
            Some(proto) => at = proto,
            None => return None,
        }
    }
}
