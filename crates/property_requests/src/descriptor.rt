//! Property descriptors (ECMA-262 8.10).

ghost use Rattle.std.specs.Prelude.{◌≡◌, ◌||◌, None, true, IfOk, slice_get, if◌then◌else◌};
ghost use Rattle.std.specs.Option.{is_some, option_map};
ghost use Rattle.origin_labels.specs.Label.{union};
ghost use Rattle.origin_labels.specs.Stores.{IsKept};
ghost use Rattle.js_values.specs.declared.value.Value.TheVariants.{Object};
ghost use Rattle.es_meaning.specs.Functions.{is_function};
ghost use Rattle.es_meaning.specs.Requested.{accessors_of, data_given, given_body, given_function, is_function_in};
ghost use Rattle.flow_meaning.specs.Erased.{erased_heap};
ghost use Rattle.prototype_walk.specs.Answers.{Means};
ghost use Rattle.property_requests.specs.Defining.{body_of, given_in, half_of, shape_of, value_of, HasDescriptor, HasGiven};

use crate::definition::{GivenBody, Half};
use crate::parts::join;
use flow_text::OutOfMemory;
use js_number::Primitive;
use js_values::{Class, Labelled, ObjId, Value};
use native_protocol::GivenMarks;
use object_heap::Heap;
use origin_labels::Labels;

/// What a definition of a property gives: attributes, a value, a getter and a setter, each of which may be left out. A getter or a setter that is undefined is
/// given, as none.
#[derive(Drop)]
pub struct Descriptor<T> {
    pub marks: GivenMarks,
    pub value: Option<Labelled<T>>,
    pub get: Option<Labelled<T>>,
    pub set: Option<Labelled<T>>,
}

/// What a descriptor gives besides the attributes (ECMA-262 8.10.5). None where it is refused: a getter or a setter is no function, or it stands beside a value
/// or the mark for writable.
pub(crate) fn given_body<T: Copy>(heap: &Heap<T>, descriptor: Descriptor<T>) -> Option<GivenBody>
    ensures { option_map body_of result ≡ given_body (erased_heap heap.now) descriptor.marks (shape_of descriptor) (value_of descriptor.value) (value_of descriptor.get) (value_of descriptor.set) }
{
    if descriptor.get.is_some() || descriptor.set.is_some() {
        return accessors_given(heap, &descriptor);
    }
    Some(data_given(descriptor.value))
}

/// A value, if it is given.
fn data_given<T: Copy>(value: Option<Labelled<T>>) -> GivenBody
    ensures { body_of result ≡ data_given (is_some value) (value_of value) }
{
    match value {
        None => GivenBody::Nothing,
        Some(v) => GivenBody::Value(v.value),
    }
}

/// A getter and a setter.
fn accessors_given<T: Copy>(heap: &Heap<T>, descriptor: &Descriptor<T>) -> Option<GivenBody>
    ensures { option_map body_of result ≡ (if is_some descriptor.now.value || is_some descriptor.now.marks.writable then None else accessors_of (given_function (erased_heap heap.now) (is_some descriptor.now.get) (value_of descriptor.now.get)) (given_function (erased_heap heap.now) (is_some descriptor.now.set) (value_of descriptor.now.set))) }
{
    if descriptor.value.is_some() || descriptor.marks.writable.is_some() {
        return None;
    }
    let get = given_half(heap, &descriptor.get)?;
    let set = given_half(heap, &descriptor.set)?;
    Some(GivenBody::Accessors { get, set })
}

/// A getter or a setter, if it is given. None where it is no function.
fn given_half<T: Copy>(heap: &Heap<T>, given: &Option<Labelled<T>>) -> Option<Half>
    ensures { option_map half_of result ≡ given_function (erased_heap heap.now) (is_some given.now) (value_of given.now) }
{
    match given {
        None => Some(Half::Kept),
        Some(v) => half_in(heap, &v.value),
    }
}

fn half_in<T: Copy>(heap: &Heap<T>, value: &Value) -> Option<Half>
    ensures { option_map half_of result ≡ given_function (erased_heap heap.now) true value.now }
{
    match value {
        Value::Primitive(Primitive::Undefined) => Some(Half::Given(None)),
        Value::Primitive(_) => None,
        Value::Object(o) => function_half(heap, *o),
    }
}

fn function_half<T: Copy>(heap: &Heap<T>, o: ObjId) -> Option<Half>
    ensures { option_map half_of result ≡ given_function (erased_heap heap.now) true (Object o) }
{
    if !is_callable(heap, o) {
        return None;
    }
    Some(Half::Given(Some(o)))
}

/// Whether an object can be called.
pub(crate) fn is_callable<T: Copy>(heap: &Heap<T>, o: ObjId) -> bool
    ensures { result ≡ is_function_in (slice_get (erased_heap heap.now) o.0) }
{
    if o.0 >= heap.len() {
        return false;
    }
    let shape = heap.shape(o);
    can_be_called(shape.class)
}

/// Whether objects of a class can be called.
fn can_be_called(class: Class) -> bool
    ensures { result ≡ is_function class }
{
    matches!(class, Class::Function)
}

/// The labels of what a descriptor gives.
pub(crate) fn given_label<T: Copy, L: Labels<Label = T>>(
    labels: &mut L,
    descriptor: &Descriptor<T>,
) -> Result<T, OutOfMemory>
    requires { HasDescriptor (L.made labels.old) descriptor.now }
    ensures means { IfOk result (λ label. Means L.made L.meaning labels.new label (λ reading. union (given_in reading descriptor.now.value).label (union (given_in reading descriptor.now.get).label (given_in reading descriptor.now.set).label))) }
    ensures kept { IsKept L.made L.meaning L.room L.firm labels.old labels.new }
{
    let value = label_of(labels, &descriptor.value);
    let get = label_of(labels, &descriptor.get);
    let set = label_of(labels, &descriptor.set);
    let accessors = join(labels, get, set)?;
    let all = join(labels, value, accessors)?;
    Ok(all)
}

/// The label of a value, if it is given.
fn label_of<T: Copy, L: Labels<Label = T>>(labels: &L, given: &Option<Labelled<T>>) -> T
    requires { HasGiven (L.made labels.now) given.now }
    ensures { Means L.made L.meaning labels.now result (λ reading. (given_in reading given.now).label) }
{
    match given {
        None => labels.bottom(),
        Some(v) => v.label,
    }
}
