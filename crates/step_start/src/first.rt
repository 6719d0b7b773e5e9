//! The standard's own objects (ECMA-262 15), which every run starts with.

ghost use Rattle.std.specs.Prelude.{◌≡◌, ◌<◌, ◌≤◌, ◌+◌, [], ◌∷◌, IfOk, OnOk, length};
ghost use Rattle.es_meaning.specs.Holders.{with_property_of};
ghost use Rattle.es_meaning.specs.Start.{error_name, prototype_of_arrays, prototype_of_errors, prototype_of_functions, prototype_of_strings, start_heap, text_property};
ghost use Rattle.plain_heap.specs.PlainObjects.{changed, with_more};
ghost use Rattle.step_start.specs.FirstObjects.{first_two, prototypes_of_errors, holders, accessors};

use crate::functions::make_native;
use flow_text::OutOfMemory;
use js_number::Primitive;
use js_values::{Body, Class, Inner, ObjId, Value};
use native_protocol::ErrorKind;
use plain_heap::{BUILT_IN, ERROR_PROTOTYPE, FIXED, OBJECT_PROTOTYPE, PlainHeap, text_of};
use std::alloc::Global;

/// The standard's own objects.
pub(crate) fn first_objects<T: Copy>(alloc: Global, label: T) -> Result<PlainHeap<T>, OutOfMemory>
    ensures { IfOk result (λ heap. heap ≡ record { label = label; objects = start_heap }) }
{
    let mut heap = PlainHeap::new(alloc, label);
    make_global(alloc, &mut heap)?;
    make_errors(alloc, &mut heap)?;
    make_function_prototype(alloc, &mut heap)?;
    make_holders(alloc, &mut heap)?;
    make_accessors(alloc, &mut heap)?;
    Ok(heap)
}

// Makes the prototype of all objects, and the global object with `undefined` (ECMA-262 15.1.1.3, 15.2.4).
fn make_global<T: Copy>(alloc: Global, heap: &mut PlainHeap<T>) -> Result<(), OutOfMemory>
    requires none { heap.old.objects ≡ [] }
    ensures ok { OnOk result (heap.new ≡ record { label = heap.old.label; objects = first_two }) }
    ensures length { OnOk result (length heap.new.objects ≡ 2) }
{
    let root = heap.new_object(Class::Object, None, Inner::Plain)?;
    let global = heap.new_object(Class::Object, Some(root), Inner::Plain)?;
    let body = Body::Data(Value::Primitive(Primitive::Undefined));
    heap.give_named(alloc, global, "undefined", body, FIXED)
}

// Makes the prototypes of errors (ECMA-262 15.11.6).
fn make_errors<T: Copy>(alloc: Global, heap: &mut PlainHeap<T>) -> Result<(), OutOfMemory>
    requires started { length heap.old.objects ≡ 2 }
    ensures ok { OnOk result (heap.new ≡ with_more prototypes_of_errors heap.old) }
    ensures length { OnOk result (length heap.new.objects ≡ 9) }
{
    make_error_prototype(alloc, heap, ErrorKind::Error, OBJECT_PROTOTYPE)?;
    make_error_prototype(alloc, heap, ErrorKind::EvalError, ERROR_PROTOTYPE)?;
    make_error_prototype(alloc, heap, ErrorKind::RangeError, ERROR_PROTOTYPE)?;
    make_error_prototype(alloc, heap, ErrorKind::ReferenceError, ERROR_PROTOTYPE)?;
    make_error_prototype(alloc, heap, ErrorKind::SyntaxError, ERROR_PROTOTYPE)?;
    make_error_prototype(alloc, heap, ErrorKind::TypeError, ERROR_PROTOTYPE)?;
    make_error_prototype(alloc, heap, ErrorKind::UriError, ERROR_PROTOTYPE)?;
    Ok(())
}

// Makes the prototype of errors of a kind (ECMA-262 15.11.4, 15.11.7).
fn make_error_prototype<T: Copy>(
    alloc: Global,
    heap: &mut PlainHeap<T>,
    kind: ErrorKind,
    proto: ObjId,
) -> Result<(), OutOfMemory>
    requires proto { proto.0 < length heap.old.objects }
    ensures ok { OnOk result (heap.new ≡ with_more (prototype_of_errors kind proto ∷ []) heap.old) }
    ensures length { OnOk result (length heap.new.objects ≡ length heap.old.objects + 1) }
{
    let o = heap.new_object(Class::Error, Some(proto), Inner::Plain)?;
    give_text(alloc, heap, o, "name", error_name(kind))?;
    give_text(alloc, heap, o, "message", "")?;
    Ok(())
}

// The name of a kind of errors.
fn error_name(kind: ErrorKind) -> &'static str
    ensures { result.now ≡ error_name kind }
{
    match kind {
        ErrorKind::Error => "Error",
        ErrorKind::EvalError => "EvalError",
        ErrorKind::RangeError => "RangeError",
        ErrorKind::ReferenceError => "ReferenceError",
        ErrorKind::SyntaxError => "SyntaxError",
        ErrorKind::TypeError => "TypeError",
        ErrorKind::UriError => "URIError",
    }
}

// Gives an object a property of a built-in object, which is a text.
fn give_text<T: Copy>(
    alloc: Global,
    heap: &mut PlainHeap<T>,
    o: ObjId,
    name: &str,
    text: &str,
) -> Result<(), OutOfMemory>
    ensures { OnOk result (heap.new ≡ changed (with_property_of o.0 name.now (text_property text.now)) heap.old) }
{
    let text = text_of(alloc, text)?;
    let body = Body::Data(Value::Primitive(Primitive::Str(text)));
    heap.give_named(alloc, o, name, body, BUILT_IN)
}

// Makes the prototype of functions, which is a function itself (ECMA-262 15.3.4).
fn make_function_prototype<T: Copy>(
    alloc: Global,
    heap: &mut PlainHeap<T>,
) -> Result<(), OutOfMemory>
    requires started { 1 ≤ length heap.old.objects }
    ensures ok { OnOk result (heap.new ≡ with_more (prototype_of_functions ∷ []) heap.old) }
    ensures length { OnOk result (length heap.new.objects ≡ length heap.old.objects + 1) }
{
    let f = heap.new_object(Class::Function, Some(OBJECT_PROTOTYPE), Inner::Plain)?;
    heap.give_length(alloc, f, 0)
}

// Makes the prototypes of booleans and numbers (ECMA-262 15.6.4, 15.7.4), `Math` (15.8), `JSON` (15.12), and the prototypes of arrays and strings.
fn make_holders<T: Copy>(alloc: Global, heap: &mut PlainHeap<T>) -> Result<(), OutOfMemory>
    requires started { 1 ≤ length heap.old.objects }
    ensures ok { OnOk result (heap.new ≡ with_more holders heap.old) }
    ensures length { OnOk result (length heap.new.objects ≡ length heap.old.objects + 6) }
{
    heap.new_object(Class::Boolean, Some(OBJECT_PROTOTYPE), Inner::Plain)?;
    heap.new_object(Class::Number, Some(OBJECT_PROTOTYPE), Inner::Plain)?;
    heap.new_object(Class::Math, Some(OBJECT_PROTOTYPE), Inner::Plain)?;
    heap.new_object(Class::Json, Some(OBJECT_PROTOTYPE), Inner::Plain)?;
    make_array_prototype(alloc, heap)?;
    make_string_prototype(alloc, heap)
}

// Makes the prototype of arrays, which is an array itself (ECMA-262 15.4.4).
fn make_array_prototype<T: Copy>(alloc: Global, heap: &mut PlainHeap<T>) -> Result<(), OutOfMemory>
    requires started { 1 ≤ length heap.old.objects }
    ensures ok { OnOk result (heap.new ≡ with_more (prototype_of_arrays ∷ []) heap.old) }
    ensures length { OnOk result (length heap.new.objects ≡ length heap.old.objects + 1) }
{
    let o = heap.new_object(Class::Array, Some(OBJECT_PROTOTYPE), Inner::Plain)?;
    heap.give_array_length(alloc, o, 0)
}

// Makes the prototype of strings, which is the object of the empty text (ECMA-262 15.5.4).
fn make_string_prototype<T: Copy>(alloc: Global, heap: &mut PlainHeap<T>) -> Result<(), OutOfMemory>
    requires started { 1 ≤ length heap.old.objects }
    ensures ok { OnOk result (heap.new ≡ with_more (prototype_of_strings ∷ []) heap.old) }
    ensures length { OnOk result (length heap.new.objects ≡ length heap.old.objects + 1) }
{
    let o = heap.new_object(Class::String, Some(OBJECT_PROTOTYPE), Inner::Plain)?;
    heap.give_length(alloc, o, 0)
}

// Makes the accessors of `caller`, `arguments` and `callee` (ECMA-262 13.2.3).
fn make_accessors<T: Copy>(alloc: Global, heap: &mut PlainHeap<T>) -> Result<(), OutOfMemory>
    requires started { 9 < length heap.old.objects }
    ensures { OnOk result (heap.new ≡ with_more accessors heap.old) }
{
    make_native(alloc, heap, 0, 0, None)?;
    make_native(alloc, heap, 1, 0, None)?;
    make_native(alloc, heap, 2, 0, None)?;
    Ok(())
}
