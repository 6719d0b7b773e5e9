//! What the entries of a set of built-ins make: for each a function, and a property of its holder.

ghost use Rattle.std.specs.Prelude.{◌≡◌, ◌<◌, [], ◌∷◌, IfOk, OnOk, codes, length, map};
ghost use Rattle.origin_labels.specs.Names.{has_name, same_name};
ghost use Rattle.native_protocol.specs.declared.natives.Form.TheVariants.{Function, Constructor, LeftAccessor};
ghost use Rattle.native_protocol.specs.Sets.{seen_entry};
ghost use Rattle.es_meaning.specs.BuiltIns.{in_set};
ghost use Rattle.es_meaning.specs.Start.{nan_property};
ghost use Rattle.es_meaning.specs.Holders.{built_heap, holders, made_for, named_in, prototype_named, with_accessors, with_constructor, with_entry, with_holder, with_property_of};
ghost use Rattle.plain_heap.specs.PlainObjects.{changed};
ghost use Rattle.plain_heap.specs.Started.{IsStarted};
ghost use Rattle.step_start.specs.Given.{rows_if_function};

use crate::first::first_objects;
use crate::functions::make_native;
use crate::holders::holder_of;
use flow_text::OutOfMemory;
use js_number::{Num, Primitive};
use js_values::{Body, Marks, ObjId, Value};
use native_protocol::{Entry, Form, Natives};
use plain_heap::{
    ARRAY_PROTOTYPE, BOOLEAN_PROTOTYPE, BUILT_IN, ERROR_PROTOTYPE, EVAL_ERROR_PROTOTYPE, FIXED,
    FUNCTION_PROTOTYPE, GLOBAL_OBJECT, JSON_OBJECT, MATH_OBJECT, NUMBER_PROTOTYPE,
    OBJECT_PROTOTYPE, PlainHeap, RANGE_ERROR_PROTOTYPE, REFERENCE_ERROR_PROTOTYPE,
    STRING_PROTOTYPE, SYNTAX_ERROR_PROTOTYPE, TYPE_ERROR_PROTOTYPE, URI_ERROR_PROTOTYPE,
};
use std::alloc::Global;

/// The holders that the standard makes: they are properties of the global object from the first entry on that names them.
const HOLDERS: [(&'static str, ObjId); 2] = [("Math", MATH_OBJECT), ("JSON", JSON_OBJECT)];

/// The prototypes of what constructors make, by the names of these.
const PROTOTYPES: [(&'static str, ObjId); 13] = [
    ("Object", OBJECT_PROTOTYPE),
    ("Function", FUNCTION_PROTOTYPE),
    ("Array", ARRAY_PROTOTYPE),
    ("String", STRING_PROTOTYPE),
    ("Boolean", BOOLEAN_PROTOTYPE),
    ("Number", NUMBER_PROTOTYPE),
    ("Error", ERROR_PROTOTYPE),
    ("EvalError", EVAL_ERROR_PROTOTYPE),
    ("RangeError", RANGE_ERROR_PROTOTYPE),
    ("ReferenceError", REFERENCE_ERROR_PROTOTYPE),
    ("SyntaxError", SYNTAX_ERROR_PROTOTYPE),
    ("TypeError", TYPE_ERROR_PROTOTYPE),
    ("URIError", URI_ERROR_PROTOTYPE),
];

/// The numbers below are those of the accessors of `caller`, `arguments` and `callee`.
const FIRST_IN_SET: u32 = 3;

/// The objects that a run starts with, for a set of built-ins.
pub fn start_objects<T: Copy, N: Natives>(
    alloc: Global,
    natives: &N,
    label: T,
) -> Result<PlainHeap<T>, OutOfMemory>
    ensures objects { IfOk result (λ heap. heap ≡ record { label = label; objects = built_heap (N.entries natives.now) }) }
    ensures started { IfOk result (λ heap. IsStarted heap.objects) }
{
    let mut heap = first_objects(alloc, label)?;
    'entries: for which in 0..natives.count() {
        add_entry(alloc, &mut heap, natives.entry(which), which)?;
    }
    give_accessors(alloc, &mut heap)?;
    Ok(heap)
}

// Gives an object the accessors of `caller` and `arguments`, behind all its other properties, if it is a function.
fn give_if_function<T: Copy>(
    alloc: Global,
    heap: &mut PlainHeap<T>,
    o: ObjId,
) -> Result<(), OutOfMemory>
    ensures { OnOk result (heap.new ≡ changed (rows_if_function o.0) heap.old) }
{
    if heap.is_function(o) {
        heap.give_function_rows(alloc, o)
    } else {
        Ok(())
    }
}

// Gives each function these accessors.
fn give_accessors<T: Copy>(alloc: Global, heap: &mut PlainHeap<T>) -> Result<(), OutOfMemory>
    requires started { IsStarted heap.old.objects }
    ensures ok { OnOk result (heap.new ≡ changed with_accessors heap.old) }
    ensures started { OnOk result (IsStarted heap.new.objects) }
{
    'objects: for n in 0..heap.len() {
        give_if_function(alloc, heap, ObjId(n))?;
    }
    Ok(())
}

// Adds what an entry makes.
fn add_entry<T: Copy>(
    alloc: Global,
    heap: &mut PlainHeap<T>,
    entry: Entry,
    which: u32,
) -> Result<(), OutOfMemory>
    requires started { IsStarted heap.old.objects }
    ensures { OnOk result (heap.new ≡ changed (with_entry (in_set which) (seen_entry entry.holder.now entry.name.now entry.length entry.form)) heap.old) }
{
    let number = number_of(which)?;
    give_holder(alloc, heap, entry)?;
    let found = holder_of(alloc, heap, entry.holder)?;
    match found {
        None => Ok(()),
        Some(holder) => make_entry(alloc, heap, entry, number, holder),
    }
}

// The number of a function of the set.
fn number_of(which: u32) -> Result<u32, OutOfMemory>
    ensures { IfOk result (λ number. number ≡ in_set which) }
{
    match FIRST_IN_SET.checked_add(which) {
        Some(number) => Ok(number),
        None => Err(OutOfMemory),
    }
}

// Gives the global object `Math` or `JSON`, where an entry names it as its holder.
fn give_holder<T: Copy>(
    alloc: Global,
    heap: &mut PlainHeap<T>,
    entry: Entry,
) -> Result<(), OutOfMemory>
    ensures { OnOk result (heap.new ≡ changed (with_holder (seen_entry entry.holder.now entry.name.now entry.length entry.form)) heap.old) }
{
    match holder_named(entry.holder) {
        None => Ok(()),
        Some(o) => {
            let body = Body::Data(Value::Object(o));
            heap.give_named(alloc, GLOBAL_OBJECT, entry.holder, body, BUILT_IN)
        }
    }
}

// Makes the function of an entry with a number, and gives its holder a property.
fn make_entry<T: Copy>(
    alloc: Global,
    heap: &mut PlainHeap<T>,
    entry: Entry,
    number: u32,
    holder: ObjId,
) -> Result<(), OutOfMemory>
    requires started { 9 < length heap.old.objects }
    ensures { OnOk result (heap.new ≡ changed (made_for entry.form (seen_entry entry.holder.now entry.name.now entry.length entry.form) number holder.0) heap.old) }
{
    match entry.form {
        Form::Function => make_function(alloc, heap, entry, number, holder),
        Form::LeftFunction => make_function(alloc, heap, entry, number, holder),
        Form::Constructor => make_constructor(alloc, heap, entry, number, holder),
        Form::LeftAccessor => make_accessor(alloc, heap, entry, number, holder),
        Form::NotANumber => give_nan(alloc, heap, entry, holder),
    }
}

// Makes a function that is kept, or left out, as one.
fn make_function<T: Copy>(
    alloc: Global,
    heap: &mut PlainHeap<T>,
    entry: Entry,
    number: u32,
    holder: ObjId,
) -> Result<(), OutOfMemory>
    requires started { 9 < length heap.old.objects }
    ensures { OnOk result (heap.new ≡ changed (made_for Function (seen_entry entry.holder.now entry.name.now entry.length entry.form) number holder.0) heap.old) }
{
    let f = make_native(alloc, heap, number, entry.length, None)?;
    let body = Body::Data(Value::Object(f));
    heap.give_named(alloc, holder, entry.name, body, BUILT_IN)
}

// Makes a constructor, which is a property of the prototype that it gives, where that is one of the standard's own.
fn make_constructor<T: Copy>(
    alloc: Global,
    heap: &mut PlainHeap<T>,
    entry: Entry,
    number: u32,
    holder: ObjId,
) -> Result<(), OutOfMemory>
    requires started { 9 < length heap.old.objects }
    ensures { OnOk result (heap.new ≡ changed (made_for Constructor (seen_entry entry.holder.now entry.name.now entry.length entry.form) number holder.0) heap.old) }
{
    let prototype = prototype_named(entry.name);
    let f = make_native(alloc, heap, number, entry.length, prototype)?;
    give_constructor(alloc, heap, prototype, f)?;
    let body = Body::Data(Value::Object(f));
    heap.give_named(alloc, holder, entry.name, body, BUILT_IN)
}

// Gives a prototype its constructor, in front of its other properties but for a `length`.
fn give_constructor<T: Copy>(
    alloc: Global,
    heap: &mut PlainHeap<T>,
    prototype: Option<ObjId>,
    f: ObjId,
) -> Result<(), OutOfMemory>
    ensures { OnOk result (heap.new ≡ changed (with_constructor prototype f.0) heap.old) }
{
    match prototype {
        None => Ok(()),
        Some(o) => {
            let body = Body::Data(Value::Object(f));
            heap.give_first(alloc, o, "constructor", body, BUILT_IN)
        }
    }
}

// Gives the holder of the entry the constant NaN (ECMA-262 15.1.1.1, 15.7.3.4).
fn give_nan<T: Copy>(
    alloc: Global,
    heap: &mut PlainHeap<T>,
    entry: Entry,
    holder: ObjId,
) -> Result<(), OutOfMemory>
    ensures { OnOk result (heap.new ≡ changed (with_property_of holder.0 entry.name.now nan_property) heap.old) }
{
    let body = Body::Data(Value::Primitive(Primitive::Num(Num::Nan)));
    heap.give_named(alloc, holder, entry.name, body, FIXED)
}

// Makes the accessor by which a value that is left out leaves the language.
fn make_accessor<T: Copy>(
    alloc: Global,
    heap: &mut PlainHeap<T>,
    entry: Entry,
    number: u32,
    holder: ObjId,
) -> Result<(), OutOfMemory>
    requires started { 9 < length heap.old.objects }
    ensures { OnOk result (heap.new ≡ changed (made_for LeftAccessor (seen_entry entry.holder.now entry.name.now entry.length entry.form) number holder.0) heap.old) }
{
    let f = make_native(alloc, heap, number, 0, None)?;
    let body = Body::Accessor {
        get: Some(f),
        set: Some(f),
    };
    let marks = Marks {
        writable: false,
        enumerable: false,
        configurable: may_be_replaced(entry.name),
    };
    heap.give_named(alloc, holder, entry.name, body, marks)
}

// Whether a script may replace a value that is left out (ECMA-262 15.1.4, 15.1.5).
fn may_be_replaced(name: &str) -> bool
    ensures { result ≡ has_name name.now (codes "Date" ∷ codes "RegExp" ∷ codes "JSON" ∷ []) }
{
    if is_named("Date", name) {
        return true;
    }
    if is_named("RegExp", name) {
        return true;
    }
    is_named("JSON", name)
}

fn is_named(other: &str, name: &str) -> bool
    ensures { result ≡ same_name other.now name.now }
{
    other == name
}

// The prototype of what a constructor of this name makes, where that is one of the standard's own.
fn prototype_named(name: &str) -> Option<ObjId>
    ensures { result ≡ prototype_named name.now }
{
    named_in(&PROTOTYPES, name)
}

// `Math` or `JSON`, by its name.
fn holder_named(name: &str) -> Option<ObjId>
    ensures { result ≡ named_in name.now holders }
{
    named_in(&HOLDERS, name)
}

// The object of a name in a table.
fn named_in(table: &[(&'static str, ObjId)], name: &str) -> Option<ObjId>
    ensures { result ≡ named_in name.now (map (λ e. (e.0.now, e.1)) table.now) }
{
    let mut rows = table;
    while let [row, others @ ..] = rows {
        if is_named(name, row.0) {
            return Some(row.1);
        }
        rows = others;
    }
    None
}
