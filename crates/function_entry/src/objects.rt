//! The objects of a function (ECMA-262 13.2): itself, and the prototype of what it constructs.

ghost use Rattle.std.specs.Prelude.{◌≡◌, ◌≤◌, ◌+◌, [], ◌∷◌, ◌++◌, IfOk, OnOk, length};
ghost use Rattle.origin_labels.specs.Stores.{IsKept};
ghost use Rattle.js_ast.specs.Trees.{params_of};
ghost use Rattle.js_ast.specs.Views.{view_function};
ghost use Rattle.js_values.specs.Readings.{HasHeap};
ghost use Rattle.es_meaning.specs.Functions.{function_object, constructed_prototype};
ghost use Rattle.plain_heap.specs.PlainObjects.{objects_with};
ghost use Rattle.function_entry.specs.Making.{Makes};

use crate::adding::{count_body, give, give_accessor};
use flow_text::OutOfMemory;
use function_table::KnownKeys;
use js_ast::Function;
use js_values::{Body, Class, EnvId, Inner, Marks, ObjId, Value};
use object_heap::Heap;
use origin_labels::Labels;
use plain_heap::{
    ARGUMENTS_ACCESSOR, BUILT_IN, CALLER_ACCESSOR, FIXED, FUNCTION_PROTOTYPE, OBJECT_PROTOTYPE,
};
use std::alloc::Global;

// The attributes of the `prototype` of a function (ECMA-262 15.3.5.2).
const KEPT: Marks = Marks {
    writable: true,
    enumerable: false,
    configurable: false,
};

/// How many parameters a function has.
pub(crate) fn count(f: &Function) -> Result<u32, OutOfMemory>
    ensures { IfOk result (λ n. n ≡ length (params_of (view_function f.now))) }
{
    match u32::try_from(f.params.items().len()) {
        Ok(n) => Ok(n),
        Err(_) => Err(OutOfMemory),
    }
}

// Makes a function with this number and so many parameters, whose `prototype` is the object that is made next.
fn make_itself<T: Copy, L: Labels<Label = T>>(
    alloc: Global,
    labels: &L,
    keys: &KnownKeys,
    heap: &mut Heap<T>,
    context: T,
    function: u32,
    env: EnvId,
    count: u32,
) -> Result<ObjId, OutOfMemory>
    requires started { 16 ≤ length heap.old }
    requires context { L.made labels.now context }
    requires belongs { HasHeap (L.made labels.now) heap.old }
    ensures makes { OnOk result (heap.new ≡ heap.old ++ objects_with context (function_object (length heap.old) function env.0 count ∷ [])) }
    ensures number { IfOk result (λ o. o.0 ≡ length heap.old) }
    ensures length { OnOk result (length heap.new ≡ length heap.old + 1) }
    ensures grows { length heap.old ≤ length heap.new }
    ensures belongs { HasHeap (L.made labels.now) heap.new }
{
    let inner = Inner::Script { function, env };
    let proto = Some(FUNCTION_PROTOTYPE);
    let o = heap.new_object(Class::Function, proto, context, context, inner)?;
    let constructed = Body::Data(Value::Object(ObjId(heap.len())));
    let size = count_body(count);
    give(alloc, labels, heap, o, context, keys.length(), size, FIXED)?;
    give(
        alloc,
        labels,
        heap,
        o,
        context,
        keys.prototype(),
        constructed,
        KEPT,
    )?;
    give_accessor(
        alloc,
        labels,
        heap,
        o,
        context,
        keys.caller(),
        CALLER_ACCESSOR,
    )?;
    give_accessor(
        alloc,
        labels,
        heap,
        o,
        context,
        keys.arguments(),
        ARGUMENTS_ACCESSOR,
    )?;
    Ok(o)
}

// Makes the prototype of what a function constructs.
fn make_constructed<T: Copy, L: Labels<Label = T>>(
    alloc: Global,
    labels: &L,
    keys: &KnownKeys,
    heap: &mut Heap<T>,
    context: T,
    o: ObjId,
) -> Result<(), OutOfMemory>
    requires started { 16 ≤ length heap.old }
    requires context { L.made labels.now context }
    requires belongs { HasHeap (L.made labels.now) heap.old }
    ensures makes { OnOk result (heap.new ≡ heap.old ++ objects_with context (constructed_prototype o.0 ∷ [])) }
    ensures length { OnOk result (length heap.new ≡ length heap.old + 1) }
    ensures grows { length heap.old ≤ length heap.new }
    ensures belongs { HasHeap (L.made labels.now) heap.new }
{
    let proto = Some(OBJECT_PROTOTYPE);
    let made = heap.new_object(Class::Object, proto, context, context, Inner::Plain)?;
    let body = Body::Data(Value::Object(o));
    give(
        alloc,
        labels,
        heap,
        made,
        context,
        keys.constructor(),
        body,
        BUILT_IN,
    )?;
    Ok(())
}

/// Makes the objects of a function in the context.
pub(crate) fn make_objects<T: Copy, L: Labels<Label = T>>(
    alloc: Global,
    labels: &mut L,
    keys: &KnownKeys,
    heap: &mut Heap<T>,
    context: T,
    function: u32,
    env: EnvId,
    count: u32,
) -> Result<ObjId, OutOfMemory>
    requires started { 16 ≤ length heap.old }
    requires context { L.made labels.old context }
    requires belongs { HasHeap (L.made labels.old) heap.old }
    ensures makes { OnOk result (Makes L.made L.meaning labels.new context (function_object (length heap.old) function env.0 count ∷ constructed_prototype (length heap.old) ∷ []) heap.old heap.new) }
    ensures number { IfOk result (λ o. o.0 ≡ length heap.old) }
    ensures length { OnOk result (length heap.new ≡ length heap.old + 2) }
    ensures grows { length heap.old ≤ length heap.new }
    ensures belongs { HasHeap (L.made labels.new) heap.new }
    ensures kept { IsKept L.made L.meaning L.room L.firm labels.old labels.new }
{
    let o = make_itself(alloc, labels, keys, heap, context, function, env, count)?;
    make_constructed(alloc, labels, keys, heap, context, o)?;
    Ok(o)
}
