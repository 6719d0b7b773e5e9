//! The `arguments` object of a call (ECMA-262 10.6).

ghost use Rattle.std.specs.Prelude.{◌≡◌, ◌≤◌, ◌<◌, ◌+◌, ◌^◌, [], ◌∷◌, ◌++◌, None, IfOk, OnOk, length, slice_get};
ghost use Rattle.std.specs.List.{All};
ghost use Rattle.origin_labels.specs.Stores.{IsKept};
ghost use Rattle.js_values.specs.Arrays.{element_key};
ghost use Rattle.js_values.specs.Readings.{HasHeap, HasValue};
ghost use Rattle.object_heap.specs.Formed.{own_in};
ghost use Rattle.plain_heap.specs.PlainObjects.{objects_with};
ghost use Rattle.function_entry.specs.ArgumentRows.{AddsValue, Gets, MakesArguments, counted_object};
ghost use Rattle.function_entry.specs.Making.{IsOpen};

use crate::adding::{count_body, give, give_accessor};
use flow_frames::FlowFault;
use flow_text::OutOfMemory;
use function_table::KnownKeys;
use js_number::{Int, Num, number_to_text};
use js_values::{Body, Class, EnvId, Inner, Key, Labelled, Marks, ObjId};
use object_heap::Heap;
use origin_labels::Labels;
use plain_heap::{BUILT_IN, CALLEE_ACCESSOR, CALLER_ACCESSOR, OBJECT_PROTOTYPE};
use std::alloc::Global;

// How many arguments there are.
fn count<T>(args: &[Labelled<T>]) -> Result<u32, OutOfMemory>
    ensures is { IfOk result (λ n. n ≡ length args.now) }
    ensures few { IfOk result (λ n. n < 2 ^ 32) }
{
    match u32::try_from(args.len()) {
        Ok(n) => Ok(n),
        Err(_) => Err(OutOfMemory),
    }
}

// The key of an element.
fn element_key(alloc: Global, i: u32) -> Result<Key, OutOfMemory>
    ensures { IfOk result (λ k. k ≡ element_key i) }
{
    let number = Num::Int(Int::new(i64::from(i)).unwrap());
    let text = number_to_text(alloc, number)?;
    Ok(Key::new(text))
}

// Adds a property with a value to an object that was made in the context, which has none of this key. No flow rule stops that.
fn add_value<T: Copy, L: Labels<Label = T>>(
    labels: &mut L,
    heap: &mut Heap<T>,
    o: ObjId,
    context: T,
    key: Key,
    value: Labelled<T>,
) -> Result<(), OutOfMemory>
    requires there { o.0 < length heap.old }
    requires absent { own_in key (slice_get heap.old o.0) ≡ None }
    requires opened { IsOpen L.made L.meaning labels.old heap.old o.0 context }
    requires context { L.made labels.old context }
    requires value { L.made labels.old value.label }
    requires belongs { HasHeap (L.made labels.old) heap.old }
    ensures adds { OnOk result (AddsValue L.made L.meaning labels.new context o.0 key value heap.old heap.new) }
    ensures length { length heap.new ≡ length heap.old }
    ensures belongs { HasHeap (L.made labels.new) heap.new }
    ensures kept { IsKept L.made L.meaning L.room L.firm labels.old labels.new }
{
    let body = Body::Data(value.value);
    let marks = Marks {
        writable: true,
        enumerable: true,
        configurable: true,
    };
    match heap.add(labels, o, key, context, body, value.label, marks) {
        Ok(()) => Ok(()),
        Err(FlowFault::OutOfMemory) => Err(OutOfMemory),
        Err(FlowFault::Stop(_)) => unreachable!(),
    }
}

// Adds one element to an object that was made in the context.
fn add_element<T: Copy, L: Labels<Label = T>>(
    alloc: Global,
    labels: &mut L,
    heap: &mut Heap<T>,
    o: ObjId,
    context: T,
    i: u32,
    value: &Labelled<T>,
) -> Result<(), OutOfMemory>
    requires there { o.0 < length heap.old }
    requires opened { IsOpen L.made L.meaning labels.old heap.old o.0 context }
    requires context { L.made labels.old context }
    requires value { L.made labels.old value.now.label }
    requires belongs { HasHeap (L.made labels.old) heap.old }
    ensures gets { OnOk result (Gets L.made L.meaning labels.new context o.0 i (value.now ∷ []) heap.old heap.new) }
    ensures length { length heap.new ≡ length heap.old }
    ensures belongs { HasHeap (L.made labels.new) heap.new }
    ensures kept { IsKept L.made L.meaning L.room L.firm labels.old labels.new }
{
    let key = element_key(alloc, i)?;
    // No two elements have one key, and none has that of `length`: so this never comes.
    if heap.own(o, &key).is_some() {
        return Err(OutOfMemory);
    }
    let value = value.copy(alloc)?;
    add_value(labels, heap, o, context, key, value)?;
    Ok(())
}

// Adds the elements to an object that was made in the context, from the last one down.
fn add_elements<T: Copy, L: Labels<Label = T>>(
    alloc: Global,
    labels: &mut L,
    heap: &mut Heap<T>,
    o: ObjId,
    context: T,
    count: u32,
    args: &[Labelled<T>],
) -> Result<(), OutOfMemory>
    requires there { o.0 < length heap.old }
    requires opened { IsOpen L.made L.meaning labels.old heap.old o.0 context }
    requires context { L.made labels.old context }
    requires count { count ≡ length args.now }
    requires args { All (HasValue (L.made labels.old)) args.now }
    requires belongs { HasHeap (L.made labels.old) heap.old }
    ensures gets { OnOk result (Gets L.made L.meaning labels.new context o.0 0 args.now heap.old heap.new) }
    ensures length { length heap.new ≡ length heap.old }
    ensures belongs { HasHeap (L.made labels.new) heap.new }
    ensures kept { IsKept L.made L.meaning L.room L.firm labels.old labels.new }
{
    for i in (0..count).rev() {
        add_element(alloc, labels, heap, o, context, i, &args[i as usize])?;
    }
    Ok(())
}

// Makes the object with its `length` alone.
fn make_counted<T: Copy, L: Labels<Label = T>>(
    alloc: Global,
    labels: &L,
    keys: &KnownKeys,
    heap: &mut Heap<T>,
    context: T,
    function: u32,
    own: EnvId,
    count: u32,
) -> Result<ObjId, OutOfMemory>
    requires started { 16 ≤ length heap.old }
    requires context { L.made labels.now context }
    requires belongs { HasHeap (L.made labels.now) heap.old }
    ensures makes { OnOk result (heap.new ≡ heap.old ++ objects_with context (counted_object function own.0 count ∷ [])) }
    ensures number { IfOk result (λ o. o.0 ≡ length heap.old) }
    ensures length { OnOk result (length heap.new ≡ length heap.old + 1) }
    ensures opened { IfOk result (λ o. IsOpen L.made L.meaning labels.now heap.new o.0 context) }
    ensures grows { length heap.old ≤ length heap.new }
    ensures belongs { HasHeap (L.made labels.now) heap.new }
{
    let proto = Some(OBJECT_PROTOTYPE);
    let inner = Inner::Script { function, env: own };
    let o = heap.new_object(Class::Arguments, proto, context, context, inner)?;
    let body = count_body(count);
    give(
        alloc,
        labels,
        heap,
        o,
        context,
        keys.length(),
        body,
        BUILT_IN,
    )?;
    Ok(o)
}

/// Makes the `arguments` object of a call of the function with this number, in its record, in the context.
pub(crate) fn make_arguments<T: Copy, L: Labels<Label = T>>(
    alloc: Global,
    labels: &mut L,
    keys: &KnownKeys,
    heap: &mut Heap<T>,
    context: T,
    function: u32,
    own: EnvId,
    args: &[Labelled<T>],
) -> Result<(), OutOfMemory>
    requires started { 16 ≤ length heap.old }
    requires context { L.made labels.old context }
    requires args { All (HasValue (L.made labels.old)) args.now }
    requires belongs { HasHeap (L.made labels.old) heap.old }
    ensures makes { OnOk result (MakesArguments L.made L.meaning labels.new context function own.0 args.now heap.old heap.new) }
    ensures length { OnOk result (length heap.new ≡ length heap.old + 1) }
    ensures grows { length heap.old ≤ length heap.new }
    ensures belongs { HasHeap (L.made labels.new) heap.new }
    ensures kept { IsKept L.made L.meaning L.room L.firm labels.old labels.new }
{
    let count = count(args)?;
    let o = make_counted(alloc, labels, keys, heap, context, function, own, count)?;
    add_elements(alloc, labels, heap, o, context, count, args)?;
    give_accessor(
        alloc,
        labels,
        heap,
        o,
        context,
        keys.caller(),
        CALLER_ACCESSOR,
    )?;
    give_accessor(
        alloc,
        labels,
        heap,
        o,
        context,
        keys.callee(),
        CALLEE_ACCESSOR,
    )?;
    Ok(())
}
