//! Bound functions (ECMA-262 15.3.4.5).

ghost use Rattle.std.specs.Prelude.{◌≡◌, ◌<◌, ◌≤◌, ◌^◌, ℕ, [], ◌∷◌, Some, None, map, length, slice_get, IfOk, IfSome, OnOk, pos};
ghost use Rattle.std.specs.List.{All};
ghost use Rattle.std.specs.Option.{option_map};
ghost use Rattle.origin_labels.specs.Label.{union};
ghost use Rattle.origin_labels.specs.Stores.{IsKept};
ghost use Rattle.flow_policy.specs.Policies.{Tables};
ghost use Rattle.flow_policy.specs.Inputs.{Given};
ghost use Rattle.js_number.specs.declared.num.Num.TheVariants as nums;
ghost use Rattle.js_number.specs.declared.primitive.Primitive.TheVariants as prims;
ghost use Rattle.js_values.specs.declared.inner.Inner.TheVariants as inners;
ghost use Rattle.js_values.specs.declared.property.Body.TheVariants as held;
ghost use Rattle.js_values.specs.declared.value.Value.TheVariants as value;
ghost use Rattle.js_values.specs.Readings.{HasHeap, HasInner, HasValue, read_inner, read_object, read_value};
ghost use Rattle.object_heap.specs.Formed.{own_in, target_of};
ghost use Rattle.es_meaning.specs.Operations as operations;
ghost use Rattle.es_meaning.specs.Requested.{bound_count, count_in};
ghost use Rattle.es_meaning.specs.Start.{fixed, fixed_accessor};
ghost use Rattle.flow_meaning.specs.Erased.{erased_object, erased_slot};
ghost use Rattle.flow_meaning.specs.Requested.{length_label, length_name};
ghost use Rattle.flow_meaning.specs.Tracked.{act, bind_object};
ghost use Rattle.prototype_walk.specs.Answers.{Means};
ghost use Rattle.run_state.specs.Acts.{Acts, HasAnswer};
ghost use Rattle.run_state.specs.Worlds.{Belongs, Grows};
ghost use Rattle.property_requests.specs.Binding.{function_with};
ghost use Rattle.property_requests.specs.Building.{AddsAlone, IsLast, IsOpenFor};

use crate::building::add_row;
use crate::descriptor::is_callable;
use crate::parts::join;
use flow_frames::FlowFault;
use flow_text::{OutOfMemory, Text};
use js_number::{Int, Num, Primitive};
use js_values::{ArgList, Body, Class, Inner, Key, Labelled, Marks, ObjId, Slot, Value};
use native_protocol::ErrorKind;
use object_heap::Heap;
use origin_labels::Labels;
use property_access::throw_error;
use run_state::{Outcome, World};
use std::alloc::Global;

/// `length`
const LENGTH: [u16; 6] = [0x6C, 0x65, 0x6E, 0x67, 0x74, 0x68];

/// `caller`
const CALLER: [u16; 6] = [0x63, 0x61, 0x6C, 0x6C, 0x65, 0x72];

/// `arguments`
const ARGUMENTS: [u16; 9] = [0x61, 0x72, 0x67, 0x75, 0x6D, 0x65, 0x6E, 0x74, 0x73];

/// Function.prototype (ECMA-262 15.3.4).
const FUNCTION_PROTOTYPE: ObjId = ObjId(9);

/// The accessor of `caller` (ECMA-262 13.2.3).
const CALLER_ACCESSOR: ObjId = ObjId(16);

/// The accessor of `arguments`.
const ARGUMENTS_ACCESSOR: ObjId = ObjId(17);

/// The attributes of what can't be changed.
const FIXED: Marks = Marks {
    writable: false,
    enumerable: false,
    configurable: false,
};

/// Makes a function that calls another one with this `this` and these arguments in front (ECMA-262 15.3.4.5). What can't be called throws a TypeError.
pub fn bind<T: Copy, L: Labels<Label = T>>(
    alloc: Global,
    labels: &mut L,
    world: &mut World<T>,
    target: &Labelled<T>,
    this: &Labelled<T>,
    args: &[Labelled<T>],
) -> Result<Outcome<Labelled<T>, T>, FlowFault<T>>
    requires target { L.made labels.old target.now.label }
    requires this { L.made labels.old this.now.label }
    requires args { All (HasValue (L.made labels.old)) args.now }
    requires belongs { Belongs L.made L.meaning labels.old world.old }
    ensures acts { (tables : Tables) (inputs : Given) → Acts L.made L.meaning labels.new (λ reading. read_value reading) (λ reading. act tables inputs operations.bind (read_value reading target.now ∷ read_value reading this.now ∷ map (read_value reading) args.now)) world.old world.new result }
    ensures made { HasAnswer (HasValue (L.made labels.new)) (L.made labels.new) result }
    ensures belongs { Belongs L.made L.meaning labels.new world.new }
    ensures grows { Grows world.old world.new }
    ensures kept { IsKept L.made L.meaning L.room L.firm labels.old labels.new }
{
    let Value::Object(o) = target.value else {
        return throw_error(labels, world, ErrorKind::TypeError, target.label);
    };
    if !is_callable(&world.heap, o) {
        return throw_error(labels, world, ErrorKind::TypeError, target.label);
    }
    bind_object(alloc, labels, world, o, target.label, this, args)
}

/// Makes a bound function of one that is there, where the label is that of the reference to it.
fn bind_object<T: Copy, L: Labels<Label = T>>(
    alloc: Global,
    labels: &mut L,
    world: &mut World<T>,
    o: ObjId,
    label: T,
    this: &Labelled<T>,
    args: &[Labelled<T>],
) -> Result<Outcome<Labelled<T>, T>, FlowFault<T>>
    requires there { o.0 < length world.old.heap }
    requires label { L.made labels.old label }
    requires this { L.made labels.old this.now.label }
    requires args { All (HasValue (L.made labels.old)) args.now }
    requires belongs { Belongs L.made L.meaning labels.old world.old }
    ensures acts { Acts L.made L.meaning labels.new (λ reading. read_value reading) (λ reading. bind_object o (record { value = value.Object o; label = reading label }) (read_value reading this.now) (map (read_value reading) args.now)) world.old world.new result }
    ensures made { HasAnswer (HasValue (L.made labels.new)) (L.made labels.new) result }
    ensures belongs { Belongs L.made L.meaning labels.new world.new }
    ensures grows { Grows world.old world.new }
    ensures kept { IsKept L.made L.meaning L.room L.firm labels.old labels.new }
{
    let key = key_of(alloc, &LENGTH)?;
    let count = bound_count(&world.heap, o, &key, args.len());
    let depends = length_depends(labels, &world.heap, o, &key, label)?;
    let inner = inner_of(alloc, o, label, this, args)?;
    let context = world.frames.context(labels);
    let heap = &mut world.heap;
    let f = make_function(alloc, labels, heap, context, inner, key, count, depends)?;
    Ok(Outcome::Goes(Labelled {
        value: Value::Object(f),
        label: labels.bottom(),
    }))
}

/// The key of these units.
fn key_of(alloc: Global, units: &[u16]) -> Result<Key, OutOfMemory>
    ensures { IfOk result (λ k. k ≡ units.now) }
{
    let mut text = Text::new(alloc);
    text.push_units(units)?;
    Ok(Key::new(text))
}

/// How many arguments a bound function takes: those of its target that aren't given.
fn bound_count<T: Copy>(heap: &Heap<T>, o: ObjId, key: &Key, given: usize) -> Int
    requires there { o.0 < length heap.now }
    requires key { key.now ≡ length_name }
    ensures { result ≡ pos (bound_count (option_map erased_object (slice_get heap.now o.0)) given) }
{
    let own = own_count(heap, o, key);
    number_of(own.saturating_sub(given as u64))
}

/// A count as a number of the profile.
fn number_of(count: u64) -> Int
    requires { count < 2 ^ 53 }
    ensures { result ≡ pos count }
{
    Int::new(count as i64).unwrap()
}

/// The number that an object's own property of a key holds, if it is one above zero.
fn own_count<T: Copy>(heap: &Heap<T>, o: ObjId, key: &Key) -> u64
    requires { o.0 < length heap.now }
    ensures number { result ≡ count_in (option_map erased_slot (own_in key.now (slice_get heap.now o.0))) }
    ensures bound { result < 2 ^ 53 }
{
    match heap.own(o, key) {
        None => 0,
        Some(slot) => count_in(slot),
    }
}

/// The number that a property holds, if it is one above zero.
fn count_in<T: Copy>(slot: &Slot<T>) -> u64
    ensures number { result ≡ count_in (Some (erased_slot slot.now)) }
    ensures bound { result < 2 ^ 53 }
{
    match &slot.body {
        Body::Data(Value::Primitive(Primitive::Num(Num::Int(n)))) => u64::try_from(
            n.get(),
        ).unwrap_or(0),
        _ => 0,
    }
}

/// On what the `length` of a bound function depends: the target, and the target's own.
fn length_depends<T: Copy, L: Labels<Label = T>>(
    labels: &mut L,
    heap: &Heap<T>,
    o: ObjId,
    key: &Key,
    label: T,
) -> Result<T, OutOfMemory>
    requires there { o.0 < length heap.now }
    requires key { key.now ≡ length_name }
    requires label { L.made labels.old label }
    requires belongs { HasHeap (L.made labels.old) heap.now }
    ensures means { IfOk result (λ depends. Means L.made L.meaning labels.new depends (λ reading. union (reading label) (length_label (option_map (read_object reading) (slice_get heap.now o.0))))) }
    ensures kept { IsKept L.made L.meaning L.room L.firm labels.old labels.new }
{
    let known = own_label(labels, heap, o, key)?;
    let depends = join(labels, label, known)?;
    Ok(depends)
}

/// On what depends what an object itself has of a key.
fn own_label<T: Copy, L: Labels<Label = T>>(
    labels: &mut L,
    heap: &Heap<T>,
    o: ObjId,
    key: &Key,
) -> Result<T, OutOfMemory>
    requires there { o.0 < length heap.now }
    requires key { key.now ≡ length_name }
    requires belongs { HasHeap (L.made labels.old) heap.now }
    ensures means { IfOk result (λ known. Means L.made L.meaning labels.new known (λ reading. length_label (option_map (read_object reading) (slice_get heap.now o.0)))) }
    ensures kept { IsKept L.made L.meaning L.room L.firm labels.old labels.new }
{
    match heap.own(o, key) {
        None => Ok(heap.shape(o).structure),
        Some(slot) => join(labels, slot.existence, slot.label),
    }
}

/// The inner part of a bound function.
fn inner_of<T: Copy>(
    alloc: Global,
    o: ObjId,
    label: T,
    this: &Labelled<T>,
    args: &[Labelled<T>],
) -> Result<Inner<T>, OutOfMemory>
    ensures { IfOk result (λ inner. inner ≡ inners.Bound o label this.now args.now) }
{
    let this = this.copy(alloc)?;
    let args = list_of(alloc, args)?;
    Ok(Inner::Bound {
        target: o,
        label,
        this,
        args,
    })
}

/// A list of the same values.
fn list_of<T: Copy>(alloc: Global, values: &[Labelled<T>]) -> Result<ArgList<T>, OutOfMemory>
    ensures { IfOk result (λ list. list ≡ values.now) }
{
    let mut list = ArgList::new(alloc);
    for value in values {
        list.push(value.copy(alloc)?)?;
    }
    Ok(list)
}

/// A property that holds a number.
fn count_body(count: Int) -> Body
    ensures { result ≡ held.Data (value.Primitive (prims.Num (nums.Int count))) }
{
    Body::Data(Value::Primitive(Primitive::Num(Num::Int(count))))
}

/// Makes a bound function with this inner part in the context.
fn make_function<T: Copy, L: Labels<Label = T>>(
    alloc: Global,
    labels: &mut L,
    heap: &mut Heap<T>,
    context: T,
    inner: Inner<T>,
    key: Key,
    count: Int,
    depends: T,
) -> Result<ObjId, OutOfMemory>
    requires started { 10 ≤ length heap.old }
    requires target { IfSome (target_of inner) (λ o. o < length heap.old) }
    requires key { key ≡ length_name }
    requires context { L.made labels.old context }
    requires inner { HasInner (L.made labels.old) inner }
    requires depends { L.made labels.old depends }
    requires belongs { HasHeap (L.made labels.old) heap.old }
    ensures makes { OnOk result ((n : ℕ) → count ≡ pos n → IsLast L.made L.meaning labels.new heap.old heap.new (λ reading. function_with (read_inner reading inner) (reading depends) n (reading context))) }
    ensures number { IfOk result (λ o. o.0 ≡ length heap.old) }
    ensures grows { length heap.old ≤ length heap.new }
    ensures belongs { HasHeap (L.made labels.new) heap.new }
    ensures kept { IsKept L.made L.meaning L.room L.firm labels.old labels.new }
{
    let f = heap.new_object(
        Class::Function,
        Some(FUNCTION_PROTOTYPE),
        context,
        context,
        inner,
    )?;
    add_row(
        labels,
        heap,
        f,
        context,
        key,
        count_body(count),
        depends,
        FIXED,
    )?;
    add_accessor(alloc, labels, heap, f, context, &CALLER, CALLER_ACCESSOR)?;
    add_accessor(
        alloc,
        labels,
        heap,
        f,
        context,
        &ARGUMENTS,
        ARGUMENTS_ACCESSOR,
    )?;
    Ok(f)
}

/// Adds an accessor that is its own getter and setter, and can't be changed.
fn add_accessor<T: Copy, L: Labels<Label = T>>(
    alloc: Global,
    labels: &mut L,
    heap: &mut Heap<T>,
    o: ObjId,
    context: T,
    name: &[u16],
    accessor: ObjId,
) -> Result<(), OutOfMemory>
    requires there { o.0 < length heap.old }
    requires absent { own_in name.now (slice_get heap.old o.0) ≡ None }
    requires opened { IsOpenFor L.made L.meaning labels.old heap.old o.0 name.now context }
    requires context { L.made labels.old context }
    requires belongs { HasHeap (L.made labels.old) heap.old }
    ensures adds { OnOk result (AddsAlone L.made L.meaning labels.new context o.0 name.now (fixed_accessor accessor).body fixed heap.old heap.new) }
    ensures length { length heap.new ≡ length heap.old }
    ensures belongs { HasHeap (L.made labels.new) heap.new }
    ensures kept { IsKept L.made L.meaning L.room L.firm labels.old labels.new }
{
    let key = key_of(alloc, name)?;
    let none = labels.bottom();
    let body = Body::Accessor {
        get: Some(accessor),
        set: Some(accessor),
    };
    add_row(labels, heap, o, context, key, body, none, FIXED)?;
    Ok(())
}
