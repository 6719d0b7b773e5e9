ghost use Rattle.std.specs.Prelude.{◌≡◌, ◌<◌, IfOk, length};
ghost use Rattle.js_values.specs.Readings.{HasHeap};

use crate::told::holds;
use flow_frames::Rule;
use flow_text::{OutOfMemory, Text};
use js_number::{Int, Num, Primitive};
use js_values::{Body, Class, Key, Labelled, Marks, ObjId, Value};
use object_heap::*;
use origin_labels::{Labels, Masks};
use std::alloc::Global;
use std::test::*;

// What is answered to a call: of a stop its rule, and whether need and have hold origin 0.
#[derive(Clone, Copy, PartialEq, Eq)]
enum Answer {
    Done,
    Stopped(Rule, bool, bool),
    OutOfMemory,
    NoSuchCall,
}

macro_rules! told {
    ($labels:expr, $result:expr) => {
        match $result {
            Ok(()) => Answer::Done,
            Err(HeapFault::Stop(stop)) => Answer::Stopped(
                stop.rule,
                $labels.has(stop.need, 0),
                $labels.has(stop.have, 0),
            ),
            Err(HeapFault::OutOfMemory) => Answer::OutOfMemory,
        }
    };
}

// A rule's stop, where the need has origin 0 and what the rule has doesn't.
fn is_stop(answer: Answer, rule: Rule) -> bool {
    answer == Answer::Stopped(rule, true, false)
}

fn key(alloc: Global, spelling: &str) -> Result<Key, OutOfMemory> {
    Ok(Key::new(Text::spelled(alloc, spelling)?))
}

fn marks(writable: bool) -> Marks {
    Marks {
        writable,
        enumerable: true,
        configurable: true,
    }
}

fn number(n: i64) -> Value {
    match Int::new(n) {
        Some(n) => Value::Primitive(Primitive::Num(Num::Int(n))),
        None => Value::Primitive(Primitive::Null),
    }
}

// Whether a property holds the number.
fn has_number<T: Copy>(heap: &Heap<T>, o: ObjId, key: &Key, n: i64) -> bool
    requires { o.0 < length heap.now }
{
    match heap.own(o, key) {
        Some(slot) => match &slot.body {
            Body::Data(value) => *value == number(n),
            Body::Accessor { .. } => false,
        },
        None => false,
    }
}

// A heap with one object, whose labels are empty, and which has the number 0 under a key.
fn make_one<L: Labels>(
    alloc: Global,
    labels: &mut L,
    class: Class,
    spelling: &str,
) -> Result<(Heap<L::Label>, ObjId, Key), OutOfMemory>
    ensures there { IfOk result (λ made. made.1.0 < length made.0) }
    ensures belongs { IfOk result (λ made. HasHeap (L.made labels.new) made.0) }
{
    objects_belong::<L>();
    let name = Key::new(Text::spelled(alloc, spelling)?);
    let same = name.copy(alloc)?;
    let none = labels.bottom();
    let mut heap = Heap::new(alloc);
    let o = heap.new_object(class, None, none, none, Inner::Plain)?;
    let _added = added(labels, &mut heap, o, same, none);
    Ok((heap, o, name))
}

// What is answered where the number 0 is added.
fn added<L: Labels>(
    labels: &mut L,
    heap: &mut Heap<L::Label>,
    o: ObjId,
    key: Key,
    need: L::Label,
) -> Answer
    requires there { o.0 < length heap.old }
    requires need { L.made labels.old need }
    requires belongs { HasHeap (L.made labels.old) heap.old }
    ensures there { length heap.new ≡ length heap.old }
    ensures belongs { HasHeap (L.made labels.new) heap.new }
{
    if heap.own(o, &key).is_some() {
        return Answer::NoSuchCall;
    }
    let body = Body::Data(number(0));
    let result = heap.add(labels, o, key, need, body, need, marks(true));
    told!(labels, result)
}

// What is answered where 1 is written.
fn written<L: Labels>(
    labels: &mut L,
    heap: &mut Heap<L::Label>,
    o: ObjId,
    key: &Key,
    need: L::Label,
    rule: Rule,
) -> Answer
    requires there { o.0 < length heap.old }
    requires need { L.made labels.old need }
    requires belongs { HasHeap (L.made labels.old) heap.old }
    ensures there { length heap.new ≡ length heap.old }
    ensures belongs { HasHeap (L.made labels.new) heap.new }
{
    if heap.own(o, key).is_none() {
        return Answer::NoSuchCall;
    }
    let value = Labelled {
        value: number(1),
        label: need,
    };
    let result = heap.write(labels, rule, o, key, need, value);
    told!(labels, result)
}

// What is answered where 1 is written at the place of a property.
fn written_at<L: Labels>(
    labels: &mut L,
    heap: &mut Heap<L::Label>,
    o: ObjId,
    key: &Key,
    need: L::Label,
) -> Answer
    requires there { o.0 < length heap.old }
    requires need { L.made labels.old need }
    requires belongs { HasHeap (L.made labels.old) heap.old }
    ensures there { length heap.new ≡ length heap.old }
    ensures belongs { HasHeap (L.made labels.new) heap.new }
{
    let Some(place) = heap.place_named(o, key.text()) else {
        return Answer::NoSuchCall;
    };
    let value = Labelled {
        value: number(1),
        label: need,
    };
    let result = heap.write_at(labels, Rule::W1, o, key.text(), place, need, value);
    told!(labels, result)
}

// Whether the property at the place of a key holds the number.
fn has_at<T: Copy>(heap: &Heap<T>, o: ObjId, key: &Key, n: i64) -> bool
    requires { o.0 < length heap.now }
{
    let Some(place) = heap.place_named(o, key.text()) else {
        return false;
    };
    match &heap.slot_at(o, place).body {
        Body::Data(value) => *value == number(n),
        Body::Accessor { .. } => false,
    }
}

// What is answered where an accessor takes the place of a value.
fn with_body<L: Labels>(
    labels: &mut L,
    heap: &mut Heap<L::Label>,
    o: ObjId,
    key: &Key,
    need: L::Label,
) -> Answer
    requires there { o.0 < length heap.old }
    requires need { L.made labels.old need }
    requires belongs { HasHeap (L.made labels.old) heap.old }
    ensures there { length heap.new ≡ length heap.old }
    ensures belongs { HasHeap (L.made labels.new) heap.new }
{
    if heap.own(o, key).is_none() {
        return Answer::NoSuchCall;
    }
    let body = Body::Accessor {
        get: None,
        set: None,
    };
    let result = heap.set_body(labels, o, key, need, body, need);
    told!(labels, result)
}

// What is answered where a property is made one that is not writable.
fn frozen<L: Labels>(
    labels: &mut L,
    heap: &mut Heap<L::Label>,
    o: ObjId,
    key: &Key,
    need: L::Label,
) -> Answer
    requires there { o.0 < length heap.old }
    requires need { L.made labels.old need }
    requires belongs { HasHeap (L.made labels.old) heap.old }
    ensures there { length heap.new ≡ length heap.old }
    ensures belongs { HasHeap (L.made labels.new) heap.new }
{
    if heap.own(o, key).is_none() {
        return Answer::NoSuchCall;
    }
    let result = heap.set_attributes(labels, o, key, need, marks(false));
    told!(labels, result)
}

// What is answered where a property's existence is raised.
fn upge<L: Labels>(
    labels: &mut L,
    heap: &mut Heap<L::Label>,
    o: ObjId,
    key: &Key,
    need: L::Label,
    label: L::Label,
) -> Answer
    requires there { o.0 < length heap.old }
    requires need { L.made labels.old need }
    requires label { L.made labels.old label }
    requires belongs { HasHeap (L.made labels.old) heap.old }
    ensures there { length heap.new ≡ length heap.old }
    ensures belongs { HasHeap (L.made labels.new) heap.new }
{
    if heap.own(o, key).is_none() {
        return Answer::NoSuchCall;
    }
    let result = heap.raise_existence(labels, o, key, need, label);
    told!(labels, result)
}

// What is answered where a property is removed.
fn removed<L: Labels>(
    labels: &mut L,
    heap: &mut Heap<L::Label>,
    o: ObjId,
    key: &Key,
    need: L::Label,
) -> Answer
    requires there { o.0 < length heap.old }
    requires need { L.made labels.old need }
    requires belongs { HasHeap (L.made labels.old) heap.old }
    ensures there { length heap.new ≡ length heap.old }
    ensures belongs { HasHeap (L.made labels.new) heap.new }
{
    if heap.own(o, key).is_none() {
        return Answer::NoSuchCall;
    }
    let result = heap.remove(labels, o, key, need);
    told!(labels, result)
}

// What is answered where the structure is raised.
fn upgs<L: Labels>(
    labels: &mut L,
    heap: &mut Heap<L::Label>,
    o: ObjId,
    need: L::Label,
    label: L::Label,
) -> Answer
    requires there { o.0 < length heap.old }
    requires need { L.made labels.old need }
    requires label { L.made labels.old label }
    requires belongs { HasHeap (L.made labels.old) heap.old }
    ensures there { length heap.new ≡ length heap.old }
    ensures belongs { HasHeap (L.made labels.new) heap.new }
{
    let result = heap.raise_structure(labels, o, need, label);
    told!(labels, result)
}

// What is answered where no property is to be added any more.
fn shut<L: Labels>(labels: &mut L, heap: &mut Heap<L::Label>, o: ObjId, need: L::Label) -> Answer
    requires there { o.0 < length heap.old }
    requires need { L.made labels.old need }
    requires belongs { HasHeap (L.made labels.old) heap.old }
    ensures there { length heap.new ≡ length heap.old }
    ensures belongs { HasHeap (L.made labels.new) heap.new }
{
    let result = heap.prevent_extensions(labels, o, need);
    told!(labels, result)
}

fn changes_are_stopped(alloc: Global) -> Result<bool, OutOfMemory> {
    let a = Masks.single(0)?;
    let (mut heap, o, x) = make_one(alloc, &mut Masks, Class::Object, "x")?;
    let name = is_stop(written(&mut Masks, &mut heap, o, &x, a, Rule::W1), Rule::W1);
    let body = is_stop(with_body(&mut Masks, &mut heap, o, &x, a), Rule::W2);
    let marks = is_stop(frozen(&mut Masks, &mut heap, o, &x, a), Rule::W6);
    let existence = is_stop(upge(&mut Masks, &mut heap, o, &x, a, a), Rule::W8);
    Ok(name && body && marks && existence && has_number(&heap, o, &x, 0))
}

fn shapes_are_kept(alloc: Global) -> Result<bool, OutOfMemory> {
    let a = Masks.single(0)?;
    let y = key(alloc, "y")?;
    let (mut heap, o, _) = make_one(alloc, &mut Masks, Class::Object, "x")?;
    let addition = is_stop(added(&mut Masks, &mut heap, o, y, a), Rule::W3);
    let structure = is_stop(upgs(&mut Masks, &mut heap, o, a, a), Rule::W7);
    let extension = is_stop(shut(&mut Masks, &mut heap, o, a), Rule::W7);
    Ok(addition && structure && extension)
}

fn removals_are_stopped(alloc: Global) -> Result<bool, OutOfMemory> {
    let a = Masks.single(0)?;
    let none = Masks.bottom();
    let (mut heap, o, x) = make_one(alloc, &mut Masks, Class::Object, "x")?;
    let property = is_stop(removed(&mut Masks, &mut heap, o, &x, a), Rule::W4);
    let raised = upge(&mut Masks, &mut heap, o, &x, none, a) == Answer::Done;
    let object = is_stop(removed(&mut Masks, &mut heap, o, &x, a), Rule::W5);
    Ok(property && raised && object)
}

// Whether the first property of an object is the key's, and can't be written.
fn is_frozen<T: Copy>(heap: &Heap<T>, o: ObjId, x: &Key) -> bool
    requires { o.0 < length heap.now }
{
    matches!(heap.own_at(o, 0), Some((key, slot)) if *key == *x && !slot.marks.writable)
}

fn changes_are_done(alloc: Global) -> Result<bool, OutOfMemory> {
    let none = Masks.bottom();
    let (mut heap, o, x) = make_one(alloc, &mut Masks, Class::Object, "x")?;
    let value = written(&mut Masks, &mut heap, o, &x, none, Rule::W2) == Answer::Done;
    let one = has_number(&heap, o, &x, 1);
    let marks = frozen(&mut Masks, &mut heap, o, &x, none) == Answer::Done;
    let first = is_frozen(&heap, o, &x);
    let body = with_body(&mut Masks, &mut heap, o, &x, none) == Answer::Done;
    Ok(value && one && marks && first && body && !has_number(&heap, o, &x, 1))
}

fn places_are_written(alloc: Global) -> Result<bool, OutOfMemory> {
    let a = Masks.single(0)?;
    let none = Masks.bottom();
    let (mut heap, o, x) = make_one(alloc, &mut Masks, Class::Object, "x")?;
    let stopped = is_stop(written_at(&mut Masks, &mut heap, o, &x, a), Rule::W1);
    let kept = has_at(&heap, o, &x, 0);
    let done = written_at(&mut Masks, &mut heap, o, &x, none) == Answer::Done;
    Ok(stopped && kept && done && has_at(&heap, o, &x, 1))
}

// Whether the only object is one without properties, to which none can be added.
fn is_empty_and_shut<T: Copy>(heap: &Heap<T>, o: ObjId) -> bool
    requires { o.0 < length heap.now }
{
    let gone = heap.own_at(o, 0).is_none() && heap.len() == 1;
    let shape = heap.shape(o);
    let shut = shape.class == Class::Object && shape.proto.is_none() && !shape.extensible;
    gone && shut && matches!(heap.inner(o), Inner::Plain)
}

fn shapes_are_changed(alloc: Global) -> Result<bool, OutOfMemory> {
    let a = Masks.single(0)?;
    let none = Masks.bottom();
    let (mut heap, o, x) = make_one(alloc, &mut Masks, Class::Object, "x")?;
    let structure = upgs(&mut Masks, &mut heap, o, none, a) == Answer::Done;
    let extension = shut(&mut Masks, &mut heap, o, a) == Answer::Done;
    let removal = removed(&mut Masks, &mut heap, o, &x, none) == Answer::Done;
    Ok(structure && extension && removal && is_empty_and_shut(&heap, o))
}

fn elements_raise_the_length(alloc: Global) -> Result<bool, OutOfMemory> {
    let none = Masks.bottom();
    let a = Masks.single(0)?;
    let third = key(alloc, "3")?;
    let fourth = key(alloc, "4")?;
    let (mut heap, o, length) = make_one(alloc, &mut Masks, Class::Array, "length")?;
    let above = added(&mut Masks, &mut heap, o, third, none) == Answer::Done;
    let raised = upgs(&mut Masks, &mut heap, o, none, a) == Answer::Done;
    let stopped = is_stop(added(&mut Masks, &mut heap, o, fourth, a), Rule::W2);
    Ok(above && raised && stopped && has_number(&heap, o, &length, 4))
}

// The key `k` and a number.
fn numbered(alloc: Global, n: i64) -> Result<Key, OutOfMemory> {
    let mut text = Text::spelled(alloc, "k")?;
    text.push_decimal(n)?;
    Ok(Key::new(text))
}

// Whether so many properties were added, under the keys of the numbers from 0 on.
fn all_added<L: Labels>(
    alloc: Global,
    labels: &mut L,
    heap: &mut Heap<L::Label>,
    o: ObjId,
    count: i64,
) -> Result<bool, OutOfMemory>
    requires there { o.0 < length heap.old }
    requires belongs { HasHeap (L.made labels.old) heap.old }
    ensures there { length heap.new ≡ length heap.old }
    ensures belongs { HasHeap (L.made labels.new) heap.new }
{
    for n in 0..count {
        let none = labels.bottom();
        let key = numbered(alloc, n)?;
        if added(labels, heap, o, key, none) != Answer::Done {
            return Ok(false);
        }
    }
    Ok(true)
}

// Whether the property at a place is the key's.
fn is_at<T: Copy>(heap: &Heap<T>, o: ObjId, n: usize, x: &Key) -> bool
    requires { o.0 < length heap.now }
{
    matches!(heap.own_at(o, n), Some((key, _)) if *key == *x)
}

// Of many properties each is found, and they close up where one is removed. One that is added again goes last.
fn many_are_kept(alloc: Global, count: u32) -> Result<bool, OutOfMemory>
    requires { 0 < count }
{
    let places = count as usize;
    let count = i64::from(count);
    let none = Masks.bottom();
    let (mut heap, o, x) = make_one(alloc, &mut Masks, Class::Object, "x")?;
    let all = all_added(alloc, &mut Masks, &mut heap, o, count)?;
    let last = numbered(alloc, count - 1)?;
    let found = has_number(&heap, o, &last, 0) && is_at(&heap, o, places, &last);
    let removal = removed(&mut Masks, &mut heap, o, &x, none) == Answer::Done;
    let closed = heap.own(o, &x).is_none() && is_at(&heap, o, places - 1, &last);
    let again = added(&mut Masks, &mut heap, o, x.copy(alloc)?, none) == Answer::Done;
    Ok(all && found && removal && closed && again && is_at(&heap, o, places, &x))
}

#[test]
fn many_properties(rt: HostRuntime) {
    assert!(rt; holds(many_are_kept(rt.alloc(), 8)));
    assert!(rt; holds(many_are_kept(rt.alloc(), 200_000)));
}

#[test]
fn changes_of_objects(rt: HostRuntime) {
    let alloc = rt.alloc();
    assert!(rt; holds(changes_are_stopped(alloc)));
    assert!(rt; holds(shapes_are_kept(alloc)));
    assert!(rt; holds(removals_are_stopped(alloc)));
    assert!(rt; holds(changes_are_done(alloc)));
    assert!(rt; holds(places_are_written(alloc)));
    assert!(rt; holds(shapes_are_changed(alloc)));
    assert!(rt; holds(elements_raise_the_length(alloc)));
}
