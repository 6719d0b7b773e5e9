ghost use Rattle.std.specs.Prelude.{◌≡◌, ◌<◌, IfOk, length};
ghost use Rattle.js_values.specs.Readings.{HasHeap};

use crate::told::holds;
use flow_text::{OutOfMemory, Text};
use js_number::Primitive;
use js_values::{Body, Class, Inner, Key, KeyRow, Marks, ObjId, Value};
use object_heap::{Heap, objects_belong};
use origin_labels::{Labels, Masks};
use prototype_walk::*;
use std::alloc::Global;
use std::test::*;

// An object and its prototype, without properties: the link of the one has a label, and the structure of the other.
fn make_two<L: Labels>(
    alloc: Global,
    labels: &L,
    link: L::Label,
    structure: L::Label,
) -> Result<(Heap<L::Label>, ObjId), OutOfMemory>
    requires link { L.made labels.now link }
    requires structure { L.made labels.now structure }
    ensures there { IfOk result (λ pair. pair.1.0 < length pair.0) }
    ensures belongs { IfOk result (λ pair. HasHeap (L.made labels.now) pair.0) }
{
    objects_belong::<L>();
    let none = labels.bottom();
    let mut heap = Heap::new(alloc);
    let proto = heap.new_object(Class::Object, None, none, structure, Inner::Plain)?;
    let o = heap.new_object(Class::Object, Some(proto), link, none, Inner::Plain)?;
    Ok((heap, o))
}

// Where the key is found, and whether the walk has the origins 0 and 1.
fn found<L: Labels>(
    labels: &mut L,
    heap: &Heap<L::Label>,
    o: ObjId,
    key: &Key,
) -> Option<(Option<ObjId>, bool, bool)>
    requires there { o.0 < length heap.now }
    requires belongs { HasHeap (L.made labels.old) heap.now }
{
    let found = find(heap, labels, o, key).ok()?;
    Some((
        found.at,
        labels.has(found.walk, 0),
        labels.has(found.walk, 1),
    ))
}

// Adds a property that the object doesn't have, whose labels are empty but for what the structure of its object gives, and gives its key.
fn added<L: Labels>(
    alloc: Global,
    labels: &mut L,
    heap: &mut Heap<L::Label>,
    o: ObjId,
    spelling: &str,
    enumerable: bool,
) -> Result<Key, OutOfMemory>
    requires there { o.0 < length heap.old }
    requires belongs { HasHeap (L.made labels.old) heap.old }
    ensures there { length heap.new ≡ length heap.old }
    ensures belongs { HasHeap (L.made labels.new) heap.new }
{
    let key = Key::new(Text::spelled(alloc, spelling)?);
    let same = key.copy(alloc)?;
    if heap.own(o, &same).is_some() {
        return Err(OutOfMemory);
    }
    let none = labels.bottom();
    let body = Body::Data(Value::Primitive(Primitive::Undefined));
    let marks = Marks {
        writable: true,
        enumerable,
        configurable: true,
    };
    match heap.add(labels, o, same, none, body, none, marks) {
        Ok(()) => Ok(key),
        Err(_) => Err(OutOfMemory),
    }
}

// Whether a put writes the key or adds it, and whether the walk has the origins 0 and 1.
fn planned<L: Labels>(
    labels: &mut L,
    heap: &Heap<L::Label>,
    o: ObjId,
    key: &Key,
) -> Option<(bool, bool, bool)>
    requires there { o.0 < length heap.now }
    requires belongs { HasHeap (L.made labels.old) heap.now }
{
    if key.index().is_some() {
        return None;
    }
    match can_put(heap, labels, o, key) {
        Ok(PutPlan::Write { walk }) => Some((true, labels.has(walk, 0), labels.has(walk, 1))),
        Ok(PutPlan::Add { walk }) => Some((false, labels.has(walk, 0), labels.has(walk, 1))),
        _ => None,
    }
}

// The keys of an enumeration, and whether the walk has the origins 0 and 1.
fn listed<L: Labels>(
    alloc: Global,
    labels: &mut L,
    heap: &Heap<L::Label>,
    o: ObjId,
) -> Result<(KeyRow, bool, bool), OutOfMemory>
    requires there { o.0 < length heap.now }
    requires belongs { HasHeap (L.made labels.old) heap.now }
{
    let list = keys(alloc, heap, labels, o)?;
    let link = labels.has(list.walk, 0);
    let structure = labels.has(list.walk, 1);
    Ok((list.keys, link, structure))
}

fn walks_past_objects_without_properties(alloc: Global) -> Result<bool, OutOfMemory> {
    let a = Masks.single(0)?;
    let b = Masks.single(1)?;
    let p = Key::new(Text::spelled(alloc, "p")?);
    let (heap, o) = make_two(alloc, &Masks, a, b)?;
    let absent = found(&mut Masks, &heap, o, &p) == Some((None, true, true));
    let added = planned(&mut Masks, &heap, o, &p) == Some((false, true, true));
    let (row, link, structure) = listed(alloc, &mut Masks, &heap, o)?;
    Ok(absent && added && row.items().is_empty() && link && structure)
}

// A property of the object stands before one of its prototype with the same key.
fn nearer_properties_shadow(alloc: Global) -> Result<bool, OutOfMemory> {
    let a = Masks.single(0)?;
    let b = Masks.single(1)?;
    let (mut heap, o) = make_two(alloc, &Masks, a, b)?;
    let y = added(alloc, &mut Masks, &mut heap, ObjId(0), "y", true)?;
    added(alloc, &mut Masks, &mut heap, ObjId(0), "x", true)?;
    let x = added(alloc, &mut Masks, &mut heap, o, "x", true)?;
    let near = found(&mut Masks, &heap, o, &x) == Some((Some(o), false, false));
    let far = found(&mut Masks, &heap, o, &y) == Some((Some(ObjId(0)), true, true));
    let writes = planned(&mut Masks, &heap, o, &x) == Some((true, false, false));
    let adds = planned(&mut Masks, &heap, o, &y) == Some((false, true, true));
    Ok(near && far && writes && adds)
}

// The object's own keys stand first, and a key of a prototype isn't taken where the object has it, also if it isn't enumerable there (ECMA-262 12.6.4).
fn hidden_keys_shadow(alloc: Global) -> Result<bool, OutOfMemory> {
    let a = Masks.single(0)?;
    let b = Masks.single(1)?;
    let (mut heap, o) = make_two(alloc, &Masks, a, b)?;
    added(alloc, &mut Masks, &mut heap, ObjId(0), "x", true)?;
    let y = added(alloc, &mut Masks, &mut heap, ObjId(0), "y", true)?;
    let z = added(alloc, &mut Masks, &mut heap, o, "z", true)?;
    added(alloc, &mut Masks, &mut heap, o, "x", false)?;
    let (row, link, structure) = listed(alloc, &mut Masks, &heap, o)?;
    let once = matches!(row.items(), [first, second] if *first == z && *second == y);
    Ok(once && link && structure)
}

#[test]
fn walks_of_prototypes(rt: HostRuntime) {
    let alloc = rt.alloc();
    assert!(rt; holds(walks_past_objects_without_properties(alloc)));
    assert!(rt; holds(nearer_properties_shadow(alloc)));
    assert!(rt; holds(hidden_keys_shadow(alloc)));
}
