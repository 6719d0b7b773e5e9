//! The keys of an object and its prototypes.

ghost use Rattle.std.specs.Prelude.{◌≡◌, ◌<◌, ℕ, List, [], ◌∷◌, ◌++◌, IfOk, OnOk, length, slice_get};
ghost use Rattle.origin_labels.specs.Label.{union};
ghost use Rattle.origin_labels.specs.Names.{has_name};
ghost use Rattle.origin_labels.specs.Stores.{IsKept};
ghost use Rattle.js_values.specs.Objects.{keys_of};
ghost use Rattle.js_values.specs.Readings.{HasHeap, read_rows};
ghost use Rattle.prototype_walk.specs.KeyLists.{fresh_keys, existences, listed_keys, rows_in};
ghost use Rattle.prototype_walk.specs.Answers.{Means, IsKeyList, IsOwnList};

use crate::key_list::KeyList;
use crate::walk::{join, pass};
use flow_text::OutOfMemory;
use js_values::{Key, KeyRow, ObjId, Slot};
use object_heap::Heap;
use origin_labels::Labels;
use std::alloc::Global;
use std::collections::BTreeSet;

/// The keys that `for in` takes, in order: the enumerable ones of the object, then those of each prototype that weren't met before. The label is that of the
/// whole enumeration: the structure, the link and the existence of all properties of each object.
pub fn keys<T: Copy, L: Labels<Label = T>>(
    alloc: Global,
    heap: &Heap<T>,
    labels: &mut L,
    o: ObjId,
) -> Result<KeyList<T>, OutOfMemory>
    requires there { o.0 < length heap.now }
    requires belongs { HasHeap (L.made labels.old) heap.now }
    ensures keys { IfOk result (IsKeyList L.made L.meaning labels.new heap.now o.0) }
    ensures kept { IsKept L.made L.meaning L.room L.firm labels.old labels.new }
{
    let count = heap.len();
    prove!(o.0 < count);
    let mut keys = KeyRow::new(alloc);
    let mut met = BTreeSet::new(alloc);
    let mut at = o;
    let mut walk = labels.bottom();
    'along: loop {
        take_fresh(alloc, heap, at, &met, &mut keys)?;
        meet(alloc, heap, at, &mut met)?;
        let shape = heap.shape(at);
        walk = pass(labels, walk, shape)?;
        walk = join_existences(heap, labels, at, walk)?;
        match shape.proto {
            Some(proto) => at = proto,
            None => return Ok(KeyList { keys, walk }),
        }
    }
}

/// The own keys of an object in their order (ECMA-262 15.2.3.4, 15.2.3.14): all, or the enumerable ones. The label is that of its structure and of the existence
/// of all its properties.
pub fn own_keys<T: Copy, L: Labels<Label = T>>(
    alloc: Global,
    heap: &Heap<T>,
    labels: &mut L,
    o: ObjId,
    all: bool,
) -> Result<KeyList<T>, OutOfMemory>
    requires there { o.0 < length heap.now }
    requires belongs { HasHeap (L.made labels.old) heap.now }
    ensures keys { IfOk result (IsOwnList L.made L.meaning labels.new heap.now o.0 all) }
    ensures kept { IsKept L.made L.meaning L.room L.firm labels.old labels.new }
{
    let keys = list_own(alloc, heap, o, all)?;
    let shape = heap.shape(o);
    let walk = join_existences(heap, labels, o, shape.structure)?;
    Ok(KeyList { keys, walk })
}

/// The own keys of an object: all, or the enumerable ones.
fn list_own<T: Copy>(
    alloc: Global,
    heap: &Heap<T>,
    o: ObjId,
    all: bool,
) -> Result<KeyRow, OutOfMemory>
    requires { o.0 < length heap.now }
    ensures { IfOk result (λ keys. keys ≡ listed_keys all (rows_in (slice_get heap.now o.0))) }
{
    let mut keys = KeyRow::new(alloc);
    for n in 0..usize::MAX {
        let Some((key, slot)) = heap.own_at(o, n) else {
            return Ok(keys);
        };
        take_own(alloc, key, slot, all, &mut keys)?;
    }
    // No object has so many properties.
    Err(OutOfMemory)
}

/// Appends a key, if it is enumerable or all are listed.
fn take_own<T: Copy>(
    alloc: Global,
    key: &Key,
    slot: &Slot<T>,
    all: bool,
    keys: &mut KeyRow,
) -> Result<(), OutOfMemory>
    ensures { OnOk result (keys.new ≡ keys.old ++ listed_keys all ((key.now, slot.now) ∷ [])) }
{
    if all || slot.marks.enumerable {
        keys.push(key.copy(alloc)?)?;
    }
    Ok(())
}

/// Appends the enumerable keys of an object that weren't met.
fn take_fresh<T: Copy>(
    alloc: Global,
    heap: &Heap<T>,
    at: ObjId,
    met: &BTreeSet<Key>,
    keys: &mut KeyRow,
) -> Result<(), OutOfMemory>
    requires { at.0 < length heap.now }
    ensures { OnOk result (keys.new ≡ keys.old ++ fresh_keys met.now.keys (rows_in (slice_get heap.now at.0))) }
{
    for n in 0..usize::MAX {
        let Some((key, slot)) = heap.own_at(at, n) else {
            return Ok(());
        };
        take(alloc, key, slot, met, keys)?;
    }
    // No object has so many properties.
    Err(OutOfMemory)
}

/// Appends a key, if it is enumerable and wasn't met.
fn take<T: Copy>(
    alloc: Global,
    key: &Key,
    slot: &Slot<T>,
    met: &BTreeSet<Key>,
    keys: &mut KeyRow,
) -> Result<(), OutOfMemory>
    ensures { OnOk result (keys.new ≡ keys.old ++ fresh_keys met.now.keys ((key.now, slot.now) ∷ [])) }
{
    if slot.marks.enumerable && !has_met(met, key) {
        keys.push(key.copy(alloc)?)?;
    }
    Ok(())
}

/// Whether the key was met.
fn has_met(met: &BTreeSet<Key>, key: &Key) -> bool
    ensures { result ≡ has_name key.now met.now.keys }
{
    met.contains(key)
}

/// Adds all keys of an object to those that were met.
fn meet<T: Copy>(
    alloc: Global,
    heap: &Heap<T>,
    at: ObjId,
    met: &mut BTreeSet<Key>,
) -> Result<(), OutOfMemory>
    requires { at.0 < length heap.now }
    ensures { OnOk result ((key : List ℕ) → has_name key met.new.keys ≡ has_name key (met.old.keys ++ keys_of (rows_in (slice_get heap.now at.0)))) }
{
    for n in 0..usize::MAX {
        let Some((key, _)) = heap.own_at(at, n) else {
            return Ok(());
        };
        met.insert(key.copy(alloc)?)?;
    }
    // No object has so many properties.
    Err(OutOfMemory)
}

/// The label of a walk with the existence of each property of an object.
fn join_existences<T: Copy, L: Labels<Label = T>>(
    heap: &Heap<T>,
    labels: &mut L,
    at: ObjId,
    walk: T,
) -> Result<T, OutOfMemory>
    requires there { at.0 < length heap.now }
    requires walk { L.made labels.old walk }
    requires belongs { HasHeap (L.made labels.old) heap.now }
    ensures means { IfOk result (λ label. Means L.made L.meaning labels.new label (λ reading. union (reading walk) (existences (read_rows reading (rows_in (slice_get heap.now at.0)))))) }
    ensures kept { IsKept L.made L.meaning L.room L.firm labels.old labels.new }
{
    let mut joined = walk;
    for n in 0..usize::MAX {
        let Some((_, slot)) = heap.own_at(at, n) else {
            return Ok(joined);
        };
        joined = join(labels, joined, slot.existence)?;
    }
    // No object has so many properties.
    Err(OutOfMemory)
}
