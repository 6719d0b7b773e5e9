//! Properties of the standard's own objects, and of those that a set makes.

use channels::ChannelNatives;
use flow_policy::read_policy;
use flow_text::OutOfMemory;
use js_values::{Body, ObjId, Value};
use plain_heap::{GLOBAL_OBJECT, PlainHeap, key_of};
use std::alloc::Global;
use step_start::start_objects;

// The object that a property holds.
fn held(
    alloc: Global,
    heap: &PlainHeap<u8>,
    o: ObjId,
    name: &str,
) -> Result<Option<u64>, OutOfMemory> {
    let key = key_of(alloc, name)?;
    Ok(match heap.own(o, &key) {
        Some(slot) => match &slot.body {
            Body::Data(Value::Object(f)) => Some(f.0),
            _ => None,
        },
        None => None,
    })
}

// The channels' functions stand behind the first nineteen objects, as properties of the global object.
fn are_there(alloc: Global) -> Result<bool, OutOfMemory> {
    let Ok(policy) = read_policy(alloc, b"origin A") else {
        return Err(OutOfMemory);
    };
    let natives = ChannelNatives::new(alloc, &policy)?;
    let heap = start_objects(alloc, &natives, 7u8)?;
    let read = held(alloc, &heap, GLOBAL_OBJECT, "read")?;
    let upge = held(alloc, &heap, GLOBAL_OBJECT, "upge")?;
    let none = held(alloc, &heap, GLOBAL_OBJECT, "eval")?;
    Ok(heap.len() == 24 && read == Some(19) && upge == Some(23) && none == None)
}

#[test]
fn objects_of_the_channels(rt: HostRuntime) {
    assert!(rt; are_there(rt.alloc()) == Ok(true));
}
