//! The holder of a built-in: the global object, or what a dotted path leads to from there.

ghost use Rattle.std.specs.Prelude.{◌≡◌, [], ◌∷◌, IfOk, nat_eq};
ghost use Rattle.js_values.specs.Objects.{number_of};
ghost use Rattle.es_meaning.specs.Holders.{dot, holder_in, led_on, object_in};
ghost use Rattle.step_start.specs.Ways.{Reads};

use flow_text::{OutOfMemory, Text};
use js_values::{Body, Key, ObjId, Value};
use plain_heap::{GLOBAL_OBJECT, PlainHeap};
use std::alloc::Global;

/// The object that a path names, where there is one.
pub(crate) fn holder_of<T: Copy>(
    alloc: Global,
    heap: &PlainHeap<T>,
    path: &str,
) -> Result<Option<ObjId>, OutOfMemory>
    ensures { IfOk result (λ o. number_of o ≡ holder_in heap.now.objects path.now) }
{
    if path == "global" {
        return Ok(Some(GLOBAL_OBJECT));
    }
    let mut way = Way {
        holder: Some(GLOBAL_OBJECT),
        part: Text::new(alloc),
    };
    'bytes: for byte in path.as_bytes() {
        way = read_byte(alloc, heap, way, *byte)?;
    }
    Ok(member(heap, way.holder, way.part))
}

// A path as far as it was read: where it led, and the part that has begun.
#[derive(Drop)]
struct Way {
    holder: Option<ObjId>,
    part: Text,
}

// A dot ends the part, and any other byte goes on with it.
fn read_byte<T: Copy>(
    alloc: Global,
    heap: &PlainHeap<T>,
    way: Way,
    byte: u8,
) -> Result<Way, OutOfMemory>
    ensures { IfOk result (λ next. Reads heap.now.objects (number_of way.holder) way.part byte (number_of next.holder) next.part) }
{
    let Way { holder, mut part } = way;
    if is_dot(byte) {
        let holder = member(heap, holder, part);
        let part = Text::new(alloc);
        return Ok(Way { holder, part });
    }
    part.push(unit_of(byte))?;
    Ok(Way { holder, part })
}

fn unit_of(byte: u8) -> u16
    ensures { result ≡ byte }
{
    u16::from(byte)
}

fn is_dot(byte: u8) -> bool
    ensures { result ≡ nat_eq byte dot }
{
    byte == b'.'
}

// The object that a property of an object holds, where there is one.
fn member<T: Copy>(heap: &PlainHeap<T>, holder: Option<ObjId>, part: Text) -> Option<ObjId>
    ensures { number_of result ≡ led_on (part ∷ []) heap.now.objects (number_of holder) }
{
    match holder {
        None => None,
        Some(o) => match heap.own(o, &Key::new(part)) {
            None => None,
            Some(slot) => object_in(&slot.body),
        },
    }
}

// The object that a property holds, where it holds one.
fn object_in(body: &Body) -> Option<ObjId>
    ensures { number_of result ≡ object_in body.now }
{
    match body {
        Body::Data(Value::Object(o)) => Some(*o),
        Body::Data(Value::Primitive(_)) => None,
        Body::Accessor { .. } => None,
    }
}
