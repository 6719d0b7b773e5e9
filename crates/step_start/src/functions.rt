//! Built-in functions as objects (ECMA-262 15).

ghost use Rattle.std.specs.Prelude.{◌≡◌, ◌<◌, ◌+◌, [], ◌∷◌, IfOk, OnOk, length};
ghost use Rattle.es_meaning.specs.Holders.{prototype_rows};
ghost use Rattle.es_meaning.specs.Start.{native_function};
ghost use Rattle.plain_heap.specs.PlainObjects.{changed, with_more};
ghost use Rattle.step_start.specs.Given.{with_prototype};

use flow_text::OutOfMemory;
use js_values::{Body, Class, Inner, ObjId, Value};
use plain_heap::{FIXED, FUNCTION_PROTOTYPE, PlainHeap};
use std::alloc::Global;

/// Makes a built-in function with a number and a `length`, and the prototype of what it constructs, where it has one. It gets the accessors of `caller` and
/// `arguments` when all built-ins are made, so that they stand last.
pub(crate) fn make_native<T: Copy>(
    alloc: Global,
    heap: &mut PlainHeap<T>,
    which: u32,
    size: u32,
    prototype: Option<ObjId>,
) -> Result<ObjId, OutOfMemory>
    requires started { 9 < length heap.old.objects }
    ensures ok { OnOk result (heap.new ≡ with_more (native_function which size (prototype_rows prototype) ∷ []) heap.old) }
    ensures number { IfOk result (λ o. o.0 ≡ length heap.old.objects) }
    ensures length { OnOk result (length heap.new.objects ≡ length heap.old.objects + 1) }
{
    let f = heap.new_object(
        Class::Function,
        Some(FUNCTION_PROTOTYPE),
        Inner::Native { which },
    )?;
    heap.give_length(alloc, f, size)?;
    give_prototype(alloc, heap, f, prototype)?;
    Ok(f)
}

// Gives a function the prototype of what it constructs, where it has one.
fn give_prototype<T: Copy>(
    alloc: Global,
    heap: &mut PlainHeap<T>,
    f: ObjId,
    prototype: Option<ObjId>,
) -> Result<(), OutOfMemory>
    ensures { OnOk result (heap.new ≡ changed (with_prototype f.0 prototype) heap.old) }
{
    match prototype {
        None => Ok(()),
        Some(o) => {
            let body = Body::Data(Value::Object(o));
            heap.give_named(alloc, f, "prototype", body, FIXED)
        }
    }
}
