//! What a call begins with (ECMA-262 10.4.3, 10.5, 13.2.1): objects, and its record.

ghost use Rattle.std.specs.Prelude.{◌≡◌, ◌<◌, ◌≤◌, [], ◌∷◌, pos, Some, IfOk, OnOk, length, map, slice_get};
ghost use Rattle.std.specs.List.{All};
ghost use Rattle.origin_labels.specs.Stores.{IsKept};
ghost use Rattle.js_ast.specs.Held.{code_of};
ghost use Rattle.js_ast.specs.Views.{view_function};
ghost use Rattle.js_number.specs.declared.num.Num.TheVariants as nums;
ghost use Rattle.js_number.specs.declared.primitive.Primitive.TheVariants as prims;
ghost use Rattle.js_values.specs.declared.value.Value.TheVariants.{Primitive as PrimitiveValue};
ghost use Rattle.js_values.specs.Readings.{HasHeap, HasValue, read_value};
ghost use Rattle.flow_meaning.specs.Tracked.{with_call};
ghost use Rattle.function_table.specs.Tables.{table};
ghost use Rattle.run_state.specs.Worlds.{Belongs, Grows};
ghost use Rattle.function_entry.specs.Changing.{Changes};
ghost use Rattle.function_entry.specs.Declaring.{MakesNamed};

use crate::arguments::make_arguments;
use crate::declaring::make_declared;
use call_records::Entry;
use flow_text::OutOfMemory;
use function_table::{Functions, KnownKeys};
use js_ast::Function;
use js_number::{Int, Num, Primitive};
use js_values::{EnvId, Labelled, ObjId, Value};
use object_heap::Heap;
use origin_labels::Labels;
use run_state::World;
use std::alloc::Global;

// A number as a value.
#[inline(always)]
fn number_value(n: u32) -> Value
    ensures { result ≡ PrimitiveValue (prims.Num (nums.Int (pos n))) }
{
    let number = Int::new(i64::from(n)).unwrap();
    Value::Primitive(Primitive::Num(Num::Int(number)))
}

// Makes the `arguments` object, if the code of the function names it. Its number is that of the object that is made next.
#[inline(always)]
fn make_named<T: Copy, L: Labels<Label = T>>(
    alloc: Global,
    labels: &mut L,
    keys: &KnownKeys,
    heap: &mut Heap<T>,
    context: T,
    names_arguments: bool,
    number: u32,
    own: EnvId,
    args: &[Labelled<T>],
) -> Result<ObjId, OutOfMemory>
    requires started { 16 ≤ length heap.old }
    requires context { L.made labels.old context }
    requires args { All (HasValue (L.made labels.old)) args.now }
    requires belongs { HasHeap (L.made labels.old) heap.old }
    ensures makes { OnOk result (MakesNamed L.made L.meaning labels.new context names_arguments number own.0 args.now heap.old heap.new) }
    ensures number { IfOk result (λ o. o.0 ≡ length heap.old) }
    ensures grows { length heap.old ≤ length heap.new }
    ensures belongs { HasHeap (L.made labels.new) heap.new }
    ensures kept { IsKept L.made L.meaning L.room L.firm labels.old labels.new }
{
    let o = ObjId(heap.len());
    if !names_arguments {
        return Ok(o);
    }
    make_arguments(alloc, labels, keys, heap, context, number, own, args)?;
    Ok(o)
}

/// Begins a call of the function with this number, which closes over the record `place`: makes the objects of the functions that it declares, its
/// `arguments` object where its code names it, and its record, whose number it gives. `this` has its own label; all else that is bound has the present
/// context besides.
pub fn enter<T: Copy, L: Labels<Label = T>>(
    alloc: Global,
    labels: &mut L,
    world: &mut World<T>,
    functions: &Functions<'_>,
    number: u32,
    f: &Function,
    place: EnvId,
    this: Labelled<T>,
    args: &[Labelled<T>],
) -> Result<EnvId, OutOfMemory>
    requires known { slice_get (table functions.now) number ≡ Some (code_of f.now) }
    requires this { L.made labels.old this.label }
    requires args { All (HasValue (L.made labels.old)) args.now }
    requires belongs { Belongs L.made L.meaning labels.old world.old }
    ensures enters { OnOk result (Changes L.made L.meaning labels.new (λ reading. with_call (table functions.now) number (view_function f.now) place.0 (read_value reading this) (map (read_value reading) args.now)) world.old world.new) }
    ensures number { IfOk result (λ e. e.0 ≡ length world.old.records) }
    ensures there { IfOk result (λ e. e.0 < length world.new.records) }
    ensures frames { world.new.frames ≡ world.old.frames }
    ensures positions { world.new.positions ≡ world.old.positions }
    ensures belongs { OnOk result (Belongs L.made L.meaning labels.new world.new) }
    ensures grows { Grows world.old world.new }
    ensures kept { IsKept L.made L.meaning L.room L.firm labels.old labels.new }
{
    if place.0 >= world.records.len() {
        return Err(OutOfMemory);
    }
    let Some(layout) = functions.layout(number) else {
        unreachable!();
    };
    let keys = functions.keys();
    let context = world.frames.context(labels);
    let own = EnvId(world.records.len());
    let named = layout.names_arguments();
    let heap = &mut world.heap;
    let declared = make_declared(alloc, labels, heap, context, functions, &f.body, own)?;
    let arguments = make_named(alloc, labels, keys, heap, context, named, number, own, args)?;
    let entry = Entry {
        this,
        function: Labelled {
            value: number_value(number),
            label: labels.bottom(),
        },
        missing: Labelled {
            value: Value::Primitive(Primitive::Undefined),
            label: context,
        },
        functions: declared,
        arguments: Labelled {
            value: Value::Object(arguments),
            label: context,
        },
    };
    let e = layout.enter(
        alloc,
        labels,
        &mut world.records,
        place,
        args,
        context,
        entry,
    )?;
    Ok(e)
}
