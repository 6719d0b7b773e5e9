//! Functions that expressions make (ECMA-262 13).

ghost use Rattle.std.specs.Prelude.{◌≡◌, ◌<◌, ◌≤◌, ◌++◌, length, IfOk, OnOk};
ghost use Rattle.origin_labels.specs.Stores.{IsKept};
ghost use Rattle.js_ast.specs.Views.{view_function, view_name};
ghost use Rattle.js_values.specs.declared.value.Value.TheVariants.{Object};
ghost use Rattle.js_values.specs.Readings.{HasRecords};
ghost use Rattle.es_meaning.specs.Functions.{closes_over, own_name};
ghost use Rattle.flow_meaning.specs.Erased.{unlabelled};
ghost use Rattle.flow_meaning.specs.Tracked.{make_function};
ghost use Rattle.function_table.specs.Tables.{table};
ghost use Rattle.run_state.specs.Worlds.{Belongs, Grows};
ghost use Rattle.function_entry.specs.Changing.{Gives};

use crate::objects::{count, make_objects};
use env_records::Envs;
use flow_text::OutOfMemory;
use function_table::Functions;
use js_ast::{Function, Ident};
use js_values::{EnvId, Labelled, ObjId, Value};
use origin_labels::Labels;
use run_state::World;
use std::alloc::Global;

// The record that a function closes over: a function with a name has one of its own, which is made next.
fn closes_over(name: &Option<Ident>, place: EnvId, next: u64) -> EnvId
    ensures { result.0 ≡ closes_over (view_name name.now) place.0 next }
{
    match name {
        None => place,
        Some(_) => EnvId(next),
    }
}

// Makes the record of a function's own name, if it has one.
fn bind_own_name<T: Copy, L: Labels<Label = T>>(
    alloc: Global,
    _labels: &L,
    records: &mut Envs<T>,
    name: &Option<Ident>,
    place: EnvId,
    value: Labelled<T>,
) -> Result<(), OutOfMemory>
    requires place { place.0 < length records.old }
    requires value { L.made _labels.now value.label }
    requires belongs { HasRecords (L.made _labels.now) records.old }
    ensures binds { OnOk result (records.new ≡ records.old ++ own_name (view_name name.now) place.0 value) }
    ensures grows { length records.old ≤ length records.new }
    ensures belongs { HasRecords (L.made _labels.now) records.new }
{
    match name {
        None => Ok(()),
        Some(name) => {
            let name = name.text.copy(alloc)?;
            let e = records.new_record(Some(place))?;
            records.bind(e, name, false, value)?;
            Ok(())
        }
    }
}

/// Makes a function in the present context (ECMA-262 13.2), and if it has a name, a record with that name, over which it closes.
pub fn make_function<T: Copy, L: Labels<Label = T>>(
    alloc: Global,
    labels: &mut L,
    world: &mut World<T>,
    functions: &Functions<'_>,
    f: &Function,
    place: EnvId,
) -> Result<ObjId, OutOfMemory>
    requires { Belongs L.made L.meaning labels.old world.old }
    ensures gives { IfOk result (λ o. Gives L.made L.meaning labels.new (λ reading. make_function (table functions.now) (view_function f.now) place.0) (unlabelled (Object o)) world.old world.new) }
    ensures number { IfOk result (λ o. o.0 ≡ length world.old.heap) }
    ensures there { IfOk result (λ o. o.0 < length world.new.heap) }
    ensures frames { world.new.frames ≡ world.old.frames }
    ensures positions { world.new.positions ≡ world.old.positions }
    ensures belongs { Belongs L.made L.meaning labels.new world.new }
    ensures grows { Grows world.old world.new }
    ensures kept { IsKept L.made L.meaning L.room L.firm labels.old labels.new }
{
    if place.0 >= world.records.len() {
        return Err(OutOfMemory);
    }
    let context = world.frames.context(labels);
    let count = count(f)?;
    let number = functions.number_of(f);
    let env = closes_over(&f.name, place, world.records.len());
    let heap = &mut world.heap;
    let keys = functions.keys();
    let o = make_objects(alloc, labels, keys, heap, context, number, env, count)?;
    let value = Labelled {
        value: Value::Object(o),
        label: context,
    };
    bind_own_name(alloc, labels, &mut world.records, &f.name, place, value)?;
    Ok(o)
}
