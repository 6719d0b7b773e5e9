//! Whether an object has a key.

ghost use Rattle.std.specs.Prelude.{◌≡◌, [], ◌∷◌, IfOk};
ghost use Rattle.origin_labels.specs.Stores.{IsKept};
ghost use Rattle.flow_policy.specs.Policies.{Tables};
ghost use Rattle.flow_policy.specs.Inputs.{Given};
ghost use Rattle.js_values.specs.Readings.{HasValue, read_value};
ghost use Rattle.js_values.specs.Readings.{read_heap};
ghost use Rattle.js_values.specs.Walks.{find, object_chain};
ghost use Rattle.es_meaning.specs.Primitives.{own_value_of};
ghost use Rattle.flow_meaning.specs.Tracked.{primitive_chain};
ghost use Rattle.step_objects.specs.Asking.{IsAsked, asked_in, asked_of, asked_of_primitive};
ghost use Rattle.es_meaning.specs.Operations as operations;
ghost use Rattle.flow_meaning.specs.Tracked.{act};
ghost use Rattle.run_state.specs.Acts.{Acts, HasAnswer};
ghost use Rattle.run_state.specs.Worlds.{Belongs};

use crate::parts::{join, key_of};
use flow_frames::FlowFault;
use flow_text::OutOfMemory;
use js_number::Primitive;
use js_values::{Key, Labelled, ObjId, Value};
use origin_labels::Labels;
use property_access::{find_beyond, find_property, has_own};
use run_state::{Outcome, World};
use std::alloc::Global;

/// Whether an object or a prototype of it has a key (ECMA-262 8.12.6). The answer depends on the key, the object and the walk. So is
/// a primitive value asked, as the object that it would be wrapped in.
pub fn has_key<T: Copy, L: Labels<Label = T>>(
    alloc: Global,
    labels: &mut L,
    world: &World<T>,
    key: Labelled<T>,
    object: Labelled<T>,
) -> Result<Outcome<Labelled<T>, T>, FlowFault<T>>
    requires key { L.made labels.old key.label }
    requires object { L.made labels.old object.label }
    requires belongs { Belongs L.made L.meaning labels.old world.now }
    ensures acts { (tables : Tables) (inputs : Given) → Acts L.made L.meaning labels.new (λ reading. read_value reading) (λ reading. act tables inputs operations.has_key (read_value reading key ∷ read_value reading object ∷ [])) world.now world.now result }
    ensures made { HasAnswer (HasValue (L.made labels.new)) (L.made labels.new) result }
    ensures belongs { Belongs L.made L.meaning labels.new world.now }
    ensures kept { IsKept L.made L.meaning L.room L.firm labels.old labels.new }
{
    let label = join(labels, key.label, object.label)?;
    let name = key_of(alloc, key.value)?;
    let asked = ask(labels, world, &object.value, &name)?;
    let depends = join(labels, label, asked.walk)?;
    Ok(Outcome::Goes(Labelled {
        value: Value::Primitive(Primitive::Bool(asked.has)),
        label: depends,
    }))
}

/// Whether there is a property, and the label of the walk on which that depends.
#[derive(Clone, Copy)]
pub(crate) struct Asked<T> {
    pub(crate) has: bool,
    pub(crate) walk: T,
}

/// Whether a value has a key.
fn ask<T: Copy, L: Labels<Label = T>>(
    labels: &mut L,
    world: &World<T>,
    value: &Value,
    key: &Key,
) -> Result<Asked<T>, OutOfMemory>
    requires { Belongs L.made L.meaning labels.old world.now }
    ensures asked { IfOk result (IsAsked L.made L.meaning labels.new (λ reading. asked_of (read_heap reading world.now.heap) key.now value.now)) }
    ensures kept { IsKept L.made L.meaning L.room L.firm labels.old labels.new }
{
    match value {
        Value::Object(o) => find_key(labels, world, *o, key),
        Value::Primitive(p) => find_of_primitive(labels, world, p, key),
    }
}

/// Whether a primitive value has a key itself, or from its prototype on. An own property has an empty walk.
fn find_of_primitive<T: Copy, L: Labels<Label = T>>(
    labels: &mut L,
    world: &World<T>,
    value: &Primitive,
    key: &Key,
) -> Result<Asked<T>, OutOfMemory>
    requires { Belongs L.made L.meaning labels.old world.now }
    ensures asked { IfOk result (IsAsked L.made L.meaning labels.new (λ reading. asked_of_primitive (own_value_of value.now key.now) (find key.now (primitive_chain (read_heap reading world.now.heap) value.now)))) }
    ensures kept { IsKept L.made L.meaning L.room L.firm labels.old labels.new }
{
    if has_own(value, key.text()) {
        let walk = labels.bottom();
        return Ok(Asked { has: true, walk });
    }
    let (place, walk) = find_beyond(labels, world, value, key.text())?;
    Ok(Asked {
        has: place.is_some(),
        walk,
    })
}

/// Whether an object or a prototype of it has a key. An object that isn't there has none.
fn find_key<T: Copy, L: Labels<Label = T>>(
    labels: &mut L,
    world: &World<T>,
    o: ObjId,
    key: &Key,
) -> Result<Asked<T>, OutOfMemory>
    requires { Belongs L.made L.meaning labels.old world.now }
    ensures asked { IfOk result (IsAsked L.made L.meaning labels.new (λ reading. asked_in (find key.now (object_chain (read_heap reading world.now.heap) o.0)))) }
    ensures kept { IsKept L.made L.meaning L.room L.firm labels.old labels.new }
{
    let (place, walk) = find_property(labels, world, o, key.text())?;
    Ok(Asked {
        has: place.is_some(),
        walk,
    })
}
