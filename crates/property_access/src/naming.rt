//! Names and their values.

ghost use Rattle.std.specs.Prelude.{◌≡◌, ◌<◌, length, IfOk};
ghost use Rattle.std.specs.Option.{option_map};
ghost use Rattle.origin_labels.specs.Label.{Label};
ghost use Rattle.origin_labels.specs.Stores.{IsKept};
ghost use Rattle.js_values.specs.Objects.{number_of};
ghost use Rattle.js_values.specs.Readings.{IsReading, read_heap, read_records};
ghost use Rattle.es_meaning.specs.Plain.{binding_at, place_beyond};
ghost use Rattle.flow_meaning.specs.Tracked.{accessed, accessed_for_typeof, as_access, bound, resolved};
ghost use Rattle.run_state.specs.Accesses.{HasAccess, read_access};
ghost use Rattle.run_state.specs.Acts.{Acts, HasAnswer};
ghost use Rattle.run_state.specs.Names.{reference_of, place_of};
ghost use Rattle.run_state.specs.Worlds.{Belongs, Grows};

use crate::properties::{GLOBAL, get_global, undefined};
use crate::throwing::{throw_error, throw_without_cause};
use flow_frames::FlowFault;
use flow_text::{OutOfMemory, Text};
use js_values::{EnvId, Labelled, ObjId};
use native_protocol::ErrorKind;
use origin_labels::Labels;
use prototype_walk::find_named;
use run_state::{Access, Named, Outcome, Place, World};
use std::alloc::Global;

/// What a name stands for, from a record on outwards and then along the global object (ECMA-262 10.3.1).
pub fn resolve<'p, T: Copy, L: Labels<Label = T>>(
    labels: &mut L,
    world: &World<T>,
    at: EnvId,
    name: &'p Text,
) -> Result<Named<'p, T>, OutOfMemory>
    requires there { at.0 < length world.now.records }
    requires belongs { Belongs L.made L.meaning labels.old world.now }
    ensures resolved { IfOk result (λ named. (reading : T → Label) → IsReading L.made L.meaning labels.new reading → reference_of reading named ≡ resolved (read_records reading world.now.records) (read_heap reading world.now.heap) at.0 name.entry.now) }
    ensures made { IfOk result (λ named. L.made labels.new named.walk) }
    ensures kept { IsKept L.made L.meaning L.room L.firm labels.old labels.new }
{
    if let Some(e) = world.records.lookup(at, name) {
        let place = Place::Record(e);
        let walk = labels.bottom();
        return Ok(Named { name, place, walk });
    }
    let found = find_named(&world.heap, labels, GLOBAL, name)?;
    let place = beyond(found.at);
    let walk = found.walk;
    Ok(Named { name, place, walk })
}

/// Where a name stands that no record has, by the object along the global object that has it.
fn beyond(at: Option<ObjId>) -> Place
    ensures { place_of result ≡ place_beyond (number_of at) }
{
    match at {
        Some(_) => Place::Global,
        None => Place::Nowhere,
    }
}

/// What a name comes to (ECMA-262 8.7.1): a name that stands nowhere throws.
pub fn get_name<T: Copy, L: Labels<Label = T>>(
    alloc: Global,
    labels: &mut L,
    world: &mut World<T>,
    named: Named<'_, T>,
) -> Result<Outcome<Access<T>, T>, FlowFault<T>>
    requires walk { L.made labels.old named.walk }
    requires belongs { Belongs L.made L.meaning labels.old world.old }
    ensures acts { Acts L.made L.meaning labels.new (λ reading. read_access reading) (λ reading. accessed (reference_of reading named.entry)) world.old world.new result }
    ensures made { HasAnswer (HasAccess (L.made labels.new)) (L.made labels.new) result }
    ensures belongs { Belongs L.made L.meaning labels.new world.new }
    ensures grows { Grows world.old world.new }
    ensures kept { IsKept L.made L.meaning L.room L.firm labels.old labels.new }
{
    match named.place {
        Place::Record(e) => get_bound(alloc, labels, world, e, named.name),
        Place::Global => get_global(alloc, labels, world, named.name, named.walk),
        Place::Nowhere => throw_error(labels, world, ErrorKind::ReferenceError, named.walk),
    }
}

/// What a name comes to for `typeof` (ECMA-262 11.4.3): one that stands nowhere is undefined.
pub fn typeof_name<T: Copy, L: Labels<Label = T>>(
    alloc: Global,
    labels: &mut L,
    world: &mut World<T>,
    named: Named<'_, T>,
) -> Result<Outcome<Access<T>, T>, FlowFault<T>>
    requires walk { L.made labels.old named.walk }
    requires belongs { Belongs L.made L.meaning labels.old world.old }
    ensures acts { Acts L.made L.meaning labels.new (λ reading. read_access reading) (λ reading. accessed_for_typeof (reference_of reading named.entry)) world.old world.new result }
    ensures made { HasAnswer (HasAccess (L.made labels.new)) (L.made labels.new) result }
    ensures belongs { Belongs L.made L.meaning labels.new world.new }
    ensures grows { Grows world.old world.new }
    ensures kept { IsKept L.made L.meaning L.room L.firm labels.old labels.new }
{
    match named.place {
        Place::Nowhere => Ok(Outcome::Goes(Access::Value(undefined(named.walk)))),
        _ => get_name(alloc, labels, world, named),
    }
}

/// The value of a name in a record: a name without a binding throws.
fn get_bound<T: Copy, L: Labels<Label = T>>(
    alloc: Global,
    labels: &mut L,
    world: &mut World<T>,
    e: EnvId,
    name: &Text,
) -> Result<Outcome<Access<T>, T>, FlowFault<T>>
    requires belongs { Belongs L.made L.meaning labels.old world.old }
    ensures acts { Acts L.made L.meaning labels.new (λ reading. read_access reading) (λ reading. as_access (λ s. bound (binding_at s.records e.0 name.now) s)) world.old world.new result }
    ensures made { HasAnswer (HasAccess (L.made labels.new)) (L.made labels.new) result }
    ensures belongs { Belongs L.made L.meaning labels.new world.new }
    ensures grows { Grows world.old world.new }
    ensures kept { IsKept L.made L.meaning L.room L.firm labels.old labels.new }
{
    match value_of(alloc, world, e, name)? {
        Some(value) => Ok(Outcome::Goes(Access::Value(value))),
        None => throw_without_cause(labels, world, ErrorKind::ReferenceError),
    }
}

/// The same value as that of a name in a record, if it has a binding.
fn value_of<T: Copy>(
    alloc: Global,
    world: &World<T>,
    e: EnvId,
    name: &Text,
) -> Result<Option<Labelled<T>>, OutOfMemory>
    ensures { IfOk result (λ value. value ≡ option_map (λ b. b.value) (binding_at world.now.records e.0 name.now)) }
{
    match own(world, e, name) {
        Some(value) => Ok(Some(value.copy(alloc)?)),
        None => Ok(None),
    }
}

/// The value of a name in a record, if it has a binding: in a record that isn't there it has none.
pub(crate) fn own<'w, T: Copy>(
    world: &'w World<T>,
    e: EnvId,
    name: &Text,
) -> Option<&'w Labelled<T>>
    ensures { option_map (λ v. v.now) result ≡ option_map (λ b. b.value) (binding_at world.now.records e.0 name.now) }
{
    if e.0 < world.records.len() {
        world.records.own(e, name)
    } else {
        None
    }
}
