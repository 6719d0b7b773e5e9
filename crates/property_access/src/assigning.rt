//! Names that are given values.

ghost use Rattle.std.specs.Prelude.{IsSome, slice_get};
ghost use Rattle.origin_labels.specs.Stores.{IsKept};
ghost use Rattle.js_values.specs.Records.{bound_in};
ghost use Rattle.js_values.specs.Readings.{read_value};
ghost use Rattle.es_meaning.specs.Plain.{in_record, on_global};
ghost use Rattle.flow_meaning.specs.Tracked.{put_value, put_named};
ghost use Rattle.run_state.specs.Accesses.{HasPutting, read_putting};
ghost use Rattle.run_state.specs.Acts.{Acts, HasAnswer};
ghost use Rattle.run_state.specs.Names.{reference_of};
ghost use Rattle.run_state.specs.Worlds.{Belongs, Grows};

use crate::naming::own;
use crate::properties::GLOBAL;
use crate::putting::put_on_object;
use crate::throwing::{throw_error, throw_without_cause};
use env_records::AssignFault;
use flow_frames::{FlowFault, Rule};
use flow_text::Text;
use js_values::{EnvId, Labelled};
use native_protocol::ErrorKind;
use origin_labels::Labels;
use run_state::{Named, Outcome, Place, Putting, World};
use std::alloc::Global;

/// Gives a name a value (ECMA-262 8.7.2), by rule W1, or comes to its setter. A name that stands nowhere throws.
pub fn put_name<T: Copy, L: Labels<Label = T>>(
    alloc: Global,
    labels: &mut L,
    world: &mut World<T>,
    named: Named<'_, T>,
    value: Labelled<T>,
) -> Result<Outcome<Putting<T>, T>, FlowFault<T>>
    requires walk { L.made labels.old named.walk }
    requires value { L.made labels.old value.label }
    requires belongs { Belongs L.made L.meaning labels.old world.old }
    ensures acts { Acts L.made L.meaning labels.new (λ reading. read_putting reading) (λ reading. put_value (reference_of reading named.entry) (read_value reading value)) world.old world.new result }
    ensures made { HasAnswer (HasPutting (L.made labels.new)) (L.made labels.new) result }
    ensures belongs { Belongs L.made L.meaning labels.new world.new }
    ensures grows { Grows world.old world.new }
    ensures kept { IsKept L.made L.meaning L.room L.firm labels.old labels.new }
{
    match named.place {
        Place::Record(e) => put_bound(labels, world, e, named.name, value),
        Place::Global => put_global(alloc, labels, world, named.name, value),
        Place::Nowhere => throw_error(labels, world, ErrorKind::ReferenceError, named.walk),
    }
}

/// Gives a name of the global object a value.
fn put_global<T: Copy, L: Labels<Label = T>>(
    alloc: Global,
    labels: &mut L,
    world: &mut World<T>,
    name: &Text,
    value: Labelled<T>,
) -> Result<Outcome<Putting<T>, T>, FlowFault<T>>
    requires value { L.made labels.old value.label }
    requires belongs { Belongs L.made L.meaning labels.old world.old }
    ensures acts { (walk : T) → Acts L.made L.meaning labels.new (λ reading. read_putting reading) (λ reading. put_named on_global (reading walk) name.now (read_value reading value)) world.old world.new result }
    ensures made { HasAnswer (HasPutting (L.made labels.new)) (L.made labels.new) result }
    ensures belongs { Belongs L.made L.meaning labels.new world.new }
    ensures grows { Grows world.old world.new }
    ensures kept { IsKept L.made L.meaning L.room L.firm labels.old labels.new }
{
    let none = labels.bottom();
    put_on_object(
        alloc,
        labels,
        world,
        Rule::W1,
        GLOBAL,
        name,
        none,
        none,
        value,
    )
}

/// Gives a name in a record a value: a name without a binding throws.
fn put_bound<T: Copy, L: Labels<Label = T>>(
    labels: &mut L,
    world: &mut World<T>,
    e: EnvId,
    name: &Text,
    value: Labelled<T>,
) -> Result<Outcome<Putting<T>, T>, FlowFault<T>>
    requires value { L.made labels.old value.label }
    requires belongs { Belongs L.made L.meaning labels.old world.old }
    ensures acts { (walk : T) → Acts L.made L.meaning labels.new (λ reading. read_putting reading) (λ reading. put_named (in_record e.0) (reading walk) name.now (read_value reading value)) world.old world.new result }
    ensures made { HasAnswer (HasPutting (L.made labels.new)) (L.made labels.new) result }
    ensures belongs { Belongs L.made L.meaning labels.new world.new }
    ensures grows { Grows world.old world.new }
    ensures kept { IsKept L.made L.meaning L.room L.firm labels.old labels.new }
{
    if own(world, e, name).is_none() {
        return throw_without_cause(labels, world, ErrorKind::ReferenceError);
    }
    assign(labels, world, e, name, value)
}

/// Gives a name that is bound in the record a value.
fn assign<T: Copy, L: Labels<Label = T>>(
    labels: &mut L,
    world: &mut World<T>,
    e: EnvId,
    name: &Text,
    value: Labelled<T>,
) -> Result<Outcome<Putting<T>, T>, FlowFault<T>>
    requires bound { IsSome (bound_in name.now (slice_get world.old.records e.0)) }
    requires value { L.made labels.old value.label }
    requires belongs { Belongs L.made L.meaning labels.old world.old }
    ensures acts { (walk : T) → Acts L.made L.meaning labels.new (λ reading. read_putting reading) (λ reading. put_named (in_record e.0) (reading walk) name.now (read_value reading value)) world.old world.new result }
    ensures made { HasAnswer (HasPutting (L.made labels.new)) (L.made labels.new) result }
    ensures belongs { Belongs L.made L.meaning labels.new world.new }
    ensures grows { Grows world.old world.new }
    ensures kept { IsKept L.made L.meaning L.room L.firm labels.old labels.new }
{
    let context = world.frames.context(labels);
    match world.records.assign(labels, e, name, context, value) {
        Ok(()) => Ok(Outcome::Goes(Putting::Put)),
        Err(AssignFault::Immutable) => throw_without_cause(labels, world, ErrorKind::TypeError),
        Err(AssignFault::Stop(stop)) => Err(FlowFault::Stop(stop)),
        Err(AssignFault::OutOfMemory) => Err(FlowFault::OutOfMemory),
    }
}
