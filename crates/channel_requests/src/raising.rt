//! Origins that are joined to the labels of objects.

ghost use Rattle.std.specs.Prelude.{◌≡◌, ◌≤◌, [], ◌∷◌, length, slice_get};
ghost use Rattle.std.specs.Option.{option_map};
ghost use Rattle.origin_labels.specs.Stores.{IsKept};
ghost use Rattle.flow_policy.specs.Inputs.{Given};
ghost use Rattle.js_values.specs.Readings.{HasValue, read_value};
ghost use Rattle.object_heap.specs.Formed.{own_in};
ghost use Rattle.es_meaning.specs.Operations as operations;
ghost use Rattle.flow_meaning.specs.Tracked.{act};
ghost use Rattle.run_state.specs.Worlds.{Belongs, Grows};
ghost use Rattle.run_state.specs.Acts.{Acts, HasAnswer};
ghost use Rattle.channel_requests.specs.Raising.{nothing, raises_existence, raises_structure};

use crate::origins::{are_declared, label_of};
use crate::rules::need_of;
use flow_frames::FlowFault;
use flow_policy::Policy;
use js_number::Primitive;
use js_values::{Key, Labelled, ObjId, Value};
use native_protocol::ErrorKind;
use origin_labels::{Labels, OriginList};
use property_access::throw_error;
use run_state::{Leaving, Outcome, World};

/// Undefined, once origins are joined to the structure label of an object, by rule W7. Where one of them isn't declared the run leaves, and a primitive value
/// throws a TypeError.
pub fn raise_structure<L: Labels>(
    labels: &mut L,
    world: &mut World<L::Label>,
    policy: &Policy,
    base: &Labelled<L::Label>,
    origins: &OriginList,
) -> Result<Outcome<Labelled<L::Label>, L::Label>, FlowFault<L::Label>>
    requires belongs { Belongs L.made L.meaning labels.old world.old }
    requires base { L.made labels.old base.now.label }
    requires room { length policy.now.origins ≤ L.room labels.old }
    ensures acts { (inputs : Given) → Acts L.made L.meaning labels.new (λ reading. read_value reading) (λ reading. act policy.now inputs (operations.raise_structure origins.now) (read_value reading base.now ∷ [])) world.old world.new result }
    ensures made { HasAnswer (HasValue (L.made labels.new)) (L.made labels.new) result }
    ensures belongs { Belongs L.made L.meaning labels.new world.new }
    ensures grows { Grows world.old world.new }
    ensures kept { IsKept L.made L.meaning L.room L.firm labels.old labels.new }
{
    if !are_declared(policy, origins) {
        return Ok(Outcome::Leaves(Leaving::Origin));
    }
    let Value::Object(o) = base.value else {
        return throw_error(labels, world, ErrorKind::TypeError, base.label);
    };
    let added = label_of(labels, origins)?;
    raise_structure_by(labels, world, o, base.label, added)
}

/// Undefined, once origins are joined to the existence label of a property of an object, by rule W8. Where one of them isn't declared the run leaves, and a
/// primitive value throws a TypeError.
pub fn raise_existence<L: Labels>(
    labels: &mut L,
    world: &mut World<L::Label>,
    policy: &Policy,
    base: &Labelled<L::Label>,
    key: &Key,
    origins: &OriginList,
) -> Result<Outcome<Labelled<L::Label>, L::Label>, FlowFault<L::Label>>
    requires belongs { Belongs L.made L.meaning labels.old world.old }
    requires base { L.made labels.old base.now.label }
    requires room { length policy.now.origins ≤ L.room labels.old }
    ensures acts { (inputs : Given) → Acts L.made L.meaning labels.new (λ reading. read_value reading) (λ reading. act policy.now inputs (operations.raise_existence key.now origins.now) (read_value reading base.now ∷ [])) world.old world.new result }
    ensures made { HasAnswer (HasValue (L.made labels.new)) (L.made labels.new) result }
    ensures belongs { Belongs L.made L.meaning labels.new world.new }
    ensures grows { Grows world.old world.new }
    ensures kept { IsKept L.made L.meaning L.room L.firm labels.old labels.new }
{
    if !are_declared(policy, origins) {
        return Ok(Outcome::Leaves(Leaving::Origin));
    }
    let Value::Object(o) = base.value else {
        return throw_error(labels, world, ErrorKind::TypeError, base.label);
    };
    let added = label_of(labels, origins)?;
    raise_existence_by(labels, world, o, key, base.label, added)
}

/// Joins origins to the structure label of an object, where what is done depends on the label. Nothing is done to an object that isn't there.
fn raise_structure_by<L: Labels>(
    labels: &mut L,
    world: &mut World<L::Label>,
    o: ObjId,
    label: L::Label,
    origins: L::Label,
) -> Result<Outcome<Labelled<L::Label>, L::Label>, FlowFault<L::Label>>
    requires belongs { Belongs L.made L.meaning labels.old world.old }
    requires label { L.made labels.old label }
    requires origins { L.made labels.old origins }
    ensures acts { Acts L.made L.meaning labels.new (λ reading. read_value reading) (λ reading. raises_structure o.0 (reading label) (reading origins)) world.old world.new result }
    ensures made { HasAnswer (HasValue (L.made labels.new)) (L.made labels.new) result }
    ensures belongs { Belongs L.made L.meaning labels.new world.new }
    ensures grows { Grows world.old world.new }
    ensures kept { IsKept L.made L.meaning L.room L.firm labels.old labels.new }
{
    if o.0 >= world.heap.len() {
        return Ok(Outcome::Goes(undefined(label)));
    }
    let need = need_of(labels, &world.frames, label)?;
    world.heap.raise_structure(labels, o, need, origins)?;
    Ok(Outcome::Goes(undefined(label)))
}

/// Joins origins to the existence label of a property, where what is done depends on the label, and on that the property is there. Nothing is done to one that
/// isn't.
fn raise_existence_by<L: Labels>(
    labels: &mut L,
    world: &mut World<L::Label>,
    o: ObjId,
    key: &Key,
    label: L::Label,
    origins: L::Label,
) -> Result<Outcome<Labelled<L::Label>, L::Label>, FlowFault<L::Label>>
    requires belongs { Belongs L.made L.meaning labels.old world.old }
    requires label { L.made labels.old label }
    requires origins { L.made labels.old origins }
    ensures acts { Acts L.made L.meaning labels.new (λ reading. read_value reading) (λ reading. raises_existence o.0 key.now (reading label) (reading origins)) world.old world.new result }
    ensures made { HasAnswer (HasValue (L.made labels.new)) (L.made labels.new) result }
    ensures belongs { Belongs L.made L.meaning labels.new world.new }
    ensures grows { Grows world.old world.new }
    ensures kept { IsKept L.made L.meaning L.room L.firm labels.old labels.new }
{
    let Some(existence) = existence_of(world, o, key) else {
        return Ok(Outcome::Goes(undefined(label)));
    };
    let place = labels.join(label, existence)?;
    let need = need_of(labels, &world.frames, place)?;
    world.heap.raise_existence(labels, o, key, need, origins)?;
    Ok(Outcome::Goes(undefined(label)))
}

/// The existence label of an object's own property, if it has that one.
fn existence_of<T: Copy>(world: &World<T>, o: ObjId, key: &Key) -> Option<T>
    ensures { result ≡ option_map (λ s. s.existence) (own_in key.now (slice_get world.now.heap o.0)) }
{
    if o.0 >= world.heap.len() {
        return None;
    }
    match world.heap.own(o, key) {
        None => None,
        Some(slot) => Some(slot.existence),
    }
}

/// Undefined, with a label.
fn undefined<T>(label: T) -> Labelled<T>
    ensures { result ≡ nothing label }
{
    Labelled {
        value: Value::Primitive(Primitive::Undefined),
        label,
    }
}
