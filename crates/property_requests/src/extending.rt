//! The prototype of an object, and whether it may get further properties.

ghost use Rattle.std.specs.Prelude.{◌≡◌, [], ◌∷◌, IfOk, slice_get};
ghost use Rattle.std.specs.Option.{option_map};
ghost use Rattle.origin_labels.specs.Stores.{IsKept};
ghost use Rattle.flow_policy.specs.Policies.{Tables};
ghost use Rattle.flow_policy.specs.Inputs.{Given};
ghost use Rattle.js_values.specs.Readings.{HasValue, read_object, read_value};
ghost use Rattle.es_meaning.specs.Operations as operations;
ghost use Rattle.es_meaning.specs.Requested.{reference_or_null};
ghost use Rattle.flow_meaning.specs.Tracked.{act, extensible_in, prevent, prototype_in};
ghost use Rattle.run_state.specs.Acts.{Acts, HasAnswer};
ghost use Rattle.run_state.specs.Worlds.{Belongs, Grows};
ghost use Rattle.property_requests.specs.Finding.{Finds};

use crate::parts::{join, need_of, undefined};
use flow_frames::FlowFault;
use flow_text::OutOfMemory;
use js_number::Primitive;
use js_values::{Labelled, ObjId, Value};
use native_protocol::ErrorKind;
use origin_labels::Labels;
use property_access::throw_error;
use run_state::{Outcome, World};

/// The prototype of an object, or null where it has none. It depends on the link. A primitive value throws a TypeError.
pub fn prototype_of_object<T: Copy, L: Labels<Label = T>>(
    labels: &mut L,
    world: &mut World<T>,
    base: &Labelled<T>,
) -> Result<Outcome<Labelled<T>, T>, FlowFault<T>>
    requires base { L.made labels.old base.now.label }
    requires belongs { Belongs L.made L.meaning labels.old world.old }
    ensures acts { (tables : Tables) (inputs : Given) → Acts L.made L.meaning labels.new (λ reading. read_value reading) (λ reading. act tables inputs operations.prototype_of_object (read_value reading base.now ∷ [])) world.old world.new result }
    ensures made { HasAnswer (HasValue (L.made labels.new)) (L.made labels.new) result }
    ensures belongs { Belongs L.made L.meaning labels.new world.new }
    ensures grows { Grows world.old world.new }
    ensures kept { IsKept L.made L.meaning L.room L.firm labels.old labels.new }
{
    let Value::Object(o) = base.value else {
        return throw_error(labels, world, ErrorKind::TypeError, base.label);
    };
    let proto = prototype_in(labels, world, o, base.label)?;
    Ok(Outcome::Goes(proto))
}

/// The prototype of an object, where the label is that of the base. That of an object that isn't there is null.
fn prototype_in<T: Copy, L: Labels<Label = T>>(
    labels: &mut L,
    world: &World<T>,
    o: ObjId,
    label: T,
) -> Result<Labelled<T>, OutOfMemory>
    requires label { L.made labels.old label }
    requires belongs { Belongs L.made L.meaning labels.old world.now }
    ensures finds { IfOk result (Finds L.made L.meaning labels.new (λ reading. prototype_in (reading label) (option_map (read_object reading) (slice_get world.now.heap o.0)))) }
    ensures made { IfOk result (HasValue (L.made labels.new)) }
    ensures kept { IsKept L.made L.meaning L.room L.firm labels.old labels.new }
{
    if o.0 >= world.heap.len() {
        return Ok(Labelled {
            value: Value::Primitive(Primitive::Null),
            label,
        });
    }
    let shape = world.heap.shape(o);
    let depends = join(labels, label, shape.link)?;
    Ok(Labelled {
        value: reference_or_null(shape.proto),
        label: depends,
    })
}

/// An object, or null where there is none.
fn reference_or_null(o: Option<ObjId>) -> Value
    ensures { result ≡ reference_or_null o }
{
    match o {
        None => Value::Primitive(Primitive::Null),
        Some(o) => Value::Object(o),
    }
}

/// Whether an object may get further properties. It depends on the structure. A primitive value throws a TypeError.
pub fn is_extensible<T: Copy, L: Labels<Label = T>>(
    labels: &mut L,
    world: &mut World<T>,
    base: &Labelled<T>,
) -> Result<Outcome<Labelled<T>, T>, FlowFault<T>>
    requires base { L.made labels.old base.now.label }
    requires belongs { Belongs L.made L.meaning labels.old world.old }
    ensures acts { (tables : Tables) (inputs : Given) → Acts L.made L.meaning labels.new (λ reading. read_value reading) (λ reading. act tables inputs operations.is_extensible (read_value reading base.now ∷ [])) world.old world.new result }
    ensures made { HasAnswer (HasValue (L.made labels.new)) (L.made labels.new) result }
    ensures belongs { Belongs L.made L.meaning labels.new world.new }
    ensures grows { Grows world.old world.new }
    ensures kept { IsKept L.made L.meaning L.room L.firm labels.old labels.new }
{
    let Value::Object(o) = base.value else {
        return throw_error(labels, world, ErrorKind::TypeError, base.label);
    };
    let extensible = extensible_in(labels, world, o, base.label)?;
    Ok(Outcome::Goes(extensible))
}

/// Whether an object may get further properties, where the label is that of the base. One that isn't there may not.
fn extensible_in<T: Copy, L: Labels<Label = T>>(
    labels: &mut L,
    world: &World<T>,
    o: ObjId,
    label: T,
) -> Result<Labelled<T>, OutOfMemory>
    requires label { L.made labels.old label }
    requires belongs { Belongs L.made L.meaning labels.old world.now }
    ensures finds { IfOk result (Finds L.made L.meaning labels.new (λ reading. extensible_in (reading label) (option_map (read_object reading) (slice_get world.now.heap o.0)))) }
    ensures made { IfOk result (HasValue (L.made labels.new)) }
    ensures kept { IsKept L.made L.meaning L.room L.firm labels.old labels.new }
{
    if o.0 >= world.heap.len() {
        return Ok(Labelled {
            value: Value::Primitive(Primitive::Bool(false)),
            label,
        });
    }
    let shape = world.heap.shape(o);
    let depends = join(labels, label, shape.structure)?;
    Ok(Labelled {
        value: Value::Primitive(Primitive::Bool(shape.extensible)),
        label: depends,
    })
}

/// Lets an object get no further properties, by rule W7, and gives undefined. A primitive value throws a TypeError.
pub fn prevent_extensions<T: Copy, L: Labels<Label = T>>(
    labels: &mut L,
    world: &mut World<T>,
    base: &Labelled<T>,
) -> Result<Outcome<Labelled<T>, T>, FlowFault<T>>
    requires base { L.made labels.old base.now.label }
    requires belongs { Belongs L.made L.meaning labels.old world.old }
    ensures acts { (tables : Tables) (inputs : Given) → Acts L.made L.meaning labels.new (λ reading. read_value reading) (λ reading. act tables inputs operations.prevent_extensions (read_value reading base.now ∷ [])) world.old world.new result }
    ensures made { HasAnswer (HasValue (L.made labels.new)) (L.made labels.new) result }
    ensures belongs { Belongs L.made L.meaning labels.new world.new }
    ensures grows { Grows world.old world.new }
    ensures kept { IsKept L.made L.meaning L.room L.firm labels.old labels.new }
{
    let Value::Object(o) = base.value else {
        return throw_error(labels, world, ErrorKind::TypeError, base.label);
    };
    prevent(labels, world, o, base.label)
}

/// Lets an object get no further properties, where the label is that of the base. Nothing is done to one that isn't there.
fn prevent<T: Copy, L: Labels<Label = T>>(
    labels: &mut L,
    world: &mut World<T>,
    o: ObjId,
    label: T,
) -> Result<Outcome<Labelled<T>, T>, FlowFault<T>>
    requires label { L.made labels.old label }
    requires belongs { Belongs L.made L.meaning labels.old world.old }
    ensures acts { Acts L.made L.meaning labels.new (λ reading. read_value reading) (λ reading. prevent (reading label) o.0) world.old world.new result }
    ensures made { HasAnswer (HasValue (L.made labels.new)) (L.made labels.new) result }
    ensures belongs { Belongs L.made L.meaning labels.new world.new }
    ensures grows { Grows world.old world.new }
    ensures kept { IsKept L.made L.meaning L.room L.firm labels.old labels.new }
{
    if o.0 >= world.heap.len() {
        return Ok(Outcome::Goes(undefined(label)));
    }
    let need = need_of(labels, &world.frames, label)?;
    world.heap.prevent_extensions(labels, o, need)?;
    Ok(Outcome::Goes(undefined(label)))
}
