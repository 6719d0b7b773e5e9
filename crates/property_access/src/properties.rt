//! The properties of objects, as they are read.

ghost use Rattle.std.specs.Prelude.{◌≡◌, IfOk};
ghost use Rattle.std.specs.Option.{option_map};
ghost use Rattle.origin_labels.specs.Label.{union};
ghost use Rattle.origin_labels.specs.Stores.{IsKept};
ghost use Rattle.js_values.specs.Readings.{read_heap, read_value};
ghost use Rattle.js_values.specs.Walks.{find, object_chain};
ghost use Rattle.prototype_walk.specs.Answers.{Means, IsPlace};
ghost use Rattle.es_meaning.specs.Plain.{on_global};
ghost use Rattle.flow_meaning.specs.Tracked.{called_value, found_by, held, named};
ghost use Rattle.run_state.specs.Accesses.{HasAccess, IsAccess, read_access};
ghost use Rattle.run_state.specs.Acts.{Acts, HasAnswer};
ghost use Rattle.run_state.specs.Worlds.{Belongs, Grows};
ghost use Rattle.property_access.specs.Accessors.{getter_of, object_with, undefined_with};

use crate::throwing::throw_error;
use flow_frames::FlowFault;
use flow_text::{OutOfMemory, Text};
use js_number::Primitive;
use js_values::{Body, Labelled, ObjId, Slot, Value};
use native_protocol::ErrorKind;
use origin_labels::Labels;
use prototype_walk::find_slot_named;
use run_state::{Access, Outcome, World};
use std::alloc::Global;

/// The global object, with which a run starts.
pub(crate) const GLOBAL: ObjId = ObjId(1);

/// What a property of an object comes to (ECMA-262 8.12.3): undefined where there is none, and where it has a getter, the object is its `this`, with a label
/// of its own. `label` is that of base and key, and the value's label has that of the walk besides.
pub fn get_of<T: Copy, L: Labels<Label = T>>(
    alloc: Global,
    labels: &mut L,
    world: &World<T>,
    o: ObjId,
    this_label: T,
    key: &Text,
    label: T,
) -> Result<Access<T>, OutOfMemory>
    requires this { L.made labels.old this_label }
    requires label { L.made labels.old label }
    requires belongs { Belongs L.made L.meaning labels.old world.now }
    ensures access { IfOk result (IsAccess L.made L.meaning labels.new (λ reading. found_by (reading label) (called_value (reading this_label) o.0) (find key.now (object_chain (read_heap reading world.now.heap) o.0)))) }
    ensures kept { IsKept L.made L.meaning L.room L.firm labels.old labels.new }
{
    let (place, walk) = find_property(labels, world, o, key)?;
    let depends = join(labels, label, walk)?;
    match place {
        Some((_, slot)) => held(alloc, labels, depends, slot, object(o, this_label)),
        None => Ok(Access::Value(undefined(depends))),
    }
}

/// What a name comes to that was found along the global object (ECMA-262 10.2.1.2.4), with the label of that walk: a name that is gone throws. The value's label
/// has that of the walk to it besides.
pub fn get_global<T: Copy, L: Labels<Label = T>>(
    alloc: Global,
    labels: &mut L,
    world: &mut World<T>,
    name: &Text,
    walk: T,
) -> Result<Outcome<Access<T>, T>, FlowFault<T>>
    requires walk { L.made labels.old walk }
    requires belongs { Belongs L.made L.meaning labels.old world.old }
    ensures acts { Acts L.made L.meaning labels.new (λ reading. read_access reading) (λ reading. named on_global (reading walk) name.now) world.old world.new result }
    ensures made { HasAnswer (HasAccess (L.made labels.new)) (L.made labels.new) result }
    ensures belongs { Belongs L.made L.meaning labels.new world.new }
    ensures grows { Grows world.old world.new }
    ensures kept { IsKept L.made L.meaning L.room L.firm labels.old labels.new }
{
    let none = labels.bottom();
    let (place, here) = find_property(labels, world, GLOBAL, name)?;
    let whole = join(labels, walk, here)?;
    match place {
        Some((_, slot)) => {
            let access = held(alloc, labels, whole, slot, object(GLOBAL, none))?;
            Ok(Outcome::Goes(access))
        }
        None => throw_error(labels, world, ErrorKind::ReferenceError, whole),
    }
}

/// The property that a key names, of an object and its prototypes, and the label of the walk to it. For an object that isn't there nothing is found.
pub fn find_property<'w, T: Copy, L: Labels<Label = T>>(
    labels: &mut L,
    world: &'w World<T>,
    o: ObjId,
    key: &Text,
) -> Result<(Option<(ObjId, &'w Slot<T>)>, T), OutOfMemory>
    requires { Belongs L.made L.meaning labels.old world.now }
    ensures place { IfOk result (λ r. IsPlace L.made L.meaning labels.new world.now.heap o.0 key.now (option_map (λ f. (f.0, f.1.now)) r.0) r.1) }
    ensures kept { IsKept L.made L.meaning L.room L.firm labels.old labels.new }
{
    if o.0 < world.heap.len() {
        return find_slot_named(&world.heap, labels, o, key);
    }
    let walk = labels.bottom();
    Ok((None, walk))
}

/// What a property holds, where finding it depends on a label: a getter is called with this `this`.
pub(crate) fn held<T: Copy, L: Labels<Label = T>>(
    alloc: Global,
    labels: &mut L,
    label: T,
    slot: &Slot<T>,
    this: Labelled<T>,
) -> Result<Access<T>, OutOfMemory>
    requires label { L.made labels.old label }
    requires slot { L.made labels.old slot.now.label }
    requires this { L.made labels.old this.label }
    ensures access { IfOk result (IsAccess L.made L.meaning labels.new (λ reading. held (union (reading label) (reading slot.now.label)) (read_value reading this) slot.now.body)) }
    ensures kept { IsKept L.made L.meaning L.room L.firm labels.old labels.new }
{
    let whole = join(labels, label, slot.label)?;
    match &slot.body {
        Body::Data(value) => {
            let value = value.copy(alloc)?;
            Ok(Access::Value(Labelled {
                value,
                label: whole,
            }))
        }
        Body::Accessor { get, .. } => Ok(getter(whole, *get, this)),
    }
}

/// What an accessor comes to by its getter: without one it is undefined.
fn getter<T: Copy>(label: T, get: Option<ObjId>, this: Labelled<T>) -> Access<T>
    ensures { result ≡ getter_of label get this }
{
    match get {
        Some(function) => Access::Getter {
            label,
            function,
            this,
        },
        None => Access::Value(undefined(label)),
    }
}

/// Undefined with a label.
pub(crate) fn undefined<T>(label: T) -> Labelled<T>
    ensures { result ≡ undefined_with label }
{
    Labelled {
        value: Value::Primitive(Primitive::Undefined),
        label,
    }
}

/// An object with a label.
pub(crate) fn object<T>(o: ObjId, label: T) -> Labelled<T>
    ensures { result ≡ object_with o label }
{
    Labelled {
        value: Value::Object(o),
        label,
    }
}

/// The union of two labels.
pub(crate) fn join<T: Copy, L: Labels<Label = T>>(
    labels: &mut L,
    a: T,
    b: T,
) -> Result<T, OutOfMemory>
    requires first { L.made labels.old a }
    requires second { L.made labels.old b }
    ensures means { IfOk result (λ label. Means L.made L.meaning labels.new label (λ reading. union (reading a) (reading b))) }
    ensures kept { IsKept L.made L.meaning L.room L.firm labels.old labels.new }
{
    labels.join(a, b)
}
