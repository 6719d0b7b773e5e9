//! Definitions of properties, by rules W3, W6 and W2.

ghost use Rattle.std.specs.Prelude.{◌≡◌, ◌<◌, Bool, [], ◌∷◌, Some, None, IsSome, IfOk, IfSome, OnOk, length, slice_get};
ghost use Rattle.std.specs.Option.{option_map};
ghost use Rattle.origin_labels.specs.Label.{Label, union};
ghost use Rattle.origin_labels.specs.Stores.{IsKept};
ghost use Rattle.flow_policy.specs.Policies.{Tables};
ghost use Rattle.flow_policy.specs.Inputs.{Given};
ghost use Rattle.js_values.specs.Readings.{HasSlot, HasValue, read_slot, read_value};
ghost use Rattle.native_protocol.specs.declared.request.ErrorKind.TheVariants as kinds;
ghost use Rattle.object_heap.specs.Formed.{own_in};
ghost use Rattle.es_meaning.specs.Definitions as definitions;
ghost use Rattle.es_meaning.specs.Operations.{Ty, Res};
ghost use Rattle.es_meaning.specs.Requested.{behind_definition};
ghost use Rattle.flow_meaning.specs.Requested.{body_label, property_in, value_label};
ghost use Rattle.flow_meaning.specs.Scopes.{Val};
ghost use Rattle.flow_meaning.specs.Tracked.{define_in, define_over, defining, set_marks, throw_error};
ghost use Rattle.prototype_walk.specs.Answers.{Means};
ghost use Rattle.run_state.specs.Acts.{Acts, HasAnswer};
ghost use Rattle.run_state.specs.Worlds.{Belongs, Grows};
ghost use Rattle.run_state.specs.Accesses.{HasDefining, read_defining};
ghost use Rattle.property_requests.specs.Defining.{gives_length, given_at, may_add_in, body_of, body_set, changed_by, definition_of, given_in, shape_of, HasDescriptor, HasNewBody, IsChange, IsNewBody, SameOutline};
ghost use Rattle.property_requests.specs.Finding.{went};

use crate::bodies::is_accessor;
use crate::definition::{
    Definition, GivenBody, becomes_accessor, body_of_kind, changes_body, keeps_a_half,
    marks_of_kind, may_define_over,
};
use crate::descriptor::{Descriptor, given_body, given_label};
use crate::parts::{join, need_of, place_of_definition};
use flow_frames::FlowFault;
use flow_text::OutOfMemory;
use js_number::Primitive;
use js_values::{Body, Key, Labelled, Marks, ObjId, Slot, Value, names_length};
use native_protocol::{ErrorKind, GivenMarks};
use origin_labels::Labels;
use property_access::throw_error;
use run_state::{Defining, Outcome, World};
use std::alloc::Global;

/// Where a definition is done: the key in an object that is there. `place` is the label of the object and of the own test, `given` that of what is given.
#[derive(Drop)]
pub(crate) struct Site<T> {
    pub(crate) object: ObjId,
    pub(crate) key: Key,
    pub(crate) place: T,
    pub(crate) given: T,
}

/// What a definition changes of a property that is there: its attributes, and what it holds, where that is given anew.
#[derive(Drop)]
pub(crate) struct Change<T> {
    pub(crate) marks: Marks,
    pub(crate) body: Option<NewBody<T>>,
}

/// What a property holds, with the label of that.
#[derive(Drop)]
pub(crate) struct NewBody<T> {
    pub(crate) body: Body,
    pub(crate) label: T,
}

/// Defines the property that an object has of a key (ECMA-262 8.12.9), and gives undefined. Over a property that is there rule W6 is asked, and then W2 where it
/// holds something else; one that isn't is added by rule W3. A refusal throws a TypeError, and so does a primitive base. A value
/// for the `length` of an array is converted first, which is still to be done.
pub fn define_property<T: Copy, L: Labels<Label = T>>(
    alloc: Global,
    labels: &mut L,
    world: &mut World<T>,
    base: &Labelled<T>,
    key: Key,
    descriptor: Descriptor<T>,
) -> Result<Outcome<Defining<T>, T>, FlowFault<T>>
    requires base { L.made labels.old base.now.label }
    requires descriptor { HasDescriptor (L.made labels.old) descriptor }
    requires belongs { Belongs L.made L.meaning labels.old world.old }
    ensures acts { Acts L.made L.meaning labels.new (λ reading. read_defining reading) (λ reading. defining key descriptor.marks (shape_of descriptor) (read_value reading base.now) (given_in reading descriptor.value) (given_in reading descriptor.get) (given_in reading descriptor.set)) world.old world.new result }
    ensures made { HasAnswer (HasDefining (L.made labels.new)) (L.made labels.new) result }
    ensures belongs { Belongs L.made L.meaning labels.new world.new }
    ensures grows { Grows world.old world.new }
    ensures kept { IsKept L.made L.meaning L.room L.firm labels.old labels.new }
{
    let Value::Object(o) = base.value else {
        return throw_error(labels, world, ErrorKind::TypeError, base.label);
    };
    define_on(alloc, labels, world, o, key, base.label, descriptor)
}

/// Defines a property of an object, where the label is that of the base. An object that isn't there throws.
fn define_on<T: Copy, L: Labels<Label = T>>(
    alloc: Global,
    labels: &mut L,
    world: &mut World<T>,
    o: ObjId,
    key: Key,
    label: T,
    descriptor: Descriptor<T>,
) -> Result<Outcome<Defining<T>, T>, FlowFault<T>>
    requires label { L.made labels.old label }
    requires descriptor { HasDescriptor (L.made labels.old) descriptor }
    requires belongs { Belongs L.made L.meaning labels.old world.old }
    ensures acts { Acts L.made L.meaning labels.new (λ reading. read_defining reading) (λ reading s. define_in (slice_get s.heap o.0) (reading label) o.0 key descriptor.marks (shape_of descriptor) (given_in reading descriptor.value) (given_in reading descriptor.get) (given_in reading descriptor.set) s) world.old world.new result }
    ensures made { HasAnswer (HasDefining (L.made labels.new)) (L.made labels.new) result }
    ensures belongs { Belongs L.made L.meaning labels.new world.new }
    ensures grows { Grows world.old world.new }
    ensures kept { IsKept L.made L.meaning L.room L.firm labels.old labels.new }
{
    if o.0 >= world.heap.len() {
        return throw_error(labels, world, ErrorKind::TypeError, label);
    }
    let (place, allowed) = place_of_definition(labels, &world.heap, o, &key, label)?;
    let given = given_label(labels, &descriptor)?;
    let marks = descriptor.marks;
    let body = given_body(&world.heap, descriptor);
    let site = Site {
        object: o,
        key,
        place,
        given,
    };
    define_given(alloc, labels, world, site, allowed, marks, body)
}

/// Defines a property so, if what is given isn't refused.
fn define_given<T: Copy, L: Labels<Label = T>>(
    alloc: Global,
    labels: &mut L,
    world: &mut World<T>,
    site: Site<T>,
    allowed: bool,
    marks: GivenMarks,
    body: Option<GivenBody>,
) -> Result<Outcome<Defining<T>, T>, FlowFault<T>>
    requires there { site.object.0 < length world.old.heap }
    requires place { L.made labels.old site.place }
    requires given { L.made labels.old site.given }
    requires belongs { Belongs L.made L.meaning labels.old world.old }
    requires allowed { own_in site.key (slice_get world.old.heap site.object.0) ≡ None → allowed ≡ may_add_in site.key (slice_get world.old.heap site.object.0) }
    ensures acts { Acts L.made L.meaning labels.new (λ reading. read_defining reading) (λ reading s. given_at (slice_get s.heap site.object.0) body marks (reading site.place) (reading site.given) site.object.0 site.key s) world.old world.new result }
    ensures made { HasAnswer (HasDefining (L.made labels.new)) (L.made labels.new) result }
    ensures belongs { Belongs L.made L.meaning labels.new world.new }
    ensures grows { Grows world.old world.new }
    ensures kept { IsKept L.made L.meaning L.room L.firm labels.old labels.new }
{
    let Some(body) = body else {
        return refuse(labels, world, &site);
    };
    if gives_length(world, &site, &body) {
        return Ok(Outcome::Goes(Defining::Length {
            label: site.place,
            array: site.object,
            marks,
        }));
    }
    let definition = Definition { marks, body };
    if world.heap.own(site.object, &site.key).is_some() {
        return define_present(alloc, labels, world, &site, definition);
    }
    define_absent(alloc, labels, world, site, allowed, definition)
}

/// Whether the `length` of an array is given a value.
fn gives_length<T: Copy>(world: &World<T>, site: &Site<T>, body: &GivenBody) -> bool
    requires { site.now.object.0 < length world.now.heap }
    ensures { result ≡ gives_length site.now.key body.now (slice_get world.now.heap site.now.object.0) }
{
    match body {
        GivenBody::Value(_) => {
            names_length(world.heap.shape(site.object).class, site.key.text())
        }
        GivenBody::Nothing | GivenBody::Accessors { .. } => false,
    }
}

/// Throws a TypeError, whose cause is all that decides whether a definition is refused.
pub(crate) fn refuse<X, T: Copy, L: Labels<Label = T>>(
    labels: &mut L,
    world: &mut World<T>,
    site: &Site<T>,
) -> Result<Outcome<X, T>, FlowFault<T>>
    requires there { site.now.object.0 < length world.old.heap }
    requires place { L.made labels.old site.now.place }
    requires given { L.made labels.old site.now.given }
    requires belongs { Belongs L.made L.meaning labels.old world.old }
    ensures acts { (t : Ty) (read : (T → Label) → X → Res Val t) → Acts L.made L.meaning labels.new read (λ reading. throw_error kinds.TypeError (union (union (reading site.now.place) (reading site.now.given)) (value_label (option_map (read_slot reading) (own_in site.now.key (slice_get world.old.heap site.now.object.0)))))) world.old world.new result }
    ensures made { HasAnswer (λ x. ⊥) (L.made labels.new) result }
    ensures belongs { Belongs L.made L.meaning labels.new world.new }
    ensures grows { Grows world.old world.new }
    ensures kept { IsKept L.made L.meaning L.room L.firm labels.old labels.new }
{
    let cause = cause_of(labels, world, site)?;
    throw_error(labels, world, ErrorKind::TypeError, cause)
}

/// The labels of all that decides whether a definition is refused.
fn cause_of<T: Copy, L: Labels<Label = T>>(
    labels: &mut L,
    world: &World<T>,
    site: &Site<T>,
) -> Result<T, OutOfMemory>
    requires there { site.now.object.0 < length world.now.heap }
    requires place { L.made labels.old site.now.place }
    requires given { L.made labels.old site.now.given }
    requires belongs { Belongs L.made L.meaning labels.old world.now }
    ensures means { IfOk result (λ label. Means L.made L.meaning labels.new label (λ reading. union (union (reading site.now.place) (reading site.now.given)) (value_label (option_map (read_slot reading) (own_in site.now.key (slice_get world.now.heap site.now.object.0)))))) }
    ensures kept { IsKept L.made L.meaning L.room L.firm labels.old labels.new }
{
    let held = held_label(labels, world, site);
    let decided = join(labels, site.place, site.given)?;
    let cause = join(labels, decided, held)?;
    Ok(cause)
}

/// The value label of the property, if it is there.
fn held_label<T: Copy, L: Labels<Label = T>>(labels: &L, world: &World<T>, site: &Site<T>) -> T
    requires there { site.now.object.0 < length world.now.heap }
    requires belongs { Belongs L.made L.meaning labels.now world.now }
    ensures { Means L.made L.meaning labels.now result (λ reading. value_label (option_map (read_slot reading) (own_in site.now.key (slice_get world.now.heap site.now.object.0)))) }
{
    match world.heap.own(site.object, &site.key) {
        None => labels.bottom(),
        Some(slot) => slot.label,
    }
}

/// Adds a property by rule W3, if the object may get further ones.
fn define_absent<T: Copy, L: Labels<Label = T>>(
    alloc: Global,
    labels: &mut L,
    world: &mut World<T>,
    site: Site<T>,
    allowed: bool,
    definition: Definition,
) -> Result<Outcome<Defining<T>, T>, FlowFault<T>>
    requires there { site.object.0 < length world.old.heap }
    requires absent { own_in site.key (slice_get world.old.heap site.object.0) ≡ None }
    requires place { L.made labels.old site.place }
    requires given { L.made labels.old site.given }
    requires belongs { Belongs L.made L.meaning labels.old world.old }
    ensures acts { Acts L.made L.meaning labels.new (λ reading. read_defining reading) (λ reading. define_over None (definition_of definition) (reading site.place) (reading site.given) site.object.0 site.key (behind_definition allowed None (definition_of definition))) world.old world.new result }
    ensures made { HasAnswer (HasDefining (L.made labels.new)) (L.made labels.new) result }
    ensures belongs { Belongs L.made L.meaning labels.new world.new }
    ensures grows { Grows world.old world.new }
    ensures kept { IsKept L.made L.meaning L.room L.firm labels.old labels.new }
{
    if !allowed {
        return refuse(labels, world, &site);
    }
    add_new(alloc, labels, world, site, definition)
}

/// Adds a property by rule W3. What isn't given is by default.
fn add_new<T: Copy, L: Labels<Label = T>>(
    alloc: Global,
    labels: &mut L,
    world: &mut World<T>,
    site: Site<T>,
    definition: Definition,
) -> Result<Outcome<Defining<T>, T>, FlowFault<T>>
    requires there { site.object.0 < length world.old.heap }
    requires absent { own_in site.key (slice_get world.old.heap site.object.0) ≡ None }
    requires place { L.made labels.old site.place }
    requires given { L.made labels.old site.given }
    requires belongs { Belongs L.made L.meaning labels.old world.old }
    ensures acts { Acts L.made L.meaning labels.new (λ reading. read_defining reading) (λ reading. define_over None (definition_of definition) (reading site.place) (reading site.given) site.object.0 site.key (Some (definitions.defined_new (definition_of definition)))) world.old world.new result }
    ensures made { HasAnswer (HasDefining (L.made labels.new)) (L.made labels.new) result }
    ensures belongs { Belongs L.made L.meaning labels.new world.new }
    ensures grows { Grows world.old world.new }
    ensures kept { IsKept L.made L.meaning L.room L.firm labels.old labels.new }
{
    let decided = join(labels, site.place, site.given)?;
    let need = need_of(labels, &world.frames, decided)?;
    let accessor = becomes_accessor(false, &definition);
    let marks = marks_of_kind(accessor, NO_MARKS, definition.marks);
    let nothing = Body::Data(Value::Primitive(Primitive::Undefined));
    let body = body_of_kind(alloc, accessor, &nothing, definition.body)?;
    let Site {
        object,
        key,
        place,
        given,
    } = site;
    world
        .heap
        .add(labels, object, key, need, body, given, marks)?;
    Ok(Outcome::Goes(Defining::Defined { label: place }))
}

/// The attributes that a property has by default (ECMA-262 8.6.1).
const NO_MARKS: Marks = Marks {
    writable: false,
    enumerable: false,
    configurable: false,
};

/// Defines a property that is there, if that isn't refused.
fn define_present<T: Copy, L: Labels<Label = T>>(
    alloc: Global,
    labels: &mut L,
    world: &mut World<T>,
    site: &Site<T>,
    definition: Definition,
) -> Result<Outcome<Defining<T>, T>, FlowFault<T>>
    requires there { site.now.object.0 < length world.old.heap }
    requires present { IsSome (own_in site.now.key (slice_get world.old.heap site.now.object.0)) }
    requires place { L.made labels.old site.now.place }
    requires given { L.made labels.old site.now.given }
    requires belongs { Belongs L.made L.meaning labels.old world.old }
    ensures acts { (extensible : Bool) → Acts L.made L.meaning labels.new (λ reading. read_defining reading) (λ reading. define_over (option_map (read_slot reading) (own_in site.now.key (slice_get world.old.heap site.now.object.0))) (definition_of definition) (reading site.now.place) (reading site.now.given) site.now.object.0 site.now.key (behind_definition extensible (property_in (option_map (read_slot reading) (own_in site.now.key (slice_get world.old.heap site.now.object.0)))) (definition_of definition))) world.old world.new result }
    ensures made { HasAnswer (HasDefining (L.made labels.new)) (L.made labels.new) result }
    ensures belongs { Belongs L.made L.meaning labels.new world.new }
    ensures grows { Grows world.old world.new }
    ensures kept { IsKept L.made L.meaning L.room L.firm labels.old labels.new }
{
    let slot = world.heap.own(site.object, &site.key).unwrap();
    if !may_define_over(slot, &definition) {
        return refuse(labels, world, site);
    }
    let change = change_of(alloc, labels, slot, definition, site.given)?;
    redefine(labels, world, site, change)
}

/// What a definition changes of a property.
fn change_of<T: Copy, L: Labels<Label = T>>(
    alloc: Global,
    labels: &mut L,
    slot: &Slot<T>,
    definition: Definition,
    given: T,
) -> Result<Change<T>, OutOfMemory>
    requires slot { HasSlot (L.made labels.old) slot.now }
    requires given { L.made labels.old given }
    ensures change { IfOk result (IsChange L.made L.meaning labels.new slot.now definition given) }
    ensures kept { IsKept L.made L.meaning L.room L.firm labels.old labels.new }
{
    let accessor = becomes_accessor(is_accessor(&slot.body), &definition);
    let marks = marks_of_kind(accessor, slot.marks, definition.marks);
    let body = new_body(alloc, labels, slot, definition, given)?;
    Ok(Change { marks, body })
}

/// What the property holds, where that is given anew. Its label is that of what is given, and the old one besides where one half of an accessor stays.
fn new_body<T: Copy, L: Labels<Label = T>>(
    alloc: Global,
    labels: &mut L,
    slot: &Slot<T>,
    definition: Definition,
    given: T,
) -> Result<Option<NewBody<T>>, OutOfMemory>
    requires slot { HasSlot (L.made labels.old) slot.now }
    requires given { L.made labels.old given }
    ensures body { IfOk result (IsNewBody L.made L.meaning labels.new slot.now definition given) }
    ensures kept { IsKept L.made L.meaning L.room L.firm labels.old labels.new }
{
    if !changes_body(slot, &definition) {
        return Ok(None);
    }
    let label = body_label(labels, keeps_a_half(slot, &definition), given, slot.label)?;
    let accessor = becomes_accessor(is_accessor(&slot.body), &definition);
    let body = body_of_kind(alloc, accessor, &slot.body, definition.body)?;
    Ok(Some(NewBody { body, label }))
}

/// The label of what a property holds behind a definition.
fn body_label<T: Copy, L: Labels<Label = T>>(
    labels: &mut L,
    keeps: bool,
    given: T,
    old: T,
) -> Result<T, OutOfMemory>
    requires given { L.made labels.old given }
    requires old { L.made labels.old old }
    ensures means { IfOk result (λ label. Means L.made L.meaning labels.new label (λ reading. body_label keeps (reading given) (reading old))) }
    ensures kept { IsKept L.made L.meaning L.room L.firm labels.old labels.new }
{
    if !keeps {
        return Ok(given);
    }
    join(labels, given, old)
}

/// Changes a property that is there, by rules W6 and W2.
fn redefine<T: Copy, L: Labels<Label = T>>(
    labels: &mut L,
    world: &mut World<T>,
    site: &Site<T>,
    change: Change<T>,
) -> Result<Outcome<Defining<T>, T>, FlowFault<T>>
    requires present { IsSome (own_in site.now.key (slice_get world.old.heap site.now.object.0)) }
    requires place { L.made labels.old site.now.place }
    requires given { L.made labels.old site.now.given }
    requires body { HasNewBody (L.made labels.old) change.body }
    requires belongs { Belongs L.made L.meaning labels.old world.old }
    ensures acts { Acts L.made L.meaning labels.new (λ reading. read_defining reading) (λ reading. changed_by reading change (reading site.now.place) (reading site.now.given) site.now.object.0 site.now.key) world.old world.new result }
    ensures made { HasAnswer (HasDefining (L.made labels.new)) (L.made labels.new) result }
    ensures belongs { Belongs L.made L.meaning labels.new world.new }
    ensures grows { Grows world.old world.new }
    ensures kept { IsKept L.made L.meaning L.room L.firm labels.old labels.new }
{
    set_marks(labels, world, site, change.marks)?;
    set_body(labels, world, site, change.body)?;
    Ok(Outcome::Goes(Defining::Defined { label: site.place }))
}

/// Gives a property that is there other attributes, by rule W6.
pub(crate) fn set_marks<T: Copy, L: Labels<Label = T>>(
    labels: &mut L,
    world: &mut World<T>,
    site: &Site<T>,
    marks: Marks,
) -> Result<(), FlowFault<T>>
    requires present { IsSome (own_in site.now.key (slice_get world.old.heap site.now.object.0)) }
    requires place { L.made labels.old site.now.place }
    requires given { L.made labels.old site.now.given }
    requires belongs { Belongs L.made L.meaning labels.old world.old }
    ensures acts { Acts L.made L.meaning labels.new (λ reading u. u) (λ reading. set_marks (union (reading site.now.place) (reading site.now.given)) marks site.now.object.0 site.now.key) world.old world.new (went result) }
    ensures present { OnOk result (IsSome (own_in site.now.key (slice_get world.new.heap site.now.object.0))) }
    ensures outline { OnOk result (SameOutline L.made L.meaning labels.new site.now.object.0 world.old.heap world.new.heap) }
    ensures made { HasAnswer (λ u. Unit {0}) (L.made labels.new) (went result) }
    ensures belongs { Belongs L.made L.meaning labels.new world.new }
    ensures grows { Grows world.old world.new }
    ensures kept { IsKept L.made L.meaning L.room L.firm labels.old labels.new }
{
    let decided = join(labels, site.place, site.given)?;
    let need = need_of(labels, &world.frames, decided)?;
    world
        .heap
        .set_attributes(labels, site.object, &site.key, need, marks)?;
    Ok(())
}

/// Lets a property that is there hold something else, if that is given, by rule W2.
pub(crate) fn set_body<T: Copy, L: Labels<Label = T>>(
    labels: &mut L,
    world: &mut World<T>,
    site: &Site<T>,
    new: Option<NewBody<T>>,
) -> Result<(), FlowFault<T>>
    requires present { IsSome (own_in site.now.key (slice_get world.old.heap site.now.object.0)) }
    requires place { L.made labels.old site.now.place }
    requires body { HasNewBody (L.made labels.old) new }
    requires belongs { Belongs L.made L.meaning labels.old world.old }
    ensures acts { Acts L.made L.meaning labels.new (λ reading u. u) (λ reading. body_set reading (reading site.now.place) new site.now.object.0 site.now.key) world.old world.new (went result) }
    ensures made { HasAnswer (λ u. Unit {0}) (L.made labels.new) (went result) }
    ensures belongs { Belongs L.made L.meaning labels.new world.new }
    ensures grows { Grows world.old world.new }
    ensures kept { IsKept L.made L.meaning L.room L.firm labels.old labels.new }
{
    let Some(new) = new else {
        return Ok(());
    };
    let need = need_of(labels, &world.frames, site.place)?;
    let NewBody { body, label } = new;
    world
        .heap
        .set_body(labels, site.object, &site.key, need, body, label)?;
    Ok(())
}
