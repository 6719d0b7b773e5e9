//! The properties of objects, as they are put.

ghost use Rattle.std.specs.Prelude.{◌≡◌, ◌<◌, ℕ, List, None, IsSome, IfOk, length, map, slice_get};
ghost use Rattle.std.specs.Option.{option_map};
ghost use Rattle.origin_labels.specs.Label.{union};
ghost use Rattle.origin_labels.specs.Stores.{IsKept};
ghost use Rattle.flow_frames.specs.Frames.{context};
ghost use Rattle.flow_frames.specs.Held.{Belong, seen_frame};
ghost use Rattle.js_values.specs.declared.value.Labelled.{Labelled as LabelledOf};
ghost use Rattle.js_values.specs.Readings.{read_heap, read_value};
ghost use Rattle.js_values.specs.Walks.{object_chain};
ghost use Rattle.object_heap.specs.Formed.{own_in};
ghost use Rattle.prototype_walk.specs.Answers.{Means, IsPlan};
ghost use Rattle.prototype_walk.specs.Plans.{can_put};
ghost use Rattle.prototype_walk.specs.declared.plan.PutPlan.TheVariants as plans;
ghost use Rattle.es_meaning.specs.Definitions.{setter_in};
ghost use Rattle.flow_meaning.specs.Tracked.{called_value, put, put_by, setter_found};
ghost use Rattle.property_access.specs.Accessors.{setter_with};
ghost use Rattle.property_access.specs.Elements.{length_in};
ghost use Rattle.run_state.specs.Accesses.{HasPutting, read_putting};
ghost use Rattle.run_state.specs.Acts.{Acts, HasAnswer};
ghost use Rattle.run_state.specs.Worlds.{Belongs, Grows};

use crate::properties::{join, object};
use crate::throwing::throw_error;
use flow_frames::{FlowFault, Frames, Rule};
use flow_text::{OutOfMemory, Text};
use js_values::{Body, Key, Labelled, Marks, ObjId, names_length};
use native_protocol::ErrorKind;
use origin_labels::Labels;
use prototype_walk::{PutPlan, can_put_named};
use run_state::{Outcome, Putting, World};
use std::alloc::Global;

/// The attributes of a property that a script makes (ECMA-262 8.12.5).
const MADE_BY_SCRIPT: Marks = Marks {
    writable: true,
    enumerable: true,
    configurable: true,
};

/// The setter of a property, with the property's value label.
#[derive(Clone, Copy)]
pub(crate) struct FoundSetter<T> {
    pub label: T,
    pub set: Option<ObjId>,
}

/// Puts a value on an object by a key (ECMA-262 8.12.5): its property has another value by the rule, W1 for a name and W2 for a member, or is added by W3; or
/// it has a setter, whose `this` is the object with a label of its own. `label` is that of base and key. The `length` of an array is
/// set behind two conversions, which are still to be done.
pub fn put_on_object<T: Copy, L: Labels<Label = T>>(
    alloc: Global,
    labels: &mut L,
    world: &mut World<T>,
    rule: Rule,
    o: ObjId,
    key: &Text,
    label: T,
    this_label: T,
    value: Labelled<T>,
) -> Result<Outcome<Putting<T>, T>, FlowFault<T>>
    requires label { L.made labels.old label }
    requires this { L.made labels.old this_label }
    requires value { L.made labels.old value.label }
    requires belongs { Belongs L.made L.meaning labels.old world.old }
    ensures acts { Acts L.made L.meaning labels.new (λ reading. read_putting reading) (λ reading. put rule o.0 key.now (reading label) (called_value (reading this_label) o.0) (read_value reading value)) world.old world.new result }
    ensures made { HasAnswer (HasPutting (L.made labels.new)) (L.made labels.new) result }
    ensures belongs { Belongs L.made L.meaning labels.new world.new }
    ensures grows { Grows world.old world.new }
    ensures kept { IsKept L.made L.meaning L.room L.firm labels.old labels.new }
{
    let plan = plan_of(labels, world, o, key)?;
    match plan {
        PutPlan::Write { walk } => write(labels, world, rule, o, key, label, walk, value),
        PutPlan::Add { walk } => add(alloc, labels, world, o, key, label, walk, value),
        PutPlan::Setter { at, walk } => setter(
            labels,
            world,
            at,
            key,
            label,
            walk,
            object(o, this_label),
        ),
        PutPlan::Refused { walk } => refuse(labels, world, label, walk),
    }
}

/// What a put does: on an object that isn't there it is refused.
fn plan_of<T: Copy, L: Labels<Label = T>>(
    labels: &mut L,
    world: &World<T>,
    o: ObjId,
    key: &Text,
) -> Result<PutPlan<T>, OutOfMemory>
    requires belongs { Belongs L.made L.meaning labels.old world.now }
    ensures plan { IfOk result (IsPlan L.made L.meaning labels.new (λ reading. can_put key.now (object_chain (read_heap reading world.now.heap) o.0))) }
    ensures kept { IsKept L.made L.meaning L.room L.firm labels.old labels.new }
{
    if o.0 < world.heap.len() {
        return can_put_named(&world.heap, labels, o, key);
    }
    let walk = labels.bottom();
    Ok(PutPlan::Refused { walk })
}

/// Writes over the object's own property, but for the `length` of an array.
fn write<T: Copy, L: Labels<Label = T>>(
    labels: &mut L,
    world: &mut World<T>,
    rule: Rule,
    o: ObjId,
    key: &Text,
    label: T,
    walk: T,
    value: Labelled<T>,
) -> Result<Outcome<Putting<T>, T>, FlowFault<T>>
    requires present { IsSome (own_in key.now (slice_get world.old.heap o.0)) }
    requires label { L.made labels.old label }
    requires walk { L.made labels.old walk }
    requires value { L.made labels.old value.label }
    requires belongs { Belongs L.made L.meaning labels.old world.old }
    ensures acts { (base : LabelledOf T) → Acts L.made L.meaning labels.new (λ reading. read_putting reading) (λ reading. put_by (plans.Write (reading walk)) rule o.0 key.now (reading label) (read_value reading base) (read_value reading value)) world.old world.new result }
    ensures made { HasAnswer (HasPutting (L.made labels.new)) (L.made labels.new) result }
    ensures belongs { Belongs L.made L.meaning labels.new world.new }
    ensures grows { Grows world.old world.new }
    ensures kept { IsKept L.made L.meaning L.room L.firm labels.old labels.new }
{
    if is_length(world, o, key) {
        let label = join(labels, label, walk)?;
        return Ok(Outcome::Goes(Putting::Length { label, array: o }));
    }
    let need = need_of(labels, &world.frames, label, walk)?;
    world.heap.write_named(labels, rule, o, key, need, value)?;
    Ok(Outcome::Goes(Putting::Put))
}

/// Whether the key names the `length` of an object, which is an array then.
fn is_length<T: Copy>(world: &World<T>, o: ObjId, key: &Text) -> bool
    ensures { result ≡ length_in key.now (slice_get world.now.heap o.0) }
{
    if o.0 < world.heap.len() {
        return names_length(world.heap.shape(o).class, key);
    }
    false
}

/// Adds a property.
fn add<T: Copy, L: Labels<Label = T>>(
    alloc: Global,
    labels: &mut L,
    world: &mut World<T>,
    o: ObjId,
    key: &Text,
    label: T,
    walk: T,
    value: Labelled<T>,
) -> Result<Outcome<Putting<T>, T>, FlowFault<T>>
    requires there { o.0 < length world.old.heap }
    requires absent { own_in key.now (slice_get world.old.heap o.0) ≡ None }
    requires label { L.made labels.old label }
    requires walk { L.made labels.old walk }
    requires value { L.made labels.old value.label }
    requires belongs { Belongs L.made L.meaning labels.old world.old }
    ensures acts { (rule : Rule) (base : LabelledOf T) → Acts L.made L.meaning labels.new (λ reading. read_putting reading) (λ reading. put_by (plans.Add (reading walk)) rule o.0 key.now (reading label) (read_value reading base) (read_value reading value)) world.old world.new result }
    ensures made { HasAnswer (HasPutting (L.made labels.new)) (L.made labels.new) result }
    ensures belongs { Belongs L.made L.meaning labels.new world.new }
    ensures grows { Grows world.old world.new }
    ensures kept { IsKept L.made L.meaning L.room L.firm labels.old labels.new }
{
    let need = need_of(labels, &world.frames, label, walk)?;
    let key = Key::new(key.copy(alloc)?);
    let body = Body::Data(value.value);
    world
        .heap
        .add(labels, o, key, need, body, value.label, MADE_BY_SCRIPT)?;
    Ok(Outcome::Goes(Putting::Put))
}

/// The setter of the property of the object `at`, which is called with this `this`. The frame's label has the property's value label besides.
fn setter<T: Copy, L: Labels<Label = T>>(
    labels: &mut L,
    world: &mut World<T>,
    at: ObjId,
    key: &Text,
    label: T,
    walk: T,
    this: Labelled<T>,
) -> Result<Outcome<Putting<T>, T>, FlowFault<T>>
    requires label { L.made labels.old label }
    requires walk { L.made labels.old walk }
    requires this { L.made labels.old this.label }
    requires belongs { Belongs L.made L.meaning labels.old world.old }
    ensures acts { (rule : Rule) (o : ℕ) (value : LabelledOf T) → Acts L.made L.meaning labels.new (λ reading. read_putting reading) (λ reading. put_by (plans.Setter at (reading walk)) rule o key.now (reading label) (read_value reading this) (read_value reading value)) world.old world.new result }
    ensures made { HasAnswer (HasPutting (L.made labels.new)) (L.made labels.new) result }
    ensures belongs { Belongs L.made L.meaning labels.new world.new }
    ensures grows { Grows world.old world.new }
    ensures kept { IsKept L.made L.meaning L.room L.firm labels.old labels.new }
{
    let place = join(labels, label, walk)?;
    match setter_at(world, at, key) {
        Some(found) => {
            let depends = join(labels, place, found.label)?;
            enter_setter(labels, world, depends, found.set, this)
        }
        None => throw_error(labels, world, ErrorKind::TypeError, place),
    }
}

/// The setter of an own property, with the property's value label.
fn setter_at<T: Copy>(world: &World<T>, at: ObjId, key: &Text) -> Option<FoundSetter<T>>
    ensures { result ≡ option_map setter_with (own_in key.now (slice_get world.now.heap at.0)) }
{
    if at.0 >= world.heap.len() {
        return None;
    }
    match world.heap.own_named(at, key) {
        Some(slot) => Some(FoundSetter {
            label: slot.label,
            set: setter_in(&slot.body),
        }),
        None => None,
    }
}

/// The setter of what a property holds.
pub(crate) fn setter_in(body: &Body) -> Option<ObjId>
    ensures { result ≡ setter_in body.now }
{
    match body {
        Body::Accessor { set, .. } => *set,
        Body::Data(_) => None,
    }
}

/// A put by a setter: without one it throws.
pub(crate) fn enter_setter<T: Copy, L: Labels<Label = T>>(
    labels: &mut L,
    world: &mut World<T>,
    label: T,
    set: Option<ObjId>,
    this: Labelled<T>,
) -> Result<Outcome<Putting<T>, T>, FlowFault<T>>
    requires label { L.made labels.old label }
    requires this { L.made labels.old this.label }
    requires belongs { Belongs L.made L.meaning labels.old world.old }
    ensures acts { Acts L.made L.meaning labels.new (λ reading. read_putting reading) (λ reading. setter_found (reading label) (read_value reading this) set) world.old world.new result }
    ensures made { HasAnswer (HasPutting (L.made labels.new)) (L.made labels.new) result }
    ensures belongs { Belongs L.made L.meaning labels.new world.new }
    ensures grows { Grows world.old world.new }
    ensures kept { IsKept L.made L.meaning L.room L.firm labels.old labels.new }
{
    match set {
        Some(function) => Ok(Outcome::Goes(Putting::Setter {
            label,
            function,
            this,
        })),
        None => throw_error(labels, world, ErrorKind::TypeError, label),
    }
}

/// Throws the error of a put that isn't allowed.
fn refuse<T: Copy, L: Labels<Label = T>>(
    labels: &mut L,
    world: &mut World<T>,
    label: T,
    walk: T,
) -> Result<Outcome<Putting<T>, T>, FlowFault<T>>
    requires label { L.made labels.old label }
    requires walk { L.made labels.old walk }
    requires belongs { Belongs L.made L.meaning labels.old world.old }
    ensures acts { (rule : Rule) (o : ℕ) (key : List ℕ) (base value : LabelledOf T) → Acts L.made L.meaning labels.new (λ reading. read_putting reading) (λ reading. put_by (plans.Refused (reading walk)) rule o key (reading label) (read_value reading base) (read_value reading value)) world.old world.new result }
    ensures made { HasAnswer (HasPutting (L.made labels.new)) (L.made labels.new) result }
    ensures belongs { Belongs L.made L.meaning labels.new world.new }
    ensures grows { Grows world.old world.new }
    ensures kept { IsKept L.made L.meaning L.room L.firm labels.old labels.new }
{
    let cause = join(labels, label, walk)?;
    throw_error(labels, world, ErrorKind::TypeError, cause)
}

/// What a put asks for: the context, the label of base and key, and that of the walk.
fn need_of<T: Copy, L: Labels<Label = T>>(
    labels: &mut L,
    frames: &Frames<T>,
    label: T,
    walk: T,
) -> Result<T, OutOfMemory>
    requires label { L.made labels.old label }
    requires walk { L.made labels.old walk }
    requires belongs { Belong L.made L.meaning labels.old frames.now.frames }
    ensures means { IfOk result (λ need. Means L.made L.meaning labels.new need (λ reading. union (context (map (seen_frame reading) frames.now.frames)) (union (reading label) (reading walk)))) }
    ensures kept { IsKept L.made L.meaning L.room L.firm labels.old labels.new }
{
    let place = join(labels, label, walk)?;
    let context = frames.context(labels);
    let need = join(labels, context, place)?;
    Ok(need)
}
