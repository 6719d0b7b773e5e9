//! The `length` of an array is given a number (ECMA-262 15.4.5.1, steps 3.e to 3.n).

ghost use Rattle.std.specs.Prelude.{◌≡◌, ◌<◌, pos, Some, IfSome, IsSome, OnOk, length, slice_get};
ghost use Rattle.origin_labels.specs.Label.{bottom, union};
ghost use Rattle.js_number.specs.declared.num.Num.TheVariants as nums;
ghost use Rattle.js_number.specs.declared.primitive.Primitive.TheVariants as prims;
ghost use Rattle.js_values.specs.declared.value.Value.TheVariants as values;
ghost use Rattle.js_values.specs.Arrays.{element_key, length_key};
ghost use Rattle.prototype_walk.specs.KeyLists.{rows_in};
ghost use Rattle.origin_labels.specs.Stores.{IsKept};
ghost use Rattle.js_values.specs.Readings.{HasValue, read_value};
ghost use Rattle.native_protocol.specs.declared.request.ErrorKind.TheVariants as kinds;
ghost use Rattle.object_heap.specs.Formed.{own_in};
ghost use Rattle.es_meaning.specs.Objects.{length_behind};
ghost use Rattle.flow_meaning.specs.Tracked.{cut_length, delete_element, deleted_within, ended_at, set_length, set_marks_if, throw_error};
ghost use Rattle.run_state.specs.Acts.{Acts, HasAnswer};
ghost use Rattle.run_state.specs.Worlds.{Belongs, Grows};
ghost use Rattle.run_state.specs.Accesses.{defines, marks_given};
ghost use Rattle.property_requests.specs.Finding.{went};
ghost use Rattle.property_requests.specs.Defining.{SameOutline};
ghost use Rattle.property_requests.specs.Lengths.{HasCut, HasDeletion, marks_behind, one_deletion, read_cut, read_deletion, set_at, shortened};

use crate::arrays::length_key;
use crate::bodies::is_accessor;
use crate::defining::{NewBody, Site, refuse, set_body, set_marks};
use crate::definition::{Definition, GivenBody, marks_of_kind, may_define_over};
use crate::parts::{join, need_of, place_of, undefined};
use flow_frames::FlowFault;
use js_number::{Int, Num, Primitive};
use js_values::{Labelled, Marks, ObjId, Slot, Value, element_key, length_body};
use native_protocol::{ErrorKind, GivenMarks};
use origin_labels::Labels;
use property_access::throw_error;
use run_state::{Outcome, SetLength, World};
use std::alloc::Global;

/// A definition that gives no attributes.
const NO_MARKS: GivenMarks = GivenMarks {
    writable: None,
    enumerable: None,
    configurable: None,
};

/// The element that stays, where one does, and the existence labels of the elements that were tested.
#[derive(Clone, Copy)]
pub(crate) struct Cut<T> {
    pub(crate) stays: Option<u32>,
    pub(crate) tested: T,
}

/// What one deletion comes to: there is none left to do, or others may follow, where these elements were tested.
#[derive(Clone, Copy)]
pub(crate) enum Deletion<T> {
    Ended(Cut<T>),
    Further(T),
}

/// Gives the `length` of an array a number, which has this label, and gives undefined. The array's own label is that of base, key and walk. In a definition W6 comes
/// first; the elements at or above the number are deleted from the highest one down, by W4 and W5 each; and then W2 is asked once. An element that can't be
/// deleted stays, and throws a TypeError.
pub fn set_length<T: Copy, L: Labels<Label = T>>(
    alloc: Global,
    labels: &mut L,
    world: &mut World<T>,
    how: SetLength,
    array: ObjId,
    place: T,
    number: u32,
    given: T,
) -> Result<Outcome<Labelled<T>, T>, FlowFault<T>>
    requires place { L.made labels.old place }
    requires given { L.made labels.old given }
    requires belongs { Belongs L.made L.meaning labels.old world.old }
    ensures acts { Acts L.made L.meaning labels.new (λ reading. read_value reading) (λ reading. set_length (defines how) (reading place) array.0 (marks_given how) number (reading given)) world.old world.new result }
    ensures made { HasAnswer (HasValue (L.made labels.new)) (L.made labels.new) result }
    ensures belongs { Belongs L.made L.meaning labels.new world.new }
    ensures grows { Grows world.old world.new }
    ensures kept { IsKept L.made L.meaning L.room L.firm labels.old labels.new }
{
    if array.0 >= world.heap.len() {
        return throw_by(labels, world, place, given);
    }
    let key = length_key(alloc)?;
    let place = place_of(labels, &world.heap, array, &key, place)?;
    let site = Site {
        object: array,
        key,
        place,
        given,
    };
    set_at(alloc, labels, world, how, &site, number)
}

/// Throws a TypeError, whose cause has both labels.
fn throw_by<T: Copy, L: Labels<Label = T>>(
    labels: &mut L,
    world: &mut World<T>,
    first: T,
    second: T,
) -> Result<Outcome<Labelled<T>, T>, FlowFault<T>>
    requires first { L.made labels.old first }
    requires second { L.made labels.old second }
    requires belongs { Belongs L.made L.meaning labels.old world.old }
    ensures acts { Acts L.made L.meaning labels.new (λ reading. read_value reading) (λ reading. throw_error kinds.TypeError (union (reading first) (reading second))) world.old world.new result }
    ensures made { HasAnswer (HasValue (L.made labels.new)) (L.made labels.new) result }
    ensures belongs { Belongs L.made L.meaning labels.new world.new }
    ensures grows { Grows world.old world.new }
    ensures kept { IsKept L.made L.meaning L.room L.firm labels.old labels.new }
{
    let cause = join(labels, first, second)?;
    throw_error(labels, world, ErrorKind::TypeError, cause)
}

/// Gives the `length` of an array that is there a number, unless that is refused.
fn set_at<T: Copy, L: Labels<Label = T>>(
    alloc: Global,
    labels: &mut L,
    world: &mut World<T>,
    how: SetLength,
    site: &Site<T>,
    number: u32,
) -> Result<Outcome<Labelled<T>, T>, FlowFault<T>>
    requires there { site.now.object.0 < length world.old.heap }
    requires key { site.now.key ≡ length_key }
    requires place { L.made labels.old site.now.place }
    requires given { L.made labels.old site.now.given }
    requires belongs { Belongs L.made L.meaning labels.old world.old }
    ensures acts { Acts L.made L.meaning labels.new (λ reading. read_value reading) (λ reading s. set_at reading how site.now number (slice_get s.heap site.now.object.0) s) world.old world.new result }
    ensures made { HasAnswer (HasValue (L.made labels.new)) (L.made labels.new) result }
    ensures belongs { Belongs L.made L.meaning labels.new world.new }
    ensures grows { Grows world.old world.new }
    ensures kept { IsKept L.made L.meaning L.room L.firm labels.old labels.new }
{
    let Some(marks) = marks_behind(world, site, how, number) else {
        return refuse(labels, world, site);
    };
    define_marks(labels, world, how, site, marks)?;
    shorten(alloc, labels, world, site, number)
}

/// The attributes of the `length` behind the definition of a number, unless that is refused. One that is an accessor gets no number.
fn marks_behind<T: Copy>(
    world: &World<T>,
    site: &Site<T>,
    how: SetLength,
    number: u32,
) -> Option<Marks>
    requires { site.now.object.0 < length world.now.heap }
    ensures { result ≡ marks_behind how number (own_in site.now.key (slice_get world.now.heap site.now.object.0)) }
{
    match world.heap.own(site.object, &site.key) {
        None => None,
        Some(slot) => marks_over(slot, how, number),
    }
}

/// The attributes of this property behind the definition of a number, unless that is refused.
fn marks_over<T: Copy>(slot: &Slot<T>, how: SetLength, number: u32) -> Option<Marks>
    ensures { result ≡ marks_behind how number (Some slot.now) }
{
    if is_accessor(&slot.body) {
        return None;
    }
    let marks = given_by(how);
    let definition = Definition {
        marks,
        body: GivenBody::Value(number_value(number)),
    };
    if !may_define_over(slot, &definition) {
        return None;
    }
    Some(marks_of_kind(false, slot.marks, marks))
}

/// The attributes that are given. A put gives none.
fn given_by(how: SetLength) -> GivenMarks
    ensures { result ≡ marks_given how }
{
    match how {
        SetLength::Put => NO_MARKS,
        SetLength::Define(marks) => marks,
    }
}

/// A number as a value.
fn number_value(n: u32) -> Value
    ensures { result ≡ values.Primitive (prims.Num (nums.Int (pos n))) }
{
    let number = Int::new(i64::from(n)).unwrap();
    Value::Primitive(Primitive::Num(Num::Int(number)))
}

/// A definition gives the `length` its attributes, by rule W6.
fn define_marks<T: Copy, L: Labels<Label = T>>(
    labels: &mut L,
    world: &mut World<T>,
    how: SetLength,
    site: &Site<T>,
    marks: Marks,
) -> Result<(), FlowFault<T>>
    requires present { IsSome (own_in site.now.key (slice_get world.old.heap site.now.object.0)) }
    requires place { L.made labels.old site.now.place }
    requires given { L.made labels.old site.now.given }
    requires belongs { Belongs L.made L.meaning labels.old world.old }
    ensures acts { Acts L.made L.meaning labels.new (λ reading u. u) (λ reading. set_marks_if (defines how) (union (reading site.now.place) (reading site.now.given)) marks site.now.object.0 site.now.key) world.old world.new (went result) }
    ensures present { OnOk result (IsSome (own_in site.now.key (slice_get world.new.heap site.now.object.0))) }
    ensures outline { OnOk result (SameOutline L.made L.meaning labels.new site.now.object.0 world.old.heap world.new.heap) }
    ensures made { HasAnswer (λ u. Unit {0}) (L.made labels.new) (went result) }
    ensures belongs { Belongs L.made L.meaning labels.new world.new }
    ensures grows { Grows world.old world.new }
    ensures kept { IsKept L.made L.meaning L.room L.firm labels.old labels.new }
{
    match how {
        SetLength::Put => Ok(()),
        SetLength::Define(_) => set_marks(labels, world, site, marks),
    }
}

/// Deletes the elements at or above a number, and then gives the `length` what that comes to.
fn shorten<T: Copy, L: Labels<Label = T>>(
    alloc: Global,
    labels: &mut L,
    world: &mut World<T>,
    site: &Site<T>,
    number: u32,
) -> Result<Outcome<Labelled<T>, T>, FlowFault<T>>
    requires there { site.now.object.0 < length world.old.heap }
    requires key { site.now.key ≡ length_key }
    requires present { IsSome (own_in site.now.key (slice_get world.old.heap site.now.object.0)) }
    requires place { L.made labels.old site.now.place }
    requires given { L.made labels.old site.now.given }
    requires belongs { Belongs L.made L.meaning labels.old world.old }
    ensures acts { Acts L.made L.meaning labels.new (λ reading. read_value reading) (λ reading s. shortened (reading site.now.place) (reading site.now.given) site.now.object.0 number (slice_get s.heap site.now.object.0) s) world.old world.new result }
    ensures made { HasAnswer (HasValue (L.made labels.new)) (L.made labels.new) result }
    ensures belongs { Belongs L.made L.meaning labels.new world.new }
    ensures grows { Grows world.old world.new }
    ensures kept { IsKept L.made L.meaning L.room L.firm labels.old labels.new }
{
    let structure = world.heap.shape(site.object).structure;
    let label = join(labels, site.given, structure)?;
    let place = join(labels, site.place, label)?;
    let cut = delete_down(alloc, labels, world, site.object, number, place)?;
    give_length(labels, world, site, number, label, cut)
}

/// Gives the `length` what it is behind the deletions, by rule W2.
fn give_length<T: Copy, L: Labels<Label = T>>(
    labels: &mut L,
    world: &mut World<T>,
    site: &Site<T>,
    number: u32,
    label: T,
    cut: Cut<T>,
) -> Result<Outcome<Labelled<T>, T>, FlowFault<T>>
    requires key { site.now.key ≡ length_key }
    requires present { IsSome (own_in site.now.key (slice_get world.old.heap site.now.object.0)) }
    requires place { L.made labels.old site.now.place }
    requires label { L.made labels.old label }
    requires cut { HasCut (L.made labels.old) cut }
    requires belongs { Belongs L.made L.meaning labels.old world.old }
    ensures acts { Acts L.made L.meaning labels.new (λ reading. read_value reading) (λ reading. cut_length (reading site.now.place) (reading label) site.now.object.0 number (read_cut reading cut)) world.old world.new result }
    ensures made { HasAnswer (HasValue (L.made labels.new)) (L.made labels.new) result }
    ensures belongs { Belongs L.made L.meaning labels.new world.new }
    ensures grows { Grows world.old world.new }
    ensures kept { IsKept L.made L.meaning L.room L.firm labels.old labels.new }
{
    let depends = join(labels, label, cut.tested)?;
    let body = length_body(length_behind(number, cut.stays));
    let new = NewBody {
        body,
        label: depends,
    };
    set_body(labels, world, site, Some(new))?;
    end_at(labels, world, site, depends, cut.stays)
}

/// What the `length` is then: the number, or one more than that of the element that stays.
fn length_behind(number: u32, stays: Option<u32>) -> u32
    requires { IfSome stays (λ i. i < 4294967295) }
    ensures { result ≡ length_behind number stays }
{
    match stays {
        None => number,
        Some(i) => i + 1,
    }
}

/// Gives undefined, or throws a TypeError where an element stays.
fn end_at<T: Copy, L: Labels<Label = T>>(
    labels: &mut L,
    world: &mut World<T>,
    site: &Site<T>,
    label: T,
    stays: Option<u32>,
) -> Result<Outcome<Labelled<T>, T>, FlowFault<T>>
    requires place { L.made labels.old site.now.place }
    requires label { L.made labels.old label }
    requires belongs { Belongs L.made L.meaning labels.old world.old }
    ensures acts { Acts L.made L.meaning labels.new (λ reading. read_value reading) (λ reading. ended_at stays (reading site.now.place) (union (reading site.now.place) (reading label))) world.old world.new result }
    ensures made { HasAnswer (HasValue (L.made labels.new)) (L.made labels.new) result }
    ensures belongs { Belongs L.made L.meaning labels.new world.new }
    ensures grows { Grows world.old world.new }
    ensures kept { IsKept L.made L.meaning L.room L.firm labels.old labels.new }
{
    match stays {
        None => Ok(Outcome::Goes(undefined(site.place))),
        Some(_) => throw_by(labels, world, site.place, label),
    }
}

/// Deletes the elements at or above a number from the highest one down, up to one that can't be deleted.
fn delete_down<T: Copy, L: Labels<Label = T>>(
    alloc: Global,
    labels: &mut L,
    world: &mut World<T>,
    o: ObjId,
    number: u32,
    place: T,
) -> Result<Cut<T>, FlowFault<T>>
    requires there { o.0 < length world.old.heap }
    requires place { L.made labels.old place }
    requires belongs { Belongs L.made L.meaning labels.old world.old }
    ensures acts { Acts L.made L.meaning labels.new (λ reading. read_cut reading) (λ reading. deleted_within (length (rows_in (slice_get world.old.heap o.0))) (reading place) o.0 number bottom) world.old world.new (went result) }
    ensures present { OnOk result (IsSome (own_in length_key (slice_get world.old.heap o.0)) → IsSome (own_in length_key (slice_get world.new.heap o.0))) }
    ensures made { HasAnswer (HasCut (L.made labels.new)) (L.made labels.new) (went result) }
    ensures belongs { Belongs L.made L.meaning labels.new world.new }
    ensures grows { Grows world.old world.new }
    ensures kept { IsKept L.made L.meaning L.room L.firm labels.old labels.new }
{
    let most = world.heap.count(o);
    let mut tested = labels.bottom();
    for _ in 0..most {
        let deletion = delete_highest(alloc, labels, world, o, number, place, tested)?;
        match deletion {
            Deletion::Ended(cut) => return Ok(cut),
            Deletion::Further(further) => tested = further,
        }
    }
    Ok(Cut {
        stays: None,
        tested,
    })
}

/// Deletes the highest element at or above a number, if there is one and it can be deleted.
fn delete_highest<T: Copy, L: Labels<Label = T>>(
    alloc: Global,
    labels: &mut L,
    world: &mut World<T>,
    o: ObjId,
    number: u32,
    place: T,
    tested: T,
) -> Result<Deletion<T>, FlowFault<T>>
    requires there { o.0 < length world.old.heap }
    requires place { L.made labels.old place }
    requires tested { L.made labels.old tested }
    requires belongs { Belongs L.made L.meaning labels.old world.old }
    ensures acts { Acts L.made L.meaning labels.new (λ reading. read_deletion reading) (λ reading. one_deletion (reading place) o.0 number (reading tested)) world.old world.new (went result) }
    ensures present { OnOk result (IsSome (own_in length_key (slice_get world.old.heap o.0)) → IsSome (own_in length_key (slice_get world.new.heap o.0))) }
    ensures made { HasAnswer (HasDeletion (L.made labels.new)) (L.made labels.new) (went result) }
    ensures belongs { Belongs L.made L.meaning labels.new world.new }
    ensures grows { Grows world.old world.new }
    ensures kept { IsKept L.made L.meaning L.room L.firm labels.old labels.new }
{
    let Some((i, slot)) = world.heap.highest(o, number) else {
        return Ok(Deletion::Ended(Cut {
            stays: None,
            tested,
        }));
    };
    let configurable = slot.marks.configurable;
    let tested = join(labels, tested, slot.existence)?;
    if !configurable {
        return Ok(Deletion::Ended(Cut {
            stays: Some(i),
            tested,
        }));
    }
    delete_element(alloc, labels, world, o, i, place, tested)?;
    Ok(Deletion::Further(tested))
}

/// Deletes an element, by rules W4 and W5. That depends on what was tested so far, itself among it.
fn delete_element<T: Copy, L: Labels<Label = T>>(
    alloc: Global,
    labels: &mut L,
    world: &mut World<T>,
    o: ObjId,
    i: u32,
    place: T,
    tested: T,
) -> Result<(), FlowFault<T>>
    requires small { i < 4294967295 }
    requires present { IsSome (own_in (element_key i) (slice_get world.old.heap o.0)) }
    requires place { L.made labels.old place }
    requires tested { L.made labels.old tested }
    requires belongs { Belongs L.made L.meaning labels.old world.old }
    ensures acts { Acts L.made L.meaning labels.new (λ reading u. u) (λ reading. delete_element (union (reading place) (reading tested)) o.0 i) world.old world.new (went result) }
    ensures present { OnOk result (IsSome (own_in length_key (slice_get world.old.heap o.0)) → IsSome (own_in length_key (slice_get world.new.heap o.0))) }
    ensures made { HasAnswer (λ u. Unit {0}) (L.made labels.new) (went result) }
    ensures belongs { Belongs L.made L.meaning labels.new world.new }
    ensures grows { Grows world.old world.new }
    ensures kept { IsKept L.made L.meaning L.room L.firm labels.old labels.new }
{
    let key = element_key(alloc, i)?;
    let depends = join(labels, place, tested)?;
    let need = need_of(labels, &world.frames, depends)?;
    world.heap.remove(labels, o, &key, need)?;
    Ok(())
}
