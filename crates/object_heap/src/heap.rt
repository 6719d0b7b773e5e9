//! The objects of a run.

ghost use Rattle.std.specs.Prelude.{◌≡◌, ◌<◌, ◌+◌, ℕ, [], ◌∷◌, ◌++◌, true, Some, None, IsSome, IfSome, IfOk, IfErr, OnOk, OnErr, length, slice_get};
ghost use Rattle.std.specs.Option.{option_map};
ghost use Rattle.origin_labels.specs.Stores.{IsKept};
ghost use Rattle.flow_frames.specs.Stops.{IsStop};
ghost use Rattle.js_values.specs.Arrays.{highest, length_key};
ghost use Rattle.js_values.specs.Objects.{fresh_object};
ghost use Rattle.js_values.specs.Readings.{HasHeap, HasInner, read_heap, read_value};
ghost use Rattle.object_heap.specs.Acts.{act_on, overwrite_own, new_object, write, set_body, set_attributes, raise_existence, add, remove, raise_structure, prevent_extensions, give, give_first};
ghost use Rattle.object_heap.specs.Answers.{Acts};
ghost use Rattle.object_heap.specs.Formed.{IsFormed, own_in, row_in, rows_in, target_of, IsShape, IsInner};
ghost use Rattle.object_heap.specs.Places.{IsPlace, StandsAt};

use crate::object::Object;
use crate::shape::Shape;
use flow_frames::{FlowFault, Rule};
use flow_text::{OutOfMemory, Text};
use js_values::{Body, Class, Inner, Key, Labelled, Marks, ObjId, Slot};
use origin_labels::Labels;
use std::alloc::Global;
use std::marker::Model;

/// Objects. Each has a number, and its prototype a smaller one, and so has what a bound function calls.
#[derive(Drop)]
pub struct Heap<T> {
    alloc: Global,
    objects: Vec<Object<T>>,
}

impl<T> Model for Heap<T> {
    ghost use Rattle.std.specs.Prelude.{List};
    ghost use Rattle.js_values.specs.Objects.{Object};
    ghost use Rattle.object_heap.specs.Formed.{IsFormed};

    ghost Value = { List (Object T) };

    ghost view = { λ h. h.objects.items };

    ghost invariant = { λ h. IsFormed h.objects.items };
}

impl<T: Copy> Heap<T> {
    /// No objects. It takes no memory.
    pub fn new(alloc: Global) -> Heap<T>
        ensures { result ≡ [] }
    {
        Heap {
            alloc,
            objects: Vec::new(alloc),
        }
    }

    /// How many objects there are.
    pub fn len(&self) -> u64
        ensures length { result ≡ length self.now }
        ensures formed { IsFormed self.now }
    {
        self.objects.len() as u64
    }

    /// Makes an extensible object without properties. `link` is the label of its prototype, and `structure` that of which properties it has.
    pub fn new_object(
        &mut self,
        class: Class,
        proto: Option<ObjId>,
        link: T,
        structure: T,
        inner: Inner<T>,
    ) -> Result<ObjId, OutOfMemory>
        requires proto { IfSome proto (λ o. o.0 < length self.old) }
        requires target { IfSome (target_of inner) (λ o. o < length self.old) }
        ensures number { IfOk result (λ o. o.0 ≡ length self.old) }
        ensures ok { OnOk result (self.new ≡ new_object class proto link structure inner self.old) }
        ensures length { OnOk result (length self.new ≡ length self.old + 1) }
        ensures there { IfOk result (λ o. slice_get self.new o.0 ≡ Some (fresh_object class inner proto link structure)) }
        ensures unchanged { OnErr result (self.new ≡ self.old) }
    {
        let number = self.objects.len() as u64;
        let object = Object::new(self.alloc, class, proto, link, structure, inner);
        self.objects.push(object)?;
        Ok(ObjId(number))
    }

    /// What an object is besides its properties and its inner part.
    pub fn shape(&self, o: ObjId) -> Shape<T>
        requires { o.0 < length self.now }
        ensures { IsShape (slice_get self.now o.0) result }
    {
        self.object(o).shape()
    }

    /// The inner part of an object.
    pub fn inner(&self, o: ObjId) -> &Inner<T>
        requires { o.0 < length self.now }
        ensures { IsInner (slice_get self.now o.0) result.now }
    {
        self.object(o).inner()
    }

    /// The property of an object with a key.
    pub fn own(&self, o: ObjId, key: &Key) -> Option<&Slot<T>>
        requires { o.0 < length self.now }
        ensures { option_map (λ s. s.now) result ≡ own_in key.now (slice_get self.now o.0) }
    {
        self.own_named(o, key.text())
    }

    /// The property of an object with the key of a text.
    pub fn own_named(&self, o: ObjId, name: &Text) -> Option<&Slot<T>>
        requires { o.0 < length self.now }
        ensures { option_map (λ s. s.now) result ≡ own_in name.now (slice_get self.now o.0) }
    {
        self.object(o).own(name)
    }

    /// The property of an object at a place, with its key.
    pub fn own_at(&self, o: ObjId, n: usize) -> Option<(&Key, &Slot<T>)>
        requires { o.0 < length self.now }
        ensures { option_map (λ r. (r.0.now, r.1.now)) result ≡ row_in n (slice_get self.now o.0) }
    {
        self.object(o).own_at(n)
    }

    /// The `length` of an object, where it has one.
    pub fn length(&self, o: ObjId) -> Option<&Slot<T>>
        requires { o.0 < length self.now }
        ensures { option_map (λ s. s.now) result ≡ own_in length_key (slice_get self.now o.0) }
    {
        self.object(o).own_length()
    }

    /// How many properties an object has.
    pub fn count(&self, o: ObjId) -> usize
        requires { o.0 < length self.now }
        ensures { result ≡ length (rows_in (slice_get self.now o.0)) }
    {
        self.object(o).count()
    }

    /// The highest element of an object at or above a number, with its property.
    pub fn highest(&self, o: ObjId, n: u32) -> Option<(u32, &Slot<T>)>
        requires { o.0 < length self.now }
        ensures { option_map (λ e. (e.0, e.1.now)) result ≡ highest n (rows_in (slice_get self.now o.0)) }
    {
        self.object(o).highest(n)
    }

    /// The place of the property of an object with the key of a text. It holds until a property of that object is added or taken away.
    pub fn place_named(&self, o: ObjId, name: &Text) -> Option<usize>
        requires { o.0 < length self.now }
        ensures { IsPlace name.now (rows_in (slice_get self.now o.0)) result }
    {
        self.object(o).place(name)
    }

    /// The property of an object at a place that it has.
    pub fn slot_at(&self, o: ObjId, place: usize) -> &Slot<T>
        requires { place < length (rows_in (slice_get self.now o.0)) }
        ensures { option_map (λ r. r.1) (slice_get (rows_in (slice_get self.now o.0)) place) ≡ Some result.now }
    {
        self.object(o).slot(place)
    }

    /// Writes a value over that of a property which is data: by rule W2, or by W1 where it is a global name.
    pub fn write<L: Labels<Label = T>>(
        &mut self,
        labels: &mut L,
        rule: Rule,
        o: ObjId,
        key: &Key,
        need: T,
        value: Labelled<T>,
    ) -> Result<(), FlowFault<T>>
        requires present { IsSome (own_in key.now (slice_get self.old o.0)) }
        requires need { L.made labels.old need }
        requires value { L.made labels.old value.label }
        requires belongs { HasHeap (L.made labels.old) self.old }
        ensures acts { Acts L.made L.meaning labels.new read_heap (λ reading. write rule o.0 key.now (reading need) (read_value reading value)) self.old self.new result }
        ensures length { length self.new ≡ length self.old }
        ensures belongs { HasHeap (L.made labels.new) self.new }
        ensures kept { IsKept L.made L.meaning L.room L.firm labels.old labels.new }
        ensures firm { L.firm labels.old ≡ true → IfErr result IsStop }
    {
        self.write_named(labels, rule, o, key.text(), need, value)?;
        Ok(())
    }

    /// The same for the key of a text.
    pub fn write_named<L: Labels<Label = T>>(
        &mut self,
        labels: &mut L,
        rule: Rule,
        o: ObjId,
        name: &Text,
        need: T,
        value: Labelled<T>,
    ) -> Result<(), FlowFault<T>>
        requires present { IsSome (own_in name.now (slice_get self.old o.0)) }
        requires need { L.made labels.old need }
        requires value { L.made labels.old value.label }
        requires belongs { HasHeap (L.made labels.old) self.old }
        ensures acts { Acts L.made L.meaning labels.new read_heap (λ reading. write rule o.0 name.now (reading need) (read_value reading value)) self.old self.new result }
        ensures length { length self.new ≡ length self.old }
        ensures belongs { HasHeap (L.made labels.new) self.new }
        ensures kept { IsKept L.made L.meaning L.room L.firm labels.old labels.new }
        ensures firm { L.firm labels.old ≡ true → IfErr result IsStop }
    {
        let body = Body::Data(value.value);
        self.overwrite(labels, rule, o, name, need, body, value.label)?;
        Ok(())
    }

    /// The same for the key of a text that stands at a place. The place holds until a property of that object is added or taken away.
    pub fn write_at<L: Labels<Label = T>>(
        &mut self,
        labels: &mut L,
        rule: Rule,
        o: ObjId,
        name: &Text,
        place: usize,
        need: T,
        value: Labelled<T>,
    ) -> Result<(), FlowFault<T>>
        requires stands { StandsAt name.now (rows_in (slice_get self.old o.0)) place }
        requires need { L.made labels.old need }
        requires value { L.made labels.old value.label }
        requires belongs { HasHeap (L.made labels.old) self.old }
        ensures acts { Acts L.made L.meaning labels.new read_heap (λ reading. write rule o.0 name.now (reading need) (read_value reading value)) self.old self.new result }
        ensures length { length self.new ≡ length self.old }
        ensures belongs { HasHeap (L.made labels.new) self.new }
        ensures kept { IsKept L.made L.meaning L.room L.firm labels.old labels.new }
        ensures firm { L.firm labels.old ≡ true → IfErr result IsStop }
    {
        let body = Body::Data(value.value);
        self.objects[o.0 as usize].overwrite_at(
            labels,
            rule,
            name,
            place,
            need,
            body,
            value.label,
        )?;
        Ok(())
    }

    /// Gives a property other attributes (rule W6).
    pub fn set_attributes<L: Labels<Label = T>>(
        &mut self,
        labels: &mut L,
        o: ObjId,
        key: &Key,
        need: T,
        marks: Marks,
    ) -> Result<(), FlowFault<T>>
        requires present { IsSome (own_in key.now (slice_get self.old o.0)) }
        requires need { L.made labels.old need }
        requires belongs { HasHeap (L.made labels.old) self.old }
        ensures acts { Acts L.made L.meaning labels.new read_heap (λ reading. set_attributes o.0 key.now (reading need) marks) self.old self.new result }
        ensures length { length self.new ≡ length self.old }
        ensures belongs { HasHeap (L.made labels.new) self.new }
        ensures kept { IsKept L.made L.meaning L.room L.firm labels.old labels.new }
        ensures firm { IfErr result IsStop }
    {
        self.objects[o.0 as usize].set_attributes(labels, key, need, marks)?;
        Ok(())
    }

    /// Gives a property another body, with the label of that (rule W2).
    pub fn set_body<L: Labels<Label = T>>(
        &mut self,
        labels: &mut L,
        o: ObjId,
        key: &Key,
        need: T,
        body: Body,
        label: T,
    ) -> Result<(), FlowFault<T>>
        requires present { IsSome (own_in key.now (slice_get self.old o.0)) }
        requires need { L.made labels.old need }
        requires label { L.made labels.old label }
        requires belongs { HasHeap (L.made labels.old) self.old }
        ensures acts { Acts L.made L.meaning labels.new read_heap (λ reading. set_body o.0 key.now (reading need) body (reading label)) self.old self.new result }
        ensures length { length self.new ≡ length self.old }
        ensures belongs { HasHeap (L.made labels.new) self.new }
        ensures kept { IsKept L.made L.meaning L.room L.firm labels.old labels.new }
        ensures firm { L.firm labels.old ≡ true → IfErr result IsStop }
    {
        self.overwrite(labels, Rule::W2, o, key.text(), need, body, label)?;
        Ok(())
    }

    /// Joins a label to that of a property's being there (rule W8).
    pub fn raise_existence<L: Labels<Label = T>>(
        &mut self,
        labels: &mut L,
        o: ObjId,
        key: &Key,
        need: T,
        label: T,
    ) -> Result<(), FlowFault<T>>
        requires present { IsSome (own_in key.now (slice_get self.old o.0)) }
        requires need { L.made labels.old need }
        requires label { L.made labels.old label }
        requires belongs { HasHeap (L.made labels.old) self.old }
        ensures acts { Acts L.made L.meaning labels.new read_heap (λ reading. raise_existence o.0 key.now (reading need) (reading label)) self.old self.new result }
        ensures length { length self.new ≡ length self.old }
        ensures belongs { HasHeap (L.made labels.new) self.new }
        ensures kept { IsKept L.made L.meaning L.room L.firm labels.old labels.new }
        ensures firm { L.firm labels.old ≡ true → IfErr result IsStop }
    {
        self.objects[o.0 as usize].raise_existence(labels, key, need, label)?;
        Ok(())
    }

    /// Adds a property that an object doesn't have (rule W3). An element of an array at or above its `length` raises that (rule W2).
    pub fn add<L: Labels<Label = T>>(
        &mut self,
        labels: &mut L,
        o: ObjId,
        key: Key,
        need: T,
        body: Body,
        label: T,
        marks: Marks,
    ) -> Result<(), FlowFault<T>>
        requires there { o.0 < length self.old }
        requires absent { own_in key (slice_get self.old o.0) ≡ None }
        requires need { L.made labels.old need }
        requires label { L.made labels.old label }
        requires belongs { HasHeap (L.made labels.old) self.old }
        ensures acts { Acts L.made L.meaning labels.new read_heap (λ reading. add o.0 key (reading need) body (reading label) marks) self.old self.new result }
        ensures length { length self.new ≡ length self.old }
        ensures belongs { HasHeap (L.made labels.new) self.new }
        ensures kept { IsKept L.made L.meaning L.room L.firm labels.old labels.new }
    {
        self.objects[o.0 as usize].add(labels, key, need, body, label, marks)?;
        Ok(())
    }

    /// Takes a property away (rule W4, then W5).
    pub fn remove<L: Labels<Label = T>>(
        &mut self,
        labels: &mut L,
        o: ObjId,
        key: &Key,
        need: T,
    ) -> Result<(), FlowFault<T>>
        requires present { IsSome (own_in key.now (slice_get self.old o.0)) }
        requires need { L.made labels.old need }
        requires belongs { HasHeap (L.made labels.old) self.old }
        ensures acts { Acts L.made L.meaning labels.new read_heap (λ reading. remove o.0 key.now (reading need)) self.old self.new result }
        ensures length { length self.new ≡ length self.old }
        ensures belongs { HasHeap (L.made labels.new) self.new }
        ensures kept { IsKept L.made L.meaning L.room L.firm labels.old labels.new }
        ensures firm { IfErr result IsStop }
    {
        self.objects[o.0 as usize].remove(labels, key, need)?;
        Ok(())
    }

    /// Joins a label to that of which properties there are (rule W7).
    pub fn raise_structure<L: Labels<Label = T>>(
        &mut self,
        labels: &mut L,
        o: ObjId,
        need: T,
        label: T,
    ) -> Result<(), FlowFault<T>>
        requires there { o.0 < length self.old }
        requires need { L.made labels.old need }
        requires label { L.made labels.old label }
        requires belongs { HasHeap (L.made labels.old) self.old }
        ensures acts { Acts L.made L.meaning labels.new read_heap (λ reading. raise_structure o.0 (reading need) (reading label)) self.old self.new result }
        ensures length { length self.new ≡ length self.old }
        ensures belongs { HasHeap (L.made labels.new) self.new }
        ensures kept { IsKept L.made L.meaning L.room L.firm labels.old labels.new }
        ensures firm { L.firm labels.old ≡ true → IfErr result IsStop }
    {
        self.objects[o.0 as usize].raise_structure(labels, need, label)?;
        Ok(())
    }

    /// Lets no property be added to an object any more (rule W7).
    pub fn prevent_extensions<L: Labels<Label = T>>(
        &mut self,
        labels: &mut L,
        o: ObjId,
        need: T,
    ) -> Result<(), FlowFault<T>>
        requires there { o.0 < length self.old }
        requires need { L.made labels.old need }
        requires belongs { HasHeap (L.made labels.old) self.old }
        ensures acts { Acts L.made L.meaning labels.new read_heap (λ reading. prevent_extensions o.0 (reading need)) self.old self.new result }
        ensures length { length self.new ≡ length self.old }
        ensures belongs { HasHeap (L.made labels.new) self.new }
        ensures kept { IsKept L.made L.meaning L.room L.firm labels.old labels.new }
        ensures firm { IfErr result IsStop }
    {
        self.objects[o.0 as usize].prevent_extensions(labels, need)?;
        Ok(())
    }

    /// Gives an object a property with its labels, in the place of one that it has with the key. This is before a run begins, and no rule is
    /// asked.
    pub fn give(&mut self, o: ObjId, key: Key, slot: Slot<T>) -> Result<(), OutOfMemory>
        requires there { o.0 < length self.old }
        ensures ok { OnOk result (self.new ≡ give o.0 key slot self.old) }
        ensures unchanged { OnErr result (self.new ≡ self.old) }
    {
        self.objects[o.0 as usize].give(key, slot)?;
        Ok(())
    }

    /// The same, but a property that it doesn't have stands in front of all others but a `length`.
    pub fn give_first(&mut self, o: ObjId, key: Key, slot: Slot<T>) -> Result<(), OutOfMemory>
        requires there { o.0 < length self.old }
        ensures ok { OnOk result (self.new ≡ give_first o.0 key slot self.old) }
        ensures unchanged { OnErr result (self.new ≡ self.old) }
    {
        self.objects[o.0 as usize].give_first(key, slot)?;
        Ok(())
    }

    /// Gives a property another body, with the label of that (rules W1 and W2).
    fn overwrite<L: Labels<Label = T>>(
        &mut self,
        labels: &mut L,
        rule: Rule,
        o: ObjId,
        name: &Text,
        need: T,
        body: Body,
        label: T,
    ) -> Result<(), FlowFault<T>>
        requires present { IsSome (own_in name.now (slice_get self.old o.0)) }
        requires need { L.made labels.old need }
        requires label { L.made labels.old label }
        requires belongs { HasHeap (L.made labels.old) self.old }
        ensures acts { Acts L.made L.meaning labels.new read_heap (λ reading. act_on o.0 (overwrite_own rule name.now (reading need) body (reading label))) self.old self.new result }
        ensures length { length self.new ≡ length self.old }
        ensures belongs { HasHeap (L.made labels.new) self.new }
        ensures kept { IsKept L.made L.meaning L.room L.firm labels.old labels.new }
        ensures firm { L.firm labels.old ≡ true → IfErr result IsStop }
    {
        self.objects[o.0 as usize].overwrite(labels, rule, name, need, body, label)?;
        Ok(())
    }

    /// The object with a number.
    fn object(&self, o: ObjId) -> &Object<T>
        requires { o.0 < length self.now }
        ensures { slice_get self.now o.0 ≡ Some result.now }
    {
        &self.objects[o.0 as usize]
    }
}
