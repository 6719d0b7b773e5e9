//! An object as it is kept, and what is done with it.

ghost use Rattle.std.specs.Prelude.{◌≡◌, ◌<◌, ◌≤◌, ◌^◌, [], ◌∷◌, ◌++◌, true, false, ◌||◌, Some, None, IsSome, IsOk, IfOk, IfErr, OnOk, OnErr, length, slice_get};
ghost use Rattle.std.specs.Option.{option_map};
ghost use Rattle.origin_labels.specs.Label.{Label};
ghost use Rattle.origin_labels.specs.Stores.{IsKept};
ghost use Rattle.flow_frames.specs.Stops.{IsStop};
ghost use Rattle.js_values.specs.Objects.{own, fresh_object};
ghost use Rattle.js_values.specs.Readings.{IsReading, HasObject, HasInner, read_object};
ghost use Rattle.object_heap.specs.Acts.{with_rows, given, given_first, first_place, overwrite_own, set_own_attributes, raise_own_existence, add_own, remove_own, raise_own_structure, prevent_own_extensions};
ghost use Rattle.object_heap.specs.Answers.{Acts, MeansValue};
ghost use Rattle.js_values.specs.Arrays.{highest, length_key};
ghost use Rattle.object_heap.specs.Formed.{LeadsAs};
ghost use Rattle.object_heap.specs.Lengths.{IsPast, Keeps, append_own, ask_length, add_past, length_set};
ghost use Rattle.object_heap.specs.Places.{IsPlace, StandsAt};

use crate::row::check;
use crate::shape::Shape;
use crate::table::Table;
use flow_frames::{FlowFault, Rule};
use flow_text::{OutOfMemory, Text};
use js_values::{
    Body, Class, Inner, Key, LENGTH, Marks, ObjId, Slot, element_of, is_length_key, is_past,
    length_body,
};
use origin_labels::Labels;
use std::alloc::Global;
use std::marker::Model;

/// An object, with its properties in the order in which they were added.
#[derive(Drop)]
pub(crate) struct Object<T> {
    class: Class,
    inner: Inner<T>,
    proto: Option<ObjId>,
    link: T,
    structure: T,
    extensible: bool,
    rows: Table<T>,
}

impl<T> Model for Object<T> {
    ghost use Rattle.js_values.specs.Objects.{Object};

    ghost Value = { Object T };

    ghost view = { λ o. record { class = o.class; inner = o.inner; proto = o.proto; link = o.link; structure = o.structure; extensible = o.extensible; rows = o.rows } };
}

impl<T: Copy> Object<T> {
    /// An extensible object without properties. It takes no memory.
    pub(crate) fn new(
        alloc: Global,
        class: Class,
        proto: Option<ObjId>,
        link: T,
        structure: T,
        inner: Inner<T>,
    ) -> Object<T>
        ensures { result ≡ fresh_object class inner proto link structure }
    {
        Object {
            class,
            inner,
            proto,
            link,
            structure,
            extensible: true,
            rows: Table::new(alloc),
        }
    }

    /// What it is besides its properties and its inner part.
    pub(crate) fn shape(&self) -> Shape<T>
        ensures { result ≡ record { class = self.now.class; proto = self.now.proto; link = self.now.link; structure = self.now.structure; extensible = self.now.extensible } }
    {
        Shape {
            class: self.class,
            proto: self.proto,
            link: self.link,
            structure: self.structure,
            extensible: self.extensible,
        }
    }

    /// Its inner part.
    pub(crate) fn inner(&self) -> &Inner<T>
        ensures { result.now ≡ self.now.inner }
    {
        &self.inner
    }

    /// The property with a key.
    pub(crate) fn own(&self, name: &Text) -> Option<&Slot<T>>
        ensures { option_map (λ s. s.now) result ≡ own name.now self.now.rows }
    {
        let place = self.place(name)?;
        Some(self.slot(place))
    }

    /// The property at a place, with its key.
    pub(crate) fn own_at(&self, n: usize) -> Option<(&Key, &Slot<T>)>
        ensures { option_map (λ r. (r.0.now, r.1.now)) result ≡ slice_get self.now.rows n }
    {
        self.rows.at(n)
    }

    /// The `length`, where there is one.
    pub(crate) fn own_length(&self) -> Option<&Slot<T>>
        ensures { option_map (λ s. s.now) result ≡ own length_key self.now.rows }
    {
        let place = self.length_at()?;
        Some(self.slot(place))
    }

    /// How many properties there are.
    pub(crate) fn count(&self) -> usize
        ensures { result ≡ length self.now.rows }
    {
        self.rows.len()
    }

    /// The highest element at or above a number, with its property.
    pub(crate) fn highest(&self, n: u32) -> Option<(u32, &Slot<T>)>
        ensures { option_map (λ e. (e.0, e.1.now)) result ≡ highest n self.now.rows }
    {
        self.rows.highest(n)
    }

    /// The place of the property with a key. It holds until a property is added or taken away.
    pub(crate) fn place(&self, name: &Text) -> Option<usize>
        ensures { IsPlace name.now self.now.rows result }
    {
        self.rows.place(name)
    }

    /// The property at a place.
    pub(crate) fn slot(&self, place: usize) -> &Slot<T>
        requires { place < length self.now.rows }
        ensures { option_map (λ r. r.1) (slice_get self.now.rows place) ≡ Some result.now }
    {
        self.rows.slot(place)
    }

    /// The union of the value label and the existence label of the property at a place.
    fn value_label<L: Labels<Label = T>>(
        &self,
        labels: &mut L,
        place: usize,
    ) -> Result<T, OutOfMemory>
        requires place { place < length self.now.rows }
        requires belongs { HasObject (L.made labels.old) self.now }
        ensures made { IfOk result (L.made labels.new) }
        ensures meaning { IfOk result (λ label. MeansValue (L.meaning labels.old) (slice_get self.now.rows place) (L.meaning labels.new label)) }
        ensures kept { IsKept L.made L.meaning L.room L.firm labels.old labels.new }
        ensures firm { L.firm labels.old ≡ true → IsOk result }
    {
        let slot = self.slot(place);
        labels.join(slot.label, slot.existence)
    }

    /// The same of a key.
    fn place_of(&self, key: &Key) -> Option<usize>
        ensures { IsPlace key.now self.now.rows result }
    {
        self.place(key.text())
    }

    /// The place of a key that it has.
    fn present(&self, key: &Key) -> usize
        requires { IsSome (own key.now self.now.rows) }
        ensures { StandsAt key.now self.now.rows result }
    {
        self.present_named(key.text())
    }

    /// The same for the key of a text.
    fn present_named(&self, name: &Text) -> usize
        requires { IsSome (own name.now self.now.rows) }
        ensures { StandsAt name.now self.now.rows result }
    {
        self.place(name).unwrap()
    }

    /// Gives a property another body, with the label of that (rules W1 and W2).
    pub(crate) fn overwrite<L: Labels<Label = T>>(
        &mut self,
        labels: &mut L,
        rule: Rule,
        name: &Text,
        need: T,
        body: Body,
        label: T,
    ) -> Result<(), FlowFault<T>>
        requires present { IsSome (own name.now self.old.rows) }
        requires need { L.made labels.old need }
        requires label { L.made labels.old label }
        requires belongs { HasObject (L.made labels.old) self.old }
        ensures acts { Acts L.made L.meaning labels.new read_object (λ reading. overwrite_own rule name.now (reading need) body (reading label)) self.old self.new result }
        ensures belongs { HasObject (L.made labels.new) self.new }
        ensures leads { LeadsAs self.old self.new }
        ensures kept { IsKept L.made L.meaning L.room L.firm labels.old labels.new }
        ensures firm { L.firm labels.old ≡ true → IfErr result IsStop }
    {
        let place = self.present_named(name);
        self.overwrite_at(labels, rule, name, place, need, body, label)
    }

    /// The same of the property at a place where its key stands.
    pub(crate) fn overwrite_at<L: Labels<Label = T>>(
        &mut self,
        labels: &mut L,
        rule: Rule,
        _name: &Text,
        place: usize,
        need: T,
        body: Body,
        label: T,
    ) -> Result<(), FlowFault<T>>
        requires stands { StandsAt _name.now self.old.rows place }
        requires need { L.made labels.old need }
        requires label { L.made labels.old label }
        requires belongs { HasObject (L.made labels.old) self.old }
        ensures acts { Acts L.made L.meaning labels.new read_object (λ reading. overwrite_own rule _name.now (reading need) body (reading label)) self.old self.new result }
        ensures belongs { HasObject (L.made labels.new) self.new }
        ensures leads { LeadsAs self.old self.new }
        ensures kept { IsKept L.made L.meaning L.room L.firm labels.old labels.new }
        ensures firm { L.firm labels.old ≡ true → IfErr result IsStop }
    {
        let have = self.value_label(labels, place)?;
        check(labels, rule, need, have)?;
        let label = labels.join(label, need)?;
        self.rows.set_body(place, body, label);
        Ok(())
    }

    /// Gives a property other attributes (rule W6).
    pub(crate) fn set_attributes<L: Labels<Label = T>>(
        &mut self,
        labels: &L,
        key: &Key,
        need: T,
        marks: Marks,
    ) -> Result<(), FlowFault<T>>
        requires present { IsSome (own key.now self.old.rows) }
        requires need { L.made labels.now need }
        requires belongs { HasObject (L.made labels.now) self.old }
        ensures acts { Acts L.made L.meaning labels.now read_object (λ reading. set_own_attributes key.now (reading need) marks) self.old self.new result }
        ensures belongs { HasObject (L.made labels.now) self.new }
        ensures leads { LeadsAs self.old self.new }
        ensures firm { IfErr result IsStop }
    {
        let place = self.present(key);
        check(labels, Rule::W6, need, self.slot(place).existence)?;
        self.rows.set_marks(place, marks);
        Ok(())
    }

    /// Joins a label to that of a property's being there (rule W8).
    pub(crate) fn raise_existence<L: Labels<Label = T>>(
        &mut self,
        labels: &mut L,
        key: &Key,
        need: T,
        label: T,
    ) -> Result<(), FlowFault<T>>
        requires present { IsSome (own key.now self.old.rows) }
        requires need { L.made labels.old need }
        requires label { L.made labels.old label }
        requires belongs { HasObject (L.made labels.old) self.old }
        ensures acts { Acts L.made L.meaning labels.new read_object (λ reading. raise_own_existence key.now (reading need) (reading label)) self.old self.new result }
        ensures belongs { HasObject (L.made labels.new) self.new }
        ensures leads { LeadsAs self.old self.new }
        ensures kept { IsKept L.made L.meaning L.room L.firm labels.old labels.new }
        ensures firm { L.firm labels.old ≡ true → IfErr result IsStop }
    {
        let place = self.present(key);
        let old = self.slot(place).existence;
        check(labels, Rule::W8, need, old)?;
        let raised = labels.join(old, label)?;
        self.rows.set_existence(place, raised);
        Ok(())
    }

    /// Takes a property away (rule W4, then W5).
    pub(crate) fn remove<L: Labels<Label = T>>(
        &mut self,
        labels: &L,
        key: &Key,
        need: T,
    ) -> Result<(), FlowFault<T>>
        requires present { IsSome (own key.now self.old.rows) }
        requires need { L.made labels.now need }
        requires belongs { HasObject (L.made labels.now) self.old }
        ensures acts { Acts L.made L.meaning labels.now read_object (λ reading. remove_own key.now (reading need)) self.old self.new result }
        ensures belongs { HasObject (L.made labels.now) self.new }
        ensures leads { LeadsAs self.old self.new }
        ensures firm { IfErr result IsStop }
    {
        let place = self.present(key);
        check(labels, Rule::W4, need, self.slot(place).existence)?;
        check(labels, Rule::W5, need, self.structure)?;
        self.rows.remove(place);
        Ok(())
    }

    /// Joins a label to that of which properties there are (rule W7).
    pub(crate) fn raise_structure<L: Labels<Label = T>>(
        &mut self,
        labels: &mut L,
        need: T,
        label: T,
    ) -> Result<(), FlowFault<T>>
        requires need { L.made labels.old need }
        requires label { L.made labels.old label }
        requires belongs { HasObject (L.made labels.old) self.old }
        ensures acts { Acts L.made L.meaning labels.new read_object (λ reading. raise_own_structure (reading need) (reading label)) self.old self.new result }
        ensures belongs { HasObject (L.made labels.new) self.new }
        ensures leads { LeadsAs self.old self.new }
        ensures kept { IsKept L.made L.meaning L.room L.firm labels.old labels.new }
        ensures firm { L.firm labels.old ≡ true → IfErr result IsStop }
    {
        check(labels, Rule::W7, need, self.structure)?;
        self.structure = labels.join(self.structure, label)?;
        Ok(())
    }

    /// Lets no property be added any more (rule W7).
    pub(crate) fn prevent_extensions<L: Labels<Label = T>>(
        &mut self,
        labels: &L,
        need: T,
    ) -> Result<(), FlowFault<T>>
        requires need { L.made labels.now need }
        requires belongs { HasObject (L.made labels.now) self.old }
        ensures acts { Acts L.made L.meaning labels.now read_object (λ reading. prevent_own_extensions (reading need)) self.old self.new result }
        ensures belongs { HasObject (L.made labels.now) self.new }
        ensures leads { LeadsAs self.old self.new }
        ensures firm { IfErr result IsStop }
    {
        check(labels, Rule::W7, need, self.structure)?;
        self.extensible = false;
        Ok(())
    }

    /// Adds a property that it doesn't have (rule W3). An element of an array at or above its `length` raises that (rule W2).
    pub(crate) fn add<L: Labels<Label = T>>(
        &mut self,
        labels: &mut L,
        key: Key,
        need: T,
        body: Body,
        label: T,
        marks: Marks,
    ) -> Result<(), FlowFault<T>>
        requires absent { own key self.old.rows ≡ None }
        requires need { L.made labels.old need }
        requires label { L.made labels.old label }
        requires belongs { HasObject (L.made labels.old) self.old }
        ensures acts { Acts L.made L.meaning labels.new read_object (λ reading. add_own key (reading need) body (reading label) marks) self.old self.new result }
        ensures belongs { HasObject (L.made labels.new) self.new }
        ensures leads { LeadsAs self.old self.new }
        ensures kept { IsKept L.made L.meaning L.room L.firm labels.old labels.new }
    {
        check(labels, Rule::W3, need, self.structure)?;
        if let Some(i) = self.past_length(&key) {
            return self.add_past(labels, i, key, need, body, label, marks);
        }
        self.append(labels, key, need, body, label, marks)?;
        Ok(())
    }

    /// Gives it a property, in the place of one that it has with the key. No rule is asked.
    pub(crate) fn give(&mut self, key: Key, slot: Slot<T>) -> Result<(), OutOfMemory>
        ensures ok { OnOk result (self.new ≡ with_rows self.old (given key slot self.old.rows)) }
        ensures unchanged { OnErr result (self.new ≡ self.old) }
        ensures leads { LeadsAs self.old self.new }
    {
        match self.place_of(&key) {
            Some(place) => {
                self.rows.set_slot(place, slot);
                Ok(())
            }
            None => {
                self.rows.push(key, slot)?;
                Ok(())
            }
        }
    }

    /// Gives it a property, in the place of one that it has with the key, and else in front of all but a `length`. No rule is asked.
    pub(crate) fn give_first(&mut self, key: Key, slot: Slot<T>) -> Result<(), OutOfMemory>
        ensures ok { OnOk result (self.new ≡ with_rows self.old (given_first key slot self.old.rows)) }
        ensures unchanged { OnErr result (self.new ≡ self.old) }
        ensures leads { LeadsAs self.old self.new }
    {
        match self.place_of(&key) {
            Some(place) => {
                self.rows.set_slot(place, slot);
                Ok(())
            }
            None => {
                let place = self.first_place();
                self.rows.insert(place, key, slot)?;
                Ok(())
            }
        }
    }

    /// The place behind a `length` that stands first.
    fn first_place(&self) -> usize
        ensures place { result ≡ first_place self.now.rows }
        ensures bound { result ≤ length self.now.rows }
    {
        let Some((key, _slot)) = self.rows.at(0) else {
            return 0;
        };
        if is_length_key(key.text()) {
            return 1;
        }
        0
    }

    /// The element that a key names, where it stands at or above the `length`.
    fn past_length(&self, key: &Key) -> Option<u32>
        ensures { IsPast key.now self.now result }
    {
        let i = element_of(self.class, key.text())?;
        let place = self.length_at()?;
        if is_past(i, &self.slot(place).body) {
            Some(i)
        } else {
            None
        }
    }

    /// Adds an element at or above the `length`, and raises that (rule W2).
    fn add_past<L: Labels<Label = T>>(
        &mut self,
        labels: &mut L,
        i: u32,
        key: Key,
        need: T,
        body: Body,
        label: T,
        marks: Marks,
    ) -> Result<(), FlowFault<T>>
        requires element { i < 4294967295 }
        requires there { IsSome (own length_key self.old.rows) }
        requires need { L.made labels.old need }
        requires label { L.made labels.old label }
        requires belongs { HasObject (L.made labels.old) self.old }
        ensures acts { Acts L.made L.meaning labels.new read_object (λ reading. add_past i key (reading need) body (reading label) marks) self.old self.new result }
        ensures belongs { HasObject (L.made labels.new) self.new }
        ensures leads { LeadsAs self.old self.new }
        ensures kept { IsKept L.made L.meaning L.room L.firm labels.old labels.new }
    {
        self.check_length(labels, need)?;
        let raised = labels.join(self.length().label, need)?;
        self.append(labels, key, need, body, label, marks)?;
        self.set_length(i, raised);
        Ok(())
    }

    /// Whether the `length` may be overwritten (rule W2).
    fn check_length<L: Labels<Label = T>>(
        &self,
        labels: &mut L,
        need: T,
    ) -> Result<(), FlowFault<T>>
        requires there { IsSome (own length_key self.now.rows) }
        requires need { L.made labels.old need }
        requires belongs { HasObject (L.made labels.old) self.now }
        ensures acts { Acts L.made L.meaning labels.new read_object (λ reading. ask_length (reading need)) self.now self.now result }
        ensures kept { IsKept L.made L.meaning L.room L.firm labels.old labels.new }
    {
        let place = self.length_place();
        let have = self.value_label(labels, place)?;
        check(labels, Rule::W2, need, have)?;
        Ok(())
    }

    /// Appends a property.
    fn append<L: Labels<Label = T>>(
        &mut self,
        labels: &mut L,
        key: Key,
        need: T,
        body: Body,
        label: T,
        marks: Marks,
    ) -> Result<(), OutOfMemory>
        requires need { L.made labels.old need }
        requires label { L.made labels.old label }
        requires belongs { HasObject (L.made labels.old) self.old }
        ensures does { OnOk result ((reading : T → Label) → IsReading L.made L.meaning labels.new reading → append_own key (reading need) body (reading label) marks (read_object reading self.old) ≡ read_object reading self.new) }
        ensures keeps { OnOk result (Keeps self.old self.new) }
        ensures unchanged { OnErr result (self.new ≡ self.old) }
        ensures belongs { HasObject (L.made labels.new) self.new }
        ensures leads { LeadsAs self.old self.new }
        ensures kept { IsKept L.made L.meaning L.room L.firm labels.old labels.new }
    {
        let label = labels.join(label, need)?;
        let slot = Slot {
            body,
            label,
            existence: self.structure,
            marks,
        };
        self.rows.push(key, slot)?;
        Ok(())
    }

    /// The `length`.
    fn length(&self) -> &Slot<T>
        requires { IsSome (own length_key self.now.rows) }
        ensures { own length_key self.now.rows ≡ Some result.now }
    {
        self.slot(self.length_place())
    }

    /// Makes the `length` that above an element, with this label.
    fn set_length(&mut self, i: u32, label: T)
        requires element { i < 4294967295 }
        requires there { IsSome (own length_key self.old.rows) }
        ensures { self.new ≡ length_set i label self.old }
    {
        let place = self.length_place();
        self.rows.set_body(place, length_body(i + 1), label);
    }

    /// The place of the `length`.
    fn length_place(&self) -> usize
        requires { IsSome (own length_key self.now.rows) }
        ensures { StandsAt length_key self.now.rows result }
    {
        self.length_at().unwrap()
    }

    /// The place of the `length`, if there is one. An array has it first.
    fn length_at(&self) -> Option<usize>
        ensures { IsPlace length_key self.now.rows result }
    {
        self.rows.place_of_units(&LENGTH)
    }
}
