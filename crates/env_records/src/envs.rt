//! The records of a run.

ghost use Rattle.std.specs.Prelude.{◌≡◌, ◌<◌, ◌+◌, ℕ, List, [], ◌∷◌, ◌++◌, true, Some, None, IsSome, IfSome, IfOk, OnOk, OnErr, IfErr, length, slice_get};
ghost use Rattle.std.specs.Option.{option_map};
ghost use Rattle.origin_labels.specs.Stores.{IsKept};
ghost use Rattle.js_values.specs.Records.{Record as RecordOf, lookup, bound_in};
ghost use Rattle.js_values.specs.Readings.{HasRecords, read_value};
ghost use Rattle.env_records.specs.Acts.{new_record, bind, assign};
ghost use Rattle.env_records.specs.Answers.{Assigns, IsCause};
ghost use Rattle.env_records.specs.Layouts.{laid};
ghost use Rattle.env_records.specs.Places.{StandsAt, IsThere, IsFoundAt, binding_at};
ghost use Rattle.env_records.specs.Formed.{LeadOutwards};

use crate::binding_place::BindingPlace;
use crate::faults::AssignFault;
use crate::layout::Layout;
use crate::record::Record;
use flow_text::{OutOfMemory, Text};
use js_values::{EnvId, Labelled};
use origin_labels::Labels;
use std::alloc::Global;
use std::marker::Model;
use std::rc::Rc;

/// Records of variables. Each has a number, and the record outside has a smaller one.
#[derive(Drop)]
pub struct Envs<T> {
    alloc: Global,
    records: Vec<Record<T>>,
}

impl<T> Model for Envs<T> {
    ghost use Rattle.std.specs.Prelude.{List};
    ghost use Rattle.js_values.specs.Records.{Record};
    ghost use Rattle.js_values.specs.declared.value.Labelled.{Labelled};
    ghost use Rattle.env_records.specs.Formed.{LeadOutwards};

    ghost Value = { List (Record (Labelled T)) };

    ghost view = { λ e. e.records.items };

    ghost invariant = { λ e. LeadOutwards e.records.items };
}

impl<T: Copy> Envs<T> {
    /// No records. It takes no memory.
    pub fn new(alloc: Global) -> Envs<T>
        ensures { result ≡ [] }
    {
        Envs {
            alloc,
            records: Vec::new(alloc),
        }
    }

    /// How many records there are.
    pub fn len(&self) -> u64
        ensures { result ≡ length self.now }
    {
        self.records.len() as u64
    }

    /// Makes a record without bindings inside another one.
    pub fn new_record(&mut self, outer: Option<EnvId>) -> Result<EnvId, OutOfMemory>
        requires { IfSome outer (λ o. o.0 < length self.old) }
        ensures number { IfOk result (λ e. e.0 ≡ length self.old) }
        ensures ok { OnOk result (self.new ≡ new_record outer self.old) }
        ensures length { OnOk result (length self.new ≡ length self.old + 1) }
        ensures there { IfOk result (λ e. slice_get self.new e.0 ≡ Some (record { outer = outer; bindings = [] })) }
        ensures unchanged { OnErr result (self.new ≡ self.old) }
    {
        let number = self.records.len() as u64;
        let record = Record::new(self.alloc, outer)?;
        self.records.push(record)?;
        Ok(EnvId(number))
    }

    /// Makes a record of these values inside another one. Their names are shared, and not copied.
    pub fn begin(
        &mut self,
        outer: Option<EnvId>,
        layout: &Rc<Layout>,
        values: Vec<Labelled<T>>,
    ) -> Result<EnvId, OutOfMemory>
        requires there { IfSome outer (λ o. o.0 < length self.old) }
        requires named { length values.items ≡ length layout.now.value }
        ensures number { IfOk result (λ e. e.0 ≡ length self.old) }
        ensures ok { OnOk result (self.new ≡ self.old ++ record { outer = outer; bindings = laid layout.now.value values.items } ∷ []) }
        ensures length { OnOk result (length self.new ≡ length self.old + 1) }
        ensures unchanged { OnErr result (self.new ≡ self.old) }
    {
        let number = self.records.len() as u64;
        let record = Record::sharing(outer, layout, values)?;
        self.records.push(record)?;
        Ok(EnvId(number))
    }

    /// Binds a name that the record doesn't have.
    pub fn bind(
        &mut self,
        e: EnvId,
        name: Text,
        mutable: bool,
        value: Labelled<T>,
    ) -> Result<(), OutOfMemory>
        requires there { e.0 < length self.old }
        requires new { bound_in name (slice_get self.old e.0) ≡ None }
        ensures ok { OnOk result (self.new ≡ bind e.0 (record { name = name; mutable = mutable; value = value }) self.old) }
        ensures length { length self.new ≡ length self.old }
        ensures unchanged { OnErr result (self.new ≡ self.old) }
    {
        self.records[e.0 as usize].push(self.alloc, name, mutable, value)?;
        Ok(())
    }

    /// The innermost record, from this one on outwards, that has the name.
    pub fn lookup(&self, e: EnvId, name: &Text) -> Option<EnvId>
        requires { e.0 < length self.now }
        ensures innermost { option_map (λ found. found.0) result ≡ lookup name.now self.now e.0 }
        ensures bound { IfSome result (λ found. IsSome (bound_in name.now (slice_get self.now found.0))) }
        ensures outwards { LeadOutwards self.now }
    {
        let place = self.find(e, name)?;
        Some(place.record)
    }

    /// The innermost record, from this one on outwards, that has the name, with the place of the name there.
    pub fn find(&self, e: EnvId, name: &Text) -> Option<BindingPlace>
        requires { e.0 < length self.now }
        ensures innermost { option_map (λ p. p.record.0) result ≡ lookup name.now self.now e.0 }
        ensures bound { IfSome result (λ p. IsSome (bound_in name.now (slice_get self.now p.record.0))) }
        ensures there { IfSome result (IsThere self.now) }
        ensures found { IfSome result (IsFoundAt name.now self.now) }
        ensures outwards { LeadOutwards self.now }
    {
        let mut at = e;
        'outwards: loop {
            let record = &self.records[at.0 as usize];
            if let Some(place) = record.place(name) {
                return Some(BindingPlace { record: at, place });
            }
            at = record.outer()?;
        }
    }

    /// The value at a place.
    pub fn read_at(&self, p: BindingPlace) -> &Labelled<T>
        requires { IsThere self.now p }
        ensures { option_map (λ b. b.value) (binding_at self.now p) ≡ Some result.now }
    {
        self.record(p.record).value(p.place)
    }

    /// The value of a name in the record, which has it.
    pub fn read(&self, e: EnvId, name: &Text) -> &Labelled<T>
        requires { IsSome (bound_in name.now (slice_get self.now e.0)) }
        ensures { option_map (λ b. b.value) (bound_in name.now (slice_get self.now e.0)) ≡ Some result.now }
    {
        let place = self.place(e, name);
        self.record(e).value(place)
    }

    /// The value of a name in the record alone, if the record has it.
    pub fn own(&self, e: EnvId, name: &Text) -> Option<&Labelled<T>>
        requires { e.0 < length self.now }
        ensures { option_map (λ v. v.now) result ≡ option_map (λ b. b.value) (bound_in name.now (slice_get self.now e.0)) }
    {
        let record = self.record(e);
        let place = record.place(name)?;
        Some(record.value(place))
    }

    /// Assigns to a name of the record, which has it, if that can be changed and its label includes the context (rule W1).
    pub fn assign<L: Labels<Label = T>>(
        &mut self,
        labels: &mut L,
        e: EnvId,
        name: &Text,
        context: T,
        value: Labelled<T>,
    ) -> Result<(), AssignFault<T>>
        requires bound { IsSome (bound_in name.now (slice_get self.old e.0)) }
        requires context { L.made labels.old context }
        requires value { L.made labels.old value.label }
        requires belongs { HasRecords (L.made labels.old) self.old }
        ensures assigns { Assigns L.made L.meaning labels.new (λ reading. assign e.0 name.now (reading context) (read_value reading value)) self.old self.new result }
        ensures length { length self.new ≡ length self.old }
        ensures belongs { HasRecords (L.made labels.new) self.new }
        ensures kept { IsKept L.made L.meaning L.room L.firm labels.old labels.new }
        ensures firm { L.firm labels.old ≡ true → IfErr result IsCause }
    {
        let place = self.place(e, name);
        self.record(e).check(place, labels, context)?;
        let label = labels.join(value.label, context)?;
        let value = Labelled {
            value: value.value,
            label,
        };
        self.records[e.0 as usize].set(place, value);
        Ok(())
    }

    /// The record with a number.
    fn record(&self, e: EnvId) -> &Record<T>
        requires { e.0 < length self.now }
        ensures { slice_get self.now e.0 ≡ Some result.now }
    {
        &self.records[e.0 as usize]
    }

    /// The place of a name in the record, which has it.
    fn place(&self, e: EnvId, name: &Text) -> usize
        requires { IsSome (bound_in name.now (slice_get self.now e.0)) }
        ensures within { e.0 < length self.now }
        ensures place { (r : RecordOf (Labelled T)) → slice_get self.now e.0 ≡ Some r → StandsAt name.now r.bindings result }
    {
        self.record(e).place(name).unwrap()
    }
}
