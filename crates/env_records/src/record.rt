//! A record as it is kept.

ghost use Rattle.std.specs.Prelude.{◌≡◌, ◌<◌, [], ◌∷◌, ◌++◌, Some, length, slice_get, IfOk, OnOk, OnErr};
ghost use Rattle.std.specs.Option.{option_map};
ghost use Rattle.js_values.specs.Records.{Binding};
ghost use Rattle.js_values.specs.declared.value.Labelled.{Labelled};
ghost use Rattle.env_records.specs.Answers.{Checks};
ghost use Rattle.env_records.specs.Layouts.{laid};
ghost use Rattle.env_records.specs.Places.{IsPlace, with_value_at};

use crate::faults::AssignFault;
use crate::layout::Layout;
use flow_frames::{FlowStop, Rule};
use flow_text::{OutOfMemory, Text};
use js_values::{EnvId, Labelled};
use origin_labels::Labels;
use std::alloc::Global;
use std::marker::Model;
use std::rc::Rc;

/// Values under names that records may share, and the record outside.
#[derive(Drop)]
pub(crate) struct Record<T> {
    outer: Option<EnvId>,
    layout: Rc<Layout>,
    // One for each name.
    values: Vec<Labelled<T>>,
}

impl<T> Model for Record<T> {
    ghost use Rattle.std.specs.Prelude.{◌≡◌, length};
    ghost use Rattle.js_values.specs.Records.{Record};
    ghost use Rattle.js_values.specs.declared.value.Labelled.{Labelled};
    ghost use Rattle.env_records.specs.Layouts.{laid};

    ghost Value = { Record (Labelled T) };

    ghost view = { λ r. record { outer = r.outer; bindings = laid r.layout.value r.values.items } };

    ghost invariant = { λ r. length r.values.items ≡ length r.layout.value };
}

impl<T: Copy> Record<T> {
    /// A record without bindings.
    pub(crate) fn new(alloc: Global, outer: Option<EnvId>) -> Result<Record<T>, OutOfMemory>
        ensures { IfOk result (λ r. r ≡ record { outer = outer; bindings = [] }) }
    {
        let layout = Rc::new(alloc, Layout::new(alloc))?;
        Ok(Record {
            outer,
            layout,
            values: Vec::new(alloc),
        })
    }

    /// A record of these values, which shares their names.
    pub(crate) fn sharing(
        outer: Option<EnvId>,
        layout: &Rc<Layout>,
        values: Vec<Labelled<T>>,
    ) -> Result<Record<T>, OutOfMemory>
        requires { length values.items ≡ length layout.now.value }
        ensures { IfOk result (λ r. r ≡ record { outer = outer; bindings = laid layout.now.value values.items }) }
    {
        let layout = layout.clone()?;
        Ok(Record {
            outer,
            layout,
            values,
        })
    }

    /// The record outside.
    pub(crate) fn outer(&self) -> Option<EnvId>
        ensures { result ≡ self.now.outer }
    {
        self.outer
    }

    /// The place of the binding of a name.
    pub(crate) fn place(&self, name: &Text) -> Option<usize>
        ensures { IsPlace name.now self.now.bindings result }
    {
        self.layout.place(name)
    }

    /// The value at a place.
    pub(crate) fn value(&self, place: usize) -> &Labelled<T>
        requires { place < length self.now.bindings }
        ensures { option_map (λ b. b.value) (slice_get self.now.bindings place) ≡ Some result.now }
    {
        &self.values[place]
    }

    // Whether the name at a place can be assigned to.
    fn is_mutable(&self, place: usize) -> bool
        requires { place < length self.now.bindings }
        ensures { option_map (λ b. b.mutable) (slice_get self.now.bindings place) ≡ Some result }
    {
        self.layout.is_mutable(place)
    }

    /// Whether the name at a place can be assigned to, and its label includes the context (rule W1).
    pub(crate) fn check<L: Labels<Label = T>>(
        &self,
        place: usize,
        labels: &L,
        context: T,
    ) -> Result<(), AssignFault<T>>
        requires place { place < length self.now.bindings }
        requires context { L.made labels.now context }
        requires label { (b : Binding (Labelled T)) → slice_get self.now.bindings place ≡ Some b → L.made labels.now b.value.label }
        ensures { (b : Binding (Labelled T)) → slice_get self.now.bindings place ≡ Some b → Checks (L.meaning labels.now) b context result }
    {
        if !self.is_mutable(place) {
            return Err(AssignFault::Immutable);
        }
        let have = self.value(place).label;
        if labels.within(context, have) {
            return Ok(());
        }
        Err(AssignFault::Stop(FlowStop {
            rule: Rule::W1,
            need: context,
            have,
        }))
    }

    /// Appends a binding.
    pub(crate) fn push(
        &mut self,
        alloc: Global,
        name: Text,
        mutable: bool,
        value: Labelled<T>,
    ) -> Result<(), OutOfMemory>
        ensures ok { OnOk result (self.new ≡ record self.old { bindings = self.old.bindings ++ record { name = name; mutable = mutable; value = value } ∷ [] }) }
        ensures unchanged { OnErr result (self.new ≡ self.old) }
    {
        self.values.reserve(1)?;
        push_name(alloc, &mut self.layout, name, mutable)?;
        self.values.push_reserved(value);
        Ok(())
    }

    /// Gives the binding at a place another value.
    pub(crate) fn set(&mut self, place: usize, value: Labelled<T>)
        requires { place < length self.old.bindings }
        ensures { self.new ≡ record self.old { bindings = with_value_at place value self.old.bindings } }
    {
        self.values[place] = value;
    }
}

// Adds a name: to the list where nobody else has it, and else to a copy.
fn push_name(
    alloc: Global,
    layout: &mut Rc<Layout>,
    name: Text,
    mutable: bool,
) -> Result<(), OutOfMemory>
    ensures ok { OnOk result (layout.new.value ≡ layout.old.value ++ record { name = name; mutable = mutable } ∷ []) }
    ensures unchanged { OnErr result (layout.new.value ≡ layout.old.value) }
{
    if let Some(own) = Rc::get_mut(layout) {
        return own.push(name, mutable);
    }
    let mut names = layout.copy(alloc)?;
    names.push(name, mutable)?;
    *layout = Rc::new(alloc, names)?;
    Ok(())
}
