//! A property under its key, and the rule that is asked of it.

ghost use Rattle.std.specs.Prelude.{◌≡◌};
ghost use Rattle.origin_labels.specs.Names.{same_name};
ghost use Rattle.object_heap.specs.Answers.{Checks};

use flow_frames::{FlowStop, Rule};
use flow_text::Text;
use js_values::{Body, Key, Marks, Slot};
use origin_labels::Labels;
use std::marker::Model;

/// A property under its key.
#[derive(Drop)]
pub(crate) struct Row<T> {
    key: Key,
    slot: Slot<T>,
}

impl<T> Model for Row<T> {
    ghost use Rattle.std.specs.Prelude.{List, ℕ};
    ghost use Rattle.js_values.specs.declared.property.Slot.{Slot};

    ghost Value = { List ℕ × Slot T };

    ghost view = { λ r. (r.key, r.slot) };
}

impl<T: Copy> Row<T> {
    /// A property under a key.
    pub(crate) fn new(key: Key, slot: Slot<T>) -> Row<T>
        ensures { result ≡ (key, slot) }
    {
        Row { key, slot }
    }

    /// Its key.
    pub(crate) fn key(&self) -> &Key
        ensures { result.now ≡ self.now.0 }
    {
        &self.key
    }

    /// Whether it has the key of a text.
    pub(crate) fn is_called(&self, name: &Text) -> bool
        ensures { result ≡ same_name self.now.0 name.now }
    {
        self.key.text() == name
    }

    /// Whether the units are those of its key.
    pub(crate) fn is_named(&self, units: &[u16]) -> bool
        ensures { result ≡ same_name self.now.0 units.now }
    {
        self.key.text().units() == units
    }

    /// The property.
    pub(crate) fn slot(&self) -> &Slot<T>
        ensures { result.now ≡ self.now.1 }
    {
        &self.slot
    }

    /// Gives it another body, with the label of that.
    pub(crate) fn set_body(&mut self, body: Body, label: T)
        ensures { self.new ≡ (self.old.0, record self.old.1 { body = body; label = label }) }
    {
        self.slot.body = body;
        self.slot.label = label;
    }

    /// Puts another property under its key.
    pub(crate) fn set_slot(&mut self, slot: Slot<T>)
        ensures { self.new ≡ (self.old.0, slot) }
    {
        self.slot = slot;
    }

    /// Gives it other attributes.
    pub(crate) fn set_marks(&mut self, marks: Marks)
        ensures { self.new ≡ (self.old.0, record self.old.1 { marks = marks }) }
    {
        self.slot.marks = marks;
    }

    /// Gives it another existence label.
    pub(crate) fn set_existence(&mut self, label: T)
        ensures { self.new ≡ (self.old.0, record self.old.1 { existence = label }) }
    {
        self.slot.existence = label;
    }
}

/// Whether need is included in have, as a rule asks.
pub(crate) fn check<T: Copy, L: Labels<Label = T>>(
    labels: &L,
    rule: Rule,
    need: T,
    have: T,
) -> Result<(), FlowStop<T>>
    requires need { L.made labels.now need }
    requires have { L.made labels.now have }
    ensures { Checks (L.meaning labels.now) rule need have result }
{
    if labels.within(need, have) {
        return Ok(());
    }
    Err(FlowStop { rule, need, have })
}
