//! Labels as numbers of sets.

ghost use Rattle.std.specs.Prelude.{◌≡◌, ◌<◌, ◌≤◌, ◌∷◌, [], ℕ, Some, false, true, length, IsOk, IsOkAnd, IfOk, OnErr};
ghost use Rattle.std.specs.Option.{option_map};
ghost use Rattle.origin_labels.specs.Label.{bottom, single, union};
ghost use Rattle.origin_labels.specs.Stores.{IsKept};
ghost use Rattle.interned_labels.specs.Interned.{set_at, known_union, IsMade, HasDistinctLabels, KeepsUnions};

use crate::rising::{is_included, union_of};
use crate::set_table::SetTable;
use flow_text::OutOfMemory;
use indexmap::IndexMap;
use origin_labels::Labels;
use std::alloc::Global;
use std::marker::Model;

/// The number of a set in a store.
#[derive(Clone, Copy, PartialEq, Eq)]
pub struct InternedLabel(u32);

/// A store that keeps each set once, and remembers the unions that it computed.
#[derive(Drop)]
pub struct Interned {
    alloc: Global,
    room: u32,
    sets: SetTable,
    // The numbers of two sets, with the number of their union.
    unions: IndexMap<(u32, u32), u32>,
}

impl Model for Interned {
    ghost use Rattle.interned_labels.specs.Interned.{InternedSets, IsFormed};

    ghost Value = { InternedSets };

    ghost view = { λ s. record { sets = s.sets; unions = s.unions.entries; room = s.room } };

    ghost invariant = { λ s. IsFormed (record { sets = s.sets; unions = s.unions.entries; room = s.room }) };
}

impl Interned {
    /// A store that has the empty set alone. It takes no memory.
    pub fn new(alloc: Global, room: u32) -> Interned
        requires { room ≤ 1024 }
        ensures { result ≡ record { sets = bottom ∷ []; unions = []; room = room } }
    {
        Interned {
            alloc,
            room,
            sets: SetTable::new(alloc),
            unions: IndexMap::new(alloc),
        }
    }

    /// Origin numbers are below it.
    pub fn room(&self) -> u32
        ensures { result ≡ self.now.room }
    {
        self.room
    }

    /// How many sets the store has. Two labels that it made are equal exactly where their sets are.
    pub fn len(&self) -> usize
        ensures length { result ≡ length self.now.sets }
        ensures distinct { HasDistinctLabels self.now }
    {
        self.sets.len()
    }

    /// The origins of a label, in rising order.
    pub fn origins(&self, label: InternedLabel) -> &[u32]
        requires { IsMade self.now label }
        ensures { result.now ≡ set_at self.now.sets label.0 }
    {
        self.sets.origins(label.0)
    }

    // The union of two labels where nothing has to be computed.
    fn known_union(&self, a: InternedLabel, b: InternedLabel) -> Option<InternedLabel>
        ensures { option_map (λ label. label.0) result ≡ known_union self.now.unions a.0 b.0 }
    {
        if a.0 == b.0 || b.0 == 0 {
            return Some(a);
        }
        if a.0 == 0 {
            return Some(b);
        }
        let number = self.unions.get(&(a.0, b.0))?;
        Some(InternedLabel(*number))
    }
}

impl Labels for Interned {
    type Label = InternedLabel;

    ghost made = { IsMade };

    ghost meaning = { λ store label. set_at store.sets label.0 };

    ghost room = { λ store. store.room };

    ghost firm = { λ _. false };

    fn bottom(&self) -> InternedLabel {
        // A field is read for the invariant, which the proof cites.
        let _room = self.room;
        InternedLabel(0)
    }

    fn single(&mut self, origin: u32) -> Result<InternedLabel, OutOfMemory>
        requires { origin < self.old.room }
        ensures made { IfOk result (IsMade self.new) }
        ensures meaning { IfOk result (λ label. set_at self.new.sets label.0 ≡ single origin) }
        ensures kept { IsKept IsMade (λ store label. set_at store.sets label.0) (λ store. store.room) (λ _. false) self.old self.new }
        ensures firm { false ≡ true → IsOk result }
        ensures unions_kept { self.new.unions ≡ self.old.unions }
        ensures again { (n : ℕ) → n < length self.old.sets → set_at self.old.sets n ≡ single origin → (self.new ≡ self.old) × IsOk result }
        ensures refused { OnErr result (self.new ≡ self.old) }
    {
        if let Some(number) = self.sets.number_of(&[origin]) {
            return Ok(InternedLabel(number));
        }
        let set = Vec::from_slice(self.alloc, &[origin])?;
        let number = self.sets.add(set)?;
        Ok(InternedLabel(number))
    }

    fn join(&mut self, a: InternedLabel, b: InternedLabel) -> Result<InternedLabel, OutOfMemory>
        requires first { IsMade self.old a }
        requires second { IsMade self.old b }
        ensures made { IfOk result (IsMade self.new) }
        ensures meaning { IfOk result (λ label. set_at self.new.sets label.0 ≡ union (set_at self.old.sets a.0) (set_at self.old.sets b.0)) }
        ensures kept { IsKept IsMade (λ store label. set_at store.sets label.0) (λ store. store.room) (λ _. false) self.old self.new }
        ensures firm { false ≡ true → IsOk result }
        ensures unions_kept { KeepsUnions self.old.unions self.new.unions }
        ensures remembered { IfOk result (λ label. known_union self.new.unions a.0 b.0 ≡ Some label.0) }
        ensures again { (n : ℕ) → known_union self.old.unions a.0 b.0 ≡ Some n → (self.new ≡ self.old) × IsOkAnd result (λ label. label.0 ≡ n) }
        ensures refused { OnErr result (self.new ≡ self.old) }
    {
        if let Some(label) = self.known_union(a, b) {
            return Ok(label);
        }
        self.unions.reserve(1)?;
        let set = union_of(self.alloc, self.sets.origins(a.0), self.sets.origins(b.0))?;
        let number = self.sets.add(set)?;
        self.unions.insert((a.0, b.0), number).unwrap();
        Ok(InternedLabel(number))
    }

    fn within(&self, a: InternedLabel, b: InternedLabel) -> bool {
        a.0 == b.0 || is_included(self.origins(a), self.origins(b))
    }

    fn has(&self, a: InternedLabel, origin: u32) -> bool {
        self.origins(a).contains(&origin)
    }

    ghost rising = { λ _ _ made. made.rises };
}
