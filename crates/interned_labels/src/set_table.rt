//! Distinct sets with their numbers.

ghost use Rattle.std.specs.Prelude.{◌≡◌, ◌<◌, ◌∷◌, [], length, position, IfOk, OnOk, OnErr};
ghost use Rattle.std.specs.List.{position_or_len};
ghost use Rattle.std.specs.Str.{bytes_eq};
ghost use Rattle.indexmap.specs.IndexSet.{insert_key};
ghost use Rattle.origin_labels.specs.Label.{bottom};
ghost use Rattle.interned_labels.specs.Interned.{set_at, AreDistinct};

use crate::origin_set::OriginSet;
use flow_text::OutOfMemory;
use indexmap::IndexSet;
use std::alloc::Global;
use std::marker::Model;

// So many sets have a number, besides the empty one.
const MOST_SETS: usize = u32::MAX as usize;

/// Distinct sets, numbered in the order in which they were added. Number 0 is the empty set, which takes no memory.
#[derive(Drop)]
pub(crate) struct SetTable {
    // The set with number k + 1 is at place k.
    sets: IndexSet<OriginSet>,
}

impl Model for SetTable {
    ghost use Rattle.std.specs.Prelude.{◌≤◌, ◌^◌, ◌∷◌, List, length};
    ghost use Rattle.std.specs.List.{IsDistinct};
    ghost use Rattle.std.specs.Str.{bytes_eq};
    ghost use Rattle.origin_labels.specs.Label.{Label, bottom};

    ghost Value = { List Label };

    ghost view = { λ t. bottom ∷ t.sets.keys };

    ghost invariant = { λ t. IsDistinct bytes_eq (bottom ∷ t.sets.keys) × (length (bottom ∷ t.sets.keys) ≤ 2 ^ 32) };
}

impl SetTable {
    /// The empty set alone.
    pub(crate) fn new(alloc: Global) -> SetTable
        ensures { result ≡ bottom ∷ [] }
    {
        SetTable {
            sets: IndexSet::new(alloc),
        }
    }

    /// How many sets there are.
    pub(crate) fn len(&self) -> usize
        ensures length { result ≡ length self.now }
        ensures distinct { AreDistinct self.now }
    {
        self.sets.len() + 1
    }

    /// The origins of the set with a number.
    pub(crate) fn origins(&self, number: u32) -> &[u32]
        requires { number < length self.now }
        ensures { result.now ≡ set_at self.now number }
    {
        match number.checked_sub(1) {
            Some(place) => self.sets.as_slice()[place as usize].origins(),
            None => &[],
        }
    }

    /// The number of a set that isn't empty.
    pub(crate) fn number_of(&self, origins: &[u32]) -> Option<u32>
        requires { 0 < length origins.now }
        ensures { result ≡ position (bytes_eq origins.now) self.now }
    {
        let place = self.sets.get_index_of(origins)?;
        Some(place as u32 + 1)
    }

    /// The number of a set, which is added where the table lacks it.
    pub(crate) fn add(&mut self, set: Vec<u32>) -> Result<u32, OutOfMemory>
        ensures number { IfOk result (λ number. number ≡ position_or_len (bytes_eq set.items) self.old) }
        ensures sets { OnOk result (self.new ≡ insert_key bytes_eq self.old set.items) }
        ensures unchanged { OnErr result (self.new ≡ self.old) }
    {
        if self.sets.len() >= MOST_SETS {
            return Err(OutOfMemory);
        }
        if set.is_empty() {
            return Ok(0);
        }
        let (place, _) = self.sets.insert_full(OriginSet::new(set))?;
        Ok(place as u32 + 1)
    }
}
