//! The properties of an object: a list, and an index of their keys where there are many.

ghost use Rattle.std.specs.Prelude.{◌≡◌, ◌<◌, ◌≤◌, ◌++◌, ◌∷◌, [], List, ℕ, Some, None, IfSome, IfOk, OnOk, OnErr, length, slice_get, insert, remove};
ghost use Rattle.std.specs.Option.{option_map};
ghost use Rattle.js_values.specs.Arrays.{highest};
ghost use Rattle.js_values.specs.Numerals.{index_of};
ghost use Rattle.js_values.specs.Objects.{keys_of};
ghost use Rattle.object_heap.specs.Places.{IsPlace, changed_at_place};
ghost use Rattle.object_heap.specs.Tables.{bound_with, higher_behind, indexed};

use crate::index::Index;
use crate::row::Row;
use flow_text::{OutOfMemory, Text};
use js_values::{Body, Key, Marks, Slot, array_index};
use std::alloc::Global;
use std::marker::Model;

// So many properties are searched one by one.
const MOST_WITHOUT_INDEX: usize = 8;

/// Properties under their keys, in the order in which they were added.
#[derive(Drop)]
pub(crate) struct Table<T> {
    alloc: Global,
    rows: Vec<Row<T>>,
    // The keys of the rows, in their order.
    index: Option<Box<Index>>,
    // No key names an array element at or above it.
    bound: u32,
}

impl<T> Model for Table<T> {
    ghost use Rattle.std.specs.Prelude.{◌≡◌, None};
    ghost use Rattle.js_values.specs.declared.property.Slot.{Slot};
    ghost use Rattle.js_values.specs.Arrays.{highest};
    ghost use Rattle.js_values.specs.Objects.{Rows, keys_of};
    ghost use Rattle.object_heap.specs.Tables.{indexed};

    ghost Value = { Rows (Slot T) };

    ghost view = { λ t. t.rows.items };

    ghost invariant = { λ t. (indexed t.index (keys_of t.rows.items) ≡ keys_of t.rows.items) × (highest t.bound t.rows.items ≡ None) };
}

impl<T: Copy> Table<T> {
    /// No properties. It takes no memory.
    pub(crate) fn new(alloc: Global) -> Table<T>
        ensures { result ≡ [] }
    {
        Table {
            alloc,
            rows: Vec::new(alloc),
            index: None,
            bound: 0,
        }
    }

    /// The property at a place, with its key.
    pub(crate) fn at(&self, n: usize) -> Option<(&Key, &Slot<T>)>
        ensures { option_map (λ r. (r.0.now, r.1.now)) result ≡ slice_get self.now n }
    {
        if n < self.rows.len() {
            let row = &self.rows[n];
            Some((row.key(), row.slot()))
        } else {
            None
        }
    }

    /// How many properties there are.
    pub(crate) fn len(&self) -> usize
        ensures { result ≡ length self.now }
    {
        self.rows.len()
    }

    /// The highest array element at or above a number, with its property.
    pub(crate) fn highest(&self, n: u32) -> Option<(u32, &Slot<T>)>
        ensures { option_map (λ e. (e.0, e.1.now)) result ≡ highest n self.now }
    {
        if self.bound <= n {
            return None;
        }
        match last_below(&self.rows, self.bound) {
            Some(last) => Some(last),
            None => highest_listed(&self.rows, n),
        }
    }

    /// The place of the property with a key.
    pub(crate) fn place(&self, name: &Text) -> Option<usize>
        ensures { IsPlace name.now self.now result }
    {
        match &self.index {
            Some(index) => index.place(name),
            None => self.listed(name),
        }
    }

    // The same without the index.
    fn listed(&self, name: &Text) -> Option<usize>
        ensures { IsPlace name.now self.now result }
    {
        for (i, row) in self.rows.iter().enumerate() {
            if row.is_called(name) {
                return Some(i);
            }
        }
        None
    }

    /// The place of the property whose key has these units, one of the first.
    pub(crate) fn place_of_units(&self, units: &[u16]) -> Option<usize>
        ensures { IsPlace units.now self.now result }
    {
        for (i, row) in self.rows.iter().enumerate() {
            if row.is_named(units) {
                return Some(i);
            }
        }
        None
    }

    /// The property at a place.
    pub(crate) fn slot(&self, place: usize) -> &Slot<T>
        requires { place < length self.now }
        ensures { option_map (λ r. r.1) (slice_get self.now place) ≡ Some result.now }
    {
        self.rows[place].slot()
    }

    /// Gives a property another body, with the label of that.
    pub(crate) fn set_body(&mut self, place: usize, body: Body, label: T)
        requires { place < length self.old }
        ensures { self.new ≡ changed_at_place place (λ s. record s { body = body; label = label }) self.old }
    {
        self.rows[place].set_body(body, label);
    }

    /// Puts another property under a key.
    pub(crate) fn set_slot(&mut self, place: usize, slot: Slot<T>)
        requires { place < length self.old }
        ensures { self.new ≡ changed_at_place place (λ s. slot) self.old }
    {
        self.rows[place].set_slot(slot);
    }

    /// Gives a property other attributes.
    pub(crate) fn set_marks(&mut self, place: usize, marks: Marks)
        requires { place < length self.old }
        ensures { self.new ≡ changed_at_place place (λ s. record s { marks = marks }) self.old }
    {
        self.rows[place].set_marks(marks);
    }

    /// Gives a property another existence label.
    pub(crate) fn set_existence(&mut self, place: usize, label: T)
        requires { place < length self.old }
        ensures { self.new ≡ changed_at_place place (λ s. record s { existence = label }) self.old }
    {
        self.rows[place].set_existence(label);
    }

    /// Appends a property.
    pub(crate) fn push(&mut self, key: Key, slot: Slot<T>) -> Result<(), OutOfMemory>
        ensures ok { OnOk result (self.new ≡ self.old ++ (key, slot) ∷ []) }
        ensures unchanged { OnErr result (self.new ≡ self.old) }
    {
        self.make_index()?;
        self.rows.reserve(1)?;
        insert_key(self.alloc, &mut self.index, &key)?;
        self.bound = bound_with(self.bound, &key);
        self.rows.push_reserved(Row::new(key, slot));
        Ok(())
    }

    /// Puts a property at a place, in front of the one that stands there. There is no index then: it is for objects that have few yet.
    pub(crate) fn insert(
        &mut self,
        place: usize,
        key: Key,
        slot: Slot<T>,
    ) -> Result<(), OutOfMemory>
        requires { place ≤ length self.old }
        ensures ok { OnOk result (self.new ≡ insert self.old place (key, slot)) }
        ensures unchanged { OnErr result (self.new ≡ self.old) }
    {
        let bound = bound_with(self.bound, &key);
        self.rows.insert(place, Row::new(key, slot))?;
        self.index = None;
        self.bound = bound;
        Ok(())
    }

    // Begins the index where it is time for one.
    fn make_index(&mut self) -> Result<(), OutOfMemory>
        ensures { self.new ≡ self.old }
    {
        if self.rows.len() != MOST_WITHOUT_INDEX {
            return Ok(());
        }
        self.index = index_of(self.alloc, &self.rows)?;
        Ok(())
    }

    /// Takes the property at a place away. Those after it close up.
    pub(crate) fn remove(&mut self, place: usize)
        requires { place < length self.old }
        ensures { self.new ≡ remove self.old place }
    {
        let row = self.rows.remove(place);
        remove_key(&mut self.index, place);
        self.lower_bound(row.key());
    }

    // Behind the removal of the element just below the bound, if no other row has its key, the bound is lower.
    fn lower_bound(&mut self, key: &Key)
        ensures { self.new ≡ self.old }
    {
        let Some(i) = element_named(key) else {
            return;
        };
        if i + 1 != self.bound {
            return;
        }
        match self.place(key.text()) {
            Some(_place) => {}
            None => self.bound = i,
        }
    }
}

// The number of the array element that a key names, if it names one.
fn element_named(key: &Key) -> Option<u32>
    ensures named { result ≡ index_of key.now }
    ensures below { IfSome result (λ i. i < 4294967295) }
{
    array_index(key.text().units())
}

// A bound above the element that a key names too.
fn bound_with(bound: u32, key: &Key) -> u32
    ensures { result ≡ bound_with bound (index_of key.now) }
{
    let Some(i) = element_named(key) else {
        return bound;
    };
    if bound <= i {
        return i + 1;
    }
    bound
}

// The property in the last row, where its key names the element just below the bound: then it is the highest.
fn last_below<'r, T: Copy>(rows: &'r [Row<T>], bound: u32) -> Option<(u32, &'r Slot<T>)>
    requires { highest bound rows.now ≡ None }
    ensures { IfSome result (λ e. (n : ℕ) → n < bound → highest n rows.now ≡ Some (e.0, e.1.now)) }
{
    let len = rows.len();
    if len == 0 {
        return None;
    }
    let row = &rows[len - 1];
    let Some(i) = element_named(row.key()) else {
        return None;
    };
    if i + 1 == bound {
        return Some((i, row.slot()));
    }
    None
}

// The highest array element at or above a number, by a walk over all rows.
fn highest_listed<'r, T: Copy>(rows: &'r [Row<T>], n: u32) -> Option<(u32, &'r Slot<T>)>
    ensures { option_map (λ e. (e.0, e.1.now)) result ≡ highest n rows.now }
{
    let mut found: Option<(u32, &Slot<T>)> = None;
    for row in rows {
        found = higher(n, row, found);
    }
    found
}

// The higher of an element that was found and that of a row, where this names one at or above a number.
fn higher<'r, T: Copy>(
    n: u32,
    row: &'r Row<T>,
    found: Option<(u32, &'r Slot<T>)>,
) -> Option<(u32, &'r Slot<T>)>
    ensures { option_map (λ e. (e.0, e.1.now)) result ≡ higher_behind n row.now (option_map (λ e. (e.0, e.1.now)) found.entry) }
{
    let Some(i) = element_named(row.key()) else {
        return found;
    };
    if i < n {
        return found;
    }
    if let Some((j, _slot)) = found {
        if i < j {
            return found;
        }
    }
    Some((i, row.slot()))
}

// An index of the rows. There is none where a key comes twice.
fn index_of<T: Copy>(alloc: Global, rows: &[Row<T>]) -> Result<Option<Box<Index>>, OutOfMemory>
    ensures { IfOk result (λ index. indexed index (keys_of rows.now) ≡ keys_of rows.now) }
{
    let mut index = Some(Box::new(alloc, Index::new(alloc))?);
    for row in rows {
        insert_key(alloc, &mut index, row.key())?;
    }
    Ok(index)
}

// Adds a key to an index. None is left where the key is in it.
fn insert_key(alloc: Global, index: &mut Option<Box<Index>>, key: &Key) -> Result<(), OutOfMemory>
    ensures ok { OnOk result ((keys : List (List ℕ)) → indexed index.old keys ≡ keys → indexed index.new (keys ++ key.now ∷ []) ≡ keys ++ key.now ∷ []) }
    ensures unchanged { OnErr result ((keys : List (List ℕ)) → indexed index.old keys ≡ keys → indexed index.new keys ≡ keys) }
{
    let Some(keys) = index else {
        return Ok(());
    };
    if keys.insert(alloc, key)? {
        return Ok(());
    }
    *index = None;
    Ok(())
}

// Takes the key at a place out of an index.
fn remove_key(index: &mut Option<Box<Index>>, place: usize)
    ensures { (keys : List (List ℕ)) → indexed index.old keys ≡ keys → indexed index.new (remove keys place) ≡ remove keys place }
{
    let Some(keys) = index else {
        return;
    };
    keys.remove(place);
}
