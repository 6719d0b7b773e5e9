//! Names of properties.

ghost use Rattle.std.specs.Prelude.{◌≡◌, ℕ, List, [], ◌∷◌, ◌++◌, Some, IfSome, IfOk, OnOk, OnErr};
ghost use Rattle.std.specs.Cmp as Cmp;
ghost use Rattle.std.specs.Ordering.{nat_cmp};
ghost use Rattle.std.specs.Cmp.Lexicographic.{bytes_decides, slice_cmp, nat_list_eq_equiv, nat_list_cmp_total, texts_po, texts_ties};
ghost use Rattle.std.specs.Hash as fed;
ghost use Rattle.std.proofs.Common.{ap, refl};
ghost use Rattle.flow_text.specs.Hashes.{hash_of};
ghost use Rattle.origin_labels.specs.Names.{same_name};
ghost use Rattle.js_values.specs.Indices.{IsArrayIndex};
ghost use Rattle.js_values.specs.Numerals.{digit, value_after, index_of};

use flow_text::{OutOfMemory, Text};
use std::alloc::Global;
use std::cmp::Ordering;
use std::hash::{Hash, Hasher};
use std::marker::Model;

/// The name of a property, a text.
#[derive(Debug, Drop)]
pub struct Key {
    text: Text,
}

impl Model for Key {
    ghost Value = { List ℕ };

    ghost view = { λ k. k.text };
}

impl PartialEq for Key {
    ghost eq = { same_name };

    ghost laws = { Cmp.partial_equiv_from_equiv nat_list_eq_equiv };

    fn eq(&self, other: &Key) -> bool {
        self.text == other.text
    }
}

impl Eq for Key {
    ghost laws = { nat_list_eq_equiv };
}

impl PartialOrd for Key {
    ghost partial_cmp = { λ x y. Some (slice_cmp nat_cmp x y) };

    ghost laws = { texts_po };

    fn partial_cmp(&self, other: &Key) -> Option<Ordering> {
        Some(self.cmp(other))
    }
}

impl Ord for Key {
    ghost cmp = { slice_cmp nat_cmp };

    ghost total = { nat_list_cmp_total };

    ghost matches_partial_cmp = { λ x y. refl };

    ghost matches_eq = { texts_ties };

    fn cmp(&self, other: &Key) -> Ordering {
        self.text.cmp(&other.text)
    }
}

impl Hash for Key {
    ghost hash_input = { λ k. fed.u32 (hash_of k) };

    ghost respects_eq = { λ x y same. ap (λ k. fed.u32 (hash_of k)) ((bytes_decides x y).0 same) };

    fn hash<H: Hasher>(&self, state: &mut H) {
        self.text.hash(state);
    }
}

impl Key {
    /// The key of a text.
    pub fn new(text: Text) -> Key
        ensures { result ≡ text }
    {
        Key { text }
    }

    /// Its text.
    pub fn text(&self) -> &Text
        ensures { result.now ≡ self.now }
    {
        &self.text
    }

    /// The number of the array element that it names, if it names one.
    pub fn index(&self) -> Option<u32>
        ensures named { IfSome result (IsArrayIndex self.now) }
        ensures names { (n : ℕ) → IsArrayIndex self.now n → result ≡ Some n }
    {
        array_index(self.text.units())
    }

    /// The same key.
    pub fn copy(&self, alloc: Global) -> Result<Key, OutOfMemory>
        ensures { IfOk result (λ k. k ≡ self.now) }
    {
        Ok(Key {
            text: self.text.copy(alloc)?,
        })
    }
}

// Array indices are below it.
const LIMIT: u64 = u32::MAX as u64;

/// The array index that the units spell: a 0 stands first only where it stands alone.
#[tactic(auto, unfolding(crate::specs::Numerals::index_of))]
pub fn array_index(units: &[u16]) -> Option<u32>
    ensures { result ≡ index_of units.now }
{
    match units {
        [] | [0x30, _, ..] => None,
        _ => value_of(units),
    }
}

// The number that decimal digits write, where it is an array index.
fn value_of(units: &[u16]) -> Option<u32>
    ensures { result ≡ value_after 0 units.now }
{
    let mut value = 0;
    let mut rest = units;
    while let [first, others @ ..] = rest {
        value = value * 10 + digit(*first)?;
        if LIMIT <= value {
            return None;
        }
        rest = others;
    }
    Some(value as u32)
}

// The value of a decimal digit.
fn digit(unit: u16) -> Option<u64>
    ensures { result ≡ digit unit }
{
    match unit {
        0x30..=0x39 => Some(u64::from(unit - 0x30)),
        _ => None,
    }
}

/// Keys in order.
#[derive(Debug, Drop)]
pub struct KeyRow {
    keys: Vec<Key>,
}

impl Model for KeyRow {
    ghost Value = { List (List ℕ) };

    ghost view = { λ r. r.keys.items };
}

impl KeyRow {
    /// No keys. It takes no memory.
    pub fn new(alloc: Global) -> KeyRow
        ensures { result ≡ [] }
    {
        KeyRow {
            keys: Vec::new(alloc),
        }
    }

    /// Appends a key.
    pub fn push(&mut self, key: Key) -> Result<(), OutOfMemory>
        ensures ok { OnOk result (self.new ≡ self.old ++ key ∷ []) }
        ensures unchanged { OnErr result (self.new ≡ self.old) }
    {
        self.keys.push(key)?;
        Ok(())
    }

    /// The keys.
    pub fn items(&self) -> &[Key]
        ensures { result.now ≡ self.now }
    {
        &self.keys
    }
}
