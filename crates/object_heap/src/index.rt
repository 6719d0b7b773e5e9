//! The keys of many properties, for a quick search.

ghost use Rattle.std.specs.Prelude.{◌≡◌, ◌<◌, ◌∷◌, ◌++◌, [], true, IfOk, OnErr, remove};
ghost use Rattle.std.specs.List.{position};
ghost use Rattle.origin_labels.specs.Names.{same_name};

use crate::named::Named;
use flow_text::{OutOfMemory, Text};
use indexmap::IndexSet;
use js_values::Key;
use std::alloc::Global;
use std::marker::Model;

// How many hints there are.
const HINTS: usize = 64;

/// Keys in their order. A search looks at the place of the last key with a hash like this first, since a script
/// uses few names of the global object again and again.
#[derive(Drop)]
pub(crate) struct Index {
    keys: IndexSet<Key>,
    // Where a key may stand, by the last bits of its hash. A hint may be wrong.
    hints: [u16; HINTS],
}

impl Model for Index {
    ghost use Rattle.std.specs.Prelude.{List, ℕ};

    ghost Value = { List (List ℕ) };

    ghost view = { λ i. i.keys.keys };
}

impl Index {
    /// No keys.
    pub(crate) fn new(alloc: Global) -> Index
        ensures { result ≡ [] }
    {
        Index {
            keys: IndexSet::new(alloc),
            hints: [0; HINTS],
        }
    }

    /// The place of the key of a text.
    pub(crate) fn place(&self, name: &Text) -> Option<usize>
        ensures { result ≡ position (λ k. same_name name.now k) self.now }
    {
        let keys = self.keys.as_slice();
        let hint = usize::from(self.hints[hint_of(name)]);
        if hint < keys.len() && name == keys[hint].text() {
            return Some(hint);
        }
        self.searched(name)
    }

    // The same without a hint.
    #[inline(never)]
    fn searched(&self, name: &Text) -> Option<usize>
        ensures { result ≡ position (λ k. same_name name.now k) self.now }
    {
        self.keys.get_index_of(Named { text: name })
    }

    /// Adds a key behind the others. Answers false where it was there before.
    pub(crate) fn insert(&mut self, alloc: Global, key: &Key) -> Result<bool, OutOfMemory>
        ensures added { IfOk result (λ added. added ≡ true → self.new ≡ self.old ++ key.now ∷ []) }
        ensures unchanged { OnErr result (self.new ≡ self.old) }
    {
        let place = self.keys.len();
        let added = self.keys.insert(key.copy(alloc)?)?;
        if let Ok(hint) = u16::try_from(place) {
            self.hints[hint_of(key.text())] = hint;
        }
        Ok(added)
    }

    /// Takes the key at a place away. Those after it close up.
    pub(crate) fn remove(&mut self, place: usize)
        ensures { self.new ≡ remove self.old place }
    {
        let _key = self.keys.shift_remove_index(place);
    }
}

// Which hint is that of a text.
fn hint_of(text: &Text) -> usize
    ensures { result < 64 }
{
    text.hash_code() as usize % HINTS
}
