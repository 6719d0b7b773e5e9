//! Names, each with its number.

ghost use Rattle.std.specs.Prelude.{◌≡◌, ◌<◌, ◌-◌, ◌^◌, false, [], ◌∷◌, ◌++◌, length, slice_get, is_some, Some, OnOk, OnErr, IfOk};
ghost use Rattle.origin_labels.specs.Names.{has_name, place_of, AreDistinct};

use flow_text::{OutOfMemory, Text};
use std::alloc::Global;
use std::marker::Model;

/// Distinct names, numbered from 0 in the order in which they were added.
#[derive(Drop)]
pub struct Origins {
    names: Vec<Text>,
}

impl Model for Origins {
    ghost use Rattle.std.specs.Prelude.{List, ℕ, ◌<◌, ◌^◌, length};
    ghost use Rattle.origin_labels.specs.Names.{AreDistinct};

    ghost Value = { List (List ℕ) };

    ghost view = { λ o. o.names.items };

    ghost invariant = { λ o. AreDistinct o.names.items × (length o.names.items < 2 ^ 32) };
}

impl Origins {
    /// No names. It takes no memory.
    pub fn new(alloc: Global) -> Origins
        ensures { result ≡ [] }
    {
        Origins {
            names: Vec::new(alloc),
        }
    }

    /// Adds a new name, and gives its number.
    pub fn add(&mut self, name: Text) -> Result<u32, OutOfMemory>
        requires new { has_name name self.old ≡ false }
        requires room { length self.old < 2 ^ 32 - 1 }
        ensures number { IfOk result (λ n. n ≡ length self.old) }
        ensures ok { OnOk result (self.new ≡ self.old ++ name ∷ []) }
        ensures unchanged { OnErr result (self.new ≡ self.old) }
    {
        let number = self.names.len() as u32;
        self.names.push(name)?;
        Ok(number)
    }

    /// The number of a name.
    pub fn index_of(&self, name: &Text) -> Option<u32>
        ensures place { result ≡ place_of name.now self.now }
        ensures known { is_some result ≡ has_name name.now self.now }
    {
        for (i, other) in self.names.iter().enumerate() {
            if other == name {
                return Some(i as u32);
            }
        }
        None
    }

    /// The name with a number.
    pub fn name(&self, i: u32) -> &Text
        requires { i < length self.now }
        ensures { slice_get self.now i ≡ Some result.now }
    {
        &self.names[i as usize]
    }

    /// How many names there are.
    pub fn len(&self) -> u32
        ensures length { result ≡ length self.now }
        ensures distinct { AreDistinct self.now }
    {
        self.names.len() as u32
    }
}
