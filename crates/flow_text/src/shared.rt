//! Units that several texts share, with their hash.

ghost use Rattle.std.specs.Prelude.{◌≡◌, ◌++◌, OnOk, OnErr};
ghost use Rattle.std.specs.List.{fold};
ghost use Rattle.flow_text.specs.Text.{AreUnits};
ghost use Rattle.flow_text.specs.Hashes.{hash_step, hash_of};

use crate::memory::OutOfMemory;
use std::marker::Model;

/// The hash of no units.
pub(crate) const HASH_OF_NONE: u32 = 0;

const MULTIPLIER: u32 = 16777619;

/// Units with their hash.
#[derive(Drop)]
pub(crate) struct Shared {
    hash: u32,
    units: Vec<u16>,
}

impl Model for Shared {
    ghost use Rattle.std.specs.Prelude.{◌≡◌, List, ℕ};
    ghost use Rattle.flow_text.specs.Text.{AreUnits};
    ghost use Rattle.flow_text.specs.Hashes.{hash_of};

    ghost Value = { List ℕ };

    ghost view = { λ s. s.units.items };

    ghost invariant = { λ s. AreUnits s.units.items × (s.hash ≡ hash_of s.units.items) };
}

impl Shared {
    /// These units.
    #[tactic(auto, unfolding(crate::specs::Hashes::hash_of))]
    pub(crate) fn new(units: Vec<u16>) -> Shared
        ensures same { result ≡ units.items }
        ensures units { AreUnits result }
    {
        let hash = hash_on(HASH_OF_NONE, &units);
        Shared { hash, units }
    }

    /// These units, whose hash is known.
    pub(crate) fn with_hash(hash: u32, units: Vec<u16>) -> Shared
        requires { hash ≡ hash_of units.items }
        ensures same { result ≡ units.items }
        ensures units { AreUnits result }
    {
        Shared { hash, units }
    }

    /// The hash.
    #[inline(always)]
    pub(crate) fn hash(&self) -> u32
        ensures { result ≡ hash_of self.now }
    {
        self.hash
    }

    /// The units.
    #[inline(always)]
    pub(crate) fn units(&self) -> &[u16]
        ensures { result.now ≡ self.now }
    {
        &self.units
    }

    /// Adds units at the end.
    pub(crate) fn push_units(&mut self, units: &[u16]) -> Result<(), OutOfMemory>
        ensures ok { OnOk result (self.new ≡ self.old ++ units.now) }
        ensures unchanged { OnErr result (self.new ≡ self.old) }
        ensures units { AreUnits self.new }
    {
        self.units.extend_from_slice(units)?;
        self.hash = hash_on(self.hash, units);
        Ok(())
    }
}

/// The hash of units that these follow.
pub(crate) fn hash_on(hash: u32, units: &[u16]) -> u32
    ensures { result ≡ fold hash_step hash units.now }
{
    let mut hashed = hash;
    for unit in units {
        hashed = hash_step(hashed, *unit);
    }
    hashed
}

#[inline(always)]
#[tactic(auto, unfolding(crate::specs::Hashes::hash_step))]
fn hash_step(hash: u32, unit: u16) -> u32
    ensures { result ≡ hash_step hash unit }
{
    hash.wrapping_mul(MULTIPLIER).wrapping_add(u32::from(unit))
}
