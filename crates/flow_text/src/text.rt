//! A text.

ghost use Rattle.std.specs.Prelude.{◌≡◌, ◌-◌, ◌+◌, ◌<◌, ◌≤◌, ℕ, [], ◌∷◌, ◌++◌, length, slice_range, slice_index, OnOk, OnErr, IfOk};
ghost use Rattle.flow_text.specs.Text.{AreUnits};
ghost use Rattle.flow_text.specs.Hashes.{hash_of};
ghost use Rattle.flow_text.specs.declared.text.TextFault.TheVariants as faults;

use crate::memory::OutOfMemory;
use crate::shared::{HASH_OF_NONE, Shared, hash_on};
use std::alloc::{AllocError, AllocFailed, Global};
use std::fmt;
use std::marker::Model;
use std::rc::Rc;

/// A list of UTF-16 units, as a string value has them (ECMA-262 8.4). A copy shares the units of its source.
pub struct Text {
    alloc: Global,
    shared: Option<Rc<Shared>>,
}

impl Model for Text {
    ghost use Rattle.std.specs.Prelude.{List, ℕ};
    ghost use Rattle.flow_text.specs.Text.{AreUnits, units_in};

    ghost Value = { List ℕ };

    ghost view = { λ t. units_in t.shared };

    ghost invariant = { λ t. AreUnits (units_in t.shared) };
}

impl Drop for Text {
    fn drop(self) {
        let Text {
            alloc: _,
            shared: _,
        } = self;
    }
}

impl fmt::Debug for Text {
    fn fmt<W: fmt::Write>(&self, f: &mut fmt::Formatter<W>) -> fmt::Result {
        write!(f, "{:?}", self.units())
    }
}

impl Text {
    /// The empty text. It takes no memory.
    pub fn new(alloc: Global) -> Text
        ensures { result ≡ [] }
    {
        Text {
            alloc,
            shared: None,
        }
    }

    /// The text of these units.
    pub fn of_units(alloc: Global, units: Vec<u16>) -> Result<Text, OutOfMemory>
        ensures { IfOk result (λ t. t ≡ units.items) }
    {
        if units.is_empty() {
            return Ok(Text::new(alloc));
        }
        Text::sharing(alloc, Shared::new(units))
    }

    fn sharing(alloc: Global, shared: Shared) -> Result<Text, OutOfMemory>
        requires { AreUnits shared }
        ensures { IfOk result (λ t. t ≡ shared) }
    {
        let shared = Rc::new(alloc, shared)?;
        Ok(Text {
            alloc,
            shared: Some(shared),
        })
    }

    /// How many units it has.
    pub fn len(&self) -> usize
        ensures length { result ≡ length self.now }
        ensures units { AreUnits self.now }
    {
        self.known_units().len()
    }

    /// The unit at a place.
    pub fn unit(&self, i: usize) -> u16
        requires { i < length self.now }
        ensures { result ≡ slice_index self.now i }
    {
        self.units()[i]
    }

    /// All its units.
    #[inline(always)]
    pub fn units(&self) -> &[u16]
        ensures { result.now ≡ self.now }
    {
        self.known_units()
    }

    // The same, with what is known of each.
    #[inline(always)]
    pub(crate) fn known_units(&self) -> &[u16]
        ensures same { result.now ≡ self.now }
        ensures units { AreUnits self.now }
    {
        match &self.shared {
            Some(shared) => shared.units(),
            None => &[],
        }
    }

    /// The hash of its units. It is kept with them.
    #[inline(always)]
    pub fn hash_code(&self) -> u32
        ensures { result ≡ hash_of self.now }
    {
        match &self.shared {
            Some(shared) => shared.hash(),
            None => HASH_OF_NONE,
        }
    }

    /// Adds a unit at the end.
    pub fn push(&mut self, unit: u16) -> Result<(), OutOfMemory>
        ensures ok { OnOk result (self.new ≡ self.old ++ unit ∷ []) }
        ensures unchanged { OnErr result (self.new ≡ self.old) }
    {
        self.push_units(&[unit])
    }

    /// Adds units at the end.
    pub fn push_units(&mut self, units: &[u16]) -> Result<(), OutOfMemory>
        ensures ok { OnOk result (self.new ≡ self.old ++ units.now) }
        ensures unchanged { OnErr result (self.new ≡ self.old) }
    {
        if let Some(shared) = &mut self.shared {
            if let Some(own) = Rc::get_mut(shared) {
                return own.push_units(units);
            }
        }
        *self = self.joined(units)?;
        Ok(())
    }

    /// The units from `from` up to `to`.
    pub fn slice(&self, alloc: Global, from: usize, to: usize) -> Result<Text, OutOfMemory>
        requires order { from ≤ to }
        requires within { to ≤ length self.now }
        ensures { IfOk result (λ t. t ≡ slice_range self.now from to) }
    {
        let units = Vec::from_slice(alloc, &self.units()[from..to])?;
        Text::of_units(alloc, units)
    }

    /// A text of the same units, which are not copied.
    pub fn copy(&self, alloc: Global) -> Result<Text, OutOfMemory>
        ensures { IfOk result (λ t. t ≡ self.now) }
    {
        match &self.shared {
            Some(shared) => {
                let shared = shared.clone()?;
                Ok(Text {
                    alloc,
                    shared: Some(shared),
                })
            }
            None => Ok(Text::new(alloc)),
        }
    }

    /// Its units, and then those of `other`.
    pub fn concat(&self, alloc: Global, other: &Text) -> Result<Text, OutOfMemory>
        ensures { IfOk result (λ t. t ≡ self.now ++ other.now) }
    {
        if self.units().is_empty() {
            return other.copy(alloc);
        }
        if other.units().is_empty() {
            return self.copy(alloc);
        }
        self.joined(other.units())
    }

    // Its units, and then these.
    #[tactic(auto, using(crate::proofs::HashLaws::hash_more))]
    fn joined(&self, units: &[u16]) -> Result<Text, OutOfMemory>
        ensures { IfOk result (λ t. t ≡ self.now ++ units.now) }
    {
        let first = self.units();
        let mut all = Vec::with_capacity(self.alloc, first.len() + units.len())?;
        all.extend_from_slice(first)?;
        all.extend_from_slice(units)?;
        let hash = hash_on(self.hash_code(), units);
        Text::sharing(self.alloc, Shared::with_hash(hash, all))
    }
}

/// Why bytes gave no text.
#[derive(Clone, Copy, Debug, PartialEq, Eq)]
pub enum TextFault {
    /// The bytes aren't UTF-8: `at` is the length of their longest front that is.
    BadUtf8 { at: usize },
    OutOfMemory,
}

impl From<OutOfMemory> for TextFault {
    ghost from_gives = { λ _ e. e ≡ faults.OutOfMemory };

    fn from(_error: OutOfMemory) -> TextFault {
        TextFault::OutOfMemory
    }
}

impl From<AllocError> for TextFault {
    ghost from_gives = { λ _ e. e ≡ faults.OutOfMemory };

    fn from(_error: AllocError) -> TextFault {
        TextFault::OutOfMemory
    }
}

impl<T: Drop> From<AllocFailed<T>> for TextFault {
    ghost from_gives = { λ _ e. e ≡ faults.OutOfMemory };

    fn from(_error: AllocFailed<T>) -> TextFault {
        TextFault::OutOfMemory
    }
}
