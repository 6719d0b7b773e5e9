//! The sets of a store as keys.

ghost use Rattle.std.specs.Prelude.{◌≡◌};
ghost use Rattle.std.specs.Cmp as Cmp;
ghost use Rattle.std.specs.Cmp.Lexicographic.{bytes_decides, nat_list_eq_equiv};
ghost use Rattle.std.specs.Hash as fed;
ghost use Rattle.std.specs.Str.{bytes_eq};
ghost use Rattle.std.proofs.Common.{ap};

use indexmap::Equivalent;
use std::hash::{Hash, Hasher};
use std::marker::Model;

/// A set of origins as the list of their numbers.
#[derive(Drop)]
pub(crate) struct OriginSet {
    origins: Vec<u32>,
}

impl Model for OriginSet {
    ghost use Rattle.std.specs.Prelude.{List, ℕ};

    ghost Value = { List ℕ };

    ghost view = { λ s. s.origins.items };
}

impl OriginSet {
    pub(crate) fn new(origins: Vec<u32>) -> OriginSet
        ensures { result ≡ origins.items }
    {
        OriginSet { origins }
    }

    pub(crate) fn origins(&self) -> &[u32]
        ensures { result.now ≡ self.now }
    {
        &self.origins
    }
}

impl PartialEq for OriginSet {
    ghost eq = { bytes_eq };

    ghost laws = { Cmp.partial_equiv_from_equiv nat_list_eq_equiv };

    fn eq(&self, other: &OriginSet) -> bool {
        self.origins() == other.origins()
    }
}

impl Eq for OriginSet {
    ghost laws = { nat_list_eq_equiv };
}

impl Hash for OriginSet {
    ghost hash_input = { fed.slice fed.u32 };

    ghost respects_eq = { λ x y same. ap (fed.slice fed.u32) ((bytes_decides x y).0 same) };

    fn hash<H: Hasher>(&self, state: &mut H) {
        self.origins().hash(state);
    }
}

impl Equivalent<OriginSet> for &[u32] {
    ghost equivalent = { λ list set. bytes_eq list.now set };

    ghost respects_hash = { λ list set same. ap (fed.slice fed.u32) ((bytes_decides list.now set).0 same) };

    ghost respects_eq = { λ list x y. nat_list_eq_equiv.congr list.now x y };

    fn equivalent(&self, set: &OriginSet) -> bool {
        *self == set.origins()
    }
}
