//! Search by a text for the key of that text.

ghost use Rattle.std.specs.Hash as fed;
ghost use Rattle.std.specs.Cmp as Cmp;
ghost use Rattle.std.specs.Cmp.Lexicographic.{bytes_decides, nat_list_eq_equiv};
ghost use Rattle.std.proofs.Common.{ap};
ghost use Rattle.origin_labels.specs.Names.{same_name};
ghost use Rattle.flow_text.specs.Hashes.{hash_of};

use flow_text::Text;
use indexmap::Equivalent;
use js_values::Key;
use std::hash::{Hash, Hasher};

/// The key of a text.
#[derive(Clone, Copy)]
pub(crate) struct Named<'a> {
    pub(crate) text: &'a Text,
}

impl PartialEq for Named<'_> {
    ghost eq = { λ a b. same_name a.text.now b.text.now };

    ghost laws = { Cmp.on_per (λ n. n.text.now) (Cmp.partial_equiv_from_equiv nat_list_eq_equiv) };

    fn eq(&self, other: &Self) -> bool {
        self.text == other.text
    }
}

impl Eq for Named<'_> {
    ghost laws = { Cmp.on_equiv (λ n. n.text.now) nat_list_eq_equiv };
}

impl Hash for Named<'_> {
    ghost hash_input = { λ n. fed.u32 (hash_of n.text.now) };

    ghost respects_eq = { λ a b same. ap (λ t. fed.u32 (hash_of t)) ((bytes_decides a.text.now b.text.now).0 same) };

    fn hash<H: Hasher>(&self, state: &mut H) {
        self.text.hash(state);
    }
}

impl Equivalent<Key> for Named<'_> {
    ghost equivalent = { λ n k. same_name n.text.now k };

    ghost respects_hash = { λ n k same. ap (λ t. fed.u32 (hash_of t)) ((bytes_decides n.text.now k).0 same) };

    ghost respects_eq = { λ n x y. nat_list_eq_equiv.congr n.text.now x y };

    fn equivalent(&self, key: &Key) -> bool {
        self.text == key.text()
    }
}
