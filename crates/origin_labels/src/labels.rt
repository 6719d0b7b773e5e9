//! A store of labels.

ghost use Rattle.std.specs.Prelude.{◌≡◌, ◌<◌, ℕ, Bool, true, OnOk, IfOk, IsOk};
ghost use Rattle.std.specs.List.{All};
ghost use Rattle.origin_labels.specs.Label.{Label, IsLabel, bottom, single, has, union, within, label_of};
ghost use Rattle.origin_labels.specs.Lattice.{IsLattice};
ghost use Rattle.origin_labels.specs.Stores.{IsKept};

use crate::origin_list::OriginList;
use flow_text::OutOfMemory;

/// A store of labels. Each label that it made means a finite set of origins, and keeps that meaning.
pub trait Labels {
    type Label: Copy;

    /// Whether the store made the label.
    ghost made: { Self → Self.Label → Type 0 };

    /// The set of origins that a label of the store means.
    ghost meaning: { Self → Self.Label → Label };

    /// Origin numbers are below it.
    ghost room: { Self → ℕ };

    /// Whether the store never wants memory.
    ghost firm: { Self → Bool };

    /// The empty set.
    fn bottom(&self) -> Self::Label
        ensures made { made self.now result }
        ensures meaning { meaning self.now result ≡ bottom };

    /// The set of one origin.
    fn single(&mut self, origin: u32) -> Result<Self::Label, OutOfMemory>
        requires { origin < room self.old }
        ensures made { IfOk result (made self.new) }
        ensures meaning { IfOk result (λ label. meaning self.new label ≡ single origin) }
        ensures kept { IsKept made meaning room firm self.old self.new }
        ensures firm { firm self.old ≡ true → IsOk result };

    /// The union of two sets.
    fn join(&mut self, a: Self::Label, b: Self::Label) -> Result<Self::Label, OutOfMemory>
        requires first { made self.old a }
        requires second { made self.old b }
        ensures made { IfOk result (made self.new) }
        ensures meaning { IfOk result (λ label. meaning self.new label ≡ union (meaning self.old a) (meaning self.old b)) }
        ensures kept { IsKept made meaning room firm self.old self.new }
        ensures firm { firm self.old ≡ true → IsOk result };

    /// Whether the first set is included in the second.
    fn within(&self, a: Self::Label, b: Self::Label) -> bool
        requires first { made self.now a }
        requires second { made self.now b }
        ensures { result ≡ within (meaning self.now a) (meaning self.now b) };

    /// Whether the origin is in the set.
    fn has(&self, a: Self::Label, origin: u32) -> bool
        requires { made self.now a }
        ensures { result ≡ has origin (meaning self.now a) };

    /// What a label of the store means is a label.
    ghost rising: { (store : Self) (label : Self.Label) → made store label → IsLabel (meaning store label) };
}

/// The laws of labels.
pub fn lattice()
    ensures { IsLattice }
{}

/// The union of the listed origins.
pub fn join_all<L: Labels>(labels: &mut L, list: &OriginList) -> Result<L::Label, OutOfMemory>
    requires { All (λ origin. origin < L.room labels.old) list.now }
    ensures made { IfOk result (L.made labels.new) }
    ensures meaning { IfOk result (λ label. L.meaning labels.new label ≡ label_of list.now) }
    ensures kept { IsKept L.made L.meaning L.room L.firm labels.old labels.new }
    ensures firm { L.firm labels.old ≡ true → IsOk result }
{
    let mut all = labels.bottom();
    for origin in list.items() {
        let one = labels.single(*origin)?;
        all = labels.join(all, one)?;
    }
    Ok(all)
}
