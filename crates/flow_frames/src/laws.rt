//! Laws of frames and stores of labels.

ghost use Rattle.std.specs.Prelude.{◌≡◌, ℕ, List, take};
ghost use Rattle.origin_labels.specs.Stores.{IsKept};
ghost use Rattle.flow_frames.specs.Held.{Held, Belong, seen};
ghost use Rattle.flow_frames.specs.Changes.{quieted};

use origin_labels::Labels;

/// Frames that belong to a store belong to each later store that keeps it, and are seen the same there. The outermost of them belong, and they belong whichever of them catch.
pub fn belonging_lasts<L: Labels>()
    ensures belongs { (old new : L) (frames : List (Held L.Label)) → IsKept L.made L.meaning L.room L.firm old new → Belong L.made L.meaning old frames → Belong L.made L.meaning new frames }
    ensures seen { (old new : L) (frames : List (Held L.Label)) → IsKept L.made L.meaning L.room L.firm old new → Belong L.made L.meaning old frames → seen L.meaning new frames ≡ seen L.meaning old frames }
    ensures outermost { (store : L) (before after : List (Held L.Label)) (n : ℕ) → after ≡ take n before → Belong L.made L.meaning store before → Belong L.made L.meaning store after }
    ensures quiet { (store : L) (before after : List (Held L.Label)) (depth : ℕ) → after ≡ quieted before depth → Belong L.made L.meaning store before → Belong L.made L.meaning store after }
{}
