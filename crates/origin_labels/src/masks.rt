//! Labels of origins below 64, as bits.

ghost use Rattle.std.specs.Prelude.{◌≡◌, true};
ghost use Rattle.origin_labels.specs.Label.{Label, IsLabel};
ghost use Rattle.origin_labels.specs.Masks.{origins_of};

use crate::labels::Labels;
use flow_text::OutOfMemory;

/// A set of origins below 64.
#[derive(Clone, Copy)]
pub struct Mask(u64);

/// The store of masks. It keeps nothing, and never wants memory.
#[derive(Clone, Copy)]
pub struct Masks;

impl Labels for Masks {
    type Label = Mask;

    ghost made = { λ _ mask. IsLabel (origins_of mask.0) };

    ghost meaning = { λ _ mask. origins_of mask.0 };

    ghost room = { λ _. 64 };

    ghost firm = { λ _. true };

    fn bottom(&self) -> Mask {
        Mask(0)
    }

    fn single(&mut self, origin: u32) -> Result<Mask, OutOfMemory> {
        Ok(Mask(1 << origin))
    }

    fn join(&mut self, a: Mask, b: Mask) -> Result<Mask, OutOfMemory> {
        Ok(Mask(a.0 | b.0))
    }

    fn within(&self, a: Mask, b: Mask) -> bool {
        a.0 & b.0 == a.0
    }

    fn has(&self, a: Mask, origin: u32) -> bool {
        origin < 64 && a.0 >> origin & 1 == 1
    }

    ghost rising = { λ _ _ rises. rises };
}
