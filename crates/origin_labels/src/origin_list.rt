//! Origins in rising order.

ghost use Rattle.std.specs.Prelude.{◌≡◌, ◌<◌, [], ◌∷◌, ◌++◌, OnOk, OnErr};
ghost use Rattle.std.specs.List.{All};
ghost use Rattle.origin_labels.specs.Label.{IsLabel};

use flow_text::OutOfMemory;
use std::alloc::Global;
use std::marker::Model;

/// A set of origins as the list of their numbers in rising order.
#[derive(Drop)]
pub struct OriginList {
    origins: Vec<u32>,
}

impl Model for OriginList {
    ghost use Rattle.std.specs.Prelude.{List, ℕ};
    ghost use Rattle.origin_labels.specs.Label.{IsLabel};

    ghost Value = { List ℕ };

    ghost view = { λ l. l.origins.items };

    ghost invariant = { λ l. IsLabel l.origins.items };
}

impl OriginList {
    /// The empty list. It takes no memory.
    pub fn new(alloc: Global) -> OriginList
        ensures { result ≡ [] }
    {
        OriginList {
            origins: Vec::new(alloc),
        }
    }

    /// Adds an origin above the last one.
    pub fn push(&mut self, origin: u32) -> Result<(), OutOfMemory>
        requires { All (λ other. other < origin) self.old }
        ensures ok { OnOk result (self.new ≡ self.old ++ origin ∷ []) }
        ensures unchanged { OnErr result (self.new ≡ self.old) }
    {
        self.origins.push(origin)?;
        Ok(())
    }

    pub fn items(&self) -> &[u32]
        ensures items { result.now ≡ self.now }
        ensures rising { IsLabel self.now }
    {
        &self.origins
    }
}
