//! Keys with what was described for them.

ghost use Rattle.std.specs.Prelude.{◌≡◌, [], ◌∷◌, ◌++◌, length, IfOk};
ghost use Rattle.descriptor_pieces.specs.DefiningPieces.{split_first};

use crate::property::Description;
use flow_text::OutOfMemory;
use js_values::Key;
use std::alloc::Global;
use std::collections::VecDeque;
use std::marker::Model;

/// A key with a description of a property.
#[derive(Drop)]
pub struct Described {
    pub key: Key,
    pub description: Description,
}

/// Keys with their descriptions, in order.
#[derive(Drop)]
pub struct Descriptions {
    queue: VecDeque<Described>,
}

impl Model for Descriptions {
    ghost use Rattle.std.specs.Prelude.{List};
    ghost use Rattle.descriptor_pieces.specs.declared.described.Described.{Described};

    ghost Value = { List Described };

    ghost view = { λ d. d.queue.items };
}

impl Descriptions {
    /// None. It takes no memory.
    pub fn new(alloc: Global) -> Descriptions
        ensures { result ≡ [] }
    {
        Descriptions {
            queue: VecDeque::new(alloc),
        }
    }

    /// How many.
    pub fn len(&self) -> usize
        ensures { result ≡ length self.now }
    {
        self.queue.len()
    }

    /// With one more at the end.
    pub fn with(self, described: Described) -> Result<Descriptions, OutOfMemory>
        ensures { IfOk result (λ all. all ≡ self ++ described ∷ []) }
    {
        let mut queue = self.queue;
        queue.push_back(described)?;
        Ok(Descriptions { queue })
    }

    /// The first, and the others.
    pub fn split_first(self) -> Option<(Described, Descriptions)>
        ensures { result ≡ split_first self }
    {
        let mut queue = self.queue;
        let first = queue.pop_front()?;
        Some((first, Descriptions { queue }))
    }
}
