//! What labels mean, as lists.

ghost use Rattle.std.specs.Prelude.{◌≡◌, ◌<◌, IfOk};
ghost use Rattle.std.specs.List.{All};

use flow_text::OutOfMemory;
use origin_labels::{Labels, OriginList};
use std::alloc::Global;

/// The set of origins that a label of the store means, of which all are below a number.
pub fn origins_in<L: Labels>(
    alloc: Global,
    labels: &L,
    label: L::Label,
    origins: u32,
) -> Result<OriginList, OutOfMemory>
    requires made { L.made labels.now label }
    requires declared { All (λ origin. origin < origins) (L.meaning labels.now label) }
    ensures { IfOk result (λ list. list ≡ L.meaning labels.now label) }
{
    let mut list = OriginList::new(alloc);
    for origin in 0..origins {
        if labels.has(label, origin) {
            list.push(origin)?;
        }
    }
    Ok(list)
}
