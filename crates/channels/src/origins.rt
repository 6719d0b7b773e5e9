//! Origins that join a set.

ghost use Rattle.std.specs.Prelude.{◌≡◌, IfOk};
ghost use Rattle.origin_labels.specs.Label.{with_origin};
ghost use Rattle.channels.specs.Clauses.{origin_in};

use flow_text::OutOfMemory;
use js_number::Primitive;
use native_protocol::Seen;
use origin_labels::{OriginList, Origins};
use std::alloc::Global;

/// The number of the declared origin that a value names.
pub(crate) fn origin_in(names: &Origins, seen: &Seen) -> Option<u32>
    ensures { result ≡ origin_in names.now seen.now }
{
    match seen {
        Seen::Prim(Primitive::Str(name)) => names.index_of(name),
        _ => None,
    }
}

/// The set with an origin, in its place.
pub(crate) fn with_origin(
    alloc: Global,
    set: &OriginList,
    origin: u32,
) -> Result<OriginList, OutOfMemory>
    ensures { IfOk result (λ grown. grown ≡ with_origin origin set.now) }
{
    let mut grown = OriginList::new(alloc);
    for item in set.items() {
        if *item < origin {
            grown.push(*item)?;
        }
    }
    grown.push(origin)?;
    for item in set.items() {
        if origin < *item {
            grown.push(*item)?;
        }
    }
    Ok(grown)
}

/// The same set.
pub(crate) fn copy_of(alloc: Global, set: &OriginList) -> Result<OriginList, OutOfMemory>
    ensures { IfOk result (λ copied. copied ≡ set.now) }
{
    let mut copied = OriginList::new(alloc);
    for item in set.items() {
        copied.push(*item)?;
    }
    Ok(copied)
}
