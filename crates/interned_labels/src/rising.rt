//! Sets of origins as rising lists.

ghost use Rattle.std.specs.Prelude.{◌≡◌, IfOk};
ghost use Rattle.origin_labels.specs.Label.{IsLabel, union, within};

use flow_text::OutOfMemory;
use std::alloc::Global;

/// The union of two sets.
pub(crate) fn union_of(alloc: Global, a: &[u32], b: &[u32]) -> Result<Vec<u32>, OutOfMemory>
    requires first { IsLabel a.now }
    requires second { IsLabel b.now }
    ensures { IfOk result (λ set. set.items ≡ union a.now b.now) }
{
    let mut set = Vec::with_capacity(alloc, a.len() + b.len())?;
    let mut i = 0;
    let mut j = 0;
    while i < a.len() && j < b.len() {
        let (x, y) = (a[i], b[j]);
        set.push(x.min(y))?;
        i += usize::from(x <= y);
        j += usize::from(y <= x);
    }
    set.extend_from_slice(&a[i..])?;
    set.extend_from_slice(&b[j..])?;
    set.shrink_to_fit();
    Ok(set)
}

/// Whether the first set is included in the second.
pub(crate) fn is_included(a: &[u32], b: &[u32]) -> bool
    requires first { IsLabel a.now }
    requires second { IsLabel b.now }
    ensures { result ≡ within a.now b.now }
{
    // The origins of `a` before this place were found.
    let mut i = 0;
    for origin in b {
        if i < a.len() && a[i] == *origin {
            i += 1;
        }
    }
    i == a.len()
}
