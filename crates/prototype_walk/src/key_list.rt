//! The keys of an enumeration.

use js_values::KeyRow;

/// The keys that `for in` takes, and the label on which they depend.
#[derive(Drop)]
pub struct KeyList<T> {
    pub keys: KeyRow,
    pub walk: T,
}
