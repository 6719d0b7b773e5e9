//! Where a name is bound.

use js_values::EnvId;

/// A record, and a place among its bindings.
#[derive(Clone, Copy)]
pub struct BindingPlace {
    pub record: EnvId,
    pub place: usize,
}
