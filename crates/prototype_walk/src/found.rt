//! What a walk to a property finds.

use js_values::ObjId;

/// The object that has the property, if one has it, and the label of the walk to it.
#[derive(Clone, Copy)]
pub struct Found<T> {
    pub at: Option<ObjId>,
    pub walk: T,
}
