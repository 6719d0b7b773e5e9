//! What a put does.

use js_values::ObjId;

/// What a put does: it writes the object's own property, adds one, calls the setter of the property of the object `at`, or is refused. `walk` is the label on
/// which that depends.
#[derive(Clone, Copy)]
pub enum PutPlan<T> {
    Write { walk: T },
    Add { walk: T },
    Setter { at: ObjId, walk: T },
    Refused { walk: T },
}
