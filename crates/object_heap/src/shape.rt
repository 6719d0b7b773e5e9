//! What an object is besides its properties and its inner part.

use js_values::{Class, ObjId};

/// The class, the prototype, and whether properties can be added. `link` is the label of the prototype, and `structure` that of which properties there are.
#[derive(Clone, Copy, Debug)]
pub struct Shape<T> {
    pub class: Class,
    pub proto: Option<ObjId>,
    pub link: T,
    pub structure: T,
    pub extensible: bool,
}
