//! Properties of objects.

use crate::ids::ObjId;
use crate::value::Value;

/// The attributes of a property (ECMA-262 8.6.1). Of an accessor `writable` is false, but for the time between the two halves of a definition.
#[derive(Clone, Copy, Debug, PartialEq, Eq)]
pub struct Marks {
    pub writable: bool,
    pub enumerable: bool,
    pub configurable: bool,
}

/// What a property holds: a value, or a getter and a setter.
#[derive(Debug, Drop)]
pub enum Body {
    Data(Value),
    Accessor {
        get: Option<ObjId>,
        set: Option<ObjId>,
    },
}

/// A property: what it holds with the label of that, and the label of its being there.
#[derive(Debug, Drop)]
pub struct Slot<T> {
    pub body: Body,
    pub label: T,
    pub existence: T,
    pub marks: Marks,
}
