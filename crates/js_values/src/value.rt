//! Values, and values with labels.

ghost use Rattle.std.specs.Prelude.{◌≡◌, IfOk};

use crate::ids::ObjId;
use flow_text::OutOfMemory;
use js_number::Primitive;
use std::alloc::Global;

/// A value of the language (ECMA-262 8).
#[derive(Debug, Drop, PartialEq, Eq)]
pub enum Value {
    Primitive(Primitive),
    Object(ObjId),
}

impl Value {
    /// The same value.
    pub fn copy(&self, alloc: Global) -> Result<Value, OutOfMemory>
        ensures { IfOk result (λ v. v ≡ self.now) }
    {
        Ok(match self {
            Value::Primitive(p) => Value::Primitive(p.copy(alloc)?),
            Value::Object(o) => Value::Object(*o),
        })
    }
}

/// A value with the label of all that it depends on.
#[derive(Debug, Drop)]
pub struct Labelled<T> {
    pub value: Value,
    pub label: T,
}

impl<T: Copy> Labelled<T> {
    /// The same value with the same label.
    pub fn copy(&self, alloc: Global) -> Result<Labelled<T>, OutOfMemory>
        ensures { IfOk result (λ v. v ≡ self.now) }
    {
        Ok(Labelled {
            value: self.value.copy(alloc)?,
            label: self.label,
        })
    }
}
