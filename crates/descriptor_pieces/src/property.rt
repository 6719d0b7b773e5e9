//! Properties as built-ins see them: marks that were looked at, and registers.

ghost use Rattle.std.specs.Prelude.{◌≡◌, IfOk};
ghost use Rattle.descriptor_pieces.specs.Properties.{registers_from, place, marks_in, mark_of, fixed, is_open, description_of, nothing, with_mark, with_value, with_half, is_mixed, define};
ghost use Rattle.descriptor_pieces.specs.Fixing.{own_asked};

use crate::fields::{Field, Half, Mark};
use flow_text::OutOfMemory;
use js_number::Primitive;
use js_values::Key;
use native_protocol::{GivenMarks, Reg, Request, Seen};
use std::alloc::Global;

/// The registers of a property: for its marks, its value, its getter and its setter.
#[derive(Clone, Copy)]
pub struct PropertyRegisters {
    pub marks: Reg,
    pub value: Reg,
    pub get: Reg,
    pub set: Reg,
}

impl PropertyRegisters {
    /// Four registers in a row.
    pub fn from(first: u64) -> Result<PropertyRegisters, OutOfMemory>
        ensures { IfOk result (λ r. r ≡ registers_from first) }
    {
        let Some(last) = first.checked_add(3) else {
            return Err(OutOfMemory);
        };
        Ok(PropertyRegisters {
            marks: Reg(first),
            value: Reg(first + 1),
            get: Reg(first + 2),
            set: Reg(last),
        })
    }

    /// The own property of that key is put into them.
    pub fn own(&self, base: Reg, key: Key) -> Request
        ensures { result ≡ own_asked base key self.now }
    {
        Request::Own {
            base,
            key,
            marks: self.marks,
            value: self.value,
            get: self.get,
            set: self.set,
        }
    }

    /// The register of a field. The marks are looked at in one.
    pub fn place(&self, field: Field) -> Reg
        ensures { result ≡ place self.now field }
    {
        match field {
            Field::Mark(_) => self.marks,
            Field::Value => self.value,
            Field::Half(Half::Get) => self.get,
            Field::Half(Half::Set) => self.set,
        }
    }
}

/// How far a property is to be fixed: so that it can't be configured, or can't be written either (ECMA-262 15.2.3.8, 15.2.3.9).
#[derive(Clone, Copy, Debug, PartialEq, Eq)]
pub enum Integrity {
    Sealed,
    Frozen,
}

/// The marks of an own property.
#[derive(Clone, Copy)]
pub struct OwnMarks {
    pub writable: bool,
    pub enumerable: bool,
    pub configurable: bool,
    pub accessor: bool,
}

impl OwnMarks {
    /// Those of the property of which an `Own` told, where there is one.
    pub fn seen(seen: &Seen) -> Option<OwnMarks>
        ensures { result ≡ marks_in seen.now }
    {
        match seen {
            Seen::Prim(Primitive::Num(n)) => {
                let sum = n.to_integer().unsigned_abs();
                Some(OwnMarks {
                    writable: sum % 2 == 1,
                    enumerable: sum / 2 % 2 == 1,
                    configurable: sum / 4 % 2 == 1,
                    accessor: sum / 8 % 2 == 1,
                })
            }
            _ => None,
        }
    }

    /// One of them.
    pub fn mark(&self, mark: Mark) -> bool
        ensures { result ≡ mark_of self.now mark }
    {
        match mark {
            Mark::Writable => self.writable,
            Mark::Enumerable => self.enumerable,
            Mark::Configurable => self.configurable,
        }
    }

    /// Those that it has where it is fixed so far.
    pub fn fixed(self, integrity: Integrity) -> OwnMarks
        ensures { result ≡ fixed integrity self }
    {
        match integrity {
            Integrity::Sealed => OwnMarks {
                configurable: false,
                ..self
            },
            Integrity::Frozen => OwnMarks {
                configurable: false,
                writable: false,
                ..self
            },
        }
    }

    /// Whether it isn't fixed so far.
    pub fn is_open(&self, integrity: Integrity) -> bool
        ensures { result ≡ is_open integrity self.now }
    {
        match integrity {
            Integrity::Sealed => self.configurable,
            Integrity::Frozen => !self.accessor && self.writable || self.configurable,
        }
    }
}

/// What a definition names: marks, and the registers of the value, the getter and the setter.
#[derive(Clone, Copy)]
pub struct Description {
    pub marks: GivenMarks,
    pub value: Option<Reg>,
    pub get: Option<Reg>,
    pub set: Option<Reg>,
}

impl Description {
    /// One that names nothing.
    pub fn nothing() -> Description
        ensures { result ≡ nothing }
    {
        Description {
            marks: GivenMarks {
                writable: None,
                enumerable: None,
                configurable: None,
            },
            value: None,
            get: None,
            set: None,
        }
    }

    /// The whole own property of these marks and registers.
    pub fn own(own: &PropertyRegisters, marks: OwnMarks) -> Description
        ensures { result ≡ description_of own.now marks }
    {
        let enumerable = Some(marks.enumerable);
        let configurable = Some(marks.configurable);
        if marks.accessor {
            Description {
                marks: GivenMarks {
                    writable: None,
                    enumerable,
                    configurable,
                },
                value: None,
                get: Some(own.get),
                set: Some(own.set),
            }
        } else {
            Description {
                marks: GivenMarks {
                    writable: Some(marks.writable),
                    enumerable,
                    configurable,
                },
                value: Some(own.value),
                get: None,
                set: None,
            }
        }
    }

    /// With a mark.
    pub fn with_mark(self, mark: Mark, on: bool) -> Description
        ensures { result ≡ with_mark mark on self }
    {
        let marks = match mark {
            Mark::Writable => GivenMarks {
                writable: Some(on),
                ..self.marks
            },
            Mark::Enumerable => GivenMarks {
                enumerable: Some(on),
                ..self.marks
            },
            Mark::Configurable => GivenMarks {
                configurable: Some(on),
                ..self.marks
            },
        };
        Description { marks, ..self }
    }

    /// With the value in a register.
    pub fn with_value(self, at: Reg) -> Description
        ensures { result ≡ with_value at self }
    {
        Description {
            value: Some(at),
            ..self
        }
    }

    /// With one half of an accessor in a register.
    pub fn with_half(self, half: Half, at: Reg) -> Description
        ensures { result ≡ with_half half at self }
    {
        match half {
            Half::Get => Description {
                get: Some(at),
                ..self
            },
            Half::Set => Description {
                set: Some(at),
                ..self
            },
        }
    }

    /// Whether it names a half of an accessor and also what only data has.
    pub fn is_mixed(&self) -> bool
        ensures { result ≡ is_mixed self.now }
    {
        (self.get.is_some() || self.set.is_some())
            && (self.value.is_some() || self.marks.writable.is_some())
    }

    /// The definition of an object's property as it says.
    pub fn define(&self, base: Reg, key: Key) -> Request
        ensures { result ≡ define base key self.now }
    {
        Request::Define {
            base,
            key,
            marks: self.marks,
            value: self.value,
            get: self.get,
            set: self.set,
        }
    }
}
