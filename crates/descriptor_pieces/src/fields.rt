//! The fields of a property descriptor (ECMA-262 8.10).

ghost use Rattle.std.specs.Prelude.{◌≡◌, IfOk};
ghost use Rattle.descriptor_pieces.specs.Fields.{field_name, next_field};

use flow_text::{OutOfMemory, Text};
use js_values::Key;
use std::alloc::Global;

/// A field that holds true or false.
#[derive(Clone, Copy, Debug, PartialEq, Eq)]
pub enum Mark {
    Writable,
    Enumerable,
    Configurable,
}

/// A field that holds one of an accessor's two functions.
#[derive(Clone, Copy, Debug, PartialEq, Eq)]
pub enum Half {
    Get,
    Set,
}

/// A field of a property descriptor.
#[derive(Clone, Copy, Debug, PartialEq, Eq)]
pub enum Field {
    Mark(Mark),
    Value,
    Half(Half),
}

impl Field {
    /// The name of the property that stands for it.
    #[tactic(auto, using(crate::proofs::Words::words))]
    pub fn key(self, alloc: Global) -> Result<Key, OutOfMemory>
        ensures { IfOk result (λ key. key ≡ field_name self) }
    {
        let name = match self {
            Field::Mark(Mark::Writable) => "writable",
            Field::Mark(Mark::Enumerable) => "enumerable",
            Field::Mark(Mark::Configurable) => "configurable",
            Field::Value => "value",
            Field::Half(Half::Get) => "get",
            Field::Half(Half::Set) => "set",
        };
        Ok(Key::new(Text::spelled(alloc, name)?))
    }

    /// The field that is read behind it.
    pub fn next(self) -> Option<Field>
        ensures { result ≡ next_field self }
    {
        match self {
            Field::Mark(Mark::Enumerable) => Some(Field::Mark(Mark::Configurable)),
            Field::Mark(Mark::Configurable) => Some(Field::Value),
            Field::Value => Some(Field::Mark(Mark::Writable)),
            Field::Mark(Mark::Writable) => Some(Field::Half(Half::Get)),
            Field::Half(Half::Get) => Some(Field::Half(Half::Set)),
            Field::Half(Half::Set) => None,
        }
    }
}
