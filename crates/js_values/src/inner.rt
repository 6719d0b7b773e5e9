//! What an object is besides its properties.

ghost use Rattle.std.specs.Prelude.{◌≡◌, List, [], ◌∷◌, ◌++◌, IfOk, OnOk, OnErr};
ghost use Rattle.js_values.specs.declared.value.Labelled.{Labelled};

use crate::ids::{EnvId, ObjId};
use crate::value::Labelled;
use flow_text::OutOfMemory;
use std::alloc::Global;
use std::marker::Model;

/// The class of an object (ECMA-262 8.6.2).
#[derive(Clone, Copy, Debug, PartialEq, Eq)]
pub enum Class {
    Object,
    Function,
    Array,
    Arguments,
    Error,
    Math,
    Json,
    String,
    Number,
    Boolean,
}

/// Values with their labels, in order.
#[derive(Debug, Drop)]
pub struct ArgList<T> {
    items: Vec<Labelled<T>>,
}

impl<T> Model for ArgList<T> {
    ghost Value = { List (Labelled T) };

    ghost view = { λ l. l.items.items };
}

impl<T: Drop> ArgList<T> {
    /// No values. It takes no memory.
    pub fn new(alloc: Global) -> ArgList<T>
        ensures { result ≡ [] }
    {
        ArgList {
            items: Vec::new(alloc),
        }
    }

    /// Appends a value.
    pub fn push(&mut self, item: Labelled<T>) -> Result<(), OutOfMemory>
        ensures ok { OnOk result (self.new ≡ self.old ++ item ∷ []) }
        ensures unchanged { OnErr result (self.new ≡ self.old) }
    {
        self.items.push(item)?;
        Ok(())
    }

    /// The values.
    pub fn items(&self) -> &[Labelled<T>]
        ensures { result.now ≡ self.now }
    {
        &self.items
    }
}

/// What an object holds besides its properties: nothing, a function of the script with the record that it closes over, a built-in,
/// or what a bound function calls, with the label of that, the `this` and the first arguments of the call.
#[derive(Debug, Drop)]
pub enum Inner<T> {
    Plain,
    Script {
        function: u32,
        env: EnvId,
    },
    Native {
        which: u32,
    },
    Bound {
        target: ObjId,
        label: T,
        this: Labelled<T>,
        args: ArgList<T>,
    },
}
