//! Keys of properties that functions and calls make, and the name of `this`.

ghost use Rattle.std.specs.Prelude.{◌≡◌, IfOk, codes};

use flow_text::{OutOfMemory, Text};
use js_values::Key;
use std::alloc::Global;

/// `length`
const LENGTH: [u16; 6] = [0x6C, 0x65, 0x6E, 0x67, 0x74, 0x68];

/// `prototype`
const PROTOTYPE: [u16; 9] = [0x70, 0x72, 0x6F, 0x74, 0x6F, 0x74, 0x79, 0x70, 0x65];

/// `caller`
const CALLER: [u16; 6] = [0x63, 0x61, 0x6C, 0x6C, 0x65, 0x72];

/// `arguments`
const ARGUMENTS: [u16; 9] = [0x61, 0x72, 0x67, 0x75, 0x6D, 0x65, 0x6E, 0x74, 0x73];

/// `callee`
const CALLEE: [u16; 6] = [0x63, 0x61, 0x6C, 0x6C, 0x65, 0x65];

/// `constructor`
const CONSTRUCTOR: [u16; 11] = [
    0x63, 0x6F, 0x6E, 0x73, 0x74, 0x72, 0x75, 0x63, 0x74, 0x6F, 0x72,
];

/// `this`
const THIS: [u16; 4] = [0x74, 0x68, 0x69, 0x73];

/// The keys of properties that function objects, `arguments` objects and constructions have, and the name under which records bind `this`. A copy shares their texts.
#[derive(Drop)]
pub struct KnownKeys {
    length: Key,
    prototype: Key,
    caller: Key,
    arguments: Key,
    callee: Key,
    constructor: Key,
    this: Text,

    ghost length_is: { length ≡ codes "length" },

    ghost prototype_is: { prototype ≡ codes "prototype" },

    ghost caller_is: { caller ≡ codes "caller" },

    ghost arguments_is: { arguments ≡ codes "arguments" },

    ghost callee_is: { callee ≡ codes "callee" },

    ghost constructor_is: { constructor ≡ codes "constructor" },

    ghost this_is: { this ≡ codes "this" },
}

impl KnownKeys {
    /// All of them.
    pub(crate) fn new(alloc: Global) -> Result<KnownKeys, OutOfMemory> {
        let length = key_of(alloc, &LENGTH)?;
        let prototype = key_of(alloc, &PROTOTYPE)?;
        let caller = key_of(alloc, &CALLER)?;
        let arguments = key_of(alloc, &ARGUMENTS)?;
        let callee = key_of(alloc, &CALLEE)?;
        let constructor = key_of(alloc, &CONSTRUCTOR)?;
        let this = text_of(alloc, &THIS)?;
        Ok(KnownKeys {
            length,
            prototype,
            caller,
            arguments,
            callee,
            constructor,
            this,
        })
    }

    /// `length`
    pub fn length(&self) -> &Key
        ensures { result.now ≡ codes "length" }
    {
        &self.length
    }

    /// `prototype`
    pub fn prototype(&self) -> &Key
        ensures { result.now ≡ codes "prototype" }
    {
        &self.prototype
    }

    /// `caller`
    pub fn caller(&self) -> &Key
        ensures { result.now ≡ codes "caller" }
    {
        &self.caller
    }

    /// `arguments`
    pub fn arguments(&self) -> &Key
        ensures { result.now ≡ codes "arguments" }
    {
        &self.arguments
    }

    /// `callee`
    pub fn callee(&self) -> &Key
        ensures { result.now ≡ codes "callee" }
    {
        &self.callee
    }

    /// `constructor`
    pub fn constructor(&self) -> &Key
        ensures { result.now ≡ codes "constructor" }
    {
        &self.constructor
    }

    /// `this`
    pub fn this(&self) -> &Text
        ensures { result.now ≡ codes "this" }
    {
        &self.this
    }
}

// The text of these units.
fn text_of(alloc: Global, units: &[u16]) -> Result<Text, OutOfMemory>
    ensures { IfOk result (λ text. text ≡ units.now) }
{
    let mut text = Text::new(alloc);
    text.push_units(units)?;
    Ok(text)
}

// The key of these units.
fn key_of(alloc: Global, units: &[u16]) -> Result<Key, OutOfMemory>
    ensures { IfOk result (λ key. key ≡ units.now) }
{
    Ok(Key::new(text_of(alloc, units)?))
}
