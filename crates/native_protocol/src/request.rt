//! What a built-in asks for, and what it is told.

ghost use Rattle.std.specs.Prelude.{◌≡◌};
ghost use Rattle.native_protocol.specs.Steps.{seen_in, is_function, is_object, is_text};

use crate::registers::{Reg, RegList};
use flow_text::Text;
use js_number::Primitive;
use js_values::{Class, Key};
use origin_labels::OriginList;

/// The kinds of errors (ECMA-262 15.11).
#[derive(Clone, Copy, Debug, PartialEq, Eq)]
pub enum ErrorKind {
    Error,
    EvalError,
    RangeError,
    ReferenceError,
    SyntaxError,
    TypeError,
    UriError,
}

/// The marks that a definition names (ECMA-262 8.10).
#[derive(Clone, Copy, Debug, PartialEq, Eq)]
pub struct GivenMarks {
    pub writable: Option<bool>,
    pub enumerable: Option<bool>,
    pub configurable: Option<bool>,
}

/// What a built-in asks of the machine. Values stay in registers, and a request names those that it reads and writes.
#[derive(Drop)]
pub enum Request {
    /// What a register holds. Only this tells the built-in anything.
    Look {
        reg: Reg,
    },
    /// A primitive value is put into a register.
    Make {
        value: Primitive,
        to: Reg,
    },
    /// A register's value is put into another.
    Copy {
        from: Reg,
        to: Reg,
    },
    /// Whether two values are equal by `===` (ECMA-262 11.9.6).
    Same {
        a: Reg,
        b: Reg,
        to: Reg,
    },
    /// [[Get]].
    Get {
        base: Reg,
        key: Key,
        to: Reg,
    },
    /// [[HasProperty]].
    Has {
        base: Reg,
        key: Key,
        to: Reg,
    },
    /// [[Put]] that throws.
    Put {
        base: Reg,
        key: Key,
        from: Reg,
    },
    /// [[Delete]] that throws.
    Delete {
        base: Reg,
        key: Key,
        to: Reg,
    },
    /// The own property: `marks` gets undefined where there is none, else the sum of 1 for writable, 2 for enumerable, 4 for configurable
    /// and 8 for an accessor.
    Own {
        base: Reg,
        key: Key,
        marks: Reg,
        value: Reg,
        get: Reg,
        set: Reg,
    },
    /// [[DefineOwnProperty]] that throws.
    Define {
        base: Reg,
        key: Key,
        marks: GivenMarks,
        value: Option<Reg>,
        get: Option<Reg>,
        set: Option<Reg>,
    },
    /// A new array of the own keys: all, or the enumerable ones.
    Keys {
        base: Reg,
        all: bool,
        to: Reg,
    },
    /// The prototype.
    Proto {
        base: Reg,
        to: Reg,
    },
    /// Whether properties can be added.
    Extensible {
        base: Reg,
        to: Reg,
    },
    /// No properties can be added from now on.
    Prevent {
        base: Reg,
    },
    /// A new object. Without a register it has the prototype that chapter 15 gives its class, and where the register holds null it has none.
    New {
        class: Class,
        proto: Option<Reg>,
        to: Reg,
    },
    /// A call.
    Call {
        callee: Reg,
        this: Reg,
        args: RegList,
        to: Reg,
    },
    /// A construction.
    Construct {
        callee: Reg,
        args: RegList,
        to: Reg,
    },
    /// A bound function.
    Bind {
        target: Reg,
        this: Reg,
        args: RegList,
        to: Reg,
    },
    /// The next line of an input channel.
    ReadLine {
        name: Reg,
        to: Reg,
    },
    /// A line on an output channel.
    PrintLine {
        name: Reg,
        from: Reg,
    },
    /// A value with more origins in its label.
    Label {
        from: Reg,
        origins: OriginList,
        to: Reg,
    },
    /// The origins join an object's structure label.
    RaiseStructure {
        base: Reg,
        origins: OriginList,
    },
    /// The origins join a property's existence label.
    RaiseExistence {
        base: Reg,
        key: Key,
        origins: OriginList,
    },
    /// The end of the call, with its value.
    Return {
        from: Reg,
    },
    /// The end of the call by a throw.
    Throw {
        from: Reg,
    },
    /// The end of the call by the throw of a new error.
    ThrowNew {
        kind: ErrorKind,
    },
    /// The end of the run, by the name of what isn't offered.
    Leave {
        name: Text,
    },
}

/// What a look tells: a primitive value whole, and of an object its class.
#[derive(Drop)]
pub enum Seen {
    Prim(Primitive),
    Object(Class),
}

/// What a built-in is told: that it begins, that what it asked for is done, or what a look saw.
#[derive(Drop)]
pub enum Answer {
    Begin,
    Done,
    Seen(Seen),
}

impl Seen {
    /// Whether it can be called: an object of class Function.
    pub fn is_function(&self) -> bool
        ensures { result ≡ is_function self.now }
    {
        matches!(self, Seen::Object(Class::Function))
    }

    /// Whether it is an object.
    pub fn is_object(&self) -> bool
        ensures { result ≡ is_object self.now }
    {
        matches!(self, Seen::Object(_))
    }

    /// Whether it is a text.
    pub fn is_text(&self) -> bool
        ensures { result ≡ is_text self.now }
    {
        matches!(self, Seen::Prim(Primitive::Str(_)))
    }
}

impl Answer {
    /// What a look saw. Any other answer tells undefined.
    pub fn seen(self) -> Seen
        ensures { result ≡ seen_in self }
    {
        match self {
            Answer::Seen(seen) => seen,
            Answer::Begin | Answer::Done => Seen::Prim(Primitive::Undefined),
        }
    }
}
