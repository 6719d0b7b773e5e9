//! What an act comes to.

use flow_text::Text;
use js_values::{EnvId, Labelled, ObjId};
use native_protocol::GivenMarks;

/// What an act comes to, where no flow rule stops it and there is memory.
#[derive(Drop)]
pub enum Outcome<X, T> {
    /// It goes on with this.
    Goes(X),
    /// This is thrown, and the frames that it passed were left.
    Throws(Labelled<T>),
    /// The run leaves the language.
    Leaves(Leaving),
}

/// What a read comes to (ECMA-262 8.12.3): a value; or a getter, which is called with this `this` in a frame that has the label.
#[derive(Drop)]
pub enum Access<T> {
    Value(Labelled<T>),
    Getter {
        label: T,
        function: ObjId,
        this: Labelled<T>,
    },
}

/// What a put comes to (ECMA-262 8.12.5): it is done; a setter is called with this `this` in a frame that has the label; or the `length` of an array is set, by a
/// base, a key and a walk with this label.
#[derive(Drop)]
pub enum Putting<T> {
    Put,
    Setter {
        label: T,
        function: ObjId,
        this: Labelled<T>,
    },
    Length {
        label: T,
        array: ObjId,
    },
}

/// What a definition comes to: it is done, and depends on this label; or the `length` of an array is given a value beside these attributes, by a base and a key
/// with this label.
#[derive(Clone, Copy)]
pub enum Defining<T> {
    Defined {
        label: T,
    },
    Length {
        label: T,
        array: ObjId,
        marks: GivenMarks,
    },
}

/// How the `length` of an array is set (ECMA-262 15.4.5.1): by a put, or by a definition that gives these attributes besides.
#[derive(Clone, Copy, Debug, PartialEq, Eq)]
pub enum SetLength {
    Put,
    Define(GivenMarks),
}

/// Why a run leaves the language.
#[derive(Drop)]
pub enum Leaving {
    /// A number that the language doesn't have.
    Number,
    /// A text that is too long.
    String,
    /// A channel that the policy doesn't have.
    Channel,
    /// An origin that the policy doesn't have.
    Origin,
    /// A primitive value that would be wrapped in an object.
    Wrapper,
    /// What a built-in doesn't offer, by its name.
    Named(Text),
}

/// Where a name stands (ECMA-262 10.2.2.1): in a record, on the global object or a prototype of it, or nowhere.
#[derive(Clone, Copy, Debug, PartialEq, Eq)]
pub enum Place {
    Record(EnvId),
    Global,
    Nowhere,
}

/// A name that is resolved (ECMA-262 8.7), with the label of the walk along the global object, on which its place depends.
#[derive(Clone, Copy)]
pub struct Named<'p, T> {
    pub name: &'p Text,
    pub place: Place,
    pub walk: T,
}
