//! Numbers by which objects and records are known.

/// An object, by its number in the heap.
#[derive(Clone, Copy, Debug, PartialEq, Eq)]
pub struct ObjId(pub u64);

/// A record of variables, by its number.
#[derive(Clone, Copy, Debug, PartialEq, Eq)]
pub struct EnvId(pub u64);
