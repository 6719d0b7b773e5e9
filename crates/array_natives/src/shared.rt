//! What several tables share.

use native_programs::Place::Free;
use native_programs::{End, Exit, Fresh, Place};
use native_protocol::ErrorKind;

// The registers after those of conversions: what was made for the next request, what a call gave, an element, whether there is one, what
// a deletion gave, a new array, and a value that is kept.

/// What was made for a request.
pub(crate) const MADE: Place = Free(2);

/// What a call gave.
pub(crate) const GAVE: Place = Free(3);

/// An element.
pub(crate) const ELEMENT: Place = Free(4);

/// The element at the other end.
pub(crate) const OTHER: Place = Free(5);

/// Whether there is an element.
pub(crate) const PRESENT: Place = Free(6);

/// Whether there is one at the other end.
pub(crate) const OTHER_PRESENT: Place = Free(7);

/// What a deletion gave, which nothing reads.
pub(crate) const DELETED: Place = Free(8);

/// A new array.
pub(crate) const ARRAY: Place = Free(9);

/// What was made of the elements so far.
pub(crate) const TOTAL: Place = Free(10);

/// A register that nothing writes: undefined.
pub(crate) const NOTHING: Place = Free(11);

/// What isn't what it is to be.
pub(crate) const TYPE_ERROR: Exit = Exit::Ends(End::Throw(ErrorKind::TypeError));

/// No such element.
pub(crate) const NOT_FOUND: End = End::Give(Fresh::Whole(-1));
