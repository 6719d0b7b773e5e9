//! What several tables share.

use native_programs::Place::Free;
use native_programs::{End, Exit, Place, Reason};
use native_protocol::ErrorKind;

// The registers behind those of conversions.

/// What was made for a request.
pub(crate) const MADE: Place = Free(2);

/// A new array.
pub(crate) const ARRAY: Place = Free(3);

/// What isn't what it is to be.
pub(crate) const TYPE_ERROR: Exit = Exit::Ends(End::Throw(ErrorKind::TypeError));

/// A number that is out of its range.
pub(crate) const RANGE_ERROR: Exit = Exit::Ends(End::Throw(ErrorKind::RangeError));

/// A step that needs a wrapper.
pub(crate) const WRAPPER: Exit = Exit::Ends(End::Leave(Reason::Wrapper));
