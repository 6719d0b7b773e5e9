//! What the tables share.

use native_programs::Place::Free;
use native_programs::{End, Exit, Place};
use native_protocol::ErrorKind;

// The registers behind those of conversions.

/// What was read or made for a request.
pub(crate) const MADE: Place = Free(2);

/// What is given.
pub(crate) const GAVE: Place = Free(3);

/// What isn't what it is to be.
pub(crate) const TYPE_ERROR: Exit = Exit::Ends(End::Throw(ErrorKind::TypeError));
