//! How a call ends where an object is needed and there is none.

ghost use Rattle.std.specs.Prelude.{◌≡◌};
ghost use Rattle.object_functions.specs.Needs.{unless_object, unless_converted, ready_or};

use js_number::Primitive;
use native_protocol::{ErrorKind, Progress, Seen};
use primitive_natives::{Ending, Left};

/// Where the type must be Object.
pub(crate) fn unless_object(seen: &Seen) -> Option<Ending>
    ensures { result ≡ unless_object seen.now }
{
    match seen {
        Seen::Object(_) => None,
        Seen::Prim(_) => Some(Ending::Throw {
            kind: ErrorKind::TypeError,
        }),
    }
}

/// Where ToObject is applied (ECMA-262 9.9).
pub(crate) fn unless_converted(seen: &Seen) -> Option<Ending>
    ensures { result ≡ unless_converted seen.now }
{
    match seen {
        Seen::Object(_) => None,
        Seen::Prim(Primitive::Undefined) | Seen::Prim(Primitive::Null) => Some(Ending::Throw {
            kind: ErrorKind::TypeError,
        }),
        Seen::Prim(_) => Some(Ending::Leave { why: Left::Wrapper }),
    }
}

/// The call ends so, or goes on.
pub(crate) fn ready_or<S: Drop>(ending: Option<Ending>, state: S) -> Progress<S, Ending>
    ensures { result ≡ ready_or ending state }
{
    match ending {
        Some(ending) => Progress::Ready(ending),
        None => Progress::Going(state),
    }
}
