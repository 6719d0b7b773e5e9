//! What looks are to see.

ghost use Rattle.std.specs.Prelude.{◌≡◌};
ghost use Rattle.native_programs.specs.Choosing.{sees, is_undefined, is_null, is_true, is_number};

use crate::line::Sight;
use js_number::{Primitive, to_boolean};
use js_values::Class;
use native_protocol::Seen;

/// Whether a look saw what it was to see.
pub(crate) fn sees(sight: Sight, seen: &Seen) -> bool
    ensures { result ≡ sees sight seen.now }
{
    match sight {
        Sight::Anything => true,
        Sight::Undefined => is_undefined(seen),
        Sight::Given => !is_undefined(seen),
        Sight::Valued => !is_undefined(seen) && !is_null(seen),
        Sight::True => is_true(seen),
        Sight::NotTrue => !is_true(seen),
        Sight::Number => is_number(seen),
        Sight::Text => seen.is_text(),
        Sight::Object => seen.is_object(),
        Sight::ObjectOrNone => seen.is_object() || is_undefined(seen) || is_null(seen),
        Sight::Callable => seen.is_function(),
        Sight::Array => matches!(seen, Seen::Object(Class::Array)),
        Sight::StringObject => matches!(seen, Seen::Object(Class::String)),
        Sight::NumberObject => matches!(seen, Seen::Object(Class::Number)),
    }
}

fn is_undefined(seen: &Seen) -> bool
    ensures { result ≡ is_undefined seen.now }
{
    matches!(seen, Seen::Prim(Primitive::Undefined))
}

fn is_null(seen: &Seen) -> bool
    ensures { result ≡ is_null seen.now }
{
    matches!(seen, Seen::Prim(Primitive::Null))
}

fn is_number(seen: &Seen) -> bool
    ensures { result ≡ is_number seen.now }
{
    matches!(seen, Seen::Prim(Primitive::Num(_)))
}

// ToBoolean: an object is true.
fn is_true(seen: &Seen) -> bool
    ensures { result ≡ is_true seen.now }
{
    match seen {
        Seen::Prim(value) => to_boolean(value),
        Seen::Object(_) => true,
    }
}
