//! What a look tells of the values that descriptors are made of.

ghost use Rattle.std.specs.Prelude.{◌≡◌};
ghost use Rattle.descriptor_pieces.specs.Looks.{is_undefined, is_true, is_false, truth_of, count_in, key_in};

use flow_text::Text;
use js_number::{Primitive, to_boolean};
use js_values::Key;
use native_protocol::Seen;
use std::alloc::Global;

/// Whether it is undefined.
pub fn is_undefined(seen: &Seen) -> bool
    ensures { result ≡ is_undefined seen.now }
{
    matches!(seen, Seen::Prim(Primitive::Undefined))
}

/// Whether it is true.
pub fn is_true(seen: &Seen) -> bool
    ensures { result ≡ is_true seen.now }
{
    matches!(seen, Seen::Prim(Primitive::Bool(true)))
}

/// Whether it is false.
pub fn is_false(seen: &Seen) -> bool
    ensures { result ≡ is_false seen.now }
{
    matches!(seen, Seen::Prim(Primitive::Bool(false)))
}

/// ToBoolean (ECMA-262 9.2).
pub fn truth(seen: &Seen) -> bool
    ensures { result ≡ truth_of seen.now }
{
    match seen {
        Seen::Prim(value) => to_boolean(value),
        Seen::Object(_) => true,
    }
}

/// The length of a list of keys.
pub fn count(seen: &Seen) -> u64
    ensures { result ≡ count_in seen.now }
{
    match seen {
        Seen::Prim(Primitive::Num(n)) => n.to_integer().unsigned_abs(),
        _ => 0,
    }
}

/// A key of a list.
pub fn key(alloc: Global, seen: Seen) -> Key
    ensures { result ≡ key_in seen }
{
    match seen {
        Seen::Prim(Primitive::Str(text)) => Key::new(text),
        _ => Key::new(Text::new(alloc)),
    }
}
