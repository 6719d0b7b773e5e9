//! Keys by the names that they give their properties.

ghost use Rattle.std.specs.Prelude.{◌≡◌};
ghost use Rattle.std.specs.Cmp.Lexicographic.{slice_cmp};
ghost use Rattle.std.specs.Fmt.{signed_decimal};
ghost use Rattle.std.specs.Ordering.{nat_cmp};
ghost use Rattle.js_ast.specs.Keys.{key_text};
ghost use Rattle.js_ast.specs.Views.{view_key};

use crate::trees::Key;
use flow_text::Text;
use itoa::Buffer;
use js_number::Int;
use std::cmp::Ordering;

impl Key {
    /// How its name stands to that of another key, unit by unit.
    pub fn compared(&self, other: &Key) -> Ordering
        ensures { result ≡ slice_cmp nat_cmp (key_text (view_key self.now)) (key_text (view_key other.now)) }
    {
        match (self, other) {
            (Key::Number(m), Key::Number(n)) => compared_numbers(*m, *n),
            (Key::Number(n), Key::Name(text) | Key::String { value: text, .. }) => {
                compared_from_number(*n, text)
            }
            (Key::Name(text) | Key::String { value: text, .. }, Key::Number(n)) => {
                compared_to_number(text, *n)
            }
            (
                Key::Name(a) | Key::String { value: a, .. },
                Key::Name(b) | Key::String { value: b, .. },
            ) => a.cmp(b),
        }
    }
}

fn compared_numbers(m: Int, n: Int) -> Ordering
    ensures { result ≡ slice_cmp nat_cmp (signed_decimal m) (signed_decimal n) }
{
    let mut one = Buffer::new();
    let mut other = Buffer::new();
    one.format(m.get())
        .as_bytes()
        .cmp(&other.format(n.get()).as_bytes())
}

fn compared_from_number(n: Int, text: &Text) -> Ordering
    ensures { result ≡ slice_cmp nat_cmp (signed_decimal n) text.now }
{
    compared_to_number(text, n).reverse()
}

fn compared_to_number(text: &Text, n: Int) -> Ordering
    ensures { result ≡ slice_cmp nat_cmp text.now (signed_decimal n) }
{
    let mut buffer = Buffer::new();
    compared_to_bytes(text.units(), buffer.format(n.get()).as_bytes())
}

#[tactic(auto, using(crate::proofs::KeyLaws::text_ended, crate::proofs::KeyLaws::other_ended))]
fn compared_to_bytes(units: &[u16], bytes: &[u8]) -> Ordering
    ensures { result ≡ slice_cmp nat_cmp units.now bytes.now }
{
    let mut text = units;
    let mut digits = bytes;
    'units: loop {
        match (text, digits) {
            ([unit, more_units @ ..], [byte, more_bytes @ ..]) => {
                let order = unit.cmp(&u16::from(*byte));
                if order.is_ne() {
                    return order;
                }
                text = more_units;
                digits = more_bytes;
            }
            ([], rest) => return 0.cmp(&rest.len()),
            (rest, []) => return rest.len().cmp(&0),
        }
    }
}
