//! The elements of arrays, and their `length` (ECMA-262 15.4.5).

ghost use Rattle.std.specs.Prelude.{◌≡◌, ◌^◌, ◌<◌, IfOk, IfSome};
ghost use Rattle.origin_labels.specs.Names.{same_name};
ghost use Rattle.js_values.specs.Arrays.{allows_element, element_key, element_of, is_length, is_past, length_body, length_key};

use crate::inner::Class;
use crate::key::{Key, array_index};
use crate::property::{Body, Marks};
use crate::value::Value;
use flow_text::{OutOfMemory, Text};
use js_number::{Int, Num, Primitive, number_to_text};
use std::alloc::Global;

/// The units of `length`.
pub const LENGTH: [u16; 6] = [0x6C, 0x65, 0x6E, 0x67, 0x74, 0x68];

/// Whether it is the key `length`.
pub fn is_length_key(name: &Text) -> bool
    ensures { result ≡ same_name name.now length_key }
{
    name.units() == &LENGTH[..]
}

/// Whether the key names the `length` of an array, in an object of the class.
pub fn names_length(class: Class, name: &Text) -> bool
    ensures { result ≡ is_length class name.now }
{
    match class {
        Class::Array => is_length_key(name),
        _ => false,
    }
}

/// The element of an array that a key names, in an object of the class.
pub fn element_of(class: Class, name: &Text) -> Option<u32>
    ensures { result ≡ element_of class name.now }
{
    match class {
        Class::Array => array_index(name.units()),
        _ => None,
    }
}

/// The key of an element.
pub fn element_key(alloc: Global, n: u32) -> Result<Key, OutOfMemory>
    ensures { IfOk result (λ key. key ≡ element_key n) }
{
    let number = Int::new(i64::from(n)).unwrap();
    let text = number_to_text(alloc, Num::Int(number))?;
    Ok(Key::new(text))
}

/// The body of a `length`.
pub fn length_body(n: u32) -> Body
    ensures { result ≡ length_body n }
{
    let number = Int::new(i64::from(n)).unwrap();
    Body::Data(Value::Primitive(Primitive::Num(Num::Int(number))))
}

/// Whether an element stands at or above the `length` with this body.
pub fn is_past(i: u32, body: &Body) -> bool
    ensures { result ≡ is_past i body.now }
{
    match body {
        Body::Data(Value::Primitive(Primitive::Num(Num::Int(n)))) => n.get() <= i64::from(i),
        _ => false,
    }
}

/// Whether an element that isn't there may be added beside this `length`: below it, or where it can be written (ECMA-262 15.4.5.1, step 4.b).
pub fn allows_element(i: u32, marks: Marks, body: &Body) -> bool
    ensures { result ≡ allows_element i marks body.now }
{
    marks.writable || !is_past(i, body)
}
