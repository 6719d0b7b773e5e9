//! What stands in a property (ECMA-262 8.6.1).

ghost use Rattle.std.specs.Prelude.{◌≡◌, ◌≤◌, IfOk};
ghost use Rattle.es_meaning.specs.Definitions.{is_accessor, value_in, getter_in, setter_in};
ghost use Rattle.es_meaning.specs.Operations.{own_marks};
ghost use Rattle.es_meaning.specs.Requested.{function_value, mark_of, part_of_property};

use flow_text::OutOfMemory;
use js_number::{Int, Num, Primitive};
use js_values::{Body, Marks, ObjId, Value};
use std::alloc::Global;

/// Whether it has a getter and a setter, if only none.
pub(crate) fn is_accessor(body: &Body) -> bool
    ensures { result ≡ is_accessor body.now }
{
    matches!(body, Body::Accessor { .. })
}

/// Its value, which an accessor hasn't.
pub(crate) fn value_in(alloc: Global, body: &Body) -> Result<Value, OutOfMemory>
    ensures { IfOk result (λ v. v ≡ value_in body.now) }
{
    match body {
        Body::Data(value) => {
            let value = value.copy(alloc)?;
            Ok(value)
        }
        Body::Accessor { .. } => Ok(Value::Primitive(Primitive::Undefined)),
    }
}

/// Its getter, if it has one.
pub(crate) fn getter_in(body: &Body) -> Option<ObjId>
    ensures { result ≡ getter_in body.now }
{
    match body {
        Body::Data(_) => None,
        Body::Accessor { get, .. } => *get,
    }
}

/// Its setter, if it has one.
pub(crate) fn setter_in(body: &Body) -> Option<ObjId>
    ensures { result ≡ setter_in body.now }
{
    match body {
        Body::Data(_) => None,
        Body::Accessor { set, .. } => *set,
    }
}

/// A function, or undefined where there is none.
pub(crate) fn function_value(function: Option<ObjId>) -> Value
    ensures { result ≡ function_value function }
{
    match function {
        None => Value::Primitive(Primitive::Undefined),
        Some(f) => Value::Object(f),
    }
}

/// The weight of a mark that is set.
fn mark_of(weight: u32, is_set: bool) -> u32
    ensures value { result ≡ mark_of weight is_set }
    ensures bound { result ≤ weight }
{
    if is_set { weight } else { 0 }
}

/// The marks as a number: 1 where the property is writable, 2 enumerable, 4 configurable and 8 an accessor.
pub(crate) fn marks_value(marks: Marks, body: &Body) -> Value
    ensures { result ≡ part_of_property own_marks (record { body = body.now; marks = marks }) }
{
    let attributes = mark_of(1, marks.writable)
        + mark_of(2, marks.enumerable)
        + mark_of(4, marks.configurable);
    let number = attributes + mark_of(8, is_accessor(body));
    let number = Int::new(i64::from(number)).unwrap();
    Value::Primitive(Primitive::Num(Num::Int(number)))
}
