//! Which definitions of properties are refused, and what a property is behind one (ECMA-262 8.10, 8.12.9).

ghost use Rattle.std.specs.Prelude.{◌≡◌, Bool, true, false, Some, IfOk};
ghost use Rattle.std.specs.Option.{is_some};
ghost use Rattle.js_values.specs.declared.property.Body.TheVariants.{Data, Accessor};
ghost use Rattle.es_meaning.specs.Definitions.{same_mark, same_object, same_value, keeps, keeps_attributes, keeps_data, keeps_body, may_define_over, becomes_accessor, body_of_kind, marks_of_kind, given_or, changes_body, keeps_a_half};
ghost use Rattle.flow_meaning.specs.Erased.{erased_slot};
ghost use Rattle.property_requests.specs.Defining.{body_of, half_of, definition_of};

use crate::bodies::{getter_in, is_accessor, setter_in, value_in};
use flow_text::OutOfMemory;
use js_number::same_value as same_primitive;
use js_values::{Body, Marks, ObjId, Slot, Value};
use native_protocol::GivenMarks;
use std::alloc::Global;

/// A getter or a setter in a definition: it is left as it is, or there is this one, if any.
#[derive(Clone, Copy)]
pub(crate) enum Half {
    Kept,
    Given(Option<ObjId>),
}

/// What a definition gives besides the attributes.
#[derive(Drop)]
pub(crate) enum GivenBody {
    Nothing,
    Value(Value),
    Accessors { get: Half, set: Half },
}

/// A definition of a property.
#[derive(Drop)]
pub(crate) struct Definition {
    pub(crate) marks: GivenMarks,
    pub(crate) body: GivenBody,
}

/// Whether a mark is the same.
fn same_mark(old: bool, mark: bool) -> bool
    ensures { result ≡ same_mark old mark }
{
    if old { mark } else { !mark }
}

/// Whether an attribute is left as it is, or given so.
fn keeps_mark(old: bool, given: Option<bool>) -> bool
    ensures { result ≡ keeps same_mark old given }
{
    match given {
        None => true,
        Some(mark) => same_mark(old, mark),
    }
}

/// Whether two objects that there may be are one.
fn same_object(a: Option<ObjId>, b: Option<ObjId>) -> bool
    ensures { result ≡ same_object a b }
{
    match a {
        None => b.is_none(),
        Some(f) => is_object(b, f),
    }
}

/// Whether there is an object, and it is this one.
fn is_object(a: Option<ObjId>, f: ObjId) -> bool
    ensures { result ≡ same_object (Some f) a }
{
    match a {
        None => false,
        Some(g) => f.0 == g.0,
    }
}

/// Whether a getter or a setter is left as it is, or given so.
fn keeps_half(old: Option<ObjId>, given: Half) -> bool
    ensures { result ≡ keeps same_object old (half_of given) }
{
    match given {
        Half::Kept => true,
        Half::Given(f) => same_object(old, f),
    }
}

/// Whether two values are one (ECMA-262 9.12).
fn same_value(a: &Value, b: &Value) -> bool
    ensures { result ≡ same_value a.now b.now }
{
    match (a, b) {
        (Value::Primitive(v), Value::Primitive(u)) => same_primitive(v, u),
        (Value::Object(o), Value::Object(p)) => o.0 == p.0,
        _ => false,
    }
}

/// Whether the attributes of a property that can't be configured stay.
fn keeps_attributes(old: Marks, given: GivenMarks) -> bool
    ensures { result ≡ keeps_attributes old given }
{
    keeps_mark(false, given.configurable) && keeps_mark(old.enumerable, given.enumerable)
}

/// Whether a value that can't be written stays.
fn keeps_data(value: &Value, marks: GivenMarks, given: &GivenBody) -> bool
    ensures { result ≡ keeps_data value.now marks (body_of given.now) }
{
    match given {
        GivenBody::Nothing => keeps_mark(false, marks.writable),
        GivenBody::Value(other) => { keeps_mark(false, marks.writable) && same_value(value, other) }
        GivenBody::Accessors { .. } => false,
    }
}

/// Whether a value of a property that can't be configured may be defined so.
fn keeps_value(writable: bool, value: &Value, marks: GivenMarks, given: &GivenBody) -> bool
    ensures { result ≡ keeps_body writable (Data value.now) marks (body_of given.now) }
{
    match given {
        GivenBody::Accessors { .. } => false,
        GivenBody::Nothing | GivenBody::Value(_) => writable || keeps_data(value, marks, given),
    }
}

/// Whether a getter and a setter of a property that can't be configured may be defined so.
fn keeps_accessor(
    get: Option<ObjId>,
    set: Option<ObjId>,
    marks: GivenMarks,
    given: &GivenBody,
) -> bool
    ensures { (writable : Bool) → result ≡ keeps_body writable (Accessor get set) marks (body_of given.now) }
{
    match given {
        GivenBody::Nothing => marks.writable.is_none(),
        GivenBody::Value(_) => false,
        GivenBody::Accessors {
            get: getter,
            set: setter,
        } => keeps_half(get, *getter) && keeps_half(set, *setter),
    }
}

/// Whether what a property that can't be configured holds may be defined so.
fn keeps_body(writable: bool, old: &Body, marks: GivenMarks, given: &GivenBody) -> bool
    ensures { result ≡ keeps_body writable old.now marks (body_of given.now) }
{
    match old {
        Body::Data(value) => keeps_value(writable, value, marks, given),
        Body::Accessor { get, set } => keeps_accessor(*get, *set, marks, given),
    }
}

/// Whether a property may be defined so (ECMA-262 8.12.9, steps 5 to 11).
pub(crate) fn may_define_over<T>(slot: &Slot<T>, definition: &Definition) -> bool
    ensures { result ≡ may_define_over (erased_slot slot.now) (definition_of definition.now) }
{
    let Definition { marks, body } = definition;
    slot.marks.configurable
        || (keeps_attributes(slot.marks, *marks)
            && keeps_body(slot.marks.writable, &slot.body, *marks, body))
}

/// Whether a property is an accessor behind a definition.
pub(crate) fn becomes_accessor(was: bool, definition: &Definition) -> bool
    ensures { result ≡ becomes_accessor was (definition_of definition.now) }
{
    match &definition.body {
        GivenBody::Nothing => was && definition.marks.writable.is_none(),
        GivenBody::Value(_) => false,
        GivenBody::Accessors { .. } => true,
    }
}

/// A mark as it is given, or as it was.
fn given_mark(old: bool, given: Option<bool>) -> bool
    ensures { result ≡ given_or old given }
{
    match given {
        None => old,
        Some(mark) => mark,
    }
}

/// The attributes behind a definition. An accessor can't be written.
pub(crate) fn marks_of_kind(accessor: bool, old: Marks, given: GivenMarks) -> Marks
    ensures { result ≡ marks_of_kind accessor old given }
{
    Marks {
        writable: !accessor && given_mark(old.writable, given.writable),
        enumerable: given_mark(old.enumerable, given.enumerable),
        configurable: given_mark(old.configurable, given.configurable),
    }
}

/// A getter or a setter as it is given, or as it was.
fn given_half(old: Option<ObjId>, given: Half) -> Option<ObjId>
    ensures { result ≡ given_or old (half_of given) }
{
    match given {
        Half::Kept => old,
        Half::Given(f) => f,
    }
}

/// What a data property holds behind a definition.
fn data_behind(alloc: Global, old: &Body, given: GivenBody) -> Result<Body, OutOfMemory>
    ensures { IfOk result (λ body. body ≡ body_of_kind false old.now (body_of given)) }
{
    match given {
        GivenBody::Value(value) => Ok(Body::Data(value)),
        GivenBody::Nothing => {
            let value = value_in(alloc, old)?;
            Ok(Body::Data(value))
        }
        GivenBody::Accessors { .. } => {
            let value = value_in(alloc, old)?;
            Ok(Body::Data(value))
        }
    }
}

/// What an accessor holds behind a definition.
fn accessor_behind(old: &Body, given: &GivenBody) -> Body
    ensures { result ≡ body_of_kind true old.now (body_of given.now) }
{
    match given {
        GivenBody::Accessors { get, set } => Body::Accessor {
            get: given_half(getter_in(old), *get),
            set: given_half(setter_in(old), *set),
        },
        GivenBody::Nothing => Body::Accessor {
            get: getter_in(old),
            set: setter_in(old),
        },
        GivenBody::Value(_) => Body::Accessor {
            get: getter_in(old),
            set: setter_in(old),
        },
    }
}

/// What a property of this kind holds behind a definition: what isn't given stays, or has its default where the kind is another.
pub(crate) fn body_of_kind(
    alloc: Global,
    accessor: bool,
    old: &Body,
    given: GivenBody,
) -> Result<Body, OutOfMemory>
    ensures { IfOk result (λ body. body ≡ body_of_kind accessor old.now (body_of given)) }
{
    if accessor {
        return Ok(accessor_behind(old, &given));
    }
    data_behind(alloc, old, given)
}

/// Whether a getter or a setter is given.
fn is_given(half: Half) -> bool
    ensures { result ≡ is_some (half_of half) }
{
    matches!(half, Half::Given(_))
}

/// Whether what a property holds is given anew: a value, a getter or a setter is given, or the kind is another.
pub(crate) fn changes_body<T>(slot: &Slot<T>, definition: &Definition) -> bool
    ensures { result ≡ changes_body (erased_slot slot.now) (definition_of definition.now) }
{
    let was = is_accessor(&slot.body);
    match &definition.body {
        GivenBody::Nothing => !same_mark(was, becomes_accessor(was, definition)),
        GivenBody::Value(_) => true,
        GivenBody::Accessors { get, set } => {
            is_given(*get) || is_given(*set) || !same_mark(was, becomes_accessor(was, definition))
        }
    }
}

/// Whether one half of an accessor stays.
pub(crate) fn keeps_a_half<T>(slot: &Slot<T>, definition: &Definition) -> bool
    ensures { result ≡ keeps_a_half (erased_slot slot.now) (definition_of definition.now) }
{
    match &definition.body {
        GivenBody::Accessors { get, set } => {
            is_accessor(&slot.body) && !(is_given(*get) && is_given(*set))
        }
        GivenBody::Nothing | GivenBody::Value(_) => false,
    }
}
