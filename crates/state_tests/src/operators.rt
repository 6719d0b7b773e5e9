ghost use Rattle.std.specs.Prelude.{◌≡◌};
ghost use Rattle.js_values.specs.Readings.{HasValue};
ghost use Rattle.step_values.specs.Converted.{is_keyed};
ghost use Rattle.run_state.specs.Acts.{HasAnswer};

use crate::told::holds;
use env_records::Envs;
use flow_frames::{FlowFault, Frames};
use flow_text::{OutOfMemory, Text};
use js_ast::{BinaryOperator, UnaryOperator};
use js_number::{Int, Num, Primitive};
use js_values::{Class, Inner, Labelled, ObjId, Value};
use object_heap::Heap;
use origin_labels::{Labels, Masks};
use run_state::{Leaving, Outcome, World};
use std::alloc::Global;
use std::process::Abort;
use std::test::*;
use step_values::*;

// What an operator comes to: a value, or that it leaves the run for want of a number; or an operand is converted first.
#[derive(Clone, Copy)]
enum Wanted {
    Gives(Given),
    NoNumber,
    Converts,
}

// A value as data. The object is a function.
#[derive(Clone, Copy)]
enum Given {
    Text(&'static str),
    Number(i64),
    Bool(bool),
    Nan,
    Object,
    Undefined,
}

// A value as a condition.
const TRUTHS: &[(Given, bool)] = &[
    (Given::Text(""), false),
    (Given::Text("0"), true),
    (Given::Object, true),
    (Given::Number(-1), true),
    (Given::Number(0), false),
];

// What an operator comes to in front of a value.
type Front = (UnaryOperator, Given, Wanted);

const FRONTS: &[Front] = &[
    (
        UnaryOperator::Minus,
        Given::Text(" 3 "),
        Wanted::Gives(Given::Number(-3)),
    ),
    (
        UnaryOperator::BitNot,
        Given::Number(5),
        Wanted::Gives(Given::Number(-6)),
    ),
    (
        UnaryOperator::Typeof,
        Given::Undefined,
        Wanted::Gives(Given::Text("undefined")),
    ),
    (
        UnaryOperator::Typeof,
        Given::Object,
        Wanted::Gives(Given::Text("function")),
    ),
    (UnaryOperator::Plus, Given::Object, Wanted::Converts),
    (
        UnaryOperator::Plus,
        Given::Undefined,
        Wanted::Gives(Given::Nan),
    ),
];

// The same of an operator between two values.
type Middle = (Given, BinaryOperator, Given, Wanted);

const NUMBERS: &[Middle] = &[
    (
        Given::Text("7"),
        BinaryOperator::Subtract,
        Given::Bool(true),
        Wanted::Gives(Given::Number(6)),
    ),
    (
        Given::Number(-5),
        BinaryOperator::Remainder,
        Given::Number(3),
        Wanted::Gives(Given::Number(-2)),
    ),
    (
        Given::Number(1),
        BinaryOperator::Divide,
        Given::Number(2),
        Wanted::NoNumber,
    ),
    (
        Given::Number(-1),
        BinaryOperator::ShiftRightZero,
        Given::Number(28),
        Wanted::Gives(Given::Number(15)),
    ),
];

// An object is converted before an operator between values is applied.
const ORDERS: &[Middle] = &[
    (
        Given::Undefined,
        BinaryOperator::Multiply,
        Given::Object,
        Wanted::Converts,
    ),
    (
        Given::Number(2),
        BinaryOperator::Multiply,
        Given::Object,
        Wanted::Converts,
    ),
    (
        Given::Undefined,
        BinaryOperator::Multiply,
        Given::Number(2),
        Wanted::Gives(Given::Nan),
    ),
    (
        Given::Object,
        BinaryOperator::Add,
        Given::Undefined,
        Wanted::Converts,
    ),
];

const COMPARISONS: &[Middle] = &[
    (
        Given::Text("10"),
        BinaryOperator::Less,
        Given::Text("9"),
        Wanted::Gives(Given::Bool(true)),
    ),
    (
        Given::Text("10"),
        BinaryOperator::Less,
        Given::Number(9),
        Wanted::Gives(Given::Bool(false)),
    ),
    (
        Given::Object,
        BinaryOperator::Equal,
        Given::Object,
        Wanted::Gives(Given::Bool(true)),
    ),
    (
        Given::Undefined,
        BinaryOperator::NotEqual,
        Given::Object,
        Wanted::Gives(Given::Bool(true)),
    ),
    (
        Given::Number(1),
        BinaryOperator::Equal,
        Given::Object,
        Wanted::Converts,
    ),
];

fn text(alloc: Global, spelling: &str) -> Result<Value, OutOfMemory> {
    Ok(Value::Primitive(Primitive::Str(Text::spelled(alloc, spelling)?)))
}

fn number(n: i64) -> Value {
    match Int::new(n) {
        Some(n) => Value::Primitive(Primitive::Num(Num::Int(n))),
        None => Value::Primitive(Primitive::Null),
    }
}

fn value_of(alloc: Global, given: Given) -> Result<Value, OutOfMemory> {
    match given {
        Given::Text(spelling) => text(alloc, spelling),
        Given::Number(n) => Ok(number(n)),
        Given::Bool(b) => Ok(Value::Primitive(Primitive::Bool(b))),
        Given::Nan => Ok(Value::Primitive(Primitive::Num(Num::Nan))),
        Given::Object => Ok(Value::Object(ObjId(0))),
        Given::Undefined => Ok(Value::Primitive(Primitive::Undefined)),
    }
}

// The first object is a function, and there is no other.
fn world_with_function<L: Labels>(
    alloc: Global,
    labels: &L,
) -> Result<World<L::Label>, OutOfMemory> {
    let none = labels.bottom();
    let mut heap = Heap::new(alloc);
    heap.new_object(Class::Function, None, none, none, Inner::Plain)?;
    let frames = Frames::new(alloc, labels)?;
    Ok(World {
        frames,
        heap,
        records: Envs::new(alloc),
        positions: Vec::new(alloc),
    })
}

fn is_given(alloc: Global, value: &Value, wanted: Wanted) -> bool {
    match wanted {
        Wanted::Gives(wanted) => matches!(value_of(alloc, wanted), Ok(wanted) if wanted == *value),
        Wanted::NoNumber | Wanted::Converts => false,
    }
}

// Whether this is what an operator came to. A value that it gives depends on these of the origins 0 and 1.
fn is_answer<L: Labels>(
    alloc: Global,
    labels: &L,
    came: Result<Outcome<Labelled<L::Label>, L::Label>, FlowFault<L::Label>>,
    origins: [bool; 2],
    wanted: Wanted,
) -> bool
    requires { HasAnswer (HasValue (L.made labels.now)) (L.made labels.now) came }
{
    match came {
        Ok(Outcome::Goes(v)) => {
            let depends = [labels.has(v.label, 0), labels.has(v.label, 1)];
            depends == origins && is_given(alloc, &v.value, wanted)
        }
        Ok(Outcome::Leaves(Leaving::Number)) => matches!(wanted, Wanted::NoNumber),
        _ => false,
    }
}

#[test]
fn values_as_booleans(rt: HostRuntime) -> Result<(), Fail> {
    for (given, wanted) in TRUTHS {
        assert!(rt; truth(&value_of(rt.alloc(), *given)?) == *wanted);
    }
    Ok(())
}

// The value depends on origin 0.
fn is_front(alloc: Global, row: &Front) -> Result<bool, OutOfMemory> {
    let mut labels = Masks;
    let world = world_with_function(alloc, &labels)?;
    let value = Labelled {
        value: value_of(alloc, row.1)?,
        label: labels.single(0)?,
    };
    if converts_operand(row.0, &value.value) {
        return Ok(matches!(row.2, Wanted::Converts));
    }
    let came = unary(alloc, &world, row.0, &value);
    Ok(is_answer(alloc, &labels, came, [true, false], row.2))
}

#[test]
fn operators_in_front(rt: HostRuntime) {
    for row in FRONTS {
        assert!(rt; holds(is_front(rt.alloc(), row)));
    }
}

// Whether it is `in`, which asks objects and is no operator on values alone.
fn is_keyed(operator: BinaryOperator) -> bool
    ensures { result ≡ is_keyed operator }
{
    matches!(operator, BinaryOperator::In)
}

// The left value depends on origin 0, and the right one on origin 1.
fn is_middle(alloc: Global, row: &Middle) -> Result<bool, OutOfMemory> {
    let mut labels = Masks;
    let left = Labelled {
        value: value_of(alloc, row.0)?,
        label: labels.single(0)?,
    };
    let right = Labelled {
        value: value_of(alloc, row.2)?,
        label: labels.single(1)?,
    };
    if is_keyed(row.1) {
        return Ok(false);
    }
    if converts(row.1, &left.value, &right.value) {
        return Ok(matches!(row.3, Wanted::Converts));
    }
    let came = binary(alloc, &mut labels, row.1, &left, &right);
    Ok(is_answer(alloc, &labels, came, [true, true], row.3))
}

fn all_middle(rt: &impl Abort, alloc: Global, rows: &[Middle]) {
    for row in rows {
        assert!(rt; holds(is_middle(alloc, row)));
    }
}

#[test]
fn operators_between(rt: HostRuntime) {
    let alloc = rt.alloc();
    all_middle(&rt, alloc, NUMBERS);
    all_middle(&rt, alloc, ORDERS);
    all_middle(&rt, alloc, COMPARISONS);
}

// A number that depends on origin 1, and a text that depends on none.
fn is_joined(alloc: Global) -> Result<bool, OutOfMemory> {
    let mut labels = Masks;
    let left = Labelled {
        value: number(1),
        label: labels.single(1)?,
    };
    let right = Labelled {
        value: text(alloc, "2")?,
        label: labels.bottom(),
    };
    let came = binary(alloc, &mut labels, BinaryOperator::Add, &left, &right);
    Ok(is_answer(
        alloc,
        &labels,
        came,
        [false, true],
        Wanted::Gives(Given::Text("12")),
    ))
}

#[test]
fn converted_values(rt: HostRuntime) {
    assert!(rt; holds(is_joined(rt.alloc())));
}
