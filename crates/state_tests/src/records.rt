ghost use Rattle.std.specs.Prelude.{◌≡◌, ◌<◌, IfOk, length};
ghost use Rattle.js_values.specs.Readings.{HasRecords};

use crate::told::holds;
use env_records::*;
use flow_text::{OutOfMemory, Text};
use js_number::{Int, Num, Primitive};
use js_values::{EnvId, Labelled, Value};
use origin_labels::{Labels, Masks};
use std::alloc::Global;
use std::rc::Rc;
use std::test::*;

// What is answered to an assignment: of a stop, whether need and have hold origin 0.
#[derive(Clone, Copy, PartialEq, Eq)]
enum Answer {
    Done,
    Immutable,
    Stopped(bool, bool),
    OutOfMemory,
}

// A name, whether the context depends on origin 0, and what is answered to an assignment there.
const ASSIGNMENTS: &[(&str, bool, Option<Answer>)] = &[
    ("x", false, Some(Answer::Done)),
    ("this", true, Some(Answer::Immutable)),
    ("x", true, Some(Answer::Stopped(true, false))),
    ("y", false, None),
];

fn number<T: Copy>(n: i64, label: T) -> Labelled<T>
    ensures { result.label ≡ label }
{
    let value = match Int::new(n) {
        Some(n) => Value::Primitive(Primitive::Num(Num::Int(n))),
        None => Value::Primitive(Primitive::Null),
    };
    Labelled { value, label }
}

// Two records: the outer one has `x`, which can be assigned, and the inner one `this`, which can't.
fn two_records<L: Labels>(alloc: Global, labels: &L) -> Result<(Envs<L::Label>, EnvId), OutOfMemory>
    ensures there { IfOk result (λ pair. pair.1.0 < length pair.0) }
    ensures belongs { IfOk result (λ pair. HasRecords (L.made labels.now) pair.0) }
{
    records_belong::<L>();
    let none = labels.bottom();
    let mut envs = Envs::new(alloc);
    let outer = envs.new_record(None)?;
    let x = Text::spelled(alloc, "x")?;
    envs.bind(outer, x, true, number(0, none))?;
    let inner = envs.new_record(Some(outer))?;
    let this = Text::spelled(alloc, "this")?;
    envs.bind(inner, this, false, number(0, none))?;
    Ok((envs, inner))
}

// What is answered to an assignment of 1 to the name, as it is looked up from the record.
fn assigned<L: Labels>(
    labels: &mut L,
    envs: &mut Envs<L::Label>,
    e: EnvId,
    name: &Text,
    context: L::Label,
) -> Option<Answer>
    requires there { e.0 < length envs.old }
    requires context { L.made labels.old context }
    requires belongs { HasRecords (L.made labels.old) envs.old }
    ensures there { length envs.new ≡ length envs.old }
    ensures belongs { HasRecords (L.made labels.new) envs.new }
{
    let value = number(1, context);
    let found = envs.lookup(e, name)?;
    Some(match envs.assign(labels, found, name, context, value) {
        Ok(()) => Answer::Done,
        Err(AssignFault::Immutable) => Answer::Immutable,
        Err(AssignFault::Stop(stop)) => {
            Answer::Stopped(labels.has(stop.need, 0), labels.has(stop.have, 0))
        }
        Err(AssignFault::OutOfMemory) => Answer::OutOfMemory,
    })
}

fn are_found(alloc: Global) -> Result<bool, OutOfMemory> {
    let x = Text::spelled(alloc, "x")?;
    let this = Text::spelled(alloc, "this")?;
    let y = Text::spelled(alloc, "y")?;
    let (envs, inner) = two_records(alloc, &Masks)?;
    let outside = envs.lookup(inner, &x) == Some(EnvId(0)) && envs.own(inner, &x).is_none();
    let inside = envs.lookup(inner, &this) == Some(inner) && envs.own(inner, &this).is_some();
    Ok(outside && inside && envs.lookup(inner, &y).is_none())
}

fn is_assigned(
    alloc: Global,
    name: &str,
    secret: bool,
    wanted: Option<Answer>,
) -> Result<bool, OutOfMemory> {
    let name = Text::spelled(alloc, name)?;
    let a = Masks.single(0)?;
    let none = Masks.bottom();
    let (mut envs, inner) = two_records(alloc, &Masks)?;
    let context = if secret { a } else { none };
    Ok(assigned(&mut Masks, &mut envs, inner, &name, context) == wanted)
}

// The names of a layout, of which a row takes some. From the ninth on there is an index, and the last one comes twice.
const NAMES: &[&str] = &[
    "this", "function", "a", "b", "c", "d", "e", "f", "g", "h", "a",
];

// How many names, one that is looked for, and its place.
const PLACES: &[(usize, &str, Option<usize>)] = &[
    (0, "a", None),
    (3, "this", Some(0)),
    (3, "a", Some(2)),
    (3, "b", None),
    (8, "f", Some(7)),
    (9, "f", Some(7)),
    (9, "g", Some(8)),
    (10, "this", Some(0)),
    (10, "h", Some(9)),
    (10, "i", None),
    (11, "a", Some(2)),
    (11, "h", Some(9)),
    (11, "i", None),
];

fn laid(alloc: Global, names: &[&str]) -> Result<Layout, OutOfMemory> {
    let mut layout = Layout::new(alloc);
    for name in names {
        layout.push(Text::spelled(alloc, *name)?, false)?;
    }
    Ok(layout)
}

fn is_placed(
    alloc: Global,
    names: usize,
    name: &str,
    wanted: Option<usize>,
) -> Result<bool, OutOfMemory> {
    if names > NAMES.len() {
        return Ok(false);
    }
    let layout = laid(alloc, &NAMES[..names])?;
    let name = Text::spelled(alloc, name)?;
    Ok(layout.len() == names && layout.place(&name) == wanted)
}

// `this`, which can't be assigned, and `y`, which can.
fn two_names(alloc: Global) -> Result<Rc<Layout>, OutOfMemory>
    ensures { IfOk result (λ layout. length layout.value ≡ 2) }
{
    let mut layout = Layout::new(alloc);
    layout.push(Text::spelled(alloc, "this")?, false)?;
    layout.push(Text::spelled(alloc, "y")?, true)?;
    Ok(Rc::new(alloc, layout)?)
}

fn two_values<T: Copy>(
    alloc: Global,
    first: i64,
    second: i64,
    label: T,
) -> Result<Vec<Labelled<T>>, OutOfMemory>
    ensures { IfOk result (λ values. length values.items ≡ 2) }
{
    let mut values = Vec::with_capacity(alloc, 2)?;
    values.push(number(first, label))?;
    values.push(number(second, label))?;
    Ok(values)
}

// A record of `x`, and two inside it that share their names.
fn sharing_records<L: Labels>(
    alloc: Global,
    labels: &L,
) -> Result<(Envs<L::Label>, EnvId, EnvId), OutOfMemory>
    ensures first { IfOk result (λ made. made.1.0 < length made.0) }
    ensures second { IfOk result (λ made. made.2.0 < length made.0) }
{
    let none = labels.bottom();
    let layout = two_names(alloc)?;
    let mut envs = Envs::new(alloc);
    let outer = envs.new_record(None)?;
    envs.bind(outer, Text::spelled(alloc, "x")?, true, number(0, none))?;
    let values = two_values(alloc, 1, 2, none)?;
    let first = envs.begin(Some(outer), &layout, values)?;
    let values = two_values(alloc, 3, 4, none)?;
    let second = envs.begin(Some(outer), &layout, values)?;
    Ok((envs, first, second))
}

// Where a name is found from a record on, and the number that it has there.
fn found<T: Copy>(envs: &Envs<T>, e: EnvId, name: &Text) -> Option<(EnvId, usize, i64)>
    requires { e.0 < length envs.now }
{
    let place = envs.find(e, name)?;
    match &envs.read_at(place).value {
        Value::Primitive(Primitive::Num(Num::Int(n))) => Some((place.record, place.place, n.get())),
        _ => None,
    }
}

// Records that share their names have values of their own.
fn are_shared(alloc: Global) -> Result<bool, OutOfMemory> {
    let x = Text::spelled(alloc, "x")?;
    let this = Text::spelled(alloc, "this")?;
    let y = Text::spelled(alloc, "y")?;
    let z = Text::spelled(alloc, "z")?;
    let (envs, first, second) = sharing_records(alloc, &Masks)?;
    let inside = found(&envs, first, &this) == Some((first, 0, 1))
        && found(&envs, first, &y) == Some((first, 1, 2))
        && found(&envs, second, &y) == Some((second, 1, 4));
    Ok(
        inside
            && found(&envs, second, &x) == Some((EnvId(0), 0, 0))
            && found(&envs, first, &z).is_none(),
    )
}

// A further name of one record isn't one of the other.
fn is_alone(alloc: Global) -> Result<bool, OutOfMemory> {
    let y = Text::spelled(alloc, "y")?;
    let z = Text::spelled(alloc, "z")?;
    let (mut envs, first, second) = sharing_records(alloc, &Masks)?;
    if envs.own(first, &z).is_some() {
        return Ok(false);
    }
    let none = Masks.bottom();
    envs.bind(first, z.copy(alloc)?, true, number(5, none))?;
    let bound = found(&envs, first, &z) == Some((first, 2, 5));
    Ok(
        bound
            && found(&envs, first, &y) == Some((first, 1, 2))
            && found(&envs, second, &z).is_none(),
    )
}

#[test]
fn lays_names_out(rt: HostRuntime) {
    for (names, name, wanted) in PLACES {
        assert!(rt;
            holds(is_placed(rt.alloc(), *names, *name, *wanted)),
            "{name}"
        );
    }
}

#[test]
fn shares_names(rt: HostRuntime) {
    assert!(rt; holds(are_shared(rt.alloc())));
    assert!(rt; holds(is_alone(rt.alloc())));
}

#[test]
fn finds_and_assigns(rt: HostRuntime) {
    assert!(rt; holds(are_found(rt.alloc())));
    for (name, secret, wanted) in ASSIGNMENTS {
        assert!(rt;
            holds(is_assigned(rt.alloc(), *name, *secret, *wanted)),
            "{name}"
        );
    }
}
