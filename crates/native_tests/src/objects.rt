use crate::scenes::{Scene, Told, plays};
use js_values::Class;
use native_protocol::Natives;
use object_natives::ObjectNatives;
use std::alloc::Global;
use std::process::Abort;
use std::test::*;

// ECMA-262 15.2.3 and 15.2.4.
const OBJECTS: &[Scene] = &[
    ("global", "Object", 1, true, &[Told::Null], "new"),
    ("global", "Object", 1, false, &[Told::True], "leave wrapper"),
    (
        "global",
        "Object",
        1,
        false,
        &[Told::Object(Class::Array)],
        "return 2",
    ),
    (
        "Object",
        "getPrototypeOf",
        1,
        false,
        &[Told::Number(1)],
        "throw TypeError",
    ),
    (
        "Object",
        "getPrototypeOf",
        1,
        false,
        &[Told::Object(Class::Object)],
        "proto",
    ),
    (
        "Object",
        "keys",
        1,
        false,
        &[Told::Object(Class::Object), Told::Done],
        "return 10",
    ),
    (
        "Object",
        "create",
        1,
        false,
        &[Told::Null, Told::Done],
        "return 13",
    ),
    (
        "Object",
        "create",
        2,
        false,
        &[Told::Null, Told::Done, Told::Undefined],
        "return 13",
    ),
    (
        "Object",
        "create",
        2,
        false,
        &[Told::Null, Told::Done, Told::Null],
        "throw TypeError",
    ),
    (
        "Object",
        "create",
        2,
        false,
        &[Told::Undefined],
        "throw TypeError",
    ),
    (
        "Object",
        "defineProperty",
        3,
        false,
        &[Told::Object(Class::Object), Told::Number(7), Told::Done],
        "look 4",
    ),
    (
        "Object",
        "isFrozen",
        1,
        false,
        &[Told::Object(Class::Object)],
        "all keys",
    ),
    (
        "Object.prototype",
        "toString",
        0,
        false,
        &[Told::Null],
        "make [object Null]",
    ),
    (
        "Object.prototype",
        "toString",
        0,
        false,
        &[Told::Object(Class::Json)],
        "make [object JSON]",
    ),
    (
        "Object.prototype",
        "toString",
        0,
        false,
        &[Told::Text("a")],
        "leave wrapper",
    ),
    (
        "Object.prototype",
        "hasOwnProperty",
        1,
        false,
        &[Told::Text("a"), Told::Object(Class::Object)],
        "own a",
    ),
    (
        "Object.prototype",
        "hasOwnProperty",
        1,
        false,
        &[
            Told::Text("a"),
            Told::Object(Class::Object),
            Told::Done,
            Told::Number(0),
        ],
        "make true",
    ),
    (
        "Object.prototype",
        "propertyIsEnumerable",
        1,
        false,
        &[
            Told::Text("a"),
            Told::Object(Class::Object),
            Told::Done,
            Told::Number(13),
        ],
        "make false",
    ),
    (
        "Object.prototype",
        "isPrototypeOf",
        1,
        false,
        &[Told::Null],
        "make false",
    ),
    (
        "Object.prototype",
        "isPrototypeOf",
        1,
        false,
        &[Told::Object(Class::Object), Told::Null],
        "throw TypeError",
    ),
    (
        "Object.prototype",
        "isPrototypeOf",
        1,
        false,
        &[
            Told::Object(Class::Object),
            Told::Object(Class::Object),
            Told::Done,
            Told::Object(Class::Object),
            Told::Done,
            Told::Undefined,
        ],
        "proto",
    ),
    (
        "Object.prototype",
        "toLocaleString",
        0,
        false,
        &[],
        "leave Object.prototype.toLocaleString",
    ),
];

// ECMA-262 15.6 to 15.8, and names that aren't offered.
const PRIMITIVES: &[Scene] = &[
    (
        "global",
        "Boolean",
        1,
        false,
        &[Told::Number(0)],
        "make false",
    ),
    ("global", "Boolean", 1, true, &[], "leave wrapper"),
    (
        "Boolean.prototype",
        "toString",
        0,
        false,
        &[Told::True],
        "make true",
    ),
    (
        "Boolean.prototype",
        "valueOf",
        0,
        false,
        &[Told::Object(Class::Boolean)],
        "leave wrapper",
    ),
    (
        "Boolean.prototype",
        "valueOf",
        0,
        false,
        &[Told::Number(1)],
        "throw TypeError",
    ),
    ("global", "Number", 0, false, &[], "make 0"),
    (
        "global",
        "Number",
        1,
        false,
        &[Told::Text(" 12 ")],
        "make 12",
    ),
    ("global", "Number", 1, false, &[Told::Undefined], "make NaN"),
    (
        "Number.prototype",
        "valueOf",
        0,
        false,
        &[Told::Number(-5)],
        "return 0",
    ),
    ("Math", "abs", 1, false, &[Told::Number(-3)], "make 3"),
    (
        "Math",
        "max",
        3,
        false,
        &[Told::Number(3), Told::Null, Told::Number(7)],
        "make 7",
    ),
    (
        "Math",
        "min",
        2,
        false,
        &[Told::Number(3), Told::True],
        "make 1",
    ),
    (
        "Math",
        "max",
        3,
        false,
        &[Told::Number(3), Told::Undefined, Told::Number(7)],
        "make NaN",
    ),
    ("Math", "min", 0, false, &[], "leave number"),
    ("Math", "PI", 0, false, &[], "leave Math.PI"),
    ("global", "eval", 1, false, &[Told::Done], "leave eval"),
];

fn all_play(rt: &impl Abort, alloc: Global, scenes: &[Scene]) {
    let natives = ObjectNatives::new(alloc);
    for scene in scenes {
        let played = holds(plays(alloc, &natives, scene));
        assert!(rt; played, "{} {} {}", scene.0, scene.1, scene.5);
    }
}

// Whether it was told, and is so.
pub(crate) fn holds<E: Drop>(told: Result<bool, E>) -> bool {
    match told {
        Ok(told) => told,
        Err(_) => false,
    }
}

#[test]
fn objects(rt: HostRuntime) {
    all_play(&rt, rt.alloc(), OBJECTS);
}

#[test]
fn primitives(rt: HostRuntime) {
    all_play(&rt, rt.alloc(), PRIMITIVES);
}

#[test]
fn how_many(rt: HostRuntime) {
    assert!(rt; ObjectNatives::new(rt.alloc()).count() == 72);
}
