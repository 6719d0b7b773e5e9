use crate::objects::holds;
use crate::scenes::{Scene, Told, plays};
use all_natives::AllNatives;
use channels::ChannelNatives;
use flow_policy::{Policy, read_policy};
use flow_text::OutOfMemory;
use native_protocol::Natives;
use std::alloc::Global;
use std::process::Abort;
use std::test::*;

const POLICY: &[u8] = b"origin A\norigin B\nin pin A\nout pub -\n";

// The functions of the product.
const CHANNELS: &[Scene] = &[
    ("global", "lbl", 1, false, &[], "label 0"),
    ("global", "lbl", 2, false, &[Told::Text("B")], "label 1"),
    (
        "global",
        "lbl",
        2,
        false,
        &[Told::Text("Z")],
        "leave origin",
    ),
    ("global", "read", 1, false, &[Told::Text("pin")], "line"),
    (
        "global",
        "read",
        1,
        false,
        &[Told::Undefined],
        "leave channel",
    ),
    (
        "global",
        "print",
        2,
        false,
        &[Told::Text("pub"), Told::Number(7)],
        "make 7",
    ),
    (
        "global",
        "print",
        2,
        false,
        &[Told::Text("pub"), Told::Text("x")],
        "print",
    ),
    (
        "global",
        "upgs",
        2,
        false,
        &[Told::Number(1)],
        "throw TypeError",
    ),
];

// Others, in the set of all.
const OTHERS: &[Scene] = &[
    ("global", "Object", 1, false, &[Told::Undefined], "new"),
    ("Math", "abs", 1, false, &[Told::Number(-3)], "make 3"),
    ("Math", "tan", 1, false, &[], "leave Math.tan"),
    ("global", "eval", 1, false, &[], "leave eval"),
    (
        "Number",
        "MAX_VALUE",
        0,
        false,
        &[],
        "leave Number.MAX_VALUE",
    ),
    (
        "Object",
        "isExtensible",
        1,
        false,
        &[Told::True],
        "throw TypeError",
    ),
];

fn all_play<N: Natives>(rt: &impl Abort, alloc: Global, natives: &N, count: u32, scenes: &[Scene]) {
    assert!(rt; natives.count() == count);
    for scene in scenes {
        let played = holds(plays(alloc, natives, scene));
        assert!(rt; played, "{} {} {}", scene.0, scene.1, scene.5);
    }
}

fn policy_of(alloc: Global) -> Result<Policy, OutOfMemory> {
    let Ok(policy) = read_policy(alloc, POLICY) else {
        return Err(OutOfMemory);
    };
    Ok(policy)
}

fn channels_of(alloc: Global) -> Result<ChannelNatives, OutOfMemory> {
    let policy = policy_of(alloc)?;
    ChannelNatives::new(alloc, &policy)
}

fn all_of(alloc: Global) -> Result<AllNatives, OutOfMemory> {
    let policy = policy_of(alloc)?;
    AllNatives::new(alloc, &policy)
}

#[test]
fn the_five(rt: HostRuntime) {
    let alloc = rt.alloc();
    let made = channels_of(alloc);
    assert!(rt; made.is_ok());
    if let Ok(natives) = made {
        all_play(&rt, alloc, &natives, 5, CHANNELS);
    }
}

#[test]
fn the_set_of_all(rt: HostRuntime) {
    let alloc = rt.alloc();
    let made = all_of(alloc);
    assert!(rt; made.is_ok());
    if let Ok(natives) = made {
        all_play(&rt, alloc, &natives, 137, CHANNELS);
        all_play(&rt, alloc, &natives, 137, OTHERS);
    }
}
