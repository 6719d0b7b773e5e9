//! The program at its limits: the deepest program, the longest files and texts, and stores and sinks that fail.

use crate::asking::{POLICY, RUN, answers, files, status_of, two_lines, words_of};
use crate::told::holds;
use flow_io::MemorySink;
use flow_text::OutOfMemory;
use js_shell::*;
use std::alloc::Global;

const CHECK: &[&str] = &["check", "s"];

// How many parentheses stand round a number, and what a check and a run of it write.
const DEPTHS: &[(&[&str], usize, &str, Status)] = &[
    (CHECK, 200, "! accepted\n", Status::Done),
    (CHECK, 201, "! source Nesting at 1:201\n", Status::Source),
    (RUN, 200, "! done\n", Status::Done),
    (RUN, 201, "! source Nesting at 1:201\n", Status::Source),
];

// The call of a sink that fails, how much that keeps, and what the sink has then.
const WRITES: &[(u64, usize, &str)] = &[
    (1, 0, ""),
    (2, 3, "pub a\npub"),
    (3, 100, "pub a\npub b\n! done\n"),
];

// A script, how many bytes a run writes over an input with the longest line, and what it answers.
const LONGEST: &[(&str, usize, Status)] = &[
    (
        "print(\"all\", read(\"pin\") + \"abcd\");",
        1_048_588,
        Status::Done,
    ),
    (
        "print(\"all\", read(\"pin\") + \"abcde\");",
        14,
        Status::Left,
    ),
];

// Bytes, filled up to a length with one byte, and other bytes behind them.
type Filled = (&'static [u8], usize, u8, &'static [u8]);

// A file of these, and what a run writes and answers: each limit, and one more; bytes that aren't UTF-8.
const LIMITS: &[(&str, Filled, &str, Status)] = &[
    ("p", (b"#", 65_536, b'x', b""), "! done\n", Status::Done),
    (
        "p",
        (b"#", 65_537, b'x', b""),
        "! policy TooLong\n",
        Status::Policy,
    ),
    (
        "i",
        (b"pin 1\npin \xFF\n", 0, b'x', b""),
        "! input Utf8 at line 2\n",
        Status::Policy,
    ),
    (
        "i",
        (b"pin ", 1_048_577, b'x', b""),
        "! input TooLong\n",
        Status::Policy,
    ),
    (
        "s",
        (b"a\xC3", 0, b' ', b""),
        "! source Utf8 at byte 1\n",
        Status::Source,
    ),
    ("s", (b"", 65_536, b' ', b""), "! done\n", Status::Done),
    ("s", (b"", 65_537, b' ', b""), "! done\n", Status::Done),
    (
        "s",
        (b"", 65_537, b' ', b"#"),
        "! source BadToken at 1:65538\n",
        Status::Source,
    ),
    (
        "s",
        (b"", 1_048_577, b' ', b""),
        "! source TooLong\n",
        Status::Source,
    ),
];

// So many parentheses round a number.
fn nested(alloc: Global, depth: usize) -> Result<Vec<u8>, OutOfMemory> {
    let mut script = Vec::new(alloc);
    script.resize(depth, b'(')?;
    script.push(b'1')?;
    for _ in 0..depth {
        script.push(b')')?;
    }
    script.push(b';')?;
    Ok(script)
}

// Whether a call answers so over files of which one is this.
fn answers_over(
    alloc: Global,
    texts: &[&str],
    path: &str,
    file: Vec<u8>,
    bytes: &str,
    status: Status,
) -> Result<bool, OutOfMemory> {
    let mut store = files(alloc, "", POLICY, "")?;
    store.add(path, file)?;
    answers(alloc, texts, &mut store, bytes, status)
}

fn is_nested(
    alloc: Global,
    texts: &[&str],
    depth: usize,
    bytes: &str,
    status: Status,
) -> Result<bool, OutOfMemory> {
    let script = nested(alloc, depth)?;
    answers_over(alloc, texts, "s", script, bytes, status)
}

#[test]
fn the_deepest_program(rt: HostRuntime) {
    for (texts, depth, bytes, status) in DEPTHS {
        let told = is_nested(rt.alloc(), *texts, *depth, *bytes, *status);
        assert!(rt; holds(told), "{bytes}");
    }
}

// Whether a run ends by a read fault where a call of the store fails, which gives all that is asked for or shorter pieces.
fn read_fails(alloc: Global, call: u64, shorter: bool) -> Result<bool, OutOfMemory> {
    let mut store = two_lines(alloc)?;
    if shorter {
        store.short(7);
    }
    store.fail_at(call)?;
    answers(alloc, RUN, &mut store, "! read fault\n", Status::ReadFault)
}

// Three files take two calls each, or more by shorter pieces.
#[test]
fn a_store_that_fails(rt: HostRuntime) {
    for call in 1..=4u64 {
        assert!(rt; holds(read_fails(rt.alloc(), call, false)), "{call}");
        assert!(rt; holds(read_fails(rt.alloc(), call, true)), "{call}");
    }
}

fn write_fails(alloc: Global, call: u64, keep: usize, bytes: &str) -> Result<bool, OutOfMemory> {
    let words = words_of(alloc, RUN)?;
    let mut store = two_lines(alloc)?;
    let mut sink = MemorySink::new(alloc);
    sink.fail_at(call, keep)?;
    let told = status_of(alloc, &words, &mut store, &mut sink);
    Ok(told == Status::WriteFault && sink.taken() == bytes.as_bytes())
}

#[test]
fn a_sink_that_fails(rt: HostRuntime) {
    for (call, keep, bytes) in WRITES {
        assert!(rt;
            holds(write_fails(rt.alloc(), *call, *keep, *bytes)),
            "{call}"
        );
    }
}

fn filled(alloc: Global, file: &Filled) -> Result<Vec<u8>, OutOfMemory> {
    let mut bytes = Vec::from_slice(alloc, file.0)?;
    if bytes.len() < file.1 {
        bytes.resize(file.1, file.2)?;
    }
    bytes.extend_from_slice(file.3)?;
    Ok(bytes)
}

fn writes_long(
    alloc: Global,
    script: &str,
    len: usize,
    status: Status,
) -> Result<bool, OutOfMemory> {
    let words = words_of(alloc, RUN)?;
    let mut store = files(alloc, script, POLICY, "")?;
    store.add("i", filled(alloc, &(b"pin ", 1_048_576, b'x', b""))?)?;
    let mut sink = MemorySink::new(alloc);
    let told = status_of(alloc, &words, &mut store, &mut sink);
    Ok(told == status && sink.taken().len() == len)
}

// The longest text has 1,048,576 units.
#[test]
fn the_longest_text(rt: HostRuntime) {
    for (script, len, status) in LONGEST {
        let told = writes_long(rt.alloc(), *script, *len, *status);
        assert!(rt; holds(told), "{script}");
    }
}

fn origin_lines(alloc: Global, count: u8) -> Result<Vec<u8>, OutOfMemory> {
    let mut origins = Vec::new(alloc);
    for i in 0..count {
        origins.extend_from_slice(b"origin O")?;
        origins.extend_from_slice(&[b'0' + i / 10 % 10, b'0' + i % 10, b'\n'])?;
    }
    Ok(origins)
}

fn has_too_many_origins(alloc: Global) -> Result<bool, OutOfMemory> {
    let policy = origin_lines(alloc, 65)?;
    let report = "! policy Many at line 65\n";
    answers_over(alloc, RUN, "p", policy, report, Status::Policy)
}

fn runs_over(
    alloc: Global,
    path: &str,
    file: &Filled,
    bytes: &str,
    status: Status,
) -> Result<bool, OutOfMemory> {
    let file = filled(alloc, file)?;
    answers_over(alloc, RUN, path, file, bytes, status)
}

#[test]
fn limits_of_files(rt: HostRuntime) {
    assert!(rt; holds(has_too_many_origins(rt.alloc())));
    for (path, file, bytes, status) in LIMITS {
        let told = runs_over(rt.alloc(), *path, file, *bytes, *status);
        assert!(rt; holds(told), "{bytes}");
    }
}
