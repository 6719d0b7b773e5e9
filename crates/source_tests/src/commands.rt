//! The commands of the program over files in memory. The words, files and bytes are those of the pack `commands.cases`.

use crate::asking::{POLICY, answers};
use crate::told::holds;
use flow_io::MemoryStore;
use flow_text::OutOfMemory;
use js_shell::*;
use std::alloc::Global;
use std::process::Abort;

// Words, a script, two inputs, and what a call writes and answers.
type Call = (
    &'static [&'static str],
    &'static str,
    &'static str,
    &'static str,
    &'static str,
    Status,
);

// Runs with turns and other words.
const RUNS: &[Call] = &[
    (
        &["run", "script", "policy", "input", "--turns", "1000"],
        "while (true) {}\n",
        "",
        "",
        "! out of turns\n",
        Status::OutOfTurns,
    ),
    (
        &["run", "script", "policy", "input", "--turns", "9"],
        "print(\"pub\", \"hi\");\n",
        "",
        "",
        "pub hi\n! done\n",
        Status::Done,
    ),
    (
        &["run", "script", "policy", "input", "--turns", "8"],
        "print(\"pub\", \"hi\");\n",
        "",
        "",
        "pub hi\n! out of turns\n",
        Status::OutOfTurns,
    ),
    (
        &["run", "script", "policy", "input", "--turns", "0"],
        "",
        "",
        "",
        "! usage\n",
        Status::Usage,
    ),
    (
        &["run", "--turns", "10", "script", "policy", "input"],
        "print(\"pub\", 1);\n",
        "",
        "",
        "pub 1\n! done\n",
        Status::Done,
    ),
    (
        &["run", "script", "--turns=10", "policy", "input"],
        "print(\"pub\", 1);\n",
        "",
        "",
        "pub 1\n! done\n",
        Status::Done,
    ),
    (
        &[
            "run",
            "--observer=A",
            "script",
            "--turns",
            "60",
            "policy",
            "input",
        ],
        "print(\"pub\", 1); print(\"all\", 2);\n",
        "",
        "",
        "pub 1\n",
        Status::Done,
    ),
    (
        &[
            "run", "script", "policy", "input", "--turns", "5", "--turns", "5",
        ],
        "",
        "",
        "",
        "! usage\n",
        Status::Usage,
    ),
    (
        &["run", "--", "script", "policy", "input"],
        "print(\"pub\", 1);\n",
        "",
        "",
        "pub 1\n! done\n",
        Status::Done,
    ),
    (
        &["run", "script", "policy", "input", "--", "--turns", "5"],
        "",
        "",
        "",
        "! usage\n",
        Status::Usage,
    ),
    (
        &["run", "script", "policy", "--", "-input"],
        ";\n",
        "",
        "",
        "! read fault\n",
        Status::ReadFault,
    ),
    (&["run", "a", "b"], "", "", "", "! usage\n", Status::Usage),
    (
        &["run", "absent", "policy", "input"],
        "",
        "",
        "",
        "! read fault\n",
        Status::ReadFault,
    ),
];

// Runs for an observer.
const OBSERVED: &[Call] = &[
    (
        &["run", "script", "policy", "input", "--observer", "C"],
        "print(\"pub\", \"hi\");\n",
        "",
        "",
        "! observer Unknown C\n",
        Status::Policy,
    ),
    (
        &["run", "script", "policy", "input", "--observer", "A,D,C"],
        ";\n",
        "",
        "",
        "! observer Unknown D\n",
        Status::Policy,
    ),
    (
        &["run", "script", "policy", "input", "--observer", "A,B,A"],
        "print(\"pub\", 1); print(\"all\", 2);\n",
        "",
        "",
        "pub 1\nall 2\n",
        Status::Done,
    ),
    (
        &["run", "script", "policy", "input", "--observer", "-"],
        "print(\"pub\", 1); print(\"all\", 2);\n",
        "",
        "",
        "pub 1\n",
        Status::Done,
    ),
    (
        &["run", "script", "policy", "input", "--observer", "A,"],
        "",
        "",
        "",
        "! usage\n",
        Status::Usage,
    ),
    (
        &["run", "script", "policy", "input", "--observer", "B"],
        "print(\"pub\", 1); print(\"pub\", read(\"pin\"));\n",
        "pin 1\n",
        "",
        "pub 1\n",
        Status::Stopped,
    ),
    (
        &["run", "script", "policy", "input", "--observer", "A"],
        "print(\"pub\", 1); throw \"x\";\n",
        "",
        "",
        "pub 1\n",
        Status::Threw,
    ),
    (
        &["run", "script", "policy", "input", "--observer", "-"],
        "Date;\n",
        "",
        "",
        "",
        Status::Left,
    ),
    (
        &[
            "run",
            "script",
            "policy",
            "input",
            "--observer",
            "-",
            "--turns",
            "10",
        ],
        "print(\"pub\", 1); print(\"pub\", 2);\n",
        "",
        "",
        "pub 1\n",
        Status::OutOfTurns,
    ),
    (
        &["run", "script", "policy", "input", "--observer", "A,B"],
        ";\n",
        "",
        "",
        "",
        Status::Done,
    ),
    (
        &["run", "script", "policy", "input", "--observer", "A"],
        ")\n",
        "",
        "",
        "! source Syntax at 1:1\n",
        Status::Source,
    ),
    (
        &["run", "script", "policy", "input", "--observer", "A"],
        ";\n",
        "pox 1\n",
        "",
        "! input Channel at line 1\n",
        Status::Policy,
    ),
    (
        &["run", "script", "policy", "input", "--observer", "C"],
        ";\n",
        "pox 1\n",
        "",
        "! observer Unknown C\n",
        Status::Policy,
    ),
];

// Pairs.
const PAIRS: &[Call] = &[
    (
        &["pair", "script", "policy", "input", "second", "B"],
        "try { \"flow exc A\"; if (read(\"pin\") == \"1\") throw 1; } catch (e) {} print(\"pub\", \"after\");\n",
        "pin 1\n",
        "pin 2\n",
        "pub after\n! equal\n",
        Status::Done,
    ),
    (
        &["pair", "script", "policy", "input", "second", "B"],
        "var x = 0; if (read(\"pin\") == \"1\") x = 1; print(\"pub\", x);\n",
        "pin 1\n",
        "pin 2\n",
        "! unfinished stopped W1 need A have - / done\n",
        Status::Unfinished,
    ),
    (
        &["pair", "script", "policy", "input", "second", "B"],
        "print(\"pub\", \"hi\");\n",
        "note x\n",
        "note y\n",
        "! inputs differ on note\n",
        Status::Policy,
    ),
    (
        &["pair", "script", "policy", "input", "second"],
        "",
        "",
        "",
        "! usage\n",
        Status::Usage,
    ),
    (
        &["pair", "script", "policy", "input", "second", "A", "A"],
        "",
        "",
        "",
        "! usage\n",
        Status::Usage,
    ),
    (
        &[
            "pair",
            "script",
            "policy",
            "input",
            "second",
            "A",
            "--observer",
            "A",
        ],
        "",
        "",
        "",
        "! usage\n",
        Status::Usage,
    ),
    (
        &["pair", "script", "policy", "input", "second", "A,B"],
        "print(\"all\", 1); print(\"pub\", 2);\n",
        "pin 1\n",
        "pin 1\n",
        "all 1\npub 2\n! equal\n",
        Status::Done,
    ),
    (
        &["pair", "script", "policy", "input", "second", "B"],
        "print(\"pub\", 1); \"flow exc A\"; if (read(\"pin\") == \"1\") throw 1;\n",
        "pin 1\n",
        "pin 2\n",
        "pub 1\n! equal\n",
        Status::Done,
    ),
    (
        &["pair", "script", "policy", "input", "second", "-"],
        "print(\"pub\", 1); print(\"pub\", read(\"pin\"));\n",
        "pin 1\n",
        "pin 2\n",
        "! unfinished stopped W12 need A have - / stopped W12 need A have -\n",
        Status::Unfinished,
    ),
    (
        &["pair", "script", "policy", "input", "second", "-"],
        ";\n",
        "pin 1\n",
        "pin 1\npox 2\n",
        "! input2 Channel at line 2\n",
        Status::Policy,
    ),
    (
        &["pair", "script", "policy", "input", "absent", "-"],
        ";\n",
        "",
        "",
        "! read fault\n",
        Status::ReadFault,
    ),
    (
        &["pair", "script", "policy", "input", "second", "A,Z"],
        ";\n",
        "pox 1\n",
        "",
        "! observer Unknown Z\n",
        Status::Policy,
    ),
];

// Scripts that are made, and trials.
const MADE: &[Call] = &[
    (
        &["make", "3"],
        "",
        "",
        "",
        "var t = 0, s = read(\"pin\");\n(function (o) { o.n = o.n + 1; t = t + o.n; })({ n: t % 10 });\n(function (o) { o.n = o.n + 2; t = t + o.n; })({ n: t % 10 });\n(function (o) { o.n = o.n + 3; t = t + o.n; })({ n: t % 10 });\nprint(\"pub\", t);\nprint(\"all\", s);\n",
        Status::Done,
    ),
    (
        &["trial", "3"],
        "",
        "",
        "",
        "! made 251 bytes, 2 lines, done\n",
        Status::Done,
    ),
    (&["make", "10001"], "", "", "", "! usage\n", Status::Usage),
    (
        &["make", "3", "--turns", "5"],
        "",
        "",
        "",
        "! usage\n",
        Status::Usage,
    ),
    (
        &["trial", "3", "--turns", "5"],
        "",
        "",
        "",
        "! usage\n",
        Status::Usage,
    ),
];

// More origins than a word has bits.
const MANY: (&str, &str, &str, &str) = (
    "origin o1\norigin o2\norigin o3\norigin o4\norigin o5\norigin o6\norigin o7\norigin o8\norigin o9\norigin o10\norigin o11\norigin o12\norigin o13\norigin o14\norigin o15\norigin o16\norigin o17\norigin o18\norigin o19\norigin o20\norigin o21\norigin o22\norigin o23\norigin o24\norigin o25\norigin o26\norigin o27\norigin o28\norigin o29\norigin o30\norigin o31\norigin o32\norigin o33\norigin o34\norigin o35\norigin o36\norigin o37\norigin o38\norigin o39\norigin o40\nin pin o1,o40\nout pub -\n",
    "print(\"pub\", read(\"pin\"));\n",
    "pin 7\n",
    "! stopped W12 need o1,o40 have -\n",
);

fn files(
    alloc: Global,
    policy: &str,
    script: &str,
    input: &str,
    second: &str,
) -> Result<MemoryStore, OutOfMemory> {
    let mut store = MemoryStore::new(alloc);
    store.add("script", Vec::from_slice(alloc, script.as_bytes())?)?;
    store.add("policy", Vec::from_slice(alloc, policy.as_bytes())?)?;
    store.add("input", Vec::from_slice(alloc, input.as_bytes())?)?;
    store.add("second", Vec::from_slice(alloc, second.as_bytes())?)?;
    Ok(store)
}

fn is_called(
    alloc: Global,
    words: &[&str],
    script: &str,
    input: &str,
    second: &str,
    bytes: &str,
    status: Status,
) -> Result<bool, OutOfMemory> {
    let mut store = files(alloc, POLICY, script, input, second)?;
    answers(alloc, words, &mut store, bytes, status)
}

fn all_called(rt: &impl Abort, alloc: Global, calls: &[Call]) {
    for (words, script, input, second, bytes, status) in calls {
        let told = is_called(alloc, *words, *script, *input, *second, *bytes, *status);
        assert!(rt; holds(told), "{script}");
    }
}

#[test]
fn runs_with_options(rt: HostRuntime) {
    all_called(&rt, rt.alloc(), RUNS);
    all_called(&rt, rt.alloc(), OBSERVED);
}

#[test]
fn pairs(rt: HostRuntime) {
    all_called(&rt, rt.alloc(), PAIRS);
}

#[test]
fn scripts_that_are_made(rt: HostRuntime) {
    all_called(&rt, rt.alloc(), MADE);
}

fn many_answer(alloc: Global) -> Result<bool, OutOfMemory> {
    let (policy, script, input, bytes) = MANY;
    let mut store = files(alloc, policy, script, input, "")?;
    answers(
        alloc,
        &["run", "script", "policy", "input"],
        &mut store,
        bytes,
        Status::Stopped,
    )
}

#[test]
fn many_origins(rt: HostRuntime) {
    assert!(rt; holds(many_answer(rt.alloc())));
}
