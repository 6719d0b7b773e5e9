//! Requests over files in memory, with what they state or the reports of their refusals.

ghost use Rattle.std.specs.Prelude.{◌≡◌, true};

use crate::told::holds;
use flow_io::MemoryStore;
use flow_text::OutOfMemory;
use run_files::*;
use std::alloc::Global;
use std::process::Abort;

// A script, a policy, an input and a second input.
type Four<'a> = (&'a str, &'a str, &'a str, &'a str);

const REQUEST: Request = Request {
    script: "s",
    policy: "p",
    observer: Some("A,C"),
    input: "i",
    second: Some("j"),
};

const POLICY: &str = "origin A\norigin C\nin pin A\n";

// Files, and that they state a task, or the report of their refusal: one for each file that is read, in their order.
const REQUESTS: &[(Four<'static>, &str)] = &[
    (("1;", POLICY, "pin 1\n", "pin 2\n"), "whole"),
    (("#", "", "", ""), "! source BadToken at 1:1\n"),
    (
        ("1;", "origin A\norigin A\n", "", ""),
        "! policy Repeat at line 2\n",
    ),
    (("1;", "origin A\n", "a", "a"), "! observer Unknown C\n"),
    (
        ("1;", POLICY, "pin 1\npox 2\n", "a"),
        "! input Channel at line 2\n",
    ),
    (
        ("1;", POLICY, "pin 1\n", "pox 2\n"),
        "! input2 Channel at line 1\n",
    ),
];

fn store_of(alloc: Global, files: &Four<'_>) -> Result<MemoryStore, OutOfMemory> {
    let mut store = MemoryStore::new(alloc);
    store.add("s", Vec::from_slice(alloc, files.0.as_bytes())?)?;
    store.add("p", Vec::from_slice(alloc, files.1.as_bytes())?)?;
    store.add("i", Vec::from_slice(alloc, files.2.as_bytes())?)?;
    store.add("j", Vec::from_slice(alloc, files.3.as_bytes())?)?;
    Ok(store)
}

fn is_whole(task: &Task) -> bool {
    task.observer.is_some() && task.second.is_some() && task.policy.origins().len() == 2
}

// The one call of `accept_task`, so that its clauses are met in one place: the report of the refusal, or whether the task has all its parts.
fn report_of(alloc: Global, store: &mut MemoryStore) -> Result<Vec<u8>, OutOfMemory> {
    match accept_task(alloc, &REQUEST, store) {
        Ok(task) => Ok(Vec::from_slice(alloc, if is_whole(&task) { b"whole" } else { b"" })?),
        Err(refusal) => refusal.report(alloc),
    }
}

fn has_report(alloc: Global, files: &Four<'_>, wanted: &str) -> Result<bool, OutOfMemory> {
    let mut store = store_of(alloc, files)?;
    let report = report_of(alloc, &mut store)?;
    Ok(report.as_slice() == wanted.as_bytes())
}

#[test]
fn files_of_requests(rt: HostRuntime) {
    for (files, report) in REQUESTS {
        assert!(rt; holds(has_report(rt.alloc(), files, *report)), "{report}");
    }
}

fn is_program(alloc: Global, script: &str) -> Result<bool, OutOfMemory> {
    let mut store = store_of(alloc, &(script, "", "", ""))?;
    Ok(accept_program(alloc, &mut store, "s").is_ok())
}

#[test]
fn scripts_alone(rt: HostRuntime) {
    assert!(rt; holds(is_program(rt.alloc(), "1;")));
    assert!(rt; !holds(is_program(rt.alloc(), "#")));
}
