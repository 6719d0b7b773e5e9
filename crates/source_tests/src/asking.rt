//! Calls of the program's one function over files in memory.

ghost use Rattle.std.specs.Prelude.{◌≡◌, false};

use flow_io::{MemorySink, MemoryStore};
use flow_text::OutOfMemory;
use js_shell::*;
use std::alloc::Global;

pub(crate) const RUN: &[&str] = &["run", "s", "p", "i"];

pub(crate) const POLICY: &str = "origin A\norigin B\nin pin A\nin note -\nout all A,B\nout pub -\n";

pub(crate) fn words_of(alloc: Global, texts: &[&str]) -> Result<Vec<String>, OutOfMemory> {
    let mut words = Vec::new(alloc);
    for text in texts {
        words.push(String::from_str(alloc, *text)?)?;
    }
    Ok(words)
}

pub(crate) fn files(
    alloc: Global,
    script: &str,
    policy: &str,
    input: &str,
) -> Result<MemoryStore, OutOfMemory> {
    let mut store = MemoryStore::new(alloc);
    store.add("s", Vec::from_slice(alloc, script.as_bytes())?)?;
    store.add("p", Vec::from_slice(alloc, policy.as_bytes())?)?;
    store.add("i", Vec::from_slice(alloc, input.as_bytes())?)?;
    Ok(store)
}

pub(crate) fn two_lines(alloc: Global) -> Result<MemoryStore, OutOfMemory> {
    let script = "print(\"pub\", \"a\"); print(\"pub\", \"b\");";
    files(alloc, script, POLICY, "")
}

// The one call of the program, so that its clauses are met in one place.
pub(crate) fn status_of(
    alloc: Global,
    words: &[String],
    store: &mut MemoryStore,
    sink: &mut MemorySink,
) -> Status
    requires { sink.old.shut ≡ false }
{
    shell(alloc, words, store, sink)
}

pub(crate) fn answers(
    alloc: Global,
    texts: &[&str],
    store: &mut MemoryStore,
    bytes: &str,
    status: Status,
) -> Result<bool, OutOfMemory> {
    let words = words_of(alloc, texts)?;
    let mut sink = MemorySink::new(alloc);
    let told = status_of(alloc, &words, store, &mut sink);
    Ok(told == status && sink.taken() == bytes.as_bytes())
}
