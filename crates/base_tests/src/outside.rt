ghost use Rattle.std.specs.Prelude.{◌≡◌, ◌≤◌, true, false, codes, IfOk};
ghost use Rattle.flow_io.specs.Firm.{has_file};

use crate::told::holds;
use flow_io::*;
use flow_text::OutOfMemory;
use std::alloc::Global;
use std::fs;
use std::io::{self, Cursor};
use std::process::Abort;
use std::rt::Files;
use std::test::*;

// A path, how many bytes its file may have at most, and those that are loaded, or why none are.
type Loading = (&'static str, u32, Result<&'static [u8], LoadFault>);

// A path, and its bytes, of which the later ones count.
const STORED: &[(&str, &[u8])] = &[
    ("s", b"older"),
    ("s", b"x"),
    ("long", b"a long text"),
    ("empty", b""),
];

const LOADS: &[Loading] = &[
    ("s", 1, Ok(b"x")),
    ("s", 0, Err(LoadFault::TooLong { most: 0 })),
    ("long", 11, Ok(b"a long text")),
    ("long", 10, Err(LoadFault::TooLong { most: 10 })),
    ("empty", 0, Ok(b"")),
    ("absent", 9, Err(LoadFault::ReadFault)),
];

const LOADS_OF_THE_SYSTEM: &[Loading] = &[
    ("no such file", 9, Err(LoadFault::ReadFault)),
    (".", 9, Err(LoadFault::ReadFault)),
    ("/dev/null", 0, Err(LoadFault::ReadFault)),
    ("/dev/zero", 5_000, Err(LoadFault::ReadFault)),
    ("a file", 11, Ok(b"a long text")),
    ("a file", 10, Err(LoadFault::TooLong { most: 10 })),
];

// Which put is to fail, how many bytes it keeps, and those that are taken then.
const FAILING_PUTS: &[(u64, usize, &[u8])] = &[
    (2, 3, b"pub a\npub"),
    (1, 0, b""),
    (1, 9, b"pub a\n"),
];

// How many bytes a firm sink takes, those that it takes of three pieces, and whether these are all.
const ROOMS: &[(usize, &[u8], bool)] = &[
    (13, b"pub a\npub b\n!", true),
    (12, b"pub a\npub b\n", false),
    (9, b"pub a\n", false),
    (0, b"", false),
];

// The one call of `load`, so that its clauses are met in one place.
fn loaded<F: Store>(
    alloc: Global,
    store: &mut F,
    path: &str,
    most: u32,
) -> Result<Vec<u8>, LoadFault>
    requires { F.may_ask store.old path.now ≡ true }
{
    load(alloc, store, path, most as usize)
}

fn loads<F: Store>(
    alloc: Global,
    store: &mut F,
    path: &str,
    most: u32,
    wanted: Result<&[u8], LoadFault>,
) -> bool
    requires { F.may_ask store.old path.now ≡ true }
{
    match (loaded(alloc, store, path, most), wanted) {
        (Ok(bytes), Ok(wanted)) => bytes.as_slice() == wanted,
        (Err(fault), Err(wanted)) => fault == wanted,
        _ => false,
    }
}

fn filled_store(alloc: Global) -> Result<MemoryStore, OutOfMemory> {
    let mut store = MemoryStore::new(alloc);
    for (path, bytes) in STORED {
        store.add(*path, Vec::from_slice(alloc, *bytes)?)?;
    }
    Ok(store)
}

fn all_load(rt: &impl Abort, alloc: Global, store: &mut MemoryStore) {
    for (path, most, wanted) in LOADS {
        assert!(rt; loads(alloc, store, *path, *most, *wanted), "{path} {most}");
    }
}

#[test]
fn loads_from_memory(rt: HostRuntime) -> Result<(), Fail> {
    let mut store = filled_store(rt.alloc())?;
    all_load(&rt, rt.alloc(), &mut store);
    store.short(1);
    all_load(&rt, rt.alloc(), &mut store);
    Ok(())
}

fn many_bytes(alloc: Global) -> Result<Vec<u8>, OutOfMemory> {
    let mut bytes = Vec::new(alloc);
    for i in 0..10_000u32 {
        bytes.push((i % 251) as u8)?;
    }
    Ok(bytes)
}

// A store of one file.
fn store_of(alloc: Global, bytes: &[u8]) -> Result<MemoryStore, OutOfMemory> {
    let mut store = MemoryStore::new(alloc);
    store.add("s", Vec::from_slice(alloc, bytes)?)?;
    Ok(store)
}

// A load with a read that is to fail fails, and the next one doesn't.
fn fails_once(
    alloc: Global,
    store: &mut MemoryStore,
    call: u64,
    most: u32,
    bytes: &[u8],
) -> Result<bool, OutOfMemory> {
    store.fail_at(call)?;
    let failed = loads(alloc, store, "s", most, Err(LoadFault::ReadFault));
    Ok(failed && loads(alloc, store, "s", most, Ok(bytes)))
}

fn loads_many_pieces(alloc: Global) -> Result<bool, OutOfMemory> {
    let bytes = many_bytes(alloc)?;
    let mut store = store_of(alloc, &bytes)?;
    let whole = loads(alloc, &mut store, "s", 10_000, Ok(bytes.as_slice()));
    Ok(whole && fails_once(alloc, &mut store, 6, 10_000, &bytes)?)
}

fn fails_the_first_read(alloc: Global) -> Result<bool, OutOfMemory> {
    let mut store = store_of(alloc, b"x")?;
    fails_once(alloc, &mut store, 1, 1, b"x")
}

#[test]
fn reads_that_fail(rt: HostRuntime) {
    assert!(rt; holds(loads_many_pieces(rt.alloc())));
    assert!(rt; holds(fails_the_first_read(rt.alloc())));
}

// A store whose reads give at most so many bytes, with two entries for a path.
fn firm_store(alloc: Global, most: usize) -> Result<FirmStore, OutOfMemory>
    requires { 1 ≤ most }
    ensures { IfOk result (λ store. has_file store (codes "s") ≡ true) }
{
    let mut store = FirmStore::new(alloc);
    store.add("s", Vec::from_slice(alloc, b"older")?)?;
    store.add("s", Vec::from_slice(alloc, b"a long text")?)?;
    store.short(most);
    Ok(store)
}

fn loads_firmly(
    alloc: Global,
    short: usize,
    most: u32,
    wanted: Result<&[u8], LoadFault>,
) -> Result<bool, OutOfMemory>
    requires { 1 ≤ short }
{
    let mut store = firm_store(alloc, short)?;
    Ok(loads(alloc, &mut store, "s", most, wanted))
}

#[test]
fn loads_from_a_firm_store(rt: HostRuntime) {
    assert!(rt; holds(loads_firmly(rt.alloc(), 99, 11, Ok(b"a long text"))));
    assert!(rt; holds(loads_firmly(rt.alloc(), 4, 11, Ok(b"a long text"))));
    assert!(rt; holds(loads_firmly(rt.alloc(), 1, 10, Err(LoadFault::TooLong { most: 10 }))));
}

fn sunk<S: Sink>(sink: &mut S, piece: &[u8]) -> bool
    requires { S.shut sink.old ≡ false }
{
    sink.put(piece).is_ok()
}

// Which of two puts fails.
fn failing_put(sink: &mut MemorySink) -> u64
    requires { sink.old.shut ≡ false }
{
    if sink.put(b"pub a\n").is_err() {
        return 1;
    }
    if sunk(sink, b"pub b\n") { 0 } else { 2 }
}

fn keeps(alloc: Global, call: u64, keep: usize, wanted: &[u8]) -> Result<bool, OutOfMemory> {
    let mut sink = MemorySink::new(alloc);
    sink.fail_at(call, keep)?;
    Ok(failing_put(&mut sink) == call && sink.taken() == wanted)
}

#[test]
fn takes_in_memory(rt: HostRuntime) {
    for (call, keep, wanted) in FAILING_PUTS {
        assert!(rt;
            holds(keeps(rt.alloc(), *call, *keep, *wanted)),
            "{call} {keep}"
        );
    }
}

fn takes_firmly(
    alloc: Global,
    room: usize,
    wanted: &[u8],
    whole: bool,
) -> Result<bool, OutOfMemory> {
    let mut sink = FirmSink::with_room(alloc, room)?;
    let all_put = sunk(&mut sink, b"pub a\n")
        && sunk(&mut sink, b"pub b\n")
        && sunk(&mut sink, b"!");
    Ok(all_put && sink.taken() == wanted && sink.is_whole() == whole)
}

#[test]
fn takes_in_a_firm_sink(rt: HostRuntime) {
    for (room, wanted, whole) in ROOMS {
        assert!(rt;
            holds(takes_firmly(rt.alloc(), *room, *wanted, *whole)),
            "{room}"
        );
    }
}

// Reads from two places of the file, from its end, and again.
fn reads_in_places(files: &(impl Files + AllocGlobal)) -> bool {
    let mut store = RealStore::new(files);
    let mut piece = [7; 4];
    let first = matches!(store.read("a file", 2, &mut piece), Ok(4)) && piece == *b"long";
    let last = matches!(store.read("a file", 9, &mut piece), Ok(2)) && piece == *b"xtng";
    let end = matches!(store.read("a file", 11, &mut piece), Ok(0));
    let again = matches!(store.read("a file", 7, &mut piece), Ok(4)) && piece == *b"text";
    let absent = store.read("no such file", 0, &mut piece).is_err();
    first && last && end && again && absent
}

#[test]
fn reads_the_system(rt: HostRuntime) -> Result<(), Fail> {
    fs::write(&rt, "a file", b"a long text")?;
    assert!(rt; reads_in_places(&rt));
    let mut store = RealStore::new(&rt);
    for (path, most, wanted) in LOADS_OF_THE_SYSTEM {
        assert!(rt;
            loads(rt.alloc(), &mut store, *path, *most, *wanted),
            "{path}"
        );
    }
    Ok(())
}

fn writes_what_fits() -> bool {
    let mut room = Cursor::new([0; 4]);
    let mut sink = RealSink::new(&mut room);
    if sink.put(b"abc").is_err() || sink.put(b"def").is_ok() {
        return false;
    }
    room.into_inner() == *b"abcd"
}

#[test]
fn writes_to_the_system(rt: HostRuntime) {
    assert!(rt; writes_what_fits());
    let mut sink = RealSink::new(io::writer(&rt));
    assert!(rt; sink.put(b"").is_ok());
    assert!(rt; sunk(&mut sink, b"a line\n"));
}
