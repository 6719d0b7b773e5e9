ghost use Rattle.flow_policy.specs.Inputs.{IsGivenTo};

use crate::told::holds;
use flow_policy::*;
use flow_text::{OutOfMemory, Text};
use origin_labels::{OriginList, Origins};
use std::alloc::Global;
use std::process::Abort;
use std::test::*;

const POLICY: &[u8] = b"origin A\norigin B\nin pin A\nin note -\nout all A,B\nout pub -";

// A policy, the number of its first bad line, and what is wrong there.
const BAD_POLICIES: &[(&[u8], usize, PolicyKind)] = &[
    (b"in pin Z", 1, PolicyKind::Unknown),
    (b"origin A\norigin A", 2, PolicyKind::Repeat),
    (b"origin A\nin a A\nout a A\nin a -", 4, PolicyKind::Repeat),
    (b"label A", 1, PolicyKind::Keyword),
    (b"origin", 1, PolicyKind::Words),
    (b"origin A B", 1, PolicyKind::Words),
    (b"in a", 1, PolicyKind::Words),
    (b"out a - -", 1, PolicyKind::Words),
    (b"origin A-B", 1, PolicyKind::Name),
    (b"in a A,,B", 1, PolicyKind::Name),
    (b"in pin Z,", 1, PolicyKind::Name),
    (
        b"origin ABCDEFGHIJKLMNOPQRSTUVWXYZ0123456",
        1,
        PolicyKind::Name,
    ),
    (b"#x\n\n  \n # x\nlabel A", 5, PolicyKind::Keyword),
    (b"origin A\rB\n", 1, PolicyKind::Name),
];

// An input under that policy.
const INPUT: &[u8] = b"pin 1\nnote\r\npin  a b\npin \xC3\xA9\rx";

// A channel of it and a line's number there, and the line.
const LINES: &[((usize, usize), Option<&[u8]>)] = &[
    ((0, 0), Some(b"1")),
    ((0, 1), Some(b" a b")),
    ((0, 2), Some(b"\xC3\xA9\rx")),
    ((0, 3), None),
    ((1, 0), Some(b"")),
    ((1, 1), None),
];

// The same as of policies, of inputs.
const BAD_INPUTS: &[(&[u8], usize, InputKind)] = &[
    (b"pin 1\npox 2\n", 2, InputKind::Channel),
    (b"pin 1\n\npin 2", 2, InputKind::Channel),
    (b"pin 1\npin \xFF\npox", 2, InputKind::Utf8),
    (b"all 1", 1, InputKind::Channel),
];

// A list under that policy, and its origins, or why it is none.
const LISTS: &[(&str, Result<&[u32], ListFault>)] = &[
    ("B,A,B", Ok(&[0, 1])),
    ("-", Ok(&[])),
    ("A,,B", Err(ListFault::Form)),
    ("", Err(ListFault::Form)),
    ("A,", Err(ListFault::Form)),
    ("A-", Err(ListFault::Form)),
    ("A, B", Err(ListFault::Form)),
    ("A,Z,Y", Err(ListFault::Unknown { which: 1 })),
    ("Z", Err(ListFault::Unknown { which: 0 })),
];

// Two inputs, an observer, and the first channel on which the inputs differ for it.
type Pair = (&'static [u8], &'static [u8], &'static str, Option<usize>);

const PAIRS: &[Pair] = &[
    (b"pin 1\nnote x", b"pin 2\nnote x", "-", None),
    (b"pin 1\nnote x", b"pin 2\nnote x", "A", Some(0)),
    (b"pin 1\nnote x", b"pin 1\nnote y", "-", Some(1)),
    (b"pin 1\nnote x", b"pin 2\nnote x\nnote x", "A", Some(0)),
    (b"note x\npin 1", b"pin 1\nnote x", "A", None),
];

fn is_text(alloc: Global, text: &Text, spelling: &[u8]) -> bool {
    match Text::from_utf8(alloc, spelling) {
        Ok(other) => *text == other,
        Err(_) => false,
    }
}

fn is_channel(alloc: Global, channel: Option<&Channel>, name: &[u8], label: &[u32]) -> bool {
    match channel {
        Some(channel) => { is_text(alloc, &channel.name, name) && channel.label.items() == label }
        None => false,
    }
}

fn has_origins(alloc: Global, origins: &Origins) -> bool {
    origins.len() == 2 && is_text(alloc, origins.name(1), b"B")
}

fn has_inputs(alloc: Global, inputs: &[Channel]) -> bool {
    inputs.len() == 2
        && is_channel(alloc, inputs.get(0), b"pin", &[0])
        && is_channel(alloc, inputs.get(1), b"note", &[])
}

fn has_outputs(alloc: Global, outputs: &[Channel]) -> bool {
    outputs.len() == 2
        && is_channel(alloc, outputs.get(0), b"all", &[0, 1])
        && is_channel(alloc, outputs.get(1), b"pub", &[])
}

fn is_policy(alloc: Global) -> Result<bool, PolicyFault> {
    let policy = read_policy(alloc, POLICY)?;
    let channels = has_inputs(alloc, policy.inputs()) && has_outputs(alloc, policy.outputs());
    Ok(channels && has_origins(alloc, policy.origins()))
}

#[test]
fn a_policy(rt: HostRuntime) {
    assert!(rt; holds(is_policy(rt.alloc())));
}

fn is_bad_policy(alloc: Global, bytes: &[u8], line: usize, kind: PolicyKind) -> bool {
    read_policy(alloc, bytes).err() == Some(PolicyFault::Bad { line, kind })
}

#[test]
fn bad_policies(rt: HostRuntime) {
    for (bytes, line, kind) in BAD_POLICIES {
        assert!(rt; is_bad_policy(rt.alloc(), *bytes, *line, *kind));
    }
}

// So many lines, each with an origin of its own.
fn origin_lines(alloc: Global, count: u8) -> Result<Vec<u8>, OutOfMemory> {
    let mut bytes = Vec::new(alloc);
    for i in 0..count {
        bytes.extend_from_slice(b"origin o")?;
        bytes.extend_from_slice(&[b'0' + i / 10 % 10, b'0' + i % 10, b'\n'])?;
    }
    Ok(bytes)
}

fn is_full(alloc: Global) -> Result<bool, OutOfMemory> {
    let bytes = origin_lines(alloc, 65)?;
    Ok(is_bad_policy(alloc, &bytes, 65, PolicyKind::Many))
}

#[test]
fn a_full_table(rt: HostRuntime) {
    assert!(rt; holds(is_full(rt.alloc())));
}

fn has_line(
    alloc: Global,
    policy: &Policy,
    inputs: &Inputs,
    place: (usize, usize),
    wanted: Option<&[u8]>,
) -> bool
    requires { IsGivenTo policy.now inputs.now }
{
    let (channel, n) = place;
    if policy.inputs().len() <= channel {
        return false;
    }
    match (inputs.line(channel, n), wanted) {
        (Some(line), Some(wanted)) => is_text(alloc, line, wanted),
        (None, None) => true,
        _ => false,
    }
}

fn all_lines(rt: &impl Abort, alloc: Global, policy: &Policy, inputs: &Inputs)
    requires { IsGivenTo policy.now inputs.now }
{
    for (place, wanted) in LINES {
        assert!(rt; has_line(alloc, policy, inputs, *place, *wanted));
    }
}

fn is_bad_input(alloc: Global, policy: &Policy, row: &(&[u8], usize, InputKind)) -> bool {
    let (bytes, line, kind) = *row;
    read_inputs(alloc, policy, bytes).err() == Some(InputFault::Bad { line, kind })
}

fn no_inputs(rt: &impl Abort, alloc: Global, policy: &Policy) {
    for row in BAD_INPUTS {
        assert!(rt; is_bad_input(alloc, policy, row));
    }
}

#[test]
fn inputs(rt: HostRuntime) -> Result<(), Fail> {
    let policy = read_policy(rt.alloc(), POLICY)?;
    let inputs = read_inputs(rt.alloc(), &policy, INPUT)?;
    all_lines(&rt, rt.alloc(), &policy, &inputs);
    no_inputs(&rt, rt.alloc(), &policy);
    Ok(())
}

fn is_list(alloc: Global, policy: &Policy, list: &str, wanted: Result<&[u32], ListFault>) -> bool {
    match (read_list(alloc, policy.origins(), list), wanted) {
        (Ok(label), Ok(wanted)) => label.items() == wanted,
        (Err(fault), Err(wanted)) => fault == wanted,
        _ => false,
    }
}

fn all_lists(rt: &impl Abort, alloc: Global, policy: &Policy) {
    for (list, wanted) in LISTS {
        assert!(rt; is_list(alloc, policy, *list, *wanted), "{list}");
    }
}

#[test]
fn lists(rt: HostRuntime) -> Result<(), Fail> {
    let policy = read_policy(rt.alloc(), POLICY)?;
    all_lists(&rt, rt.alloc(), &policy);
    Ok(())
}

fn differ(
    alloc: Global,
    policy: &Policy,
    first: &[u8],
    second: &[u8],
    observer: &OriginList,
    wanted: Option<usize>,
) -> Result<bool, InputFault> {
    let first = read_inputs(alloc, policy, first)?;
    let second = read_inputs(alloc, policy, second)?;
    Ok(disagree(policy, &first, &second, observer) == wanted)
}

fn differ_for(alloc: Global, policy: &Policy, row: &Pair) -> bool {
    match read_list(alloc, policy.origins(), row.2) {
        Ok(observer) => holds(differ(alloc, policy, row.0, row.1, &observer, row.3)),
        Err(_) => false,
    }
}

fn all_pairs(rt: &impl Abort, alloc: Global, policy: &Policy) {
    for row in PAIRS {
        assert!(rt; differ_for(alloc, policy, row), "{}", row.2);
    }
}

#[test]
fn disagreements(rt: HostRuntime) -> Result<(), Fail> {
    let policy = read_policy(rt.alloc(), b"origin A\nin pin A\nin note -")?;
    all_pairs(&rt, rt.alloc(), &policy);
    Ok(())
}
