ghost use Rattle.flow_policy.specs.Inputs.{IsGivenTo};
ghost use Rattle.js_ast.specs.IsMarked.{IsMarked};

use crate::programs::parsed;
use all_natives::AllNatives;
use flow_io::MemorySink;
use flow_policy::{Inputs, Policy, read_inputs, read_policy};
use js_ast::Program;
use origin_labels::{Masks, OriginList};
use std::alloc::Global;
use std::test::*;
use step_run::{Ending, Show, run};

const POLICY: &[u8] = b"origin A\nin pin A\nin note -\nout all A\nout pub -\n";

// How a run ended.
#[derive(Clone, Copy, PartialEq, Eq)]
enum End {
    Done,
    Threw,
    Stopped,
    Left,
    OutOfTurns,
    Cut,
}

fn end_of(ending: &Ending) -> End {
    match ending {
        Ending::Done => End::Done,
        Ending::Threw { .. } => End::Threw,
        Ending::Stopped { .. } => End::Stopped,
        Ending::Left(_) => End::Left,
        Ending::OutOfTurns => End::OutOfTurns,
        Ending::WriteFault | Ending::OutOfMemory => End::Cut,
    }
}

// A script, the turns of its run, how it ends and what it writes: a part of the script that is entered costs one turn, and so does each request of a built-in.
const TURNS: &[(&str, u64, End, &str)] = &[
    ("", 0, End::Done, ""),
    (";", 0, End::OutOfTurns, ""),
    (";", 1, End::Done, ""),
    ("print('pub', 'hi');", 7, End::OutOfTurns, ""),
    ("print('pub', 'hi');", 8, End::OutOfTurns, "pub hi\n"),
    ("print('pub', 'hi');", 9, End::Done, "pub hi\n"),
    ("print('pub', 1);", 10, End::Done, "pub 1\n"),
    (
        "print('pub', 'a'); while (true) {}",
        1000,
        End::OutOfTurns,
        "pub a\n",
    ),
    ("for (;;) ;", 1000, End::OutOfTurns, ""),
    (
        "print('pub', 1 + 1); print('all', read('pin')); print('pub', read('pin'));",
        1000,
        End::Stopped,
        "pub 2\nall 7\n",
    ),
    ("print('pub', 'a'); x;", 1000, End::Threw, "pub a\n"),
];

// What a run writes for an observer without origins: the lines on channels that it sees.
const SEEN: &[(&str, &str)] = &[
    (
        "print('pub', 'a'); print('all', read('pin')); print('pub', 'b');",
        "pub a\npub b\n",
    ),
    ("print('all', 'a');", ""),
];

// Whether a run ends so and writes these bytes.
fn runs(alloc: Global, script: &str, turns: u64, show: &Show, end: End, bytes: &str) -> bool {
    let Ok(program) = parsed(alloc, script) else {
        return false;
    };
    let Ok(policy) = read_policy(alloc, POLICY) else {
        return false;
    };
    let Ok(inputs) = read_inputs(alloc, &policy, b"pin 7\n") else {
        return false;
    };
    let Ok(natives) = AllNatives::new(alloc, &policy) else {
        return false;
    };
    writes(
        alloc, &natives, &program, &policy, &inputs, turns, show, end, bytes,
    )
}

fn writes(
    alloc: Global,
    natives: &AllNatives,
    program: &Program,
    policy: &Policy,
    inputs: &Inputs,
    turns: u64,
    show: &Show,
    end: End,
    bytes: &str,
) -> bool
    requires marked { IsMarked program.now }
    requires given { IsGivenTo policy.now inputs.now }
{
    let _formed = policy.origins();
    let mut sink = MemorySink::new(alloc);
    let ending = run(
        alloc, natives, program, policy, inputs, turns, show, &mut Masks, &mut sink,
    );
    end_of(&ending) == end && sink.taken() == bytes.as_bytes()
}

#[test]
fn turns_are_spent(rt: HostRuntime) {
    for (script, turns, end, bytes) in TURNS {
        assert!(rt;
            runs(rt.alloc(), *script, *turns, &Show::All, *end, *bytes),
            "{script}"
        );
    }
}

#[test]
fn lines_that_an_observer_sees(rt: HostRuntime) {
    let show = Show::Only(OriginList::new(rt.alloc()));
    for (script, bytes) in SEEN {
        assert!(rt;
            runs(rt.alloc(), *script, 1000, &show, End::Done, *bytes),
            "{script}"
        );
    }
}
