//! The commands.

ghost use Rattle.std.specs.Prelude.{◌≡◌, ◌≤◌, ℕ, true, false, List, [], Some, IfOk};
ghost use Rattle.flow_io.specs.Files.{Rose, IsStoreKept};
ghost use Rattle.command_line.specs.Reading.{run_seen, pair_seen};
ghost use Rattle.run_files.specs.Tasks.{Reaches};
ghost use Rattle.js_shell.specs.Answering.{Answers, Puts, is_write_fault};
ghost use Rattle.js_shell.specs.Promises.{UnlessEarly};
ghost use Rattle.js_shell.specs.Replies.{Plan, run_plan, pair_plan, trial_plan, trial_files_of, made_reply, IsProgramReply, IsPlanReply};

use crate::comparing::compare;
use crate::putting::{put_reply, refuse};
use crate::running::run;
use crate::status::Status;
use crate::trying::try_task;
use command_line::{PairWords, RunWords};
use flow_io::{FirmStore, Sink, Store};
use flow_text::OutOfMemory;
use run_files::{Request, accept_program, accept_task};
use script_maker::make;
use std::alloc::Global;

/// Checks a script.
pub(crate) fn check<F: Store, K: Sink>(
    alloc: Global,
    script: &str,
    store: &mut F,
    sink: &mut K,
) -> Status
    requires asked { F.may_ask store.old script.now ≡ true }
    requires open { K.shut sink.old ≡ false }
    ensures answers { Answers (F.contents store.old) (IsProgramReply script.now) (Rose (F.faults store.old) (F.faults store.new)) (K.taken sink.old) (K.taken sink.new) result }
    ensures no_read_fault { UnlessEarly result (F.faults store.new ≡ F.faults store.old) }
    ensures kept { IsStoreKept F.contents F.may_ask F.faults store.old store.new }
    ensures used { ¬ (result ≡ Status.Usage) }
    ensures shut { K.shut sink.new ≡ is_write_fault result }
    ensures faults_stay { K.faults sink.old ≤ K.faults sink.new }
    ensures failed { result ≡ Status.WriteFault → Rose (K.faults sink.old) (K.faults sink.new) }
{
    match accept_program(alloc, store, script) {
        Ok(()) => put_reply(sink, b"! accepted\n", Status::Done),
        Err(refusal) => refuse(alloc, &refusal, sink),
    }
}

/// Runs a script under a policy with an input.
pub(crate) fn run_one<F: Store, K: Sink>(
    alloc: Global,
    words: &RunWords<'_>,
    store: &mut F,
    sink: &mut K,
) -> Status
    requires asked { (path : List ℕ) → Reaches (F.contents store.old) (run_plan (run_seen words.now)).request path → F.may_ask store.old path ≡ true }
    requires open { K.shut sink.old ≡ false }
    ensures answers { Answers (F.contents store.old) (IsPlanReply (run_plan (run_seen words.now))) (Rose (F.faults store.old) (F.faults store.new)) (K.taken sink.old) (K.taken sink.new) result }
    ensures no_read_fault { UnlessEarly result (F.faults store.new ≡ F.faults store.old) }
    ensures kept { IsStoreKept F.contents F.may_ask F.faults store.old store.new }
    ensures used { ¬ (result ≡ Status.Usage) }
    ensures shut { K.shut sink.new ≡ is_write_fault result }
    ensures faults_stay { K.faults sink.old ≤ K.faults sink.new }
    ensures failed { result ≡ Status.WriteFault → Rose (K.faults sink.old) (K.faults sink.new) }
{
    let request = Request {
        script: words.script,
        policy: words.policy,
        observer: words.observer,
        input: words.input,
        second: None,
    };
    match accept_task(alloc, &request, store) {
        Ok(task) => run(alloc, &task, words.turns, sink),
        Err(refusal) => refuse(alloc, &refusal, sink),
    }
}

/// Runs a script under a policy with two inputs, and compares what an observer sees.
pub(crate) fn run_two<F: Store, K: Sink>(
    alloc: Global,
    words: &PairWords<'_>,
    store: &mut F,
    sink: &mut K,
) -> Status
    requires asked { (path : List ℕ) → Reaches (F.contents store.old) (pair_plan (pair_seen words.now)).request path → F.may_ask store.old path ≡ true }
    requires open { K.shut sink.old ≡ false }
    ensures answers { Answers (F.contents store.old) (IsPlanReply (pair_plan (pair_seen words.now))) (Rose (F.faults store.old) (F.faults store.new)) (K.taken sink.old) (K.taken sink.new) result }
    ensures no_read_fault { UnlessEarly result (F.faults store.new ≡ F.faults store.old) }
    ensures kept { IsStoreKept F.contents F.may_ask F.faults store.old store.new }
    ensures used { ¬ (result ≡ Status.Usage) }
    ensures shut { K.shut sink.new ≡ is_write_fault result }
    ensures faults_stay { K.faults sink.old ≤ K.faults sink.new }
    ensures failed { result ≡ Status.WriteFault → Rose (K.faults sink.old) (K.faults sink.new) }
{
    let request = Request {
        script: words.script,
        policy: words.policy,
        observer: Some(words.observer),
        input: words.first,
        second: Some(words.second),
    };
    match accept_task(alloc, &request, store) {
        Ok(task) => compare(alloc, &task, words.turns, sink),
        Err(refusal) => refuse(alloc, &refusal, sink),
    }
}

/// Writes the script that the generator makes of a number.
pub(crate) fn write_script<K: Sink>(alloc: Global, number: u32, sink: &mut K) -> Status
    requires least { 1 ≤ number }
    requires most { number ≤ 10000 }
    requires open { K.shut sink.old ≡ false }
    ensures puts { Puts (made_reply number) result (K.taken sink.old) (K.taken sink.new) }
    ensures used { ¬ (result ≡ Status.Usage) }
    ensures shut { K.shut sink.new ≡ is_write_fault result }
    ensures faults_stay { K.faults sink.old ≤ K.faults sink.new }
    ensures failed { result ≡ Status.WriteFault → Rose (K.faults sink.old) (K.faults sink.new) }
{
    match make(alloc, number) {
        Ok(script) => put_reply(sink, &script, Status::Done),
        Err(OutOfMemory) => Status::OutOfMemory,
    }
}

/// Runs the script that the generator makes of a number, in memory, and shows how that went.
pub(crate) fn try_script<K: Sink>(alloc: Global, number: u32, sink: &mut K) -> Status
    requires least { 1 ≤ number }
    requires most { number ≤ 10000 }
    requires open { K.shut sink.old ≡ false }
    ensures answers { Answers (Some []) (IsPlanReply (trial_plan number)) ⊥ (K.taken sink.old) (K.taken sink.new) result }
    ensures used { ¬ (result ≡ Status.Usage) }
    ensures shut { K.shut sink.new ≡ is_write_fault result }
    ensures faults_stay { K.faults sink.old ≤ K.faults sink.new }
    ensures failed { result ≡ Status.WriteFault → Rose (K.faults sink.old) (K.faults sink.new) }
{
    let Ok(script) = make(alloc, number) else {
        return Status::OutOfMemory;
    };
    let made = script.len();
    let Ok(mut store) = trial_store(alloc, script) else {
        return Status::OutOfMemory;
    };
    let request = Request {
        script: "script",
        policy: "policy",
        observer: None,
        input: "input",
        second: None,
    };
    match accept_task(alloc, &request, &mut store) {
        Ok(task) => try_task(alloc, &task, made, sink),
        Err(refusal) => refuse(alloc, &refusal, sink),
    }
}

/// What the script of a trial reads.
const TRIAL_POLICY: &[u8] = b"origin A\norigin B\nin pin A\nin note -\nout all A,B\nout pub -\n";

const TRIAL_INPUT: &[u8] = b"pin 5\n";

fn trial_store(alloc: Global, script: Vec<u8>) -> Result<FirmStore, OutOfMemory>
    ensures { IfOk result (λ store. store.files ≡ trial_files_of script.items) }
{
    let mut store = FirmStore::new(alloc);
    store.add("input", Vec::from_slice(alloc, TRIAL_INPUT)?)?;
    store.add("policy", Vec::from_slice(alloc, TRIAL_POLICY)?)?;
    store.add("script", script)?;
    Ok(store)
}
