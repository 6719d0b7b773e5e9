//! Pairs of runs, and their reports.

ghost use Rattle.std.specs.Prelude.{◌≡◌, ◌≤◌, ◌<◌, ◌⊎◌, ◌++◌, false, length, codes, Some, IfOk, IfSome};
ghost use Rattle.flow_io.specs.Files.{Rose};
ghost use Rattle.run_files.specs.Seen.{seen_task};
ghost use Rattle.js_shell.specs.Answering.{Puts, is_write_fault};
ghost use Rattle.flow_policy.specs.Inputs.{IsGivenTo};
ghost use Rattle.js_ast.specs.IsMarked.{IsMarked};
ghost use Rattle.step_run.specs.Ran.{HasDeclared, told_by};
ghost use Rattle.pair_runs.specs.Pairs.{HaveDeclared, is_write_fault as pairs_write_fault};
ghost use Rattle.js_shell.specs.Comparing.{IsChannelOf, PutsEnd};
ghost use Rattle.js_shell.specs.Replies.{pair_reply, unfinished_report, differ_report};

use crate::putting::put_reply;
use crate::report::ending_bytes;
use crate::running::{FEW_ORIGINS, ROOM, copy_of, run};
use crate::status::Status;
use all_natives::AllNatives;
use flow_io::Sink;
use flow_policy::{Inputs, Policy};
use flow_text::OutOfMemory;
use interned_labels::Interned;
use origin_labels::{Labels, Masks, OriginList};
use pair_runs::{PairEnd, pair};
use run_files::Task;
use std::alloc::Global;
use step_run::Ending;

/// Runs a task with both of its inputs, and puts what its observer sees of both, or why there is nothing to see.
pub(crate) fn compare<K: Sink>(alloc: Global, task: &Task, turns: u64, sink: &mut K) -> Status
    requires marked { IsMarked task.now.script }
    requires given { IsGivenTo task.now.policy task.now.inputs }
    requires second { IfSome task.now.second (IsGivenTo task.now.policy) }
    requires open { K.shut sink.old ≡ false }
    ensures puts { Puts (pair_reply turns (seen_task task.now) (seen_task task.now).observer (seen_task task.now).second) result (K.taken sink.old) (K.taken sink.new) }
    ensures shut { K.shut sink.new ≡ is_write_fault result }
    ensures faults_stay { K.faults sink.old ≤ K.faults sink.new }
    ensures failed { result ≡ Status.WriteFault → Rose (K.faults sink.old) (K.faults sink.new) }
{
    match &task.observer {
        Some(observer) => match &task.second {
            Some(second) => compare_for(alloc, task, observer, second, turns, sink),
            None => run(alloc, task, turns, sink),
        },
        None => run(alloc, task, turns, sink),
    }
}

/// The same, with what the files of a pair give.
fn compare_for<K: Sink>(
    alloc: Global,
    task: &Task,
    observer: &OriginList,
    second: &Inputs,
    turns: u64,
    sink: &mut K,
) -> Status
    requires marked { IsMarked task.now.script }
    requires given { IsGivenTo task.now.policy task.now.inputs }
    requires second { IsGivenTo task.now.policy second.now }
    requires open { K.shut sink.old ≡ false }
    ensures puts { Puts (pair_reply turns (seen_task task.now) (Some observer.now) (Some second.now)) result (K.taken sink.old) (K.taken sink.new) }
    ensures shut { K.shut sink.new ≡ is_write_fault result }
    ensures faults_stay { K.faults sink.old ≤ K.faults sink.new }
    ensures failed { result ≡ Status.WriteFault → Rose (K.faults sink.old) (K.faults sink.new) }
{
    let Ok(observer) = copy_of(alloc, observer) else {
        return Status::OutOfMemory;
    };
    if task.policy.origins().len() <= FEW_ORIGINS {
        compare_with(alloc, task, second, observer, turns, &mut Masks, sink)
    } else {
        let mut labels = Interned::new(alloc, ROOM);
        compare_with(alloc, task, second, observer, turns, &mut labels, sink)
    }
}

/// The same, with a store of labels.
fn compare_with<L: Labels, K: Sink>(
    alloc: Global,
    task: &Task,
    second: &Inputs,
    observer: OriginList,
    turns: u64,
    labels: &mut L,
    sink: &mut K,
) -> Status
    requires marked { IsMarked task.now.script }
    requires given { IsGivenTo task.now.policy task.now.inputs }
    requires second { IsGivenTo task.now.policy second.now }
    requires room { length task.now.policy.origins ≤ L.room labels.old }
    requires open { K.shut sink.old ≡ false }
    ensures puts { Puts (pair_reply turns (seen_task task.now) (Some observer) (Some second.now)) result (K.taken sink.old) (K.taken sink.new) }
    ensures shut { K.shut sink.new ≡ is_write_fault result }
    ensures faults_stay { K.faults sink.old ≤ K.faults sink.new }
    ensures failed { result ≡ Status.WriteFault → Rose (K.faults sink.old) (K.faults sink.new) }
{
    let _formed = task.policy.origins();
    let Ok(natives) = AllNatives::new(alloc, &task.policy) else {
        return Status::OutOfMemory;
    };
    let end = pair(
        alloc,
        &natives,
        &task.script,
        &task.policy,
        &task.inputs,
        second,
        observer,
        turns,
        labels,
        sink,
    );
    put_end(alloc, &task.policy, &end, sink)
}

/// Puts how a pair ended, behind what was put of its view.
fn put_end<K: Sink>(alloc: Global, policy: &Policy, end: &PairEnd, sink: &mut K) -> Status
    requires declared { HaveDeclared (length policy.now.origins) end.now }
    requires channel { IsChannelOf policy.now end.now }
    requires open { K.shut sink.old ≡ pairs_write_fault end.now }
    ensures puts { PutsEnd policy.now end.now result (K.taken sink.old) (K.taken sink.new) }
    ensures shut { K.shut sink.new ≡ is_write_fault result }
    ensures faults_stay { K.faults sink.old ≤ K.faults sink.new }
    ensures failed { result ≡ Status.WriteFault → ((end.now ≡ PairEnd.WriteFault) ⊎ Rose (K.faults sink.old) (K.faults sink.new)) }
{
    match end {
        PairEnd::Equal => put_reply(sink, b"! equal\n", Status::Done),
        PairEnd::Unfinished { first, second } => match unfinished_bytes(
            alloc, policy, first, second,
        ) {
            Ok(report) => put_reply(sink, &report, Status::Unfinished),
            Err(OutOfMemory) => Status::OutOfMemory,
        },
        PairEnd::Disagree { channel } => match disagree_bytes(alloc, policy, *channel) {
            Ok(report) => put_reply(sink, &report, Status::Policy),
            Err(OutOfMemory) => Status::OutOfMemory,
        },
        PairEnd::WriteFault => Status::WriteFault,
        PairEnd::OutOfMemory => Status::OutOfMemory,
    }
}

fn unfinished_bytes(
    alloc: Global,
    policy: &Policy,
    first: &Ending,
    second: &Ending,
) -> Result<Vec<u8>, OutOfMemory>
    requires first { HasDeclared (length policy.now.origins) first.now }
    requires second { HasDeclared (length policy.now.origins) second.now }
    ensures { IfOk result (λ bytes. IfSome (told_by first.now) (λ one. IfSome (told_by second.now) (λ two. bytes.items ≡ unfinished_report policy.now one two))) }
{
    let one = ending_bytes(alloc, policy, first)?;
    let two = ending_bytes(alloc, policy, second)?;
    unfinished_line(alloc, &one, &two)
}

/// The report of two runs, from how each ended.
fn unfinished_line(alloc: Global, first: &[u8], second: &[u8]) -> Result<Vec<u8>, OutOfMemory>
    ensures { IfOk result (λ bytes. bytes.items ≡ codes "! unfinished " ++ (first.now ++ (codes " / " ++ (second.now ++ codes "\n")))) }
{
    let mut bytes = Vec::from_slice(alloc, b"! unfinished ")?;
    bytes.extend_from_slice(first)?;
    bytes.extend_from_slice(b" / ")?;
    bytes.extend_from_slice(second)?;
    bytes.push(b'\n')?;
    Ok(bytes)
}

fn disagree_bytes(alloc: Global, policy: &Policy, channel: usize) -> Result<Vec<u8>, OutOfMemory>
    requires { channel < length policy.now.inputs }
    ensures { IfOk result (λ bytes. bytes.items ≡ differ_report policy.now channel) }
{
    let mut bytes = Vec::from_slice(alloc, b"! inputs differ on ")?;
    bytes.extend_from_slice(&policy.inputs()[channel].name.to_utf8(alloc)?)?;
    bytes.push(b'\n')?;
    Ok(bytes)
}
