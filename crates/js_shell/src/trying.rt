//! Trials: runs in memory, of which only a summary is shown.

ghost use Rattle.std.specs.Prelude.{◌≡◌, ◌≤◌, ◌==◌, ◌++◌, false, length, codes, count_by, decimal, IfOk, IfSome};
ghost use Rattle.flow_io.specs.Files.{Rose};
ghost use Rattle.flow_policy.specs.Inputs.{IsGivenTo};
ghost use Rattle.js_ast.specs.IsMarked.{IsMarked};
ghost use Rattle.command_line.specs.Commands.{default_turns};
ghost use Rattle.run_files.specs.Seen.{seen_task};
ghost use Rattle.step_run.specs.Ran.{HasDeclared, told_by};
ghost use Rattle.js_shell.specs.Answering.{Puts, is_write_fault};
ghost use Rattle.js_shell.specs.Replies.{trial_of, trial_report};

use crate::putting::put_reply;
use crate::report::ending_bytes;
use crate::running::{FEW_ORIGINS, ROOM, is_over, status_of};
use crate::status::Status;
use all_natives::AllNatives;
use flow_io::{MemorySink, Sink};
use flow_policy::Policy;
use flow_text::OutOfMemory;
use interned_labels::Interned;
use itoa::Buffer;
use origin_labels::{Labels, Masks};
use run_files::Task;
use std::alloc::Global;
use step_run::{Ending, Show};

/// The turns of a trial.
const TRIAL_TURNS: u64 = 1_000_000;

/// Runs a task in memory, and puts how many bytes its script has, how many lines it wrote, and how it ended.
pub(crate) fn try_task<K: Sink>(alloc: Global, task: &Task, made: usize, sink: &mut K) -> Status
    requires marked { IsMarked task.now.script }
    requires given { IsGivenTo task.now.policy task.now.inputs }
    requires open { K.shut sink.old ≡ false }
    ensures puts { Puts (trial_of made default_turns (seen_task task.now)) result (K.taken sink.old) (K.taken sink.new) }
    ensures shut { K.shut sink.new ≡ is_write_fault result }
    ensures faults_stay { K.faults sink.old ≤ K.faults sink.new }
    ensures failed { result ≡ Status.WriteFault → Rose (K.faults sink.old) (K.faults sink.new) }
{
    if task.policy.origins().len() <= FEW_ORIGINS {
        try_with(alloc, task, made, &mut Masks, sink)
    } else {
        let mut labels = Interned::new(alloc, ROOM);
        try_with(alloc, task, made, &mut labels, sink)
    }
}

fn try_with<L: Labels, K: Sink>(
    alloc: Global,
    task: &Task,
    made: usize,
    labels: &mut L,
    sink: &mut K,
) -> Status
    requires marked { IsMarked task.now.script }
    requires given { IsGivenTo task.now.policy task.now.inputs }
    requires room { length task.now.policy.origins ≤ L.room labels.old }
    requires open { K.shut sink.old ≡ false }
    ensures puts { Puts (trial_of made default_turns (seen_task task.now)) result (K.taken sink.old) (K.taken sink.new) }
    ensures shut { K.shut sink.new ≡ is_write_fault result }
    ensures faults_stay { K.faults sink.old ≤ K.faults sink.new }
    ensures failed { result ≡ Status.WriteFault → Rose (K.faults sink.old) (K.faults sink.new) }
{
    let _formed = task.policy.origins();
    let Ok(natives) = AllNatives::new(alloc, &task.policy) else {
        return Status::OutOfMemory;
    };
    let show = Show::All;
    let mut written = MemorySink::new(alloc);
    let ending = step_run::run(
        alloc,
        &natives,
        &task.script,
        &task.policy,
        &task.inputs,
        TRIAL_TURNS,
        &show,
        labels,
        &mut written,
    );
    // A sink in memory fails only for want of memory.
    if !is_over(&ending) {
        return Status::OutOfMemory;
    }
    let lines = line_count(written.taken());
    match summary(alloc, &task.policy, made, lines, &ending) {
        Ok(report) => put_reply(sink, &report, status_of(&ending)),
        Err(OutOfMemory) => Status::OutOfMemory,
    }
}

/// How many lines end in these bytes.
fn line_count(bytes: &[u8]) -> usize
    ensures { result ≡ count_by (λ byte. byte == 10) bytes.now }
{
    bytes.iter().filter(|byte| **byte == b'\n').count()
}

fn summary(
    alloc: Global,
    policy: &Policy,
    made: usize,
    lines: usize,
    ending: &Ending,
) -> Result<Vec<u8>, OutOfMemory>
    requires { HasDeclared (length policy.now.origins) ending.now }
    ensures { IfOk result (λ bytes. IfSome (told_by ending.now) (λ told. bytes.items ≡ trial_report policy.now made lines told)) }
{
    let told = ending_bytes(alloc, policy, ending)?;
    summary_line(alloc, made, lines, &told)
}

/// The summary of a run, from how it ended.
fn summary_line(
    alloc: Global,
    made: usize,
    lines: usize,
    told: &[u8],
) -> Result<Vec<u8>, OutOfMemory>
    ensures { IfOk result (λ bytes. bytes.items ≡ codes "! made " ++ (decimal made ++ (codes " bytes, " ++ (decimal lines ++ (codes " lines, " ++ (told.now ++ codes "\n")))))) }
{
    let mut bytes = Vec::from_slice(alloc, b"! made ")?;
    bytes.extend_from_slice(Buffer::new().format(made).as_bytes())?;
    bytes.extend_from_slice(b" bytes, ")?;
    bytes.extend_from_slice(Buffer::new().format(lines).as_bytes())?;
    bytes.extend_from_slice(b" lines, ")?;
    bytes.extend_from_slice(told)?;
    bytes.push(b'\n')?;
    Ok(bytes)
}
