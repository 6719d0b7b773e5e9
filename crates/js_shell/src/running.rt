//! Whole runs: each line goes to a sink as it is printed, and then the report.

ghost use Rattle.std.specs.Prelude.{◌≡◌, ◌≤◌, true, false, length, IfOk, IfSome};
ghost use Rattle.std.specs.Option.{is_some};
ghost use Rattle.flow_io.specs.Files.{Rose};
ghost use Rattle.flow_policy.specs.Inputs.{IsGivenTo};
ghost use Rattle.flow_meaning.specs.Written.{report};
ghost use Rattle.js_ast.specs.IsMarked.{IsMarked};
ghost use Rattle.run_files.specs.Seen.{seen_task};
ghost use Rattle.step_run.specs.Ran.{HasDeclared, told_by};
ghost use Rattle.js_shell.specs.Answering.{Puts, is_write_fault};
ghost use Rattle.js_shell.specs.Replies.{run_reply};
ghost use Rattle.js_shell.specs.Ran.{ended, has_report, show_of};

use crate::putting::put_reply;
use crate::report::report_bytes;
use crate::status::Status;
use all_natives::AllNatives;
use flow_io::Sink;
use flow_policy::Policy;
use flow_text::OutOfMemory;
use interned_labels::Interned;
use origin_labels::{Labels, Masks, OriginList};
use run_files::Task;
use std::alloc::Global;
use step_run::{Ending, Show};

/// Up to this many origins labels are bits; more are interned.
pub(crate) const FEW_ORIGINS: u32 = 32;

/// Origins that interned labels have room for.
pub(crate) const ROOM: u32 = 1024;

/// Runs a task: puts its lines, each with one put, and, but for an observer, its report with another.
pub(crate) fn run<K: Sink>(alloc: Global, task: &Task, turns: u64, sink: &mut K) -> Status
    requires marked { IsMarked task.now.script }
    requires given { IsGivenTo task.now.policy task.now.inputs }
    requires open { K.shut sink.old ≡ false }
    ensures puts { Puts (run_reply turns (seen_task task.now)) result (K.taken sink.old) (K.taken sink.new) }
    ensures shut { K.shut sink.new ≡ is_write_fault result }
    ensures faults_stay { K.faults sink.old ≤ K.faults sink.new }
    ensures failed { result ≡ Status.WriteFault → Rose (K.faults sink.old) (K.faults sink.new) }
{
    if task.policy.origins().len() <= FEW_ORIGINS {
        run_with(alloc, task, turns, &mut Masks, sink)
    } else {
        let mut labels = Interned::new(alloc, ROOM);
        run_with(alloc, task, turns, &mut labels, sink)
    }
}

/// The same, with a store of labels.
fn run_with<L: Labels, K: Sink>(
    alloc: Global,
    task: &Task,
    turns: u64,
    labels: &mut L,
    sink: &mut K,
) -> Status
    requires marked { IsMarked task.now.script }
    requires given { IsGivenTo task.now.policy task.now.inputs }
    requires room { length task.now.policy.origins ≤ L.room labels.old }
    requires open { K.shut sink.old ≡ false }
    ensures puts { Puts (run_reply turns (seen_task task.now)) result (K.taken sink.old) (K.taken sink.new) }
    ensures shut { K.shut sink.new ≡ is_write_fault result }
    ensures faults_stay { K.faults sink.old ≤ K.faults sink.new }
    ensures failed { result ≡ Status.WriteFault → Rose (K.faults sink.old) (K.faults sink.new) }
{
    let _formed = task.policy.origins();
    let Ok(natives) = AllNatives::new(alloc, &task.policy) else {
        return Status::OutOfMemory;
    };
    let Ok(show) = shown_lines(alloc, task) else {
        return Status::OutOfMemory;
    };
    let ending = step_run::run(
        alloc,
        &natives,
        &task.script,
        &task.policy,
        &task.inputs,
        turns,
        &show,
        labels,
        sink,
    );
    if !has_report(task, &ending) {
        return status_of(&ending);
    }
    put_report(alloc, &task.policy, &ending, sink)
}

/// A report follows the lines.
fn has_report(task: &Task, ending: &Ending) -> bool
    ensures { result ≡ has_report task.now.observer ending.now }
{
    match &task.observer {
        None => is_over(ending),
        Some(_) => false,
    }
}

/// Which lines of a task are shown.
fn shown_lines(alloc: Global, task: &Task) -> Result<Show, OutOfMemory>
    ensures { IfOk result (λ show. show ≡ show_of task.now.observer) }
{
    match &task.observer {
        None => Ok(Show::All),
        Some(observer) => {
            let copied = copy_of(alloc, observer)?;
            Ok(Show::Only(copied))
        }
    }
}

/// The same set.
pub(crate) fn copy_of(alloc: Global, set: &OriginList) -> Result<OriginList, OutOfMemory>
    ensures { IfOk result (λ copied. copied ≡ set.now) }
{
    let mut copied = OriginList::new(alloc);
    for item in set.items() {
        copied.push(*item)?;
    }
    Ok(copied)
}

/// The run came to an end of its own.
pub(crate) fn is_over(ending: &Ending) -> bool
    ensures { result ≡ is_some (told_by ending.now) }
{
    match ending {
        Ending::WriteFault => false,
        Ending::OutOfMemory => false,
        Ending::Done => true,
        Ending::Threw { .. } => true,
        Ending::Stopped { .. } => true,
        Ending::Left(_) => true,
        Ending::OutOfTurns => true,
    }
}

pub(crate) fn status_of(ending: &Ending) -> Status
    ensures { result ≡ ended ending.now }
{
    match ending {
        Ending::Done => Status::Done,
        Ending::Threw { .. } => Status::Threw,
        Ending::Stopped { .. } => Status::Stopped,
        Ending::Left(_) => Status::Left,
        Ending::OutOfTurns => Status::OutOfTurns,
        Ending::WriteFault => Status::WriteFault,
        Ending::OutOfMemory => Status::OutOfMemory,
    }
}

/// Puts the report of a run whose lines were put, and answers the status.
fn put_report<K: Sink>(alloc: Global, policy: &Policy, ending: &Ending, sink: &mut K) -> Status
    requires over { is_some (told_by ending.now) ≡ true }
    requires declared { HasDeclared (length policy.now.origins) ending.now }
    requires open { K.shut sink.old ≡ false }
    ensures puts { IfSome (told_by ending.now) (λ told. Puts (record { bytes = report policy.now told; status = ended ending.now }) result (K.taken sink.old) (K.taken sink.new)) }
    ensures shut { K.shut sink.new ≡ is_write_fault result }
    ensures faults_stay { K.faults sink.old ≤ K.faults sink.new }
    ensures failed { result ≡ Status.WriteFault → Rose (K.faults sink.old) (K.faults sink.new) }
{
    let Ok(report) = report_bytes(alloc, policy, ending) else {
        return Status::OutOfMemory;
    };
    put_reply(sink, &report, status_of(ending))
}
