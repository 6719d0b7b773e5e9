//! Replies of one piece.

ghost use Rattle.std.specs.Prelude.{◌≡◌, ◌≤◌, false};
ghost use Rattle.flow_io.specs.Files.{Rose};
ghost use Rattle.js_shell.specs.Answering.{Puts, Refuses, refusal_status, is_cut_status, is_write_fault};

use crate::status::Status;
use flow_io::{Failed, Sink};
use run_files::Refusal;
use std::alloc::Global;

/// Puts a reply with one put, and answers its status.
pub(crate) fn put_reply<K: Sink>(sink: &mut K, bytes: &[u8], status: Status) -> Status
    requires whole { is_cut_status status ≡ false }
    requires open { K.shut sink.old ≡ false }
    ensures puts { Puts (record { bytes = bytes.now; status = status }) result (K.taken sink.old) (K.taken sink.new) }
    ensures shut { K.shut sink.new ≡ is_write_fault result }
    ensures faults_stay { K.faults sink.old ≤ K.faults sink.new }
    ensures failed { result ≡ Status.WriteFault → Rose (K.faults sink.old) (K.faults sink.new) }
{
    match sink.put(bytes) {
        Ok(()) => status,
        Err(Failed) => Status::WriteFault,
    }
}

/// Puts why a command does nothing, and answers the status.
pub(crate) fn refuse<K: Sink>(alloc: Global, refusal: &Refusal<'_>, sink: &mut K) -> Status
    requires open { K.shut sink.old ≡ false }
    ensures refuses { Refuses refusal.now result (K.taken sink.old) (K.taken sink.new) }
    ensures shut { K.shut sink.new ≡ is_write_fault result }
    ensures faults_stay { K.faults sink.old ≤ K.faults sink.new }
    ensures failed { result ≡ Status.WriteFault → Rose (K.faults sink.old) (K.faults sink.new) }
{
    let Ok(report) = refusal.report(alloc) else {
        return Status::OutOfMemory;
    };
    put_reply(sink, &report, status_of(refusal))
}

fn status_of(refusal: &Refusal<'_>) -> Status
    ensures { result ≡ refusal_status refusal.now }
{
    match refusal {
        Refusal::LongSource | Refusal::SourceUtf8 { .. } | Refusal::BadSource { .. } => {
            Status::Source
        }
        Refusal::LongPolicy
        | Refusal::BadPolicy { .. }
        | Refusal::UnknownObserver { .. }
        | Refusal::LongInput { .. }
        | Refusal::BadInput { .. } => Status::Policy,
        Refusal::ReadFault => Status::ReadFault,
        Refusal::OutOfMemory => Status::OutOfMemory,
    }
}
