//! Lines go to a sink as they are printed.

ghost use Rattle.std.specs.Prelude.{◌≡◌, ◌≤◌, ◌<◌, false, Err, IfOk, [], length};
ghost use Rattle.origin_labels.specs.Label.{Label};
ghost use Rattle.origin_labels.specs.Stores.{IsKept};
ghost use Rattle.flow_io.specs.Files.{Rose};
ghost use Rattle.js_values.specs.Readings.{IsReading};
ghost use Rattle.es_meaning.specs.BuiltIns.{built_ins_of};
ghost use Rattle.flow_meaning.specs.Laws.{performed_run};
ghost use Rattle.continuations.specs.Stops.{HasStop};
ghost use Rattle.channel_requests.specs.Answers.{line_of};
ghost use Rattle.step_core.specs.Machines.{IfStopped, Runs, comes_to, ending_of};
ghost use Rattle.step_run.specs.Puts.{PutsLine, PutsRun, is_cut_by_write};

use crate::ending::Show;
use crate::lines::{is_shown, line_bytes};
use channel_requests::Printed;
use flow_io::{Failed, Sink};
use flow_policy::Policy;
use flow_text::OutOfMemory;
use native_protocol::Natives;
use origin_labels::Labels;
use std::alloc::Global;
use step_core::{Ending, Machine, Step, only_adds};

/// What cut a run off.
#[derive(Clone, Copy)]
pub(crate) enum Cut {
    WriteFault,
    OutOfMemory,
}

/// Lets a machine go on to the end of its run, and puts each shown line with one put.
pub(crate) fn put_lines<'p, L: Labels, N: Natives, K: Sink>(
    alloc: Global,
    labels: &mut L,
    natives: &N,
    policy: &Policy,
    show: &Show,
    machine: &mut Machine<'p, L::Label, N::State>,
    sink: &mut K,
) -> Result<Ending<L::Label>, Cut>
    requires runs { Runs L.made L.meaning L.room labels.old machine.old }
    requires policy { machine.old.policy.now ≡ policy.now }
    requires open { K.shut sink.old ≡ false }
    ensures puts { (reading : L.Label → Label) → IsReading L.made L.meaning labels.new reading → PutsRun show.now policy.now (performed_run (comes_to (built_ins_of (N.entries natives.now) (N.begin natives.now) (N.after natives.now) (N.asks natives.now)) (N.after natives.now) (N.asks natives.now) reading machine.old [])) (ending_of (built_ins_of (N.entries natives.now) (N.begin natives.now) (N.after natives.now) (N.asks natives.now)) (N.after natives.now) (N.asks natives.now) reading machine.new) (K.taken sink.old) (K.taken sink.new) result }
    ensures stop { IfOk result (λ e. IfStopped (HasStop (L.made labels.new)) (Step.Ends e)) }
    ensures kept { IsKept L.made L.meaning L.room L.firm labels.old labels.new }
    ensures shut { K.shut sink.new ≡ is_cut_by_write result }
    ensures faults_stay { K.faults sink.old ≤ K.faults sink.new }
    ensures failed { result ≡ Err Cut.WriteFault → Rose (K.faults sink.old) (K.faults sink.new) }
{
    only_adds::<L, N>();
    'steps: loop {
        let Ok(came) = machine.advance(labels, natives) else {
            return Err(Cut::OutOfMemory);
        };
        match came {
            Step::Goes => {}
            Step::Line(printed) => match put_line(alloc, policy, show, &printed, sink) {
                Ok(()) => {}
                Err(cut) => return Err(cut),
            },
            Step::Ends(ending) => return Ok(ending),
        }
    }
}

/// Puts a line, if it is shown.
fn put_line<T, K: Sink>(
    alloc: Global,
    policy: &Policy,
    show: &Show,
    printed: &Printed<T>,
    sink: &mut K,
) -> Result<(), Cut>
    requires channel { printed.now.channel < length policy.now.outputs }
    requires open { K.shut sink.old ≡ false }
    ensures puts { (reading : T → Label) → PutsLine show.now policy.now (line_of policy.now reading printed.now) (K.taken sink.old) (K.taken sink.new) result }
    ensures shut { K.shut sink.new ≡ is_cut_by_write result }
    ensures faults_stay { K.faults sink.old ≤ K.faults sink.new }
    ensures failed { result ≡ Err Cut.WriteFault → Rose (K.faults sink.old) (K.faults sink.new) }
{
    let channel = &policy.outputs()[printed.channel];
    if !is_shown(show, channel) {
        return Ok(());
    }
    let Ok(line) = line_bytes(alloc, &channel.name, &printed.text) else {
        return Err(Cut::OutOfMemory);
    };
    match sink.put(&line) {
        Ok(()) => Ok(()),
        Err(Failed) => Err(Cut::WriteFault),
    }
}
