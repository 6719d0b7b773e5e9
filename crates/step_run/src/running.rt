//! Whole runs.

ghost use Rattle.std.specs.Prelude.{◌≡◌, ◌≤◌, false, length};
ghost use Rattle.origin_labels.specs.Stores.{IsKept};
ghost use Rattle.flow_io.specs.Files.{Rose};
ghost use Rattle.flow_policy.specs.Inputs.{IsGivenTo};
ghost use Rattle.js_ast.specs.IsMarked.{IsMarked};
ghost use Rattle.js_ast.specs.Views.{view_program};
ghost use Rattle.es_meaning.specs.BuiltIns.{built_ins_of};
ghost use Rattle.flow_meaning.specs.Tracked.{tracked_run};
ghost use Rattle.step_run.specs.Ran.{HasDeclared, HasFronts, IsBroken, Isolates, IsolatesLabels, IsolatesView, Ran, is_write_fault};

use crate::ending::{Ending, Show};
use crate::putting::{Cut, put_lines};
use crate::telling::told;
use flow_io::Sink;
use flow_policy::{Inputs, Policy};
use js_ast::Program;
use low_equal::{declared, erasure, two_runs};
use native_protocol::Natives;
use origin_labels::Labels;
use std::alloc::Global;
use step_core::Machine;

/// Runs a program with a set of built-ins under a policy with an input, with so many turns, and puts each shown line with one put. It writes no report.
pub fn run<L: Labels, N: Natives, K: Sink>(
    alloc: Global,
    natives: &N,
    program: &Program,
    policy: &Policy,
    inputs: &Inputs,
    turns: u64,
    show: &Show,
    labels: &mut L,
    sink: &mut K,
) -> Ending
    requires marked { IsMarked program.now }
    requires room { length policy.now.origins ≤ L.room labels.old }
    requires given { IsGivenTo policy.now inputs.now }
    requires open { K.shut sink.old ≡ false }
    ensures ran { Ran policy.now show.now (tracked_run (built_ins_of (N.entries natives.now) (N.begin natives.now) (N.after natives.now) (N.asks natives.now)) policy.now inputs.now (view_program program.now) turns) (K.taken sink.old) (K.taken sink.new) result }
    ensures isolation { Isolates (built_ins_of (N.entries natives.now) (N.begin natives.now) (N.after natives.now) (N.asks natives.now)) policy.now inputs.now (view_program program.now) turns result }
    ensures own_labels { IsolatesLabels (built_ins_of (N.entries natives.now) (N.begin natives.now) (N.after natives.now) (N.asks natives.now)) policy.now inputs.now (view_program program.now) turns result }
    ensures view { IsolatesView (built_ins_of (N.entries natives.now) (N.begin natives.now) (N.after natives.now) (N.asks natives.now)) policy.now show.now inputs.now (view_program program.now) (K.taken sink.old) (K.taken sink.new) result }
    ensures fronts { HasFronts (built_ins_of (N.entries natives.now) (N.begin natives.now) (N.after natives.now) (N.asks natives.now)) policy.now show.now inputs.now (view_program program.now) (K.taken sink.old) (K.taken sink.new) }
    ensures declared { HasDeclared (length policy.now.origins) result }
    ensures broken { IsBroken result }
    ensures shut { K.shut sink.new ≡ is_write_fault result }
    ensures faults_stay { K.faults sink.old ≤ K.faults sink.new }
    ensures failed { result ≡ Ending.WriteFault → Rose (K.faults sink.old) (K.faults sink.new) }
    ensures kept { IsKept L.made L.meaning L.room L.firm labels.old labels.new }
{
    erasure();
    two_runs();
    declared();
    let _formed = policy.origins();
    put_run(
        alloc, natives, program, policy, inputs, turns, show, labels, sink,
    )
}

/// The same.
fn put_run<L: Labels, N: Natives, K: Sink>(
    alloc: Global,
    natives: &N,
    program: &Program,
    policy: &Policy,
    inputs: &Inputs,
    turns: u64,
    show: &Show,
    labels: &mut L,
    sink: &mut K,
) -> Ending
    requires marked { IsMarked program.now }
    requires room { length policy.now.origins ≤ L.room labels.old }
    requires given { IsGivenTo policy.now inputs.now }
    requires open { K.shut sink.old ≡ false }
    ensures ran { Ran policy.now show.now (tracked_run (built_ins_of (N.entries natives.now) (N.begin natives.now) (N.after natives.now) (N.asks natives.now)) policy.now inputs.now (view_program program.now) turns) (K.taken sink.old) (K.taken sink.new) result }
    ensures shut { K.shut sink.new ≡ is_write_fault result }
    ensures faults_stay { K.faults sink.old ≤ K.faults sink.new }
    ensures failed { result ≡ Ending.WriteFault → Rose (K.faults sink.old) (K.faults sink.new) }
    ensures kept { IsKept L.made L.meaning L.room L.firm labels.old labels.new }
{
    declared();
    let _formed = policy.origins();
    let Ok(mut machine) = Machine::new(alloc, natives, program, policy, inputs, turns, labels)
    else {
        return Ending::OutOfMemory;
    };
    match put_lines(alloc, labels, natives, policy, show, &mut machine, sink) {
        Ok(ending) => told(alloc, labels, policy, &machine, ending),
        Err(Cut::WriteFault) => Ending::WriteFault,
        Err(Cut::OutOfMemory) => Ending::OutOfMemory,
    }
}
