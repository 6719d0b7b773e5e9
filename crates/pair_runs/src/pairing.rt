//! Pairs of runs: whether an observer can tell two inputs apart by what a script writes.

ghost use Rattle.std.specs.Prelude.{◌≡◌, ◌≤◌, false, length, Option, List, ℕ, IfOk, IfErr};
ghost use Rattle.origin_labels.specs.Stores.{IsKept};
ghost use Rattle.flow_io.specs.Files.{Rose};
ghost use Rattle.flow_policy.specs.Inputs.{IsGivenTo};
ghost use Rattle.flow_policy.specs.Observed.{Agree};
ghost use Rattle.js_ast.specs.IsMarked.{IsMarked};
ghost use Rattle.js_ast.specs.Views.{view_program};
ghost use Rattle.es_meaning.specs.BuiltIns.{built_ins_of};
ghost use Rattle.flow_meaning.specs.Tracked.{tracked_run};
ghost use Rattle.pair_runs.specs.Pairs.{AreEqual, HaveDeclared, Paired, is_write_fault, seen_bytes};

use crate::comparing::compared;
use flow_io::{Failed, MemorySink, Sink};
use flow_policy::{Inputs, Policy, disagree};
use js_ast::Program;
use native_protocol::Natives;
use origin_labels::{Labels, OriginList};
use std::alloc::Global;
use step_run::{Ending, Show, run};

/// How a pair of runs ends. There is no answer for views that differ: they never do.
#[derive(Drop)]
pub enum PairEnd {
    /// The inputs agree, both runs are finished, and their common view was put.
    Equal,
    /// The inputs agree, and a run isn't finished: nothing was put.
    Unfinished { first: Ending, second: Ending },
    /// The first input channel that the observer sees and whose lines differ: nothing was put.
    Disagree { channel: usize },
    /// The common view couldn't be put.
    WriteFault,
    OutOfMemory,
}

/// Runs a program under a policy with two inputs, with so many turns each, and puts what an observer sees of both: it is the same. Both views are held in memory until both runs have ended.
#[tactic(auto, using(crate::proofs::PairLaws::found_agreed, crate::proofs::PairLaws::view_put, crate::proofs::PairLaws::view_cut, crate::proofs::PairLaws::no_fault_rose))]
pub fn pair<L: Labels, N: Natives, K: Sink>(
    alloc: Global,
    natives: &N,
    program: &Program,
    policy: &Policy,
    first: &Inputs,
    second: &Inputs,
    observer: OriginList,
    turns: u64,
    labels: &mut L,
    sink: &mut K,
) -> PairEnd
    requires marked { IsMarked program.now }
    requires room { length policy.now.origins ≤ L.room labels.old }
    requires first { IsGivenTo policy.now first.now }
    requires second { IsGivenTo policy.now second.now }
    requires open { K.shut sink.old ≡ false }
    ensures paired { Paired policy.now observer first.now second.now (tracked_run (built_ins_of (N.entries natives.now) (N.begin natives.now) (N.after natives.now) (N.asks natives.now)) policy.now first.now (view_program program.now) turns) (tracked_run (built_ins_of (N.entries natives.now) (N.begin natives.now) (N.after natives.now) (N.asks natives.now)) policy.now second.now (view_program program.now) turns) (K.taken sink.old) (K.taken sink.new) result }
    ensures declared { HaveDeclared (length policy.now.origins) result }
    ensures shut { K.shut sink.new ≡ is_write_fault result }
    ensures faults_stay { K.faults sink.old ≤ K.faults sink.new }
    ensures failed { result ≡ PairEnd.WriteFault → Rose (K.faults sink.old) (K.faults sink.new) }
    ensures kept { IsKept L.made L.meaning L.room L.firm labels.old labels.new }
{
    if let Some(channel) = disagree(policy, first, second, &observer) {
        return PairEnd::Disagree { channel };
    }
    match common_view(
        alloc, natives, program, policy, first, second, observer, turns, labels,
    ) {
        Ok(view) => match sink.put(view.taken()) {
            Ok(()) => PairEnd::Equal,
            Err(Failed) => PairEnd::WriteFault,
        },
        Err(end) => end,
    }
}

/// What an observer sees of both runs, or how the pair ends without it. The view of the second run isn't looked at: where both runs are finished it is that of the first.
fn common_view<L: Labels, N: Natives>(
    alloc: Global,
    natives: &N,
    program: &Program,
    policy: &Policy,
    first: &Inputs,
    second: &Inputs,
    observer: OriginList,
    turns: u64,
    labels: &mut L,
) -> Result<MemorySink, PairEnd>
    requires marked { IsMarked program.now }
    requires room { length policy.now.origins ≤ L.room labels.old }
    requires first { IsGivenTo policy.now first.now }
    requires second { IsGivenTo policy.now second.now }
    requires agree { Agree observer policy.now first.now second.now }
    ensures equal { IfOk result (λ view. AreEqual policy.now observer first.now second.now (tracked_run (built_ins_of (N.entries natives.now) (N.begin natives.now) (N.after natives.now) (N.asks natives.now)) policy.now first.now (view_program program.now) turns) (tracked_run (built_ins_of (N.entries natives.now) (N.begin natives.now) (N.after natives.now) (N.asks natives.now)) policy.now second.now (view_program program.now) turns)) }
    ensures view { IfOk result (λ view. view.taken ≡ seen_bytes observer policy.now (tracked_run (built_ins_of (N.entries natives.now) (N.begin natives.now) (N.after natives.now) (N.asks natives.now)) policy.now first.now (view_program program.now) turns)) }
    ensures ends { (taken : Option (List ℕ)) → IfErr result (Paired policy.now observer first.now second.now (tracked_run (built_ins_of (N.entries natives.now) (N.begin natives.now) (N.after natives.now) (N.asks natives.now)) policy.now first.now (view_program program.now) turns) (tracked_run (built_ins_of (N.entries natives.now) (N.begin natives.now) (N.after natives.now) (N.asks natives.now)) policy.now second.now (view_program program.now) turns) taken taken) }
    ensures no_fault { IfErr result (λ end. is_write_fault end ≡ false) }
    ensures declared { IfErr result (HaveDeclared (length policy.now.origins)) }
    ensures kept { IsKept L.made L.meaning L.room L.firm labels.old labels.new }
{
    let show = Show::Only(observer);
    let mut view = MemorySink::new(alloc);
    let one = run(
        alloc, natives, program, policy, first, turns, &show, labels, &mut view,
    );
    let mut other = MemorySink::new(alloc);
    let two = run(
        alloc, natives, program, policy, second, turns, &show, labels, &mut other,
    );
    match compared(one, two) {
        Ok(()) => Ok(view),
        Err(end) => Err(end),
    }
}
