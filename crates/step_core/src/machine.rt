//! A machine: a run in its middle, with what it borrows and what it does next.

ghost use Rattle.std.specs.Prelude.{◌≡◌, ◌≤◌, ◌<◌, [], List, IfOk, IsOk, OnOk, OnErr, length};
ghost use Rattle.origin_labels.specs.Label.{Label};
ghost use Rattle.origin_labels.specs.Stores.{IsKept};
ghost use Rattle.flow_policy.specs.Inputs.{IsGivenTo};
ghost use Rattle.js_ast.specs.IsMarked.{IsMarked};
ghost use Rattle.js_ast.specs.Views.{view_program};
ghost use Rattle.js_values.specs.Readings.{IsReading};
ghost use Rattle.native_protocol.specs.declared.request.Answer.{Answer};
ghost use Rattle.native_protocol.specs.declared.request.Request.{Request};
ghost use Rattle.es_meaning.specs.BuiltIns.{BuiltIns, built_ins_of};
ghost use Rattle.flow_meaning.specs.Laws.{performed_run};
ghost use Rattle.flow_meaning.specs.Scopes.{LabelledLine};
ghost use Rattle.flow_meaning.specs.Tracked.{tracked_run};
ghost use Rattle.step_requests.specs.Doing.{IsPrinted};
ghost use Rattle.continuations.specs.Stops.{HasStop};
ghost use Rattle.step_core.specs.Machines.{Comes, IfOn, IfPrinted, IfStopped, IsMoved, IsReserved, Runs, ahead, comes_to};

use crate::beginning::begin;
use crate::progress::Progress;
use crate::stepping::{run_on, stepped};
use crate::steps::{Advance, Step};
use continuations::Control;
use flow_policy::{Inputs, Policy};
use flow_text::OutOfMemory;
use function_table::Functions;
use js_ast::Program;
use native_protocol::Natives;
use origin_labels::Labels;
use std::alloc::Global;

/// A run in its middle. It goes on step by step, and holds no store of labels and no set of built-ins: those are the same at each step.
#[derive(Drop)]
pub struct Machine<'p, T, S> {
    pub alloc: Global,
    pub policy: &'p Policy,
    pub inputs: &'p Inputs,
    /// Those of the program.
    pub functions: Functions<'p>,
    pub progress: Progress<'p, T, S>,
    /// What it does next.
    pub next: Control<'p>,
}

impl<'p, T: Copy, S: Drop> Machine<'p, T, S> {
    /// A machine in front of a program.
    pub fn new<L: Labels<Label = T>, N: Natives<State = S>>(
        alloc: Global,
        natives: &N,
        program: &'p Program,
        policy: &'p Policy,
        inputs: &'p Inputs,
        turns: u64,
        labels: &mut L,
    ) -> Result<Machine<'p, T, S>, OutOfMemory>
        requires marked { IsMarked program.now }
        requires room { length policy.now.origins ≤ L.room labels.old }
        requires given { IsGivenTo policy.now inputs.now }
        ensures starts { IfOk result (λ m. (reading : T → Label) → IsReading L.made L.meaning labels.new reading → performed_run (comes_to (built_ins_of (N.entries natives.now) (N.begin natives.now) (N.after natives.now) (N.asks natives.now)) (N.after natives.now) (N.asks natives.now) reading m []) ≡ tracked_run (built_ins_of (N.entries natives.now) (N.begin natives.now) (N.after natives.now) (N.asks natives.now)) policy.entry.now inputs.entry.now (view_program program.entry.now) turns) }
        ensures runs { IfOk result (Runs L.made L.meaning L.room labels.new) }
        ensures policy { IfOk result (λ m. m.policy.now ≡ policy.entry.now) }
        ensures kept { IsKept L.made L.meaning L.room L.firm labels.old labels.new }
    {
        let functions = Functions::of(alloc, program)?;
        let (progress, next) = begin(alloc, labels, natives, program, &functions, policy, turns)?;
        Ok(Machine {
            alloc,
            policy,
            inputs,
            functions,
            progress,
            next,
        })
    }

    /// Makes the room for one step's frame, so that the step needs no more for it. What a step lays on the stack grows as it is laid. No reading of the
    /// machine sees a change.
    pub fn reserve(&mut self) -> Result<(), OutOfMemory>
        ensures reserved { IsReserved self.old self.new }
        ensures comes { (set : BuiltIns) (tells : S → Answer → S) (asks : S → Request) (reading : T → Label) (told : List LabelledLine) → comes_to set tells asks reading self.new told ≡ comes_to set tells asks reading self.old told }
        ensures ahead { ahead self.new ≡ ahead self.old }
        ensures spare { OnOk result (1 ≤ self.new.progress.world.frames.spare) }
        ensures unchanged { OnErr result (self.new ≡ self.old) }
        ensures enough { 1 ≤ self.old.progress.world.frames.spare → IsOk result }
    {
        self.progress.world.frames.reserve()?;
        Ok(())
    }

    /// Does what is next, where no earlier step ended the run. Want of memory ends it, whatever is left of the machine.
    pub fn step<L: Labels<Label = T>, N: Natives<State = S>>(
        &mut self,
        labels: &mut L,
        natives: &N,
    ) -> Result<Step<T>, OutOfMemory>
        requires runs { Runs L.made L.meaning L.room labels.old self.old }
        ensures comes { IfOk result (λ s. (reading : T → Label) (told : List LabelledLine) → IsReading L.made L.meaning labels.new reading → Comes (built_ins_of (N.entries natives.now) (N.begin natives.now) (N.after natives.now) (N.asks natives.now)) (N.after natives.now) (N.asks natives.now) reading self.new told (comes_to (built_ins_of (N.entries natives.now) (N.begin natives.now) (N.after natives.now) (N.asks natives.now)) (N.after natives.now) (N.asks natives.now) reading self.old told) s) }
        ensures runs { IfOk result (IfOn (Runs L.made L.meaning L.room labels.new self.new)) }
        ensures lowers { IfOk result (IfOn (ahead self.new < ahead self.old)) }
        ensures printed { IfOk result (IfPrinted (IsPrinted (L.made labels.new) (length self.old.policy.now.outputs))) }
        ensures stopped { IfOk result (IfStopped (HasStop (L.made labels.new))) }
        ensures moved { IsMoved self.old self.new }
        ensures positions { length self.new.progress.world.positions.items ≡ length self.old.policy.now.inputs }
        ensures kept { IsKept L.made L.meaning L.room L.firm labels.old labels.new }
    {
        let came = stepped(
            self.alloc,
            labels,
            natives,
            self.policy,
            self.inputs,
            &self.functions,
            &mut self.progress,
            self.next,
        )?;
        match came {
            Advance::Goes(next) => {
                self.next = next;
                Ok(Step::Goes)
            }
            Advance::Line(line, next) => {
                self.next = next;
                Ok(Step::Line(line))
            }
            Advance::Ends(ending) => Ok(Step::Ends(ending)),
        }
    }

    /// Steps until a line is printed or the run ends, as `step` does it, and makes the room for each step. Out of memory ends the run, whatever is left of the
    /// machine.
    pub fn advance<L: Labels<Label = T>, N: Natives<State = S>>(
        &mut self,
        labels: &mut L,
        natives: &N,
    ) -> Result<Step<T>, OutOfMemory>
        requires runs { Runs L.made L.meaning L.room labels.old self.old }
        ensures comes { IfOk result (λ s. (reading : T → Label) (told : List LabelledLine) → IsReading L.made L.meaning labels.new reading → Comes (built_ins_of (N.entries natives.now) (N.begin natives.now) (N.after natives.now) (N.asks natives.now)) (N.after natives.now) (N.asks natives.now) reading self.new told (comes_to (built_ins_of (N.entries natives.now) (N.begin natives.now) (N.after natives.now) (N.asks natives.now)) (N.after natives.now) (N.asks natives.now) reading self.old told) s) }
        ensures runs { IfOk result (IfOn (Runs L.made L.meaning L.room labels.new self.new)) }
        ensures lowers { IfOk result (IfOn (ahead self.new < ahead self.old)) }
        ensures printed { IfOk result (IfPrinted (IsPrinted (L.made labels.new) (length self.old.policy.now.outputs))) }
        ensures stopped { IfOk result (IfStopped (HasStop (L.made labels.new))) }
        ensures moved { IsMoved self.old self.new }
        ensures positions { length self.new.progress.world.positions.items ≡ length self.old.policy.now.inputs }
        ensures kept { IsKept L.made L.meaning L.room L.firm labels.old labels.new }
    {
        let came = run_on(
            self.alloc,
            labels,
            natives,
            self.policy,
            self.inputs,
            &self.functions,
            &mut self.progress,
            self.next,
        )?;
        match came {
            Advance::Goes(next) => {
                self.next = next;
                Ok(Step::Goes)
            }
            Advance::Line(line, next) => {
                self.next = next;
                Ok(Step::Line(line))
            }
            Advance::Ends(ending) => Ok(Step::Ends(ending)),
        }
    }
}
