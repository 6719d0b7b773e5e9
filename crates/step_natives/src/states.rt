//! The states of the built-ins that wait, and of the one that runs.

ghost use Rattle.std.specs.Prelude.{◌≡◌, ◌<◌, ◌+◌, [], ◌∷◌, ◌++◌, List, length, IfOk, OnOk, OnErr};
ghost use Rattle.native_protocol.specs.declared.request.Answer.{Answer};
ghost use Rattle.native_protocol.specs.declared.request.Answer.TheVariants as answer;
ghost use Rattle.native_protocol.specs.declared.request.Request.{Request};
ghost use Rattle.native_protocol.specs.Steps.{Steps, conversion};
ghost use Rattle.es_meaning.specs.BuiltIns.{begins_in, built_ins_of, steps_behind};
ghost use Rattle.step_natives.specs.States.{waiting_steps, running_steps};

use crate::state::{Accessor, NativeState};
use flow_text::OutOfMemory;
use native_protocol::{Answer, DefaultValue, Hint, Natives, Request};
use std::alloc::Global;
use std::marker::Model;
use std::mem;

// The number of the first built-in of a set: the accessors stand before it.
const FIRST: u32 = 3;

/// The states of the built-ins that wait, the outermost first, and behind them that of the one that runs, with the answer that it is told next.
#[derive(Drop)]
pub struct NativeStates<S> {
    states: Vec<NativeState<S>>,
    answer: Answer,
}

impl<S> Model for NativeStates<S> {
    ghost use Rattle.step_natives.specs.States.{States};

    ghost Value = { States S };

    ghost view = { λ n. record { states = n.states.items; answer = n.answer } };
}

impl<S: Drop> NativeStates<S> {
    /// None. It takes no memory.
    pub fn new(alloc: Global) -> NativeStates<S>
        ensures { result.states ≡ [] }
    {
        NativeStates {
            states: Vec::new(alloc),
            answer: Answer::Begin,
        }
    }

    /// A built-in with this number is called, with so many arguments, and runs. One that the set doesn't have leaves the language
    /// by the empty name: no function has it.
    #[tactic(auto, using(crate::proofs::StateLaws::begun_caller, crate::proofs::StateLaws::begun_arguments, crate::proofs::StateLaws::begun_callee, crate::proofs::StateLaws::begun_in_set, crate::proofs::StateLaws::begun_unknown))]
    pub fn begin<N: Natives<State = S>>(
        &mut self,
        alloc: Global,
        natives: &N,
        which: u32,
        argc: u64,
        construct: bool,
    ) -> Result<(), OutOfMemory>
        ensures begun { OnOk result (running_steps (N.after natives.now) (N.asks natives.now) self.new ≡ waiting_steps (N.after natives.now) (N.asks natives.now) self.old ++ begins_in (built_ins_of (N.entries natives.now) (N.begin natives.now) (N.after natives.now) (N.asks natives.now)) which argc construct ∷ []) }
        ensures count { OnOk result (length self.new.states ≡ length self.old.states + 1) }
        ensures unchanged { OnErr result (self.new.states ≡ self.old.states) }
    {
        match which {
            0 => self.add(NativeState::Leaves(Accessor::Caller)),
            1 => self.add(NativeState::Leaves(Accessor::Arguments)),
            2 => self.add(NativeState::Leaves(Accessor::Callee)),
            _ => {
                let which = which - FIRST;
                if which >= natives.count() {
                    return self.add(NativeState::Leaves(Accessor::Unknown));
                }
                let state = natives.start(alloc, which, argc, construct)?;
                self.add(NativeState::Set(state))
            }
        }
    }

    /// The conversion of an object begins, and runs.
    #[tactic(auto, using(crate::proofs::StateLaws::begun_conversion))]
    pub fn begin_conversion(&mut self, hint: Hint) -> Result<(), OutOfMemory>
        ensures begun { OnOk result ((after : S → Answer → S) (asks : S → Request) → running_steps after asks self.new ≡ waiting_steps after asks self.old ++ conversion hint ∷ []) }
        ensures count { OnOk result (length self.new.states ≡ length self.old.states + 1) }
        ensures unchanged { OnErr result (self.new.states ≡ self.old.states) }
    {
        self.add(NativeState::Conversion(DefaultValue::start(hint)))
    }

    // The last of them runs, and is told that it begins.
    fn add(&mut self, state: NativeState<S>) -> Result<(), OutOfMemory>
        ensures added { OnOk result (self.new ≡ record { states = self.old.states ++ state ∷ []; answer = answer.Begin }) }
        ensures unchanged { OnErr result (self.new.states ≡ self.old.states) }
    {
        self.states.push(state)?;
        self.answer = Answer::Begin;
        Ok(())
    }

    /// The one that runs is told its answer, and asks the next: it waits then. Where memory is missing its state may be any.
    #[tactic(auto, using(crate::proofs::StateLaws::next_waits, crate::proofs::StateLaws::next_asks))]
    pub fn next<N: Natives<State = S>>(
        &mut self,
        alloc: Global,
        natives: &N,
    ) -> Result<Request, OutOfMemory>
        requires { 0 < length self.old.states }
        ensures steps { IfOk result (λ request. waiting_steps (N.after natives.now) (N.asks natives.now) self.new ≡ running_steps (N.after natives.now) (N.asks natives.now) self.old) }
        ensures asks { IfOk result (λ request. (front : List Steps) (steps : Steps) → running_steps (N.after natives.now) (N.asks natives.now) self.old ≡ front ++ steps ∷ [] → request ≡ steps []) }
        ensures count { length self.new.states ≡ length self.old.states }
    {
        let answer = mem::replace(&mut self.answer, Answer::Done);
        let last = self.states.len() - 1;
        self.states[last].next(alloc, natives, answer)
    }

    /// The innermost one, which waited, runs, and is told this next.
    #[tactic(auto, using(crate::proofs::StateLaws::tells))]
    pub fn tell(&mut self, answer: Answer)
        ensures told { (after : S → Answer → S) (asks : S → Request) (front : List Steps) (steps : Steps) → waiting_steps after asks self.old ≡ front ++ steps ∷ [] → running_steps after asks self.new ≡ front ++ steps_behind steps answer ∷ [] }
        ensures states { self.new.states ≡ self.old.states }
    {
        self.answer = answer;
    }

    /// The innermost one is over.
    #[tactic(auto, using(crate::proofs::StateLaws::popped))]
    pub fn pop(&mut self)
        requires { 0 < length self.old.states }
        ensures rest { (after : S → Answer → S) (asks : S → Request) (front : List Steps) (steps : Steps) → waiting_steps after asks self.old ≡ front ++ steps ∷ [] → waiting_steps after asks self.new ≡ front }
        ensures count { length self.new.states + 1 ≡ length self.old.states }
    {
        self.states.truncate(self.states.len() - 1);
    }
}
