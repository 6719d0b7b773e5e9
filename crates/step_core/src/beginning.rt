//! A run that has done nothing yet.

ghost use Rattle.std.specs.Prelude.{◌≡◌, [], IfOk, length};
ghost use Rattle.origin_labels.specs.Label.{Label};
ghost use Rattle.origin_labels.specs.Stores.{IsKept};
ghost use Rattle.flow_policy.specs.Inputs.{Given};
ghost use Rattle.js_ast.specs.Views.{view_program};
ghost use Rattle.js_values.specs.Readings.{IsReading};
ghost use Rattle.flow_meaning.specs.Laws.{performed_run};
ghost use Rattle.flow_meaning.specs.Tracked.{tracked_run};
ghost use Rattle.step_core.specs.RemainingRun.{remaining_run};
ghost use Rattle.step_core.specs.Stepping.{StandsBefore};
ghost use Rattle.std.specs.Prelude.{ℕ, false};
ghost use Rattle.origin_labels.specs.Label.{bottom};
ghost use Rattle.js_ast.specs.Functions.{functions_of};
ghost use Rattle.es_meaning.specs.Outcomes.{Jumps};
ghost use Rattle.es_meaning.specs.Plain.{may_declare};
ghost use Rattle.native_protocol.specs.declared.request.ErrorKind.TheVariants as kinds;
ghost use Rattle.es_meaning.specs.BuiltIns.{built_ins_of};
ghost use Rattle.flow_meaning.specs.Scopes.{Val};
ghost use Rattle.flow_meaning.specs.Tracked.{start, throw_error};
ghost use Rattle.function_table.specs.Tables.{table};
ghost use Rattle.run_state.specs.Acts.{thrown};
ghost use Rattle.run_state.specs.Worlds.{Belongs, Grows, state_of};

use crate::progress::Progress;
use crate::steps::runs;
use continuations::{Control, Jump, Stack, begin_statements};
use flow_frames::FlowFault;
use flow_policy::Policy;
use flow_text::OutOfMemory;
use function_table::Functions;
use js_ast::Program;
use js_values::Labelled;
use native_protocol::{ErrorKind, Natives};
use origin_labels::Labels;
use property_access::throw_error;
use run_state::{Outcome, World};
use std::alloc::Global;
use step_natives::NativeStates;
use step_start::start;

/// A run in front of a program, and what it does first: the program's statements, or where a function may not be declared, the throw of a TypeError.
pub(crate) fn begin<'p, L: Labels, N: Natives>(
    alloc: Global,
    labels: &mut L,
    natives: &N,
    program: &'p Program,
    functions: &Functions<'_>,
    policy: &Policy,
    turns: u64,
) -> Result<(Progress<'p, L::Label, N::State>, Control<'p>), OutOfMemory>
    requires functions { table functions.now ≡ functions_of (view_program program.now) }
    ensures starts { IfOk result (λ b. (inputs : Given) (reading : L.Label → Label) → IsReading L.made L.meaning labels.new reading → performed_run (remaining_run policy.now inputs (built_ins_of (N.entries natives.now) (N.begin natives.now) (N.after natives.now) (N.asks natives.now)) (table functions.now) (N.after natives.now) (N.asks natives.now) reading b.0 b.1 []) ≡ tracked_run (built_ins_of (N.entries natives.now) (N.begin natives.now) (N.after natives.now) (N.asks natives.now)) policy.now inputs (view_program program.entry.now) turns) }
    ensures standing { IfOk result (λ b. StandsBefore L.made L.meaning labels.new b.0 b.1) }
    ensures positions { IfOk result (λ b. length b.0.world.positions.items ≡ length policy.now.inputs) }
    ensures kept { IsKept L.made L.meaning L.room L.firm labels.old labels.new }
{
    let started = start(alloc, labels, natives, program, functions, policy)?;
    if !started.may_declare {
        let world = started.world;
        return refuse(
            alloc, labels, natives, program, functions, policy, world, turns,
        );
    }
    let mut stack = Stack::new(alloc);
    let next = begin_statements(&mut stack, program.body.items())?;
    // the beginning runs no built-in, which isn't known here
    if runs(next) {
        return Err(OutOfMemory);
    }
    let states = NativeStates::new(alloc);
    let progress = Progress {
        world: started.world,
        stack,
        natives: states,
        turns,
    };
    Ok((progress, next))
}

/// The throw where a function may not be declared. Nothing decided it, so no flow rule stops it.
fn refuse<'p, L: Labels, N: Natives>(
    alloc: Global,
    labels: &mut L,
    _natives: &N,
    _program: &'p Program,
    _functions: &Functions<'_>,
    _policy: &Policy,
    world: World<L::Label>,
    turns: u64,
) -> Result<(Progress<'p, L::Label, N::State>, Control<'p>), OutOfMemory>
    requires functions { table _functions.now ≡ functions_of (view_program _program.now) }
    requires starts { (inputs : Given) (reading : L.Label → Label) → IsReading L.made L.meaning labels.old reading → (turns : ℕ) → state_of reading world [] turns ≡ start _policy.now inputs (built_ins_of (N.entries _natives.now) (N.begin _natives.now) (N.after _natives.now) (N.asks _natives.now)) (view_program _program.now) turns }
    requires refused { may_declare (built_ins_of (N.entries _natives.now) (N.begin _natives.now) (N.after _natives.now) (N.asks _natives.now)) (view_program _program.now) ≡ false }
    requires belongs { Belongs L.made L.meaning labels.old world }
    requires records { length world.records ≡ 1 }
    requires positions { length world.positions.items ≡ length _policy.now.inputs }
    ensures starts { IfOk result (λ b. (inputs : Given) (reading : L.Label → Label) → IsReading L.made L.meaning labels.new reading → performed_run (remaining_run _policy.now inputs (built_ins_of (N.entries _natives.now) (N.begin _natives.now) (N.after _natives.now) (N.asks _natives.now)) (table _functions.now) (N.after _natives.now) (N.asks _natives.now) reading b.0 b.1 []) ≡ tracked_run (built_ins_of (N.entries _natives.now) (N.begin _natives.now) (N.after _natives.now) (N.asks _natives.now)) _policy.now inputs (view_program _program.entry.now) turns) }
    ensures standing { IfOk result (λ b. StandsBefore L.made L.meaning labels.new b.0 b.1) }
    ensures positions { IfOk result (λ b. length b.0.world.positions.items ≡ length _policy.now.inputs) }
    ensures kept { IsKept L.made L.meaning L.room L.firm labels.old labels.new }
{
    let mut world = world;
    let value = thrown(labels, &mut world)?;
    let mut stack = Stack::new(alloc);
    stack.lay(value)?;
    let states = NativeStates::new(alloc);
    let progress = Progress {
        world,
        stack,
        natives: states,
        turns,
    };
    Ok((progress, Control::Jumps(Jump::Throws)))
}

/// The TypeError that is thrown. Want of memory alone is handed on: a throw can't go on, and nothing stops one that nothing decided.
fn thrown<L: Labels>(
    labels: &mut L,
    world: &mut World<L::Label>,
) -> Result<Labelled<L::Label>, OutOfMemory>
    requires belongs { Belongs L.made L.meaning labels.old world.old }
    ensures throws { IfOk result (λ v. (reading : L.Label → Label) → IsReading L.made L.meaning labels.new reading → (turns : ℕ) → throw_error {X = Val} kinds.TypeError bottom (state_of reading world.old [] turns) ≡ Jumps (thrown reading v) (state_of reading world.new [] turns)) }
    ensures made { IfOk result (λ v. L.made labels.new v.label) }
    ensures belongs { Belongs L.made L.meaning labels.new world.new }
    ensures grows { Grows world.old world.new }
    ensures kept { IsKept L.made L.meaning L.room L.firm labels.old labels.new }
{
    let none = labels.bottom();
    let answer: Result<Outcome<Labelled<L::Label>, L::Label>, FlowFault<L::Label>> = throw_error(
        labels,
        world,
        ErrorKind::TypeError,
        none,
    );
    match answer {
        Ok(Outcome::Throws(value)) => Ok(value),
        _ => Err(OutOfMemory),
    }
}
