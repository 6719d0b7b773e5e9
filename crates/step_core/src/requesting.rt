//! What a built-in asks for.

ghost use Rattle.std.specs.Prelude.{◌≡◌, ◌≤◌, List, IfOk, length};
ghost use Rattle.origin_labels.specs.Label.{Label};
ghost use Rattle.origin_labels.specs.Stores.{IsKept};
ghost use Rattle.flow_policy.specs.Inputs.{IsGivenTo};
ghost use Rattle.js_ast.specs.Functions.{FunctionCode};
ghost use Rattle.es_meaning.specs.BuiltIns.{BuiltIns};
ghost use Rattle.run_state.specs.Worlds.{Grows};
ghost use Rattle.continuations.specs.declared.continuation.Control.TheVariants as control;
ghost use Rattle.step_core.specs.RemainingRun.{ahead, remaining_run};
ghost use Rattle.step_core.specs.Stepping.{IsAsked, Stepped, StandsBefore};

use crate::progress::Progress;
use crate::steps::{Advance, Ending, line_step};
use channel_requests::Printed;
use continuations::Control;
use flow_frames::FlowFault;
use flow_policy::{Inputs, Policy};
use flow_text::OutOfMemory;
use native_protocol::Natives;
use origin_labels::Labels;
use std::alloc::Global;
use step_requests::request;

/// The built-in that runs asks for something, which costs a turn, and without one the run ends.
pub(crate) fn request_next<'p, L: Labels, N: Natives>(
    alloc: Global,
    labels: &mut L,
    natives: &N,
    policy: &Policy,
    inputs: &Inputs,
    progress: &mut Progress<'p, L::Label, N::State>,
    count: u32,
) -> Result<Advance<'p, L::Label>, OutOfMemory>
    requires standing { StandsBefore L.made L.meaning labels.old progress.old (control.Request count) }
    requires room { length policy.now.origins ≤ L.room labels.old }
    requires given { IsGivenTo policy.now inputs.now }
    requires positions { length progress.old.world.positions.items ≡ length policy.now.inputs }
    ensures stepped { (set : BuiltIns) (functions : List FunctionCode) → IfOk result (Stepped L.made L.meaning labels.new policy.now inputs.now set functions (N.after natives.now) (N.asks natives.now) (λ reading. remaining_run policy.now inputs.now set functions (N.after natives.now) (N.asks natives.now) reading progress.old (control.Request count)) (ahead progress.old (control.Request count)) progress.new) }
    ensures grows { Grows progress.old.world progress.new.world }
    ensures kept { IsKept L.made L.meaning L.room L.firm labels.old labels.new }
{
    if progress.turns == 0 {
        return Ok(Advance::Ends(Ending::OutOfTurns));
    }
    progress.turns -= 1;
    let world = &mut progress.world;
    let states = &mut progress.natives;
    let stack = &mut progress.stack;
    let moved = request(
        alloc, labels, world, policy, inputs, natives, states, stack, count,
    );
    asked_step(alloc, moved)
}

/// The step that a request is, with the line that it printed, or the rule that stopped it.
fn asked_step<'p, T: Copy>(
    alloc: Global,
    moved: Result<(Control<'p>, Option<Printed<T>>), FlowFault<T>>,
) -> Result<Advance<'p, T>, OutOfMemory>
    ensures { IfOk result (IsAsked moved.entry) }
{
    match moved {
        Ok((next, None)) => Ok(Advance::Goes(next)),
        Ok((next, Some(line))) => line_step(alloc, line, next),
        Err(FlowFault::Stop(stop)) => Ok(Advance::Ends(Ending::Stopped(stop))),
        Err(FlowFault::OutOfMemory) => Err(OutOfMemory),
    }
}
