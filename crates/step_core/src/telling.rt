//! Built-ins that wait: one is told what it asked for, or a jump passes it.

ghost use Rattle.std.specs.Prelude.{◌≡◌, ◌+◌, ◌++◌, ◌∷◌, [], List, IfOk, drop, length};
ghost use Rattle.origin_labels.specs.Label.{Label};
ghost use Rattle.origin_labels.specs.Stores.{IsKept};
ghost use Rattle.flow_policy.specs.Policies.{Tables};
ghost use Rattle.flow_policy.specs.Inputs.{Given};
ghost use Rattle.js_ast.specs.Functions.{FunctionCode};
ghost use Rattle.js_values.specs.declared.value.Labelled.{Labelled};
ghost use Rattle.js_values.specs.Readings.{read_value};
ghost use Rattle.native_protocol.specs.declared.request.Request.{Request};
ghost use Rattle.es_meaning.specs.BuiltIns.{BuiltIns};
ghost use Rattle.flow_meaning.specs.Planned.{jumped};
ghost use Rattle.run_state.specs.Worlds.{Grows};
ghost use Rattle.continuations.specs.declared.continuation.Control.TheVariants as control;
ghost use Rattle.continuations.specs.declared.continuation.Continuation.TheVariants as continuation;
ghost use Rattle.continuations.specs.Kept.{scopes_of, waiting};
ghost use Rattle.continuations.specs.Shapes.{jump_of};
ghost use Rattle.continuations.specs.Invariant.{Invariant, given};
ghost use Rattle.step_core.specs.RemainingRun.{ahead};
ghost use Rattle.step_core.specs.Stepping.{Stepped, completion_above, remaining_run_after};

use crate::passing::pass_by;
use crate::progress::Progress;
use crate::resuming::prepare;
use crate::steps::{Advance, still_step};
use continuations::{Continuation, Control, Jump, answered};
use flow_text::OutOfMemory;
use native_protocol::{Answer, Reg};
use origin_labels::Labels;

/// A built-in that waited is told that what it asked for is done, and is to ask next.
pub(crate) fn tell<'p, L: Labels, S: Drop>(
    labels: &L,
    progress: &mut Progress<'p, L::Label, S>,
    count: u32,
    to: Option<Reg>,
    gave: bool,
) -> Result<Advance<'p, L::Label>, OutOfMemory>
    requires standing { Invariant L.made L.meaning labels.now progress.old.stack progress.old.world (count + given gave) (scopes_of progress.old.stack.tasks) (waiting progress.old.stack.tasks) control.Value }
    requires natives { length progress.old.natives.states ≡ waiting progress.old.stack.tasks + 1 }
    ensures stepped { (tables : Tables) (inputs : Given) (set : BuiltIns) (functions : List FunctionCode) (tells : S → Answer → S) (asks : S → Request) → IfOk result (Stepped L.made L.meaning labels.now tables inputs set functions tells asks (λ reading. remaining_run_after tables inputs set functions tells asks reading progress.old (continuation.Answered count to) (completion_above tables inputs set functions tells asks reading progress.old (continuation.Answered count to))) (ahead progress.old control.Value + 1) progress.new) }
    ensures grows { Grows progress.old.world progress.new.world }
{
    prepare(
        labels,
        &mut progress.stack,
        Continuation::Answered(count, to),
        gave,
    )?;
    let Control::Request(count) = answered(labels, &mut progress.stack, count, to)? else {
        return Err(OutOfMemory);
    };
    progress.natives.tell(Answer::Done);
    Ok(Advance::Goes(Control::Request(count)))
}

/// A jump passes a built-in that waited: it is over.
pub(crate) fn abandon<'p, L: Labels, S: Drop>(
    labels: &L,
    progress: &mut Progress<'p, L::Label, S>,
    jump: Jump,
    count: u32,
    to: Option<Reg>,
) -> Result<Advance<'p, L::Label>, OutOfMemory>
    requires standing { Invariant L.made L.meaning labels.now progress.old.stack progress.old.world (count + 1) (scopes_of progress.old.stack.tasks ++ []) (waiting progress.old.stack.tasks) (control.Jumps jump) }
    requires natives { length progress.old.natives.states ≡ waiting progress.old.stack.tasks + 1 }
    ensures stepped { (tables : Tables) (inputs : Given) (set : BuiltIns) (functions : List FunctionCode) (tells : S → Answer → S) (asks : S → Request) (value : Labelled L.Label) → drop count progress.old.stack.loose ≡ value ∷ [] → IfOk result (Stepped L.made L.meaning labels.now tables inputs set functions tells asks (λ reading. remaining_run_after tables inputs set functions tells asks reading progress.old (continuation.Answered count to) (jumped (jump_of jump (read_value reading value)))) (ahead progress.old (control.Jumps jump) + 1) progress.new) }
    ensures grows { Grows progress.old.world progress.new.world }
{
    let moved = pass_by(
        labels,
        &progress.world,
        &mut progress.stack,
        jump,
        Continuation::Answered(count, to),
    );
    progress.natives.pop();
    still_step(moved)
}
