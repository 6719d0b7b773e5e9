//! Why a run leaves the language.

ghost use Rattle.std.specs.Prelude.{◌≡◌, List, IfOk, length, map};
ghost use Rattle.origin_labels.specs.Label.{Label};
ghost use Rattle.flow_policy.specs.Policies.{Tables};
ghost use Rattle.flow_policy.specs.Inputs.{Given};
ghost use Rattle.js_ast.specs.Functions.{FunctionCode};
ghost use Rattle.js_values.specs.Readings.{read_value};
ghost use Rattle.native_protocol.specs.declared.request.Answer.{Answer};
ghost use Rattle.native_protocol.specs.declared.request.Request.{Request};
ghost use Rattle.es_meaning.specs.BuiltIns.{BuiltIns};
ghost use Rattle.run_state.specs.Names.{leaving_name};
ghost use Rattle.run_state.specs.Worlds.{Grows};
ghost use Rattle.continuations.specs.declared.continuation.Control.TheVariants as control;
ghost use Rattle.continuations.specs.Pending.{values_of};
ghost use Rattle.continuations.specs.Shapes.{name_of};
ghost use Rattle.continuations.specs.declared.continuation.Reason.TheVariants as reason;
ghost use Rattle.step_core.specs.RemainingRun.{ahead, remaining_run};
ghost use Rattle.step_core.specs.Stepping.{Stepped, StandsBefore};

use crate::progress::Progress;
use crate::steps::{Advance, Ending};
use continuations::{Reason, Stack};
use flow_text::OutOfMemory;
use js_number::Primitive;
use js_values::Value;
use origin_labels::Labels;
use run_state::Leaving;

/// The run leaves the language.
pub(crate) fn leave<'p, L: Labels, S: Drop>(
    _labels: &L,
    progress: &mut Progress<'p, L::Label, S>,
    why: Reason,
) -> Result<Advance<'p, L::Label>, OutOfMemory>
    requires standing { StandsBefore L.made L.meaning _labels.now progress.old (control.Leave why) }
    ensures stepped { (tables : Tables) (inputs : Given) (set : BuiltIns) (functions : List FunctionCode) (tells : S → Answer → S) (asks : S → Request) → IfOk result (Stepped L.made L.meaning _labels.now tables inputs set functions tells asks (λ reading. remaining_run tables inputs set functions tells asks reading progress.old (control.Leave why)) (ahead progress.old (control.Leave why)) progress.new) }
    ensures grows { Grows progress.old.world progress.new.world }
{
    let why = leaving(&mut progress.stack, why)?;
    Ok(Advance::Ends(Ending::Left(why)))
}

// The reason with the name that lies loose.
fn leaving<T: Copy>(stack: &mut Stack<'_, T>, why: Reason) -> Result<Leaving, OutOfMemory>
    requires loose { length stack.old.loose ≡ values_of (control.Leave why) }
    ensures { IfOk result (λ left. (reading : T → Label) → leaving_name left ≡ name_of why (map (read_value reading) stack.old.loose)) }
{
    match why {
        Reason::Number => Ok(Leaving::Number),
        Reason::String => Ok(Leaving::String),
        Reason::Channel => Ok(Leaving::Channel),
        Reason::Origin => Ok(Leaving::Origin),
        Reason::Wrapper => Ok(Leaving::Wrapper),
        Reason::Named => named(stack),
    }
}

// The name that lies loose. That it is a text isn't known here.
fn named<T: Copy>(stack: &mut Stack<'_, T>) -> Result<Leaving, OutOfMemory>
    requires loose { length stack.old.loose ≡ 1 }
    ensures { IfOk result (λ left. (reading : T → Label) → leaving_name left ≡ name_of reason.Named (map (read_value reading) stack.old.loose)) }
{
    match stack.pop().value {
        Value::Primitive(Primitive::Str(name)) => Ok(Leaving::Named(name)),
        _ => Err(OutOfMemory),
    }
}
