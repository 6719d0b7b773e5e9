//! How a run ended, in words that need no store of labels and no heap.

ghost use Rattle.std.specs.Prelude.{◌≡◌, length};
ghost use Rattle.flow_policy.specs.Inputs.{Given};
ghost use Rattle.origin_labels.specs.Label.{Label};
ghost use Rattle.js_values.specs.Readings.{read_heap};
ghost use Rattle.es_meaning.specs.Outcomes.{threw, halted};
ghost use Rattle.es_meaning.specs.Start.{shown};
ghost use Rattle.flow_meaning.specs.Erased.{erased_heap};
ghost use Rattle.flow_meaning.specs.Scopes as meaning;
ghost use Rattle.continuations.specs.Stops.{HasStop};
ghost use Rattle.step_core.specs.declared.steps.Step.TheVariants.{Ends};
ghost use Rattle.step_core.specs.Machines.{IfStopped, ending_of};
ghost use Rattle.native_protocol.specs.declared.request.Answer.{Answer};
ghost use Rattle.native_protocol.specs.declared.request.Request.{Request};
ghost use Rattle.es_meaning.specs.BuiltIns.{BuiltIns};
ghost use Rattle.step_run.specs.Puts.{NeedsDeclared, Tells};

use crate::ending::Ending;
use crate::listing::origins_in;
use crate::showing::shown_text;
use flow_frames::FlowStop;
use flow_policy::Policy;
use flow_text::OutOfMemory;
use js_values::Value;
use object_heap::Heap;
use origin_labels::Labels;
use std::alloc::Global;
use step_core::Machine;

/// How a run ended.
pub(crate) fn told<'p, L: Labels, S>(
    alloc: Global,
    labels: &L,
    policy: &Policy,
    machine: &Machine<'p, L::Label, S>,
    ending: step_core::Ending<L::Label>,
) -> Ending
    requires stop { IfStopped (HasStop (L.made labels.now)) (Ends ending) }
    requires declared { IfStopped (NeedsDeclared (L.meaning labels.now) (length policy.now.origins)) (Ends ending) }
    ensures { (set : BuiltIns) (tells : S → Answer → S) (asks : S → Request) → Tells (ending_of set tells asks (L.meaning labels.now) machine.now ending) result }
{
    match ending {
        step_core::Ending::Done => Ending::Done,
        step_core::Ending::Threw(value) => thrown(
            alloc,
            &machine.progress.world.heap,
            &value.value,
        ),
        step_core::Ending::Stopped(stop) => stopped(alloc, labels, policy, stop),
        step_core::Ending::Left(why) => Ending::Left(why),
        step_core::Ending::OutOfTurns => Ending::OutOfTurns,
    }
}

/// What was thrown is shown.
fn thrown<T: Copy>(alloc: Global, heap: &Heap<T>, value: &Value) -> Ending
    ensures { (reading : T → Label) → Tells (threw (shown (erased_heap (read_heap reading heap.now)) value.now)) result }
{
    match shown_text(alloc, heap, value) {
        Ok(shown) => Ending::Threw { shown },
        Err(OutOfMemory) => Ending::OutOfMemory,
    }
}

/// A stop, with what the rule needed and what it had.
fn stopped<L: Labels>(
    alloc: Global,
    labels: &L,
    policy: &Policy,
    stop: FlowStop<L::Label>,
) -> Ending
    requires made { HasStop (L.made labels.now) stop }
    requires declared { NeedsDeclared (L.meaning labels.now) (length policy.now.origins) stop }
    ensures { Tells (halted (meaning.stopped stop.rule (L.meaning labels.now stop.need) (L.meaning labels.now stop.have))) result }
{
    let origins = policy.origins().len();
    let Ok(need) = origins_in(alloc, labels, stop.need, origins) else {
        return Ending::OutOfMemory;
    };
    let Ok(have) = origins_in(alloc, labels, stop.have, origins) else {
        return Ending::OutOfMemory;
    };
    Ending::Stopped {
        rule: stop.rule,
        need,
        have,
    }
}
