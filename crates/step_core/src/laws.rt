//! A law of machines.

ghost use Rattle.std.specs.Prelude.{List};
ghost use Rattle.origin_labels.specs.Label.{Label};
ghost use Rattle.native_protocol.specs.declared.request.Answer.{Answer};
ghost use Rattle.native_protocol.specs.declared.request.Request.{Request};
ghost use Rattle.es_meaning.specs.BuiltIns.{BuiltIns};
ghost use Rattle.flow_meaning.specs.Laws.{performed_run};
ghost use Rattle.flow_meaning.specs.Scopes.{LabelledLine};
ghost use Rattle.low_equal.specs.Observed.{Front};
ghost use Rattle.step_core.specs.declared.machine.Machine.{Machine};
ghost use Rattle.step_core.specs.Machines.{comes_to};

use native_protocol::Natives;
use origin_labels::Labels;

/// What a machine does only adds lines, behind those that were printed, with any set of built-ins.
pub fn only_adds<L: Labels, N: Natives>()
    ensures { (set : BuiltIns) (tells : N.State → Answer → N.State) (asks : N.State → Request) (reading : L.Label → Label) (m : Machine L.Label N.State) (told : List LabelledLine) → Front told (performed_run (comes_to set tells asks reading m told)).lines }
{}
