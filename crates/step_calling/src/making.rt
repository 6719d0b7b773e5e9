//! Functions as values (ECMA-262 13).

ghost use Rattle.std.specs.Prelude.{◌≡◌, List, IfErr, IfOk};
ghost use Rattle.origin_labels.specs.Stores.{IsKept};
ghost use Rattle.flow_frames.specs.Stops.{IfStop};
ghost use Rattle.flow_policy.specs.Policies.{Tables};
ghost use Rattle.flow_policy.specs.Inputs.{Given};
ghost use Rattle.native_protocol.specs.Steps.{Steps};
ghost use Rattle.es_meaning.specs.BuiltIns.{BuiltIns};
ghost use Rattle.function_table.specs.Tables.{table};
ghost use Rattle.run_state.specs.Worlds.{Grows};
ghost use Rattle.continuations.specs.declared.continuation.Control.TheVariants as control;
ghost use Rattle.continuations.specs.Going.{Begins, Lowers, here};
ghost use Rattle.continuations.specs.Kept.{scopes_of, waiting};
ghost use Rattle.continuations.specs.Pending.{env_above, values_of};
ghost use Rattle.continuations.specs.Invariant.{Invariant, running};
ghost use Rattle.continuations.specs.Stops.{HasStop};

use crate::constructing::reference;
use continuations::{Control, Stack};
use flow_frames::FlowFault;
use function_entry::make_function;
use function_table::Functions;
use js_ast::Function;
use js_values::EnvId;
use origin_labels::Labels;
use run_state::World;
use std::alloc::Global;

/// A function of the script comes to a value, which closes over the present record. It depends on nothing.
pub fn function<'p, L: Labels>(
    alloc: Global,
    labels: &mut L,
    world: &mut World<L::Label>,
    functions: &Functions<'p>,
    stack: &mut Stack<'p, L::Label>,
    place: EnvId,
    f: &'p Function,
) -> Result<Control<'p>, FlowFault<L::Label>>
    requires place { (env_above stack.old.tasks here).place ≡ place.0 }
    requires standing { Invariant L.made L.meaning labels.old stack.old world.old (values_of (control.Function f)) (scopes_of stack.old.tasks) (waiting stack.old.tasks) (control.Function f) }
    ensures begins { (tables : Tables) (inputs : Given) (set : BuiltIns) (ns : List Steps) → Begins L.made L.meaning labels.new tables inputs set (table functions.now) ns ns stack.old stack.new world.old world.new (control.Function f.entry) result }
    ensures quiet { IfOk result (λ move. running move ≡ 0) }
    ensures standing { IfOk result (λ move. Invariant L.made L.meaning labels.new stack.new world.new (values_of move) (scopes_of stack.new.tasks) (waiting stack.old.tasks) move) }
    ensures lowers { IfOk result (λ move. Lowers stack.old (control.Function f.entry) stack.new move) }
    ensures stopped { IfErr result (IfStop (HasStop (L.made labels.new))) }
    ensures grows { Grows world.old world.new }
    ensures kept { IsKept L.made L.meaning L.room L.firm labels.old labels.new }
{
    let made = make_function(alloc, labels, world, functions, f, place)?;
    stack.lay(reference(labels, made))?;
    Ok(Control::Value)
}
