//! Constructions by functions of the script.

ghost use Rattle.std.specs.Prelude.{◌≡◌, ◌≤◌, ◌+◌, ◌++◌, ◌∷◌, [], List, length, drop, slice_get, Some, OnOk, IfErr, IfOk};
ghost use Rattle.origin_labels.specs.Label.{bottom};
ghost use Rattle.origin_labels.specs.Stores.{IsKept};
ghost use Rattle.flow_frames.specs.declared.kind.Kind.TheVariants as kind;
ghost use Rattle.flow_frames.specs.Stops.{IfStop};
ghost use Rattle.flow_policy.specs.Policies.{Tables};
ghost use Rattle.flow_policy.specs.Inputs.{Given};
ghost use Rattle.js_ast.specs.Held.{code_of};
ghost use Rattle.js_ast.specs.Views.{view_function};
ghost use Rattle.js_values.specs.declared.value.Value.TheVariants as value;
ghost use Rattle.native_protocol.specs.Steps.{Steps};
ghost use Rattle.es_meaning.specs.BuiltIns.{BuiltIns};
ghost use Rattle.es_meaning.specs.Functions.{of_script};
ghost use Rattle.function_table.specs.Tables.{table};
ghost use Rattle.run_state.specs.Worlds.{Grows};
ghost use Rattle.continuations.specs.Kept.{scopes_of, waiting};
ghost use Rattle.continuations.specs.Loads.{Adds};
ghost use Rattle.continuations.specs.Pending.{values_of};
ghost use Rattle.continuations.specs.Invariant.{Invariant, running};
ghost use Rattle.continuations.specs.Stops.{HasStop};
ghost use Rattle.step_natives.specs.Framed.{Begun};
ghost use Rattle.step_calling.specs.Calling.{InConstruction};

use crate::entries::begin_body;
use continuations::{Continuation, Control, Stack};
use flow_frames::FlowFault;
use function_entry::{enter, fresh, prototype_of};
use function_table::Functions;
use js_ast::Function;
use js_values::{EnvId, Labelled, ObjId, Value};
use origin_labels::Labels;
use run_state::World;
use std::alloc::Global;

/// An object as a value, which depends on nothing.
pub(crate) fn reference<L: Labels>(labels: &L, object: ObjId) -> Labelled<L::Label>
    ensures value { result.value ≡ value.Object object }
    ensures made { L.made labels.now result.label }
    ensures empty { L.meaning labels.now result.label ≡ bottom }
{
    Labelled {
        value: Value::Object(object),
        label: labels.bottom(),
    }
}

/// A function of the script makes an object (ECMA-262 13.2.2): that is made first, with what the function has as `prototype`, and is `this`.
pub(crate) fn construct_script<'p, L: Labels>(
    alloc: Global,
    labels: &mut L,
    world: &mut World<L::Label>,
    functions: &Functions<'p>,
    stack: &mut Stack<'p, L::Label>,
    count: usize,
    depth: usize,
    _label: L::Label,
    number: u32,
    function: &'p Function,
    place: EnvId,
    object: ObjId,
) -> Result<Control<'p>, FlowFault<L::Label>>
    requires known { slice_get (table functions.now) number ≡ Some (code_of function.now) }
    requires begun { Begun L.made L.meaning labels.old kind.Call stack.old world.old count depth _label }
    requires enough { 1 ≤ count }
    ensures constructs { (tables : Tables) (inputs : Given) (set : BuiltIns) (ns : List Steps) → InConstruction L.made L.meaning labels.new tables inputs set (table functions.now) ns (of_script number (view_function function.entry.now) place.0) _label object.0 (length world.old.heap) depth stack.old stack.new world.old world.new result }
    ensures quiet { IfOk result (λ move. running move ≡ 0) }
    ensures standing { IfOk result (λ move. Invariant L.made L.meaning labels.new stack.new world.new (values_of move) (scopes_of stack.new.tasks) (waiting stack.old.tasks) move) }
    ensures adds { IfOk result (Adds 7 stack.old stack.new) }
    ensures stopped { IfErr result (IfStop (HasStop (L.made labels.new))) }
    ensures grows { Grows world.old world.new }
    ensures kept { IsKept L.made L.meaning L.room L.firm labels.old labels.new }
{
    let proto = prototype_of(alloc, labels, world, functions, object)?;
    let made = fresh(labels, world, &proto)?;
    let this = reference(labels, made);
    let args = &stack.loose(count)[1..];
    let own = enter(
        alloc, labels, world, functions, number, function, place, this, args,
    )?;
    stack.clear(count);
    stack.lay(reference(labels, made))?;
    stack.push(Continuation::EndNew(own, depth))?;
    let next = begin_body(stack, function)?;
    Ok(next)
}
