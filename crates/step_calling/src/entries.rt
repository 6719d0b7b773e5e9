//! Calls of functions of the script: what they begin with, and their bodies.

ghost use Rattle.std.specs.Prelude.{◌≡◌, ◌≤◌, ◌+◌, ◌++◌, ◌∷◌, [], List, length, drop, slice_get, Some, OnOk, IfErr, IfOk};
ghost use Rattle.origin_labels.specs.Stores.{IsKept};
ghost use Rattle.flow_frames.specs.declared.kind.Kind.TheVariants as kind;
ghost use Rattle.flow_frames.specs.Stops.{IfStop};
ghost use Rattle.flow_policy.specs.Policies.{Tables};
ghost use Rattle.flow_policy.specs.Inputs.{Given};
ghost use Rattle.js_ast.specs.Trees.{body_of};
ghost use Rattle.js_ast.specs.Held.{code_of};
ghost use Rattle.js_ast.specs.Views.{view_function, view_stmts};
ghost use Rattle.native_protocol.specs.Steps.{Steps};
ghost use Rattle.es_meaning.specs.BuiltIns.{BuiltIns};
ghost use Rattle.es_meaning.specs.Functions.{of_script};
ghost use Rattle.function_table.specs.Tables.{table};
ghost use Rattle.run_state.specs.Worlds.{Grows};
ghost use Rattle.continuations.specs.Kept.{scopes_of, waiting};
ghost use Rattle.continuations.specs.Loads.{Adds};
ghost use Rattle.continuations.specs.Pending.{values_of};
ghost use Rattle.continuations.specs.Resuming.{Keeps};
ghost use Rattle.continuations.specs.Invariant.{Invariant, given, running};
ghost use Rattle.continuations.specs.Stops.{HasStop};
ghost use Rattle.step_natives.specs.Framed.{Begun};
ghost use Rattle.step_calling.specs.Calling.{InCall, StartsBody};

use crate::values::this_of;
use continuations::{Continuation, Control, Stack, begin_statements};
use flow_frames::FlowFault;
use flow_text::OutOfMemory;
use function_entry::enter;
use function_table::Functions;
use js_ast::{Function, Stmt};
use js_values::EnvId;
use origin_labels::Labels;
use run_state::World;
use std::alloc::Global;

/// What a function of the script does.
#[inline(always)]
#[tactic(auto, using(js_ast::proofs::ViewLaws::parts_function))]
fn body(function: &Function) -> &[Stmt]
    ensures { view_stmts result.now ≡ body_of (view_function function.entry.now) }
{
    function.body.items()
}

/// Whether a built-in runs next.
#[inline(always)]
fn is_request(next: Control<'_>) -> bool
    ensures { running next.entry ≡ given result }
{
    matches!(next, Control::Request(_))
}

/// The statements of a function. None of them is a built-in's request.
#[inline(always)]
pub(crate) fn begin_body<'p, T: Copy>(
    stack: &mut Stack<'p, T>,
    function: &'p Function,
) -> Result<Control<'p>, OutOfMemory>
    requires loose { length stack.old.loose ≡ 0 }
    ensures begins { IfOk result (StartsBody (body_of (view_function function.entry.now)) stack.old stack.new) }
    ensures quiet { IfOk result (λ move. running move ≡ 0) }
    ensures keeps { IfOk result (Keeps stack.old stack.new) }
    ensures adds { IfOk result (Adds 6 stack.old stack.new) }
{
    let next = begin_statements(stack, body(function))?;
    if is_request(next) {
        return Err(OutOfMemory);
    }
    Ok(next)
}

/// A function of the script is called (ECMA-262 13.2.1).
#[inline(always)]
pub(crate) fn enter_script<'p, L: Labels>(
    alloc: Global,
    labels: &mut L,
    world: &mut World<L::Label>,
    functions: &Functions<'p>,
    stack: &mut Stack<'p, L::Label>,
    count: usize,
    depth: usize,
    _label: L::Label,
    number: u32,
    function: &'p Function,
    place: EnvId,
) -> Result<Control<'p>, FlowFault<L::Label>>
    requires known { slice_get (table functions.now) number ≡ Some (code_of function.now) }
    requires begun { Begun L.made L.meaning labels.old kind.Call stack.old world.old count depth _label }
    requires enough { 2 ≤ count }
    ensures calls { (tables : Tables) (inputs : Given) (set : BuiltIns) (ns : List Steps) → InCall L.made L.meaning labels.new tables inputs set (table functions.now) ns (of_script number (view_function function.entry.now) place.0) _label depth stack.old stack.new world.old world.new result }
    ensures quiet { IfOk result (λ move. running move ≡ 0) }
    ensures standing { IfOk result (λ move. Invariant L.made L.meaning labels.new stack.new world.new (values_of move) (scopes_of stack.new.tasks) (waiting stack.old.tasks) move) }
    ensures adds { IfOk result (Adds 7 stack.old stack.new) }
    ensures stopped { IfErr result (IfStop (HasStop (L.made labels.new))) }
    ensures grows { Grows world.old world.new }
    ensures kept { IsKept L.made L.meaning L.room L.firm labels.old labels.new }
{
    let this = this_of(alloc, stack, count)?;
    let args = &stack.loose(count)[2..];
    let own = enter(
        alloc, labels, world, functions, number, function, place, this, args,
    )?;
    stack.clear(count);
    stack.push(Continuation::EndCall(own, depth))?;
    let next = begin_body(stack, function)?;
    Ok(next)
}
