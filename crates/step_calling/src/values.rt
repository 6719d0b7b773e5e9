//! The value that is called, before its arguments, and the values of a call.

ghost use Rattle.std.specs.Prelude.{◌≡◌, ◌≤◌, ◌+◌, ◌++◌, length, drop, IfErr, IfOk};
ghost use Rattle.origin_labels.specs.Stores.{IsKept};
ghost use Rattle.flow_frames.specs.Stops.{IfStop};
ghost use Rattle.flow_policy.specs.Policies.{Tables};
ghost use Rattle.flow_policy.specs.Inputs.{Given};
ghost use Rattle.js_ast.specs.Functions.{FunctionCode};
ghost use Rattle.std.specs.Prelude.{List};
ghost use Rattle.native_protocol.specs.Steps.{Steps};
ghost use Rattle.es_meaning.specs.BuiltIns.{BuiltIns};
ghost use Rattle.run_state.specs.Worlds.{Grows};
ghost use Rattle.continuations.specs.declared.continuation.Control.TheVariants as control;
ghost use Rattle.continuations.specs.declared.continuation.Continuation.TheVariants as continuation;
ghost use Rattle.continuations.specs.Going.{Resumes};
ghost use Rattle.continuations.specs.Kept.{scope_of, scopes_of, waiting};
ghost use Rattle.continuations.specs.Loads.{Adds, weight};
ghost use Rattle.continuations.specs.Pending.{owns, values_of};
ghost use Rattle.continuations.specs.Invariant.{Invariant, running};
ghost use Rattle.continuations.specs.Stops.{HasStop};
ghost use Rattle.step_natives.specs.Framed.{Leads};
ghost use Rattle.step_calling.specs.Calling.{object_in};

use continuations::{Calling, Control, Stack, begin_arguments};
use flow_frames::FlowFault;
use flow_text::OutOfMemory;
use js_ast::Expr;
use js_number::Primitive;
use js_values::{Labelled, ObjId, Value};
use origin_labels::Labels;
use run_state::World;
use std::alloc::Global;

/// The value is called with these arguments (ECMA-262 11.2.3). It is no reference, and `this` is undefined.
pub fn callee<'p, L: Labels>(
    labels: &mut L,
    world: &mut World<L::Label>,
    stack: &mut Stack<'p, L::Label>,
    args: &'p [Expr],
) -> Result<Control<'p>, FlowFault<L::Label>>
    requires standing { Invariant L.made L.meaning labels.old stack.old world.old (owns (continuation.Callee args) + 1) (scopes_of stack.old.tasks ++ scope_of (continuation.Callee args)) (waiting stack.old.tasks) control.Value }
    ensures resumes { (tables : Tables) (inputs : Given) (set : BuiltIns) (functions : List FunctionCode) (ns : List Steps) → Resumes L.made L.meaning labels.new tables inputs set functions (continuation.Callee args.entry) ns ns stack.old stack.new world.old world.new result }
    ensures standing { IfOk result (λ move. running move ≡ 0 → Invariant L.made L.meaning labels.new stack.new world.new (values_of move) (scopes_of stack.new.tasks) (waiting stack.old.tasks) move) }
    ensures adds { IfOk result (Adds (weight (continuation.Callee args.entry) + 5) stack.old stack.new) }
    ensures stopped { IfErr result (IfStop (HasStop (L.made labels.new))) }
    ensures grows { Grows world.old world.new }
    ensures kept { IsKept L.made L.meaning L.room L.firm labels.old labels.new }
{
    let _world = &*world;
    let f = stack.pop();
    stack.lay(Labelled {
        value: Value::Primitive(Primitive::Undefined),
        label: labels.bottom(),
    })?;
    stack.lay(f)?;
    let next = begin_arguments(stack, Calling::Calls, 0, args)?;
    Ok(next)
}

/// The value makes an object with these arguments (ECMA-262 11.2.2).
pub fn constructor<'p, L: Labels>(
    labels: &mut L,
    world: &mut World<L::Label>,
    stack: &mut Stack<'p, L::Label>,
    args: &'p [Expr],
) -> Result<Control<'p>, FlowFault<L::Label>>
    requires standing { Invariant L.made L.meaning labels.old stack.old world.old (owns (continuation.Constructor args) + 1) (scopes_of stack.old.tasks ++ scope_of (continuation.Constructor args)) (waiting stack.old.tasks) control.Value }
    ensures resumes { (tables : Tables) (inputs : Given) (set : BuiltIns) (functions : List FunctionCode) (ns : List Steps) → Resumes L.made L.meaning labels.new tables inputs set functions (continuation.Constructor args.entry) ns ns stack.old stack.new world.old world.new result }
    ensures standing { IfOk result (λ move. running move ≡ 0 → Invariant L.made L.meaning labels.new stack.new world.new (values_of move) (scopes_of stack.new.tasks) (waiting stack.old.tasks) move) }
    ensures adds { IfOk result (Adds (weight (continuation.Constructor args.entry) + 5) stack.old stack.new) }
    ensures stopped { IfErr result (IfStop (HasStop (L.made labels.new))) }
    ensures grows { Grows world.old world.new }
    ensures kept { IsKept L.made L.meaning L.room L.firm labels.old labels.new }
{
    let _labels = &*labels;
    let _world = &*world;
    let next = begin_arguments(stack, Calling::Constructs, 0, args)?;
    Ok(next)
}

/// What is called.
#[inline(always)]
pub(crate) fn second<'s, T: Copy>(stack: &'s Stack<'_, T>, count: usize) -> &'s Labelled<T>
    requires count { count ≡ length stack.now.loose }
    requires enough { 2 ≤ count }
    ensures { Leads (drop 1 stack.now.loose) result.now }
{
    &stack.loose(count)[1]
}

/// The `this` of a call.
#[inline(always)]
pub(crate) fn this_of<T: Copy>(
    alloc: Global,
    stack: &Stack<'_, T>,
    count: usize,
) -> Result<Labelled<T>, OutOfMemory>
    requires count { count ≡ length stack.now.loose }
    requires enough { 2 ≤ count }
    ensures { IfOk result (Leads stack.now.loose) }
{
    stack.loose(count)[0].copy(alloc)
}

/// The object that a value is, if it is one.
#[inline(always)]
pub(crate) fn object_in(value: &Value) -> Option<ObjId>
    ensures { result ≡ object_in value.now }
{
    match value {
        Value::Object(object) => Some(*object),
        Value::Primitive(_) => None,
    }
}
