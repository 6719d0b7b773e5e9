//! Calls (ECMA-262 11.2.3).

ghost use Rattle.std.specs.Prelude.{◌≡◌, ◌≤◌, ◌+◌, List, None, drop, length, IfErr, IfOk};
ghost use Rattle.origin_labels.specs.Stores.{IsKept};
ghost use Rattle.flow_frames.specs.declared.kind.Kind.TheVariants as kind;
ghost use Rattle.flow_frames.specs.Stops.{IfStop};
ghost use Rattle.flow_policy.specs.Policies.{Tables};
ghost use Rattle.flow_policy.specs.Inputs.{Given};
ghost use Rattle.js_values.specs.declared.value.Value.TheVariants as value;
ghost use Rattle.native_protocol.specs.Steps.{Steps};
ghost use Rattle.es_meaning.specs.BuiltIns.{BuiltIns, built_ins_of};
ghost use Rattle.function_table.specs.Callees.{callee_of};
ghost use Rattle.function_table.specs.Tables.{table};
ghost use Rattle.function_entry.specs.Calling.{IsOfTable};
ghost use Rattle.step_natives.specs.States.{waiting_steps};
ghost use Rattle.run_state.specs.Worlds.{Grows};
ghost use Rattle.continuations.specs.declared.continuation.Control.TheVariants as control;
ghost use Rattle.continuations.specs.Going.{Begins, Lowers};
ghost use Rattle.continuations.specs.Kept.{scopes_of, waiting};
ghost use Rattle.continuations.specs.Loads.{Adds};
ghost use Rattle.continuations.specs.Pending.{values_of};
ghost use Rattle.continuations.specs.Invariant.{Invariant, running};
ghost use Rattle.continuations.specs.Stops.{HasStop};
ghost use Rattle.step_natives.specs.Framed.{Begun, Leads, steps_behind};
ghost use Rattle.step_calling.specs.Calling.{CallsBy, CallsObject, InCall, native_in};

use crate::entries::enter_script;
use crate::native_calls::{call_native, native_in};
use crate::reaching::reach_call;
use crate::refusals::{give_nothing, refuse};
use crate::values::{object_in, second};
use continuations::{Control, Stack};
use flow_frames::{FlowFault, Kind};
use function_entry::callee;
use function_table::{Callee, Functions};
use js_values::ObjId;
use native_protocol::Natives;
use origin_labels::Labels;
use run_state::World;
use std::alloc::Global;
use step_natives::{NativeStates, enter_frame};

/// The value above the `this` that lies undermost is called with so many arguments.
#[inline(always)]
pub fn call<'p, L: Labels, N: Natives>(
    alloc: Global,
    labels: &mut L,
    world: &mut World<L::Label>,
    functions: &Functions<'p>,
    natives: &N,
    states: &mut NativeStates<N::State>,
    stack: &mut Stack<'p, L::Label>,
    count: u32,
) -> Result<Control<'p>, FlowFault<L::Label>>
    requires standing { Invariant L.made L.meaning labels.old stack.old world.old (values_of (control.Call count)) (scopes_of stack.old.tasks) (length states.old.states) (control.Call count) }
    ensures begins { (tables : Tables) (inputs : Given) → Begins L.made L.meaning labels.new tables inputs (built_ins_of (N.entries natives.now) (N.begin natives.now) (N.after natives.now) (N.asks natives.now)) (table functions.now) (waiting_steps (N.after natives.now) (N.asks natives.now) states.old) (steps_behind (N.after natives.now) (N.asks natives.now) states.new result) stack.old stack.new world.old world.new (control.Call count) result }
    ensures standing { IfOk result (λ move. Invariant L.made L.meaning labels.new stack.new world.new (values_of move) (scopes_of stack.new.tasks) (length states.new.states) move) }
    ensures lowers { IfOk result (λ move. Lowers stack.old (control.Call count) stack.new move) }
    ensures stopped { IfErr result (IfStop (HasStop (L.made labels.new))) }
    ensures grows { Grows world.old world.new }
    ensures kept { IsKept L.made L.meaning L.room L.firm labels.old labels.new }
{
    let loose = count as usize + 2;
    let called = second(stack, loose);
    let label = called.label;
    match object_in(&called.value) {
        None => call_function(
            alloc,
            labels,
            world,
            functions,
            stack,
            loose,
            label,
            ObjId(0),
            Callee::NotCallable,
        ),
        Some(f) => call_object(
            alloc, labels, world, functions, natives, states, stack, loose, label, f,
        ),
    }
}

/// An object is called, or what it comes to.
#[inline(always)]
fn call_object<'p, L: Labels, N: Natives>(
    alloc: Global,
    labels: &mut L,
    world: &mut World<L::Label>,
    functions: &Functions<'p>,
    natives: &N,
    states: &mut NativeStates<N::State>,
    stack: &mut Stack<'p, L::Label>,
    count: usize,
    label: L::Label,
    f: ObjId,
) -> Result<Control<'p>, FlowFault<L::Label>>
    requires label { L.made labels.old label }
    requires enough { 2 ≤ count }
    requires leads { Leads (drop 1 stack.old.loose) (record { value = value.Object f; label = label }) }
    requires standing { Invariant L.made L.meaning labels.old stack.old world.old count (scopes_of stack.old.tasks) (length states.old.states) control.Value }
    ensures calls { (tables : Tables) (inputs : Given) → CallsObject L.made L.meaning labels.new tables inputs (built_ins_of (N.entries natives.now) (N.begin natives.now) (N.after natives.now) (N.asks natives.now)) (table functions.now) (waiting_steps (N.after natives.now) (N.asks natives.now) states.old) (steps_behind (N.after natives.now) (N.asks natives.now) states.new result) f label stack.old stack.new world.old world.new result }
    ensures standing { IfOk result (λ move. Invariant L.made L.meaning labels.new stack.new world.new (values_of move) (scopes_of stack.new.tasks) (length states.new.states) move) }
    ensures adds { IfOk result (Adds 7 stack.old stack.new) }
    ensures stopped { IfErr result (IfStop (HasStop (L.made labels.new))) }
    ensures grows { Grows world.old world.new }
    ensures kept { IsKept L.made L.meaning L.room L.firm labels.old labels.new }
{
    let reached = reach_call(alloc, labels, &world.heap, stack, count, f, label)?;
    let what = callee(functions, &world.heap, reached.function);
    call_reached(
        alloc,
        labels,
        world,
        functions,
        natives,
        states,
        stack,
        reached.count,
        reached.label,
        reached.function,
        what,
    )
}

/// What was reached is called.
#[inline(always)]
fn call_reached<'p, L: Labels, N: Natives>(
    alloc: Global,
    labels: &mut L,
    world: &mut World<L::Label>,
    functions: &Functions<'p>,
    natives: &N,
    states: &mut NativeStates<N::State>,
    stack: &mut Stack<'p, L::Label>,
    count: usize,
    label: L::Label,
    o: ObjId,
    what: Callee<'p>,
) -> Result<Control<'p>, FlowFault<L::Label>>
    requires known { IsOfTable (table functions.now) what }
    requires label { L.made labels.old label }
    requires enough { 2 ≤ count }
    requires leads { Leads (drop 1 stack.old.loose) (record { value = value.Object o; label = label }) }
    requires standing { Invariant L.made L.meaning labels.old stack.old world.old count (scopes_of stack.old.tasks) (length states.old.states) control.Value }
    ensures calls { (tables : Tables) (inputs : Given) → CallsBy L.made L.meaning labels.new tables inputs (built_ins_of (N.entries natives.now) (N.begin natives.now) (N.after natives.now) (N.asks natives.now)) (table functions.now) (waiting_steps (N.after natives.now) (N.asks natives.now) states.old) (steps_behind (N.after natives.now) (N.asks natives.now) states.new result) (callee_of what.entry) label o.0 stack.old stack.new world.old world.new result }
    ensures standing { IfOk result (λ move. Invariant L.made L.meaning labels.new stack.new world.new (values_of move) (scopes_of stack.new.tasks) (length states.new.states) move) }
    ensures adds { IfOk result (Adds 7 stack.old stack.new) }
    ensures stopped { IfErr result (IfStop (HasStop (L.made labels.new))) }
    ensures grows { Grows world.old world.new }
    ensures kept { IsKept L.made L.meaning L.room L.firm labels.old labels.new }
{
    match native_in(what) {
        Some(which) => call_native(
            alloc, labels, world, natives, states, stack, count, label, o, which,
        ),
        None => call_function(
            alloc, labels, world, functions, stack, count, label, o, what,
        ),
    }
}

/// What is no built-in is called in the frame of a call.
#[inline(always)]
fn call_function<'p, L: Labels>(
    alloc: Global,
    labels: &mut L,
    world: &mut World<L::Label>,
    functions: &Functions<'p>,
    stack: &mut Stack<'p, L::Label>,
    count: usize,
    label: L::Label,
    _o: ObjId,
    what: Callee<'p>,
) -> Result<Control<'p>, FlowFault<L::Label>>
    requires known { IsOfTable (table functions.now) what }
    requires other { native_in (callee_of what) ≡ None }
    requires label { L.made labels.old label }
    requires enough { 2 ≤ count }
    requires standing { Invariant L.made L.meaning labels.old stack.old world.old count (scopes_of stack.old.tasks) (waiting stack.old.tasks) control.Value }
    ensures calls { (tables : Tables) (inputs : Given) (set : BuiltIns) (ns : List Steps) → CallsBy L.made L.meaning labels.new tables inputs set (table functions.now) ns ns (callee_of what.entry) label _o.0 stack.old stack.new world.old world.new result }
    ensures quiet { IfOk result (λ move. running move ≡ 0) }
    ensures standing { IfOk result (λ move. Invariant L.made L.meaning labels.new stack.new world.new (values_of move) (scopes_of stack.new.tasks) (waiting stack.old.tasks) move) }
    ensures adds { IfOk result (Adds 7 stack.old stack.new) }
    ensures stopped { IfErr result (IfStop (HasStop (L.made labels.new))) }
    ensures grows { Grows world.old world.new }
    ensures kept { IsKept L.made L.meaning L.room L.firm labels.old labels.new }
{
    let depth = enter_frame(labels, world, stack, Kind::Call, count, label)?;
    go_in(
        alloc, labels, world, functions, stack, count, depth, label, what,
    )
}

/// What is done in the frame of a call, by what is called.
#[inline(always)]
fn go_in<'p, L: Labels>(
    alloc: Global,
    labels: &mut L,
    world: &mut World<L::Label>,
    functions: &Functions<'p>,
    stack: &mut Stack<'p, L::Label>,
    count: usize,
    depth: usize,
    label: L::Label,
    what: Callee<'p>,
) -> Result<Control<'p>, FlowFault<L::Label>>
    requires known { IsOfTable (table functions.now) what }
    requires begun { Begun L.made L.meaning labels.old kind.Call stack.old world.old count depth label }
    requires enough { 2 ≤ count }
    ensures calls { (tables : Tables) (inputs : Given) (set : BuiltIns) (ns : List Steps) → InCall L.made L.meaning labels.new tables inputs set (table functions.now) ns (callee_of what.entry) label depth stack.old stack.new world.old world.new result }
    ensures quiet { IfOk result (λ move. running move ≡ 0) }
    ensures standing { IfOk result (λ move. Invariant L.made L.meaning labels.new stack.new world.new (values_of move) (scopes_of stack.new.tasks) (waiting stack.old.tasks) move) }
    ensures adds { IfOk result (Adds 7 stack.old stack.new) }
    ensures stopped { IfErr result (IfStop (HasStop (L.made labels.new))) }
    ensures grows { Grows world.old world.new }
    ensures kept { IsKept L.made L.meaning L.room L.firm labels.old labels.new }
{
    match what {
        Callee::NotCallable => refuse(labels, world, stack, Kind::Call, count, depth, label),
        Callee::Empty => give_nothing(labels, world, stack, count, depth, label),
        Callee::Native { .. } => refuse(labels, world, stack, Kind::Call, count, depth, label),
        Callee::Script {
            number,
            function,
            place,
        } => enter_script(
            alloc, labels, world, functions, stack, count, depth, label, number, function, place,
        ),
    }
}
