//! Constructions (ECMA-262 11.2.2).

ghost use Rattle.std.specs.Prelude.{◌≡◌, ◌≤◌, ◌+◌, List, None, drop, length, IfErr, IfOk};
ghost use Rattle.origin_labels.specs.Stores.{IsKept};
ghost use Rattle.flow_frames.specs.declared.kind.Kind.TheVariants as kind;
ghost use Rattle.flow_frames.specs.Stops.{IfStop};
ghost use Rattle.flow_policy.specs.Policies.{Tables};
ghost use Rattle.flow_policy.specs.Inputs.{Given};
ghost use Rattle.js_values.specs.declared.value.Value.TheVariants as value;
ghost use Rattle.native_protocol.specs.Steps.{Steps};
ghost use Rattle.es_meaning.specs.BuiltIns.{BuiltIns, built_ins_of};
ghost use Rattle.function_table.specs.Callees.{callee_of};
ghost use Rattle.function_table.specs.Tables.{table};
ghost use Rattle.function_entry.specs.Calling.{IsOfTable};
ghost use Rattle.step_natives.specs.States.{waiting_steps};
ghost use Rattle.run_state.specs.Worlds.{Grows};
ghost use Rattle.continuations.specs.declared.continuation.Control.TheVariants as control;
ghost use Rattle.continuations.specs.Going.{Begins, Lowers};
ghost use Rattle.continuations.specs.Kept.{scopes_of, waiting};
ghost use Rattle.continuations.specs.Loads.{Adds};
ghost use Rattle.continuations.specs.Pending.{values_of};
ghost use Rattle.continuations.specs.Invariant.{Invariant, running};
ghost use Rattle.continuations.specs.Stops.{HasStop};
ghost use Rattle.step_natives.specs.Framed.{Begun, Leads, steps_behind};
ghost use Rattle.step_calling.specs.Calling.{ConstructsBy, ConstructsObject, InConstruction, native_in};

use crate::constructing::construct_script;
use crate::native_calls::{construct_native, native_in};
use crate::reaching::reach_construction;
use crate::refusals::refuse;
use crate::values::object_in;
use continuations::{Control, Stack};
use flow_frames::{FlowFault, Kind};
use function_entry::callee;
use function_table::{Callee, Functions};
use js_values::ObjId;
use native_protocol::Natives;
use origin_labels::Labels;
use run_state::World;
use std::alloc::Global;
use step_natives::{NativeStates, enter_frame, leading};

/// The value that lies undermost makes an object with so many arguments.
pub fn construct<'p, L: Labels, N: Natives>(
    alloc: Global,
    labels: &mut L,
    world: &mut World<L::Label>,
    functions: &Functions<'p>,
    natives: &N,
    states: &mut NativeStates<N::State>,
    stack: &mut Stack<'p, L::Label>,
    count: u32,
) -> Result<Control<'p>, FlowFault<L::Label>>
    requires standing { Invariant L.made L.meaning labels.old stack.old world.old (values_of (control.Construct count)) (scopes_of stack.old.tasks) (length states.old.states) (control.Construct count) }
    ensures begins { (tables : Tables) (inputs : Given) → Begins L.made L.meaning labels.new tables inputs (built_ins_of (N.entries natives.now) (N.begin natives.now) (N.after natives.now) (N.asks natives.now)) (table functions.now) (waiting_steps (N.after natives.now) (N.asks natives.now) states.old) (steps_behind (N.after natives.now) (N.asks natives.now) states.new result) stack.old stack.new world.old world.new (control.Construct count) result }
    ensures standing { IfOk result (λ move. Invariant L.made L.meaning labels.new stack.new world.new (values_of move) (scopes_of stack.new.tasks) (length states.new.states) move) }
    ensures lowers { IfOk result (λ move. Lowers stack.old (control.Construct count) stack.new move) }
    ensures stopped { IfErr result (IfStop (HasStop (L.made labels.new))) }
    ensures grows { Grows world.old world.new }
    ensures kept { IsKept L.made L.meaning L.room L.firm labels.old labels.new }
{
    let loose = count as usize + 1;
    let called = leading(stack, loose);
    let label = called.label;
    match object_in(&called.value) {
        None => construct_function(
            alloc,
            labels,
            world,
            functions,
            stack,
            loose,
            label,
            ObjId(0),
            Callee::NotCallable,
        ),
        Some(f) => construct_object(
            alloc, labels, world, functions, natives, states, stack, loose, label, f,
        ),
    }
}

/// An object constructs, or what it comes to.
fn construct_object<'p, L: Labels, N: Natives>(
    alloc: Global,
    labels: &mut L,
    world: &mut World<L::Label>,
    functions: &Functions<'p>,
    natives: &N,
    states: &mut NativeStates<N::State>,
    stack: &mut Stack<'p, L::Label>,
    count: usize,
    label: L::Label,
    f: ObjId,
) -> Result<Control<'p>, FlowFault<L::Label>>
    requires label { L.made labels.old label }
    requires enough { 1 ≤ count }
    requires leads { Leads stack.old.loose (record { value = value.Object f; label = label }) }
    requires standing { Invariant L.made L.meaning labels.old stack.old world.old count (scopes_of stack.old.tasks) (length states.old.states) control.Value }
    ensures constructs { (tables : Tables) (inputs : Given) → ConstructsObject L.made L.meaning labels.new tables inputs (built_ins_of (N.entries natives.now) (N.begin natives.now) (N.after natives.now) (N.asks natives.now)) (table functions.now) (waiting_steps (N.after natives.now) (N.asks natives.now) states.old) (steps_behind (N.after natives.now) (N.asks natives.now) states.new result) f label stack.old stack.new world.old world.new result }
    ensures standing { IfOk result (λ move. Invariant L.made L.meaning labels.new stack.new world.new (values_of move) (scopes_of stack.new.tasks) (length states.new.states) move) }
    ensures adds { IfOk result (Adds 7 stack.old stack.new) }
    ensures stopped { IfErr result (IfStop (HasStop (L.made labels.new))) }
    ensures grows { Grows world.old world.new }
    ensures kept { IsKept L.made L.meaning L.room L.firm labels.old labels.new }
{
    let reached = reach_construction(alloc, labels, &world.heap, stack, count, f, label)?;
    let what = callee(functions, &world.heap, reached.function);
    construct_reached(
        alloc,
        labels,
        world,
        functions,
        natives,
        states,
        stack,
        reached.count,
        reached.label,
        reached.function,
        what,
    )
}

/// What was reached constructs.
fn construct_reached<'p, L: Labels, N: Natives>(
    alloc: Global,
    labels: &mut L,
    world: &mut World<L::Label>,
    functions: &Functions<'p>,
    natives: &N,
    states: &mut NativeStates<N::State>,
    stack: &mut Stack<'p, L::Label>,
    count: usize,
    label: L::Label,
    o: ObjId,
    what: Callee<'p>,
) -> Result<Control<'p>, FlowFault<L::Label>>
    requires known { IsOfTable (table functions.now) what }
    requires label { L.made labels.old label }
    requires enough { 1 ≤ count }
    requires leads { Leads stack.old.loose (record { value = value.Object o; label = label }) }
    requires standing { Invariant L.made L.meaning labels.old stack.old world.old count (scopes_of stack.old.tasks) (length states.old.states) control.Value }
    ensures constructs { (tables : Tables) (inputs : Given) → ConstructsBy L.made L.meaning labels.new tables inputs (built_ins_of (N.entries natives.now) (N.begin natives.now) (N.after natives.now) (N.asks natives.now)) (table functions.now) (waiting_steps (N.after natives.now) (N.asks natives.now) states.old) (steps_behind (N.after natives.now) (N.asks natives.now) states.new result) (callee_of what.entry) label o.0 stack.old stack.new world.old world.new result }
    ensures standing { IfOk result (λ move. Invariant L.made L.meaning labels.new stack.new world.new (values_of move) (scopes_of stack.new.tasks) (length states.new.states) move) }
    ensures adds { IfOk result (Adds 7 stack.old stack.new) }
    ensures stopped { IfErr result (IfStop (HasStop (L.made labels.new))) }
    ensures grows { Grows world.old world.new }
    ensures kept { IsKept L.made L.meaning L.room L.firm labels.old labels.new }
{
    match native_in(what) {
        Some(which) => construct_native(
            alloc, labels, world, natives, states, stack, count, label, o, which,
        ),
        None => construct_function(
            alloc, labels, world, functions, stack, count, label, o, what,
        ),
    }
}

/// What is no built-in constructs in the frame of a call.
fn construct_function<'p, L: Labels>(
    alloc: Global,
    labels: &mut L,
    world: &mut World<L::Label>,
    functions: &Functions<'p>,
    stack: &mut Stack<'p, L::Label>,
    count: usize,
    label: L::Label,
    o: ObjId,
    what: Callee<'p>,
) -> Result<Control<'p>, FlowFault<L::Label>>
    requires known { IsOfTable (table functions.now) what }
    requires other { native_in (callee_of what) ≡ None }
    requires label { L.made labels.old label }
    requires enough { 1 ≤ count }
    requires standing { Invariant L.made L.meaning labels.old stack.old world.old count (scopes_of stack.old.tasks) (waiting stack.old.tasks) control.Value }
    ensures constructs { (tables : Tables) (inputs : Given) (set : BuiltIns) (ns : List Steps) → ConstructsBy L.made L.meaning labels.new tables inputs set (table functions.now) ns ns (callee_of what.entry) label o.0 stack.old stack.new world.old world.new result }
    ensures quiet { IfOk result (λ move. running move ≡ 0) }
    ensures standing { IfOk result (λ move. Invariant L.made L.meaning labels.new stack.new world.new (values_of move) (scopes_of stack.new.tasks) (waiting stack.old.tasks) move) }
    ensures adds { IfOk result (Adds 7 stack.old stack.new) }
    ensures stopped { IfErr result (IfStop (HasStop (L.made labels.new))) }
    ensures grows { Grows world.old world.new }
    ensures kept { IsKept L.made L.meaning L.room L.firm labels.old labels.new }
{
    let depth = enter_frame(labels, world, stack, Kind::Call, count, label)?;
    go_in(
        alloc, labels, world, functions, stack, count, depth, label, o, what,
    )
}

/// What is done in the frame of a construction, by what constructs.
fn go_in<'p, L: Labels>(
    alloc: Global,
    labels: &mut L,
    world: &mut World<L::Label>,
    functions: &Functions<'p>,
    stack: &mut Stack<'p, L::Label>,
    count: usize,
    depth: usize,
    label: L::Label,
    o: ObjId,
    what: Callee<'p>,
) -> Result<Control<'p>, FlowFault<L::Label>>
    requires known { IsOfTable (table functions.now) what }
    requires begun { Begun L.made L.meaning labels.old kind.Call stack.old world.old count depth label }
    requires enough { 1 ≤ count }
    ensures constructs { (tables : Tables) (inputs : Given) (set : BuiltIns) (ns : List Steps) → InConstruction L.made L.meaning labels.new tables inputs set (table functions.now) ns (callee_of what.entry) label o.0 (length world.old.heap) depth stack.old stack.new world.old world.new result }
    ensures quiet { IfOk result (λ move. running move ≡ 0) }
    ensures standing { IfOk result (λ move. Invariant L.made L.meaning labels.new stack.new world.new (values_of move) (scopes_of stack.new.tasks) (waiting stack.old.tasks) move) }
    ensures adds { IfOk result (Adds 7 stack.old stack.new) }
    ensures stopped { IfErr result (IfStop (HasStop (L.made labels.new))) }
    ensures grows { Grows world.old world.new }
    ensures kept { IsKept L.made L.meaning L.room L.firm labels.old labels.new }
{
    match what {
        Callee::NotCallable => refuse(labels, world, stack, Kind::Call, count, depth, label),
        Callee::Empty => refuse(labels, world, stack, Kind::Call, count, depth, label),
        Callee::Native { .. } => refuse(labels, world, stack, Kind::Call, count, depth, label),
        Callee::Script {
            number,
            function,
            place,
        } => construct_script(
            alloc, labels, world, functions, stack, count, depth, label, number, function, place, o,
        ),
    }
}
