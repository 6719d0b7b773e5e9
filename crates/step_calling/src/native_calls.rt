//! Built-ins that are called, or construct.

ghost use Rattle.std.specs.Prelude.{◌≡◌, ◌≤◌, ◌<◌, ◌+◌, ◌-◌, ◌∷◌, true, false, length, Some, None, IfErr, IfOk};
ghost use Rattle.origin_labels.specs.Stores.{IsKept};
ghost use Rattle.flow_frames.specs.Stops.{IfStop};
ghost use Rattle.flow_policy.specs.Policies.{Tables};
ghost use Rattle.flow_policy.specs.Inputs.{Given};
ghost use Rattle.js_ast.specs.Functions.{FunctionCode};
ghost use Rattle.js_values.specs.declared.value.Value.TheVariants as value;
ghost use Rattle.std.specs.Prelude.{List, drop};
ghost use Rattle.es_meaning.specs.BuiltIns.{BuiltIns, built_ins_of};
ghost use Rattle.es_meaning.specs.Functions.{of_built_in};
ghost use Rattle.es_meaning.specs.Holders.{constructs_in, form_constructs};
ghost use Rattle.function_table.specs.Callees.{callee_of};
ghost use Rattle.native_protocol.specs.Steps.{Steps};
ghost use Rattle.step_natives.specs.States.{waiting_steps};
ghost use Rattle.run_state.specs.Worlds.{Grows};
ghost use Rattle.continuations.specs.declared.continuation.Control.TheVariants as control;
ghost use Rattle.continuations.specs.Kept.{scopes_of, waiting};
ghost use Rattle.continuations.specs.Loads.{Adds};
ghost use Rattle.continuations.specs.Pending.{values_of};
ghost use Rattle.continuations.specs.Invariant.{Invariant, running};
ghost use Rattle.continuations.specs.Stops.{HasStop};
ghost use Rattle.step_natives.specs.Framed.{Leads, steps_behind};
ghost use Rattle.step_calling.specs.Calling.{CallsBy, ConstructsBy, native_in};

use crate::laying::lay_undefined_below;
use crate::refusals::refuse;
use continuations::{Control, Stack};
use flow_frames::{FlowFault, Kind};
use flow_text::OutOfMemory;
use function_table::Callee;
use js_values::ObjId;
use native_protocol::{Form, Natives};
use origin_labels::Labels;
use run_state::World;
use std::alloc::Global;
use step_natives::{NativeStates, begin_native, enter_frame};

// The number of the first built-in of a set: the accessors stand before it, and construct.
const FIRST: u32 = 3;

/// The number of a built-in that is called.
pub(crate) fn native_in(what: Callee<'_>) -> Option<u32>
    ensures { result ≡ native_in (callee_of what.entry) }
{
    match what {
        Callee::Native { which } => Some(which),
        Callee::NotCallable | Callee::Empty | Callee::Script { .. } => None,
    }
}

/// Whether a built-in of this form constructs.
fn form_constructs(form: Form) -> bool
    ensures { result ≡ form_constructs form }
{
    match form {
        Form::Function | Form::NotANumber => false,
        Form::Constructor | Form::LeftFunction | Form::LeftAccessor => true,
    }
}

/// Whether the built-in of a number constructs.
fn constructs<N: Natives>(natives: &N, which: u32) -> bool
    ensures { result ≡ constructs_in (built_ins_of (N.entries natives.now) (N.begin natives.now) (N.after natives.now) (N.asks natives.now)) which }
{
    if which < FIRST {
        return true;
    }
    let place = which - FIRST;
    if place >= natives.count() {
        return false;
    }
    let entry = natives.entry(place);
    form_constructs(entry.form)
}

/// So many registers, if a built-in can have so many.
fn counted(count: usize) -> Result<u32, OutOfMemory>
    ensures { IfOk result (λ n. n ≡ count) }
{
    match u32::try_from(count) {
        Ok(n) => Ok(n),
        Err(_) => Err(OutOfMemory),
    }
}

/// How many of so many registers hold arguments.
fn arguments_in(registers: u32) -> u64
    requires { 2 ≤ registers }
    ensures { result ≡ registers - 2 }
{
    u64::from(registers - 2)
}

/// A built-in is called: what lies loose are its registers.
pub(crate) fn call_native<'p, L: Labels, N: Natives>(
    alloc: Global,
    labels: &mut L,
    world: &mut World<L::Label>,
    natives: &N,
    states: &mut NativeStates<N::State>,
    stack: &mut Stack<'p, L::Label>,
    count: usize,
    label: L::Label,
    _o: ObjId,
    which: u32,
) -> Result<Control<'p>, FlowFault<L::Label>>
    requires label { L.made labels.old label }
    requires enough { 2 ≤ count }
    requires leads { Leads (drop 1 stack.old.loose) (record { value = value.Object _o; label = label }) }
    requires standing { Invariant L.made L.meaning labels.old stack.old world.old count (scopes_of stack.old.tasks) (length states.old.states) control.Value }
    ensures calls { (tables : Tables) (inputs : Given) (functions : List FunctionCode) → CallsBy L.made L.meaning labels.new tables inputs (built_ins_of (N.entries natives.now) (N.begin natives.now) (N.after natives.now) (N.asks natives.now)) functions (waiting_steps (N.after natives.now) (N.asks natives.now) states.old) (steps_behind (N.after natives.now) (N.asks natives.now) states.new result) (of_built_in which) label _o.0 stack.old stack.new world.old world.new result }
    ensures standing { IfOk result (λ move. Invariant L.made L.meaning labels.new stack.new world.new (values_of move) (scopes_of stack.new.tasks) (length states.new.states) move) }
    ensures adds { IfOk result (Adds 6 stack.old stack.new) }
    ensures stopped { IfErr result (IfStop (HasStop (L.made labels.new))) }
    ensures grows { Grows world.old world.new }
    ensures kept { IsKept L.made L.meaning L.room L.firm labels.old labels.new }
{
    let registers = counted(count)?;
    let argc = arguments_in(registers);
    states.begin(alloc, natives, which, argc, false)?;
    let next = begin_native(labels, world, stack, registers, label)?;
    Ok(next)
}

/// A built-in that constructs: its `this` is undefined.
fn run_constructor<'p, L: Labels, N: Natives>(
    alloc: Global,
    labels: &mut L,
    world: &mut World<L::Label>,
    natives: &N,
    states: &mut NativeStates<N::State>,
    stack: &mut Stack<'p, L::Label>,
    count: usize,
    label: L::Label,
    _o: ObjId,
    which: u32,
) -> Result<Control<'p>, FlowFault<L::Label>>
    requires constructs { constructs_in (built_ins_of (N.entries natives.now) (N.begin natives.now) (N.after natives.now) (N.asks natives.now)) which ≡ true }
    requires label { L.made labels.old label }
    requires enough { 1 ≤ count }
    requires leads { Leads stack.old.loose (record { value = value.Object _o; label = label }) }
    requires standing { Invariant L.made L.meaning labels.old stack.old world.old count (scopes_of stack.old.tasks) (length states.old.states) control.Value }
    ensures constructs { (tables : Tables) (inputs : Given) (functions : List FunctionCode) → ConstructsBy L.made L.meaning labels.new tables inputs (built_ins_of (N.entries natives.now) (N.begin natives.now) (N.after natives.now) (N.asks natives.now)) functions (waiting_steps (N.after natives.now) (N.asks natives.now) states.old) (steps_behind (N.after natives.now) (N.asks natives.now) states.new result) (of_built_in which) label _o.0 stack.old stack.new world.old world.new result }
    ensures standing { IfOk result (λ move. Invariant L.made L.meaning labels.new stack.new world.new (values_of move) (scopes_of stack.new.tasks) (length states.new.states) move) }
    ensures adds { IfOk result (Adds 6 stack.old stack.new) }
    ensures stopped { IfErr result (IfStop (HasStop (L.made labels.new))) }
    ensures grows { Grows world.old world.new }
    ensures kept { IsKept L.made L.meaning L.room L.firm labels.old labels.new }
{
    let none = labels.bottom();
    let count = lay_undefined_below(alloc, stack, count, none)?;
    let registers = counted(count)?;
    let argc = arguments_in(registers);
    states.begin(alloc, natives, which, argc, true)?;
    let next = begin_native(labels, world, stack, registers, label)?;
    Ok(next)
}

/// A built-in that constructs nothing throws a type error, from inside its frame, which is left by that.
fn refuse_native<'p, L: Labels>(
    labels: &mut L,
    world: &mut World<L::Label>,
    stack: &mut Stack<'p, L::Label>,
    count: usize,
    label: L::Label,
    _o: ObjId,
    _which: u32,
) -> Result<Control<'p>, FlowFault<L::Label>>
    requires label { L.made labels.old label }
    requires standing { Invariant L.made L.meaning labels.old stack.old world.old count (scopes_of stack.old.tasks) (waiting stack.old.tasks) control.Value }
    ensures constructs { (tables : Tables) (inputs : Given) (set : BuiltIns) (functions : List FunctionCode) (ns : List Steps) → constructs_in set _which ≡ false → ConstructsBy L.made L.meaning labels.new tables inputs set functions ns ns (of_built_in _which) label _o.0 stack.old stack.new world.old world.new result }
    ensures quiet { IfOk result (λ move. running move ≡ 0) }
    ensures standing { IfOk result (λ move. Invariant L.made L.meaning labels.new stack.new world.new (values_of move) (scopes_of stack.new.tasks) (waiting stack.old.tasks) move) }
    ensures adds { IfOk result (Adds 6 stack.old stack.new) }
    ensures stopped { IfErr result (IfStop (HasStop (L.made labels.new))) }
    ensures grows { Grows world.old world.new }
    ensures kept { IsKept L.made L.meaning L.room L.firm labels.old labels.new }
{
    let depth = enter_frame(labels, world, stack, Kind::Native, count, label)?;
    refuse(labels, world, stack, Kind::Native, count, depth, label)
}

/// A built-in constructs, if it does.
pub(crate) fn construct_native<'p, L: Labels, N: Natives>(
    alloc: Global,
    labels: &mut L,
    world: &mut World<L::Label>,
    natives: &N,
    states: &mut NativeStates<N::State>,
    stack: &mut Stack<'p, L::Label>,
    count: usize,
    label: L::Label,
    o: ObjId,
    which: u32,
) -> Result<Control<'p>, FlowFault<L::Label>>
    requires label { L.made labels.old label }
    requires enough { 1 ≤ count }
    requires leads { Leads stack.old.loose (record { value = value.Object o; label = label }) }
    requires standing { Invariant L.made L.meaning labels.old stack.old world.old count (scopes_of stack.old.tasks) (length states.old.states) control.Value }
    ensures constructs { (tables : Tables) (inputs : Given) (functions : List FunctionCode) → ConstructsBy L.made L.meaning labels.new tables inputs (built_ins_of (N.entries natives.now) (N.begin natives.now) (N.after natives.now) (N.asks natives.now)) functions (waiting_steps (N.after natives.now) (N.asks natives.now) states.old) (steps_behind (N.after natives.now) (N.asks natives.now) states.new result) (of_built_in which) label o.0 stack.old stack.new world.old world.new result }
    ensures standing { IfOk result (λ move. Invariant L.made L.meaning labels.new stack.new world.new (values_of move) (scopes_of stack.new.tasks) (length states.new.states) move) }
    ensures adds { IfOk result (Adds 6 stack.old stack.new) }
    ensures stopped { IfErr result (IfStop (HasStop (L.made labels.new))) }
    ensures grows { Grows world.old world.new }
    ensures kept { IsKept L.made L.meaning L.room L.firm labels.old labels.new }
{
    if constructs(natives, which) {
        return run_constructor(
            alloc, labels, world, natives, states, stack, count, label, o, which,
        );
    }
    refuse_native(labels, world, stack, count, label, o, which)
}
