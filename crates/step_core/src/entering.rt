//! Parts that a machine enters, and moves that enter none.

ghost use Rattle.std.specs.Option.{option_map};
ghost use Rattle.es_meaning.specs.Evaluation.{text_of_label};
ghost use Rattle.js_ast.specs.Views.{view_name};
ghost use Rattle.std.specs.Prelude.{◌≡◌, ◌<◌, ◌+◌, length, true, map, Some, IfErr, IfOk, List};
ghost use Rattle.origin_labels.specs.Label.{Label};
ghost use Rattle.origin_labels.specs.Stores.{IsKept};
ghost use Rattle.flow_frames.specs.Stops.{IfStop};
ghost use Rattle.flow_policy.specs.Policies.{Tables};
ghost use Rattle.flow_policy.specs.Inputs.{Given};
ghost use Rattle.js_ast.specs.Functions.{FunctionCode};
ghost use Rattle.native_protocol.specs.Steps.{Steps};
ghost use Rattle.es_meaning.specs.BuiltIns.{BuiltIns, built_ins_of};
ghost use Rattle.es_meaning.specs.Functions.{this_name};
ghost use Rattle.step_natives.specs.States.{waiting_steps};
ghost use Rattle.step_natives.specs.Framed.{steps_behind};
ghost use Rattle.js_values.specs.Readings.{read_value};
ghost use Rattle.flow_meaning.specs.Planned.{Part};
ghost use Rattle.run_state.specs.Worlds.{Grows};
ghost use Rattle.function_table.specs.Tables.{table};
ghost use Rattle.continuations.specs.Stops.{HasStop};
ghost use Rattle.continuations.specs.declared.continuation.Control.TheVariants as control;
ghost use Rattle.continuations.specs.Kept.{scopes_of, waiting};
ghost use Rattle.continuations.specs.Loads.{Adds};
ghost use Rattle.continuations.specs.Pending.{env_above, owns_use, setting_above, values_of};
ghost use Rattle.continuations.specs.Settings.{setting_of};
ghost use Rattle.continuations.specs.Going.{Begins, Lowers};
ghost use Rattle.step_core.specs.Going.{Enters, StandsStill, part_in};
ghost use Rattle.continuations.specs.Going.{here};
ghost use Rattle.continuations.specs.Invariant.{Invariant};
ghost use Rattle.step_core.specs.Stepping.{begins_work, calls_function, makes_value};

use continuations::{Control, Enumeration, Round, Stack, Use};
use flow_frames::FlowFault;
use flow_text::{OutOfMemory, Text};
use function_table::Functions;
use js_ast::{Block, Declarations, Expr, Function, Ident, ItemList, PropertyList, Stmt};
use js_number::Int;
use js_values::EnvId;
use native_protocol::Natives;
use origin_labels::Labels;
use run_state::World;
use std::alloc::Global;
use step_calling::{call, construct, function};
use step_control::{
    begin_block, begin_do_loop, begin_expression, begin_loop, begin_named, begin_statement,
    begin_turn, begin_visit,
};
use step_jumps::{begin_try, is_try, leave_by, return_nothing};
use step_literals::{array, boolean, null, number, object, text};
use step_natives::{NativeStates, compare, convert, convert_beside};
use step_references::{begin_use, declare, give_variable, read_name, this};
use step_statements::{begin_labelled, next_visit, take_keys};

/// The record in which what comes next is evaluated. That it is there isn't known here, and is looked at.
#[inline(always)]
pub(crate) fn present<'p, T: Copy>(
    world: &World<T>,
    stack: &Stack<'p, T>,
) -> Result<EnvId, OutOfMemory>
    ensures there { IfOk result (λ e. e.0 < length world.now.records) }
    ensures place { IfOk result (λ e. (env_above stack.now.tasks here).place ≡ e.0) }
{
    let place = stack.place();
    if place.0 < world.records.len() {
        Ok(place)
    } else {
        Err(OutOfMemory)
    }
}

/// A part of the script is entered, for which a turn was spent. A move that enters none stays as it is.
#[inline(always)]
pub(crate) fn enter<'p, L: Labels>(
    alloc: Global,
    labels: &mut L,
    world: &mut World<L::Label>,
    stack: &mut Stack<'p, L::Label>,
    next: Control<'p>,
) -> Result<Control<'p>, FlowFault<L::Label>>
    requires standing { Invariant L.made L.meaning labels.old stack.old world.old (values_of next) (scopes_of stack.old.tasks) (waiting stack.old.tasks) next }
    ensures enters { (tables : Tables) (inputs : Given) (set : BuiltIns) (functions : List FunctionCode) (natives : List Steps) (part : (L.Label → Label) → Part) → ((reading : L.Label → Label) → part_in (map (read_value reading) stack.old.loose) (setting_above stack.old.tasks (setting_of natives here)) next.entry ≡ Some (part reading)) → Enters L.made L.meaning labels.new tables inputs set functions natives stack.old stack.new world.old world.new part result }
    ensures standing { IfOk result (StandsStill L.made L.meaning labels.new (waiting stack.old.tasks) stack.new world.new) }
    ensures adds { IfOk result (Adds 17 stack.old stack.new) }
    ensures stopped { IfErr result (IfStop (HasStop (L.made labels.new))) }
    ensures grows { Grows world.old world.new }
    ensures kept { IsKept L.made L.meaning L.room L.firm labels.old labels.new }
{
    match next {
        Control::Expr(e) => enter_expression_apart(labels, world, stack, e),
        Control::Use(how, target) => enter_use(alloc, labels, world, stack, how, target),
        Control::Stmt(s) => enter_statement_apart(labels, world, stack, s),
        Control::Block(block) => enter_block(labels, world, stack, block),
        Control::Named(of, passed) => enter_named(labels, world, stack, of, passed),
        Control::Turn(round) => enter_turn(labels, world, stack, round),
        Control::Visit(enumeration, count) => enter_visit(labels, world, stack, enumeration, count),
        other => Ok(other),
    }
}

/// An expression is entered.
#[inline(always)]
pub(crate) fn enter_expression<'p, L: Labels>(
    _labels: &L,
    _world: &World<L::Label>,
    stack: &mut Stack<'p, L::Label>,
    e: &'p Expr,
) -> Result<Control<'p>, FlowFault<L::Label>>
    requires standing { Invariant L.made L.meaning _labels.now stack.old _world.now 0 (scopes_of stack.old.tasks) (waiting stack.old.tasks) (control.Expr e) }
    ensures enters { (tables : Tables) (inputs : Given) (set : BuiltIns) (functions : List FunctionCode) (natives : List Steps) (part : (L.Label → Label) → Part) → ((reading : L.Label → Label) → part_in (map (read_value reading) stack.old.loose) (setting_above stack.old.tasks (setting_of natives here)) (control.Expr e.entry) ≡ Some (part reading)) → Enters L.made L.meaning _labels.now tables inputs set functions natives stack.old stack.new _world.now _world.now part result }
    ensures standing { IfOk result (StandsStill L.made L.meaning _labels.now (waiting stack.old.tasks) stack.new _world.now) }
    ensures adds { IfOk result (Adds 17 stack.old stack.new) }
    ensures stopped { IfErr result (IfStop (HasStop (L.made _labels.now))) }
{
    let next = begin_expression(stack, e)?;
    Ok(next)
}

/// The same as a call of its own. `enter` takes this way, since most expressions are entered by a step of their own.
#[inline(never)]
fn enter_expression_apart<'p, L: Labels>(
    _labels: &L,
    _world: &World<L::Label>,
    stack: &mut Stack<'p, L::Label>,
    e: &'p Expr,
) -> Result<Control<'p>, FlowFault<L::Label>>
    requires standing { Invariant L.made L.meaning _labels.now stack.old _world.now 0 (scopes_of stack.old.tasks) (waiting stack.old.tasks) (control.Expr e) }
    ensures enters { (tables : Tables) (inputs : Given) (set : BuiltIns) (functions : List FunctionCode) (natives : List Steps) (part : (L.Label → Label) → Part) → ((reading : L.Label → Label) → part_in (map (read_value reading) stack.old.loose) (setting_above stack.old.tasks (setting_of natives here)) (control.Expr e.entry) ≡ Some (part reading)) → Enters L.made L.meaning _labels.now tables inputs set functions natives stack.old stack.new _world.now _world.now part result }
    ensures standing { IfOk result (StandsStill L.made L.meaning _labels.now (waiting stack.old.tasks) stack.new _world.now) }
    ensures adds { IfOk result (Adds 17 stack.old stack.new) }
    ensures stopped { IfErr result (IfStop (HasStop (L.made _labels.now))) }
{
    enter_expression(_labels, _world, stack, e)
}

/// A reference is entered for a use.
#[inline(always)]
fn enter_use<'p, L: Labels>(
    alloc: Global,
    labels: &mut L,
    world: &mut World<L::Label>,
    stack: &mut Stack<'p, L::Label>,
    how: Use<'p>,
    target: &'p Expr,
) -> Result<Control<'p>, FlowFault<L::Label>>
    requires standing { Invariant L.made L.meaning labels.old stack.old world.old (owns_use how) (scopes_of stack.old.tasks) (waiting stack.old.tasks) (control.Use how target) }
    ensures enters { (tables : Tables) (inputs : Given) (set : BuiltIns) (functions : List FunctionCode) (natives : List Steps) (part : (L.Label → Label) → Part) → ((reading : L.Label → Label) → part_in (map (read_value reading) stack.old.loose) (setting_above stack.old.tasks (setting_of natives here)) (control.Use how.entry target.entry) ≡ Some (part reading)) → Enters L.made L.meaning labels.new tables inputs set functions natives stack.old stack.new world.old world.new part result }
    ensures standing { IfOk result (StandsStill L.made L.meaning labels.new (waiting stack.old.tasks) stack.new world.new) }
    ensures adds { IfOk result (Adds 17 stack.old stack.new) }
    ensures stopped { IfErr result (IfStop (HasStop (L.made labels.new))) }
    ensures grows { Grows world.old world.new }
    ensures kept { IsKept L.made L.meaning L.room L.firm labels.old labels.new }
{
    let place = present(world, stack)?;
    begin_use(alloc, labels, world, stack, place, how, target)
}

/// A statement is entered.
#[inline(always)]
pub(crate) fn enter_statement<'p, L: Labels>(
    _labels: &L,
    _world: &World<L::Label>,
    stack: &mut Stack<'p, L::Label>,
    s: &'p Stmt,
) -> Result<Control<'p>, FlowFault<L::Label>>
    requires standing { Invariant L.made L.meaning _labels.now stack.old _world.now 0 (scopes_of stack.old.tasks) (waiting stack.old.tasks) (control.Stmt s) }
    ensures enters { (tables : Tables) (inputs : Given) (set : BuiltIns) (functions : List FunctionCode) (natives : List Steps) (part : (L.Label → Label) → Part) → ((reading : L.Label → Label) → part_in (map (read_value reading) stack.old.loose) (setting_above stack.old.tasks (setting_of natives here)) (control.Stmt s.entry) ≡ Some (part reading)) → Enters L.made L.meaning _labels.now tables inputs set functions natives stack.old stack.new _world.now _world.now part result }
    ensures standing { IfOk result (StandsStill L.made L.meaning _labels.now (waiting stack.old.tasks) stack.new _world.now) }
    ensures adds { IfOk result (Adds 17 stack.old stack.new) }
    ensures stopped { IfErr result (IfStop (HasStop (L.made _labels.now))) }
{
    let next = begin_statement(stack, s)?;
    Ok(next)
}

/// The same as a call of its own, for the same reason.
#[inline(never)]
fn enter_statement_apart<'p, L: Labels>(
    _labels: &L,
    _world: &World<L::Label>,
    stack: &mut Stack<'p, L::Label>,
    s: &'p Stmt,
) -> Result<Control<'p>, FlowFault<L::Label>>
    requires standing { Invariant L.made L.meaning _labels.now stack.old _world.now 0 (scopes_of stack.old.tasks) (waiting stack.old.tasks) (control.Stmt s) }
    ensures enters { (tables : Tables) (inputs : Given) (set : BuiltIns) (functions : List FunctionCode) (natives : List Steps) (part : (L.Label → Label) → Part) → ((reading : L.Label → Label) → part_in (map (read_value reading) stack.old.loose) (setting_above stack.old.tasks (setting_of natives here)) (control.Stmt s.entry) ≡ Some (part reading)) → Enters L.made L.meaning _labels.now tables inputs set functions natives stack.old stack.new _world.now _world.now part result }
    ensures standing { IfOk result (StandsStill L.made L.meaning _labels.now (waiting stack.old.tasks) stack.new _world.now) }
    ensures adds { IfOk result (Adds 17 stack.old stack.new) }
    ensures stopped { IfErr result (IfStop (HasStop (L.made _labels.now))) }
{
    enter_statement(_labels, _world, stack, s)
}

/// A block of a `try` statement is entered.
fn enter_block<'p, L: Labels>(
    _labels: &L,
    _world: &World<L::Label>,
    stack: &mut Stack<'p, L::Label>,
    block: &'p Block,
) -> Result<Control<'p>, FlowFault<L::Label>>
    requires standing { Invariant L.made L.meaning _labels.now stack.old _world.now 0 (scopes_of stack.old.tasks) (waiting stack.old.tasks) (control.Block block) }
    ensures enters { (tables : Tables) (inputs : Given) (set : BuiltIns) (functions : List FunctionCode) (natives : List Steps) (part : (L.Label → Label) → Part) → ((reading : L.Label → Label) → part_in (map (read_value reading) stack.old.loose) (setting_above stack.old.tasks (setting_of natives here)) (control.Block block.entry) ≡ Some (part reading)) → Enters L.made L.meaning _labels.now tables inputs set functions natives stack.old stack.new _world.now _world.now part result }
    ensures standing { IfOk result (StandsStill L.made L.meaning _labels.now (waiting stack.old.tasks) stack.new _world.now) }
    ensures adds { IfOk result (Adds 17 stack.old stack.new) }
    ensures stopped { IfErr result (IfStop (HasStop (L.made _labels.now))) }
{
    let next = begin_block(stack, block)?;
    Ok(next)
}

/// A loop, a `switch` or a labelled statement is entered that stands behind labels.
#[inline(always)]
fn enter_named<'p, L: Labels>(
    _labels: &L,
    _world: &World<L::Label>,
    stack: &mut Stack<'p, L::Label>,
    of: &'p Stmt,
    passed: u32,
) -> Result<Control<'p>, FlowFault<L::Label>>
    requires standing { Invariant L.made L.meaning _labels.now stack.old _world.now 0 (scopes_of stack.old.tasks) (waiting stack.old.tasks) (control.Named of passed) }
    ensures enters { (tables : Tables) (inputs : Given) (set : BuiltIns) (functions : List FunctionCode) (natives : List Steps) (part : (L.Label → Label) → Part) → ((reading : L.Label → Label) → part_in (map (read_value reading) stack.old.loose) (setting_above stack.old.tasks (setting_of natives here)) (control.Named of.entry passed) ≡ Some (part reading)) → Enters L.made L.meaning _labels.now tables inputs set functions natives stack.old stack.new _world.now _world.now part result }
    ensures standing { IfOk result (StandsStill L.made L.meaning _labels.now (waiting stack.old.tasks) stack.new _world.now) }
    ensures adds { IfOk result (Adds 17 stack.old stack.new) }
    ensures stopped { IfErr result (IfStop (HasStop (L.made _labels.now))) }
{
    let next = begin_named(stack, of, passed)?;
    Ok(next)
}

/// A turn is entered.
#[inline(always)]
fn enter_turn<'p, L: Labels>(
    labels: &mut L,
    world: &mut World<L::Label>,
    stack: &mut Stack<'p, L::Label>,
    round: Round<'p>,
) -> Result<Control<'p>, FlowFault<L::Label>>
    requires standing { Invariant L.made L.meaning labels.old stack.old world.old 0 (scopes_of stack.old.tasks) (waiting stack.old.tasks) (control.Turn round) }
    ensures enters { (tables : Tables) (inputs : Given) (set : BuiltIns) (functions : List FunctionCode) (natives : List Steps) (part : (L.Label → Label) → Part) → ((reading : L.Label → Label) → part_in (map (read_value reading) stack.old.loose) (setting_above stack.old.tasks (setting_of natives here)) (control.Turn round.entry) ≡ Some (part reading)) → Enters L.made L.meaning labels.new tables inputs set functions natives stack.old stack.new world.old world.new part result }
    ensures standing { IfOk result (StandsStill L.made L.meaning labels.new (waiting stack.old.tasks) stack.new world.new) }
    ensures adds { IfOk result (Adds 17 stack.old stack.new) }
    ensures stopped { IfErr result (IfStop (HasStop (L.made labels.new))) }
    ensures grows { Grows world.old world.new }
    ensures kept { IsKept L.made L.meaning L.room L.firm labels.old labels.new }
{
    let next = begin_turn(labels, &mut world.frames, stack, round)?;
    let _depth = world.frames.len();
    Ok(next)
}

/// A turn of a `for in` is entered.
#[inline(always)]
fn enter_visit<'p, L: Labels>(
    labels: &mut L,
    world: &mut World<L::Label>,
    stack: &mut Stack<'p, L::Label>,
    enumeration: Enumeration<'p>,
    count: u32,
) -> Result<Control<'p>, FlowFault<L::Label>>
    requires standing { Invariant L.made L.meaning labels.old stack.old world.old (count + 2) (scopes_of stack.old.tasks) (waiting stack.old.tasks) (control.Visit enumeration count) }
    ensures enters { (tables : Tables) (inputs : Given) (set : BuiltIns) (functions : List FunctionCode) (natives : List Steps) (part : (L.Label → Label) → Part) → ((reading : L.Label → Label) → part_in (map (read_value reading) stack.old.loose) (setting_above stack.old.tasks (setting_of natives here)) (control.Visit enumeration.entry count) ≡ Some (part reading)) → Enters L.made L.meaning labels.new tables inputs set functions natives stack.old stack.new world.old world.new part result }
    ensures standing { IfOk result (StandsStill L.made L.meaning labels.new (waiting stack.old.tasks) stack.new world.new) }
    ensures adds { IfOk result (Adds 17 stack.old stack.new) }
    ensures stopped { IfErr result (IfStop (HasStop (L.made labels.new))) }
    ensures grows { Grows world.old world.new }
    ensures kept { IsKept L.made L.meaning L.room L.firm labels.old labels.new }
{
    let next = begin_visit(labels, &mut world.frames, stack, enumeration, count)?;
    let _depth = world.frames.len();
    Ok(next)
}

/// A value that stands in the script, a name, an object of a literal, variables, a loop, the keys of a `for in`, a jump, a labelled statement or a `try` statement: what a machine does next without entering a part. Any other move stays as it is. `this_text` is the name of `this`.
#[inline(always)]
pub(crate) fn begin_move<'p, L: Labels>(
    alloc: Global,
    labels: &mut L,
    this_text: &Text,
    world: &mut World<L::Label>,
    stack: &mut Stack<'p, L::Label>,
    next: Control<'p>,
) -> Result<Control<'p>, FlowFault<L::Label>>
    requires name { this_text.now ≡ this_name }
    requires standing { Invariant L.made L.meaning labels.old stack.old world.old (values_of next) (scopes_of stack.old.tasks) (waiting stack.old.tasks) next }
    ensures begins { (tables : Tables) (inputs : Given) (set : BuiltIns) (functions : List FunctionCode) (natives : List Steps) → Begins L.made L.meaning labels.new tables inputs set functions natives natives stack.old stack.new world.old world.new next.entry result }
    ensures standing { IfOk result (StandsStill L.made L.meaning labels.new (waiting stack.old.tasks) stack.new world.new) }
    ensures lowers { begins_work next.entry ≡ true → IfOk result (λ n. Lowers stack.old next.entry stack.new n) }
    ensures stopped { IfErr result (IfStop (HasStop (L.made labels.new))) }
    ensures grows { Grows world.old world.new }
    ensures kept { IsKept L.made L.meaning L.room L.firm labels.old labels.new }
{
    match next {
        Control::Null => begin_null(labels, world, stack),
        Control::Bool(b) => begin_boolean(labels, world, stack, b),
        Control::Number(n) => begin_number(labels, world, stack, n),
        Control::Text(units) => begin_text(alloc, labels, world, stack, units),
        Control::Name(name) => begin_name(alloc, labels, world, stack, name),
        Control::This => begin_this(alloc, labels, world, stack, this_text),
        Control::GiveVariable(variable) => begin_giving(alloc, labels, world, stack, variable),
        Control::Keys(enumeration) => begin_keys(alloc, labels, world, stack, enumeration),
        Control::Visits(enumeration, count) => {
            begin_visits(alloc, labels, world, stack, enumeration, count)
        }
        Control::Variables(list) => begin_variables(labels, world, stack, list),
        Control::Loop(round) => begin_loop_of(labels, world, stack, round),
        Control::DoLoop(round) => begin_do_loop_of(labels, world, stack, round),
        Control::Break(turn, label) => begin_leaving(labels, world, stack, turn, label),
        Control::Return => begin_return(labels, world, stack),
        Control::Labelled(text, s) => begin_label(labels, world, stack, text, s),
        Control::Try(s) => begin_try_of(labels, world, stack, s),
        other => Ok(other),
    }
}

/// `null`.
#[inline(always)]
fn begin_null<'p, L: Labels>(
    labels: &L,
    _world: &World<L::Label>,
    stack: &mut Stack<'p, L::Label>,
) -> Result<Control<'p>, FlowFault<L::Label>>
    requires standing { Invariant L.made L.meaning labels.now stack.old _world.now 0 (scopes_of stack.old.tasks) (waiting stack.old.tasks) control.Null }
    ensures begins { (tables : Tables) (inputs : Given) (set : BuiltIns) (functions : List FunctionCode) (natives : List Steps) → Begins L.made L.meaning labels.now tables inputs set functions natives natives stack.old stack.new _world.now _world.now control.Null result }
    ensures standing { IfOk result (StandsStill L.made L.meaning labels.now (waiting stack.old.tasks) stack.new _world.now) }
    ensures lowers { IfOk result (Lowers stack.old control.Null stack.new) }
    ensures stopped { IfErr result (IfStop (HasStop (L.made labels.now))) }
{
    let next = null(labels, stack)?;
    Ok(next)
}

/// A boolean that stands in the script.
#[inline(always)]
fn begin_boolean<'p, L: Labels>(
    labels: &L,
    _world: &World<L::Label>,
    stack: &mut Stack<'p, L::Label>,
    b: bool,
) -> Result<Control<'p>, FlowFault<L::Label>>
    requires standing { Invariant L.made L.meaning labels.now stack.old _world.now 0 (scopes_of stack.old.tasks) (waiting stack.old.tasks) (control.Bool b) }
    ensures begins { (tables : Tables) (inputs : Given) (set : BuiltIns) (functions : List FunctionCode) (natives : List Steps) → Begins L.made L.meaning labels.now tables inputs set functions natives natives stack.old stack.new _world.now _world.now (control.Bool b) result }
    ensures standing { IfOk result (StandsStill L.made L.meaning labels.now (waiting stack.old.tasks) stack.new _world.now) }
    ensures lowers { IfOk result (Lowers stack.old (control.Bool b) stack.new) }
    ensures stopped { IfErr result (IfStop (HasStop (L.made labels.now))) }
{
    let next = boolean(labels, stack, b)?;
    Ok(next)
}

/// A number that stands in the script.
#[inline(always)]
fn begin_number<'p, L: Labels>(
    labels: &L,
    _world: &World<L::Label>,
    stack: &mut Stack<'p, L::Label>,
    n: &'p Int,
) -> Result<Control<'p>, FlowFault<L::Label>>
    requires standing { Invariant L.made L.meaning labels.now stack.old _world.now 0 (scopes_of stack.old.tasks) (waiting stack.old.tasks) (control.Number n) }
    ensures begins { (tables : Tables) (inputs : Given) (set : BuiltIns) (functions : List FunctionCode) (natives : List Steps) → Begins L.made L.meaning labels.now tables inputs set functions natives natives stack.old stack.new _world.now _world.now (control.Number n.entry) result }
    ensures standing { IfOk result (StandsStill L.made L.meaning labels.now (waiting stack.old.tasks) stack.new _world.now) }
    ensures lowers { IfOk result (Lowers stack.old (control.Number n.entry) stack.new) }
    ensures stopped { IfErr result (IfStop (HasStop (L.made labels.now))) }
{
    let next = number(labels, stack, n)?;
    Ok(next)
}

/// A text that stands in the script.
#[inline(always)]
fn begin_text<'p, L: Labels>(
    alloc: Global,
    labels: &L,
    _world: &World<L::Label>,
    stack: &mut Stack<'p, L::Label>,
    units: &'p Text,
) -> Result<Control<'p>, FlowFault<L::Label>>
    requires standing { Invariant L.made L.meaning labels.now stack.old _world.now 0 (scopes_of stack.old.tasks) (waiting stack.old.tasks) (control.Text units) }
    ensures begins { (tables : Tables) (inputs : Given) (set : BuiltIns) (functions : List FunctionCode) (natives : List Steps) → Begins L.made L.meaning labels.now tables inputs set functions natives natives stack.old stack.new _world.now _world.now (control.Text units.entry) result }
    ensures standing { IfOk result (StandsStill L.made L.meaning labels.now (waiting stack.old.tasks) stack.new _world.now) }
    ensures lowers { IfOk result (Lowers stack.old (control.Text units.entry) stack.new) }
    ensures stopped { IfErr result (IfStop (HasStop (L.made labels.now))) }
{
    let next = text(alloc, labels, stack, units)?;
    Ok(next)
}

/// The value of a name.
#[inline(always)]
fn begin_name<'p, L: Labels>(
    alloc: Global,
    labels: &mut L,
    world: &mut World<L::Label>,
    stack: &mut Stack<'p, L::Label>,
    name: &'p Text,
) -> Result<Control<'p>, FlowFault<L::Label>>
    requires standing { Invariant L.made L.meaning labels.old stack.old world.old 0 (scopes_of stack.old.tasks) (waiting stack.old.tasks) (control.Name name) }
    ensures begins { (tables : Tables) (inputs : Given) (set : BuiltIns) (functions : List FunctionCode) (natives : List Steps) → Begins L.made L.meaning labels.new tables inputs set functions natives natives stack.old stack.new world.old world.new (control.Name name.entry) result }
    ensures standing { IfOk result (StandsStill L.made L.meaning labels.new (waiting stack.old.tasks) stack.new world.new) }
    ensures lowers { IfOk result (Lowers stack.old (control.Name name.entry) stack.new) }
    ensures stopped { IfErr result (IfStop (HasStop (L.made labels.new))) }
    ensures grows { Grows world.old world.new }
    ensures kept { IsKept L.made L.meaning L.room L.firm labels.old labels.new }
{
    let place = present(world, stack)?;
    read_name(alloc, labels, world, stack, place, name)
}

/// The value of `this`.
#[inline(always)]
fn begin_this<'p, L: Labels>(
    alloc: Global,
    labels: &mut L,
    world: &mut World<L::Label>,
    stack: &mut Stack<'p, L::Label>,
    this_text: &Text,
) -> Result<Control<'p>, FlowFault<L::Label>>
    requires name { this_text.now ≡ this_name }
    requires standing { Invariant L.made L.meaning labels.old stack.old world.old 0 (scopes_of stack.old.tasks) (waiting stack.old.tasks) control.This }
    ensures begins { (tables : Tables) (inputs : Given) (set : BuiltIns) (functions : List FunctionCode) (natives : List Steps) → Begins L.made L.meaning labels.new tables inputs set functions natives natives stack.old stack.new world.old world.new control.This result }
    ensures standing { IfOk result (StandsStill L.made L.meaning labels.new (waiting stack.old.tasks) stack.new world.new) }
    ensures lowers { IfOk result (Lowers stack.old control.This stack.new) }
    ensures stopped { IfErr result (IfStop (HasStop (L.made labels.new))) }
    ensures grows { Grows world.old world.new }
    ensures kept { IsKept L.made L.meaning L.room L.firm labels.old labels.new }
{
    let place = present(world, stack)?;
    this(alloc, labels, world, stack, place, this_text)
}

/// A variable is given a key.
#[inline(always)]
fn begin_giving<'p, L: Labels>(
    alloc: Global,
    labels: &mut L,
    world: &mut World<L::Label>,
    stack: &mut Stack<'p, L::Label>,
    variable: &'p Ident,
) -> Result<Control<'p>, FlowFault<L::Label>>
    requires standing { Invariant L.made L.meaning labels.old stack.old world.old 1 (scopes_of stack.old.tasks) (waiting stack.old.tasks) (control.GiveVariable variable) }
    ensures begins { (tables : Tables) (inputs : Given) (set : BuiltIns) (functions : List FunctionCode) (natives : List Steps) → Begins L.made L.meaning labels.new tables inputs set functions natives natives stack.old stack.new world.old world.new (control.GiveVariable variable.entry) result }
    ensures standing { IfOk result (StandsStill L.made L.meaning labels.new (waiting stack.old.tasks) stack.new world.new) }
    ensures lowers { IfOk result (Lowers stack.old (control.GiveVariable variable.entry) stack.new) }
    ensures stopped { IfErr result (IfStop (HasStop (L.made labels.new))) }
    ensures grows { Grows world.old world.new }
    ensures kept { IsKept L.made L.meaning L.room L.firm labels.old labels.new }
{
    let place = present(world, stack)?;
    give_variable(alloc, labels, world, stack, place, variable)
}

/// The keys of a value.
#[inline(always)]
fn begin_keys<'p, L: Labels>(
    alloc: Global,
    labels: &mut L,
    world: &mut World<L::Label>,
    stack: &mut Stack<'p, L::Label>,
    enumeration: Enumeration<'p>,
) -> Result<Control<'p>, FlowFault<L::Label>>
    requires standing { Invariant L.made L.meaning labels.old stack.old world.old 1 (scopes_of stack.old.tasks) (waiting stack.old.tasks) (control.Keys enumeration) }
    ensures begins { (tables : Tables) (inputs : Given) (set : BuiltIns) (functions : List FunctionCode) (natives : List Steps) → Begins L.made L.meaning labels.new tables inputs set functions natives natives stack.old stack.new world.old world.new (control.Keys enumeration.entry) result }
    ensures standing { IfOk result (StandsStill L.made L.meaning labels.new (waiting stack.old.tasks) stack.new world.new) }
    ensures lowers { IfOk result (Lowers stack.old (control.Keys enumeration.entry) stack.new) }
    ensures stopped { IfErr result (IfStop (HasStop (L.made labels.new))) }
    ensures grows { Grows world.old world.new }
    ensures kept { IsKept L.made L.meaning L.room L.firm labels.old labels.new }
{
    take_keys(alloc, labels, world, stack, enumeration)
}

/// The next key that is visited.
#[inline(always)]
fn begin_visits<'p, L: Labels>(
    alloc: Global,
    labels: &mut L,
    world: &mut World<L::Label>,
    stack: &mut Stack<'p, L::Label>,
    enumeration: Enumeration<'p>,
    count: u32,
) -> Result<Control<'p>, FlowFault<L::Label>>
    requires standing { Invariant L.made L.meaning labels.old stack.old world.old (count + 1) (scopes_of stack.old.tasks) (waiting stack.old.tasks) (control.Visits enumeration count) }
    ensures begins { (tables : Tables) (inputs : Given) (set : BuiltIns) (functions : List FunctionCode) (natives : List Steps) → Begins L.made L.meaning labels.new tables inputs set functions natives natives stack.old stack.new world.old world.new (control.Visits enumeration.entry count) result }
    ensures standing { IfOk result (StandsStill L.made L.meaning labels.new (waiting stack.old.tasks) stack.new world.new) }
    ensures lowers { IfOk result (Lowers stack.old (control.Visits enumeration.entry count) stack.new) }
    ensures stopped { IfErr result (IfStop (HasStop (L.made labels.new))) }
    ensures grows { Grows world.old world.new }
    ensures kept { IsKept L.made L.meaning L.room L.firm labels.old labels.new }
{
    next_visit(alloc, labels, world, stack, enumeration, count)
}

/// Variables with their first values.
#[inline(always)]
fn begin_variables<'p, L: Labels>(
    labels: &mut L,
    world: &World<L::Label>,
    stack: &mut Stack<'p, L::Label>,
    list: &'p Declarations,
) -> Result<Control<'p>, FlowFault<L::Label>>
    requires standing { Invariant L.made L.meaning labels.old stack.old world.now 0 (scopes_of stack.old.tasks) (waiting stack.old.tasks) (control.Variables list) }
    ensures begins { (tables : Tables) (inputs : Given) (set : BuiltIns) (functions : List FunctionCode) (natives : List Steps) → Begins L.made L.meaning labels.new tables inputs set functions natives natives stack.old stack.new world.now world.now (control.Variables list.entry) result }
    ensures standing { IfOk result (StandsStill L.made L.meaning labels.new (waiting stack.old.tasks) stack.new world.now) }
    ensures lowers { IfOk result (Lowers stack.old (control.Variables list.entry) stack.new) }
    ensures stopped { IfErr result (IfStop (HasStop (L.made labels.new))) }
    ensures kept { IsKept L.made L.meaning L.room L.firm labels.old labels.new }
{
    let place = present(world, stack)?;
    declare(labels, world, stack, place, list)
}

/// A loop begins with its condition.
#[inline(always)]
fn begin_loop_of<'p, L: Labels>(
    labels: &mut L,
    world: &mut World<L::Label>,
    stack: &mut Stack<'p, L::Label>,
    round: Round<'p>,
) -> Result<Control<'p>, FlowFault<L::Label>>
    requires standing { Invariant L.made L.meaning labels.old stack.old world.old 0 (scopes_of stack.old.tasks) (waiting stack.old.tasks) (control.Loop round) }
    ensures begins { (tables : Tables) (inputs : Given) (set : BuiltIns) (functions : List FunctionCode) (natives : List Steps) → Begins L.made L.meaning labels.new tables inputs set functions natives natives stack.old stack.new world.old world.new (control.Loop round.entry) result }
    ensures standing { IfOk result (StandsStill L.made L.meaning labels.new (waiting stack.old.tasks) stack.new world.new) }
    ensures lowers { IfOk result (Lowers stack.old (control.Loop round.entry) stack.new) }
    ensures stopped { IfErr result (IfStop (HasStop (L.made labels.new))) }
    ensures grows { Grows world.old world.new }
    ensures kept { IsKept L.made L.meaning L.room L.firm labels.old labels.new }
{
    let next = begin_loop(labels, &mut world.frames, stack, round)?;
    let _depth = world.frames.len();
    Ok(next)
}

/// A loop begins with a turn.
#[inline(always)]
fn begin_do_loop_of<'p, L: Labels>(
    labels: &mut L,
    world: &mut World<L::Label>,
    stack: &mut Stack<'p, L::Label>,
    round: Round<'p>,
) -> Result<Control<'p>, FlowFault<L::Label>>
    requires standing { Invariant L.made L.meaning labels.old stack.old world.old 0 (scopes_of stack.old.tasks) (waiting stack.old.tasks) (control.DoLoop round) }
    ensures begins { (tables : Tables) (inputs : Given) (set : BuiltIns) (functions : List FunctionCode) (natives : List Steps) → Begins L.made L.meaning labels.new tables inputs set functions natives natives stack.old stack.new world.old world.new (control.DoLoop round.entry) result }
    ensures standing { IfOk result (StandsStill L.made L.meaning labels.new (waiting stack.old.tasks) stack.new world.new) }
    ensures lowers { IfOk result (Lowers stack.old (control.DoLoop round.entry) stack.new) }
    ensures stopped { IfErr result (IfStop (HasStop (L.made labels.new))) }
    ensures grows { Grows world.old world.new }
    ensures kept { IsKept L.made L.meaning L.room L.firm labels.old labels.new }
{
    let next = begin_do_loop(labels, &mut world.frames, stack, round)?;
    let _depth = world.frames.len();
    Ok(next)
}

/// A loop or a statement is left, or a turn of it.
#[inline(always)]
fn begin_leaving<'p, L: Labels>(
    labels: &mut L,
    world: &mut World<L::Label>,
    stack: &mut Stack<'p, L::Label>,
    turn: bool,
    label: &'p Option<Ident>,
) -> Result<Control<'p>, FlowFault<L::Label>>
    requires standing { Invariant L.made L.meaning labels.old stack.old world.old 0 (scopes_of stack.old.tasks) (waiting stack.old.tasks) (control.Break turn label) }
    ensures begins { (tables : Tables) (inputs : Given) (set : BuiltIns) (functions : List FunctionCode) (natives : List Steps) → Begins L.made L.meaning labels.new tables inputs set functions natives natives stack.old stack.new world.old world.new (control.Break turn label.entry) result }
    ensures standing { IfOk result (StandsStill L.made L.meaning labels.new (waiting stack.old.tasks) stack.new world.new) }
    ensures lowers { IfOk result (Lowers stack.old (control.Break turn label.entry) stack.new) }
    ensures stopped { IfErr result (IfStop (HasStop (L.made labels.new))) }
    ensures grows { Grows world.old world.new }
    ensures kept { IsKept L.made L.meaning L.room L.firm labels.old labels.new }
{
    let aim = stack.reached(turn, units_of(label));
    leave_by(labels, world, stack, turn, label, aim)
}

/// The units of a label, or none.
#[inline(always)]
fn units_of(label: &Option<Ident>) -> Option<&[u16]>
    ensures { option_map (λ text. text.now) result ≡ text_of_label (view_name label.now) }
{
    match label {
        Some(ident) => Some(ident.text.units()),
        None => None,
    }
}

/// A function is left without a value.
#[inline(always)]
fn begin_return<'p, L: Labels>(
    labels: &mut L,
    world: &mut World<L::Label>,
    stack: &mut Stack<'p, L::Label>,
) -> Result<Control<'p>, FlowFault<L::Label>>
    requires standing { Invariant L.made L.meaning labels.old stack.old world.old 0 (scopes_of stack.old.tasks) (waiting stack.old.tasks) control.Return }
    ensures begins { (tables : Tables) (inputs : Given) (set : BuiltIns) (functions : List FunctionCode) (natives : List Steps) → Begins L.made L.meaning labels.new tables inputs set functions natives natives stack.old stack.new world.old world.new control.Return result }
    ensures standing { IfOk result (StandsStill L.made L.meaning labels.new (waiting stack.old.tasks) stack.new world.new) }
    ensures lowers { IfOk result (Lowers stack.old control.Return stack.new) }
    ensures stopped { IfErr result (IfStop (HasStop (L.made labels.new))) }
    ensures grows { Grows world.old world.new }
    ensures kept { IsKept L.made L.meaning L.room L.firm labels.old labels.new }
{
    let to = stack.call();
    return_nothing(labels, world, stack, to)
}

/// A labelled statement, which is no loop and no `switch`.
#[inline(always)]
fn begin_label<'p, L: Labels>(
    labels: &mut L,
    world: &mut World<L::Label>,
    stack: &mut Stack<'p, L::Label>,
    text: &'p Text,
    s: &'p Stmt,
) -> Result<Control<'p>, FlowFault<L::Label>>
    requires standing { Invariant L.made L.meaning labels.old stack.old world.old 0 (scopes_of stack.old.tasks) (waiting stack.old.tasks) (control.Labelled text s) }
    ensures begins { (tables : Tables) (inputs : Given) (set : BuiltIns) (functions : List FunctionCode) (natives : List Steps) → Begins L.made L.meaning labels.new tables inputs set functions natives natives stack.old stack.new world.old world.new (control.Labelled text.entry s.entry) result }
    ensures standing { IfOk result (StandsStill L.made L.meaning labels.new (waiting stack.old.tasks) stack.new world.new) }
    ensures lowers { IfOk result (Lowers stack.old (control.Labelled text.entry s.entry) stack.new) }
    ensures stopped { IfErr result (IfStop (HasStop (L.made labels.new))) }
    ensures grows { Grows world.old world.new }
    ensures kept { IsKept L.made L.meaning L.room L.firm labels.old labels.new }
{
    begin_labelled(labels, world, stack, text, s)
}

/// A `try` statement.
#[inline(always)]
fn begin_try_of<'p, L: Labels>(
    labels: &mut L,
    world: &mut World<L::Label>,
    stack: &mut Stack<'p, L::Label>,
    s: &'p Stmt,
) -> Result<Control<'p>, FlowFault<L::Label>>
    requires standing { Invariant L.made L.meaning labels.old stack.old world.old 0 (scopes_of stack.old.tasks) (waiting stack.old.tasks) (control.Try s) }
    ensures begins { (tables : Tables) (inputs : Given) (set : BuiltIns) (functions : List FunctionCode) (natives : List Steps) → Begins L.made L.meaning labels.new tables inputs set functions natives natives stack.old stack.new world.old world.new (control.Try s.entry) result }
    ensures standing { IfOk result (StandsStill L.made L.meaning labels.new (waiting stack.old.tasks) stack.new world.new) }
    ensures lowers { IfOk result (Lowers stack.old (control.Try s.entry) stack.new) }
    ensures stopped { IfErr result (IfStop (HasStop (L.made labels.new))) }
    ensures grows { Grows world.old world.new }
    ensures kept { IsKept L.made L.meaning L.room L.firm labels.old labels.new }
{
    // a machine comes here from a `try` statement alone, which isn't known here
    if !is_try(s) {
        return Err(FlowFault::OutOfMemory);
    }
    begin_try(labels, world, stack, s)
}

/// A value is called, makes an object, or is converted.
#[inline(always)]
pub(crate) fn begin_calling<'p, L: Labels, N: Natives>(
    alloc: Global,
    labels: &mut L,
    world: &mut World<L::Label>,
    functions: &Functions<'p>,
    natives: &N,
    states: &mut NativeStates<N::State>,
    stack: &mut Stack<'p, L::Label>,
    next: Control<'p>,
) -> Result<Control<'p>, FlowFault<L::Label>>
    requires calls { calls_function next ≡ true }
    requires standing { Invariant L.made L.meaning labels.old stack.old world.old (values_of next) (scopes_of stack.old.tasks) (length states.old.states) next }
    ensures begins { (tables : Tables) (inputs : Given) → Begins L.made L.meaning labels.new tables inputs (built_ins_of (N.entries natives.now) (N.begin natives.now) (N.after natives.now) (N.asks natives.now)) (table functions.now) (waiting_steps (N.after natives.now) (N.asks natives.now) states.old) (steps_behind (N.after natives.now) (N.asks natives.now) states.new result) stack.old stack.new world.old world.new next.entry result }
    ensures standing { IfOk result (λ move. Invariant L.made L.meaning labels.new stack.new world.new (values_of move) (scopes_of stack.new.tasks) (length states.new.states) move) }
    ensures lowers { IfOk result (λ n. Lowers stack.old next.entry stack.new n) }
    ensures stopped { IfErr result (IfStop (HasStop (L.made labels.new))) }
    ensures grows { Grows world.old world.new }
    ensures kept { IsKept L.made L.meaning L.room L.firm labels.old labels.new }
{
    match next {
        Control::Call(count) => call(
            alloc, labels, world, functions, natives, states, stack, count,
        ),
        Control::Construct(count) => construct(
            alloc, labels, world, functions, natives, states, stack, count,
        ),
        Control::Convert(hint) => convert(labels, world, stack, states, hint),
        Control::Compare => compare(labels, world, stack, states),
        Control::ConvertBeside => convert_beside(labels, world, stack, states),
        _ => unreachable!(),
    }
}

/// A value is made of a function of the script, or of a literal. No built-in begins.
#[inline(always)]
pub(crate) fn make_value<'p, L: Labels>(
    alloc: Global,
    labels: &mut L,
    world: &mut World<L::Label>,
    functions: &Functions<'p>,
    stack: &mut Stack<'p, L::Label>,
    next: Control<'p>,
) -> Result<Control<'p>, FlowFault<L::Label>>
    requires makes { makes_value next ≡ true }
    requires standing { Invariant L.made L.meaning labels.old stack.old world.old (values_of next) (scopes_of stack.old.tasks) (waiting stack.old.tasks) next }
    ensures begins { (tables : Tables) (inputs : Given) (set : BuiltIns) (natives : List Steps) → Begins L.made L.meaning labels.new tables inputs set (table functions.now) natives natives stack.old stack.new world.old world.new next.entry result }
    ensures standing { IfOk result (StandsStill L.made L.meaning labels.new (waiting stack.old.tasks) stack.new world.new) }
    ensures lowers { IfOk result (λ n. Lowers stack.old next.entry stack.new n) }
    ensures stopped { IfErr result (IfStop (HasStop (L.made labels.new))) }
    ensures grows { Grows world.old world.new }
    ensures kept { IsKept L.made L.meaning L.room L.firm labels.old labels.new }
{
    match next {
        Control::Function(f) => begin_function(alloc, labels, world, functions, stack, f),
        Control::Object(list, count) => {
            begin_object(alloc, labels, world, functions, stack, list, count)
        }
        Control::Array(list, count) => begin_array(alloc, labels, world, stack, list, count),
        _ => unreachable!(),
    }
}

/// A function of the script comes to a value.
#[inline(always)]
fn begin_function<'p, L: Labels>(
    alloc: Global,
    labels: &mut L,
    world: &mut World<L::Label>,
    functions: &Functions<'p>,
    stack: &mut Stack<'p, L::Label>,
    f: &'p Function,
) -> Result<Control<'p>, FlowFault<L::Label>>
    requires standing { Invariant L.made L.meaning labels.old stack.old world.old 0 (scopes_of stack.old.tasks) (waiting stack.old.tasks) (control.Function f) }
    ensures begins { (tables : Tables) (inputs : Given) (set : BuiltIns) (natives : List Steps) → Begins L.made L.meaning labels.new tables inputs set (table functions.now) natives natives stack.old stack.new world.old world.new (control.Function f.entry) result }
    ensures standing { IfOk result (StandsStill L.made L.meaning labels.new (waiting stack.old.tasks) stack.new world.new) }
    ensures lowers { IfOk result (λ n. Lowers stack.old (control.Function f.entry) stack.new n) }
    ensures stopped { IfErr result (IfStop (HasStop (L.made labels.new))) }
    ensures grows { Grows world.old world.new }
    ensures kept { IsKept L.made L.meaning L.room L.firm labels.old labels.new }
{
    let place = present(world, stack)?;
    function(alloc, labels, world, functions, stack, place, f)
}

/// An object of a literal.
#[inline(always)]
fn begin_object<'p, L: Labels>(
    alloc: Global,
    labels: &mut L,
    world: &mut World<L::Label>,
    functions: &Functions<'p>,
    stack: &mut Stack<'p, L::Label>,
    list: &'p PropertyList,
    count: u32,
) -> Result<Control<'p>, FlowFault<L::Label>>
    requires standing { Invariant L.made L.meaning labels.old stack.old world.old count (scopes_of stack.old.tasks) (waiting stack.old.tasks) (control.Object list count) }
    ensures begins { (tables : Tables) (inputs : Given) (set : BuiltIns) (natives : List Steps) → Begins L.made L.meaning labels.new tables inputs set (table functions.now) natives natives stack.old stack.new world.old world.new (control.Object list.entry count) result }
    ensures standing { IfOk result (StandsStill L.made L.meaning labels.new (waiting stack.old.tasks) stack.new world.new) }
    ensures lowers { IfOk result (λ n. Lowers stack.old (control.Object list.entry count) stack.new n) }
    ensures stopped { IfErr result (IfStop (HasStop (L.made labels.new))) }
    ensures grows { Grows world.old world.new }
    ensures kept { IsKept L.made L.meaning L.room L.firm labels.old labels.new }
{
    let place = present(world, stack)?;
    object(alloc, labels, world, functions, stack, place, list, count)
}

/// An array of a literal.
#[inline(always)]
fn begin_array<'p, L: Labels>(
    alloc: Global,
    labels: &mut L,
    world: &mut World<L::Label>,
    stack: &mut Stack<'p, L::Label>,
    list: &'p ItemList,
    count: u32,
) -> Result<Control<'p>, FlowFault<L::Label>>
    requires standing { Invariant L.made L.meaning labels.old stack.old world.old count (scopes_of stack.old.tasks) (waiting stack.old.tasks) (control.Array list count) }
    ensures begins { (tables : Tables) (inputs : Given) (set : BuiltIns) (functions : List FunctionCode) (natives : List Steps) → Begins L.made L.meaning labels.new tables inputs set functions natives natives stack.old stack.new world.old world.new (control.Array list.entry count) result }
    ensures standing { IfOk result (StandsStill L.made L.meaning labels.new (waiting stack.old.tasks) stack.new world.new) }
    ensures lowers { IfOk result (λ n. Lowers stack.old (control.Array list.entry count) stack.new n) }
    ensures stopped { IfErr result (IfStop (HasStop (L.made labels.new))) }
    ensures grows { Grows world.old world.new }
    ensures kept { IsKept L.made L.meaning L.room L.firm labels.old labels.new }
{
    array(alloc, labels, world, stack, list, count)
}
