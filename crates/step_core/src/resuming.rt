//! A continuation that goes on with what it waited for.

ghost use Rattle.std.specs.Option.{option_map};
ghost use Rattle.es_meaning.specs.Directives.{Upgrade, upgrade_of};
ghost use Rattle.js_ast.specs.Views.{view_expr};
ghost use Rattle.continuations.specs.declared.continuation.Continuation.TheVariants as continuations;
ghost use Rattle.std.specs.Prelude.{◌≡◌, ◌≤◌, Some, ◌+◌, ◌++◌, ◌<◌, [], ◌∷◌, Bool, true, false, length, IfErr, IfOk, OnOk, ℕ, List};
ghost use Rattle.std.specs.List.{All};
ghost use Rattle.origin_labels.specs.Label.{Label};
ghost use Rattle.origin_labels.specs.Stores.{IsKept};
ghost use Rattle.flow_frames.specs.Held.{Belong};
ghost use Rattle.flow_frames.specs.Stops.{IfStop};
ghost use Rattle.flow_policy.specs.Policies.{Tables};
ghost use Rattle.flow_policy.specs.Inputs.{Given};
ghost use Rattle.js_ast.specs.Functions.{FunctionCode};
ghost use Rattle.native_protocol.specs.Steps.{Steps};
ghost use Rattle.es_meaning.specs.BuiltIns.{BuiltIns};
ghost use Rattle.js_values.specs.Readings.{HasValue, IsReading};
ghost use Rattle.es_meaning.specs.Environments.{aimed};
ghost use Rattle.flow_meaning.specs.Scopes.{State};
ghost use Rattle.run_state.specs.Worlds.{Belongs, Grows};
ghost use Rattle.continuations.specs.declared.continuation.Control.TheVariants as control;
ghost use Rattle.continuations.specs.Kept.{operands_of, scope_of, scopes_of, waiting};
ghost use Rattle.continuations.specs.Loads.{Adds, weight};
ghost use Rattle.continuations.specs.Pending.{env_above, owns, owns_target, values_of};
ghost use Rattle.continuations.specs.Resuming.{Keeps};
ghost use Rattle.continuations.specs.Settings.{Setting};
ghost use Rattle.continuations.specs.Stops.{HasStop};
ghost use Rattle.step_references.specs.Moving.{Moved, Resumed};
ghost use Rattle.step_core.specs.Going.{StandsStill};
ghost use Rattle.step_core.specs.Continuing.{GoesActing, GoesAlone, GoesIn, LeavesIn, MadeIn, StillIn, acts, answers, continued, leads, operates, raises, scoped, used_of};
ghost use Rattle.continuations.specs.Going.{Resumes, here};
ghost use Rattle.continuations.specs.Invariant.{Invariant, awaits, given};

use crate::entering::present;
use continuations::{
    Continuation, Control, Stack, Target, called_by, index_base, more_arguments, more_items,
    more_properties,
};
use flow_frames::{FlowFault, Frames};
use flow_policy::Policy;
use flow_text::OutOfMemory;
use js_ast::{Declaration, Expr};
use js_number::Primitive;
use js_values::{Labelled, Value};
use origin_labels::Labels;
use run_state::World;
use std::alloc::Global;
use step_calling::{callee, constructor};
use step_control::{
    and_right, begin_enumeration, binary_right, choose_expr, choose_stmt, choose_stmts,
    comma_right, compound_right, declared, discard, end_branch, end_branch_value, end_round,
    give_behind, instance_right, looped, more_statements, or_right, tested, turned, updated,
    visit_body, visited,
};
use step_jumps::{
    Spoken, directive_of, end_block, end_call, end_construction, end_handler, end_last, raise_by,
    return_value, throw_value,
};
use step_operators::{
    binary_done, compound_done, counted, counted_number, instance_done, instance_test, key_has,
    left_converted, length_once, length_twice, operate_converted, unary_converted, unary_done,
};
use step_references::{assigned, index_key, key_of, member, more_variables, variables_behind};
use step_statements::{compared, falls, switched};

/// Resumes a continuation that acts on the run's state after a part that gave a value, which is above the continuation's operands, or came to its end
/// without one. A continuation that waits for an end forgets a value, and one that waits for a value takes undefined for an end.
#[inline(always)]
pub(crate) fn resume_acting<'p, L: Labels>(
    alloc: Global,
    labels: &mut L,
    world: &mut World<L::Label>,
    stack: &mut Stack<'p, L::Label>,
    work: Continuation<'p>,
    gave: bool,
) -> Result<Control<'p>, FlowFault<L::Label>>
    requires acts { acts work ≡ true }
    requires obeys { raises work ≡ false }
    requires asks { answers work ≡ false }
    requires standing { Invariant L.made L.meaning labels.old stack.old world.old (owns work + given gave) (scopes_of stack.old.tasks ++ scope_of work) (waiting stack.old.tasks) control.Value }
    ensures resumes { (tables : Tables) (inputs : Given) (set : BuiltIns) (functions : List FunctionCode) (natives : List Steps) → Resumes L.made L.meaning labels.new tables inputs set functions work.entry natives natives stack.old stack.new world.old world.new result }
    ensures standing { IfOk result (StandsStill L.made L.meaning labels.new (waiting stack.old.tasks) stack.new world.new) }
    ensures adds { IfOk result (Adds (weight work.entry + 5) stack.old stack.new) }
    ensures stopped { IfErr result (IfStop (HasStop (L.made labels.new))) }
    ensures grows { Grows world.old world.new }
    ensures kept { IsKept L.made L.meaning L.room L.firm labels.old labels.new }
{
    prepare(labels, stack, work, gave)?;
    go_on_acting(alloc, labels, world, stack, work)
}

/// The same of one that enters, raises or leaves a frame.
#[inline(always)]
pub(crate) fn resume_scoped<'p, L: Labels>(
    labels: &mut L,
    world: &mut World<L::Label>,
    stack: &mut Stack<'p, L::Label>,
    work: Continuation<'p>,
    gave: bool,
) -> Result<Control<'p>, FlowFault<L::Label>>
    requires scoped { scoped work ≡ true }
    requires obeys { raises work ≡ false }
    requires asks { answers work ≡ false }
    requires standing { Invariant L.made L.meaning labels.old stack.old world.old (owns work + given gave) (scopes_of stack.old.tasks ++ scope_of work) (waiting stack.old.tasks) control.Value }
    ensures resumes { (tables : Tables) (inputs : Given) (set : BuiltIns) (functions : List FunctionCode) (natives : List Steps) → Resumes L.made L.meaning labels.new tables inputs set functions work.entry natives natives stack.old stack.new world.old world.new result }
    ensures standing { IfOk result (StandsStill L.made L.meaning labels.new (waiting stack.old.tasks) stack.new world.new) }
    ensures adds { IfOk result (Adds (weight work.entry + 5) stack.old stack.new) }
    ensures stopped { IfErr result (IfStop (HasStop (L.made labels.new))) }
    ensures grows { Grows world.old world.new }
    ensures kept { IsKept L.made L.meaning L.room L.firm labels.old labels.new }
{
    prepare(labels, stack, work, gave)?;
    go_on_scoped(labels, world, stack, work)
}

/// The same of one of a jump, a call, a `switch` or a `try` statement.
#[inline(always)]
pub(crate) fn resume_leading<'p, L: Labels>(
    alloc: Global,
    labels: &mut L,
    world: &mut World<L::Label>,
    stack: &mut Stack<'p, L::Label>,
    work: Continuation<'p>,
    gave: bool,
) -> Result<Control<'p>, FlowFault<L::Label>>
    requires leads { leads work ≡ true }
    requires obeys { raises work ≡ false }
    requires asks { answers work ≡ false }
    requires standing { Invariant L.made L.meaning labels.old stack.old world.old (owns work + given gave) (scopes_of stack.old.tasks ++ scope_of work) (waiting stack.old.tasks) control.Value }
    ensures resumes { (tables : Tables) (inputs : Given) (set : BuiltIns) (functions : List FunctionCode) (natives : List Steps) → Resumes L.made L.meaning labels.new tables inputs set functions work.entry natives natives stack.old stack.new world.old world.new result }
    ensures standing { IfOk result (StandsStill L.made L.meaning labels.new (waiting stack.old.tasks) stack.new world.new) }
    ensures adds { IfOk result (Adds (weight work.entry + 5) stack.old stack.new) }
    ensures stopped { IfErr result (IfStop (HasStop (L.made labels.new))) }
    ensures grows { Grows world.old world.new }
    ensures kept { IsKept L.made L.meaning L.room L.firm labels.old labels.new }
{
    prepare(labels, stack, work, gave)?;
    lead_on(alloc, labels, world, stack, work)
}

/// The same of one that needs the stack alone.
#[inline(always)]
pub(crate) fn resume_alone<'p, L: Labels>(
    labels: &mut L,
    world: &mut World<L::Label>,
    stack: &mut Stack<'p, L::Label>,
    work: Continuation<'p>,
    gave: bool,
) -> Result<Control<'p>, FlowFault<L::Label>>
    requires acts { acts work ≡ false }
    requires scoped { scoped work ≡ false }
    requires leads { leads work ≡ false }
    requires obeys { raises work ≡ false }
    requires asks { answers work ≡ false }
    requires standing { Invariant L.made L.meaning labels.old stack.old world.old (owns work + given gave) (scopes_of stack.old.tasks ++ scope_of work) (waiting stack.old.tasks) control.Value }
    ensures resumes { (tables : Tables) (inputs : Given) (set : BuiltIns) (functions : List FunctionCode) (natives : List Steps) → Resumes L.made L.meaning labels.new tables inputs set functions work.entry natives natives stack.old stack.new world.old world.new result }
    ensures standing { IfOk result (StandsStill L.made L.meaning labels.new (waiting stack.old.tasks) stack.new world.new) }
    ensures adds { IfOk result (Adds (weight work.entry + 5) stack.old stack.new) }
    ensures stopped { IfErr result (IfStop (HasStop (L.made labels.new))) }
    ensures grows { Grows world.old world.new }
    ensures kept { IsKept L.made L.meaning L.room L.firm labels.old labels.new }
{
    prepare(labels, stack, work, gave)?;
    go_on_quietly(labels, world, stack, work)
}

/// Brings what lies loose to what the work waits for: its operands, and above them a value or none.
#[inline(always)]
pub(crate) fn prepare<'p, L: Labels>(
    labels: &L,
    stack: &mut Stack<'p, L::Label>,
    work: Continuation<'p>,
    gave: bool,
) -> Result<(), OutOfMemory>
    requires loose { length stack.old.loose ≡ owns work + given gave }
    ensures tasks { stack.new.tasks ≡ stack.old.tasks }
    ensures loose { OnOk result (length stack.new.loose ≡ owns work.entry + awaits work.entry) }
    ensures same { OnOk result ((tables : Tables) (inputs : Given) (set : BuiltIns) (functions : List FunctionCode) (reading : L.Label → Label) (e : Setting) (s : State) → IsReading L.made L.meaning labels.now reading → continued tables inputs set functions reading work.entry stack.new.loose e s ≡ continued tables inputs set functions reading work.entry stack.old.loose e s) }
    ensures made { OnOk result (All (HasValue (L.made labels.now)) (operands_of stack.old) → All (HasValue (L.made labels.now)) (operands_of stack.new)) }
{
    if waits_for_a_value(work) {
        if gave {
            Ok(())
        } else {
            stack.lay(Labelled {
                value: Value::Primitive(Primitive::Undefined),
                label: labels.bottom(),
            })?;
            Ok(())
        }
    } else if gave {
        stack.forget();
        Ok(())
    } else {
        Ok(())
    }
}

#[inline(always)]
fn waits_for_a_value(work: Continuation<'_>) -> bool
    ensures { given result ≡ awaits work.entry }
{
    match work {
        Continuation::Statements(_)
        | Continuation::Declared(_)
        | Continuation::Turned(_)
        | Continuation::Visited(_, _)
        | Continuation::Falls(_, _)
        | Continuation::EndRound(_, _, _)
        | Continuation::EndLabel(_, _)
        | Continuation::EndCall(_, _)
        | Continuation::EndNew(_, _)
        | Continuation::EndBlock(_, _)
        | Continuation::EndHandler(_, _, _)
        | Continuation::EndLast(_)
        | Continuation::EndTry(_) => false,
        Continuation::EndBranch(gives, _) => gives,
        _ => true,
    }
}

/// What was prepared acts on the run's state.
#[inline(always)]
fn go_on_acting<'p, L: Labels>(
    alloc: Global,
    labels: &mut L,
    world: &mut World<L::Label>,
    stack: &mut Stack<'p, L::Label>,
    work: Continuation<'p>,
) -> Result<Control<'p>, FlowFault<L::Label>>
    requires acts { acts work ≡ true }
    requires obeys { raises work ≡ false }
    requires asks { answers work ≡ false }
    requires standing { Invariant L.made L.meaning labels.old stack.old world.old (owns work + awaits work) (scopes_of stack.old.tasks ++ scope_of work) (waiting stack.old.tasks) control.Value }
    ensures resumes { (tables : Tables) (inputs : Given) (set : BuiltIns) (functions : List FunctionCode) (natives : List Steps) → Resumes L.made L.meaning labels.new tables inputs set functions work.entry natives natives stack.old stack.new world.old world.new result }
    ensures standing { IfOk result (StandsStill L.made L.meaning labels.new (waiting stack.old.tasks) stack.new world.new) }
    ensures adds { IfOk result (Adds (weight work.entry + 5) stack.old stack.new) }
    ensures stopped { IfErr result (IfStop (HasStop (L.made labels.new))) }
    ensures grows { Grows world.old world.new }
    ensures kept { IsKept L.made L.meaning L.room L.firm labels.old labels.new }
{
    act(alloc, labels, world, stack, work)
}

/// What was prepared enters, raises or leaves a frame.
#[inline(always)]
fn go_on_scoped<'p, L: Labels>(
    labels: &mut L,
    world: &mut World<L::Label>,
    stack: &mut Stack<'p, L::Label>,
    work: Continuation<'p>,
) -> Result<Control<'p>, FlowFault<L::Label>>
    requires scoped { scoped work ≡ true }
    requires obeys { raises work ≡ false }
    requires asks { answers work ≡ false }
    requires standing { Invariant L.made L.meaning labels.old stack.old world.old (owns work + awaits work) (scopes_of stack.old.tasks ++ scope_of work) (waiting stack.old.tasks) control.Value }
    ensures resumes { (tables : Tables) (inputs : Given) (set : BuiltIns) (functions : List FunctionCode) (natives : List Steps) → Resumes L.made L.meaning labels.new tables inputs set functions work.entry natives natives stack.old stack.new world.old world.new result }
    ensures standing { IfOk result (StandsStill L.made L.meaning labels.new (waiting stack.old.tasks) stack.new world.new) }
    ensures adds { IfOk result (Adds (weight work.entry + 5) stack.old stack.new) }
    ensures stopped { IfErr result (IfStop (HasStop (L.made labels.new))) }
    ensures grows { Grows world.old world.new }
    ensures kept { IsKept L.made L.meaning L.room L.firm labels.old labels.new }
{
    let next = go_on_in_frames(labels, &mut world.frames, stack, work)?;
    let _depth = world.frames.len();
    Ok(next)
}

/// What was prepared needs the stack alone.
#[inline(always)]
fn go_on_quietly<'p, L: Labels>(
    _labels: &L,
    _world: &World<L::Label>,
    stack: &mut Stack<'p, L::Label>,
    work: Continuation<'p>,
) -> Result<Control<'p>, FlowFault<L::Label>>
    requires acts { acts work ≡ false }
    requires scoped { scoped work ≡ false }
    requires leads { leads work ≡ false }
    requires obeys { raises work ≡ false }
    requires asks { answers work ≡ false }
    requires standing { Invariant L.made L.meaning _labels.now stack.old _world.now (owns work + awaits work) (scopes_of stack.old.tasks ++ scope_of work) (waiting stack.old.tasks) control.Value }
    ensures resumes { (tables : Tables) (inputs : Given) (set : BuiltIns) (functions : List FunctionCode) (natives : List Steps) → Resumes L.made L.meaning _labels.now tables inputs set functions work.entry natives natives stack.old stack.new _world.now _world.now result }
    ensures standing { IfOk result (StandsStill L.made L.meaning _labels.now (waiting stack.old.tasks) stack.new _world.now) }
    ensures adds { IfOk result (Adds (weight work.entry + 5) stack.old stack.new) }
    ensures stopped { IfErr result (IfStop (HasStop (L.made _labels.now))) }
{
    let next = go_on_alone(stack, work)?;
    Ok(next)
}

/// Acts on the run's state.
#[inline(always)]
pub(crate) fn acts(work: Continuation<'_>) -> bool
    ensures { result ≡ acts work.entry }
{
    match work {
        Continuation::Unary(_) => true,
        Continuation::BinaryDone(_) => true,
        Continuation::AssignTo(_) => true,
        Continuation::CompoundDone(_, _) => true,
        Continuation::Variable(_, _) => true,
        Continuation::MemberBase(_, _) => true,
        Continuation::IndexKey(_) => true,
        Continuation::InstanceDone => true,
        Continuation::ConvertedLeft(_) => true,
        Continuation::Operate(_) => true,
        Continuation::UnaryConverted(_) => true,
        Continuation::KeyHas => true,
        Continuation::KeyOf(_) => true,
        Continuation::Counted(_, _, _) => true,
        Continuation::CountedNumber(_, _, _) => true,
        Continuation::InstanceTest => true,
        Continuation::LengthOnce(_) => true,
        Continuation::LengthTwice(_) => true,
        Continuation::VariablesBehind(_) => true,
        _ => false,
    }
}

/// Enters, raises or leaves a frame.
#[inline(always)]
pub(crate) fn scoped(work: Continuation<'_>) -> bool
    ensures { result ≡ scoped work.entry }
{
    matches!(
        work,
        Continuation::AndRight(_)
            | Continuation::OrRight(_)
            | Continuation::Choose(_, _)
            | Continuation::ChooseStmt(_)
            | Continuation::ChooseStmts(_, _)
            | Continuation::Tested(_)
            | Continuation::Enumerated(_)
            | Continuation::EndBranch(_, _)
            | Continuation::EndRound(_, _, _)
            | Continuation::EndLabel(_, _)
            | Continuation::EndTry(_)
    )
}

/// Is that of a jump, a call, a `switch` or a `try` statement.
#[inline(always)]
pub(crate) fn leads(work: Continuation<'_>) -> bool
    ensures { result ≡ leads work.entry }
{
    matches!(
        work,
        Continuation::Throw
            | Continuation::Return
            | Continuation::Callee(_)
            | Continuation::Constructor(_)
            | Continuation::Switched(_, _)
            | Continuation::Compared(_, _)
            | Continuation::Falls(_, _)
            | Continuation::EndCall(_, _)
            | Continuation::EndNew(_, _)
            | Continuation::EndBlock(_, _)
            | Continuation::EndHandler(_, _, _)
            | Continuation::EndLast(_)
    )
}

/// A continuation that needs the stack alone.
#[inline(always)]
fn go_on_alone<'p, T: Copy>(
    stack: &mut Stack<'p, T>,
    work: Continuation<'p>,
) -> Result<Control<'p>, OutOfMemory>
    requires acts { acts work ≡ false }
    requires scoped { scoped work ≡ false }
    requires leads { leads work ≡ false }
    requires obeys { raises work ≡ false }
    requires asks { answers work ≡ false }
    requires loose { length stack.old.loose ≡ owns work + awaits work }
    ensures goes_on { IfOk result (GoesAlone work.entry stack.old stack.new) }
    ensures keeps { IfOk result (Keeps (used_of work.entry stack.old) stack.new) }
    ensures adds { IfOk result (Adds (weight work.entry + 5) stack.old stack.new) }
{
    match work {
        Continuation::BinaryRight(operator, right) => binary_right(stack, operator, right),
        Continuation::InstanceRight(right) => instance_right(stack, right),
        Continuation::CommaRight(right) => Ok(comma_right(stack, right)),
        Continuation::Argument(function, count, rest) => more_arguments(
            stack, function, count, rest,
        ),
        Continuation::Property(list, count) => more_properties(stack, list, count),
        Continuation::Item(list, place, count) => more_items(stack, list, place, count),
        Continuation::IndexBase(how, index) => index_base(stack, how, index),
        Continuation::CompoundRight(operator, right, target) => {
            compound_right(stack, operator, right, target)
        }
        Continuation::CalledBy(list) => called_by(stack, list),
        Continuation::GiveBehind => Ok(give_behind(stack)),
        Continuation::VisitBody(body) => Ok(visit_body(stack, body)),
        Continuation::Visited(enumeration, count) => Ok(visited(stack, enumeration, count)),
        Continuation::Discard => Ok(discard(stack)),
        Continuation::Statements(rest) => more_statements(stack, rest),
        Continuation::Looped(round) => Ok(looped(stack, round)),
        Continuation::Declared(round) => Ok(declared(stack, round)),
        Continuation::Updated(round) => updated(stack, round),
        Continuation::Turned(round) => turned(stack, round),
        _ => unreachable!(),
    }
}

/// A continuation that enters, raises or leaves a frame.
#[inline(always)]
fn go_on_in_frames<'p, L: Labels>(
    labels: &mut L,
    frames: &mut Frames<L::Label>,
    stack: &mut Stack<'p, L::Label>,
    work: Continuation<'p>,
) -> Result<Control<'p>, OutOfMemory>
    requires scoped { scoped work ≡ true }
    requires loose { length stack.old.loose ≡ owns work + awaits work }
    requires made { All (HasValue (L.made labels.old)) stack.old.loose }
    requires ends { (depth : ℕ) → scope_of work ≡ depth ∷ [] → length frames.old.frames ≡ depth + 1 }
    requires inner { (depth : ℕ) → scope_of work ≡ depth ∷ [] → 0 < depth }
    requires belongs { Belong L.made L.meaning labels.old frames.old.frames }
    ensures goes_on { IfOk result (GoesIn L.made L.meaning labels.new work.entry stack.old stack.new frames.old.frames frames.new.frames) }
    ensures leaves { IfOk result (LeavesIn work.entry stack.old stack.new frames.old.frames frames.new.frames) }
    ensures still { StillIn work.entry frames.old.frames frames.new.frames }
    ensures made { IfOk result (λ _. MadeIn (L.made labels.new) work.entry stack.new.loose) }
    ensures adds { IfOk result (Adds (weight work.entry + 5) stack.old stack.new) }
    ensures belongs { Belong L.made L.meaning labels.new frames.new.frames }
    ensures kept { IsKept L.made L.meaning L.room L.firm labels.old labels.new }
{
    match work {
        Continuation::AndRight(right) => and_right(labels, frames, stack, right),
        Continuation::OrRight(right) => or_right(labels, frames, stack, right),
        Continuation::Choose(then, other) => choose_expr(labels, frames, stack, then, other),
        Continuation::ChooseStmt(then) => choose_stmt(labels, frames, stack, then),
        Continuation::ChooseStmts(then, other) => choose_stmts(labels, frames, stack, then, other),
        Continuation::Tested(round) => tested(labels, frames, stack, round),
        Continuation::Enumerated(enumeration) => begin_enumeration(
            labels,
            frames,
            stack,
            enumeration,
        ),
        Continuation::EndBranch(true, depth) => end_branch_value(labels, frames, stack, depth),
        Continuation::EndBranch(false, depth) => Ok(end_branch(labels, frames, stack, depth)),
        Continuation::EndRound(_, depth, _) => Ok(end_round(labels, frames, stack, depth)),
        Continuation::EndLabel(depth, _) => Ok(end_round(labels, frames, stack, depth)),
        Continuation::EndTry(depth) => Ok(end_round(labels, frames, stack, depth)),
        _ => unreachable!(),
    }
}

/// A continuation that acts on the run's state.
#[inline(always)]
fn act<'p, L: Labels>(
    alloc: Global,
    labels: &mut L,
    world: &mut World<L::Label>,
    stack: &mut Stack<'p, L::Label>,
    work: Continuation<'p>,
) -> Result<Control<'p>, FlowFault<L::Label>>
    requires acts { acts work ≡ true }
    requires loose { length stack.old.loose ≡ owns work + awaits work }
    requires made { All (HasValue (L.made labels.old)) stack.old.loose }
    requires records { 0 < length world.old.records }
    requires belongs { Belongs L.made L.meaning labels.old world.old }
    ensures goes_on { GoesActing L.made L.meaning labels.new work.entry stack.old stack.new world.old world.new result }
    ensures moved { IfOk result (Moved (L.made labels.new) (weight work.entry + 5) stack.old stack.new world.old world.new) }
    ensures stopped { IfErr result (IfStop (HasStop (L.made labels.new))) }
    ensures belongs { Belongs L.made L.meaning labels.new world.new }
    ensures grows { Grows world.old world.new }
    ensures kept { IsKept L.made L.meaning L.room L.firm labels.old labels.new }
{
    match work {
        Continuation::AssignTo(target) => assigned(alloc, labels, world, stack, target),
        Continuation::Variable(target, rest) => {
            give_variables(alloc, labels, world, stack, target, rest)
        }
        Continuation::VariablesBehind(rest) => declare_behind(labels, world, stack, rest),
        Continuation::MemberBase(how, name) => member(alloc, labels, world, stack, how, name),
        Continuation::IndexKey(how) => index_key(alloc, labels, world, stack, how),
        Continuation::KeyOf(how) => key_of(alloc, labels, world, stack, how),
        other => act_by_operator(alloc, labels, world, stack, other),
    }
}

/// A variable of the record that is there gets its value, and those behind it follow.
fn give_variables<'p, L: Labels>(
    alloc: Global,
    labels: &mut L,
    world: &mut World<L::Label>,
    stack: &mut Stack<'p, L::Label>,
    target: Target<'p>,
    rest: &'p [Declaration],
) -> Result<Control<'p>, FlowFault<L::Label>>
    requires loose { length stack.old.loose ≡ owns_target target + 1 }
    requires made { All (HasValue (L.made labels.old)) stack.old.loose }
    requires belongs { Belongs L.made L.meaning labels.old world.old }
    ensures goes_on { GoesActing L.made L.meaning labels.new (continuations.Variable target.entry rest.entry) stack.old stack.new world.old world.new result }
    ensures moved { IfOk result (Moved (L.made labels.new) 11 stack.old stack.new world.old world.new) }
    ensures stopped { IfErr result (IfStop (HasStop (L.made labels.new))) }
    ensures belongs { Belongs L.made L.meaning labels.new world.new }
    ensures grows { Grows world.old world.new }
    ensures kept { IsKept L.made L.meaning L.room L.firm labels.old labels.new }
{
    match present(world, stack) {
        Ok(place) => more_variables(alloc, labels, world, stack, place, target, rest),
        Err(OutOfMemory) => Err(FlowFault::OutOfMemory),
    }
}

/// Behind a variable's setter those behind it follow, in the record that is there.
fn declare_behind<'p, L: Labels>(
    labels: &mut L,
    world: &World<L::Label>,
    stack: &mut Stack<'p, L::Label>,
    rest: &'p [Declaration],
) -> Result<Control<'p>, FlowFault<L::Label>>
    requires loose { length stack.old.loose ≡ 1 }
    requires belongs { Belongs L.made L.meaning labels.old world.now }
    ensures goes_on { GoesActing L.made L.meaning labels.new (continuations.VariablesBehind rest.entry) stack.old stack.new world.now world.now result }
    ensures moved { IfOk result (Moved (L.made labels.new) 6 stack.old stack.new world.now world.now) }
    ensures stopped { IfErr result (IfStop (HasStop (L.made labels.new))) }
    ensures belongs { Belongs L.made L.meaning labels.new world.now }
    ensures kept { IsKept L.made L.meaning L.room L.firm labels.old labels.new }
{
    match present(world, stack) {
        Ok(place) => variables_behind(labels, world, stack, place, rest),
        Err(OutOfMemory) => Err(FlowFault::OutOfMemory),
    }
}

/// Continuations of an operator, as work that acts.
#[inline(always)]
fn act_by_operator<'p, L: Labels>(
    alloc: Global,
    labels: &mut L,
    world: &mut World<L::Label>,
    stack: &mut Stack<'p, L::Label>,
    work: Continuation<'p>,
) -> Result<Control<'p>, FlowFault<L::Label>>
    requires operates { operates work ≡ true }
    requires loose { length stack.old.loose ≡ owns work + awaits work }
    requires made { All (HasValue (L.made labels.old)) stack.old.loose }
    requires belongs { Belongs L.made L.meaning labels.old world.old }
    ensures goes_on { GoesActing L.made L.meaning labels.new work.entry stack.old stack.new world.old world.new result }
    ensures moved { IfOk result (Moved (L.made labels.new) (weight work.entry + 5) stack.old stack.new world.old world.new) }
    ensures stopped { IfErr result (IfStop (HasStop (L.made labels.new))) }
    ensures belongs { Belongs L.made L.meaning labels.new world.new }
    ensures grows { Grows world.old world.new }
    ensures kept { IsKept L.made L.meaning L.room L.firm labels.old labels.new }
{
    operate(alloc, labels, world, stack, work)
}

/// Continuations of an operator.
#[inline(always)]
fn operate<'p, L: Labels>(
    alloc: Global,
    labels: &mut L,
    world: &mut World<L::Label>,
    stack: &mut Stack<'p, L::Label>,
    work: Continuation<'p>,
) -> Result<Control<'p>, FlowFault<L::Label>>
    requires operates { operates work ≡ true }
    requires loose { length stack.old.loose ≡ owns work + awaits work }
    requires made { All (HasValue (L.made labels.old)) stack.old.loose }
    requires belongs { Belongs L.made L.meaning labels.old world.old }
    ensures goes_on { Resumed L.made L.meaning labels.new work.entry stack.old stack.new world.old world.new result }
    ensures moved { IfOk result (Moved (L.made labels.new) (weight work.entry + 5) stack.old stack.new world.old world.new) }
    ensures stopped { IfErr result (IfStop (HasStop (L.made labels.new))) }
    ensures belongs { Belongs L.made L.meaning labels.new world.new }
    ensures grows { Grows world.old world.new }
    ensures kept { IsKept L.made L.meaning L.room L.firm labels.old labels.new }
{
    match work {
        Continuation::Unary(operator) => unary_done(alloc, labels, world, stack, operator),
        Continuation::UnaryConverted(operator) => unary_converted(
            alloc, labels, world, stack, operator,
        ),
        Continuation::BinaryDone(operator) => binary_done(alloc, labels, world, stack, operator),
        Continuation::ConvertedLeft(operator) => left_converted(
            alloc, labels, world, stack, operator,
        ),
        Continuation::Operate(operator) => operate_converted(alloc, labels, world, stack, operator),
        Continuation::KeyHas => key_has(alloc, labels, world, stack),
        Continuation::CompoundDone(operator, target) => {
            compound_done(alloc, labels, world, stack, operator, target)
        }
        Continuation::Counted(how, operator, target) => {
            let next = counted(labels, world, stack, how, operator, target)?;
            Ok(next)
        }
        Continuation::CountedNumber(how, operator, target) => {
            counted_number(alloc, labels, world, stack, how, operator, target)
        }
        Continuation::InstanceDone => instance_done(alloc, labels, world, stack),
        Continuation::InstanceTest => instance_test(labels, world, stack),
        Continuation::LengthOnce(how) => {
            let next = length_once(alloc, labels, world, stack, how)?;
            Ok(next)
        }
        Continuation::LengthTwice(how) => length_twice(alloc, labels, world, stack, how),
        _ => unreachable!(),
    }
}

/// Continuations of a jump, a call, a `switch` or a `try` statement.
#[inline(always)]
fn lead_on<'p, L: Labels>(
    alloc: Global,
    labels: &mut L,
    world: &mut World<L::Label>,
    stack: &mut Stack<'p, L::Label>,
    work: Continuation<'p>,
) -> Result<Control<'p>, FlowFault<L::Label>>
    requires leads { leads work ≡ true }
    requires standing { Invariant L.made L.meaning labels.old stack.old world.old (owns work + awaits work) (scopes_of stack.old.tasks ++ scope_of work) (waiting stack.old.tasks) control.Value }
    ensures resumes { (tables : Tables) (inputs : Given) (set : BuiltIns) (functions : List FunctionCode) (natives : List Steps) → Resumes L.made L.meaning labels.new tables inputs set functions work.entry natives natives stack.old stack.new world.old world.new result }
    ensures standing { IfOk result (StandsStill L.made L.meaning labels.new (waiting stack.old.tasks) stack.new world.new) }
    ensures adds { IfOk result (Adds (weight work.entry + 5) stack.old stack.new) }
    ensures stopped { IfErr result (IfStop (HasStop (L.made labels.new))) }
    ensures grows { Grows world.old world.new }
    ensures kept { IsKept L.made L.meaning L.room L.firm labels.old labels.new }
{
    match work {
        Continuation::Throw => throw_value(labels, world, stack),
        Continuation::Return => {
            let to = stack.call();
            return_value(labels, world, stack, to)
        }
        Continuation::Callee(args) => callee(labels, world, stack, args),
        Continuation::Constructor(args) => constructor(labels, world, stack, args),
        Continuation::Switched(of, clauses) => switched(labels, world, stack, of, clauses),
        Continuation::Compared(clauses, number) => compared(labels, world, stack, clauses, number),
        Continuation::Falls(clauses, number) => falls(labels, world, stack, clauses, number),
        Continuation::EndCall(own, depth) => end_call(labels, world, stack, own, depth),
        Continuation::EndNew(own, depth) => end_construction(labels, world, stack, own, depth),
        Continuation::EndBlock(s, depth) => end_block(labels, world, stack, s, depth),
        Continuation::EndHandler(s, own, depth) => end_handler(labels, world, stack, s, own, depth),
        Continuation::EndLast(waiting) => end_last(labels, world, stack, waiting),
        _ => unreachable!(),
    }
}

/// A directive is obeyed behind its expression, of which the value is of no use.
#[inline(always)]
pub(crate) fn raise_on<'p, L: Labels>(
    alloc: Global,
    labels: &mut L,
    policy: &Policy,
    world: &mut World<L::Label>,
    stack: &mut Stack<'p, L::Label>,
    e: &'p Expr,
    gave: bool,
) -> Result<Control<'p>, FlowFault<L::Label>>
    requires standing { Invariant L.made L.meaning labels.old stack.old world.old (given gave) (scopes_of stack.old.tasks) (waiting stack.old.tasks) control.Value }
    requires room { length policy.now.origins ≤ L.room labels.old }
    ensures resumes { (inputs : Given) (set : BuiltIns) (functions : List FunctionCode) (natives : List Steps) → Resumes L.made L.meaning labels.new policy.now inputs set functions (continuations.Raise e.entry) natives natives stack.old stack.new world.old world.new result }
    ensures standing { IfOk result (StandsStill L.made L.meaning labels.new (waiting stack.old.tasks) stack.new world.new) }
    ensures adds { IfOk result (Adds 6 stack.old stack.new) }
    ensures stopped { IfErr result (IfStop (HasStop (L.made labels.new))) }
    ensures grows { Grows world.old world.new }
    ensures kept { IsKept L.made L.meaning L.room L.firm labels.old labels.new }
{
    prepare(labels, stack, Continuation::Raise(e), gave)?;
    let to = aim_of(stack, e);
    raise_by(alloc, labels, world, stack, policy, e, to)
}

/// The depth of the frame to which the jump goes of which a directive speaks.
#[inline(always)]
fn aim_of<'p, T: Copy>(stack: &Stack<'p, T>, e: &Expr) -> Option<usize>
    ensures { (upgrade : Upgrade) → upgrade_of (view_expr e.now) ≡ Some upgrade → result ≡ option_map (λ f. f.1) (aimed 0 upgrade.leaving (env_above stack.now.tasks here)) }
{
    let directive = directive_of(e)?;
    match directive.leaving {
        Spoken::Thrown => Some(0),
        Spoken::Returned => Some(stack.call()),
        Spoken::Left(turn, label) => {
            let (_, depth) = stack.reached(turn, label)?;
            Some(depth)
        }
    }
}
