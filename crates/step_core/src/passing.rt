//! A continuation that a jump passes, and the ends of scopes that it reaches.

ghost use Rattle.std.specs.Prelude.{◌≡◌, ◌+◌, ◌++◌, [], ◌∷◌, ℕ, Bool, Ok, false, true, IfErr, IfOk, drop, List};
ghost use Rattle.std.specs.Borrow.{Bor};
ghost use Rattle.origin_labels.specs.Label.{Label};
ghost use Rattle.origin_labels.specs.Stores.{IsKept};
ghost use Rattle.flow_frames.specs.Stops.{IfStop};
ghost use Rattle.flow_policy.specs.Policies.{Tables};
ghost use Rattle.flow_policy.specs.Inputs.{Given};
ghost use Rattle.js_ast.specs.Functions.{FunctionCode};
ghost use Rattle.native_protocol.specs.Steps.{Steps};
ghost use Rattle.es_meaning.specs.BuiltIns.{BuiltIns};
ghost use Rattle.js_ast.specs.declared.trees.Stmt.{Stmt};
ghost use Rattle.js_values.specs.declared.value.Labelled.{Labelled};
ghost use Rattle.run_state.specs.Worlds.{Grows};
ghost use Rattle.continuations.specs.declared.continuation.Continuation.TheVariants as continuations;
ghost use Rattle.continuations.specs.declared.continuation.Control.TheVariants as control;
ghost use Rattle.continuations.specs.Going.{Passes};
ghost use Rattle.step_core.specs.Going.{StandsStill};
ghost use Rattle.continuations.specs.Kept.{may_stay, scope_of, scopes_of, waiting};
ghost use Rattle.continuations.specs.Loads.{Adds, weight};
ghost use Rattle.continuations.specs.Pending.{owns, values_of};
ghost use Rattle.continuations.specs.Invariant.{Invariant};
ghost use Rattle.continuations.specs.Stops.{HasStop};

use crate::entering::present;
use continuations::{Continuation, Control, Jump, Stack};
use flow_frames::FlowFault;
use js_ast::Stmt;
use origin_labels::Labels;
use run_state::World;
use std::alloc::Global;
use step_control::{pass, pass_branch, pass_round};
use step_jumps::{pass_block, pass_call, pass_construction, pass_handler};

/// A jump, whose value lies above the operands of work that was taken, passes it, or comes to the end of the scope that it was to reach.
#[inline(always)]
pub(crate) fn pass_work<'p, L: Labels>(
    alloc: Global,
    labels: &mut L,
    world: &mut World<L::Label>,
    stack: &mut Stack<'p, L::Label>,
    jump: Jump,
    work: Continuation<'p>,
) -> Result<Control<'p>, FlowFault<L::Label>>
    requires standing { Invariant L.made L.meaning labels.old stack.old world.old (owns work + 1) (scopes_of stack.old.tasks ++ scope_of work) (waiting stack.old.tasks) (control.Jumps jump) }
    ensures passes { (tables : Tables) (inputs : Given) (set : BuiltIns) (functions : List FunctionCode) (natives : List Steps) (value : Labelled L.Label) → drop (owns work.entry) stack.old.loose ≡ value ∷ [] → Passes L.made L.meaning labels.new tables inputs set functions jump work.entry value natives natives stack.old stack.new world.old world.new result }
    ensures standing { IfOk result (StandsStill L.made L.meaning labels.new (waiting stack.old.tasks) stack.new world.new) }
    ensures adds { IfOk result (Adds (weight work.entry + 5) stack.old stack.new) }
    ensures stopped { IfErr result (IfStop (HasStop (L.made labels.new))) }
    ensures grows { Grows world.old world.new }
    ensures kept { IsKept L.made L.meaning L.room L.firm labels.old labels.new }
{
    match work {
        Continuation::EndBranch(gives, depth) => end_branch_by(
            labels, world, stack, jump, gives, depth,
        ),
        Continuation::EndRound(_, depth, _)
        | Continuation::EndLabel(depth, _)
        | Continuation::EndTry(depth) => { Ok(end_round_by(labels, world, stack, jump, depth)) }
        Continuation::EndBlock(s, depth) => end_block_by(
            alloc, labels, world, stack, jump, s, depth,
        ),
        Continuation::EndHandler(s, own, depth) => pass_handler(
            labels, world, stack, jump, s, own, depth,
        ),
        Continuation::EndCall(own, depth) => pass_call(labels, world, stack, jump, own, depth),
        Continuation::EndNew(own, depth) => pass_construction(
            labels, world, stack, jump, own, depth,
        ),
        other => pass_by(labels, world, stack, jump, other),
    }
}

/// It passes work without a frame of its own.
#[inline(always)]
pub(crate) fn pass_by<'p, L: Labels>(
    _labels: &L,
    _world: &World<L::Label>,
    stack: &mut Stack<'p, L::Label>,
    jump: Jump,
    work: Continuation<'p>,
) -> Result<Control<'p>, FlowFault<L::Label>>
    requires standing { Invariant L.made L.meaning _labels.now stack.old _world.now (owns work + 1) (scopes_of stack.old.tasks ++ scope_of work) (waiting stack.old.tasks) (control.Jumps jump) }
    requires scope { scope_of work ≡ [] }
    requires passes { may_stay work ≡ false }
    ensures passes { (tables : Tables) (inputs : Given) (set : BuiltIns) (functions : List FunctionCode) (natives : List Steps) (value : Labelled L.Label) → drop (owns work.entry) stack.old.loose ≡ value ∷ [] → Passes L.made L.meaning _labels.now tables inputs set functions jump work.entry value natives natives stack.old stack.new _world.now _world.now result }
    ensures standing { IfOk result (StandsStill L.made L.meaning _labels.now (waiting stack.old.tasks) stack.new _world.now) }
    ensures adds { IfOk result (Adds (weight work.entry + 5) stack.old stack.new) }
    ensures stopped { IfErr result (IfStop (HasStop (L.made _labels.now))) }
{
    let next = pass(stack, jump, work)?;
    Ok(next)
}

/// It comes to the end of a branch.
#[inline(always)]
fn end_branch_by<'p, L: Labels>(
    labels: &L,
    world: &mut World<L::Label>,
    stack: &mut Stack<'p, L::Label>,
    jump: Jump,
    gives: bool,
    depth: usize,
) -> Result<Control<'p>, FlowFault<L::Label>>
    requires standing { Invariant L.made L.meaning labels.now stack.old world.old 1 (scopes_of stack.old.tasks ++ depth ∷ []) (waiting stack.old.tasks) (control.Jumps jump) }
    ensures passes { (tables : Tables) (inputs : Given) (set : BuiltIns) (functions : List FunctionCode) (natives : List Steps) (value : Labelled L.Label) → stack.old.loose ≡ value ∷ [] → Passes L.made L.meaning labels.now tables inputs set functions jump (continuations.EndBranch gives depth) value natives natives stack.old stack.new world.old world.new result }
    ensures standing { IfOk result (StandsStill L.made L.meaning labels.now (waiting stack.old.tasks) stack.new world.new) }
    ensures adds { IfOk result (Adds 6 stack.old stack.new) }
    ensures stopped { IfErr result (IfStop (HasStop (L.made labels.now))) }
    ensures grows { Grows world.old world.new }
{
    let next = pass_branch(labels, &mut world.frames, stack, jump, gives, depth)?;
    let _depth = world.frames.len();
    Ok(next)
}

/// It comes to the end of a loop, of a turn, of a `switch`, of a labelled statement or of a `try` statement.
#[inline(always)]
fn end_round_by<'p, L: Labels>(
    labels: &L,
    world: &mut World<L::Label>,
    stack: &mut Stack<'p, L::Label>,
    jump: Jump,
    depth: usize,
) -> Control<'p>
    requires standing { Invariant L.made L.meaning labels.now stack.old world.old 1 (scopes_of stack.old.tasks ++ depth ∷ []) (waiting stack.old.tasks) (control.Jumps jump) }
    ensures round { (tables : Tables) (inputs : Given) (set : BuiltIns) (functions : List FunctionCode) (natives : List Steps) (value : Labelled L.Label) → stack.old.loose ≡ value ∷ [] → (turn : Bool) (of : Bor Stmt) → Passes L.made L.meaning labels.now tables inputs set functions jump (continuations.EndRound turn depth of) value natives natives stack.old stack.new world.old world.new (Ok result) }
    ensures label { (tables : Tables) (inputs : Given) (set : BuiltIns) (functions : List FunctionCode) (natives : List Steps) (value : Labelled L.Label) → stack.old.loose ≡ value ∷ [] → (text : Bor (List ℕ)) → Passes L.made L.meaning labels.now tables inputs set functions jump (continuations.EndLabel depth text) value natives natives stack.old stack.new world.old world.new (Ok result) }
    ensures tried { (tables : Tables) (inputs : Given) (set : BuiltIns) (functions : List FunctionCode) (natives : List Steps) (value : Labelled L.Label) → stack.old.loose ≡ value ∷ [] → Passes L.made L.meaning labels.now tables inputs set functions jump (continuations.EndTry depth) value natives natives stack.old stack.new world.old world.new (Ok result) }
    ensures standing { StandsStill L.made L.meaning labels.now (waiting stack.old.tasks) stack.new world.new result }
    ensures adds { Adds 6 stack.old stack.new result }
    ensures grows { Grows world.old world.new }
{
    let next = pass_round(labels, &mut world.frames, stack, jump, depth);
    let _depth = world.frames.len();
    next
}

/// It comes to the end of the block of a `try` statement.
#[inline(always)]
fn end_block_by<'p, L: Labels>(
    alloc: Global,
    labels: &mut L,
    world: &mut World<L::Label>,
    stack: &mut Stack<'p, L::Label>,
    jump: Jump,
    s: &'p Stmt,
    depth: usize,
) -> Result<Control<'p>, FlowFault<L::Label>>
    requires standing { Invariant L.made L.meaning labels.old stack.old world.old 1 (scopes_of stack.old.tasks) (waiting stack.old.tasks) (control.Jumps jump) }
    ensures passes { (tables : Tables) (inputs : Given) (set : BuiltIns) (functions : List FunctionCode) (natives : List Steps) (value : Labelled L.Label) → stack.old.loose ≡ value ∷ [] → Passes L.made L.meaning labels.new tables inputs set functions jump (continuations.EndBlock s.entry depth) value natives natives stack.old stack.new world.old world.new result }
    ensures standing { IfOk result (StandsStill L.made L.meaning labels.new (waiting stack.old.tasks) stack.new world.new) }
    ensures adds { IfOk result (Adds 8 stack.old stack.new) }
    ensures stopped { IfErr result (IfStop (HasStop (L.made labels.new))) }
    ensures grows { Grows world.old world.new }
    ensures kept { IsKept L.made L.meaning L.room L.firm labels.old labels.new }
{
    let place = present(world, stack)?;
    pass_block(alloc, labels, world, stack, place, jump, s, depth)
}
