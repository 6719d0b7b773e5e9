//! `try` statements (ECMA-262 12.14): the block, the handler and what is done last, all in one frame.

ghost use Rattle.std.specs.Prelude.{◌≡◌, ◌+◌, ◌++◌, ◌∷◌, [], List, Some, Ok, true, length, drop, IfErr, IfOk, OnOk};
ghost use Rattle.origin_labels.specs.Label.{Label};
ghost use Rattle.origin_labels.specs.Stores.{IsKept};
ghost use Rattle.flow_policy.specs.Policies.{Tables};
ghost use Rattle.flow_policy.specs.Inputs.{Given};
ghost use Rattle.flow_frames.specs.Held.{Belong, CatchByTry};
ghost use Rattle.flow_frames.specs.Stops.{IfStop};
ghost use Rattle.js_ast.specs.Functions.{FunctionCode};
ghost use Rattle.js_ast.specs.Views.{view_block, view_ident, view_stmt};
ghost use Rattle.js_values.specs.declared.value.Labelled.{Labelled as LabelledOf};
ghost use Rattle.es_meaning.specs.Evaluation.{stmt_step};
ghost use Rattle.es_meaning.specs.Environments.{with_place};
ghost use Rattle.es_meaning.specs.Operations.{One};
ghost use Rattle.es_meaning.specs.Outcomes.{ret};
ghost use Rattle.es_meaning.specs.Plain.{choose, undefined};
ghost use Rattle.es_meaning.specs.BuiltIns.{BuiltIns};
ghost use Rattle.flow_meaning.specs.Erased.{unlabelled};
ghost use Rattle.flow_meaning.specs.Planned.{and_plan, as_plan, asking, end_handler as end_handler_meant, end_last as end_last_meant, gave, planned, Give};
ghost use Rattle.flow_meaning.specs.Scopes.{State, quiet};
ghost use Rattle.run_state.specs.Worlds.{Belongs, Grows};
ghost use Rattle.continuations.specs.declared.continuation.Control.TheVariants as control;
ghost use Rattle.continuations.specs.declared.continuation.Continuation.TheVariants as continuation;
ghost use Rattle.continuations.specs.Going.{Begins as BeginsHere, Passes, Resumes, here};
ghost use Rattle.continuations.specs.Kept.{operands_of, scope_of, scopes_of, waiting as natives_waiting};
ghost use Rattle.continuations.specs.Loads.{Adds, weight};
ghost use Rattle.continuations.specs.Moving.{BeginsAt, BeginsWith};
ghost use Rattle.continuations.specs.Pending.{env_above, last_of, owns, owns_waiting, values_of};
ghost use Rattle.continuations.specs.Resuming.{BeginsBehind, Keeps, with_frames};
ghost use Rattle.continuations.specs.Shapes.{finishes as finishes_meant, waiting_of};
ghost use Rattle.continuations.specs.Invariant.{Invariant};
ghost use Rattle.continuations.specs.Stops.{HasStop};
ghost use Rattle.continuations.specs.Settings.{entrance};
ghost use Rattle.step_jumps.specs.Parts.{is_try, tried_in};
ghost use Rattle.step_jumps.specs.Trying.{EndsAt, StandsStill, block_plan, catching_plan, ending_plan, last_plan, reacting_plan, trying_plan};
ghost use Rattle.native_protocol.specs.Steps.{Steps};

use crate::again::jump_again;
use crate::parts::{caught, finishes, last, tried};
use crate::quieting::quiet_last;
use continuations::{Continuation, Control, Jump, Stack};
use flow_frames::{FlowFault, Frames, Kind};
use flow_text::OutOfMemory;
use function_entry::bind_name;
use js_ast::{Block, Ident, Stmt};
use js_values::EnvId;
use origin_labels::Labels;
use run_state::World;
use std::alloc::Global;

// ---- what is done last

/// The block that is done last, and behind it the jump that waits.
fn begin_last<'p, T: Copy>(
    stack: &mut Stack<'p, T>,
    block: &'p Block,
    waiting: Option<Jump>,
) -> Result<Control<'p>, OutOfMemory>
    requires { length stack.old.loose ≡ owns_waiting waiting }
    ensures goes_on { IfOk result (BeginsBehind (λ tables inputs set functions vs e s. and_plan (block_plan tables inputs set functions (view_block block.entry.now) e.env s) (end_last_meant (waiting_of waiting vs))) stack.old stack.new) }
    ensures keeps { IfOk result (Keeps stack.old stack.new) }
    ensures adds { IfOk result (Adds 7 stack.old stack.new) }
{
    stack.push(Continuation::EndLast(waiting))?;
    Ok(Control::Block(block))
}

/// Nothing is left to be done in the frame but the jump that waits, which is issued again.
fn leave<'p, L: Labels>(
    labels: &mut L,
    world: &mut World<L::Label>,
    stack: &mut Stack<'p, L::Label>,
    waiting: Option<Jump>,
) -> Result<Control<'p>, FlowFault<L::Label>>
    requires standing { Invariant L.made L.meaning labels.old stack.old world.old (owns_waiting waiting) (scopes_of stack.old.tasks) (natives_waiting stack.old.tasks) control.Value }
    ensures begins { BeginsWith L.made L.meaning labels.new (ending_plan waiting stack.old.loose) stack.old stack.new world.old world.new result }
    ensures standing { IfOk result (λ move. Invariant L.made L.meaning labels.new stack.new world.new (values_of move) (scopes_of stack.new.tasks) (natives_waiting stack.old.tasks) move) }
    ensures adds { IfOk result (Adds 6 stack.old stack.new) }
    ensures stopped { IfErr result (IfStop (HasStop (L.made labels.new))) }
    ensures grows { Grows world.old world.new }
    ensures kept { IsKept L.made L.meaning L.room L.firm labels.old labels.new }
{
    let _waiting = &*stack;
    match waiting {
        None => Ok(Control::Done),
        Some(jump) => {
            jump_again(labels, &mut world.frames, jump)?;
            Ok(Control::Jumps(jump))
        }
    }
}

/// The frame catches no longer, and what is done last is done.
fn finish<'p, L: Labels>(
    labels: &mut L,
    world: &mut World<L::Label>,
    stack: &mut Stack<'p, L::Label>,
    s: &'p Stmt,
    waiting: Option<Jump>,
) -> Result<Control<'p>, FlowFault<L::Label>>
    requires standing { Invariant L.made L.meaning labels.old stack.old world.old (owns_waiting waiting) (scopes_of stack.old.tasks) (natives_waiting stack.old.tasks) control.Value }
    ensures begins { BeginsWith L.made L.meaning labels.new (last_plan (view_stmt s.entry.now) waiting stack.old.loose) stack.old stack.new world.old world.new result }
    ensures standing { IfOk result (StandsStill L.made L.meaning labels.new (natives_waiting stack.old.tasks) stack.new world.new) }
    ensures adds { IfOk result (Adds 7 stack.old stack.new) }
    ensures stopped { IfErr result (IfStop (HasStop (L.made labels.new))) }
    ensures grows { Grows world.old world.new }
    ensures kept { IsKept L.made L.meaning L.room L.firm labels.old labels.new }
{
    quiet_last(labels, &mut world.frames);
    match last(s) {
        Some(block) => {
            let next = begin_last(stack, block, waiting)?;
            Ok(next)
        }
        None => leave(labels, world, stack, waiting),
    }
}

/// What is done last is over: the jump that waited is issued again, if one did.
pub fn end_last<'p, L: Labels>(
    labels: &mut L,
    world: &mut World<L::Label>,
    stack: &mut Stack<'p, L::Label>,
    waiting: Option<Jump>,
) -> Result<Control<'p>, FlowFault<L::Label>>
    requires standing { Invariant L.made L.meaning labels.old stack.old world.old (owns (continuation.EndLast waiting)) (scopes_of stack.old.tasks ++ scope_of (continuation.EndLast waiting)) (natives_waiting stack.old.tasks) control.Value }
    ensures resumes { (tables : Tables) (inputs : Given) (set : BuiltIns) (functions : List FunctionCode) (natives : List Steps) → Resumes L.made L.meaning labels.new tables inputs set functions (continuation.EndLast waiting) natives natives stack.old stack.new world.old world.new result }
    ensures standing { IfOk result (λ move. Invariant L.made L.meaning labels.new stack.new world.new (values_of move) (scopes_of stack.new.tasks) (natives_waiting stack.old.tasks) move) }
    ensures adds { IfOk result (Adds (weight (continuation.EndLast waiting) + 5) stack.old stack.new) }
    ensures stopped { IfErr result (IfStop (HasStop (L.made labels.new))) }
    ensures grows { Grows world.old world.new }
    ensures kept { IsKept L.made L.meaning L.room L.firm labels.old labels.new }
{
    leave(labels, world, stack, waiting)
}

// ---- the handler

/// The block of the handler, whose record was made.
fn begin_handler<'p, T: Copy>(
    stack: &mut Stack<'p, T>,
    s: &'p Stmt,
    own: EnvId,
    depth: usize,
    block: &'p Block,
) -> Result<Control<'p>, OutOfMemory>
    requires { length stack.old.loose ≡ 0 }
    ensures goes_on { IfOk result (BeginsBehind (λ tables inputs set functions vs e t. and_plan (block_plan tables inputs set functions (view_block block.entry.now) (with_place own.0 e.env) t) (end_handler_meant (finishes_meant (view_stmt s.entry.now)) (last_of tables inputs set functions (view_stmt s.entry.now) e.env) depth)) stack.old stack.new) }
    ensures keeps { IfOk result (Keeps stack.old stack.new) }
    ensures adds { IfOk result (Adds 8 stack.old stack.new) }
{
    stack.push(Continuation::EndHandler(s, own, depth))?;
    Ok(Control::Block(block))
}

/// What lies loose is caught: it has a name in the handler, in a record of its own.
fn catch_value<'p, L: Labels>(
    alloc: Global,
    labels: &mut L,
    world: &mut World<L::Label>,
    stack: &mut Stack<'p, L::Label>,
    place: EnvId,
    s: &'p Stmt,
    depth: usize,
    ident: &'p Ident,
    block: &'p Block,
) -> Result<Control<'p>, OutOfMemory>
    requires standing { Invariant L.made L.meaning labels.old stack.old world.old 1 (scopes_of stack.old.tasks) (natives_waiting stack.old.tasks) control.Value }
    ensures begins { IfOk result (λ move. BeginsAt L.made L.meaning labels.new place.0 (catching_plan (view_stmt s.entry.now) depth (view_ident ident.entry.now) (view_block block.entry.now) stack.old.loose) stack.old stack.new world.old world.new (Ok move)) }
    ensures standing { IfOk result (StandsStill L.made L.meaning labels.new (natives_waiting stack.old.tasks) stack.new world.new) }
    ensures adds { IfOk result (Adds 8 stack.old stack.new) }
    ensures grows { Grows world.old world.new }
    ensures kept { IsKept L.made L.meaning L.room L.firm labels.old labels.new }
{
    let value = stack.pop();
    let own = bind_name(alloc, labels, world, place, &ident.text, value)?;
    begin_handler(stack, s, own, depth, block)
}

/// The frame catches no longer, unless something is done last.
fn quiet_unless<L: Labels>(labels: &L, frames: &mut Frames<L::Label>, stays: bool)
    requires { Belong L.made L.meaning labels.now frames.old.frames }
    ensures quiets { (reading : L.Label → Label) (t : State) → as_plan One (choose stays (ret tt) quiet (with_frames reading frames.old.frames t)) ≡ Give (gave (unlabelled undefined)) (with_frames reading frames.new.frames t) }
    ensures length { length frames.new.frames ≡ length frames.old.frames }
    ensures belongs { Belong L.made L.meaning labels.now frames.new.frames }
    ensures catch { CatchByTry frames.new.frames }
{
    let _all = frames.len();
    if stays {
        return;
    }
    quiet_last(labels, frames);
}

/// A jump has reached the block: what is thrown is handled, if there is a handler, and else what is done last is done.
fn react<'p, L: Labels>(
    alloc: Global,
    labels: &mut L,
    world: &mut World<L::Label>,
    stack: &mut Stack<'p, L::Label>,
    place: EnvId,
    jump: Jump,
    s: &'p Stmt,
    depth: usize,
) -> Result<Control<'p>, FlowFault<L::Label>>
    requires standing { Invariant L.made L.meaning labels.old stack.old world.old 1 (scopes_of stack.old.tasks) (natives_waiting stack.old.tasks) control.Value }
    ensures begins { BeginsAt L.made L.meaning labels.new place.0 (reacting_plan (view_stmt s.entry.now) depth jump stack.old.loose) stack.old stack.new world.old world.new result }
    ensures standing { IfOk result (StandsStill L.made L.meaning labels.new (natives_waiting stack.old.tasks) stack.new world.new) }
    ensures adds { IfOk result (Adds 8 stack.old stack.new) }
    ensures stopped { IfErr result (IfStop (HasStop (L.made labels.new))) }
    ensures grows { Grows world.old world.new }
    ensures kept { IsKept L.made L.meaning L.room L.firm labels.old labels.new }
{
    match caught(jump, s) {
        Some((ident, block)) => {
            quiet_unless(labels, &mut world.frames, finishes(s));
            let next = catch_value(alloc, labels, world, stack, place, s, depth, ident, block)?;
            Ok(next)
        }
        None => finish(labels, world, stack, s, Some(jump)),
    }
}

// ---- the ends of the block and of the handler

/// Whether the scope that ends next is that of the `try` statement in the frame at this depth. No invariant of the stack says so yet.
fn stands_at<'p, T: Copy>(stack: &mut Stack<'p, T>, depth: usize) -> Result<(), OutOfMemory>
    requires { length stack.old.loose ≡ 1 }
    ensures same { OnOk result (stack.new ≡ stack.old) }
    ensures last { OnOk result (EndsAt depth (scopes_of stack.old.tasks)) }
{
    let value = stack.pop();
    let Some(work) = stack.next_work() else {
        return Err(OutOfMemory);
    };
    let Continuation::EndTry(at) = work else {
        return Err(OutOfMemory);
    };
    if at != depth {
        return Err(OutOfMemory);
    }
    stack.push(Continuation::EndTry(at))?;
    stack.lay(value)?;
    Ok(())
}

/// The block is over, by its end.
pub fn end_block<'p, L: Labels>(
    labels: &mut L,
    world: &mut World<L::Label>,
    stack: &mut Stack<'p, L::Label>,
    s: &'p Stmt,
    depth: usize,
) -> Result<Control<'p>, FlowFault<L::Label>>
    requires standing { Invariant L.made L.meaning labels.old stack.old world.old (owns (continuation.EndBlock s depth)) (scopes_of stack.old.tasks ++ scope_of (continuation.EndBlock s depth)) (natives_waiting stack.old.tasks) control.Value }
    ensures resumes { (tables : Tables) (inputs : Given) (set : BuiltIns) (functions : List FunctionCode) (natives : List Steps) → Resumes L.made L.meaning labels.new tables inputs set functions (continuation.EndBlock s.entry depth) natives natives stack.old stack.new world.old world.new result }
    ensures standing { IfOk result (StandsStill L.made L.meaning labels.new (natives_waiting stack.old.tasks) stack.new world.new) }
    ensures adds { IfOk result (Adds (weight (continuation.EndBlock s.entry depth) + 5) stack.old stack.new) }
    ensures stopped { IfErr result (IfStop (HasStop (L.made labels.new))) }
    ensures grows { Grows world.old world.new }
    ensures kept { IsKept L.made L.meaning L.room L.firm labels.old labels.new }
{
    let _depth = depth;
    finish(labels, world, stack, s, None)
}

/// The handler is over, by its end.
pub fn end_handler<'p, L: Labels>(
    labels: &mut L,
    world: &mut World<L::Label>,
    stack: &mut Stack<'p, L::Label>,
    s: &'p Stmt,
    own: EnvId,
    depth: usize,
) -> Result<Control<'p>, FlowFault<L::Label>>
    requires standing { Invariant L.made L.meaning labels.old stack.old world.old (owns (continuation.EndHandler s own depth)) (scopes_of stack.old.tasks ++ scope_of (continuation.EndHandler s own depth)) (natives_waiting stack.old.tasks) control.Value }
    ensures resumes { (tables : Tables) (inputs : Given) (set : BuiltIns) (functions : List FunctionCode) (natives : List Steps) → Resumes L.made L.meaning labels.new tables inputs set functions (continuation.EndHandler s.entry own depth) natives natives stack.old stack.new world.old world.new result }
    ensures standing { IfOk result (StandsStill L.made L.meaning labels.new (natives_waiting stack.old.tasks) stack.new world.new) }
    ensures adds { IfOk result (Adds (weight (continuation.EndHandler s.entry own depth) + 5) stack.old stack.new) }
    ensures stopped { IfErr result (IfStop (HasStop (L.made labels.new))) }
    ensures grows { Grows world.old world.new }
    ensures kept { IsKept L.made L.meaning L.room L.firm labels.old labels.new }
{
    let _ended = (own, depth);
    finish(labels, world, stack, s, None)
}

/// A jump comes to the end of the block, in this record. If the frame was left before, it passes.
pub fn pass_block<'p, L: Labels>(
    alloc: Global,
    labels: &mut L,
    world: &mut World<L::Label>,
    stack: &mut Stack<'p, L::Label>,
    place: EnvId,
    jump: Jump,
    s: &'p Stmt,
    depth: usize,
) -> Result<Control<'p>, FlowFault<L::Label>>
    requires standing { Invariant L.made L.meaning labels.old stack.old world.old (owns (continuation.EndBlock s depth) + 1) (scopes_of stack.old.tasks ++ scope_of (continuation.EndBlock s depth)) (natives_waiting stack.old.tasks) (control.Jumps jump) }
    requires place { (env_above stack.old.tasks here).place ≡ place.0 }
    ensures passes { (tables : Tables) (inputs : Given) (set : BuiltIns) (functions : List FunctionCode) (natives : List Steps) (value : LabelledOf L.Label) → drop (owns (continuation.EndBlock s.entry depth)) stack.old.loose ≡ value ∷ [] → Passes L.made L.meaning labels.new tables inputs set functions jump (continuation.EndBlock s.entry depth) value natives natives stack.old stack.new world.old world.new result }
    ensures standing { IfOk result (StandsStill L.made L.meaning labels.new (natives_waiting stack.old.tasks) stack.new world.new) }
    ensures adds { IfOk result (Adds (weight (continuation.EndBlock s.entry depth) + 5) stack.old stack.new) }
    ensures stopped { IfErr result (IfStop (HasStop (L.made labels.new))) }
    ensures grows { Grows world.old world.new }
    ensures kept { IsKept L.made L.meaning L.room L.firm labels.old labels.new }
{
    if world.frames.len() <= depth {
        return Ok(Control::Jumps(jump));
    }
    stands_at(stack, depth)?;
    react(alloc, labels, world, stack, place, jump, s, depth)
}

/// A jump comes to the end of the handler. If the frame was left before, it passes.
pub fn pass_handler<'p, L: Labels>(
    labels: &mut L,
    world: &mut World<L::Label>,
    stack: &mut Stack<'p, L::Label>,
    jump: Jump,
    s: &'p Stmt,
    own: EnvId,
    depth: usize,
) -> Result<Control<'p>, FlowFault<L::Label>>
    requires standing { Invariant L.made L.meaning labels.old stack.old world.old (owns (continuation.EndHandler s own depth) + 1) (scopes_of stack.old.tasks ++ scope_of (continuation.EndHandler s own depth)) (natives_waiting stack.old.tasks) (control.Jumps jump) }
    ensures passes { (tables : Tables) (inputs : Given) (set : BuiltIns) (functions : List FunctionCode) (natives : List Steps) (value : LabelledOf L.Label) → drop (owns (continuation.EndHandler s.entry own depth)) stack.old.loose ≡ value ∷ [] → Passes L.made L.meaning labels.new tables inputs set functions jump (continuation.EndHandler s.entry own depth) value natives natives stack.old stack.new world.old world.new result }
    ensures standing { IfOk result (StandsStill L.made L.meaning labels.new (natives_waiting stack.old.tasks) stack.new world.new) }
    ensures adds { IfOk result (Adds (weight (continuation.EndHandler s.entry own depth) + 5) stack.old stack.new) }
    ensures stopped { IfErr result (IfStop (HasStop (L.made labels.new))) }
    ensures grows { Grows world.old world.new }
    ensures kept { IsKept L.made L.meaning L.room L.firm labels.old labels.new }
{
    let _ended = own;
    if world.frames.len() <= depth {
        return Ok(Control::Jumps(jump));
    }
    stands_at(stack, depth)?;
    finish(labels, world, stack, s, Some(jump))
}

// ---- the beginning

/// The work of a `try` statement in the frame at this depth, and its block.
fn begin_block<'p, T: Copy>(
    stack: &mut Stack<'p, T>,
    s: &'p Stmt,
    depth: usize,
    block: &'p Block,
) -> Result<Control<'p>, OutOfMemory>
    requires { length stack.old.loose ≡ 0 }
    ensures goes_on { IfOk result (BeginsBehind (λ tables inputs set functions vs e t. trying_plan tables inputs set functions (view_stmt s.entry.now) depth (view_block block.entry.now) e.env t) stack.old stack.new) }
    ensures values { IfOk result (λ move. length stack.new.loose ≡ values_of move) }
    ensures scopes { IfOk result (λ move. scopes_of stack.new.tasks ≡ scopes_of stack.old.tasks ++ depth ∷ []) }
    ensures natives { IfOk result (λ move. natives_waiting stack.new.tasks ≡ natives_waiting stack.old.tasks) }
    ensures operands { IfOk result (λ move. operands_of stack.new ≡ operands_of stack.old) }
    ensures adds { IfOk result (Adds 10 stack.old stack.new) }
{
    stack.push(Continuation::EndTry(depth))?;
    stack.push(Continuation::EndBlock(s, depth))?;
    Ok(Control::Block(block))
}

/// Enters the frame of a `try` statement with this block.
fn enter_try<'p, L: Labels>(
    labels: &mut L,
    world: &mut World<L::Label>,
    stack: &mut Stack<'p, L::Label>,
    s: &'p Stmt,
    block: &'p Block,
) -> Result<Control<'p>, OutOfMemory>
    requires standing { Invariant L.made L.meaning labels.old stack.old world.old 0 (scopes_of stack.old.tasks) (natives_waiting stack.old.tasks) (control.Try s) }
    requires block { tried_in (view_stmt s.now) ≡ Some (view_block block.now) }
    ensures begins { IfOk result (λ move. BeginsWith L.made L.meaning labels.new (λ tables inputs set functions reading e. stmt_step (planned tables inputs set functions) (entrance tables inputs set functions) (asking tables inputs set functions) (view_stmt s.entry.now) e.env) stack.old stack.new world.old world.new (Ok move)) }
    ensures standing { IfOk result (StandsStill L.made L.meaning labels.new (natives_waiting stack.old.tasks) stack.new world.new) }
    ensures adds { IfOk result (Adds 10 stack.old stack.new) }
    ensures grows { Grows world.old world.new }
    ensures kept { IsKept L.made L.meaning L.room L.firm labels.old labels.new }
{
    let depth = world.frames.len();
    let none = labels.bottom();
    world.frames.push(labels, Kind::Try, none)?;
    let _deeper = world.frames.len();
    begin_block(stack, s, depth, block)
}

/// A `try` statement: its block, in a frame that catches.
pub fn begin_try<'p, L: Labels>(
    labels: &mut L,
    world: &mut World<L::Label>,
    stack: &mut Stack<'p, L::Label>,
    s: &'p Stmt,
) -> Result<Control<'p>, FlowFault<L::Label>>
    requires standing { Invariant L.made L.meaning labels.old stack.old world.old (values_of (control.Try s)) (scopes_of stack.old.tasks) (natives_waiting stack.old.tasks) (control.Try s) }
    requires tries { is_try (view_stmt s.now) ≡ true }
    ensures begins { (tables : Tables) (inputs : Given) (set : BuiltIns) (functions : List FunctionCode) (natives : List Steps) → BeginsHere L.made L.meaning labels.new tables inputs set functions natives natives stack.old stack.new world.old world.new (control.Try s.entry) result }
    ensures standing { IfOk result (StandsStill L.made L.meaning labels.new (natives_waiting stack.old.tasks) stack.new world.new) }
    ensures adds { IfOk result (Adds 10 stack.old stack.new) }
    ensures stopped { IfErr result (IfStop (HasStop (L.made labels.new))) }
    ensures grows { Grows world.old world.new }
    ensures kept { IsKept L.made L.meaning L.room L.firm labels.old labels.new }
{
    let next = enter_try(labels, world, stack, s, tried(s))?;
    Ok(next)
}
