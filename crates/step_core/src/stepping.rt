//! One step of a run.

ghost use Rattle.std.specs.Prelude.{◌≡◌, ◌≤◌, ◌<◌, ◌+◌, ◌++◌, ◌∷◌, [], Bool, true, false, List, IfOk, drop, length};
ghost use Rattle.origin_labels.specs.Label.{Label};
ghost use Rattle.origin_labels.specs.Stores.{IsKept};
ghost use Rattle.flow_policy.specs.Policies.{Tables};
ghost use Rattle.flow_policy.specs.Inputs.{Given, IsGivenTo};
ghost use Rattle.js_ast.specs.Functions.{FunctionCode};
ghost use Rattle.js_values.specs.declared.value.Labelled.{Labelled};
ghost use Rattle.js_values.specs.Readings.{read_value};
ghost use Rattle.native_protocol.specs.declared.request.Answer.{Answer};
ghost use Rattle.native_protocol.specs.declared.request.Request.{Request};
ghost use Rattle.es_meaning.specs.BuiltIns.{BuiltIns, built_ins_of};
ghost use Rattle.es_meaning.specs.Functions.{this_name};
ghost use Rattle.flow_meaning.specs.Planned.{jumped};
ghost use Rattle.function_table.specs.Tables.{table};
ghost use Rattle.continuations.specs.Shapes.{jump_of};
ghost use Rattle.run_state.specs.Worlds.{Grows};
ghost use Rattle.continuations.specs.declared.continuation.Control.TheVariants as control;
ghost use Rattle.continuations.specs.declared.continuation.Continuation.TheVariants as continuation;
ghost use Rattle.step_core.specs.Continuing.{answers, raises};
ghost use Rattle.continuations.specs.Kept.{scope_of, scopes_of, waiting, waits};
ghost use Rattle.continuations.specs.Loads.{weight};
ghost use Rattle.continuations.specs.Pending.{owns, values_of};
ghost use Rattle.step_core.specs.RemainingRun.{ahead, remaining_run};
ghost use Rattle.step_core.specs.declared.steps.Advance.TheVariants as advance;
ghost use Rattle.step_core.specs.Continuing.{acts, scoped, leads};
ghost use Rattle.continuations.specs.Invariant.{Invariant, given};
ghost use Rattle.step_core.specs.Stepping.{Stepped, StandsBefore, begins_work, gives_value, hands_on, calls_function, makes_value, handed, completion_above, enters_part, remaining_run_after};

use crate::entering::{
    begin_calling, begin_move, enter, enter_expression, enter_statement, make_value, present,
};
use crate::leaving::leave;
use crate::passing::pass_work;
use crate::progress::Progress;
use crate::requesting::request_next;
use crate::resuming::{
    acts, leads, raise_on, resume_acting, resume_alone, resume_leading, resume_scoped, scoped,
};
use crate::steps::{Advance, Ending, step_of, still_step};
use crate::telling::{abandon, tell};
use continuations::{Continuation, Control, Jump};
use flow_policy::{Inputs, Policy};
use flow_text::{OutOfMemory, Text};
use function_table::Functions;
use js_ast::{Expr, ExprKind, Stmt};
use native_protocol::Natives;
use origin_labels::Labels;
use std::alloc::Global;
use step_numbers::{assign, evaluate, finish};

/// Does what is next. Want of memory ends the run, whatever is left of it.
#[inline(always)]
pub(crate) fn stepped<'p, L: Labels, N: Natives>(
    alloc: Global,
    labels: &mut L,
    natives: &N,
    policy: &Policy,
    inputs: &Inputs,
    functions: &Functions<'p>,
    progress: &mut Progress<'p, L::Label, N::State>,
    next: Control<'p>,
) -> Result<Advance<'p, L::Label>, OutOfMemory>
    requires standing { StandsBefore L.made L.meaning labels.old progress.old next }
    requires room { length policy.now.origins ≤ L.room labels.old }
    requires given { IsGivenTo policy.now inputs.now }
    requires positions { length progress.old.world.positions.items ≡ length policy.now.inputs }
    ensures stepped { IfOk result (Stepped L.made L.meaning labels.new policy.now inputs.now (built_ins_of (N.entries natives.now) (N.begin natives.now) (N.after natives.now) (N.asks natives.now)) (table functions.now) (N.after natives.now) (N.asks natives.now) (λ reading. remaining_run policy.now inputs.now (built_ins_of (N.entries natives.now) (N.begin natives.now) (N.after natives.now) (N.asks natives.now)) (table functions.now) (N.after natives.now) (N.asks natives.now) reading progress.old next.entry) (ahead progress.old next.entry) progress.new) }
    ensures grows { Grows progress.old.world progress.new.world }
    ensures kept { IsKept L.made L.meaning L.room L.firm labels.old labels.new }
{
    match next {
        Control::Leave(why) => leave(labels, progress, why),
        Control::Value | Control::Done => hand_on(alloc, labels, policy, progress, next),
        Control::Jumps(jump) => jump_on(alloc, labels, progress, jump),
        Control::Request(count) => {
            request_next(alloc, labels, natives, policy, inputs, progress, count)
        }
        Control::Call(_)
        | Control::Construct(_)
        | Control::Convert(_)
        | Control::Compare
        | Control::ConvertBeside => begin_call(alloc, labels, natives, functions, progress, next),
        Control::Function(_) | Control::Object(_, _) | Control::Array(_, _) => {
            begin_making(alloc, labels, functions, progress, next)
        }
        Control::Expr(e) => begin_expr(labels, progress, e),
        Control::Stmt(s) => begin_stmt(labels, progress, s),
        Control::Use(_, _)
        | Control::Block(_)
        | Control::Named(_, _)
        | Control::Turn(_)
        | Control::Visit(_, _) => enter_part(alloc, labels, progress, next),
        Control::Null
        | Control::Bool(_)
        | Control::Number(_)
        | Control::Text(_)
        | Control::Name(_)
        | Control::This
        | Control::GiveVariable(_)
        | Control::Keys(_)
        | Control::Visits(_, _)
        | Control::Variables(_)
        | Control::Loop(_)
        | Control::DoLoop(_)
        | Control::Break(_, _)
        | Control::Return
        | Control::Labelled(_, _)
        | Control::Try(_) => begin_work(alloc, labels, functions.keys().this(), progress, next),
    }
}

/// Steps until a line is printed or the run ends. Out of memory ends the run, whatever is left of it.
#[inline(always)]
pub(crate) fn run_on<'p, L: Labels, N: Natives>(
    alloc: Global,
    labels: &mut L,
    natives: &N,
    policy: &Policy,
    inputs: &Inputs,
    functions: &Functions<'p>,
    progress: &mut Progress<'p, L::Label, N::State>,
    first: Control<'p>,
) -> Result<Advance<'p, L::Label>, OutOfMemory>
    requires standing { StandsBefore L.made L.meaning labels.old progress.old first }
    requires room { length policy.now.origins ≤ L.room labels.old }
    requires given { IsGivenTo policy.now inputs.now }
    requires positions { length progress.old.world.positions.items ≡ length policy.now.inputs }
    ensures stepped { IfOk result (Stepped L.made L.meaning labels.new policy.now inputs.now (built_ins_of (N.entries natives.now) (N.begin natives.now) (N.after natives.now) (N.asks natives.now)) (table functions.now) (N.after natives.now) (N.asks natives.now) (λ reading. remaining_run policy.now inputs.now (built_ins_of (N.entries natives.now) (N.begin natives.now) (N.after natives.now) (N.asks natives.now)) (table functions.now) (N.after natives.now) (N.asks natives.now) reading progress.old first.entry) (ahead progress.old first.entry) progress.new) }
    ensures grows { Grows progress.old.world progress.new.world }
    ensures kept { IsKept L.made L.meaning L.room L.firm labels.old labels.new }
{
    let mut next = first;
    'steps: loop {
        progress.reserve()?;
        let came = stepped(
            alloc, labels, natives, policy, inputs, functions, progress, next,
        )?;
        match came {
            Advance::Goes(further) => next = further,
            halted => return Ok(halted),
        }
    }
}

// A part gave a value or came to its end. Both ways are one call, so that the code for them is in the loop once.
#[inline(always)]
fn hand_on<'p, L: Labels, S: Drop>(
    alloc: Global,
    labels: &mut L,
    policy: &Policy,
    progress: &mut Progress<'p, L::Label, S>,
    next: Control<'p>,
) -> Result<Advance<'p, L::Label>, OutOfMemory>
    requires hands { hands_on next ≡ true }
    requires standing { StandsBefore L.made L.meaning labels.old progress.old next }
    requires room { length policy.now.origins ≤ L.room labels.old }
    ensures stepped { (inputs : Given) (set : BuiltIns) (functions : List FunctionCode) (tells : S → Answer → S) (asks : S → Request) → IfOk result (Stepped L.made L.meaning labels.new policy.now inputs set functions tells asks (λ reading. remaining_run policy.now inputs set functions tells asks reading progress.old next.entry) (ahead progress.old next.entry) progress.new) }
    ensures grows { Grows progress.old.world progress.new.world }
    ensures kept { IsKept L.made L.meaning L.room L.firm labels.old labels.new }
{
    go_on(alloc, labels, policy, progress, gives_value(next))
}

// A part gave a value.
#[inline(always)]
fn gives_value(next: Control<'_>) -> bool
    ensures { result ≡ gives_value next.entry }
{
    matches!(next, Control::Value)
}

// A part gave a value or came to its end: the work goes on that waited for it, and without any the run is done.
#[inline(always)]
fn go_on<'p, L: Labels, S: Drop>(
    alloc: Global,
    labels: &mut L,
    policy: &Policy,
    progress: &mut Progress<'p, L::Label, S>,
    gave: bool,
) -> Result<Advance<'p, L::Label>, OutOfMemory>
    requires standing { StandsBefore L.made L.meaning labels.old progress.old (handed gave) }
    requires room { length policy.now.origins ≤ L.room labels.old }
    ensures stepped { (inputs : Given) (set : BuiltIns) (functions : List FunctionCode) (tells : S → Answer → S) (asks : S → Request) → IfOk result (Stepped L.made L.meaning labels.new policy.now inputs set functions tells asks (λ reading. remaining_run policy.now inputs set functions tells asks reading progress.old (handed gave)) (ahead progress.old (handed gave)) progress.new) }
    ensures grows { Grows progress.old.world progress.new.world }
    ensures kept { IsKept L.made L.meaning L.room L.firm labels.old labels.new }
{
    match progress.stack.next_work() {
        None => Ok(Advance::Ends(Ending::Done)),
        Some(work) => proceed(alloc, labels, policy, progress, work, gave),
    }
}

// A continuation that was taken goes on, or is a directive.
#[inline(always)]
fn proceed<'p, L: Labels, S: Drop>(
    alloc: Global,
    labels: &mut L,
    policy: &Policy,
    progress: &mut Progress<'p, L::Label, S>,
    work: Continuation<'p>,
    gave: bool,
) -> Result<Advance<'p, L::Label>, OutOfMemory>
    requires standing { Invariant L.made L.meaning labels.old progress.old.stack progress.old.world (owns work + given gave) (scopes_of progress.old.stack.tasks ++ scope_of work) (waiting progress.old.stack.tasks) control.Value }
    requires natives { length progress.old.natives.states ≡ waiting progress.old.stack.tasks + waits work }
    requires room { length policy.now.origins ≤ L.room labels.old }
    ensures stepped { (inputs : Given) (set : BuiltIns) (functions : List FunctionCode) (tells : S → Answer → S) (asks : S → Request) → IfOk result (Stepped L.made L.meaning labels.new policy.now inputs set functions tells asks (λ reading. remaining_run_after policy.now inputs set functions tells asks reading progress.old work.entry (completion_above policy.now inputs set functions tells asks reading progress.old work.entry)) (ahead progress.old control.Value + weight work.entry) progress.new) }
    ensures grows { Grows progress.old.world progress.new.world }
    ensures kept { IsKept L.made L.meaning L.room L.firm labels.old labels.new }
{
    match work {
        Continuation::Raise(e) => raised(alloc, labels, policy, progress, e, gave),
        Continuation::Answered(count, to) => tell(labels, progress, count, to, gave),
        other => resumed(alloc, labels, progress, other, gave),
    }
}

// A directive is obeyed.
#[inline(never)]
fn raised<'p, L: Labels, S: Drop>(
    alloc: Global,
    labels: &mut L,
    policy: &Policy,
    progress: &mut Progress<'p, L::Label, S>,
    e: &'p Expr,
    gave: bool,
) -> Result<Advance<'p, L::Label>, OutOfMemory>
    requires standing { Invariant L.made L.meaning labels.old progress.old.stack progress.old.world (given gave) (scopes_of progress.old.stack.tasks) (waiting progress.old.stack.tasks) control.Value }
    requires natives { length progress.old.natives.states ≡ waiting progress.old.stack.tasks }
    requires room { length policy.now.origins ≤ L.room labels.old }
    ensures stepped { (inputs : Given) (set : BuiltIns) (functions : List FunctionCode) (tells : S → Answer → S) (asks : S → Request) → IfOk result (Stepped L.made L.meaning labels.new policy.now inputs set functions tells asks (λ reading. remaining_run_after policy.now inputs set functions tells asks reading progress.old (continuation.Raise e.entry) (completion_above policy.now inputs set functions tells asks reading progress.old (continuation.Raise e.entry))) (ahead progress.old control.Value + 1) progress.new) }
    ensures grows { Grows progress.old.world progress.new.world }
    ensures kept { IsKept L.made L.meaning L.room L.firm labels.old labels.new }
{
    let world = &mut progress.world;
    let stack = &mut progress.stack;
    let moved = raise_on(alloc, labels, policy, world, stack, e, gave);
    still_step(moved)
}

// A continuation that was taken goes on. Each group has a function of its own: the kit's compiler doesn't inline a function that would grow very large, and
// LLVM inlines each of them where it is called once.
#[inline(always)]
fn resumed<'p, L: Labels, S: Drop>(
    alloc: Global,
    labels: &mut L,
    progress: &mut Progress<'p, L::Label, S>,
    work: Continuation<'p>,
    gave: bool,
) -> Result<Advance<'p, L::Label>, OutOfMemory>
    requires obeys { raises work ≡ false }
    requires asks { answers work ≡ false }
    requires standing { Invariant L.made L.meaning labels.old progress.old.stack progress.old.world (owns work + given gave) (scopes_of progress.old.stack.tasks ++ scope_of work) (waiting progress.old.stack.tasks) control.Value }
    requires natives { length progress.old.natives.states ≡ waiting progress.old.stack.tasks }
    ensures stepped { (tables : Tables) (inputs : Given) (set : BuiltIns) (functions : List FunctionCode) (tells : S → Answer → S) (asks : S → Request) → IfOk result (Stepped L.made L.meaning labels.new tables inputs set functions tells asks (λ reading. remaining_run_after tables inputs set functions tells asks reading progress.old work.entry (completion_above tables inputs set functions tells asks reading progress.old work.entry)) (ahead progress.old control.Value + weight work.entry) progress.new) }
    ensures grows { Grows progress.old.world progress.new.world }
    ensures kept { IsKept L.made L.meaning L.room L.firm labels.old labels.new }
{
    if acts(work) {
        resumed_acting(alloc, labels, progress, work, gave)
    } else if scoped(work) {
        resumed_scoped(alloc, labels, progress, work, gave)
    } else if leads(work) {
        resumed_leading(alloc, labels, progress, work, gave)
    } else {
        resumed_alone(alloc, labels, progress, work, gave)
    }
}

// The same of one that acts on the run's state.
#[inline(always)]
fn resumed_acting<'p, L: Labels, S: Drop>(
    alloc: Global,
    labels: &mut L,
    progress: &mut Progress<'p, L::Label, S>,
    work: Continuation<'p>,
    gave: bool,
) -> Result<Advance<'p, L::Label>, OutOfMemory>
    requires acts { acts work ≡ true }
    requires obeys { raises work ≡ false }
    requires asks { answers work ≡ false }
    requires standing { Invariant L.made L.meaning labels.old progress.old.stack progress.old.world (owns work + given gave) (scopes_of progress.old.stack.tasks ++ scope_of work) (waiting progress.old.stack.tasks) control.Value }
    requires natives { length progress.old.natives.states ≡ waiting progress.old.stack.tasks }
    ensures stepped { (tables : Tables) (inputs : Given) (set : BuiltIns) (functions : List FunctionCode) (tells : S → Answer → S) (asks : S → Request) → IfOk result (Stepped L.made L.meaning labels.new tables inputs set functions tells asks (λ reading. remaining_run_after tables inputs set functions tells asks reading progress.old work.entry (completion_above tables inputs set functions tells asks reading progress.old work.entry)) (ahead progress.old control.Value + weight work.entry) progress.new) }
    ensures grows { Grows progress.old.world progress.new.world }
    ensures kept { IsKept L.made L.meaning L.room L.firm labels.old labels.new }
{
    let world = &mut progress.world;
    let stack = &mut progress.stack;
    let moved = resume_acting(alloc, labels, world, stack, work, gave);
    still_step(moved)
}

// The same of one that enters, raises or leaves a frame.
fn resumed_scoped<'p, L: Labels, S: Drop>(
    alloc: Global,
    labels: &mut L,
    progress: &mut Progress<'p, L::Label, S>,
    work: Continuation<'p>,
    gave: bool,
) -> Result<Advance<'p, L::Label>, OutOfMemory>
    requires scoped { scoped work ≡ true }
    requires obeys { raises work ≡ false }
    requires asks { answers work ≡ false }
    requires standing { Invariant L.made L.meaning labels.old progress.old.stack progress.old.world (owns work + given gave) (scopes_of progress.old.stack.tasks ++ scope_of work) (waiting progress.old.stack.tasks) control.Value }
    requires natives { length progress.old.natives.states ≡ waiting progress.old.stack.tasks }
    ensures stepped { (tables : Tables) (inputs : Given) (set : BuiltIns) (functions : List FunctionCode) (tells : S → Answer → S) (asks : S → Request) → IfOk result (Stepped L.made L.meaning labels.new tables inputs set functions tells asks (λ reading. remaining_run_after tables inputs set functions tells asks reading progress.old work.entry (completion_above tables inputs set functions tells asks reading progress.old work.entry)) (ahead progress.old control.Value + weight work.entry) progress.new) }
    ensures grows { Grows progress.old.world progress.new.world }
    ensures kept { IsKept L.made L.meaning L.room L.firm labels.old labels.new }
{
    let world = &mut progress.world;
    let stack = &mut progress.stack;
    let moved = resume_scoped(labels, world, stack, work, gave);
    still_step(moved)
}

// The same of one of a jump, a call, a `switch` or a `try` statement.
fn resumed_leading<'p, L: Labels, S: Drop>(
    alloc: Global,
    labels: &mut L,
    progress: &mut Progress<'p, L::Label, S>,
    work: Continuation<'p>,
    gave: bool,
) -> Result<Advance<'p, L::Label>, OutOfMemory>
    requires leads { leads work ≡ true }
    requires obeys { raises work ≡ false }
    requires asks { answers work ≡ false }
    requires standing { Invariant L.made L.meaning labels.old progress.old.stack progress.old.world (owns work + given gave) (scopes_of progress.old.stack.tasks ++ scope_of work) (waiting progress.old.stack.tasks) control.Value }
    requires natives { length progress.old.natives.states ≡ waiting progress.old.stack.tasks }
    ensures stepped { (tables : Tables) (inputs : Given) (set : BuiltIns) (functions : List FunctionCode) (tells : S → Answer → S) (asks : S → Request) → IfOk result (Stepped L.made L.meaning labels.new tables inputs set functions tells asks (λ reading. remaining_run_after tables inputs set functions tells asks reading progress.old work.entry (completion_above tables inputs set functions tells asks reading progress.old work.entry)) (ahead progress.old control.Value + weight work.entry) progress.new) }
    ensures grows { Grows progress.old.world progress.new.world }
    ensures kept { IsKept L.made L.meaning L.room L.firm labels.old labels.new }
{
    let world = &mut progress.world;
    let stack = &mut progress.stack;
    let moved = resume_leading(alloc, labels, world, stack, work, gave);
    still_step(moved)
}

// The same of one that needs the stack alone.
fn resumed_alone<'p, L: Labels, S: Drop>(
    alloc: Global,
    labels: &mut L,
    progress: &mut Progress<'p, L::Label, S>,
    work: Continuation<'p>,
    gave: bool,
) -> Result<Advance<'p, L::Label>, OutOfMemory>
    requires acts { acts work ≡ false }
    requires scoped { scoped work ≡ false }
    requires leads { leads work ≡ false }
    requires obeys { raises work ≡ false }
    requires asks { answers work ≡ false }
    requires standing { Invariant L.made L.meaning labels.old progress.old.stack progress.old.world (owns work + given gave) (scopes_of progress.old.stack.tasks ++ scope_of work) (waiting progress.old.stack.tasks) control.Value }
    requires natives { length progress.old.natives.states ≡ waiting progress.old.stack.tasks }
    ensures stepped { (tables : Tables) (inputs : Given) (set : BuiltIns) (functions : List FunctionCode) (tells : S → Answer → S) (asks : S → Request) → IfOk result (Stepped L.made L.meaning labels.new tables inputs set functions tells asks (λ reading. remaining_run_after tables inputs set functions tells asks reading progress.old work.entry (completion_above tables inputs set functions tells asks reading progress.old work.entry)) (ahead progress.old control.Value + weight work.entry) progress.new) }
    ensures grows { Grows progress.old.world progress.new.world }
    ensures kept { IsKept L.made L.meaning L.room L.firm labels.old labels.new }
{
    let world = &mut progress.world;
    let stack = &mut progress.stack;
    let moved = resume_alone(labels, world, stack, work, gave);
    still_step(moved)
}

// A jump passes the work that waits next, or leaves the script where none waits.
fn jump_on<'p, L: Labels, S: Drop>(
    alloc: Global,
    labels: &mut L,
    progress: &mut Progress<'p, L::Label, S>,
    jump: Jump,
) -> Result<Advance<'p, L::Label>, OutOfMemory>
    requires standing { StandsBefore L.made L.meaning labels.old progress.old (control.Jumps jump) }
    ensures stepped { (tables : Tables) (inputs : Given) (set : BuiltIns) (functions : List FunctionCode) (tells : S → Answer → S) (asks : S → Request) → IfOk result (Stepped L.made L.meaning labels.new tables inputs set functions tells asks (λ reading. remaining_run tables inputs set functions tells asks reading progress.old (control.Jumps jump)) (ahead progress.old (control.Jumps jump)) progress.new) }
    ensures grows { Grows progress.old.world progress.new.world }
    ensures kept { IsKept L.made L.meaning L.room L.firm labels.old labels.new }
{
    match progress.stack.next_work() {
        None => Ok(Advance::Ends(Ending::Threw(progress.stack.pop()))),
        Some(work) => passed(alloc, labels, progress, jump, work),
    }
}

// A jump passes work that was taken.
fn passed<'p, L: Labels, S: Drop>(
    alloc: Global,
    labels: &mut L,
    progress: &mut Progress<'p, L::Label, S>,
    jump: Jump,
    work: Continuation<'p>,
) -> Result<Advance<'p, L::Label>, OutOfMemory>
    requires standing { Invariant L.made L.meaning labels.old progress.old.stack progress.old.world (owns work + 1) (scopes_of progress.old.stack.tasks ++ scope_of work) (waiting progress.old.stack.tasks) (control.Jumps jump) }
    requires natives { length progress.old.natives.states ≡ waiting progress.old.stack.tasks + waits work }
    ensures stepped { (tables : Tables) (inputs : Given) (set : BuiltIns) (functions : List FunctionCode) (tells : S → Answer → S) (asks : S → Request) (value : Labelled L.Label) → drop (owns work.entry) progress.old.stack.loose ≡ value ∷ [] → IfOk result (Stepped L.made L.meaning labels.new tables inputs set functions tells asks (λ reading. remaining_run_after tables inputs set functions tells asks reading progress.old work.entry (jumped (jump_of jump (read_value reading value)))) (ahead progress.old (control.Jumps jump) + weight work.entry) progress.new) }
    ensures grows { Grows progress.old.world progress.new.world }
    ensures kept { IsKept L.made L.meaning L.room L.firm labels.old labels.new }
{
    match work {
        Continuation::Answered(count, to) => abandon(labels, progress, jump, count, to),
        other => pass_on(alloc, labels, progress, jump, other),
    }
}

// A jump passes work of no built-in.
fn pass_on<'p, L: Labels, S: Drop>(
    alloc: Global,
    labels: &mut L,
    progress: &mut Progress<'p, L::Label, S>,
    jump: Jump,
    work: Continuation<'p>,
) -> Result<Advance<'p, L::Label>, OutOfMemory>
    requires asks { answers work ≡ false }
    requires standing { Invariant L.made L.meaning labels.old progress.old.stack progress.old.world (owns work + 1) (scopes_of progress.old.stack.tasks ++ scope_of work) (waiting progress.old.stack.tasks) (control.Jumps jump) }
    requires natives { length progress.old.natives.states ≡ waiting progress.old.stack.tasks }
    ensures stepped { (tables : Tables) (inputs : Given) (set : BuiltIns) (functions : List FunctionCode) (tells : S → Answer → S) (asks : S → Request) (value : Labelled L.Label) → drop (owns work.entry) progress.old.stack.loose ≡ value ∷ [] → IfOk result (Stepped L.made L.meaning labels.new tables inputs set functions tells asks (λ reading. remaining_run_after tables inputs set functions tells asks reading progress.old work.entry (jumped (jump_of jump (read_value reading value)))) (ahead progress.old (control.Jumps jump) + weight work.entry) progress.new) }
    ensures grows { Grows progress.old.world progress.new.world }
    ensures kept { IsKept L.made L.meaning L.room L.firm labels.old labels.new }
{
    let moved = pass_work(
        alloc,
        labels,
        &mut progress.world,
        &mut progress.stack,
        jump,
        work,
    );
    still_step(moved)
}

// An expression is evaluated at once, or entered.
fn begin_expr<'p, L: Labels, S: Drop>(
    labels: &mut L,
    progress: &mut Progress<'p, L::Label, S>,
    e: &'p Expr,
) -> Result<Advance<'p, L::Label>, OutOfMemory>
    requires standing { StandsBefore L.made L.meaning labels.old progress.old (control.Expr e) }
    ensures stepped { (tables : Tables) (inputs : Given) (set : BuiltIns) (functions : List FunctionCode) (tells : S → Answer → S) (asks : S → Request) → IfOk result (Stepped L.made L.meaning labels.new tables inputs set functions tells asks (λ reading. remaining_run tables inputs set functions tells asks reading progress.old (control.Expr e.entry)) (ahead progress.old (control.Expr e.entry)) progress.new) }
    ensures grows { Grows progress.old.world progress.new.world }
    ensures kept { IsKept L.made L.meaning L.room L.firm labels.old labels.new }
{
    if expr_at_once(labels, progress, e)? {
        Ok(Advance::Goes(Control::Value))
    } else {
        enter_expr(labels, progress, e)
    }
}

// An expression of names and numbers comes to its value at once, and an assignment of a number to a name is done. Whether that was so is told.
#[inline(always)]
fn expr_at_once<'p, L: Labels, S: Drop>(
    labels: &mut L,
    progress: &mut Progress<'p, L::Label, S>,
    e: &'p Expr,
) -> Result<bool, OutOfMemory>
    requires standing { StandsBefore L.made L.meaning labels.old progress.old (control.Expr e) }
    ensures stepped { (tables : Tables) (inputs : Given) (set : BuiltIns) (functions : List FunctionCode) (tells : S → Answer → S) (asks : S → Request) → IfOk result (λ done. done ≡ true → Stepped L.made L.meaning labels.new tables inputs set functions tells asks (λ reading. remaining_run tables inputs set functions tells asks reading progress.old (control.Expr e.entry)) (ahead progress.old (control.Expr e.entry)) progress.new (advance.Goes control.Value)) }
    ensures unchanged { IfOk result (λ done. done ≡ false → progress.new ≡ progress.old) }
    ensures grows { Grows progress.old.world progress.new.world }
    ensures kept { IsKept L.made L.meaning L.room L.firm labels.old labels.new }
{
    match &*e.kind {
        ExprKind::Assign { .. } | ExprKind::Postfix { .. } => {
            assign_at_once(labels, progress, e)
        }
        ExprKind::Name(_) | ExprKind::Number(_) | ExprKind::Paren(_) | ExprKind::Binary { .. } => {
            value_at_once(labels, progress, e)
        }
        _ => Ok(false),
    }
}

// The same of an expression that changes nothing.
#[inline(always)]
fn value_at_once<'p, L: Labels, S: Drop>(
    labels: &mut L,
    progress: &mut Progress<'p, L::Label, S>,
    e: &'p Expr,
) -> Result<bool, OutOfMemory>
    requires standing { StandsBefore L.made L.meaning labels.old progress.old (control.Expr e) }
    ensures stepped { (tables : Tables) (inputs : Given) (set : BuiltIns) (functions : List FunctionCode) (tells : S → Answer → S) (asks : S → Request) → IfOk result (λ done. done ≡ true → Stepped L.made L.meaning labels.new tables inputs set functions tells asks (λ reading. remaining_run tables inputs set functions tells asks reading progress.old (control.Expr e.entry)) (ahead progress.old (control.Expr e.entry)) progress.new (advance.Goes control.Value)) }
    ensures unchanged { IfOk result (λ done. done ≡ false → progress.new ≡ progress.old) }
    ensures grows { Grows progress.old.world progress.new.world }
    ensures kept { IsKept L.made L.meaning L.room L.firm labels.old labels.new }
{
    let place = present(&progress.world, &progress.stack)?;
    let Some(found) = evaluate(labels, &progress.world, place, progress.turns, e) else {
        return Ok(false);
    };
    progress.turns = found.turns;
    progress.stack.lay(found.value)?;
    Ok(true)
}

// The same of an assignment.
#[inline(always)]
fn assign_at_once<'p, L: Labels, S: Drop>(
    labels: &mut L,
    progress: &mut Progress<'p, L::Label, S>,
    e: &'p Expr,
) -> Result<bool, OutOfMemory>
    requires standing { StandsBefore L.made L.meaning labels.old progress.old (control.Expr e) }
    ensures stepped { (tables : Tables) (inputs : Given) (set : BuiltIns) (functions : List FunctionCode) (tells : S → Answer → S) (asks : S → Request) → IfOk result (λ done. done ≡ true → Stepped L.made L.meaning labels.new tables inputs set functions tells asks (λ reading. remaining_run tables inputs set functions tells asks reading progress.old (control.Expr e.entry)) (ahead progress.old (control.Expr e.entry)) progress.new (advance.Goes control.Value)) }
    ensures unchanged { IfOk result (λ done. done ≡ false → progress.new ≡ progress.old) }
    ensures grows { Grows progress.old.world progress.new.world }
    ensures kept { IsKept L.made L.meaning L.room L.firm labels.old labels.new }
{
    let place = present(&progress.world, &progress.stack)?;
    let Some(found) = assign(labels, &mut progress.world, place, progress.turns, e) else {
        return Ok(false);
    };
    progress.turns = found.turns;
    progress.stack.lay(found.value)?;
    Ok(true)
}

// An expression is entered, which costs a turn, and without one the run ends.
fn enter_expr<'p, L: Labels, S: Drop>(
    labels: &mut L,
    progress: &mut Progress<'p, L::Label, S>,
    e: &'p Expr,
) -> Result<Advance<'p, L::Label>, OutOfMemory>
    requires standing { StandsBefore L.made L.meaning labels.old progress.old (control.Expr e) }
    ensures stepped { (tables : Tables) (inputs : Given) (set : BuiltIns) (functions : List FunctionCode) (tells : S → Answer → S) (asks : S → Request) → IfOk result (Stepped L.made L.meaning labels.new tables inputs set functions tells asks (λ reading. remaining_run tables inputs set functions tells asks reading progress.old (control.Expr e.entry)) (ahead progress.old (control.Expr e.entry)) progress.new) }
    ensures grows { Grows progress.old.world progress.new.world }
    ensures kept { IsKept L.made L.meaning L.room L.firm labels.old labels.new }
{
    if progress.turns == 0 {
        return Ok(Advance::Ends(Ending::OutOfTurns));
    }
    progress.turns -= 1;
    let moved = enter_expression(labels, &progress.world, &mut progress.stack, e);
    still_step(moved)
}

// A statement that is such an assignment is done at once, and any other is entered.
fn begin_stmt<'p, L: Labels, S: Drop>(
    labels: &mut L,
    progress: &mut Progress<'p, L::Label, S>,
    s: &'p Stmt,
) -> Result<Advance<'p, L::Label>, OutOfMemory>
    requires standing { StandsBefore L.made L.meaning labels.old progress.old (control.Stmt s) }
    ensures stepped { (tables : Tables) (inputs : Given) (set : BuiltIns) (functions : List FunctionCode) (tells : S → Answer → S) (asks : S → Request) → IfOk result (Stepped L.made L.meaning labels.new tables inputs set functions tells asks (λ reading. remaining_run tables inputs set functions tells asks reading progress.old (control.Stmt s.entry)) (ahead progress.old (control.Stmt s.entry)) progress.new) }
    ensures grows { Grows progress.old.world progress.new.world }
    ensures kept { IsKept L.made L.meaning L.room L.firm labels.old labels.new }
{
    if stmt_at_once(labels, progress, s)? {
        Ok(Advance::Goes(Control::Done))
    } else {
        enter_stmt(labels, progress, s)
    }
}

// A statement that is such an assignment is done. Whether it is one is told.
#[inline(always)]
fn stmt_at_once<'p, L: Labels, S: Drop>(
    labels: &mut L,
    progress: &mut Progress<'p, L::Label, S>,
    s: &'p Stmt,
) -> Result<bool, OutOfMemory>
    requires standing { StandsBefore L.made L.meaning labels.old progress.old (control.Stmt s) }
    ensures stepped { (tables : Tables) (inputs : Given) (set : BuiltIns) (functions : List FunctionCode) (tells : S → Answer → S) (asks : S → Request) → IfOk result (λ done. done ≡ true → Stepped L.made L.meaning labels.new tables inputs set functions tells asks (λ reading. remaining_run tables inputs set functions tells asks reading progress.old (control.Stmt s.entry)) (ahead progress.old (control.Stmt s.entry)) progress.new (advance.Goes control.Done)) }
    ensures unchanged { IfOk result (λ done. done ≡ false → progress.new ≡ progress.old) }
    ensures grows { Grows progress.old.world progress.new.world }
    ensures kept { IsKept L.made L.meaning L.room L.firm labels.old labels.new }
{
    let place = present(&progress.world, &progress.stack)?;
    let Some(left) = finish(labels, &mut progress.world, place, progress.turns, s) else {
        return Ok(false);
    };
    progress.turns = left;
    Ok(true)
}

// A statement is entered, which costs a turn, and without one the run ends.
fn enter_stmt<'p, L: Labels, S: Drop>(
    labels: &mut L,
    progress: &mut Progress<'p, L::Label, S>,
    s: &'p Stmt,
) -> Result<Advance<'p, L::Label>, OutOfMemory>
    requires standing { StandsBefore L.made L.meaning labels.old progress.old (control.Stmt s) }
    ensures stepped { (tables : Tables) (inputs : Given) (set : BuiltIns) (functions : List FunctionCode) (tells : S → Answer → S) (asks : S → Request) → IfOk result (Stepped L.made L.meaning labels.new tables inputs set functions tells asks (λ reading. remaining_run tables inputs set functions tells asks reading progress.old (control.Stmt s.entry)) (ahead progress.old (control.Stmt s.entry)) progress.new) }
    ensures grows { Grows progress.old.world progress.new.world }
    ensures kept { IsKept L.made L.meaning L.room L.firm labels.old labels.new }
{
    if progress.turns == 0 {
        return Ok(Advance::Ends(Ending::OutOfTurns));
    }
    progress.turns -= 1;
    let moved = enter_statement(labels, &progress.world, &mut progress.stack, s);
    still_step(moved)
}

// A part of the script is entered, which costs a turn, and without one the run ends.
fn enter_part<'p, L: Labels, S: Drop>(
    alloc: Global,
    labels: &mut L,
    progress: &mut Progress<'p, L::Label, S>,
    next: Control<'p>,
) -> Result<Advance<'p, L::Label>, OutOfMemory>
    requires enters { enters_part next ≡ true }
    requires standing { StandsBefore L.made L.meaning labels.old progress.old next }
    ensures stepped { (tables : Tables) (inputs : Given) (set : BuiltIns) (functions : List FunctionCode) (tells : S → Answer → S) (asks : S → Request) → IfOk result (Stepped L.made L.meaning labels.new tables inputs set functions tells asks (λ reading. remaining_run tables inputs set functions tells asks reading progress.old next.entry) (ahead progress.old next.entry) progress.new) }
    ensures grows { Grows progress.old.world progress.new.world }
    ensures kept { IsKept L.made L.meaning L.room L.firm labels.old labels.new }
{
    if progress.turns == 0 {
        return Ok(Advance::Ends(Ending::OutOfTurns));
    }
    progress.turns -= 1;
    let moved = enter(
        alloc,
        labels,
        &mut progress.world,
        &mut progress.stack,
        next,
    );
    still_step(moved)
}

// A move that enters no part begins its work.
fn begin_work<'p, L: Labels, S: Drop>(
    alloc: Global,
    labels: &mut L,
    this_text: &Text,
    progress: &mut Progress<'p, L::Label, S>,
    next: Control<'p>,
) -> Result<Advance<'p, L::Label>, OutOfMemory>
    requires name { this_text.now ≡ this_name }
    requires begins { begins_work next ≡ true }
    requires standing { StandsBefore L.made L.meaning labels.old progress.old next }
    ensures stepped { (tables : Tables) (inputs : Given) (set : BuiltIns) (functions : List FunctionCode) (tells : S → Answer → S) (asks : S → Request) → IfOk result (Stepped L.made L.meaning labels.new tables inputs set functions tells asks (λ reading. remaining_run tables inputs set functions tells asks reading progress.old next.entry) (ahead progress.old next.entry) progress.new) }
    ensures grows { Grows progress.old.world progress.new.world }
    ensures kept { IsKept L.made L.meaning L.room L.firm labels.old labels.new }
{
    let moved = begin_move(
        alloc,
        labels,
        this_text,
        &mut progress.world,
        &mut progress.stack,
        next,
    );
    still_step(moved)
}

// A value is made of a function of the script, or of a literal.
fn begin_making<'p, L: Labels, S: Drop>(
    alloc: Global,
    labels: &mut L,
    functions: &Functions<'p>,
    progress: &mut Progress<'p, L::Label, S>,
    next: Control<'p>,
) -> Result<Advance<'p, L::Label>, OutOfMemory>
    requires makes { makes_value next ≡ true }
    requires standing { StandsBefore L.made L.meaning labels.old progress.old next }
    ensures stepped { (tables : Tables) (inputs : Given) (set : BuiltIns) (tells : S → Answer → S) (asks : S → Request) → IfOk result (Stepped L.made L.meaning labels.new tables inputs set (table functions.now) tells asks (λ reading. remaining_run tables inputs set (table functions.now) tells asks reading progress.old next.entry) (ahead progress.old next.entry) progress.new) }
    ensures grows { Grows progress.old.world progress.new.world }
    ensures kept { IsKept L.made L.meaning L.room L.firm labels.old labels.new }
{
    let moved = make_value(
        alloc,
        labels,
        &mut progress.world,
        functions,
        &mut progress.stack,
        next,
    );
    still_step(moved)
}

// A value is called, makes an object, or is converted.
fn begin_call<'p, L: Labels, N: Natives>(
    alloc: Global,
    labels: &mut L,
    natives: &N,
    functions: &Functions<'p>,
    progress: &mut Progress<'p, L::Label, N::State>,
    next: Control<'p>,
) -> Result<Advance<'p, L::Label>, OutOfMemory>
    requires calls { calls_function next ≡ true }
    requires standing { StandsBefore L.made L.meaning labels.old progress.old next }
    ensures stepped { (tables : Tables) (inputs : Given) → IfOk result (Stepped L.made L.meaning labels.new tables inputs (built_ins_of (N.entries natives.now) (N.begin natives.now) (N.after natives.now) (N.asks natives.now)) (table functions.now) (N.after natives.now) (N.asks natives.now) (λ reading. remaining_run tables inputs (built_ins_of (N.entries natives.now) (N.begin natives.now) (N.after natives.now) (N.asks natives.now)) (table functions.now) (N.after natives.now) (N.asks natives.now) reading progress.old next.entry) (ahead progress.old next.entry) progress.new) }
    ensures grows { Grows progress.old.world progress.new.world }
    ensures kept { IsKept L.made L.meaning L.room L.firm labels.old labels.new }
{
    let moved = begin_calling(
        alloc,
        labels,
        &mut progress.world,
        functions,
        natives,
        &mut progress.natives,
        &mut progress.stack,
        next,
    );
    step_of(moved)
}
