//! Throws, returns, breaks and continues (ECMA-262 12.7 to 12.9, 12.13).

ghost use Rattle.std.specs.Prelude.{◌≡◌, ◌+◌, ◌++◌, List, [], length, IfErr, IfOk, OnOk};
ghost use Rattle.origin_labels.specs.Stores.{IsKept};
ghost use Rattle.flow_frames.specs.Stops.{IfStop};
ghost use Rattle.flow_policy.specs.Policies.{Tables};
ghost use Rattle.flow_policy.specs.Inputs.{Given};
ghost use Rattle.js_ast.specs.Functions.{FunctionCode};
ghost use Rattle.js_ast.specs.Views.{view_name};
ghost use Rattle.es_meaning.specs.Environments.{find_around};
ghost use Rattle.es_meaning.specs.Evaluation.{text_of_label};
ghost use Rattle.es_meaning.specs.BuiltIns.{BuiltIns};
ghost use Rattle.run_state.specs.Worlds.{Grows};
ghost use Rattle.continuations.specs.declared.continuation.Control.TheVariants as control;
ghost use Rattle.continuations.specs.declared.continuation.Continuation.TheVariants as continuation;
ghost use Rattle.continuations.specs.Going.{Begins, Resumes, here};
ghost use Rattle.continuations.specs.Kept.{operands_of, scope_of, scopes_of, waiting};
ghost use Rattle.continuations.specs.Loads.{Adds, lift, weight};
ghost use Rattle.continuations.specs.Pending.{env_above, owns, values_of};
ghost use Rattle.continuations.specs.Invariant.{Invariant};
ghost use Rattle.continuations.specs.Stops.{HasStop};
ghost use Rattle.step_jumps.specs.Issuing.{IsNothing, IssuesAt};
ghost use Rattle.native_protocol.specs.Steps.{Steps};

use crate::again::jump_again;
use continuations::{Control, Jump, Stack};
use flow_frames::FlowFault;
use flow_text::OutOfMemory;
use js_ast::Ident;
use js_number::Primitive;
use js_values::{Labelled, Value};
use origin_labels::Labels;
use run_state::World;

/// A jump is issued whose value lies loose.
#[inline(always)]
fn issue<'p, L: Labels>(
    labels: &mut L,
    world: &mut World<L::Label>,
    stack: &Stack<'p, L::Label>,
    jump: Jump,
) -> Result<Control<'p>, FlowFault<L::Label>>
    requires standing { Invariant L.made L.meaning labels.old stack.now world.old 1 (scopes_of stack.now.tasks ++ []) (waiting stack.now.tasks) control.Value }
    ensures issues { (tables : Tables) (inputs : Given) (set : BuiltIns) (functions : List FunctionCode) (natives : List Steps) → IssuesAt L.made L.meaning labels.new tables inputs set functions natives jump stack.now world.old world.new result }
    ensures standing { IfOk result (λ move. Invariant L.made L.meaning labels.new stack.now world.new (values_of move) (scopes_of stack.now.tasks) (waiting stack.now.tasks) move) }
    ensures adds { IfOk result (Adds 6 stack.now stack.now) }
    ensures stopped { IfErr result (IfStop (HasStop (L.made labels.new))) }
    ensures grows { Grows world.old world.new }
    ensures kept { IsKept L.made L.meaning L.room L.firm labels.old labels.new }
{
    let _stack = stack;
    jump_again(labels, &mut world.frames, jump)?;
    Ok(Control::Jumps(jump))
}

/// `throw` (ECMA-262 12.13): its value goes to what catches it, or ends the run.
#[inline(always)]
pub fn throw_value<'p, L: Labels>(
    labels: &mut L,
    world: &mut World<L::Label>,
    stack: &mut Stack<'p, L::Label>,
) -> Result<Control<'p>, FlowFault<L::Label>>
    requires standing { Invariant L.made L.meaning labels.old stack.old world.old (owns continuation.Throw + 1) (scopes_of stack.old.tasks ++ scope_of continuation.Throw) (waiting stack.old.tasks) control.Value }
    ensures resumes { (tables : Tables) (inputs : Given) (set : BuiltIns) (functions : List FunctionCode) (natives : List Steps) → Resumes L.made L.meaning labels.new tables inputs set functions continuation.Throw natives natives stack.old stack.new world.old world.new result }
    ensures standing { IfOk result (λ move. Invariant L.made L.meaning labels.new stack.new world.new (values_of move) (scopes_of stack.new.tasks) (waiting stack.old.tasks) move) }
    ensures adds { IfOk result (Adds (weight continuation.Throw + 5) stack.old stack.new) }
    ensures stopped { IfErr result (IfStop (HasStop (L.made labels.new))) }
    ensures grows { Grows world.old world.new }
    ensures kept { IsKept L.made L.meaning L.room L.firm labels.old labels.new }
{
    issue(labels, world, stack, Jump::Throws)
}

/// `return` with a value (ECMA-262 12.9), to the call in the frame at a depth.
#[inline(always)]
pub fn return_value<'p, L: Labels>(
    labels: &mut L,
    world: &mut World<L::Label>,
    stack: &mut Stack<'p, L::Label>,
    to: usize,
) -> Result<Control<'p>, FlowFault<L::Label>>
    requires aim { (env_above stack.old.tasks here).call ≡ to }
    requires standing { Invariant L.made L.meaning labels.old stack.old world.old (owns continuation.Return + 1) (scopes_of stack.old.tasks ++ scope_of continuation.Return) (waiting stack.old.tasks) control.Value }
    ensures resumes { (tables : Tables) (inputs : Given) (set : BuiltIns) (functions : List FunctionCode) (natives : List Steps) → Resumes L.made L.meaning labels.new tables inputs set functions continuation.Return natives natives stack.old stack.new world.old world.new result }
    ensures standing { IfOk result (λ move. Invariant L.made L.meaning labels.new stack.new world.new (values_of move) (scopes_of stack.new.tasks) (waiting stack.old.tasks) move) }
    ensures adds { IfOk result (Adds (weight continuation.Return + 5) stack.old stack.new) }
    ensures stopped { IfErr result (IfStop (HasStop (L.made labels.new))) }
    ensures grows { Grows world.old world.new }
    ensures kept { IsKept L.made L.meaning L.room L.firm labels.old labels.new }
{
    issue(labels, world, stack, Jump::Returns(to))
}

/// Lays undefined, which depends on nothing.
#[inline(always)]
fn lay_nothing<'p, L: Labels>(
    labels: &L,
    stack: &mut Stack<'p, L::Label>,
) -> Result<(), OutOfMemory>
    requires loose { length stack.old.loose ≡ 0 }
    ensures tasks { stack.new.tasks ≡ stack.old.tasks }
    ensures laid { OnOk result (IsNothing L.made L.meaning labels.now stack.new.loose) }
{
    stack.lay(Labelled {
        value: Value::Primitive(Primitive::Undefined),
        label: labels.bottom(),
    })?;
    Ok(())
}

/// `return` without a value (ECMA-262 12.9).
#[inline(always)]
pub fn return_nothing<'p, L: Labels>(
    labels: &mut L,
    world: &mut World<L::Label>,
    stack: &mut Stack<'p, L::Label>,
    to: usize,
) -> Result<Control<'p>, FlowFault<L::Label>>
    requires aim { (env_above stack.old.tasks here).call ≡ to }
    requires standing { Invariant L.made L.meaning labels.old stack.old world.old (values_of control.Return) (scopes_of stack.old.tasks) (waiting stack.old.tasks) control.Return }
    ensures begins { (tables : Tables) (inputs : Given) (set : BuiltIns) (functions : List FunctionCode) (natives : List Steps) → Begins L.made L.meaning labels.new tables inputs set functions natives natives stack.old stack.new world.old world.new control.Return result }
    ensures standing { IfOk result (λ move. Invariant L.made L.meaning labels.new stack.new world.new (values_of move) (scopes_of stack.new.tasks) (waiting stack.old.tasks) move) }
    ensures adds { IfOk result (Adds 6 stack.old stack.new) }
    ensures stopped { IfErr result (IfStop (HasStop (L.made labels.new))) }
    ensures grows { Grows world.old world.new }
    ensures kept { IsKept L.made L.meaning L.room L.firm labels.old labels.new }
{
    lay_nothing(labels, stack)?;
    issue(labels, world, stack, Jump::Returns(to))
}

/// `break` and `continue` (ECMA-262 12.7, 12.8): behind the loop, the turn or the statement that is ended, of which is known how many are round it and in the frame at which depth it stands. Where there is none, nothing is left.
#[inline(always)]
pub fn leave_by<'p, L: Labels>(
    labels: &mut L,
    world: &mut World<L::Label>,
    stack: &mut Stack<'p, L::Label>,
    turn: bool,
    label: &'p Option<Ident>,
    aim: Option<(usize, usize)>,
) -> Result<Control<'p>, FlowFault<L::Label>>
    requires aim { aim ≡ find_around turn (text_of_label (view_name label.now)) (env_above stack.old.tasks here).around }
    requires standing { Invariant L.made L.meaning labels.old stack.old world.old (values_of (control.Break turn label)) (scopes_of stack.old.tasks) (waiting stack.old.tasks) (control.Break turn label) }
    ensures begins { (tables : Tables) (inputs : Given) (set : BuiltIns) (functions : List FunctionCode) (natives : List Steps) → Begins L.made L.meaning labels.new tables inputs set functions natives natives stack.old stack.new world.old world.new (control.Break turn label.entry) result }
    ensures standing { IfOk result (λ move. Invariant L.made L.meaning labels.new stack.new world.new (values_of move) (scopes_of stack.new.tasks) (waiting stack.old.tasks) move) }
    ensures adds { IfOk result (Adds 6 stack.old stack.new) }
    ensures stopped { IfErr result (IfStop (HasStop (L.made labels.new))) }
    ensures grows { Grows world.old world.new }
    ensures kept { IsKept L.made L.meaning L.room L.firm labels.old labels.new }
{
    let Some((count, to)) = aim else {
        return Ok(Control::Done);
    };
    lay_nothing(labels, stack)?;
    issue(labels, world, stack, Jump::Leaves(count, to))
}
