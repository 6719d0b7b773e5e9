//! `switch` (ECMA-262 12.11), and labelled statements (12.12).

ghost use Rattle.std.specs.Prelude.{◌≡◌, ◌+◌, ◌++◌, List, IfErr, IfOk};
ghost use Rattle.origin_labels.specs.Stores.{IsKept};
ghost use Rattle.flow_frames.specs.Stops.{IfStop};
ghost use Rattle.flow_policy.specs.Policies.{Tables};
ghost use Rattle.flow_policy.specs.Inputs.{Given};
ghost use Rattle.js_ast.specs.Functions.{FunctionCode};
ghost use Rattle.run_state.specs.Worlds.{Grows};
ghost use Rattle.continuations.specs.declared.continuation.Control.TheVariants as control;
ghost use Rattle.continuations.specs.declared.continuation.Continuation.TheVariants as continuation;
ghost use Rattle.continuations.specs.Going.{Begins, Resumes};
ghost use Rattle.continuations.specs.Kept.{scope_of, scopes_of, waiting};
ghost use Rattle.continuations.specs.Loads.{Adds, lift, weight};
ghost use Rattle.continuations.specs.Pending.{owns, values_of};
ghost use Rattle.continuations.specs.Invariant.{Invariant, awaits};
ghost use Rattle.continuations.specs.Stops.{HasStop};
ghost use Rattle.es_meaning.specs.BuiltIns.{BuiltIns};
ghost use Rattle.native_protocol.specs.Steps.{Steps};

use crate::falling::fall;
use crate::scopes::{compared_in, labelled_in, switched_in};
use continuations::{Control, Stack};
use flow_frames::FlowFault;
use flow_text::Text;
use js_ast::{Clause, ClauseList, Stmt};
use origin_labels::Labels;
use run_state::World;

/// Behind a statement of a clause those that stand behind it, and then the other clauses.
pub fn falls<'p, L: Labels>(
    labels: &mut L,
    world: &mut World<L::Label>,
    stack: &mut Stack<'p, L::Label>,
    clauses: &'p [Clause],
    number: u32,
) -> Result<Control<'p>, FlowFault<L::Label>>
    requires standing { Invariant L.made L.meaning labels.old stack.old world.old (owns (continuation.Falls clauses number) + awaits (continuation.Falls clauses number)) (scopes_of stack.old.tasks ++ scope_of (continuation.Falls clauses number)) (waiting stack.old.tasks) control.Value }
    ensures resumes { (tables : Tables) (inputs : Given) (set : BuiltIns) (functions : List FunctionCode) (natives : List Steps) → Resumes L.made L.meaning labels.new tables inputs set functions (continuation.Falls clauses.entry number) natives natives stack.old stack.new world.old world.new result }
    ensures standing { IfOk result (λ move. Invariant L.made L.meaning labels.new stack.new world.new (values_of move) (scopes_of stack.new.tasks) (waiting stack.old.tasks) move) }
    ensures adds { IfOk result (Adds (weight (continuation.Falls clauses.entry number) + 5) stack.old stack.new) }
    ensures stopped { IfErr result (IfStop (HasStop (L.made labels.new))) }
    ensures grows { Grows world.old world.new }
    ensures kept { IsKept L.made L.meaning L.room L.firm labels.old labels.new }
{
    let _labels = &*labels;
    let _world = &*world;
    let next = fall(stack, clauses, number)?;
    Ok(next)
}

/// `switch` behind its value: a frame of its own, the value's label in it, and the first test.
pub fn switched<'p, L: Labels>(
    labels: &mut L,
    world: &mut World<L::Label>,
    stack: &mut Stack<'p, L::Label>,
    of: &'p Stmt,
    clauses: &'p ClauseList,
) -> Result<Control<'p>, FlowFault<L::Label>>
    requires standing { Invariant L.made L.meaning labels.old stack.old world.old (owns (continuation.Switched of clauses) + awaits (continuation.Switched of clauses)) (scopes_of stack.old.tasks ++ scope_of (continuation.Switched of clauses)) (waiting stack.old.tasks) control.Value }
    ensures resumes { (tables : Tables) (inputs : Given) (set : BuiltIns) (functions : List FunctionCode) (natives : List Steps) → Resumes L.made L.meaning labels.new tables inputs set functions (continuation.Switched of.entry clauses.entry) natives natives stack.old stack.new world.old world.new result }
    ensures standing { IfOk result (λ move. Invariant L.made L.meaning labels.new stack.new world.new (values_of move) (scopes_of stack.new.tasks) (waiting stack.old.tasks) move) }
    ensures adds { IfOk result (Adds (weight (continuation.Switched of.entry clauses.entry) + 5) stack.old stack.new) }
    ensures stopped { IfErr result (IfStop (HasStop (L.made labels.new))) }
    ensures grows { Grows world.old world.new }
    ensures kept { IsKept L.made L.meaning L.room L.firm labels.old labels.new }
{
    let next = switched_in(labels, &mut world.frames, stack, of, clauses)?;
    Ok(next)
}

/// The test of a case behind its value, with the value of the `switch` below it.
pub fn compared<'p, L: Labels>(
    labels: &mut L,
    world: &mut World<L::Label>,
    stack: &mut Stack<'p, L::Label>,
    clauses: &'p ClauseList,
    number: u32,
) -> Result<Control<'p>, FlowFault<L::Label>>
    requires standing { Invariant L.made L.meaning labels.old stack.old world.old (owns (continuation.Compared clauses number) + awaits (continuation.Compared clauses number)) (scopes_of stack.old.tasks ++ scope_of (continuation.Compared clauses number)) (waiting stack.old.tasks) control.Value }
    ensures resumes { (tables : Tables) (inputs : Given) (set : BuiltIns) (functions : List FunctionCode) (natives : List Steps) → Resumes L.made L.meaning labels.new tables inputs set functions (continuation.Compared clauses.entry number) natives natives stack.old stack.new world.old world.new result }
    ensures standing { IfOk result (λ move. Invariant L.made L.meaning labels.new stack.new world.new (values_of move) (scopes_of stack.new.tasks) (waiting stack.old.tasks) move) }
    ensures adds { IfOk result (Adds (weight (continuation.Compared clauses.entry number) + 5) stack.old stack.new) }
    ensures stopped { IfErr result (IfStop (HasStop (L.made labels.new))) }
    ensures grows { Grows world.old world.new }
    ensures kept { IsKept L.made L.meaning L.room L.firm labels.old labels.new }
{
    let next = compared_in(labels, &mut world.frames, stack, clauses, number)?;
    Ok(next)
}

/// A labelled statement that is no loop and no `switch`, in a frame of its own.
pub fn begin_labelled<'p, L: Labels>(
    labels: &mut L,
    world: &mut World<L::Label>,
    stack: &mut Stack<'p, L::Label>,
    text: &'p Text,
    body: &'p Stmt,
) -> Result<Control<'p>, FlowFault<L::Label>>
    requires standing { Invariant L.made L.meaning labels.old stack.old world.old (values_of (control.Labelled text body)) (scopes_of stack.old.tasks) (waiting stack.old.tasks) (control.Labelled text body) }
    ensures begins { (tables : Tables) (inputs : Given) (set : BuiltIns) (functions : List FunctionCode) (natives : List Steps) → Begins L.made L.meaning labels.new tables inputs set functions natives natives stack.old stack.new world.old world.new (control.Labelled text.entry body.entry) result }
    ensures standing { IfOk result (λ move. Invariant L.made L.meaning labels.new stack.new world.new (values_of move) (scopes_of stack.new.tasks) (waiting stack.old.tasks) move) }
    ensures adds { IfOk result (Adds 1 stack.old stack.new) }
    ensures stopped { IfErr result (IfStop (HasStop (L.made labels.new))) }
    ensures grows { Grows world.old world.new }
    ensures kept { IsKept L.made L.meaning L.room L.firm labels.old labels.new }
{
    let next = labelled_in(labels, &mut world.frames, stack, text, body)?;
    Ok(next)
}
