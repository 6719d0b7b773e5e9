//! The conversion of values to primitive ones (ECMA-262 9.1, 11.9.3).

ghost use Rattle.std.specs.Prelude.{◌≡◌, [], List, length, map, IfErr, IfOk};
ghost use Rattle.origin_labels.specs.Stores.{IsKept};
ghost use Rattle.flow_frames.specs.declared.kind.Kind.TheVariants as kind;
ghost use Rattle.flow_frames.specs.Stops.{IfStop};
ghost use Rattle.flow_policy.specs.Policies.{Tables};
ghost use Rattle.flow_policy.specs.Inputs.{Given};
ghost use Rattle.js_ast.specs.Functions.{FunctionCode};
ghost use Rattle.native_protocol.specs.declared.request.Answer.{Answer};
ghost use Rattle.native_protocol.specs.declared.request.Request.{Request};
ghost use Rattle.es_meaning.specs.BuiltIns.{BuiltIns};
ghost use Rattle.step_natives.specs.States.{waiting_steps};
ghost use Rattle.run_state.specs.Worlds.{Grows};
ghost use Rattle.continuations.specs.declared.continuation.Control.TheVariants as control;
ghost use Rattle.continuations.specs.Going.{Begins, Lowers};
ghost use Rattle.continuations.specs.Kept.{scopes_of};
ghost use Rattle.continuations.specs.Loads.{Adds};
ghost use Rattle.continuations.specs.Pending.{values_of};
ghost use Rattle.continuations.specs.Invariant.{Invariant};
ghost use Rattle.continuations.specs.Stops.{HasStop};
ghost use Rattle.step_natives.specs.Framed.{steps_at, steps_behind};
ghost use Rattle.step_natives.specs.Converting.{Converts};

use crate::frames::leading;
use crate::natives::begin_native;
use crate::states::NativeStates;
use continuations::{Control, Stack};
use flow_frames::FlowFault;
use flow_text::OutOfMemory;
use js_values::Labelled;
use native_protocol::Hint;
use origin_labels::Labels;
use run_state::World;
use step_values::{converts_beside, is_object};

/// The value that lies loose comes to a primitive one. An object is converted in a frame of its own.
pub fn convert<'p, L: Labels, S: Drop>(
    labels: &mut L,
    world: &mut World<L::Label>,
    stack: &mut Stack<'p, L::Label>,
    states: &mut NativeStates<S>,
    hint: Hint,
) -> Result<Control<'p>, FlowFault<L::Label>>
    requires standing { Invariant L.made L.meaning labels.old stack.old world.old (values_of (control.Convert hint)) (scopes_of stack.old.tasks) (length states.old.states) (control.Convert hint) }
    ensures begins { (tables : Tables) (inputs : Given) (set : BuiltIns) (functions : List FunctionCode) (tells : S → Answer → S) (asks : S → Request) → Begins L.made L.meaning labels.new tables inputs set functions (waiting_steps tells asks states.old) (steps_behind tells asks states.new result) stack.old stack.new world.old world.new (control.Convert hint) result }
    ensures standing { IfOk result (λ move. Invariant L.made L.meaning labels.new stack.new world.new (values_of move) (scopes_of stack.new.tasks) (length states.new.states) move) }
    ensures lowers { IfOk result (λ move. Lowers stack.old (control.Convert hint) stack.new move) }
    ensures stopped { IfErr result (IfStop (HasStop (L.made labels.new))) }
    ensures grows { Grows world.old world.new }
    ensures kept { IsKept L.made L.meaning L.room L.firm labels.old labels.new }
{
    let value = leading(stack, 1);
    let label = value.label;
    let object = is_object(&value.value);
    if !object {
        return Ok(Control::Value);
    }
    let next = begin_conversion(labels, world, stack, states, hint, label)?;
    Ok(next)
}

/// The object that lies loose is converted in a frame with this label.
fn begin_conversion<'p, L: Labels, S: Drop>(
    labels: &mut L,
    world: &mut World<L::Label>,
    stack: &mut Stack<'p, L::Label>,
    states: &mut NativeStates<S>,
    hint: Hint,
    label: L::Label,
) -> Result<Control<'p>, OutOfMemory>
    requires label { L.made labels.old label }
    requires standing { Invariant L.made L.meaning labels.old stack.old world.old 1 (scopes_of stack.old.tasks) (length states.old.states) control.Value }
    ensures converts { (tables : Tables) (inputs : Given) (set : BuiltIns) (functions : List FunctionCode) (tells : S → Answer → S) (asks : S → Request) → IfOk result (Converts L.made L.meaning labels.new tables inputs set functions (waiting_steps tells asks states.old) (steps_at tells asks states.new) hint label stack.old stack.new world.old world.new) }
    ensures standing { IfOk result (λ move. Invariant L.made L.meaning labels.new stack.new world.new (values_of move) (scopes_of stack.new.tasks) (length states.new.states) move) }
    ensures adds { IfOk result (Adds 1 stack.old stack.new) }
    ensures grows { Grows world.old world.new }
    ensures kept { IsKept L.made L.meaning L.room L.firm labels.old labels.new }
{
    states.begin_conversion(hint)?;
    let next = begin_native(labels, world, stack, 1, label)?;
    Ok(next)
}

/// The second of the two values that lie loose comes to a primitive one. An object is converted in a frame of its own, which has the first one's label besides.
pub fn convert_beside<'p, L: Labels, S: Drop>(
    labels: &mut L,
    world: &mut World<L::Label>,
    stack: &mut Stack<'p, L::Label>,
    states: &mut NativeStates<S>,
) -> Result<Control<'p>, FlowFault<L::Label>>
    requires standing { Invariant L.made L.meaning labels.old stack.old world.old (values_of control.ConvertBeside) (scopes_of stack.old.tasks) (length states.old.states) control.ConvertBeside }
    ensures begins { (tables : Tables) (inputs : Given) (set : BuiltIns) (functions : List FunctionCode) (tells : S → Answer → S) (asks : S → Request) → Begins L.made L.meaning labels.new tables inputs set functions (waiting_steps tells asks states.old) (steps_behind tells asks states.new result) stack.old stack.new world.old world.new control.ConvertBeside result }
    ensures standing { IfOk result (λ move. Invariant L.made L.meaning labels.new stack.new world.new (values_of move) (scopes_of stack.new.tasks) (length states.new.states) move) }
    ensures lowers { IfOk result (λ move. Lowers stack.old control.ConvertBeside stack.new move) }
    ensures stopped { IfErr result (IfStop (HasStop (L.made labels.new))) }
    ensures grows { Grows world.old world.new }
    ensures kept { IsKept L.made L.meaning L.room L.firm labels.old labels.new }
{
    let value = stack.pop();
    let beside = stack.pop();
    let label = labels.join(beside.label, value.label)?;
    let object = is_object(&value.value);
    stack.lay(value)?;
    if !object {
        return Ok(Control::Value);
    }
    let next = begin_conversion(labels, world, stack, states, Hint::Number, label)?;
    Ok(next)
}

/// The first of the two values that lie loose, converted as `==` does beside the second, with the label of both.
pub fn compare<'p, L: Labels, S: Drop>(
    labels: &mut L,
    world: &mut World<L::Label>,
    stack: &mut Stack<'p, L::Label>,
    states: &mut NativeStates<S>,
) -> Result<Control<'p>, FlowFault<L::Label>>
    requires standing { Invariant L.made L.meaning labels.old stack.old world.old (values_of control.Compare) (scopes_of stack.old.tasks) (length states.old.states) control.Compare }
    ensures begins { (tables : Tables) (inputs : Given) (set : BuiltIns) (functions : List FunctionCode) (tells : S → Answer → S) (asks : S → Request) → Begins L.made L.meaning labels.new tables inputs set functions (waiting_steps tells asks states.old) (steps_behind tells asks states.new result) stack.old stack.new world.old world.new control.Compare result }
    ensures standing { IfOk result (λ move. Invariant L.made L.meaning labels.new stack.new world.new (values_of move) (scopes_of stack.new.tasks) (length states.new.states) move) }
    ensures lowers { IfOk result (λ move. Lowers stack.old control.Compare stack.new move) }
    ensures stopped { IfErr result (IfStop (HasStop (L.made labels.new))) }
    ensures grows { Grows world.old world.new }
    ensures kept { IsKept L.made L.meaning L.room L.firm labels.old labels.new }
{
    let right = stack.pop();
    let left = stack.pop();
    let label = labels.join(left.label, right.label)?;
    if converts_beside(&left.value, &right.value) {
        stack.lay(left)?;
        let next = begin_conversion(labels, world, stack, states, Hint::Default, label)?;
        return Ok(next);
    }
    stack.lay(Labelled {
        value: left.value,
        label,
    })?;
    Ok(Control::Value)
}
