//! The ends of calls, and of calls that make an object (ECMA-262 13.2.1, 13.2.2).

ghost use Rattle.std.specs.Prelude.{◌≡◌, ◌+◌, ◌<◌, ◌++◌, ◌∷◌, [], List, length, map, take, drop, IfErr, IfOk};
ghost use Rattle.origin_labels.specs.Label.{Label};
ghost use Rattle.origin_labels.specs.Stores.{IsKept};
ghost use Rattle.flow_policy.specs.Policies.{Tables};
ghost use Rattle.flow_policy.specs.Inputs.{Given};
ghost use Rattle.flow_frames.specs.Held.{Belong, meant_at, seen_frame};
ghost use Rattle.flow_frames.specs.Stops.{IfStop};
ghost use Rattle.js_ast.specs.Functions.{FunctionCode};
ghost use Rattle.js_values.specs.declared.value.Labelled.{Labelled as LabelledOf};
ghost use Rattle.es_meaning.specs.Plain.{object_or, object_or_default};
ghost use Rattle.es_meaning.specs.BuiltIns.{BuiltIns};
ghost use Rattle.run_state.specs.Worlds.{Grows};
ghost use Rattle.continuations.specs.declared.continuation.Control.TheVariants as control;
ghost use Rattle.continuations.specs.declared.continuation.Continuation.TheVariants as continuation;
ghost use Rattle.continuations.specs.Going.{Passes, Resumes};
ghost use Rattle.continuations.specs.Kept.{scope_of, scopes_of, waiting};
ghost use Rattle.continuations.specs.Loads.{Adds, weight};
ghost use Rattle.continuations.specs.Pending.{owns, values_of};
ghost use Rattle.continuations.specs.Invariant.{Invariant};
ghost use Rattle.continuations.specs.Stops.{HasStop};
ghost use Rattle.step_jumps.specs.Calling.{Answers};
ghost use Rattle.native_protocol.specs.Steps.{Steps};

use continuations::{Control, Jump, Stack};
use flow_frames::{FlowFault, Frames, belonging_lasts};
use flow_text::OutOfMemory;
use js_number::Primitive;
use js_values::{EnvId, Labelled, ObjId, Value};
use origin_labels::Labels;
use run_state::World;

/// The prototype of all objects, which a run starts with.
const OBJECT_PROTOTYPE: ObjId = ObjId(0);

/// Leaves the last frame, which stands at the depth, and gives its label.
fn leave_frame<L: Labels>(_labels: &L, frames: &mut Frames<L::Label>, depth: usize) -> L::Label
    requires frame { length frames.old.frames ≡ depth + 1 }
    requires inner { 0 < depth }
    requires belongs { Belong L.made L.meaning _labels.now frames.old.frames }
    ensures outside { (reading : L.Label → Label) → map (seen_frame reading) frames.new.frames ≡ take depth (map (seen_frame reading) frames.old.frames) }
    ensures label { (reading : L.Label → Label) → meant_at (map (seen_frame reading) frames.old.frames) depth ≡ reading result }
    ensures made { L.made _labels.now result }
    ensures length { length frames.new.frames + 1 ≡ length frames.old.frames }
    ensures belongs { Belong L.made L.meaning _labels.now frames.new.frames }
{
    belonging_lasts::<L>();
    let _place = depth;
    frames.pop()
}

/// The call's frame is left, and a value is its result, which depends on what decided to call.
fn answer_with<'p, L: Labels>(
    labels: &mut L,
    world: &mut World<L::Label>,
    stack: &mut Stack<'p, L::Label>,
    depth: usize,
    value: Labelled<L::Label>,
) -> Result<Control<'p>, OutOfMemory>
    requires loose { stack.old.loose ≡ [] }
    requires value { L.made labels.old value.label }
    requires frame { length world.old.frames.frames ≡ depth + 1 }
    requires inner { 0 < depth }
    requires belongs { Belong L.made L.meaning labels.old world.old.frames.frames }
    ensures answers { IfOk result (Answers L.made L.meaning labels.new depth value stack.old stack.new world.old world.new) }
    ensures grows { Grows world.old world.new }
    ensures kept { IsKept L.made L.meaning L.room L.firm labels.old labels.new }
{
    belonging_lasts::<L>();
    let chosen = leave_frame(labels, &mut world.frames, depth);
    let _outside = world.frames.len();
    let label = labels.join(value.label, chosen)?;
    let value = Labelled {
        value: value.value,
        label,
    };
    stack.lay(value)?;
    Ok(Control::Value)
}

/// A call that comes to its end gives undefined.
pub fn end_call<'p, L: Labels>(
    labels: &mut L,
    world: &mut World<L::Label>,
    stack: &mut Stack<'p, L::Label>,
    own: EnvId,
    depth: usize,
) -> Result<Control<'p>, FlowFault<L::Label>>
    requires standing { Invariant L.made L.meaning labels.old stack.old world.old (owns (continuation.EndCall own depth)) (scopes_of stack.old.tasks ++ scope_of (continuation.EndCall own depth)) (waiting stack.old.tasks) control.Value }
    ensures resumes { (tables : Tables) (inputs : Given) (set : BuiltIns) (functions : List FunctionCode) (natives : List Steps) → Resumes L.made L.meaning labels.new tables inputs set functions (continuation.EndCall own depth) natives natives stack.old stack.new world.old world.new result }
    ensures standing { IfOk result (λ move. Invariant L.made L.meaning labels.new stack.new world.new (values_of move) (scopes_of stack.new.tasks) (waiting stack.old.tasks) move) }
    ensures adds { IfOk result (Adds (weight (continuation.EndCall own depth) + 5) stack.old stack.new) }
    ensures stopped { IfErr result (IfStop (HasStop (L.made labels.new))) }
    ensures grows { Grows world.old world.new }
    ensures kept { IsKept L.made L.meaning L.room L.firm labels.old labels.new }
{
    let _began = own;
    let none = labels.bottom();
    let value = Labelled {
        value: Value::Primitive(Primitive::Undefined),
        label: none,
    };
    let next = answer_with(labels, world, stack, depth, value)?;
    Ok(next)
}

/// A jump comes to the end of a call. If its frame was left before, it passes. Else its value is returned.
pub fn pass_call<'p, L: Labels>(
    labels: &mut L,
    world: &mut World<L::Label>,
    stack: &mut Stack<'p, L::Label>,
    jump: Jump,
    own: EnvId,
    depth: usize,
) -> Result<Control<'p>, FlowFault<L::Label>>
    requires standing { Invariant L.made L.meaning labels.old stack.old world.old (owns (continuation.EndCall own depth) + 1) (scopes_of stack.old.tasks ++ scope_of (continuation.EndCall own depth)) (waiting stack.old.tasks) (control.Jumps jump) }
    ensures passes { (tables : Tables) (inputs : Given) (set : BuiltIns) (functions : List FunctionCode) (natives : List Steps) (value : LabelledOf L.Label) → drop (owns (continuation.EndCall own depth)) stack.old.loose ≡ value ∷ [] → Passes L.made L.meaning labels.new tables inputs set functions jump (continuation.EndCall own depth) value natives natives stack.old stack.new world.old world.new result }
    ensures standing { IfOk result (λ move. Invariant L.made L.meaning labels.new stack.new world.new (values_of move) (scopes_of stack.new.tasks) (waiting stack.old.tasks) move) }
    ensures adds { IfOk result (Adds (weight (continuation.EndCall own depth) + 5) stack.old stack.new) }
    ensures stopped { IfErr result (IfStop (HasStop (L.made labels.new))) }
    ensures grows { Grows world.old world.new }
    ensures kept { IsKept L.made L.meaning L.room L.firm labels.old labels.new }
{
    let _began = own;
    if world.frames.len() <= depth {
        return Ok(Control::Jumps(jump));
    }
    let value = stack.pop();
    let next = answer_with(labels, world, stack, depth, value)?;
    Ok(next)
}

/// The object that a construction made, of the operand that holds it.
fn made(value: &Value) -> ObjId
    ensures { result ≡ object_or_default value.now }
{
    match value {
        Value::Object(o) => *o,
        Value::Primitive(_) => OBJECT_PROTOTYPE,
    }
}

/// A construction that comes to its end gives the object that it made.
pub fn end_construction<'p, L: Labels>(
    labels: &mut L,
    world: &mut World<L::Label>,
    stack: &mut Stack<'p, L::Label>,
    own: EnvId,
    depth: usize,
) -> Result<Control<'p>, FlowFault<L::Label>>
    requires standing { Invariant L.made L.meaning labels.old stack.old world.old (owns (continuation.EndNew own depth)) (scopes_of stack.old.tasks ++ scope_of (continuation.EndNew own depth)) (waiting stack.old.tasks) control.Value }
    ensures resumes { (tables : Tables) (inputs : Given) (set : BuiltIns) (functions : List FunctionCode) (natives : List Steps) → Resumes L.made L.meaning labels.new tables inputs set functions (continuation.EndNew own depth) natives natives stack.old stack.new world.old world.new result }
    ensures standing { IfOk result (λ move. Invariant L.made L.meaning labels.new stack.new world.new (values_of move) (scopes_of stack.new.tasks) (waiting stack.old.tasks) move) }
    ensures adds { IfOk result (Adds (weight (continuation.EndNew own depth) + 5) stack.old stack.new) }
    ensures stopped { IfErr result (IfStop (HasStop (L.made labels.new))) }
    ensures grows { Grows world.old world.new }
    ensures kept { IsKept L.made L.meaning L.room L.firm labels.old labels.new }
{
    let _began = own;
    let fresh = stack.pop();
    let none = labels.bottom();
    let value = Labelled {
        value: Value::Object(made(&fresh.value)),
        label: none,
    };
    let next = answer_with(labels, world, stack, depth, value)?;
    Ok(next)
}

/// What a construction gives whose function returned a value: that, if it is an object, and else what was made.
fn chosen<T: Copy>(fresh: &Value, value: Labelled<T>) -> Labelled<T>
    ensures label { result.label ≡ value.label }
    ensures value { result.value ≡ object_or (object_or_default fresh.now).0 value.value }
{
    match value.value {
        Value::Object(_) => value,
        Value::Primitive(_) => Labelled {
            value: Value::Object(made(fresh)),
            label: value.label,
        },
    }
}

/// A jump comes to the end of a construction. If its frame was left before, it passes. Else an object that is returned stands for the one that was made.
pub fn pass_construction<'p, L: Labels>(
    labels: &mut L,
    world: &mut World<L::Label>,
    stack: &mut Stack<'p, L::Label>,
    jump: Jump,
    own: EnvId,
    depth: usize,
) -> Result<Control<'p>, FlowFault<L::Label>>
    requires standing { Invariant L.made L.meaning labels.old stack.old world.old (owns (continuation.EndNew own depth) + 1) (scopes_of stack.old.tasks ++ scope_of (continuation.EndNew own depth)) (waiting stack.old.tasks) (control.Jumps jump) }
    ensures passes { (tables : Tables) (inputs : Given) (set : BuiltIns) (functions : List FunctionCode) (natives : List Steps) (value : LabelledOf L.Label) → drop (owns (continuation.EndNew own depth)) stack.old.loose ≡ value ∷ [] → Passes L.made L.meaning labels.new tables inputs set functions jump (continuation.EndNew own depth) value natives natives stack.old stack.new world.old world.new result }
    ensures standing { IfOk result (λ move. Invariant L.made L.meaning labels.new stack.new world.new (values_of move) (scopes_of stack.new.tasks) (waiting stack.old.tasks) move) }
    ensures adds { IfOk result (Adds (weight (continuation.EndNew own depth) + 5) stack.old stack.new) }
    ensures stopped { IfErr result (IfStop (HasStop (L.made labels.new))) }
    ensures grows { Grows world.old world.new }
    ensures kept { IsKept L.made L.meaning L.room L.firm labels.old labels.new }
{
    let _began = own;
    let value = stack.pop();
    let fresh = stack.pop();
    if world.frames.len() <= depth {
        stack.lay(value)?;
        return Ok(Control::Jumps(jump));
    }
    let given = chosen(&fresh.value, value);
    let next = answer_with(labels, world, stack, depth, given)?;
    Ok(next)
}
