//! What is called, but no function of the script and no built-in.

ghost use Rattle.std.specs.Prelude.{◌≡◌, ◌∷◌, [], List, false, length, IfErr, IfOk};
ghost use Rattle.origin_labels.specs.Stores.{IsKept};
ghost use Rattle.flow_frames.specs.declared.kind.Kind.TheVariants as kind;
ghost use Rattle.flow_frames.specs.Kinds.{is_try};
ghost use Rattle.flow_frames.specs.Stops.{IfStop};
ghost use Rattle.flow_policy.specs.Policies.{Tables};
ghost use Rattle.flow_policy.specs.Inputs.{Given};
ghost use Rattle.js_ast.specs.Functions.{FunctionCode};
ghost use Rattle.js_values.specs.declared.value.Labelled.{Labelled as LabelledOf};
ghost use Rattle.native_protocol.specs.Steps.{Steps};
ghost use Rattle.es_meaning.specs.BuiltIns.{BuiltIns};
ghost use Rattle.es_meaning.specs.Functions.{empty_callee};
ghost use Rattle.run_state.specs.declared.outcome.Outcome.TheVariants as outcome;
ghost use Rattle.run_state.specs.Worlds.{Grows};
ghost use Rattle.continuations.specs.declared.continuation.Jump.TheVariants as jump;
ghost use Rattle.continuations.specs.declared.continuation.Control.TheVariants as control;
ghost use Rattle.continuations.specs.Kept.{scopes_of, waiting};
ghost use Rattle.continuations.specs.Loads.{Adds};
ghost use Rattle.continuations.specs.Pending.{values_of};
ghost use Rattle.continuations.specs.Invariant.{Invariant, running};
ghost use Rattle.continuations.specs.Stops.{HasStop};
ghost use Rattle.step_natives.specs.Framed.{Begun};
ghost use Rattle.step_calling.specs.Calling.{InCall, IsThrow, Refuses};

use continuations::{Control, Jump, Stack};
use flow_frames::{FlowFault, Kind, belonging_lasts};
use flow_text::OutOfMemory;
use js_number::Primitive;
use js_values::{Labelled, Value};
use native_protocol::ErrorKind;
use origin_labels::Labels;
use property_access::throw_error;
use run_state::{Outcome, World};

/// Lays what an act threw, in place of the values that lay loose.
fn thrown<'p, T: Copy>(
    stack: &mut Stack<'p, T>,
    count: usize,
    answer: Outcome<Control<'p>, T>,
) -> Result<Control<'p>, OutOfMemory>
    requires count { count ≡ length stack.old.loose }
    requires throws { IsThrow answer }
    ensures jumps { IfOk result (λ move. move ≡ control.Jumps jump.Throws) }
    ensures tasks { stack.new.tasks ≡ stack.old.tasks }
    ensures lies { IfOk result (λ move. (error : LabelledOf T) → answer.entry ≡ outcome.Throws error → stack.new.loose ≡ error ∷ []) }
{
    match answer {
        Outcome::Throws(error) => {
            stack.clear(count);
            stack.lay(error)?;
            Ok(Control::Jumps(Jump::Throws))
        }
        Outcome::Goes(_) => unreachable!(),
        Outcome::Leaves(_) => unreachable!(),
    }
}

/// What can't be called throws a type error, from inside the frame of the call, which is left by that.
pub(crate) fn refuse<'p, L: Labels>(
    labels: &mut L,
    world: &mut World<L::Label>,
    stack: &mut Stack<'p, L::Label>,
    _kind: Kind,
    count: usize,
    _depth: usize,
    label: L::Label,
) -> Result<Control<'p>, FlowFault<L::Label>>
    requires kind { is_try _kind ≡ false }
    requires begun { Begun L.made L.meaning labels.old _kind stack.old world.old count _depth label }
    ensures refuses { (tables : Tables) (inputs : Given) (set : BuiltIns) (functions : List FunctionCode) (ns : List Steps) → Refuses L.made L.meaning labels.new tables inputs set functions ns label stack.old stack.new world.old world.new result }
    ensures quiet { IfOk result (λ move. running move ≡ 0) }
    ensures standing { IfOk result (λ move. Invariant L.made L.meaning labels.new stack.new world.new (values_of move) (scopes_of stack.new.tasks) (waiting stack.old.tasks) move) }
    ensures adds { IfOk result (Adds 6 stack.old stack.new) }
    ensures stopped { IfErr result (IfStop (HasStop (L.made labels.new))) }
    ensures grows { Grows world.old world.new }
    ensures kept { IsKept L.made L.meaning L.room L.firm labels.old labels.new }
{
    let answer = throw_error(labels, world, ErrorKind::TypeError, label)?;
    let next = thrown(stack, count, answer)?;
    Ok(next)
}

/// The prototype of functions gives undefined (ECMA-262 15.3.4).
pub(crate) fn give_nothing<'p, L: Labels>(
    labels: &L,
    world: &mut World<L::Label>,
    stack: &mut Stack<'p, L::Label>,
    count: usize,
    _depth: usize,
    _label: L::Label,
) -> Result<Control<'p>, FlowFault<L::Label>>
    requires begun { Begun L.made L.meaning labels.now kind.Call stack.old world.old count _depth _label }
    ensures gives { (tables : Tables) (inputs : Given) (set : BuiltIns) (functions : List FunctionCode) (ns : List Steps) → InCall L.made L.meaning labels.now tables inputs set functions ns empty_callee _label _depth stack.old stack.new world.old world.new result }
    ensures quiet { IfOk result (λ move. running move ≡ 0) }
    ensures standing { IfOk result (λ move. Invariant L.made L.meaning labels.now stack.new world.new (values_of move) (scopes_of stack.new.tasks) (waiting stack.old.tasks) move) }
    ensures adds { IfOk result (Adds 6 stack.old stack.new) }
    ensures stopped { IfErr result (IfStop (HasStop (L.made labels.now))) }
    ensures grows { Grows world.old world.new }
{
    belonging_lasts::<L>();
    let _labels = labels;
    let label = world.frames.pop();
    let _count = world.frames.len();
    stack.clear(count);
    stack.lay(Labelled {
        value: Value::Primitive(Primitive::Undefined),
        label,
    })?;
    Ok(Control::Value)
}
