//! What is done with the value of a reference besides (ECMA-262 11.2.3, 11.3, 11.4, 11.13.2): work for that waits while the value is read.

ghost use Rattle.std.specs.Prelude.{◌≡◌, length, IfErr, IfOk};
ghost use Rattle.origin_labels.specs.Label.{Label};
ghost use Rattle.origin_labels.specs.Stores.{IsKept};
ghost use Rattle.flow_frames.specs.Stops.{IfStop};
ghost use Rattle.js_ast.specs.Views.{view_expr, view_exprs};
ghost use Rattle.js_values.specs.Readings.{IsReading, read_value};
ghost use Rattle.es_meaning.specs.Operations as operations;
ghost use Rattle.es_meaning.specs.Operations.{asked, called, updated_by};
ghost use Rattle.es_meaning.specs.Plain.{undefined};
ghost use Rattle.es_meaning.specs.Evaluation.{used};
ghost use Rattle.flow_meaning.specs.Erased.{unlabelled};
ghost use Rattle.flow_meaning.specs.Planned.{planned, asking};
ghost use Rattle.flow_meaning.specs.Tracked.{base_of};
ghost use Rattle.step_objects.specs.References.{refers, HasReference};
ghost use Rattle.run_state.specs.Worlds.{Belongs, Grows};
ghost use Rattle.continuations.specs.Settings.{entrance};
ghost use Rattle.continuations.specs.Stops.{HasStop};
ghost use Rattle.step_references.specs.Keeping.{counted_by};
ghost use Rattle.step_numbers.specs.Named.{IsNamed};
ghost use Rattle.step_references.specs.Moving.{Begun, BegunAt, Moved};

use crate::handing_on::hand_on_access;
use crate::keeping::lay_reference;
use continuations::{Continuation, Control, Counting, Stack};
use flow_frames::FlowFault;
use flow_text::Text;
use js_ast::{BinaryOperator, Expr, UnaryOperator};
use js_number::Primitive;
use js_values::{EnvId, Labelled, Value};
use origin_labels::Labels;
use run_state::{Access, Outcome, World};
use std::alloc::Global;
use step_objects::{Reference, get_value, typeof_value};

/// A compound assignment: the old value, and then the operand.
pub(crate) fn begin_update<'p, L: Labels>(
    alloc: Global,
    labels: &mut L,
    world: &mut World<L::Label>,
    stack: &mut Stack<'p, L::Label>,
    reference: Reference<'p, L::Label>,
    operator: BinaryOperator,
    operand: &'p Expr,
) -> Result<Control<'p>, FlowFault<L::Label>>
    requires loose { length stack.old.loose ≡ 0 }
    requires reference { HasReference (L.made labels.old) reference }
    requires belongs { Belongs L.made L.meaning labels.old world.old }
    ensures goes_on { Begun L.made L.meaning labels.new (λ tables inputs set functions reading e. used (planned tables inputs set functions) (entrance tables inputs set functions) (asking tables inputs set functions) (updated_by operator (view_expr operand.entry.now)) e.env.place (refers reading reference.entry)) stack.old stack.new world.old world.new result }
    ensures moved { IfOk result (Moved (L.made labels.new) 16 stack.old stack.new world.old world.new) }
    ensures stopped { IfErr result (IfStop (HasStop (L.made labels.new))) }
    ensures belongs { Belongs L.made L.meaning labels.new world.new }
    ensures grows { Grows world.old world.new }
    ensures kept { IsKept L.made L.meaning L.room L.firm labels.old labels.new }
{
    let answer = get_value(alloc, labels, world, &reference);
    let target = lay_reference(stack, reference)?;
    stack.push(Continuation::CompoundRight(operator, operand, target))?;
    hand_on_access(labels, stack, answer)
}

/// `++` or `--`: the old value first.
pub(crate) fn begin_count<'p, L: Labels>(
    alloc: Global,
    labels: &mut L,
    world: &mut World<L::Label>,
    stack: &mut Stack<'p, L::Label>,
    reference: Reference<'p, L::Label>,
    counting: Counting,
    operator: BinaryOperator,
) -> Result<Control<'p>, FlowFault<L::Label>>
    requires loose { length stack.old.loose ≡ 0 }
    requires reference { HasReference (L.made labels.old) reference }
    requires belongs { Belongs L.made L.meaning labels.old world.old }
    ensures goes_on { Begun L.made L.meaning labels.new (λ tables inputs set functions reading e. used (planned tables inputs set functions) (entrance tables inputs set functions) (asking tables inputs set functions) (counted_by counting operator) e.env.place (refers reading reference.entry)) stack.old stack.new world.old world.new result }
    ensures moved { IfOk result (Moved (L.made labels.new) 16 stack.old stack.new world.old world.new) }
    ensures stopped { IfErr result (IfStop (HasStop (L.made labels.new))) }
    ensures belongs { Belongs L.made L.meaning labels.new world.new }
    ensures grows { Grows world.old world.new }
    ensures kept { IsKept L.made L.meaning L.room L.firm labels.old labels.new }
{
    let answer = get_value(alloc, labels, world, &reference);
    let target = lay_reference(stack, reference)?;
    stack.push(Continuation::Counted(counting, operator, target))?;
    hand_on_access(labels, stack, answer)
}

/// `typeof` of a reference.
pub(crate) fn begin_asking<'p, L: Labels>(
    alloc: Global,
    labels: &mut L,
    world: &mut World<L::Label>,
    stack: &mut Stack<'p, L::Label>,
    reference: &Reference<'_, L::Label>,
) -> Result<Control<'p>, FlowFault<L::Label>>
    requires loose { length stack.old.loose ≡ 0 }
    requires reference { HasReference (L.made labels.old) reference.now }
    requires belongs { Belongs L.made L.meaning labels.old world.old }
    ensures goes_on { Begun L.made L.meaning labels.new (λ tables inputs set functions reading e. used (planned tables inputs set functions) (entrance tables inputs set functions) (asking tables inputs set functions) asked e.env.place (refers reading reference.now)) stack.old stack.new world.old world.new result }
    ensures moved { IfOk result (Moved (L.made labels.new) 11 stack.old stack.new world.old world.new) }
    ensures stopped { IfErr result (IfStop (HasStop (L.made labels.new))) }
    ensures belongs { Belongs L.made L.meaning labels.new world.new }
    ensures grows { Grows world.old world.new }
    ensures kept { IsKept L.made L.meaning L.room L.firm labels.old labels.new }
{
    let answer = typeof_value(alloc, labels, world, reference);
    stack.push(Continuation::Unary(UnaryOperator::Typeof))?;
    hand_on_access(labels, stack, answer)
}

/// The value of a reference is called: what the call has as `this` lies below it.
#[inline(always)]
pub(crate) fn begin_call<'p, L: Labels>(
    alloc: Global,
    labels: &mut L,
    world: &mut World<L::Label>,
    stack: &mut Stack<'p, L::Label>,
    reference: Reference<'p, L::Label>,
    list: &'p [Expr],
) -> Result<Control<'p>, FlowFault<L::Label>>
    requires loose { length stack.old.loose ≡ 0 }
    requires reference { HasReference (L.made labels.old) reference }
    requires belongs { Belongs L.made L.meaning labels.old world.old }
    ensures goes_on { Begun L.made L.meaning labels.new (λ tables inputs set functions reading e. used (planned tables inputs set functions) (entrance tables inputs set functions) (asking tables inputs set functions) (called (view_exprs list.entry.now)) e.env.place (refers reading reference.entry)) stack.old stack.new world.old world.new result }
    ensures moved { IfOk result (Moved (L.made labels.new) 11 stack.old stack.new world.old world.new) }
    ensures stopped { IfErr result (IfStop (HasStop (L.made labels.new))) }
    ensures belongs { Belongs L.made L.meaning labels.new world.new }
    ensures grows { Grows world.old world.new }
    ensures kept { IsKept L.made L.meaning L.room L.firm labels.old labels.new }
{
    let answer = get_value(alloc, labels, world, &reference);
    stack.lay(this_of(labels, reference))?;
    stack.push(Continuation::CalledBy(list))?;
    hand_on_access(labels, stack, answer)
}

/// The value of a name is called, which was read at once.
#[inline(always)]
pub(crate) fn call_named<'p, L: Labels>(
    labels: &L,
    _world: &World<L::Label>,
    stack: &mut Stack<'p, L::Label>,
    _at: EnvId,
    _name: &Text,
    callee: Labelled<L::Label>,
    list: &'p [Expr],
) -> Result<Control<'p>, FlowFault<L::Label>>
    requires loose { length stack.old.loose ≡ 0 }
    requires named { IsNamed L.made L.meaning labels.now _at.0 _name.now _world.now callee }
    ensures goes_on { BegunAt L.made L.meaning labels.now _at.0 (λ tables inputs set functions reading e. (planned tables inputs set functions).resolve operations.Value e.env.place _name.now (used (planned tables inputs set functions) (entrance tables inputs set functions) (asking tables inputs set functions) (called (view_exprs list.entry.now)) e.env.place)) stack.old stack.new _world.now _world.now result }
    ensures moved { IfOk result (Moved (L.made labels.now) 11 stack.old stack.new _world.now _world.now) }
    ensures stopped { IfErr result (IfStop (HasStop (L.made labels.now))) }
{
    let answer = Ok(Outcome::Goes(Access::Value(callee)));
    stack.lay(no_this(labels))?;
    stack.push(Continuation::CalledBy(list))?;
    hand_on_access(labels, stack, answer)
}

/// What a call of a reference has as `this`: a name has none.
fn this_of<L: Labels>(labels: &L, reference: Reference<'_, L::Label>) -> Labelled<L::Label>
    requires reference { HasReference (L.made labels.now) reference }
    ensures made { L.made labels.now result.label }
    ensures base { (reading : L.Label → Label) → IsReading L.made L.meaning labels.now reading → read_value reading result ≡ base_of (refers reading reference.entry) }
{
    match reference {
        Reference::Name(_) => no_this(labels),
        Reference::Property(base, _) => base,
    }
}

/// What a call of a name has as `this`.
#[inline(always)]
fn no_this<L: Labels>(labels: &L) -> Labelled<L::Label>
    ensures made { L.made labels.now result.label }
    ensures undefined { (reading : L.Label → Label) → IsReading L.made L.meaning labels.now reading → read_value reading result ≡ unlabelled undefined }
{
    Labelled {
        value: Value::Primitive(Primitive::Undefined),
        label: labels.bottom(),
    }
}
