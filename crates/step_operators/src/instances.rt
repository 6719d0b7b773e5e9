//! `instanceof` (ECMA-262 11.8.6).

ghost use Rattle.std.specs.Prelude.{◌≡◌, length, IfErr, IfOk};
ghost use Rattle.std.specs.List.{All};
ghost use Rattle.origin_labels.specs.Stores.{IsKept};
ghost use Rattle.flow_frames.specs.Stops.{IfStop};
ghost use Rattle.js_values.specs.Readings.{HasValue, read_value};
ghost use Rattle.es_meaning.specs.Evaluation.{instance_done};
ghost use Rattle.es_meaning.specs.Plain.{object_or_default};
ghost use Rattle.flow_meaning.specs.Planned.{gave, asking, end_instance, planned};
ghost use Rattle.step_objects.specs.Instances.{HasTest, read_test, tests_on};
ghost use Rattle.run_state.specs.declared.world.World.{World};
ghost use Rattle.run_state.specs.Worlds.{Belongs, Grows};
ghost use Rattle.continuations.specs.declared.continuation.Continuation.TheVariants as continuation;
ghost use Rattle.continuations.specs.Settings.{entrance};
ghost use Rattle.continuations.specs.Stops.{HasStop};
ghost use Rattle.step_references.specs.Moving.{Begun, Comes, Moved, Resumed};

use continuations::{Continuation, Control, Stack};
use flow_frames::FlowFault;
use flow_text::OutOfMemory;
use js_values::{Labelled, ObjId, Value};
use origin_labels::Labels;
use run_state::World;
use std::alloc::Global;
use step_objects::{InstanceTest, instance, instance_of, testing_instances};
use step_references::{Went, enter_access, go_on, hand_on};

/// Object.prototype, with which a run starts (ECMA-262 15.2.4).
const OBJECT_PROTOTYPE: ObjId = ObjId(0);

/// `instanceof` between the value of its left operand, which lies below, and that of its right one: up to the read of `prototype`.
pub fn instance_done<'p, L: Labels>(
    alloc: Global,
    labels: &mut L,
    world: &mut World<L::Label>,
    stack: &mut Stack<'p, L::Label>,
) -> Result<Control<'p>, FlowFault<L::Label>>
    requires loose { length stack.old.loose ≡ 2 }
    requires made { All (HasValue (L.made labels.old)) stack.old.loose }
    requires belongs { Belongs L.made L.meaning labels.old world.old }
    ensures goes_on { Resumed L.made L.meaning labels.new (continuation.InstanceDone) stack.old stack.new world.old world.new result }
    ensures moved { IfOk result (Moved (L.made labels.new) 9 stack.old stack.new world.old world.new) }
    ensures stopped { IfErr result (IfStop (HasStop (L.made labels.new))) }
    ensures belongs { Belongs L.made L.meaning labels.new world.new }
    ensures grows { Grows world.old world.new }
    ensures kept { IsKept L.made L.meaning L.room L.firm labels.old labels.new }
{
    let right = stack.pop();
    let left = stack.pop();
    test(alloc, labels, world, stack, left, right)
}

/// Whether a value is an instance of a function, up to the read of its `prototype`.
fn test<'p, L: Labels>(
    alloc: Global,
    labels: &mut L,
    world: &mut World<L::Label>,
    stack: &mut Stack<'p, L::Label>,
    left: Labelled<L::Label>,
    right: Labelled<L::Label>,
) -> Result<Control<'p>, FlowFault<L::Label>>
    requires loose { length stack.old.loose ≡ 0 }
    requires left { L.made labels.old left.label }
    requires right { L.made labels.old right.label }
    requires belongs { Belongs L.made L.meaning labels.old world.old }
    ensures goes_on { Begun L.made L.meaning labels.new (λ tables inputs set functions reading e. instance_done (planned tables inputs set functions) (entrance tables inputs set functions) (asking tables inputs set functions) (read_value reading left) (read_value reading right)) stack.old stack.new world.old world.new result }
    ensures moved { IfOk result (Moved (L.made labels.new) 9 stack.old stack.new world.old world.new) }
    ensures stopped { IfErr result (IfStop (HasStop (L.made labels.new))) }
    ensures belongs { Belongs L.made L.meaning labels.new world.new }
    ensures grows { Grows world.old world.new }
    ensures kept { IsKept L.made L.meaning L.room L.firm labels.old labels.new }
{
    testing_instances();
    let answer = instance(alloc, labels, world, &left, &right);
    let came = go_on(labels, stack, 0, answer)?;
    match came {
        Went::On(test) => {
            let next = read_prototype(labels, stack, test)?;
            Ok(next)
        }
        Went::Off(next) => Ok(next),
    }
}

/// A test that has its answer, or the `prototype` is read, and the object waits with the label of both operands.
fn read_prototype<'p, L: Labels>(
    labels: &L,
    stack: &mut Stack<'p, L::Label>,
    test: InstanceTest<L::Label>,
) -> Result<Control<'p>, OutOfMemory>
    requires loose { length stack.old.loose ≡ 0 }
    requires made { HasTest (L.made labels.now) test }
    ensures goes_on { IfOk result (Comes (λ tables inputs set functions reading. tests_on functions (entrance tables inputs set functions) (read_test reading test)) stack.old stack.new) }
    ensures moved { (world : World L.Label) → IfOk result (Moved (L.made labels.now) 9 stack.old stack.new world world) }
{
    match test {
        InstanceTest::Answered(value) => {
            stack.lay(value)?;
            Ok(Control::Value)
        }
        InstanceTest::Reads {
            object,
            label,
            prototype,
        } => {
            stack.lay(Labelled {
                value: Value::Object(object),
                label,
            })?;
            stack.push(Continuation::InstanceTest)?;
            let next = enter_access(labels, stack, prototype)?;
            Ok(next)
        }
    }
}

/// Behind the read of `prototype`: the object that has it among its prototypes or not lies below it.
pub fn instance_test<'p, L: Labels>(
    labels: &mut L,
    world: &mut World<L::Label>,
    stack: &mut Stack<'p, L::Label>,
) -> Result<Control<'p>, FlowFault<L::Label>>
    requires loose { length stack.old.loose ≡ 2 }
    requires made { All (HasValue (L.made labels.old)) stack.old.loose }
    requires belongs { Belongs L.made L.meaning labels.old world.old }
    ensures goes_on { Resumed L.made L.meaning labels.new (continuation.InstanceTest) stack.old stack.new world.old world.new result }
    ensures moved { IfOk result (Moved (L.made labels.new) 6 stack.old stack.new world.old world.new) }
    ensures stopped { IfErr result (IfStop (HasStop (L.made labels.new))) }
    ensures belongs { Belongs L.made L.meaning labels.new world.new }
    ensures grows { Grows world.old world.new }
    ensures kept { IsKept L.made L.meaning L.room L.firm labels.old labels.new }
{
    let proto = stack.pop();
    let object = stack.pop();
    look_up(labels, world, stack, object, proto)
}

/// Whether an object has the `prototype` among its own.
fn look_up<'p, L: Labels>(
    labels: &mut L,
    world: &mut World<L::Label>,
    stack: &mut Stack<'p, L::Label>,
    object: Labelled<L::Label>,
    proto: Labelled<L::Label>,
) -> Result<Control<'p>, FlowFault<L::Label>>
    requires loose { length stack.old.loose ≡ 0 }
    requires object { L.made labels.old object.label }
    requires proto { L.made labels.old proto.label }
    requires belongs { Belongs L.made L.meaning labels.old world.old }
    ensures goes_on { Begun L.made L.meaning labels.new (λ tables inputs set functions reading e s. end_instance (reading object.label) (object_or_default object.value).0 (gave (read_value reading proto)) s) stack.old stack.new world.old world.new result }
    ensures moved { IfOk result (Moved (L.made labels.new) 6 stack.old stack.new world.old world.new) }
    ensures stopped { IfErr result (IfStop (HasStop (L.made labels.new))) }
    ensures belongs { Belongs L.made L.meaning labels.new world.new }
    ensures grows { Grows world.old world.new }
    ensures kept { IsKept L.made L.meaning L.room L.firm labels.old labels.new }
{
    let number = object_in(&object.value);
    let answer = instance_of(labels, world, number, object.label, proto);
    hand_on(labels, stack, answer)
}

/// The object that a value is. No other is kept.
pub(crate) fn object_in(value: &Value) -> ObjId
    ensures { result ≡ object_or_default value.now }
{
    match value {
        Value::Primitive(_) => OBJECT_PROTOTYPE,
        Value::Object(o) => *o,
    }
}
