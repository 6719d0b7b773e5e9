//! Whether a value is an instance of a function (ECMA-262 11.8.6, 15.3.5.3).

ghost use Rattle.std.specs.Prelude.{◌≡◌, ◌<◌, IfOk, length, slice_get};
ghost use Rattle.origin_labels.specs.Label.{Label, union};
ghost use Rattle.origin_labels.specs.Stores.{IsKept};
ghost use Rattle.js_values.specs.declared.value.Value.TheVariants as kinds;
ghost use Rattle.js_values.specs.Readings.{HasHeap, HasValue, read_heap, read_value};
ghost use Rattle.es_meaning.specs.Functions.{is_function};
ghost use Rattle.es_meaning.specs.Plain.{prototype_name};
ghost use Rattle.flow_meaning.specs.Requested.{is_function_at};
ghost use Rattle.flow_meaning.specs.Tracked.{is_instance};
ghost use Rattle.run_state.specs.Acts.{Acts, HasAnswer};
ghost use Rattle.run_state.specs.Worlds.{Belongs, Grows};
ghost use Rattle.step_objects.specs.Instances.{AreTested, HasTest, IsAimed, IsLinked, IsTest, bound_at, bound_in, read_test, test_of, tested};

use crate::parts::join;
use flow_frames::FlowFault;
use flow_text::{OutOfMemory, Text};
use js_number::Primitive;
use js_values::{Class, Inner, Labelled, ObjId, Value};
use native_protocol::ErrorKind;
use object_heap::Heap;
use origin_labels::Labels;
use property_access::{get_of, throw_error};
use run_state::{Access, Outcome, World};
use std::alloc::Global;

// `prototype`
const PROTOTYPE: [u16; 9] = [0x70, 0x72, 0x6f, 0x74, 0x6f, 0x74, 0x79, 0x70, 0x65];

/// What `instanceof` comes to before the `prototype` of its function is known: the answer; or the read of the `prototype`, behind which `instance_of` looks at the
/// object. `label` is that of both operands.
#[derive(Drop)]
pub enum InstanceTest<T> {
    Answered(Labelled<T>),
    Reads {
        object: ObjId,
        label: T,
        prototype: Access<T>,
    },
}

/// The function that a bound one calls, or comes to in the end, with the label of the targets on the way.
#[derive(Clone, Copy)]
pub(crate) struct Aimed<T> {
    pub function: ObjId,
    pub label: T,
}

/// Whether an object stands among the prototypes of another one, and the label of the links up to it.
#[derive(Clone, Copy)]
pub(crate) struct Linked<T> {
    pub is: bool,
    pub links: T,
}

/// Whether a value is an instance of a function, up to the read of its `prototype`. What is no function throws a TypeError, whose cause is its label.
pub fn instance<T: Copy, L: Labels<Label = T>>(
    alloc: Global,
    labels: &mut L,
    world: &mut World<T>,
    value: &Labelled<T>,
    function: &Labelled<T>,
) -> Result<Outcome<InstanceTest<T>, T>, FlowFault<T>>
    requires value { L.made labels.old value.now.label }
    requires function { L.made labels.old function.now.label }
    requires belongs { Belongs L.made L.meaning labels.old world.old }
    ensures acts { Acts L.made L.meaning labels.new (λ reading. read_test reading) (λ reading. tested (read_value reading value.now) (reading function.now.label) function.now.value) world.old world.new result }
    ensures made { HasAnswer (HasTest (L.made labels.new)) (L.made labels.new) result }
    ensures belongs { Belongs L.made L.meaning labels.new world.new }
    ensures grows { Grows world.old world.new }
    ensures kept { IsKept L.made L.meaning L.room L.firm labels.old labels.new }
{
    let Value::Object(f) = function.value else {
        return throw_error(labels, world, ErrorKind::TypeError, function.label);
    };
    let holds = is_function(&world.heap, f);
    if !holds {
        return throw_error(labels, world, ErrorKind::TypeError, function.label);
    }
    let test = test_of(alloc, labels, world, value, f, function.label)?;
    Ok(Outcome::Goes(test))
}

/// What `instanceof` does up to the read is what the plan of the meaning does.
pub fn testing_instances()
    ensures { AreTested }
{}

/// Whether an object is a function.
fn is_function<T: Copy>(heap: &Heap<T>, o: ObjId) -> bool
    ensures { (reading : T → Label) → result ≡ is_function_at (read_heap reading heap.now) (kinds.Object o) }
{
    if o.0 < heap.len() {
        return is_function_class(heap.shape(o).class);
    }
    false
}

fn is_function_class(class: Class) -> bool
    ensures { result ≡ is_function class }
{
    match class {
        Class::Function => true,
        _ => false,
    }
}

/// The test for a function, which has this label.
fn test_of<T: Copy, L: Labels<Label = T>>(
    alloc: Global,
    labels: &mut L,
    world: &World<T>,
    value: &Labelled<T>,
    f: ObjId,
    label: T,
) -> Result<InstanceTest<T>, OutOfMemory>
    requires value { L.made labels.old value.now.label }
    requires label { L.made labels.old label }
    requires belongs { Belongs L.made L.meaning labels.old world.now }
    ensures test { IfOk result (IsTest L.made L.meaning labels.new (λ reading. test_of (read_heap reading world.now.heap) (read_value reading value.now) (reading label) f.0)) }
    ensures kept { IsKept L.made L.meaning L.room L.firm labels.old labels.new }
{
    let Value::Object(object) = value.value else {
        let label = join(labels, value.label, label)?;
        return Ok(InstanceTest::Answered(Labelled {
            value: Value::Primitive(Primitive::Bool(false)),
            label,
        }));
    };
    let aimed = aim_of(&world.heap, labels, f)?;
    let of_function = join(labels, label, aimed.label)?;
    let depends = join(labels, value.label, of_function)?;
    let name = prototype_name(alloc)?;
    let function = aimed.function;
    let prototype = get_of(alloc, labels, world, function, of_function, &name, depends)?;
    Ok(InstanceTest::Reads {
        object,
        label: depends,
        prototype,
    })
}

fn prototype_name(alloc: Global) -> Result<Text, OutOfMemory>
    ensures { IfOk result (λ name. name ≡ prototype_name) }
{
    let mut name = Text::new(alloc);
    name.push_units(&PROTOTYPE)?;
    Ok(name)
}

/// The function that a bound one comes to. An object that isn't there is no bound function.
fn aim_of<T: Copy, L: Labels<Label = T>>(
    heap: &Heap<T>,
    labels: &mut L,
    f: ObjId,
) -> Result<Aimed<T>, OutOfMemory>
    requires { HasHeap (L.made labels.old) heap.now }
    ensures aimed { IfOk result (IsAimed L.made L.meaning labels.new heap.now f.0) }
    ensures kept { IsKept L.made L.meaning L.room L.firm labels.old labels.new }
{
    if f.0 < heap.len() {
        return walk_targets(heap, labels, f);
    }
    let label = labels.bottom();
    Ok(Aimed { function: f, label })
}

/// The walk from a function along its targets.
fn walk_targets<T: Copy, L: Labels<Label = T>>(
    heap: &Heap<T>,
    labels: &mut L,
    f: ObjId,
) -> Result<Aimed<T>, OutOfMemory>
    requires there { f.0 < length heap.now }
    requires belongs { HasHeap (L.made labels.old) heap.now }
    ensures aimed { IfOk result (IsAimed L.made L.meaning labels.new heap.now f.0) }
    ensures kept { IsKept L.made L.meaning L.room L.firm labels.old labels.new }
{
    // Its clause says that each target's number is below its function's, so that the walk ends.
    let count = heap.len();
    prove!(f.0 < count);
    let mut at = f;
    let mut label = labels.bottom();
    'along: loop {
        match bound_at(heap, at) {
            Some(target) => {
                label = join(labels, label, target.label)?;
                at = target.function;
            }
            None => {
                return Ok(Aimed {
                    function: at,
                    label,
                });
            }
        }
    }
}

/// What an object calls if it is a bound function, with the label of that.
fn bound_at<T: Copy>(heap: &Heap<T>, o: ObjId) -> Option<Aimed<T>>
    requires { o.0 < length heap.now }
    ensures { result ≡ bound_at (slice_get heap.now o.0) }
{
    bound_in(heap.inner(o))
}

fn bound_in<T: Copy>(inner: &Inner<T>) -> Option<Aimed<T>>
    ensures { result ≡ bound_in inner.now }
{
    match inner {
        Inner::Bound { target, label, .. } => Some(Aimed {
            function: *target,
            label: *label,
        }),
        Inner::Plain | Inner::Script { .. } | Inner::Native { .. } => None,
    }
}

/// Whether an object has the `prototype` of a function among its prototypes, behind its read: `label` is that of both operands. A `prototype` that is no object
/// throws a TypeError, whose cause is that label with the read's.
pub fn instance_of<T: Copy, L: Labels<Label = T>>(
    labels: &mut L,
    world: &mut World<T>,
    object: ObjId,
    label: T,
    proto: Labelled<T>,
) -> Result<Outcome<Labelled<T>, T>, FlowFault<T>>
    requires label { L.made labels.old label }
    requires proto { L.made labels.old proto.label }
    requires belongs { Belongs L.made L.meaning labels.old world.old }
    ensures acts { Acts L.made L.meaning labels.new (λ reading. read_value reading) (λ reading. is_instance (union (reading label) (reading proto.label)) object.0 proto.value) world.old world.new result }
    ensures made { HasAnswer (HasValue (L.made labels.new)) (L.made labels.new) result }
    ensures belongs { Belongs L.made L.meaning labels.new world.new }
    ensures grows { Grows world.old world.new }
    ensures kept { IsKept L.made L.meaning L.room L.firm labels.old labels.new }
{
    let depends = join(labels, label, proto.label)?;
    let Value::Object(p) = proto.value else {
        return throw_error(labels, world, ErrorKind::TypeError, depends);
    };
    has_prototype(labels, world, object, p, depends)
}

/// Whether an object has another one among its prototypes, beside a label.
fn has_prototype<T: Copy, L: Labels<Label = T>>(
    labels: &mut L,
    world: &World<T>,
    o: ObjId,
    proto: ObjId,
    label: T,
) -> Result<Outcome<Labelled<T>, T>, FlowFault<T>>
    requires label { L.made labels.old label }
    requires belongs { Belongs L.made L.meaning labels.old world.now }
    ensures acts { Acts L.made L.meaning labels.new (λ reading. read_value reading) (λ reading. is_instance (reading label) o.0 (kinds.Object proto)) world.now world.now result }
    ensures made { HasAnswer (HasValue (L.made labels.new)) (L.made labels.new) result }
    ensures belongs { Belongs L.made L.meaning labels.new world.now }
    ensures kept { IsKept L.made L.meaning L.room L.firm labels.old labels.new }
{
    let linked = find_link(labels, world, o, proto)?;
    let depends = join(labels, label, linked.links)?;
    Ok(Outcome::Goes(Labelled {
        value: Value::Primitive(Primitive::Bool(linked.is)),
        label: depends,
    }))
}

/// The walk from an object to another one. An object that isn't there leads nowhere.
fn find_link<T: Copy, L: Labels<Label = T>>(
    labels: &mut L,
    world: &World<T>,
    o: ObjId,
    proto: ObjId,
) -> Result<Linked<T>, OutOfMemory>
    requires { Belongs L.made L.meaning labels.old world.now }
    ensures linked { IfOk result (IsLinked L.made L.meaning labels.new world.now.heap o.0 proto.0) }
    ensures kept { IsKept L.made L.meaning L.room L.firm labels.old labels.new }
{
    if o.0 < world.heap.len() {
        return walk_links(&world.heap, labels, o, proto);
    }
    let links = labels.bottom();
    Ok(Linked { is: false, links })
}

/// The walk from an object along its prototypes, up to another one.
fn walk_links<T: Copy, L: Labels<Label = T>>(
    heap: &Heap<T>,
    labels: &mut L,
    o: ObjId,
    proto: ObjId,
) -> Result<Linked<T>, OutOfMemory>
    requires there { o.0 < length heap.now }
    requires belongs { HasHeap (L.made labels.old) heap.now }
    ensures linked { IfOk result (IsLinked L.made L.meaning labels.new heap.now o.0 proto.0) }
    ensures kept { IsKept L.made L.meaning L.room L.firm labels.old labels.new }
{
    // Its clause says that each prototype's number is below its object's, so that the walk ends.
    let count = heap.len();
    prove!(o.0 < count);
    let mut at = o;
    let mut links = labels.bottom();
    'along: loop {
        let shape = heap.shape(at);
        links = join(labels, links, shape.link)?;
        match shape.proto {
            Some(next) => {
                if next.0 == proto.0 {
                    return Ok(Linked { is: true, links });
                }
                at = next;
            }
            None => return Ok(Linked { is: false, links }),
        }
    }
}
