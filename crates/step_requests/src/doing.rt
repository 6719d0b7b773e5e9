//! What is asked for, done: effects, looks, reads and puts, own properties and lines.

ghost use Rattle.std.specs.Prelude.{◌≡◌, ◌≤◌, length, IfErr, IfOk};
ghost use Rattle.std.specs.List.{All};
ghost use Rattle.origin_labels.specs.Stores.{IsKept};
ghost use Rattle.flow_policy.specs.Policies.{Tables};
ghost use Rattle.flow_policy.specs.Inputs.{Given, IsGivenTo};
ghost use Rattle.flow_frames.specs.Stops.{IfStop};
ghost use Rattle.origin_labels.specs.Label.{Label};
ghost use Rattle.js_values.specs.declared.value.Value.TheVariants as value;
ghost use Rattle.js_values.specs.Readings.{HasValue, read_heap};
ghost use Rattle.flow_meaning.specs.Tracked.{seen};
ghost use Rattle.run_state.specs.Worlds.{Belongs, Grows};
ghost use Rattle.continuations.specs.Stops.{HasStop};
ghost use Rattle.step_requests.specs.Doing.{Does, Leaves, IsQuiet, Prints};
ghost use Rattle.step_requests.specs.declared.asked.Asked.TheVariants as asked;

use crate::asked::{Effect, GivenParts, OwnRegisters};
use crate::effects::perform;
use crate::handing_on::{
    hand_on, hand_on_access, hand_on_defining, hand_on_own, hand_on_printed, hand_on_putting,
};
use crate::moved::Moved;
use crate::objects::{defining, read_if};
use crate::properties::{got, putting};
use channel_requests::print_line;
use continuations::{Stack, read_register};
use flow_frames::FlowFault;
use flow_policy::{Inputs, Policy};
use flow_text::OutOfMemory;
use js_number::Primitive;
use js_values::{Key, ObjId, Value};
use native_protocol::{Answer, Reg, Seen};
use object_heap::Heap;
use origin_labels::Labels;
use property_requests::own_property;
use run_state::World;
use std::alloc::Global;

/// An effect, whose value goes into a register, if one is named.
pub(crate) fn do_effect<'p, L: Labels>(
    alloc: Global,
    labels: &mut L,
    world: &mut World<L::Label>,
    policy: &Policy,
    inputs: &Inputs,
    stack: &mut Stack<'p, L::Label>,
    count: u32,
    effect: Effect,
    to: Option<Reg>,
) -> Result<Moved<'p, L::Label>, FlowFault<L::Label>>
    requires loose { length stack.old.loose ≡ count }
    requires made { All (HasValue (L.made labels.old)) stack.old.loose }
    requires belongs { Belongs L.made L.meaning labels.old world.old }
    requires room { length policy.now.origins ≤ L.room labels.old }
    requires given { IsGivenTo policy.now inputs.now }
    requires positions { length world.old.positions.items ≡ length policy.now.inputs }
    ensures does { Does L.made L.meaning labels.new (asked.Does effect to) stack.old stack.new world.old world.new policy.now inputs.now result }
    ensures leaves { IfOk result (Leaves (L.made labels.new) stack.old stack.new world.old world.new) }
    ensures quiet { IfOk result IsQuiet }
    ensures stopped { IfErr result (IfStop (HasStop (L.made labels.new))) }
    ensures belongs { Belongs L.made L.meaning labels.new world.new }
    ensures grows { Grows world.old world.new }
    ensures kept { IsKept L.made L.meaning L.room L.firm labels.old labels.new }
{
    let came = perform(alloc, labels, world, policy, inputs, stack, count, effect);
    hand_on(labels, stack, count, to, came)
}

/// A property is read (ECMA-262 8.12.3).
pub(crate) fn get<'p, L: Labels>(
    alloc: Global,
    labels: &mut L,
    world: &mut World<L::Label>,
    stack: &mut Stack<'p, L::Label>,
    count: u32,
    base: Reg,
    key: &Key,
    to: Reg,
) -> Result<Moved<'p, L::Label>, FlowFault<L::Label>>
    requires loose { length stack.old.loose ≡ count }
    requires made { All (HasValue (L.made labels.old)) stack.old.loose }
    requires belongs { Belongs L.made L.meaning labels.old world.old }
    ensures does { (tables : Tables) (inputs : Given) → Does L.made L.meaning labels.new (asked.Get base key.now to) stack.old stack.new world.old world.new tables inputs result }
    ensures leaves { IfOk result (Leaves (L.made labels.new) stack.old stack.new world.old world.new) }
    ensures quiet { IfOk result IsQuiet }
    ensures stopped { IfErr result (IfStop (HasStop (L.made labels.new))) }
    ensures belongs { Belongs L.made L.meaning labels.new world.new }
    ensures grows { Grows world.old world.new }
    ensures kept { IsKept L.made L.meaning L.room L.firm labels.old labels.new }
{
    let came = got(alloc, labels, world, stack, count, base, key);
    hand_on_access(labels, stack, count, to, came)
}

/// A property is put (ECMA-262 8.12.5).
pub(crate) fn put<'p, L: Labels>(
    alloc: Global,
    labels: &mut L,
    world: &mut World<L::Label>,
    stack: &mut Stack<'p, L::Label>,
    count: u32,
    base: Reg,
    key: &Key,
    from: Reg,
) -> Result<Moved<'p, L::Label>, FlowFault<L::Label>>
    requires loose { length stack.old.loose ≡ count }
    requires made { All (HasValue (L.made labels.old)) stack.old.loose }
    requires belongs { Belongs L.made L.meaning labels.old world.old }
    ensures does { (tables : Tables) (inputs : Given) → Does L.made L.meaning labels.new (asked.Put base key.now from) stack.old stack.new world.old world.new tables inputs result }
    ensures leaves { IfOk result (Leaves (L.made labels.new) stack.old stack.new world.old world.new) }
    ensures quiet { IfOk result IsQuiet }
    ensures stopped { IfErr result (IfStop (HasStop (L.made labels.new))) }
    ensures belongs { Belongs L.made L.meaning labels.new world.new }
    ensures grows { Grows world.old world.new }
    ensures kept { IsKept L.made L.meaning L.room L.firm labels.old labels.new }
{
    let value = read_register(alloc, labels, stack, count, from)?;
    let given = value.copy(alloc)?;
    let came = putting(alloc, labels, world, stack, count, base, key, given);
    hand_on_putting(alloc, labels, stack, count, value, came)
}

/// What is known of an own property (ECMA-262 8.12.1).
pub(crate) fn own<'p, L: Labels>(
    alloc: Global,
    labels: &mut L,
    world: &mut World<L::Label>,
    stack: &mut Stack<'p, L::Label>,
    count: u32,
    base: Reg,
    key: &Key,
    to: OwnRegisters,
) -> Result<Moved<'p, L::Label>, FlowFault<L::Label>>
    requires loose { length stack.old.loose ≡ count }
    requires made { All (HasValue (L.made labels.old)) stack.old.loose }
    requires belongs { Belongs L.made L.meaning labels.old world.old }
    ensures does { (tables : Tables) (inputs : Given) → Does L.made L.meaning labels.new (asked.Own base key.now to) stack.old stack.new world.old world.new tables inputs result }
    ensures leaves { IfOk result (Leaves (L.made labels.new) stack.old stack.new world.old world.new) }
    ensures quiet { IfOk result IsQuiet }
    ensures stopped { IfErr result (IfStop (HasStop (L.made labels.new))) }
    ensures belongs { Belongs L.made L.meaning labels.new world.new }
    ensures grows { Grows world.old world.new }
    ensures kept { IsKept L.made L.meaning L.room L.firm labels.old labels.new }
{
    let base = read_register(alloc, labels, stack, count, base)?;
    let came = own_property(alloc, labels, world, &base, key);
    hand_on_own(labels, stack, count, to, came)
}

/// A property is defined (ECMA-262 8.12.9).
pub(crate) fn define<'p, L: Labels>(
    alloc: Global,
    labels: &mut L,
    world: &mut World<L::Label>,
    stack: &mut Stack<'p, L::Label>,
    count: u32,
    base: Reg,
    key: Key,
    given: GivenParts,
) -> Result<Moved<'p, L::Label>, FlowFault<L::Label>>
    requires loose { length stack.old.loose ≡ count }
    requires made { All (HasValue (L.made labels.old)) stack.old.loose }
    requires belongs { Belongs L.made L.meaning labels.old world.old }
    ensures does { (tables : Tables) (inputs : Given) → Does L.made L.meaning labels.new (asked.Define base key given) stack.old stack.new world.old world.new tables inputs result }
    ensures leaves { IfOk result (Leaves (L.made labels.new) stack.old stack.new world.old world.new) }
    ensures quiet { IfOk result IsQuiet }
    ensures stopped { IfErr result (IfStop (HasStop (L.made labels.new))) }
    ensures belongs { Belongs L.made L.meaning labels.new world.new }
    ensures grows { Grows world.old world.new }
    ensures kept { IsKept L.made L.meaning L.room L.firm labels.old labels.new }
{
    let value = read_if(alloc, labels, stack, count, given.value)?;
    let came = defining(alloc, labels, world, stack, count, base, key, given);
    hand_on_defining(alloc, labels, stack, count, value, came)
}

/// A line on an output channel.
pub(crate) fn print<'p, L: Labels>(
    alloc: Global,
    labels: &mut L,
    world: &mut World<L::Label>,
    policy: &Policy,
    stack: &mut Stack<'p, L::Label>,
    count: u32,
    name: Reg,
    from: Reg,
) -> Result<Moved<'p, L::Label>, FlowFault<L::Label>>
    requires loose { length stack.old.loose ≡ count }
    requires made { All (HasValue (L.made labels.old)) stack.old.loose }
    requires belongs { Belongs L.made L.meaning labels.old world.old }
    requires room { length policy.now.origins ≤ L.room labels.old }
    ensures does { (inputs : Given) → Does L.made L.meaning labels.new (asked.PrintLine name from) stack.old stack.new world.old world.new policy.now inputs result }
    ensures leaves { IfOk result (Leaves (L.made labels.new) stack.old stack.new world.old world.new) }
    ensures printed { IfOk result (Prints (L.made labels.new) (length policy.now.outputs)) }
    ensures stopped { IfErr result (IfStop (HasStop (L.made labels.new))) }
    ensures belongs { Belongs L.made L.meaning labels.new world.new }
    ensures grows { Grows world.old world.new }
    ensures kept { IsKept L.made L.meaning L.room L.firm labels.old labels.new }
{
    let name = read_register(alloc, labels, stack, count, name)?;
    let value = read_register(alloc, labels, stack, count, from)?;
    let came = print_line(alloc, labels, world, policy, &name, &value);
    hand_on_printed(labels, stack, count, came)
}

/// What can be seen of a value.
fn seen_of<T: Copy>(alloc: Global, heap: &Heap<T>, value: &Value) -> Result<Seen, OutOfMemory>
    ensures { (reading : T → Label) → IfOk result (λ saw. saw ≡ seen (read_heap reading heap.now) value.now) }
{
    match value {
        Value::Primitive(p) => {
            let p = p.copy(alloc)?;
            Ok(Seen::Prim(p))
        }
        Value::Object(o) => Ok(class_of(heap, *o)),
    }
}

/// What can be seen of an object.
fn class_of<T: Copy>(heap: &Heap<T>, o: ObjId) -> Seen
    ensures { (reading : T → Label) → result ≡ seen (read_heap reading heap.now) (value.Object o) }
{
    if o.0 < heap.len() {
        Seen::Object(heap.shape(o).class)
    } else {
        Seen::Prim(Primitive::Undefined)
    }
}

/// A register is looked at, and the frame depends on what is seen.
pub(crate) fn look<'p, L: Labels>(
    alloc: Global,
    labels: &mut L,
    world: &mut World<L::Label>,
    stack: &mut Stack<'p, L::Label>,
    count: u32,
    reg: Reg,
) -> Result<Moved<'p, L::Label>, FlowFault<L::Label>>
    requires loose { length stack.old.loose ≡ count }
    requires made { All (HasValue (L.made labels.old)) stack.old.loose }
    requires belongs { Belongs L.made L.meaning labels.old world.old }
    ensures does { (tables : Tables) (inputs : Given) → Does L.made L.meaning labels.new (asked.Look reg) stack.old stack.new world.old world.new tables inputs result }
    ensures leaves { IfOk result (Leaves (L.made labels.new) stack.old stack.new world.old world.new) }
    ensures quiet { IfOk result IsQuiet }
    ensures stopped { IfErr result (IfStop (HasStop (L.made labels.new))) }
    ensures belongs { Belongs L.made L.meaning labels.new world.new }
    ensures grows { Grows world.old world.new }
    ensures kept { IsKept L.made L.meaning L.room L.firm labels.old labels.new }
{
    let value = read_register(alloc, labels, stack, count, reg)?;
    world.frames.raise_last(labels, value.label)?;
    world.frames.len();
    let saw = seen_of(alloc, &world.heap, &value.value)?;
    Ok(Moved::Asks(count, Answer::Seen(saw)))
}
