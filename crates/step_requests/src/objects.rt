//! What is asked of objects: their own properties, their prototypes, and new ones.

ghost use Rattle.std.specs.Prelude.{◌≡◌, map, length, IfOk};
ghost use Rattle.std.specs.List.{All};
ghost use Rattle.origin_labels.specs.Stores.{IsKept};
ghost use Rattle.flow_policy.specs.Policies.{Tables};
ghost use Rattle.flow_policy.specs.Inputs.{Given};
ghost use Rattle.js_values.specs.Readings.{HasValue, read_value};
ghost use Rattle.run_state.specs.Accesses.{HasDefining, read_defining};
ghost use Rattle.run_state.specs.Acts.{Acts, HasAnswer};
ghost use Rattle.run_state.specs.Worlds.{Belongs, Grows};
ghost use Rattle.step_requests.specs.Asked.{defining_of, effect_on};
ghost use Rattle.step_requests.specs.Doing.{ReadsIf};
ghost use Rattle.step_requests.specs.declared.asked.Effect.TheVariants as effect;

use crate::asked::GivenParts;
use crate::entering::read_registers;
use continuations::{Stack, read_register};
use flow_frames::FlowFault;
use flow_text::OutOfMemory;
use js_values::{Class, Key, Labelled};
use native_protocol::{Reg, RegList};
use origin_labels::Labels;
use property_requests::{
    Descriptor, bind, define_property, is_extensible, new_object, own_keys, prevent_extensions,
    prototype_of_object,
};
use run_state::{Defining, Outcome, World};
use std::alloc::Global;

/// The own keys, as a new array.
pub(crate) fn keys<'p, L: Labels>(
    alloc: Global,
    labels: &mut L,
    world: &mut World<L::Label>,
    stack: &Stack<'p, L::Label>,
    count: u32,
    base: Reg,
    all: bool,
) -> Result<Outcome<Labelled<L::Label>, L::Label>, FlowFault<L::Label>>
    requires loose { length stack.now.loose ≡ count }
    requires made { All (HasValue (L.made labels.old)) stack.now.loose }
    requires belongs { Belongs L.made L.meaning labels.old world.old }
    ensures acts { (tables : Tables) (inputs : Given) → Acts L.made L.meaning labels.new (λ reading. read_value reading) (λ reading. effect_on tables inputs (effect.Keys base all) (map (read_value reading) stack.now.loose)) world.old world.new result }
    ensures made { HasAnswer (HasValue (L.made labels.new)) (L.made labels.new) result }
    ensures belongs { Belongs L.made L.meaning labels.new world.new }
    ensures grows { Grows world.old world.new }
    ensures kept { IsKept L.made L.meaning L.room L.firm labels.old labels.new }
{
    let base = read_register(alloc, labels, stack, count, base)?;
    own_keys(alloc, labels, world, &base, all)
}

/// The prototype.
pub(crate) fn proto<'p, L: Labels>(
    alloc: Global,
    labels: &mut L,
    world: &mut World<L::Label>,
    stack: &Stack<'p, L::Label>,
    count: u32,
    base: Reg,
) -> Result<Outcome<Labelled<L::Label>, L::Label>, FlowFault<L::Label>>
    requires loose { length stack.now.loose ≡ count }
    requires made { All (HasValue (L.made labels.old)) stack.now.loose }
    requires belongs { Belongs L.made L.meaning labels.old world.old }
    ensures acts { (tables : Tables) (inputs : Given) → Acts L.made L.meaning labels.new (λ reading. read_value reading) (λ reading. effect_on tables inputs (effect.Proto base) (map (read_value reading) stack.now.loose)) world.old world.new result }
    ensures made { HasAnswer (HasValue (L.made labels.new)) (L.made labels.new) result }
    ensures belongs { Belongs L.made L.meaning labels.new world.new }
    ensures grows { Grows world.old world.new }
    ensures kept { IsKept L.made L.meaning L.room L.firm labels.old labels.new }
{
    let base = read_register(alloc, labels, stack, count, base)?;
    prototype_of_object(labels, world, &base)
}

/// Whether there may be further properties.
pub(crate) fn extensible<'p, L: Labels>(
    alloc: Global,
    labels: &mut L,
    world: &mut World<L::Label>,
    stack: &Stack<'p, L::Label>,
    count: u32,
    base: Reg,
) -> Result<Outcome<Labelled<L::Label>, L::Label>, FlowFault<L::Label>>
    requires loose { length stack.now.loose ≡ count }
    requires made { All (HasValue (L.made labels.old)) stack.now.loose }
    requires belongs { Belongs L.made L.meaning labels.old world.old }
    ensures acts { (tables : Tables) (inputs : Given) → Acts L.made L.meaning labels.new (λ reading. read_value reading) (λ reading. effect_on tables inputs (effect.Extensible base) (map (read_value reading) stack.now.loose)) world.old world.new result }
    ensures made { HasAnswer (HasValue (L.made labels.new)) (L.made labels.new) result }
    ensures belongs { Belongs L.made L.meaning labels.new world.new }
    ensures grows { Grows world.old world.new }
    ensures kept { IsKept L.made L.meaning L.room L.firm labels.old labels.new }
{
    let base = read_register(alloc, labels, stack, count, base)?;
    is_extensible(labels, world, &base)
}

/// There are no further properties from now on.
pub(crate) fn prevent<'p, L: Labels>(
    alloc: Global,
    labels: &mut L,
    world: &mut World<L::Label>,
    stack: &Stack<'p, L::Label>,
    count: u32,
    base: Reg,
) -> Result<Outcome<Labelled<L::Label>, L::Label>, FlowFault<L::Label>>
    requires loose { length stack.now.loose ≡ count }
    requires made { All (HasValue (L.made labels.old)) stack.now.loose }
    requires belongs { Belongs L.made L.meaning labels.old world.old }
    ensures acts { (tables : Tables) (inputs : Given) → Acts L.made L.meaning labels.new (λ reading. read_value reading) (λ reading. effect_on tables inputs (effect.Prevent base) (map (read_value reading) stack.now.loose)) world.old world.new result }
    ensures made { HasAnswer (HasValue (L.made labels.new)) (L.made labels.new) result }
    ensures belongs { Belongs L.made L.meaning labels.new world.new }
    ensures grows { Grows world.old world.new }
    ensures kept { IsKept L.made L.meaning L.room L.firm labels.old labels.new }
{
    let base = read_register(alloc, labels, stack, count, base)?;
    prevent_extensions(labels, world, &base)
}

/// What a register holds, if one is named.
pub(crate) fn read_if<'p, L: Labels>(
    alloc: Global,
    labels: &L,
    stack: &Stack<'p, L::Label>,
    count: u32,
    from: Option<Reg>,
) -> Result<Option<Labelled<L::Label>>, OutOfMemory>
    requires loose { length stack.now.loose ≡ count }
    requires made { All (HasValue (L.made labels.now)) stack.now.loose }
    ensures { IfOk result (ReadsIf L.made L.meaning labels.now from stack.now.loose) }
{
    match from {
        None => Ok(None),
        Some(register) => {
            let value = read_register(alloc, labels, stack, count, register)?;
            Ok(Some(value))
        }
    }
}

/// What the definition of a property comes to (ECMA-262 8.12.9).
pub(crate) fn defining<'p, L: Labels>(
    alloc: Global,
    labels: &mut L,
    world: &mut World<L::Label>,
    stack: &Stack<'p, L::Label>,
    count: u32,
    base: Reg,
    key: Key,
    given: GivenParts,
) -> Result<Outcome<Defining<L::Label>, L::Label>, FlowFault<L::Label>>
    requires loose { length stack.now.loose ≡ count }
    requires made { All (HasValue (L.made labels.old)) stack.now.loose }
    requires belongs { Belongs L.made L.meaning labels.old world.old }
    ensures acts { Acts L.made L.meaning labels.new (λ reading. read_defining reading) (λ reading. defining_of base key given (map (read_value reading) stack.now.loose)) world.old world.new result }
    ensures made { HasAnswer (HasDefining (L.made labels.new)) (L.made labels.new) result }
    ensures belongs { Belongs L.made L.meaning labels.new world.new }
    ensures grows { Grows world.old world.new }
    ensures kept { IsKept L.made L.meaning L.room L.firm labels.old labels.new }
{
    let base = read_register(alloc, labels, stack, count, base)?;
    let value = read_if(alloc, labels, stack, count, given.value)?;
    let get = read_if(alloc, labels, stack, count, given.get)?;
    let set = read_if(alloc, labels, stack, count, given.set)?;
    let descriptor = Descriptor {
        marks: given.marks,
        value,
        get,
        set,
    };
    define_property(alloc, labels, world, &base, key, descriptor)
}

/// A new object.
pub(crate) fn make_object<'p, L: Labels>(
    alloc: Global,
    labels: &mut L,
    world: &mut World<L::Label>,
    stack: &Stack<'p, L::Label>,
    count: u32,
    class: Class,
    proto: Option<Reg>,
) -> Result<Outcome<Labelled<L::Label>, L::Label>, FlowFault<L::Label>>
    requires loose { length stack.now.loose ≡ count }
    requires made { All (HasValue (L.made labels.old)) stack.now.loose }
    requires belongs { Belongs L.made L.meaning labels.old world.old }
    ensures acts { (tables : Tables) (inputs : Given) → Acts L.made L.meaning labels.new (λ reading. read_value reading) (λ reading. effect_on tables inputs (effect.New class proto) (map (read_value reading) stack.now.loose)) world.old world.new result }
    ensures made { HasAnswer (HasValue (L.made labels.new)) (L.made labels.new) result }
    ensures belongs { Belongs L.made L.meaning labels.new world.new }
    ensures grows { Grows world.old world.new }
    ensures kept { IsKept L.made L.meaning L.room L.firm labels.old labels.new }
{
    let proto = read_if(alloc, labels, stack, count, proto)?;
    new_object(alloc, labels, world, class, proto)
}

/// A bound function.
pub(crate) fn bound<'p, L: Labels>(
    alloc: Global,
    labels: &mut L,
    world: &mut World<L::Label>,
    stack: &Stack<'p, L::Label>,
    count: u32,
    target: Reg,
    this: Reg,
    args: &RegList,
) -> Result<Outcome<Labelled<L::Label>, L::Label>, FlowFault<L::Label>>
    requires loose { length stack.now.loose ≡ count }
    requires made { All (HasValue (L.made labels.old)) stack.now.loose }
    requires belongs { Belongs L.made L.meaning labels.old world.old }
    ensures acts { (tables : Tables) (inputs : Given) → Acts L.made L.meaning labels.new (λ reading. read_value reading) (λ reading. effect_on tables inputs (effect.Bind target this args.now) (map (read_value reading) stack.now.loose)) world.old world.new result }
    ensures made { HasAnswer (HasValue (L.made labels.new)) (L.made labels.new) result }
    ensures belongs { Belongs L.made L.meaning labels.new world.new }
    ensures grows { Grows world.old world.new }
    ensures kept { IsKept L.made L.meaning L.room L.firm labels.old labels.new }
{
    let target = read_register(alloc, labels, stack, count, target)?;
    let this = read_register(alloc, labels, stack, count, this)?;
    let args = read_registers(alloc, labels, stack, count, args.items())?;
    bind(alloc, labels, world, &target, &this, &args)
}
