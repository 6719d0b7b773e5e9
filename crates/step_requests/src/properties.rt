//! What is asked of the properties of a base, which must be able to have some.

ghost use Rattle.std.specs.Prelude.{◌≡◌, map, length, IfOk};
ghost use Rattle.std.specs.List.{All};
ghost use Rattle.origin_labels.specs.Stores.{IsKept};
ghost use Rattle.flow_policy.specs.Policies.{Tables};
ghost use Rattle.flow_policy.specs.Inputs.{Given};
ghost use Rattle.js_values.specs.Readings.{HasValue, read_value};
ghost use Rattle.run_state.specs.Accesses.{HasAccess, HasPutting, read_access, read_putting};
ghost use Rattle.run_state.specs.Acts.{Acts, HasAnswer};
ghost use Rattle.run_state.specs.Worlds.{Belongs, Grows};
ghost use Rattle.step_requests.specs.Asked.{effect_on, got, key_value, putting};
ghost use Rattle.step_requests.specs.Doing.{Holds};
ghost use Rattle.continuations.specs.Answering.{held_in};
ghost use Rattle.step_requests.specs.declared.asked.Effect.TheVariants as effect;

use continuations::{Stack, read_register};
use flow_frames::FlowFault;
use flow_text::OutOfMemory;
use js_number::Primitive;
use js_values::{Key, Labelled, Value};
use native_protocol::Reg;
use origin_labels::Labels;
use property_access::{get_property, put_property};
use run_state::{Access, Outcome, Putting, World};
use std::alloc::Global;
use step_objects::{base_needed, has_key, remove_property};

/// Whether an object or one along its prototypes has a key (ECMA-262 8.12.6).
pub(crate) fn has<'p, L: Labels>(
    alloc: Global,
    labels: &mut L,
    world: &mut World<L::Label>,
    stack: &Stack<'p, L::Label>,
    count: u32,
    base: Reg,
    key: &Key,
) -> Result<Outcome<Labelled<L::Label>, L::Label>, FlowFault<L::Label>>
    requires loose { length stack.now.loose ≡ count }
    requires made { All (HasValue (L.made labels.old)) stack.now.loose }
    requires belongs { Belongs L.made L.meaning labels.old world.old }
    ensures acts { (tables : Tables) (inputs : Given) → Acts L.made L.meaning labels.new (λ reading. read_value reading) (λ reading. effect_on tables inputs (effect.Has base key.now) (map (read_value reading) stack.now.loose)) world.old world.new result }
    ensures made { HasAnswer (HasValue (L.made labels.new)) (L.made labels.new) result }
    ensures belongs { Belongs L.made L.meaning labels.new world.new }
    ensures grows { Grows world.old world.new }
    ensures kept { IsKept L.made L.meaning L.room L.firm labels.old labels.new }
{
    let base = read_register(alloc, labels, stack, count, base)?;
    let came = base_needed(labels, world, base)?;
    match came {
        Outcome::Goes(base) => {
            let key = key_value(alloc, labels, key)?;
            has_key(alloc, labels, world, key, base)
        }
        Outcome::Throws(error) => Ok(Outcome::Throws(error)),
        Outcome::Leaves(why) => Ok(Outcome::Leaves(why)),
    }
}

/// The value of a key, which depends on nothing.
fn key_value<L: Labels>(
    alloc: Global,
    labels: &L,
    key: &Key,
) -> Result<Labelled<L::Label>, OutOfMemory>
    ensures { IfOk result (Holds L.made L.meaning labels.now (key_value key.now)) }
{
    let text = key.text().copy(alloc)?;
    Ok(Labelled {
        value: Value::Primitive(Primitive::Str(text)),
        label: labels.bottom(),
    })
}

/// A property is deleted (ECMA-262 8.12.7).
pub(crate) fn delete<'p, L: Labels>(
    alloc: Global,
    labels: &mut L,
    world: &mut World<L::Label>,
    stack: &Stack<'p, L::Label>,
    count: u32,
    base: Reg,
    key: &Key,
) -> Result<Outcome<Labelled<L::Label>, L::Label>, FlowFault<L::Label>>
    requires loose { length stack.now.loose ≡ count }
    requires made { All (HasValue (L.made labels.old)) stack.now.loose }
    requires belongs { Belongs L.made L.meaning labels.old world.old }
    ensures acts { (tables : Tables) (inputs : Given) → Acts L.made L.meaning labels.new (λ reading. read_value reading) (λ reading. effect_on tables inputs (effect.Delete base key.now) (map (read_value reading) stack.now.loose)) world.old world.new result }
    ensures made { HasAnswer (HasValue (L.made labels.new)) (L.made labels.new) result }
    ensures belongs { Belongs L.made L.meaning labels.new world.new }
    ensures grows { Grows world.old world.new }
    ensures kept { IsKept L.made L.meaning L.room L.firm labels.old labels.new }
{
    let base = read_register(alloc, labels, stack, count, base)?;
    let came = base_needed(labels, world, base)?;
    match came {
        Outcome::Goes(base) => {
            let key = key_value(alloc, labels, key)?;
            remove_property(alloc, labels, world, &base, &key)
        }
        Outcome::Throws(error) => Ok(Outcome::Throws(error)),
        Outcome::Leaves(why) => Ok(Outcome::Leaves(why)),
    }
}

/// What a property comes to (ECMA-262 8.12.3).
pub(crate) fn got<'p, L: Labels>(
    alloc: Global,
    labels: &mut L,
    world: &mut World<L::Label>,
    stack: &Stack<'p, L::Label>,
    count: u32,
    base: Reg,
    key: &Key,
) -> Result<Outcome<Access<L::Label>, L::Label>, FlowFault<L::Label>>
    requires loose { length stack.now.loose ≡ count }
    requires made { All (HasValue (L.made labels.old)) stack.now.loose }
    requires belongs { Belongs L.made L.meaning labels.old world.old }
    ensures acts { (tables : Tables) (inputs : Given) → Acts L.made L.meaning labels.new (λ reading. read_access reading) (λ reading. got tables inputs (held_in base (map (read_value reading) stack.now.loose)) key.now) world.old world.new result }
    ensures made { HasAnswer (HasAccess (L.made labels.new)) (L.made labels.new) result }
    ensures belongs { Belongs L.made L.meaning labels.new world.new }
    ensures grows { Grows world.old world.new }
    ensures kept { IsKept L.made L.meaning L.room L.firm labels.old labels.new }
{
    let base = read_register(alloc, labels, stack, count, base)?;
    let came = base_needed(labels, world, base)?;
    match came {
        Outcome::Goes(base) => {
            let key = key_value(alloc, labels, key)?;
            get_property(alloc, labels, world, &base, &key)
        }
        Outcome::Throws(error) => Ok(Outcome::Throws(error)),
        Outcome::Leaves(why) => Ok(Outcome::Leaves(why)),
    }
}

/// What the put of a value comes to (ECMA-262 8.12.5).
pub(crate) fn putting<'p, L: Labels>(
    alloc: Global,
    labels: &mut L,
    world: &mut World<L::Label>,
    stack: &Stack<'p, L::Label>,
    count: u32,
    base: Reg,
    key: &Key,
    value: Labelled<L::Label>,
) -> Result<Outcome<Putting<L::Label>, L::Label>, FlowFault<L::Label>>
    requires loose { length stack.now.loose ≡ count }
    requires made { All (HasValue (L.made labels.old)) stack.now.loose }
    requires belongs { Belongs L.made L.meaning labels.old world.old }
    requires value { HasValue (L.made labels.old) value }
    ensures acts { (tables : Tables) (inputs : Given) → Acts L.made L.meaning labels.new (λ reading. read_putting reading) (λ reading. putting tables inputs (held_in base (map (read_value reading) stack.now.loose)) key.now (read_value reading value)) world.old world.new result }
    ensures made { HasAnswer (HasPutting (L.made labels.new)) (L.made labels.new) result }
    ensures belongs { Belongs L.made L.meaning labels.new world.new }
    ensures grows { Grows world.old world.new }
    ensures kept { IsKept L.made L.meaning L.room L.firm labels.old labels.new }
{
    let base = read_register(alloc, labels, stack, count, base)?;
    let came = base_needed(labels, world, base)?;
    match came {
        Outcome::Goes(base) => {
            let key = key_value(alloc, labels, key)?;
            put_property(alloc, labels, world, &base, &key, value)
        }
        Outcome::Throws(error) => Ok(Outcome::Throws(error)),
        Outcome::Leaves(why) => Ok(Outcome::Leaves(why)),
    }
}
