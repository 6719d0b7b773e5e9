//! What is asked of the channels, and of labels.

ghost use Rattle.std.specs.Prelude.{◌≡◌, ◌≤◌, map, length};
ghost use Rattle.std.specs.List.{All};
ghost use Rattle.origin_labels.specs.Stores.{IsKept};
ghost use Rattle.flow_policy.specs.Inputs.{Given, IsGivenTo};
ghost use Rattle.js_values.specs.Readings.{HasValue, read_value};
ghost use Rattle.run_state.specs.Acts.{Acts, HasAnswer};
ghost use Rattle.run_state.specs.Worlds.{Belongs, Grows};
ghost use Rattle.step_requests.specs.Asked.{effect_on};
ghost use Rattle.step_requests.specs.declared.asked.Effect.TheVariants as effect;

use channel_requests::{join_label, raise_existence, raise_structure, read_line};
use continuations::{Stack, read_register};
use flow_frames::FlowFault;
use flow_policy::{Inputs, Policy};
use js_values::{Key, Labelled};
use native_protocol::Reg;
use origin_labels::{Labels, OriginList};
use run_state::{Outcome, World};
use std::alloc::Global;

/// The next line of the input channel that a register names.
pub(crate) fn read<'p, L: Labels>(
    alloc: Global,
    labels: &mut L,
    world: &mut World<L::Label>,
    policy: &Policy,
    inputs: &Inputs,
    stack: &Stack<'p, L::Label>,
    count: u32,
    name: Reg,
) -> Result<Outcome<Labelled<L::Label>, L::Label>, FlowFault<L::Label>>
    requires loose { length stack.now.loose ≡ count }
    requires made { All (HasValue (L.made labels.old)) stack.now.loose }
    requires belongs { Belongs L.made L.meaning labels.old world.old }
    requires room { length policy.now.origins ≤ L.room labels.old }
    requires given { IsGivenTo policy.now inputs.now }
    requires positions { length world.old.positions.items ≡ length policy.now.inputs }
    ensures acts { Acts L.made L.meaning labels.new (λ reading. read_value reading) (λ reading. effect_on policy.now inputs.now (effect.ReadLine name) (map (read_value reading) stack.now.loose)) world.old world.new result }
    ensures made { HasAnswer (HasValue (L.made labels.new)) (L.made labels.new) result }
    ensures belongs { Belongs L.made L.meaning labels.new world.new }
    ensures grows { Grows world.old world.new }
    ensures kept { IsKept L.made L.meaning L.room L.firm labels.old labels.new }
{
    let name = read_register(alloc, labels, stack, count, name)?;
    read_line(alloc, labels, world, policy, inputs, &name)
}

/// A value with more origins in its label.
pub(crate) fn label<'p, L: Labels>(
    alloc: Global,
    labels: &mut L,
    world: &mut World<L::Label>,
    policy: &Policy,
    stack: &Stack<'p, L::Label>,
    count: u32,
    from: Reg,
    origins: &OriginList,
) -> Result<Outcome<Labelled<L::Label>, L::Label>, FlowFault<L::Label>>
    requires loose { length stack.now.loose ≡ count }
    requires made { All (HasValue (L.made labels.old)) stack.now.loose }
    requires belongs { Belongs L.made L.meaning labels.old world.old }
    requires room { length policy.now.origins ≤ L.room labels.old }
    ensures acts { (inputs : Given) → Acts L.made L.meaning labels.new (λ reading. read_value reading) (λ reading. effect_on policy.now inputs (effect.Label from origins.now) (map (read_value reading) stack.now.loose)) world.old world.new result }
    ensures made { HasAnswer (HasValue (L.made labels.new)) (L.made labels.new) result }
    ensures belongs { Belongs L.made L.meaning labels.new world.new }
    ensures grows { Grows world.old world.new }
    ensures kept { IsKept L.made L.meaning L.room L.firm labels.old labels.new }
{
    let from = read_register(alloc, labels, stack, count, from)?;
    join_label(alloc, labels, world, policy, &from, origins)
}

/// Origins join an object's structure label.
pub(crate) fn structure<'p, L: Labels>(
    alloc: Global,
    labels: &mut L,
    world: &mut World<L::Label>,
    policy: &Policy,
    stack: &Stack<'p, L::Label>,
    count: u32,
    base: Reg,
    origins: &OriginList,
) -> Result<Outcome<Labelled<L::Label>, L::Label>, FlowFault<L::Label>>
    requires loose { length stack.now.loose ≡ count }
    requires made { All (HasValue (L.made labels.old)) stack.now.loose }
    requires belongs { Belongs L.made L.meaning labels.old world.old }
    requires room { length policy.now.origins ≤ L.room labels.old }
    ensures acts { (inputs : Given) → Acts L.made L.meaning labels.new (λ reading. read_value reading) (λ reading. effect_on policy.now inputs (effect.RaiseStructure base origins.now) (map (read_value reading) stack.now.loose)) world.old world.new result }
    ensures made { HasAnswer (HasValue (L.made labels.new)) (L.made labels.new) result }
    ensures belongs { Belongs L.made L.meaning labels.new world.new }
    ensures grows { Grows world.old world.new }
    ensures kept { IsKept L.made L.meaning L.room L.firm labels.old labels.new }
{
    let base = read_register(alloc, labels, stack, count, base)?;
    raise_structure(labels, world, policy, &base, origins)
}

/// Origins join a property's existence label.
pub(crate) fn existence<'p, L: Labels>(
    alloc: Global,
    labels: &mut L,
    world: &mut World<L::Label>,
    policy: &Policy,
    stack: &Stack<'p, L::Label>,
    count: u32,
    base: Reg,
    key: &Key,
    origins: &OriginList,
) -> Result<Outcome<Labelled<L::Label>, L::Label>, FlowFault<L::Label>>
    requires loose { length stack.now.loose ≡ count }
    requires made { All (HasValue (L.made labels.old)) stack.now.loose }
    requires belongs { Belongs L.made L.meaning labels.old world.old }
    requires room { length policy.now.origins ≤ L.room labels.old }
    ensures acts { (inputs : Given) → Acts L.made L.meaning labels.new (λ reading. read_value reading) (λ reading. effect_on policy.now inputs (effect.RaiseExistence base key.now origins.now) (map (read_value reading) stack.now.loose)) world.old world.new result }
    ensures made { HasAnswer (HasValue (L.made labels.new)) (L.made labels.new) result }
    ensures belongs { Belongs L.made L.meaning labels.new world.new }
    ensures grows { Grows world.old world.new }
    ensures kept { IsKept L.made L.meaning L.room L.firm labels.old labels.new }
{
    let base = read_register(alloc, labels, stack, count, base)?;
    raise_existence(labels, world, policy, &base, key, origins)
}
