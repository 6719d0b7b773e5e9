//! Effects: what is asked for that comes to one value at once.

ghost use Rattle.std.specs.Prelude.{◌≡◌, ◌≤◌, map, length};
ghost use Rattle.std.specs.List.{All};
ghost use Rattle.origin_labels.specs.Stores.{IsKept};
ghost use Rattle.flow_policy.specs.Inputs.{Given, IsGivenTo};
ghost use Rattle.js_values.specs.Readings.{HasValue, read_value};
ghost use Rattle.run_state.specs.Acts.{Acts, HasAnswer};
ghost use Rattle.run_state.specs.Worlds.{Belongs, Grows};
ghost use Rattle.step_requests.specs.Asked.{effect_on};

use crate::asked::Effect;
use crate::channels::{existence, label, read, structure};
use crate::making::{copy, make, same};
use crate::objects::{bound, extensible, keys, make_object, prevent, proto};
use crate::properties::{delete, has};
use continuations::Stack;
use flow_frames::FlowFault;
use flow_policy::{Inputs, Policy};
use js_values::Labelled;
use origin_labels::Labels;
use run_state::{Outcome, World};
use std::alloc::Global;

/// What an effect comes to.
pub(crate) fn perform<'p, L: Labels>(
    alloc: Global,
    labels: &mut L,
    world: &mut World<L::Label>,
    policy: &Policy,
    inputs: &Inputs,
    stack: &Stack<'p, L::Label>,
    count: u32,
    effect: Effect,
) -> Result<Outcome<Labelled<L::Label>, L::Label>, FlowFault<L::Label>>
    requires loose { length stack.now.loose ≡ count }
    requires made { All (HasValue (L.made labels.old)) stack.now.loose }
    requires belongs { Belongs L.made L.meaning labels.old world.old }
    requires room { length policy.now.origins ≤ L.room labels.old }
    requires given { IsGivenTo policy.now inputs.now }
    requires positions { length world.old.positions.items ≡ length policy.now.inputs }
    ensures acts { Acts L.made L.meaning labels.new (λ reading. read_value reading) (λ reading. effect_on policy.now inputs.now (effect) (map (read_value reading) stack.now.loose)) world.old world.new result }
    ensures made { HasAnswer (HasValue (L.made labels.new)) (L.made labels.new) result }
    ensures belongs { Belongs L.made L.meaning labels.new world.new }
    ensures grows { Grows world.old world.new }
    ensures kept { IsKept L.made L.meaning L.room L.firm labels.old labels.new }
{
    match effect {
        Effect::Make { value } => make(labels, world, value),
        Effect::Copy { from } => copy(alloc, labels, world, stack, count, from),
        Effect::Same { a, b } => same(alloc, labels, world, stack, count, a, b),
        Effect::Has { base, key } => has(alloc, labels, world, stack, count, base, &key),
        Effect::Delete { base, key } => delete(alloc, labels, world, stack, count, base, &key),
        Effect::Keys { base, all } => keys(alloc, labels, world, stack, count, base, all),
        Effect::Proto { base } => proto(alloc, labels, world, stack, count, base),
        Effect::Extensible { base } => extensible(alloc, labels, world, stack, count, base),
        Effect::Prevent { base } => prevent(alloc, labels, world, stack, count, base),
        Effect::New { class, proto } => make_object(
            alloc, labels, world, stack, count, class, proto,
        ),
        Effect::Bind { target, this, args } => bound(
            alloc, labels, world, stack, count, target, this, &args,
        ),
        Effect::ReadLine { name } => read(alloc, labels, world, policy, inputs, stack, count, name),
        Effect::Label { from, origins } => label(
            alloc, labels, world, policy, stack, count, from, &origins,
        ),
        Effect::RaiseStructure { base, origins } => structure(
            alloc, labels, world, policy, stack, count, base, &origins,
        ),
        Effect::RaiseExistence { base, key, origins } => existence(
            alloc, labels, world, policy, stack, count, base, &key, &origins,
        ),
    }
}
