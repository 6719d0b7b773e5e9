//! Origins that are joined to a value's label.

ghost use Rattle.std.specs.Prelude.{◌≤◌, [], ◌∷◌, length};
ghost use Rattle.origin_labels.specs.Stores.{IsKept};
ghost use Rattle.flow_policy.specs.Inputs.{Given};
ghost use Rattle.js_values.specs.Readings.{HasValue, read_value};
ghost use Rattle.es_meaning.specs.Operations as operations;
ghost use Rattle.flow_meaning.specs.Tracked.{act};
ghost use Rattle.run_state.specs.Worlds.{Belongs};
ghost use Rattle.run_state.specs.Acts.{Acts, HasAnswer};

use crate::origins::{are_declared, label_of};
use flow_frames::FlowFault;
use flow_policy::Policy;
use js_values::Labelled;
use origin_labels::{Labels, OriginList};
use run_state::{Leaving, Outcome, World};
use std::alloc::Global;

/// A value with origins joined to its label. Where one of them isn't declared the run leaves.
pub fn join_label<L: Labels>(
    alloc: Global,
    labels: &mut L,
    world: &World<L::Label>,
    policy: &Policy,
    value: &Labelled<L::Label>,
    origins: &OriginList,
) -> Result<Outcome<Labelled<L::Label>, L::Label>, FlowFault<L::Label>>
    requires belongs { Belongs L.made L.meaning labels.old world.now }
    requires value { L.made labels.old value.now.label }
    requires room { length policy.now.origins ≤ L.room labels.old }
    ensures acts { (inputs : Given) → Acts L.made L.meaning labels.new (λ reading. read_value reading) (λ reading. act policy.now inputs (operations.join_label origins.now) (read_value reading value.now ∷ [])) world.now world.now result }
    ensures made { HasAnswer (HasValue (L.made labels.new)) (L.made labels.new) result }
    ensures belongs { Belongs L.made L.meaning labels.new world.now }
    ensures kept { IsKept L.made L.meaning L.room L.firm labels.old labels.new }
{
    if !are_declared(policy, origins) {
        return Ok(Outcome::Leaves(Leaving::Origin));
    }
    let added = label_of(labels, origins)?;
    let label = labels.join(value.label, added)?;
    let value = value.value.copy(alloc)?;
    Ok(Outcome::Goes(Labelled { value, label }))
}
