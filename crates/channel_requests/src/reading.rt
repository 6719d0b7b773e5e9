//! Lines that are read.

ghost use Rattle.std.specs.Prelude.{◌≡◌, ◌<◌, ◌≤◌, [], ◌∷◌, length, IfOk, OnOk};
ghost use Rattle.origin_labels.specs.Stores.{IsKept};
ghost use Rattle.flow_policy.specs.Inputs.{IsGivenTo};
ghost use Rattle.js_values.specs.Readings.{HasValue, read_value};
ghost use Rattle.es_meaning.specs.Operations as operations;
ghost use Rattle.es_meaning.specs.Plain.{value_read, positions_behind, line_at};
ghost use Rattle.flow_meaning.specs.Tracked.{act};
ghost use Rattle.run_state.specs.Worlds.{Belongs, Grows};
ghost use Rattle.run_state.specs.Acts.{Acts, HasAnswer};

use crate::channels::channel_of;
use crate::rules::ask;
use flow_frames::{FlowFault, Rule};
use flow_policy::{Inputs, Policy};
use flow_text::OutOfMemory;
use js_number::Primitive;
use js_values::{Labelled, Value};
use origin_labels::Labels;
use run_state::{Leaving, Outcome, World};
use std::alloc::Global;

/// The next line of the input channel that a value names, by rule W11, with the channel's label, or undefined past the end. Without such a channel the run
/// leaves.
pub fn read_line<L: Labels>(
    alloc: Global,
    labels: &mut L,
    world: &mut World<L::Label>,
    policy: &Policy,
    inputs: &Inputs,
    name: &Labelled<L::Label>,
) -> Result<Outcome<Labelled<L::Label>, L::Label>, FlowFault<L::Label>>
    requires belongs { Belongs L.made L.meaning labels.old world.old }
    requires name { L.made labels.old name.now.label }
    requires room { length policy.now.origins ≤ L.room labels.old }
    requires given { IsGivenTo policy.now inputs.now }
    requires positions { length world.old.positions.items ≡ length policy.now.inputs }
    ensures acts { Acts L.made L.meaning labels.new (λ reading. read_value reading) (λ reading. act policy.now inputs.now operations.read_line (read_value reading name.now ∷ [])) world.old world.new result }
    ensures made { HasAnswer (HasValue (L.made labels.new)) (L.made labels.new) result }
    ensures belongs { Belongs L.made L.meaning labels.new world.new }
    ensures grows { Grows world.old world.new }
    ensures kept { IsKept L.made L.meaning L.room L.firm labels.old labels.new }
{
    let Some(i) = channel_of(policy.inputs(), &name.value) else {
        return Ok(Outcome::Leaves(Leaving::Channel));
    };
    let asked = ask(
        labels,
        &world.frames,
        Rule::W11,
        &policy.inputs()[i],
        name.label,
    )?;
    let value = next_value(alloc, inputs, &mut world.positions, i)?;
    Ok(Outcome::Goes(Labelled {
        value,
        label: asked.have,
    }))
}

/// The next line of an input channel, or undefined past the end.
fn next_value(
    alloc: Global,
    inputs: &Inputs,
    positions: &mut [usize],
    i: usize,
) -> Result<Value, OutOfMemory>
    requires channel { i < length inputs.now }
    requires position { i < length positions.old }
    ensures value { IfOk result (λ value. value ≡ value_read (line_at inputs.now i positions.old)) }
    ensures positions { OnOk result (positions.new ≡ positions_behind i (line_at inputs.now i positions.old) positions.old) }
{
    match inputs.line(i, positions[i]) {
        None => Ok(Value::Primitive(Primitive::Undefined)),
        Some(text) => {
            let text = text.copy(alloc)?;
            positions[i] += 1;
            Ok(Value::Primitive(Primitive::Str(text)))
        }
    }
}
