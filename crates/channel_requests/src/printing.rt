//! Lines that are printed.

ghost use Rattle.std.specs.Prelude.{◌≡◌, ◌<◌, ◌≤◌, [], ◌∷◌, length, IfOk};
ghost use Rattle.origin_labels.specs.Stores.{IsKept};
ghost use Rattle.flow_policy.specs.Inputs.{Given};
ghost use Rattle.js_values.specs.Readings.{HasValue, read_value};
ghost use Rattle.es_meaning.specs.Operations as operations;
ghost use Rattle.flow_meaning.specs.Tracked.{act};
ghost use Rattle.run_state.specs.Worlds.{Belongs};
ghost use Rattle.run_state.specs.Acts.{HasAnswer};
ghost use Rattle.channel_requests.specs.Answers.{Prints, HasPrinted, IfPrinted, text_in};

use crate::channels::channel_of;
use crate::rules::ask;
use flow_frames::{FlowFault, Rule};
use flow_policy::Policy;
use flow_text::{OutOfMemory, Text};
use js_number::Primitive;
use js_values::{Labelled, Value};
use origin_labels::Labels;
use run_state::{Leaving, Outcome, World};
use std::alloc::Global;

/// A line as it is printed.
#[derive(Drop)]
pub struct Printed<T> {
    /// The number of its output channel.
    pub channel: usize,
    pub text: Text,
    /// What decided that it is printed and what it is: its recorded label.
    pub need: T,
    /// The label of the undefined that the request gives.
    pub label: T,
}

/// A text as a line of the output channel that a value names, by rule W12. Without such a channel or such a text the run leaves.
pub fn print_line<L: Labels>(
    alloc: Global,
    labels: &mut L,
    world: &World<L::Label>,
    policy: &Policy,
    name: &Labelled<L::Label>,
    value: &Labelled<L::Label>,
) -> Result<Outcome<Printed<L::Label>, L::Label>, FlowFault<L::Label>>
    requires belongs { Belongs L.made L.meaning labels.old world.now }
    requires name { L.made labels.old name.now.label }
    requires value { L.made labels.old value.now.label }
    requires room { length policy.now.origins ≤ L.room labels.old }
    ensures prints { (inputs : Given) → Prints L.made L.meaning labels.new policy.now (λ reading. act policy.now inputs operations.print_line (read_value reading name.now ∷ read_value reading value.now ∷ [])) world.now result }
    ensures channel { IfOk result (IfPrinted (λ p. p.channel < length policy.now.outputs)) }
    ensures made { HasAnswer (HasPrinted (L.made labels.new)) (L.made labels.new) result }
    ensures belongs { Belongs L.made L.meaning labels.new world.now }
    ensures kept { IsKept L.made L.meaning L.room L.firm labels.old labels.new }
{
    let Some(i) = channel_of(policy.outputs(), &name.value) else {
        return Ok(Outcome::Leaves(Leaving::Channel));
    };
    let Some(text) = text_in(alloc, &value.value)? else {
        return Ok(Outcome::Leaves(Leaving::Channel));
    };
    let label = labels.join(name.label, value.label)?;
    let asked = ask(
        labels,
        &world.frames,
        Rule::W12,
        &policy.outputs()[i],
        label,
    )?;
    Ok(Outcome::Goes(Printed {
        channel: i,
        text,
        need: asked.need,
        label,
    }))
}

/// The text that a value is, if it is one.
fn text_in(alloc: Global, value: &Value) -> Result<Option<Text>, OutOfMemory>
    ensures { IfOk result (λ text. text_in value.now ≡ text) }
{
    match value {
        Value::Primitive(Primitive::Str(text)) => {
            let text = text.copy(alloc)?;
            Ok(Some(text))
        }
        _ => Ok(None),
    }
}
