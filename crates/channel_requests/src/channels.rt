//! Channels of a policy.

ghost use Rattle.std.specs.Prelude.{◌≡◌, ◌<◌, length, IfSome, IfOk};
ghost use Rattle.origin_labels.specs.Stores.{IsKept};
ghost use Rattle.flow_policy.specs.Policies.{IsChannel};
ghost use Rattle.es_meaning.specs.Plain.{number_of_channel, channel_of};
ghost use Rattle.channel_requests.specs.Answers.{Means};

use flow_policy::Channel;
use flow_text::{OutOfMemory, Text};
use js_number::Primitive;
use js_values::Value;
use origin_labels::{Labels, join_all};

/// The number of the channel that a value names.
pub(crate) fn channel_of(channels: &[Channel], value: &Value) -> Option<usize>
    ensures number { result ≡ channel_of channels.now value.now }
    ensures within { IfSome result (λ i. i < length channels.now) }
{
    match value {
        Value::Primitive(Primitive::Str(name)) => number_of_channel(channels, name),
        _ => None,
    }
}

fn number_of_channel(channels: &[Channel], name: &Text) -> Option<usize>
    ensures number { result ≡ number_of_channel name.now channels.now }
    ensures within { IfSome result (λ i. i < length channels.now) }
{
    channels.iter().position(|channel| channel.name == *name)
}

/// The label of a channel.
pub(crate) fn channel_label<L: Labels>(
    labels: &mut L,
    channel: &Channel,
) -> Result<L::Label, OutOfMemory>
    requires { IsChannel (L.room labels.old) channel.now }
    ensures means { IfOk result (λ label. Means L.made L.meaning labels.new label (λ reading. channel.now.label)) }
    ensures kept { IsKept L.made L.meaning L.room L.firm labels.old labels.new }
{
    join_all(labels, &channel.label)
}
