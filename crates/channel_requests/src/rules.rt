//! The flow rules of channels.

ghost use Rattle.std.specs.Prelude.{◌≡◌, map, IfOk, IfErr, true};
ghost use Rattle.origin_labels.specs.Label.{Label, union};
ghost use Rattle.origin_labels.specs.Stores.{IsKept};
ghost use Rattle.flow_policy.specs.Policies.{IsChannel};
ghost use Rattle.flow_frames.specs.Frames.{context};
ghost use Rattle.flow_frames.specs.Held.{Belong, seen_frame};
ghost use Rattle.flow_frames.specs.Stops.{IfStop};
ghost use Rattle.channel_requests.specs.Answers.{Means, Asks, Stops};

use crate::channels::channel_label;
use flow_frames::{FlowFault, FlowStop, Frames, Rule};
use flow_policy::Channel;
use flow_text::OutOfMemory;
use origin_labels::Labels;

/// What a rule of channels needs and has, where the one is included in the other.
#[derive(Clone, Copy)]
pub(crate) struct Asked<T> {
    pub(crate) need: T,
    pub(crate) have: T,
}

/// Asks a rule whether the context and a label are included in a channel's label.
pub(crate) fn ask<L: Labels>(
    labels: &mut L,
    frames: &Frames<L::Label>,
    rule: Rule,
    channel: &Channel,
    label: L::Label,
) -> Result<Asked<L::Label>, FlowFault<L::Label>>
    requires belongs { Belong L.made L.meaning labels.old frames.now.frames }
    requires channel { IsChannel (L.room labels.old) channel.now }
    requires label { L.made labels.old label }
    ensures asked { IfOk result (λ a. Asks L.made L.meaning labels.new (λ reading. union (context (map (seen_frame reading) frames.now.frames)) (reading label)) (λ reading. channel.now.label) true a.need a.have) }
    ensures stopped { IfErr result (IfStop (Stops L.made L.meaning labels.new rule (λ reading. union (context (map (seen_frame reading) frames.now.frames)) (reading label)) (λ reading. channel.now.label))) }
    ensures kept { IsKept L.made L.meaning L.room L.firm labels.old labels.new }
{
    let need = need_of(labels, frames, label)?;
    let have = channel_label(labels, channel)?;
    if !labels.within(need, have) {
        return Err(FlowFault::Stop(FlowStop { rule, need, have }));
    }
    Ok(Asked { need, have })
}

/// The context and a label.
pub(crate) fn need_of<L: Labels>(
    labels: &mut L,
    frames: &Frames<L::Label>,
    label: L::Label,
) -> Result<L::Label, OutOfMemory>
    requires belongs { Belong L.made L.meaning labels.old frames.now.frames }
    requires label { L.made labels.old label }
    ensures means { IfOk result (λ need. Means L.made L.meaning labels.new need (λ reading. union (context (map (seen_frame reading) frames.now.frames)) (reading label))) }
    ensures kept { IsKept L.made L.meaning L.room L.firm labels.old labels.new }
{
    labels.join(frames.context(labels), label)
}
