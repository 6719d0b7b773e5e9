//! The bytes of lines, and which are shown.

ghost use Rattle.std.specs.Prelude.{◌≡◌, IfOk};
ghost use Rattle.origin_labels.specs.Label.{sees};
ghost use Rattle.flow_meaning.specs.Written.{line_bytes};
ghost use Rattle.step_run.specs.Lines.{shows};

use crate::ending::Show;
use flow_policy::Channel;
use flow_text::{OutOfMemory, Text};
use origin_labels::OriginList;
use std::alloc::Global;

/// A printed line.
#[tactic(auto, unfolding(flow_meaning::specs::Written::line_bytes))]
pub fn line_bytes(alloc: Global, channel: &Text, text: &Text) -> Result<Vec<u8>, OutOfMemory>
    ensures { IfOk result (λ bytes. bytes.items ≡ line_bytes (record { channel = channel.now; text = text.now })) }
{
    let mut bytes = channel.to_utf8(alloc)?;
    bytes.push(b' ')?;
    bytes.extend_from_slice(&text.escaped(alloc)?.to_utf8(alloc)?)?;
    bytes.push(b'\n')?;
    Ok(bytes)
}

/// Whether the lines of a channel are shown.
pub(crate) fn is_shown(show: &Show, channel: &Channel) -> bool
    ensures { result ≡ shows show.now channel.now }
{
    match show {
        Show::All => true,
        Show::Only(observer) => sees(observer, &channel.label),
    }
}

// Whether the observer sees what has the label.
fn sees(observer: &OriginList, label: &OriginList) -> bool
    ensures { result ≡ sees observer.now label.now }
{
    let origins = observer.items();
    label.items().iter().all(|origin| origins.contains(origin))
}
