//! A frame that catches no longer.

ghost use Rattle.std.specs.Prelude.{◌≡◌, false, length, map};
ghost use Rattle.origin_labels.specs.Label.{Label};
ghost use Rattle.flow_frames.specs.Changes.{changed_at};
ghost use Rattle.flow_frames.specs.Held.{Belong, CatchByTry, seen_frame};
ghost use Rattle.flow_frames.specs.Kinds.{is_try};
ghost use Rattle.flow_meaning.specs.Scopes.{innermost};

use flow_frames::{Frames, Kind, belonging_lasts};
use origin_labels::Labels;

/// Whether frames of the kind catch.
fn catches(kind: Kind) -> bool
    ensures { result ≡ is_try kind }
{
    matches!(kind, Kind::Try)
}

/// The last frame catches no longer, if it did.
pub(crate) fn quiet_last<L: Labels>(_labels: &L, frames: &mut Frames<L::Label>)
    requires { Belong L.made L.meaning _labels.now frames.old.frames }
    ensures quieted { (reading : L.Label → Label) → map (seen_frame reading) frames.new.frames ≡ changed_at (λ f. record f { active = false }) (map (seen_frame reading) frames.old.frames) (innermost (map (seen_frame reading) frames.old.frames)) }
    ensures length { length frames.new.frames ≡ length frames.old.frames }
    ensures belongs { Belong L.made L.meaning _labels.now frames.new.frames }
    ensures catch { CatchByTry frames.new.frames }
{
    belonging_lasts::<L>();
    let last = frames.len() - 1;
    if !catches(frames.kind(last)) {
        return;
    }
    frames.quiet(last);
    let _all = frames.len();
}
