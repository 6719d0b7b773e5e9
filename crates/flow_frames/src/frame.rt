//! A frame as it is kept, and what goes over several of them.

ghost use Rattle.std.specs.Prelude.{◌≡◌, ◌<◌, map, length, IfOk, OnOk, OnErr, IsOk, true, ◌&&◌};
ghost use Rattle.std.specs.List.{All};
ghost use Rattle.origin_labels.specs.Label.{Label};
ghost use Rattle.origin_labels.specs.Stores.{IsKept};
ghost use Rattle.flow_frames.specs.Kinds.{is_try};
ghost use Rattle.flow_frames.specs.Frames.{context};
ghost use Rattle.flow_frames.specs.Held.{seen};
ghost use Rattle.flow_frames.specs.Changes.{raised};
ghost use Rattle.flow_frames.specs.Standing.{HasMade, Stand};
ghost use Rattle.flow_frames.specs.Views.{held, HasNext, moved_on};

use crate::kind::Kind;
use flow_text::OutOfMemory;
use origin_labels::Labels;

/// A frame as it is kept. A raise puts the next total aside until it has made all of them, so that one that fails halfway changes nothing.
#[derive(Clone, Copy)]
pub(crate) struct Frame<T> {
    pub(crate) kind: Kind,
    pub(crate) label: T,
    pub(crate) active: bool,
    pub(crate) total: T,
    next_total: T,
}

impl<T: Copy> Frame<T> {
    /// A frame as it is pushed.
    pub(crate) fn new(kind: Kind, label: T, total: T) -> Frame<T>
        ensures { held result ≡ record { kind = kind; label = label; active = is_try kind; total = total } }
    {
        Frame {
            kind,
            label,
            active: kind.is_try(),
            total,
            next_total: total,
        }
    }

    /// Whether it is a Try frame that catches what is thrown.
    pub(crate) fn catches(&self) -> bool
        ensures { result ≡ (is_try self.now.kind && self.now.active) }
    {
        self.kind.is_try() && self.active
    }
}

/// The union of the frames' labels.
pub(crate) fn join_labels<T: Copy, L: Labels<Label = T>>(
    labels: &mut L,
    frames: &[Frame<T>],
) -> Result<T, OutOfMemory>
    requires { All (λ f. L.made labels.old f.label) frames.now }
    ensures made { IfOk result (L.made labels.new) }
    ensures meaning { IfOk result (λ label. L.meaning labels.new label ≡ context (seen L.meaning labels.old (map held frames.now))) }
    ensures kept { IsKept L.made L.meaning L.room L.firm labels.old labels.new }
    ensures firm { L.firm labels.old ≡ true → IsOk result }
{
    let mut all = labels.bottom();
    for frame in frames {
        all = labels.join(all, frame.label)?;
    }
    Ok(all)
}

/// Makes the totals with the label, and puts them aside.
fn make_next_totals<T: Copy, L: Labels<Label = T>>(
    labels: &mut L,
    frames: &mut [Frame<T>],
    label: T,
) -> Result<(), OutOfMemory>
    requires label { L.made labels.old label }
    requires totals { All (λ f. L.made labels.old f.total) frames.old }
    ensures next { OnOk result (All (HasNext L.made L.meaning labels.new (L.meaning labels.old label)) frames.new) }
    ensures same { map held frames.new ≡ map held frames.old }
    ensures kept { IsKept L.made L.meaning L.room L.firm labels.old labels.new }
    ensures firm { L.firm labels.old ≡ true → IsOk result }
{
    for frame in frames.iter_mut() {
        frame.next_total = labels.join(frame.total, label)?;
    }
    Ok(())
}

/// Takes the totals that were put aside.
fn take_next_totals<T: Copy>(frames: &mut [Frame<T>])
    ensures { frames.new ≡ map moved_on frames.old }
{
    for frame in frames.iter_mut() {
        frame.total = frame.next_total;
    }
}

/// Joins the label to that of the first of the frames, and to the totals of all.
pub(crate) fn raise_first<T: Copy, L: Labels<Label = T>>(
    labels: &mut L,
    frames: &mut [Frame<T>],
    label: T,
) -> Result<(), OutOfMemory>
    requires some { 0 < length frames.old }
    requires label { L.made labels.old label }
    requires made { All (HasMade L.made labels.old) (map held frames.old) }
    ensures stands { OnOk result ((outside : Label) → Stand L.made L.meaning labels.old outside (map held frames.old) → Stand L.made L.meaning labels.new outside (map held frames.new)) }
    ensures seen { OnOk result (seen L.meaning labels.new (map held frames.new) ≡ raised (seen L.meaning labels.old (map held frames.old)) 0 (L.meaning labels.old label)) }
    ensures unchanged { OnErr result (map held frames.new ≡ map held frames.old) }
    ensures kept { IsKept L.made L.meaning L.room L.firm labels.old labels.new }
    ensures firm { L.firm labels.old ≡ true → IsOk result }
{
    let raised = labels.join(frames[0].label, label)?;
    make_next_totals(labels, frames, label)?;
    frames[0].label = raised;
    take_next_totals(frames);
    Ok(())
}
