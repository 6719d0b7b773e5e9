//! The frames of a run.

ghost use Rattle.std.specs.Prelude.{◌≡◌, ◌<◌, ◌≤◌, ◌+◌, ◌-◌, [], ◌∷◌, ◌++◌, length, map, take, Some, IfOk, OnOk, OnErr, IfErr, IsOk, true, false};
ghost use Rattle.origin_labels.specs.Label.{Label, bottom};
ghost use Rattle.origin_labels.specs.Stores.{IsKept};
ghost use Rattle.flow_frames.specs.Frames.{context, inside, IsTarget, IsTargetAbove};
ghost use Rattle.flow_frames.specs.Rules.{jump_need, raise_need, is_broken};
ghost use Rattle.flow_frames.specs.Held.{BeginsWithRoot, CatchByTry, Belong, kind_at, label_at, meant_at, seen, seen_frame};
ghost use Rattle.flow_frames.specs.Changes.{pushed, raised, quieted};
ghost use Rattle.flow_frames.specs.Stops.{IfStop, IsStop, Breaks};

use crate::faults::{FlowFault, FlowStop, Rule};
use crate::frame::{Frame, join_labels, raise_first};
use crate::kind::Kind;
use flow_text::OutOfMemory;
use origin_labels::Labels;
use std::alloc::Global;
use std::marker::Model;

/// The frames of a run, outermost first. The first one is the Root, and only Try frames catch.
#[derive(Drop)]
pub struct Frames<T> {
    frames: Vec<Frame<T>>,
}

impl<T> Model for Frames<T> {
    ghost use Rattle.std.specs.Prelude.{◌-◌, map, vec_len, vec_capacity};
    ghost use Rattle.flow_frames.specs.Held.{Kept, AreFormed};

    ghost Value = { Kept T };

    ghost use Rattle.flow_frames.specs.Views.{held};

    ghost view = { λ a. record { frames = map held a.frames.items; spare = vec_capacity a.frames - vec_len a.frames } };

    ghost invariant = { λ a. AreFormed (map held a.frames.items) };
}

impl<T: Copy> Frames<T> {
    /// The Root alone, with the empty label.
    pub fn new<L: Labels<Label = T>>(alloc: Global, labels: &L) -> Result<Frames<T>, OutOfMemory>
        ensures root { IfOk result (λ f. seen L.meaning labels.now f.frames ≡ pushed Kind.Root bottom ∷ []) }
        ensures belongs { IfOk result (λ f. Belong L.made L.meaning labels.now f.frames) }
    {
        let bottom = labels.bottom();
        let mut frames = Vec::new(alloc);
        frames.push(Frame::new(Kind::Root, bottom, bottom))?;
        Ok(Frames { frames })
    }

    /// How many frames there are.
    pub fn len(&self) -> usize
        ensures length { result ≡ length self.now.frames }
        ensures root { BeginsWithRoot self.now.frames }
        ensures catch { CatchByTry self.now.frames }
    {
        self.frames.len()
    }

    /// The kind of the frame at a depth.
    pub fn kind(&self, depth: usize) -> Kind
        requires { depth < length self.now.frames }
        ensures { kind_at self.now.frames depth ≡ Some result }
    {
        self.frames[depth].kind
    }

    /// The label of the frame at a depth.
    pub fn label(&self, depth: usize) -> T
        requires { depth < length self.now.frames }
        ensures { label_at self.now.frames depth ≡ Some result }
    {
        self.frames[depth].label
    }

    /// Makes room for one more frame.
    pub fn reserve(&mut self) -> Result<(), OutOfMemory>
        ensures frames { self.new.frames ≡ self.old.frames }
        ensures spare { OnOk result (1 ≤ self.new.spare) }
        ensures more { self.old.spare ≤ self.new.spare }
        ensures unchanged { OnErr result (self.new ≡ self.old) }
        ensures enough { 1 ≤ self.old.spare → IsOk result }
    {
        self.frames.reserve(1)?;
        Ok(())
    }

    /// Enters a frame.
    pub fn push<L: Labels<Label = T>>(
        &mut self,
        labels: &mut L,
        kind: Kind,
        label: T,
    ) -> Result<(), OutOfMemory>
        requires label { L.made labels.old label }
        requires belongs { Belong L.made L.meaning labels.old self.old.frames }
        ensures pushed { OnOk result (seen L.meaning labels.new self.new.frames ≡ seen L.meaning labels.old self.old.frames ++ pushed kind (L.meaning labels.old label) ∷ []) }
        ensures length { OnOk result (length self.new.frames ≡ length self.old.frames + 1) }
        ensures spare { OnOk result (self.old.spare ≤ self.new.spare + 1) }
        ensures unchanged { OnErr result (self.new ≡ self.old) }
        ensures belongs { Belong L.made L.meaning labels.new self.new.frames }
        ensures kept { IsKept L.made L.meaning L.room L.firm labels.old labels.new }
        ensures firm { L.firm labels.old ≡ true → 1 ≤ self.old.spare → IsOk result }
    {
        let total = labels.join(self.context(labels), label)?;
        self.frames.reserve(1)?;
        self.frames.push_reserved(Frame::new(kind, label, total));
        Ok(())
    }

    /// Leaves the last frame, which isn't the Root, and gives its label.
    pub fn pop(&mut self) -> T
        requires { 2 ≤ length self.old.frames }
        ensures frames { self.new.frames ≡ take (length self.old.frames - 1) self.old.frames }
        ensures length { length self.new.frames ≡ length self.old.frames - 1 }
        ensures label { label_at self.old.frames (length self.old.frames - 1) ≡ Some result }
        ensures spare { self.new.spare ≡ self.old.spare + 1 }
    {
        let last = self.frames.len() - 1;
        let label = self.frames[last].label;
        self.frames.truncate(last);
        label
    }

    /// The union of all labels. It takes constant time, and no memory.
    pub fn context<L: Labels<Label = T>>(&self, _labels: &L) -> T
        requires { Belong L.made L.meaning _labels.now self.now.frames }
        ensures made { L.made _labels.now result }
        ensures meaning { L.meaning _labels.now result ≡ context (seen L.meaning _labels.now self.now.frames) }
    {
        self.frames[self.frames.len() - 1].total
    }

    /// The union of the labels strictly inside the frame at a depth.
    pub fn inside<L: Labels<Label = T>>(
        &self,
        labels: &mut L,
        depth: usize,
    ) -> Result<T, OutOfMemory>
        requires depth { depth < length self.now.frames }
        requires belongs { Belong L.made L.meaning labels.old self.now.frames }
        ensures made { IfOk result (L.made labels.new) }
        ensures meaning { IfOk result (λ label. L.meaning labels.new label ≡ inside (seen L.meaning labels.old self.now.frames) depth) }
        ensures belongs { Belong L.made L.meaning labels.new self.now.frames }
        ensures kept { IsKept L.made L.meaning L.room L.firm labels.old labels.new }
        ensures firm { L.firm labels.old ≡ true → IsOk result }
    {
        join_labels(labels, &self.frames[depth + 1..])
    }

    /// Joins a label to that of the last frame.
    pub fn raise_last<L: Labels<Label = T>>(
        &mut self,
        labels: &mut L,
        label: T,
    ) -> Result<(), OutOfMemory>
        requires label { L.made labels.old label }
        requires belongs { Belong L.made L.meaning labels.old self.old.frames }
        ensures raised { OnOk result (seen L.meaning labels.new self.new.frames ≡ raised (seen L.meaning labels.old self.old.frames) (length self.old.frames - 1) (L.meaning labels.old label)) }
        ensures length { length self.new.frames ≡ length self.old.frames }
        ensures spare { self.new.spare ≡ self.old.spare }
        ensures unchanged { OnErr result (self.new ≡ self.old) }
        ensures belongs { Belong L.made L.meaning labels.new self.new.frames }
        ensures kept { IsKept L.made L.meaning L.room L.firm labels.old labels.new }
        ensures firm { L.firm labels.old ≡ true → IsOk result }
    {
        let last = self.frames.len() - 1;
        self.raise_frame(labels, last, label)
    }

    /// Joins a label to that of the frame at a depth, if that includes what is decided inside the frame (rule W10).
    pub fn raise<L: Labels<Label = T>>(
        &mut self,
        labels: &mut L,
        depth: usize,
        label: T,
    ) -> Result<(), FlowFault<T>>
        requires depth { depth < length self.old.frames }
        requires label { L.made labels.old label }
        requires belongs { Belong L.made L.meaning labels.old self.old.frames }
        ensures raised { OnOk result (seen L.meaning labels.new self.new.frames ≡ raised (seen L.meaning labels.old self.old.frames) depth (L.meaning labels.old label)) }
        ensures allowed { let frames = seen L.meaning labels.old self.old.frames in OnOk result (is_broken (raise_need frames depth) (meant_at frames depth) ≡ false) }
        ensures stopped { let frames = seen L.meaning labels.old self.old.frames in IfErr result (IfStop (Breaks L.made L.meaning labels.new self.old.frames depth Rule.W10 (raise_need frames depth) (meant_at frames depth))) }
        ensures length { length self.new.frames ≡ length self.old.frames }
        ensures spare { self.new.spare ≡ self.old.spare }
        ensures unchanged { OnErr result (self.new ≡ self.old) }
        ensures belongs { Belong L.made L.meaning labels.new self.new.frames }
        ensures kept { IsKept L.made L.meaning L.room L.firm labels.old labels.new }
        ensures firm { L.firm labels.old ≡ true → IfErr result IsStop }
    {
        let need = self.inside(labels, depth)?;
        self.check(labels, Rule::W10, depth, need)?;
        self.raise_frame(labels, depth, label)?;
        Ok(())
    }

    /// Leaves the frames inside that at a depth, if its label includes what is decided inside it and the cause (rule W9).
    pub fn jump<L: Labels<Label = T>>(
        &mut self,
        labels: &mut L,
        depth: usize,
        cause: T,
    ) -> Result<(), FlowFault<T>>
        requires depth { depth < length self.old.frames }
        requires cause { L.made labels.old cause }
        requires belongs { Belong L.made L.meaning labels.old self.old.frames }
        ensures frames { OnOk result (self.new.frames ≡ take (depth + 1) self.old.frames) }
        ensures seen { OnOk result (seen L.meaning labels.new self.new.frames ≡ take (depth + 1) (seen L.meaning labels.old self.old.frames)) }
        ensures length { OnOk result (length self.new.frames ≡ depth + 1) }
        ensures spare { OnOk result (self.new.spare + (depth + 1) ≡ self.old.spare + length self.old.frames) }
        ensures allowed { let frames = seen L.meaning labels.old self.old.frames in OnOk result (is_broken (jump_need frames depth (L.meaning labels.old cause)) (meant_at frames depth) ≡ false) }
        ensures stopped { let frames = seen L.meaning labels.old self.old.frames in IfErr result (IfStop (Breaks L.made L.meaning labels.new self.old.frames depth Rule.W9 (jump_need frames depth (L.meaning labels.old cause)) (meant_at frames depth))) }
        ensures unchanged { OnErr result (self.new ≡ self.old) }
        ensures belongs { Belong L.made L.meaning labels.new self.new.frames }
        ensures kept { IsKept L.made L.meaning L.room L.firm labels.old labels.new }
        ensures firm { L.firm labels.old ≡ true → IfErr result IsStop }
    {
        let inside = self.inside(labels, depth)?;
        let need = labels.join(inside, cause)?;
        self.check(labels, Rule::W9, depth, need)?;
        self.frames.truncate(depth + 1);
        Ok(())
    }

    /// Makes a Try frame catch no longer.
    pub fn quiet(&mut self, depth: usize)
        requires { kind_at self.old.frames depth ≡ Some Kind.Try }
        ensures frames { self.new.frames ≡ quieted self.old.frames depth }
        ensures length { length self.new.frames ≡ length self.old.frames }
        ensures spare { self.new.spare ≡ self.old.spare }
    {
        self.frames[depth].active = false;
    }

    /// The depth of the frame that a throw goes to.
    pub fn target(&self) -> usize
        ensures target { (meaning : T → Label) → IsTarget (map (seen_frame meaning) self.now.frames) result }
        ensures within { result < length self.now.frames }
    {
        for depth in (0..self.frames.len()).rev() {
            if self.frames[depth].catches() {
                return depth;
            }
        }
        0
    }

    /// The depth of the frame that a jump to the frame at a depth reaches first. It looks at no frame below.
    pub fn target_above(&self, to: usize) -> usize
        ensures { (meaning : T → Label) → IsTargetAbove (map (seen_frame meaning) self.now.frames) to result }
    {
        if to >= self.frames.len() {
            return to;
        }
        for depth in (to + 1..self.frames.len()).rev() {
            if self.frames[depth].catches() {
                return depth;
            }
        }
        to
    }

    /// Joins a label to that of the frame at a depth, and to the totals from there on.
    fn raise_frame<L: Labels<Label = T>>(
        &mut self,
        labels: &mut L,
        depth: usize,
        label: T,
    ) -> Result<(), OutOfMemory>
        requires depth { depth < length self.old.frames }
        requires label { L.made labels.old label }
        requires belongs { Belong L.made L.meaning labels.old self.old.frames }
        ensures raised { OnOk result (seen L.meaning labels.new self.new.frames ≡ raised (seen L.meaning labels.old self.old.frames) depth (L.meaning labels.old label)) }
        ensures length { length self.new.frames ≡ length self.old.frames }
        ensures spare { self.new.spare ≡ self.old.spare }
        ensures unchanged { OnErr result (self.new ≡ self.old) }
        ensures belongs { Belong L.made L.meaning labels.new self.new.frames }
        ensures kept { IsKept L.made L.meaning L.room L.firm labels.old labels.new }
        ensures firm { L.firm labels.old ≡ true → IsOk result }
    {
        raise_first(labels, &mut self.frames[depth..], label)?;
        Ok(())
    }

    /// Whether the label of the frame at a depth includes what a rule needs.
    fn check<L: Labels<Label = T>>(
        &self,
        labels: &L,
        rule: Rule,
        depth: usize,
        need: T,
    ) -> Result<(), FlowStop<T>>
        requires depth { depth < length self.now.frames }
        requires need { L.made labels.now need }
        requires belongs { Belong L.made L.meaning labels.now self.now.frames }
        ensures allowed { OnOk result (is_broken (L.meaning labels.now need) (meant_at (seen L.meaning labels.now self.now.frames) depth) ≡ false) }
        ensures stopped { IfErr result (Breaks L.made L.meaning labels.now self.now.frames depth rule (L.meaning labels.now need) (meant_at (seen L.meaning labels.now self.now.frames) depth)) }
    {
        let have = self.label(depth);
        if labels.within(need, have) {
            return Ok(());
        }
        Err(FlowStop { rule, need, have })
    }
}
