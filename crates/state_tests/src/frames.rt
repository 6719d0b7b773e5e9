ghost use Rattle.std.specs.Prelude.{◌≡◌, ◌<◌, ◌≤◌, IfOk, length};
ghost use Rattle.flow_frames.specs.Held.{Belong};

use crate::told::holds;
use flow_frames::*;
use flow_text::OutOfMemory;
use origin_labels::{Labels, Masks};
use std::alloc::Global;
use std::test::*;

// Which of the origins 0 and 1 the label has.
fn origins<L: Labels>(labels: &L, label: L::Label) -> [bool; 2]
    requires { L.made labels.now label }
{
    [labels.has(label, 0), labels.has(label, 1)]
}

// Which of the origins 0 and 1 the context has.
fn context<L: Labels>(labels: &L, frames: &Frames<L::Label>) -> [bool; 2]
    requires { Belong L.made L.meaning labels.now frames.now.frames }
{
    origins(labels, frames.context(labels))
}

// The Root, and a Branch with the label of origin 0.
fn branched<L: Labels>(
    alloc: Global,
    labels: &mut L,
    a: L::Label,
) -> Result<Frames<L::Label>, OutOfMemory>
    requires { L.made labels.old a }
    ensures length { IfOk result (λ f. length f.frames ≡ 2) }
    ensures belongs { IfOk result (λ f. Belong L.made L.meaning labels.new f.frames) }
{
    let mut frames = Frames::new(alloc, labels)?;
    frames.push(labels, Kind::Branch, labels.bottom())?;
    frames.raise_last(labels, a)?;
    Ok(frames)
}

// The depth to which a throw goes from inside a further frame.
fn target_inside<L: Labels>(
    labels: &mut L,
    frames: &mut Frames<L::Label>,
    kind: Kind,
) -> Option<usize>
    requires { Belong L.made L.meaning labels.old frames.old.frames }
    ensures { Belong L.made L.meaning labels.new frames.new.frames }
{
    frames.push(labels, kind, labels.bottom()).ok()?;
    Some(frames.target())
}

// Makes the innermost frame quiet, if it is a Try frame.
fn silence<L: Labels>(labels: &L, frames: &mut Frames<L::Label>)
    requires { Belong L.made L.meaning labels.now frames.old.frames }
    ensures { Belong L.made L.meaning labels.now frames.new.frames }
{
    belonging_lasts::<L>();
    let last = frames.len() - 1;
    if frames.kind(last) == Kind::Try {
        frames.quiet(last);
    }
}

// Leaves the last frame.
fn leave<L: Labels>(labels: &L, frames: &mut Frames<L::Label>) -> L::Label
    requires some { 2 ≤ length frames.old.frames }
    requires belongs { Belong L.made L.meaning labels.now frames.old.frames }
    ensures made { L.made labels.now result }
    ensures belongs { Belong L.made L.meaning labels.now frames.new.frames }
{
    belonging_lasts::<L>();
    frames.pop()
}

// What the label of the frames strictly inside a depth has.
fn inside<L: Labels>(
    labels: &mut L,
    frames: &Frames<L::Label>,
    depth: usize,
) -> Result<[bool; 2], OutOfMemory>
    requires depth { depth < length frames.now.frames }
    requires belongs { Belong L.made L.meaning labels.old frames.now.frames }
    ensures belongs { Belong L.made L.meaning labels.new frames.now.frames }
{
    let label = frames.inside(labels, depth)?;
    Ok(origins(labels, label))
}

fn begins_with_a_root<L: Labels>(alloc: Global, labels: &L) -> Result<bool, OutOfMemory> {
    let mut frames = Frames::new(alloc, labels)?;
    frames.reserve()?;
    let root = frames.len() == 1 && frames.target() == 0 && frames.kind(0) == Kind::Root;
    Ok(root && context(labels, &frames) == [false, false])
}

// What the labels inside the Root and inside the Branch have.
fn inside_of_both<L: Labels>(
    alloc: Global,
    labels: &mut L,
    a: L::Label,
) -> Result<([bool; 2], [bool; 2]), OutOfMemory>
    requires { L.made labels.old a }
{
    let frames = branched(alloc, labels, a)?;
    let in_root = inside(labels, &frames, 0)?;
    let in_branch = inside(labels, &frames, 1)?;
    Ok((in_root, in_branch))
}

// Raises the last of two frames: what the context has then, what the frame's label has, and what the context has behind it.
fn raised<L: Labels>(
    labels: &mut L,
    frames: &mut Frames<L::Label>,
    b: L::Label,
) -> Option<([bool; 2], [bool; 2], [bool; 2])>
    requires two { length frames.old.frames ≡ 2 }
    requires belongs { Belong L.made L.meaning labels.old frames.old.frames }
    requires label { L.made labels.old b }
{
    frames.raise(labels, 1, b).ok()?;
    let before = context(&*labels, &*frames);
    let label = leave(&*labels, frames);
    let left = origins(&*labels, label);
    Some((before, left, context(&*labels, &*frames)))
}

fn labels_of_what_is_inside(alloc: Global) -> Result<bool, OutOfMemory> {
    let a = Masks.single(0)?;
    let both = inside_of_both(alloc, &mut Masks, a)?;
    Ok(both == ([true, false], [false, false]))
}

fn labels_of_a_raised_frame(alloc: Global) -> Result<bool, OutOfMemory> {
    let a = Masks.single(0)?;
    let b = Masks.single(1)?;
    let mut frames = branched(alloc, &mut Masks, a)?;
    let branch = frames.len() == 2 && context(&Masks, &frames) == [true, false];
    let told = raised(&mut Masks, &mut frames, b);
    Ok(branch && told == Some(([true, true], [true, true], [false, false])))
}

// Whether a jump to the Root from the Branch is stopped: the need has origin 0, and the label doesn't.
fn stops_a_jump(alloc: Global) -> Result<bool, OutOfMemory> {
    let a = Masks.single(0)?;
    let none = Masks.bottom();
    let mut frames = branched(alloc, &mut Masks, a)?;
    let Err(FlowFault::Stop(stop)) = frames.jump(&mut Masks, 0, none) else {
        return Ok(false);
    };
    let need = origins(&Masks, stop.need) == [true, false];
    let have = origins(&Masks, stop.have) == [false, false];
    Ok(need && have && stop.rule == Rule::W9 && frames.len() == 2)
}

// The same of raising the Root.
fn stops_a_raise(alloc: Global) -> Result<bool, OutOfMemory> {
    let a = Masks.single(0)?;
    let mut frames = branched(alloc, &mut Masks, a)?;
    let Err(FlowFault::Stop(stop)) = frames.raise(&mut Masks, 0, a) else {
        return Ok(false);
    };
    let need = origins(&Masks, stop.need) == [true, false];
    let have = origins(&Masks, stop.have) == [false, false];
    Ok(need && have && stop.rule == Rule::W10 && frames.len() == 2)
}

// Whether a jump to the depth 2 leaves three frames.
fn jumps<L: Labels>(labels: &mut L, frames: &mut Frames<L::Label>, none: L::Label) -> bool
    requires none { L.made labels.old none }
    requires belongs { Belong L.made L.meaning labels.old frames.old.frames }
{
    if frames.len() <= 2 {
        return false;
    }
    let jumped = frames.jump(labels, 2, none).is_ok();
    jumped && frames.len() == 3 && context(&*labels, &*frames) == [true, false]
}

fn throws_and_jumps(alloc: Global) -> Result<bool, OutOfMemory> {
    let a = Masks.single(0)?;
    let none = Masks.bottom();
    let mut frames = branched(alloc, &mut Masks, a)?;
    let to_try = target_inside(&mut Masks, &mut frames, Kind::Try) == Some(2);
    let past_call = target_inside(&mut Masks, &mut frames, Kind::Call) == Some(2);
    let to_last = target_inside(&mut Masks, &mut frames, Kind::Try) == Some(4);
    silence(&Masks, &mut frames);
    let past_quiet = frames.target() == 2;
    Ok(to_try && past_call && to_last && past_quiet && jumps(&mut Masks, &mut frames, none))
}

#[test]
fn labels_of_frames(rt: HostRuntime) {
    let alloc = rt.alloc();
    assert!(rt; holds(begins_with_a_root(alloc, &Masks)));
    assert!(rt; holds(labels_of_what_is_inside(alloc)));
    assert!(rt; holds(labels_of_a_raised_frame(alloc)));
    assert!(rt; holds(stops_a_jump(alloc)));
    assert!(rt; holds(stops_a_raise(alloc)));
    assert!(rt; holds(throws_and_jumps(alloc)));
}
