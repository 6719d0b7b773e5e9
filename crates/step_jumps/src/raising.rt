//! Directives: origins are joined to what a jump depends on, by rule W10.

ghost use Rattle.std.specs.Prelude.{◌≡◌, ◌≤◌, ◌+◌, ◌++◌, ℕ, List, Option, Some, length, map, option_map, IfErr, IfOk, IfSome};
ghost use Rattle.origin_labels.specs.Label.{Label, label_of, single, union};
ghost use Rattle.origin_labels.specs.Names.{place_of};
ghost use Rattle.origin_labels.specs.Stores.{IsKept};
ghost use Rattle.flow_frames.specs.Held.{Belong, CatchByTry, seen_frame};
ghost use Rattle.flow_frames.specs.Stops.{IfStop};
ghost use Rattle.flow_lists.specs.Lists.{names_in};
ghost use Rattle.flow_policy.specs.Inputs.{Given};
ghost use Rattle.js_ast.specs.Functions.{FunctionCode};
ghost use Rattle.js_ast.specs.Views.{view_expr};
ghost use Rattle.js_values.specs.Readings.{IsReading};
ghost use Rattle.es_meaning.specs.Directives.{Upgrade, upgrade_of};
ghost use Rattle.es_meaning.specs.Environments.{aimed};
ghost use Rattle.es_meaning.specs.Outcomes.{Exit};
ghost use Rattle.es_meaning.specs.BuiltIns.{BuiltIns};
ghost use Rattle.flow_meaning.specs.Scopes.{State, frame_of, raise_frame};
ghost use Rattle.flow_meaning.specs.Tracked.{named_origins, raises};
ghost use Rattle.run_state.specs.Worlds.{Grows};
ghost use Rattle.continuations.specs.declared.continuation.Control.TheVariants as control;
ghost use Rattle.continuations.specs.declared.continuation.Continuation.TheVariants as continuation;
ghost use Rattle.continuations.specs.Going.{Resumes, here};
ghost use Rattle.continuations.specs.Kept.{scope_of, scopes_of, waiting};
ghost use Rattle.continuations.specs.Loads.{Adds, weight};
ghost use Rattle.continuations.specs.Pending.{env_above, owns, values_of};
ghost use Rattle.continuations.specs.Resuming.{with_frames};
ghost use Rattle.continuations.specs.Invariant.{Invariant};
ghost use Rattle.continuations.specs.Stops.{HasStop};
ghost use Rattle.step_jumps.specs.Raising.{SaysRaised, leaving_by};
ghost use Rattle.native_protocol.specs.Steps.{Steps};

use crate::again::reached;
use crate::directives::{Spoken, directive_of};
use continuations::{Control, Reason, Stack};
use flow_frames::{FlowFault, Frames, belonging_lasts};
use flow_lists::{first_name, is_bare};
use flow_policy::Policy;
use flow_text::{OutOfMemory, Text};
use js_ast::Expr;
use origin_labels::{Labels, Origins};
use run_state::World;
use std::alloc::Global;

/// A directive, behind its value, which is of no use (`directive_of` tells of which jump it speaks, and so in the frame at which depth such a jump would stop, if it has one): the origins that it names are joined to that frame's label.
pub fn raise_by<'p, L: Labels>(
    alloc: Global,
    labels: &mut L,
    world: &mut World<L::Label>,
    stack: &mut Stack<'p, L::Label>,
    policy: &Policy,
    e: &'p Expr,
    to: Option<usize>,
) -> Result<Control<'p>, FlowFault<L::Label>>
    requires aim { (upgrade : Upgrade) → upgrade_of (view_expr e.now) ≡ Some upgrade → to ≡ option_map (λ f. f.1) (aimed 0 upgrade.leaving (env_above stack.old.tasks here)) }
    requires room { length policy.now.origins ≤ L.room labels.old }
    requires standing { Invariant L.made L.meaning labels.old stack.old world.old (owns (continuation.Raise e) + 1) (scopes_of stack.old.tasks ++ scope_of (continuation.Raise e)) (waiting stack.old.tasks) control.Value }
    ensures resumes { (inputs : Given) (set : BuiltIns) (functions : List FunctionCode) (natives : List Steps) → Resumes L.made L.meaning labels.new policy.now inputs set functions (continuation.Raise e.entry) natives natives stack.old stack.new world.old world.new result }
    ensures standing { IfOk result (λ move. Invariant L.made L.meaning labels.new stack.new world.new (values_of move) (scopes_of stack.new.tasks) (waiting stack.old.tasks) move) }
    ensures adds { IfOk result (Adds (weight (continuation.Raise e.entry) + 5) stack.old stack.new) }
    ensures stopped { IfErr result (IfStop (HasStop (L.made labels.new))) }
    ensures grows { Grows world.old world.new }
    ensures kept { IsKept L.made L.meaning L.room L.firm labels.old labels.new }
{
    stack.clear(1);
    let Some(directive) = directive_of(e) else {
        return Ok(Control::Done);
    };
    let Some(label) = origins_in(alloc, labels, policy, directive.list)? else {
        return Ok(Control::Leave(Reason::Origin));
    };
    raise_at(labels, &mut world.frames, directive.leaving, to, label)?;
    Ok(Control::Done)
}

/// Raises the frame of which a directive speaks, if there is one.
fn raise_at<L: Labels>(
    labels: &mut L,
    frames: &mut Frames<L::Label>,
    leaving: Spoken<'_>,
    to: Option<usize>,
    label: L::Label,
) -> Result<(), FlowFault<L::Label>>
    requires label { L.made labels.old label }
    requires belongs { Belong L.made L.meaning labels.old frames.old.frames }
    ensures raises { (aim : Option (Exit × ℕ)) (reading : L.Label → Label) (s : State) → to ≡ option_map (λ f. f.1) aim → IsReading L.made L.meaning labels.new reading → SaysRaised reading (raises (leaving_by leaving.entry) aim (reading label) (with_frames reading frames.old.frames s)) (with_frames reading frames.new.frames s) result }
    ensures length { length frames.new.frames ≡ length frames.old.frames }
    ensures catch { CatchByTry frames.new.frames }
    ensures stopped { IfErr result (IfStop (HasStop (L.made labels.new))) }
    ensures belongs { Belong L.made L.meaning labels.new frames.new.frames }
    ensures kept { IsKept L.made L.meaning L.room L.firm labels.old labels.new }
{
    let _count = frames.len();
    let Some(to) = to else {
        return Ok(());
    };
    let depth = place(frames, leaving, to);
    raise(labels, frames, depth, label)
}

/// The depth of the frame of which a directive speaks: for a throw it is the one that would catch it.
fn place<T: Copy>(frames: &Frames<T>, leaving: Spoken<'_>, to: usize) -> usize
    ensures { (reading : T → Label) → frame_of (leaving_by leaving.entry) to (map (seen_frame reading) frames.now.frames) ≡ result }
{
    match leaving {
        Spoken::Thrown => reached(frames, to),
        Spoken::Returned => to,
        Spoken::Left(_, _) => to,
    }
}

/// Raises the frame at a depth. Where no frame stands there, none is raised.
fn raise<L: Labels>(
    labels: &mut L,
    frames: &mut Frames<L::Label>,
    depth: usize,
    label: L::Label,
) -> Result<(), FlowFault<L::Label>>
    requires label { L.made labels.old label }
    requires belongs { Belong L.made L.meaning labels.old frames.old.frames }
    ensures raises { (reading : L.Label → Label) (s : State) → IsReading L.made L.meaning labels.new reading → SaysRaised reading (raise_frame depth (reading label) (with_frames reading frames.old.frames s)) (with_frames reading frames.new.frames s) result }
    ensures length { length frames.new.frames ≡ length frames.old.frames }
    ensures catch { CatchByTry frames.new.frames }
    ensures stopped { IfErr result (IfStop (HasStop (L.made labels.new))) }
    ensures belongs { Belong L.made L.meaning labels.new frames.new.frames }
    ensures kept { IsKept L.made L.meaning L.room L.firm labels.old labels.new }
{
    if depth >= frames.len() {
        return Ok(());
    }
    frames.raise(labels, depth, label)?;
    let _count = frames.len();
    Ok(())
}

/// The set of the origins that a list names, if the policy has each.
fn origins_in<L: Labels>(
    alloc: Global,
    labels: &mut L,
    policy: &Policy,
    list: &[u16],
) -> Result<Option<L::Label>, OutOfMemory>
    requires { length policy.now.origins ≤ L.room labels.old }
    ensures made { IfOk result (λ found. IfSome found (L.made labels.new)) }
    ensures origins { (inputs : Given) → IfOk result (λ found. option_map (L.meaning labels.new) found ≡ option_map label_of (named_origins policy.now inputs (names_in list.now))) }
    ensures kept { IsKept L.made L.meaning L.room L.firm labels.old labels.new }
{
    let origins = policy.origins();
    let mut all = labels.bottom();
    if is_bare(list) {
        return Ok(Some(all));
    }
    let mut rest = list;
    while let Some((name, others)) = first_name(rest) {
        let Some(more) = with_origin(alloc, labels, origins, all, name)? else {
            return Ok(None);
        };
        all = more;
        rest = others;
    }
    let found = with_origin(alloc, labels, origins, all, rest)?;
    Ok(found)
}

/// A set with the origin of a name, if there is one.
fn with_origin<L: Labels>(
    alloc: Global,
    labels: &mut L,
    origins: &Origins,
    all: L::Label,
    name: &[u16],
) -> Result<Option<L::Label>, OutOfMemory>
    requires room { length origins.now ≤ L.room labels.old }
    requires all { L.made labels.old all }
    ensures made { IfOk result (λ found. IfSome found (L.made labels.new)) }
    ensures origin { IfOk result (λ found. option_map (L.meaning labels.new) found ≡ option_map (λ origin. union (L.meaning labels.old all) (single origin)) (place_of name.now origins.now)) }
    ensures kept { IsKept L.made L.meaning L.room L.firm labels.old labels.new }
{
    let mut text = Text::new(alloc);
    text.push_units(name)?;
    let Some(origin) = origins.index_of(&text) else {
        return Ok(None);
    };
    let one = labels.single(origin)?;
    let all = labels.join(all, one)?;
    Ok(Some(all))
}
