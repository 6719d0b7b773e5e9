//! The answers of acts, handed on to the work that waits.

ghost use Rattle.std.specs.Prelude.{◌≡◌, length, IfErr, IfOk};
ghost use Rattle.flow_frames.specs.Stops.{IfStop};
ghost use Rattle.js_values.specs.Readings.{HasValue, read_value};
ghost use Rattle.run_state.specs.declared.world.World.{World};
ghost use Rattle.run_state.specs.Accesses.{HasAccess, HasPutting, read_access, read_putting};
ghost use Rattle.run_state.specs.Acts.{HasAnswer};
ghost use Rattle.continuations.specs.Stops.{HasStop};
ghost use Rattle.step_objects.specs.Standing.{StandsBy};
ghost use Rattle.step_references.specs.Moving.{Handed, IfGiven, Moved, Parts, entering_access, entering_putting, giving};

use crate::entering::{enter_access, enter_putting};
use continuations::{Control, Jump, Stack, leave_by};
use flow_frames::FlowFault;
use js_values::Labelled;
use origin_labels::Labels;
use run_state::{Access, Outcome, Putting};
use std::alloc::Global;

/// What comes behind an act: its value, or what it threw, lies uppermost.
#[inline(always)]
pub fn hand_on<'p, L: Labels>(
    labels: &L,
    stack: &mut Stack<'p, L::Label>,
    answer: Result<Outcome<Labelled<L::Label>, L::Label>, FlowFault<L::Label>>,
) -> Result<Control<'p>, FlowFault<L::Label>>
    requires loose { length stack.old.loose ≡ 0 }
    requires made { HasAnswer (HasValue (L.made labels.now)) (L.made labels.now) answer }
    ensures hands { Handed (λ reading. read_value reading) giving stack.old stack.new answer result }
    ensures moved { (world_old : World L.Label) (world_new : World L.Label) → StandsBy world_old world_new answer → IfOk result (Moved (L.made labels.now) 6 stack.old stack.new world_old world_new) }
    ensures stopped { IfErr result (IfStop (HasStop (L.made labels.now))) }
{
    let came = go_on(labels, stack, 0, answer)?;
    match came {
        Went::On(value) => {
            stack.lay(value)?;
            Ok(Control::Value)
        }
        Went::Off(next) => Ok(next),
    }
}

/// What comes behind a read: its value, or its getter is called.
#[inline(always)]
pub fn hand_on_access<'p, L: Labels>(
    labels: &L,
    stack: &mut Stack<'p, L::Label>,
    answer: Result<Outcome<Access<L::Label>, L::Label>, FlowFault<L::Label>>,
) -> Result<Control<'p>, FlowFault<L::Label>>
    requires loose { length stack.old.loose ≡ 0 }
    requires made { HasAnswer (HasAccess (L.made labels.now)) (L.made labels.now) answer }
    ensures hands { Handed (λ reading. read_access reading) entering_access stack.old stack.new answer result }
    ensures moved { (world_old : World L.Label) (world_new : World L.Label) → StandsBy world_old world_new answer → IfOk result (Moved (L.made labels.now) 8 stack.old stack.new world_old world_new) }
    ensures stopped { IfErr result (IfStop (HasStop (L.made labels.now))) }
{
    let came = go_on(labels, stack, 0, answer)?;
    match came {
        Went::On(access) => {
            let next = enter_access(labels, stack, access)?;
            Ok(next)
        }
        Went::Off(next) => Ok(next),
    }
}

/// What comes behind a put: the value that the assignment gives, or its setter is called, with what the assignment gives as its value where no other is given.
#[inline(always)]
pub(crate) fn hand_on_putting<'p, L: Labels>(
    alloc: Global,
    labels: &L,
    stack: &mut Stack<'p, L::Label>,
    answer: Result<Outcome<Putting<L::Label>, L::Label>, FlowFault<L::Label>>,
    value: Option<Labelled<L::Label>>,
    gives: Labelled<L::Label>,
) -> Result<Control<'p>, FlowFault<L::Label>>
    requires loose { length stack.old.loose ≡ 0 }
    requires made { HasAnswer (HasPutting (L.made labels.now)) (L.made labels.now) answer }
    requires value { IfGiven (L.made labels.now) value }
    requires gives { L.made labels.now gives.label }
    ensures hands { Handed (λ reading. read_putting reading) (entering_putting value gives) stack.old stack.new answer result }
    ensures moved { (world_old : World L.Label) (world_new : World L.Label) → StandsBy world_old world_new answer → IfOk result (Moved (L.made labels.now) 11 stack.old stack.new world_old world_new) }
    ensures stopped { IfErr result (IfStop (HasStop (L.made labels.now))) }
{
    let came = go_on(labels, stack, 0, answer)?;
    match came {
        Went::On(putting) => {
            let next = enter_putting(alloc, labels, stack, putting, value, gives)?;
            Ok(next)
        }
        Went::Off(next) => Ok(next),
    }
}

/// What an act went on with, or the next move where it threw or left the language.
#[derive(Drop)]
pub enum Went<'p, X> {
    On(X),
    Off(Control<'p>),
}

/// An act's answer, where something follows that it doesn't give: what it threw lies uppermost, in place of the values that no work keeps.
#[inline(always)]
pub fn go_on<'p, X: Drop, L: Labels>(
    labels: &L,
    stack: &mut Stack<'p, L::Label>,
    count: usize,
    answer: Result<Outcome<X, L::Label>, FlowFault<L::Label>>,
) -> Result<Went<'p, X>, FlowFault<L::Label>>
    requires loose { count ≡ length stack.old.loose }
    requires made { HasAnswer (λ x. Unit {0}) (L.made labels.now) answer }
    ensures parts { Parts (L.made labels.now) stack.old stack.new answer result }
    ensures stopped { IfErr result (IfStop (HasStop (L.made labels.now))) }
{
    let came = answer?;
    match came {
        Outcome::Goes(x) => Ok(Went::On(x)),
        Outcome::Throws(error) => {
            stack.clear(count);
            stack.lay(error)?;
            Ok(Went::Off(Control::Jumps(Jump::Throws)))
        }
        Outcome::Leaves(why) => {
            stack.clear(count);
            let next = leave_by(labels, stack, why)?;
            Ok(Went::Off(next))
        }
    }
}
