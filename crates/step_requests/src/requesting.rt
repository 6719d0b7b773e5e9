//! What a built-in asks for next, and how it is done.

ghost use Rattle.std.specs.Prelude.{◌≡◌, ◌≤◌, ◌<◌, ◌+◌, ◌-◌, [], ◌∷◌, ◌++◌, List, length, IfErr, IfOk, IfSome};
ghost use Rattle.std.specs.List.{All};
ghost use Rattle.origin_labels.specs.Stores.{IsKept};
ghost use Rattle.flow_policy.specs.Policies.{Tables};
ghost use Rattle.flow_policy.specs.Inputs.{Given, IsGivenTo};
ghost use Rattle.flow_frames.specs.Stops.{IfStop};
ghost use Rattle.js_values.specs.Readings.{HasValue};
ghost use Rattle.run_state.specs.Worlds.{Belongs, Grows};
ghost use Rattle.continuations.specs.Stops.{HasStop};
ghost use Rattle.step_requests.specs.Doing.{Does, IsIdle, IsPrinted, IsQuiet, Leaves, Prints, next_of};
ghost use Rattle.step_requests.specs.Requesting.{Requests, Rests, ends_one, printed_by, steps_left, steps_now};
ghost use Rattle.native_protocol.specs.Steps.{Steps};
ghost use Rattle.step_natives.specs.States.{waiting_steps};
ghost use Rattle.continuations.specs.Kept.{waiting};
ghost use Rattle.continuations.specs.Loads.{Adds};
ghost use Rattle.continuations.specs.Moving.{Stands};
ghost use Rattle.step_requests.specs.declared.asked.Asked.TheVariants as asked;

use crate::asked::{Asked, asked_of};
use crate::doing::{define, do_effect, get, look, own, print, put};
use crate::ends::{give_back, leave, throw, throw_new};
use crate::entering::{call, construct};
use crate::moved::Moved;
use channel_requests::Printed;
use continuations::{Control, Stack};
use flow_frames::FlowFault;
use flow_policy::{Inputs, Policy};
use native_protocol::{Answer, Natives, Reg, RegList};
use origin_labels::Labels;
use run_state::World;
use std::alloc::Global;
use step_natives::NativeStates;

/// What the built-in that runs asks for next is done. A line that it prints is handed out beside the next move.
pub fn request<'p, L: Labels, N: Natives>(
    alloc: Global,
    labels: &mut L,
    world: &mut World<L::Label>,
    policy: &Policy,
    inputs: &Inputs,
    natives: &N,
    states: &mut NativeStates<N::State>,
    stack: &mut Stack<'p, L::Label>,
    count: u32,
) -> Result<(Control<'p>, Option<Printed<L::Label>>), FlowFault<L::Label>>
    requires loose { length stack.old.loose ≡ count }
    requires made { All (HasValue (L.made labels.old)) stack.old.loose }
    requires belongs { Belongs L.made L.meaning labels.old world.old }
    requires room { length policy.now.origins ≤ L.room labels.old }
    requires given { IsGivenTo policy.now inputs.now }
    requires positions { length world.old.positions.items ≡ length policy.now.inputs }
    requires runs { length states.old.states ≡ waiting stack.old.tasks + 1 }
    ensures goes_on { Requests L.made L.meaning labels.new policy.now inputs.now (N.after natives.now) (N.asks natives.now) states.old states.new stack.old stack.new world.old world.new result }
    ensures rests { IfOk result (λ moved. Rests (L.made labels.new) stack.old stack.new (length states.new.states) moved.0) }
    ensures adds { IfOk result (λ moved. Adds 11 stack.old stack.new moved.0) }
    ensures printed { IfOk result (λ moved. IfSome moved.1 (IsPrinted (L.made labels.new) (length policy.now.outputs))) }
    ensures stands { IfOk result (λ moved. Stands world.old world.new moved.0) }
    ensures stopped { IfErr result (IfStop (HasStop (L.made labels.new))) }
    ensures belongs { Belongs L.made L.meaning labels.new world.new }
    ensures grows { Grows world.old world.new }
    ensures kept { IsKept L.made L.meaning L.room L.firm labels.old labels.new }
{
    let wanted = states.next(alloc, natives)?;
    let asked = asked_of(wanted);
    let moved = do_asked(alloc, labels, world, policy, inputs, stack, count, asked)?;
    Ok(tell_states(natives, states, moved))
}

/// The states of the built-ins behind a request, and the next move.
fn tell_states<'p, T, N: Natives>(
    _natives: &N,
    states: &mut NativeStates<N::State>,
    moved: Moved<'p, T>,
) -> (Control<'p>, Option<Printed<T>>)
    requires some { 0 < length states.old.states }
    requires idle { IsIdle moved }
    ensures next { result.0 ≡ next_of moved.entry }
    ensures printed { result.1 ≡ printed_by moved.entry }
    ensures states { (front : List Steps) (steps : Steps) → waiting_steps (N.after _natives.now) (N.asks _natives.now) states.old ≡ front ++ steps ∷ [] → steps_now (N.after _natives.now) (N.asks _natives.now) states.new (next_of moved.entry) ≡ steps_left moved.entry steps front }
    ensures count { length states.new.states ≡ length states.old.states - ends_one moved.entry }
{
    match moved {
        Moved::Asks(count, answer) => {
            states.tell(answer);
            (Control::Request(count), None)
        }
        Moved::Prints(count, line) => {
            states.tell(Answer::Done);
            (Control::Request(count), Some(line))
        }
        Moved::Waits(next) => (next, None),
        Moved::Ends(next) => {
            states.pop();
            (next, None)
        }
    }
}

/// What is asked for is done.
fn do_asked<'p, L: Labels>(
    alloc: Global,
    labels: &mut L,
    world: &mut World<L::Label>,
    policy: &Policy,
    inputs: &Inputs,
    stack: &mut Stack<'p, L::Label>,
    count: u32,
    asked: Asked,
) -> Result<Moved<'p, L::Label>, FlowFault<L::Label>>
    requires loose { length stack.old.loose ≡ count }
    requires made { All (HasValue (L.made labels.old)) stack.old.loose }
    requires belongs { Belongs L.made L.meaning labels.old world.old }
    requires room { length policy.now.origins ≤ L.room labels.old }
    requires given { IsGivenTo policy.now inputs.now }
    requires positions { length world.old.positions.items ≡ length policy.now.inputs }
    ensures does { Does L.made L.meaning labels.new (asked) stack.old stack.new world.old world.new policy.now inputs.now result }
    ensures leaves { IfOk result (Leaves (L.made labels.new) stack.old stack.new world.old world.new) }
    ensures printed { IfOk result (Prints (L.made labels.new) (length policy.now.outputs)) }
    ensures stopped { IfErr result (IfStop (HasStop (L.made labels.new))) }
    ensures belongs { Belongs L.made L.meaning labels.new world.new }
    ensures grows { Grows world.old world.new }
    ensures kept { IsKept L.made L.meaning L.room L.firm labels.old labels.new }
{
    match asked {
        Asked::Does(effect, to) => do_effect(
            alloc, labels, world, policy, inputs, stack, count, effect, to,
        ),
        Asked::Look { reg } => look(alloc, labels, world, stack, count, reg),
        Asked::Get { base, key, to } => get(alloc, labels, world, stack, count, base, &key, to),
        Asked::Put { base, key, from } => put(alloc, labels, world, stack, count, base, &key, from),
        Asked::Own { base, key, to } => own(alloc, labels, world, stack, count, base, &key, to),
        Asked::Define { base, key, given } => {
            define(alloc, labels, world, stack, count, base, key, given)
        }
        Asked::PrintLine { name, from } => print(
            alloc, labels, world, policy, stack, count, name, from,
        ),
        Asked::Call {
            callee,
            this,
            args,
            to,
        } => do_call(alloc, labels, world, stack, count, callee, this, &args, to),
        Asked::Construct { callee, args, to } => do_construct(
            alloc, labels, world, stack, count, callee, &args, to,
        ),
        Asked::Return { from } => give_back(alloc, labels, world, stack, count, from),
        Asked::Throw { from } => throw(alloc, labels, world, stack, count, from),
        Asked::ThrowNew { kind } => throw_new(alloc, labels, world, stack, count, kind),
        Asked::Leave { name } => leave(alloc, labels, world, stack, count, name),
    }
}

/// A function is called.
fn do_call<'p, L: Labels>(
    alloc: Global,
    labels: &mut L,
    world: &mut World<L::Label>,
    stack: &mut Stack<'p, L::Label>,
    count: u32,
    callee: Reg,
    this: Reg,
    args: &RegList,
    to: Reg,
) -> Result<Moved<'p, L::Label>, FlowFault<L::Label>>
    requires loose { length stack.old.loose ≡ count }
    requires made { All (HasValue (L.made labels.old)) stack.old.loose }
    requires belongs { Belongs L.made L.meaning labels.old world.old }
    ensures does { (tables : Tables) (inputs : Given) → Does L.made L.meaning labels.new (asked.Call callee this args.now to) stack.old stack.new world.old world.new tables inputs result }
    ensures leaves { IfOk result (Leaves (L.made labels.new) stack.old stack.new world.old world.new) }
    ensures quiet { IfOk result IsQuiet }
    ensures stopped { IfErr result (IfStop (HasStop (L.made labels.new))) }
    ensures belongs { Belongs L.made L.meaning labels.new world.new }
    ensures grows { Grows world.old world.new }
    ensures kept { IsKept L.made L.meaning L.room L.firm labels.old labels.new }
{
    let _state = &*world;
    let moved = call(alloc, labels, stack, count, callee, this, args, to)?;
    Ok(moved)
}

/// A function constructs.
fn do_construct<'p, L: Labels>(
    alloc: Global,
    labels: &mut L,
    world: &mut World<L::Label>,
    stack: &mut Stack<'p, L::Label>,
    count: u32,
    callee: Reg,
    args: &RegList,
    to: Reg,
) -> Result<Moved<'p, L::Label>, FlowFault<L::Label>>
    requires loose { length stack.old.loose ≡ count }
    requires made { All (HasValue (L.made labels.old)) stack.old.loose }
    requires belongs { Belongs L.made L.meaning labels.old world.old }
    ensures does { (tables : Tables) (inputs : Given) → Does L.made L.meaning labels.new (asked.Construct callee args.now to) stack.old stack.new world.old world.new tables inputs result }
    ensures leaves { IfOk result (Leaves (L.made labels.new) stack.old stack.new world.old world.new) }
    ensures quiet { IfOk result IsQuiet }
    ensures stopped { IfErr result (IfStop (HasStop (L.made labels.new))) }
    ensures belongs { Belongs L.made L.meaning labels.new world.new }
    ensures grows { Grows world.old world.new }
    ensures kept { IsKept L.made L.meaning L.room L.firm labels.old labels.new }
{
    let _state = &*world;
    let moved = construct(alloc, labels, stack, count, callee, args, to)?;
    Ok(moved)
}
