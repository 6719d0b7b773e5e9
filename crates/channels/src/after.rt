//! Where an answer leads.

ghost use Rattle.std.specs.Prelude.{◌≡◌, ◌+◌, if◌then◌else◌, IfOk};
ghost use Rattle.native_protocol.specs.Steps.{seen_in, is_object, is_text};
ghost use Rattle.channels.specs.declared.state.ChannelState.TheVariants as state;
ghost use Rattle.channels.specs.declared.state.Unknown.TheVariants as unknown;
ghost use Rattle.channels.specs.Machine.{begin_with, looking, print_behind, existence_behind, origin_behind, join_gives, channel_after};

use crate::origins::{origin_in, with_origin};
use crate::state::{BuiltIn, ChannelState as State, Joining, Registers, Unknown};
use flow_text::OutOfMemory;
use native_protocol::{Answer, HeldText, Progress, Reg, TextOf};
use origin_labels::{OriginList, Origins};
use std::alloc::Global;

impl State {
    /// Where an answer leads.
    pub(crate) fn after(
        self,
        alloc: Global,
        names: &Origins,
        answer: Answer,
    ) -> Result<State, OutOfMemory>
        ensures { IfOk result (λ state. state ≡ channel_after names.now self answer) }
    {
        match self {
            State::Begun(built_in, registers) => Ok(begin_with(alloc, built_in, registers)),
            State::ReadName(registers) => Ok(if_text(answer, State::ReadLine(registers))),
            State::ReadLine(registers) => Ok(State::Return(registers.value)),
            State::PrintName(registers) => {
                let next = State::PrintText(registers.second_text(), registers);
                Ok(if_text(answer, next))
            }
            State::PrintText(text, registers) => {
                Ok(print_behind(registers, text.after(alloc, answer)?))
            }
            State::PrintLine(_, registers) => Ok(State::Return(registers.unset)),
            State::StructureObject(registers) => {
                let next = looking(3, OriginList::new(alloc), Joining::Structure, registers);
                Ok(if_object(answer, next))
            }
            State::ExistenceObject(registers) => {
                let next = State::ExistenceKey(registers.second_text(), registers);
                Ok(if_object(answer, next))
            }
            State::ExistenceKey(text, registers) => {
                let progress = text.after(alloc, answer)?;
                Ok(existence_behind(alloc, registers, progress))
            }
            State::Origin {
                at,
                origins,
                joining,
                registers,
            } => {
                let named = origin_in(names, &answer.seen());
                origin_behind(alloc, named, at, origins, joining, registers)
            }
            State::Join {
                joining,
                registers,
                ..
            } => Ok(State::Return(join_gives(&joining, registers))),
            State::Return(from) => Ok(State::Return(from)),
            State::Throw => Ok(State::Throw),
            State::Leave(unknown) => Ok(State::Leave(unknown)),
        }
    }
}

// What follows where a text was seen. Anything else names no channel.
fn if_text(answer: Answer, next: State) -> State
    ensures { result ≡ (if is_text (seen_in answer) then next else state.Leave unknown.Channel) }
{
    if answer.seen().is_text() {
        next
    } else {
        State::Leave(Unknown::Channel)
    }
}

// What follows where an object was seen.
fn if_object(answer: Answer, next: State) -> State
    ensures { result ≡ (if is_object (seen_in answer) then next else state.Throw) }
{
    if answer.seen().is_object() {
        next
    } else {
        State::Throw
    }
}

// What a call does first.
fn begin_with(alloc: Global, built_in: BuiltIn, registers: Registers) -> State
    ensures { result ≡ begin_with built_in registers }
{
    match built_in {
        BuiltIn::Read => State::ReadName(registers),
        BuiltIn::Print => State::PrintName(registers),
        BuiltIn::Lbl => looking(3, OriginList::new(alloc), Joining::Label, registers),
        BuiltIn::Upgs => State::StructureObject(registers),
        BuiltIn::Upge => State::ExistenceObject(registers),
    }
}

// The origins from a register on are looked at, as far as there are arguments.
fn looking(at: u64, origins: OriginList, joining: Joining, registers: Registers) -> State
    ensures { result ≡ looking at origins joining registers }
{
    if at < registers.end {
        State::Origin {
            at,
            origins,
            joining,
            registers,
        }
    } else {
        State::Join {
            origins,
            joining,
            registers,
        }
    }
}

fn print_behind(registers: Registers, progress: Progress<TextOf, HeldText>) -> State
    ensures { result ≡ print_behind registers progress }
{
    match progress {
        Progress::Going(text) => State::PrintText(text, registers),
        Progress::Ready(held) => State::PrintLine(held.at, registers),
    }
}

fn existence_behind(
    alloc: Global,
    registers: Registers,
    progress: Progress<TextOf, HeldText>,
) -> State
    ensures { result ≡ existence_behind registers progress }
{
    match progress {
        Progress::Going(text) => State::ExistenceKey(text, registers),
        Progress::Ready(held) => {
            let joining = Joining::Existence { key: held.text };
            looking(4, OriginList::new(alloc), joining, registers)
        }
    }
}

// The origin joins the set, and the next is looked at.
fn origin_behind(
    alloc: Global,
    named: Option<u32>,
    at: u64,
    origins: OriginList,
    joining: Joining,
    registers: Registers,
) -> Result<State, OutOfMemory>
    ensures { IfOk result (λ state. state ≡ origin_behind named at origins joining registers) }
{
    match named {
        Some(origin) => {
            let origins = with_origin(alloc, &origins, origin)?;
            Ok(looking_behind(at, origins, joining, registers))
        }
        None => Ok(State::Leave(Unknown::Origin)),
    }
}

fn looking_behind(at: u64, origins: OriginList, joining: Joining, registers: Registers) -> State
    ensures { result ≡ looking (at + 1) origins joining registers }
{
    if at < registers.end {
        looking(at + 1, origins, joining, registers)
    } else {
        State::Join {
            origins,
            joining,
            registers,
        }
    }
}

// The register of what a call gives once its origins have joined.
fn join_gives(joining: &Joining, registers: Registers) -> Reg
    ensures { result ≡ join_gives joining.now registers }
{
    match joining {
        Joining::Label => registers.value,
        Joining::Structure | Joining::Existence { .. } => registers.unset,
    }
}
