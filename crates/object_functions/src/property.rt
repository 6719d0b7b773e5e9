//! `getOwnPropertyDescriptor` and `defineProperty` (ECMA-262 15.2.3.3, 15.2.3.6).

ghost use Rattle.std.specs.Prelude.{◌≡◌, IfOk};
ghost use Rattle.object_functions.specs.PropertyMachine.{property_begin, property_asks, property_after, second_begin, named, name_read, told_or_on, description_read};

use crate::needs::{ready_or, unless_object};
use crate::registers::Registers;
use descriptor_pieces::{Description, FromDescriptor, ToDescriptor};
use flow_text::OutOfMemory;
use js_values::Key;
use native_protocol::{Answer, HeldText, Progress, Reg, Request, TextOf};
use primitive_natives::Ending;
use std::alloc::Global;

/// One of the two.
#[derive(Clone, Copy, Debug, PartialEq, Eq)]
pub enum PropertyFunction {
    GetOwnPropertyDescriptor,
    DefineProperty,
}

/// What a call asks for: a look at the object, and the text of the second argument. Then the own property and the object that describes it,
/// or the parts of the description, and the definition.
#[derive(Drop)]
pub enum PropertyStage {
    LookObject(PropertyFunction),
    Name(PropertyFunction, TextOf),
    Own(Key),
    Tell(FromDescriptor),
    Read { name: Key, reading: ToDescriptor },
    Define { name: Key, description: Description },
}

/// A call of one of the two.
#[derive(Drop)]
pub struct PropertyCall {
    registers: Registers,
    stage: PropertyStage,
}

impl PropertyCall {
    /// How it begins.
    pub fn start(function: PropertyFunction, argc: u64) -> Result<PropertyCall, OutOfMemory>
        ensures { IfOk result (λ call. call ≡ property_begin function argc) }
    {
        Ok(PropertyCall {
            registers: Registers::behind(argc)?,
            stage: PropertyStage::LookObject(function),
        })
    }

    /// What it asks for.
    pub fn request(&self, alloc: Global) -> Result<Request, OutOfMemory>
        ensures { IfOk result (λ request. request ≡ property_asks self.now) }
    {
        match &self.stage {
            PropertyStage::LookObject(_) => Ok(Request::Look { reg: Reg(2) }),
            PropertyStage::Name(_, name) => name.request(alloc),
            PropertyStage::Own(name) => Ok(self.registers.own.own(Reg(2), name.copy(alloc)?)),
            PropertyStage::Tell(telling) => telling.request(alloc),
            PropertyStage::Read { reading, .. } => reading.request(alloc),
            PropertyStage::Define { name, description } => {
                Ok(description.define(Reg(2), name.copy(alloc)?))
            }
        }
    }

    /// Where an answer leads.
    pub fn after(
        self,
        alloc: Global,
        answer: Answer,
    ) -> Result<Progress<PropertyCall, Ending>, OutOfMemory>
        ensures { IfOk result (λ progress. progress ≡ property_after self answer) }
    {
        let PropertyCall { registers, stage } = self;
        let stage = match stage {
            PropertyStage::LookObject(function) => {
                let stage = PropertyStage::Name(function, second_text(registers));
                return Ok(ready_or(
                    unless_object(&answer.seen()),
                    PropertyCall { registers, stage },
                ));
            }
            PropertyStage::Name(function, name) => {
                name_read(function, name.after(alloc, answer)?, registers)
            }
            PropertyStage::Own(_) => {
                PropertyStage::Tell(FromDescriptor::own(registers.own, registers.first))
            }
            PropertyStage::Tell(telling) => {
                return Ok(told_or_on(registers, telling.after(answer)));
            }
            PropertyStage::Read { name, reading } => description_read(name, reading.after(answer)),
            PropertyStage::Define { .. } => {
                return Ok(Progress::Ready(Ending::Return { from: Reg(2) }));
            }
        };
        Ok(Progress::Going(PropertyCall { registers, stage }))
    }
}

// The second argument on its way to a text.
fn second_text(registers: Registers) -> TextOf
    ensures { result ≡ second_begin registers }
{
    TextOf::register(Reg(3), registers.first, registers.second)
}

fn name_read(
    function: PropertyFunction,
    progress: Progress<TextOf, HeldText>,
    registers: Registers,
) -> PropertyStage
    ensures { result ≡ name_read function progress registers }
{
    match progress {
        Progress::Going(name) => PropertyStage::Name(function, name),
        Progress::Ready(held) => named(function, Key::new(held.text), registers),
    }
}

// What follows the name.
fn named(function: PropertyFunction, name: Key, registers: Registers) -> PropertyStage
    ensures { result ≡ named function name registers }
{
    match function {
        PropertyFunction::GetOwnPropertyDescriptor => PropertyStage::Own(name),
        PropertyFunction::DefineProperty => PropertyStage::Read {
            name,
            reading: ToDescriptor::register(Reg(4), registers.own),
        },
    }
}

fn told_or_on(
    registers: Registers,
    progress: Progress<FromDescriptor, Reg>,
) -> Progress<PropertyCall, Ending>
    ensures { result ≡ told_or_on registers progress }
{
    match progress {
        Progress::Going(telling) => Progress::Going(PropertyCall {
            registers,
            stage: PropertyStage::Tell(telling),
        }),
        Progress::Ready(at) => Progress::Ready(Ending::Return { from: at }),
    }
}

fn description_read(name: Key, progress: Progress<ToDescriptor, Description>) -> PropertyStage
    ensures { result ≡ description_read name progress }
{
    match progress {
        Progress::Going(reading) => PropertyStage::Read { name, reading },
        Progress::Ready(description) => PropertyStage::Define { name, description },
    }
}
