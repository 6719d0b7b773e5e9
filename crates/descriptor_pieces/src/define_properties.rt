//! How properties are defined as the properties of an object describe them (ECMA-262 15.2.3.7).

ghost use Rattle.std.specs.Prelude.{◌≡◌, ◌+◌, ◌*◌, IfOk};
ghost use Rattle.descriptor_pieces.specs.DefiningPieces.{defining_begin, defining_asks, defining_after, going, behind_turn, next_defined, description_begun, behind_reading};
ghost use Rattle.descriptor_pieces.specs.Properties.{registers_from};

use crate::described::{Described, Descriptions};
use crate::key_loop::{KeyLoop, KeyTurn, LastKeys};
use crate::property::{Description, PropertyRegisters};
use crate::to_descriptor::ToDescriptor;
use flow_text::OutOfMemory;
use js_values::Key;
use native_protocol::{Answer, Progress, Reg, Request};
use std::alloc::Global;

/// What it asks for: the next key, what stands there, and the parts of the description that this gives. Behind all keys it defines one
/// property after the other.
#[derive(Drop)]
pub enum DefiningStage {
    Keys(KeyLoop),
    Get {
        key: Key,
        last: LastKeys,
    },
    Describe {
        key: Key,
        last: LastKeys,
        reading: ToDescriptor,
    },
    Define(Described),
}

/// The registers of an object, of the one that describes its properties, and of what stands there, and the first one for descriptions.
#[derive(Clone, Copy)]
pub struct DefiningRegisters {
    object: Reg,
    properties: Reg,
    at: Reg,
    first: u64,
}

/// An object on its way to properties that another one describes. What was described is kept until all is, and then taken from the front.
#[derive(Drop)]
pub struct DefineProperties {
    registers: DefiningRegisters,
    kept: Descriptions,
    stage: DefiningStage,
}

impl DefineProperties {
    /// The object in a register, and the one that describes its properties in another. The list of its keys, each key and what stands there are
    /// put into three more, and each description into four from a first one on.
    pub fn of(
        alloc: Global,
        object: Reg,
        properties: Reg,
        list: Reg,
        item: Reg,
        at: Reg,
        first: u64,
    ) -> DefineProperties
        ensures { result ≡ defining_begin object properties list item at first }
    {
        DefineProperties {
            registers: DefiningRegisters {
                object,
                properties,
                at,
                first,
            },
            kept: Descriptions::new(alloc),
            stage: DefiningStage::Keys(KeyLoop::over(properties, false, list, item)),
        }
    }

    /// What it asks for.
    pub fn request(&self, alloc: Global) -> Result<Request, OutOfMemory>
        ensures { IfOk result (λ request. request ≡ defining_asks self.now) }
    {
        match &self.stage {
            DefiningStage::Keys(keys) => keys.request(alloc),
            DefiningStage::Get { key, .. } => Ok(Request::Get {
                base: self.registers.properties,
                key: key.copy(alloc)?,
                to: self.registers.at,
            }),
            DefiningStage::Describe { reading, .. } => reading.request(alloc),
            DefiningStage::Define(described) => {
                let key = described.key.copy(alloc)?;
                Ok(described.description.define(self.registers.object, key))
            }
        }
    }

    /// Where an answer leads.
    pub fn after(
        self,
        alloc: Global,
        answer: Answer,
    ) -> Result<Progress<DefineProperties, ()>, OutOfMemory>
        ensures { IfOk result (λ progress. progress ≡ defining_after self answer) }
    {
        let DefineProperties {
            registers,
            kept,
            stage,
        } = self;
        match stage {
            DefiningStage::Keys(keys) => {
                Ok(registers.behind_turn(kept, keys.after(alloc, answer)))
            }
            DefiningStage::Get { key, last } => {
                let stage = registers.begun(&kept, key, last)?;
                Ok(registers.going(kept, stage))
            }
            DefiningStage::Describe { key, last, reading } => {
                registers.behind_reading(kept, key, last, reading.after(answer))
            }
            DefiningStage::Define(_) => Ok(registers.next_defined(kept)),
        }
    }
}

impl DefiningRegisters {
    fn going(self, kept: Descriptions, stage: DefiningStage) -> Progress<DefineProperties, ()>
        ensures { result ≡ going self kept stage }
    {
        Progress::Going(DefineProperties {
            registers: self,
            kept,
            stage,
        })
    }

    // The next key, or the first definition.
    fn behind_turn(self, kept: Descriptions, turn: KeyTurn) -> Progress<DefineProperties, ()>
        ensures { result ≡ behind_turn self kept turn }
    {
        match turn {
            KeyTurn::Asks(keys) => self.going(kept, DefiningStage::Keys(keys)),
            KeyTurn::Has { key, last } => self.going(kept, DefiningStage::Get { key, last }),
            KeyTurn::Over => self.next_defined(kept),
        }
    }

    // The next definition, if there is one.
    fn next_defined(self, kept: Descriptions) -> Progress<DefineProperties, ()>
        ensures { result ≡ next_defined self kept }
    {
        match kept.split_first() {
            Some((described, others)) => self.going(others, DefiningStage::Define(described)),
            None => Progress::Ready(()),
        }
    }

    // What stands at a key is read into the four registers behind those of the keys before it.
    fn begun(
        self,
        kept: &Descriptions,
        key: Key,
        last: LastKeys,
    ) -> Result<DefiningStage, OutOfMemory>
        ensures { IfOk result (λ stage. stage ≡ description_begun self kept.now key last) }
    {
        let registers = registers_behind(self.first, kept.len() as u64)?;
        Ok(DefiningStage::Describe {
            key,
            last,
            reading: ToDescriptor::register(self.at, registers),
        })
    }

    // A description that is read is kept with its key.
    fn behind_reading(
        self,
        kept: Descriptions,
        key: Key,
        last: LastKeys,
        progress: Progress<ToDescriptor, Description>,
    ) -> Result<Progress<DefineProperties, ()>, OutOfMemory>
        ensures { IfOk result (λ behind. behind ≡ behind_reading self kept key last progress) }
    {
        match progress {
            Progress::Going(reading) => {
                Ok(self.going(kept, DefiningStage::Describe { key, last, reading }))
            }
            Progress::Ready(description) => {
                let kept = kept.with(Described { key, description })?;
                Ok(self.behind_turn(kept, last.turn()))
            }
        }
    }
}

// The four registers behind so many times four. A call with more registers than there are numbers isn't in memory.
fn registers_behind(first: u64, count: u64) -> Result<PropertyRegisters, OutOfMemory>
    ensures { IfOk result (λ registers. registers ≡ registers_from (first + 4 * count)) }
{
    let Some(taken) = count.checked_mul(4) else {
        return Err(OutOfMemory);
    };
    let Some(free) = first.checked_add(taken) else {
        return Err(OutOfMemory);
    };
    PropertyRegisters::from(free)
}
