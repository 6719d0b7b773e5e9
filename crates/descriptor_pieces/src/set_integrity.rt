//! How an object is sealed or frozen (ECMA-262 15.2.3.8, 15.2.3.9).

ghost use Rattle.std.specs.Prelude.{◌≡◌, IfOk};
ghost use Rattle.descriptor_pieces.specs.FixingPieces.{fixing_begin, fixing_asks, fixing_after, fixing_turn, defined_or_on};

use crate::key_loop::{KeyLoop, KeyTurn, LastKeys};
use crate::property::{Description, Integrity, OwnMarks, PropertyRegisters};
use flow_text::OutOfMemory;
use js_values::Key;
use native_protocol::{Answer, Progress, Reg, Request};
use std::alloc::Global;

/// What it asks for: the next key, its own property, a look at the marks of that, and its definition. Behind all keys no properties can be
/// added from then on.
#[derive(Drop)]
pub enum FixingStage {
    Keys(KeyLoop),
    Own {
        key: Key,
        last: LastKeys,
    },
    LookMarks {
        key: Key,
        last: LastKeys,
    },
    Define {
        key: Key,
        marks: OwnMarks,
        last: LastKeys,
    },
    Prevent,
}

/// An object on its way to be sealed or frozen.
#[derive(Drop)]
pub struct SetIntegrity {
    integrity: Integrity,
    object: Reg,
    own: PropertyRegisters,
    stage: FixingStage,
}

impl SetIntegrity {
    /// The object in a register. The list of its keys, each key and each property are put into others.
    pub fn of(
        integrity: Integrity,
        object: Reg,
        list: Reg,
        item: Reg,
        own: PropertyRegisters,
    ) -> SetIntegrity
        ensures { result ≡ fixing_begin integrity object list item own }
    {
        SetIntegrity {
            integrity,
            object,
            own,
            stage: FixingStage::Keys(KeyLoop::over(object, true, list, item)),
        }
    }

    /// What it asks for.
    pub fn request(&self, alloc: Global) -> Result<Request, OutOfMemory>
        ensures { IfOk result (λ request. request ≡ fixing_asks self.now) }
    {
        match &self.stage {
            FixingStage::Keys(keys) => keys.request(alloc),
            FixingStage::Own { key, .. } => Ok(self.own.own(self.object, key.copy(alloc)?)),
            FixingStage::LookMarks { .. } => Ok(Request::Look {
                reg: self.own.marks,
            }),
            FixingStage::Define { key, marks, .. } => {
                let description = Description::own(&self.own, marks.fixed(self.integrity));
                Ok(description.define(self.object, key.copy(alloc)?))
            }
            FixingStage::Prevent => Ok(Request::Prevent { base: self.object }),
        }
    }

    /// Where an answer leads.
    pub fn after(self, alloc: Global, answer: Answer) -> Progress<SetIntegrity, ()>
        ensures { result ≡ fixing_after self answer }
    {
        let SetIntegrity {
            integrity,
            object,
            own,
            stage,
        } = self;
        let stage = match stage {
            FixingStage::Keys(keys) => fixing_turn(keys.after(alloc, answer)),
            FixingStage::Own { key, last } => FixingStage::LookMarks { key, last },
            FixingStage::LookMarks { key, last } => {
                defined_or_on(key, last, OwnMarks::seen(&answer.seen()))
            }
            FixingStage::Define { last, .. } => fixing_turn(last.turn()),
            FixingStage::Prevent => return Progress::Ready(()),
        };
        Progress::Going(SetIntegrity {
            integrity,
            object,
            own,
            stage,
        })
    }
}

// The next key, or the end.
fn fixing_turn(turn: KeyTurn) -> FixingStage
    ensures { result ≡ fixing_turn turn }
{
    match turn {
        KeyTurn::Asks(keys) => FixingStage::Keys(keys),
        KeyTurn::Has { key, last } => FixingStage::Own { key, last },
        KeyTurn::Over => FixingStage::Prevent,
    }
}

// A property that is there is defined.
fn defined_or_on(key: Key, last: LastKeys, marks: Option<OwnMarks>) -> FixingStage
    ensures { result ≡ defined_or_on key last marks }
{
    match marks {
        Some(marks) => FixingStage::Define { key, marks, last },
        None => fixing_turn(last.turn()),
    }
}
