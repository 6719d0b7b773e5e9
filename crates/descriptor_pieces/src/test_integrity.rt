//! Whether an object is sealed or frozen (ECMA-262 15.2.3.11, 15.2.3.12).

ghost use Rattle.std.specs.Prelude.{◌≡◌, IfOk};
ghost use Rattle.descriptor_pieces.specs.FixingPieces.{testing_begin, testing_asks, testing_after, testing_turn};
ghost use Rattle.descriptor_pieces.specs.Fixing.{open_in};
ghost use Rattle.descriptor_pieces.specs.Properties.{marks_in};

use crate::key_loop::{KeyLoop, KeyTurn, LastKeys};
use crate::property::{Integrity, OwnMarks, PropertyRegisters};
use crate::seen::is_false;
use flow_text::OutOfMemory;
use js_values::Key;
use native_protocol::{Answer, Progress, Reg, Request, Seen};
use std::alloc::Global;

/// What it asks for: the next key, its own property, and a look at the marks of that. Behind all keys, whether properties can be added, and
/// a look at that.
#[derive(Drop)]
pub enum TestingStage {
    Keys(KeyLoop),
    Own { key: Key, last: LastKeys },
    LookMarks { last: LastKeys },
    Extensible,
    LookExtensible,
}

/// An object that is looked through. It gives whether all is so.
#[derive(Drop)]
pub struct TestIntegrity {
    integrity: Integrity,
    object: Reg,
    own: PropertyRegisters,
    stage: TestingStage,
}

impl TestIntegrity {
    /// The object in a register. The list of its keys, each key and each property are put into others.
    pub fn of(
        integrity: Integrity,
        object: Reg,
        list: Reg,
        item: Reg,
        own: PropertyRegisters,
    ) -> TestIntegrity
        ensures { result ≡ testing_begin integrity object list item own }
    {
        TestIntegrity {
            integrity,
            object,
            own,
            stage: TestingStage::Keys(KeyLoop::over(object, true, list, item)),
        }
    }

    /// What it asks for.
    pub fn request(&self, alloc: Global) -> Result<Request, OutOfMemory>
        ensures { IfOk result (λ request. request ≡ testing_asks self.now) }
    {
        match &self.stage {
            TestingStage::Keys(keys) => keys.request(alloc),
            TestingStage::Own { key, .. } => Ok(self.own.own(self.object, key.copy(alloc)?)),
            TestingStage::LookMarks { .. } | TestingStage::LookExtensible => Ok(Request::Look {
                reg: self.own.marks,
            }),
            TestingStage::Extensible => Ok(Request::Extensible {
                base: self.object,
                to: self.own.marks,
            }),
        }
    }

    /// Where an answer leads.
    pub fn after(self, alloc: Global, answer: Answer) -> Progress<TestIntegrity, bool>
        ensures { result ≡ testing_after self answer }
    {
        let TestIntegrity {
            integrity,
            object,
            own,
            stage,
        } = self;
        let stage = match stage {
            TestingStage::Keys(keys) => testing_turn(keys.after(alloc, answer)),
            TestingStage::Own { last, .. } => TestingStage::LookMarks { last },
            TestingStage::LookMarks { last } => {
                if is_open(integrity, &answer.seen()) {
                    return Progress::Ready(false);
                }
                testing_turn(last.turn())
            }
            TestingStage::Extensible => TestingStage::LookExtensible,
            TestingStage::LookExtensible => return Progress::Ready(is_false(&answer.seen())),
        };
        Progress::Going(TestIntegrity {
            integrity,
            object,
            own,
            stage,
        })
    }
}

// The next key, or the end.
fn testing_turn(turn: KeyTurn) -> TestingStage
    ensures { result ≡ testing_turn turn }
{
    match turn {
        KeyTurn::Asks(keys) => TestingStage::Keys(keys),
        KeyTurn::Has { key, last } => TestingStage::Own { key, last },
        KeyTurn::Over => TestingStage::Extensible,
    }
}

// Whether there is a property, and it isn't so.
fn is_open(integrity: Integrity, seen: &Seen) -> bool
    ensures { result ≡ open_in integrity (marks_in seen.now) }
{
    match OwnMarks::seen(seen) {
        Some(marks) => marks.is_open(integrity),
        None => false,
    }
}
