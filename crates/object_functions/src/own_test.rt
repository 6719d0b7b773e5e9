//! `hasOwnProperty` and `propertyIsEnumerable` (ECMA-262 15.2.4.5, 15.2.4.7).

ghost use Rattle.std.specs.Prelude.{◌≡◌, IfOk};
ghost use Rattle.object_functions.specs.OwnTestMachine.{own_test_begin, own_test_asks, own_test_after, name_read, tested};

use crate::needs::{ready_or, unless_converted};
use crate::registers::Registers;
use descriptor_pieces::OwnMarks;
use flow_text::OutOfMemory;
use js_number::Primitive;
use js_values::Key;
use native_protocol::{Answer, HeldText, Progress, Reg, Request, TextOf};
use primitive_natives::Ending;
use std::alloc::Global;

/// What is asked of an own property: whether it is there, or whether it is enumerable.
#[derive(Clone, Copy, Debug, PartialEq, Eq)]
pub enum OwnTest {
    There,
    Enumerable,
}

/// What a call asks for: the text of the argument, a look at `this`, the own property, and a look at its marks.
#[derive(Drop)]
pub enum OwnTestStage {
    Name(TextOf),
    This(Key),
    Own(Key),
    LookMarks,
}

/// A call of one of the two.
#[derive(Drop)]
pub struct OwnTestCall {
    test: OwnTest,
    registers: Registers,
    stage: OwnTestStage,
}

impl OwnTestCall {
    /// How it begins.
    pub fn start(test: OwnTest, argc: u64) -> Result<OwnTestCall, OutOfMemory>
        ensures { IfOk result (λ call. call ≡ own_test_begin test argc) }
    {
        let registers = Registers::behind(argc)?;
        Ok(OwnTestCall {
            test,
            registers,
            stage: OwnTestStage::Name(TextOf::register(Reg(2), registers.first, registers.second)),
        })
    }

    /// What it asks for.
    pub fn request(&self, alloc: Global) -> Result<Request, OutOfMemory>
        ensures { IfOk result (λ request. request ≡ own_test_asks self.now) }
    {
        let own = self.registers.own;
        match &self.stage {
            OwnTestStage::Name(name) => name.request(alloc),
            OwnTestStage::This(_) => Ok(Request::Look { reg: Reg(0) }),
            OwnTestStage::Own(name) => Ok(own.own(Reg(0), name.copy(alloc)?)),
            OwnTestStage::LookMarks => Ok(Request::Look { reg: own.marks }),
        }
    }

    /// Where an answer leads.
    pub fn after(
        self,
        alloc: Global,
        answer: Answer,
    ) -> Result<Progress<OwnTestCall, Ending>, OutOfMemory>
        ensures { IfOk result (λ progress. progress ≡ own_test_after self answer) }
    {
        let OwnTestCall {
            test,
            registers,
            stage,
        } = self;
        Ok(match stage {
            OwnTestStage::Name(name) => Progress::Going(OwnTestCall {
                test,
                registers,
                stage: name_read(name.after(alloc, answer)?),
            }),
            OwnTestStage::This(name) => ready_or(
                unless_converted(&answer.seen()),
                OwnTestCall {
                    test,
                    registers,
                    stage: OwnTestStage::Own(name),
                },
            ),
            OwnTestStage::Own(_) => Progress::Going(OwnTestCall {
                test,
                registers,
                stage: OwnTestStage::LookMarks,
            }),
            OwnTestStage::LookMarks => Progress::Ready(Ending::Give {
                value: Primitive::Bool(tested(test, OwnMarks::seen(&answer.seen()))),
                to: registers.first,
            }),
        })
    }
}

// Behind the text of the argument `this` is looked at.
fn name_read(progress: Progress<TextOf, HeldText>) -> OwnTestStage
    ensures { result ≡ name_read progress }
{
    match progress {
        Progress::Going(name) => OwnTestStage::Name(name),
        Progress::Ready(held) => OwnTestStage::This(Key::new(held.text)),
    }
}

// The answer to what is asked.
fn tested(test: OwnTest, found: Option<OwnMarks>) -> bool
    ensures { result ≡ tested test found }
{
    match (test, found) {
        (_, None) => false,
        (OwnTest::There, Some(_)) => true,
        (OwnTest::Enumerable, Some(marks)) => marks.enumerable,
    }
}
