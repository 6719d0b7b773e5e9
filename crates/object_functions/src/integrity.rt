//! `seal`, `freeze`, `isSealed` and `isFrozen` (ECMA-262 15.2.3.8, 15.2.3.9, 15.2.3.11, 15.2.3.12).

ghost use Rattle.std.specs.Prelude.{◌≡◌, IfOk};
ghost use Rattle.object_functions.specs.IntegrityMachine.{integrity_begin, integrity_asks, integrity_after, object_found, fixed_or_on, tested_or_on};

use crate::needs::{ready_or, unless_object};
use crate::registers::Registers;
use descriptor_pieces::{Integrity, SetIntegrity, TestIntegrity};
use flow_text::OutOfMemory;
use js_number::Primitive;
use native_protocol::{Answer, Progress, Reg, Request};
use primitive_natives::Ending;
use std::alloc::Global;

/// One of the four: an object is fixed so far, or it is asked whether it is.
#[derive(Clone, Copy, Debug, PartialEq, Eq)]
pub enum IntegrityFunction {
    Set(Integrity),
    Test(Integrity),
}

/// What a call asks for: a look at the object, and what is done with its properties.
#[derive(Drop)]
pub enum IntegrityStage {
    LookObject(IntegrityFunction),
    Fix(SetIntegrity),
    Test(TestIntegrity),
}

/// A call of one of the four.
#[derive(Drop)]
pub struct IntegrityCall {
    registers: Registers,
    stage: IntegrityStage,
}

impl IntegrityCall {
    /// How it begins.
    pub fn start(function: IntegrityFunction, argc: u64) -> Result<IntegrityCall, OutOfMemory>
        ensures { IfOk result (λ call. call ≡ integrity_begin function argc) }
    {
        Ok(IntegrityCall {
            registers: Registers::behind(argc)?,
            stage: IntegrityStage::LookObject(function),
        })
    }

    /// What it asks for.
    pub fn request(&self, alloc: Global) -> Result<Request, OutOfMemory>
        ensures { IfOk result (λ request. request ≡ integrity_asks self.now) }
    {
        match &self.stage {
            IntegrityStage::LookObject(_) => Ok(Request::Look { reg: Reg(2) }),
            IntegrityStage::Fix(fixing) => fixing.request(alloc),
            IntegrityStage::Test(testing) => testing.request(alloc),
        }
    }

    /// Where an answer leads.
    pub fn after(self, alloc: Global, answer: Answer) -> Progress<IntegrityCall, Ending>
        ensures { result ≡ integrity_after self answer }
    {
        let IntegrityCall { registers, stage } = self;
        match stage {
            IntegrityStage::LookObject(function) => {
                let stage = object_found(function, registers);
                ready_or(
                    unless_object(&answer.seen()),
                    IntegrityCall { registers, stage },
                )
            }
            IntegrityStage::Fix(fixing) => fixed_or_on(registers, fixing.after(alloc, answer)),
            IntegrityStage::Test(testing) => tested_or_on(registers, testing.after(alloc, answer)),
        }
    }
}

// What is done with the object.
fn object_found(function: IntegrityFunction, registers: Registers) -> IntegrityStage
    ensures { result ≡ object_found function registers }
{
    match function {
        IntegrityFunction::Set(integrity) => IntegrityStage::Fix(SetIntegrity::of(
            integrity,
            Reg(2),
            registers.first,
            registers.second,
            registers.own,
        )),
        IntegrityFunction::Test(integrity) => IntegrityStage::Test(TestIntegrity::of(
            integrity,
            Reg(2),
            registers.first,
            registers.second,
            registers.own,
        )),
    }
}

fn fixed_or_on(
    registers: Registers,
    progress: Progress<SetIntegrity, ()>,
) -> Progress<IntegrityCall, Ending>
    ensures { result ≡ fixed_or_on registers progress }
{
    match progress {
        Progress::Going(fixing) => Progress::Going(IntegrityCall {
            registers,
            stage: IntegrityStage::Fix(fixing),
        }),
        Progress::Ready(_) => Progress::Ready(Ending::Return { from: Reg(2) }),
    }
}

fn tested_or_on(
    registers: Registers,
    progress: Progress<TestIntegrity, bool>,
) -> Progress<IntegrityCall, Ending>
    ensures { result ≡ tested_or_on registers progress }
{
    match progress {
        Progress::Going(testing) => Progress::Going(IntegrityCall {
            registers,
            stage: IntegrityStage::Test(testing),
        }),
        Progress::Ready(value) => Progress::Ready(Ending::Give {
            value: Primitive::Bool(value),
            to: registers.third,
        }),
    }
}
