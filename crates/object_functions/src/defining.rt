//! `defineProperties` and `create` (ECMA-262 15.2.3.7, 15.2.3.5).

ghost use Rattle.std.specs.Prelude.{◌≡◌, IfOk};
ghost use Rattle.object_functions.specs.Properties.{is_object_or_null, is_second_passed};
ghost use Rattle.object_functions.specs.DefiningMachine.{defining_at, defining_call_begin, defining_call_asks, defining_call_after, properties_seen, prototype_seen, new_made, passed_seen, defined_or_on};

use crate::needs::{ready_or, unless_converted, unless_object};
use crate::registers::Registers;
use descriptor_pieces::{DefineProperties, is_undefined};
use flow_text::OutOfMemory;
use js_number::Primitive;
use js_values::Class;
use native_protocol::{Answer, ErrorKind, Progress, Reg, Request, Seen};
use primitive_natives::Ending;
use std::alloc::Global;

/// One of the two.
#[derive(Clone, Copy, Debug, PartialEq, Eq)]
pub enum DefiningFunction {
    DefineProperties,
    Create,
}

/// What a call asks for: a look at the object, or one at the prototype and a new object, where the second argument was passed or not; a look
/// at the second argument, which may be undefined where an object is created; and the definitions.
#[derive(Drop)]
pub enum DefiningStage {
    LookObject,
    LookPrototype { passed: bool },
    New { passed: bool },
    LookProperties,
    LookPassed,
    Define(DefineProperties),
}

/// A call of one of the two, with the register of the object whose properties are defined.
#[derive(Drop)]
pub struct DefiningCall {
    object: Reg,
    registers: Registers,
    stage: DefiningStage,
}

impl DefiningCall {
    /// How it begins.
    pub fn start(function: DefiningFunction, argc: u64) -> Result<DefiningCall, OutOfMemory>
        ensures { IfOk result (λ call. call ≡ defining_call_begin function argc) }
    {
        let registers = Registers::behind(argc)?;
        Ok(match function {
            DefiningFunction::DefineProperties => DefiningCall {
                object: Reg(2),
                registers,
                stage: DefiningStage::LookObject,
            },
            DefiningFunction::Create => DefiningCall {
                object: registers.fourth,
                registers,
                stage: DefiningStage::LookPrototype {
                    passed: is_second_passed(argc),
                },
            },
        })
    }

    /// What it asks for.
    pub fn request(&self, alloc: Global) -> Result<Request, OutOfMemory>
        ensures { IfOk result (λ request. request ≡ defining_call_asks self.now) }
    {
        match &self.stage {
            DefiningStage::LookObject | DefiningStage::LookPrototype { .. } => {
                Ok(Request::Look { reg: Reg(2) })
            }
            DefiningStage::New { .. } => Ok(Request::New {
                class: Class::Object,
                proto: Some(Reg(2)),
                to: self.object,
            }),
            DefiningStage::LookProperties | DefiningStage::LookPassed => {
                Ok(Request::Look { reg: Reg(3) })
            }
            DefiningStage::Define(properties) => properties.request(alloc),
        }
    }

    /// Where an answer leads.
    pub fn after(
        self,
        alloc: Global,
        answer: Answer,
    ) -> Result<Progress<DefiningCall, Ending>, OutOfMemory>
        ensures { IfOk result (λ progress. progress ≡ defining_call_after self answer) }
    {
        let DefiningCall {
            object,
            registers,
            stage,
        } = self;
        Ok(match stage {
            DefiningStage::LookObject => ready_or(
                unless_object(&answer.seen()),
                DefiningCall {
                    object,
                    registers,
                    stage: DefiningStage::LookProperties,
                },
            ),
            DefiningStage::LookPrototype { passed } => {
                let fits = is_object_or_null(&answer.seen());
                prototype_seen(passed, object, registers, fits)
            }
            DefiningStage::New { passed } => new_made(passed, object, registers),
            DefiningStage::LookProperties => {
                properties_seen(alloc, &answer.seen(), object, registers)
            }
            DefiningStage::LookPassed => passed_seen(alloc, &answer.seen(), object, registers),
            DefiningStage::Define(properties) => {
                defined_or_on(object, registers, properties.after(alloc, answer)?)
            }
        })
    }
}

// Whether a second argument was passed.
fn is_second_passed(argc: u64) -> bool
    ensures { result ≡ is_second_passed argc }
{
    argc >= 2
}

// Whether it can be a prototype.
fn is_object_or_null(seen: &Seen) -> bool
    ensures { result ≡ is_object_or_null seen.now }
{
    matches!(seen, Seen::Object(_) | Seen::Prim(Primitive::Null))
}

// With a prototype an object is made.
fn prototype_seen(
    passed: bool,
    object: Reg,
    registers: Registers,
    fits: bool,
) -> Progress<DefiningCall, Ending>
    ensures { result ≡ prototype_seen passed object registers fits }
{
    if fits {
        Progress::Going(DefiningCall {
            object,
            registers,
            stage: DefiningStage::New { passed },
        })
    } else {
        Progress::Ready(Ending::Throw {
            kind: ErrorKind::TypeError,
        })
    }
}

// A second argument that was passed is looked at.
fn new_made(passed: bool, object: Reg, registers: Registers) -> Progress<DefiningCall, Ending>
    ensures { result ≡ new_made passed object registers }
{
    if passed {
        Progress::Going(DefiningCall {
            object,
            registers,
            stage: DefiningStage::LookPassed,
        })
    } else {
        Progress::Ready(Ending::Return { from: object })
    }
}

// The properties that an object describes are defined.
fn properties_seen(
    alloc: Global,
    seen: &Seen,
    object: Reg,
    registers: Registers,
) -> Progress<DefiningCall, Ending>
    ensures { result ≡ properties_seen seen.now object registers }
{
    let properties = DefineProperties::of(
        alloc,
        object,
        Reg(3),
        registers.first,
        registers.second,
        registers.third,
        registers.free,
    );
    ready_or(
        unless_converted(seen),
        DefiningCall {
            object,
            registers,
            stage: DefiningStage::Define(properties),
        },
    )
}

// Undefined describes no properties.
fn passed_seen(
    alloc: Global,
    seen: &Seen,
    object: Reg,
    registers: Registers,
) -> Progress<DefiningCall, Ending>
    ensures { result ≡ passed_seen seen.now object registers }
{
    if is_undefined(seen) {
        Progress::Ready(Ending::Return { from: object })
    } else {
        properties_seen(alloc, seen, object, registers)
    }
}

fn defined_or_on(
    object: Reg,
    registers: Registers,
    progress: Progress<DefineProperties, ()>,
) -> Progress<DefiningCall, Ending>
    ensures { result ≡ defined_or_on object registers progress }
{
    match progress {
        Progress::Going(properties) => Progress::Going(DefiningCall {
            object,
            registers,
            stage: DefiningStage::Define(properties),
        }),
        Progress::Ready(_) => Progress::Ready(Ending::Return { from: object }),
    }
}
