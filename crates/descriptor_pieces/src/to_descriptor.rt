//! The description of a property that an object gives (ECMA-262 8.10.5).

ghost use Rattle.std.specs.Prelude.{◌≡◌, IfOk};
ghost use Rattle.descriptor_pieces.specs.DescriptorPieces.{descriptor_begin, descriptor_asks, descriptor_after, in_stage, behind_field, behind_got};
ghost use Rattle.descriptor_pieces.specs.Properties.{half_place, with_half};

use crate::fields::{Field, Half, Mark};
use crate::property::{Description, PropertyRegisters};
use crate::seen::{is_true, is_undefined, truth};
use flow_text::OutOfMemory;
use native_protocol::{Answer, ErrorKind, Progress, Reg, Request};
use std::alloc::Global;

/// What it asks for: a look at the object, and for each field whether it is there, a look at that, the field, and a look at that. Where the
/// description isn't one, it fails.
#[derive(Clone, Copy)]
pub enum DescriptorStage {
    Look,
    Has(Field),
    LookHas(Field),
    Get(Field),
    LookMark(Mark),
    LookHalf(Half),
    Failed,
}

/// An object on its way to the description that it gives. The description's value, getter and setter stay in their registers; that of the
/// marks is for looks.
#[derive(Clone, Copy)]
pub struct ToDescriptor {
    object: Reg,
    registers: PropertyRegisters,
    found: Description,
    stage: DescriptorStage,
}

impl ToDescriptor {
    /// The description that the object in a register gives.
    pub fn register(object: Reg, registers: PropertyRegisters) -> ToDescriptor
        ensures { result ≡ descriptor_begin object registers }
    {
        ToDescriptor {
            object,
            registers,
            found: Description::nothing(),
            stage: DescriptorStage::Look,
        }
    }

    /// What it asks for.
    pub fn request(&self, alloc: Global) -> Result<Request, OutOfMemory>
        ensures { IfOk result (λ request. request ≡ descriptor_asks self.now) }
    {
        Ok(match self.stage {
            DescriptorStage::Look => Request::Look { reg: self.object },
            DescriptorStage::Has(field) => Request::Has {
                base: self.object,
                key: field.key(alloc)?,
                to: self.registers.marks,
            },
            DescriptorStage::LookHas(_) | DescriptorStage::LookMark(_) => Request::Look {
                reg: self.registers.marks,
            },
            DescriptorStage::Get(field) => Request::Get {
                base: self.object,
                key: field.key(alloc)?,
                to: self.registers.place(field),
            },
            DescriptorStage::LookHalf(half) => Request::Look {
                reg: self.registers.place(Field::Half(half)),
            },
            DescriptorStage::Failed => Request::ThrowNew {
                kind: ErrorKind::TypeError,
            },
        })
    }

    /// Where an answer leads.
    pub fn after(self, answer: Answer) -> Progress<ToDescriptor, Description>
        ensures { result ≡ descriptor_after self answer }
    {
        match self.stage {
            DescriptorStage::Look => {
                let stage = if answer.seen().is_object() {
                    DescriptorStage::Has(Field::Mark(Mark::Enumerable))
                } else {
                    DescriptorStage::Failed
                };
                Progress::Going(self.in_stage(stage))
            }
            DescriptorStage::Has(field) => {
                Progress::Going(self.in_stage(DescriptorStage::LookHas(field)))
            }
            DescriptorStage::LookHas(field) => {
                if is_true(&answer.seen()) {
                    Progress::Going(self.in_stage(DescriptorStage::Get(field)))
                } else {
                    self.behind(field, self.found)
                }
            }
            DescriptorStage::Get(field) => self.got(field),
            DescriptorStage::LookMark(mark) => self.behind(
                Field::Mark(mark),
                self.found.with_mark(mark, truth(&answer.seen())),
            ),
            DescriptorStage::LookHalf(half) => {
                let seen = answer.seen();
                if is_undefined(&seen) || seen.is_function() {
                    self.behind(Field::Half(half), self.with_half(half))
                } else {
                    Progress::Going(self.in_stage(DescriptorStage::Failed))
                }
            }
            DescriptorStage::Failed => Progress::Going(self),
        }
    }

    // A value isn't looked at.
    fn got(self, field: Field) -> Progress<ToDescriptor, Description>
        ensures { result ≡ behind_got self field }
    {
        match field {
            Field::Mark(mark) => Progress::Going(self.in_stage(DescriptorStage::LookMark(mark))),
            Field::Value => self.behind(field, self.found.with_value(self.registers.value)),
            Field::Half(half) => Progress::Going(self.in_stage(DescriptorStage::LookHalf(half))),
        }
    }

    fn with_half(&self, half: Half) -> Description
        ensures { result ≡ with_half half (half_place self.now.registers half) self.now.found }
    {
        self.found
            .with_half(half, self.registers.place(Field::Half(half)))
    }

    // The next field, or the end: an accessor has neither value nor mark for writable.
    fn behind(self, field: Field, found: Description) -> Progress<ToDescriptor, Description>
        ensures { result ≡ behind_field self field found }
    {
        match field.next() {
            Some(next) => Progress::Going(ToDescriptor {
                found,
                stage: DescriptorStage::Has(next),
                ..self
            }),
            None if found.is_mixed() => Progress::Going(self.in_stage(DescriptorStage::Failed)),
            None => Progress::Ready(found),
        }
    }

    fn in_stage(self, stage: DescriptorStage) -> ToDescriptor
        ensures { result ≡ in_stage self stage }
    {
        ToDescriptor { stage, ..self }
    }
}
