//! The object that describes an own property (ECMA-262 8.10.4).

ghost use Rattle.std.specs.Prelude.{◌≡◌, IfOk};
ghost use Rattle.descriptor_pieces.specs.Descriptors.{defined_as};
ghost use Rattle.descriptor_pieces.specs.TellingPieces.{telling_begin, telling_asks, telling_after, in_stage, telling_stage, next_told, first_told};

use crate::fields::{Field, Half, Mark};
use crate::property::{OwnMarks, PropertyRegisters};
use flow_text::OutOfMemory;
use js_number::Primitive;
use js_values::Class;
use native_protocol::{Answer, GivenMarks, Progress, Reg, Request};
use std::alloc::Global;

/// What it asks for: a look at the marks, a new object, and for each field its value, where that is a mark, and its definition.
#[derive(Clone, Copy)]
pub enum TellingStage {
    Look,
    New(OwnMarks),
    Make(OwnMarks, Mark),
    Define(OwnMarks, Field),
}

/// An own property of which an `Own` told, on its way to the object that describes it. It gives the register that holds the object, or
/// undefined where there is no such property.
#[derive(Clone, Copy)]
pub struct FromDescriptor {
    own: PropertyRegisters,
    to: Reg,
    stage: TellingStage,
}

impl FromDescriptor {
    /// The object that describes the own property in these registers, to be put into one more. The register of the marks is written, too.
    pub fn own(own: PropertyRegisters, to: Reg) -> FromDescriptor
        ensures { result ≡ telling_begin own to }
    {
        FromDescriptor {
            own,
            to,
            stage: TellingStage::Look,
        }
    }

    /// What it asks for.
    pub fn request(&self, alloc: Global) -> Result<Request, OutOfMemory>
        ensures { IfOk result (λ request. request ≡ telling_asks self.now) }
    {
        match self.stage {
            TellingStage::Look => Ok(Request::Look {
                reg: self.own.marks,
            }),
            TellingStage::New(_) => Ok(Request::New {
                class: Class::Object,
                proto: None,
                to: self.to,
            }),
            TellingStage::Make(marks, mark) => Ok(Request::Make {
                value: Primitive::Bool(marks.mark(mark)),
                to: self.own.marks,
            }),
            TellingStage::Define(_, field) => {
                defined_as(alloc, self.to, field, self.own.place(field))
            }
        }
    }

    /// Where an answer leads.
    pub fn after(self, answer: Answer) -> Progress<FromDescriptor, Reg>
        ensures { result ≡ telling_after self answer }
    {
        match self.stage {
            TellingStage::Look => match OwnMarks::seen(&answer.seen()) {
                Some(marks) => Progress::Going(self.in_stage(TellingStage::New(marks))),
                None => Progress::Ready(self.own.marks),
            },
            TellingStage::New(marks) => {
                Progress::Going(self.in_stage(telling_stage(marks, first_told(&marks))))
            }
            TellingStage::Make(marks, mark) => {
                Progress::Going(self.in_stage(TellingStage::Define(marks, Field::Mark(mark))))
            }
            TellingStage::Define(marks, field) => match next_told(field) {
                Some(next) => Progress::Going(self.in_stage(telling_stage(marks, next))),
                None => Progress::Ready(self.to),
            },
        }
    }

    fn in_stage(self, stage: TellingStage) -> FromDescriptor
        ensures { result ≡ in_stage self stage }
    {
        FromDescriptor { stage, ..self }
    }
}

// A mark is made first, and any other field is in a register already.
fn telling_stage(marks: OwnMarks, field: Field) -> TellingStage
    ensures { result ≡ telling_stage marks field }
{
    match field {
        Field::Mark(mark) => TellingStage::Make(marks, mark),
        Field::Value => TellingStage::Define(marks, field),
        Field::Half(_) => TellingStage::Define(marks, field),
    }
}

fn first_told(marks: &OwnMarks) -> Field
    ensures { result ≡ first_told marks.now }
{
    if marks.accessor {
        Field::Half(Half::Get)
    } else {
        Field::Value
    }
}

fn next_told(field: Field) -> Option<Field>
    ensures { result ≡ next_told field }
{
    match field {
        Field::Value => Some(Field::Mark(Mark::Writable)),
        Field::Half(Half::Get) => Some(Field::Half(Half::Set)),
        Field::Mark(Mark::Writable) => Some(Field::Mark(Mark::Enumerable)),
        Field::Half(Half::Set) => Some(Field::Mark(Mark::Enumerable)),
        Field::Mark(Mark::Enumerable) => Some(Field::Mark(Mark::Configurable)),
        Field::Mark(Mark::Configurable) => None,
    }
}

// A field becomes a property that is writable, enumerable and configurable.
fn defined_as(alloc: Global, to: Reg, field: Field, from: Reg) -> Result<Request, OutOfMemory>
    ensures { IfOk result (λ request. request ≡ defined_as to field from) }
{
    Ok(Request::Define {
        base: to,
        key: field.key(alloc)?,
        marks: GivenMarks {
            writable: Some(true),
            enumerable: Some(true),
            configurable: Some(true),
        },
        value: Some(from),
        get: None,
        set: None,
    })
}
