//! `isPrototypeOf` (ECMA-262 15.2.4.6).

ghost use Rattle.std.specs.Prelude.{◌≡◌, IfOk};
ghost use Rattle.object_functions.specs.AncestorMachine.{ancestor_begin, ancestor_asks, ancestor_after, truth_ends, with_object, until_same, ancestor};

use crate::needs::{ready_or, unless_converted};
use crate::registers::Registers;
use descriptor_pieces::is_true;
use flow_text::OutOfMemory;
use js_number::Primitive;
use native_protocol::{Answer, Progress, Reg, Request};
use primitive_natives::Ending;

/// What a call asks for: a look at the argument and one at `this`; and for one prototype after the other the prototype itself, a look at it,
/// whether it is the same, and a look at that.
#[derive(Clone, Copy, PartialEq, Eq)]
pub enum AncestorStage {
    LookValue,
    LookThis,
    Proto,
    LookProto,
    Same,
    LookSame,
}

/// A call of it. The prototypes are put where the argument was.
#[derive(Clone, Copy)]
pub struct AncestorCall {
    to: Reg,
    stage: AncestorStage,
}

impl AncestorCall {
    /// How it begins.
    pub fn start(argc: u64) -> Result<AncestorCall, OutOfMemory>
        ensures { IfOk result (λ call. call ≡ ancestor_begin argc) }
    {
        Ok(AncestorCall {
            to: Registers::behind(argc)?.first,
            stage: AncestorStage::LookValue,
        })
    }

    /// What it asks for.
    pub fn request(&self) -> Request
        ensures { result ≡ ancestor_asks self.now }
    {
        let (this, value) = (Reg(0), Reg(2));
        match self.stage {
            AncestorStage::LookValue | AncestorStage::LookProto => Request::Look { reg: value },
            AncestorStage::LookThis => Request::Look { reg: this },
            AncestorStage::Proto => Request::Proto {
                base: value,
                to: value,
            },
            AncestorStage::Same => Request::Same {
                a: this,
                b: value,
                to: self.to,
            },
            AncestorStage::LookSame => Request::Look { reg: self.to },
        }
    }

    /// Where an answer leads.
    pub fn after(self, answer: Answer) -> Progress<AncestorCall, Ending>
        ensures { result ≡ ancestor_after self answer }
    {
        match self.stage {
            AncestorStage::LookValue => {
                self.with_object(answer.seen().is_object(), AncestorStage::LookThis)
            }
            AncestorStage::LookThis => ready_or(
                unless_converted(&answer.seen()),
                self.in_stage(AncestorStage::Proto),
            ),
            AncestorStage::Proto => Progress::Going(self.in_stage(AncestorStage::LookProto)),
            AncestorStage::LookProto => {
                self.with_object(answer.seen().is_object(), AncestorStage::Same)
            }
            AncestorStage::Same => Progress::Going(self.in_stage(AncestorStage::LookSame)),
            AncestorStage::LookSame => self.until_same(is_true(&answer.seen())),
        }
    }

    // It goes on with an object, and else it isn't a prototype.
    fn with_object(self, is_object: bool, stage: AncestorStage) -> Progress<AncestorCall, Ending>
        ensures { result ≡ with_object is_object self.to stage }
    {
        if is_object {
            Progress::Going(self.in_stage(stage))
        } else {
            Progress::Ready(truth_ends(false, self.to))
        }
    }

    fn until_same(self, same: bool) -> Progress<AncestorCall, Ending>
        ensures { result ≡ until_same same self.to }
    {
        if same {
            Progress::Ready(truth_ends(true, self.to))
        } else {
            Progress::Going(self.in_stage(AncestorStage::Proto))
        }
    }

    fn in_stage(self, stage: AncestorStage) -> AncestorCall
        ensures { result ≡ ancestor self.to stage }
    {
        AncestorCall { stage, ..self }
    }
}

fn truth_ends(value: bool, to: Reg) -> Ending
    ensures { result ≡ truth_ends value to }
{
    Ending::Give {
        value: Primitive::Bool(value),
        to,
    }
}
