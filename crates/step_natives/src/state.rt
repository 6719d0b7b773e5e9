//! The state of a built-in that runs or waits.

ghost use Rattle.std.specs.Prelude.{◌≡◌, IfOk, codes};
ghost use Rattle.native_protocol.specs.declared.request.Request.TheVariants.{Leave};
ghost use Rattle.step_natives.specs.States.{accessor_name, state_after, state_asks};

use flow_text::{OutOfMemory, Text};
use native_protocol::{Answer, DefaultValue, Natives, Request};
use std::alloc::Global;

/// The accessors that leave the language by their names, and a built-in that the set doesn't have.
#[derive(Clone, Copy, Debug, PartialEq, Eq)]
pub enum Accessor {
    Caller,
    Arguments,
    Callee,
    /// None of these: the name is empty. No function has such a built-in.
    Unknown,
}

/// The state of a built-in of a set, of the conversion of an object, or of one of the accessors.
#[derive(Drop)]
pub enum NativeState<S> {
    Set(S),
    Conversion(DefaultValue),
    Leaves(Accessor),
}

impl Accessor {
    // Its name.
    #[tactic(auto, using(crate::proofs::Words::words))]
    fn name(self, alloc: Global) -> Result<Text, OutOfMemory>
        ensures { IfOk result (λ name. name ≡ accessor_name self) }
    {
        match self {
            Accessor::Caller => Text::spelled(alloc, "caller"),
            Accessor::Arguments => Text::spelled(alloc, "arguments"),
            Accessor::Callee => Text::spelled(alloc, "callee"),
            Accessor::Unknown => Ok(Text::new(alloc)),
        }
    }

    // What it asks for, whatever it is told.
    fn request(self, alloc: Global) -> Result<Request, OutOfMemory>
        ensures { IfOk result (λ request. request ≡ Leave (accessor_name self)) }
    {
        let name = self.name(alloc)?;
        Ok(Request::Leave { name })
    }
}

impl<S: Drop> NativeState<S> {
    /// Tells the answer to what was asked last, and asks the next. Where memory is missing the state may be any.
    pub(crate) fn next<N: Natives<State = S>>(
        &mut self,
        alloc: Global,
        natives: &N,
        answer: Answer,
    ) -> Result<Request, OutOfMemory>
        ensures state { IfOk result (λ request. self.new ≡ state_after (N.after natives.now) self.old answer) }
        ensures asks { IfOk result (λ request. request ≡ state_asks (N.asks natives.now) (state_after (N.after natives.now) self.old answer)) }
    {
        match self {
            NativeState::Set(state) => natives.next(state, answer),
            NativeState::Conversion(state) => state.next(alloc, answer),
            NativeState::Leaves(accessor) => accessor.request(alloc),
        }
    }
}
