//! Sets of built-ins.

ghost use Rattle.std.specs.Prelude.{◌≡◌, ◌<◌, ℕ, Bool, List, length, slice_get, Some, IfOk};
ghost use Rattle.native_protocol.specs.declared.request.Answer.{Answer};
ghost use Rattle.native_protocol.specs.declared.request.Request.{Request};
ghost use Rattle.native_protocol.specs.Sets.{SeenEntry, seen_entry};

use crate::request::{Answer, Request};
use flow_text::OutOfMemory;
use std::alloc::Global;

/// How a name of a built-in is kept: as a function, as one that can be constructed too, left out as a function or as an accessor, or as
/// the constant NaN, which is no function.
#[derive(Clone, Copy, Debug, PartialEq, Eq)]
pub enum Form {
    Function,
    Constructor,
    LeftFunction,
    LeftAccessor,
    NotANumber,
}

/// A built-in: the holder and name under which it stands, its `length`, and its form.
#[derive(Clone, Copy, Debug)]
pub struct Entry {
    pub holder: &'static str,
    pub name: &'static str,
    pub length: u32,
    pub form: Form,
}

/// A set of built-ins, each of them a machine that asks for one request after another. It sees its registers by looks alone, so that
/// equal states with equal answers go on equally.
pub trait Natives {
    type State: Drop;

    /// The built-ins, in the order of their numbers.
    ghost entries: { Self → List SeenEntry };

    /// The state of a call: which built-in, how many arguments, and whether it is a construction.
    ghost begin: { Self → ℕ → ℕ → Bool → Self.State };

    /// The state behind an answer.
    ghost after: { Self → Self.State → Answer → Self.State };

    /// What a state asks for.
    ghost asks: { Self → Self.State → Request };

    /// How many built-ins there are.
    fn count(&self) -> u32
        ensures { result ≡ length (entries self.now) };

    /// The built-in of a number.
    fn entry(&self, which: u32) -> Entry
        requires { which < length (entries self.now) }
        ensures { slice_get (entries self.now) which ≡ Some (seen_entry result.holder.now result.name.now result.length result.form) };

    /// Begins a call.
    fn start(
        &self,
        alloc: Global,
        which: u32,
        argc: u64,
        construct: bool,
    ) -> Result<Self::State, OutOfMemory>
        requires { which < length (entries self.now) }
        ensures { IfOk result (λ state. state ≡ begin self.now which argc construct) };

    /// Tells the answer to what was asked last, and asks the next. Where memory is missing the state may be any.
    fn next(&self, state: &mut Self::State, answer: Answer) -> Result<Request, OutOfMemory>
        ensures state { IfOk result (λ request. state.new ≡ after self.now state.old answer) }
        ensures asks { IfOk result (λ request. request ≡ asks self.now (after self.now state.old answer)) };
}
