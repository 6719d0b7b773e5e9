//! How far a run has come.

ghost use Rattle.std.specs.Prelude.{◌≡◌, OnErr};
ghost use Rattle.step_core.specs.Rooms.{IsRoomier};

use continuations::Stack;
use flow_text::OutOfMemory;
use run_state::World;
use step_natives::NativeStates;

/// A run in its middle, but for what it does next and what it borrows.
#[derive(Drop)]
pub struct Progress<'p, T, S> {
    pub world: World<T>,
    pub stack: Stack<'p, T>,
    /// The built-ins that wait, and the one that runs.
    pub natives: NativeStates<S>,
    /// How many further parts of the script it may enter.
    pub turns: u64,
}

impl<'p, T: Copy, S> Progress<'p, T, S> {
    /// Makes the room for one step's frame. No reading of the run sees a change.
    #[inline(always)]
    pub(crate) fn reserve(&mut self) -> Result<(), OutOfMemory>
        ensures roomier { IsRoomier self.old self.new }
        ensures unchanged { OnErr result (self.new ≡ self.old) }
    {
        self.world.frames.reserve()
    }
}
