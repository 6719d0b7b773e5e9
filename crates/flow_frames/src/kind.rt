//! The kinds of frames.

ghost use Rattle.std.specs.Prelude.{◌≡◌};
ghost use Rattle.flow_frames.specs.Kinds.{is_try};

/// Why a run is in a frame.
#[derive(Clone, Copy, Debug, PartialEq, Eq)]
pub enum Kind {
    Root,
    Branch,
    Loop,
    Turn,
    Call,
    Try,
    Native,
}

impl Kind {
    /// Whether frames of the kind catch what is thrown.
    pub(crate) fn is_try(self) -> bool
        ensures { result ≡ is_try self }
    {
        matches!(self, Kind::Try)
    }
}
