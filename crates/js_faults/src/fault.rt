//! Early errors.

ghost use Rattle.std.specs.Prelude.{◌≡◌};
ghost use Rattle.js_faults.specs.Early.{fault_if};
ghost use Rattle.js_faults.specs.Faults.{row, is_before, earlier, first_of};

/// What an early error is.
#[derive(Clone, Copy, Debug, PartialEq, Eq)]
pub enum EarlyErrorKind {
    /// `eval` or `arguments` is assigned or bound.
    EvalArguments,
    /// A parameter has the name of an earlier one.
    RepeatedParameter,
    /// A property has the key of an earlier one.
    RepeatedProperty,
    /// The operand of `delete` is a name.
    DeleteName,
    /// A jump has no statement or function that it leaves.
    Jump,
    /// A label stands inside a statement with the same label.
    RepeatedLabel,
    /// A word that is reserved in strict code stands as a name.
    StrictWord,
}

/// An early error, and where it is.
#[derive(Clone, Copy, Debug, PartialEq, Eq)]
pub struct EarlyError {
    pub at: usize,
    pub kind: EarlyErrorKind,
}

impl EarlyErrorKind {
    /// Its place in the order of the kinds.
    fn row(self) -> u8
        ensures { result ≡ row self }
    {
        match self {
            EarlyErrorKind::EvalArguments => 0,
            EarlyErrorKind::RepeatedParameter => 1,
            EarlyErrorKind::RepeatedProperty => 2,
            EarlyErrorKind::DeleteName => 3,
            EarlyErrorKind::Jump => 4,
            EarlyErrorKind::RepeatedLabel => 5,
            EarlyErrorKind::StrictWord => 6,
        }
    }
}

impl EarlyError {
    /// Whether it is told before another.
    fn is_before(self, other: EarlyError) -> bool
        ensures { result ≡ is_before self other }
    {
        self.at < other.at || self.at == other.at && self.kind.row() < other.kind.row()
    }
}

/// The one of two faults that is told.
pub(crate) fn earlier(f: Option<EarlyError>, g: Option<EarlyError>) -> Option<EarlyError>
    ensures { result ≡ earlier f g }
{
    match (f, g) {
        (Some(f), Some(g)) => Some(if g.is_before(f) { g } else { f }),
        (None, g) => g,
        (f, None) => f,
    }
}

/// A fault, where something holds.
pub(crate) fn fault_if(holds: bool, at: usize, kind: EarlyErrorKind) -> Option<EarlyError>
    ensures { result ≡ first_of (fault_if holds at kind) }
{
    if holds {
        Some(EarlyError { at, kind })
    } else {
        None
    }
}
