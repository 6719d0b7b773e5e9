//! Early errors.

/// What is refused of a program before it is run, and the place.
#[derive(Clone, Copy, Debug, PartialEq, Eq)]
pub enum EarlyFault {
    /// `eval` or `arguments` is assigned or bound, at the name.
    EvalArguments { at: usize },
    /// A parameter has the name of an earlier one, at the later name.
    RepeatedParameter { at: usize },
    /// A property has the key of an earlier one, at the later property.
    RepeatedProperty { at: usize },
    /// The operand of `delete` is a name, at the name.
    DeleteName { at: usize },
    /// A jump has no statement or function that it leaves, at the statement.
    Jump { at: usize },
    /// A label stands inside a statement with the same label, at the later label.
    RepeatedLabel { at: usize },
    /// A word that is reserved in strict code stands as a name, at the word.
    StrictWord { at: usize },
}
