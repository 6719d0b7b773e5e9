//! Rows over the set of all built-ins, as functions that do nothing.

ghost use Rattle.builtin_examples.specs.DocumentRows.{DocumentRows};
ghost use Rattle.builtin_examples.specs.StandardRows.{ObjectRows, NumberRows, LeftRows, LabelRows};
ghost use Rattle.builtin_examples.specs.TurnRows.{TurnRows};

/// Small scripts that call the standard's built-ins print, or are stopped, as was worked out by hand.
pub fn standard()
    ensures objects { ObjectRows }
    ensures numbers { NumberRows }
    ensures left { LeftRows }
    ensures labels { LabelRows }
{}

/// The scripts that docs/RULES.md shows of definitions and of objects that are closed do what is written there.
pub fn documents()
    ensures { DocumentRows }
{}

/// Calls of built-ins take as many turns as docs/BUILTINS.md says, and no fewer.
pub fn turns()
    ensures { TurnRows }
{}
