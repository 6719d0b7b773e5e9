//! The laws of the meaning, as functions that do nothing.

ghost use Rattle.flow_meaning.specs.Laws.{MoreTurns, IsPerformed};

/// More turns change no run that ends otherwise than by their want.
pub fn more_turns()
    ensures { MoreTurns }
{}

/// The meaning of a part of a script is its plan, performed.
pub fn performed()
    ensures { IsPerformed }
{}
