//! The laws of the meaning, as functions that do nothing.

ghost use Rattle.es_meaning.specs.Laws.{MoreTurns};

/// More turns change no run that ends otherwise than by their want.
pub fn more_turns()
    ensures { MoreTurns }
{}
