//! The laws of sources and of judgements.

ghost use Rattle.run_files.specs.Laws.{IsProgramOnce, IsProgramOrRefused, IsJudgedOnce, IsJudgedOrAbsent};

/// The bytes of a source are one program at most, and where they are no program they are refused for one fault.
pub fn one_program()
    ensures program { IsProgramOnce }
    ensures refused { IsProgramOrRefused }
{}

/// The files of a request have one judgement, or the order of work reaches an absent file.
pub fn judged_once()
    ensures judged { IsJudgedOnce }
    ensures absent { IsJudgedOrAbsent }
{}
