//! The laws of the meanings, as functions that do nothing.

ghost use Rattle.low_equal.specs.Declared.{SpeaksOfDeclared};
ghost use Rattle.low_equal.specs.Erasure.{IsErasing};
ghost use Rattle.low_equal.specs.Laws.{IsConfining, IsIsolating, IsLockstep};

/// Erasure: with each set of built-ins, a monitored run without its labels is the unlabelled run, up to a stop.
pub fn erasure()
    ensures { IsErasing }
{}

/// Confinement: what a run does where an observer can't see why, it can't tell, however the run ends; and a run only adds lines.
pub fn confinement()
    ensures { IsConfining }
{}

/// Lockstep: from states that an observer can't tell apart two runs come to states that it can't tell apart, or one has ended and has shown
/// what the other has begun to show.
pub fn lockstep()
    ensures { IsLockstep }
{}

/// Two runs on inputs that agree for an observer: finished ones show it the same lines, and of others one shows what the other begins with.
pub fn two_runs()
    ensures { IsIsolating }
{}

/// With each set of built-ins a monitored run speaks of declared origins alone.
pub fn declared()
    ensures { SpeaksOfDeclared }
{}
