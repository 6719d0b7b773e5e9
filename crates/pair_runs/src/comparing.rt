//! How a pair ends with runs whose endings are known.

ghost use Rattle.std.specs.Prelude.{◌≡◌};
ghost use Rattle.std.specs.Option.{is_some};
ghost use Rattle.step_run.specs.Ran.{told_by};
ghost use Rattle.pair_runs.specs.Compared.{are_told, both_finished, compared, known_finished};

use crate::pairing::PairEnd;
use step_run::Ending;

/// How a pair ends without a view, unless both runs are finished.
#[tactic(auto, unfolding(crate::specs::Compared::compared))]
pub(crate) fn compared(first: Ending, second: Ending) -> Result<(), PairEnd>
    ensures { result ≡ compared first second }
{
    // Lines that go to memory are cut off only when memory runs out.
    if !are_told(&first, &second) {
        return Err(PairEnd::OutOfMemory);
    }
    if !are_finished(&first, &second) {
        return Err(PairEnd::Unfinished { first, second });
    }
    Ok(())
}

/// Both runs came to an end of their own.
fn are_told(first: &Ending, second: &Ending) -> bool
    ensures { result ≡ are_told first.now second.now }
{
    is_told(first) && is_told(second)
}

fn is_told(ending: &Ending) -> bool
    ensures { result ≡ is_some (told_by ending.now) }
{
    match ending {
        Ending::WriteFault => false,
        Ending::OutOfMemory => false,
        Ending::Done => true,
        Ending::Threw { .. } => true,
        Ending::Stopped { .. } => true,
        Ending::Left(_) => true,
        Ending::OutOfTurns => true,
    }
}

/// Both runs reached their ends, or exceptions left them.
fn are_finished(first: &Ending, second: &Ending) -> bool
    ensures { result ≡ both_finished first.now second.now }
{
    is_finished(first) && is_finished(second)
}

fn is_finished(ending: &Ending) -> bool
    ensures { result ≡ known_finished (told_by ending.now) }
{
    match ending {
        Ending::Done => true,
        Ending::Threw { .. } => true,
        Ending::Stopped { .. } => false,
        Ending::Left(_) => false,
        Ending::OutOfTurns => false,
        Ending::WriteFault => false,
        Ending::OutOfMemory => false,
    }
}
