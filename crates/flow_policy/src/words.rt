//! Words of a line.

ghost use Rattle.std.specs.Prelude.{◌≡◌, ◌<◌, [], ◌∷◌, length, MatchOption, IfSome};
ghost use Rattle.std.specs.Option.{option_map, option_copied};
ghost use Rattle.flow_policy.specs.Words.{words_of};
ghost use Rattle.flow_policy.specs.Words.{only_word, only_two};

use crate::lines::cut;

/// The first word, and what stands behind it.
pub(crate) fn next_word(line: &[u8]) -> Option<(&[u8], &[u8])>
    ensures words { MatchOption result (words_of line.now ≡ []) (λ r. words_of line.now ≡ r.0.now ∷ words_of r.1.now) }
    ensures longer { IfSome result (λ r. 0 < length r.0.now) }
{
    let mut rest = line;
    while let Some((word, behind)) = cut(rest, b' ') {
        if !word.is_empty() {
            return Some((word, behind));
        }
        rest = behind;
    }
    if rest.is_empty() {
        None
    } else {
        Some((rest, &[]))
    }
}

/// The word of a line of one.
pub(crate) fn only_word(line: &[u8]) -> Option<&[u8]>
    ensures { option_copied result ≡ only_word (words_of line.now) }
{
    let (word, behind) = next_word(line)?;
    match next_word(behind) {
        None => Some(word),
        Some(_) => None,
    }
}

/// The words of a line of two.
pub(crate) fn only_two(line: &[u8]) -> Option<(&[u8], &[u8])>
    ensures { option_map (λ r. (r.0.now, r.1.now)) result ≡ only_two (words_of line.now) }
{
    let (first, behind) = next_word(line)?;
    let second = only_word(behind)?;
    Some((first, second))
}
