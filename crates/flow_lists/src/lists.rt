//! LISTs.

ghost use Rattle.std.specs.Prelude.{◌≡◌, ◌<◌, [], ◌∷◌, length, MatchOption, IfSome};
ghost use Rattle.std.specs.List.{slice_split, position};
ghost use Rattle.flow_lists.specs.Lists.{is_bare, is_comma, are_names};

use crate::names::is_name;

const COMMA: u16 = 0x2C;

const HYPHEN: u16 = 0x2D;

/// Whether it is the list of no names.
pub fn is_bare(list: &[u16]) -> bool
    ensures { result ≡ is_bare list.now }
{
    list == [HYPHEN].as_slice()
}

/// Whether each name of the list keeps the rule for names.
pub fn are_names(list: &[u16]) -> bool
    ensures { result ≡ are_names list.now }
{
    is_bare(list) || list.split(|unit| *unit == COMMA).all(is_name)
}

fn first_comma(list: &[u16]) -> Option<usize>
    ensures { result ≡ position is_comma list.now }
{
    list.iter().position(|unit| *unit == COMMA)
}

/// Where others follow it, the first name of a list that isn't bare, and these.
pub fn first_name(list: &[u16]) -> Option<(&[u16], &[u16])>
    ensures parts { MatchOption result (slice_split is_comma list.now ≡ list.now ∷ []) (λ r. slice_split is_comma list.now ≡ r.0.now ∷ slice_split is_comma r.1.now) }
    ensures shorter { IfSome result (λ r. length r.1.now < length list.now) }
{
    let at = first_comma(list)?;
    Some((&list[..at], &list[at + 1..]))
}
