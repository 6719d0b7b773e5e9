//! The forms of upgrade directives.

ghost use Rattle.std.specs.Prelude.{◌≡◌, [], ◌∷◌, option_map};
ghost use Rattle.std.specs.Option.{MatchOption};
ghost use Rattle.std.specs.List.{position};
ghost use Rattle.js_faults.specs.Directives.{is_space, words_of, parts_in, is_label, is_jump, is_raised, has_form};
ghost use Rattle.js_faults.specs.WordViews.{parts_held};

use flow_lists::are_names;
use js_scan::{is_identifier, spells};

/// The words of a directive behind `flow`.
#[derive(Clone, Copy)]
pub(crate) struct Words<'a> {
    /// What is raised.
    pub(crate) what: &'a [u16],
    pub(crate) label: Option<&'a [u16]>,
    /// The list of origins.
    pub(crate) list: &'a [u16],
}

fn first_space(units: &[u16]) -> Option<usize>
    ensures { result ≡ position is_space units.now }
{
    units.iter().position(|unit| *unit == 0x20)
}

/// What stands before and behind the first space.
fn cut(units: &[u16]) -> Option<(&[u16], &[u16])>
    ensures { MatchOption result (words_of units.now ≡ units.now ∷ []) (λ r. words_of units.now ≡ r.0.now ∷ words_of r.1.now) }
{
    let at = first_space(units)?;
    Some((&units[..at], &units[at + 1..]))
}

/// The words of a directive with this value, if they are three or four.
#[tactic(auto, unfolding(crate::specs::Directives::parts_in))]
pub(crate) fn words_in(value: &[u16]) -> Option<Words<'_>>
    ensures { option_map parts_held result ≡ parts_in value.now }
{
    let (_, behind) = cut(value)?;
    let (what, behind) = cut(behind)?;
    let Some((label, list)) = cut(behind) else {
        return Some(Words {
            what,
            label: None,
            list: behind,
        });
    };
    match cut(list) {
        None => Some(Words {
            what,
            label: Some(label),
            list,
        }),
        Some(_) => None,
    }
}

/// Whether the value of a directive has the form of one.
#[tactic(auto, unfolding(crate::specs::Directives::has_form))]
pub(crate) fn has_form(value: &[u16]) -> bool
    ensures { result ≡ has_form value.now }
{
    match words_in(value) {
        Some(
            Words {
                what,
                label: None,
                list,
            },
        ) => is_raised(what) && are_names(list),
        Some(
            Words {
                what,
                label: Some(label),
                list,
            },
        ) => is_jump(what) && is_label(label) && are_names(list),
        None => false,
    }
}

/// Whether this is the name of a jump that a loop, a `switch` or a label stops.
pub(crate) fn is_jump(what: &[u16]) -> bool
    ensures { result ≡ is_jump what.now }
{
    spells(b"break", what) || spells(b"continue", what)
}

fn is_raised(what: &[u16]) -> bool
    ensures { result ≡ is_raised what.now }
{
    spells(b"exc", what) || spells(b"ret", what) || is_jump(what)
}

fn is_label(word: &[u16]) -> bool
    ensures { result ≡ is_label word.now }
{
    match word {
        [0x40, text @ ..] => is_identifier(text),
        _ => false,
    }
}
