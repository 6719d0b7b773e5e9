//! What a directive says: of which jump it speaks, and the origins that it names.

ghost use Rattle.std.specs.Prelude.{◌≡◌, ◌∷◌, [], codes, nat_eq, option_map};
ghost use Rattle.std.specs.List.{position, starts_with};
ghost use Rattle.std.specs.Option.{MatchOption};
ghost use Rattle.std.specs.Str.{bytes_eq};
ghost use Rattle.js_ast.specs.Views.{view_expr};
ghost use Rattle.es_meaning.specs.Directives.{behind_mark, leaving_of, upgrade_by, upgrade_of};
ghost use Rattle.step_jumps.specs.Raising.{is_space, leaving_by, parts_held, parts_of, upgrade_held, words_of};

use js_ast::{Expr, ExprKind};

/// Of which jump a directive speaks.
#[derive(Clone, Copy)]
pub enum Spoken<'p> {
    /// A throw.
    Thrown,
    /// A return.
    Returned,
    /// A break, or where the mark says so a continue, with its label or none.
    Left(bool, Option<&'p [u16]>),
}

/// A directive: the jump of which it speaks, and its list of origins.
#[derive(Clone, Copy)]
pub struct Directive<'p> {
    pub leaving: Spoken<'p>,
    pub list: &'p [u16],
}

/// The words of a directive behind `flow`.
#[derive(Clone, Copy)]
pub(crate) struct Words<'a> {
    /// What is raised.
    pub(crate) what: &'a [u16],
    pub(crate) label: Option<&'a [u16]>,
    /// The list of origins.
    pub(crate) list: &'a [u16],
}

/// The directive that an expression is as a statement, if it is a string literal that is one.
#[tactic(auto, unfolding(es_meaning::specs::Directives::upgrade_of, crate::specs::Raising::words_of))]
pub fn directive_of(e: &Expr) -> Option<Directive<'_>>
    ensures { option_map upgrade_held result ≡ upgrade_of (view_expr e.now) }
{
    match &*e.kind {
        ExprKind::String { value, .. } if begins_as_one(value.units()) => {
            directive_in(value.units())
        }
        _ => None,
    }
}

fn begins_as_one(units: &[u16]) -> bool
    ensures { result ≡ starts_with nat_eq units.now (codes "flow ") }
{
    units.starts_with(&[0x66, 0x6C, 0x6F, 0x77, 0x20])
}

fn directive_in(units: &[u16]) -> Option<Directive<'_>>
    ensures { option_map upgrade_held result ≡ upgrade_by (words_of units.now) }
{
    let words = words_in(units)?;
    Some(Directive {
        leaving: spoken_of(words.what, words.label),
        list: words.list,
    })
}

/// What the words of a directive speak of.
fn spoken_of<'a>(what: &'a [u16], label: Option<&'a [u16]>) -> Spoken<'a>
    ensures { leaving_by result ≡ leaving_of what.now (option_map (λ text. behind_mark text.now) label.entry) }
{
    if is_exc(what) {
        Spoken::Thrown
    } else if is_ret(what) {
        Spoken::Returned
    } else {
        Spoken::Left(is_continue(what), label_in(label))
    }
}

fn is_exc(what: &[u16]) -> bool
    ensures { result ≡ bytes_eq what.now (codes "exc") }
{
    what == [0x65, 0x78, 0x63].as_slice()
}

fn is_ret(what: &[u16]) -> bool
    ensures { result ≡ bytes_eq what.now (codes "ret") }
{
    what == [0x72, 0x65, 0x74].as_slice()
}

fn is_continue(what: &[u16]) -> bool
    ensures { result ≡ bytes_eq what.now (codes "continue") }
{
    what == [0x63, 0x6F, 0x6E, 0x74, 0x69, 0x6E, 0x75, 0x65].as_slice()
}

/// The label behind its mark.
fn label_in<'a>(label: Option<&'a [u16]>) -> Option<&'a [u16]>
    ensures { option_map (λ text. text.now) result ≡ option_map (λ text. behind_mark text.now) label.entry }
{
    match label {
        Some(word) => Some(behind_mark(word)),
        None => None,
    }
}

fn behind_mark(word: &[u16]) -> &[u16]
    ensures { result.now ≡ behind_mark word.now }
{
    match word {
        [_, text @ ..] => text,
        [] => word,
    }
}

fn first_space(units: &[u16]) -> Option<usize>
    ensures { result ≡ position is_space units.now }
{
    units.iter().position(|unit| *unit == 0x20)
}

/// What stands before and behind the first space.
fn cut(units: &[u16]) -> Option<(&[u16], &[u16])>
    ensures { MatchOption result (words_of units.now ≡ units.now ∷ []) (λ r. words_of units.now ≡ r.0.now ∷ words_of r.1.now) }
{
    let at = first_space(units)?;
    Some((&units[..at], &units[at + 1..]))
}

/// The words of a directive with this value, if they are three or four.
fn words_in(value: &[u16]) -> Option<Words<'_>>
    ensures { option_map parts_held result ≡ parts_of (words_of value.now) }
{
    let (_, behind) = cut(value)?;
    let (what, behind) = cut(behind)?;
    let Some((label, list)) = cut(behind) else {
        return Some(Words {
            what,
            label: None,
            list: behind,
        });
    };
    match cut(list) {
        None => Some(Words {
            what,
            label: Some(label),
            list,
        }),
        Some(_) => None,
    }
}
