//! Which jumps may stand in a scope.

ghost use Rattle.std.specs.Prelude.{◌≡◌, option_map};
ghost use Rattle.js_ast.specs.Views.{view_name};
ghost use Rattle.js_faults.specs.ScopeViews.{scope_of};
ghost use Rattle.js_faults.specs.Early.{may_break, may_continue, may_jump, label_text, behind_mark, directive_may_jump};

use crate::forms::{Words, words_in};
use crate::scope::Scope;
use js_ast::Ident;
use js_scan::spells;

/// The label of a jump.
pub(crate) fn label_of(label: &Option<Ident>) -> Option<&[u16]>
    ensures { option_map (λ text. text.now) result ≡ label_text (view_name label.now) }
{
    match label {
        Some(label) => Some(label.text.units()),
        None => None,
    }
}

/// Whether a `continue` may stand here.
pub(crate) fn may_continue(label: Option<&[u16]>, scope: Scope<'_>) -> bool
    ensures { result ≡ may_continue (option_map (λ text. text.now) label.entry) (scope_of scope.entry) }
{
    match label {
        Some(label) => scope.labels.has_loop(label),
        None => scope.in_loop,
    }
}

/// Whether a `break` may stand here.
pub(crate) fn may_break(label: Option<&[u16]>, scope: Scope<'_>) -> bool
    ensures { result ≡ may_break (option_map (λ text. text.now) label.entry) (scope_of scope.entry) }
{
    match label {
        Some(label) => scope.labels.has(label),
        None => scope.in_loop || scope.in_switch,
    }
}

/// Whether a jump that a directive names may stand here.
fn may_jump(what: &[u16], label: Option<&[u16]>, scope: Scope<'_>) -> bool
    ensures { result ≡ may_jump what.now (option_map (λ text. text.now) label.entry) (scope_of scope.entry) }
{
    if spells(b"break", what) {
        may_break(label, scope)
    } else if spells(b"continue", what) {
        may_continue(label, scope)
    } else if spells(b"ret", what) {
        scope.in_function
    } else {
        true
    }
}

fn behind_mark(label: &[u16]) -> &[u16]
    ensures { result.now ≡ behind_mark label.now }
{
    match label {
        [_, text @ ..] => text,
        [] => label,
    }
}

/// Whether the jump of a directive with this value, or of none, may stand here.
#[tactic(auto, unfolding(crate::specs::Early::directive_may_jump))]
pub(crate) fn directive_may_jump(value: Option<&[u16]>, scope: Scope<'_>) -> bool
    ensures { result ≡ directive_may_jump (option_map (λ value. value.now) value.entry) (scope_of scope.entry) }
{
    let Some(value) = value else {
        return true;
    };
    match words_in(value) {
        Some(
            Words {
                what,
                label: None,
                ..
            },
        ) => may_jump(what, None, scope),
        Some(
            Words {
                what,
                label: Some(label),
                ..
            },
        ) => may_jump(what, Some(behind_mark(label)), scope),
        None => true,
    }
}
