//! Upgrade directives.

ghost use Rattle.std.specs.Prelude.{◌≡◌, ℕ, List, map, option_map};
ghost use Rattle.js_ast.specs.Views.{view_expr, view_stmt};
ghost use Rattle.js_faults.specs.Directives.{is_label, is_jump, is_raised, is_directive, has_form, directive_in, directive_of, bad_if, of_directive, without_form, by_place};
ghost use Rattle.js_faults.specs.Faults.{precedes, earlier_by, first_by};

use crate::forms::has_form;
use js_ast::{Expr, ExprKind, Stmt, StmtKind};

/// An upgrade directive that has no form of one, and where it is.
#[derive(Clone, Copy, Debug, PartialEq, Eq)]
pub struct BadDirective {
    pub at: usize,
}

impl BadDirective {
    /// Whether it comes before another.
    #[tactic(auto, using(crate::proofs::Told::place_alone))]
    fn is_before(self, other: BadDirective) -> bool
        ensures { result ≡ precedes by_place self other }
    {
        self.at < other.at
    }
}

/// The first of two.
pub(crate) fn first_of_two(f: Option<BadDirective>, g: Option<BadDirective>) -> Option<BadDirective>
    ensures { result ≡ earlier_by by_place f g }
{
    match (f, g) {
        (Some(f), Some(g)) => Some(if g.is_before(f) { g } else { f }),
        (None, g) => g,
        (f, None) => f,
    }
}

/// A statement that is a directive without its form.
pub(crate) fn without_form(s: &Stmt) -> Option<BadDirective>
    ensures { result ≡ first_by by_place (without_form (view_stmt s.now)) }
{
    of_directive(s.at, directive_of(s))
}

fn of_directive(at: usize, value: Option<&[u16]>) -> Option<BadDirective>
    ensures { result ≡ first_by by_place (of_directive at (option_map (λ value. value.now) value.entry)) }
{
    match value {
        Some(value) => bad_if(!has_form(value), at),
        None => None,
    }
}

/// A directive without its form, where something holds.
fn bad_if(holds: bool, at: usize) -> Option<BadDirective>
    ensures { result ≡ first_by by_place (bad_if holds at) }
{
    if holds {
        Some(BadDirective { at })
    } else {
        None
    }
}

/// The value of the directive that a statement is.
pub(crate) fn directive_of(statement: &Stmt) -> Option<&[u16]>
    ensures { option_map (λ value. value.now) result ≡ directive_of (view_stmt statement.now) }
{
    match &*statement.kind {
        StmtKind::Expr { expr, .. } => directive_in(expr),
        _ => None,
    }
}

fn directive_in(e: &Expr) -> Option<&[u16]>
    ensures { option_map (λ value. value.now) result ≡ directive_in (view_expr e.now) }
{
    match &*e.kind {
        ExprKind::String { value, .. } if is_directive(value.units()) => Some(value.units()),
        _ => None,
    }
}

#[tactic(auto, unfolding(crate::specs::Directives::is_directive))]
fn is_directive(value: &[u16]) -> bool
    ensures { result ≡ is_directive value.now }
{
    value.starts_with(&[0x66, 0x6C, 0x6F, 0x77, 0x20])
}
