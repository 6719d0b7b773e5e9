//! Early errors of names, of parameters, and of what is assigned to or deleted.

ghost use Rattle.std.specs.Prelude.{◌≡◌, [], ◌++◌, map};
ghost use Rattle.std.specs.List.{list_any};
ghost use Rattle.std.specs.Str.{bytes_eq};
ghost use Rattle.js_ast.specs.Nodes.{nodes_of};
ghost use Rattle.js_ast.specs.Views.{view_ident, view_name, view_idents, view_expr};
ghost use Rattle.js_ast.specs.Orders.{IsOrder};
ghost use Rattle.js_faults.specs.Early.{is_eval_or_arguments, is_strict_word, of_name, of_bound, of_bound_maybe, of_parameters, fault_if, has_text, of_assigned, of_deleted};
ghost use Rattle.js_faults.specs.declared.fault.EarlyErrorKind.TheVariants as kind;
ghost use Rattle.js_faults.specs.Faults.{first_of};
ghost use Rattle.js_faults.specs.Ordered.{keys_of, name_entry, of_each};

use crate::fault::{EarlyError, EarlyErrorKind, earlier, fault_if};
use crate::ordered::{Keyed, is_order, of_ordered};
use flow_text::Text;
use js_ast::{Expr, ExprKind, Ident, IdentList};
use js_scan::{is_one_of, spells};
use std::cmp::Ordering;

// The words that are reserved in strict code alone.
const STRICT_WORDS: [&[u8]; 9] = [
    b"implements",
    b"interface",
    b"let",
    b"package",
    b"private",
    b"protected",
    b"public",
    b"static",
    b"yield",
];

fn is_eval_or_arguments(text: &Text) -> bool
    ensures { result ≡ is_eval_or_arguments text.now }
{
    spells(b"eval", text.units()) || spells(b"arguments", text.units())
}

#[tactic(auto, unfolding(crate::specs::Early::is_strict_word))]
fn is_strict_word(text: &Text) -> bool
    ensures { result ≡ is_strict_word text.now }
{
    is_one_of(&STRICT_WORDS, text.units())
}

/// A name that stands for a value, or a label.
pub(crate) fn of_name(at: usize, text: &Text) -> Option<EarlyError>
    ensures { result ≡ first_of (of_name at text.now) }
{
    fault_if(is_strict_word(text), at, EarlyErrorKind::StrictWord)
}

/// A name that is bound.
#[tactic(auto, using(crate::proofs::Told::first_of_append), unfolding(crate::specs::Early::of_bound))]
pub(crate) fn of_bound(name: &Ident) -> Option<EarlyError>
    ensures { result ≡ first_of (of_bound (view_ident name.now)) }
{
    earlier(
        fault_if(
            is_eval_or_arguments(&name.text),
            name.at,
            EarlyErrorKind::EvalArguments,
        ),
        of_name(name.at, &name.text),
    )
}

/// The name of a function, if it has one.
#[tactic(auto, unfolding(crate::specs::Early::of_bound_maybe))]
pub(crate) fn of_bound_maybe(name: &Option<Ident>) -> Option<EarlyError>
    ensures { result ≡ first_of (of_bound_maybe (view_name name.now)) }
{
    match name {
        Some(name) => of_bound(name),
        None => None,
    }
}

fn has_text(text: &Text, names: &[Ident]) -> bool
    ensures { result ≡ list_any (λ i. bytes_eq i.text text.now) names.now }
{
    names.iter().any(|name| name.text == *text)
}

/// A parameter behind others.
#[tactic(auto, using(crate::proofs::Told::first_of_append, crate::proofs::Words::has_text_is))]
fn of_parameter(earlier_ones: &[Ident], name: &Ident) -> Option<EarlyError>
    ensures { result ≡ first_of (of_bound (view_ident name.now) ++ fault_if (has_text name.now.text (view_idents earlier_ones.now)) name.now.at kind.RepeatedParameter) }
{
    earlier(
        of_bound(name),
        fault_if(
            has_text(&name.text, earlier_ones),
            name.at,
            EarlyErrorKind::RepeatedParameter,
        ),
    )
}

// Parameters, each against all earlier ones.
fn by_pairs(names: &[Ident]) -> Option<EarlyError>
    ensures { result ≡ first_of (of_parameters [] (view_idents names.now)) }
{
    let mut first = None;
    'names: for (i, name) in names.iter().enumerate() {
        first = earlier(first, of_parameter(&names[..i], name));
    }
    first
}

// Names that are bound, each on its own.
fn of_each(names: &[Ident]) -> Option<EarlyError>
    ensures { result ≡ first_of (of_each (view_idents names.now)) }
{
    let mut first = None;
    'names: for name in names {
        first = earlier(first, of_bound(name));
    }
    first
}

// Parameters with an order by name, which has equal ones side by side.
#[tactic(auto, using(crate::proofs::Entries::parameters_are))]
fn by_order(names: &[Ident], order: &[usize]) -> Option<EarlyError>
    requires { IsOrder (keys_of (map (λ i. name_entry (view_ident i)) names.now)) order.now }
    ensures { result ≡ first_of (of_parameters [] (view_idents names.now)) }
{
    earlier(
        of_each(names),
        of_ordered(names, order, EarlyErrorKind::RepeatedParameter),
    )
}

/// Parameters. Their order serves where it is one.
pub(crate) fn of_parameters(params: &IdentList) -> Option<EarlyError>
    ensures { result ≡ first_of (of_parameters [] (view_idents (nodes_of params.now))) }
{
    let names = params.items();
    let order = params.order();
    if is_order(names, order) {
        by_order(names, order)
    } else {
        by_pairs(names)
    }
}

impl Keyed for Ident {
    ghost entry = { λ i. name_entry (view_ident i) };

    fn compared(&self, other: &Ident) -> Ordering {
        self.text.cmp(&other.text)
    }

    fn is_pair(&self, _other: &Ident) -> bool {
        false
    }

    fn place(&self) -> usize {
        self.at
    }
}

/// What is assigned to, also in parentheses.
#[tactic(auto, unfolding(crate::specs::Early::of_assigned))]
pub(crate) fn of_assigned(e: &Expr) -> Option<EarlyError>
    ensures { result ≡ first_of (of_assigned (view_expr e.now)) }
{
    match &*e.kind {
        ExprKind::Name(text) => {
            fault_if(
                is_eval_or_arguments(text),
                e.at,
                EarlyErrorKind::EvalArguments,
            )
        }
        ExprKind::Paren(inner) => of_assigned(inner),
        _ => None,
    }
}

/// What is deleted, also in parentheses.
#[tactic(auto, unfolding(crate::specs::Early::of_deleted))]
pub(crate) fn of_deleted(e: &Expr) -> Option<EarlyError>
    ensures { result ≡ first_of (of_deleted (view_expr e.now)) }
{
    match &*e.kind {
        ExprKind::Name(_) => fault_if(true, e.at, EarlyErrorKind::DeleteName),
        ExprKind::Paren(inner) => of_deleted(inner),
        _ => None,
    }
}
