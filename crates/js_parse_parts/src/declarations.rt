//! Variables and the headers of `for`, with their depths.

ghost use Rattle.std.specs.Prelude.{◌≡◌, ℕ, ◌-◌, ◌<◌, max, length, slice_index_or, IfOk, option_map};
ghost use Rattle.js_ast.specs.Depth.{depth_maybe, depth_declarations};
ghost use Rattle.js_ast.specs.Grammar.{as_option, last_initialiser};
ghost use Rattle.js_ast.specs.Joined.{joined_declarations};
ghost use Rattle.js_ast.specs.Trees as trees;
ghost use Rattle.js_ast.specs.Views.{view_ident, view_expr, view_maybe_expr, view_declaration, view_declarations, view_first, view_target};

use flow_text::OutOfMemory;
use js_ast::{Declaration, DeclarationList, Declarations, Expr, ForFirst, ForTarget, Ident};
use std::alloc::Global;

/// The first variable of a `var`.
#[tactic(auto, using(js_ast::proofs::ViewLaws::held, js_ast::specs::declared::trees::ExprKind::TheViews::the_lemmas))]
pub fn first_declaration(
    alloc: Global,
    name: Ident,
    value: (Option<Expr>, u32),
) -> (Declarations, u32)
    ensures view { view_declarations result.0 ≡ trees.one_declaration (view_ident name) (view_maybe_expr value.0) }
    ensures depth { result.1 ≡ value.1 }
{
    let first = Declaration {
        name,
        value: value.0,
    };
    let others = DeclarationList::new(alloc);
    (Declarations { first, others }, value.1)
}

/// A further variable.
pub fn further_declaration(
    list: (Declarations, u32),
    name: Ident,
    value: (Option<Expr>, u32),
) -> Result<(Declarations, u32), OutOfMemory>
    requires list { list.1 ≡ depth_declarations (view_declarations list.0) }
    requires value { value.1 ≡ depth_maybe (view_maybe_expr value.0) }
    ensures view { IfOk result (λ x. view_declarations x.0 ≡ joined_declarations (view_declarations list.0) (trees.one_declaration (view_ident name) (view_maybe_expr value.0))) }
    ensures deep { IfOk result (λ x. x.1 ≡ depth_declarations (view_declarations x.0)) }
    ensures size { IfOk result (λ x. x.1 ≡ max list.1 value.1) }
{
    let Declarations { first, mut others } = list.0;
    others.push(Declaration {
        name,
        value: value.0,
    })?;
    Ok((Declarations { first, others }, list.1.max(value.1)))
}

// The last of some variables, which is the first where it is alone.
fn last<'a>(first: &'a Declaration, others: &'a [Declaration]) -> &'a Declaration
    ensures { result.now ≡ slice_index_or others.now (length others.now - 1) first.now }
{
    others.last().unwrap_or(first)
}

fn value_of(declaration: &Declaration) -> Option<&Expr>
    ensures { option_map (λ e. view_expr e.now) result ≡ as_option (view_declaration declaration.now).1 }
{
    declaration.value.as_ref()
}

/// The initialiser of the last variable, or none.
#[tactic(auto, using(js_ast::proofs::ViewLaws::held, crate::proofs::Parts::last_seen))]
pub fn last_initialiser(declarations: &Declarations) -> Option<&Expr>
    ensures { option_map (λ e. view_expr e.now) result ≡ last_initialiser (view_declarations declarations.now) }
{
    value_of(last(&declarations.first, declarations.others.items()))
}

/// A header that begins with an expression or with nothing.
pub fn first_expr(value: (Option<Expr>, u32)) -> (ForFirst, u32)
    ensures view { view_first result.0 ≡ trees.first_expr (view_maybe_expr value.0) }
    ensures depth { result.1 ≡ value.1 }
{
    (ForFirst::Expr(value.0), value.1)
}

/// A header that begins with variables.
pub fn first_var(declarations: (Declarations, u32)) -> (ForFirst, u32)
    ensures view { view_first result.0 ≡ trees.first_var (view_declarations declarations.0) }
    ensures depth { result.1 ≡ declarations.1 }
{
    (ForFirst::Var(declarations.0), declarations.1)
}

/// An expression that is assigned to.
pub fn target_expr(expr: (Expr, u32)) -> (ForTarget, u32)
    ensures view { view_target result.0 ≡ trees.target_expr (view_expr expr.0) }
    ensures depth { result.1 ≡ expr.1 }
{
    (ForTarget::Expr(expr.0), expr.1)
}

/// A variable that is assigned to.
pub fn target_var(name: Ident) -> (ForTarget, u32)
    ensures view { view_target result.0 ≡ trees.target_var (view_ident name) }
    ensures depth { result.1 ≡ 0 }
{
    (ForTarget::Var(name), 0)
}
