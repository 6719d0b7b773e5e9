//! Early errors of nodes on their own.

ghost use Rattle.std.specs.Prelude.{◌≡◌};
ghost use Rattle.js_ast.specs.Views.{view_expr, view_function, view_stmt, view_declarations, view_first, view_target};
ghost use Rattle.js_faults.specs.ScopeViews.{scope_of};
ghost use Rattle.js_faults.specs.Early.{of_expr, of_function, of_statement, of_unary, of_declarations, of_first, of_target};
ghost use Rattle.js_faults.specs.Faults.{first_of};
ghost use Rattle.js_faults.specs.Directives.{directive_of};

use crate::directives::directive_of;
use crate::fault::{EarlyError, EarlyErrorKind, earlier, fault_if};
use crate::jumps::{directive_may_jump, label_of, may_break, may_continue};
use crate::names::{of_assigned, of_bound, of_bound_maybe, of_deleted, of_name, of_parameters};
use crate::properties;
use crate::scope::Scope;
use js_ast::{
    Declarations, Expr, ExprKind, ForFirst, ForTarget, Function, Stmt, StmtKind, UnaryOperator,
};

/// An expression, without its parts.
#[tactic(auto, using(crate::proofs::Told::first_of_append, js_ast::proofs::ViewLaws::held_properties, js_ast::specs::declared::trees::ExprKind::TheViews::the_lemmas), unfolding(crate::specs::Early::of_expr))]
pub(crate) fn of_expr(e: &Expr) -> Option<EarlyError>
    ensures { result ≡ first_of (of_expr (view_expr e.now)) }
{
    match &*e.kind {
        ExprKind::Name(text) => of_name(e.at, text),
        ExprKind::Object { properties, .. } => properties::of_properties(properties),
        ExprKind::Postfix { operand, .. } => of_assigned(operand),
        ExprKind::Unary { operator, operand } => of_unary(*operator, operand),
        ExprKind::Assign { target, .. } => of_assigned(target),
        _ => None,
    }
}

fn of_unary(operator: UnaryOperator, operand: &Expr) -> Option<EarlyError>
    ensures { result ≡ first_of (of_unary operator (view_expr operand.now)) }
{
    match operator {
        UnaryOperator::Delete => of_deleted(operand),
        UnaryOperator::Increment | UnaryOperator::Decrement => of_assigned(operand),
        _ => None,
    }
}

/// A function, without its body.
#[tactic(auto, using(crate::proofs::Told::first_of_append, js_ast::proofs::ViewLaws::parts_function), unfolding(crate::specs::Early::of_function))]
pub(crate) fn of_function(f: &Function) -> Option<EarlyError>
    ensures { result ≡ first_of (of_function (view_function f.now)) }
{
    earlier(of_bound_maybe(&f.name), of_parameters(&f.params))
}

/// A statement, without its parts.
#[tactic(auto, using(crate::proofs::Told::first_of_append), unfolding(crate::specs::Early::of_statement))]
pub(crate) fn of_statement(scope: Scope<'_>, s: &Stmt) -> Option<EarlyError>
    ensures { result ≡ first_of (of_statement (scope_of scope.entry) (view_stmt s.now)) }
{
    match &*s.kind {
        StmtKind::Var { declarations, .. } => of_declarations(declarations),
        StmtKind::For { first, .. } => of_first(first),
        StmtKind::ForIn { target, .. } => of_target(target),
        StmtKind::Continue { label, .. } => {
            fault_if(
                !may_continue(label_of(label), scope),
                s.at,
                EarlyErrorKind::Jump,
            )
        }
        StmtKind::Break { label, .. } => fault_if(
            !may_break(label_of(label), scope),
            s.at,
            EarlyErrorKind::Jump,
        ),
        StmtKind::Return { .. } => fault_if(!scope.in_function, s.at, EarlyErrorKind::Jump),
        StmtKind::Labelled { label, .. } => earlier(
            fault_if(
                scope.labels.has(label.units()),
                s.at,
                EarlyErrorKind::RepeatedLabel,
            ),
            of_name(s.at, label),
        ),
        StmtKind::TryCatch { param, .. } | StmtKind::TryBoth { param, .. } => of_bound(param),
        StmtKind::Expr { .. } => fault_if(
            !directive_may_jump(directive_of(s), scope),
            s.at,
            EarlyErrorKind::Jump,
        ),
        _ => None,
    }
}

fn of_declarations(declarations: &Declarations) -> Option<EarlyError>
    ensures { result ≡ first_of (of_declarations (view_declarations declarations.now)) }
{
    let mut first = of_bound(&declarations.first.name);
    'others: for declaration in declarations.others.items() {
        first = earlier(first, of_bound(&declaration.name));
    }
    first
}

fn of_first(first: &ForFirst) -> Option<EarlyError>
    ensures { result ≡ first_of (of_first (view_first first.now)) }
{
    match first {
        ForFirst::Expr(_) => None,
        ForFirst::Var(declarations) => of_declarations(declarations),
    }
}

fn of_target(target: &ForTarget) -> Option<EarlyError>
    ensures { result ≡ first_of (of_target (view_target target.now)) }
{
    match target {
        ForTarget::Expr(e) => of_assigned(e),
        ForTarget::Var(name) => of_bound(name),
    }
}
