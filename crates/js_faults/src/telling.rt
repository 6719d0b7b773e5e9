//! What a walk over a tree tells of the nodes on their own.

ghost use Rattle.std.specs.Prelude.{◌≡◌};
ghost use Rattle.js_ast.specs.Views.{view_expr, view_function, view_stmt};
ghost use Rattle.js_faults.specs.ScopeViews.{scope_of};
ghost use Rattle.js_faults.specs.Faults.{Own, Order, earlier_by, first_by, by_kind};
ghost use Rattle.js_faults.specs.Directives.{directives, by_place};
ghost use Rattle.js_faults.specs.Early.{early};

use crate::directives::{BadDirective, first_of_two, without_form};
use crate::fault::{EarlyError, earlier};
use crate::own::{of_expr, of_function, of_statement};
use crate::scope::Scope;
use js_ast::{Expr, Function, Stmt};

/// What a walk tells.
pub(crate) trait Told: Copy {
    /// What is told of a node, without its parts.
    ghost own: { Own Self };

    /// What comes first.
    ghost order: { Order Self };

    /// The first of two.
    fn earlier(f: Option<Self>, g: Option<Self>) -> Option<Self>
        ensures { result ≡ earlier_by order f g };

    /// An expression, without its parts.
    fn of_expr(e: &Expr) -> Option<Self>
        ensures { result ≡ first_by order (own.expr (view_expr e.now)) };

    /// A function, without its body.
    fn of_function(f: &Function) -> Option<Self>
        ensures { result ≡ first_by order (own.function (view_function f.now)) };

    /// A statement, without its parts.
    fn of_statement(scope: Scope<'_>, s: &Stmt) -> Option<Self>
        ensures { result ≡ first_by order (own.statement (scope_of scope.entry) (view_stmt s.now)) };
}

impl Told for BadDirective {
    ghost own = { directives };

    ghost order = { by_place };

    fn earlier(f: Option<BadDirective>, g: Option<BadDirective>) -> Option<BadDirective>
        ensures { result ≡ earlier_by by_place f g }
    {
        first_of_two(f, g)
    }

    fn of_expr(_: &Expr) -> Option<BadDirective> {
        None
    }

    fn of_function(_: &Function) -> Option<BadDirective> {
        None
    }

    fn of_statement(_: Scope<'_>, s: &Stmt) -> Option<BadDirective> {
        without_form(s)
    }
}

impl Told for EarlyError {
    ghost own = { early };

    ghost order = { by_kind };

    fn earlier(f: Option<EarlyError>, g: Option<EarlyError>) -> Option<EarlyError>
        ensures { result ≡ earlier_by by_kind f g }
    {
        earlier(f, g)
    }

    fn of_expr(e: &Expr) -> Option<EarlyError> {
        of_expr(e)
    }

    fn of_function(f: &Function) -> Option<EarlyError> {
        of_function(f)
    }

    fn of_statement(scope: Scope<'_>, s: &Stmt) -> Option<EarlyError> {
        of_statement(scope, s)
    }
}
