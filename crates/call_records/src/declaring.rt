//! The function that a statement declares.

ghost use Rattle.std.specs.Prelude.{◌≡◌, [], ◌∷◌, IfSome, IsNone};
ghost use Rattle.js_ast.specs.Views.{view_function, view_stmt};
ghost use Rattle.call_records.specs.Declarations.{declared_by};

use js_ast::{Function, Stmt, StmtKind};

/// The function that a statement declares itself, if it is a declaration (ECMA-262 13).
#[tactic(auto, using(js_ast::specs::declared::trees::ExprKind::TheViews::the_lemmas))]
pub fn declared(s: &Stmt) -> Option<&Function>
    ensures is { IfSome result (λ f. declared_by (view_stmt s.now) ≡ view_function f.now ∷ []) }
    ensures none { IsNone result → declared_by (view_stmt s.now) ≡ [] }
{
    match &*s.kind {
        StmtKind::Function(f) => Some(f),
        StmtKind::Empty
        | StmtKind::Expr { .. }
        | StmtKind::Continue { .. }
        | StmtKind::Break { .. }
        | StmtKind::Return { .. }
        | StmtKind::Throw { .. }
        | StmtKind::Debugger(_)
        | StmtKind::Block(_)
        | StmtKind::Var { .. }
        | StmtKind::If { .. }
        | StmtKind::DoWhile { .. }
        | StmtKind::While { .. }
        | StmtKind::Labelled { .. }
        | StmtKind::For { .. }
        | StmtKind::ForIn { .. }
        | StmtKind::Switch { .. }
        | StmtKind::TryCatch { .. }
        | StmtKind::TryFinally { .. }
        | StmtKind::TryBoth { .. } => None,
    }
}
