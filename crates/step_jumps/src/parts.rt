//! The parts of a `try` statement.

ghost use Rattle.std.specs.Prelude.{◌≡◌, Some, true, option_map};
ghost use Rattle.js_ast.specs.Views.{view_block, view_ident, view_stmt};
ghost use Rattle.continuations.specs.Shapes.{finishes};
ghost use Rattle.step_jumps.specs.Parts.{caught_by, handler_in, last_in, tried_in, is_try};

use continuations::Jump;
use js_ast::{Block, Ident, Stmt, StmtKind};

/// Whether a statement is a `try` statement.
pub fn is_try(s: &Stmt) -> bool
    ensures { result ≡ is_try (view_stmt s.now) }
{
    matches!(
        &*s.kind,
        StmtKind::TryCatch { .. } | StmtKind::TryFinally { .. } | StmtKind::TryBoth { .. }
    )
}

/// The block that is tried.
pub(crate) fn tried(s: &Stmt) -> &Block
    requires { is_try (view_stmt s.now) ≡ true }
    ensures { Some (view_block result.now) ≡ tried_in (view_stmt s.entry.now) }
{
    match &*s.kind {
        StmtKind::TryCatch { block, .. } => block,
        StmtKind::TryFinally { block, .. } => block,
        StmtKind::TryBoth { block, .. } => block,
        _ => unreachable!(),
    }
}

/// Whether something is done last.
pub(crate) fn finishes(s: &Stmt) -> bool
    ensures { result ≡ finishes (view_stmt s.now) }
{
    matches!(
        &*s.kind,
        StmtKind::TryFinally { .. } | StmtKind::TryBoth { .. }
    )
}

/// The handler, with the name of what it catches.
fn handler(s: &Stmt) -> Option<(&Ident, &Block)>
    ensures { option_map (λ h. (view_ident h.0.now, view_block h.1.now)) result ≡ handler_in (view_stmt s.entry.now) }
{
    match &*s.kind {
        StmtKind::TryCatch { param, handler, .. } => Some((param, handler)),
        StmtKind::TryBoth { param, handler, .. } => Some((param, handler)),
        _ => None,
    }
}

/// What is done last.
pub(crate) fn last(s: &Stmt) -> Option<&Block>
    ensures { option_map (λ b. view_block b.now) result ≡ last_in (view_stmt s.entry.now) }
{
    match &*s.kind {
        StmtKind::TryFinally { finalizer, .. } => Some(finalizer),
        StmtKind::TryBoth { finalizer, .. } => Some(finalizer),
        _ => None,
    }
}

/// The handler, where a jump is caught by it: only what is thrown is.
pub(crate) fn caught(jump: Jump, s: &Stmt) -> Option<(&Ident, &Block)>
    ensures { option_map (λ h. (view_ident h.0.now, view_block h.1.now)) result ≡ caught_by jump (view_stmt s.entry.now) }
{
    match jump {
        Jump::Throws => handler(s),
        _ => None,
    }
}
