//! What stands round a statement.

ghost use Rattle.std.specs.Prelude.{◌≡◌};
ghost use Rattle.js_ast.specs.Views.{view_stmt};
ghost use Rattle.js_faults.specs.Scopes.{outermost, in_body, looped, switched, labelled_by, is_loop, has_label, has_loop};
ghost use Rattle.js_faults.specs.ScopeViews.{labels_of, scope_of};

use flow_text::Text;
use js_ast::{Stmt, StmtKind};

/// The labels of the statements round a place, the innermost first.
#[derive(Drop)]
pub(crate) enum Labels<'a> {
    None,
    Label {
        text: &'a Text,
        /// The statement behind the label is a loop.
        names_loop: bool,
        outer: &'a Labels<'a>,
    },
}

/// What stands round a statement in its function.
#[derive(Clone, Copy)]
pub(crate) struct Scope<'a> {
    pub(crate) in_function: bool,
    pub(crate) in_loop: bool,
    pub(crate) in_switch: bool,
    pub(crate) labels: &'a Labels<'a>,
}

impl<'a> Labels<'a> {
    /// Whether a statement has this label.
    pub(crate) fn has(&self, text: &[u16]) -> bool
        ensures { result ≡ has_label text.now (labels_of self.now) }
    {
        match self {
            Labels::None => false,
            Labels::Label {
                text: label,
                outer,
                ..
            } => label.units() == text || outer.has(text),
        }
    }

    /// Whether a loop has this label.
    pub(crate) fn has_loop(&self, text: &[u16]) -> bool
        ensures { result ≡ has_loop text.now (labels_of self.now) }
    {
        match self {
            Labels::None => false,
            Labels::Label {
                text: label,
                names_loop,
                outer,
            } => label.units() == text && *names_loop || outer.has_loop(text),
        }
    }
}

impl<'a> Scope<'a> {
    /// The body of a loop.
    pub(crate) fn looped(self) -> Scope<'a>
        ensures { scope_of result ≡ looped (scope_of self.entry) }
    {
        Scope {
            in_loop: true,
            ..self
        }
    }

    /// The clauses of a `switch`.
    pub(crate) fn switched(self) -> Scope<'a>
        ensures { scope_of result ≡ switched (scope_of self.entry) }
    {
        Scope {
            in_switch: true,
            ..self
        }
    }
}

/// Whether a statement is a loop, also behind labels of its own.
pub(crate) fn is_loop(statement: &Stmt) -> bool
    ensures { result ≡ is_loop (view_stmt statement.now) }
{
    match &*statement.kind {
        StmtKind::DoWhile { .. }
        | StmtKind::While { .. }
        | StmtKind::For { .. }
        | StmtKind::ForIn { .. } => true,
        StmtKind::Labelled { body, .. } => is_loop(body),
        _ => false,
    }
}
