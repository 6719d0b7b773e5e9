//! Functions as they are read.

ghost use Rattle.std.specs.Prelude.{◌≡◌};
ghost use Rattle.js_ast.specs.Nodes.{nodes_of};
ghost use Rattle.js_ast.specs.Trees.{function_of};
ghost use Rattle.js_ast.specs.Views.{view_name, view_idents, view_function, view_stmts};

use js_ast::{Function, Ident, IdentList, StmtList};

/// A function. Its number and its strictness are found later.
#[tactic(auto, using(js_ast::proofs::ViewLaws::held))]
pub(crate) fn unmarked(
    at: usize,
    name: Option<Ident>,
    params: IdentList,
    body: StmtList,
) -> Function
    ensures { view_function result ≡ function_of at (view_name name) (view_idents (nodes_of params)) (view_stmts (nodes_of body)) }
{
    Function {
        at,
        number: 0,
        strict: false,
        name,
        params,
        body,
    }
}
