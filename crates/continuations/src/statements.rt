//! Statements and loops: what is evaluated next (ECMA-262 12).

ghost use Rattle.std.specs.Prelude.{◌≡◌, length, IfOk};
ghost use Rattle.js_ast.specs.Views.{view_stmts};
ghost use Rattle.es_meaning.specs.Evaluation.{statements};
ghost use Rattle.flow_meaning.specs.Planned.{planned, asking};
ghost use Rattle.continuations.specs.Loads.{Adds};
ghost use Rattle.continuations.specs.Resuming.{Begins, Keeps};

use crate::continuation::{Continuation, Control};
use crate::stack::Stack;
use flow_text::OutOfMemory;
use js_ast::Stmt;

/// Statements in their order.
#[inline(always)]
#[tactic(auto, using(crate::proofs::Behind::behind_more, crate::proofs::Behind::setting_more, crate::proofs::Steps::statements_none, crate::proofs::Steps::statements_more))]
pub fn begin_statements<'p, T: Copy>(
    stack: &mut Stack<'p, T>,
    list: &'p [Stmt],
) -> Result<Control<'p>, OutOfMemory>
    requires { length stack.old.loose ≡ 0 }
    ensures goes_on { IfOk result (Begins (λ tables inputs set functions e. statements (planned tables inputs set functions) (asking tables inputs set functions) (view_stmts list.entry.now) e.env) stack.old stack.new) }
    ensures keeps { IfOk result (Keeps stack.old stack.new) }
    ensures adds { IfOk result (Adds 6 stack.old stack.new) }
{
    match list.split_first() {
        None => Ok(Control::Done),
        Some((first, rest)) => {
            stack.push(Continuation::Statements(rest))?;
            Ok(Control::Stmt(first))
        }
    }
}
