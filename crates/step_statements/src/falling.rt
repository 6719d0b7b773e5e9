//! The statements of clauses, one behind the other.

ghost use Rattle.std.specs.Prelude.{◌≡◌, ◌+◌, length, IfOk};
ghost use Rattle.continuations.specs.Loads.{Adds};
ghost use Rattle.continuations.specs.Resuming.{Begins, Keeps};
ghost use Rattle.continuations.specs.Invariant.{running};
ghost use Rattle.step_statements.specs.Clauses.{falling};

use crate::clauses::next_statement;
use continuations::{Continuation, Control, Stack};
use flow_text::OutOfMemory;
use js_ast::Clause;

/// The statements of the first clause from a number on, and then those of the other clauses.
pub(crate) fn fall<'p, T: Copy>(
    stack: &mut Stack<'p, T>,
    clauses: &'p [Clause],
    number: u32,
) -> Result<Control<'p>, OutOfMemory>
    requires loose { length stack.old.loose ≡ 0 }
    ensures goes_on { IfOk result (Begins (λ tables inputs set functions e. falling tables inputs set functions number clauses.entry.now e.env) stack.old stack.new) }
    ensures keeps { IfOk result (Keeps stack.old stack.new) }
    ensures still { IfOk result (λ move. running move ≡ 0) }
    ensures adds { IfOk result (Adds 6 stack.old stack.new) }
{
    let Some(found) = next_statement(clauses, number) else {
        return Ok(Control::Done);
    };
    let behind = one_more(found.number)?;
    stack.push(Continuation::Falls(found.clauses, behind))?;
    Ok(Control::Stmt(found.statement))
}

/// The next number.
pub(crate) fn one_more(number: u32) -> Result<u32, OutOfMemory>
    ensures { IfOk result (λ next. next ≡ number + 1) }
{
    number.checked_add(1).ok_or(OutOfMemory)
}
