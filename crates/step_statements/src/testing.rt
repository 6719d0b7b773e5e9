//! The tests of cases, in their order, and what is done where none is equal.

ghost use Rattle.std.specs.Prelude.{◌≡◌, length, IfOk};
ghost use Rattle.js_ast.specs.Nodes.{nodes_of};
ghost use Rattle.continuations.specs.Loads.{Adds};
ghost use Rattle.continuations.specs.Pending.{first_or_undefined};
ghost use Rattle.continuations.specs.Resuming.{Begins, BeginsBehind, Keeps};
ghost use Rattle.continuations.specs.Invariant.{running};
ghost use Rattle.step_statements.specs.Clauses.{by_default, chosen, testing};
ghost use Rattle.step_statements.specs.Fronts.{Fronts};

use crate::clauses::{default_clause, next_test};
use crate::falling::{fall, one_more};
use continuations::{Continuation, Control, Stack};
use flow_text::OutOfMemory;
use js_ast::{Clause, ClauseList};

/// The test of the first case from a clause on, or the statements from the default clause on, or nothing. The value of the `switch` lies loose.
pub(crate) fn test_from<'p, T: Copy>(
    stack: &mut Stack<'p, T>,
    all: &'p ClauseList,
    from: u32,
) -> Result<Control<'p>, OutOfMemory>
    requires loose { length stack.old.loose ≡ 1 }
    ensures goes_on { IfOk result (BeginsBehind (λ tables inputs set functions vs e. testing tables inputs set functions (nodes_of all.entry.now) from (first_or_undefined vs) e.env) stack.old stack.new) }
    ensures fronts { IfOk result (Fronts stack.old stack.new) }
    ensures adds { IfOk result (Adds 6 stack.old stack.new) }
{
    let Some(test) = next_test(all.items(), from)? else {
        stack.clear(1);
        let next = do_default(stack, all.items())?;
        return Ok(next);
    };
    stack.push(Continuation::Compared(all, test.number))?;
    Ok(Control::Expr(test.test))
}

/// The statements from the default clause on, or nothing.
pub(crate) fn do_default<'p, T: Copy>(
    stack: &mut Stack<'p, T>,
    clauses: &'p [Clause],
) -> Result<Control<'p>, OutOfMemory>
    requires loose { length stack.old.loose ≡ 0 }
    ensures goes_on { IfOk result (Begins (λ tables inputs set functions e. by_default tables inputs set functions clauses.entry.now e.env) stack.old stack.new) }
    ensures keeps { IfOk result (Keeps stack.old stack.new) }
    ensures still { IfOk result (λ move. running move ≡ 0) }
    ensures adds { IfOk result (Adds 6 stack.old stack.new) }
{
    let Some(left) = default_clause(clauses) else {
        return Ok(Control::Done);
    };
    let next = fall(stack, left, 0)?;
    Ok(next)
}

/// The statements from an equal case on, or the search goes on behind it. The value of the `switch` lies loose.
pub(crate) fn choose<'p, T: Copy>(
    stack: &mut Stack<'p, T>,
    all: &'p ClauseList,
    left: &'p [Clause],
    number: u32,
    equal: bool,
) -> Result<Control<'p>, OutOfMemory>
    requires loose { length stack.old.loose ≡ 1 }
    ensures goes_on { IfOk result (BeginsBehind (λ tables inputs set functions vs e. chosen tables inputs set functions (nodes_of all.entry.now) number left.entry.now equal (first_or_undefined vs) e.env) stack.old stack.new) }
    ensures fronts { IfOk result (Fronts stack.old stack.new) }
    ensures adds { IfOk result (Adds 6 stack.old stack.new) }
{
    if equal {
        stack.clear(1);
        let first = fall(stack, left, 0)?;
        return Ok(first);
    }
    let behind = one_more(number)?;
    let next = test_from(stack, all, behind)?;
    Ok(next)
}
