//! The clauses of a `switch`.

ghost use Rattle.std.specs.Prelude.{◌≡◌, ℕ, Bool, List, Ok, drop, IfNone, IfOk, IfSome};
ghost use Rattle.origin_labels.specs.Label.{union};
ghost use Rattle.flow_policy.specs.Policies.{Tables};
ghost use Rattle.flow_policy.specs.Inputs.{Given};
ghost use Rattle.js_ast.specs.Functions.{FunctionCode};
ghost use Rattle.js_ast.specs.Views.{view_clauses};
ghost use Rattle.js_ast.specs.declared.operators.BinaryOperator.TheVariants as operator;
ghost use Rattle.js_number.specs.declared.primitive.Primitive.TheVariants as prims;
ghost use Rattle.es_meaning.specs.Environments.{Env};
ghost use Rattle.es_meaning.specs.Operators.{binary_of};
ghost use Rattle.es_meaning.specs.BuiltIns.{BuiltIns};
ghost use Rattle.flow_meaning.specs.Scopes.{State, Val, raised_in};
ghost use Rattle.continuations.specs.Pending.{tests_of};
ghost use Rattle.step_statements.specs.Clauses.{by_default, chosen, falling, found_default, found_falls, found_test, testing};

use crate::falling::one_more;
use flow_text::OutOfMemory;
use js_ast::{Clause, Expr, Stmt};

/// A statement of the first of these clauses, and its number there.
#[derive(Clone, Copy)]
pub(crate) struct Found<'p> {
    pub(crate) clauses: &'p [Clause],
    pub(crate) number: u32,
    pub(crate) statement: &'p Stmt,
}

/// The statement that is done first: that of the first clause with a number, or else the first of the clauses behind it.
pub(crate) fn next_statement<'p>(clauses: &'p [Clause], number: u32) -> Option<Found<'p>>
    ensures { (tables : Tables) (inputs : Given) (set : BuiltIns) (functions : List FunctionCode) (e : Env ℕ) (s : State) → found_falls tables inputs set functions result e s ≡ falling tables inputs set functions number clauses.entry.now e s }
{
    let mut left = clauses;
    let mut number = number;
    while let Some((clause, others)) = left.split_first() {
        if let Some(statement) = clause.body.items().get(number as usize) {
            return Some(Found {
                clauses: left,
                number,
                statement,
            });
        }
        left = others;
        number = 0;
    }
    None
}

/// The test of the clause with this number.
#[derive(Clone, Copy)]
pub(crate) struct Test<'p> {
    pub(crate) number: u32,
    pub(crate) test: &'p Expr,
}

/// The first case from a clause on.
pub(crate) fn next_test<'p>(
    clauses: &'p [Clause],
    from: u32,
) -> Result<Option<Test<'p>>, OutOfMemory>
    ensures { IfOk result (λ found. (tables : Tables) (inputs : Given) (set : BuiltIns) (functions : List FunctionCode) (v : Val) (e : Env ℕ) (s : State) → found_test tables inputs set functions clauses.entry.now found v e s ≡ testing tables inputs set functions clauses.entry.now from v e s) }
{
    let mut number = from;
    while let Some(clause) = clauses.get(number as usize) {
        if let Some(test) = &clause.test {
            return Ok(Some(Test { number, test }));
        }
        number = one_more(number)?;
    }
    Ok(None)
}

/// The default clause, and those behind it.
pub(crate) fn default_clause<'p>(clauses: &'p [Clause]) -> Option<&'p [Clause]>
    ensures { (tables : Tables) (inputs : Given) (set : BuiltIns) (functions : List FunctionCode) (e : Env ℕ) (s : State) → found_default tables inputs set functions result e s ≡ by_default tables inputs set functions clauses.entry.now e s }
{
    let mut left = clauses;
    while let Some((clause, others)) = left.split_first() {
        if clause.test.is_none() {
            return Some(left);
        }
        left = others;
    }
    None
}

/// The clauses from a case on. None is there where the number is that of the default clause, or of no clause.
pub(crate) fn case_from<'p>(clauses: &'p [Clause], number: u32) -> Option<&'p [Clause]>
    ensures found { IfSome result (λ left. (tables : Tables) (inputs : Given) (set : BuiltIns) (functions : List FunctionCode) (v u : Val) (equal : Bool) (e : Env ℕ) (s : State) → binary_of operator.StrictEqual v.value u.value ≡ Ok (prims.Bool equal) → chosen tables inputs set functions clauses.entry.now number left.now equal v e (raised_in (union v.label u.label) s) ≡ tests_of tables inputs set functions v (view_clauses clauses.entry.now) (view_clauses (drop number clauses.entry.now)) e u s) }
    ensures none { IfNone result ((tables : Tables) (inputs : Given) (set : BuiltIns) (functions : List FunctionCode) (v u : Val) (e : Env ℕ) (s : State) → testing tables inputs set functions clauses.entry.now number v e s ≡ tests_of tables inputs set functions v (view_clauses clauses.entry.now) (view_clauses (drop number clauses.entry.now)) e u s) }
{
    let Some(clause) = clauses.get(number as usize) else {
        return None;
    };
    if clause.test.is_none() {
        return None;
    }
    Some(&clauses[number as usize..])
}
