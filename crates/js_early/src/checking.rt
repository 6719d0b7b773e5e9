//! Early errors of programs.

ghost use Rattle.std.specs.Prelude.{◌≡◌, ◌≤◌, ℕ, List, Some, None, IfErr};
ghost use Rattle.std.specs.List.{All};
ghost use Rattle.std.specs.Result.{MatchResult};
ghost use Rattle.js_ast.specs.declared.token.Token.{Token};
ghost use Rattle.js_ast.specs.Grammar.{SpellsProgram};
ghost use Rattle.js_ast.specs.Views.{view_program};
ghost use Rattle.js_early.specs.EarlyErrors.{early_error, fault_of};

use crate::fault::EarlyFault;
use js_ast::Program;
use js_faults::{EarlyError, EarlyErrorKind, early_error};

/// Refuses a program that has an early error, with the one that stands furthest to the left; of several at one place
/// with the first in the order of the kinds. Where the tokens of the program begin in a source, so does the error. It
/// takes no memory.
pub fn early(program: &Program) -> Result<(), EarlyFault>
    ensures error { MatchResult result (λ _. early_error (view_program program.now) ≡ None) (λ f. early_error (view_program program.now) ≡ Some (fault_of f)) }
    ensures place { (tokens : List Token) (end : ℕ) → SpellsProgram (view_program program.now) tokens → All (λ t. t.from ≤ end) tokens → IfErr result (λ f. (fault_of f).at ≤ end) }
{
    match early_error(&program.body) {
        Some(fault) => Err(early_fault(fault)),
        None => Ok(()),
    }
}

/// The same as an early error.
fn early_fault(fault: EarlyError) -> EarlyFault
    ensures { fault_of result ≡ fault }
{
    let at = fault.at;
    match fault.kind {
        EarlyErrorKind::EvalArguments => EarlyFault::EvalArguments { at },
        EarlyErrorKind::RepeatedParameter => EarlyFault::RepeatedParameter { at },
        EarlyErrorKind::RepeatedProperty => EarlyFault::RepeatedProperty { at },
        EarlyErrorKind::DeleteName => EarlyFault::DeleteName { at },
        EarlyErrorKind::Jump => EarlyFault::Jump { at },
        EarlyErrorKind::RepeatedLabel => EarlyFault::RepeatedLabel { at },
        EarlyErrorKind::StrictWord => EarlyFault::StrictWord { at },
    }
}
