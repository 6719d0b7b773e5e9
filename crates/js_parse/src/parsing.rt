//! Programs from tokens.

ghost use Rattle.std.specs.Prelude.{◌≡◌, ◌≤◌, IfOk, IfErr, ◌⊎◌};
ghost use Rattle.std.specs.List.{All};
ghost use Rattle.std.specs.Result.{MatchResult};
ghost use Rattle.js_ast.specs.Trees.{Statements};
ghost use Rattle.js_ast.specs.Nodes.{nodes_of};
ghost use Rattle.js_ast.specs.Views.{view_program, view_stmts};
ghost use Rattle.js_parse_expr.specs.declared.fault.ParseFault.TheVariants.{OutOfMemory};
ghost use Rattle.js_parse_expr.specs.declared.fault.ParseFault.{ParseFault};
ghost use Rattle.js_list_parser.specs.Refusals.{a_program};
ghost use Rattle.js_ast.specs.IsMarked.{IsMarked};
ghost use Rattle.js_parse_expr.specs.Parsed.{IsReadFault, fault_at};
ghost use Rattle.js_parse.specs.Programs.{IsTree, IsProgram, IsFault};

use js_ast::{Program, StmtList, Token};
use js_faults::bad_directive;
use js_functions::marked_program;
use js_parse_cycle::program;
use js_parse_expr::{ParseFault, refused};
use js_parse_parts::ReadFault;
use std::alloc::Global;

/// The depth of a program is below this.
const DEPTHS: u32 = 201;

/// The program that the tokens of a source spell; `end` is the place behind the source's last unit.
pub fn parse(alloc: Global, tokens: &[Token], end: usize) -> Result<Program, ParseFault>
    ensures program { IfOk result (λ p. IsProgram tokens.now (view_program p)) }
    ensures marks { IfOk result IsMarked }
    ensures fault { IfErr result (λ f. (f ≡ OutOfMemory) ⊎ IsFault tokens.now end f) }
    ensures place { All (λ t. t.from ≤ end) tokens.now → IfErr result (λ f. fault_at f ≤ end) }
    ensures only_program { (p : Statements) → IsProgram tokens.now p → MatchResult result (λ found. view_program found ≡ p) (λ f. f ≡ OutOfMemory) }
    ensures only_fault { (f : ParseFault) → IsFault tokens.now end f → MatchResult result (λ p. ⊥) (λ found. (found ≡ f) ⊎ (found ≡ OutOfMemory)) }
{
    read(alloc, tokens, end)
}

/// The program of the tokens, or their fault.
fn read(alloc: Global, tokens: &[Token], end: usize) -> Result<Program, ParseFault>
    ensures program { IfOk result (λ p. IsProgram tokens.now (view_program p)) }
    ensures marks { IfOk result IsMarked }
    ensures fault { IfErr result (λ f. (f ≡ OutOfMemory) ⊎ IsFault tokens.now end f) }
{
    let body = tree(alloc, tokens, end)?;
    if let Some(directive) = bad_directive(&body) {
        return Err(ParseFault::Directive { at: directive.at });
    }
    Ok(marked_program(body)?)
}

/// The statements that the tokens spell, whatever their directives are.
fn tree(alloc: Global, tokens: &[Token], end: usize) -> Result<StmtList, ParseFault>
    ensures tree { IfOk result (λ list. IsTree tokens.now (view_stmts (nodes_of list))) }
    ensures fault { IfErr result (λ f. (f ≡ OutOfMemory) ⊎ IsReadFault a_program 201 tokens.now end f) }
{
    match program(alloc, DEPTHS, tokens) {
        Ok(body) => Ok(body),
        Err(ReadFault::Refused(fault, rest)) => Err(refused(fault, rest, end)),
        Err(ReadFault::OutOfMemory) => Err(ParseFault::OutOfMemory),
    }
}
