//! All tokens of a source.

ghost use Rattle.std.specs.Prelude.{◌≡◌, ◌≤◌, ◌⊎◌, List, length, IfOk, IfErr, MatchResult};
ghost use Rattle.std.specs.List.{All};
ghost use Rattle.js_ast.specs.declared.token.Token.{Token};
ghost use Rattle.js_scan.specs.declared.fault.ScanFault.{ScanFault};
ghost use Rattle.js_scan.specs.declared.fault.ScanFault.TheVariants.{OutOfMemory};
ghost use Rattle.js_scan.specs.Tokens.{IsTokens, IsFault, IsFaultOf, fault_at};

use crate::element::{Found, next_element};
use crate::fault::ScanFault;
use crate::spellings::Spellings;
use crate::state::State;
use flow_text::Text;
use js_ast::Token;
use std::alloc::Global;

/// The tokens of the source.
pub fn scan(alloc: Global, source: &Text) -> Result<Vec<Token>, ScanFault>
    ensures tokens { IfOk result (λ tokens. IsTokens source.now tokens.items) }
    ensures begins { IfOk result (λ tokens. All (λ t. t.from ≤ length source.now) tokens.items) }
    ensures fault { IfErr result (λ f. IsFaultOf source.now f) }
    ensures place { IfErr result (λ f. fault_at f ≤ length source.now) }
    ensures only_tokens { (ts : List Token) → IsTokens source.now ts → MatchResult result (λ tokens. tokens.items ≡ ts) (λ f. f ≡ OutOfMemory) }
    ensures only_fault { (f : ScanFault) → IsFault source.now f → MatchResult result (λ tokens. ⊥) (λ found. (found ≡ f) ⊎ (found ≡ OutOfMemory)) }
{
    tokens_of(alloc, source.units())
}

fn tokens_of(alloc: Global, units: &[u16]) -> Result<Vec<Token>, ScanFault>
    ensures tokens { IfOk result (λ tokens. IsTokens units.now tokens.items) }
    ensures fault { IfErr result (λ f. IsFaultOf units.now f) }
{
    let mut tokens = Vec::new(alloc);
    let mut spellings = Spellings::new(alloc);
    let mut state = State::start();
    'elements: while state.at < units.len() {
        match next_element(alloc, state, &units[state.at..])? {
            Found::Separator {
                length,
                breaks_line,
            } => state = state.past(length, breaks_line),
            Found::Lexeme { token } => {
                state = state.after(&token);
                let token = spellings.shared(token)?;
                tokens.push(token)?;
            }
        }
    }
    Ok(tokens)
}
