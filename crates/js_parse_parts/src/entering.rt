//! What stands behind the first token of a node.

ghost use Rattle.std.specs.Prelude.{◌≡◌, ◌<◌, ◌≤◌, List, Err, IfOk, IfErr};
ghost use Rattle.js_ast.specs.declared.token.Token.{Token};
ghost use Rattle.js_ast.specs.Grammar.{place_of};
ghost use Rattle.js_list_parser.specs.Reading as reading;
ghost use Rattle.js_parse_parts.specs.Answers.{Fails};

use crate::reading::{ReadFault, room};
use crate::words::{behind, place_of};
use js_ast::Token;

/// The place of a node's first token and the tokens behind that, where there is room for a node round parts that are so deep.
pub fn enter(limit: u32, parts: u32, tokens: &[Token]) -> Result<(usize, &[Token]), ReadFault<'_>>
    ensures fits { IfOk result (λ x. parts < limit) }
    ensures place { IfOk result (λ x. x.0 ≡ place_of tokens.now) }
    ensures rest { IfOk result (λ x. x.1.now ≡ reading.behind tokens.now) }
    ensures refused { IfErr result (λ e. (limit ≤ parts) × Fails {Y = List Token} e (Err (reading.refused reading.nesting tokens.now))) }
{
    room(limit, parts, tokens)?;
    Ok((place_of(tokens), behind(tokens)))
}
