//! Why tokens are no tree.

ghost use Rattle.std.specs.Prelude.{◌≡◌};
ghost use Rattle.js_parse_expr.specs.declared.fault.ParseFault.TheVariants.{OutOfMemory as NoMemory};
ghost use Rattle.js_parse_expr.specs.Parsed.{place_or, told};
ghost use Rattle.js_parse_parts.specs.Answers.{fault_of};

use flow_text::OutOfMemory;
use js_ast::Token;
use js_parse_parts::Fault;

/// Why tokens are no program, no list of statements or no expression, and the place.
#[derive(Clone, Copy, Debug, PartialEq, Eq)]
pub enum ParseFault {
    /// No tree has this token behind those before it, or none ends here.
    Syntax { at: usize },
    /// A `with` stands where a statement may stand.
    With { at: usize },
    /// Each tree through this token is too deep.
    Nesting { at: usize },
    /// An upgrade directive hasn't the form of one.
    Directive { at: usize },
    OutOfMemory,
}

impl From<OutOfMemory> for ParseFault {
    ghost from_gives = { λ _ e. e ≡ NoMemory };

    fn from(_: OutOfMemory) -> ParseFault {
        ParseFault::OutOfMemory
    }
}

/// The fault for which a token is refused, where `rest` begins, or at the end of the source.
pub fn refused(fault: Fault, rest: &[Token], end: usize) -> ParseFault
    ensures { result ≡ told (fault_of fault) (place_or end rest.now) }
{
    told(fault, place_or(end, rest))
}

fn told(fault: Fault, at: usize) -> ParseFault
    ensures { result ≡ told (fault_of fault) at }
{
    match fault {
        Fault::Syntax => ParseFault::Syntax { at },
        Fault::With => ParseFault::With { at },
        Fault::Nesting => ParseFault::Nesting { at },
    }
}

/// The place of the first token, or of the end.
fn place_or(end: usize, tokens: &[Token]) -> usize
    ensures { result ≡ place_or end tokens.now }
{
    match tokens {
        [first, ..] => first.from,
        [] => end,
    }
}
