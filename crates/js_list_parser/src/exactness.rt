//! Each list of tokens is spelled by one tree at most, and the plain parser reads it exactly, or refuses it at exactly one
//! token.

ghost use Rattle.std.specs.Prelude.{Bool};
ghost use Rattle.js_list_parser.specs.Laws.{OneTree, ParsesExactly};
ghost use Rattle.js_list_parser.specs.Parsing.{list_at, longest_at, program_at};
ghost use Rattle.js_list_parser.specs.Refusals.{a_list, a_program, an_expression, FindsExactly, FoundOrRefused, OneFound, OneRefusal, RefusesExactly};

/// Two valid trees with one spelling are one.
pub fn one_tree()
    ensures { OneTree }
{}

/// The plain parser reads a program exactly where the tokens spell a valid one within the depth.
pub fn parses_exactly()
    ensures { ParsesExactly }
{}

/// The plain parser reads a program, a list of statements or an expression exactly where the tokens are one.
pub fn finds_exactly()
    ensures program { FindsExactly a_program program_at }
    ensures list { FindsExactly a_list list_at }
    ensures expression { (free : Bool) → FindsExactly (an_expression free) (longest_at free) }
{}

/// It refuses at exactly the first token with which the tokens begin no valid tree within the depth.
pub fn refuses_exactly()
    ensures program { RefusesExactly a_program program_at }
    ensures list { RefusesExactly a_list list_at }
    ensures expression { (free : Bool) → RefusesExactly (an_expression free) (longest_at free) }
{}

/// Tokens are one tree at most, which ends at one place.
pub fn one_found()
    ensures program { OneFound a_program }
    ensures list { OneFound a_list }
    ensures expression { (free : Bool) → OneFound (an_expression free) }
{}

/// Tokens are refused at one place at most, for one fault.
pub fn one_refusal()
    ensures program { OneRefusal a_program }
    ensures list { OneRefusal a_list }
    ensures expression { (free : Bool) → OneRefusal (an_expression free) }
{}

/// Tokens are a tree within the depth or are refused, and not both.
pub fn found_or_refused()
    ensures program { FoundOrRefused a_program }
    ensures list { FoundOrRefused a_list }
    ensures expression { (free : Bool) → FoundOrRefused (an_expression free) }
{}
