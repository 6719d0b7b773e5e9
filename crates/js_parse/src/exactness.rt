//! Laws of the definitions.

ghost use Rattle.std.specs.Prelude.{◌≡◌, ◌⊎◌, ℕ, List};
ghost use Rattle.js_ast.specs.declared.token.Token.{Token};
ghost use Rattle.js_ast.specs.Trees.{Statements};
ghost use Rattle.js_parse_expr.specs.declared.fault.ParseFault.{ParseFault};
ghost use Rattle.js_parse.specs.Programs.{IsProgram, IsFault};

/// Tokens are one program, or they have one fault.
pub fn one_program()
    ensures one_tree { (tokens : List Token) (p q : Statements) → IsProgram tokens p → IsProgram tokens q → p ≡ q }
    ensures one_fault { (tokens : List Token) (end : ℕ) (f g : ParseFault) → IsFault tokens end f → IsFault tokens end g → f ≡ g }
    ensures one_at_least { (tokens : List Token) (end : ℕ) → ((p : Statements) × IsProgram tokens p) ⊎ ((f : ParseFault) × IsFault tokens end f) }
    ensures never_both { (tokens : List Token) (end : ℕ) (p : Statements) (f : ParseFault) → IsProgram tokens p → IsFault tokens end f → ⊥ }
{}
