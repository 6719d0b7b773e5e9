//! Laws of the definitions.

ghost use Rattle.std.specs.Prelude.{◌≡◌, ◌≤◌, ◌⊎◌, ℕ, Bool, List};
ghost use Rattle.js_ast.specs.declared.token.Token.{Token};
ghost use Rattle.js_ast.specs.Trees.{Expr, Statements};
ghost use Rattle.js_parse_expr.specs.declared.fault.ParseFault.{ParseFault};
ghost use Rattle.js_parse_expr.specs.Parts.{IsExpression, IsNoExpression, AreStatements, AreNoStatements};

/// Tokens from a place on are one longest expression, which ends at one place, or they have one fault.
pub fn one_expression()
    ensures one_tree { (tokens : List Token) (from deep : ℕ) (no_in : Bool) (d e : Expr) (a b : ℕ) → IsExpression tokens from deep no_in d a → IsExpression tokens from deep no_in e b → (d ≡ e) × (a ≡ b) }
    ensures one_fault { (tokens : List Token) (from deep : ℕ) (no_in : Bool) (end : ℕ) (f g : ParseFault) → IsNoExpression tokens from deep no_in end f → IsNoExpression tokens from deep no_in end g → f ≡ g }
    ensures one_at_least { (tokens : List Token) (from deep : ℕ) (no_in : Bool) (end : ℕ) → deep ≤ 200 → ((e : Expr) × (to : ℕ) × IsExpression tokens from deep no_in e to) ⊎ ((f : ParseFault) × IsNoExpression tokens from deep no_in end f) }
    ensures never_both { (tokens : List Token) (from deep : ℕ) (no_in : Bool) (end : ℕ) (e : Expr) (to : ℕ) (f : ParseFault) → IsExpression tokens from deep no_in e to → IsNoExpression tokens from deep no_in end f → ⊥ }
{}

/// Tokens from a place on are one list of statements, which ends at one place, or they have one fault.
pub fn one_list()
    ensures one_tree { (tokens : List Token) (from deep : ℕ) (p q : Statements) (a b : ℕ) → AreStatements tokens from deep p a → AreStatements tokens from deep q b → (p ≡ q) × (a ≡ b) }
    ensures one_fault { (tokens : List Token) (from deep end : ℕ) (f g : ParseFault) → AreNoStatements tokens from deep end f → AreNoStatements tokens from deep end g → f ≡ g }
    ensures one_at_least { (tokens : List Token) (from deep end : ℕ) → deep ≤ 200 → ((p : Statements) × (to : ℕ) × AreStatements tokens from deep p to) ⊎ ((f : ParseFault) × AreNoStatements tokens from deep end f) }
    ensures never_both { (tokens : List Token) (from deep end : ℕ) (p : Statements) (to : ℕ) (f : ParseFault) → AreStatements tokens from deep p to → AreNoStatements tokens from deep end f → ⊥ }
{}
