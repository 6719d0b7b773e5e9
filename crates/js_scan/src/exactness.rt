//! Laws of the definitions.

ghost use Rattle.std.specs.Prelude.{◌≡◌, ◌⊎◌, ◌||◌, ℕ, List};
ghost use Rattle.js_number.specs.Literal.{is_blank};
ghost use Rattle.js_ast.specs.declared.token.Token.{Token};
ghost use Rattle.js_scan.specs.declared.fault.ScanFault.{ScanFault};
ghost use Rattle.js_scan.specs.Tokens.{IsTokens, IsFault};
ghost use Rattle.js_scan.specs.Units.{is_white_space, is_line_terminator};

/// A source has one list of tokens, or it has one fault.
pub fn one_reading()
    ensures one_list { (source : List ℕ) (ts us : List Token) → IsTokens source ts → IsTokens source us → ts ≡ us }
    ensures one_fault { (source : List ℕ) (f g : ScanFault) → IsFault source f → IsFault source g → f ≡ g }
    ensures one_at_least { (source : List ℕ) → ((ts : List Token) × IsTokens source ts) ⊎ ((f : ScanFault) × IsFault source f) }
    ensures never_both { (source : List ℕ) (ts : List Token) (f : ScanFault) → IsTokens source ts → IsFault source f → ⊥ }
{}

/// What a scanner passes over as white space and line terminators is what stands round a numeric text.
pub fn one_white_space()
    ensures { (u : ℕ) → (is_white_space u || is_line_terminator u) ≡ is_blank u }
{}
