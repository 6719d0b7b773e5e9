//! The laws of the conversions, as a function that does nothing.

ghost use Rattle.std.specs.Prelude.{◌≡◌, List, ◌∷◌};
ghost use Rattle.native_protocol.specs.declared.hint.Hint.{Hint};
ghost use Rattle.native_protocol.specs.declared.request.Answer.{Answer};
ghost use Rattle.native_protocol.specs.declared.request.Answer.TheVariants as answer;
ghost use Rattle.native_protocol.specs.Pieces.{conversion_asks, conversion_after, conversion_rest, text_asks, text_after, text_rest, number_asks, number_after, number_rest, whole_begin, whole_asks, whole_after};
ghost use Rattle.native_protocol.specs.Running.{IsPiece, behind};
ghost use Rattle.native_protocol.specs.Steps.{conversion};

/// Each machine takes the steps of its conversion, whatever it is answered.
pub fn pieces()
    ensures primitive { IsPiece conversion_asks conversion_after conversion_rest }
    ensures text { IsPiece text_asks text_after text_rest }
    ensures number { IsPiece number_asks number_after number_rest }
    ensures object { (hint : Hint) (answers : List Answer) → whole_asks (behind whole_after (whole_begin hint) (answer.Begin ∷ answers)) ≡ conversion hint answers }
{}
