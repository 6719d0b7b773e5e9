//! The laws of the machines, as a function that does nothing.

ghost use Rattle.std.specs.Prelude.{◌≡◌, ℕ, Bool, List};
ghost use Rattle.native_protocol.specs.declared.request.Answer.{Answer};
ghost use Rattle.primitive_natives.specs.declared.boolean.BooleanFunction.{BooleanFunction};
ghost use Rattle.primitive_natives.specs.declared.ending.Ending.{Ending};
ghost use Rattle.primitive_natives.specs.declared.math.MathFunction.{MathFunction};
ghost use Rattle.primitive_natives.specs.declared.number.NumberFunction.{NumberFunction};
ghost use Rattle.primitive_natives.specs.BooleanMachine.{boolean_begin, boolean_asks, boolean_after, boolean_rest, boolean_clause};
ghost use Rattle.primitive_natives.specs.Machines.{IsMachine, IsEnding, until_end};
ghost use Rattle.primitive_natives.specs.MathMachine.{math_begin, math_asks, math_after, math_rest, math_clause};
ghost use Rattle.primitive_natives.specs.NumberMachine.{number_call_begin, number_call_asks, number_call_after, number_call_rest, number_clause};

/// Each machine takes the steps of its built-in, whatever it is answered.
pub fn follows()
    ensures endings { IsEnding }
    ensures boolean { IsMachine boolean_asks boolean_after boolean_rest }
    ensures boolean_begins { (f : BooleanFunction) (argc : ℕ) (construct : Bool) (answers : List Answer) → until_end boolean_rest (boolean_begin f argc construct) answers ≡ boolean_clause f argc construct answers }
    ensures number { IsMachine number_call_asks number_call_after number_call_rest }
    ensures number_begins { (f : NumberFunction) (argc : ℕ) (construct : Bool) (answers : List Answer) → until_end number_call_rest (number_call_begin f argc construct) answers ≡ number_clause f argc construct answers }
    ensures math { IsMachine math_asks math_after math_rest }
    ensures math_begins { (f : MathFunction) (argc : ℕ) (answers : List Answer) → until_end math_rest (math_begin f argc) answers ≡ math_clause f argc answers }
{}
