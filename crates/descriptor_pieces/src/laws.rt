//! The laws of the pieces, as a function that does nothing.

ghost use Rattle.std.specs.Prelude.{◌≡◌, ℕ, Bool, List};
ghost use Rattle.native_protocol.specs.declared.registers.Reg.{Reg};
ghost use Rattle.native_protocol.specs.declared.request.Answer.{Answer};
ghost use Rattle.native_protocol.specs.Running.{IsPiece};
ghost use Rattle.native_protocol.specs.Steps.{Steps};
ghost use Rattle.descriptor_pieces.specs.declared.property.Description.{Description};
ghost use Rattle.descriptor_pieces.specs.declared.property.Integrity.{Integrity};
ghost use Rattle.descriptor_pieces.specs.declared.property.PropertyRegisters.{PropertyRegisters};
ghost use Rattle.descriptor_pieces.specs.Defining.{define_properties};
ghost use Rattle.descriptor_pieces.specs.DefiningPieces.{defining_begin, defining_asks, defining_after, defining_rest};
ghost use Rattle.descriptor_pieces.specs.Descriptors.{to_descriptor, from_descriptor};
ghost use Rattle.descriptor_pieces.specs.DescriptorPieces.{descriptor_begin, descriptor_asks, descriptor_after, descriptor_rest};
ghost use Rattle.descriptor_pieces.specs.Fixing.{set_integrity, test_integrity};
ghost use Rattle.descriptor_pieces.specs.FixingPieces.{fixing_begin, fixing_asks, fixing_after, fixing_rest, testing_begin, testing_asks, testing_after, testing_rest};
ghost use Rattle.descriptor_pieces.specs.TellingPieces.{telling_begin, telling_asks, telling_after, telling_rest};

/// Each machine takes the steps of its piece from where it stands, whatever it is answered.
pub fn pieces()
    ensures descriptor { IsPiece descriptor_asks descriptor_after descriptor_rest }
    ensures telling { IsPiece telling_asks telling_after telling_rest }
    ensures fixing { IsPiece fixing_asks fixing_after fixing_rest }
    ensures testing { IsPiece testing_asks testing_after testing_rest }
    ensures defining { IsPiece defining_asks defining_after defining_rest }
{}

/// What is still to do where each machine begins is its whole piece.
pub fn beginnings()
    ensures descriptor { (object : Reg) (r : PropertyRegisters) (next : Description → Steps) (answers : List Answer) → descriptor_rest (descriptor_begin object r) next answers ≡ to_descriptor object r next answers }
    ensures telling { (own : PropertyRegisters) (to : Reg) (next : Reg → Steps) (answers : List Answer) → telling_rest (telling_begin own to) next answers ≡ from_descriptor own to next answers }
    ensures fixing { (i : Integrity) (object list item : Reg) (own : PropertyRegisters) (next : Steps) (answers : List Answer) → fixing_rest (fixing_begin i object list item own) (λ u. next) answers ≡ set_integrity i object list item own next answers }
    ensures testing { (i : Integrity) (object list item : Reg) (own : PropertyRegisters) (next : Bool → Steps) (answers : List Answer) → testing_rest (testing_begin i object list item own) next answers ≡ test_integrity i object list item own next answers }
    ensures defining { (object properties list item at : Reg) (first : ℕ) (next : Steps) (answers : List Answer) → defining_rest (defining_begin object properties list item at first) (λ u. next) answers ≡ define_properties object properties list item at first next answers }
{}
