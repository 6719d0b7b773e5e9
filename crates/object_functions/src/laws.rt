//! The laws of the machines, as a function that does nothing.

ghost use Rattle.std.specs.Prelude.{◌≡◌, ℕ, List};
ghost use Rattle.native_protocol.specs.declared.request.Answer.{Answer};
ghost use Rattle.object_functions.specs.declared.defining.DefiningFunction.{DefiningFunction};
ghost use Rattle.object_functions.specs.declared.integrity.IntegrityFunction.{IntegrityFunction};
ghost use Rattle.object_functions.specs.declared.own_test.OwnTest.{OwnTest};
ghost use Rattle.object_functions.specs.declared.property.PropertyFunction.{PropertyFunction};
ghost use Rattle.object_functions.specs.declared.reflection.ReflectionFunction.{ReflectionFunction};
ghost use Rattle.object_functions.specs.declared.this.ThisFunction.{ThisFunction};
ghost use Rattle.object_functions.specs.AncestorMachine.{ancestor_begin, ancestor_asks, ancestor_after, ancestor_rest};
ghost use Rattle.object_functions.specs.DefiningMachine.{defining_call_begin, defining_call_asks, defining_call_after, defining_call_rest, defining_clause};
ghost use Rattle.object_functions.specs.IntegrityMachine.{integrity_begin, integrity_asks, integrity_after, integrity_rest, integrity_clause};
ghost use Rattle.object_functions.specs.ObjectMachine.{object_begin, object_asks, object_after, object_rest};
ghost use Rattle.object_functions.specs.Objects as objects;
ghost use Rattle.object_functions.specs.OwnTestMachine.{own_test_begin, own_test_asks, own_test_after, own_test_rest, own_test_clause};
ghost use Rattle.object_functions.specs.PropertyMachine.{property_begin, property_asks, property_after, property_rest, property_clause};
ghost use Rattle.object_functions.specs.Prototypes.{is_prototype_of};
ghost use Rattle.object_functions.specs.ReflectionMachine.{reflection_begin, reflection_asks, reflection_after, reflection_rest, reflection_clause};
ghost use Rattle.object_functions.specs.ThisMachine.{this_begin, this_asks, this_after, this_rest, this_clause};
ghost use Rattle.primitive_natives.specs.Machines.{IsMachine};

/// Each machine takes the steps that are still to take, whatever it is answered.
pub fn follows()
    ensures ancestor { IsMachine ancestor_asks ancestor_after ancestor_rest }
    ensures defining { IsMachine defining_call_asks defining_call_after defining_call_rest }
    ensures integrity { IsMachine integrity_asks integrity_after integrity_rest }
    ensures constructor { IsMachine object_asks object_after object_rest }
    ensures own_test { IsMachine own_test_asks own_test_after own_test_rest }
    ensures property { IsMachine property_asks property_after property_rest }
    ensures reflection { IsMachine reflection_asks reflection_after reflection_rest }
    ensures this { IsMachine this_asks this_after this_rest }
{}

/// Where each machine begins these are the steps of its built-in.
pub fn beginnings()
    ensures ancestor { (argc : ℕ) (answers : List Answer) → ancestor_rest (ancestor_begin argc) answers ≡ is_prototype_of argc answers }
    ensures defining { (f : DefiningFunction) (argc : ℕ) (answers : List Answer) → defining_call_rest (defining_call_begin f argc) answers ≡ defining_clause f argc answers }
    ensures integrity { (f : IntegrityFunction) (argc : ℕ) (answers : List Answer) → integrity_rest (integrity_begin f argc) answers ≡ integrity_clause f argc answers }
    ensures constructor { (argc : ℕ) (answers : List Answer) → object_rest (object_begin argc) answers ≡ objects.object argc answers }
    ensures own_test { (f : OwnTest) (argc : ℕ) (answers : List Answer) → own_test_rest (own_test_begin f argc) answers ≡ own_test_clause f argc answers }
    ensures property { (f : PropertyFunction) (argc : ℕ) (answers : List Answer) → property_rest (property_begin f argc) answers ≡ property_clause f argc answers }
    ensures reflection { (f : ReflectionFunction) (argc : ℕ) (answers : List Answer) → reflection_rest (reflection_begin f argc) answers ≡ reflection_clause f argc answers }
    ensures this { (f : ThisFunction) (argc : ℕ) (answers : List Answer) → this_rest (this_begin f argc) answers ≡ this_clause f argc answers }
{}
