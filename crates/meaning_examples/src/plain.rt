//! Rows of small scripts without labels, as functions that do nothing.

ghost use Rattle.meaning_examples.specs.PlainAccessors.{GetterRows, SetterRows};
ghost use Rattle.meaning_examples.specs.PlainArrays.{ArrayRows, DefinedArrayRows, NameRows as OwnNameRows, PrimitiveRows, NanRows};
ghost use Rattle.meaning_examples.specs.PlainBuiltIns.{NameRows, UseRows, ArgumentRows, RaiseRows, LeftRows};
ghost use Rattle.meaning_examples.specs.PlainConversions.{SumRows, OperatorRows, KeyRows};
ghost use Rattle.meaning_examples.specs.PlainFunctions.{DeclarationRows, CallRows, ConstructionRows, InstanceRows, RefusalRows};
ghost use Rattle.meaning_examples.specs.PlainJumps.{TryRows, LoopRows, SwitchRows, DirectiveRows};
ghost use Rattle.meaning_examples.specs.PlainObjects.{MemberRows, EnumerationRows, BaseRows, VariableRows, OriginRows};
ghost use Rattle.meaning_examples.specs.PlainRequests.{OwnRows, DefinitionRows, AccessorRows, MakingRows, EnteringRows, PropertyRows, GlobalRows, HolderRows};
ghost use Rattle.meaning_examples.specs.PlainScripts.{TurnRows, PrintedRows, ThrownRows, ShownRows};

/// Small scripts print what was worked out by hand.
pub fn scripts()
    ensures turns { TurnRows }
    ensures printed { PrintedRows }
    ensures thrown { ThrownRows }
    ensures shown { ShownRows }
{}

/// Small scripts with objects do so.
pub fn objects()
    ensures members { MemberRows }
    ensures enumerations { EnumerationRows }
    ensures bases { BaseRows }
    ensures variables { VariableRows }
    ensures origins { OriginRows }
{}

/// And those with arrays, properties of primitive values and NaN.
pub fn arrays()
    ensures arrays { ArrayRows }
    ensures definitions { DefinedArrayRows }
    ensures names { OwnNameRows }
    ensures primitives { PrimitiveRows }
    ensures nan { NanRows }
{}

/// And those with functions.
pub fn functions()
    ensures declarations { DeclarationRows }
    ensures calls { CallRows }
    ensures constructions { ConstructionRows }
    ensures instances { InstanceRows }
    ensures refusals { RefusalRows }
{}

/// And those with exceptions and jumps.
pub fn jumps()
    ensures tries { TryRows }
    ensures loops { LoopRows }
    ensures switches { SwitchRows }
    ensures directives { DirectiveRows }
{}

/// And those with getters and setters.
pub fn accessors()
    ensures getters { GetterRows }
    ensures setters { SetterRows }
{}

/// And those in which objects are converted to primitive values.
pub fn conversions()
    ensures sums { SumRows }
    ensures operators { OperatorRows }
    ensures keys { KeyRows }
{}

/// And those that use the functions of channels as values.
pub fn built_ins()
    ensures names { NameRows }
    ensures uses { UseRows }
    ensures arguments { ArgumentRows }
    ensures raises { RaiseRows }
    ensures left { LeftRows }
{}

/// And those that ask for one request at a time.
pub fn requests()
    ensures own { OwnRows }
    ensures definitions { DefinitionRows }
    ensures accessors { AccessorRows }
    ensures making { MakingRows }
    ensures entering { EnteringRows }
    ensures properties { PropertyRows }
    ensures globals { GlobalRows }
    ensures holders { HolderRows }
{}
