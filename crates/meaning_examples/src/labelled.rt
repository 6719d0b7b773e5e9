//! Rows of small scripts under the flow rules, as functions that do nothing.

ghost use Rattle.meaning_examples.specs.LabelledAccessors.{GetterRows, SetterRows};
ghost use Rattle.meaning_examples.specs.LabelledArrays.{ArrayRows, DefinedArrayRows};
ghost use Rattle.meaning_examples.specs.LabelledBuiltIns.{PrintRows, CalleeRows, LookRows};
ghost use Rattle.meaning_examples.specs.LabelledConversions.{FrameRows, MethodRows};
ghost use Rattle.meaning_examples.specs.LabelledFunctions.{CallRows, HiddenCallRows, ReturnRows, ConstructionRows, InstanceRows};
ghost use Rattle.meaning_examples.specs.LabelledJumps.{ThrowRows, WaitingRows, HandlerRows, LoopRows, SwitchRows, EngineRows};
ghost use Rattle.meaning_examples.specs.LabelledObjects.{ChangeRows, StructureRows, AccessRows, WalkRows};
ghost use Rattle.meaning_examples.specs.LabelledRequests.{OwnRows, DefinitionRows, EffectRows, MakingRows, EnteringRows, FurtherRows};
ghost use Rattle.meaning_examples.specs.LabelledScripts.{UpgradeRows, ContextRows, BranchRows, WrittenRows};

/// Small scripts print, or are stopped, as was worked out by hand.
pub fn scripts()
    ensures upgrades { UpgradeRows }
    ensures contexts { ContextRows }
    ensures branches { BranchRows }
    ensures written { WrittenRows }
{}

/// Small scripts with objects do so.
pub fn objects()
    ensures changes { ChangeRows }
    ensures structures { StructureRows }
    ensures accesses { AccessRows }
    ensures walks { WalkRows }
{}

/// And those with arrays and properties of primitive values.
pub fn arrays()
    ensures arrays { ArrayRows }
    ensures definitions { DefinedArrayRows }
{}

/// And those with functions.
pub fn functions()
    ensures calls { CallRows }
    ensures hidden_calls { HiddenCallRows }
    ensures returns { ReturnRows }
    ensures constructions { ConstructionRows }
    ensures instances { InstanceRows }
{}

/// And those with exceptions and jumps.
pub fn jumps()
    ensures throws { ThrowRows }
    ensures waiting { WaitingRows }
    ensures handlers { HandlerRows }
    ensures loops { LoopRows }
    ensures switches { SwitchRows }
    ensures engine_errors { EngineRows }
{}

/// And those with getters and setters.
pub fn accessors()
    ensures getters { GetterRows }
    ensures setters { SetterRows }
{}

/// And those in which objects are converted to primitive values.
pub fn conversions()
    ensures frames { FrameRows }
    ensures methods { MethodRows }
{}

/// And those that call the functions of channels.
pub fn built_ins()
    ensures prints { PrintRows }
    ensures callees { CalleeRows }
    ensures looks { LookRows }
{}

/// And those that ask for one request at a time.
pub fn requests()
    ensures own { OwnRows }
    ensures definitions { DefinitionRows }
    ensures effects { EffectRows }
    ensures making { MakingRows }
    ensures entering { EnteringRows }
    ensures further { FurtherRows }
{}
