//! What the definitions of trees, integers and runs promise, as contracts of functions that do nothing.

ghost use Rattle.w4_defs.specs.Bytes.{PutIsFound, PutKeepsLength, PutKeepsOthers};
ghost use Rattle.w4_defs.specs.Flattening.{FlatteningDetermines, FlatteningIsReadBack};
ghost use Rattle.w4_defs.specs.InstructionSoundness.{PlainInstructionsAreSound};
ghost use Rattle.w4_defs.specs.Integers.{BinaryInRange, ExtendedInRange, UnaryInRange};
ghost use Rattle.w4_defs.specs.RunLaws.{BudgetOnlyFalls, EvalTakesSteps, FaultsChangeNothing, ForbiddenCallLeavesStore, GlobalsKeepTypes, LargeEntryTraps, RefusedCallsLeaveStore, ResumedTakesSteps, RunIsResumed, SpentImportsChangeNothing};
ghost use Rattle.w4_defs.specs.WorkedBodies as bodies;
ghost use Rattle.w4_defs.specs.WorkedCalls as calls;
ghost use Rattle.w4_defs.specs.WorkedNumbers as numbers;
ghost use Rattle.w4_defs.specs.WorkedRuns as runs;

/// A flattening determines its tree.
pub fn flattening_laws()
    ensures read_back { FlatteningIsReadBack }
    ensures determines { FlatteningDetermines }
{}

/// A number that is put into the page changes just its bytes, and is found there.
pub fn number_laws()
    ensures length { PutKeepsLength }
    ensures others { PutKeepsOthers }
    ensures found { PutIsFound }
{}

/// Each integer operation gives a number of its width.
pub fn integer_ranges()
    ensures one_operand { UnaryInRange }
    ensures two_operands { BinaryInRange }
    ensures extended { ExtendedInRange }
{}

/// Worked cases of the integer operations.
pub fn integer_cases()
    ensures wrap { numbers.SumsWrap }
    ensures cut { numbers.QuotientsAreCut }
    ensures missing { numbers.QuotientsAreMissing }
    ensures shifts { numbers.ShiftsTakeTheWidth }
    ensures digits { numbers.DigitsAreCounted }
    ensures signs { numbers.SignsAreCompared }
    ensures extensions { numbers.SignsAreExtended }
    ensures select { numbers.SelectTakesByCondition }
{}

/// Worked cases of the budget.
pub fn budget_cases()
    ensures nops { runs.NopsTakeUnits }
    ensures trap { runs.TrapTakesUnit }
    ensures endless { runs.EndlessLoopIsSpent }
    ensures turns { runs.LoopIsChargedOnce }
    ensures import { runs.ImportTakesWeight }
    ensures fill { runs.FillTakesFurtherUnits }
    ensures fill_outside { runs.FillPastTheEndTraps }
{}

/// Worked bodies of small carts.
pub fn body_cases()
    ensures last_byte { bodies.LastByteIsLoaded }
    ensures extended { bodies.ByteIsExtended }
    ensures palette { bodies.PaletteIsCopied }
    ensures copy_outside { bodies.CopyPastTheEndTraps }
{}

/// Worked cases of the page.
pub fn page_cases()
    ensures outside { runs.PastTheEndTraps }
    ensures little_endian { runs.StoresAreLittleEndian }
    ensures copy { runs.CopyTakesOldBytes }
    ensures one_page { runs.MemoryIsOnePage }
{}

/// Worked cases of calls and of the stack rule.
pub fn call_cases()
    ensures depth { runs.DepthIsBounded }
    ensures indirect { runs.IndirectCallsAreJudged }
    ensures reserve { runs.ReserveCounts }
    ensures arguments { calls.ArgumentsAreInOrder }
    ensures global { calls.GlobalIsSet }
    ensures kept { calls.BranchKeepsValue }
    ensures import { calls.ImportIsCalledIndirectly }
    ensures bounds { calls.StackRuleHasTwoBounds }
{}

/// Laws of all runs, for any host.
pub fn run_laws<H>()
    ensures budget { BudgetOnlyFalls H }
    ensures steps { EvalTakesSteps H }
    ensures resumed { RunIsResumed H }
    ensures resumed_steps { ResumedTakesSteps H }
    ensures large_entry { LargeEntryTraps H }
    ensures faults { FaultsChangeNothing H }
    ensures imports { SpentImportsChangeNothing H }
    ensures forbidden { ForbiddenCallLeavesStore H }
    ensures refused { RefusedCallsLeaveStore H }
    ensures globals { GlobalsKeepTypes H }
{}

/// A memory or numeric instruction finds the operands that its type takes, and leaves those that it gives.
pub fn plain_soundness()
    ensures { PlainInstructionsAreSound }
{}
