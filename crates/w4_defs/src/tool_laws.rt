//! What the definitions of made carts, netplay, memory search, batches, sound and units promise, as contracts
//! of functions that do nothing.

ghost use Rattle.w4_defs.specs.Batch.{BatchCases};
ghost use Rattle.w4_defs.specs.Generator.{GeneratorCases};
ghost use Rattle.w4_defs.specs.MadeLaws.{DrawsAreSmall, MadeInputsAreCounted, MadeModulesAreAccepted};
ghost use Rattle.w4_defs.specs.MadeSummary.{SummaryCase};
ghost use Rattle.w4_defs.specs.NetLog.{BadNetOrderCases, NetOrderCases};
ghost use Rattle.w4_defs.specs.RamQuery.{AskCases, BadAskCases, KeepingCases};
ghost use Rattle.w4_defs.specs.Rollback.{
  InputsGrow,
  NothingPredictsZero,
  PredictionIsLatest,
  RollbackCases,
  SamePacketsSameInputs,
  SamePacketsSameKnown,
};
ghost use Rattle.w4_defs.specs.Search.{RemainingIsNarrowed, RemainingRises, SearchCases};
ghost use Rattle.w4_defs.specs.Sound.{
  FramesAreCounted,
  HeaderCase,
  HeaderIsCounted,
  SampleCases,
  SamplesAreBounded,
  SamplesAreCounted,
  SilenceIsZeros,
};
ghost use Rattle.w4_defs.specs.UnitsLaws.{FramesHaveUnits, ResetsHaveUnits};

/// Worked cases, by computation.
pub fn tool_cases()
    ensures generator { GeneratorCases }
    ensures summary { SummaryCase }
    ensures header { HeaderCase }
    ensures samples { SampleCases }
    ensures search { SearchCases }
    ensures rollback { RollbackCases }
    ensures batch { BatchCases }
{}

/// What a search has left are, in rising order, the addresses at which each test holds.
pub fn search_laws()
    ensures left { RemainingIsNarrowed }
    ensures rising { RemainingRises }
{}

/// A prediction is the latest byte that is known, and the same accepted packets give the same inputs.
pub fn rollback_laws()
    ensures latest { PredictionIsLatest }
    ensures nothing { NothingPredictsZero }
    ensures known { SamePacketsSameKnown }
    ensures inputs { SamePacketsSameInputs }
    ensures grow { InputsGrow }
{}

/// Silent channels give zeros, and all samples fit their 16 bits.
pub fn sound_laws()
    ensures silence { SilenceIsZeros }
    ensures bounded { SamplesAreBounded }
    ensures frames { FramesAreCounted }
    ensures counted { SamplesAreCounted }
    ensures header { HeaderIsCounted }
{}

/// Every made cart passes the profile and is valid; each draw has 16 bits; and there are 600 inputs.
pub fn generator_laws()
    ensures accepted { MadeModulesAreAccepted }
    ensures draws { DrawsAreSmall }
    ensures inputs { MadeInputsAreCounted }
{}

/// A line of each kind, and ways in which a line is bad.
pub fn order_cases()
    ensures log { NetOrderCases }
    ensures bad_log { BadNetOrderCases }
    ensures query { AskCases }
    ensures bad_query { BadAskCases }
    ensures keeping { KeepingCases }
{}

/// If a reset or a frame is there, so are its units, and they say how its calls ended.
pub fn units_laws()
    ensures resets { ResetsHaveUnits }
    ensures frames { FramesHaveUnits }
{}
