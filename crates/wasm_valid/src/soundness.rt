//! Validation is sound: a run of an accepted module always has a meaning.

ghost use Rattle.w4_defs.specs.Outcome.{HostFunctions};
ghost use Rattle.w4_defs.specs.TypeSoundness.{AnswersByType, KeepsGlobalTypes, NeverStuck};

use wasm_tree::Host;

/// For all host functions that answer by their types: a run of an entry function of an accepted
/// module never lacks an operand, a local, a global, a label or a function, nor finds one of another type;
/// and the globals have their types at its end, at a trap and when the budget is spent.
pub fn runs_are_sound<H>()
    ensures never_stuck { (imports : HostFunctions H) → AnswersByType imports → NeverStuck imports }
    ensures globals { (imports : HostFunctions H) → AnswersByType imports → KeepsGlobalTypes imports }
{}

/// A run is sound with every implementation of `Host`.
pub fn hosted_runs_are_sound<H: Host>()
    ensures never_stuck { NeverStuck (record { weight = H.weight; effect = H.effect }) }
    ensures globals { KeepsGlobalTypes (record { weight = H.weight; effect = H.effect }) }
{}
