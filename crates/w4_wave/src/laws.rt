//! A law of frames that are rendered one after another, as the contract of a function that does nothing.

ghost use Rattle.w4_wave.specs.Calls.{CallsGiveSamples};

/// The bytes of any calls of `Wave::render` on a new wave, one after another, are the samples of their
/// records.
pub fn calls_give_samples()
    ensures { CallsGiveSamples }
{}
