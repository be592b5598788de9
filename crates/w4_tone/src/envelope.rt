//! A tone's level at a tick: up to the peak, down to the sustain level, constant, down to 0.

ghost use Rattle.std.specs.Prelude.{◌≡◌, ◌<◌, ◌≤◌};
ghost use Rattle.w4_defs.specs.Tones.{interpolate, level_at, ticks, tone_frames};

use w4_defs::Tone;

/// The ticks of a number of frames, 735 each.
pub fn ticks_of(frames: u16) -> u32
    ensures { result ≡ ticks frames }
{
    735 * u32::from(frames)
}

/// A tone's length in frames.
pub fn frames_of(tone: Tone) -> u16
    ensures sum { result ≡ tone_frames tone }
    ensures bound { result ≤ 1020 }
{
    u16::from(tone.attack)
        + u16::from(tone.decay)
        + u16::from(tone.sustain)
        + u16::from(tone.release)
}

/// The level `at` ticks into a tone.
#[tactic(auto, unfolding(w4_defs::specs::Tones::level_at))]
pub fn tone_level(tone: Tone, at: u32) -> u8
    requires { at < ticks (tone_frames tone) }
    ensures { result ≡ level_at tone at }
{
    let attack = ticks_of(tone.attack.into());
    let decay = ticks_of(tone.decay.into());
    let sustain = ticks_of(tone.sustain.into());
    let release = ticks_of(tone.release.into());
    let fall = attack + decay + sustain;
    if at < attack {
        return interpolated(0, tone.peak, at, attack);
    }
    if at < attack + decay {
        return interpolated(tone.peak, tone.level, at - attack, decay);
    }
    if at < fall {
        return tone.level;
    }
    interpolated(tone.level, 0, at - fall, release)
}

/// The level after `at` of `len` ticks on the way between two levels.
#[tactic(auto, using(w4_defs::proofs::ToneLaws::mix_below))]
fn interpolated(from: u8, to: u8, at: u32, len: u32) -> u8
    requires within { at < len }
    requires bound { len ≤ 187425 }
    ensures { result ≡ interpolate from to at len }
{
    ((u32::from(from) * (len - at) + u32::from(to) * at) / len) as u8
}
