//! A tone's frequency at a tick: constant, or along a straight line from the first to the second.

ghost use Rattle.std.specs.Prelude.{◌≡◌, ◌*◌, ◌/◌, ◌<◌, ◌≤◌};
ghost use Rattle.w4_defs.specs.Tones.{frequency_at, frequency_slide, ticks, tone_frames};

use crate::envelope::{frames_of, ticks_of};
use w4_defs::Tone;

/// The frequency in hertz `at` ticks into a tone.
#[tactic(auto, unfolding(w4_defs::specs::Tones::frequency_at))]
pub fn tone_frequency(tone: Tone, at: u32) -> u16
    requires { at < ticks (tone_frames tone) }
    ensures { result ≡ frequency_at tone at }
{
    if tone.second == 0 || tone.note {
        return tone.first;
    }
    frequency_slide(tone.first, tone.second, at, ticks_of(frames_of(tone)))
}

/// The frequency after `at` of `len` ticks on the way from the first to the second, cut toward the first.
fn frequency_slide(first: u16, second: u16, at: u32, len: u32) -> u16
    requires { at < len }
    ensures { result ≡ frequency_slide first second at len }
{
    if first <= second {
        first + share(second - first, at, len)
    } else {
        first - share(first - second, at, len)
    }
}

/// The part of a gap that `at` of `len` ticks make.
fn share(gap: u16, at: u32, len: u32) -> u16
    requires { at < len }
    ensures part { result ≡ gap * at / len }
    ensures bound { result ≤ gap }
{
    (u64::from(gap) * u64::from(at) / u64::from(len)) as u16
}
