//! What a frame does to the channels before its first tick.

ghost use Rattle.std.specs.Prelude.{◌≡◌, ◌<◌, All, fold, length, map, slice_index_or, slice_set, zip, None};
ghost use Rattle.w4_defs.specs.Sound.{silenced};
ghost use Rattle.w4_defs.specs.Tones.{IsTone, channels_after_tone};

use w4_defs::{Sound, Tone};
use w4_tone::Channels;

/// A tone of length 0.
const REST: Tone = Tone {
    channel: 0,
    first: 0,
    second: 0,
    attack: 0,
    decay: 0,
    sustain: 0,
    release: 0,
    peak: 0,
    level: 0,
    duty: 0,
    pan: 0,
    note: false,
};

/// Plays the tones in order.
pub fn play_all(channels: &mut Channels, tones: &[Tone])
    requires { All IsTone tones.now }
    ensures { channels.new ≡ fold channels_after_tone channels.old tones.now }
{
    for tone in tones {
        channels.play(*tone);
    }
}

/// Silences each channel that a record has silent; the others are unchanged.
pub fn silence_as_recorded(channels: &mut Channels, sounds: &[Option<Sound>; 4])
    ensures { channels.new ≡ map (λ pair. silenced pair.0 pair.1) (zip channels.old sounds.now) }
{
    silence_if_recorded(channels, 0, sounds[0]);
    silence_if_recorded(channels, 1, sounds[1]);
    silence_if_recorded(channels, 2, sounds[2]);
    silence_if_recorded(channels, 3, sounds[3]);
}

/// Silences a channel that its record has silent; otherwise it is unchanged.
fn silence_if_recorded(channels: &mut Channels, channel: u8, sound: Option<Sound>)
    requires { channel < 4 }
    ensures channels { channels.new ≡
        slice_set channels.old channel (silenced (slice_index_or channels.old channel None) sound) }
    ensures four { length channels.old ≡ 4 }
{
    channels.are_within();
    if sound.is_none() {
        channels.play(Tone { channel, ..REST });
    }
}
