//! One channel: a voice begins, grows older, ends, and sounds.

ghost use Rattle.std.specs.Prelude.{◌≡◌, ◌<◌, ◌≤◌, option_map};
ghost use Rattle.w4_defs.specs.Tones.{aged, IsPlaying, IsTone, IsVoice, older, sound_of, started, tone_frames};

use crate::envelope::{frames_of, ticks_of, tone_level};
use crate::frequency::tone_frequency;
use w4_defs::{Sound, Tone, Voice};

/// The voice that a tone begins; none where the tone's length is 0.
pub fn begun(tone: Tone) -> Option<Voice>
    requires { IsTone tone }
    ensures voice { result ≡ started tone }
    ensures playing { IsPlaying result }
{
    if frames_of(tone) == 0 {
        None
    } else {
        Some(Voice { tone, age: 0 })
    }
}

/// What a channel plays one frame later.
pub fn one_frame_on(channel: Option<Voice>) -> Option<Voice>
    requires { IsPlaying channel }
    ensures voice { result ≡ aged channel }
    ensures playing { IsPlaying result }
{
    match channel {
        None => None,
        Some(voice) => grown(voice),
    }
}

/// A voice one frame later; none where it has reached its tone's length.
fn grown(voice: Voice) -> Option<Voice>
    requires { IsVoice voice }
    ensures voice { result ≡ older voice }
    ensures playing { IsPlaying result }
{
    let frames = frames_of(voice.tone);
    let age = voice.age + 1;
    if age < frames {
        Some(Voice {
            tone: voice.tone,
            age,
        })
    } else {
        None
    }
}

/// What a channel sounds at a tick of its frame.
pub fn channel_sound(channel: Option<Voice>, tick: u32) -> Option<Sound>
    requires playing { IsPlaying channel }
    requires tick { tick < 735 }
    ensures { result ≡ option_map (sound_of tick) channel }
{
    match channel {
        None => None,
        Some(voice) => Some(voice_sound(voice, tick)),
    }
}

/// A fact for callers, which costs nothing: a tone has at most four times 255 frames.
fn frames_are_few(tone: Tone)
    ensures { tone_frames tone ≤ 1020 }
{
    let _frames = frames_of(tone);
}

fn voice_sound(voice: Voice, tick: u32) -> Sound
    requires voice { IsVoice voice }
    requires tick { tick < 735 }
    ensures { result ≡ sound_of tick voice }
{
    frames_are_few(voice.tone);
    let at = ticks_of(voice.age) + tick;
    Sound {
        level: tone_level(voice.tone, at),
        frequency: tone_frequency(voice.tone, at),
    }
}
