//! The four channels: pulse 1, pulse 2, triangle and noise.

ghost use Rattle.std.specs.Prelude.{◌≡◌, ◌<◌, All, length, None, option_map, slice_index_or};
ghost use Rattle.w4_defs.specs.Tones.{IsPlaying, IsTone, all_aged, channels_after_tone, silent, sound_of, sounds_at};

use crate::voice::{begun, channel_sound, one_frame_on};
use std::marker::Model;
use w4_defs::{Sound, Tone, Voice};

/// The four channels, each silent or playing a tone. A contract sees the list of their voices.
#[derive(Clone, Copy, PartialEq, Eq, Debug)]
pub struct Channels {
    voices: [Option<Voice>; 4],
}

impl Model for Channels {
    ghost use Rattle.std.specs.Prelude.{◌≡◌, All, length, List, Option};
    ghost use Rattle.w4_defs.specs.declared.console.Voice.{Voice};
    ghost use Rattle.w4_defs.specs.Tones.{IsPlaying};

    ghost Value = { List (Option Voice) };

    ghost view = { λ channels. channels.voices };

    ghost inverse = { λ voices. record { voices = voices } };

    ghost invariant = { λ channels. (length channels.voices ≡ 4) × All IsPlaying channels.voices };
}

impl Channels {
    /// Four silent channels.
    pub fn new() -> Channels
        ensures { result ≡ silent }
    {
        Channels { voices: [None; 4] }
    }

    /// Begins a tone on its channel, in place of what the channel plays. A tone of length 0 makes the
    /// channel silent. `decode` gives tones in the ranges asked for.
    pub fn play(&mut self, tone: Tone)
        requires { IsTone tone }
        ensures { self.new ≡ channels_after_tone self.old tone }
    {
        self.voices[usize::from(tone.channel)] = begun(tone);
    }

    /// One frame passes: each voice is a frame older, and a channel whose tone is over becomes silent.
    pub fn age(&mut self)
        ensures { self.new ≡ all_aged self.old }
    {
        let [first, second, third, fourth] = self.voices;
        self.voices = [
            one_frame_on(first),
            one_frame_on(second),
            one_frame_on(third),
            one_frame_on(fourth),
        ];
    }

    /// What a channel sounds at a tick of the present frame, of which there are 735. None if and only if
    /// the channel is silent.
    pub fn sound(&self, channel: usize, tick: u32) -> Option<Sound>
        requires channel { channel < 4 }
        requires tick { tick < 735 }
        ensures { result ≡ option_map (sound_of tick) (slice_index_or self.now channel None) }
    {
        channel_sound(self.voices[channel], tick)
    }

    /// A fact for callers, which costs nothing: there are four channels, and what they play is within its
    /// ranges.
    pub fn are_within(&self)
        ensures four { length self.now ≡ 4 }
        ensures playing { All IsPlaying self.now }
    {
        let _voices = &self.voices;
    }

    /// The tone that a channel plays. None if and only if the channel is silent. The other clauses say what
    /// is true of all channels.
    pub fn tone(&self, channel: usize) -> Option<Tone>
        requires { channel < 4 }
        ensures tone { result ≡ option_map (λ voice. voice.tone) (slice_index_or self.now channel None) }
        ensures four { length self.now ≡ 4 }
        ensures playing { All IsPlaying self.now }
    {
        self.voices[channel].map(|voice| voice.tone)
    }

    /// What all four channels sound at a tick of the present frame.
    pub fn sounds(&self, tick: u32) -> [Option<Sound>; 4]
        requires { tick < 735 }
        ensures { result ≡ sounds_at tick self.now }
    {
        let [first, second, third, fourth] = self.voices;
        [
            channel_sound(first, tick),
            channel_sound(second, tick),
            channel_sound(third, tick),
            channel_sound(fourth, tick),
        ]
    }
}
