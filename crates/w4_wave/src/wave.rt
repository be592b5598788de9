//! The wave: what goes on from frame to frame, and how a frame is rendered.

ghost use Rattle.std.specs.Prelude.{◌≡◌, ◌<◌, IfSome, option_map, pos, replicate, slice_index};
ghost use Rattle.w4_defs.specs.Sound.{IsWave, after_frame, after_ticks, first_wave, frame_samples, heard_voice, rendered, with_record};
ghost use Rattle.w4_defs.specs.Tones.{IsTone};
ghost use Rattle.w4_devices.specs.Records.{record_of};
ghost use Rattle.w4_wave.specs.Outputs.{IsPart, output_at, tone_and_sound};

use crate::beginning::{play_all, silence_as_recorded};
use crate::oscillators::{next_phase, next_register, value};
use crate::output::{Output, Part, TICKS, UNHEARD, on_sides};
use crate::samples::{FRAME_LEN, put_sample, sample, sum};
use std::marker::Model;
use w4_defs::{Sound, Tone};
use w4_devices::FrameRecord;
use w4_tone::Channels;

/// What goes on from tick to tick: the channels, the phase of each channel's oscillator, and the noise
/// register. A contract sees them as they are.
#[derive(Drop)]
pub struct Wave {
    channels: Channels,
    phases: [u16; 4],
    noise: u16,
}

impl Model for Wave {
    ghost use Rattle.std.specs.Prelude.{◌≡◌, ◌<◌, All, length};
    ghost use Rattle.w4_defs.specs.Sound.{Wave, ticks_a_second};

    ghost Value = { Wave };

    ghost view = { λ wave. record { channels = wave.channels; phases = wave.phases; noise = wave.noise } };

    ghost invariant = { λ wave.
        (length wave.phases ≡ 4) × All (λ phase. phase < ticks_a_second) wave.phases × (wave.noise < 32768) };
}

impl Wave {
    /// Silent channels, whose oscillators are at the beginning of their periods.
    pub fn new() -> Wave
        ensures { result ≡ first_wave }
    {
        Wave {
            channels: Channels::new(),
            phases: [0; 4],
            noise: 1,
        }
    }

    /// Writes the samples of one frame, by its record. What its channels play goes on in the next frame.
    pub fn render(&mut self, frame_record: &FrameRecord, out: &mut [u8; FRAME_LEN])
        ensures samples { out.new ≡ rendered (record_of frame_record.now) self.old }
        ensures wave { self.new ≡ after_frame (record_of frame_record.now) self.old }
    {
        self.begin_frame(frame_record);
        self.sound(out);
        self.channels.age();
    }

    /// Plays the tones of a record, and silences the channels that it has silent.
    fn begin_frame(&mut self, frame_record: &FrameRecord)
        ensures { self.new ≡ with_record (record_of frame_record.now) self.old }
    {
        play_all(&mut self.channels, frame_record.tones.kept());
        silence_as_recorded(&mut self.channels, &frame_record.sounds);
    }

    /// All ticks of a frame. Each channel's are taken together, and a channel that isn't heard is skipped.
    fn sound(&mut self, out: &mut [u8; FRAME_LEN])
        ensures samples { out.new ≡ frame_samples self.old }
        ensures wave { self.new ≡ after_ticks self.old 735 }
    {
        let first = self.part(0);
        let second = self.part(1);
        let third = self.part(2);
        let fourth = self.part(3);
        for tick in 0..TICKS {
            let left = sum(
                first.left[tick],
                second.left[tick],
                third.left[tick],
                fourth.left[tick],
            );
            let right = sum(
                first.right[tick],
                second.right[tick],
                third.right[tick],
                fourth.right[tick],
            );
            put_sample(out, 4 * tick, sample(left, right));
        }
        self.phases = [first.phase, second.phase, third.phase, fourth.phase];
        self.noise = fourth.register;
    }

    /// What a channel gives in a frame.
    fn part(&self, channel: usize) -> Part
        requires { channel < 4 }
        ensures part { IsPart self.now channel 735 result }
        ensures ranges { IsWave self.now }
    {
        if self.heard_tone(channel).is_none() {
            self.mute_part(channel)
        } else {
            self.heard_part(channel)
        }
    }

    /// The part of a channel that isn't heard: nothing, and its phase as it is.
    fn mute_part(&self, channel: usize) -> Part
        requires { channel < 4 }
        ensures left { result.left ≡ replicate 735 (pos 0) }
        ensures right { result.right ≡ replicate 735 (pos 0) }
        ensures phase { result.phase ≡ slice_index self.now.phases channel }
        ensures register { result.register ≡ self.now.noise }
        ensures register_bound { result.register < 32768 }
        ensures ranges { IsWave self.now }
    {
        self.channels.are_within();
        Part {
            left: [0; TICKS],
            right: [0; TICKS],
            phase: self.phases[channel],
            register: self.noise,
        }
    }

    /// The part of a channel, tick after tick.
    fn heard_part(&self, channel: usize) -> Part
        requires { channel < 4 }
        ensures part { IsPart self.now channel 735 result }
        ensures ranges { IsWave self.now }
    {
        let mut part = self.mute_part(channel);
        for tick in 0..TICKS {
            let output = self.output(channel, tick as u32, part.phase, part.register);
            part.left[tick] = output.left;
            part.right[tick] = output.right;
            part.register = next_register(channel, part.register, part.phase, output.step);
            part.phase = next_phase(part.phase, output.step);
        }
        part
    }

    /// What a channel gives at a tick.
    fn output(&self, channel: usize, tick: u32, phase: u16, register: u16) -> Output
        requires channel { channel < 4 }
        requires tick { tick < 735 }
        requires phase { phase < 44100 }
        ensures { result ≡ output_at channel tick phase register (heard_voice self.now channel) }
    {
        match self.heard(channel, tick) {
            None => UNHEARD,
            Some((tone, sound)) => {
                let value = value(channel, tone, sound, phase, register);
                on_sides(value, tone.pan, sound.frequency)
            }
        }
    }

    /// The tone and the sound of a channel that is heard.
    fn heard(&self, channel: usize, tick: u32) -> Option<(Tone, Sound)>
        requires channel { channel < 4 }
        requires tick { tick < 735 }
        ensures sound { result ≡ option_map (tone_and_sound tick) (heard_voice self.now channel) }
        ensures ranges { IfSome result (λ pair. IsTone pair.0) }
    {
        match (self.heard_tone(channel), self.channels.sound(channel, tick)) {
            (Some(tone), Some(sound)) => Some((tone, sound)),
            _ => None,
        }
    }

    /// The tone of a channel that is heard: it isn't silent, nor in note mode.
    fn heard_tone(&self, channel: usize) -> Option<Tone>
        requires { channel < 4 }
        ensures tone { result ≡ option_map (λ voice. voice.tone) (heard_voice self.now channel) }
        ensures ranges { IfSome result IsTone }
    {
        match self.channels.tone(channel) {
            Some(tone) if !tone.note => Some(tone),
            _ => None,
        }
    }
}
