//! The oscillators (project rule): two pulses, a triangle and noise. A level of 100 has an amplitude of
//! 8,000, and a phase counts from 0 to 44,099.

ghost use Rattle.std.specs.Prelude.{◌≡◌, ◌+◌, ◌*◌, ◌/◌, ◌%◌, ◌<◌, ◌≤ℤ◌, if◌then◌else◌, nat_lt, negsuc, pos};
ghost use Rattle.w4_defs.specs.Sound.{high_or_low, noise, pulse, ticks_a_second, triangle, triangle_height};
ghost use Rattle.w4_defs.specs.Tones.{IsTone};
ghost use Rattle.w4_wave.specs.Outputs.{oscillator_value};

use w4_defs::{Sound, Tone};

/// Where a phase comes round.
const TICKS_A_SECOND: u32 = 44100;

/// What a channel's oscillator gives for a sound of its tone.
pub fn value(channel: usize, tone: Tone, sound: Sound, phase: u16, register: u16) -> i16
    requires tone { IsTone tone }
    requires phase { phase < 44100 }
    ensures { result ≡ oscillator_value channel tone sound phase register }
{
    match channel {
        0 | 1 => pulse(sound.level, tone.duty, phase),
        2 => triangle(sound.level, phase),
        _ => noise(sound.level, register),
    }
}

/// A phase one tick later.
pub fn next_phase(phase: u16, step: u16) -> u16
    ensures phase { result ≡ (phase + step) % ticks_a_second }
    ensures bound { result < ticks_a_second }
{
    ((u32::from(phase) + u32::from(step)) % TICKS_A_SECOND) as u16
}

/// The noise register one tick later: it shifts where the phase of channel 3 comes round.
pub fn next_register(channel: usize, register: u16, phase: u16, step: u16) -> u16
    requires { register < 32768 }
    ensures register { channel ≡ 3 →
        result ≡ (if nat_lt (phase + step) ticks_a_second then register
        else register / 2 + 16384 * ((register + register / 2) % 2)) }
    ensures bound { result < 32768 }
{
    if channel != 3 || u32::from(phase) + u32::from(step) < TICKS_A_SECOND {
        register
    } else {
        register / 2 + 16384 * ((register + register / 2) % 2)
    }
}

/// High for the duty cycle, low for the rest of the period.
fn pulse(level: u8, duty: u8, phase: u16) -> i16
    requires { duty < 4 }
    ensures { result ≡ pulse (80 * level) duty phase }
{
    let parts = [1, 2, 4, 6][usize::from(duty)];
    high_or_low(8 * u32::from(phase) < 44100 * parts, level)
}

/// From 0 up to the amplitude, down to its negative and back, cut toward 0.
fn triangle(level: u8, phase: u16) -> i16
    requires { phase < 44100 }
    ensures { result ≡ triangle (80 * level) phase }
{
    let amplitude = 80 * i32::from(level);
    (amplitude * triangle_height(phase) / 11025) as i16
}

/// How far the triangle is from 0, of 11,025 at its peaks.
fn triangle_height(phase: u16) -> i32
    requires { phase < 44100 }
    ensures height { result ≡ triangle_height phase }
    ensures low { negsuc 11024 ≤ℤ result }
    ensures high { result ≤ℤ pos 11025 }
{
    let at = i32::from(phase);
    if at < 11025 {
        at
    } else if at < 33075 {
        22050 - at
    } else {
        at - 44100
    }
}

/// High where the register is odd.
fn noise(level: u8, register: u16) -> i16
    ensures { result ≡ noise (80 * level) register }
{
    high_or_low(register % 2 == 1, level)
}

fn high_or_low(high: bool, level: u8) -> i16
    ensures { result ≡ high_or_low high (80 * level) }
{
    let amplitude = 80 * i16::from(level);
    if high { amplitude } else { -amplitude }
}
