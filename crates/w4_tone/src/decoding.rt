//! The four arguments of a call of `tone`.

ghost use Rattle.std.specs.Prelude.{◌≡◌};
ghost use Rattle.w4_defs.specs.Tones.{decoded, peak_of, IsTone};

use w4_defs::Tone;

/// The tone that the arguments of `tone` ask for.
///
/// `frequency` has the first frequency in its low half and the second in its high half, in hertz.
/// `duration` has, from the lowest byte, sustain, release, decay and attack, in frames. `volume` has the
/// sustain level in its lowest byte and the peak in the next. `flags` has the channel in bits 0 and 1, the
/// duty in bits 2 and 3, the pan in bits 4 and 5 and note mode in bit 6. All other bits have no effect.
pub fn decode(frequency: u32, duration: u32, volume: u32, flags: u32) -> Tone
    ensures tone { result ≡ decoded frequency duration volume flags }
    ensures ranges { IsTone result }
{
    let [sustain, release, decay, attack] = duration.to_le_bytes();
    let [level, peak, _, _] = volume.to_le_bytes();
    Tone {
        channel: (flags % 4) as u8,
        first: (frequency % 65536) as u16,
        second: (frequency / 65536 % 65536) as u16,
        attack,
        decay,
        sustain,
        release,
        peak: peak_level(peak),
        level: level.min(100),
        duty: (flags / 4 % 4) as u8,
        pan: (flags / 16 % 4) as u8,
        note: flags / 64 % 2 == 1,
    }
}

/// A peak's byte as a level: 0 means 100, and a level is at most 100.
fn peak_level(byte: u8) -> u8
    ensures { result ≡ peak_of byte }
{
    if byte == 0 { 100 } else { byte.min(100) }
}
