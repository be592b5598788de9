//! The header of a file of samples.

ghost use Rattle.std.specs.Prelude.{◌≡◌, ◌≤◌};
ghost use Rattle.w4_defs.specs.Sound.{wav_header};

use crate::samples::FRAME_LEN;

/// PCM, 2 channels, 44,100 samples and 176,400 bytes a second, 4 bytes and 16 bits a sample.
const FORMAT: [u8; 32] =
    *b"WAVEfmt \x10\0\0\0\x01\0\x02\0\x44\xac\0\0\x10\xb1\x02\0\x04\0\x10\0data";

/// The header of a file with the samples of that many places, which come after it.
pub fn wav_header(places: u32) -> [u8; 44]
    requires { places ≤ 36001 }
    ensures { result ≡ wav_header places }
{
    let length = FRAME_LEN as u32 * places;
    let mut header = [0; 44];
    header[0..4].copy_from_slice(b"RIFF");
    header[4..8].copy_from_slice(&(length + 36).to_le_bytes());
    header[8..40].copy_from_slice(&FORMAT);
    header[40..44].copy_from_slice(&length.to_le_bytes());
    header
}
