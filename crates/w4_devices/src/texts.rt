//! The schedule text and the trace text of a place (project rule). Each line ends with byte 10.

ghost use Rattle.std.specs.Prelude.{◌≡◌, ◌++◌, ◌∷◌, flat_map, OnErr, OnOk};
ghost use Rattle.w4_defs.specs.FrameTexts.{dropped_line, escaped, schedule_text, sound_line, sound_lines, tone_line, trace_text, trace_text_line};
ghost use Rattle.w4_devices.specs.Records.{record_of};

use crate::frame_record::FrameRecord;
use crate::hexadecimal::hex_digit;
use crate::line::Line;
use crate::text_parts::add_numbered;
use std::alloc::Global;
use w4_defs::{OutOfMemory, Sound, Tone};

/// Appends the schedule text of a place: its tones, how many were dropped, and what sounds. Where memory is
/// refused, `out` stays as it was.
pub fn schedule_text(
    alloc: Global,
    place: usize,
    frame_record: &FrameRecord,
    out: &mut Vec<u8>,
) -> Result<(), OutOfMemory>
    ensures text { OnOk result (out.new.items ≡ out.old.items
        ++ schedule_text place (record_of frame_record.now)) }
    ensures unchanged { OnErr result (out.new.items ≡ out.old.items) }
{
    let mut text = Vec::new(alloc);
    add_schedule(&mut text, place, frame_record)?;
    out.extend_from_slice(&text)?;
    Ok(())
}

/// Appends the trace text of a place: its lines, and how many were dropped. Where memory is refused, `out`
/// stays as it was.
pub fn trace_text(
    alloc: Global,
    place: usize,
    frame_record: &FrameRecord,
    out: &mut Vec<u8>,
) -> Result<(), OutOfMemory>
    ensures text { OnOk result (out.new.items ≡ out.old.items
        ++ trace_text place (record_of frame_record.now)) }
    ensures unchanged { OnErr result (out.new.items ≡ out.old.items) }
{
    let mut text = Vec::new(alloc);
    add_traces(&mut text, place, frame_record)?;
    out.extend_from_slice(&text)?;
    Ok(())
}

#[tactic(auto, unfolding(w4_defs::specs::FrameTexts::schedule_text))]
fn add_schedule(
    text: &mut Vec<u8>,
    place: usize,
    frame_record: &FrameRecord,
) -> Result<(), OutOfMemory>
    ensures { OnOk result (text.new.items ≡ text.old.items
        ++ schedule_text place (record_of frame_record.now)) }
{
    add_numbered(text, b"frame", &[place as u64])?;
    add_tones(text, frame_record.tones.kept())?;
    add_dropped(text, frame_record.tones.dropped())?;
    add_sounds(text, &frame_record.sounds)
}

#[tactic(auto, unfolding(w4_defs::specs::FrameTexts::trace_text))]
fn add_traces(
    text: &mut Vec<u8>,
    place: usize,
    frame_record: &FrameRecord,
) -> Result<(), OutOfMemory>
    ensures { OnOk result (text.new.items ≡ text.old.items ++ trace_text place (record_of frame_record.now)) }
{
    add_numbered(text, b"frame", &[place as u64])?;
    add_lines(text, frame_record.traces.lines())?;
    add_dropped(text, frame_record.traces.dropped())
}

/// Adds how many items were dropped, where any were.
fn add_dropped(text: &mut Vec<u8>, dropped: u64) -> Result<(), OutOfMemory>
    ensures { OnOk result (text.new.items ≡ text.old.items ++ dropped_line dropped) }
{
    if dropped == 0 {
        return Ok(());
    }
    add_numbered(text, b"dropped", &[dropped])
}

fn add_tones(text: &mut Vec<u8>, tones: &[Tone]) -> Result<(), OutOfMemory>
    ensures { OnOk result (text.new.items ≡ text.old.items ++ flat_map tone_line tones.now) }
{
    for tone in tones {
        add_tone(text, *tone)?;
    }
    Ok(())
}

fn add_tone(text: &mut Vec<u8>, tone: Tone) -> Result<(), OutOfMemory>
    ensures { OnOk result (text.new.items ≡ text.old.items ++ tone_line tone) }
{
    let numbers = [
        tone.channel.into(),
        tone.first.into(),
        tone.second.into(),
        tone.attack.into(),
        tone.decay.into(),
        tone.sustain.into(),
        tone.release.into(),
        tone.peak.into(),
        tone.level.into(),
        tone.duty.into(),
        tone.pan.into(),
        tone.note.into(),
    ];
    add_numbered(text, b"tone", &numbers)
}

/// Adds a line for each channel that isn't silent.
fn add_sounds(text: &mut Vec<u8>, sounds: &[Option<Sound>]) -> Result<(), OutOfMemory>
    ensures { OnOk result (text.new.items ≡ text.old.items ++ sound_lines 0 sounds.now) }
{
    for (channel, sound) in sounds.iter().enumerate() {
        add_sound(text, channel, *sound)?;
    }
    Ok(())
}

fn add_sound(text: &mut Vec<u8>, channel: usize, sound: Option<Sound>) -> Result<(), OutOfMemory>
    ensures { OnOk result (text.new.items ≡ text.old.items ++ sound_line channel sound) }
{
    match sound {
        None => Ok(()),
        Some(sound) => add_numbered(
            text,
            b"sound",
            &[channel as u64, sound.level.into(), sound.frequency.into()],
        ),
    }
}

fn add_lines(text: &mut Vec<u8>, lines: &[Line]) -> Result<(), OutOfMemory>
    ensures { OnOk result (text.new.items ≡ text.old.items ++ flat_map trace_text_line lines.now) }
{
    for line in lines {
        add_line(text, line.bytes())?;
    }
    Ok(())
}

fn add_line(text: &mut Vec<u8>, line: &[u8]) -> Result<(), OutOfMemory>
    ensures { OnOk result (text.new.items ≡ text.old.items ++ trace_text_line line.now) }
{
    text.extend_from_slice(b"trace ")?;
    for byte in line {
        add_escaped(text, *byte)?;
    }
    text.push(b'\n')?;
    Ok(())
}

/// Adds a byte of a line: the printable ones but the backslash as they are, all others in hexadecimal.
fn add_escaped(text: &mut Vec<u8>, byte: u8) -> Result<(), OutOfMemory>
    ensures { OnOk result (text.new.items ≡ text.old.items ++ escaped byte) }
{
    if byte < 32 || byte > 126 || byte == b'\\' {
        text.extend_from_slice(&[b'\\', b'x', hex_digit(byte / 16), hex_digit(byte % 16)])?;
    } else {
        text.push(byte)?;
    }
    Ok(())
}
