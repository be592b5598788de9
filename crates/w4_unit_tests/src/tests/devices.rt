//! What no clause says: that the texts of a frame are had where there is enough memory.

use std::boxed::Box;
use std::test::Fail;
use w4_defs::{Sound, TextSource, Tone};
use w4_devices::{FrameRecord, schedule_text, trace_text};

const TONE: Tone = Tone {
    channel: 3,
    first: 440,
    second: 220,
    attack: 4,
    decay: 0,
    sustain: 2,
    release: 4,
    peak: 100,
    level: 50,
    duty: 3,
    pan: 3,
    note: true,
};

#[test]
fn texts_are_added_to_what_is_there(rt: HostRuntime) -> Result<(), Fail> {
    let page = Box::new(rt.alloc(), [65u8; 65536])?;
    let mut frame_record = FrameRecord::new();
    frame_record.tones.add(TONE);
    frame_record.sounds[3] = Some(Sound {
        level: 7,
        frequency: 65535,
    });
    let source = TextSource::Utf8 { ptr: 0, len: 2 };
    frame_record.traces.trace(&page, source);
    let mut out = Vec::from_slice(rt.alloc(), b"before\n")?;
    schedule_text(rt.alloc(), 36000, &frame_record, &mut out)?;
    trace_text(rt.alloc(), 36000, &frame_record, &mut out)?;
    let wanted = b"before\nframe 36000\ntone 3 440 220 4 0 2 4 100 50 3 3 1\nsound 3 7 65535\n\
        frame 36000\ntrace AA\n";
    assert_eq!(rt; out.as_slice(), wanted.as_slice());
    Ok(())
}
