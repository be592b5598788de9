//! The lines of standard error: what each status writes there.

ghost use Rattle.std.specs.Prelude.{◌≡◌, ◌++◌, IfOk, OnOk};
ghost use Rattle.w4_defs.specs.FrameTexts.{spaced};
ghost use Rattle.w4_defs.specs.StatusLines.{
  cart_words,
  invalid_words,
  profile_words,
  recording_words,
  script_words,
  status_line,
  status_words,
};

use std::alloc::Global;
use w4_defs::{CartKind, OutOfMemory, ProfileRefusal, RecordingKind, ScriptKind, Status};
use w4_devices::text_parts::{add_number, add_words};

/// Adds words and a number after a space.
fn add_numbered(text: &mut Vec<u8>, words: &[u8], number: usize) -> Result<(), OutOfMemory>
    ensures { OnOk result (text.new.items ≡ text.old.items ++ (words.now ++ spaced number)) }
{
    add_words(text, words)?;
    add_number(text, number as u64)
}

fn add_profile(text: &mut Vec<u8>, refusal: ProfileRefusal) -> Result<(), OutOfMemory>
    ensures { OnOk result (text.new.items ≡ text.old.items ++ profile_words refusal) }
{
    match refusal {
        ProfileRefusal::Floats => add_words(text, b"floats"),
        ProfileRefusal::TooManyLocals => add_words(text, b"too many locals"),
        ProfileRefusal::TableTooLarge => add_words(text, b"table too large"),
        ProfileRefusal::UnknownImport(i) => add_numbered(text, b"unknown import", i),
        ProfileRefusal::WrongImport(i) => add_numbered(text, b"wrong import", i),
        ProfileRefusal::NoMemory => add_words(text, b"no memory"),
        ProfileRefusal::NoUpdate => add_words(text, b"no update"),
        ProfileRefusal::WrongEntry => add_words(text, b"wrong entry"),
        ProfileRefusal::SegmentOutside(i) => add_numbered(text, b"segment outside", i),
    }
}

fn add_invalid(text: &mut Vec<u8>, func: Option<usize>) -> Result<(), OutOfMemory>
    ensures { OnOk result (text.new.items ≡ text.old.items ++ invalid_words func) }
{
    match func {
        None => add_words(text, b"invalid module"),
        Some(func) => add_numbered(text, b"invalid function", func),
    }
}

fn add_cart(text: &mut Vec<u8>, kind: CartKind) -> Result<(), OutOfMemory>
    ensures { OnOk result (text.new.items ≡ text.old.items ++ cart_words kind) }
{
    match kind {
        CartKind::TooLarge => add_words(text, b"too large"),
        CartKind::Malformed => add_words(text, b"malformed"),
        CartKind::Profile(refusal) => add_profile(text, refusal),
        CartKind::Invalid(func) => add_invalid(text, func),
    }
}

fn add_refused_cart(text: &mut Vec<u8>, kind: CartKind) -> Result<(), OutOfMemory>
    ensures { OnOk result (text.new.items ≡ text.old.items ++ status_words (Status.CartRefused kind)) }
{
    add_words(text, b"cart: ")?;
    add_cart(text, kind)
}

fn add_recording(text: &mut Vec<u8>, kind: RecordingKind) -> Result<(), OutOfMemory>
    ensures { OnOk result (text.new.items ≡ text.old.items ++ recording_words kind) }
{
    match kind {
        RecordingKind::Bad => add_words(text, b"bad"),
        RecordingKind::WrongCart => add_words(text, b"wrong cart"),
    }
}

fn add_refused_recording(text: &mut Vec<u8>, kind: RecordingKind) -> Result<(), OutOfMemory>
    ensures { OnOk result (text.new.items ≡ text.old.items ++ status_words (Status.RecordingRefused kind)) }
{
    add_words(text, b"recording: ")?;
    add_recording(text, kind)
}

fn add_script(text: &mut Vec<u8>, kind: ScriptKind) -> Result<(), OutOfMemory>
    ensures { OnOk result (text.new.items ≡ text.old.items ++ script_words kind) }
{
    match kind {
        ScriptKind::TooLong => add_words(text, b"too long"),
        ScriptKind::BadLine(number) => add_numbered(text, b"line", number as usize),
    }
}

fn add_refused_script(text: &mut Vec<u8>, kind: ScriptKind) -> Result<(), OutOfMemory>
    ensures { OnOk result (text.new.items ≡ text.old.items ++ status_words (Status.ScriptRefused kind)) }
{
    add_words(text, b"script: ")?;
    add_script(text, kind)
}

fn add_refused_list(text: &mut Vec<u8>, kind: ScriptKind) -> Result<(), OutOfMemory>
    ensures { OnOk result (text.new.items ≡ text.old.items ++ status_words (Status.ListRefused kind)) }
{
    add_words(text, b"list: ")?;
    add_script(text, kind)
}

fn add_refused_frame(text: &mut Vec<u8>, number: u32, n: usize) -> Result<(), OutOfMemory>
    ensures { OnOk result (text.new.items ≡ text.old.items ++ status_words (Status.FrameRefused number n)) }
{
    add_numbered(text, b"frame", number as usize)?;
    add_numbered(text, b" of", n)
}

fn add_status(text: &mut Vec<u8>, status: Status) -> Result<(), OutOfMemory>
    ensures { OnOk result (text.new.items ≡ text.old.items ++ status_words status) }
{
    match status {
        Status::Done => Ok(()),
        Status::Different => Ok(()),
        Status::Usage => add_words(text, b"usage"),
        Status::CartRefused(kind) => add_refused_cart(text, kind),
        Status::RecordingRefused(kind) => add_refused_recording(text, kind),
        Status::FontRefused => add_words(text, b"font: not 1792 bytes"),
        Status::ScriptRefused(kind) => add_refused_script(text, kind),
        Status::ReadFault => add_words(text, b"cannot read"),
        Status::InputFault => add_words(text, b"cannot read input"),
        Status::WriteFault => add_words(text, b"cannot write"),
        Status::OutOfMemory => add_words(text, b"out of memory"),
        Status::FrameRefused { number, n } => add_refused_frame(text, number, n),
        Status::ListRefused(kind) => add_refused_list(text, kind),
    }
}

/// The line that standard error gets. After `Done` and `Different` none is written.
pub fn status_line(alloc: Global, status: Status) -> Result<Vec<u8>, OutOfMemory>
    ensures { IfOk result (λ line. line.items ≡ status_line status) }
{
    let mut text = Vec::new(alloc);
    add_words(&mut text, b"w4: ")?;
    add_status(&mut text, status)?;
    add_words(&mut text, b"\n")?;
    Ok(text)
}
