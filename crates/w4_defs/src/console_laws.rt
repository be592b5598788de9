//! What the console's definitions promise, as contracts of functions that do nothing.

ghost use Rattle.std.specs.Prelude.{◌≡◌, ◌+◌, ◌<◌, ◌≤◌, ◌*◌, ◌*ℤ◌, ◌+ℤ◌, ◌-ℤ◌, int_div, max, min, None, pos, Some, ℕ, List};
ghost use Rattle.w4_defs.specs.declared.console.Tone.{Tone as ATone};
ghost use Rattle.w4_defs.specs.Board.{BoardCases};
ghost use Rattle.w4_defs.specs.Disk.{DiskCases};
ghost use Rattle.w4_defs.specs.Frame.{ClearedIsPainted, HaltStays, ResetKeepsDisk};
ghost use Rattle.w4_defs.specs.FrameCases.{BudgetCases, MouseCase, PageCases, StartCase, StartCases, TraceLineCases};
ghost use Rattle.w4_defs.specs.FrameTexts.{TextCases};
ghost use Rattle.w4_defs.specs.Logs.{DroppedCase, LogsInOrder};
ghost use Rattle.w4_defs.specs.Reset.{FirstRegisters};
ghost use Rattle.w4_defs.specs.Run.{FoldsInParts, FoldsState, PlaysInParts, RunsBetween, RunsOn};
ghost use Rattle.w4_defs.specs.Tones.{DecayCase, IsTone, NoteCase, SilencedCase, TenFrames, aged_often, decoded, frequency_at, frequency_slide, interpolate, level_at, started, ticks, tone_frames};
ghost use Rattle.w4_defs.specs.Traces.{PlaceCases, TraceCase, TracefCase};
ghost use Rattle.w4_defs.specs.Words.{WordCases};

use crate::console::Tone;

/// Every decoded tone keeps to the ranges of a tone.
pub fn decoded_ranges(frequency: u32, duration: u32, volume: u32, flags: u32)
    ensures { IsTone (decoded frequency duration volume flags) }
{}

/// A level on its way lies between its two ends.
pub fn level_between(from: u32, to: u32, at: u32, len: u32)
    requires { at < len }
    ensures low { min from to ≤ interpolate from to at len }
    ensures high { interpolate from to at len ≤ max from to }
{}

/// No level of a tone exceeds 100, where its peak and its sustain level don't.
pub fn level_bound(tone: Tone, tick: u32)
    requires peak { tone.peak ≤ 100 }
    requires level { tone.level ≤ 100 }
    requires within { tick < ticks (tone_frames tone) }
    ensures { level_at tone tick ≤ 100 }
{}

/// The frequency at a tick of a tone lies between its first and its second.
pub fn frequency_between(tone: Tone, tick: u32)
    requires within { tick < ticks (tone_frames tone) }
    ensures low { min tone.first tone.second ≤ frequency_at tone tick }
    ensures high { frequency_at tone tick ≤ max tone.first tone.second }
{}

/// A sliding frequency is the first one and the part of the signed difference, cut toward zero.
pub fn frequency_cut(first: u16, second: u16, at: u32, len: u32)
    requires { at < len }
    ensures { pos (frequency_slide first second at len) ≡ pos first +ℤ int_div
        ((pos second -ℤ pos first) *ℤ pos at) (pos len) }
{}

/// A new tone sounds for exactly its frames, and then its channel is silent.
pub fn tone_ends(tone: Tone, frames: u16)
    ensures sounds { frames < tone_frames tone
        → aged_often frames (started tone) ≡ Some (record { tone = tone; age = frames }) }
    ensures ends { tone_frames tone ≤ frames → aged_often frames (started tone) ≡ None }
{}

/// A log keeps the first items up to its bound and counts the others up to 2^64 - 1.
pub fn logs_in_order()
    ensures tones { LogsInOrder ATone }
    ensures lines { LogsInOrder (List ℕ) }
{}

/// A run over inputs in two parts is the run over the second from where the first ends; the next place of a
/// run from reset is one frame on, and a later place is the fold of the inputs between.
pub fn runs_in_parts()
    ensures moments { PlaysInParts }
    ensures states { FoldsInParts }
    ensures state_decides { FoldsState }
    ensures next { RunsOn }
    ensures between { RunsBetween }
{}

/// Clearing is painting every pixel 0, a halt stays until a reset, and a frame with a reset depends on the
/// disk alone.
pub fn halts_and_resets()
    ensures cleared { ClearedIsPainted }
    ensures halt_stays { HaltStays }
    ensures reset_keeps_disk { ResetKeepsDisk }
{}

/// Worked cases, by computation.
pub fn console_cases()
    ensures words { WordCases }
    ensures logs { DroppedCase }
    ensures ten_frames { TenFrames }
    ensures silenced { SilencedCase }
    ensures decay { DecayCase }
    ensures note { NoteCase }
    ensures disk { DiskCases }
    ensures trace { TraceCase }
    ensures tracef { TracefCase }
    ensures places { PlaceCases }
    ensures texts { TextCases }
    ensures registers { FirstRegisters }
    ensures board { BoardCases }
    ensures budgets { BudgetCases }
    ensures entries { StartCases }
    ensures pages { PageCases }
    ensures lines { TraceLineCases }
    ensures mouse { MouseCase }
    ensures start { StartCase }
{}
