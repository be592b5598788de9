//! The tones of one frame.

ghost use Rattle.std.specs.Prelude.{◌≡◌, All};
ghost use Rattle.w4_defs.specs.Logs.{empty_log, kept_tones, logged};
ghost use Rattle.w4_defs.specs.Tones.{IsTone};

use std::marker::Model;
use w4_defs::Tone;

/// How many tones of a frame are kept.
const KEPT_TONES: usize = 64;

/// What stands in the places that are free.
const FREE_PLACE: Tone = Tone {
    channel: 0,
    first: 0,
    second: 0,
    attack: 0,
    decay: 0,
    sustain: 0,
    release: 0,
    peak: 0,
    level: 0,
    duty: 0,
    pan: 0,
    note: false,
};

/// The first 64 tones of a frame, and how many came later: that count stays at its greatest value. A
/// contract sees the log of the tones.
#[derive(Debug, Drop)]
pub struct ToneLog {
    tones: [Tone; KEPT_TONES],
    count: usize,
    dropped: u64,
}

impl Model for ToneLog {
    ghost use Rattle.std.specs.Prelude.{◌≤◌, All, take};
    ghost use Rattle.w4_defs.specs.declared.console.Tone.{Tone};
    ghost use Rattle.w4_defs.specs.Logs.{Log};
    ghost use Rattle.w4_defs.specs.Tones.{IsTone};

    ghost Value = { Log Tone };

    ghost view = { λ log. record { items = take log.count log.tones; dropped = log.dropped } };

    ghost invariant = { λ log. (log.count ≤ 64) × All IsTone (take log.count log.tones) };
}

impl ToneLog {
    /// A log without tones.
    pub fn new() -> ToneLog
        ensures { result ≡ empty_log }
    {
        ToneLog {
            tones: [FREE_PLACE; KEPT_TONES],
            count: 0,
            dropped: 0,
        }
    }

    /// Empties the log. The tones that it had stay in memory until others are written over them.
    pub fn clear(&mut self)
        ensures { self.new ≡ empty_log }
    {
        self.count = 0;
        self.dropped = 0;
    }

    /// Adds a tone. `decode` of w4_tone gives tones in the ranges asked for.
    pub fn add(&mut self, tone: Tone)
        requires { IsTone tone }
        ensures { self.new ≡ logged kept_tones self.old tone }
    {
        if self.count < KEPT_TONES {
            self.tones[self.count] = tone;
            self.count += 1;
        } else {
            self.dropped = self.dropped.saturating_add(1);
        }
    }

    /// Becomes as another log. Only the tones that it has are copied.
    pub fn copy_from(&mut self, other: &ToneLog)
        ensures { self.new ≡ other.now }
    {
        let count = other.count;
        self.tones[..count].copy_from_slice(&other.tones[..count]);
        self.count = count;
        self.dropped = other.dropped;
    }

    /// The tones that were kept, in order. Each is in the ranges of a tone.
    pub fn kept(&self) -> &[Tone]
        ensures tones { result.now ≡ self.now.items }
        ensures ranges { All IsTone self.now.items }
    {
        &self.tones[..self.count]
    }

    /// How many tones were dropped.
    pub(crate) fn dropped(&self) -> u64
        ensures { result ≡ self.now.dropped }
    {
        self.dropped
    }
}
