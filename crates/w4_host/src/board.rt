//! The board: what a cart's imports work on besides the page, and each import's weight and effect.

ghost use Rattle.std.specs.Prelude.{◌≡◌, length};
ghost use Rattle.w4_defs.specs.Board.{argument, with_tone};
ghost use Rattle.w4_defs.specs.Tones.{decoded};

use crate::arguments::{argument, cstr, utf8, utf16};
use crate::drawing;
use crate::weights::text_weight;
use std::marker::Model;
use w4_defs::{Import, PageBytes};
use w4_devices::{Disk, FrameRecord};
use w4_font::Font;
use w4_tone::{Channels, decode};
use wasm_tree::Host;

/// The font, the channels, the disk, and the record of the frame that is under way: both in boxes, so that a
/// board is given them and gives them back without a copy.
#[derive(Drop)]
pub struct Board<'a> {
    pub font: &'a Font,
    pub channels: Channels,
    pub disk: Box<Disk>,
    pub frame_record: Box<FrameRecord>,
}

impl<'a> Model for Board<'a> {
    ghost use Rattle.w4_defs.specs.State.{Board};

    ghost Value = { Board };

    ghost view = { λ b. record {
      font = b.font.now;
      channels = b.channels;
      disk = b.disk.value;
      tones = b.frame_record.value.tones;
      traces = b.frame_record.value.traces;
    } };
}

impl Host for Board<'_> {
    ghost use Rattle.w4_defs.specs.Board.{import_effect, import_weight};
    ghost use Rattle.w4_host.specs.Answers.{answers_by_type};

    ghost weight = { λ board. import_weight };

    ghost effect = { import_effect };

    #[tactic(auto, unfolding(w4_defs::specs::Board::import_weight))]
    fn weight(&self, name: Import, args: &[u32], page: &PageBytes) -> u64 {
        match name {
            Import::Blit
            | Import::BlitSub
            | Import::Line
            | Import::Hline
            | Import::Vline
            | Import::Oval
            | Import::Rect => 256,
            Import::Text | Import::Trace | Import::Tracef => text_weight(page, cstr(args)),
            Import::TextUtf8 | Import::TraceUtf8 => text_weight(page, utf8(args)),
            Import::TextUtf16 | Import::TraceUtf16 => text_weight(page, utf16(args)),
            Import::Tone => 16,
            Import::Diskr | Import::Diskw => 1024,
        }
    }

    #[tactic(auto, unfolding(w4_defs::specs::Board::import_effect))]
    fn call(&mut self, name: Import, args: &[u32], page: &mut PageBytes) -> Option<u32> {
        match name {
            Import::Blit => drawing::blit(args, page),
            Import::BlitSub => drawing::blit_part(args, page),
            Import::Line => drawing::line(args, page),
            Import::Hline => drawing::hline(args, page),
            Import::Vline => drawing::vline(args, page),
            Import::Oval => drawing::oval(args, page),
            Import::Rect => drawing::rect(args, page),
            Import::Text => drawing::text(self.font, args, page, cstr(args), 1),
            Import::TextUtf8 => drawing::text(self.font, args, page, utf8(args), 2),
            Import::TextUtf16 => drawing::text(self.font, args, page, utf16(args), 2),
            Import::Tone => self.tone(args),
            Import::Diskr => return Some(
                self.disk
                    .read_into(page, argument(args, 0), argument(args, 1)),
            ),
            Import::Diskw => return Some(
                self.disk
                    .write_from(page, argument(args, 0), argument(args, 1)),
            ),
            Import::Trace => self.frame_record.traces.trace(page, cstr(args)),
            Import::TraceUtf8 => self.frame_record.traces.trace(page, utf8(args)),
            Import::TraceUtf16 => self.frame_record.traces.trace(page, utf16(args)),
            Import::Tracef => self
                .frame_record
                .traces
                .tracef(page, argument(args, 0), argument(args, 1)),
        }
        None
    }

    ghost answers_by_type = { answers_by_type };
}

impl Board<'_> {
    /// `tone`: begins a tone on its channel and lists it. A tone that the log drops sounds all the same.
    fn tone(&mut self, args: &[u32])
        requires { length args.now ≡ 4 }
        ensures { self.new ≡ with_tone self.old
            (decoded (argument args.now 0) (argument args.now 1) (argument args.now 2)
            (argument args.now 3)) }
    {
        let tone = decode(
            argument(args, 0),
            argument(args, 1),
            argument(args, 2),
            argument(args, 3),
        );
        self.channels.play(tone);
        self.frame_record.tones.add(tone);
    }
}
