//! `serve`: a live session. Orders come one a line from standard input, and the answer of a line is written
//! before the next one is asked for.

ghost use Rattle.std.specs.Prelude.{◌≡◌, ◌∷◌, [], IfErr, IfOk, None, option_map};
ghost use Rattle.w4_defs.specs.Causes.{LeavesErr};
ghost use Rattle.w4_defs.specs.Endings.{manner_of};
ghost use Rattle.w4_defs.specs.Live.{Opened, Talk, first_live_session, serve_output};
ghost use Rattle.w4_defs.specs.Meaning.{RunsHaveMeaning};
ghost use Rattle.w4_defs.specs.Recording.{encoding};
ghost use Rattle.w4_defs.specs.World.{Does, LeavesSaving, LeavesTaking};
ghost use Rattle.w4_editor.specs.Editor.{current_recording};
ghost use Rattle.w4_house.specs.Lines.{taken};
ghost use Rattle.w4_commands.specs.Commands.{EndsDone};
ghost use Rattle.w4_answers.specs.Saving.{Replaces};
ghost use Rattle.w4_commands.specs.Serve.{
  AnswersLines,
  EndsStopped,
  LosesLine,
  ServedStep,
  stop_refusal,
  opened_view,
};
ghost use Rattle.w4_answers.specs.LiveAnswer.{LeavesServing, Sits};
ghost use Rattle.w4_console.specs.Counting.{IsBlankOf};
ghost use Rattle.w4_commands.specs.Load.{cart_view};
ghost use Rattle.w4_commands.specs.Forms.{serve_view};

use crate::forms::ServeNames;
use crate::load::{RunFiles, load_run};
use std::alloc::Global;
use std::marker::Brand;
use std::sync::ledger::{Blank, Ledger};
use std::thread::Threads;
use w4_answers::desk::Desk;
use w4_answers::live_answer::answer_live_line;
use w4_answers::saving::save_recording;
use w4_cart::CartFile;
use w4_defs::Refusal;
use w4_house::{House, HouseFault};
use w4_segments::{Gate, Resources};

/// `serve CART REC FONT OUT`.
#[tactic(auto, unfolding(w4_defs::specs::Live::serve_output))]
pub fn run_serve<R: Threads + Sync, H: House, G: Gate + Sync>(
    resources: &Resources<'_, R, G>,
    house: &mut H,
    file: CartFile,
    names: ServeNames<'_>,
) -> Result<(), Refusal>
    ensures ends { EndsDone (H.world house.old) (H.world house.new) result (λ files output. (talk : Talk)
        × (serve_output (serve_view names.entry) talk (cart_view file) files ≡ Some output)) }
    ensures err { LeavesErr (H.world house.old) (H.world house.new) }
{
    match load_run(resources.alloc, house, &file.digest, names.run) {
        Ok(run) => serve_run::<Brand, R, H, G>(resources, house, file, run, names, Blank::new(1)),
        Err(refusal) => {
            file.close();
            Err(refusal)
        }
    }
}

/// A session on a recording that was read. However its lines end, the recording left goes to the file. The
/// frames that are run have a count of their own.
fn serve_run<L: Ledger, R: Threads + Sync, H: House, G: Gate + Sync>(
    resources: &Resources<'_, R, G>,
    house: &mut H,
    file: CartFile,
    run: RunFiles,
    names: ServeNames<'_>,
    blank: Blank,
) -> Result<(), Refusal>
    requires { IsBlankOf L.name L.parts blank }
    ensures ends { EndsDone (H.world house.old) (H.world house.new) result
        (ServedStep (opened_view file.cart run names.entry.out.now)) }
    ensures err { LeavesErr (H.world house.old) (H.world house.new) }
{
    let cart = file.cart;
    let mut desk = Desk::<L>::new(resources.alloc, cart, run.font, run.recording, blank)?;
    let end = serve_at(resources, house, &mut desk, names.out);
    desk.close();
    end
}

/// The session at a desk, and the file that is left.
fn serve_at<L: Ledger, R: Threads + Sync, H: House, G: Gate + Sync>(
    resources: &Resources<'_, R, G>,
    house: &mut H,
    desk: &mut Desk<L>,
    out: &str,
) -> Result<(), Refusal>
    ensures ends { (o : Opened) → RunsHaveMeaning o.cart → o.out ≡ out.now
        → Sits o (first_live_session o) desk.old.counted.editor None
        → EndsDone (H.world house.old) (H.world house.new) result (ServedStep o) }
    ensures err { LeavesErr (H.world house.old) (H.world house.new) }
{
    match answer_lines(resources, house, desk, out) {
        Ok(()) => save_recording(resources.alloc, house, desk, out),
        Err(why) => rescue(resources.alloc, house, desk, out, why),
    }
}

/// Replaces the file with the edited recording after the session was stopped. Errors: always; why it was
/// stopped, or why this failed.
fn rescue<L: Ledger, H: House>(
    alloc: Global,
    house: &mut H,
    desk: &Desk<L>,
    out: &str,
    why: Refusal,
) -> Result<(), Refusal>
    ensures rescued { EndsStopped (H.world house.old) (H.world house.new) result out.now
        (encoding 2 (current_recording desk.now.counted.editor)) why }
    ensures rest { LeavesSaving (H.world house.old) (H.world house.new) }
{
    let saved = save_recording(alloc, house, desk, out);
    Err(stopped(why, saved))
}

/// Why a session that was stopped is refused, once the edited recording was saved or couldn't be.
fn stopped(why: Refusal, saved: Result<(), Refusal>) -> Refusal
    ensures { result ≡ stop_refusal why saved }
{
    match (why, saved) {
        (Refusal::OutOfMemory, _) => why,
        (_, Ok(())) => why,
        (_, Err(fault)) => fault,
    }
}

/// Takes lines and answers them, one after another, to the end of the input. Errors: InputFault, WriteFault,
/// OutOfMemory.
fn answer_lines<L: Ledger, R: Threads + Sync, H: House, G: Gate + Sync>(
    resources: &Resources<'_, R, G>,
    house: &mut H,
    desk: &mut Desk<L>,
    out: &str,
) -> Result<(), Refusal>
    ensures answers { (o : Opened) → RunsHaveMeaning o.cart → o.out ≡ out.now
        → Sits o (first_live_session o) desk.old.counted.editor None
        → AnswersLines (H.world house.old) (H.world house.new) result o
        (current_recording desk.new.counted.editor) }
    ensures rest { LeavesServing (H.world house.old) (H.world house.new) }
{
    let mut search = None;
    for _ in 0..u64::MAX {
        match take_line(resources.alloc, house)? {
            None => return Ok(()),
            Some(line) => {
                let bytes = line.as_slice();
                answer_live_line(resources, house, desk, &mut search, bytes, out)?;
            }
        }
    }
    // No input is as long.
    Err(Refusal::OutOfMemory)
}

/// The next line, or None at the end of the input.
fn take_line<H: House>(alloc: Global, house: &mut H) -> Result<Option<Vec<u8>>, Refusal>
    ensures taken { IfOk result (λ line. Does (H.world house.old) (H.world house.new)
        (taken (option_map (λ bytes. bytes.items) line) ∷ [])) }
    ensures lost { IfErr result (λ why. LosesLine (H.world house.old) (H.world house.new) (manner_of why)) }
    ensures rest { LeavesTaking (H.world house.old) (H.world house.new) }
{
    match house.read_line(alloc) {
        Ok(line) => Ok(line),
        Err(HouseFault::Absent) => unreachable!(),
        Err(HouseFault::Failed) => Err(Refusal::InputFault),
        Err(HouseFault::OutOfMemory) => Err(Refusal::OutOfMemory),
    }
}
