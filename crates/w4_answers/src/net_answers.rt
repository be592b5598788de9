//! The answer of one line of a log.

ghost use Rattle.std.specs.Prelude.{◌≡◌, ◌≢◌, ◌⊎◌, IfErr, IfOk, None, OnOk, Some, [], length};
ghost use Rattle.w4_editor.specs.Editor.{editing_setup};
ghost use Rattle.w4_defs.specs.World.{LeavesWriting};
ghost use Rattle.w4_defs.specs.declared.net_refusal.NetRefusal.TheVariants.{OutOfMemory as MemoryRefused};
ghost use Rattle.w4_netplay.specs.Replica.{IsNetRefusal, KeepsNetplay, known_of, predicted_draft, prediction};
ghost use Rattle.w4_defs.specs.Rollback.{packet_refusal};
ghost use Rattle.w4_defs.specs.Session.{keep_refusal, place_refusal, places_alone};
ghost use Rattle.w4_defs.specs.Run.{run_state};
ghost use Rattle.w4_defs.specs.State.{State};
ghost use Rattle.w4_defs.specs.ScriptAnswers.{refused_line};
ghost use Rattle.w4_defs.specs.Answers.{answer_text};
ghost use Rattle.w4_answers.specs.Writing.{Written, WritesNothing};
ghost use Rattle.w4_defs.specs.LogAnswers.{
  answer_keep,
  answer_next,
  answer_packet,
  if_passed,
  net_answer,
  net_words,
  predicted_image,
  predicted_state,
};
ghost use Rattle.w4_defs.specs.LogAnswers as session;
ghost use Rattle.w4_answers.specs.NetAnswers.{GivesHeard, net_session};

use crate::state_line::{Facts, state_line};
use crate::writing::write_bytes;
use std::alloc::Global;
use std::sync::ledger::Ledger;
use w4_defs::netplay::{NetOrder, Packet};
use w4_defs::{OutOfMemory, Refusal, Steps};
use w4_devices::text_parts::add_numbered;
use w4_house::House;
use w4_image::{IMAGE_LEN, ppm_into};
use w4_netplay::{NetRefusal, Replica};

/// Answers one line.
pub fn answer_order<L: Ledger, H: House>(
    alloc: Global,
    house: &mut H,
    replica: &mut Replica,
    image: &mut [u8; IMAGE_LEN],
    order: &NetOrder,
    steps: &mut Steps<L>,
) -> Result<(), Refusal>
    requires { replica.old.editor.disk ≡ [] }
    ensures heard { GivesHeard (H.world house.old) (H.world house.new) result
        replica.old replica.new
        (net_answer (editing_setup replica.old.editor) (net_session replica.old) order.now) }
    ensures rest { LeavesWriting (H.world house.old) (H.world house.new) }
{
    match *order {
        NetOrder::Pad { packet } => answer_packet(alloc, house, replica, packet),
        NetOrder::Next => answer_next(alloc, house, replica),
        NetOrder::Keep { p } => answer_keep(alloc, house, replica, p, steps),
        NetOrder::Show { p } => answer_show(alloc, house, replica, image, p, steps),
        NetOrder::StateAt { p } => answer_state(alloc, house, replica, p, steps),
    }
}

/// Writes the line of a refusal. If memory ran out, the run ends.
fn refuse<H: House>(alloc: Global, house: &mut H, refusal: NetRefusal) -> Result<(), Refusal>
    ensures out { Written (H.world house.old) (H.world house.new) result
        (refused_line (net_words refusal)) }
    ensures cause { (refusal ≢ MemoryRefused)
        ⊎ WritesNothing (H.world house.old) (H.world house.new) result }
    ensures rest { LeavesWriting (H.world house.old) (H.world house.new) }
{
    match refusal {
        NetRefusal::NoPlayer => write_bytes(alloc, house, b"refused no player\n"),
        NetRefusal::FrameRange => write_bytes(alloc, house, b"refused frame range\n"),
        NetRefusal::Conflict { kept, got } => {
            let line = conflict_line(alloc, kept, got)?;
            write_bytes(alloc, house, line.as_slice())
        }
        NetRefusal::FullRecording => write_bytes(alloc, house, b"refused full\n"),
        NetRefusal::NoFrame => write_bytes(alloc, house, b"refused no frame\n"),
        NetRefusal::Kept => write_bytes(alloc, house, b"refused kept\n"),
        NetRefusal::FullSnapshots => write_bytes(alloc, house, b"refused full\n"),
        NetRefusal::OutOfMemory => Err(Refusal::OutOfMemory),
    }
}

/// The line of a packet whose byte isn't the one that is known.
fn conflict_line(alloc: Global, kept: u8, got: u8) -> Result<Vec<u8>, OutOfMemory>
    ensures { IfOk result (λ line. line.items ≡ refused_line (net_words (NetRefusal.Conflict kept got))) }
{
    let mut line = Vec::new(alloc);
    let pads = [u64::from(kept), u64::from(got)];
    add_numbered(&mut line, b"refused conflict", &pads)?;
    Ok(line)
}

/// A packet that has come.
fn answer_packet<H: House>(
    alloc: Global,
    house: &mut H,
    replica: &mut Replica,
    packet: Packet,
) -> Result<(), Refusal>
    ensures heard { GivesHeard (H.world house.old) (H.world house.new) result
        replica.old replica.new
        (answer_packet (net_session replica.old) packet (packet_refusal (known_of replica.old) packet)) }
    ensures rest { LeavesWriting (H.world house.old) (H.world house.new) }
{
    match replica.deliver(&packet) {
        Ok(()) => Ok(()),
        Err(refusal) => refuse(alloc, house, refusal),
    }
}

/// One frame has passed.
fn answer_next<H: House>(alloc: Global, house: &mut H, replica: &mut Replica) -> Result<(), Refusal>
    ensures heard { GivesHeard (H.world house.old) (H.world house.new) result
        replica.old replica.new
        (answer_next (net_session replica.old)) }
    ensures rest { LeavesWriting (H.world house.old) (H.world house.new) }
{
    match replica.advance() {
        Ok(()) => Ok(()),
        Err(refusal) => refuse(alloc, house, refusal),
    }
}

/// Keeps a place of the predicted recording.
fn answer_keep<L: Ledger, H: House>(
    alloc: Global,
    house: &mut H,
    replica: &mut Replica,
    p: u32,
    steps: &mut Steps<L>,
) -> Result<(), Refusal>
    ensures heard { GivesHeard (H.world house.old) (H.world house.new) result
        replica.old replica.new
        (answer_keep (net_session replica.old) p
        (keep_refusal places_alone p (session.net_draft (net_session replica.old)))) }
    ensures rest { LeavesWriting (H.world house.old) (H.world house.new) }
{
    match replica.keep(alloc, p as usize, steps) {
        Ok(()) => Ok(()),
        Err(refusal) => refuse(alloc, house, refusal),
    }
}

/// Writes the image of a place of the predicted recording.
fn answer_show<L: Ledger, H: House>(
    alloc: Global,
    house: &mut H,
    replica: &mut Replica,
    image: &mut [u8; IMAGE_LEN],
    p: u32,
    steps: &mut Steps<L>,
) -> Result<(), Refusal>
    requires { replica.old.editor.disk ≡ [] }
    ensures heard { GivesHeard (H.world house.old) (H.world house.new) result
        replica.old replica.new
        (answer_text (net_session replica.old) (if_passed (net_session replica.old) p
        (predicted_image (editing_setup replica.old.editor) (net_session replica.old) p))) }
    ensures rest { LeavesWriting (H.world house.old) (H.world house.new) }
{
    match replica.show(alloc, p as usize, steps) {
        Ok(state) => {
            ppm_into(state, image);
            write_bytes(alloc, house, image.as_slice())
        }
        Err(refusal) => refuse(alloc, house, refusal),
    }
}

/// Writes the line of the state at a place of the predicted recording.
fn answer_state<L: Ledger, H: House>(
    alloc: Global,
    house: &mut H,
    replica: &mut Replica,
    p: u32,
    steps: &mut Steps<L>,
) -> Result<(), Refusal>
    requires { replica.old.editor.disk ≡ [] }
    ensures heard { GivesHeard (H.world house.old) (H.world house.new) result
        replica.old replica.new
        (answer_text (net_session replica.old) (if_passed (net_session replica.old) p
        (predicted_state (editing_setup replica.old.editor) (net_session replica.old) p))) }
    ensures rest { LeavesWriting (H.world house.old) (H.world house.new) }
{
    match facts(alloc, replica, p as usize, steps) {
        Ok(facts) => {
            let count = replica.count();
            let line = state_line(alloc, replica.editor(), p as usize, count, facts)?;
            write_bytes(alloc, house, line.as_slice())
        }
        Err(refusal) => refuse(alloc, house, refusal),
    }
}

/// Whether the cart still runs at a place, and how long its disk is there.
fn facts<L: Ledger>(
    alloc: Global,
    replica: &mut Replica,
    p: usize,
    steps: &mut Steps<L>,
) -> Result<Facts, NetRefusal>
    ensures facts { IfOk result (λ facts. (state : State)
        × (run_state (editing_setup replica.old.editor) replica.old.editor.disk (prediction replica.old) p
        ≡ Some state) × (state.halt ≡ facts.halt) × (length state.disk ≡ facts.disk_len)) }
    ensures keeps { OnOk result (KeepsNetplay replica.old replica.new) }
    ensures refused { IfErr result (IsNetRefusal (place_refusal p (predicted_draft replica.old))) }
    ensures accepted { OnOk result (place_refusal p (predicted_draft replica.old) ≡ None) }
    ensures unchanged { IfErr result (λ refusal. refusal ≢ MemoryRefused → replica.new ≡ replica.old) }
{
    match replica.show(alloc, p, steps) {
        Ok(state) => Ok(Facts {
            halt: state.halt,
            disk_len: state.disk.bytes().len(),
        }),
        Err(refusal) => Err(refusal),
    }
}
