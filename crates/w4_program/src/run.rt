//! The top call: all that the program does, for every implementation of `House`.

ghost use Rattle.std.specs.Prelude.{◌≡◌, ◌⊎◌, None, map, string_bytes};
ghost use Rattle.w4_defs.specs.Causes.{IsReported, IsWhole, LeavesErr, Reports};
ghost use Rattle.w4_defs.specs.Commands.{form_of};
ghost use Rattle.w4_defs.specs.OneOutput.{AtMostOneOutput};
ghost use Rattle.w4_defs.specs.Outputs.{Outputs};
ghost use Rattle.w4_defs.specs.Promise.{KeepsPromise};
ghost use Rattle.w4_defs.specs.StatusLines.{status_line};
ghost use Rattle.w4_defs.specs.World.{AppendsFront, LeavesReporting};
ghost use Rattle.w4_program.specs.Run.{IsObeyed, status_of_end};

use std::alloc::Global;
use std::thread::Threads;
use w4_commands::status_line::status_line;
use w4_commands::{Finish, Refusal, Status, form_of_words, run_form};
use w4_console::laws::accepted_runs_have_meaning;
use w4_defs::output_laws::complete_is_done;
use w4_house::{House, WriteRefusal};
use w4_segments::{Gate, OpenGate, Resources};
use wasm_read::at_most_one;
use wasm_write::laws::made_modules_are_carts;

/// Does everything that the program does for these arguments, and returns how it ended.
///
/// `words` are the arguments after the program's name. `Outputs` defines what comes of them and of the files,
/// and `KeepsPromise` what each status means. Any status may give way to `OutOfMemory`.
pub fn w4_run<R: Threads + Sync, H: House>(
    rt: &R,
    alloc: Global,
    words: &[String],
    house: &mut H,
) -> Status
    ensures { KeepsPromise (H.world house.old) (H.world house.new) (map string_bytes words.now) result }
{
    w4_run_gated(rt, alloc, words, house, &OpenGate)
}

/// Does the same as `w4_run`, but each recording of a batch, each piece of a film and each segment that
/// `settle` brings up to date passes a gate as it begins. A gate has no effect on what is done.
pub fn w4_run_gated<R: Threads + Sync, H: House, G: Gate + Sync>(
    rt: &R,
    alloc: Global,
    words: &[String],
    house: &mut H,
    gate: &G,
) -> Status
    ensures { KeepsPromise (H.world house.old) (H.world house.new) (map string_bytes words.now) result }
{
    accepted_runs_have_meaning();
    made_modules_are_carts();
    complete_is_done();
    at_most_one();
    let status = obey(rt, alloc, words, house, gate);
    report(alloc, house, status)
}

/// Carries out the command. Writes nothing to standard error.
fn obey<R: Threads + Sync, H: House, G: Gate + Sync>(
    rt: &R,
    alloc: Global,
    words: &[String],
    house: &mut H,
    gate: &G,
) -> Status
    ensures obeyed { IsObeyed (H.world house.old) (H.world house.new) result
        (form_of (map string_bytes words.now) ≡ None) (Outputs (map string_bytes words.now)) }
    ensures err { LeavesErr (H.world house.old) (H.world house.new) }
{
    match form_of_words(words) {
        Some(form) => status_of(run_form(&Resources { rt, alloc, gate }, house, form)),
        None => Status::Usage,
    }
}

/// The status of a command that ended in this way.
fn status_of(end: Result<Finish, Refusal>) -> Status
    ensures { result ≡ status_of_end end }
{
    match end {
        Ok(finish) => Status::from(finish),
        Err(refusal) => Status::from(refusal),
    }
}

/// Writes the status's line, if it has one. If there is no memory for that, OutOfMemory is the status.
pub(crate) fn report<H: House>(alloc: Global, house: &mut H, status: Status) -> Status
    ensures status { (result ≡ status) ⊎ (result ≡ Status.OutOfMemory) }
    ensures line { IsReported result → Reports (H.world house.old) (H.world house.new) (status_line result) }
    ensures no_line { IsWhole result → (H.world house.new).err ≡ (H.world house.old).err }
    ensures cut { result ≡ Status.OutOfMemory → (¬ IsWhole status)
        × AppendsFront (H.world house.old).err (H.world house.new).err (status_line status) }
    ensures rest { LeavesReporting (H.world house.old) (H.world house.new) }
{
    if status == Status::Done || status == Status::Different {
        return status;
    }
    let Ok(line) = status_line(alloc, status) else {
        return Status::OutOfMemory;
    };
    match house.write_err(alloc, line.as_slice()) {
        Ok(()) => status,
        Err(WriteRefusal::Failed) => status,
        Err(WriteRefusal::OutOfMemory) => Status::OutOfMemory,
    }
}

/// For given arguments, files and lines of a session there is one output, so each status comes if and only if
/// the definition has it.
pub fn one_output()
    ensures { AtMostOneOutput }
{
    at_most_one();
}
