//! `batch`: the lines of the recordings of a list.

ghost use Rattle.std.specs.Prelude.{◌≡◌, ◌++◌, IfOk, OnOk, Some, length, map, string_bytes};
ghost use Rattle.std.specs.Option.{ForSome};
ghost use Rattle.w4_defs.specs.declared.batch.BatchRow.TheVariants.{Bad, Ran, WrongCart};
ghost use Rattle.w4_defs.specs.World.{LeavesReading, LeavesWriting};
ghost use Rattle.w4_defs.specs.Causes.{LeavesErr};
ghost use Rattle.w4_commands.specs.Commands.{EndsDone, MakesOf};
ghost use Rattle.w4_commands.specs.Load.{ResultsIn, StepGives, GivesValue, cart_view};
ghost use Rattle.w4_answers.specs.Writing.{Written};
ghost use Rattle.w4_defs.specs.BatchRows.{row_text, rows_text};
ghost use Rattle.w4_defs.specs.ToolOutputs.{
  batch_files,
  batch_output,
  batch_text,
  listed_files,
  listed_names,
  names_in,
};
ghost use Rattle.w4_commands.specs.Batch.{batch_loaded_view};
ghost use Rattle.w4_commands.specs.Forms.{batch_view};

use crate::forms::BatchNames;
use crate::lines_refusal::list_refusal;
use crate::load::{load_font, read_file};
use std::alloc::Global;
use std::thread::Threads;
use w4_answers::state_line::add_halt;
use w4_answers::writing::write_bytes;
use w4_cart::CartFile;
use w4_defs::batch::BatchRow;
use w4_defs::{Halt, OutOfMemory, Refusal};
use w4_devices::text_parts::{add_hexadecimal, add_number, add_words};
use w4_font::Font;
use w4_house::House;
use w4_script::{MOST_LIST_BYTES, read_names};
use w4_segments::{Gate, Resources, Workers, batch};

/// The files of a batch, without the cart: the bytes of the listed files are in the order of the names.
#[derive(Drop)]
pub struct BatchLoaded {
    pub font: Font,
    pub names: Vec<String>,
    pub recordings: Vec<Vec<u8>>,
}

/// The result of a recording that was run.
#[derive(Clone, Copy)]
struct Outcome {
    frames: u32,
    halt: Halt,
    image: [u8; 32],
    disk: u32,
}

/// `batch CART FONT LIST WORKERS`.
#[tactic(auto, unfolding(w4_defs::specs::ToolOutputs::batch_output))]
pub fn run_batch<R: Threads + Sync, H: House, G: Gate + Sync>(
    resources: &Resources<'_, R, G>,
    house: &mut H,
    file: &CartFile,
    names: BatchNames<'_>,
) -> Result<(), Refusal>
    ensures ends { EndsDone (H.world house.old) (H.world house.new) result
        (MakesOf (λ files. batch_output (batch_view names.entry) (cart_view file.now) files)) }
    ensures err { LeavesErr (H.world house.old) (H.world house.new) }
{
    let loaded = load_batch(resources.alloc, house, names)?;
    write_batch(resources, house, file, &loaded, names.workers)
}

/// Reads what a batch is made of.
#[tactic(auto, unfolding(w4_defs::specs::ToolOutputs::batch_files))]
fn load_batch<H: House>(
    alloc: Global,
    house: &mut H,
    names: BatchNames<'_>,
) -> Result<BatchLoaded, Refusal>
    ensures gives { StepGives (H.world house.old) (H.world house.new) batch_loaded_view result
        (ResultsIn (λ files. batch_files (batch_view names.entry) files)) }
    ensures many { IfOk result (λ loaded. length loaded.recordings.items ≡ length loaded.names.items) }
    ensures rest { LeavesReading (H.world house.old) (H.world house.new) }
{
    let font = load_font(alloc, house, names.font)?;
    let listed = load_names(alloc, house, names.list)?;
    let recordings = load_listed(alloc, house, listed.as_slice())?;
    Ok(BatchLoaded {
        font,
        names: listed,
        recordings,
    })
}

#[tactic(auto, unfolding(w4_defs::specs::ToolOutputs::names_in))]
fn load_names<H: House>(alloc: Global, house: &mut H, name: &str) -> Result<Vec<String>, Refusal>
    ensures gives { StepGives (H.world house.old) (H.world house.new)
        (λ names. map string_bytes names.items) result
        (ResultsIn (λ files. names_in files name.now)) }
    ensures rest { LeavesReading (H.world house.old) (H.world house.new) }
{
    let bytes = read_file(alloc, house, name, MOST_LIST_BYTES + 1)?;
    judge_names(alloc, bytes.as_slice())
}

/// The names of a list.
#[tactic(auto, unfolding(w4_defs::specs::ToolOutputs::listed_names))]
fn judge_names(alloc: Global, bytes: &[u8]) -> Result<Vec<String>, Refusal>
    ensures { GivesValue (λ names. map string_bytes names.items) result (listed_names bytes.now) }
{
    read_names(alloc, bytes).map_err(list_refusal)
}

/// Reads the listed files, in order.
fn load_listed<H: House>(
    alloc: Global,
    house: &mut H,
    names: &[String],
) -> Result<Vec<Vec<u8>>, Refusal>
    ensures gives { StepGives (H.world house.old) (H.world house.new)
        (λ recordings. map (λ bytes. bytes.items) recordings.items) result
        (ResultsIn (λ files. listed_files (map string_bytes names.now) files)) }
    ensures many { IfOk result (λ recordings. length recordings.items ≡ length names.now) }
    ensures rest { LeavesReading (H.world house.old) (H.world house.new) }
{
    let mut recordings = Vec::new(alloc);
    for name in names {
        let bytes = read_file(alloc, house, name.as_str(), w4_record::MOST_BYTES + 1)?;
        recordings.push(bytes)?;
    }
    Ok(recordings)
}

/// Runs the recordings, and writes the line of each.
fn write_batch<R: Threads + Sync, H: House, G: Gate + Sync>(
    resources: &Resources<'_, R, G>,
    house: &mut H,
    file: &CartFile,
    loaded: &BatchLoaded,
    workers: Workers,
) -> Result<(), Refusal>
    requires { length loaded.now.recordings.items ≡ length loaded.now.names.items }
    ensures out { ForSome (batch_text (cart_view file.now) (batch_loaded_view loaded.now))
        (λ text. Written (H.world house.old) (H.world house.new) result text) }
    ensures rest { LeavesWriting (H.world house.old) (H.world house.new) }
{
    let CartFile { cart, digest } = file;
    let items = loaded.recordings.as_slice();
    let rows = batch(resources, cart, &loaded.font, digest, items, workers)?;
    write_rows(
        resources.alloc,
        house,
        loaded.names.as_slice(),
        rows.as_slice(),
    )
}

/// Writes the lines of all rows, in the order of the names.
fn write_rows<H: House>(
    alloc: Global,
    house: &mut H,
    names: &[String],
    rows: &[BatchRow],
) -> Result<(), Refusal>
    requires { length rows.now ≡ length names.now }
    ensures out { ForSome (rows_text (map string_bytes names.now) (map (λ row. Some row) rows.now))
        (λ text. Written (H.world house.old) (H.world house.new) result text) }
    ensures rest { LeavesWriting (H.world house.old) (H.world house.new) }
{
    for i in 0..names.len() {
        let line = row_line(alloc, names[i].as_str(), &rows[i])?;
        write_bytes(alloc, house, line.as_slice())?;
    }
    Ok(())
}

/// The line of a row.
fn row_line(alloc: Global, name: &str, row: &BatchRow) -> Result<Vec<u8>, OutOfMemory>
    ensures { IfOk result (λ line. line.items ≡ row_text name.now row.now) }
{
    let mut line = Vec::new(alloc);
    match row {
        BatchRow::Bad => add_bad(&mut line, name)?,
        BatchRow::WrongCart => add_wrong_cart(&mut line, name)?,
        BatchRow::Ran {
            frames,
            halt,
            image,
            disk,
        } => {
            let outcome = Outcome {
                frames: *frames,
                halt: *halt,
                image: *image,
                disk: *disk,
            };
            add_outcome(&mut line, name, outcome)?;
        }
    }
    Ok(line)
}

/// Adds two texts, one after the other.
fn add_two(line: &mut Vec<u8>, first: &[u8], second: &[u8]) -> Result<(), OutOfMemory>
    ensures { OnOk result (line.new.items ≡ line.old.items ++ (first.now ++ second.now)) }
{
    add_words(line, first)?;
    add_words(line, second)
}

fn add_bad(line: &mut Vec<u8>, name: &str) -> Result<(), OutOfMemory>
    ensures { OnOk result (line.new.items ≡ line.old.items ++ row_text name.now Bad) }
{
    add_two(line, name.as_bytes(), b" bad\n")
}

fn add_wrong_cart(line: &mut Vec<u8>, name: &str) -> Result<(), OutOfMemory>
    ensures { OnOk result (line.new.items ≡ line.old.items ++ row_text name.now WrongCart) }
{
    add_two(line, name.as_bytes(), b" wrong cart\n")
}

fn add_outcome(line: &mut Vec<u8>, name: &str, outcome: Outcome) -> Result<(), OutOfMemory>
    ensures { OnOk result (line.new.items ≡ line.old.items ++ row_text name.now
        (Ran outcome.frames outcome.halt outcome.image outcome.disk)) }
{
    add_words(line, name.as_bytes())?;
    add_number(line, u64::from(outcome.frames))?;
    add_words(line, b" halt ")?;
    add_halt(line, outcome.halt)?;
    add_words(line, b" image ")?;
    add_hexadecimal(line, &outcome.image)?;
    add_words(line, b" disk")?;
    add_number(line, u64::from(outcome.disk))?;
    add_words(line, b"\n")
}
