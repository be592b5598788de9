//! Batches: many recordings are run on one cart, and one row is made of each.

ghost use Rattle.sha2.specs.Sha256.{sha256};
ghost use Rattle.std.specs.Prelude.{◌≡◌, ℕ, ◌+◌, ◌<◌, ◌≤◌, IfOk, Option, Some, length, map};
ghost use Rattle.w4_defs.specs.Batch.{file_row, file_rows, ran_row, run_row};
ghost use Rattle.w4_defs.specs.State.{HasGlobals};
ghost use Rattle.w4_defs.specs.declared.batch.BatchRow.{BatchRow};
ghost use Rattle.w4_segments.specs.Batching.{AreDealtOut, AreOfWorkers, AreRows, CoverAll, HasRows, bytes_of, item_row};

use crate::gate::Gate;
use crate::resources::Resources;
use crate::workers::Workers;
use std::alloc::Global;
use std::thread;
use std::thread::Threads;
use w4_console::{Console, Setup};
use w4_defs::OutOfMemory;
use w4_defs::batch::BatchRow;
use w4_devices::FrameRecord;
use w4_font::Font;
use w4_image::{IMAGE_LEN, ppm_into};
use w4_map::State;
use w4_record::{Recording, RecordingRefusal, digest_of, read_recording};
use wasm_register::Cart;

/// The cart with its digest, the font, and the bytes of the recordings.
#[derive(Clone, Copy)]
struct BatchFiles<'a> {
    cart: &'a Cart,
    digest: &'a [u8; 32],
    font: &'a Font,
    items: &'a [Vec<u8>],
}

/// The row of each item, in the items' order, by this many workers. An item that is run passes the gate with
/// its number before its reset. Errors: OutOfMemory.
pub fn batch<R: Threads + Sync, G: Gate + Sync>(
    resources: &Resources<'_, R, G>,
    cart: &Cart,
    font: &Font,
    digest: &[u8; 32],
    items: &[Vec<u8>],
    workers: Workers,
) -> Result<Vec<BatchRow>, OutOfMemory>
    ensures { IfOk result (λ rows. map Some rows.items
        ≡ file_rows sha256 cart.now font.now digest.now (map bytes_of items.now)) }
{
    let worker_count = items.len().min(workers.count);
    let files = BatchFiles {
        cart,
        digest,
        font,
        items,
    };
    let dealt = all_rows(resources, &files, worker_count)?;
    in_order(resources.alloc, dealt.as_slice(), items.len())
}

/// What that many workers make of their items, side by side.
fn all_rows<R: Threads + Sync, G: Gate + Sync>(
    resources: &Resources<'_, R, G>,
    files: &BatchFiles<'_>,
    worker_count: usize,
) -> Result<Vec<Result<Vec<BatchRow>, OutOfMemory>>, OutOfMemory>
    requires { worker_count ≤ 16 }
    ensures many { IfOk result (λ dealt. length dealt.items ≡ worker_count) }
    ensures rows { IfOk result (λ dealt. AreOfWorkers
        (item_row files.now.cart.now files.now.font.now files.now.digest.now files.now.items.now)
        (length files.now.items.now) worker_count dealt.items) }
{
    let (alloc, gate) = (resources.alloc, resources.gate);
    let rows = thread::map_indices(
        resources.rt,
        alloc,
        worker_count,
        &|first| rows_of(alloc, gate, files, first, worker_count),
    )?;
    Ok(rows)
}

/// What a worker runs recordings on: a console, and the room for an image.
#[derive(Drop)]
struct BatchWorker {
    console: Console,
    image_bytes: Box<[u8; IMAGE_LEN]>,
}

/// The rows that one worker makes: of item `first` and of each `stride`-th after it.
fn rows_of<G: Gate>(
    alloc: Global,
    gate: &G,
    files: &BatchFiles<'_>,
    first: usize,
    stride: usize,
) -> Result<Vec<BatchRow>, OutOfMemory>
    requires some { 0 < stride }
    requires few { first + stride ≤ 32 }
    ensures { IfOk result (λ rows. AreRows
        (item_row files.now.cart.now files.now.font.now files.now.digest.now files.now.items.now)
        (length files.now.items.now) first stride rows.items) }
{
    let mut worker = BatchWorker {
        console: Console::new(alloc, files.cart)?,
        image_bytes: Box::new(alloc, [0; IMAGE_LEN])?,
    };
    let items = files.items;
    let mut rows = Vec::new(alloc);
    let mut at = first;
    while at < items.len() {
        let bytes = items[at].as_slice();
        let row = row(alloc, gate, files, at, bytes, &mut worker)?;
        rows.push(row)?;
        at += stride;
    }
    Ok(rows)
}

/// The row of one item.
fn row<G: Gate>(
    alloc: Global,
    gate: &G,
    files: &BatchFiles<'_>,
    number: usize,
    bytes: &[u8],
    worker: &mut BatchWorker,
) -> Result<BatchRow, OutOfMemory>
    requires types { HasGlobals files.now.cart.now worker.old.console }
    ensures row { IfOk result (λ row. file_row sha256 files.now.cart.now files.now.font.now
        files.now.digest.now bytes.now ≡ Some row) }
    ensures types { HasGlobals files.now.cart.now worker.new.console }
{
    let recording = match read_recording(alloc, bytes) {
        Ok(recording) => recording,
        Err(RecordingRefusal::BadRecording) => return Ok(BatchRow::Bad),
        Err(RecordingRefusal::OutOfMemory) => return Err(OutOfMemory),
    };
    if recording.digest != *files.digest {
        return Ok(BatchRow::WrongCart);
    }
    gate.pass(number);
    Ok(run_recording(files.cart, files.font, &recording, worker))
}

/// Runs a recording from its reset to its last place.
fn run_recording(
    cart: &Cart,
    font: &Font,
    recording: &Recording,
    worker: &mut BatchWorker,
) -> BatchRow
    requires types { HasGlobals cart.now worker.old.console }
    ensures row { run_row sha256 cart.now font.now recording.now ≡ Some result }
    ensures types { HasGlobals cart.now worker.new.console }
{
    let console = &mut worker.console;
    let budget = recording.budget;
    let inputs = recording.frames.as_slice();
    let mut frame_record = FrameRecord::new();
    console.reset(
        cart,
        font,
        recording.disk.as_slice(),
        budget,
        &mut frame_record,
    );
    console.play(&Setup { cart, font, budget }, inputs);
    ran(
        inputs.len() as u32,
        console.state(),
        &mut worker.image_bytes,
    )
}

/// The row of a run that ended in this state.
fn ran(frames: u32, state: &State, image_bytes: &mut [u8; IMAGE_LEN]) -> BatchRow
    ensures { result ≡ ran_row sha256 frames state.now }
{
    ppm_into(state, image_bytes);
    BatchRow::Ran {
        frames,
        halt: state.halt,
        image: digest_of(image_bytes),
        disk: state.disk.bytes().len() as u32,
    }
}

/// The rows of that many items in their order, out of those that each worker made of its own items.
fn in_order(
    alloc: Global,
    dealt: &[Result<Vec<BatchRow>, OutOfMemory>],
    count: usize,
) -> Result<Vec<BatchRow>, OutOfMemory>
    requires some { 0 < count → 0 < length dealt.now }
    requires all { CoverAll count dealt.now }
    ensures { (wanted : ℕ → Option BatchRow) → AreDealtOut wanted count dealt.now
        → IfOk result (λ rows. HasRows wanted count rows.items) }
{
    let mut rows = Vec::new(alloc);
    for item in 0..count {
        rows.push(row_at(dealt, count, item)?)?;
    }
    Ok(rows)
}

/// The row of an item, which one of the workers made.
fn row_at(
    dealt: &[Result<Vec<BatchRow>, OutOfMemory>],
    count: usize,
    item: usize,
) -> Result<BatchRow, OutOfMemory>
    requires there { item < count }
    requires some { 0 < length dealt.now }
    requires all { CoverAll count dealt.now }
    ensures { (wanted : ℕ → Option BatchRow) → AreDealtOut wanted count dealt.now
        → IfOk result (λ row. wanted item ≡ Some row) }
{
    match &dealt[item % dealt.len()] {
        Ok(rows) => Ok(rows[item / dealt.len()]),
        Err(refusal) => Err(*refusal),
    }
}
