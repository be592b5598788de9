//! Runs of the program in which two workers are under way at once, over a made cart of 600 frames.

use super::houses::edit;
use crate::run::w4_run_gated;
use std::alloc::Global;
use std::process::Abort;
use std::test::Fail;
use std::thread::Threads;
use w4_commands::Status;
use w4_defs::OutOfMemory;
use w4_house::SureHouse;
use w4_image::IMAGE_LEN;
use w4_record::digest_of;
use w4_tests::holder::Holder;
use wasm_write::{Made, Maker};

/// Eleven kept places, and three edits, each of which takes the link of another one away.
const EDITS: &str = "keep-every 60\nset 100 0 0 0 0 0 0 0\ninsert 200 0 0 0 0 0 0 0\ndelete 300\n";

/// A film that goes over two kept places: three pieces. The settling before it passes no gate.
const FILM: &str = "film 500 600 2\n";

const SETTLE: &str = "settle 2\nstate 600\n";

/// Each edit has moved the kept places behind it.
const SETTLED: &str =
    "state 600 of 600 halt running disk 0 kept 0 60 120 180 241 300 360 420 480 540 600\n";

/// The last image is that of a simulation without WebAssembly.
const ROW: &str = "r 600 halt running image \
    140f94514930fa76b089d305b6ba8cba4eea11e2584f1eb34582b714da2fe036 disk 0\n";

/// The recording of a made cart, in version 2. All but the first pad of each frame is 0.
fn recording(alloc: Global, made: &Made) -> Result<Vec<u8>, OutOfMemory> {
    let mut bytes = Vec::new(alloc);
    bytes.extend_from_slice(b"W4RC\x02")?;
    bytes.extend_from_slice(&digest_of(made.cart.as_slice()))?;
    bytes.extend_from_slice(&made.budget.to_le_bytes())?;
    bytes.extend_from_slice(&[0, 0])?;
    bytes.extend_from_slice(&600_u32.to_le_bytes())?;
    for input in made.inputs.as_slice() {
        bytes.push(input.pads[0])?;
        bytes.extend_from_slice(&[0; 9])?;
    }
    Ok(bytes)
}

/// A house with a made cart, its recording, a font, and a list that names the recording twice.
fn house(alloc: Global) -> Result<SureHouse, OutOfMemory> {
    let made = Maker::make(alloc, 7)?;
    let recording = recording(alloc, &made)?;
    let mut house = SureHouse::new(alloc);
    house.put_file("c", made.cart.as_slice())?;
    house.put_file("r", recording.as_slice())?;
    house.put_file("f", &[0; 1792])?;
    house.put_file("l", b"r\nr\n")?;
    Ok(house)
}

/// The house with a script: the edits and an order.
fn house_with_script(alloc: Global, order: &str) -> Result<SureHouse, OutOfMemory> {
    let mut script = Vec::new(alloc);
    script.extend_from_slice(EDITS.as_bytes())?;
    script.extend_from_slice(order.as_bytes())?;
    let mut house = house(alloc)?;
    house.put_file("s", script.as_slice())?;
    Ok(house)
}

/// Tests that the program is done with these words, and that its part 0 saw part 1 begin.
fn check_at_once<R: Threads + Sync + Abort>(
    rt: &R,
    alloc: Global,
    words: &[String],
    house: &mut SureHouse,
) {
    let gate = Holder::new();
    let status = w4_run_gated(rt, alloc, words, house, &gate);
    assert_eq!(rt; status, Status::Done);
    assert!(rt; gate.saw());
}

#[test]
fn a_film_is_made_by_two_at_once(rt: HostRuntime) -> Result<(), Fail> {
    let mut house = house_with_script(rt.alloc(), FILM)?;
    let words = edit(rt.alloc())?;
    check_at_once(&rt, rt.alloc(), words.as_slice(), &mut house);
    assert_eq!(rt; house.out().len(), 101 * IMAGE_LEN);
    Ok(())
}

#[test]
fn places_are_settled_by_two_at_once(rt: HostRuntime) -> Result<(), Fail> {
    let mut house = house_with_script(rt.alloc(), SETTLE)?;
    let words = edit(rt.alloc())?;
    check_at_once(&rt, rt.alloc(), words.as_slice(), &mut house);
    assert!(rt; house.out() == SETTLED.as_bytes());
    Ok(())
}

/// The words of a batch by two workers.
fn batch(alloc: Global) -> Result<Vec<String>, OutOfMemory> {
    let mut words = Vec::new(alloc);
    for word in ["batch", "c", "f", "l", "2"] {
        words.push(String::from_str(alloc, word)?)?;
    }
    Ok(words)
}

#[test]
fn a_batch_is_run_by_two_at_once(rt: HostRuntime) -> Result<(), Fail> {
    let mut house = house(rt.alloc())?;
    let words = batch(rt.alloc())?;
    check_at_once(&rt, rt.alloc(), words.as_slice(), &mut house);
    let rows = ROW.as_bytes().repeat(rt.alloc(), 2)?;
    assert!(rt; house.out() == rows.as_slice());
    Ok(())
}
