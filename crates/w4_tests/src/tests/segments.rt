//! Work split over threads, of which no clause says that with ample memory the calls succeed, and that two
//! pieces are under way at once.

use super::editor::{Trial, check};
use crate::carts::{IDLE, cart, font, pad};
use crate::holder::Holder;
use std::alloc::Global;
use std::process::Abort;
use std::test::Fail;
use std::thread::Threads;
use w4_defs::{EditRefusal, Halt};
use w4_editor::Editor;
use w4_font::Font;
use w4_image::IMAGE_LEN;
use w4_segments::{BatchRow, Gate, Resources, Workers, batch, film, settle_wide};
use wasm_register::Cart;

/// A recording of one frame of zeros, on the cart whose digest is 32 bytes of 7.
const ONE_FRAME: &[u8] = b"W4RC\x01\x07\x07\x07\x07\x07\x07\x07\x07\x07\x07\x07\x07\x07\x07\x07\x07\
    \x07\x07\x07\x07\x07\x07\x07\x07\x07\x07\x07\x07\x07\x07\x07\x07\xa0\x86\x01\0\0\0\x01\0\0\0\
    \0\0\0\0\0\0\0\0\0";

/// The SHA-256 of an image whose pixels are all e0f8cf, by another program.
const BLANK_IMAGE: [u8; 32] = [
    0x14, 0x0f, 0x94, 0x51, 0x49, 0x30, 0xfa, 0x76, 0xb0, 0x89, 0xd3, 0x05, 0xb6, 0xba, 0x8c, 0xba,
    0x4e, 0xea, 0x11, 0xe2, 0x58, 0x4f, 0x1e, 0xb3, 0x45, 0x82, 0xb7, 0x14, 0xda, 0x2f, 0xe0, 0x36,
];

/// Tests that two workers film all places at once.
pub fn check_film<R: Threads + Sync + Abort>(
    rt: &R,
    alloc: Global,
    editor: &mut Editor,
) -> Result<(), Fail> {
    let gate = Holder::new();
    let resources = Resources {
        rt,
        alloc,
        gate: &gate,
    };
    let film = film(&resources, editor, 0, 2, Workers { count: 2 })?;
    assert_eq!(rt; film.len(), 3 * IMAGE_LEN);
    assert!(rt; gate.saw());
    Ok(())
}

#[test]
fn two_pieces_of_a_film_are_under_way_at_once(rt: HostRuntime) -> Result<(), Fail> {
    check(&rt, rt.alloc(), Trial::Film)
}

/// Two edits, each of which takes a link away.
fn two_unlinked(alloc: Global, editor: &mut Editor) -> Result<(), EditRefusal> {
    editor.set(alloc, 0, pad(0))?;
    editor.set(alloc, 1, pad(0))
}

/// Tests that two workers settle two segments at once.
pub fn check_settling<R: Threads + Sync + Abort>(
    rt: &R,
    alloc: Global,
    editor: &mut Editor,
) -> Result<(), Fail> {
    two_unlinked(alloc, editor)?;
    let gate = Holder::new();
    let resources = Resources {
        rt,
        alloc,
        gate: &gate,
    };
    settle_wide(&resources, editor, Workers { count: 2 })?;
    assert!(rt; gate.saw());
    Ok(())
}

#[test]
fn two_segments_are_settled_at_once(rt: HostRuntime) -> Result<(), Fail> {
    check(&rt, rt.alloc(), Trial::Settling)
}

/// Two recordings, and one that lacks bytes.
fn items(alloc: Global) -> Result<Vec<Vec<u8>>, Fail> {
    let mut items = Vec::new(alloc);
    for bytes in [ONE_FRAME, ONE_FRAME, &ONE_FRAME[..46]] {
        items.push(Vec::from_slice(alloc, bytes)?)?;
    }
    Ok(items)
}

/// Tests that two workers run the two recordings at once.
fn check_batch<R: Threads + Sync + Abort>(
    rt: &R,
    alloc: Global,
    cart: &Cart,
    font: &Font,
    items: &[Vec<u8>],
) -> Result<(), Fail> {
    let gate = Holder::new();
    let resources = Resources {
        rt,
        alloc,
        gate: &gate,
    };
    let rows = batch(
        &resources,
        cart,
        font,
        &[7; 32],
        items,
        Workers { count: 2 },
    )?;
    let ran = BatchRow::Ran {
        frames: 1,
        halt: Halt::Running,
        image: BLANK_IMAGE,
        disk: 0,
    };
    assert_eq!(rt; rows.as_slice(), [ran, ran, BatchRow::Bad].as_slice());
    assert!(rt; gate.saw());
    Ok(())
}

#[test]
fn two_items_of_a_batch_are_run_at_once(rt: HostRuntime) -> Result<(), Fail> {
    let items = items(rt.alloc())?;
    let font = font()?;
    let cart = cart(rt.alloc(), &IDLE)?;
    check_batch(&rt, rt.alloc(), &cart, &font, items.as_slice())
}
