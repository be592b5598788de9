//! Edits over houses of which one call alone fails, for each call in turn.

use super::houses::{EDITED, edit, house_without_script};
use crate::run::w4_run;
use std::alloc::Global;
use std::process::Abort;
use std::test::Fail;
use std::thread::Threads;
use w4_commands::Status;
use w4_defs::OutOfMemory;

/// Edits, an undo too many, and what they write after two images.
const UNDONE: &str = "set 0 27 0 0 0 0 0 0\nshow 1\nundo\nshow 1\nundo\nstate 1\n";

const UNDONE_TEXT: &str = "refused nothing to undo\nstate 1 of 2 halt running disk 0 kept 0\n";

/// One order of each kind, and what they write after two images. The disk is empty.
const EACH_KIND: &str =
    "set 0 27 0 0 0 0 0 0\ninsert 1 0 0 0 0 0 0 0\ndelete 1\nundo\nredo\nkeep 1\n\
    keep-every 2\ndrop 1\nsettle 1\nshow 1\nfilm 1 1 1\ntones 1 1\ntraces 1 1\ndisk 1\nstate 1\n";

const EACH_KIND_TEXT: &str = "frame 1\nframe 1\nstate 1 of 2 halt running disk 0 kept 0 2\n";

/// The first four pixels of an image, in red, green and blue. Pad 1 was 27, or 0.
pub(super) const MARKED: [u8; 12] = [
    0x07, 0x18, 0x21, 0x30, 0x68, 0x50, 0x86, 0xc0, 0x6c, 0xe0, 0xf8, 0xcf,
];

const PLAIN: [u8; 12] = [
    0xe0, 0xf8, 0xcf, 0xe0, 0xf8, 0xcf, 0xe0, 0xf8, 0xcf, 0xe0, 0xf8, 0xcf,
];

/// Two images, of which all but the first four pixels have the first colour, and a text.
fn printed(alloc: Global, first: &[u8], second: &[u8], text: &str) -> Result<Vec<u8>, OutOfMemory> {
    let rest = [0xe0_u8, 0xf8, 0xcf].repeat(alloc, 25_596)?;
    let mut out = Vec::new(alloc);
    out.extend_from_slice(b"P6\n160 160\n255\n")?;
    out.extend_from_slice(first)?;
    out.extend_from_slice(rest.as_slice())?;
    out.extend_from_slice(b"P6\n160 160\n255\n")?;
    out.extend_from_slice(second)?;
    out.extend_from_slice(rest.as_slice())?;
    out.extend_from_slice(text.as_bytes())?;
    Ok(out)
}

/// Tests that the edit by this script fails at each call in turn, until a run has fewer calls and is done.
///
/// The first four calls read. A run that fails has written a first part of what the whole run writes, and has
/// made no file. Only the last call of the whole run, which makes the file, comes after all is printed.
fn check_each_call<R: Threads + Sync + Abort>(
    rt: &R,
    alloc: Global,
    script: &str,
    whole: &[u8],
    left: &[u8],
) -> Result<(), Fail> {
    let words = edit(alloc)?;
    let mut before = 0;
    for call in 1..64 {
        let mut house = house_without_script(alloc)?;
        house.put_file("s", script.as_bytes())?;
        house.fail_at(call)?;
        let status = w4_run(rt, alloc, words.as_slice(), &mut house);
        assert!(rt; whole.starts_with(house.out()));
        if status == Status::Done {
            assert_eq!(rt; (before, house.out().len()), (whole.len(), whole.len()));
            assert!(rt; house.err().is_empty());
            assert!(rt; house.file("o") == Some(left));
            return Ok(());
        }
        let fault = if call <= 4 {
            (Status::ReadFault, "w4: cannot read\n")
        } else {
            (Status::WriteFault, "w4: cannot write\n")
        };
        assert_eq!(rt; status, fault.0);
        assert!(rt; house.err() == fault.1.as_bytes());
        assert!(rt; call > 5 || house.out().is_empty());
        assert!(rt; house.file("o").is_none());
        before = house.out().len();
    }
    Err(Fail::from("no run was done"))
}

#[test]
fn each_call_of_an_undone_edit_may_fail(rt: HostRuntime) -> Result<(), Fail> {
    let whole = printed(rt.alloc(), &MARKED, &PLAIN, UNDONE_TEXT)?;
    let mut left = EDITED;
    left[47] = 0;
    check_each_call(&rt, rt.alloc(), UNDONE, whole.as_slice(), &left)
}

#[test]
fn each_call_of_an_edit_with_each_kind_of_order_may_fail(rt: HostRuntime) -> Result<(), Fail> {
    let whole = printed(rt.alloc(), &MARKED, &MARKED, EACH_KIND_TEXT)?;
    check_each_call(&rt, rt.alloc(), EACH_KIND, whole.as_slice(), &EDITED)
}
