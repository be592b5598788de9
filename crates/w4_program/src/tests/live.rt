//! Live sessions over houses of which one call alone fails, for each call in turn.

use super::each_call::MARKED;
use super::houses::{EDITED, house_without_script};
use crate::run::w4_run;
use std::alloc::Global;
use std::process::Abort;
use std::test::Fail;
use w4_commands::Status;
use w4_defs::OutOfMemory;
use w4_house::{LogEntry, MemoryHouse};

/// The edit of one input, and the image after it.
const INPUT: &str = "set 0 27 0 0 0 0 0 0\nshow 1\n";

/// The words of a session over a cart `c`, a recording `r` and a font `f` that leaves `o`.
fn serve(alloc: Global) -> Result<Vec<String>, OutOfMemory> {
    let mut words = Vec::new(alloc);
    for word in ["serve", "c", "r", "f", "o"] {
        words.push(String::from_str(alloc, word)?)?;
    }
    Ok(words)
}

/// All answers: none of the edit, and an image, of which all but the first four pixels have the first colour.
fn answers(alloc: Global) -> Result<Vec<u8>, OutOfMemory> {
    let rest = [0xe0_u8, 0xf8, 0xcf].repeat(alloc, 25_596)?;
    let mut out = Vec::new(alloc);
    out.extend_from_slice(b"0\n76815\nP6\n160 160\n255\n")?;
    out.extend_from_slice(&MARKED)?;
    out.extend_from_slice(rest.as_slice())?;
    out.extend_from_slice(b"0\n")?;
    Ok(out)
}

/// The recording that is left if that many lines were taken: the first is the edit.
fn left_after(lines: usize) -> [u8; 67] {
    let mut left = EDITED;
    if lines == 0 {
        left[47] = 0;
    }
    left
}

/// How many lines were taken, how many reads of them failed, and how many files weren't replaced.
#[derive(Clone, Copy, PartialEq, Debug)]
struct Tally {
    lines: usize,
    input_faults: usize,
    file_faults: usize,
}

fn tally_of(log: &[LogEntry]) -> Tally {
    let mut tally = Tally {
        lines: 0,
        input_faults: 0,
        file_faults: 0,
    };
    for entry in log {
        match entry {
            LogEntry::Line(_) => tally.lines = tally.lines.saturating_add(1),
            LogEntry::InputFault => tally.input_faults = tally.input_faults.saturating_add(1),
            LogEntry::FileFault(_) => tally.file_faults = tally.file_faults.saturating_add(1),
            _ => {}
        }
    }
    tally
}

/// Tests that nothing is done where a file can't be read.
fn check_read_fault<R: Abort>(rt: &R, house: &MemoryHouse, status: Status) {
    assert_eq!(rt; status, Status::ReadFault);
    assert!(rt; house.err() == b"w4: cannot read\n".as_slice());
    assert!(rt; house.log().is_empty());
    assert!(rt; house.file("o").is_none());
}

/// Tests that a session that is stopped leaves the recording that the lines taken make, unless it is the file
/// that can't be replaced.
fn check_stopped<R: Abort>(rt: &R, house: &MemoryHouse, status: Status) {
    let found = tally_of(house.log());
    let fault = if found.input_faults == 1 {
        (Status::InputFault, "w4: cannot read input\n")
    } else {
        (Status::WriteFault, "w4: cannot write\n")
    };
    assert_eq!(rt; status, fault.0);
    assert!(rt; house.err() == fault.1.as_bytes());
    let left = left_after(found.lines);
    if found.file_faults == 0 {
        assert!(rt; house.file("o") == Some(left.as_slice()));
    } else {
        assert!(rt; house.file("o").is_none());
    }
}

/// Three files are read first. Two lines and the end of the input are asked for, and one file is replaced.
#[test]
fn each_call_of_a_session_may_fail(rt: HostRuntime) -> Result<(), Fail> {
    let whole = answers(rt.alloc())?;
    let words = serve(rt.alloc())?;
    let (mut input_faults, mut file_faults) = (0_usize, 0_usize);
    for call in 1..64 {
        let mut house = house_without_script(rt.alloc())?;
        house.put_input(INPUT.as_bytes())?;
        house.fail_at(call)?;
        let status = w4_run(&rt, rt.alloc(), words.as_slice(), &mut house);
        assert!(rt; whole.as_slice().starts_with(house.out()));
        if status == Status::Done {
            assert_eq!(rt; house.out().len(), whole.len());
            assert!(rt; house.err().is_empty());
            assert!(rt; house.file("o") == Some(EDITED.as_slice()));
            assert_eq!(rt; (input_faults, file_faults), (3, 1));
            return Ok(());
        }
        if call <= 3 {
            check_read_fault(&rt, &house, status);
        } else {
            check_stopped(&rt, &house, status);
        }
        let found = tally_of(house.log());
        input_faults = input_faults.saturating_add(found.input_faults);
        file_faults = file_faults.saturating_add(found.file_faults);
    }
    Err(Fail::from("no run was done"))
}
