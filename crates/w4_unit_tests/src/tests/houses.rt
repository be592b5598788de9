//! What no clause says: that the house of the program reads the files and the input that it is asked for, and
//! writes the bytes that it is given; and that the calls of `SureHouse` on standard input and standard error,
//! which no other test makes, succeed where there is enough memory.

ghost use Rattle.std.specs.Prelude.{None};

use std::alloc::Global;
use std::io::{self, Cursor, ErrorKind, Read};
use std::process::Abort;
use std::test::Fail;
use w4_defs::OutOfMemory;
use w4_house::{House, HouseFault, RealHouse, SureHouse, WriteRefusal};

/// The file of this name has these first bytes.
fn check_front<H: House>(
    rt: &(impl Abort + AllocGlobal),
    house: &mut H,
    name: &str,
    most: usize,
    wanted: &[u8],
) -> Result<(), Fail> {
    let bytes = house.read_front(rt.alloc(), name, most)?;
    assert_eq!(rt; bytes.as_slice(), wanted);
    Ok(())
}

/// A file is written, read up to a number of bytes, and written again.
fn check_files<H: House>(rt: &(impl Abort + AllocGlobal), house: &mut H) -> Result<(), Fail> {
    let bytes = [7u8; 10_000];
    house.write_file(rt.alloc(), "kept", &bytes)?;
    check_front(rt, house, "kept", 20_000, &bytes)?;
    check_front(rt, house, "kept", 4_097, &bytes[..4_097])?;
    check_front(rt, house, "kept", 0, b"")?;
    house.write_file(rt.alloc(), "kept", b"new")?;
    check_front(rt, house, "kept", 20_000, b"new")
}

/// A file that isn't there can't be read, and one in no folder can't be written.
fn check_faults<H: House>(rt: &(impl Abort + AllocGlobal), house: &mut H) {
    let fault = house.read_front(rt.alloc(), "absent", 1).err();
    assert_eq!(rt; fault, Some(HouseFault::Failed));
    let refusal = house.write_file(rt.alloc(), "no folder/kept", b"new").err();
    assert_eq!(rt; refusal, Some(WriteRefusal::Failed));
}

/// Writes to both streams by turns.
fn write_streams<H: House>(rt: &impl AllocGlobal, house: &mut H) -> Result<(), Fail> {
    house.write_out(rt.alloc(), b"one ")?;
    house.write_err(rt.alloc(), b"fault")?;
    house.write_out(rt.alloc(), b"two")?;
    Ok(())
}

/// The next lines are these.
fn check_lines<H: House>(
    rt: &(impl Abort + AllocGlobal),
    house: &mut H,
    wanted: &[&[u8]],
) -> Result<(), Fail> {
    for wanted in wanted {
        let line = house.read_line(rt.alloc())?.ok_or("the input has ended")?;
        assert_eq!(rt; line.as_slice(), *wanted);
    }
    Ok(())
}

/// The input has these two lines.
fn check_input<H: House>(rt: &(impl Abort + AllocGlobal), house: &mut H) -> Result<(), Fail> {
    check_lines(rt, house, &[b"one", b"last"])?;
    let line = house.read_line(rt.alloc())?;
    assert!(rt; line.is_none());
    Ok(())
}

/// Reads the input and files, and writes files and both streams.
fn call_in_turn<H: House>(rt: &(impl Abort + AllocGlobal), house: &mut H) -> Result<(), Fail> {
    check_input(rt, house)?;
    check_files(rt, house)?;
    check_faults(rt, house);
    write_streams(rt, house)
}

#[test]
fn files_and_writers(rt: HostRuntime) -> Result<(), Fail> {
    let input = Cursor::new(Vec::from_slice(rt.alloc(), b"one\nlast")?);
    let (mut out, mut err) = (Vec::new(rt.alloc()), Vec::new(rt.alloc()));
    let mut house = RealHouse::new(&rt, input, &mut out, &mut err);
    call_in_turn(&rt, &mut house)?;
    drop(house);
    assert_eq!(rt; out.as_slice(), b"one two".as_slice());
    assert_eq!(rt; err.as_slice(), b"fault".as_slice());
    Ok(())
}

/// A reader that a signal interrupts before each byte, and that fails at its end.
#[derive(Drop)]
struct Disturbed {
    bytes: Cursor<Vec<u8>>,
    was_interrupted: bool,
}

impl Read for Disturbed {
    ghost remaining = { λ _. None };

    fn read(&mut self, buf: &mut [u8]) -> io::Result<usize> {
        self.was_interrupted = !self.was_interrupted;
        if self.was_interrupted {
            return Err(io::Error::from(ErrorKind::Interrupted));
        }
        match self.bytes.read(buf) {
            Ok(0) => Err(io::Error::from(ErrorKind::Other)),
            answer => answer,
        }
    }
}

/// Short lines, one of 1,024 bytes, one of 1,100, and one that its end doesn't follow.
fn lines(alloc: Global) -> Result<Vec<u8>, OutOfMemory> {
    let mut bytes = Vec::from_slice(alloc, b"one\n\n\r\n")?;
    bytes.extend_from_slice(&[b'a'; 1_024])?;
    bytes.push(b'\n')?;
    bytes.extend_from_slice(&[b'b'; 1_100])?;
    bytes.extend_from_slice(b"\nlast")?;
    Ok(bytes)
}

/// These lines are read, and the last one, in which the reader fails, is not.
fn check_disturbed<H: House>(rt: &(impl Abort + AllocGlobal), house: &mut H) -> Result<(), Fail> {
    check_lines(
        rt,
        house,
        &[b"one", b"", b"\r", &[b'a'; 1_024], &[b'b'; 1_025]],
    )?;
    let fault = house.read_line(rt.alloc()).err();
    assert_eq!(rt; fault, Some(HouseFault::Failed));
    Ok(())
}

#[test]
fn lines_of_a_disturbed_reader(rt: HostRuntime) -> Result<(), Fail> {
    let input = Disturbed {
        bytes: Cursor::new(lines(rt.alloc())?),
        was_interrupted: false,
    };
    let mut house = RealHouse::new(&rt, input, Vec::new(rt.alloc()), Vec::new(rt.alloc()));
    check_disturbed(&rt, &mut house)
}

#[test]
fn a_sure_house_has_no_input_and_keeps_errors(rt: HostRuntime) -> Result<(), Fail> {
    let mut house = SureHouse::new(rt.alloc());
    assert!(rt; house.read_line(rt.alloc())?.is_none());
    house.write_err(rt.alloc(), b"fault")?;
    assert_eq!(rt; house.err(), b"fault".as_slice());
    Ok(())
}
