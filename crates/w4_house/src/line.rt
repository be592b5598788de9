//! Lines of any reader, a byte at a time: none is read before it is needed.

ghost use Rattle.std.specs.Prelude.{
  ◌≡◌,
  ◌≤◌,
  ◌<◌,
  ◌∷◌,
  ◌++◌,
  [],
  List,
  length,
  take,
  Err,
  IfOk,
  IfSome,
  IsErrOf,
  OnOk,
  OnErr,
  option_map,
};
ghost use Rattle.std.specs.Io.KnownBytes.{Keeps};
ghost use Rattle.w4_house.specs.Lines.{GivesByte, GivesLine};

use crate::calls::HouseFault;
use std::alloc::Global;
use std::io::{ErrorKind, Read};

/// How many bytes are given of a line at most: one more than a line of a live session may have, so that a
/// longer one is seen to be longer.
pub(crate) const MOST_FRONT_BYTES: usize = 1_024 + 1;

/// The next byte, or None at the end. A read that a signal interrupts is retried.
fn next_byte<R: Read>(reader: &mut R) -> Result<Option<u8>, HouseFault>
    ensures byte { IfOk result (λ byte. GivesByte (R.remaining reader.old) (R.remaining reader.new) byte) }
    ensures kept { OnErr result (Keeps (R.remaining reader.old) (R.remaining reader.new)) }
    ensures never_absent { IsErrOf result HouseFault.Absent → ⊥ }
    ensures never_out_of_memory { IsErrOf result HouseFault.OutOfMemory → ⊥ }
{
    let mut byte = [0u8];
    for _ in 0..u64::MAX {
        match reader.read(&mut byte) {
            Ok(0) => return Ok(None),
            Ok(_) => return Ok(Some(byte[0])),
            Err(error) => {
                if error.kind() != ErrorKind::Interrupted {
                    return Err(HouseFault::Failed);
                }
            }
        }
    }
    Err(HouseFault::Failed)
}

/// Adds one more byte to the front of a line, if there is room.
fn add_to_front(front: &mut Vec<u8>, byte: u8, most: usize) -> Result<(), HouseFault>
    requires within { length front.old.items ≤ most }
    ensures front { OnOk result (front.new.items ≡ take most (front.old.items ++ byte ∷ [])) }
    ensures out_of_memory { OnErr result (result ≡ Err HouseFault.OutOfMemory) }
{
    if front.len() < most {
        front.extend_from_slice(&[byte])?;
    }
    Ok(())
}

/// The first `most` bytes of the next line, whose rest is passed over, or None at the end.
pub(crate) fn next_line<R: Read>(
    alloc: Global,
    reader: &mut R,
    most: usize,
) -> Result<Option<Vec<u8>>, HouseFault>
    requires some { 0 < most }
    ensures line { IfOk result (λ line. GivesLine most (R.remaining reader.old) (R.remaining reader.new)
        (option_map (λ bytes. bytes.items) line)) }
    ensures most { IfOk result (λ line. IfSome line (λ bytes. length bytes.items ≤ most)) }
    ensures never_absent { IsErrOf result HouseFault.Absent → ⊥ }
{
    let mut front = Vec::new(alloc);
    for _ in 0..u64::MAX {
        match next_byte(reader)? {
            None => {
                if front.is_empty() {
                    return Ok(None);
                }
                return Ok(Some(front));
            }
            Some(b'\n') => return Ok(Some(front)),
            Some(byte) => add_to_front(&mut front, byte, most)?,
        }
    }
    Err(HouseFault::Failed)
}
