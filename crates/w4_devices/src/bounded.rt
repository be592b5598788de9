//! Appending to a list of bounded length.

ghost use Rattle.std.specs.Prelude.{◌≡◌, ◌+◌, ◌++◌, ◌≤◌, length};
ghost use Rattle.arrayvec.specs.ArrayVec.{array_vec_len};

use arrayvec::ArrayVec;

/// Appends bytes for which there is room.
pub fn append<const ROOM: usize>(list: &mut ArrayVec<u8, ROOM>, bytes: &[u8])
    requires { array_vec_len list.old + length bytes.now ≤ ROOM }
    ensures { list.new.items ≡ list.old.items ++ bytes.now }
{
    let _ = list.try_extend_from_slice(bytes);
}
