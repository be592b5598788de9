//! The calls of a house and their answers.

ghost use Rattle.std.specs.Prelude.{
  ◌≡◌,
  ◌⊎◌,
  ◌≤◌,
  ◌+◌,
  ◌∷◌,
  [],
  List,
  Some,
  length,
  IfOk,
  IfSome,
  OnOk,
  OnErr,
  IsErrOf,
  option_map,
  ⊤,
};
ghost use Rattle.std.specs.Option.{ForSome};
ghost use Rattle.std.specs.FinMap.{get};
ghost use Rattle.w4_defs.specs.World.{
  World,
  InputLost,
  Saved,
  wrote,
  Rises,
  front_of,
  LacksFile,
  Appends,
  AppendsFront,
  Does,
  FailsToSave,
  LeavesReading,
  LeavesWriting,
  LeavesReporting,
  LeavesTaking,
  LeavesSaving,
};
ghost use Rattle.w4_defs.specs.Limits.{live_line_limit};
ghost use Rattle.w4_house.specs.Lines.{taken};

use std::alloc::{AllocError, Global};
use thiserror::Error;
use w4_defs::{OutOfMemory, Refusal};

/// Why a file or a line of standard input couldn't be read.
#[derive(Clone, Copy, PartialEq, Eq, Debug, Error)]
pub enum HouseFault {
    /// The house tells its files and has none of this name.
    #[error("no such file")]
    Absent,
    /// The read failed, and the count of failed reads rose.
    #[error("the read failed")]
    Failed,
    /// Memory was refused.
    #[error("out of memory")]
    OutOfMemory,
}

/// Why bytes weren't written, or not all of them.
#[derive(Clone, Copy, PartialEq, Eq, Debug, Error)]
pub enum WriteRefusal {
    /// The write failed, and its count of faults rose.
    #[error("the write failed")]
    Failed,
    /// Memory was refused.
    #[error("out of memory")]
    OutOfMemory,
}

impl From<AllocError> for HouseFault {
    ghost use Rattle.w4_house.specs.declared.calls.HouseFault.{HouseFault};

    ghost from_gives = { λ _ fault. fault ≡ HouseFault.OutOfMemory };

    fn from(_refusal: AllocError) -> HouseFault {
        HouseFault::OutOfMemory
    }
}

impl From<OutOfMemory> for WriteRefusal {
    ghost use Rattle.w4_house.specs.declared.calls.WriteRefusal.{WriteRefusal};

    ghost from_gives = { λ _ refusal. refusal ≡ WriteRefusal.OutOfMemory };

    fn from(_refusal: OutOfMemory) -> WriteRefusal {
        WriteRefusal::OutOfMemory
    }
}

impl From<WriteRefusal> for Refusal {
    ghost use Rattle.w4_house.specs.Calls.{write_refusal};

    ghost from_gives = { λ why refusal. refusal ≡ write_refusal why };

    fn from(why: WriteRefusal) -> Refusal {
        match why {
            WriteRefusal::Failed => Refusal::WriteFault,
            WriteRefusal::OutOfMemory => Refusal::OutOfMemory,
        }
    }
}

impl From<AllocError> for WriteRefusal {
    ghost use Rattle.w4_house.specs.declared.calls.WriteRefusal.{WriteRefusal};

    ghost from_gives = { λ _ refusal. refusal ≡ WriteRefusal.OutOfMemory };

    fn from(_refusal: AllocError) -> WriteRefusal {
        WriteRefusal::OutOfMemory
    }
}

/// Files, standard input, two outputs and three counts of faults, which never fall.
///
/// The counts are those of reads, of writes to standard output and to files, and of writes to standard error.
/// Each call leaves the two counts that aren't its own, and everything else that isn't named for it. Names
/// are compared byte by byte.
pub trait House {
    ghost world: { Self → World };

    /// The first `most` bytes of a file, or all if it has fewer.
    fn read_front(&mut self, alloc: Global, name: &str, most: usize) -> Result<Vec<u8>, HouseFault>
        ensures bytes { IfOk result
            (λ bytes. ForSome (world self.old).files
            (λ files. front_of files name.now most ≡ Some bytes.items)) }
        ensures most { IfOk result (λ bytes. length bytes.items ≤ most) }
        ensures absent { IsErrOf result HouseFault.Absent → LacksFile (world self.old).files name.now }
        ensures absent_count { IsErrOf result HouseFault.Absent
            → (world self.new).read_faults ≡ (world self.old).read_faults }
        ensures failed { IsErrOf result HouseFault.Failed
            → Rises (world self.old).read_faults (world self.new).read_faults }
        ensures rest { LeavesReading (world self.old) (world self.new) };

    /// The next line of standard input, without its byte 10, or None at the end.
    ///
    /// The last line may lack its byte 10, and counts as a line if it has a byte. Of a line of more than
    /// 1,024 bytes the first 1,025 are returned; the rest is read and dropped, and takes no memory. After a
    /// refusal no line is taken, and what was read of one is lost; if memory ran out, it may be that nothing
    /// was read.
    fn read_line(&mut self, alloc: Global) -> Result<Option<Vec<u8>>, HouseFault>
        ensures taken { IfOk result (λ line. Does (world self.old) (world self.new)
            (taken (option_map (λ bytes. bytes.items) line) ∷ [])) }
        ensures most { IfOk result
            (λ line. IfSome line (λ bytes. length bytes.items ≤ live_line_limit + 1)) }
        ensures never_absent { IsErrOf result HouseFault.Absent → ⊥ }
        ensures lost { IsErrOf result HouseFault.Failed
            → Does (world self.old) (world self.new) (InputLost ∷ []) }
        ensures failed { IsErrOf result HouseFault.Failed
            → Rises (world self.old).read_faults (world self.new).read_faults }
        ensures out_of_memory { IsErrOf result HouseFault.OutOfMemory
            → Does (world self.old) (world self.new) []
            ⊎ Does (world self.old) (world self.new) (InputLost ∷ []) }
        ensures rest { LeavesTaking (world self.old) (world self.new) };

    /// Writes to standard output, at once. After a refusal it has got a first part of the bytes.
    fn write_out(&mut self, alloc: Global, bytes: &[u8]) -> Result<(), WriteRefusal>
        ensures all { OnOk result
            (Appends (world self.old).events (world self.new).events (wrote bytes.now)) }
        ensures front { OnErr result
            (AppendsFront (world self.old).events (world self.new).events (wrote bytes.now)) }
        ensures failed { IsErrOf result WriteRefusal.Failed
            → Rises (world self.old).write_faults (world self.new).write_faults }
        ensures rest { LeavesWriting (world self.old) (world self.new) };

    /// Writes to standard error. After a refusal it has got a first part of the bytes.
    fn write_err(&mut self, alloc: Global, bytes: &[u8]) -> Result<(), WriteRefusal>
        ensures all { OnOk result (Appends (world self.old).err (world self.new).err bytes.now) }
        ensures front { OnErr result (AppendsFront (world self.old).err (world self.new).err bytes.now) }
        ensures failed { IsErrOf result WriteRefusal.Failed
            → Rises (world self.old).err_faults (world self.new).err_faults }
        ensures rest { LeavesReporting (world self.old) (world self.new) };

    /// Makes a file of exactly these bytes. After a failure it has the bytes that it had, or is absent as it
    /// was, or has exactly these; when memory runs out, it is unchanged. Every other file is unchanged.
    fn write_file(&mut self, alloc: Global, name: &str, bytes: &[u8]) -> Result<(), WriteRefusal>
        ensures saved { OnOk result
            (Does (world self.old) (world self.new) (Saved name.now bytes.now ∷ [])) }
        ensures not_saved { IsErrOf result WriteRefusal.Failed
            → FailsToSave (world self.old) (world self.new) [] (Saved name.now bytes.now ∷ []) }
        ensures failed { IsErrOf result WriteRefusal.Failed
            → Rises (world self.old).write_faults (world self.new).write_faults }
        ensures out_of_memory { IsErrOf result WriteRefusal.OutOfMemory
            → Does (world self.old) (world self.new) [] }
        ensures rest { LeavesSaving (world self.old) (world self.new) };
}
