//! The house of the running program: the system's files, a reader and two writers.

ghost use Rattle.std.specs.Prelude.{
  ◌≡◌,
  ◌⊎◌,
  ◌≤◌,
  ◌+◌,
  ◌∷◌,
  [],
  List,
  Some,
  IfOk,
  IfSome,
  OnOk,
  OnErr,
  IsErrOf,
  Ok,
  is_ok,
  length,
  take,
  option_map,
};
ghost use Rattle.std.specs.Option.{ForSome};

use crate::calls::{House, HouseFault, WriteRefusal};
use crate::line::{MOST_FRONT_BYTES, next_line};
use crate::replace::replace;
use std::alloc::Global;
use std::fs;
use std::io::{self, ErrorKind, Read, Write};
use std::rt::Files;

/// Over the files of a runtime, a reader and two writers, in the program its standard streams.
///
/// Tells no contents. Each count rises at each refusal of its calls, including an absent file and running out
/// of memory.
#[derive(Drop)]
pub struct RealHouse<'a, R: Files, I: Read + Drop, O: Write + Drop, E: Write + Drop> {
    runtime: &'a R,
    input: I,
    out: O,
    err: E,
    read_faults: u64,
    write_faults: u64,
    err_faults: u64,
}

impl<'a, R: Files, I: Read + Drop, O: Write + Drop, E: Write + Drop> RealHouse<'a, R, I, O, E> {
    ghost use Rattle.w4_house.specs.Real.{real_world};

    /// Nothing has failed so far.
    pub fn new(runtime: &'a R, input: I, out: O, err: E) -> RealHouse<'a, R, I, O, E>
        ensures input { result.input ≡ input }
        ensures out { result.out ≡ out }
        ensures err { result.err ≡ err }
        ensures read_faults { (real_world result).read_faults ≡ 0 }
        ensures write_faults { (real_world result).write_faults ≡ 0 }
        ensures err_faults { (real_world result).err_faults ≡ 0 }
    {
        RealHouse {
            runtime,
            input,
            out,
            err,
            read_faults: 0,
            write_faults: 0,
            err_faults: 0,
        }
    }
}

/// The first `most` bytes that a reader gives, or all. A read that a signal interrupts is retried.
fn read_some<F: Read + Drop>(alloc: Global, file: F, most: usize) -> Result<Vec<u8>, HouseFault>
    ensures bytes { IfOk result
        (λ bytes. ForSome (F.remaining file) (λ left. bytes.items ≡ take most left)) }
    ensures most { IfOk result (λ bytes. length bytes.items ≤ most) }
    ensures never_absent { IsErrOf result HouseFault.Absent → ⊥ }
{
    let mut bytes = Vec::new(alloc);
    match file.take(most as u64).read_to_end(&mut bytes) {
        Ok(_) => {
            bytes.truncate(most);
            Ok(bytes)
        }
        Err(error) => {
            if error.kind() == ErrorKind::OutOfMemory {
                return Err(HouseFault::OutOfMemory);
            }
            Err(HouseFault::Failed)
        }
    }
}

/// The first bytes of the file of this name.
fn read_file<R: Files>(
    alloc: Global,
    runtime: &R,
    name: &str,
    most: usize,
) -> Result<Vec<u8>, HouseFault>
    ensures most { IfOk result (λ bytes. length bytes.items ≤ most) }
    ensures never_absent { IsErrOf result HouseFault.Absent → ⊥ }
{
    match fs::open(runtime, name) {
        Ok(file) => read_some(alloc, file, most),
        Err(_) => Err(HouseFault::Failed),
    }
}

/// The file of this name, replaced. If memory ran out, it is unchanged.
fn write_whole<R: Files>(
    alloc: Global,
    runtime: &R,
    name: &str,
    bytes: &[u8],
) -> Result<(), WriteRefusal> {
    match replace(alloc, runtime, name, bytes) {
        Ok(()) => Ok(()),
        Err(error) => {
            if error.kind() == ErrorKind::OutOfMemory {
                return Err(WriteRefusal::OutOfMemory);
            }
            Err(WriteRefusal::Failed)
        }
    }
}

impl<'a, R: Files, I: Read + Drop, O: Write + Drop, E: Write + Drop> House
    for RealHouse<'a, R, I, O, E> {
    ghost use Rattle.std.specs.Io.KnownBytes as known;
    ghost use Rattle.w4_defs.specs.World.{
      InputLost,
      Saved,
      wrote,
      Rises,
      front_of,
      LacksFile,
      Appends,
      AppendsFront,
      Does,
      FailsToSave,
      LeavesReading,
      LeavesWriting,
      LeavesReporting,
      LeavesTaking,
      LeavesSaving,
    };
    ghost use Rattle.w4_defs.specs.Limits.{live_line_limit};
    ghost use Rattle.w4_house.specs.Real.{real_world, count_since};
    ghost use Rattle.w4_house.specs.Lines.{GivesLine, taken};

    ghost world = { real_world };

    fn read_front(&mut self, alloc: Global, name: &str, most: usize) -> Result<Vec<u8>, HouseFault>
        ensures bytes { IfOk result
            (λ bytes. ForSome (real_world self.old).files
            (λ files. front_of files name.now most ≡ Some bytes.items)) }
        ensures most { IfOk result (λ bytes. length bytes.items ≤ most) }
        ensures absent { IsErrOf result HouseFault.Absent → LacksFile (real_world self.old).files name.now }
        ensures absent_count { IsErrOf result HouseFault.Absent
            → (real_world self.new).read_faults ≡ (real_world self.old).read_faults }
        ensures failed { IsErrOf result HouseFault.Failed
            → Rises (real_world self.old).read_faults (real_world self.new).read_faults }
        ensures rest { LeavesReading (real_world self.old) (real_world self.new) }
        ensures never_absent { IsErrOf result HouseFault.Absent → ⊥ }
        ensures count { (real_world self.new).read_faults ≡ count_since result
            (real_world self.old).read_faults }
    {
        let answer = read_file(alloc, self.runtime, name, most);
        if answer.is_err() {
            self.read_faults = self.read_faults.saturating_add(1);
        }
        answer
    }

    fn read_line(&mut self, alloc: Global) -> Result<Option<Vec<u8>>, HouseFault>
        ensures taken { IfOk result (λ line. Does (real_world self.old) (real_world self.new)
            (taken (option_map (λ bytes. bytes.items) line) ∷ [])) }
        ensures most { IfOk result
            (λ line. IfSome line (λ bytes. length bytes.items ≤ live_line_limit + 1)) }
        ensures never_absent { IsErrOf result HouseFault.Absent → ⊥ }
        ensures lost { IsErrOf result HouseFault.Failed
            → Does (real_world self.old) (real_world self.new) (InputLost ∷ []) }
        ensures failed { IsErrOf result HouseFault.Failed
            → Rises (real_world self.old).read_faults (real_world self.new).read_faults }
        ensures out_of_memory { IsErrOf result HouseFault.OutOfMemory
            → Does (real_world self.old) (real_world self.new) []
            ⊎ Does (real_world self.old) (real_world self.new) (InputLost ∷ []) }
        ensures rest { LeavesTaking (real_world self.old) (real_world self.new) }
        ensures line { IfOk result (λ line. GivesLine (live_line_limit + 1) (I.remaining self.old.input)
            (I.remaining self.new.input) (option_map (λ bytes. bytes.items) line)) }
        ensures count { (real_world self.new).read_faults ≡ count_since result
            (real_world self.old).read_faults }
    {
        let answer = next_line(alloc, &mut self.input, MOST_FRONT_BYTES);
        if answer.is_err() {
            self.read_faults = self.read_faults.saturating_add(1);
        }
        answer
    }

    fn write_out(&mut self, _alloc: Global, bytes: &[u8]) -> Result<(), WriteRefusal>
        ensures all { OnOk result
            (Appends (real_world self.old).events (real_world self.new).events (wrote bytes.now)) }
        ensures front { OnErr result
            (AppendsFront (real_world self.old).events (real_world self.new).events (wrote bytes.now)) }
        ensures failed { IsErrOf result WriteRefusal.Failed
            → Rises (real_world self.old).write_faults (real_world self.new).write_faults }
        ensures rest { LeavesWriting (real_world self.old) (real_world self.new) }
        ensures sent { OnOk result
            (known.Appends (O.contents self.old.out) (O.contents self.new.out) bytes.now) }
        ensures never_out_of_memory { IsErrOf result WriteRefusal.OutOfMemory → ⊥ }
        ensures count { (real_world self.new).write_faults ≡ count_since result
            (real_world self.old).write_faults }
    {
        let written = self.out.write_all(bytes).is_ok() && self.out.flush().is_ok();
        if written {
            return Ok(());
        }
        self.write_faults = self.write_faults.saturating_add(1);
        Err(WriteRefusal::Failed)
    }

    fn write_err(&mut self, _alloc: Global, bytes: &[u8]) -> Result<(), WriteRefusal>
        ensures all { OnOk result (Appends (real_world self.old).err (real_world self.new).err bytes.now) }
        ensures front { OnErr result
            (AppendsFront (real_world self.old).err (real_world self.new).err bytes.now) }
        ensures failed { IsErrOf result WriteRefusal.Failed
            → Rises (real_world self.old).err_faults (real_world self.new).err_faults }
        ensures rest { LeavesReporting (real_world self.old) (real_world self.new) }
        ensures sent { OnOk result
            (known.Appends (E.contents self.old.err) (E.contents self.new.err) bytes.now) }
        ensures never_out_of_memory { IsErrOf result WriteRefusal.OutOfMemory → ⊥ }
        ensures count { (real_world self.new).err_faults ≡ count_since result
            (real_world self.old).err_faults }
    {
        let written = self.err.write_all(bytes).is_ok() && self.err.flush().is_ok();
        if written {
            return Ok(());
        }
        self.err_faults = self.err_faults.saturating_add(1);
        Err(WriteRefusal::Failed)
    }

    fn write_file(&mut self, alloc: Global, name: &str, bytes: &[u8]) -> Result<(), WriteRefusal>
        ensures saved { OnOk result
            (Does (real_world self.old) (real_world self.new) (Saved name.now bytes.now ∷ [])) }
        ensures not_saved { IsErrOf result WriteRefusal.Failed
            → FailsToSave (real_world self.old) (real_world self.new) [] (Saved name.now bytes.now ∷ []) }
        ensures failed { IsErrOf result WriteRefusal.Failed
            → Rises (real_world self.old).write_faults (real_world self.new).write_faults }
        ensures out_of_memory { IsErrOf result WriteRefusal.OutOfMemory
            → Does (real_world self.old) (real_world self.new) [] }
        ensures rest { LeavesSaving (real_world self.old) (real_world self.new) }
        ensures count { (real_world self.new).write_faults ≡ count_since result
            (real_world self.old).write_faults }
    {
        let answer = write_whole(alloc, self.runtime, name, bytes);
        if answer.is_err() {
            self.write_faults = self.write_faults.saturating_add(1);
        }
        answer
    }
}
