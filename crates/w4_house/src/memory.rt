//! A house in memory whose calls fail where a test wants it.

ghost use Rattle.std.specs.Prelude.{
  ◌≡◌,
  ◌≤◌,
  ◌++◌,
  ◌⊎◌,
  ◌+◌,
  ◌==◌,
  [],
  ◌∷◌,
  List,
  Some,
  None,
  IsTrue,
  IfOk,
  IfSome,
  OnOk,
  OnErr,
  IsErrOf,
  length,
  option_copied,
  option_map,
};
ghost use Rattle.std.specs.List.{list_any};
ghost use Rattle.w4_defs.specs.World.{raised};

use crate::calls::{House, HouseFault, WriteRefusal};
use crate::log_entry::LogEntry;
use crate::sure::SureHouse;
use std::alloc::Global;
use w4_defs::OutOfMemory;

/// Tells everything, and has a list of the numbers of the calls that are to fail.
///
/// The calls of the trait are numbered from 1 in the order in which they come. One whose number is in the
/// list returns Failed, raises its own count, and appends and changes nothing, but a failed `read_line` or
/// `write_file` is logged. If memory for that runs out, the count rises all the same, and the call returns
/// OutOfMemory.
#[derive(Drop)]
pub struct MemoryHouse {
    store: SureHouse,
    failing: Vec<u64>,
    calls: u64,
    read_faults: u64,
    write_faults: u64,
    err_faults: u64,
}

impl MemoryHouse {
    ghost use Rattle.std.specs.FinMap.{get, empty};
    ghost use Rattle.w4_defs.specs.World.{written_by, Puts, OnlyFiles, SameWorld};
    ghost use Rattle.w4_house.specs.EventLog.{logged};
    ghost use Rattle.w4_house.specs.Memory.{
      failing_calls,
      last_call,
      memory_files,
      memory_input,
      memory_events,
      memory_world,
    };

    /// A house with no files and no input, in which nothing was done and no call is to fail.
    pub fn new(alloc: Global) -> MemoryHouse
        ensures files { (memory_world result).files ≡ Some empty }
        ensures input { memory_input result ≡ [] }
        ensures events { (memory_world result).events ≡ Some [] }
        ensures err { (memory_world result).err ≡ Some [] }
        ensures read_faults { (memory_world result).read_faults ≡ 0 }
        ensures write_faults { (memory_world result).write_faults ≡ 0 }
        ensures err_faults { (memory_world result).err_faults ≡ 0 }
        ensures numbered { last_call result ≡ 0 }
        ensures listed { failing_calls result ≡ [] }
    {
        MemoryHouse {
            store: SureHouse::new(alloc),
            failing: Vec::new(alloc),
            calls: 0,
            read_faults: 0,
            write_faults: 0,
            err_faults: 0,
        }
    }

    /// Makes a file of just these bytes. When memory runs out, nothing has changed.
    pub fn put_file(&mut self, name: &str, bytes: &[u8]) -> Result<(), OutOfMemory>
        ensures whole { OnOk result
            (Puts (memory_world self.old).files (memory_world self.new).files name.now bytes.now) }
        ensures refused { OnErr result ((memory_world self.new).files ≡ (memory_world self.old).files) }
        ensures rest { OnlyFiles (memory_world self.old) (memory_world self.new) }
        ensures input { memory_input self.new ≡ memory_input self.old }
        ensures numbered { last_call self.new ≡ last_call self.old }
        ensures listed { failing_calls self.new ≡ failing_calls self.old }
    {
        self.store.put_file(name, bytes)
    }

    /// Makes these the bytes of standard input that are left. When memory runs out, nothing has changed.
    pub fn put_input(&mut self, bytes: &[u8]) -> Result<(), OutOfMemory>
        ensures left { OnOk result (memory_input self.new ≡ bytes.now) }
        ensures refused { OnErr result (memory_input self.new ≡ memory_input self.old) }
        ensures rest { SameWorld (memory_world self.old) (memory_world self.new) }
        ensures numbered { last_call self.new ≡ last_call self.old }
        ensures listed { failing_calls self.new ≡ failing_calls self.old }
    {
        self.store.put_input(bytes)
    }

    /// Adds a number to the list of calls that are to fail. When memory runs out, nothing has changed.
    pub fn fail_at(&mut self, call: u64) -> Result<(), OutOfMemory>
        ensures listed { OnOk result (failing_calls self.new ≡ failing_calls self.old ++ call ∷ []) }
        ensures refused { OnErr result (failing_calls self.new ≡ failing_calls self.old) }
        ensures rest { SameWorld (memory_world self.old) (memory_world self.new) }
        ensures input { memory_input self.new ≡ memory_input self.old }
        ensures numbered { last_call self.new ≡ last_call self.old }
    {
        Ok(self.failing.push(call)?)
    }

    /// The bytes of a file, or None if and only if there is no file of this name.
    pub fn file(&self, name: &str) -> Option<&[u8]>
        ensures { option_copied result ≡ get (memory_files self.now) name.now }
    {
        self.store.file(name)
    }

    /// What was done, in the order in which it was.
    pub fn log(&self) -> &[LogEntry]
        ensures { (memory_world self.now).events ≡ Some (logged result.now) }
    {
        self.store.log()
    }

    /// All bytes that were written to standard output.
    pub fn out(&self) -> &[u8]
        ensures { written_by (memory_events self.now) ≡ result.now }
    {
        self.store.out()
    }

    /// What was written to standard error.
    pub fn err(&self) -> &[u8]
        ensures { (memory_world self.now).err ≡ Some result.now }
    {
        self.store.err()
    }
}

/// Numbers one more call, and says whether it is to fail.
fn is_failing(calls: &mut u64, failing: &[u64]) -> bool
    ensures numbered { calls.new ≡ raised calls.old }
    ensures listed { result ≡ list_any (λ call. call == raised calls.old) failing.now }
{
    *calls = calls.saturating_add(1);
    failing.contains(calls)
}

impl House for MemoryHouse {
    ghost use Rattle.std.specs.Option.{ForSome};
    ghost use Rattle.w4_defs.specs.World.{
      InputLost,
      Saved,
      NotSaved,
      wrote,
      Rises,
      front_of,
      LacksFile,
      Appends,
      AppendsFront,
      Does,
      FailsToSave,
      LeavesReading,
      LeavesWriting,
      LeavesReporting,
      LeavesTaking,
      LeavesSaving,
    };
    ghost use Rattle.w4_defs.specs.Limits.{live_line_limit};
    ghost use Rattle.w4_house.specs.Memory.{CountsCall, count_after, fails_next, memory_input, memory_world};
    ghost use Rattle.w4_house.specs.Lines.{GivesLine, taken};

    ghost world = { memory_world };

    fn read_front(&mut self, alloc: Global, name: &str, most: usize) -> Result<Vec<u8>, HouseFault>
        ensures bytes { IfOk result
            (λ bytes. ForSome (memory_world self.old).files
            (λ files. front_of files name.now most ≡ Some bytes.items)) }
        ensures most { IfOk result (λ bytes. length bytes.items ≤ most) }
        ensures absent { IsErrOf result HouseFault.Absent → LacksFile (memory_world self.old).files name.now }
        ensures absent_count { IsErrOf result HouseFault.Absent
            → (memory_world self.new).read_faults ≡ (memory_world self.old).read_faults }
        ensures failed { IsErrOf result HouseFault.Failed
            → Rises (memory_world self.old).read_faults (memory_world self.new).read_faults }
        ensures rest { LeavesReading (memory_world self.old) (memory_world self.new) }
        ensures input { memory_input self.new ≡ memory_input self.old }
        ensures fails { IsTrue (fails_next self.old) → IsErrOf result HouseFault.Failed }
        ensures fails_only { IsErrOf result HouseFault.Failed → IsTrue (fails_next self.old) }
        ensures count { (memory_world self.new).read_faults ≡ count_after self.old
            (memory_world self.old).read_faults }
        ensures counted { CountsCall self.old self.new }
    {
        if is_failing(&mut self.calls, &self.failing) {
            self.read_faults = self.read_faults.saturating_add(1);
            return Err(HouseFault::Failed);
        }
        self.store.read_front(alloc, name, most)
    }

    fn read_line(&mut self, alloc: Global) -> Result<Option<Vec<u8>>, HouseFault>
        ensures taken { IfOk result (λ line. Does (memory_world self.old) (memory_world self.new)
            (taken (option_map (λ bytes. bytes.items) line) ∷ [])) }
        ensures most { IfOk result
            (λ line. IfSome line (λ bytes. length bytes.items ≤ live_line_limit + 1)) }
        ensures never_absent { IsErrOf result HouseFault.Absent → ⊥ }
        ensures lost { IsErrOf result HouseFault.Failed
            → Does (memory_world self.old) (memory_world self.new) (InputLost ∷ []) }
        ensures failed { IsErrOf result HouseFault.Failed
            → Rises (memory_world self.old).read_faults (memory_world self.new).read_faults }
        ensures out_of_memory { IsErrOf result HouseFault.OutOfMemory
            → Does (memory_world self.old) (memory_world self.new) []
            ⊎ Does (memory_world self.old) (memory_world self.new) (InputLost ∷ []) }
        ensures rest { LeavesTaking (memory_world self.old) (memory_world self.new) }
        ensures nothing_lost { IsErrOf result HouseFault.OutOfMemory
            → Does (memory_world self.old) (memory_world self.new) [] }
        ensures line { IfOk result (λ line. GivesLine (live_line_limit + 1) (Some (memory_input self.old))
            (Some (memory_input self.new)) (option_map (λ bytes. bytes.items) line)) }
        ensures left { OnErr result (memory_input self.new ≡ memory_input self.old) }
        ensures fails { IsTrue (fails_next self.old)
            → IsErrOf result HouseFault.Failed ⊎ IsErrOf result HouseFault.OutOfMemory }
        ensures fails_only { IsErrOf result HouseFault.Failed → IsTrue (fails_next self.old) }
        ensures count { (memory_world self.new).read_faults ≡ count_after self.old
            (memory_world self.old).read_faults }
        ensures counted { CountsCall self.old self.new }
    {
        if is_failing(&mut self.calls, &self.failing) {
            self.read_faults = self.read_faults.saturating_add(1);
            self.store.log_input_fault()?;
            return Err(HouseFault::Failed);
        }
        self.store.read_line(alloc)
    }

    fn write_out(&mut self, alloc: Global, bytes: &[u8]) -> Result<(), WriteRefusal>
        ensures all { OnOk result
            (Appends (memory_world self.old).events (memory_world self.new).events (wrote bytes.now)) }
        ensures front { OnErr result
            (AppendsFront (memory_world self.old).events (memory_world self.new).events (wrote bytes.now)) }
        ensures failed { IsErrOf result WriteRefusal.Failed
            → Rises (memory_world self.old).write_faults (memory_world self.new).write_faults }
        ensures rest { LeavesWriting (memory_world self.old) (memory_world self.new) }
        ensures input { memory_input self.new ≡ memory_input self.old }
        ensures fails { IsTrue (fails_next self.old) → IsErrOf result WriteRefusal.Failed }
        ensures fails_only { IsErrOf result WriteRefusal.Failed → IsTrue (fails_next self.old) }
        ensures count { (memory_world self.new).write_faults ≡ count_after self.old
            (memory_world self.old).write_faults }
        ensures counted { CountsCall self.old self.new }
        ensures unchanged { IsErrOf result WriteRefusal.Failed
            → (memory_world self.new).events ≡ (memory_world self.old).events }
    {
        if is_failing(&mut self.calls, &self.failing) {
            self.write_faults = self.write_faults.saturating_add(1);
            return Err(WriteRefusal::Failed);
        }
        self.store.write_out(alloc, bytes)
    }

    fn write_err(&mut self, alloc: Global, bytes: &[u8]) -> Result<(), WriteRefusal>
        ensures all { OnOk result
            (Appends (memory_world self.old).err (memory_world self.new).err bytes.now) }
        ensures front { OnErr result
            (AppendsFront (memory_world self.old).err (memory_world self.new).err bytes.now) }
        ensures failed { IsErrOf result WriteRefusal.Failed
            → Rises (memory_world self.old).err_faults (memory_world self.new).err_faults }
        ensures rest { LeavesReporting (memory_world self.old) (memory_world self.new) }
        ensures input { memory_input self.new ≡ memory_input self.old }
        ensures fails { IsTrue (fails_next self.old) → IsErrOf result WriteRefusal.Failed }
        ensures fails_only { IsErrOf result WriteRefusal.Failed → IsTrue (fails_next self.old) }
        ensures count { (memory_world self.new).err_faults ≡ count_after self.old
            (memory_world self.old).err_faults }
        ensures counted { CountsCall self.old self.new }
        ensures unchanged { IsErrOf result WriteRefusal.Failed
            → (memory_world self.new).err ≡ (memory_world self.old).err }
    {
        if is_failing(&mut self.calls, &self.failing) {
            self.err_faults = self.err_faults.saturating_add(1);
            return Err(WriteRefusal::Failed);
        }
        self.store.write_err(alloc, bytes)
    }

    fn write_file(&mut self, alloc: Global, name: &str, bytes: &[u8]) -> Result<(), WriteRefusal>
        ensures saved { OnOk result
            (Does (memory_world self.old) (memory_world self.new) (Saved name.now bytes.now ∷ [])) }
        ensures not_saved { IsErrOf result WriteRefusal.Failed
            → FailsToSave (memory_world self.old) (memory_world self.new) [] (Saved name.now bytes.now ∷ []) }
        ensures failed { IsErrOf result WriteRefusal.Failed
            → Rises (memory_world self.old).write_faults (memory_world self.new).write_faults }
        ensures out_of_memory { IsErrOf result WriteRefusal.OutOfMemory
            → Does (memory_world self.old) (memory_world self.new) [] }
        ensures rest { LeavesSaving (memory_world self.old) (memory_world self.new) }
        ensures input { memory_input self.new ≡ memory_input self.old }
        ensures fails { IsTrue (fails_next self.old)
            → IsErrOf result WriteRefusal.Failed ⊎ IsErrOf result WriteRefusal.OutOfMemory }
        ensures fails_only { IsErrOf result WriteRefusal.Failed → IsTrue (fails_next self.old) }
        ensures count { (memory_world self.new).write_faults ≡ count_after self.old
            (memory_world self.old).write_faults }
        ensures counted { CountsCall self.old self.new }
        ensures not_replaced { IsErrOf result WriteRefusal.Failed
            → Does (memory_world self.old) (memory_world self.new) (NotSaved name.now ∷ []) }
    {
        if is_failing(&mut self.calls, &self.failing) {
            // The file keeps what it had.
            self.write_faults = self.write_faults.saturating_add(1);
            self.store.log_file_fault(name)?;
            return Err(WriteRefusal::Failed);
        }
        self.store.write_file(alloc, name, bytes)
    }
}
