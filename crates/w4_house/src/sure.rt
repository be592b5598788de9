//! A house in memory in which nothing fails but memory.

ghost use Rattle.std.specs.Prelude.{
  ◌≡◌,
  ◌⊎◌,
  ◌≤◌,
  ◌+◌,
  [],
  ◌∷◌,
  List,
  Some,
  IfOk,
  IfSome,
  OnOk,
  OnErr,
  IsErrOf,
  length,
  option_copied,
  option_map,
};

use crate::calls::{House, HouseFault, WriteRefusal};
use crate::event_log::EventLog;
use crate::input::{first_line, left};
use crate::line::MOST_FRONT_BYTES;
use crate::log_entry::LogEntry;
use crate::stored::put;
use std::alloc::{AllocError, Global};
use std::collections::BTreeMap;
use w4_defs::OutOfMemory;

/// It tells everything, and its counts of faults are the constant 0.
///
/// Of the bytes that are put as its input, `read_line` takes the lines one after another.
#[derive(Drop)]
pub struct SureHouse {
    alloc: Global,
    files: BTreeMap<String, Vec<u8>>,
    input: Vec<u8>,
    passed: usize,
    log: EventLog,
    err: Vec<u8>,
}

impl SureHouse {
    ghost use Rattle.std.specs.FinMap.{get, empty};
    ghost use Rattle.w4_defs.specs.World.{
      Files,
      InputLost,
      NotSaved,
      written_by,
      Puts,
      Does,
      LeavesTaking,
      LeavesSaving,
      OnlyFiles,
      SameWorld,
    };
    ghost use Rattle.w4_house.specs.EventLog.{logged};
    ghost use Rattle.w4_house.specs.Sure.{sure_files, sure_input, sure_events, sure_world};

    /// A house with no files and no input, in which nothing was done.
    pub fn new(alloc: Global) -> SureHouse
        ensures files { (sure_world result).files ≡ Some empty }
        ensures input { sure_input result ≡ [] }
        ensures events { (sure_world result).events ≡ Some [] }
        ensures err { (sure_world result).err ≡ Some [] }
    {
        SureHouse {
            alloc,
            files: BTreeMap::new(alloc),
            input: Vec::new(alloc),
            passed: 0,
            log: EventLog::new(alloc),
            err: Vec::new(alloc),
        }
    }

    /// Makes a file of just these bytes. When memory runs out, nothing has changed.
    pub fn put_file(&mut self, name: &str, bytes: &[u8]) -> Result<(), OutOfMemory>
        ensures whole { OnOk result
            (Puts (sure_world self.old).files (sure_world self.new).files name.now bytes.now) }
        ensures refused { OnErr result ((sure_world self.new).files ≡ (sure_world self.old).files) }
        ensures rest { OnlyFiles (sure_world self.old) (sure_world self.new) }
        ensures input { sure_input self.new ≡ sure_input self.old }
    {
        put(self.alloc, &mut self.files, name, bytes)
    }

    /// Makes these the bytes of standard input that are left. When memory runs out, nothing has changed.
    pub fn put_input(&mut self, bytes: &[u8]) -> Result<(), OutOfMemory>
        ensures left { OnOk result (sure_input self.new ≡ bytes.now) }
        ensures refused { OnErr result (sure_input self.new ≡ sure_input self.old) }
        ensures rest { SameWorld (sure_world self.old) (sure_world self.new) }
    {
        self.input = Vec::from_slice(self.alloc, bytes)?;
        self.passed = 0;
        Ok(())
    }

    /// The bytes of a file, or None if and only if there is no file of this name.
    pub fn file(&self, name: &str) -> Option<&[u8]>
        ensures { option_copied result ≡ get (sure_files self.now) name.now }
    {
        match self.files.get(name) {
            Some(bytes) => Some(bytes.as_slice()),
            None => None,
        }
    }

    /// What was done, in the order in which it was.
    pub fn log(&self) -> &[LogEntry]
        ensures { (sure_world self.now).events ≡ Some (logged result.now) }
    {
        self.log.entries()
    }

    /// All bytes that were written to standard output.
    pub fn out(&self) -> &[u8]
        ensures { written_by (sure_events self.now) ≡ result.now }
    {
        self.log.out()
    }

    /// What was written to standard error.
    pub fn err(&self) -> &[u8]
        ensures { (sure_world self.now).err ≡ Some result.now }
    {
        self.err.as_slice()
    }

    /// Logs that a read of standard input failed. When memory runs out, nothing has changed.
    pub(crate) fn log_input_fault(&mut self) -> Result<(), AllocError>
        ensures lost { OnOk result (Does (sure_world self.old) (sure_world self.new) (InputLost ∷ [])) }
        ensures refused { OnErr result (Does (sure_world self.old) (sure_world self.new) []) }
        ensures rest { LeavesTaking (sure_world self.old) (sure_world self.new) }
        ensures input { sure_input self.new ≡ sure_input self.old }
    {
        self.log.reserve()?;
        self.log.add(LogEntry::InputFault);
        Ok(())
    }

    /// Logs that replacing a file failed. When memory runs out, nothing has changed.
    pub(crate) fn log_file_fault(&mut self, name: &str) -> Result<(), AllocError>
        ensures not_saved { OnOk result
            (Does (sure_world self.old) (sure_world self.new) (NotSaved name.now ∷ [])) }
        ensures refused { OnErr result (Does (sure_world self.old) (sure_world self.new) []) }
        ensures rest { LeavesSaving (sure_world self.old) (sure_world self.new) }
        ensures input { sure_input self.new ≡ sure_input self.old }
    {
        let entry = LogEntry::FileFault(String::from_str(self.alloc, name)?);
        self.log.reserve()?;
        self.log.add(entry);
        Ok(())
    }
}

impl House for SureHouse {
    ghost use Rattle.std.specs.Option.{ForSome};
    ghost use Rattle.w4_defs.specs.World.{
      InputLost,
      Saved,
      wrote,
      Rises,
      front_of,
      LacksFile,
      Appends,
      AppendsFront,
      Does,
      FailsToSave,
      LeavesReading,
      LeavesWriting,
      LeavesReporting,
      LeavesTaking,
      LeavesSaving,
    };
    ghost use Rattle.w4_defs.specs.Limits.{live_line_limit};
    ghost use Rattle.w4_house.specs.Sure.{sure_input, sure_world};
    ghost use Rattle.w4_house.specs.Lines.{GivesLine, taken};

    ghost world = { sure_world };

    fn read_front(&mut self, alloc: Global, name: &str, most: usize) -> Result<Vec<u8>, HouseFault>
        ensures bytes { IfOk result
            (λ bytes. ForSome (sure_world self.old).files
            (λ files. front_of files name.now most ≡ Some bytes.items)) }
        ensures most { IfOk result (λ bytes. length bytes.items ≤ most) }
        ensures absent { IsErrOf result HouseFault.Absent → LacksFile (sure_world self.old).files name.now }
        ensures absent_count { IsErrOf result HouseFault.Absent
            → (sure_world self.new).read_faults ≡ (sure_world self.old).read_faults }
        ensures failed { IsErrOf result HouseFault.Failed
            → Rises (sure_world self.old).read_faults (sure_world self.new).read_faults }
        ensures rest { LeavesReading (sure_world self.old) (sure_world self.new) }
        ensures input { sure_input self.new ≡ sure_input self.old }
    {
        match self.file(name) {
            Some(bytes) => Ok(Vec::from_slice(alloc, &bytes[..most.min(bytes.len())])?),
            None => Err(HouseFault::Absent),
        }
    }

    /// When memory runs out, the input is left as it was.
    fn read_line(&mut self, alloc: Global) -> Result<Option<Vec<u8>>, HouseFault>
        ensures taken { IfOk result (λ line. Does (sure_world self.old) (sure_world self.new)
            (taken (option_map (λ bytes. bytes.items) line) ∷ [])) }
        ensures most { IfOk result
            (λ line. IfSome line (λ bytes. length bytes.items ≤ live_line_limit + 1)) }
        ensures never_absent { IsErrOf result HouseFault.Absent → ⊥ }
        ensures lost { IsErrOf result HouseFault.Failed
            → Does (sure_world self.old) (sure_world self.new) (InputLost ∷ []) }
        ensures failed { IsErrOf result HouseFault.Failed
            → Rises (sure_world self.old).read_faults (sure_world self.new).read_faults }
        ensures out_of_memory { IsErrOf result HouseFault.OutOfMemory
            → Does (sure_world self.old) (sure_world self.new) []
            ⊎ Does (sure_world self.old) (sure_world self.new) (InputLost ∷ []) }
        ensures rest { LeavesTaking (sure_world self.old) (sure_world self.new) }
        ensures nothing_lost { IsErrOf result HouseFault.OutOfMemory
            → Does (sure_world self.old) (sure_world self.new) [] }
        ensures line { IfOk result (λ line. GivesLine (live_line_limit + 1) (Some (sure_input self.old))
            (Some (sure_input self.new)) (option_map (λ bytes. bytes.items) line)) }
        ensures left { OnErr result (sure_input self.new ≡ sure_input self.old) }
    {
        match first_line(left(&self.input, self.passed), MOST_FRONT_BYTES) {
            Some((front, rest)) => {
                let line = Vec::from_slice(alloc, front)?;
                let logged = Vec::from_slice(self.alloc, front)?;
                let passed = self.input.len() - rest.len();
                self.log.reserve()?;
                self.log.add(LogEntry::Line(logged));
                self.passed = passed;
                Ok(Some(line))
            }
            None => {
                self.log.reserve()?;
                self.log.add(LogEntry::InputEnd);
                Ok(None)
            }
        }
    }

    fn write_out(&mut self, _alloc: Global, bytes: &[u8]) -> Result<(), WriteRefusal>
        ensures all { OnOk result
            (Appends (sure_world self.old).events (sure_world self.new).events (wrote bytes.now)) }
        ensures front { OnErr result
            (AppendsFront (sure_world self.old).events (sure_world self.new).events (wrote bytes.now)) }
        ensures failed { IsErrOf result WriteRefusal.Failed
            → Rises (sure_world self.old).write_faults (sure_world self.new).write_faults }
        ensures rest { LeavesWriting (sure_world self.old) (sure_world self.new) }
        ensures input { sure_input self.new ≡ sure_input self.old }
    {
        Ok(self.log.write(self.alloc, bytes)?)
    }

    fn write_err(&mut self, _alloc: Global, bytes: &[u8]) -> Result<(), WriteRefusal>
        ensures all { OnOk result (Appends (sure_world self.old).err (sure_world self.new).err bytes.now) }
        ensures front { OnErr result
            (AppendsFront (sure_world self.old).err (sure_world self.new).err bytes.now) }
        ensures failed { IsErrOf result WriteRefusal.Failed
            → Rises (sure_world self.old).err_faults (sure_world self.new).err_faults }
        ensures rest { LeavesReporting (sure_world self.old) (sure_world self.new) }
        ensures input { sure_input self.new ≡ sure_input self.old }
    {
        Ok(self.err.extend_from_slice(bytes)?)
    }

    fn write_file(&mut self, _alloc: Global, name: &str, bytes: &[u8]) -> Result<(), WriteRefusal>
        ensures saved { OnOk result
            (Does (sure_world self.old) (sure_world self.new) (Saved name.now bytes.now ∷ [])) }
        ensures not_saved { IsErrOf result WriteRefusal.Failed
            → FailsToSave (sure_world self.old) (sure_world self.new) [] (Saved name.now bytes.now ∷ []) }
        ensures failed { IsErrOf result WriteRefusal.Failed
            → Rises (sure_world self.old).write_faults (sure_world self.new).write_faults }
        ensures out_of_memory { IsErrOf result WriteRefusal.OutOfMemory
            → Does (sure_world self.old) (sure_world self.new) [] }
        ensures rest { LeavesSaving (sure_world self.old) (sure_world self.new) }
        ensures input { sure_input self.new ≡ sure_input self.old }
    {
        let entry = LogEntry::File {
            name: String::from_str(self.alloc, name)?,
            bytes: Vec::from_slice(self.alloc, bytes)?,
        };
        self.log.reserve()?;
        put(self.alloc, &mut self.files, name, bytes)?;
        self.log.add(entry);
        Ok(())
    }
}
