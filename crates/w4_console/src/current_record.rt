//! What a console lends to a call of its cart: the record of the frame that is under way, and a disk to leave
//! in the state meanwhile.

ghost use Rattle.std.specs.Prelude.{◌≡◌, IfOk};
ghost use Rattle.w4_defs.specs.State.{empty_record};
ghost use Rattle.w4_devices.specs.Records.{record_of};

use std::alloc::Global;
use std::marker::Model;
use w4_defs::OutOfMemory;
use w4_devices::{Disk, FrameRecord};

/// What a call is lent, in boxes, so that neither logs nor disk are copied.
#[derive(Drop)]
pub(crate) struct Loan {
    pub frame_record: Box<FrameRecord>,
    /// Left in the state while the board has the state's own disk. What is on it doesn't matter.
    pub spare_disk: Box<Disk>,
}

impl Loan {
    /// Empties logs and sounds.
    fn clear(&mut self)
        ensures { record_of self.new.frame_record.value ≡ empty_record }
    {
        self.frame_record.clear();
    }
}

/// The record of the frame that is under way: a board is given its box and gives it back. It has no sounds:
/// these are taken when the frame ends. A contract sees the record.
#[derive(Drop)]
pub struct CurrentRecord {
    /// There but while a function runs.
    pub(crate) loan: Option<Loan>,
}

impl Model for CurrentRecord {
    ghost use Rattle.std.specs.Prelude.{IsSome, option_map};
    ghost use Rattle.w4_devices.specs.declared.frame_record.FrameRecord.{FrameRecord as Record};
    ghost use Rattle.w4_console.specs.CurrentRecord.{record_in};

    ghost Value = { Record };

    ghost view = { λ c. record_in (option_map (λ l. l.frame_record.value) c.loan) };

    ghost invariant = { λ c. IsSome c.loan };
}

impl CurrentRecord {
    /// Without tones, lines and sounds.
    pub(crate) fn new(alloc: Global) -> Result<CurrentRecord, OutOfMemory>
        ensures { IfOk result (λ current. record_of current ≡ empty_record) }
    {
        let frame_record = Box::new(alloc, FrameRecord::new())?;
        let spare_disk = Box::new(alloc, Disk::new(&[]))?;
        Ok(CurrentRecord {
            loan: Some(Loan {
                frame_record,
                spare_disk,
            }),
        })
    }

    /// The record.
    pub(crate) fn record(&self) -> &FrameRecord
        ensures { result.now ≡ self.now }
    {
        let Some(loan) = &self.loan else {
            unreachable!()
        };
        &loan.frame_record
    }

    /// Empties logs and sounds.
    pub(crate) fn clear(&mut self)
        ensures { record_of self.new ≡ empty_record }
    {
        let Some(loan) = &mut self.loan else {
            unreachable!()
        };
        loan.clear();
    }
}
