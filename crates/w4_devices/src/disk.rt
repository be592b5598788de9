//! The disk of a cart: at most 1,024 bytes.

ghost use Rattle.std.specs.Prelude.{◌≡◌, ◌≤◌, length};
ghost use Rattle.w4_defs.specs.Disk.{disk_read, disk_read_count, disk_write};

use crate::bounded::append;
use crate::page_bytes::{bytes_from, first_bytes};
use arrayvec::ArrayVec;
use std::marker::Model;
use w4_defs::PageBytes;

/// How many bytes a disk has room for.
const DISK_ROOM: usize = 1024;

/// The bytes that a cart keeps between two runs, at most 1,024. A contract sees the list of them.
#[derive(Debug, Drop)]
pub struct Disk {
    bytes: ArrayVec<u8, DISK_ROOM>,
}

impl Model for Disk {
    ghost use Rattle.std.specs.Prelude.{List, ℕ};

    ghost Value = { List ℕ };

    ghost view = { λ disk. disk.bytes.items };
}

impl Disk {
    /// A disk of these bytes.
    pub fn new(bytes: &[u8]) -> Disk
        requires { length bytes.now ≤ 1024 }
        ensures { result ≡ bytes.now }
    {
        let mut list = ArrayVec::new();
        append(&mut list, bytes);
        Disk { bytes: list }
    }

    /// `diskr`: copies the disk's first bytes into the page at `ptr`, and returns how many were copied: as
    /// many as are asked for, are on the disk, and fit before the page's end.
    pub fn read_into(&self, page: &mut PageBytes, ptr: u32, size: u32) -> u32
        ensures count { result ≡ disk_read_count self.now page.old ptr size }
        ensures page { page.new ≡ disk_read self.now page.old ptr size }
    {
        let start = ptr as usize;
        let room = page.len() - start.min(page.len());
        let count = (size as usize).min(self.bytes.len()).min(room);
        if count == 0 {
            return 0;
        }
        page[start..start + count].copy_from_slice(&self.bytes()[..count]);
        count as u32
    }

    /// `diskw`: replaces the disk by the page's bytes at `ptr`, and returns how many these are: as many as
    /// are asked for, at most 1,024, and none past the page's end.
    pub fn write_from(&mut self, page: &PageBytes, ptr: u32, size: u32) -> u32
        ensures disk { self.new ≡ disk_write page.now ptr size }
        ensures count { result ≡ length self.new }
    {
        let bytes = first_bytes(bytes_from(page, ptr), (size as usize).min(DISK_ROOM));
        *self = Disk::new(bytes);
        bytes.len() as u32
    }

    /// The bytes on the disk.
    pub fn bytes(&self) -> &[u8]
        ensures bytes { result.now ≡ self.now }
        ensures bound { length result.now ≤ 1024 }
    {
        self.bytes.as_slice()
    }
}
