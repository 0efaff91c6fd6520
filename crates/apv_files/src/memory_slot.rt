//! A slot over files in memory.
ghost use Rattle.std.specs.Prelude.{◌≤◌, length};

use crate::status::SlotStatus;
use crate::{Failed, Mode};
use std::alloc::Global;

/// A slot: of one that is reading the bytes are its file, of which those from `at` on are left; of one that is
/// writing they are what was written.
#[derive(Drop)]
pub struct MemorySlot {
    status: SlotStatus,
    bytes: Vec<u8>,
    at: usize,
    ghost within: { at ≤ length bytes.items },
}

impl MemorySlot {
    ghost use Rattle.std.specs.Prelude.{◌≡◌, ◌<◌, [], None, Some, Ok, Err, IfOk, IfErr};
    ghost use Rattle.apv_files.specs.SlotView.{AfterOpen, AfterCreate, AfterRead, AfterWrite};
    ghost use Rattle.apv_files.specs.SlotView.{AfterFailedOpen, ReadFailed, WriteFailed, fresh_view};
    ghost use Rattle.apv_files.specs.MemorySlot.{view_of};
    ghost use Rattle.apv_files.specs.Moved.{TakesMost};

    /// A slot on which nothing was done.
    pub fn new(alloc: Global, mode: Mode) -> MemorySlot
        ensures { view_of result ≡ fresh_view (Some []) mode }
    {
        MemorySlot {
            status: SlotStatus::new(alloc, mode),
            bytes: Vec::new(alloc),
            at: 0,
        }
    }

    /// Opens a file of this content.
    pub fn open(&mut self, alloc: Global, name: &str, content: &[u8]) -> Result<(), Failed>
        requires { self.old.status.mode ≡ Mode.Closed }
        ensures here { AfterOpen (view_of self.old) name.now (Some content.now) result
            (view_of self.new) }
        ensures memory { IfErr result (λ e. e ≡ Failed.Memory) }
    {
        let Ok(name) = String::from_str(alloc, name) else {
            return Err(Failed::Memory);
        };
        let Ok(bytes) = content.to_vec(alloc) else {
            return Err(Failed::Memory);
        };
        self.status.enter(Mode::Reading, name);
        self.at = 0;
        self.bytes = bytes;
        Ok(())
    }

    /// Begins to write a file.
    pub fn create(&mut self, alloc: Global, name: &str) -> Result<(), Failed>
        requires { self.old.status.mode ≡ Mode.Closed }
        ensures here { AfterCreate (view_of self.old) name.now result (view_of self.new) }
        ensures memory { IfErr result (λ e. e ≡ Failed.Memory) }
    {
        let Ok(name) = String::from_str(alloc, name) else {
            return Err(Failed::Memory);
        };
        self.status.enter(Mode::Writing, name);
        self.at = 0;
        self.bytes = Vec::new(alloc);
        Ok(())
    }

    /// Fails an open or a create of a name by the device, or returns `Memory` where the name can't be kept.
    pub fn fail_open(&mut self, alloc: Global, name: &str) -> Failed
        ensures here { AfterFailedOpen (view_of self.old) name.now result (view_of self.new) }
        ensures mode { self.new.status.mode ≡ self.old.status.mode }
    {
        let Ok(name) = String::from_str(alloc, name) else {
            return Failed::Memory;
        };
        self.status.count_open_fault(name);
        Failed::Device
    }

    /// Takes as many bytes as are left and as the buffer has room for, and returns their number.
    pub fn read(&mut self, buf: &mut [u8]) -> usize
        requires reading { self.old.status.mode ≡ Mode.Reading }
        requires room { 0 < length buf.old }
        ensures here { AfterRead (view_of self.old) (Ok result) buf.new (view_of self.new) }
        ensures count { TakesMost None (view_of self.old).left (length buf.old) result }
        ensures mode { self.new.status.mode ≡ self.old.status.mode }
    {
        let left = &self.bytes[self.at..];
        let count = left.len().min(buf.len());
        buf[..count].copy_from_slice(&left[..count]);
        self.at += count;
        count
    }

    /// Fails a read by the device.
    pub fn fail_read(&mut self)
        ensures here { ReadFailed (view_of self.old) (view_of self.new) }
        ensures mode { self.new.status.mode ≡ self.old.status.mode }
    {
        self.status.count_read_fault();
    }

    /// Appends the whole piece.
    pub fn write(&mut self, piece: &[u8]) -> Result<usize, Failed>
        requires { self.old.status.mode ≡ Mode.Writing }
        ensures here { AfterWrite (view_of self.old) piece.now result (view_of self.new) }
        ensures count { IfOk result (λ n. n ≡ length piece.now) }
        ensures mode { self.new.status.mode ≡ self.old.status.mode }
        ensures memory { IfErr result (λ e. e ≡ Failed.Memory) }
    {
        match self.bytes.extend_from_slice(piece) {
            Ok(()) => Ok(piece.len()),
            Err(_) => Err(Failed::Memory),
        }
    }

    /// Fails a write by the device.
    pub fn fail_write(&mut self)
        ensures here { WriteFailed (view_of self.old) (view_of self.new) }
        ensures mode { self.new.status.mode ≡ self.old.status.mode }
    {
        self.status.count_write_fault();
    }

    /// The bytes not yet read: none of a slot that isn't reading.
    pub fn left(&self) -> &[u8]
        ensures { (view_of self.now).left ≡ Some result.now }
    {
        match self.status.mode {
            Mode::Reading => &self.bytes[self.at..],
            Mode::Writing | Mode::Closed => &[],
        }
    }

    /// The bytes written: none of a slot that isn't writing.
    pub fn written(&self) -> &[u8]
        ensures { (view_of self.now).written ≡ Some result.now }
    {
        match self.status.mode {
            Mode::Writing => &self.bytes,
            Mode::Reading | Mode::Closed => &[],
        }
    }
}
