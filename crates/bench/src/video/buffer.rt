//! A file that is written over and over.
ghost use Rattle.std.specs.Prelude.{◌<◌, ◌≤◌, length, vec_len};

use apv_base::Slot;
use apv_files::{Failed, Files};
use std::alloc::{AllocError, Global};

/// Files of which `Recon` is open, to one buffer: after its last byte comes its first. All other
/// calls than its writes are answered as where memory runs out. It tells no content.
#[derive(Drop)]
pub struct Buffer {
    bytes: Vec<u8>,
    at: usize,
    ghost some: { 0 < vec_len bytes },
    ghost within: { at ≤ vec_len bytes },
}

impl Buffer {
    /// A buffer of n bytes.
    pub fn new(alloc: Global, size: usize) -> Result<Buffer, AllocError>
        requires { 0 < size }
    {
        let bytes = vec![in alloc; 0u8; size]?;
        Ok(Buffer { bytes, at: 0 })
    }

    /// Its bytes.
    pub fn bytes(&self) -> &[u8] {
        self.bytes.as_slice()
    }

    /// Copies a prefix of the piece, and returns its number of bytes.
    fn put(&mut self, piece: &[u8]) -> usize
        ensures fits { result ≤ length piece.now }
        ensures some { 0 < length piece.now → 0 < result }
    {
        if self.at == self.bytes.len() {
            self.at = 0;
        }
        let room = &mut self.bytes[self.at..];
        let count = usize::min(room.len(), piece.len());
        room[..count].copy_from_slice(&piece[..count]);
        self.at += count;
        count
    }
}

impl Files for Buffer {
    ghost use Rattle.std.specs.Prelude.{None, refl, if◌then◌else◌};
    ghost use Rattle.apv_base.specs.declared.slot.Slot.TheVariants.{Console, Input, Recon};
    ghost use Rattle.apv_base.specs.model.Slot.{same_slot};
    ghost use Rattle.apv_files.specs.SlotView.{fresh_view};
    ghost use Rattle.apv_files.specs.declared.files.Mode.TheVariants.{Closed, Reading, Writing};

    ghost held = { λ files name. None };

    ghost slot_view = { λ files slot. fresh_view None
        (if same_slot slot Recon then Writing
        else if same_slot slot Console then Writing
        else if same_slot slot Input then Reading
        else Closed) };

    ghost bare_where_closed = { λ files slot closed. (tt, tt) };

    ghost console_is_writing = { λ files. refl };

    fn open(&mut self, _slot: Slot, _name: &str) -> Result<(), Failed> {
        Err(Failed::Memory)
    }

    fn create(&mut self, _slot: Slot, _name: &str) -> Result<(), Failed> {
        Err(Failed::Memory)
    }

    fn read(&mut self, _slot: Slot, _buf: &mut [u8]) -> Result<usize, Failed> {
        Err(Failed::Memory)
    }

    fn write(&mut self, _slot: Slot, piece: &[u8]) -> Result<usize, Failed> {
        Ok(self.put(piece))
    }
}
