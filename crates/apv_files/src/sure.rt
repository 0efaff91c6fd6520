//! Files in memory, which tell everything, and on which no device fails.
ghost use Rattle.std.specs.Prelude.{◌≡◌, ◌≢◌, ℕ, ◌<◌, List, [], length, None, Some, IsTrue};
ghost use Rattle.std.specs.Prelude.{IsOk, IfOk, IfErr, OnOk, OnErr};
ghost use Rattle.apv_base.specs.declared.slot.Slot.{Slot};
ghost use Rattle.apv_base.specs.model.Slot.{slot_number, is_input, is_output};
ghost use Rattle.apv_files.specs.declared.files.Mode.{Mode};
ghost use Rattle.apv_files.specs.MemorySlots.{memory_slots_view};
ghost use Rattle.apv_files.specs.Moved.{TakesMost};
ghost use Rattle.apv_files.specs.SlotView.{start_view, AllClosed, OnlyAt, AfterOpen, AfterCreate};
ghost use Rattle.apv_files.specs.SlotView.{AfterRead, AfterWrite, NeverFailed};

use crate::held_files::HeldFiles;
use crate::memory_slots::MemorySlots;
use crate::{Failed, Files};
use apv_base::Slot;
use std::alloc::{AllocError, Global};

/// Files in memory that never fail by a device: only memory can run out. They tell all that they hold, have left and
/// have written, and a name that isn't held stands for an empty file. A read or a write moves all that it can.
#[derive(Drop)]
pub struct SureFiles {
    alloc: Global,
    files: HeldFiles,
    slots: MemorySlots,
    ghost never_failed: { (slot : Slot) → NeverFailed (memory_slots_view slots slot) },
}

impl SureFiles {
    ghost use Rattle.apv_files.specs.Sure.{sure_view, sure_held};

    /// Each file is empty, nothing is left or written, and each slot but the console is closed. It takes no memory yet.
    pub fn new(alloc: Global) -> SureFiles
        ensures views { (slot : Slot) → sure_view result slot ≡ start_view (Some []) slot }
        ensures closed { AllClosed (sure_view result) }
        ensures files { (name : List ℕ) → sure_held result name ≡ Some [] }
    {
        SureFiles {
            alloc,
            files: HeldFiles::new(alloc),
            slots: MemorySlots::new(alloc),
        }
    }

    /// Holds a file of a name, in place of the content that it held of it before. No slot changes, and after an error
    /// nothing does.
    pub fn hold(&mut self, name: &str, bytes: &[u8]) -> Result<(), AllocError>
        ensures views { (slot : Slot) → sure_view self.new slot ≡ sure_view self.old slot }
        ensures held { OnOk result (sure_held self.new name.now ≡ Some bytes.now) }
        ensures others { (other : List ℕ) → other ≢ name.now →
            sure_held self.new other ≡ sure_held self.old other }
        ensures err { OnErr result ((other : List ℕ) →
            sure_held self.new other ≡ sure_held self.old other) }
    {
        self.files.hold(self.alloc, name, bytes)
    }

    /// The bytes not yet read of a slot: none of one that isn't reading.
    pub fn left(&self, slot: Slot) -> &[u8]
        ensures { (sure_view self.now slot).left ≡ Some result.now }
    {
        self.slots.left(slot)
    }

    /// The bytes written to a slot since it was created, and to the console since this was made: none of a slot that
    /// isn't writing.
    pub fn written(&self, slot: Slot) -> &[u8]
        ensures { (sure_view self.now slot).written ≡ Some result.now }
    {
        self.slots.written(slot)
    }
}

impl Files for SureFiles {
    ghost use Rattle.apv_files.specs.Sure.{sure_view, sure_held};
    ghost use Rattle.apv_files.specs.Bare.{slots-bare};

    ghost held = { sure_held };

    ghost slot_view = { sure_view };

    ghost bare_where_closed = { λ files slot. slots-bare files.slots.slots (slot_number slot) };

    ghost console_is_writing = { λ files. files.slots.console };

    /// Opens the file of a name, empty where the name isn't held. It fails where memory runs out, and nowhere else.
    fn open(&mut self, slot: Slot, name: &str) -> Result<(), Failed>
        requires input { IsTrue (is_input slot) }
        requires closed { (sure_view self.old slot).mode ≡ Mode.Closed }
        ensures here { AfterOpen (sure_view self.old slot) name.now
            (sure_held self.old name.now) result (sure_view self.new slot) }
        ensures elsewhere { OnlyAt slot (sure_view self.old) (sure_view self.new) }
        ensures held { (file : List ℕ) → sure_held self.new file ≡ sure_held self.old file }
        ensures memory { IfErr result (λ e. e ≡ Failed.Memory) }
    {
        let Some(content) = self.files.content(name) else {
            return self.slots.open(self.alloc, slot, name, &[]);
        };
        self.slots.open(self.alloc, slot, name, content)
    }

    /// Creates a file. It fails where memory runs out, and nowhere else.
    fn create(&mut self, slot: Slot, name: &str) -> Result<(), Failed>
        requires output { IsTrue (is_output slot) }
        requires closed { (sure_view self.old slot).mode ≡ Mode.Closed }
        ensures here { AfterCreate (sure_view self.old slot) name.now result
            (sure_view self.new slot) }
        ensures elsewhere { OnlyAt slot (sure_view self.old) (sure_view self.new) }
        ensures held { (file : List ℕ) → sure_held self.new file ≡ sure_held self.old file }
        ensures memory { IfErr result (λ e. e ≡ Failed.Memory) }
    {
        self.slots.create(self.alloc, slot, name)
    }

    /// Takes all that is left, or as much as the buffer has room for. It never fails.
    fn read(&mut self, slot: Slot, buf: &mut [u8]) -> Result<usize, Failed>
        requires reading { (sure_view self.old slot).mode ≡ Mode.Reading }
        requires room { 0 < length buf.old }
        ensures here { AfterRead (sure_view self.old slot) result buf.new
            (sure_view self.new slot) }
        ensures elsewhere { OnlyAt slot (sure_view self.old) (sure_view self.new) }
        ensures held { (file : List ℕ) → sure_held self.new file ≡ sure_held self.old file }
        ensures ok { IsOk result }
        ensures count { IfOk result (TakesMost None (sure_view self.old slot).left
            (length buf.old)) }
    {
        Ok(self.slots.read(slot, buf))
    }

    /// Appends the whole piece. It fails where memory runs out, and nowhere else.
    fn write(&mut self, slot: Slot, piece: &[u8]) -> Result<usize, Failed>
        requires { (sure_view self.old slot).mode ≡ Mode.Writing }
        ensures here { AfterWrite (sure_view self.old slot) piece.now result
            (sure_view self.new slot) }
        ensures elsewhere { OnlyAt slot (sure_view self.old) (sure_view self.new) }
        ensures held { (file : List ℕ) → sure_held self.new file ≡ sure_held self.old file }
        ensures memory { IfErr result (λ e. e ≡ Failed.Memory) }
        ensures count { IfOk result (λ n. n ≡ length piece.now) }
    {
        self.slots.write(slot, piece)
    }
}
