//! The slots over files in memory.
ghost use Rattle.std.specs.Prelude.{◌≡◌};
ghost use Rattle.apv_base.specs.declared.slot.Slot.TheVariants.{Console};
ghost use Rattle.apv_base.specs.model.Slot.{slot_number};
ghost use Rattle.apv_files.specs.MemorySlot.{view_in};
ghost use Rattle.apv_files.specs.declared.files.Mode.TheVariants.{Writing};

use crate::memory_slot::MemorySlot;
use crate::slots::{SLOTS, index_of};
use crate::{Failed, Mode, Slot};
use std::alloc::Global;

/// Each slot over files in memory. The console's is always writing.
#[derive(Drop)]
pub struct MemorySlots {
    slots: [MemorySlot; SLOTS],
    ghost console: { (view_in slots (slot_number Console)).mode ≡ Writing },
}

impl MemorySlots {
    ghost use Rattle.std.specs.Prelude.{[], ◌<◌, length, None, Some, Ok, IfOk, IfErr, IsTrue};
    ghost use Rattle.apv_base.specs.declared.slot.Slot.{Slot};
    ghost use Rattle.apv_base.specs.model.Slot.{is_input, is_output};
    ghost use Rattle.apv_files.specs.SlotView.{OnlyAt, AfterOpen, AfterCreate, AfterRead, AfterWrite};
    ghost use Rattle.apv_files.specs.SlotView.{AfterFailedOpen, ReadFailed, WriteFailed, start_view};
    ghost use Rattle.apv_files.specs.MemorySlots.{memory_slots_view};
    ghost use Rattle.apv_files.specs.Moved.{TakesMost};

    /// Each slot but the console is closed, and nothing was done on any.
    pub fn new(alloc: Global) -> MemorySlots
        ensures { (slot : Slot) → memory_slots_view result slot ≡ start_view (Some []) slot }
    {
        MemorySlots {
            slots: [
                MemorySlot::new(alloc, Mode::Closed),
                MemorySlot::new(alloc, Mode::Closed),
                MemorySlot::new(alloc, Mode::Closed),
                MemorySlot::new(alloc, Mode::Closed),
                MemorySlot::new(alloc, Mode::Closed),
                MemorySlot::new(alloc, Mode::Closed),
                MemorySlot::new(alloc, Mode::Closed),
                MemorySlot::new(alloc, Mode::Closed),
                MemorySlot::new(alloc, Mode::Closed),
                MemorySlot::new(alloc, Mode::Writing),
            ],
        }
    }

    /// Opens a file of this content on an input slot.
    pub fn open(
        &mut self,
        alloc: Global,
        slot: Slot,
        name: &str,
        content: &[u8],
    ) -> Result<(), Failed>
        requires input { IsTrue (is_input slot) }
        requires closed { (memory_slots_view self.old slot).mode ≡ Mode.Closed }
        ensures here { AfterOpen (memory_slots_view self.old slot) name.now (Some content.now)
            result (memory_slots_view self.new slot) }
        ensures elsewhere { OnlyAt slot (memory_slots_view self.old) (memory_slots_view self.new) }
        ensures memory { IfErr result (λ e. e ≡ Failed.Memory) }
    {
        let memory_slot = &mut self.slots[index_of(slot)];
        memory_slot.open(alloc, name, content)
    }

    /// Begins to write a file on an output slot.
    pub fn create(&mut self, alloc: Global, slot: Slot, name: &str) -> Result<(), Failed>
        requires output { IsTrue (is_output slot) }
        requires closed { (memory_slots_view self.old slot).mode ≡ Mode.Closed }
        ensures here { AfterCreate (memory_slots_view self.old slot) name.now result
            (memory_slots_view self.new slot) }
        ensures elsewhere { OnlyAt slot (memory_slots_view self.old) (memory_slots_view self.new) }
        ensures memory { IfErr result (λ e. e ≡ Failed.Memory) }
    {
        let memory_slot = &mut self.slots[index_of(slot)];
        memory_slot.create(alloc, name)
    }

    /// Fails an open or a create of a name by the device, or returns `Memory` where the name can't be kept.
    pub fn fail_open(&mut self, alloc: Global, slot: Slot, name: &str) -> Failed
        ensures here { AfterFailedOpen (memory_slots_view self.old slot) name.now result
            (memory_slots_view self.new slot) }
        ensures elsewhere { OnlyAt slot (memory_slots_view self.old) (memory_slots_view self.new) }
    {
        let memory_slot = &mut self.slots[index_of(slot)];
        memory_slot.fail_open(alloc, name)
    }

    /// Takes as many bytes as are left and as the buffer has room for, and returns their number.
    pub fn read(&mut self, slot: Slot, buf: &mut [u8]) -> usize
        requires reading { (memory_slots_view self.old slot).mode ≡ Mode.Reading }
        requires room { 0 < length buf.old }
        ensures here { AfterRead (memory_slots_view self.old slot) (Ok result) buf.new
            (memory_slots_view self.new slot) }
        ensures count { TakesMost None (memory_slots_view self.old slot).left (length buf.old)
            result }
        ensures elsewhere { OnlyAt slot (memory_slots_view self.old) (memory_slots_view self.new) }
    {
        let memory_slot = &mut self.slots[index_of(slot)];
        memory_slot.read(buf)
    }

    /// Fails a read by the device.
    pub fn fail_read(&mut self, slot: Slot)
        ensures here { ReadFailed (memory_slots_view self.old slot)
            (memory_slots_view self.new slot) }
        ensures elsewhere { OnlyAt slot (memory_slots_view self.old) (memory_slots_view self.new) }
    {
        let memory_slot = &mut self.slots[index_of(slot)];
        memory_slot.fail_read();
    }

    /// Appends the whole piece.
    pub fn write(&mut self, slot: Slot, piece: &[u8]) -> Result<usize, Failed>
        requires { (memory_slots_view self.old slot).mode ≡ Mode.Writing }
        ensures here { AfterWrite (memory_slots_view self.old slot) piece.now result
            (memory_slots_view self.new slot) }
        ensures count { IfOk result (λ n. n ≡ length piece.now) }
        ensures elsewhere { OnlyAt slot (memory_slots_view self.old) (memory_slots_view self.new) }
        ensures memory { IfErr result (λ e. e ≡ Failed.Memory) }
    {
        let memory_slot = &mut self.slots[index_of(slot)];
        memory_slot.write(piece)
    }

    /// Fails a write by the device.
    pub fn fail_write(&mut self, slot: Slot)
        ensures here { WriteFailed (memory_slots_view self.old slot)
            (memory_slots_view self.new slot) }
        ensures elsewhere { OnlyAt slot (memory_slots_view self.old) (memory_slots_view self.new) }
    {
        let memory_slot = &mut self.slots[index_of(slot)];
        memory_slot.fail_write();
    }

    /// The bytes not yet read of a slot: none of one that isn't reading.
    pub fn left(&self, slot: Slot) -> &[u8]
        ensures { (memory_slots_view self.now slot).left ≡ Some result.now }
    {
        self.slots[index_of(slot)].left()
    }

    /// The bytes written to a slot: none of one that isn't writing.
    pub fn written(&self, slot: Slot) -> &[u8]
        ensures { (memory_slots_view self.now slot).written ≡ Some result.now }
    {
        self.slots[index_of(slot)].written()
    }
}
