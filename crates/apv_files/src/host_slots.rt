//! The status of each slot over real files.
ghost use Rattle.std.specs.Prelude.{◌≡◌};
ghost use Rattle.apv_base.specs.declared.slot.Slot.TheVariants.{Console};
ghost use Rattle.apv_base.specs.model.Slot.{slot_number};
ghost use Rattle.apv_files.specs.SlotStatus.{status_in};
ghost use Rattle.apv_files.specs.declared.files.Mode.TheVariants.{Writing};

use crate::slots::{SLOTS, index_of};
use crate::status::SlotStatus;
use crate::{Mode, Slot};
use std::alloc::Global;

/// The status of each slot. The console's is always writing.
#[derive(Drop)]
pub struct HostSlots {
    statuses: [SlotStatus; SLOTS],
    ghost console: { (status_in statuses (slot_number Console)).mode ≡ Writing },
}

impl HostSlots {
    ghost use Rattle.std.specs.Prelude.{None, IsTrue, string_bytes};
    ghost use Rattle.apv_base.specs.declared.slot.Slot.{Slot};
    ghost use Rattle.apv_base.specs.model.Slot.{is_input};
    ghost use Rattle.apv_files.specs.SlotView.{OnlyAt, OpenFailed, ReadFailed, WriteFailed, start_view};
    ghost use Rattle.apv_files.specs.HostSlots.{host_slots_view};

    /// Each slot but the console is closed, and nothing was done on any.
    pub fn new(alloc: Global) -> HostSlots
        ensures { (slot : Slot) → host_slots_view result slot ≡ start_view None slot }
    {
        HostSlots {
            statuses: [
                SlotStatus::new(alloc, Mode::Closed),
                SlotStatus::new(alloc, Mode::Closed),
                SlotStatus::new(alloc, Mode::Closed),
                SlotStatus::new(alloc, Mode::Closed),
                SlotStatus::new(alloc, Mode::Closed),
                SlotStatus::new(alloc, Mode::Closed),
                SlotStatus::new(alloc, Mode::Closed),
                SlotStatus::new(alloc, Mode::Closed),
                SlotStatus::new(alloc, Mode::Closed),
                SlotStatus::new(alloc, Mode::Writing),
            ],
        }
    }

    /// The file of a name was opened on an input slot.
    pub fn open(&mut self, slot: Slot, name: String)
        requires { IsTrue (is_input slot) }
        ensures here { host_slots_view self.new slot
            ≡ record (host_slots_view self.old slot) {
              mode = Mode.Reading;
              name = string_bytes name;
            } }
        ensures elsewhere { OnlyAt slot (host_slots_view self.old) (host_slots_view self.new) }
    {
        let status = &mut self.statuses[index_of(slot)];
        status.enter(Mode::Reading, name);
    }

    /// The file of a name was created.
    pub fn create(&mut self, slot: Slot, name: String)
        ensures here { host_slots_view self.new slot
            ≡ record (host_slots_view self.old slot) {
              mode = Mode.Writing;
              name = string_bytes name;
            } }
        ensures elsewhere { OnlyAt slot (host_slots_view self.old) (host_slots_view self.new) }
    {
        let status = &mut self.statuses[index_of(slot)];
        status.enter(Mode::Writing, name);
    }

    /// An open or a create of a name failed by the device.
    pub fn count_open_fault(&mut self, slot: Slot, name: String)
        ensures here { OpenFailed (host_slots_view self.old slot) (string_bytes name)
            (host_slots_view self.new slot) }
        ensures elsewhere { OnlyAt slot (host_slots_view self.old) (host_slots_view self.new) }
    {
        let status = &mut self.statuses[index_of(slot)];
        status.count_open_fault(name);
    }

    /// A read failed by the device.
    pub fn count_read_fault(&mut self, slot: Slot)
        ensures here { ReadFailed (host_slots_view self.old slot) (host_slots_view self.new slot) }
        ensures elsewhere { OnlyAt slot (host_slots_view self.old) (host_slots_view self.new) }
    {
        let status = &mut self.statuses[index_of(slot)];
        status.count_read_fault();
    }

    /// A write failed by the device.
    pub fn count_write_fault(&mut self, slot: Slot)
        ensures here { WriteFailed (host_slots_view self.old slot) (host_slots_view self.new slot) }
        ensures elsewhere { OnlyAt slot (host_slots_view self.old) (host_slots_view self.new) }
    {
        let status = &mut self.statuses[index_of(slot)];
        status.count_write_fault();
    }
}
