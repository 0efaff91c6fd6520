//! The status of a slot, which each outside keeps: its mode, its name and its faults.
ghost use Rattle.std.specs.Prelude.{◌≡◌};

use crate::Mode;
use std::alloc::Global;

/// A slot's mode, the name of the last `open` or `create` that was Ok or a device fault, and how often each call
/// failed by the device. A count stays at the last value of its type.
#[derive(Drop)]
pub struct SlotStatus {
    pub mode: Mode,
    pub name: String,
    pub open_faults: u64,
    pub read_faults: u64,
    pub write_faults: u64,
}

impl SlotStatus {
    ghost use Rattle.std.specs.Prelude.{[], string_bytes};
    ghost use Rattle.apv_files.specs.SlotView.{Faulted};

    /// A slot on which nothing was done.
    pub fn new(alloc: Global, mode: Mode) -> SlotStatus
        ensures mode { result.mode ≡ mode }
        ensures name { string_bytes result.name ≡ [] }
        ensures open_faults { result.open_faults ≡ 0 }
        ensures read_faults { result.read_faults ≡ 0 }
        ensures write_faults { result.write_faults ≡ 0 }
    {
        SlotStatus {
            mode,
            name: String::new(alloc),
            open_faults: 0,
            read_faults: 0,
            write_faults: 0,
        }
    }

    /// The file of a name was opened or created.
    pub fn enter(&mut self, mode: Mode, name: String)
        ensures { self.new ≡ record self.old { mode = mode; name = name } }
    {
        self.mode = mode;
        self.name = name;
    }

    /// An open or a create of a name failed by the device.
    pub fn count_open_fault(&mut self, name: String)
        ensures fault { Faulted self.old.open_faults self.new.open_faults }
        ensures rest { self.new ≡ record self.old {
          name = name;
          open_faults = self.new.open_faults;
        } }
    {
        self.name = name;
        self.open_faults = self.open_faults.saturating_add(1);
    }

    /// A read failed by the device.
    pub fn count_read_fault(&mut self)
        ensures fault { Faulted self.old.read_faults self.new.read_faults }
        ensures rest { self.new ≡ record self.old { read_faults = self.new.read_faults } }
    {
        self.read_faults = self.read_faults.saturating_add(1);
    }

    /// A write failed by the device.
    pub fn count_write_fault(&mut self)
        ensures fault { Faulted self.old.write_faults self.new.write_faults }
        ensures rest { self.new ≡ record self.old { write_faults = self.new.write_faults } }
    {
        self.write_faults = self.write_faults.saturating_add(1);
    }
}
