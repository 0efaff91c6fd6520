//! The index of a slot in an array that has one element for each slot.
ghost use Rattle.std.specs.Prelude.{◌≡◌, ◌<◌};
ghost use Rattle.apv_base.specs.model.Slot.{slot_number};

use apv_base::Slot;

/// The number of slots.
pub const SLOTS: usize = 10;

/// The number of a slot in the order of `Slot`, below `SLOTS`.
pub fn index_of(slot: Slot) -> usize
    ensures number { result ≡ slot_number slot }
    ensures small { result < SLOTS }
{
    match slot {
        Slot::Input => 0,
        Slot::Preview => 1,
        Slot::Depth => 2,
        Slot::Alpha => 3,
        Slot::Metadata => 4,
        Slot::TileQp => 5,
        Slot::Output => 6,
        Slot::Recon => 7,
        Slot::MetaOut => 8,
        Slot::Console => 9,
    }
}
