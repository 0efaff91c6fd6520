//! What every outside is: four calls on slots, and what they mean.
ghost use Rattle.std.specs.Prelude.{◌≡◌, ℕ, ◌<◌, List, Option, IsTrue, length};
ghost use Rattle.apv_base.specs.declared.slot.Slot.{Slot};
ghost use Rattle.apv_base.specs.declared.slot.Slot.TheVariants.{Console};
ghost use Rattle.apv_base.specs.model.Slot.{is_input, is_output};
ghost use Rattle.apv_files.specs.SlotView.{SlotView, OnlyAt, AfterOpen, AfterCreate, AfterRead, AfterWrite, IsBare};
ghost use Rattle.apv_files.specs.declared.files.Mode.TheVariants.{Writing};

use apv_base::Slot;
use thiserror::Error;

/// Why a call on a slot did nothing:
///
/// - `Device`: the device failed, and the count of that call's faults on that slot rose.
/// - `Memory`: memory ran out, and all is as before.
#[derive(Clone, Copy, Debug, PartialEq, Eq, Error)]
pub enum Failed {
    #[error("the device failed")]
    Device,
    #[error("out of memory")]
    Memory,
}

/// What a slot is open for:
///
/// - `Closed`: neither reading nor writing. Nothing is left and nothing was written.
/// - `Reading`: what is left of a file can be read.
/// - `Writing`: bytes can be written. The console is always in this mode.
#[derive(Clone, Copy, Debug, PartialEq, Eq)]
pub enum Mode {
    Closed,
    Reading,
    Writing,
}

/// The outside of a run. A call on one slot leaves the other slots as they are, no call changes what a named file
/// holds, and only `open` and `create` change the mode and the name of a slot. A call that is Ok leaves the counts of
/// faults, a `Device` raises the count of that call on that slot alone, and no count ever falls.
///
/// What files hold, what is left of a slot and what was written to it are known of some implementations only: `None`
/// is what isn't known. Modes, names and counts are always known.
pub trait Files {
    /// The content of the file of a name, where it is known.
    ghost held: { Self → List ℕ → Option (List ℕ) };

    /// What is known of a slot: its mode, its name, the bytes left and written where they are known, and its faults.
    ghost slot_view: { Self → Slot → SlotView };

    /// Opens the file of a name for reading: what is left of the slot is what the file holds.
    ///
    /// `Device`: the slot stays closed, its name is this one, and its open faults rose. `Memory`: all is as before.
    fn open(&mut self, slot: Slot, name: &str) -> Result<(), Failed>
        requires input { IsTrue (is_input slot) }
        requires closed { (slot_view self.old slot).mode ≡ Mode.Closed }
        ensures here { AfterOpen (slot_view self.old slot) name.now (held self.old name.now) result
            (slot_view self.new slot) }
        ensures elsewhere { OnlyAt slot (slot_view self.old) (slot_view self.new) }
        ensures held { (file : List ℕ) → held self.new file ≡ held self.old file };

    /// Creates a file of a name for writing: nothing is written yet.
    ///
    /// `Device`: the slot stays closed, its name is this one, and its open faults rose. `Memory`: all is as before.
    fn create(&mut self, slot: Slot, name: &str) -> Result<(), Failed>
        requires output { IsTrue (is_output slot) }
        requires closed { (slot_view self.old slot).mode ≡ Mode.Closed }
        ensures here { AfterCreate (slot_view self.old slot) name.now result
            (slot_view self.new slot) }
        ensures elsewhere { OnlyAt slot (slot_view self.old) (slot_view self.new) }
        ensures held { (file : List ℕ) → held self.new file ≡ held self.old file };

    /// Takes bytes from the start of what is left, at most as many as the buffer has: the buffer begins with them.
    /// Ok(0) is the end of the input.
    ///
    /// `Device`: nothing was taken, and the slot's read faults rose. `Memory`: all is as before.
    fn read(&mut self, slot: Slot, buf: &mut [u8]) -> Result<usize, Failed>
        requires reading { (slot_view self.old slot).mode ≡ Mode.Reading }
        requires room { 0 < length buf.old }
        ensures here { AfterRead (slot_view self.old slot) result buf.new
            (slot_view self.new slot) }
        ensures elsewhere { OnlyAt slot (slot_view self.old) (slot_view self.new) }
        ensures held { (file : List ℕ) → held self.new file ≡ held self.old file };

    /// Appends a prefix of the piece to what is written, and returns the number of its bytes: at least one of a piece
    /// that isn't empty.
    ///
    /// `Device`: nothing was appended, and the slot's write faults rose. `Memory`: all is as before.
    fn write(&mut self, slot: Slot, piece: &[u8]) -> Result<usize, Failed>
        requires { (slot_view self.old slot).mode ≡ Mode.Writing }
        ensures here { AfterWrite (slot_view self.old slot) piece.now result
            (slot_view self.new slot) }
        ensures elsewhere { OnlyAt slot (slot_view self.old) (slot_view self.new) }
        ensures held { (file : List ℕ) → held self.new file ≡ held self.old file };

    /// Of a closed slot nothing is left and nothing was written, where it is known.
    ghost bare_where_closed: { (files : Self) (slot : Slot) → IsBare (slot_view files slot) };

    /// The console is always in mode writing.
    ghost console_is_writing: { (files : Self) → (slot_view files Console).mode ≡ Writing };
}
