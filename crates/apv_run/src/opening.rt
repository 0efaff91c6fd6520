//! The files of a run, opened one after another in the order of `Slot`.
ghost use Rattle.std.specs.Prelude.{◌≡◌, ◌+◌, ℕ, List, Option, false};
ghost use Rattle.apv_base.specs.declared.slot.Slot.{Slot};
ghost use Rattle.apv_base.specs.declared.slot.Slot.TheVariants.{Console};
ghost use Rattle.apv_base.specs.model.Slot.{is_input as is_input_lem, same_slot, slot_number};
ghost use Rattle.apv_files.specs.SlotView.{OnlyAt, SlotView};
ghost use Rattle.apv_files.specs.declared.files.Mode.TheVariants.{Closed};
ghost use Rattle.apv_run.specs.Names.{Names};
ghost use Rattle.apv_run.specs.Opened.{AfterOpening, IsNext, Opens, OpensOrExits};

use crate::exits::open_exit;
use apv_base::{Exit, Name, Slot};
use apv_files::{Failed, Files};

/// Whether a slot is read.
fn is_input(slot: Slot) -> bool
    ensures { result ≡ is_input_lem slot }
{
    match slot {
        Slot::Input | Slot::Preview | Slot::Depth => true,
        Slot::Alpha | Slot::Metadata | Slot::TileQp => true,
        Slot::Output | Slot::Recon | Slot::MetaOut | Slot::Console => false,
    }
}

/// Opens the file of a slot, or creates it, where it has a name.
fn open_named<F: Files>(files: &mut F, slot: Slot, name: &Option<Name>) -> Result<(), Failed>
    requires file { same_slot slot Console ≡ false }
    requires closed { (F.slot_view files.old slot).mode ≡ Closed }
    ensures here { Opens slot name.now (F.held files.old) (F.slot_view files.old slot) result
        (F.slot_view files.new slot) }
    ensures elsewhere { OnlyAt slot (F.slot_view files.old) (F.slot_view files.new) }
    ensures held { (file : List ℕ) → F.held files.new file ≡ F.held files.old file }
{
    let Some(name) = name else {
        return Ok(());
    };
    if is_input(slot) {
        files.open(slot, name.text())
    } else {
        files.create(slot, name.text())
    }
}

/// Opens the file of a slot for reading (`Input` to `TileQp`), or creates it (`Output` to `MetaOut`), where it has a
/// name. A program calls it for the slots that its settings may name, in the order of `Slot`: so the slots below this
/// one are opened, and this one and the later ones are as at the start.
///
/// `OpenFailed` with the slot: its device failed. `Memory`: memory ran out. After either, nothing is written and no
/// later file is open.
pub fn open_slot<F: Files>(files: &mut F, slot: Slot, name: &Option<Name>) -> Result<(), Exit>
    requires file { same_slot slot Console ≡ false }
    requires closed { (F.slot_view files.old slot).mode ≡ Closed }

    // Whatever the names, what files hold, and the views at the start.
    ensures opens { (names : Names) (held : List ℕ → Option (List ℕ)) (start : Slot → SlotView)
        → IsNext names held (F.held files.old) start (F.slot_view files.old) slot name.now
        → AfterOpening (slot_number slot + 1) names held start result (F.slot_view files.new) }

    ensures here { OpensOrExits slot name.now (F.held files.old) (F.slot_view files.old slot) result
        (F.slot_view files.new slot) }
    ensures elsewhere { OnlyAt slot (F.slot_view files.old) (F.slot_view files.new) }
    ensures held { (file : List ℕ) → F.held files.new file ≡ F.held files.old file }
{
    match open_named(files, slot, name) {
        Ok(()) => Ok(()),
        Err(failed) => Err(open_exit(slot, failed)),
    }
}
