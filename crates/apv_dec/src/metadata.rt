//! The metadata payloads of an access unit, written.
ghost use Rattle.std.specs.Prelude.{◌≡◌, ◌≤◌, ℕ, List, length, is_some};
ghost use Rattle.std.specs.Bool.{OnTrue};
ghost use Rattle.apv_base.specs.declared.slot.Slot.TheVariants.{MetaOut};
ghost use Rattle.apv_base.specs.model.Body.{with_bodies};
ghost use Rattle.apv_base.specs.model.Judge.{DecodedUnit};
ghost use Rattle.apv_base.specs.model.Pbu.{Pbu};
ghost use Rattle.apv_base.specs.model.Run.{MAX_UNIT};
ghost use Rattle.apv_base.specs.model.Sound.{unit_payloads};
ghost use Rattle.apv_base.specs.model.Unit.{Structure};
ghost use Rattle.apv_files.specs.Loops.{WritesAll};
ghost use Rattle.apv_files.specs.SlotView.{OnlyAt};
ghost use Rattle.apv_files.specs.declared.files.Mode.TheVariants.{Writing};
ghost use Rattle.apv_dec.specs.Outputs.{output_settings, unit_metadata};

use apv_base::Slot;
use apv_files::{Failed, Files, write_all};
use apv_unit::{Pbus, pbu_payloads};
use apv_words::DecSettings;

/// Writes the metadata payloads of an access unit whose structure is sound to `MetaOut`, PBU by PBU.
fn write_payloads<F: Files>(files: &mut F, unit: &[u8]) -> Result<(), Failed>
    requires writing { (F.slot_view files.old MetaOut).mode ≡ Writing }
    requires small { length unit.now ≤ MAX_UNIT }
    requires sound { (pbus : List Pbu) × Structure with_bodies unit.now pbus }
    ensures here { (pbus : List Pbu) → Structure with_bodies unit.now pbus
        → WritesAll (F.slot_view files.old MetaOut) (unit_payloads pbus) result
        (F.slot_view files.new MetaOut) }
    ensures elsewhere { OnlyAt MetaOut (F.slot_view files.old) (F.slot_view files.new) }
    ensures held { (file : List ℕ) → F.held files.new file ≡ F.held files.old file }
{
    for pbu in Pbus::of(unit) {
        let payloads = pbu_payloads(pbu.kind, pbu.body);
        match write_all(files, Slot::MetaOut, payloads) {
            Ok(()) => {}
            Err(failed) => return Err(failed),
        }
    }
    Ok(())
}

/// The same where the settings name the metadata output, else nothing.
pub(crate) fn write_metadata<F: Files>(
    files: &mut F,
    settings: &DecSettings,
    unit: &[u8],
) -> Result<(), Failed>
    requires writing { OnTrue (is_some settings.now.metadata)
        ((F.slot_view files.old MetaOut).mode ≡ Writing) }
    requires small { length unit.now ≤ MAX_UNIT }
    requires sound { (pbus : List Pbu) × Structure with_bodies unit.now pbus }
    ensures here { (sound : DecodedUnit) → Structure with_bodies unit.now sound.pbus
        → WritesAll (F.slot_view files.old MetaOut)
        (unit_metadata (output_settings settings.now) sound) result
        (F.slot_view files.new MetaOut) }
    ensures elsewhere { OnlyAt MetaOut (F.slot_view files.old) (F.slot_view files.new) }
    ensures held { (file : List ℕ) → F.held files.new file ≡ F.held files.old file }
{
    if settings.metadata.is_some() {
        write_payloads(files, unit)
    } else {
        Ok(())
    }
}
