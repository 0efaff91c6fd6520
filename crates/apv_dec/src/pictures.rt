//! The pictures of the selected frames of an access unit, written.
ghost use Rattle.std.specs.Prelude.{◌≡◌, ◌≢◌, ◌≤◌, ℕ, List, None, IfSome, length, is_some};
ghost use Rattle.std.specs.Bool.{OnTrue};
ghost use Rattle.apv_base.specs.declared.slot.Slot.TheVariants.{Output};
ghost use Rattle.apv_base.specs.model.Judge.{DecodedUnit};
ghost use Rattle.apv_base.specs.model.Output.{has_kind as kind_is_selected, has_group as group_is_selected};
ghost use Rattle.apv_base.specs.model.Output.{is_y4m as is_y4m_lem};
ghost use Rattle.apv_base.specs.model.Run.{MAX_UNIT};
ghost use Rattle.apv_base.specs.model.Video.{tag_of};
ghost use Rattle.apv_files.specs.Loops.{WritesAll};
ghost use Rattle.apv_files.specs.SlotView.{OnlyAt};
ghost use Rattle.apv_files.specs.declared.files.Mode.TheVariants.{Writing};
ghost use Rattle.apv_dec.specs.Judged.{IsJudged};
ghost use Rattle.apv_dec.specs.Outputs.{output_settings, header_text, picture_if, selected_pictures};
ghost use Rattle.apv_dec.specs.Outputs.{selects, unit_pictures};

use apv_base::{Form, Format, Select, Slot};
use apv_files::{Failed, Files};
use apv_grid::Frame;
use apv_run::failed;
use apv_unit::{Pbus, is_frame};
use apv_video::{write_frame, write_header};
use apv_words::DecSettings;

/// Whether a `pbu_type` is selected.
fn has_kind(select: Select, kind: u8) -> bool
    ensures { result ≡ kind_is_selected select kind }
{
    match select {
        Select::Primary => kind == 1,
        Select::NonPrimary => kind == 2,
        Select::Preview => kind == 25,
        Select::Depth => kind == 26,
        Select::Alpha => kind == 27,
        Select::All => true,
    }
}

/// Whether a `group_id` is selected: each one where none is asked for.
fn has_group(wanted: Option<u32>, group: u16) -> bool
    ensures { result ≡ group_is_selected wanted group }
{
    match wanted {
        None => true,
        Some(wanted) => u32::from(group) == wanted,
    }
}

/// Whether a frame of that `pbu_type` and `group_id` is selected.
pub(crate) fn is_selected(settings: &DecSettings, kind: u8, group: u16) -> bool
    ensures { result ≡ selects settings.now kind group }
{
    if !has_kind(settings.select, kind) {
        return false;
    }
    has_group(settings.group, group)
}

/// Whether a form is that of a Y4M file.
pub(crate) fn is_y4m(form: Form) -> bool
    ensures { result ≡ is_y4m_lem form }
{
    match form {
        Form::Planar => false,
        Form::Y4m => true,
    }
}

/// Writes the picture of a frame to `Output`, after its line in a Y4M file, where the frame is selected, else nothing.
fn write_if<F: Files>(
    files: &mut F,
    form: Form,
    is_selected: bool,
    frame: &Frame,
) -> Result<(), Failed>
    requires { (F.slot_view files.old Output).mode ≡ Writing }
    ensures here { WritesAll (F.slot_view files.old Output) (picture_if form is_selected frame.now)
        result (F.slot_view files.new Output) }
    ensures elsewhere { OnlyAt Output (F.slot_view files.old) (F.slot_view files.new) }
    ensures held { (file : List ℕ) → F.held files.new file ≡ F.held files.old file }
{
    if !is_selected {
        return Ok(());
    }
    match write_frame(files, Slot::Output, frame, is_y4m(form)) {
        Ok(()) => Ok(()),
        Err(put) => Err(failed(put)),
    }
}

/// Writes the pictures of the selected frames of a valid access unit to `Output`, in the order of the PBUs. The frames
/// are all those of the unit.
fn write_selected<F: Files>(
    files: &mut F,
    settings: &DecSettings,
    unit: &[u8],
    frames: &[Frame],
) -> Result<(), Failed>
    requires writing { (F.slot_view files.old Output).mode ≡ Writing }
    requires small { length unit.now ≤ MAX_UNIT }
    requires judged { (judged : DecodedUnit)
        × IsJudged settings.now.strict unit.now frames.now judged }
    ensures here { (judged : DecodedUnit) → IsJudged settings.now.strict unit.now frames.now judged
        → WritesAll (F.slot_view files.old Output)
        (selected_pictures (output_settings settings.now) judged) result
        (F.slot_view files.new Output) }
    ensures elsewhere { OnlyAt Output (F.slot_view files.old) (F.slot_view files.new) }
    ensures held { (file : List ℕ) → F.held files.new file ≡ F.held files.old file }
{
    let mut index = 0;
    for pbu in Pbus::of(unit) {
        if is_frame(pbu.kind) {
            let selected = is_selected(settings, pbu.kind, pbu.group);
            match write_if(files, settings.form, selected, &frames[index]) {
                Ok(()) => {}
                Err(failed) => return Err(failed),
            }
            index += 1;
        }
    }
    Ok(())
}

/// Writes the header line of a Y4M file for a format to `Output`, where there is a format.
fn write_header_of<F: Files>(
    files: &mut F,
    settings: &DecSettings,
    header: Option<Format>,
) -> Result<(), Failed>
    requires writing { (F.slot_view files.old Output).mode ≡ Writing }
    requires tag { IfSome header (λ format. tag_of format ≢ None) }
    ensures here { WritesAll (F.slot_view files.old Output)
        (header_text (output_settings settings.now) header) result
        (F.slot_view files.new Output) }
    ensures elsewhere { OnlyAt Output (F.slot_view files.old) (F.slot_view files.new) }
    ensures held { (file : List ℕ) → F.held files.new file ≡ F.held files.old file }
{
    let Some(format) = header else {
        return Ok(());
    };
    match write_header(files, &format, settings.rate) {
        Ok(()) => Ok(()),
        Err(put) => Err(failed(put)),
    }
}

/// Writes the pictures of the selected frames of a valid access unit, after the header line for a format where one is
/// given, where the settings name the output, else nothing.
pub(crate) fn write_pictures<F: Files>(
    files: &mut F,
    settings: &DecSettings,
    header: Option<Format>,
    unit: &[u8],
    frames: &[Frame],
) -> Result<(), Failed>
    requires writing { OnTrue (is_some settings.now.output)
        ((F.slot_view files.old Output).mode ≡ Writing) }
    requires tag { IfSome header (λ format. tag_of format ≢ None) }
    requires small { length unit.now ≤ MAX_UNIT }
    requires judged { (judged : DecodedUnit)
        × IsJudged settings.now.strict unit.now frames.now judged }
    ensures here { (judged : DecodedUnit) → IsJudged settings.now.strict unit.now frames.now judged
        → WritesAll (F.slot_view files.old Output)
        (unit_pictures (output_settings settings.now) header judged) result
        (F.slot_view files.new Output) }
    ensures elsewhere { OnlyAt Output (F.slot_view files.old) (F.slot_view files.new) }
    ensures held { (file : List ℕ) → F.held files.new file ≡ F.held files.old file }
{
    if settings.output.is_none() {
        return Ok(());
    }
    match write_header_of(files, settings, header) {
        Ok(()) => write_selected(files, settings, unit, frames),
        Err(failed) => Err(failed),
    }
}
