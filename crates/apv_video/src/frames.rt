//! The pictures of a file, one after another.
ghost use Rattle.std.specs.Prelude.{◌≡◌, ℕ, ◌<◌, true, List, [], ◌∷◌};
ghost use Rattle.apv_base.specs.model.Format.{IsSoundFormat};
ghost use Rattle.apv_base.specs.model.Run.{MAX_UNITS};
ghost use Rattle.apv_files.specs.Loops.{TookAll};
ghost use Rattle.apv_files.specs.SlotView.{OnlyAt, SlotView};
ghost use Rattle.apv_files.specs.declared.files.Mode.TheVariants.{Reading};
ghost use Rattle.apv_grid.specs.Buffer.{samples_of};
ghost use Rattle.apv_video.specs.ReadFrame.{ReadsFrame, TakesByte};

use crate::end::bad_picture;
use crate::frame_line::read_frame_line;
use crate::read::read_rest;
use crate::{Shape, VideoEnd};
use apv_base::{Limit, Slot, VideoRule};
use apv_files::{Failed, Files};
use apv_grid::Frame;

/// Reads a byte: None is the end of the input.
fn take_byte<F: Files>(files: &mut F, slot: Slot) -> Result<Option<u8>, Failed>
    requires { (F.slot_view files.old slot).mode ≡ Reading }
    ensures here { TakesByte (F.slot_view files.old slot) result (F.slot_view files.new slot) }
    ensures elsewhere { OnlyAt slot (F.slot_view files.old) (F.slot_view files.new) }
    ensures held { (file : List ℕ) → F.held files.new file ≡ F.held files.old file }
{
    let mut byte = [0; 1];
    match files.read(slot, &mut byte) {
        Ok(count) => {
            if count == 0 {
                return Ok(None);
            }
            Ok(Some(byte[0]))
        }
        Err(failed) => Err(failed),
    }
}

/// Reads the frame line and the picture of a Y4M file, of which the first byte is given.
fn read_y4m<F: Files>(
    files: &mut F,
    slot: Slot,
    shape: &Shape,
    number: u32,
    frame: &mut Frame,
    first: u8,
) -> Result<bool, VideoEnd>
    requires reading { (F.slot_view files.old slot).mode ≡ Reading }
    requires y4m { shape.now.y4m ≡ true }
    requires few { number < MAX_UNITS }
    requires sound { IsSoundFormat shape.now.format }
    requires format { frame.old.grid.format ≡ shape.now.format }
    ensures here { (start : SlotView) → TookAll start (first ∷ []) (F.slot_view files.old slot)
        → ReadsFrame slot shape.now number start result (samples_of frame.new)
        (F.slot_view files.new slot) }
    ensures grid { frame.new.grid ≡ frame.old.grid }
    ensures elsewhere { OnlyAt slot (F.slot_view files.old) (F.slot_view files.new) }
    ensures held { (file : List ℕ) → F.held files.new file ≡ F.held files.old file }
{
    match read_frame_line(files, slot, first) {
        Ok(true) => read_rest(files, slot, number, frame, &[]),
        Ok(false) => Err(bad_picture(slot, VideoRule::FrameLine, number)),
        Err(Failed::Device) => Err(VideoEnd::Read(slot)),
        Err(Failed::Memory) => Err(VideoEnd::Memory),
    }
}

/// Reads the next picture of a slot, which has that number, counted from 0, into the visible samples of a frame of its
/// format: component after component, row after row, each sample in two bytes, the low one first. In a Y4M file a line
/// of at most 1,024 bytes with its line feed comes before it: `FRAME`, or `FRAME` and a space and anything. What is
/// left begins right after the picture. False is the end of the input before a picture: nothing was taken.
///
/// The refusals come in this order: L3 with 4,294,967,296, where the number is 4,294,967,295 and a byte is left;
/// `FrameLine`; `Truncated`; `Range`, where a sample isn't below 2 to the bit depth. `Bad` names the slot, the rule and
/// the number. `Read` comes only where the slot's read faults rose, `Memory` only from the files. After a refusal no
/// byte after that picture was taken, and nothing is said of the frame's samples.
pub fn read_frame<F: Files>(
    files: &mut F,
    slot: Slot,
    shape: &Shape,
    number: u32,
    frame: &mut Frame,
) -> Result<bool, VideoEnd>
    requires reading { (F.slot_view files.old slot).mode ≡ Reading }
    requires sound { IsSoundFormat shape.now.format }
    requires format { frame.old.grid.format ≡ shape.now.format }
    ensures here { ReadsFrame slot shape.now number (F.slot_view files.old slot) result
        (samples_of frame.new) (F.slot_view files.new slot) }
    ensures grid { frame.new.grid ≡ frame.old.grid }
    ensures elsewhere { OnlyAt slot (F.slot_view files.old) (F.slot_view files.new) }
    ensures held { (file : List ℕ) → F.held files.new file ≡ F.held files.old file }
{
    let first = match take_byte(files, slot) {
        Ok(Some(first)) => first,
        Ok(None) => return Ok(false),
        Err(Failed::Device) => return Err(VideoEnd::Read(slot)),
        Err(Failed::Memory) => return Err(VideoEnd::Memory),
    };
    if number == u32::MAX {
        return Err(VideoEnd::Limit(Limit::L3, 4294967296));
    }
    if shape.y4m {
        return read_y4m(files, slot, shape, number, frame, first);
    }
    read_rest(files, slot, number, frame, &[first])
}
