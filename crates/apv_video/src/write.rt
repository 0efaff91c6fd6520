//! What is written to a file of pictures.
ghost use Rattle.std.specs.Prelude.{◌≡◌, ◌≢◌, ℕ, ◌<◌, ◌≤◌, List, [], ◌++◌, length, None, IsTrue};
ghost use Rattle.std.specs.Prelude.{if◌then◌else◌};
ghost use Rattle.apv_base.specs.declared.slot.Slot.TheVariants.{Output};
ghost use Rattle.apv_base.specs.model.Format.{comps_of};
ghost use Rattle.apv_base.specs.model.Output.{header_with};
ghost use Rattle.apv_base.specs.model.Picture.{picture};
ghost use Rattle.apv_base.specs.model.Slot.{is_output};
ghost use Rattle.apv_base.specs.model.Video.{frame_line, tag_of as tag_of_lem};
ghost use Rattle.apv_files.specs.SlotView.{OnlyAt};
ghost use Rattle.apv_files.specs.declared.files.Mode.TheVariants.{Writing};
ghost use Rattle.apv_grid.specs.Buffer.{samples_of};
ghost use Rattle.apv_video.specs.Samples.{component_text};
ghost use Rattle.apv_video.specs.Writes.{PutsAll};

use crate::line::header_line;
use crate::samples::{read_samples, samples_to_bytes};
use crate::tag_of;
use apv_base::{Format, Slot};
use apv_files::{Failed, Files, write_all};
use apv_grid::Frame;

/// The samples that one write has at most.
const PIECE: usize = 32768;

/// Why not all was written:
///
/// - `Failed`: a write failed by its device, and the slot's write faults rose.
/// - `Memory`: memory ran out.
#[derive(Clone, Copy, Debug, PartialEq, Eq)]
pub enum Put {
    Failed,
    Memory,
}

/// Writes all the bytes.
fn put_all<F: Files>(files: &mut F, slot: Slot, bytes: &[u8]) -> Result<(), Put>
    requires { (F.slot_view files.old slot).mode ≡ Writing }
    ensures here { PutsAll (F.slot_view files.old slot) bytes.now result
        (F.slot_view files.new slot) }
    ensures elsewhere { OnlyAt slot (F.slot_view files.old) (F.slot_view files.new) }
    ensures held { (file : List ℕ) → F.held files.new file ≡ F.held files.old file }
{
    match write_all(files, slot, bytes) {
        Ok(()) => Ok(()),
        Err(Failed::Device) => Err(Put::Failed),
        Err(Failed::Memory) => Err(Put::Memory),
    }
}

/// The samples that one write of a component of that width has: whole rows of blocks where they fit, else whole rows where
/// they fit.
fn piece_len(width: usize) -> usize
    ensures some { 0 < result }
    ensures few { result ≤ 32768 }
{
    if width == 0 || width > PIECE {
        return PIECE;
    }
    let rows = PIECE / width;
    if rows < 8 {
        return rows * width;
    }
    rows / 8 * 8 * width
}

/// Writes the visible samples of a component, by way of two buffers.
fn write_component<F: Files>(
    files: &mut F,
    slot: Slot,
    frame: &Frame,
    comp: u8,
    samples: &mut [u16],
    bytes: &mut [u8],
) -> Result<(), Put>
    requires writing { (F.slot_view files.old slot).mode ≡ Writing }
    requires comp { comp < comps_of frame.now.grid.format.chroma }
    requires samples { length samples.old ≡ 32768 }
    requires bytes { length bytes.old ≡ 65536 }
    ensures here { PutsAll (F.slot_view files.old slot)
        (component_text frame.now.grid.format (samples_of frame.now) comp) result
        (F.slot_view files.new slot) }
    ensures samples { length samples.new ≡ length samples.old }
    ensures bytes { length bytes.new ≡ length bytes.old }
    ensures elsewhere { OnlyAt slot (F.slot_view files.old) (F.slot_view files.new) }
    ensures held { (file : List ℕ) → F.held files.new file ≡ F.held files.old file }
{
    let count = frame.height(comp) as usize * frame.width(comp) as usize;
    let most = piece_len(frame.width(comp) as usize);
    let mut first = 0;
    while first < count {
        let n = usize::min(most, count - first);
        let piece = &mut samples[..n];
        read_samples(frame, comp, first, piece);
        let spelled = &mut bytes[..2 * n];
        samples_to_bytes(piece, spelled);
        put_all(files, slot, spelled)?;
        first += n;
    }
    Ok(())
}

/// Writes the picture of a frame.
fn write_picture<F: Files>(files: &mut F, slot: Slot, frame: &Frame) -> Result<(), Put>
    requires { (F.slot_view files.old slot).mode ≡ Writing }
    ensures here { PutsAll (F.slot_view files.old slot)
        (picture frame.now.grid.format (samples_of frame.now)) result
        (F.slot_view files.new slot) }
    ensures elsewhere { OnlyAt slot (F.slot_view files.old) (F.slot_view files.new) }
    ensures held { (file : List ℕ) → F.held files.new file ≡ F.held files.old file }
{
    let mut samples = [0; PIECE];
    let mut bytes = [0; 2 * PIECE];
    for comp in 0..frame.grid().format().chroma.comps() {
        write_component(files, slot, frame, comp, &mut samples, &mut bytes)?;
    }
    Ok(())
}

/// Writes the line before a picture, in a Y4M file.
fn write_frame_line<F: Files>(files: &mut F, slot: Slot, y4m: bool) -> Result<(), Put>
    requires { (F.slot_view files.old slot).mode ≡ Writing }
    ensures here { PutsAll (F.slot_view files.old slot) (if y4m then frame_line else []) result
        (F.slot_view files.new slot) }
    ensures elsewhere { OnlyAt slot (F.slot_view files.old) (F.slot_view files.new) }
    ensures held { (file : List ℕ) → F.held files.new file ≡ F.held files.old file }
{
    let line: &[u8] = if y4m { b"FRAME\n" } else { &[] };
    put_all(files, slot, line)
}

/// Writes the header line of a Y4M file of a format to `Output`, with a rate as a number of frames and of seconds.
///
/// After an error a prefix of the line was written, but not all. `Failed`: the write faults of `Output` rose.
pub fn write_header<F: Files>(files: &mut F, format: &Format, rate: (u32, u32)) -> Result<(), Put>
    requires writing { (F.slot_view files.old Output).mode ≡ Writing }
    requires tag { tag_of_lem format.now ≢ None }
    ensures here { PutsAll (F.slot_view files.old Output)
        (header_with rate format.now (tag_of_lem format.now)) result
        (F.slot_view files.new Output) }
    ensures elsewhere { OnlyAt Output (F.slot_view files.old) (F.slot_view files.new) }
    ensures held { (file : List ℕ) → F.held files.new file ≡ F.held files.old file }
{
    let Some(tag) = tag_of(format) else {
        unreachable!()
    };
    let line = header_line(format, rate, tag);
    put_all(files, Slot::Output, line.bytes())
}

/// Writes the picture of a frame: its visible samples, component after component, row after row, each in two bytes, the
/// low one first. In a Y4M file the line `FRAME` comes before it.
///
/// After an error a prefix of these bytes was written, but not all. `Failed`: the slot's write faults rose.
pub fn write_frame<F: Files>(files: &mut F, slot: Slot, frame: &Frame, y4m: bool) -> Result<(), Put>
    requires output { IsTrue (is_output slot) }
    requires writing { (F.slot_view files.old slot).mode ≡ Writing }
    ensures here { PutsAll (F.slot_view files.old slot)
        ((if y4m then frame_line else []) ++ picture frame.now.grid.format (samples_of frame.now))
        result (F.slot_view files.new slot) }
    ensures elsewhere { OnlyAt slot (F.slot_view files.old) (F.slot_view files.new) }
    ensures held { (file : List ℕ) → F.held files.new file ≡ F.held files.old file }
{
    write_frame_line(files, slot, y4m)?;
    write_picture(files, slot, frame)
}
