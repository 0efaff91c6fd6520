//! Pictures that are read.
ghost use Rattle.std.specs.Prelude.{◌≡◌, ℕ, ◌*◌, ◌^◌, ◌<◌, ◌≤◌, List, length, take};
ghost use Rattle.std.specs.Bool.{OnFalse, OnTrue};
ghost use Rattle.std.specs.List.{flat_map};
ghost use Rattle.apv_base.specs.model.Format.{IsSoundFormat, comps_of};
ghost use Rattle.apv_base.specs.model.Picture.{low_first, picture, picture_len};
ghost use Rattle.apv_files.specs.SlotView.{OnlyAt};
ghost use Rattle.apv_files.specs.declared.files.Mode.TheVariants.{Reading};
ghost use Rattle.apv_grid.specs.Buffer.{samples_of};
ghost use Rattle.apv_video.specs.Reads.{AreBelow, AreItemsBelow, AreValuesBelow, FillsAll};
ghost use Rattle.apv_video.specs.Reads.{KeepsBefore, ReadsRest, ReadsSamples};
ghost use Rattle.apv_video.specs.Samples.{component_text, sample_at, sample_count};

use crate::VideoEnd;
use crate::end::bad_picture;
use crate::samples::{bytes_to_samples, highest_of, write_samples};
use apv_base::{Slot, VideoRule};
use apv_files::{Failed, Files, fill};
use apv_grid::Frame;

/// The samples that one read has at most.
const PIECE: usize = 32768;

/// Why the samples of a picture weren't read.
///
/// - `Cut`: the input ended before.
/// - `Device`: a read failed by its device.
/// - `Memory`: memory ran out.
#[derive(Clone, Copy)]
pub(crate) enum Stop {
    Cut,
    Device,
    Memory,
}

/// Reads until the buffer is full.
fn fill_all<F: Files>(files: &mut F, slot: Slot, buf: &mut [u8]) -> Result<(), Stop>
    requires { (F.slot_view files.old slot).mode ≡ Reading }
    ensures here { FillsAll (F.slot_view files.old slot) result buf.new
        (F.slot_view files.new slot) }
    ensures elsewhere { OnlyAt slot (F.slot_view files.old) (F.slot_view files.new) }
    ensures held { (file : List ℕ) → F.held files.new file ≡ F.held files.old file }
{
    match fill(files, slot, buf) {
        Ok(count) => {
            if count < buf.len() {
                Err(Stop::Cut)
            } else {
                Ok(())
            }
        }
        Err(Failed::Device) => Err(Stop::Device),
        Err(Failed::Memory) => Err(Stop::Memory),
    }
}

/// Reads the bytes of samples, of which the first `held` are in the buffer, and returns the highest of the samples.
fn read_piece<F: Files>(
    files: &mut F,
    slot: Slot,
    held: usize,
    bytes: &mut [u8],
    samples: &mut [u16],
) -> Result<u16, Stop>
    requires reading { (F.slot_view files.old slot).mode ≡ Reading }
    requires held { held ≤ length bytes.old }
    requires size { length bytes.old ≡ 2 * length samples.old }
    ensures here { ReadsSamples (F.slot_view files.old slot) (take held bytes.old)
        (length bytes.old) (flat_map low_first samples.new) (AreItemsBelow samples.new) result
        (F.slot_view files.new slot) }
    ensures elsewhere { OnlyAt slot (F.slot_view files.old) (F.slot_view files.new) }
    ensures held { (file : List ℕ) → F.held files.new file ≡ F.held files.old file }
{
    fill_all(files, slot, &mut bytes[held..])?;
    bytes_to_samples(bytes, samples);
    Ok(highest_of(samples))
}

/// Reads the visible samples of a component, of which the first `held` bytes are in the buffer, and returns the highest
/// of them.
fn read_component<F: Files>(
    files: &mut F,
    slot: Slot,
    frame: &mut Frame,
    comp: u8,
    held: usize,
    bytes: &mut [u8],
    samples: &mut [u16],
) -> Result<u16, Stop>
    requires reading { (F.slot_view files.old slot).mode ≡ Reading }
    requires comp { comp < comps_of frame.old.grid.format.chroma }
    requires some { 0 < sample_count frame.old.grid.format comp }
    requires held { held ≤ 1 }
    requires bytes { length bytes.old ≡ 65536 }
    requires samples { length samples.old ≡ 32768 }
    ensures here { let format = frame.old.grid.format in
        ReadsSamples (F.slot_view files.old slot) (take held bytes.old)
        (2 * sample_count format comp) (component_text format (samples_of frame.new) comp)
        (AreValuesBelow (λ n. sample_at format (samples_of frame.new) comp n)
        (sample_count format comp)) result (F.slot_view files.new slot) }
    ensures kept { let format = frame.old.grid.format in
        KeepsBefore format comp (samples_of frame.old) (samples_of frame.new) }
    ensures grid { frame.new.grid ≡ frame.old.grid }
    ensures bytes { length bytes.new ≡ length bytes.old }
    ensures samples { length samples.new ≡ length samples.old }
    ensures elsewhere { OnlyAt slot (F.slot_view files.old) (F.slot_view files.new) }
    ensures held { (file : List ℕ) → F.held files.new file ≡ F.held files.old file }
{
    let count = frame.height(comp) as usize * frame.width(comp) as usize;
    let mut at_hand = held;
    let mut first = 0;
    let mut highest = 0;
    while first < count {
        let n = usize::min(PIECE, count - first);
        let piece = &mut samples[..n];
        let high = read_piece(files, slot, at_hand, &mut bytes[..2 * n], piece)?;
        highest = u16::max(highest, high);
        write_samples(frame, comp, first, piece);
        at_hand = 0;
        first += n;
    }
    Ok(highest)
}

/// Reads the visible samples of a picture, of which the bytes at hand are the first, and returns the highest of them.
fn read_picture<F: Files>(
    files: &mut F,
    slot: Slot,
    frame: &mut Frame,
    head: &[u8],
) -> Result<u16, Stop>
    requires reading { (F.slot_view files.old slot).mode ≡ Reading }
    requires sound { IsSoundFormat frame.old.grid.format }
    requires head { length head.now ≤ 1 }
    ensures here { let format = frame.old.grid.format in
        ReadsSamples (F.slot_view files.old slot) head.now (picture_len format)
        (picture format (samples_of frame.new))
        (AreBelow format (samples_of frame.new) (comps_of format.chroma)) result
        (F.slot_view files.new slot) }
    ensures grid { frame.new.grid ≡ frame.old.grid }
    ensures elsewhere { OnlyAt slot (F.slot_view files.old) (F.slot_view files.new) }
    ensures held { (file : List ℕ) → F.held files.new file ≡ F.held files.old file }
{
    let mut bytes = [0; 2 * PIECE];
    let mut samples = [0; PIECE];
    let mut held = head.len();
    bytes[..held].copy_from_slice(head);
    let mut highest = 0;
    for comp in 0..frame.grid().format().chroma.comps() {
        let high = read_component(files, slot, frame, comp, held, &mut bytes, &mut samples)?;
        highest = u16::max(highest, high);
        held = 0;
    }
    Ok(highest)
}

/// Whether a sample has at most that many bits.
fn has_bits(sample: u16, depth: u8) -> bool
    requires { depth < 16 }
    ensures within { OnTrue result (sample < 2 ^ depth) }
    ensures above { OnFalse result (2 ^ depth ≤ sample) }
{
    sample >> depth == 0
}

/// Reads the picture of a frame with that number, of which the bytes at hand are the first.
pub(crate) fn read_rest<F: Files>(
    files: &mut F,
    slot: Slot,
    number: u32,
    frame: &mut Frame,
    head: &[u8],
) -> Result<bool, VideoEnd>
    requires reading { (F.slot_view files.old slot).mode ≡ Reading }
    requires sound { IsSoundFormat frame.old.grid.format }
    requires head { length head.now ≤ 1 }
    ensures here { ReadsRest slot number frame.old.grid.format head.now
        (F.slot_view files.old slot) result (samples_of frame.new) (F.slot_view files.new slot) }
    ensures grid { frame.new.grid ≡ frame.old.grid }
    ensures elsewhere { OnlyAt slot (F.slot_view files.old) (F.slot_view files.new) }
    ensures held { (file : List ℕ) → F.held files.new file ≡ F.held files.old file }
{
    let highest = match read_picture(files, slot, frame, head) {
        Ok(highest) => highest,
        Err(Stop::Cut) => return Err(bad_picture(slot, VideoRule::Truncated, number)),
        Err(Stop::Device) => return Err(VideoEnd::Read(slot)),
        Err(Stop::Memory) => return Err(VideoEnd::Memory),
    };
    let depth = frame.grid().format().depth;
    if !has_bits(highest, depth) {
        return Err(bad_picture(slot, VideoRule::Range, number));
    }
    Ok(true)
}
