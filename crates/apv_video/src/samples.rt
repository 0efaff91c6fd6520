//! Samples between frames and bytes.
ghost use Rattle.std.specs.Prelude.{◌≡◌, ℕ, ◌+◌, ◌*◌, ◌^◌, ◌<◌, ◌≤◌, length, slice_index};
ghost use Rattle.std.specs.List.{flat_map};
ghost use Rattle.apv_base.specs.model.Format.{comps_of};
ghost use Rattle.apv_base.specs.model.Picture.{low_first};
ghost use Rattle.apv_grid.specs.Buffer.{samples_of};
ghost use Rattle.apv_video.specs.Reads.{AreItemsBelow, IsHighest, PutsSamples};
ghost use Rattle.apv_video.specs.Samples.{sample_at, sample_count, samples_from};

use apv_grid::Frame;

/// Copies visible samples of a component, from the one with that number on, to the first items of a slice, and returns how
/// many: whole rows of a row of blocks, where the first one begins a row and the slice has room for it, or what is left of
/// a row.
fn read_some(frame: &Frame, comp: u8, first: usize, samples: &mut [u16]) -> usize
    requires comp { comp < comps_of frame.now.grid.format.chroma }
    requires some { 0 < length samples.old }
    requires inside { first + length samples.old ≤ sample_count frame.now.grid.format comp }
    requires few { first + length samples.old < 2 ^ 64 }
    requires low { frame.now.grid.format.height < 2 ^ 32 }
    ensures some { (0 < result) × (result ≤ length samples.old) }
    ensures size { length samples.new ≡ length samples.old }
    ensures samples { (i : ℕ) → i < result → slice_index samples.new i
        ≡ sample_at frame.now.grid.format (samples_of frame.now) comp (first + i) }
{
    let width = frame.width(comp) as usize;
    let x = first % width;
    let y = first / width;
    let rows = usize::min(8 - y % 8, samples.len() / width);
    if x > 0 || rows == 0 {
        let count = usize::min(width - x, samples.len());
        frame.row_into(comp, x as u32, y as u32, &mut samples[..count]);
        return count;
    }
    frame.rows_into(comp, y as u32, rows, &mut samples[..rows * width]);
    rows * width
}

/// Copies visible samples of a component, row after row, from the one with a number on, as many as the slice has.
pub(crate) fn read_samples(frame: &Frame, comp: u8, first: usize, samples: &mut [u16])
    requires comp { comp < comps_of frame.now.grid.format.chroma }
    requires inside { first + length samples.old ≤ sample_count frame.now.grid.format comp }
    requires few { first + length samples.old < 2 ^ 64 }
    requires low { frame.now.grid.format.height < 2 ^ 32 }
    ensures { let format = frame.now.grid.format in
        samples.new ≡ samples_from format (samples_of frame.now) comp first (length samples.old) }
{
    let mut done = 0;
    while done < samples.len() {
        done += read_some(frame, comp, first + done, &mut samples[done..]);
    }
}

/// Writes samples as bytes, two for each, the low one first.
pub(crate) fn samples_to_bytes(samples: &[u16], bytes: &mut [u8])
    requires { length bytes.old ≡ 2 * length samples.now }
    ensures { bytes.new ≡ flat_map low_first samples.now }
{
    for i in 0..samples.len() {
        let sample = samples[i];
        bytes[2 * i] = (sample % 256) as u8;
        bytes[2 * i + 1] = (sample / 256) as u8;
    }
}

/// Writes samples to visible samples of a component, row after row, from the one with a number on. The visible samples
/// of the component before that one stay, and so do those of the components before it.
pub(crate) fn write_samples(frame: &mut Frame, comp: u8, first: usize, samples: &[u16])
    requires comp { comp < comps_of frame.old.grid.format.chroma }
    requires inside { first + length samples.now ≤ sample_count frame.old.grid.format comp }
    requires few { first + length samples.now < 2 ^ 64 }
    requires low { frame.old.grid.format.height < 2 ^ 32 }
    ensures grid { frame.new.grid ≡ frame.old.grid }
    ensures samples { let format = frame.old.grid.format in
        PutsSamples format comp first samples.now (length samples.now) (samples_of frame.old)
        (samples_of frame.new) }
{
    let width = frame.width(comp) as usize;
    let mut done = 0;
    while done < samples.len() {
        let x = (first + done) % width;
        let y = (first + done) / width;
        let count = usize::min(width - x, samples.len() - done);
        frame.put_row(comp, x as u32, y as u32, &samples[done..done + count]);
        done += count;
    }
}

/// Samples of bytes, two for each, the low one first.
pub(crate) fn bytes_to_samples(bytes: &[u8], samples: &mut [u16])
    requires { length bytes.now ≡ 2 * length samples.old }
    ensures size { length samples.new ≡ length samples.old }
    ensures samples { flat_map low_first samples.new ≡ bytes.now }
{
    for i in 0..samples.len() {
        samples[i] = u16::from(bytes[2 * i]) + 256 * u16::from(bytes[2 * i + 1]);
    }
}

/// The highest of the samples, or 0 where there are none.
pub(crate) fn highest_of(samples: &[u16]) -> u16
    ensures { IsHighest (AreItemsBelow samples.now) result }
{
    let mut highest = 0;
    for sample in samples {
        highest = u16::max(highest, *sample);
    }
    highest
}
