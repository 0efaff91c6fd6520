//! How far pictures are from generated ones.
ghost use Rattle.std.specs.Prelude.{◌≡◌, ◌+◌, ◌^◌, ◌<◌, ◌≤◌, [], ◌∷◌, length, slice_index};
ghost use Rattle.apv_base.specs.model.Format.{comps_of, component_width};
ghost use Rattle.apv_base.specs.model.Picture.{joined};
ghost use Rattle.apv_encoding.specs.Difference.{distance, maximum};
ghost use Rattle.apv_encoding.specs.Difference.{peak_difference as peak_of_pictures};
ghost use Rattle.apv_encoding.specs.Generated.{generated_picture};
ghost use Rattle.apv_generated.specs.Differences.{row_distances, component_distances};
ghost use Rattle.apv_grid.specs.Buffer.{samples_of};

use crate::generated;
use apv_grid::Frame;

/// The maximum absolute difference between samples, which are of the row `y` of a component from `x` on, and the
/// generated ones; 0 where there are none.
fn samples_difference(seed: u32, number: u32, comp: u8, x: u32, y: u32, samples: &[u16]) -> u16
    requires { x + length samples.now < 2 ^ 32 }
    ensures { let count = length samples.now in
        result ≡ maximum (joined count (λ i.
        distance (generated_picture seed number comp (x + i) y) (slice_index samples.now i) ∷ [])) }
{
    let mut peak = 0;
    for i in 0..samples.len() {
        let wanted = generated(seed, comp, number, x + i as u32, y);
        peak = u16::max(peak, samples[i].abs_diff(wanted));
    }
    peak
}

/// The maximum absolute difference of at most 256 samples of the row `y` of a component, from `x` on.
fn piece_difference(
    seed: u32,
    number: u32,
    frame: &Frame,
    comp: u8,
    x: u32,
    y: u32,
    count: u32,
) -> u16
    requires comp { comp < comps_of frame.now.grid.format.chroma }
    requires y { y < frame.now.grid.format.height }
    requires x { x + count ≤ component_width frame.now.grid.format comp }
    requires few { count ≤ 256 }
    requires low { x + count < 2 ^ 32 }
    ensures { let samples = samples_of frame.now in
        result ≡ maximum (row_distances (generated_picture seed number) samples comp y x count) }
{
    let mut buffer = [0; 256];
    let piece = &mut buffer[..count as usize];
    frame.row_into(comp, x, y, piece);
    samples_difference(seed, number, comp, x, y, piece)
}

/// The maximum absolute difference of the visible samples of the row `y` of a component.
fn row_difference(seed: u32, number: u32, frame: &Frame, comp: u8, y: u32) -> u16
    requires comp { comp < comps_of frame.now.grid.format.chroma }
    requires y { y < frame.now.grid.format.height }
    ensures { let samples = samples_of frame.now in
        let width = component_width frame.now.grid.format comp in
        result ≡ maximum (row_distances (generated_picture seed number) samples comp y 0 width) }
{
    let width = frame.width(comp);
    let mut peak = 0;
    let mut x = 0;
    while x < width {
        let count = u32::min(256, width - x);
        let here = piece_difference(seed, number, frame, comp, x, y, count);
        peak = u16::max(peak, here);
        x += count;
    }
    peak
}

/// The maximum absolute difference of the visible samples of a component.
fn component_difference(seed: u32, number: u32, frame: &Frame, comp: u8) -> u16
    requires { comp < comps_of frame.now.grid.format.chroma }
    ensures { let format = frame.now.grid.format in
        result ≡ maximum (component_distances format (generated_picture seed number)
        (samples_of frame.now) comp format.height) }
{
    let height = frame.height(comp);
    let mut peak = 0;
    for y in 0..height {
        peak = u16::max(peak, row_difference(seed, number, frame, comp, y));
    }
    peak
}

/// The maximum absolute difference, 0 to 65,535, between a visible sample of the frame, which may have any format, and
/// the same one of the picture with that number, from 0 on, of the video that is generated from `seed`.
pub fn peak_difference(seed: u32, number: u32, frame: &Frame) -> u16
    ensures { let format = frame.now.grid.format in
        result ≡ peak_of_pictures format (generated_picture seed number) (samples_of frame.now) }
{
    let mut peak = 0;
    for comp in 0..frame.grid().format().chroma.comps() {
        peak = u16::max(peak, component_difference(seed, number, frame, comp));
    }
    peak
}
