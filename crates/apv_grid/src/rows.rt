//! Rows of samples in a buffer.
ghost use Rattle.std.specs.Prelude.{◌≡◌, ℕ, ◌<◌, ◌≤◌, ◌+◌, ◌^◌, length};
ghost use Rattle.apv_base.specs.model.Format.{comps_of};
ghost use Rattle.apv_base.specs.model.Grid.{IsSoundGrid};
ghost use Rattle.apv_grid.specs.Buffer.{value_count, filled_width, filled_height, samples_in};
ghost use Rattle.apv_grid.specs.Buffer.{IsFilled, IsRow, HasRow};
ghost use Rattle.apv_grid.specs.Strip.{IsSegment};

use crate::Grid;
use crate::runs::{read_runs, write_runs};

/// Samples of a row of a component that are in the same tile.
#[derive(Clone, Copy)]
pub(crate) struct Segment {
    /// The place of the value of the first sample of the tile's row of macroblocks.
    pub start: usize,
    /// Whether the component has half the width.
    pub half: bool,
    /// The first of the samples, counted from the first of the tile's row.
    pub first: usize,
    /// The number of samples.
    pub len: usize,
}

/// The samples of a row of a component from `x` on that are in the same tile, out of n samples.
#[inline]
pub(crate) fn segment_at(grid: &Grid, comp: u8, x: u32, y: u32, n: usize) -> Segment
    requires sound { IsSoundGrid grid.now }
    requires comp { comp < comps_of grid.now.format.chroma }
    requires y { y < filled_height grid.now }
    requires some { 0 < n }
    requires x { x + n ≤ filled_width grid.now comp }
    ensures some { (0 < result.len) × (result.len ≤ n) }
    ensures small { result.first + result.len < 2 ^ 32 }
    ensures segment { IsSegment grid.now comp x y result.start result.first result.half result.len }
{
    let strip = grid.strip(comp, x, y);
    Segment {
        start: strip.start,
        half: strip.half,
        first: x as usize - strip.first,
        len: usize::min(strip.end - x as usize, n),
    }
}

/// Copies the samples of a row of a component, from `x` on.
pub(crate) fn read_row(grid: &Grid, values: &[u16], comp: u8, x: u32, y: u32, row: &mut [u16])
    requires all { length values.now ≡ value_count grid.now }
    requires sound { IsSoundGrid grid.now }
    requires comp { comp < comps_of grid.now.format.chroma }
    requires y { y < filled_height grid.now }
    requires x { x + length row.old ≤ filled_width grid.now comp }
    ensures { IsRow grid.now comp x y values.now (length row.old) row.new }
{
    let mut done = 0;
    while done < row.len() {
        let here = x + done as u32;
        let segment = segment_at(grid, comp, here, y, row.len() - done);
        read_runs(
            values,
            segment.start,
            segment.half,
            segment.first,
            &mut row[done..done + segment.len],
        );
        done += segment.len;
    }
}

/// The sample `x`, `y` of a component.
pub(crate) fn read_sample(grid: &Grid, values: &[u16], comp: u8, x: u32, y: u32) -> u16
    requires all { length values.now ≡ value_count grid.now }
    requires sound { IsSoundGrid grid.now }
    requires filled { IsFilled grid.now comp x y }
    ensures { result ≡ samples_in grid.now values.now comp x y }
{
    let mut sample = [0; 1];
    read_row(grid, values, comp, x, y, &mut sample);
    sample[0]
}

/// Writes a row to the samples of a row of a component, from `x` on.
pub(crate) fn write_row(grid: &Grid, values: &mut [u16], comp: u8, x: u32, y: u32, row: &[u16])
    requires all { length values.old ≡ value_count grid.now }
    requires sound { IsSoundGrid grid.now }
    requires comp { comp < comps_of grid.now.format.chroma }
    requires y { y < filled_height grid.now }
    requires x { x + length row.now ≤ filled_width grid.now comp }
    ensures { HasRow grid.now comp x y row.now (length row.now) values.old values.new }
{
    let mut done = 0;
    while done < row.len() {
        let here = x + done as u32;
        let segment = segment_at(grid, comp, here, y, row.len() - done);
        write_runs(
            values,
            segment.start,
            segment.half,
            segment.first,
            &row[done..done + segment.len],
        );
        done += segment.len;
    }
}
