//! Several rows of a component at once, block after block: the rows of a block are side by side.
ghost use Rattle.std.specs.Prelude.{◌≡◌, ℕ, ◌<◌, ◌≤◌, ◌+◌, ◌*◌, ◌%◌, ◌^◌, length};
ghost use Rattle.apv_base.specs.model.Format.{comps_of};
ghost use Rattle.apv_base.specs.model.Grid.{IsSoundGrid};
ghost use Rattle.apv_grid.specs.Buffer.{value_count, filled_width, filled_height, AreRows};
ghost use Rattle.apv_grid.specs.Strip.{row_place, Copies, TakesBlock, TakesBlocks};

use crate::Grid;
use crate::rows::segment_at;
use crate::runs::{copy_run, place_in_row};

/// Copies n values, fewer than 8.
#[inline]
fn copy_few(from: &[u16], a: usize, to: &mut [u16], b: usize, count: usize)
    requires from { a + count ≤ length from.now }
    requires to { b + count ≤ length to.old }
    ensures copies { Copies from.now a to.old to.new b count }
{
    for i in 0..count {
        to[b + i] = from[a + i];
    }
}

/// Copies n values, at most 8.
#[inline]
fn copy_up_to_8(from: &[u16], a: usize, to: &mut [u16], b: usize, count: usize)
    requires from { a + count ≤ length from.now }
    requires to { b + count ≤ length to.old }
    ensures copies { Copies from.now a to.old to.new b count }
{
    if count == 8 {
        copy_run(from, a, to, b);
    } else {
        copy_few(from, a, to, b, count);
    }
}

/// Copies the first n values of some rows of a block, whose first one is at a place, to rows of
/// `stride` items, from the item `at` of each on.
#[inline]
fn read_block(
    values: &[u16],
    place: usize,
    rows: usize,
    stride: usize,
    at: usize,
    count: usize,
    out: &mut [u16],
)
    requires rows { rows ≤ 8 }
    requires count { count ≤ 8 }
    requires within { (row : ℕ) → row < rows → place + 8 * row + count ≤ length values.now }
    requires columns { at + count ≤ stride }
    requires room { rows * stride ≤ length out.old }
    ensures { TakesBlock values.now place rows stride at count out.old out.new }
{
    for row in 0..rows {
        copy_up_to_8(values, place + 8 * row, out, row * stride + at, count);
    }
}

/// Copies samples of some rows of a row of blocks to rows of `stride` items, from the item `at` of
/// each on: n samples of each row, from the one with a number on.
#[inline]
fn read_blocks(
    values: &[u16],
    start: usize,
    half: bool,
    first: usize,
    rows: usize,
    stride: usize,
    at: usize,
    count: usize,
    out: &mut [u16],
)
    requires small { first + count < 2 ^ 32 }
    requires rows { (0 < rows) × (rows ≤ 8) }
    requires within { (row i : ℕ) → row < rows → i < count
        → start + row_place half (first + i) + 8 * row < length values.now }
    requires columns { at + count ≤ stride }
    requires room { rows * stride ≤ length out.old }
    ensures { TakesBlocks half values.now start first rows stride at count out.old out.new }
{
    let mut done = 0;
    while done < count {
        let x = first + done;
        let len = usize::min(8 - x % 8, count - done);
        let place = start + place_in_row(half, x);
        read_block(values, place, rows, stride, at + done, len, out);
        done += len;
    }
}

/// Copies the first samples of some rows of a component, from the row `y` on, which are all in one
/// row of blocks: row after row, as many samples of each as the width says.
pub(crate) fn read_band(
    grid: &Grid,
    values: &[u16],
    comp: u8,
    y: u32,
    rows: usize,
    width: usize,
    out: &mut [u16],
)
    requires all { length values.now ≡ value_count grid.now }
    requires sound { IsSoundGrid grid.now }
    requires comp { comp < comps_of grid.now.format.chroma }
    requires some { 0 < rows }
    requires y { y + rows ≤ filled_height grid.now }
    requires block { y % 8 + rows ≤ 8 }
    requires width { width ≤ filled_width grid.now comp }
    requires room { length out.old ≡ rows * width }
    ensures { AreRows grid.now comp y rows width values.now out.new }
{
    let mut done = 0;
    while done < width {
        let segment = segment_at(grid, comp, done as u32, y, width - done);
        read_blocks(
            values,
            segment.start,
            segment.half,
            segment.first,
            rows,
            width,
            done,
            segment.len,
            out,
        );
        done += segment.len;
    }
}
