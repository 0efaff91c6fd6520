//! The samples outside the visible area.
ghost use Rattle.std.specs.Prelude.{◌≡◌, ◌≢◌, ℕ, ◌<◌, ◌≤◌, ◌+◌, ◌-◌, length};
ghost use Rattle.apv_base.specs.model.Format.{comps_of, component_width};
ghost use Rattle.apv_base.specs.model.Grid.{IsSoundGrid};
ghost use Rattle.apv_grid.specs.Buffer.{value_count, filled_width, filled_height, IsPadded};
ghost use Rattle.apv_grid.specs.Pad.{nearest_in_row, last_in_row, row_samples, last_row, SetsRow};
ghost use Rattle.apv_grid.specs.Pad.{SetsRows, Pads};

use crate::Grid;
use crate::rows::{read_row, write_row};

/// The samples of a row to the right of the visible ones become the last visible one.
fn pad_row(grid: &Grid, values: &mut [u16], comp: u8, y: u32)
    requires all { length values.old ≡ value_count grid.now }
    requires sound { IsSoundGrid grid.now }
    requires comp { comp < comps_of grid.now.format.chroma }
    requires y { y < filled_height grid.now }
    ensures visible { let width = component_width grid.now.format comp in
        (1 ≤ width) × (width ≤ filled_width grid.now comp) }
    ensures row { let width = component_width grid.now.format comp in
        let edge = last_in_row grid.now values.old comp y in
        SetsRow grid.now comp y width (filled_width grid.now comp) edge values.old values.new }
{
    let width = grid.width(comp);
    let after = grid.filled_width(comp) - width;
    let mut last = [0; 1];
    read_row(grid, values, comp, width - 1, y, &mut last);
    let edge = [last[0]; 16];
    write_row(grid, values, comp, width, y, &edge[..after as usize]);
}

/// At most 256 samples of a row, from `x` on, become those of another row.
fn copy_piece(grid: &Grid, values: &mut [u16], comp: u8, from: u32, to: u32, x: u32, n: u32)
    requires all { length values.old ≡ value_count grid.now }
    requires sound { IsSoundGrid grid.now }
    requires comp { comp < comps_of grid.now.format.chroma }
    requires from { from < filled_height grid.now }
    requires to { to < filled_height grid.now }
    requires x { x + n ≤ filled_width grid.now comp }
    requires few { n ≤ 256 }
    ensures { let row = row_samples grid.now values.old comp from in
        SetsRow grid.now comp to x (x + n) row values.old values.new }
{
    let mut buffer = [0; 256];
    let piece = &mut buffer[..n as usize];
    read_row(grid, values, comp, x, from, piece);
    write_row(grid, values, comp, x, to, piece);
}

/// The samples of a row become those of another.
fn copy_row(grid: &Grid, values: &mut [u16], comp: u8, from: u32, to: u32)
    requires all { length values.old ≡ value_count grid.now }
    requires sound { IsSoundGrid grid.now }
    requires comp { comp < comps_of grid.now.format.chroma }
    requires from { from < filled_height grid.now }
    requires to { to < filled_height grid.now }
    requires apart { from ≢ to }
    ensures { let row = row_samples grid.now values.old comp from in
        SetsRow grid.now comp to 0 (filled_width grid.now comp) row values.old values.new }
{
    let width = grid.filled_width(comp);
    let mut x = 0;
    while x < width {
        let n = u32::min(256, width - x);
        copy_piece(grid, values, comp, from, to, x, n);
        x += n;
    }
}

/// The samples of a component to the right of the visible ones become the last visible ones of
/// their rows.
fn pad_right(grid: &Grid, values: &mut [u16], comp: u8)
    requires all { length values.old ≡ value_count grid.now }
    requires sound { IsSoundGrid grid.now }
    requires comp { comp < comps_of grid.now.format.chroma }
    ensures { let row = nearest_in_row grid.now values.old comp in
        SetsRows grid.now comp 0 grid.now.format.height row values.old values.new }
{
    let height = grid.format().height;
    for y in 0..height {
        pad_row(grid, values, comp, y);
    }
}

/// The rows of a component below the visible ones become the last visible one.
fn pad_below(grid: &Grid, values: &mut [u16], comp: u8)
    requires all { length values.old ≡ value_count grid.now }
    requires sound { IsSoundGrid grid.now }
    requires comp { comp < comps_of grid.now.format.chroma }
    ensures visible { let height = grid.now.format.height in
        (1 ≤ height) × (height ≤ filled_height grid.now) }
    ensures rows { let height = grid.now.format.height in
        let row = last_row grid.now values.old comp in
        SetsRows grid.now comp height (filled_height grid.now) row values.old values.new }
{
    let height = grid.format().height;
    for y in height..grid.filled_height() {
        copy_row(grid, values, comp, height - 1, y);
    }
}

/// The samples of a component outside the visible area become the nearest visible ones.
fn pad_component(grid: &Grid, values: &mut [u16], comp: u8)
    requires all { length values.old ≡ value_count grid.now }
    requires sound { IsSoundGrid grid.now }
    requires comp { comp < comps_of grid.now.format.chroma }
    ensures { Pads grid.now comp (comp + 1) values.old values.new }
{
    pad_right(grid, values, comp);
    pad_below(grid, values, comp);
}

/// The samples outside the visible area become the nearest visible ones of their components.
pub(crate) fn pad(grid: &Grid, values: &mut [u16])
    requires all { length values.old ≡ value_count grid.now }
    requires sound { IsSoundGrid grid.now }
    ensures { IsPadded grid.now values.old values.new }
{
    for comp in 0..grid.format().chroma.comps() {
        pad_component(grid, values, comp);
    }
}
