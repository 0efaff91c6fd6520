//! Frames of samples.
ghost use Rattle.std.specs.Prelude.{◌≡◌, ℕ, ◌<◌, ◌≤◌, ◌+◌, ◌*◌, ◌%◌, length, replicate, IfOk};
ghost use Rattle.std.specs.Borrow.{follows, sem, Array, u16};
ghost use Rattle.apv_base.specs.model.Format.{comps_of, component_width};
ghost use Rattle.apv_base.specs.model.Grid.{IsSoundGrid, tile_count};
ghost use Rattle.apv_grid.specs.Buffer.{value_count, IsFilled, IsRow, AreRows, HasRow, IsPadded, part_of};
ghost use Rattle.apv_grid.specs.Buffer.{samples_of, buffer_with};
ghost use Rattle.apv_grid.specs.contracts.frame.Frame.{the_row};

use crate::Grid;
use crate::bands::read_band;
use crate::pad::pad;
use crate::pieces::{Pieces, part};
use crate::rows::{read_row, read_sample, write_row};
use std::alloc::{AllocError, Global};
use std::marker::Model;

/// The samples of a frame, 0 to 65,535, over the area filled up to whole macroblocks, in one buffer: tile after
/// tile, the components of a tile one after another, and the blocks of a component in the order
/// of coding, with 64 values for each block. Seen as the frame's grid and these values.
#[derive(Drop)]
pub struct Frame {
    grid: Grid,
    values: Vec<u16>,
}

impl Model for Frame {
    ghost use Rattle.std.specs.Prelude.{◌≡◌, ℕ, length};
    ghost use Rattle.apv_base.specs.model.Grid.{IsSoundGrid};
    ghost use Rattle.apv_grid.specs.Buffer.{Buffer, value_count};

    ghost Value = { Buffer ℕ };

    ghost view = { λ f. record { grid = f.grid; values = f.values.items } };

    ghost invariant = { λ f. IsSoundGrid f.grid × (length f.values.items ≡ value_count f.grid) };
}

impl Frame {
    ghost use Rattle.apv_grid.specs.Piece.{pieces_name};

    /// A frame of that grid, of zeros. Fails where no memory is left.
    pub fn new(alloc: Global, grid: &Grid) -> Result<Frame, AllocError>
        ensures grid { IfOk result (λ frame. frame.grid ≡ grid.now) }
        ensures zeros { IfOk result (λ frame. frame.values ≡ replicate (value_count grid.now) 0) }
    {
        let values = vec![in alloc; 0; grid.values()]?;
        Ok(Frame {
            grid: *grid,
            values,
        })
    }

    /// The grid.
    pub fn grid(&self) -> &Grid
        ensures { result.now ≡ self.now.grid }
    {
        &self.grid
    }

    /// The visible width of a component.
    pub fn width(&self, comp: u8) -> u32
        requires { comp < comps_of self.now.grid.format.chroma }
        ensures { result ≡ component_width self.now.grid.format comp }
    {
        self.grid.width(comp)
    }

    /// The visible height of a component, which is that of the frame.
    pub fn height(&self, _comp: u8) -> u32
        requires { _comp < comps_of self.now.grid.format.chroma }
        ensures { result ≡ self.now.grid.format.height }
    {
        self.grid.format().height
    }

    /// The sample `x`, `y` of a component, inside the area filled up to whole macroblocks.
    pub fn sample(&self, comp: u8, x: u32, y: u32) -> u16
        requires { IsFilled self.now.grid comp x y }
        ensures { result ≡ samples_of self.now comp x y }
    {
        read_sample(&self.grid, self.values.as_slice(), comp, x, y)
    }

    /// Copies samples of the visible row `y` of a component, from `x` on, as many as the slice has.
    pub fn row_into(&self, comp: u8, x: u32, y: u32, row: &mut [u16])
        requires comp { comp < comps_of self.now.grid.format.chroma }
        requires y { y < self.now.grid.format.height }
        requires x { x + length row.old ≤ component_width self.now.grid.format comp }
        ensures { IsRow self.now.grid comp x y self.now.values (length row.old) row.new }
    {
        read_row(&self.grid, self.values.as_slice(), comp, x, y, row);
    }

    /// Copies whole visible rows of a component, row after row, from the row `y` on. The rows are
    /// in one row of blocks: at most 8, up to the next multiple of 8. This takes less time than row
    /// by row.
    pub fn rows_into(&self, comp: u8, y: u32, count: usize, rows: &mut [u16])
        requires comp { comp < comps_of self.now.grid.format.chroma }
        requires some { 0 < count }
        requires y { y + count ≤ self.now.grid.format.height }
        requires block { y % 8 + count ≤ 8 }
        requires room { length rows.old ≡ count * component_width self.now.grid.format comp }
        ensures { let width = component_width self.now.grid.format comp in
            AreRows self.now.grid comp y count width self.now.values rows.new }
    {
        let width = self.grid.width(comp) as usize;
        read_band(
            &self.grid,
            self.values.as_slice(),
            comp,
            y,
            count,
            width,
            rows,
        );
    }

    /// Writes samples of the visible row `y` of a component, from `x` on, as many as the slice has.
    /// All other samples stay.
    pub fn put_row(&mut self, comp: u8, x: u32, y: u32, row: &[u16])
        requires comp { comp < comps_of self.old.grid.format.chroma }
        requires y { y < self.old.grid.format.height }
        requires x { x + length row.now ≤ component_width self.old.grid.format comp }
        ensures grid { self.new.grid ≡ self.old.grid }
        ensures row { let grid = self.old.grid in
            HasRow grid comp x y row.now (length row.now) self.old.values self.new.values }
    {
        write_row(&self.grid, self.values.as_mut_slice(), comp, x, y, row);
    }

    /// Each sample outside the visible area becomes the nearest visible one of its component. The
    /// visible ones stay.
    pub fn pad(&mut self)
        ensures grid { self.new.grid ≡ self.old.grid }
        ensures padded { IsPadded self.old.grid self.old.values self.new.values }
    {
        pad(&self.grid, self.values.as_mut_slice());
    }

    /// The samples of a component of a tile: its blocks in the order of coding, with 64 values for
    /// each block.
    pub fn part(&self, tile: u32, comp: u8) -> &[u16]
        requires tile { tile < tile_count self.now.grid }
        requires comp { comp < comps_of self.now.grid.format.chroma }
        ensures { result.now ≡ part_of self.now tile comp }
    {
        part(&self.grid, self.values.as_slice(), tile, comp)
    }

    /// All tiles. When the loan ends, the frame has the values that were left after the slice, and
    /// its grid.
    pub fn pieces(&mut self) -> Pieces<'_, u16>
        ensures* lends { sem 𝓛 (follows the_row (Array u16 0) self.entry.ghost_name
            (pieces_name result) (buffer_with self.old)) }
        ensures pieces { (result.grid ≡ self.old.grid) × (result.values.now ≡ self.old.values) }
        ensures tiles { (result.first ≡ 0) × (result.count ≡ tile_count self.old.grid) }
    {
        Pieces::all(self.grid, self.values.as_mut_slice())
    }
}
