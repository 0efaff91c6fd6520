//! Blocks of coefficients or levels.
ghost use Rattle.std.specs.Prelude.{◌≡◌, ◌<◌, pos, replicate, IfOk};
ghost use Rattle.std.specs.Borrow.{follows, sem, Array, i16};
ghost use Rattle.apv_base.specs.model.Format.{comps_of};
ghost use Rattle.apv_base.specs.model.Grid.{tile_count};
ghost use Rattle.apv_grid.specs.Buffer.{value_count, part_of, buffer_with};
ghost use Rattle.apv_grid.specs.contracts.blocks.Blocks.{the_row};

use crate::Grid;
use crate::pieces::{Pieces, part};
use std::alloc::{AllocError, Global};
use std::marker::Model;

/// The coefficients or the levels of a frame's 8x8 blocks, in one buffer: tile after tile, the
/// components of a tile one after another, and the blocks of a component in the order of coding,
/// with 64 values for each block. Seen as the frame's grid and these values.
#[derive(Drop)]
pub struct Blocks {
    grid: Grid,
    values: Vec<i16>,
}

impl Model for Blocks {
    ghost use Rattle.std.specs.Prelude.{◌≡◌, ℤ, length};
    ghost use Rattle.apv_base.specs.model.Grid.{IsSoundGrid};
    ghost use Rattle.apv_grid.specs.Buffer.{Buffer, value_count};

    ghost Value = { Buffer ℤ };

    ghost view = { λ b. record { grid = b.grid; values = b.values.items } };

    ghost invariant = { λ b. IsSoundGrid b.grid × (length b.values.items ≡ value_count b.grid) };
}

impl Blocks {
    ghost use Rattle.apv_grid.specs.Piece.{pieces_name};

    /// Blocks of that grid, of zeros. Fails where no memory is left.
    pub fn new(alloc: Global, grid: &Grid) -> Result<Blocks, AllocError>
        ensures grid { IfOk result (λ blocks. blocks.grid ≡ grid.now) }
        ensures zeros { IfOk result (λ blocks.
            blocks.values ≡ replicate (value_count grid.now) (pos 0)) }
    {
        let values = vec![in alloc; 0; grid.values()]?;
        Ok(Blocks {
            grid: *grid,
            values,
        })
    }

    /// The grid.
    pub fn grid(&self) -> &Grid
        ensures { result.now ≡ self.now.grid }
    {
        &self.grid
    }

    /// The values of a component of a tile: its blocks in the order of coding, with 64 values for
    /// each block.
    pub fn part(&self, tile: u32, comp: u8) -> &[i16]
        requires tile { tile < tile_count self.now.grid }
        requires comp { comp < comps_of self.now.grid.format.chroma }
        ensures { result.now ≡ part_of self.now tile comp }
    {
        part(&self.grid, self.values.as_slice(), tile, comp)
    }

    /// All tiles. When the loan ends, the blocks have the values that were left after the slice,
    /// and their grid.
    pub fn pieces(&mut self) -> Pieces<'_, i16>
        ensures* lends { sem 𝓛 (follows the_row (Array i16 0) self.entry.ghost_name
            (pieces_name result) (buffer_with self.old)) }
        ensures pieces { (result.grid ≡ self.old.grid) × (result.values.now ≡ self.old.values) }
        ensures tiles { (result.first ≡ 0) × (result.count ≡ tile_count self.old.grid) }
    {
        Pieces::all(self.grid, self.values.as_mut_slice())
    }
}
