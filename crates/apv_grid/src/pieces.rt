//! Runs of consecutive tiles.
ghost use Rattle.std.specs.Prelude.{◌≡◌, ℕ, ◌<◌, ◌≤◌, ◌+◌, ◌-◌, ◌*◌, length};
ghost use Rattle.apv_base.specs.model.Format.{comps_of};
ghost use Rattle.apv_base.specs.model.Grid.{IsSoundGrid, tile_count};
ghost use Rattle.apv_grid.specs.Buffer.{IsTileRun, tile_start, value_count, part_in};

use crate::Grid;

/// A run of consecutive tiles of a frame or of its blocks: their grid, the first of them, how many there
/// are, and their values, tile after tile. `T` is `u16` for samples and `i16` for blocks.
#[derive(Drop)]
pub struct Pieces<'a, T> {
    /// The grid of the whole frame.
    pub grid: Grid,
    /// The first tile, counted from 0 row after row.
    pub first: u32,
    /// The number of tiles, 0 to 400.
    pub count: u32,
    /// The values of these tiles: the components of a tile one after another, and 64 values for each
    /// block in the order of coding.
    pub values: &'a mut [T],
    ghost run: { IsTileRun grid first count (length values.now) },
}

impl<'a, T> Pieces<'a, T> {
    ghost use Rattle.apv_grid.specs.Piece.{pieces_name};

    /// All tiles of a grid.
    pub(crate) fn all(grid: Grid, values: &'a mut [T]) -> Pieces<'a, T>
        requires { length values.old ≡ value_count grid }
        ensures name { pieces_name result ≡ values.entry.ghost_name }
        ensures pieces { (result.grid ≡ grid) × (result.values.now ≡ values.old) }
        ensures tiles { (result.first ≡ 0) × (result.count ≡ tile_count grid) }
    {
        let count = grid.tiles();
        Pieces {
            grid,
            first: 0,
            count,
            values,
        }
    }
}

/// The values of a component of a tile, out of those of all tiles.
pub(crate) fn part<'a, T>(grid: &Grid, values: &'a [T], tile: u32, comp: u8) -> &'a [T]
    requires all { length values.now ≡ value_count grid.now }
    requires tile { tile < tile_count grid.now }
    requires comp { comp < comps_of grid.now.format.chroma }
    ensures { result.now ≡ part_in grid.now values.now tile comp }
{
    let start = grid.tile_start(tile) + grid.values_before(tile, comp);
    let size = 64 * grid.blocks(tile, comp) as usize;
    let (_, after) = values.split_at(start);
    let (part, _) = after.split_at(size);
    part
}
