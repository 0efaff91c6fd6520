//! Laws of the definitions. Each is the contract of a function that does nothing.
ghost use Rattle.apv_base.specs.model.Grid as Tiles;
ghost use Rattle.apv_base.specs.model.Grid.{IsSoundGrid};
ghost use Rattle.apv_grid.specs.Laws.{IsCodedInItsBlock, HasItsBlock, HasSamplesInParts};
ghost use Rattle.apv_grid.specs.Laws.{SplitsIntoRuns, HasValuesOfItsTile};

/// Each sample of a block is coded in that block, at its place.
pub fn samples_of_a_block()
    ensures { (grid : Tiles.Grid) → IsSoundGrid grid → IsCodedInItsBlock grid }
{}

/// Each sample of the area filled up to whole macroblocks has a block.
pub fn block_of_a_sample()
    ensures { (grid : Tiles.Grid) → IsSoundGrid grid → HasItsBlock grid }
{}

/// The values of a block in the part of its component and tile are its samples, row after row.
pub fn samples_of_a_part()
    ensures { (grid : Tiles.Grid) → IsSoundGrid grid → HasSamplesInParts grid }
{}

/// A run of tiles is a run of its first tiles and one of the others.
pub fn halves_of_a_run()
    ensures { (grid : Tiles.Grid) → SplitsIntoRuns grid }
{}

/// A run of one tile has the values of that tile.
pub fn run_of_a_tile()
    ensures { (grid : Tiles.Grid) → HasValuesOfItsTile grid }
{}
