//! A number of bytes for each component of each tile, four for a tile.
ghost use Rattle.std.specs.Prelude.{◌≡◌, ℕ, ◌<◌, ◌≤◌, ◌+◌, ◌*◌, ◌^◌, length, slice_index};
ghost use Rattle.std.specs.List.{sum};
ghost use Rattle.apv_base.specs.model.Encode.{each};
ghost use Rattle.apv_base.specs.model.Grid.{tile_count};
ghost use Rattle.apv_base.specs.model.Header.{grid_of, header_comps};
ghost use Rattle.apv_workers.specs.Lengths.{AreLengths, AreTileLengths, OfEach, IsTileOfLengths, tile_lengths};
ghost use Rattle.apv_workers.specs.TrackFields.{IsHead};
ghost use Rattle.apv_workers.specs.declared.run.ComponentBreak.{ComponentBreak};

use crate::crew::Crew;
use crate::gate::Gate;
use crate::run::{ComponentBreak, TileRun, TileWork};
use crate::track::TrackHead;
use std::thread::Threads;

/// A number of bytes for a component of a tile.
pub(crate) trait ComponentLength {
    /// The component of the tile may be asked for.
    ghost ready: { Self → ℕ → ℕ → Type 0 };

    /// What the number is.
    ghost counts: { Self → ℕ → ℕ → ℕ → Type 0 };

    /// The number for a component of a tile.
    fn length_of(&self, tile: u32, comp: u8) -> u32
        requires { ready self.now tile comp }
        ensures { counts self.now tile comp result };
}

/// The numbers for the components of a tile, one after another.
struct ByLength<'a, W> {
    head: &'a TrackHead,
    work: &'a W,
}

impl<W> Drop for ByLength<'_, W> {
    fn drop(self) {
        let ByLength { head: _, work: _ } = self;
    }
}

impl<W: ComponentLength + Sync> TileWork<u32> for ByLength<'_, W> {
    ghost ready = { λ d tile part. IsTileOfLengths d.head.now.header (W.ready d.work.now) tile part };

    ghost sound = { λ d tile. Unit {0} };

    ghost breaks = { λ d tile broken. ⊥ };

    ghost done = { λ d tile old new.
        AreTileLengths (W.counts d.work.now) tile (header_comps d.head.now.header) new };

    fn work(&self, tile: u32, part: &mut [u32]) -> Result<(), ComponentBreak> {
        for comp in 0..self.head.header.info.chroma.comps() {
            part[comp as usize] = self.work.length_of(tile, comp);
        }
        Ok(())
    }
}

/// Where the four lengths of each tile begin.
fn length_cuts() -> [usize; 401]
    ensures len { length result ≡ 401 }
    ensures each { (tile : ℕ) → tile ≤ 400 → slice_index result tile ≡ 4 * tile }
{
    let mut cuts = [0; 401];
    for tile in 0..401 {
        cuts[tile] = 4 * tile;
    }
    cuts
}

/// Sets the lengths of each component of each tile to the numbers that a work finds.
pub(crate) fn count_all<R: Threads + Sync, G: Gate, W: ComponentLength + Sync>(
    crew: &Crew<'_, R, G>,
    work: &W,
    head: &TrackHead,
    lengths: &mut [u32],
)
    requires head { IsHead head.now }
    requires four { length lengths.old ≡ 4 * tile_count (grid_of head.now.header) }
    requires ready { OfEach head.now.header (W.ready work.now) }
    ensures { AreLengths head.now.header (W.counts work.now) lengths.new }
{
    let cuts = length_cuts();
    let tiles = TileRun {
        cuts: &cuts,
        first: 0,
        count: head.grid.tiles(),
    };
    let _ = crew.work(&ByLength { head, work }, tiles, lengths);
}

/// The sum of at most four lengths.
pub(crate) fn sum_of(lengths: &[u32]) -> u64
    requires { length lengths.now ≤ 4 }
    ensures sum { result ≡ sum lengths.now }
    ensures few { result ≤ 2 ^ 34 }
{
    let mut total = 0;
    for length in lengths {
        total += u64::from(*length);
    }
    total
}

/// The lengths of the components of a tile.
pub(crate) fn lengths_of<'a>(head: &TrackHead, lengths: &'a [u32], tile: u32) -> &'a [u32]
    requires head { IsHead head.now }
    requires tile { tile < tile_count (grid_of head.now.header) }
    requires four { length lengths.now ≡ 4 * tile_count (grid_of head.now.header) }
    ensures lengths { result.now ≡ tile_lengths lengths.now (header_comps head.now.header) tile }
    ensures count { length result.now ≡ header_comps head.now.header }
{
    let (_, after) = lengths.split_at(4 * tile as usize);
    let (of_tile, _) = after.split_at(usize::from(head.header.info.chroma.comps()));
    of_tile
}

/// The sum of the lengths of all components of all tiles.
pub(crate) fn sum_of_all(head: &TrackHead, lengths: &[u32]) -> u64
    requires head { IsHead head.now }
    requires four { length lengths.now ≡ 4 * tile_count (grid_of head.now.header) }
    ensures sum { let comps = header_comps head.now.header in
        let tiles = tile_count (grid_of head.now.header) in
        result ≡ sum (each tiles (λ tile. sum (tile_lengths lengths.now comps tile))) }
    ensures few { result ≤ 2 ^ 43 }
{
    let mut total = 0;
    for tile in 0..head.grid.tiles() {
        total += sum_of(lengths_of(head, lengths, tile));
    }
    total
}
