//! Work on tiles that goes over the components of each tile.
ghost use Rattle.std.specs.Prelude.{◌≡◌, ℕ, ◌<◌, ◌≤◌, ◌+◌, ◌*◌, List, length};
ghost use Rattle.apv_base.specs.model.Format.{comps_of};
ghost use Rattle.apv_base.specs.model.Grid.{tile_count, block_count};
ghost use Rattle.apv_grid.specs.Buffer.{tile_value_count, value_count};
ghost use Rattle.apv_workers.specs.Components.{of_component, AreAllReady, AreAllDone};
ghost use Rattle.apv_workers.specs.Components.{IsTileReady, IsTileDone};
ghost use Rattle.apv_workers.specs.declared.run.ComponentBreak.{ComponentBreak};

use crate::crew::Crew;
use crate::decode::tile_cuts;
use crate::gate::Gate;
use crate::run::{ComponentBreak, TileRun, TileWork};
use apv_grid::Grid;
use std::thread::Threads;

/// The work on one component of a tile, which sets its values. It can't fail.
pub(crate) trait ComponentWork<T> {
    /// The values of a component that the work may be given.
    ghost ready: { Self → ℕ → ℕ → List T → Type 0 };

    /// What the work makes of them.
    ghost done: { Self → ℕ → ℕ → List T → Type 0 };

    /// Works on a component of a tile, whose values are given.
    fn work_on(&self, tile: u32, comp: u8, values: &mut [T])
        requires { ready self.now tile comp values.old }
        ensures { done self.now tile comp values.new };
}

/// The work on the components of a tile, one after another.
struct ByComponent<'a, W> {
    grid: &'a Grid,
    work: &'a W,
}

impl<W> Drop for ByComponent<'_, W> {
    fn drop(self) {
        let ByComponent { grid: _, work: _ } = self;
    }
}

impl<W> ByComponent<'_, W> {
    /// Works on a component of a tile, out of the values of the tile. Those of the components before it stay.
    fn work_within<T>(&self, tile: u32, comp: u8, part: &mut [T])
    where
        W: ComponentWork<T>,
        requires ready { IsTileReady (W.ready self.now.work.now) self.now.grid.now tile part.old }
        requires comp { comp < comps_of self.now.grid.now.format.chroma }
        ensures done { W.done self.now.work.now tile comp
            (of_component self.now.grid.now tile comp part.new) }
        ensures others { let values = of_component self.now.grid.now tile in
            (other : ℕ) → other < comp → values other part.new ≡ values other part.old }
    {
        let start = self.grid.values_before(tile, comp);
        let size = 64 * self.grid.blocks(tile, comp) as usize;
        let (_, after) = part.split_at_mut(start);
        let (values, _) = after.split_at_mut(size);
        self.work.work_on(tile, comp, values);
    }
}

impl<T, W: ComponentWork<T> + Sync> TileWork<T> for ByComponent<'_, W> {
    ghost ready = { λ d tile part. IsTileReady (W.ready d.work.now) d.grid.now tile part };

    ghost sound = { λ d tile. Unit {0} };

    ghost breaks = { λ d tile broken. ⊥ };

    ghost done = { λ d tile old new. IsTileDone (W.done d.work.now) d.grid.now tile new };

    fn work(&self, tile: u32, part: &mut [T]) -> Result<(), ComponentBreak> {
        for comp in 0..self.grid.format().chroma.comps() {
            self.work_within(tile, comp, part);
        }
        Ok(())
    }
}

/// Works on each component of each tile of a grid, whose values are given.
pub(crate) fn work_components<R: Threads + Sync, G: Gate, T: Send, W: ComponentWork<T> + Sync>(
    crew: &Crew<'_, R, G>,
    work: &W,
    grid: &Grid,
    values: &mut [T],
)
    requires all { length values.old ≡ value_count grid.now }
    requires ready { AreAllReady (W.ready work.now) grid.now }
    ensures { AreAllDone (W.done work.now) grid.now values.new }
{
    let cuts = tile_cuts(grid);
    let tiles = TileRun {
        cuts: &cuts,
        first: 0,
        count: grid.tiles(),
    };
    let _ = crew.work(&ByComponent { grid, work }, tiles, values);
}
