//! The samples that a decoder makes of the levels of a track.
ghost use Rattle.std.specs.Prelude.{◌≡◌, length};
ghost use Rattle.apv_base.specs.model.Header.{grid_of};
ghost use Rattle.apv_workers.specs.Encode.{IsRebuilt};
ghost use Rattle.apv_workers.specs.TrackFields.{CanCode, AreRebuilt};

use crate::crew::Crew;
use crate::encode::components::{ComponentWork, work_components};
use crate::gate::Gate;
use crate::track::{Track, TrackHead};
use apv_grid::laws::block_of_a_sample;
use apv_grid::{Blocks, Frame, Pieces};
use apv_tile::laws::samples_of_a_frame;
use apv_tile::rebuild_component;
use std::thread::Threads;

/// Levels whose samples are to be rebuilt.
#[derive(Drop)]
struct Rebuilding<'a> {
    head: &'a TrackHead,
    levels: &'a Blocks,
}

impl ComponentWork<u16> for Rebuilding<'_> {
    ghost ready = { λ d tile comp values. CanCode d.head.now d.levels.now tile comp (length values) };

    ghost done = { λ d tile comp values. AreRebuilt d.head.now d.levels.now tile comp values };

    fn work_on(&self, tile: u32, comp: u8, values: &mut [u16]) {
        samples_of_a_frame();
        let levels = self.levels.part(tile, comp);
        let scale = self.head.scale(tile, comp);
        rebuild_component(levels, &scale, self.head.header.info.depth, values);
    }
}

/// Sets the samples of a frame to those that a decoder makes of a track's levels. The frame has the grid of the track's
/// header, and may have held anything. The result is the same for every number of workers.
pub fn rebuild_tiles<R: Threads + Sync, G: Gate>(
    crew: &Crew<'_, R, G>,
    track: &Track,
    frame: &mut Frame,
)
    requires grid { frame.old.grid ≡ grid_of track.now.header }
    ensures samples { IsRebuilt track.now frame.new }
    ensures grid { frame.new.grid ≡ frame.old.grid }
{
    block_of_a_sample();
    let Pieces { values, .. } = frame.pieces();
    let head = &track.head;
    let levels = &track.levels;
    work_components(crew, &Rebuilding { head, levels }, &head.grid, values);
}
