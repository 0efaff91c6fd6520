//! The lengths of the data of a track's tiles.
ghost use Rattle.std.specs.Prelude.{◌≡◌, ◌≤◌, ◌*◌, ◌^◌};
ghost use Rattle.apv_base.specs.model.Grid.{block_count};
ghost use Rattle.apv_base.specs.model.Header.{grid_of};
ghost use Rattle.apv_workers.specs.Lengths.{IsLength};
ghost use Rattle.apv_workers.specs.Track.{HasLengths, data_total, frame_of};
ghost use Rattle.apv_workers.specs.TrackFields.{CanCode};

use crate::crew::Crew;
use crate::encode::counting::{ComponentLength, count_all, sum_of_all};
use crate::gate::Gate;
use crate::track::{Track, TrackHead};
use apv_grid::Blocks;
use apv_scan::CodeWords;
use apv_tile::{len_component, len_component_with};
use std::thread::Threads;

/// Levels whose bytes are to be counted.
#[derive(Drop)]
struct Counting<'a> {
    head: &'a TrackHead,
    levels: &'a Blocks,
    words: Option<&'a CodeWords>,
}

impl ComponentLength for Counting<'_> {
    ghost ready = { λ d tile comp. CanCode d.head.now d.levels.now tile comp
        (64 * block_count (grid_of d.head.now.header) tile comp) };

    ghost counts = { λ d tile comp count. IsLength d.head.now d.levels.now tile comp count };

    fn length_of(&self, tile: u32, comp: u8) -> u32 {
        // So the levels are few.
        prove!(self.head.grid.blocks(tile, comp) <= 1048576);
        let levels = self.levels.part(tile, comp);
        let bytes = match self.words {
            Some(words) => len_component_with(words, levels),
            None => len_component(levels),
        };
        bytes as u32
    }
}

/// Counts the bytes of the data of each component of each tile of a track (`tile_data_size`), which `Track::data_len` then
/// says, and returns their sum. The result is the same for every number of workers.
pub fn len_tiles<R: Threads + Sync, G: Gate>(crew: &Crew<'_, R, G>, track: &mut Track) -> u64
    ensures lengths { HasLengths track.new }
    ensures sum { result ≡ data_total (frame_of track.new) }
    ensures few { result ≤ 2 ^ 43 }
    ensures others { track.new ≡ record track.old { lengths = track.new.lengths } }
{
    let work = Counting {
        head: &track.head,
        levels: &track.levels,
        words: crew.words(),
    };
    count_all(crew, &work, &track.head, track.lengths.as_mut_slice());
    sum_of_all(&track.head, track.lengths.as_slice())
}
