//! The tiles of a track, written.
ghost use Rattle.std.specs.Prelude.{◌≡◌, ℕ, ◌<◌, ◌≤◌, ◌+◌, ◌*◌, length, slice_index};
ghost use Rattle.std.specs.List.{sum, concat};
ghost use Rattle.apv_base.specs.model.Encode.{each};
ghost use Rattle.apv_base.specs.model.Grid.{tile_count, block_count};
ghost use Rattle.apv_base.specs.model.Header.{grid_of, header_comps};
ghost use Rattle.apv_base.specs.model.Run.{MAX_UNIT};
ghost use Rattle.apv_workers.specs.Lengths.{level_bytes};
ghost use Rattle.apv_workers.specs.Put.{CanPut, IsTilePut, AreReadyToPut, put_start, head_frame};
ghost use Rattle.apv_workers.specs.Track.{HasLengths, frame_of, tiles_bytes, tiles_size};
ghost use Rattle.apv_workers.specs.TrackFields.{IsHead, IsWhole, CanCode, head_qps};
ghost use Rattle.apv_workers.specs.declared.run.ComponentBreak.{ComponentBreak};

use crate::crew::Crew;
use crate::encode::counting::{lengths_of, sum_of};
use crate::gate::Gate;
use crate::run::{ComponentBreak, TileRun, TileWork};
use crate::track::{Track, TrackHead};
use apv_grid::Blocks;
use apv_header::put_tile_header;
use apv_scan::CodeWords;
use apv_tile::{put_component, put_component_with};
use std::thread::Threads;

/// Levels that are to be written, and the lengths of their data.
#[derive(Drop)]
struct Putting<'a> {
    head: &'a TrackHead,
    levels: &'a Blocks,
    lengths: &'a [u32],
    words: Option<&'a CodeWords>,
}

impl Putting<'_> {
    /// Writes the bytes of a component of a tile.
    fn put_component(&self, tile: u32, comp: u8, out: &mut [u8])
        requires ready { CanCode self.now.head.now self.now.levels.now tile comp
            (64 * block_count (grid_of self.now.head.now.header) tile comp) }
        requires bytes { length out.old ≤ MAX_UNIT }
        requires room { let grid = grid_of self.now.head.now.header in
            length out.old ≡ length (level_bytes grid self.now.levels.now.values tile comp) }
        ensures { let grid = grid_of self.now.head.now.header in
            out.new ≡ level_bytes grid self.now.levels.now.values tile comp }
    {
        let levels = self.levels.part(tile, comp);
        match self.words {
            Some(words) => put_component_with(words, levels, out),
            None => put_component(levels, out),
        }
    }

    /// Writes the bytes of the components of a tile, one component after another.
    fn put_data(&self, tile: u32, lengths: &[u32], out: &mut [u8])
        requires head { IsHead self.now.head.now }
        requires levels { IsWhole self.now.head.now self.now.levels.now }
        requires tile { tile < tile_count (grid_of self.now.head.now.header) }
        requires lengths { let header = self.now.head.now.header in
            let bytes = level_bytes (grid_of header) self.now.levels.now.values tile in
            lengths.now ≡ each (header_comps header) (λ comp. length (bytes comp)) }
        requires bytes { length out.old ≤ MAX_UNIT }
        requires room { length out.old ≡ sum lengths.now }
        ensures { let header = self.now.head.now.header in
            let bytes = level_bytes (grid_of header) self.now.levels.now.values tile in
            out.new ≡ concat (each (header_comps header) bytes) }
    {
        let mut place = 0;
        for comp in 0..self.head.header.info.chroma.comps() {
            let len = lengths[comp as usize] as usize;
            let (_, after) = out.split_at_mut(place);
            let (bytes, _) = after.split_at_mut(len);
            self.put_component(tile, comp, bytes);
            place += len;
        }
    }

    /// The QPs of the components of a tile (`tile_qp`).
    fn qps(&self, tile: u32) -> [u8; 4]
        requires head { IsHead self.now.head.now }
        requires tile { tile < tile_count (grid_of self.now.head.now.header) }
        ensures four { length result ≡ 4 }
        ensures each { (comp : ℕ) → comp < header_comps self.now.head.now.header
            → slice_index result comp ≡ head_qps self.now.head.now tile comp }
    {
        let mut qps = [0; 4];
        for comp in 0..self.head.header.info.chroma.comps() {
            qps[comp as usize] = self.head.qp(tile, comp);
        }
        qps
    }

    /// Writes a tile: `tile_size`, the tile header and the bytes of the components.
    fn put_tile(&self, tile: u32, out: &mut [u8])
        requires { CanPut self.now.head.now self.now.levels.now self.now.lengths.now tile
            (length out.old) }
        ensures { IsTilePut self.now.head.now self.now.levels.now tile out.new }
    {
        let comps = usize::from(self.head.header.info.chroma.comps());
        let lengths = lengths_of(self.head, self.lengths, tile);
        let qps = self.qps(tile);
        let size = (out.len() - 4) as u32;
        let (first, after) = out.split_at_mut(4);
        first.copy_from_slice(&size.to_be_bytes());
        let (header, data) = after.split_at_mut(5 * comps + 5);
        put_tile_header(tile as u16, lengths, &qps[..comps], header);
        self.put_data(tile, lengths, data);
    }
}

impl TileWork<u8> for Putting<'_> {
    ghost ready = { λ d tile part. CanPut d.head.now d.levels.now d.lengths.now tile (length part) };

    ghost sound = { λ d tile. Unit {0} };

    ghost breaks = { λ d tile broken. ⊥ };

    ghost done = { λ d tile old new. IsTilePut d.head.now d.levels.now tile new };

    fn work(&self, tile: u32, part: &mut [u8]) -> Result<(), ComponentBreak> {
        self.put_tile(tile, part);
        Ok(())
    }
}

/// Where the bytes of each tile begin, and the end of those of the last tile.
fn put_cuts(head: &TrackHead, lengths: &[u32]) -> [usize; 401]
    requires head { IsHead head.now }
    requires four { length lengths.now ≡ 4 * tile_count (grid_of head.now.header) }
    ensures len { length result ≡ 401 }
    ensures each { let comps = header_comps head.now.header in
        (tile : ℕ) → tile ≤ tile_count (grid_of head.now.header)
        → slice_index result tile ≡ put_start lengths.now comps tile }
{
    let header_size = 5 * usize::from(head.header.info.chroma.comps()) + 5;
    let mut cuts = [0; 401];
    let mut end = 0;
    for tile in 0..head.grid.tiles() {
        end += header_size + 4 + sum_of(lengths_of(head, lengths, tile)) as usize;
        cuts[tile as usize + 1] = end;
    }
    cuts
}

/// Writes all tiles, one after another.
fn put_all<R: Threads + Sync, G: Gate>(crew: &Crew<'_, R, G>, work: &Putting<'_>, out: &mut [u8])
    requires ready { AreReadyToPut work.now.head.now work.now.levels.now work.now.lengths.now }
    requires bytes { length out.old ≤ MAX_UNIT }
    requires room { let header = work.now.head.now.header in
        let tiles = tile_count (grid_of header) in
        length out.old ≡ put_start work.now.lengths.now (header_comps header) tiles }
    ensures { out.new ≡ tiles_bytes (head_frame work.now.head.now work.now.levels.now) }
{
    let cuts = put_cuts(work.head, work.lengths);
    let tiles = TileRun {
        cuts: &cuts,
        first: 0,
        count: work.head.grid.tiles(),
    };
    let _ = crew.work(work, tiles, out);
}

/// Writes the tiles of a track (`tile()`), one after another, each with `tile_size`, its tile header and the data of its
/// components: what follows the frame header in the body of the frame. The result is the same for every number of workers.
///
/// The lengths are those of the levels, as `len_tiles` leaves them. The output has just room for the tiles, at most
/// 536,870,912 bytes: for each tile the bytes of its header, 5 for each component and 5 more, and 4 more for `tile_size`,
/// and the bytes of all data, as `len_tiles` returns them. It may have held anything.
pub fn put_tiles<R: Threads + Sync, G: Gate>(crew: &Crew<'_, R, G>, track: &Track, out: &mut [u8])
    requires lengths { HasLengths track.now }
    requires bytes { length out.old ≤ MAX_UNIT }
    requires room { length out.old ≡ tiles_size (frame_of track.now) }
    ensures { out.new ≡ tiles_bytes (frame_of track.now) }
{
    let work = Putting {
        head: &track.head,
        levels: &track.levels,
        lengths: track.lengths.as_slice(),
        words: crew.words(),
    };
    put_all(crew, &work, out);
}
