//! The frame of a track, coded.
ghost use Rattle.std.specs.Prelude.{◌≡◌, ℕ, ◌+◌, ◌<◌, ◌≤◌, length, slice_index};
ghost use Rattle.apv_base.specs.model.Encode.{frame_body};
ghost use Rattle.apv_base.specs.model.Grid.{tile_count};
ghost use Rattle.apv_base.specs.model.Header.{grid_of};
ghost use Rattle.apv_base.specs.model.Picture.{frame_picture, picture};
ghost use Rattle.apv_base.specs.model.Run.{MAX_UNIT};
ghost use Rattle.apv_frame.specs.Coded.{IsFixedSize, HasFewBytes, track_pbu, track_tile_size};
ghost use Rattle.apv_grid.specs.Buffer.{samples_of};
ghost use Rattle.apv_workers.specs.Encode.{IsRebuilt};
ghost use Rattle.apv_workers.specs.Track.{HasLengths, frame_of, levels_of};

use apv_grid::Frame;
use apv_header::{len_frame_header, put_frame_header};
use apv_unit::put_pbu_header;
use apv_workers::{Crew, Gate, Track, put_tiles, rebuild_tiles};
use std::thread::Threads;

/// The number of bytes of the PBU of a track's frame but for the data of its tiles (`tile_data()`): `pbu_size`, the PBU
/// header, the frame header, and for each tile `tile_size` and the tile header. It is the same at every QP.
pub fn len_fixed(track: &Track) -> u64
    ensures size { IsFixedSize track.now.header result }
    ensures few { result ≤ 65536 }
{
    let header = track.header();
    let tiles = track.grid().tiles();
    let of_tile = 4 + 5 * u32::from(header.info.chroma.comps()) + 5;
    u64::from(8 + len_frame_header(header, tiles) + tiles * of_tile)
}

/// The bytes of a tile after `tile_size`: the tile header and the data of its components.
fn tile_size(track: &Track, tile: u32) -> u64
    requires bytes { HasFewBytes track.now }
    requires tile { tile < tile_count (grid_of track.now.header) }
    ensures size { result ≡ track_tile_size track.now tile }
    ensures few { result ≤ MAX_UNIT + 25 }
{
    let comps = track.header().info.chroma.comps();
    let mut size = 5 * u64::from(comps) + 5;
    for comp in 0..comps {
        size += track.data_len(tile, comp);
    }
    size
}

/// The size of each tile (`tile_size`), and 0 after those of all tiles.
fn tile_sizes(track: &Track) -> [u32; 400]
    requires bytes { HasFewBytes track.now }
    ensures len { length result ≡ 400 }
    ensures each { (tile : ℕ) → tile < tile_count (grid_of track.now.header)
        → slice_index result tile ≡ track_tile_size track.now tile }
{
    let mut sizes = [0; 400];
    for tile in 0..track.grid().tiles() {
        sizes[tile as usize] = tile_size(track, tile) as u32;
    }
    sizes
}

/// Writes the body of a track's frame (`frame()`): the frame header and the tiles.
fn put_body<R: Threads + Sync, G: Gate>(crew: &Crew<'_, R, G>, track: &Track, out: &mut [u8])
    requires bytes { HasFewBytes track.now }
    requires small { length out.old ≤ MAX_UNIT }
    requires room { length out.old ≡ length (frame_body (frame_of track.now)) }
    ensures { out.new ≡ frame_body (frame_of track.now) }
{
    let header = track.header();
    let tiles = track.grid().tiles();
    let len = len_frame_header(header, tiles) as usize;
    let sizes = tile_sizes(track);
    let (stated, _) = sizes.split_at(tiles as usize);
    let (head, data) = out.split_at_mut(len);
    put_frame_header(header, stated, head);
    put_tiles(crew, track, data);
}

/// Writes the PBU of a track's frame, with `pbu_size` before it: type `kind` (`pbu_type`), group 1, the header of the
/// track and the tiles of its levels (`frame()`). The result is the same for every number of workers.
///
/// The lengths are those of the levels, as `len_tiles` leaves them. The output has just room: `len_fixed` bytes and
/// those of all data, as `len_tiles` returns them, at most 536,870,912 in all. It may have held anything.
pub fn put_frame<R: Threads + Sync, G: Gate>(
    crew: &Crew<'_, R, G>,
    track: &Track,
    kind: u8,
    out: &mut [u8],
)
    requires lengths { HasLengths track.now }
    requires bytes { length out.old ≤ MAX_UNIT }
    requires room { length out.old ≡ length (track_pbu kind track.now) }
    ensures { out.new ≡ track_pbu kind track.now }
{
    let size = (out.len() - 4) as u32;
    let (prefix, body) = out.split_at_mut(8);
    put_pbu_header(kind, 1, size, prefix);
    put_body(crew, track, body);
}

/// Sets the samples of a frame to those that a decoder makes of a track's levels. The frame has the grid of the track's
/// header, and may have held anything. The result is the same for every number of workers.
pub fn reconstruct<R: Threads + Sync, G: Gate>(
    crew: &Crew<'_, R, G>,
    track: &Track,
    frame: &mut Frame,
)
    requires grid { frame.old.grid ≡ grid_of track.now.header }
    ensures samples { IsRebuilt track.now frame.new }
    ensures picture { picture frame.new.grid.format (samples_of frame.new)
        ≡ frame_picture (frame_of track.now) (levels_of track.now) }
    ensures grid { frame.new.grid ≡ frame.old.grid }
{
    rebuild_tiles(crew, track, frame);
}
