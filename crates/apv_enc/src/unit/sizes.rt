//! The bytes of the parts of an access unit.
ghost use Rattle.std.specs.Prelude.{◌≡◌, ℕ, ◌<◌, ◌≤◌, ◌*◌, ◌^◌, List, length, IfSome};
ghost use Rattle.apv_base.specs.model.AuInfo.{ListedFrame};
ghost use Rattle.apv_base.specs.model.Grid.{tile_count};
ghost use Rattle.apv_base.specs.model.Header.{grid_of};
ghost use Rattle.apv_base.specs.model.Run.{MAX_UNIT};
ghost use Rattle.apv_encoding.specs.AccessUnit.{filler_pbu, metadata_pbu};
ghost use Rattle.apv_enc.specs.UnitParts.{HasFixedSize, HaveFixedSize, au_info_part};
ghost use Rattle.apv_frame.specs.Coded.{HasFewBytes, track_pbu, track_tile};
ghost use Rattle.apv_tracks.specs.Kinds.{kinds_of};
ghost use Rattle.apv_workers.specs.Track.{data_bytes};

use apv_frame::len_fixed;
use apv_words::EncSettings;
use apv_workers::Track;

/// The bytes of the PBU of access unit information that lists that many frames, which is there where it is asked for.
pub(super) fn len_au_info(asked: bool, frames: usize) -> usize
    requires { frames ≤ 4 }
    ensures size { (listed : List ListedFrame) → length listed ≡ frames
        → result ≡ length (au_info_part asked listed) }
    ensures few { result ≤ 75 }
{
    if asked {
        return 11 + 16 * frames;
    }
    0
}

/// The bytes of the metadata PBU of payloads, which is there where they aren't empty.
pub(super) fn len_metadata(payloads: &[u8]) -> usize
    requires { length payloads.now ≤ 2 ^ 30 }
    ensures size { result ≡ length (metadata_pbu payloads.now) }
    ensures few { result ≤ 2 ^ 31 }
{
    if payloads.is_empty() {
        return 0;
    }
    12 + payloads.len()
}

/// The bytes of the filler PBU with a body of that many bytes, which is there where it is asked for.
pub(super) fn len_filler(filler: Option<u32>) -> usize
    requires { IfSome filler (λ count. count ≤ 16777216) }
    ensures size { result ≡ length (filler_pbu filler) }
    ensures few { result ≤ 2 ^ 25 }
{
    match filler {
        Some(count) => 8 + count as usize,
        None => 0,
    }
}

/// The bytes of the PBUs of the frames of at most four tracks, but for the data of their tiles (`tile_data()`).
fn len_frames_fixed(tracks: &[Track]) -> u64
    requires { length tracks.now ≤ 4 }
    ensures size { HaveFixedSize tracks.now result }
    ensures few { result ≤ 4 * 65536 }
{
    let mut total = 0;
    for track in tracks {
        total += len_fixed(track);
    }
    total
}

/// The bytes of an access unit of at most four frames, but for the data of their tiles (`tile_data()`). They are as many
/// at each QP.
pub(super) fn len_unit_fixed(settings: &EncSettings, tracks: &[Track], payloads: &[u8]) -> u64
    requires tracks { length tracks.now ≡ length (kinds_of settings.now) }
    requires four { length tracks.now ≤ 4 }
    requires payloads { length payloads.now ≤ 2 ^ 30 }
    requires filler { IfSome settings.now.filler (λ count. count ≤ 16777216) }
    ensures size { HasFixedSize settings.now tracks.now payloads.now result }
    ensures few { result ≤ 2 ^ 40 }
{
    let au_info = len_au_info(settings.au_info, tracks.len());
    let others = 4 + au_info + len_metadata(payloads) + len_filler(settings.filler);
    others as u64 + len_frames_fixed(tracks)
}

/// The bytes of the data of all components of a tile.
fn len_tile(track: &Track, tile: u32) -> u64
    requires bytes { HasFewBytes track.now }
    requires tile { tile < tile_count (grid_of track.now.header) }
    ensures size { result ≡ data_bytes (track_tile track.now tile) }
    ensures few { result ≤ MAX_UNIT }
{
    let mut size = 0;
    for comp in 0..track.header().info.chroma.comps() {
        size += track.data_len(tile, comp);
    }
    size
}

/// The bytes of the PBU of a track's frame, whatever its type. The lengths of its data are known, as `len_tiles` leaves
/// them, and they are at most 536,870,912 bytes in all.
pub(super) fn len_frame(track: &Track) -> usize
    requires bytes { HasFewBytes track.now }
    ensures size { (kind : ℕ) → result ≡ length (track_pbu kind track.now) }
{
    let mut data = 0;
    for tile in 0..track.grid().tiles() {
        data += len_tile(track, tile);
    }
    (len_fixed(track) + data) as usize
}
