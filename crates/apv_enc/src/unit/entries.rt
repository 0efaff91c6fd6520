//! The frames of an access unit, as access unit information lists them.
ghost use Rattle.std.specs.Prelude.{◌≡◌, ◌≤◌, length, take};
ghost use Rattle.apv_base.specs.model.AuInfo.{info_bytes};
ghost use Rattle.apv_base.specs.model.Header.{IsSoundInfo};
ghost use Rattle.apv_enc.specs.UnitParts.{listed_state, listed_states};
ghost use Rattle.apv_unit.specs.AuInfo.{ListAll, Lists};

use apv_base::FrameInfo;
use apv_bits::BitWriter;
use apv_header::put_frame_info;
use apv_tracks::TrackKind;
use apv_unit::AuEntry;
use apv_workers::Track;

/// Writes the 12 bytes of `frame_info()`.
fn put_info(info: &FrameInfo, out: &mut [u8])
    requires sound { IsSoundInfo info.now }
    requires room { length out.old ≡ 12 }
    ensures { out.new ≡ info_bytes info.now }
{
    let mut writer = BitWriter::new(out);
    put_frame_info(info, &mut writer);
}

/// The entry of the frame of a track, of a type (`pbu_type`) and of the group 1.
fn entry_of(kind: u8, track: &Track) -> AuEntry
    ensures { Lists result (listed_state kind track.now) }
{
    let mut info = [0; 12];
    put_info(&track.header().info, &mut info);
    AuEntry {
        kind,
        group: 1,
        info,
    }
}

/// The entries of the frames of at most four tracks, of these kinds, in their order, and unused ones after them.
pub(super) fn entries_of(kinds: &[TrackKind], tracks: &[Track]) -> [AuEntry; 4]
    requires kinds { length kinds.now ≡ length tracks.now }
    requires four { length tracks.now ≤ 4 }
    ensures four { length result ≡ 4 }
    ensures listed { ListAll (take (length tracks.now) result) (listed_states kinds.now tracks.now) }
{
    let unused = AuEntry {
        kind: 0,
        group: 1,
        info: [0; 12],
    };
    let mut entries = [unused; 4];
    for index in 0..tracks.len() {
        entries[index] = entry_of(kinds[index].pbu_type, &tracks[index]);
    }
    entries
}
