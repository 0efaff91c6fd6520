//! Which tracks a run has.
ghost use Rattle.std.specs.Prelude.{◌≡◌, ◌<◌, ◌+◌, ◌++◌, length};
ghost use Rattle.arrayvec.specs.ArrayVec.{array_vec_len};
ghost use Rattle.apv_tracks.specs.Kinds.{kind_with, kinds_of, where_named};

use apv_base::{Name, Slot};
use apv_words::EncSettings;
use arrayvec::ArrayVec;

/// What a track is: the slot that its pictures are read from, and the type of its frames (`pbu_type`). The default is
/// that of the primary frames.
#[derive(Clone, Copy, Debug, PartialEq, Eq)]
pub struct TrackKind {
    pub slot: Slot,
    pub pbu_type: u8,
}

impl Default for TrackKind {
    ghost use Rattle.std.specs.Prelude.{◌≡◌};
    ghost use Rattle.apv_base.specs.declared.slot.Slot.TheVariants.{Input};
    ghost use Rattle.apv_tracks.specs.Kinds.{kind_with};

    ghost is_default = { λ kind. kind ≡ kind_with Input 1 };

    fn default() -> TrackKind {
        TrackKind {
            slot: Slot::Input,
            pbu_type: 1,
        }
    }
}

/// Adds a track where its file is named.
fn add_where(kinds: &mut ArrayVec<TrackKind, 4>, file: &Option<Name>, slot: Slot, pbu_type: u8)
    requires { array_vec_len kinds.old < 4 }
    ensures { kinds.new.items ≡
        kinds.old.items ++ where_named file.now (kind_with slot pbu_type) }
{
    if file.is_some() {
        kinds.push(TrackKind { slot, pbu_type });
    }
}

/// The tracks that the settings ask for, in the order in which their pictures are read and their frames are in an access
/// unit: primary frames (1) of `Input`, and then those of `Preview` (25), `Depth` (26) and `Alpha` (27), each where its
/// file is named.
pub fn track_kinds(settings: &EncSettings) -> ArrayVec<TrackKind, 4>
    ensures { result.items ≡ kinds_of settings.now }
{
    let mut kinds = ArrayVec::new();
    kinds.push(TrackKind::default());
    add_where(&mut kinds, &settings.preview, Slot::Preview, 25);
    add_where(&mut kinds, &settings.depth_map, Slot::Depth, 26);
    add_where(&mut kinds, &settings.alpha, Slot::Alpha, 27);
    kinds
}
