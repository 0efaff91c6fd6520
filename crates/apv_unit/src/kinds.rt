//! The types of PBUs (`pbu_type`).
ghost use Rattle.std.specs.Prelude.{◌≡◌};
ghost use Rattle.apv_base.specs.model.Pbu.{is_frame as is_frame_kind};

/// `pbu_type` of access unit information.
pub const AU_INFO: u8 = 65;

/// `pbu_type` of metadata.
pub const METADATA: u8 = 66;

/// `pbu_type` of filler.
pub const FILLER: u8 = 67;

/// Whether a `pbu_type` is that of a frame.
pub fn is_frame(kind: u8) -> bool
    ensures { result ≡ is_frame_kind kind }
{
    matches!(kind, 1 | 2 | 25 | 26 | 27)
}
