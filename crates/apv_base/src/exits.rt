//! How a run of a program ends, and the rules of video files.
ghost use Rattle.std.specs.Prelude.{◌≡◌};
ghost use Rattle.apv_base.specs.model.Answer.{status_of};

use crate::{Break, Format, Limit, Slot, UsageKind};

/// A rule of the video files that the encoder reads.
///
/// - `Header`: the first line of a Y4M file has another form.
/// - `Tag`: the tag of the format is missing or isn't known.
/// - `Size`: the width or height is 0 or above 16,777,215, or the width is odd with 4:2:2.
/// - `Profile`: the profile isn't written with the format, or there is no default.
/// - `Grid`: there are more than 20 tile columns or rows.
/// - `Qp`: a QP is above the maximum of the depth.
/// - `FrameLine`: the line before a picture has another form.
/// - `Truncated`: a picture isn't whole.
/// - `Range`: a sample is out of its range.
/// - `Missing`: a further track has ended before `Input`.
/// - `Extra`: a further track goes on after the end of `Input`.
#[derive(Clone, Copy, Debug, PartialEq, Eq)]
pub enum VideoRule {
    Header,
    Tag,
    Size,
    Profile,
    Grid,
    Qp,
    FrameLine,
    Truncated,
    Range,
    Missing,
    Extra,
}

/// A rule of video files that is broken, in which slot and at which frame, counted from 0.
#[derive(Clone, Copy, Debug, PartialEq, Eq)]
pub struct VideoBreak {
    pub slot: Slot,
    pub rule: VideoRule,
    pub frame: u32,
}

/// The answer of a run.
///
/// - `Done`: the input was read to its end, and all output is written.
/// - `Memory`: memory ran out.
/// - `Usage`: the words of the command line give no settings.
/// - `Broken`: a rule of the bitstream is broken.
/// - `BadVideo`: a rule of a video file is broken.
/// - `BadPayloads`: the metadata file isn't a list of whole payloads: the byte at which the first one that isn't
///   whole begins.
/// - `BadTileQp`: the file of QP offsets isn't one byte of -75 to 75 for each tile: the first byte that is missing,
///   is outside this range or is after the last tile.
/// - `OpenFailed`: a file can't be opened or created.
/// - `ReadFailed`: a read failed.
/// - `WriteFailed`: a write failed.
/// - `LimitMet`: a limit is exceeded, by that quantity: bytes for `L1`, macroblocks for `L2`, access units or frames
///   for `L3`.
/// - `FormatChange`: the format of the frames changes in a Y4M output; `first` is the format of the first selected
///   frame; `other` is the first format that differs from it.
/// - `NoTag`: the format has no tag in a Y4M file.
/// - `TooLarge`: no permitted QP makes the access unit small enough; `frame` is the number of the frame in `Input`,
///   counted from 0; `smallest` is the size of the access unit in bytes (`au_size`) at the permitted QP at which it
///   is smallest; `limit` is the size in bytes that an access unit may have.
#[derive(Clone, Copy, Debug, PartialEq, Eq)]
pub enum Exit {
    Done,
    Memory,
    Usage(UsageKind),
    Broken(Break),
    BadVideo(VideoBreak),
    BadPayloads(u64),
    BadTileQp(u64),
    OpenFailed(Slot),
    ReadFailed(Slot),
    WriteFailed(Slot),
    LimitMet(Limit, u64),
    FormatChange {
        first: Format,
        other: Format,
    },
    NoTag(Format),
    TooLarge {
        frame: u32,
        smallest: u64,
        limit: u64,
    },
}

impl Exit {
    /// The exit status of a program that ends with this answer.
    pub fn status(self) -> u8
        ensures { result ≡ status_of self }
    {
        match self {
            Exit::Done => 0,
            Exit::Memory => 1,
            Exit::Usage(_) => 2,
            Exit::Broken(_) | Exit::BadVideo(_) | Exit::BadPayloads(_) | Exit::BadTileQp(_) => 3,
            Exit::OpenFailed(_) | Exit::ReadFailed(_) => 4,
            Exit::WriteFailed(_) => 5,
            Exit::LimitMet(_, _) => 6,
            Exit::FormatChange { .. } | Exit::NoTag(_) => 7,
            Exit::TooLarge { .. } => 8,
        }
    }
}
