//! Why no header or no picture was read.
ghost use Rattle.std.specs.Prelude.{◌≡◌};
ghost use Rattle.apv_base.specs.declared.slot.Slot.TheVariants.{Input};

use apv_base::{Limit, Slot, VideoBreak, VideoRule};

/// Why no header or no picture of a video file was read.
///
/// - `Bad`: a rule of video files is broken.
/// - `Limit`: the limit L2 is exceeded, by that number of macroblocks, or L3, by that number of pictures.
/// - `Read`: a read of that slot failed by its device.
/// - `Memory`: memory ran out.
#[derive(Clone, Copy, Debug, PartialEq, Eq)]
pub enum VideoEnd {
    Bad(VideoBreak),
    Limit(Limit, u64),
    Read(Slot),
    Memory,
}

/// A rule that the header of `Input` breaks.
pub(crate) fn bad_header(rule: VideoRule) -> VideoEnd
    ensures { result ≡ VideoEnd.Bad (record { slot = Input; rule = rule; frame = 0 }) }
{
    VideoEnd::Bad(VideoBreak {
        slot: Slot::Input,
        rule,
        frame: 0,
    })
}

/// A rule that a picture of a slot breaks, which has that number.
pub(crate) fn bad_picture(slot: Slot, rule: VideoRule, frame: u32) -> VideoEnd
    ensures { result ≡ VideoEnd.Bad (record { slot = slot; rule = rule; frame = frame }) }
{
    VideoEnd::Bad(VideoBreak { slot, rule, frame })
}
