//! The bodies of frames.
ghost use Rattle.std.specs.Prelude.{◌≡◌, ◌≤◌, ℕ, List, length, MatchOption};
ghost use Rattle.apv_base.specs.model.Frame.{IsFrame, FrameBreaks};
ghost use Rattle.apv_base.specs.model.Run.{MAX_UNIT};

use crate::broken_body::{BodyBreak, inside, outside};
use crate::filler::is_filler;
use apv_base::{HeadEnd, Rule};
use apv_header::{read_frame_header, read_tiles};

/// The first rule that a body of a frame breaks, or the limit that it doesn't keep: those of its header, then of its
/// tiles in order, then V23 for the filler after them.
pub fn frame_break(body: &[u8]) -> Option<BodyBreak>
    requires { length body.now ≤ MAX_UNIT }
    ensures { MatchOption result ((header tiles : List ℕ) × IsFrame body.now header tiles)
        (λ broken. FrameBreaks body.now broken.tile broken.end) }
{
    let head = match read_frame_header(body) {
        Ok(head) => head,
        Err(end) => return Some(BodyBreak { tile: 0, end }),
    };
    let table = match read_tiles(body, &head) {
        Ok(table) => table,
        Err(broken) => return Some(inside(broken)),
    };
    let (_, filler) = body.split_at(table.end as usize);
    if !is_filler(filler) {
        return Some(outside(Rule::V23));
    }
    None
}
