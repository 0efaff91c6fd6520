//! A frame, decoded.
ghost use Rattle.std.specs.Prelude.{◌≡◌, ◌≤◌, length, OnOk, IfOk, IfErr};
ghost use Rattle.apv_base.specs.model.Run.{MAX_UNIT};
ghost use Rattle.apv_frame.specs.Frame.{IsFrameBody, HasGrid, HasSamples, HasContentBreak, IsFault};

use crate::read::read_parts;
use apv_grid::Frame;
use apv_workers::{ContentBreak, Crew, Gate, decode_tiles};
use std::alloc::Global;
use std::thread::Threads;

/// Why a frame isn't decoded:
///
/// - `Broken`: the content of a component of a tile breaks a rule, V27 to V31. It is the first such tile, and of it the
///   first such component.
/// - `Memory`: memory ran out.
#[derive(Clone, Copy, Debug, PartialEq, Eq)]
pub enum FrameFault {
    Broken(ContentBreak),
    Memory,
}

/// Decodes the body of a frame, `frame()`, into a frame that has its grid: all components, tile by tile, by as many
/// workers as the crew has, over the area filled up to whole macroblocks.
///
/// The body has at most 536,870,912 bytes and breaks no rule of the structure. The refusal is the first rule that the
/// content breaks, in the order of the tiles and of their components. After a refusal nothing is said of the samples.
/// The grid stays.
pub fn decode_into<R: Threads + Sync, G: Gate>(
    crew: &Crew<'_, R, G>,
    body: &[u8],
    frame: &mut Frame,
) -> Result<(), ContentBreak>
    requires small { length body.now ≤ MAX_UNIT }
    requires body { IsFrameBody body.now }
    requires grid { HasGrid body.now frame.old.grid }
    ensures ok { OnOk result (HasSamples body.now frame.new) }
    ensures err { IfErr result (HasContentBreak body.now) }
    ensures grid { frame.new.grid ≡ frame.old.grid }
{
    let (head, table) = read_parts(body);
    decode_tiles(crew, body, &head, &table, frame)
}

/// Decodes the body of a frame as `decode_into` does, into a new frame. `Memory` where there is none for it.
pub fn decode_frame<R: Threads + Sync, G: Gate>(
    alloc: Global,
    crew: &Crew<'_, R, G>,
    body: &[u8],
) -> Result<Frame, FrameFault>
    requires small { length body.now ≤ MAX_UNIT }
    requires body { IsFrameBody body.now }
    ensures ok { IfOk result (HasSamples body.now) }
    ensures err { IfErr result (IsFault body.now) }
{
    let (head, table) = read_parts(body);
    let Ok(mut frame) = Frame::new(alloc, &head.grid) else {
        return Err(FrameFault::Memory);
    };
    match decode_tiles(crew, body, &head, &table, &mut frame) {
        Ok(()) => Ok(frame),
        Err(broken) => Err(FrameFault::Broken(broken)),
    }
}
