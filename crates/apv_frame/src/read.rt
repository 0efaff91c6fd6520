//! The header and the tiles of a frame whose structure is sound, read.
ghost use Rattle.std.specs.Prelude.{◌≡◌, ◌≤◌, length};
ghost use Rattle.apv_base.specs.model.Run.{MAX_UNIT};
ghost use Rattle.apv_frame.specs.Frame.{IsFrameBody, HasGrid, AreParts};

use apv_grid::Grid;
use apv_header::{HeaderRead, TileTable, read_frame_header, read_tiles};

/// The header and the tile table of the body of a frame.
pub(crate) fn read_parts(body: &[u8]) -> (HeaderRead, TileTable)
    requires small { length body.now ≤ MAX_UNIT }
    requires frame { IsFrameBody body.now }
    ensures { AreParts body.now result.0 result.1 }
{
    let Ok(head) = read_frame_header(body) else {
        unreachable!("the body breaks no rule of a frame")
    };
    let Ok(table) = read_tiles(body, &head) else {
        unreachable!("the body breaks no rule of a frame")
    };
    (head, table)
}

/// The grid of a frame: its format, and its tiles (`tile_info()`). The body, `frame()`, has at most 536,870,912 bytes
/// and breaks no rule of the structure.
pub fn frame_grid(body: &[u8]) -> Grid
    requires small { length body.now ≤ MAX_UNIT }
    requires frame { IsFrameBody body.now }
    ensures { HasGrid body.now result }
{
    let Ok(head) = read_frame_header(body) else {
        unreachable!("the body breaks no rule of a frame")
    };
    head.grid
}
