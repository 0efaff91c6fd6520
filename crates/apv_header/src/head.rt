//! What is read from the start of a frame's body.
use apv_base::FrameHeader;
use apv_grid::Grid;
use arrayvec::ArrayVec;

/// A frame header that was read (`frame_header()`), its grid, and the size of each tile where it states them.
#[derive(Debug, Drop)]
pub struct HeaderRead {
    /// The values of its fields, which are sound.
    pub header: FrameHeader,
    /// The grid of its format and its tiles (`tile_info()`), 1 to 400 tiles.
    pub grid: Grid,
    /// `tile_size_in_fh` in bytes, one for each tile, where `header.sizes_present`, and else none.
    pub sizes: ArrayVec<u32, 400>,
    /// The bytes of the header, which begins the body: 20 to 3700.
    pub len: u32,
}
