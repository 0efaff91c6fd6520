//! The headers of frames and of tiles, read and written.
#![tactic(auto)]

mod fields;
mod head;
mod info;
mod matrices;
mod read;
mod tile_write;
mod tiles;
mod write;

pub use apv_base::{FrameHeader, HeadEnd, TileBreak};
pub use head::HeaderRead;
pub use info::read_frame_info;
pub use read::read_frame_header;
pub use tile_write::put_tile_header;
pub use tiles::{TileEntry, TileTable, read_tiles};
pub use write::{len_frame_header, put_frame_header, put_frame_info};

#[cfg(test)]
mod tests;
