//! The frame of a PBU, and the frames of an access unit: from their bytes to their samples.
#![tactic(auto)]

mod decode;
mod encode;
mod read;
mod unit;

pub use apv_workers::ContentBreak;
pub use decode::{FrameFault, decode_frame, decode_into};
pub use encode::{len_fixed, put_frame, reconstruct};
pub use read::frame_grid;
pub use unit::{FramesFault, UnitFrames};

#[cfg(test)]
mod tests;
