mod reading;
mod tiles;
mod writing;

use apv_base::{Chroma, FrameInfo};

/// The format and profile of a frame of 16x16 samples in 4:0:0 and 10 bits.
const INFO: FrameInfo = FrameInfo {
    profile: 99,
    level: 123,
    band: 0,
    width: 16,
    height: 16,
    chroma: Chroma::C400,
    depth: 10,
    capture: 0,
};
