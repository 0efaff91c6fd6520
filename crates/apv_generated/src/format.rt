//! The format of the generated video.
use apv_base::{Chroma, Format};

/// The format of generated pictures: 640x360, 4:2:2, 10 bits.
pub const GENERATED_FORMAT: Format = Format {
    width: 640,
    height: 360,
    chroma: Chroma::C422,
    depth: 10,
};

/// The number of pictures of a generated video.
pub const GENERATED_FRAMES: u32 = 8;
