//! The header of a frame.
use crate::{Colour, FrameInfo, Matrix};

/// The values of `frame_header()`. Without `use_matrix` all four matrices are flat, and so is the matrix of a component
/// that the format doesn't have.
#[derive(Clone, Copy, Debug, PartialEq, Eq)]
pub struct FrameHeader {
    /// `frame_info()`.
    pub info: FrameInfo,
    /// The colour description, where `color_description_present_flag` is 1.
    pub colour: Option<Colour>,
    /// `use_q_matrix`.
    pub use_matrix: bool,
    /// `quantization_matrix()`, one for each component.
    pub matrices: [Matrix; 4],
    /// `tile_width_in_mbs`.
    pub tile_width: u32,
    /// `tile_height_in_mbs`.
    pub tile_height: u32,
    /// `tile_size_present_in_fh_flag`.
    pub sizes_present: bool,
}
