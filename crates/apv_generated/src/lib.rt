//! The video that is generated from a number, as the input of files over other ones, and how far decoded pictures are from
//! it.
#![tactic(auto)]

mod bytes;
mod difference;
mod files;
mod format;
mod picture;
mod video;

pub use difference::peak_difference;
pub use files::GeneratedFiles;
pub use format::{GENERATED_FORMAT, GENERATED_FRAMES};
pub use picture::{generated, put_generated};
pub use video::GeneratedVideo;

#[cfg(test)]
mod tests;
