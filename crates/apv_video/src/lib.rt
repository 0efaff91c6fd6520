//! Files of pictures, planar and Y4M: their header lines, how they are read, and how they are written.
#![tactic(auto)]

mod end;
mod frame_line;
mod frames;
mod header;
mod line;
mod open;
mod read;
mod read_line;
mod samples;
mod tag;
mod tokens;
mod write;

pub use end::VideoEnd;
pub use frames::read_frame;
pub use header::is_bad_size;
pub use open::{Shape, open_video};
pub use tag::{Tag, tag_of};
pub use write::{Put, write_frame, write_header};

#[cfg(test)]
mod read_tests;
#[cfg(test)]
mod tests;
