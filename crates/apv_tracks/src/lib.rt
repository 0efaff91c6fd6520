//! The tracks of a run of the encoder: the formats of their frames judged, the files of payloads and of QP offsets read,
//! and the pictures of a frame read.
#![tactic(auto)]

mod format;
mod kinds;
mod opening;
mod payload_file;
mod pictures;
mod tile_map;

pub use format::{judge_format, judge_preview};
pub use kinds::{TrackKind, track_kinds};
pub use opening::{Opening, open_tracks};
pub use payload_file::{ListEnd, read_payload_file};
pub use pictures::read_pictures;
pub use tile_map::{MapEnd, read_tile_map};

#[cfg(test)]
mod format_tests;
#[cfg(test)]
mod opening_tests;
#[cfg(test)]
mod payload_file_tests;
#[cfg(test)]
mod pictures_tests;
#[cfg(test)]
mod settings_for_tests;
