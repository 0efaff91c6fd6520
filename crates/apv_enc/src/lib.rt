//! The encoder: from the words of a command line to the answer, and the access unit of a frame of each track.
#![tactic(auto)]

mod check;
mod end;
mod frames;
mod own_unit;
mod run;
mod unit;

pub use apv_search::Chosen;
pub use apv_tracks::{ListEnd, MapEnd, read_payload_file, read_tile_map};
pub use apv_words::{EncSettings, settings_enc};
pub use run::run_enc;
pub use unit::{UnitFault, encode_unit};

#[cfg(test)]
mod unit_tests;
