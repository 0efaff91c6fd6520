//! The types that all crates share, and under `specs/` the definitions of the format.
#![tactic(auto)]

mod exits;
mod format;
mod header;
pub mod laws;
mod matrix;
mod name;
mod options;
mod profile;
mod rules;
mod slot;

pub use exits::{Exit, VideoBreak, VideoRule};
pub use format::{Chroma, Colour, Format, FrameInfo};
pub use header::FrameHeader;
pub use matrix::Matrix;
pub use name::Name;
pub use options::{Form, Opt, Select, UsageKind, WordsEnd};
pub use profile::{
    component_qp, default_profile, profile_known, profile_takes, profile_writes, qp_max,
};
pub use rules::{
    Break, HeadEnd, Limit, MAX_MACROBLOCKS, MAX_UNIT_BYTES, Place, Rule, TileBreak, UnitEnd,
};
pub use slot::Slot;
