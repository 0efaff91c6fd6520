//! Work on the tiles of a frame, divided among several workers.
//!
//! The tiles of a frame are independent of one another. Each worker has a run of consecutive tiles
//! and exclusive use of their values, which are cut out of one lent buffer by splitting the borrow.
//! Whatever the number of workers, the outcome is that of one.
#![tactic(auto)]

mod crew;
mod decode;
mod encode;
mod gate;
mod laws;
mod run;
mod track;

pub use crew::Crew;
pub use decode::decode_tiles;
pub use encode::{
    least_len_tiles, len_tiles, put_tiles, quantise_tiles, rebuild_tiles, transform_tiles,
};
pub use gate::{Gate, NoGate};
pub use laws::some_levels;
pub use run::{ComponentBreak, ContentBreak};
pub use track::Track;

#[cfg(test)]
mod tests;
