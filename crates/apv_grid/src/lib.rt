//! The tiles of a frame, the blocks in them, and buffers of their values.
#![tactic(auto)]

mod bands;
mod blocks;
mod frame;
mod grid;
pub mod laws;
mod layout;
mod pad;
mod pieces;
mod rows;
mod runs;

pub use blocks::Blocks;
pub use frame::Frame;
pub use grid::{Grid, Rect, default_tile};
pub use pieces::Pieces;

#[cfg(test)]
mod tests;
