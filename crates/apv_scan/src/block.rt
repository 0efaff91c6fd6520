//! A block, read, counted and written.

pub mod levels;
pub mod places;
pub mod read;
pub mod write;
