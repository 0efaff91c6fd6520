//! The syntax elements of a block, read and written one by one.

pub mod dc;
pub mod run_level;
pub mod values;
pub mod words;
