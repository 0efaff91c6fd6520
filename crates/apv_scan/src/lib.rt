//! The levels of a block as bits, in the order of the scan (`coefficient_coding()` of RFC 9924).
#![tactic(auto)]

mod block;
mod block_break;
mod context;
mod elements;
mod laws;
mod scan;
mod tables;

pub use block::read::{read_block, read_block_with};
pub use block::write::{len_block, len_block_with, put_block, put_block_with};
pub use block_break::BlockBreak;
pub use context::Context;
pub use laws::{one_component, one_reading, scan_order, spelled_component};
pub use scan::SCAN;
pub use tables::code_words::CodeWords;
pub use tables::step_table::StepTable;

#[cfg(test)]
mod tests;
