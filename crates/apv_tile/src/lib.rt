//! The blocks of one component of a tile, decoded and coded (`tile_data()` of RFC 9924).
//!
//! The samples, coefficients and levels of a component are slices of whole blocks in coding order,
//! 64 values for each block, row after row. Nothing here takes memory.
#![tactic(auto)]

mod blocks;
mod by_block;
mod decode;
pub mod laws;
mod least;
mod write;

pub use by_block::{quantise_component, rebuild_component, transform_component};
pub use decode::{decode_component, decode_component_with};
pub use least::least_len_component;
pub use write::{len_component, len_component_with, put_component, put_component_with};

#[cfg(test)]
mod tests;
