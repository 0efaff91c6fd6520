//! The forward and the inverse transform of a block of 8x8, and laws of their bounds.
//!
//! Both transforms are two passes over the lines of a block. A pass sums the products of a line's
//! eight values with the entries of the transform matrix, divides by a power of 2 and rounds. A row
//! of the matrix is its own mirror image or the opposite of it, so the sums are folded.
//!
//! `forward` and `inverse` work in lanes of 16 bits, and `inverse` in lanes of 32 bits where a
//! value between its passes needs more. The passes in lanes of 32 bits are public in `kernel`.
#![tactic(auto)]

pub mod kernel;
mod lanes;
pub mod laws;
mod pairs;
mod round;
mod rows;
#[cfg(test)]
mod tests;
mod transform;

pub use transform::{forward, inverse};
