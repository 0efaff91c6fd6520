//! Bits of a byte slice, read and written from the most significant bit of each byte on (`u(n)` of RFC 9924).
#![tactic(auto)]

mod bytes;
mod field;
mod packed;
mod reader;
mod window_bits;
mod writer;

pub use bytes::{be16, be32};
pub use packed::Word;
pub use reader::{BitReader, Ended, NotZero};
pub use window_bits::Window;
pub use writer::BitWriter;

#[cfg(test)]
mod tests;
