//! The code `h(v)` of RFC 9924, in which the runs, the levels and the differences of DC levels of a block are written.
#![tactic(auto)]

mod decode;
mod reading;
mod writing;

pub use decode::decode_h;
pub use reading::{Read, read_h};
pub use writing::{encode_h, len_h, put_h};

#[cfg(test)]
mod tests;
