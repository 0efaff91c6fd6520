//! Tests of the two programs' top calls over files in memory: of the decoder, of the encoder, and of both together. The
//! only other code are these calls over files that never fail by a device.
#![tactic(auto)]

mod sure;

pub use sure::{decode_surely, encode_surely};

#[cfg(test)]
mod decoder;
#[cfg(test)]
mod decoder_faults;
#[cfg(test)]
mod decoder_words;
#[cfg(test)]
mod each_call_fails;
#[cfg(test)]
mod encoder;
#[cfg(test)]
mod faults;
#[cfg(test)]
mod further;
#[cfg(test)]
mod gate;
#[cfg(test)]
mod generated;
#[cfg(test)]
mod hostile;
#[cfg(test)]
mod limits;
#[cfg(test)]
mod round_trip;
#[cfg(test)]
mod runs;
#[cfg(test)]
mod tiles;
#[cfg(test)]
mod units;
#[cfg(test)]
mod y4m;
