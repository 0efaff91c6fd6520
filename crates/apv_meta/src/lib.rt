//! Metadata payloads (`metadata_payload`).
#![tactic(auto)]

mod colour_volume;
mod light_level;
mod numbers;
mod payload;
mod payloads;
mod user_data;
mod write;

pub use colour_volume::{Mdcv, put_mdcv, read_mdcv};
pub use light_level::{Cll, put_cll, read_cll};
pub use payload::{Payload, next_payload};
pub use payloads::Payloads;
pub use user_data::{T35, User, read_t35, read_user};
pub use write::{len_payload, put_payload};

#[cfg(test)]
mod tests;
