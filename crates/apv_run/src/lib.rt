//! A run over named files: files are opened by the names that settings give to slots, and each answer has its cause.
#![tactic(auto)]

mod exits;
mod opening;

pub use exits::{failed, open_exit, read_exit, write_exit};
pub use opening::open_slot;
