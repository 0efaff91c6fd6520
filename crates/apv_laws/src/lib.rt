//! Laws of the definitions that rest on those of blocks.
#![tactic(auto)]

pub mod laws;
