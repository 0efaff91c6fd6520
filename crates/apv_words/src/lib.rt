//! The words of a command line: which are accepted, which are refused and why, by one table of
//! options for each program.
#![tactic(auto)]

mod cutting;
mod decoder;
mod encoder;
mod faults;
mod given;
pub mod laws;
mod reading;
mod table;
mod tables;
pub mod values;
mod word;

pub use cutting::{Given, cut};
pub use decoder::{DecSettings, settings_dec};
pub use encoder::{EncSettings, settings_enc};
pub use reading::{Options, after_program, read};
pub use table::{Bounds, Condition, Kind, OptRow, Requirement};
pub use tables::{
    dec_options, edit_cut_options, edit_join_options, edit_list_options, edit_meta_options,
    enc_options,
};

#[cfg(test)]
mod tests;
