//! The decoder: from the words of a command line to the answer, and the next access unit of a file.
#![tactic(auto)]

mod decode;
mod exits;
mod formats;
mod judge;
mod metadata;
mod pictures;
mod run;
mod unit;

pub use apv_words::{DecSettings, settings_dec};
pub use run::run_dec;
pub use unit::{UnitRead, next_unit};

#[cfg(test)]
mod unit_tests;
