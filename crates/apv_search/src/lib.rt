//! The QP of an access unit: which are tried, and which is chosen.
#![tactic(auto)]

mod choice;
mod laws;
mod search;

pub use choice::{Chosen, QpRange, TooLarge};
pub use laws::{one_choice, one_size};
pub use search::least_qp;

#[cfg(test)]
mod tests;
