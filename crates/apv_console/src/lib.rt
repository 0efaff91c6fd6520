//! The line that a program writes to the console, which says how its run ended or reports what it found.
#![tactic(auto)]

mod line;
mod names;
mod report;
#[cfg(test)]
mod tests;
mod write;

pub use line::line_of;
pub use report::{Report, report_line_of};
pub use write::{tell, tell_report};
