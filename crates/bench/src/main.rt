//! Measures the calls in which coding and decoding spend their time.
//!
//! `bench WHAT ROUNDS` takes ROUNDS rounds through each call of a part, and prints a checksum of
//! what it returned, which is the same in each run. `bench WHAT ROUNDS BATCHES` does so BATCHES
//! times, and prints also a round's part of the least time. WHAT is `scan`, `quant`, `transform`,
//! `grid`, `structure`, `tile` or `video`, or `all` for one part after the other.
//!
//! Other words, and more rounds than there is room for, are a line on standard error and status 2.
#![tactic(auto)]

mod command;
mod grid;
mod noise;
mod plan;
mod quant;
mod scan;
mod structure;
mod tile;
mod transform;
mod video;

use command::Command;
use std::io;
use std::io::ErrorKind;
use std::process::ExitCode;

/// Does what the words of the command line say. Fails where they are no command, where memory runs
/// out, and where the clock or the output fails.
fn run(rt: &HostRuntime) -> io::Result<()> {
    Command::of_args(rt)?.run(rt)
}

fn main(rt: HostRuntime) -> ExitCode {
    let Err(error) = run(&rt) else {
        return ExitCode::SUCCESS;
    };
    let _ = eprintln!(&rt; "bench: {error}");
    match error.kind() {
        ErrorKind::InvalidInput => ExitCode::from(2),
        _ => ExitCode::FAILURE,
    }
}
