//! Decodes changed streams by one and by three workers, and compares what both make of them.
//!
//! `apv_mutate SEED COUNT` changes COUNT streams, numbered from 0, as SEED says, and runs the decoder over each of them
//! twice. It ends with status 0, and a line that counts the answers, where no answer and no output differs. At the first
//! difference it names the stream, and ends with status 1. `apv_mutate SEED COUNT FIRST` numbers the streams from FIRST
//! on, so that one of them can be tried alone.
//!
//! Other words are a line on standard error and status 2.
#![tactic(auto)]

mod change;
mod command;
mod compare;
mod counts;
mod samples;

use command::Command;
use compare::Comparison;
use counts::Counts;
use samples::Samples;
use std::alloc::{Alloc, Global};
use std::env::Env;
use std::io;
use std::io::{Eprint, ErrorKind, Print};
use std::process::ExitCode;
use std::thread::Threads;

/// Changes and decodes the streams. Fails where the words are no command, where memory runs out, where the output fails,
/// and at the first difference.
fn run<R: Env + Alloc<A = Global> + Print + Eprint + Threads + Sync>(rt: &R) -> io::Result<()> {
    let command = Command::of_args(rt)?;
    let samples = Samples::new(rt.alloc(), rt)?;
    let comparison = Comparison::new(rt.alloc())?;
    let mut counts = Counts::default();
    for number in command.first..command.end {
        let stream = samples.changed(rt.alloc(), command.seed, number)?;
        match comparison.answer_to(rt.alloc(), rt, number, &stream)? {
            Some(exit) => counts.add(exit),
            None => {
                let seed = command.seed;
                eprintln!(rt; "seed {seed}, stream {number}: the answers or the outputs differ")?;
                return Err(io::Error::from(ErrorKind::InvalidData));
            }
        }
    }
    println!(rt; "{counts}")
}

fn main(rt: HostRuntime) -> ExitCode {
    let Err(error) = run(&rt) else {
        return ExitCode::SUCCESS;
    };
    let _ = eprintln!(&rt; "apv_mutate: {error}");
    match error.kind() {
        ErrorKind::InvalidInput => ExitCode::from(2),
        _ => ExitCode::FAILURE,
    }
}
