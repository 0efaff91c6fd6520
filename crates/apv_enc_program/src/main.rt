//! The encoder's program: the words, the files and the exit status.
#![tactic(auto)]

use apv_base::Exit;
use apv_enc::run_enc;
use apv_files::HostFiles;
use apv_program::{status_without_words, words_of};
use apv_workers::NoGate;
use std::process::ExitCode;

fn main(rt: HostRuntime) -> ExitCode {
    let words = match words_of(&rt) {
        Ok(words) => words,
        Err(error) => return ExitCode::from(status_without_words(&rt, error.kind())),
    };
    let Ok(handle) = rt.clone() else {
        return ExitCode::from(Exit::Memory.status());
    };
    let mut files = HostFiles::new(handle, rt.alloc());
    let exit = run_enc(rt.alloc(), &rt, &words, &mut files, &NoGate);
    ExitCode::from(exit.status())
}
