//! The words of the command line.
use apv_program::words_of;
use std::alloc::{Alloc, Global};
use std::env::Env;
use std::io;
use std::io::ErrorKind;

/// How the program is called.
const USAGE: &str = "usage: apv_mutate SEED COUNT [FIRST]";

/// Which streams are changed: those with the numbers from `first` to before `end`, as the seed says.
#[derive(Clone, Copy, PartialEq, Eq, Debug)]
pub struct Command {
    pub seed: u64,
    pub first: u64,
    pub end: u64,
}

impl Command {
    /// The command that words say after the program's name: SEED, COUNT and, where it isn't 0, FIRST. None where a word is
    /// missing, no number or one too many, or where a number of a stream has no room.
    fn of_words(words: &[String]) -> Option<Command> {
        let (seed, count, first) = match words {
            [seed, count] => (number(seed)?, number(count)?, 0),
            [seed, count, first] => (number(seed)?, number(count)?, number(first)?),
            _ => return None,
        };
        Some(Command {
            seed,
            first,
            end: first.checked_add(count)?,
        })
    }

    /// The command of the command line. `InvalidInput` where it is none.
    pub fn of_args<R: Env + Alloc<A = Global>>(rt: &R) -> io::Result<Command> {
        let words = words_of(rt)?;
        match Command::of_words(words.as_slice()) {
            Some(command) => Ok(command),
            None => Err(io::Error::new(ErrorKind::InvalidInput, USAGE)),
        }
    }
}

/// The number that a word is, where it is one.
fn number(word: &str) -> Option<u64> {
    match word.parse::<u64>() {
        Ok(number) => Some(number),
        Err(_) => None,
    }
}
