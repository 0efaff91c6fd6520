//! The words of the command line.
use crate::plan::Plan;
use crate::{grid, quant, scan, structure, tile, transform, video};
use std::io::ErrorKind;
use std::{env, io};

/// How the program is called.
const USAGE: &str =
    "usage: bench scan|quant|transform|grid|structure|tile|video|all ROUNDS [BATCHES]";

/// What is measured.
#[derive(Clone, Copy, PartialEq, Eq, Debug)]
enum What {
    Scan,
    Quant,
    Transform,
    Grid,
    Structure,
    Tile,
    Video,
    All,
}

impl What {
    /// The parts in the order in which `All` runs them.
    const PARTS: [What; 7] = [
        What::Scan,
        What::Quant,
        What::Transform,
        What::Grid,
        What::Structure,
        What::Tile,
        What::Video,
    ];

    /// What a word names.
    fn of_word(word: &str) -> Option<What> {
        match word {
            "scan" => Some(What::Scan),
            "quant" => Some(What::Quant),
            "transform" => Some(What::Transform),
            "grid" => Some(What::Grid),
            "structure" => Some(What::Structure),
            "tile" => Some(What::Tile),
            "video" => Some(What::Video),
            "all" => Some(What::All),
            _ => None,
        }
    }

    /// Runs the part, and nothing for `All`.
    fn run_part(self, rt: &HostRuntime, plan: Plan) -> io::Result<()> {
        match self {
            What::Scan => scan::run(rt, plan),
            What::Quant => quant::run(rt, plan),
            What::Transform => transform::run(rt, plan),
            What::Grid => grid::run(rt, plan),
            What::Structure => structure::run(rt, plan),
            What::Tile => tile::run(rt, plan),
            What::Video => video::run(rt, plan),
            What::All => Ok(()),
        }
    }
}

/// What is measured, and how often.
#[derive(Clone, Copy, PartialEq, Eq, Debug)]
pub struct Command {
    what: What,
    plan: Plan,
}

impl Command {
    /// The command that words say after the program's name: WHAT, ROUNDS and, where times are
    /// wanted, BATCHES. None where a word is missing, unknown, no number above 0 or one too many.
    fn of_words(words: &[String]) -> Option<Command> {
        let (what, rounds, batches) = match words {
            [what, rounds] => (what, rounds, None),
            [what, rounds, batches] => (what, rounds, Some(count(batches)?)),
            _ => return None,
        };
        Some(Command {
            what: What::of_word(what)?,
            plan: Plan {
                rounds: count(rounds)?,
                batches,
            },
        })
    }

    /// The command of the command line. `InvalidInput` where it is none.
    pub fn of_args(rt: &HostRuntime) -> io::Result<Command> {
        let mut words = Vec::new(rt.alloc());
        for word in env::args(rt)?.skip(1) {
            words.push(word)?;
        }
        match Command::of_words(words.as_slice()) {
            Some(command) => Ok(command),
            None => Err(io::Error::new(ErrorKind::InvalidInput, USAGE)),
        }
    }

    /// Measures. `InvalidInput` where there are more rounds than a part has room for.
    pub fn run(self, rt: &HostRuntime) -> io::Result<()> {
        if self.what != What::All {
            return self.what.run_part(rt, self.plan);
        }
        for part in What::PARTS {
            part.run_part(rt, self.plan)?;
        }
        Ok(())
    }
}

/// The number that a word is, where it is one above 0.
fn count(word: &str) -> Option<u32> {
    match word.parse::<u32>() {
        Ok(count) if count > 0 => Some(count),
        _ => None,
    }
}
