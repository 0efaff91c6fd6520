//! The decoder's answers to a stream, compared.
use apv_base::{Exit, Slot};
use apv_dec::run_dec;
use apv_files::MemoryFiles;
use apv_workers::NoGate;
use std::alloc::{AllocError, Global};
use std::thread::Threads;

/// The words of the two runs over a stream, of which the first has one worker and the second three.
#[derive(Drop)]
struct Pair {
    one: Vec<String>,
    three: Vec<String>,
}

/// Words of the decoder, and then others.
fn words_of(alloc: Global, words: &[&str]) -> Result<Vec<String>, AllocError> {
    let mut owned = Vec::new(alloc);
    for word in [
        "--input=in",
        "--output=out",
        "--metadata=payloads",
        "--select=all",
    ] {
        owned.push(String::from_str(alloc, word)?)?;
    }
    for word in words {
        owned.push(String::from_str(alloc, word)?)?;
    }
    Ok(owned)
}

/// Runs the decoder over a stream. It fails where there is no memory for the files.
fn decode<R: Threads + Sync>(
    alloc: Global,
    rt: &R,
    words: &[String],
    stream: &[u8],
) -> Result<(Exit, MemoryFiles), AllocError> {
    let mut files = MemoryFiles::new(alloc);
    files.hold("in", stream)?;
    let exit = run_dec(alloc, rt, words, &mut files, &NoGate);
    Ok((exit, files))
}

impl Pair {
    /// The answer to a stream, where both runs have it and leave the same in both outputs and on the console.
    fn answer_to<R: Threads + Sync>(
        &self,
        alloc: Global,
        rt: &R,
        stream: &[u8],
    ) -> Result<Option<Exit>, AllocError> {
        let (exit, files) = decode(alloc, rt, &self.one, stream)?;
        let (other, others) = decode(alloc, rt, &self.three, stream)?;
        let same = exit == other
            && files.written(Slot::Output) == others.written(Slot::Output)
            && files.written(Slot::MetaOut) == others.written(Slot::MetaOut)
            && files.written(Slot::Console) == others.written(Slot::Console);
        Ok(same.then_some(exit))
    }
}

/// The words of all runs: those that judge by the rules of the format, and those that judge strictly too.
#[derive(Drop)]
pub struct Comparison {
    plain: Pair,
    strict: Pair,
}

impl Comparison {
    /// The words.
    pub fn new(alloc: Global) -> Result<Comparison, AllocError> {
        Ok(Comparison {
            plain: Pair {
                one: words_of(alloc, &["--threads=1"])?,
                three: words_of(alloc, &["--threads=3"])?,
            },
            strict: Pair {
                one: words_of(alloc, &["--threads=1", "--strict"])?,
                three: words_of(alloc, &["--threads=3", "--strict"])?,
            },
        })
    }

    /// The decoder's answer to the stream of that number, where one and three workers have the same and leave the same
    /// outputs. Every other stream is judged strictly too.
    pub fn answer_to<R: Threads + Sync>(
        &self,
        alloc: Global,
        rt: &R,
        number: u64,
        stream: &[u8],
    ) -> Result<Option<Exit>, AllocError> {
        if number % 2 == 0 {
            self.plain.answer_to(alloc, rt, stream)
        } else {
            self.strict.answer_to(alloc, rt, stream)
        }
    }
}
