//! Streams that the encoder makes, of which the changed ones are made.
use crate::change::Changes;
use apv_base::{Exit, Slot};
use apv_enc::run_enc;
use apv_files::MemoryFiles;
use apv_workers::NoGate;
use std::alloc::{AllocError, Global};
use std::io;
use std::io::ErrorKind;
use std::thread::Threads;

/// How a stream is made: the samples of two pictures of all components, and the words of the encoder for them.
#[derive(Clone, Copy)]
struct Recipe {
    samples: u32,
    words: &'static [&'static str],
}

const RECIPES: [Recipe; 6] = [
    Recipe {
        samples: 512,
        words: &[
            "--width=16",
            "--height=16",
            "--chroma=400",
            "--depth=10",
            "--qp=0",
        ],
    },
    Recipe {
        samples: 512,
        words: &[
            "--width=16",
            "--height=16",
            "--chroma=400",
            "--depth=10",
            "--qp=30",
            "--tile-sizes",
        ],
    },
    Recipe {
        samples: 1296,
        words: &[
            "--width=18",
            "--height=18",
            "--chroma=422",
            "--depth=10",
            "--qp=20",
            "--au-info",
            "--filler=5",
        ],
    },
    Recipe {
        samples: 2048,
        words: &[
            "--width=16",
            "--height=16",
            "--chroma=4444",
            "--depth=12",
            "--qp=24",
            "--colour=9,16,9,0",
        ],
    },
    Recipe {
        samples: 1536,
        words: &[
            "--width=16",
            "--height=16",
            "--chroma=444",
            "--depth=12",
            "--qp=40",
            "--alpha=alpha",
            "--metadata=payloads",
        ],
    },
    Recipe {
        samples: 16384,
        words: &[
            "--width=512",
            "--height=16",
            "--chroma=400",
            "--depth=10",
            "--qp=50",
            "--tile-width=16",
        ],
    },
];

/// Two payloads: a content light level, and one of type 170.
const PAYLOADS: &[u8] = b"\x06\x04\x03\xE8\x01\x90\xAA\x02\x05\x06";

/// The words of a recipe, with those of the files.
fn words_of(alloc: Global, recipe: &[&str]) -> Result<Vec<String>, AllocError> {
    let mut words = Vec::new(alloc);
    for word in ["--input=in", "--output=out"] {
        words.push(String::from_str(alloc, word)?)?;
    }
    for word in recipe {
        words.push(String::from_str(alloc, word)?)?;
    }
    Ok(words)
}

/// n samples of 300 to 899 in two bytes each, the low one first, in waves.
fn picture(alloc: Global, n: u32) -> Result<Vec<u8>, AllocError> {
    let mut bytes = Vec::new(alloc);
    for place in 0..n {
        let wave = place % 97 * (place % 13) + place / 16 % 7 * 40;
        let sample = (300 + wave % 600) as u16;
        bytes.extend_from_slice(&sample.to_le_bytes())?;
    }
    Ok(bytes)
}

/// The stream of a recipe, of two access units. `InvalidData` where the encoder refuses it.
fn encoded<R: Threads + Sync>(alloc: Global, rt: &R, recipe: &Recipe) -> io::Result<Vec<u8>> {
    let words = words_of(alloc, recipe.words)?;
    let mut files = MemoryFiles::new(alloc);
    files.hold("in", &picture(alloc, recipe.samples)?)?;
    files.hold("alpha", &picture(alloc, 512)?)?;
    files.hold("payloads", PAYLOADS)?;
    match run_enc(alloc, rt, &words, &mut files, &NoGate) {
        Exit::Done => Ok(files.written(Slot::Output).to_vec(alloc)?),
        Exit::Memory => Err(io::Error::from(ErrorKind::OutOfMemory)),
        _ => Err(io::Error::from(ErrorKind::InvalidData)),
    }
}

/// Streams as the encoder writes them.
#[derive(Drop)]
pub struct Samples {
    streams: Vec<Vec<u8>>,
}

impl Samples {
    /// Encodes the samples.
    pub fn new<R: Threads + Sync>(alloc: Global, rt: &R) -> io::Result<Samples> {
        let mut streams = Vec::new(alloc);
        for recipe in RECIPES {
            streams.push(encoded(alloc, rt, &recipe)?)?;
        }
        Ok(Samples { streams })
    }

    /// The sample at an index, counted round and round.
    fn at(&self, index: usize) -> &[u8] {
        match self.streams.get(index % self.streams.len().max(1)) {
            Some(stream) => stream.as_slice(),
            None => &[],
        }
    }

    /// The changed stream of that number of a seed.
    pub fn changed(&self, alloc: Global, seed: u64, number: u64) -> Result<Vec<u8>, AllocError> {
        let mut changes = Changes::new(seed, number);
        let mut stream = self.at(changes.below(64)).to_vec(alloc)?;
        let other = self.at(changes.below(64));
        for _ in 0..changes.below(3) + 1 {
            changes.apply(alloc, &mut stream, other)?;
        }
        Ok(stream)
    }
}
