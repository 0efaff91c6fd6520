//! Words, samples and runs, of which the tests are made.
ghost use Rattle.apv_files.specs.Memory.{memory_view};
ghost use Rattle.apv_files.specs.SlotView.{AllClosed};

use apv_base::{Break, Exit, Place, Rule, Slot, VideoBreak, VideoRule};
use apv_dec::run_dec;
use apv_enc::run_enc;
use apv_files::MemoryFiles;
use apv_workers::NoGate;
use std::alloc::{AllocError, Global};
use std::thread::Threads;

/// Words for planar pictures of 16x16 samples, 4:0:0 and 10 bits.
pub(crate) const GREY: &[&str] = &[
    "--input=in",
    "--output=out",
    "--width=16",
    "--height=16",
    "--chroma=400",
    "--depth=10",
];

/// Adds words to others.
fn add_words(alloc: Global, words: &mut Vec<String>, some: &[&str]) -> Result<(), AllocError> {
    for word in some {
        words.push(String::from_str(alloc, word)?)?;
    }
    Ok(())
}

/// Words, one after another.
pub(crate) fn words_of(alloc: Global, words: &[&[&str]]) -> Result<Vec<String>, AllocError> {
    let mut owned = Vec::new(alloc);
    for some in words {
        add_words(alloc, &mut owned, some)?;
    }
    Ok(owned)
}

/// Words, and then one more.
pub(crate) fn words_and(
    alloc: Global,
    words: &[&str],
    word: &str,
) -> Result<Vec<String>, AllocError> {
    let mut all = Vec::new(alloc);
    add_words(alloc, &mut all, words)?;
    all.push(String::from_str(alloc, word)?)?;
    Ok(all)
}

/// Words, and then others.
pub(crate) fn both_words(
    alloc: Global,
    first: &[&str],
    later: &[&str],
) -> Result<Vec<String>, AllocError> {
    let mut words = Vec::new(alloc);
    add_words(alloc, &mut words, first)?;
    add_words(alloc, &mut words, later)?;
    Ok(words)
}

/// Samples in runs, each of one value as often as it says.
pub(crate) type Runs = &'static [(usize, u16)];

/// Samples in runs, each in two bytes, the low one first.
pub(crate) fn samples(alloc: Global, runs: &[(usize, u16)]) -> Result<Vec<u8>, AllocError> {
    let mut bytes = Vec::new(alloc);
    for (count, value) in runs {
        for _ in 0..*count {
            bytes.extend_from_slice(&value.to_le_bytes())?;
        }
    }
    Ok(bytes)
}

/// Bytes, n times.
pub(crate) fn copies(alloc: Global, bytes: &[u8], n: usize) -> Result<Vec<u8>, AllocError> {
    let mut all = Vec::new(alloc);
    for _ in 0..n {
        all.extend_from_slice(bytes)?;
    }
    Ok(all)
}

/// Bytes, one piece after another.
pub(crate) fn joined(alloc: Global, pieces: &[&[u8]]) -> Result<Vec<u8>, AllocError> {
    let mut all = Vec::new(alloc);
    for piece in pieces {
        all.extend_from_slice(piece)?;
    }
    Ok(all)
}

/// What a run of the encoder leaves: its answer, what is in `Output`, and the line on the console.
#[derive(Drop)]
pub(crate) struct Encoded {
    pub exit: Exit,
    pub units: Vec<u8>,
    pub line: Vec<u8>,
}

/// A run of the encoder over the file `in` of pictures, and another one, `other`, that its words may name.
pub(crate) fn encode<R: Threads + Sync>(
    alloc: Global,
    rt: &R,
    words: &[String],
    pictures: &[u8],
    other: &[u8],
) -> Result<Encoded, AllocError> {
    let mut files = MemoryFiles::new(alloc);
    files.hold("in", pictures)?;
    files.hold("other", other)?;
    let exit = run_enc(alloc, rt, words, &mut files, &NoGate);
    let units = copies(alloc, files.written(Slot::Output), 1)?;
    let line = copies(alloc, files.written(Slot::Console), 1)?;
    Ok(Encoded { exit, units, line })
}

/// What a run of the decoder leaves: its answer, what is in `Output` and in `MetaOut`, how many bytes of `Input` are left,
/// and the line on the console.
#[derive(Drop)]
pub(crate) struct DecoderRun {
    pub exit: Exit,
    pub pictures: Vec<u8>,
    pub payloads: Vec<u8>,
    pub left: usize,
    pub line: Vec<u8>,
}

/// A run of the decoder over files, with words that are made.
fn run_decoder<R: Threads + Sync>(
    alloc: Global,
    rt: &R,
    words: &[String],
    files: &mut MemoryFiles,
) -> Result<DecoderRun, AllocError>
    requires { AllClosed (memory_view files.old) }
{
    let exit = run_dec(alloc, rt, words, files, &NoGate);
    Ok(DecoderRun {
        exit,
        pictures: copies(alloc, files.written(Slot::Output), 1)?,
        payloads: copies(alloc, files.written(Slot::MetaOut), 1)?,
        left: files.left(Slot::Input).len(),
        line: copies(alloc, files.written(Slot::Console), 1)?,
    })
}

/// A run of the decoder over files.
pub(crate) fn decode_files<R: Threads + Sync>(
    alloc: Global,
    rt: &R,
    words: &[&[&str]],
    files: &mut MemoryFiles,
) -> Result<DecoderRun, AllocError>
    requires { AllClosed (memory_view files.old) }
{
    run_decoder(alloc, rt, &words_of(alloc, words)?, files)
}

/// A run of the decoder over the file `in`, with words and one more.
pub(crate) fn decode_with<R: Threads + Sync>(
    alloc: Global,
    rt: &R,
    words: &[&str],
    word: &str,
    file: &[u8],
) -> Result<DecoderRun, AllocError> {
    let mut files = MemoryFiles::new(alloc);
    files.hold("in", file)?;
    run_decoder(alloc, rt, &words_and(alloc, words, word)?, &mut files)
}

/// A run of the decoder over the file `in`.
pub(crate) fn decode<R: Threads + Sync>(
    alloc: Global,
    rt: &R,
    words: &[&[&str]],
    file: &[u8],
) -> Result<DecoderRun, AllocError> {
    let mut files = MemoryFiles::new(alloc);
    files.hold("in", file)?;
    decode_files(alloc, rt, words, &mut files)
}

/// How a run of the encoder ends: with an answer, or at a frame of a slot whose file of pictures breaks a rule.
#[derive(Clone, Copy, Debug)]
pub(crate) enum End {
    With(Exit),
    Video(Slot, VideoRule, u32),
}

/// The answer of a run that ends so.
pub(crate) fn exit_of(end: End) -> Exit {
    match end {
        End::With(exit) => exit,
        End::Video(slot, rule, frame) => Exit::BadVideo(VideoBreak { slot, rule, frame }),
    }
}

/// The words of a decoder for both outputs.
pub(crate) const BOTH: &[&str] = &["--input", "in", "--output", "out", "--metadata", "m"];

/// The answer to a rule that a PBU of a unit breaks, in its first tile and component where it has some.
pub(crate) fn broken(rule: Rule, unit: u32, pbu: u32) -> Exit {
    let place = Place {
        unit,
        pbu,
        tile: 0,
        comp: 0,
    };
    Exit::Broken(Break { rule, place })
}

/// The line of that answer.
pub(crate) fn broken_line(
    alloc: Global,
    rule: Rule,
    unit: u32,
    pbu: u32,
) -> Result<Vec<u8>, AllocError> {
    let line = format!(in alloc;
        "broken {rule:?} at unit {unit}, pbu {pbu}, tile 0, component 0\n"
    )?;
    line.as_bytes().to_vec(alloc)
}

/// The pictures of the frames that a decoder selects in a file, judged strictly, where it decodes to its end.
pub(crate) fn selected<R: Threads + Sync>(
    alloc: Global,
    rt: &R,
    file: &[u8],
    select: &str,
) -> Result<Option<Vec<u8>>, AllocError> {
    let words = &[
        "--input=in",
        "--output=out",
        "--strict",
        "--threads=2",
        "--select",
    ];
    let run = decode_with(alloc, rt, words, select, file)?;
    if run.exit != Exit::Done {
        return Ok(None);
    }
    Ok(Some(copies(alloc, &run.pictures, 1)?))
}

/// The payloads of a file, where it decodes to its end.
pub(crate) fn payloads<R: Threads + Sync>(
    alloc: Global,
    rt: &R,
    file: &[u8],
) -> Result<Option<Vec<u8>>, AllocError> {
    let run = decode(alloc, rt, &[&["--input=in", "--metadata=m"]], file)?;
    if run.exit != Exit::Done {
        return Ok(None);
    }
    Ok(Some(copies(alloc, &run.payloads, 1)?))
}

/// The pictures of the primary frames of a file, judged strictly, where it decodes to its end.
pub(crate) fn decoded<R: Threads + Sync>(
    alloc: Global,
    rt: &R,
    file: &[u8],
) -> Result<Option<Vec<u8>>, AllocError> {
    selected(alloc, rt, file, "primary")
}
