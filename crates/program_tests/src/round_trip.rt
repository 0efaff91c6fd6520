//! What the encoder writes, decoded: it is what the encoder says that a decoder will make of it.
use crate::runs::{GREY, copies, decoded, samples, words_of};
use apv_base::{Exit, Slot};
use apv_enc::run_enc;
use apv_files::MemoryFiles;
use apv_workers::NoGate;
use std::alloc::{AllocError, Global};
use std::test::Fail;
use std::thread::Threads;

/// The number of samples after which the waves repeat.
const PERIOD: usize = 97 * 61;

/// One period of samples that go up and down, each at most the maximum: 2 to the power of 10, 11 or 12, less 1.
fn one_period(alloc: Global, maximum: u16) -> Result<Vec<u8>, AllocError> {
    let mut bytes = Vec::new(alloc);
    for place in 0..PERIOD {
        let value = (place % 97 * 41 + place / 97 * 17) as u16 & maximum;
        bytes.extend_from_slice(&value.to_le_bytes())?;
    }
    Ok(bytes)
}

/// Samples that go up and down, each at most the maximum: n bytes of them.
fn waves(alloc: Global, n: usize, maximum: u16) -> Result<Vec<u8>, AllocError> {
    let period = one_period(alloc, maximum)?;
    let mut bytes = copies(alloc, &period, n / (2 * PERIOD) + 1)?;
    bytes.truncate(n);
    Ok(bytes)
}

/// The access units that the encoder writes of pictures, where it encodes all of them and they decode to what it writes
/// as their reconstruction.
fn round_trip<R: Threads + Sync>(
    alloc: Global,
    rt: &R,
    pictures: &[u8],
    words: &[String],
) -> Result<Option<Vec<u8>>, AllocError> {
    let mut files = MemoryFiles::new(alloc);
    files.hold("in", pictures)?;
    if run_enc(alloc, rt, words, &mut files, &NoGate) != Exit::Done {
        return Ok(None);
    }
    let Some(made) = decoded(alloc, rt, files.written(Slot::Output))? else {
        return Ok(None);
    };
    if made.as_slice() != files.written(Slot::Recon) {
        return Ok(None);
    }
    let mut units = Vec::new(alloc);
    units.extend_from_slice(files.written(Slot::Output))?;
    Ok(Some(units))
}

/// The words of a format, the number of bytes of three pictures of it, and the maximum of a sample.
const FORMATS: [(&[&str], usize, u16); 5] = [
    (
        &["--width=33", "--height=17", "--chroma=400", "--depth=10"],
        2 * 3 * 33 * 17,
        1023,
    ),
    (
        &[
            "--width=34",
            "--height=18",
            "--chroma=422",
            "--depth=10",
            "--qp-offset-1=-9",
        ],
        2 * 3 * 2 * 34 * 18,
        1023,
    ),
    (
        &[
            "--width=272",
            "--height=260",
            "--chroma=422",
            "--depth=12",
            "--tile-height=8",
        ],
        2 * 3 * 2 * 272 * 260,
        4095,
    ),
    (
        &[
            "--width=16",
            "--height=40",
            "--chroma=444",
            "--depth=11",
            "--profile=444-12",
        ],
        2 * 3 * 3 * 16 * 40,
        2047,
    ),
    (
        &[
            "--width=1",
            "--height=1",
            "--chroma=4444",
            "--depth=10",
            "--qp-offset-3=30",
        ],
        2 * 3 * 4,
        1023,
    ),
];

/// The words for the files.
const FILES: &[&str] = &["--input=in", "--output=out", "--recon=r", "--qp=27"];

#[test]
fn decodes_to_the_reconstruction(rt: HostRuntime) -> Result<(), Fail> {
    for (number, (format, len, maximum)) in FORMATS.iter().enumerate() {
        let words = words_of(rt.alloc(), &[FILES, format])?;
        let pictures = waves(rt.alloc(), *len, *maximum)?;
        let units = round_trip(rt.alloc(), &rt, &pictures, &words)?;
        assert!(rt; units.is_some(), "format {number}");
    }
    Ok(())
}

#[test]
fn writes_the_same_for_any_number_of_workers(rt: HostRuntime) -> Result<(), Fail> {
    let (format, len, maximum) = FORMATS[2];
    let pictures = waves(rt.alloc(), len, maximum)?;
    let mut first: Option<Vec<u8>> = None;
    for threads in ["--threads=1", "--threads=2", "--threads=3", "--threads=8"] {
        let mut words = words_of(rt.alloc(), &[FILES, format])?;
        words.push(String::from_str(rt.alloc(), threads)?)?;
        let units = round_trip(rt.alloc(), &rt, &pictures, &words)?.ok_or("access units")?;
        if let Some(one) = &first {
            assert!(rt; units == *one, "{threads}");
        } else {
            first = Some(units);
        }
    }
    Ok(())
}

/// A file of QP offsets, a QP, the QP of the one tile (`tile_qp`), the size of the access unit, and each sample that it
/// decodes to, for a picture of the samples 612.
const OFFSETS: [(&[u8], &str, u8, usize, u16); 3] = [
    (b"\xFD", "--qp=22", 0x13, 59, 612),
    (b"\xB5", "--qp=22", 0x00, 60, 612),
    (b"\x4B", "--qp=60", 0x3F, 58, 626),
];

#[test]
fn offsets_of_tiles(rt: HostRuntime) -> Result<(), Fail> {
    for (map, qp, tile_qp, size, sample) in OFFSETS {
        let mut words = words_of(rt.alloc(), &[GREY, &["--tile-qp=t"]])?;
        words.push(String::from_str(rt.alloc(), qp)?)?;
        let mut files = MemoryFiles::new(rt.alloc());
        files.hold("in", &samples(rt.alloc(), &[(256, 612)])?)?;
        files.hold("t", map)?;
        let exit = run_enc(rt.alloc(), &rt, &words, &mut files, &NoGate);
        assert_eq!(rt; exit, Exit::Done);
        let unit = files.written(Slot::Output);
        assert_eq!(rt; unit.get(48).copied(), Some(tile_qp));
        assert_eq!(rt; unit.len(), size);
        let made = decoded(rt.alloc(), &rt, unit)?.ok_or("pictures")?;
        let wanted = samples(rt.alloc(), &[(256, sample)])?;
        assert_eq!(rt; made.as_slice(), wanted.as_slice());
    }
    Ok(())
}

/// The words for a Y4M file.
const VIDEO: &[&str] = &[
    "--input=in",
    "--output=out",
    "--recon=r",
    "--form=y4m",
    "--qp=20",
];

/// A Y4M file of n pictures of 1920x1080 samples, 4:2:2 and 10 bits.
fn video(alloc: Global, n: usize) -> Result<Vec<u8>, AllocError> {
    let mut bytes = Vec::new(alloc);
    bytes.extend_from_slice(b"YUV4MPEG2 W1920 H1080 F25:1 Ip A1:1 C422p10 XYSCSS=422P10\n")?;
    let picture = waves(alloc, 2 * 2 * 1920 * 1080, 1023)?;
    for _ in 0..n {
        bytes.extend_from_slice(b"FRAME\n")?;
        bytes.extend_from_slice(&picture)?;
    }
    Ok(bytes)
}

#[test]
fn a_video_of_40_tiles(rt: HostRuntime) -> Result<(), Fail> {
    let pictures = video(rt.alloc(), 5)?;
    let mut first: Option<Vec<u8>> = None;
    for threads in ["--threads=1", "--threads=8"] {
        let mut words = words_of(rt.alloc(), &[VIDEO])?;
        words.push(String::from_str(rt.alloc(), threads)?)?;
        let units = round_trip(rt.alloc(), &rt, &pictures, &words)?.ok_or("access units")?;
        if let Some(one) = &first {
            assert!(rt; units == *one, "{threads}");
        } else {
            let made = decoded(rt.alloc(), &rt, &units)?.ok_or("pictures")?;
            assert_eq!(rt; made.len(), 41_472_000);
            first = Some(units);
        }
    }
    Ok(())
}
