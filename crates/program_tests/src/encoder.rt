//! Runs of the encoder: worked pictures, each with its answer, its access units and its line on the console.
use crate::runs::{End, GREY, Runs, both_words, copies, encode, exit_of, samples, words_of};
use crate::units::{CUT_UNIT, GREY_UNIT, LIGHT_UNIT};
use apv_base::{Exit, Limit, Opt, Slot, UsageKind, VideoRule};
use apv_enc::run_enc;
use apv_files::MemoryFiles;
use apv_workers::NoGate;
use std::alloc::{AllocError, Global};
use std::test::Fail;
use std::thread::Threads;

/// The access unit of a picture of 16x16 samples of 4095, 4:2:2 and 12 bits, at QP 0, after its size: each block has
/// the one level 26202.
const WHITE_UNIT: &[u8] =
    b"\x00\x00\x00\x53\x61\x50\x76\x31\x00\x00\x00\x4B\x01\x00\x01\x00\x2C\x7B\x00\x00\x00\x10\x00\x00\
    \x10\x24\x00\x00\x00\x00\x00\x40\x00\x04\x00\x00\x00\x00\x00\x2F\x00\x14\x00\x00\x00\x00\x00\x0B\
    \x00\x00\x00\x08\x00\x00\x00\x08\x00\x00\x00\x00\x40\x19\x8E\x88\x3E\x81\x07\xD4\x1F\x50\x7C\x40\
    \x19\x8E\x88\x3E\x81\x07\xC0\x40\x19\x8E\x88\x3E\x81\x07\xC0";

/// Pictures: samples of a few values, each as often as it says; the words; the answer, the access units that are
/// written, and the line.
struct Row {
    pictures: Runs,
    words: &'static [&'static str],
    end: End,
    output: &'static [u8],
    line: &'static str,
}

const ROWS: [Row; 14] = [
    Row {
        pictures: &[],
        words: &["--qp=0"],
        end: End::With(Exit::Done),
        output: b"",
        line: "",
    },
    Row {
        pictures: &[(256, 512)],
        words: &["--qp", "0"],
        end: End::With(Exit::Done),
        output: GREY_UNIT,
        line: "",
    },
    Row {
        pictures: &[(256, 512)],
        words: &["--qp=0", "--threads=64", "--profile=400-10", "--level=4.1"],
        end: End::With(Exit::Done),
        output: GREY_UNIT,
        line: "",
    },
    Row {
        pictures: &[(256, 612)],
        words: &["--qp=22"],
        end: End::With(Exit::Done),
        output: LIGHT_UNIT,
        line: "",
    },
    // The component doesn't exist.
    Row {
        pictures: &[(256, 612)],
        words: &["--qp=22", "--qp-offset-1=-75"],
        end: End::With(Exit::Done),
        output: LIGHT_UNIT,
        line: "",
    },
    // A sample too large in the second picture.
    Row {
        pictures: &[(256, 512), (100, 512), (1, 1024), (155, 512)],
        words: &["--qp=0"],
        end: End::Video(Slot::Input, VideoRule::Range, 1),
        output: GREY_UNIT,
        line: "bad video input: range at frame 1\n",
    },
    // 600 bytes.
    Row {
        pictures: &[(300, 512)],
        words: &["--qp=0"],
        end: End::Video(Slot::Input, VideoRule::Truncated, 1),
        output: GREY_UNIT,
        line: "bad video input: truncated at frame 1\n",
    },
    Row {
        pictures: &[(256, 512)],
        words: &["--qp=64"],
        end: End::Video(Slot::Input, VideoRule::Qp, 0),
        output: b"",
        line: "bad video input: qp at frame 0\n",
    },
    Row {
        pictures: &[(256, 512)],
        words: &["--qp=0", "--profile=422-10"],
        end: End::Video(Slot::Input, VideoRule::Profile, 0),
        output: b"",
        line: "bad video input: profile at frame 0\n",
    },
    Row {
        pictures: &[(256, 512)],
        words: &["--qp=76"],
        end: End::With(Exit::Usage(UsageKind::Value(Opt::Qp))),
        output: b"",
        line: "usage: value --qp\n",
    },
    Row {
        pictures: &[(256, 512)],
        words: &[],
        end: End::With(Exit::Usage(UsageKind::Missing(Opt::Qp))),
        output: b"",
        line: "usage: missing --qp\n",
    },
    Row {
        pictures: &[(256, 512)],
        words: &["--qp=1", "--form=y4m"],
        end: End::With(Exit::Usage(UsageKind::Clash(Opt::Width))),
        output: b"",
        line: "usage: clash --width\n",
    },
    Row {
        pictures: &[(256, 512)],
        words: &["--qp=1", "--recon=in"],
        end: End::With(Exit::Usage(UsageKind::SameName)),
        output: b"",
        line: "usage: same name\n",
    },
    // An option that isn't built.
    Row {
        pictures: &[(256, 512)],
        words: &["--qp=1", "--digest"],
        end: End::With(Exit::Usage(UsageKind::Words)),
        output: b"",
        line: "usage: words\n",
    },
];

/// Runs of the words with those of each row.
fn run_rows<R: Threads + Sync>(
    alloc: Global,
    rt: &R,
    words: &[&str],
    rows: &[Row],
) -> Result<Option<usize>, AllocError> {
    for (number, row) in rows.iter().enumerate() {
        let words = both_words(alloc, words, row.words)?;
        let pictures = samples(alloc, row.pictures)?;
        let run = encode(alloc, rt, &words, &pictures, &[])?;
        let line = run.line.as_slice() == row.line.as_bytes();
        if run.exit != exit_of(row.end) || run.units.as_slice() != row.output || !line {
            return Ok(Some(number));
        }
    }
    Ok(None)
}

#[test]
fn encodes_grey_pictures(rt: HostRuntime) -> Result<(), Fail> {
    let wrong = run_rows(rt.alloc(), &rt, GREY, &ROWS)?;
    assert_eq!(rt; wrong, None);
    Ok(())
}

/// Runs of other formats than that of `GREY`, with all their words.
const FORMATS: [Row; 7] = [
    Row {
        pictures: &[(648, 512)],
        words: &[
            "--width=18",
            "--height=18",
            "--chroma=422",
            "--depth=10",
            "--qp=0",
            "--tile-height=8",
        ],
        end: End::With(Exit::Done),
        output: CUT_UNIT,
        line: "",
    },
    Row {
        pictures: &[(512, 4095)],
        words: &[
            "--width=16",
            "--height=16",
            "--chroma=422",
            "--depth=12",
            "--qp=0",
        ],
        end: End::With(Exit::Done),
        output: WHITE_UNIT,
        line: "",
    },
    Row {
        pictures: &[(512, 512)],
        words: &[
            "--width=17",
            "--height=16",
            "--chroma=422",
            "--depth=10",
            "--qp=0",
        ],
        end: End::Video(Slot::Input, VideoRule::Size, 0),
        output: b"",
        line: "bad video input: size at frame 0\n",
    },
    Row {
        pictures: &[(512, 512)],
        words: &[
            "--width=16",
            "--height=4194320",
            "--chroma=400",
            "--depth=10",
            "--qp=0",
        ],
        end: End::With(Exit::LimitMet(Limit::L2, 262_145)),
        output: b"",
        line: "limit L2 met: 262145\n",
    },
    // 21 rows of tiles.
    Row {
        pictures: &[(512, 512)],
        words: &[
            "--width=16",
            "--height=2576",
            "--chroma=400",
            "--depth=10",
            "--qp=0",
            "--tile-height=8",
        ],
        end: End::Video(Slot::Input, VideoRule::Grid, 0),
        output: b"",
        line: "bad video input: grid at frame 0\n",
    },
    Row {
        pictures: &[(256, 512)],
        words: &["--form=y4m", "--qp=0"],
        end: End::Video(Slot::Input, VideoRule::Header, 0),
        output: b"",
        line: "bad video input: header at frame 0\n",
    },
    Row {
        pictures: &[(256, 512)],
        words: &["--form=y4m", "--chroma=4444", "--qp=1"],
        end: End::With(Exit::Usage(UsageKind::Clash(Opt::Chroma))),
        output: b"",
        line: "usage: clash --chroma\n",
    },
];

/// The words for the files.
const FILES: &[&str] = &["--input=in", "--output=out"];

#[test]
fn encodes_other_formats(rt: HostRuntime) -> Result<(), Fail> {
    let wrong = run_rows(rt.alloc(), &rt, FILES, &FORMATS)?;
    assert_eq!(rt; wrong, None);
    Ok(())
}

/// A file of QP offsets, the first byte that is bad, and the line.
const BAD_MAPS: [(&[u8], u64, &str); 4] = [
    (b"", 0, "bad tile qp at byte 0\n"),
    (b"\x4C", 0, "bad tile qp at byte 0\n"),
    (b"\xB4", 0, "bad tile qp at byte 0\n"),
    (b"\xFD\x00", 1, "bad tile qp at byte 1\n"),
];

#[test]
fn refuses_offsets(rt: HostRuntime) -> Result<(), Fail> {
    let words = words_of(rt.alloc(), &[GREY, &["--qp=22", "--tile-qp=t"]])?;
    for (map, byte, line) in BAD_MAPS {
        let mut files = MemoryFiles::new(rt.alloc());
        files.hold("in", &samples(rt.alloc(), &[(256, 612)])?)?;
        files.hold("t", map)?;
        let exit = run_enc(rt.alloc(), &rt, &words, &mut files, &NoGate);
        assert_eq!(rt; exit, Exit::BadTileQp(byte));
        assert_eq!(rt; exit.status(), 3);
        assert!(rt; files.written(Slot::Output).is_empty());
        assert_eq!(rt; files.written(Slot::Console), line.as_bytes());
    }
    Ok(())
}

#[test]
fn writes_what_a_decoder_will_make(rt: HostRuntime) -> Result<(), Fail> {
    let words = words_of(
        rt.alloc(),
        &[GREY, &["--qp=0", "--recon=recon", "--threads=2"]],
    )?;
    let mut files = MemoryFiles::new(rt.alloc());
    files.hold("in", &samples(rt.alloc(), &[(768, 512)])?)?;
    let exit = run_enc(rt.alloc(), &rt, &words, &mut files, &NoGate);
    assert_eq!(rt; exit, Exit::Done);
    let units = copies(rt.alloc(), GREY_UNIT, 3)?;
    assert_eq!(rt; files.written(Slot::Output), units.as_slice());
    let pictures = samples(rt.alloc(), &[(768, 512)])?;
    assert_eq!(rt; files.written(Slot::Recon), pictures.as_slice());
    assert!(rt; files.left(Slot::Input).is_empty());
    Ok(())
}
