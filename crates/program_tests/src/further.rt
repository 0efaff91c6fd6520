//! Runs of the encoder with all that an access unit carries beside the primary frame: further frames, access unit
//! information, payloads, filler, tile sizes and matrices; and their decoding.
use crate::runs::{
    End, GREY, Runs, copies, encode, exit_of, payloads, samples, selected, words_of,
};
use crate::units::{GREY_FRAME, INFORMATION, PRIMARY, Pbu, SIZED, file_of};
use apv_base::{Exit, Limit, Slot, VideoRule};
use std::alloc::{AllocError, Global};
use std::test::Fail;

/// A grey alpha frame.
const ALPHA: Pbu = (0x1B, 1, GREY_FRAME);

/// A grey depth frame.
const DEPTH: Pbu = (0x1A, 1, GREY_FRAME);

/// A grey preview frame, which is 4:2:2: the data of its components have 8, 5 and 5 bytes.
const PREVIEW: Pbu = (
    0x19,
    1,
    b"\x21\x7B\x00\x00\x00\x10\x00\x00\x10\x22\x00\x00\x00\x00\x00\x40\x00\x04\x00\x00\x00\x00\x00\x26\
    \x00\x14\x00\x00\x00\x00\x00\x08\x00\x00\x00\x05\x00\x00\x00\x05\x00\x00\x00\x00\x81\x07\xD4\x1F\x50\
    \x7D\x41\xF0\x81\x07\xD4\x1F\x00\x81\x07\xD4\x1F\x00",
);

/// Access unit information that lists the primary frame and an alpha frame after it.
const INFORMATION_OF_TWO: Pbu = (
    0x41,
    1,
    b"\x00\x02\x01\x00\x01\x00\x63\x7B\x00\x00\x00\x10\x00\x00\x10\x02\x00\x00\x1B\x00\x01\x00\x63\x7B\
    \x00\x00\x00\x10\x00\x00\x10\x02\x00\x00\x00",
);

/// Filler of three bytes, and of none.
const FILLER: Pbu = (0x43, 1, b"\xFF\xFF\xFF");

const NO_FILLER: Pbu = (0x43, 1, b"");

/// Pictures of `Input` and of another file, the words beside those of `GREY`, the answer, the PBUs of the access unit in
/// `Output`, or none where there is no unit, and the line on the console.
type Row = (
    Runs,
    Runs,
    &'static [&'static str],
    End,
    &'static [Pbu],
    &'static str,
);

/// The words for a preview of 16 by 16 samples.
const PREVIEW_WORDS: &[&str] = &[
    "--qp=0",
    "--preview=other",
    "--preview-width=16",
    "--preview-height=16",
];

const ROWS: [Row; 18] = [
    (
        &[(256, 512)],
        &[(256, 512)],
        &["--qp=0", "--alpha=other"],
        End::With(Exit::Done),
        &[PRIMARY, ALPHA],
        "",
    ),
    (
        &[(256, 512)],
        &[(512, 512)],
        PREVIEW_WORDS,
        End::With(Exit::Done),
        &[PRIMARY, PREVIEW],
        "",
    ),
    (
        &[(256, 512)],
        &[],
        &["--qp=0", "--filler=3"],
        End::With(Exit::Done),
        &[PRIMARY, FILLER],
        "",
    ),
    (
        &[(256, 512)],
        &[],
        &["--qp=0", "--filler=0"],
        End::With(Exit::Done),
        &[PRIMARY, NO_FILLER],
        "",
    ),
    (
        &[(256, 512)],
        &[],
        &["--qp=0", "--tile-sizes"],
        End::With(Exit::Done),
        &[SIZED],
        "",
    ),
    (
        &[(256, 512)],
        &[],
        &["--qp=0", "--au-info"],
        End::With(Exit::Done),
        &[INFORMATION, PRIMARY],
        "",
    ),
    (
        &[(256, 512)],
        &[(256, 512)],
        &["--qp=0", "--au-info", "--alpha=other", "--threads=3"],
        End::With(Exit::Done),
        &[INFORMATION_OF_TWO, PRIMARY, ALPHA],
        "",
    ),
    // A file of no payloads.
    (
        &[(256, 512)],
        &[],
        &["--qp=0", "--metadata=other"],
        End::With(Exit::Done),
        &[PRIMARY],
        "",
    ),
    // The component doesn't exist.
    (
        &[(256, 512)],
        &[],
        &[
            "--qp=0",
            "--matrix-3=7,7,7,7,7,7,7,7,7,7,7,7,7,7,7,7,7,7,7,7,7,7,7,7,7,7,7,7,7,7,7,7,7,7,7,7,7,7,7,7,7,7,7,7,7,7,7,7,7,7,7,7,7,7,7,7,7,7,7,7,7,7,7,7",
        ],
        End::With(Exit::Done),
        &[PRIMARY],
        "",
    ),
    // The alpha file is shorter by a frame, and longer.
    (
        &[(512, 512)],
        &[(256, 512)],
        &["--qp=0", "--alpha=other"],
        End::Video(Slot::Alpha, VideoRule::Missing, 1),
        &[PRIMARY, ALPHA],
        "bad video alpha: missing at frame 1\n",
    ),
    (
        &[(256, 512)],
        &[(512, 512)],
        &["--qp=0", "--alpha=other"],
        End::Video(Slot::Alpha, VideoRule::Extra, 1),
        &[PRIMARY, ALPHA],
        "bad video alpha: extra at frame 1\n",
    ),
    (
        &[(256, 512)],
        &[(257, 512)],
        &["--qp=0", "--depth-map=other"],
        End::Video(Slot::Depth, VideoRule::Extra, 1),
        &[PRIMARY, DEPTH],
        "bad video depth: extra at frame 1\n",
    ),
    (
        &[(256, 512)],
        &[(200, 512)],
        &["--qp=0", "--alpha=other"],
        End::Video(Slot::Alpha, VideoRule::Truncated, 0),
        &[],
        "bad video alpha: truncated at frame 0\n",
    ),
    (
        &[(256, 512)],
        &[(255, 512), (1, 1024)],
        &["--qp=0", "--alpha=other"],
        End::Video(Slot::Alpha, VideoRule::Range, 0),
        &[],
        "bad video alpha: range at frame 0\n",
    ),
    // Input has its turn first.
    (
        &[(255, 512), (1, 1024)],
        &[],
        &["--qp=0", "--alpha=other"],
        End::Video(Slot::Input, VideoRule::Range, 0),
        &[],
        "bad video input: range at frame 0\n",
    ),
    (
        &[(256, 512)],
        &[],
        &[
            "--qp=0",
            "--preview=other",
            "--preview-width=17",
            "--preview-height=16",
        ],
        End::Video(Slot::Preview, VideoRule::Size, 0),
        &[],
        "bad video preview: size at frame 0\n",
    ),
    // The format of Input is judged first.
    (
        &[(256, 512)],
        &[],
        &[
            "--qp=64",
            "--preview=other",
            "--preview-width=17",
            "--preview-height=16",
        ],
        End::Video(Slot::Input, VideoRule::Qp, 0),
        &[],
        "bad video input: qp at frame 0\n",
    ),
    (
        &[(256, 512)],
        &[],
        &[
            "--qp=0",
            "--preview=other",
            "--preview-width=16",
            "--preview-height=4194320",
        ],
        End::With(Exit::LimitMet(Limit::L2, 262_145)),
        &[],
        "limit L2 met: 262145\n",
    ),
];

#[test]
fn encodes_all_that_a_unit_carries(rt: HostRuntime) -> Result<(), Fail> {
    for (number, (pictures, other, words, end, pbus, line)) in ROWS.iter().enumerate() {
        let words = words_of(rt.alloc(), &[GREY, words])?;
        let pictures = samples(rt.alloc(), pictures)?;
        let other = samples(rt.alloc(), other)?;
        let run = encode(rt.alloc(), &rt, &words, &pictures, &other)?;
        assert_eq!(rt; run.exit, exit_of(*end), "row {number}");
        let wanted = file_of(rt.alloc(), pbus)?;
        assert_eq!(rt; run.units.as_slice(), wanted.as_slice(), "row {number}");
        assert_eq!(rt; run.line.as_slice(), line.as_bytes(), "row {number}");
    }
    Ok(())
}

/// What is selected of a file, the words for it, the samples of the other file, and the samples that are written.
struct Selection {
    select: &'static str,
    words: &'static [&'static str],
    other: Runs,
    written: Runs,
}

const SELECTIONS: [Selection; 5] = [
    Selection {
        select: "alpha",
        words: &["--qp=0", "--alpha=other"],
        other: &[(256, 612)],
        written: &[(256, 612)],
    },
    Selection {
        select: "depth",
        words: &["--qp=0", "--depth-map=other", "--au-info", "--filler=1"],
        other: &[(256, 612)],
        written: &[(256, 612)],
    },
    Selection {
        select: "preview",
        words: &[
            "--qp=0",
            "--preview=other",
            "--preview-width=16",
            "--preview-height=16",
            "--au-info",
        ],
        other: &[(512, 512)],
        written: &[(512, 512)],
    },
    Selection {
        select: "alpha",
        words: &["--qp=0"],
        other: &[],
        written: &[],
    },
    Selection {
        select: "primary",
        words: &["--qp=0", "--alpha=other", "--au-info", "--tile-sizes"],
        other: &[(256, 612)],
        written: &[(256, 512)],
    },
];

#[test]
fn decodes_each_frame_of_a_unit(rt: HostRuntime) -> Result<(), Fail> {
    for (number, row) in SELECTIONS.iter().enumerate() {
        let words = words_of(rt.alloc(), &[GREY, row.words])?;
        let pictures = samples(rt.alloc(), &[(256, 512)])?;
        let other = samples(rt.alloc(), row.other)?;
        let run = encode(rt.alloc(), &rt, &words, &pictures, &other)?;
        assert_eq!(rt; run.exit, Exit::Done, "row {number}");
        let made = selected(rt.alloc(), &rt, &run.units, row.select)?.ok_or("pictures")?;
        let wanted = samples(rt.alloc(), row.written)?;
        assert_eq!(rt; made.as_slice(), wanted.as_slice(), "row {number}");
    }
    Ok(())
}

/// A quantisation matrix of ones, and one that isn't symmetric: 16 but for 32 as the second value of the first row.
const ONES: &str =
    "--matrix-0=1,1,1,1,1,1,1,1,1,1,1,1,1,1,1,1,1,1,1,1,1,1,1,1,1,1,1,1,1,1,1,1,1,1,1,1,1,1,1,1,1,1,1,1,1,1,1,1,1,1,1,1,1,1,1,1,1,1,1,1,1,1,1,1";

const ONE_LARGE: &str =
    "--matrix-0=16,32,16,16,16,16,16,16,16,16,16,16,16,16,16,16,16,16,16,16,16,16,16,16,16,16,16,16,16,16,16,16,16,16,16,16,16,16,16,16,16,16,16,16,16,16,16,16,16,16,16,16,16,16,16,16,16,16,16,16,16,16,16,16";

#[test]
fn matrices_are_kept(rt: HostRuntime) -> Result<(), Fail> {
    let words = words_of(rt.alloc(), &[GREY, &["--qp=0", ONES]])?;
    let pictures = samples(rt.alloc(), &[(256, 1023)])?;
    let run = encode(rt.alloc(), &rt, &words, &pictures, &[])?;
    assert_eq!(rt; run.exit, Exit::Done);
    let made = selected(rt.alloc(), &rt, &run.units, "primary")?.ok_or("pictures")?;
    let wanted = samples(rt.alloc(), &[(256, 672)])?;
    assert_eq!(rt; made.as_slice(), wanted.as_slice());
    let words = words_of(rt.alloc(), &[GREY, &["--qp=0", ONE_LARGE]])?;
    let run = encode(rt.alloc(), &rt, &words, &pictures, &[])?;
    assert_eq!(rt; run.exit, Exit::Done);
    // After a reserved byte and two flags, of which the second is 1, the values: 16 and 32 first, then 16.
    let head = b"\x44\x08\x04\x04";
    let found = run.units.get(29..33);
    assert_eq!(rt; found, Some(head.as_slice()));
    Ok(())
}

/// A list of three payloads: user data of 510 bytes (170), a byte of an unknown type (300), and content light levels (6)
/// that are empty.
fn three_payloads(alloc: Global) -> Result<Vec<u8>, AllocError> {
    let mut list = copies(alloc, b"\xAA\xFF\xFF\x00", 1)?;
    list.extend_from_slice(&[0x5A; 510])?;
    list.extend_from_slice(b"\xFF\x2D\x01\x07")?;
    list.extend_from_slice(b"\x06\x00")?;
    Ok(list)
}

#[test]
fn payloads_come_back(rt: HostRuntime) -> Result<(), Fail> {
    let list = three_payloads(rt.alloc())?;
    let words = words_of(rt.alloc(), &[GREY, &["--qp=0", "--metadata=other"]])?;
    let pictures = samples(rt.alloc(), &[(512, 512)])?;
    let run = encode(rt.alloc(), &rt, &words, &pictures, &list)?;
    assert_eq!(rt; run.exit, Exit::Done);
    // Twice the grey unit of 58 bytes, a metadata PBU's 12 bytes before its payloads, and 520 of payloads.
    assert_eq!(rt; run.units.len(), 1180);
    let found = payloads(rt.alloc(), &rt, &run.units)?.ok_or("payloads")?;
    let twice = copies(rt.alloc(), &list, 2)?;
    assert_eq!(rt; found.as_slice(), twice.as_slice());
    Ok(())
}

/// Lists of payloads, the first byte of the first one that isn't whole, and the line.
const PARTIAL: [(&[u8], u64, &str); 3] = [
    (b"\x05\x00\x06\x04", 2, "bad payloads at byte 2\n"),
    (b"\x06\x04\x03\xE8\x01", 0, "bad payloads at byte 0\n"),
    (b"\xFF", 0, "bad payloads at byte 0\n"),
];

#[test]
fn refuses_payloads(rt: HostRuntime) -> Result<(), Fail> {
    let words = words_of(rt.alloc(), &[GREY, &["--qp=64", "--metadata=other"]])?;
    let pictures = samples(rt.alloc(), &[(256, 512)])?;
    for (list, byte, line) in PARTIAL {
        let run = encode(rt.alloc(), &rt, &words, &pictures, list)?;
        assert_eq!(rt; run.exit, Exit::BadPayloads(byte));
        assert_eq!(rt; run.exit.status(), 3);
        assert!(rt; run.units.is_empty());
        assert_eq!(rt; run.line.as_slice(), line.as_bytes());
    }
    Ok(())
}
