//! Runs of the decoder that write a Y4M file.
use crate::runs::{decode, decode_files, joined, samples};
use crate::units::{CUT_UNIT, GREY_UNIT, PAYLOAD_UNIT};
use apv_base::{Chroma, Exit, Format, Slot};
use apv_files::{Call, MemoryFiles};
use std::alloc::{AllocError, Global};
use std::test::Fail;

/// A file of one frame of 16x16 samples of the value 512, 4:4:4:4 and 10 bits.
const FOUR_UNIT: &[u8] =
    b"\x00\x00\x00\x5D\x61\x50\x76\x31\x00\x00\x00\x55\x01\x00\x01\x00\x4D\x7B\x00\x00\x00\x10\x00\x00\
    \x10\x42\x00\x00\x00\x00\x00\x40\x00\x02\x00\x00\x00\x00\x00\x39\x00\x19\x00\x00\x00\x00\x00\x08\
    \x00\x00\x00\x08\x00\x00\x00\x08\x00\x00\x00\x08\x00\x00\x00\x00\x00\x81\x07\xD4\x1F\x50\x7D\x41\
    \xF0\x81\x07\xD4\x1F\x50\x7D\x41\xF0\x81\x07\xD4\x1F\x50\x7D\x41\xF0\x81\x07\xD4\x1F\x50\x7D\x41\
    \xF0";

/// The start of a Y4M file of grey pictures of 16x16 samples.
const GREY_HEADER: &str = "YUV4MPEG2 W16 H16 F30:1 Ip A0:0 Cmono10\n";

/// The format of `GREY_UNIT`.
const GREY: Format = Format {
    width: 16,
    height: 16,
    chroma: Chroma::C400,
    depth: 10,
};

/// A Y4M file of n grey pictures.
fn grey_pictures(alloc: Global, header: &str, n: usize) -> Result<Vec<u8>, AllocError> {
    let picture = samples(alloc, &[(256, 512)])?;
    let mut bytes = joined(alloc, &[header.as_bytes()])?;
    for _ in 0..n {
        bytes.extend_from_slice(b"FRAME\n")?;
        bytes.extend_from_slice(&picture)?;
    }
    Ok(bytes)
}

const WORDS: &[&str] = &["--input=in", "--output=out", "--form=y4m"];

/// The access units of a file, the words beside `WORDS`, and the header and the number of pictures that are written.
const WRITTEN: [(&[&[u8]], &[&str], &str, usize); 5] = [
    (&[GREY_UNIT], &[], GREY_HEADER, 1),
    (
        &[PAYLOAD_UNIT, GREY_UNIT, PAYLOAD_UNIT, GREY_UNIT],
        &[],
        GREY_HEADER,
        2,
    ),
    (&[GREY_UNIT], &["--rate", "030:1"], GREY_HEADER, 1),
    (
        &[GREY_UNIT],
        &["--rate=30000:1001"],
        "YUV4MPEG2 W16 H16 F30000:1001 Ip A0:0 Cmono10\n",
        1,
    ),
    // No frame is selected: no header.
    (
        &[GREY_UNIT, CUT_UNIT, FOUR_UNIT],
        &["--select=alpha"],
        "",
        0,
    ),
];

#[test]
fn writes_pictures_of_one_format(rt: HostRuntime) -> Result<(), Fail> {
    for (units, words, header, n) in WRITTEN {
        let file = joined(rt.alloc(), units)?;
        let run = decode(rt.alloc(), &rt, &[WORDS, words], &file)?;
        assert_eq!(rt; run.exit, Exit::Done);
        let pictures = grey_pictures(rt.alloc(), header, n)?;
        assert_eq!(rt; run.pictures.as_slice(), pictures.as_slice());
    }
    Ok(())
}

#[test]
fn refuses_a_change_of_the_format(rt: HostRuntime) -> Result<(), Fail> {
    let file = joined(rt.alloc(), &[GREY_UNIT, PAYLOAD_UNIT, CUT_UNIT, GREY_UNIT])?;
    let run = decode(rt.alloc(), &rt, &[WORDS, &["--metadata=m"]], &file)?;
    let other = Format {
        width: 18,
        height: 18,
        chroma: Chroma::C422,
        depth: 10,
    };
    assert_eq!(rt; run.exit, Exit::FormatChange { first: GREY, other });
    assert_eq!(rt; run.exit.status(), 7);
    let written = grey_pictures(rt.alloc(), GREY_HEADER, 1)?;
    assert_eq!(rt; run.pictures.as_slice(), written.as_slice());
    let line = "format changes from 16x16 400 10 to 18x18 422 10\n";
    assert_eq!(rt; run.line.as_slice(), line.as_bytes());
    assert_eq!(rt; run.left, GREY_UNIT.len());
    Ok(())
}

#[test]
fn writes_any_formats_to_a_planar_file(rt: HostRuntime) -> Result<(), Fail> {
    let words: &[&str] = &["--input=in", "--output=out", "--form=planar"];
    let file = joined(rt.alloc(), &[GREY_UNIT, CUT_UNIT])?;
    let run = decode(rt.alloc(), &rt, &[words], &file)?;
    assert_eq!(rt; run.exit, Exit::Done);
    let written = samples(rt.alloc(), &[(904, 512)])?;
    assert_eq!(rt; run.pictures.as_slice(), written.as_slice());
    Ok(())
}

#[test]
fn refuses_a_format_without_a_tag(rt: HostRuntime) -> Result<(), Fail> {
    let run = decode(rt.alloc(), &rt, &[WORDS], FOUR_UNIT)?;
    let format = Format {
        chroma: Chroma::C4444,
        ..GREY
    };
    assert_eq!(rt; run.exit, Exit::NoTag(format));
    assert_eq!(rt; run.exit.status(), 7);
    assert!(rt; run.pictures.is_empty());
    Ok(())
}

#[test]
fn names_the_output_where_the_header_fails(rt: HostRuntime) -> Result<(), Fail> {
    let mut files = MemoryFiles::new(rt.alloc());
    files.hold("in", &joined(rt.alloc(), &[GREY_UNIT, GREY_UNIT])?)?;
    files.fail(Call::Write, 0)?;
    let run = decode_files(rt.alloc(), &rt, &[WORDS], &mut files)?;
    assert_eq!(rt; run.exit, Exit::WriteFailed(Slot::Output));
    assert!(rt; run.pictures.is_empty());
    assert_eq!(rt; run.left, GREY_UNIT.len());
    Ok(())
}
