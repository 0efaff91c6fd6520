//! Runs of the decoder: worked files, each with its answer, its outputs and its line on the console.
use crate::runs::{BOTH, Runs, broken, broken_line, copies, decode, samples};
use crate::units::{
    CUT_BLOCK, CUT_WORD, GREY_FRAME, GREY_UNIT, INFORMATION, LIGHT_UNIT, METADATA, PAYLOAD,
    PAYLOAD_UNIT, PRIMARY, Pbu, file_of,
};
use apv_base::{Exit, Rule};
use std::test::Fail;

/// Access unit information that lists the primary frame as one of group 2.
const OTHER_INFORMATION: Pbu = (
    0x41,
    1,
    b"\x00\x01\x01\x00\x02\x00\x63\x7B\x00\x00\x00\x10\x00\x00\x10\x02\x00\x00\x00",
);

/// A grey non-primary frame, and the same of group 2.
const NON_PRIMARY: Pbu = (0x02, 1, GREY_FRAME);

const OTHER_GROUP: Pbu = (0x02, 2, GREY_FRAME);

/// A frame and an alpha frame whose data end inside a code word.
const BROKEN: Pbu = (0x01, 1, CUT_WORD);

const ALPHA_BROKEN: Pbu = (0x1B, 1, CUT_WORD);

/// A coefficient outside its range.
const LARGE_LEVEL: Pbu = (
    0x01,
    1,
    b"\x63\x7B\x00\x00\x00\x10\x00\x00\x10\x02\x00\x00\x00\x00\x00\x40\x00\x04\x00\x00\x00\x00\x00\x18\
    \x00\x0A\x00\x00\x00\x00\x00\x0E\x00\x00\x40\x1F\xF8\x28\x3E\x40\x0F\xFD\xF2\x0F\x90\x03\xFF\x7C",
);

/// Filler, and a PBU of a reserved type.
const FILLER: Pbu = (0x43, 1, b"\xFF\xFF");

const RESERVED: Pbu = (0x50, 1, b"\xAB");

/// The PBUs of a file of one access unit, or of none; the words beside those of `BOTH`; the rule that is broken with its
/// PBU; and the samples and the payloads that are written.
type Row = (
    &'static [Pbu],
    &'static [&'static str],
    Option<(Rule, u32)>,
    Runs,
    &'static [u8],
);

/// The samples of a grey picture, and of two.
const GREY: Runs = &[(256, 512)];

const TWO_GREY: Runs = &[(512, 512)];

const ROWS: [Row; 27] = [
    (&[], &[], None, &[], b""),
    (&[PRIMARY], &[], None, GREY, b""),
    (&[PRIMARY], &["--threads=2"], None, GREY, b""),
    (&[PRIMARY], &["--threads", "3", "--strict"], None, GREY, b""),
    (&[INFORMATION, PRIMARY], &[], None, GREY, b""),
    (&[INFORMATION, PRIMARY], &["--strict"], None, GREY, b""),
    (&[OTHER_INFORMATION, PRIMARY], &[], None, GREY, b""),
    (
        &[OTHER_INFORMATION, PRIMARY],
        &["--strict"],
        Some((Rule::V34, 0)),
        &[],
        b"",
    ),
    (&[PRIMARY], &["--select", "alpha"], None, &[], b""),
    (&[PRIMARY], &["--select=all", "--group=1"], None, GREY, b""),
    (&[PRIMARY], &["--group=2"], None, &[], b""),
    (&[METADATA], &[], None, &[], PAYLOAD),
    (&[PRIMARY, METADATA], &[], None, GREY, PAYLOAD),
    (&[FILLER, RESERVED], &[], None, &[], b""),
    (
        &[FILLER, RESERVED],
        &["--strict"],
        Some((Rule::V32, 0)),
        &[],
        b"",
    ),
    (&[PRIMARY, PRIMARY], &[], None, TWO_GREY, b""),
    (
        &[PRIMARY, PRIMARY],
        &["--strict"],
        Some((Rule::V32, 1)),
        &[],
        b"",
    ),
    (&[PRIMARY, NON_PRIMARY], &[], None, GREY, b""),
    (
        &[PRIMARY, NON_PRIMARY],
        &["--strict"],
        Some((Rule::V33, 1)),
        &[],
        b"",
    ),
    (&[PRIMARY, OTHER_GROUP], &["--strict"], None, GREY, b""),
    (
        &[PRIMARY, OTHER_GROUP],
        &["--select=non-primary", "--group=2"],
        None,
        GREY,
        b"",
    ),
    (
        &[PRIMARY, OTHER_GROUP],
        &["--select=all"],
        None,
        TWO_GREY,
        b"",
    ),
    (&[LARGE_LEVEL], &[], Some((Rule::V30, 0)), &[], b""),
    (
        &[PRIMARY, ALPHA_BROKEN],
        &[],
        Some((Rule::V27, 1)),
        &[],
        b"",
    ),
    (&[CUT_BLOCK, PRIMARY], &[], Some((Rule::V27, 0)), &[], b""),
    (
        &[CUT_BLOCK, PRIMARY],
        &["--strict"],
        Some((Rule::V32, 1)),
        &[],
        b"",
    ),
    (&[METADATA, BROKEN], &[], Some((Rule::V27, 1)), &[], b""),
];

#[test]
fn decodes_a_unit(rt: HostRuntime) -> Result<(), Fail> {
    for (number, (pbus, words, rule, pictures, payloads)) in ROWS.iter().enumerate() {
        let (exit, line) = match *rule {
            None => (Exit::Done, Vec::new(rt.alloc())),
            Some((rule, pbu)) => (broken(rule, 0, pbu), broken_line(rt.alloc(), rule, 0, pbu)?),
        };
        let file = file_of(rt.alloc(), pbus)?;
        let run = decode(rt.alloc(), &rt, &[BOTH, words], &file)?;
        assert_eq!(rt; run.exit, exit, "row {number}");
        let pictures = samples(rt.alloc(), pictures)?;
        assert_eq!(rt;
            run.pictures.as_slice(),
            pictures.as_slice(),
            "row {number}"
        );
        assert_eq!(rt; run.payloads.as_slice(), *payloads, "row {number}");
        assert_eq!(rt; run.line.as_slice(), line.as_slice(), "row {number}");
    }
    Ok(())
}

#[test]
fn decodes_samples_at_a_qp(rt: HostRuntime) -> Result<(), Fail> {
    let run = decode(rt.alloc(), &rt, &[BOTH], LIGHT_UNIT)?;
    assert_eq!(rt; run.exit, Exit::Done);
    let pictures = samples(rt.alloc(), &[(256, 612)])?;
    assert_eq!(rt; run.pictures.as_slice(), pictures.as_slice());
    assert!(rt; run.payloads.is_empty());
    assert!(rt; run.line.is_empty());
    Ok(())
}

/// A file of which three copies are cut to a number of bytes, the answer, and the numbers of samples and of payloads that
/// are written.
const CUT: [(&[u8], usize, Option<(Rule, u32)>, usize, usize); 5] = [
    (GREY_UNIT, 146, Some((Rule::V2, 2)), 512, 0),
    (GREY_UNIT, 118, Some((Rule::V1, 2)), 512, 0),
    (GREY_UNIT, 116, None, 512, 0),
    (PAYLOAD_UNIT, 52, None, 0, 2),
    (PAYLOAD_UNIT, 40, Some((Rule::V2, 1)), 0, 1),
];

#[test]
fn writes_unit_by_unit(rt: HostRuntime) -> Result<(), Fail> {
    for (file, len, rule, count, payloads) in CUT {
        let answer = match rule {
            None => Exit::Done,
            Some((rule, unit)) => broken(rule, unit, 0),
        };
        let mut bytes = copies(rt.alloc(), file, 3)?;
        bytes.truncate(len);
        let run = decode(rt.alloc(), &rt, &[BOTH], &bytes)?;
        assert_eq!(rt; run.exit, answer, "{len} bytes");
        let pictures = samples(rt.alloc(), &[(count, 512)])?;
        assert_eq!(rt; run.pictures.as_slice(), pictures.as_slice(), "{len} bytes");
        let payloads = copies(rt.alloc(), PAYLOAD, payloads)?;
        assert_eq!(rt; run.payloads.as_slice(), payloads.as_slice(), "{len} bytes");
    }
    Ok(())
}
