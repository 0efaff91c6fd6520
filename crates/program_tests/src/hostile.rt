//! Hostile files, each with the rule that it breaks: the decoder names it, and writes nothing of the unit with the
//! break.
ghost use Rattle.std.specs.Prelude.{◌≤◌};

use crate::runs::{BOTH, broken, broken_line, decode, decode_with, joined, samples};
use crate::units::{
    CUT_BLOCK, CUT_WORD, GREY_UNIT, INFORMATION, METADATA, PRIMARY, Pbu, SIZED, unit_of,
};
use apv_base::{Exit, Limit, Rule};
use std::alloc::{AllocError, Global};
use std::test::Fail;
use std::thread::Threads;

/// A frame header that ends inside the height.
const CUT_HEADER: Pbu = (0x01, 1, b"\x63\x7B\x00\x00\x00\x10\x00\x00");

/// A frame whose data end inside a code word, and one whose data no code word begins with.
const CUT_FRAME: Pbu = (0x01, 1, CUT_WORD);

const NO_WORD: Pbu = (
    0x01,
    1,
    b"\x63\x7B\x00\x00\x00\x10\x00\x00\x10\x02\x00\x00\x00\x00\x00\x40\x00\x04\x00\x00\x00\x00\x00\x0C\
    \x00\x0A\x00\x00\x00\x00\x00\x02\x00\x00\x40\x00",
);

/// What stops a decoder at a unit.
#[derive(Clone, Copy, Debug)]
enum Stop {
    Breaks(Rule),
    Exceeds(Limit, u64),
}

/// The PBUs of a file of one access unit, other bytes at some places of the file, and what stops a decoder then.
type Row = (&'static [Pbu], &'static [(usize, u8)], Stop);

const ROWS: [Row; 48] = [
    (&[PRIMARY], &[(4, 0x62)], Stop::Breaks(Rule::V3)),
    (&[], &[], Stop::Breaks(Rule::V4)),
    (&[PRIMARY], &[(11, 0x03)], Stop::Breaks(Rule::V5)),
    (&[PRIMARY], &[(11, 0x2F)], Stop::Breaks(Rule::V6)),
    (&[PRIMARY], &[(15, 0x01)], Stop::Breaks(Rule::V7)),
    (&[CUT_HEADER], &[], Stop::Breaks(Rule::V8)),
    (&[PRIMARY], &[(16, 0x64)], Stop::Breaks(Rule::V9)),
    (&[PRIMARY], &[(25, 0x12)], Stop::Breaks(Rule::V10)),
    (&[PRIMARY], &[(21, 0x00)], Stop::Breaks(Rule::V11)),
    (
        &[PRIMARY],
        &[(16, 0x21), (21, 0x11), (25, 0x22)],
        Stop::Breaks(Rule::V11),
    ),
    (&[PRIMARY], &[(25, 0x05)], Stop::Breaks(Rule::V12)),
    (&[PRIMARY], &[(25, 0x22)], Stop::Breaks(Rule::V13)),
    (&[PRIMARY], &[(18, 0x01)], Stop::Breaks(Rule::V14)),
    (&[PRIMARY], &[(27, 0x01)], Stop::Breaks(Rule::V14)),
    (&[PRIMARY], &[(28, 0x01)], Stop::Breaks(Rule::V14)),
    (&[PRIMARY], &[(49, 0x01)], Stop::Breaks(Rule::V14)),
    (&[INFORMATION], &[(34, 0x01)], Stop::Breaks(Rule::V14)),
    (&[PRIMARY], &[(29, 0x40)], Stop::Breaks(Rule::V15)),
    (&[PRIMARY], &[(31, 0x00)], Stop::Breaks(Rule::V16)),
    (
        &[PRIMARY],
        &[(19, 0x00), (20, 0x14), (21, 0x10)],
        Stop::Breaks(Rule::V17),
    ),
    (&[SIZED], &[(38, 0x60)], Stop::Breaks(Rule::V18)),
    (&[PRIMARY], &[(35, 0x01)], Stop::Breaks(Rule::V19)),
    (&[PRIMARY], &[(39, 0x13)], Stop::Breaks(Rule::V20)),
    (&[PRIMARY], &[(39, 0x09)], Stop::Breaks(Rule::V20)),
    (&[PRIMARY], &[(41, 0x0B)], Stop::Breaks(Rule::V21)),
    (&[PRIMARY], &[(43, 0x01)], Stop::Breaks(Rule::V21)),
    (&[PRIMARY], &[(48, 0x40)], Stop::Breaks(Rule::V22)),
    (
        &[PRIMARY],
        &[(39, 0x11), (47, 0x07)],
        Stop::Breaks(Rule::V23),
    ),
    (&[PRIMARY], &[(47, 0x09)], Stop::Breaks(Rule::V24)),
    (&[METADATA], &[(19, 0x07)], Stop::Breaks(Rule::V25)),
    (&[METADATA], &[(19, 0x05)], Stop::Breaks(Rule::V26)),
    (&[METADATA], &[(19, 0x01)], Stop::Breaks(Rule::V25)),
    (&[CUT_FRAME], &[], Stop::Breaks(Rule::V27)),
    (&[NO_WORD], &[], Stop::Breaks(Rule::V28)),
    (&[CUT_BLOCK], &[], Stop::Breaks(Rule::V27)),
    // A run of 63 zeros after a level at place 1.
    (
        &[PRIMARY],
        &[
            (50, 0x83),
            (51, 0x20),
            (52, 0xF8),
            (53, 0),
            (54, 0),
            (55, 0),
            (56, 0),
            (57, 0),
        ],
        Stop::Breaks(Rule::V29),
    ),
    // A DC coefficient outside its range.
    (
        &[PRIMARY],
        &[
            (50, 0x40),
            (51, 0x1F),
            (52, 0xF8),
            (53, 0),
            (54, 0),
            (55, 0),
            (56, 0),
            (57, 0),
        ],
        Stop::Breaks(Rule::V30),
    ),
    (&[PRIMARY], &[(57, 0xF1)], Stop::Breaks(Rule::V31)),
    (
        &[PRIMARY],
        &[(22, 0x40), (23, 0x00), (24, 0x10)],
        Stop::Exceeds(Limit::L2, 262_145),
    ),
    // Two breaks at once: the first in the order is named.
    (
        &[PRIMARY],
        &[(15, 0x01), (16, 0x64)],
        Stop::Breaks(Rule::V7),
    ),
    (
        &[PRIMARY],
        &[(21, 0x00), (25, 0x12)],
        Stop::Breaks(Rule::V10),
    ),
    (
        &[PRIMARY],
        &[(21, 0x00), (25, 0x05)],
        Stop::Breaks(Rule::V11),
    ),
    (
        &[PRIMARY],
        &[(20, 0x14), (21, 0x10), (31, 0x00)],
        Stop::Breaks(Rule::V16),
    ),
    (
        &[PRIMARY],
        &[(29, 0x40), (35, 0x01)],
        Stop::Breaks(Rule::V15),
    ),
    (
        &[PRIMARY],
        &[(43, 0x01), (48, 0x40)],
        Stop::Breaks(Rule::V21),
    ),
    (
        &[PRIMARY],
        &[(47, 0x09), (48, 0x40)],
        Stop::Breaks(Rule::V24),
    ),
    (
        &[PRIMARY],
        &[(48, 0x40), (49, 0x01)],
        Stop::Breaks(Rule::V22),
    ),
    (
        &[PRIMARY],
        &[(49, 0x01), (57, 0xF1)],
        Stop::Breaks(Rule::V14),
    ),
];

/// The answer where that stops a decoder at the first PBU of a unit, and the line.
fn told(alloc: Global, stop: Stop, unit: u32) -> Result<(Exit, Vec<u8>), AllocError> {
    match stop {
        Stop::Breaks(rule) => Ok((broken(rule, unit, 0), broken_line(alloc, rule, unit, 0)?)),
        Stop::Exceeds(limit, count) => {
            let line = format!(in alloc; "limit {limit:?} met: {count}\n")?;
            Ok((Exit::LimitMet(limit, count), line.as_bytes().to_vec(alloc)?))
        }
    }
}

/// A file with other bytes at these places.
fn changed(alloc: Global, file: &[u8], changes: &[(usize, u8)]) -> Result<Vec<u8>, AllocError> {
    let mut file = file.to_vec(alloc)?;
    for (place, byte) in changes {
        if let Some(cell) = file.get_mut(*place) {
            *cell = *byte;
        }
    }
    Ok(file)
}

/// Whether a decoder, with that number of threads, is stopped so at that unit, having written that picture.
fn is_stopped<R: Threads + Sync>(
    alloc: Global,
    rt: &R,
    threads: &str,
    file: &[u8],
    wanted: (Stop, u32, &[u8]),
) -> Result<bool, AllocError> {
    let (stop, unit, picture) = wanted;
    let (exit, line) = told(alloc, stop, unit)?;
    let run = decode_with(alloc, rt, BOTH, threads, file)?;
    let written = run.pictures.as_slice() == picture && run.payloads.is_empty();
    Ok(run.exit == exit && run.line == line && written)
}

#[test]
fn names_what_each_file_breaks(rt: HostRuntime) -> Result<(), Fail> {
    for (number, (pbus, changes, stop)) in ROWS.iter().enumerate() {
        let file = changed(rt.alloc(), &unit_of(rt.alloc(), pbus)?, changes)?;
        let wanted: (Stop, u32, &[u8]) = (*stop, 0, &[]);
        let alone = is_stopped(rt.alloc(), &rt, "--threads=1", &file, wanted)?;
        assert!(rt; alone, "row {number}");
        let among_three = is_stopped(rt.alloc(), &rt, "--threads=3", &file, wanted)?;
        assert!(rt; among_three, "row {number}");
    }
    Ok(())
}

#[test]
fn names_what_a_second_unit_breaks(rt: HostRuntime) -> Result<(), Fail> {
    let picture = samples(rt.alloc(), &[(256, 512)])?;
    for (number, (pbus, changes, stop)) in ROWS.iter().enumerate() {
        let unit = unit_of(rt.alloc(), pbus)?;
        if unit.as_slice() == GREY_UNIT {
            let second = changed(rt.alloc(), &unit, changes)?;
            let file = joined(rt.alloc(), &[GREY_UNIT, second.as_slice()])?;
            let wanted = (*stop, 1, picture.as_slice());
            let stopped = is_stopped(rt.alloc(), &rt, "--threads=1", &file, wanted)?;
            assert!(rt; stopped, "row {number}");
        }
    }
    Ok(())
}

#[test]
fn names_what_a_file_cut_short_breaks(rt: HostRuntime) -> Result<(), Fail> {
    for len in 1..GREY_UNIT.len() {
        let rule = if len < 4 { Rule::V1 } else { Rule::V2 };
        let run = decode(rt.alloc(), &rt, &[BOTH], &GREY_UNIT[..len])?;
        assert_eq!(rt; run.exit, broken(rule, 0, 0), "{len} bytes");
        assert!(rt; run.pictures.is_empty(), "{len} bytes");
    }
    Ok(())
}

/// The grey frame's file with so many bytes of the body of its PBU, and the sizes of these.
fn cut_body(alloc: Global, len: u8) -> Result<Vec<u8>, AllocError>
    requires { len ≤ 42 }
{
    let mut file = changed(alloc, GREY_UNIT, &[(3, 12 + len), (11, 4 + len)])?;
    file.truncate(16 + usize::from(len));
    Ok(file)
}

/// The answer to that file.
fn answer_to_body(len: u8) -> Exit {
    match len {
        0..=19 => broken(Rule::V8, 0, 0),
        20..=41 => broken(Rule::V20, 0, 0),
        _ => Exit::Done,
    }
}

#[test]
fn names_what_a_body_cut_short_breaks(rt: HostRuntime) -> Result<(), Fail> {
    for len in 0..=42 {
        let file = cut_body(rt.alloc(), len)?;
        let run = decode(rt.alloc(), &rt, &[BOTH], &file)?;
        assert_eq!(rt; run.exit, answer_to_body(len), "{len} bytes");
        assert_eq!(rt;
            run.pictures.len(),
            if len < 42 { 0 } else { 512 },
            "{len} bytes"
        );
    }
    Ok(())
}
