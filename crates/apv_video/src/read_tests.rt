//! Pictures that are read from files in memory.
ghost use Rattle.std.specs.Prelude.{◌≡◌};
ghost use Rattle.apv_base.specs.model.Format.{IsSoundFormat};
ghost use Rattle.apv_files.specs.SlotView.{AllClosed};

use super::tests::{CUT, GREY, LARGE, frame, picture};
use super::*;
use apv_base::{Format, Limit, Slot, VideoBreak, VideoRule};
use apv_files::{Call, Files, MemoryFiles};
use apv_grid::{Frame, Grid};
use std::alloc::{AllocError, Global};
use std::process::Abort;
use std::test::Fail;

/// What a call answers.
type Answer = Result<bool, VideoEnd>;

const fn planar(format: Format) -> Shape
    ensures { result.format ≡ format }
{
    Shape { format, y4m: false }
}

const fn y4m(format: Format) -> Shape
    ensures { result.format ≡ format }
{
    Shape { format, y4m: true }
}

const fn bad(rule: VideoRule, frame: u32) -> Answer {
    Err(VideoEnd::Bad(VideoBreak {
        slot: Slot::Input,
        rule,
        frame,
    }))
}

/// Reads a picture of the file `in`, and writes its visible samples as a planar file.
fn copy<F: Files>(files: &mut F, shape: &Shape, number: u32, frame: &mut Frame) -> Answer
    requires closed { AllClosed (F.slot_view files.old) }
    requires sound { IsSoundFormat shape.now.format }
    requires format { frame.old.grid.format ≡ shape.now.format }
{
    if files.open(Slot::Input, "in").is_err() {
        return Err(VideoEnd::Memory);
    }
    if files.create(Slot::Recon, "recon").is_err() {
        return Err(VideoEnd::Memory);
    }
    let answer = read_frame(files, Slot::Input, shape, number, frame);
    if write_frame(files, Slot::Recon, frame, false).is_err() {
        return Err(VideoEnd::Memory);
    }
    answer
}

/// A picture of a file of these bytes is read with that answer, and so many bytes are left. It is the one of the tests
/// where the answer is true.
fn reads(
    rt: &impl Abort,
    alloc: Global,
    shape: &Shape,
    number: u32,
    bytes: &[u8],
    wanted: Answer,
    left: usize,
) -> Result<(), Fail>
    requires { IsSoundFormat shape.now.format }
{
    let grid = Grid::of(&shape.format, 16, 8).expect(rt, "a sound grid");
    let mut frame = Frame::new(alloc, &grid)?;
    let mut files = MemoryFiles::new(alloc);
    files.hold("in", bytes)?;
    let answer = copy(&mut files, shape, number, &mut frame);
    assert_eq!(rt; answer, wanted);
    assert_eq!(rt; files.left(Slot::Input).len(), left);
    if answer == Ok(true) {
        let picture = picture(alloc, &shape.format)?;
        assert!(rt; files.written(Slot::Recon) == picture.as_slice());
    }
    Ok(())
}

/// A line and the picture of the tests.
fn with_line(alloc: Global, line: &[u8], format: &Format) -> Result<Vec<u8>, AllocError> {
    let mut bytes = Vec::new(alloc);
    bytes.extend_from_slice(line)?;
    bytes.extend_from_slice(&picture(alloc, format)?)?;
    Ok(bytes)
}

#[test]
fn reads_planar_pictures(rt: HostRuntime) -> Result<(), Fail> {
    for format in [GREY, CUT, LARGE] {
        let mut bytes = with_line(rt.alloc(), b"", &format)?;
        bytes.extend_from_slice(b"more")?;
        reads(&rt, rt.alloc(), &planar(format), 7, &bytes, Ok(true), 4)?;
    }
    Ok(())
}

#[test]
fn answers_frame_lines(rt: HostRuntime) -> Result<(), Fail> {
    // The line, the answer, and how many bytes are left where a picture of 512 bytes follows.
    let table = [
        ("FRAME\n", Ok(true), 0),
        ("FRAME Ip\n", Ok(true), 0),
        ("FRAME \n", Ok(true), 0),
        ("FRAMES\n", bad(VideoRule::FrameLine, 3), 512),
        ("FRAM\n", bad(VideoRule::FrameLine, 3), 512),
        ("\nFRAME\n", bad(VideoRule::FrameLine, 3), 518),
    ];
    for (line, answer, left) in table {
        let bytes = with_line(rt.alloc(), line.as_bytes(), &GREY)?;
        reads(&rt, rt.alloc(), &y4m(GREY), 3, &bytes, answer, left)?;
    }
    Ok(())
}

#[test]
fn answers_files_that_end(rt: HostRuntime) -> Result<(), Fail> {
    let table = [
        ("", Ok(false)),
        ("FRAME", bad(VideoRule::FrameLine, 3)),
        ("F", bad(VideoRule::FrameLine, 3)),
        ("FRAME\n", bad(VideoRule::Truncated, 3)),
    ];
    for (bytes, answer) in table {
        reads(&rt, rt.alloc(), &y4m(GREY), 3, bytes.as_bytes(), answer, 0)?;
    }
    reads(&rt, rt.alloc(), &planar(GREY), 3, b"", Ok(false), 0)?;
    reads(
        &rt,
        rt.alloc(),
        &planar(GREY),
        3,
        b"x",
        bad(VideoRule::Truncated, 3),
        0,
    )
}

#[test]
fn answers_long_frame_lines(rt: HostRuntime) -> Result<(), Fail> {
    let wrong = bad(VideoRule::FrameLine, 0);
    for (size, answer, left) in [(1024, Ok(true), 0), (1025, wrong, 513)] {
        let mut line = Vec::new(rt.alloc());
        line.extend_from_slice(b"FRAME ")?;
        for _ in 7..size {
            line.push(b'x')?;
        }
        line.push(b'\n')?;
        let bytes = with_line(rt.alloc(), &line, &GREY)?;
        reads(&rt, rt.alloc(), &y4m(GREY), 0, &bytes, answer, left)?;
    }
    Ok(())
}

#[test]
fn answers_the_last_number(rt: HostRuntime) -> Result<(), Fail> {
    let full = Err(VideoEnd::Limit(Limit::L3, 4294967296));
    let bytes = with_line(rt.alloc(), b"", &GREY)?;
    reads(
        &rt,
        rt.alloc(),
        &planar(GREY),
        u32::MAX - 1,
        &bytes,
        Ok(true),
        0,
    )?;
    reads(&rt, rt.alloc(), &planar(GREY), u32::MAX, &bytes, full, 511)?;
    reads(&rt, rt.alloc(), &y4m(GREY), u32::MAX, b"x", full, 0)?;
    reads(&rt, rt.alloc(), &y4m(GREY), u32::MAX, b"", Ok(false), 0)
}

#[test]
fn answers_samples_out_of_range(rt: HostRuntime) -> Result<(), Fail> {
    let mut bytes = with_line(rt.alloc(), b"", &GREY)?;
    bytes.extend_from_slice(b"more")?;
    assert_eq!(rt; bytes.len(), 516);
    // The 65th sample becomes 1024.
    bytes[128] = 0;
    bytes[129] = 4;
    let shape = planar(GREY);
    reads(
        &rt,
        rt.alloc(),
        &shape,
        9,
        &bytes,
        bad(VideoRule::Range, 9),
        4,
    )?;
    bytes.truncate(511);
    reads(
        &rt,
        rt.alloc(),
        &shape,
        9,
        &bytes,
        bad(VideoRule::Truncated, 9),
        0,
    )
}

/// Reads the pictures of numbers 0 and 1 of the file `in`, and says what comes after.
fn third<F: Files>(files: &mut F, shape: &Shape, frame: &mut Frame) -> Answer
    requires closed { AllClosed (F.slot_view files.old) }
    requires sound { IsSoundFormat shape.now.format }
    requires format { frame.old.grid.format ≡ shape.now.format }
{
    if files.open(Slot::Input, "in").is_err() {
        return Err(VideoEnd::Memory);
    }
    match read_frame(files, Slot::Input, shape, 0, frame) {
        Ok(true) => {}
        _ => return Err(VideoEnd::Memory),
    }
    match read_frame(files, Slot::Input, shape, 1, frame) {
        Ok(true) => {}
        _ => return Err(VideoEnd::Memory),
    }
    read_frame(files, Slot::Input, shape, 2, frame)
}

#[test]
fn reads_pictures_one_after_another(rt: HostRuntime) -> Result<(), Fail> {
    let mut bytes = with_line(rt.alloc(), b"FRAME\n", &CUT)?;
    bytes.extend_from_slice(&with_line(rt.alloc(), b"FRAME x\n", &CUT)?)?;
    let mut files = MemoryFiles::new(rt.alloc());
    files.hold("in", &bytes)?;
    let mut frame = frame(&rt, rt.alloc(), &CUT)?;
    let answer = third(&mut files, &y4m(CUT), &mut frame);
    assert_eq!(rt; answer, Ok(false));
    Ok(())
}

/// Where the read of that number fails, that many bytes are left.
fn fails(rt: &impl Abort, alloc: Global, number: u64, left: usize) -> Result<(), Fail> {
    let mut frame = frame(rt, alloc, &LARGE)?;
    let mut files = MemoryFiles::new(alloc);
    files.hold("in", &picture(alloc, &LARGE)?)?;
    files.fail(Call::Read, number)?;
    let answer = copy(&mut files, &planar(LARGE), 0, &mut frame);
    assert_eq!(rt; answer, Err(VideoEnd::Read(Slot::Input)));
    assert_eq!(rt; files.left(Slot::Input).len(), left);
    Ok(())
}

#[test]
fn a_picture_whose_read_fails(rt: HostRuntime) -> Result<(), Fail> {
    fails(&rt, rt.alloc(), 0, 96000)?;
    fails(&rt, rt.alloc(), 1, 95999)?;
    fails(&rt, rt.alloc(), 2, 30464)
}
