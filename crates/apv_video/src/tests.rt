//! Files of pictures in memory: their bytes, and what is left of them after a fault.
ghost use Rattle.std.specs.Prelude.{◌≡◌, ◌≢◌, ◌<◌, None, IfOk};
ghost use Rattle.apv_base.specs.model.Format.{IsSoundFormat, comps_of};
ghost use Rattle.apv_base.specs.model.Video.{tag_of as tag_of_lem};
ghost use Rattle.apv_files.specs.SlotView.{AllClosed};

use super::*;
use apv_base::{Chroma, Format, Limit, Slot, VideoBreak, VideoRule};
use apv_files::{Call, Files, MemoryFiles};
use apv_grid::{Frame, Grid};
use std::alloc::{AllocError, Global};
use std::process::Abort;
use std::test::Fail;

/// Grey frames of 16x16 samples.
pub(crate) const GREY: Format = Format {
    width: 16,
    height: 16,
    chroma: Chroma::C400,
    depth: 10,
};

/// A 4:2:2 frame with cut macroblocks.
pub(crate) const CUT: Format = Format {
    width: 18,
    height: 18,
    chroma: Chroma::C422,
    depth: 10,
};

/// A frame whose picture has more bytes than one write.
pub(crate) const LARGE: Format = Format {
    width: 240,
    height: 200,
    chroma: Chroma::C400,
    depth: 10,
};

/// A value for each sample.
fn value(comp: u8, x: u32, y: u32) -> u16 {
    ((u64::from(comp) * 331 + u64::from(y) * 263 + u64::from(x)) % 1021) as u16
}

/// Writes each visible sample of a row.
fn fill_row(frame: &mut Frame, comp: u8, y: u32)
    requires comp { comp < comps_of frame.old.grid.format.chroma }
    requires y { y < frame.old.grid.format.height }
    ensures { frame.new.grid ≡ frame.old.grid }
{
    for x in 0..frame.width(comp) {
        frame.put_row(comp, x, y, &[value(comp, x, y)]);
    }
}

fn fill_component(frame: &mut Frame, comp: u8)
    requires { comp < comps_of frame.old.grid.format.chroma }
    ensures { frame.new.grid ≡ frame.old.grid }
{
    for y in 0..frame.height(comp) {
        fill_row(frame, comp, y);
    }
}

/// Writes each visible sample.
fn fill(frame: &mut Frame)
    ensures { frame.new.grid ≡ frame.old.grid }
{
    for comp in 0..frame.grid().format().chroma.comps() {
        fill_component(frame, comp);
    }
}

/// The picture of the samples that `fill` writes, where the components after the first have half the width.
pub(crate) fn picture(alloc: Global, format: &Format) -> Result<Vec<u8>, AllocError> {
    let mut bytes = Vec::new(alloc);
    for comp in 0..format.chroma.comps() {
        let width = if comp == 0 {
            format.width
        } else {
            format.width / 2
        };
        for y in 0..format.height {
            for x in 0..width {
                bytes.extend_from_slice(&value(comp, x, y).to_le_bytes())?;
            }
        }
    }
    Ok(bytes)
}

/// A frame of that format with the samples of `fill`.
pub(crate) fn frame(rt: &impl Abort, alloc: Global, format: &Format) -> Result<Frame, AllocError>
    requires { IsSoundFormat format.now }
    ensures { IfOk result (λ frame. frame.grid.format ≡ format.now) }
{
    let grid = Grid::of(format, 16, 8).expect(rt, "a sound grid");
    let mut frame = Frame::new(alloc, &grid)?;
    fill(&mut frame);
    Ok(frame)
}

#[test]
fn tags(rt: HostRuntime) {
    let table = [
        (Chroma::C400, 10, Some("Cmono10")),
        (Chroma::C400, 12, None),
        (Chroma::C422, 10, Some("C422p10")),
        (Chroma::C422, 11, None),
        (Chroma::C422, 12, Some("C422p12")),
        (Chroma::C444, 10, Some("C444p10")),
        (Chroma::C444, 12, Some("C444p12")),
        (Chroma::C4444, 12, None),
    ];
    for (chroma, depth, text) in table {
        let format = Format {
            chroma,
            depth,
            ..GREY
        };
        assert_eq!(rt; tag_of(&format).map(|tag| tag.text()), text);
    }
}

/// Writes a planar file of one picture.
fn write_planar<F: Files>(files: &mut F, frame: &Frame) -> Result<(), Put>
    requires { AllClosed (F.slot_view files.old) }
{
    if files.create(Slot::Recon, "recon").is_err() {
        return Err(Put::Memory);
    }
    write_frame(files, Slot::Recon, frame, false)
}

/// Writes a Y4M file of one picture.
fn write_y4m<F: Files>(files: &mut F, format: &Format, frame: &Frame) -> Result<(), Put>
    requires closed { AllClosed (F.slot_view files.old) }
    requires tag { tag_of_lem format.now ≢ None }
{
    if files.create(Slot::Output, "out").is_err() {
        return Err(Put::Memory);
    }
    write_header(files, format, (30, 1))?;
    write_frame(files, Slot::Output, frame, true)
}

#[test]
fn writes_a_y4m_file(rt: HostRuntime) -> Result<(), Fail> {
    let frame = frame(&rt, rt.alloc(), &GREY)?;
    let mut files = MemoryFiles::new(rt.alloc());
    let answer = write_y4m(&mut files, &GREY, &frame);
    assert_eq!(rt; answer, Ok(()));
    let written = files.written(Slot::Output);
    assert_eq!(rt; written.len(), 558);
    let mut wanted = Vec::new(rt.alloc());
    wanted.extend_from_slice(b"YUV4MPEG2 W16 H16 F30:1 Ip A0:0 Cmono10\nFRAME\n")?;
    wanted.extend_from_slice(&picture(rt.alloc(), &GREY)?)?;
    assert!(rt; written == wanted.as_slice());
    Ok(())
}

/// The planar file of a frame is its picture, of that many bytes.
fn writes(rt: &impl Abort, alloc: Global, format: &Format, size: usize) -> Result<(), Fail>
    requires { IsSoundFormat format.now }
{
    let frame = frame(rt, alloc, format)?;
    let mut files = MemoryFiles::new(alloc);
    let answer = write_planar(&mut files, &frame);
    assert_eq!(rt; answer, Ok(()));
    let written = files.written(Slot::Recon);
    assert_eq!(rt; written.len(), size);
    assert!(rt; written == picture(alloc, format)?.as_slice());
    Ok(())
}

#[test]
fn writes_planar_pictures(rt: HostRuntime) -> Result<(), Fail> {
    writes(&rt, rt.alloc(), &GREY, 512)?;
    writes(&rt, rt.alloc(), &CUT, 1296)?;
    writes(&rt, rt.alloc(), &LARGE, 96000)
}

/// Where the write of that number fails, that many bytes of the picture are written.
fn fails(
    rt: &impl Abort,
    alloc: Global,
    format: &Format,
    number: u64,
    size: usize,
) -> Result<(), Fail>
    requires { IsSoundFormat format.now }
{
    let frame = frame(rt, alloc, format)?;
    let mut files = MemoryFiles::new(alloc);
    files.fail(Call::Write, number)?;
    let answer = write_planar(&mut files, &frame);
    assert_eq!(rt; answer, Err(Put::Failed));
    let picture = picture(alloc, format)?;
    assert!(rt; size <= picture.len());
    assert!(rt; files.written(Slot::Recon) == &picture[..size]);
    Ok(())
}

#[test]
fn a_write_that_fails_leaves_a_prefix(rt: HostRuntime) -> Result<(), Fail> {
    fails(&rt, rt.alloc(), &CUT, 0, 0)?;
    fails(&rt, rt.alloc(), &CUT, 1, 648)?;
    fails(&rt, rt.alloc(), &CUT, 2, 972)?;
    // One write has 136 rows: as many whole rows of blocks as 32,768 samples have room for.
    fails(&rt, rt.alloc(), &LARGE, 1, 136 * 240 * 2)
}

/// Opens the video of a name.
fn opened<F: Files>(files: &mut F, name: &str) -> Result<Shape, VideoEnd>
    requires { AllClosed (F.slot_view files.old) }
{
    if files.open(Slot::Input, name).is_err() {
        return Err(VideoEnd::Memory);
    }
    open_video(files)
}

const fn bad(rule: VideoRule) -> Result<Shape, VideoEnd> {
    Err(VideoEnd::Bad(VideoBreak {
        slot: Slot::Input,
        rule,
        frame: 0,
    }))
}

const fn named(width: u32, height: u32, chroma: Chroma, depth: u8) -> Result<Shape, VideoEnd> {
    let format = Format {
        width,
        height,
        chroma,
        depth,
    };
    Ok(Shape { format, y4m: true })
}

#[test]
fn answers_header_lines(rt: HostRuntime) -> Result<(), Fail> {
    // What follows the name of the format, the answer, and what is left.
    let table = [
        (" W16 C422p10\n", bad(VideoRule::Header), ""),
        (" W16 H16\n", bad(VideoRule::Tag), ""),
        (" W16 H16 C420p10\n", bad(VideoRule::Tag), ""),
        (" W17 H16 C422p10\n", bad(VideoRule::Size), ""),
        (" W16777216 H1 Cmono10\n", bad(VideoRule::Size), ""),
        (
            " W16777215 H16 Cmono10\n",
            Err(VideoEnd::Limit(Limit::L2, 1048576)),
            "",
        ),
        (" W16 H16 Cmono10", bad(VideoRule::Header), ""),
        (" W16 H16 W16 Cmono10\nF", bad(VideoRule::Header), "F"),
        (" W16 H123456789 Cmono10\n", bad(VideoRule::Header), ""),
        ("W16 H16 Cmono10\n", bad(VideoRule::Header), ""),
        (
            " W1920 H1080 F25:1 Ip A1:1 C422p10 XYSCSS=422P10\nFRAME",
            named(1920, 1080, Chroma::C422, 10),
            "FRAME",
        ),
        (
            "   C444p12 H008  W16  \n\n",
            named(16, 8, Chroma::C444, 12),
            "\n",
        ),
    ];
    for (line, answer, left) in table {
        let mut files = MemoryFiles::new(rt.alloc());
        files.hold("in", format!(in rt.alloc(); "YUV4MPEG2{line}")?.as_bytes())?;
        assert_eq!(rt; opened(&mut files, "in"), answer, "{line}");
        assert_eq!(rt; files.left(Slot::Input), left.as_bytes(), "{line}");
    }
    Ok(())
}

#[test]
fn answers_long_lines(rt: HostRuntime) -> Result<(), Fail> {
    let right = named(16, 16, Chroma::C400, 10);
    for (size, answer) in [(1024, right), (1025, bad(VideoRule::Header))] {
        let mut line = Vec::new(rt.alloc());
        line.extend_from_slice(b"YUV4MPEG2 W16 H16 Cmono10 X")?;
        for _ in 28..size {
            line.push(b'x')?;
        }
        line.push(b'\n')?;
        let mut files = MemoryFiles::new(rt.alloc());
        files.hold("in", &line)?;
        assert_eq!(rt; opened(&mut files, "in"), answer, "{size}");
    }
    Ok(())
}

#[test]
fn a_read_that_fails_leaves_the_rest(rt: HostRuntime) -> Result<(), Fail> {
    let mut files = MemoryFiles::new(rt.alloc());
    files.hold("in", b"YUV4MPEG2 W16 H16 Cmono10\n")?;
    files.fail(Call::Read, 9)?;
    let answer = opened(&mut files, "in");
    assert_eq!(rt; answer, Err(VideoEnd::Read(Slot::Input)));
    assert_eq!(rt; files.left(Slot::Input), b" W16 H16 Cmono10\n".as_slice());
    Ok(())
}
