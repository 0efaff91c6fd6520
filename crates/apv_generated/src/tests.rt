ghost use Rattle.std.specs.Prelude.{◌≡◌, ◌<◌, IfOk};
ghost use Rattle.apv_base.specs.model.Format.{IsSoundFormat, comps_of, component_width};

use crate::{GeneratedFiles, GeneratedVideo, generated, peak_difference, put_generated};
use apv_base::{Chroma, Format, Slot};
use apv_files::{Files, SureFiles};
use apv_grid::{Frame, Grid};
use std::alloc::{AllocError, Global};
use std::process::Abort;
use std::test::Fail;

/// Frames with cut macroblocks.
const CUT: Format = Format {
    width: 18,
    height: 18,
    chroma: Chroma::C422,
    depth: 10,
};

/// Frames with rows of more than one piece.
const WIDE: Format = Format {
    width: 520,
    height: 16,
    chroma: Chroma::C444,
    depth: 12,
};

#[test]
fn generates_samples(rt: HostRuntime) {
    assert_eq!(rt; generated(7, 0, 0, 0, 0), 259);
    assert_eq!(rt; generated(0, 1, 2, 3, 4), 320);
    assert_eq!(rt; generated(4294967295, 0, 0, 0, 0), 987);
    assert_eq!(rt; generated(0, 2, 7, 319, 359), 237);
}

/// A frame of zeros.
fn frame(rt: &impl Abort, alloc: Global, format: &Format) -> Result<Frame, AllocError>
    requires { IsSoundFormat format.now }
    ensures { IfOk result (λ frame. frame.grid.format ≡ format.now) }
{
    let grid = Grid::of(format, 16, 8).expect(rt, "a sound grid");
    Frame::new(alloc, &grid)
}

/// Whether the visible sample `x`, `y` of a component is the generated one.
fn is_generated(seed: u32, number: u32, frame: &Frame, comp: u8, x: u32, y: u32) -> bool
    requires comp { comp < comps_of frame.now.grid.format.chroma }
    requires x { x < component_width frame.now.grid.format comp }
    requires y { y < frame.now.grid.format.height }
{
    let mut sample = [0];
    frame.row_into(comp, x, y, &mut sample);
    sample[0] == generated(seed, comp, number, x, y)
}

#[test]
fn puts_the_samples_of_a_cut_frame(rt: HostRuntime) -> Result<(), Fail> {
    let mut frame = frame(&rt, rt.alloc(), &CUT)?;
    put_generated(7, 3, &mut frame);
    assert!(rt; is_generated(7, 3, &frame, 0, 0, 0));
    assert!(rt; is_generated(7, 3, &frame, 0, 17, 17));
    assert!(rt; is_generated(7, 3, &frame, 1, 8, 0));
    assert!(rt; is_generated(7, 3, &frame, 2, 8, 17));
    assert!(rt; !is_generated(7, 2, &frame, 0, 5, 5));
    Ok(())
}

#[test]
fn puts_the_samples_of_long_rows(rt: HostRuntime) -> Result<(), Fail> {
    let mut frame = frame(&rt, rt.alloc(), &WIDE)?;
    put_generated(4294967295, 7, &mut frame);
    assert!(rt; is_generated(4294967295, 7, &frame, 0, 255, 0));
    assert!(rt; is_generated(4294967295, 7, &frame, 1, 256, 1));
    assert!(rt; is_generated(4294967295, 7, &frame, 2, 519, 15));
    assert_eq!(rt; peak_difference(4294967295, 7, &frame), 0);
    Ok(())
}

#[test]
fn measures_the_peak_difference(rt: HostRuntime) -> Result<(), Fail> {
    let mut frame = frame(&rt, rt.alloc(), &CUT)?;
    put_generated(7, 0, &mut frame);
    assert_eq!(rt; peak_difference(7, 0, &frame), 0);
    // one sample is higher by 5, another one lower by 6
    frame.put_row(2, 8, 16, &[generated(7, 2, 0, 8, 16) + 5]);
    assert_eq!(rt; peak_difference(7, 0, &frame), 5);
    let lower = generated(7, 0, 0, 3, 4).saturating_sub(6);
    frame.put_row(0, 3, 4, &[lower]);
    assert_eq!(rt; peak_difference(7, 0, &frame), 6);
    Ok(())
}

#[test]
fn reads_the_video_in_place_of_input(rt: HostRuntime) -> Result<(), Fail> {
    let mut files = SureFiles::new(rt.alloc());
    let mut video = GeneratedVideo::new(rt.alloc(), 7);
    let mut generated = GeneratedFiles::new(&mut video, &mut files);
    let mut start = [0; 2];
    let count = generated
        .read(Slot::Input, &mut start)
        .ok()
        .ok_or("memory")?;
    assert_eq!(rt; count, 2);
    assert!(rt; start == [3, 1]);
    Ok(())
}
