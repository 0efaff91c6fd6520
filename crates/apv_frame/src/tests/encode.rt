//! Frames that are coded, and decoded again.
ghost use Rattle.std.specs.Prelude.{◌≡◌, ℕ, ◌+◌, ◌<◌, ◌≤◌, length, slice_index};
ghost use Rattle.std.specs.Prelude.{IfOk, IfSome};
ghost use Rattle.apv_base.specs.model.Header.{grid_of};
ghost use Rattle.apv_workers.specs.Encode.{AreOfDepth};

use super::{ROWS, Row, first, sample};
use crate::{len_fixed, put_frame, reconstruct};
use apv_grid::{Frame, Pieces};
use apv_header::read_frame_header;
use apv_workers::{Crew, Gate, NoGate, Track, len_tiles, quantise_tiles, transform_tiles};
use std::alloc::{AllocError, Global};
use std::test::Fail;
use std::thread::Threads;

/// The header of a 4:0:0 frame of 16x16 samples of 10 bits.
const GREY: [u8; 20] = [
    0x63, 0x7b, 0, 0, 0, 0x10, 0, 0, 0x10, 2, 0, 0, 0, 0, 0, 0x40, 0, 4, 0, 0,
];

/// The header of a 4:2:2 frame of 18x18 samples of 10 bits.
const CHROMA: [u8; 20] = [
    0x21, 0x7b, 0, 0, 0, 0x12, 0, 0, 0x12, 0x22, 0, 0, 0, 0, 0, 0x40, 0, 2, 0, 0,
];

/// The same where the size of its tile is stated.
const STATED: [u8; 24] = [
    0x21, 0x7b, 0, 0, 0, 0x12, 0, 0, 0x12, 0x22, 0, 0, 0, 0, 0, 0x40, 0, 2, 0x20, 0, 0, 0, 0, 0,
];

/// Values from a base on, fewer than a span above it.
fn fill(values: &mut [u16], base: u16, span: u16)
    requires some { 1 ≤ span }
    requires small { base + span ≤ 1024 }
    ensures { (place : ℕ) → place < length values.old → slice_index values.new place < 1024 }
{
    for place in 0..values.len() {
        values[place] = base + (place / 3 % span as usize) as u16;
    }
}

/// Sets all samples of a frame to such values.
fn fill_frame(frame: &mut Frame, base: u16, span: u16)
    requires some { 1 ≤ span }
    requires small { base + span ≤ 1024 }
    ensures grid { frame.new.grid ≡ frame.old.grid }
    ensures below { (place : ℕ) → slice_index frame.new.values place < 1024 }
{
    let Pieces { values, .. } = frame.pieces();
    fill(values, base, span);
}

/// A track of the frames of a header, with these samples, or nothing where the header isn't read.
fn track_of(alloc: Global, header: &[u8], base: u16, span: u16) -> Result<Option<Track>, AllocError>
    requires few { length header.now ≤ 24 }
    requires some { 1 ≤ span }
    requires small { base + span ≤ 1024 }
    ensures { IfOk result (λ found. IfSome found (λ track.
        (track.frame.grid ≡ grid_of track.header)
        × AreOfDepth (grid_of track.header) track.frame.values)) }
{
    let Ok(head) = read_frame_header(header) else {
        return Ok(None);
    };
    let mut track = Track::new(alloc, &head.header, [0; 4])?;
    fill_frame(track.frame_mut(), base, span);
    Ok(Some(track))
}

/// The access unit of a track's frame at a QP, and nothing where it is large.
fn unit_at<R: Threads + Sync, G: Gate>(
    crew: &Crew<'_, R, G>,
    alloc: Global,
    track: &mut Track,
    q: u8,
) -> Result<Vec<u8>, AllocError>
    requires grid { track.old.frame.grid ≡ grid_of track.old.header }
    requires depth { AreOfDepth (grid_of track.old.header) track.old.frame.values }
{
    transform_tiles(crew, track);
    quantise_tiles(crew, track, q);
    let total = len_tiles(crew, track);
    let mut unit = Vec::new(alloc);
    if total > 100_000 {
        return Ok(unit);
    }
    let len = len_fixed(track) + total;
    let mut pbu = vec![in alloc; 0xaa; len as usize]?;
    put_frame(crew, track, 1, pbu.as_mut_slice());
    unit.extend_from_slice(b"aPv1")?;
    unit.extend_from_slice(pbu.as_slice())?;
    Ok(unit)
}

/// The access unit of a frame of this header with such samples, and the samples that a decoder makes of it.
fn coded<R: Threads + Sync, G: Gate>(
    crew: &Crew<'_, R, G>,
    alloc: Global,
    header: &[u8],
    q: u8,
    base: u16,
    span: u16,
) -> Result<Option<(Vec<u8>, Frame)>, AllocError>
    requires few { length header.now ≤ 24 }
    requires some { 1 ≤ span }
    requires small { base + span ≤ 1024 }
{
    let Some(mut track) = track_of(alloc, header, base, span)? else {
        return Ok(None);
    };
    let unit = unit_at(crew, alloc, &mut track, q)?;
    let mut frame = Frame::new(alloc, track.grid())?;
    reconstruct(crew, &track, &mut frame);
    Ok(Some((unit, frame)))
}

/// Whether two frames have the same samples.
fn is_same(frame: &Frame, other: &Frame) -> bool {
    if other.grid() != frame.grid() {
        return false;
    }
    for tile in 0..frame.grid().tiles() {
        for comp in 0..frame.grid().format().chroma.comps() {
            if other.part(tile, comp) != frame.part(tile, comp) {
                return false;
            }
        }
    }
    true
}

#[test]
fn codes_grey_frames(rt: HostRuntime) -> Result<(), Fail> {
    let crew = Crew::new(&rt, &NoGate, 1);
    let rows: [(&Row, u16, u8); 2] = [(&ROWS[0], 512, 0), (&ROWS[1], 612, 22)];
    for (row, value, q) in rows {
        if value > 1000 {
            continue;
        }
        let (unit, frame) = coded(&crew, rt.alloc(), &GREY, q, value, 1)?.ok_or("a header")?;
        assert_eq!(rt; unit.as_slice(), row.unit);
        assert_eq!(rt; sample(&frame, 0, 15, 15), Some(value));
    }
    Ok(())
}

#[test]
fn decodes_what_was_coded(rt: HostRuntime) -> Result<(), Fail> {
    let alloc = rt.alloc();
    let one = Crew::new(&rt, &NoGate, 1);
    for stated in [false, true] {
        let header: &[u8] = if stated { &STATED } else { &CHROMA };
        if header.len() > 24 {
            continue;
        }
        let (unit, frame) = coded(&one, alloc, header, 30, 300, 200)?.ok_or("a header")?;
        let decoded = first(alloc, &one, &unit)
            .ok_or("a frame")?
            .ok()
            .ok_or("samples")?;
        assert!(rt; is_same(&decoded, &frame));
        for workers in [2, 3] {
            let crew = Crew::new(&rt, &NoGate, workers);
            let (other, _) = coded(&crew, alloc, header, 30, 300, 200)?.ok_or("a header")?;
            assert!(rt; other == unit);
        }
    }
    Ok(())
}
