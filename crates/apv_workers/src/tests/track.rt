//! Frames that are coded tile by tile, and decoded again.
ghost use Rattle.std.specs.Prelude.{◌≡◌, ℕ, ◌+◌, ◌<◌, ◌≤◌, length, slice_index};
ghost use Rattle.std.specs.Prelude.{IfOk, IfSome};
ghost use Rattle.apv_base.specs.model.Header.{grid_of};
ghost use Rattle.apv_workers.specs.Encode.{AreOfDepth};

use super::{Meeting, ONE, SIX, THREE, decoded};
use crate::{
    Crew, Gate, NoGate, Track, len_tiles, put_tiles, quantise_tiles, rebuild_tiles, transform_tiles,
};
use apv_grid::{Blocks, Frame, Pieces};
use apv_header::read_frame_header;
use apv_scan::{CodeWords, StepTable};
use std::alloc::{AllocError, Global};
use std::test::Fail;
use std::thread::Threads;

/// The header of a 4:2:2 frame of 528x16 samples of 10 bits with 3 tiles of 16x8 macroblocks.
const CHROMA: [u8; 20] = [
    0x21, 0x7b, 0, 0, 2, 0x10, 0, 0, 0x10, 0x22, 0, 0, 0, 0, 0, 0x40, 0, 2, 0, 0,
];

/// A tile of four blocks of the value 612 at QP 22, after its size.
const GREY: [u8; 23] = [
    0, 0, 0, 19, 0, 10, 0, 0, 0, 0, 0, 9, 22, 0, 0x51, 0x08, 0x3e, 0x81, 0x07, 0xd4, 0x1f, 0x50,
    0x7c,
];

/// Values from a base on, fewer than a span above it.
fn fill(values: &mut [u16], base: u16, span: u16)
    requires some { 1 ≤ span }
    requires small { base + span ≤ 1024 }
    ensures { (place : ℕ) → place < length values.old → slice_index values.new place < 1024 }
{
    for place in 0..values.len() {
        values[place] = base + (place / 3 % span as usize) as u16;
    }
}

/// Sets all samples of a frame to such values.
fn fill_frame(frame: &mut Frame, base: u16, span: u16)
    requires some { 1 ≤ span }
    requires small { base + span ≤ 1024 }
    ensures grid { frame.new.grid ≡ frame.old.grid }
    ensures below { (place : ℕ) → slice_index frame.new.values place < 1024 }
{
    let Pieces { values, .. } = frame.pieces();
    fill(values, base, span);
}

/// A track of the frames of a header, with these samples, or nothing where the header isn't read.
fn track_of(
    alloc: Global,
    header: &[u8; 20],
    offsets: [i8; 4],
    base: u16,
    span: u16,
) -> Result<Option<Track>, AllocError>
    requires some { 1 ≤ span }
    requires small { base + span ≤ 1024 }
    ensures { IfOk result (λ found. IfSome found (λ track.
        (track.frame.grid ≡ grid_of track.header)
        × AreOfDepth (grid_of track.header) track.frame.values)) }
{
    let Ok(head) = read_frame_header(header) else {
        return Ok(None);
    };
    let mut track = Track::new(alloc, &head.header, offsets)?;
    fill_frame(track.frame_mut(), base, span);
    Ok(Some(track))
}

/// The tiles of a track at a QP, in bytes, and none where they are large.
fn tiles_at<R: Threads + Sync, G: Gate>(
    crew: &Crew<'_, R, G>,
    alloc: Global,
    track: &mut Track,
    q: u8,
) -> Result<Vec<u8>, AllocError>
    requires grid { track.old.frame.grid ≡ grid_of track.old.header }
    requires depth { AreOfDepth (grid_of track.old.header) track.old.frame.values }
{
    transform_tiles(crew, track);
    quantise_tiles(crew, track, q);
    let total = len_tiles(crew, track);
    if total > 100_000 {
        return Ok(Vec::new(alloc));
    }
    let tiles = track.grid().tiles() as usize;
    let comps = usize::from(track.header().info.chroma.comps());
    let mut out = vec![in alloc; 0xaa; tiles * (5 * comps + 9) + total as usize]?;
    put_tiles(crew, track, out.as_mut_slice());
    Ok(out)
}

/// The first value of the blocks.
fn first_of(blocks: &Blocks) -> i16 {
    if blocks.grid().format().chroma.comps() == 0 || blocks.grid().tiles() == 0 {
        return 0;
    }
    match blocks.part(0, 0).first() {
        Some(value) => *value,
        None => 0,
    }
}

/// Whether the frame with this header and these tiles is decoded to the samples of another frame.
fn is_decoded<R: Threads + Sync, G: Gate>(
    crew: &Crew<'_, R, G>,
    alloc: Global,
    header: &[u8],
    tiles: &[u8],
    frame: &Frame,
) -> Result<bool, AllocError> {
    let mut body = Vec::new(alloc);
    body.extend_from_slice(header)?;
    body.extend_from_slice(tiles)?;
    let Some(Ok(other)) = decoded(crew, alloc, &body)? else {
        return Ok(false);
    };
    let comps = frame.grid().format().chroma.comps();
    if other.grid() != frame.grid() {
        return Ok(false);
    }
    for tile in 0..frame.grid().tiles() {
        for comp in 0..comps {
            if other.part(tile, comp) != frame.part(tile, comp) {
                return Ok(false);
            }
        }
    }
    Ok(true)
}

#[test]
fn grey_tile(rt: HostRuntime) -> Result<(), Fail> {
    let crew = Crew::new(&rt, &NoGate, 1);
    let Some(mut track) = track_of(rt.alloc(), &ONE, [0; 4], 612, 1)? else {
        assert!(rt; false);
        return Ok(());
    };
    let tiles = tiles_at(&crew, rt.alloc(), &mut track, 22)?;
    assert_eq!(rt;
        (first_of(&track.coeffs), first_of(&track.levels)),
        (3200, 100)
    );
    assert!(rt; track.qp() == 22);
    assert_eq!(rt; tiles.as_slice(), GREY.as_slice());
    Ok(())
}

/// A track of three tiles with offsets of QPs, and its tiles in bytes.
fn coded<R: Threads + Sync, G: Gate>(
    crew: &Crew<'_, R, G>,
    alloc: Global,
    header: &[u8; 20],
    offsets: [i8; 4],
) -> Result<Option<(Track, Vec<u8>)>, AllocError> {
    let Some(mut track) = track_of(alloc, header, offsets, 300, 640)? else {
        return Ok(None);
    };
    if track.grid().tiles() != 3 {
        return Ok(None);
    }
    track.set_tile_offsets(&[0, 9, -7]);
    let tiles = tiles_at(crew, alloc, &mut track, 20)?;
    Ok(Some((track, tiles)))
}

#[test]
fn tiles_of_each_number_of_workers(rt: HostRuntime) -> Result<(), Fail> {
    let alloc = rt.alloc();
    let steps = StepTable::new(alloc)?;
    let words = CodeWords::new(alloc)?;
    for (header, offsets) in [(&CHROMA, [0, 3, -2, 0]), (&THREE, [0; 4])] {
        let crew = Crew::new(&rt, &NoGate, 1);
        let Some((track, tiles)) = coded(&crew, alloc, header, offsets)? else {
            assert!(rt; false);
            continue;
        };
        let mut frame = Frame::new(alloc, track.grid())?;
        rebuild_tiles(&crew, &track, &mut frame);
        assert!(rt; is_decoded(&crew, alloc, header, &tiles, &frame)?);
        for workers in [1u8, 2, 3, 8] {
            let crew = Crew::with_tables(&rt, &NoGate, workers, &steps, &words);
            let Some((_, others)) = coded(&crew, alloc, header, offsets)? else {
                assert!(rt; false);
                continue;
            };
            assert!(rt; tiles.len() > 500 && others == tiles);
        }
    }
    Ok(())
}

/// Whether all runs of the workers met in each of the five works on a track of six tiles.
fn works_meet<R: Threads + Sync>(
    rt: &R,
    alloc: Global,
    firsts: [u32; 3],
    workers: u8,
) -> Result<bool, AllocError>
    requires { (1 ≤ workers) × (workers ≤ 64) }
{
    let Some(mut track) = track_of(alloc, &SIX, [0; 4], 300, 640)? else {
        return Ok(false);
    };
    let wanted = u64::from(workers);
    let transformed = Meeting::new(firsts, wanted);
    transform_tiles(&Crew::new(rt, &transformed, workers), &mut track);
    let quantised = Meeting::new(firsts, wanted);
    quantise_tiles(&Crew::new(rt, &quantised, workers), &mut track, 50);
    let counted = Meeting::new(firsts, wanted);
    let total = len_tiles(&Crew::new(rt, &counted, workers), &mut track);
    if total > 1_000_000 {
        return Ok(false);
    }
    let tiles = track.grid().tiles() as usize;
    let comps = usize::from(track.header().info.chroma.comps());
    let mut out = vec![in alloc; 0; tiles * (5 * comps + 9) + total as usize]?;
    let put = Meeting::new(firsts, wanted);
    put_tiles(&Crew::new(rt, &put, workers), &track, out.as_mut_slice());
    let mut frame = Frame::new(alloc, track.grid())?;
    let rebuilt = Meeting::new(firsts, wanted);
    rebuild_tiles(&Crew::new(rt, &rebuilt, workers), &track, &mut frame);
    let coded = transformed.all_met() && quantised.all_met() && counted.all_met();
    Ok(coded && put.all_met() && rebuilt.all_met())
}

#[test]
fn gate_holds_tile_zero_of_each_work(rt: HostRuntime) -> Result<(), Fail> {
    assert!(rt; works_meet(&rt, rt.alloc(), [0, 3, 3], 2)?);
    assert!(rt; works_meet(&rt, rt.alloc(), [0, 3, 4], 3)?);
    Ok(())
}
