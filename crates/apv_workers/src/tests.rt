//! Several workers really run, and the outcome is that of one.
ghost use Rattle.std.specs.Prelude.{◌≤◌, ◌*◌, ◌+◌, ◌<◌, length};
ghost use Rattle.apv_base.specs.model.Run.{MAX_UNIT};

mod track;

use crate::{ContentBreak, Crew, Gate, NoGate, decode_tiles};
use apv_base::Rule;
use apv_grid::Frame;
use apv_header::{read_frame_header, read_tiles};
use apv_scan::{CodeWords, StepTable};
use std::alloc::{AllocError, Global};
use std::sync::atomic::{AtomicU64, Ordering};
use std::test::Fail;
use std::thread::{Threads, yield_now};

/// The header of a 4:0:0 frame of 768x256 samples of 10 bits with 6 tiles of 16x8 macroblocks.
const SIX: [u8; 20] = [
    0x63, 0x7b, 0, 0, 3, 0, 0, 1, 0, 2, 0, 0, 0, 0, 0, 0x40, 0, 2, 0, 0,
];

/// The same of 528x16 samples, with 3 tiles.
const THREE: [u8; 20] = [
    0x63, 0x7b, 0, 0, 2, 0x10, 0, 0, 0x10, 2, 0, 0, 0, 0, 0, 0x40, 0, 2, 0, 0,
];

/// The same of 16x16 samples, with one tile.
const ONE: [u8; 20] = [
    0x63, 0x7b, 0, 0, 0, 0x10, 0, 0, 0x10, 2, 0, 0, 0, 0, 0, 0x40, 0, 2, 0, 0,
];

/// Four blocks of the value 612 at QP 22.
const LIGHT: [u8; 9] = [0x51, 0x08, 0x3e, 0x81, 0x07, 0xd4, 0x1f, 0x50, 0x7c];

/// A run that is longer than its block.
const LONG_RUN: [u8; 8] = [0x83, 0x20, 0xf8, 0, 0, 0, 0, 0];

/// The bytes of blocks of the value 512 after the first byte, again and again.
const PERIOD: [u8; 7] = [0x07, 0xd4, 0x1f, 0x50, 0x7d, 0x41, 0xf5];

/// Appends a tile with that data.
fn push_tile(body: &mut Vec<u8>, index: u8, qp: u8, bytes: &[u8]) -> Result<(), AllocError>
    requires { length bytes.now ≤ 1000 }
{
    let len = bytes.len() as u32;
    body.extend_from_slice(&(len + 10).to_be_bytes())?;
    body.extend_from_slice(&[0, 10, 0, index])?;
    body.extend_from_slice(&len.to_be_bytes())?;
    body.extend_from_slice(&[qp, 0])?;
    body.extend_from_slice(bytes)
}

/// Appends a tile of four times so many blocks of the value 512 at QP 0.
fn push_grey(alloc: Global, body: &mut Vec<u8>, index: u8, fours: usize) -> Result<(), AllocError>
    requires { fours ≤ 128 }
{
    let mut bytes = Vec::new(alloc);
    bytes.push(0x81)?;
    for place in 1..7 * fours {
        bytes.push(PERIOD[(place - 1) % 7])?;
    }
    bytes.push(0xf0)?;
    let whole = usize::min(bytes.len(), 1000);
    push_tile(body, index, 0, &bytes.as_slice()[..whole])
}

/// The frame of six tiles, of which some may be broken.
fn six_tiles(alloc: Global, broken: bool) -> Result<Vec<u8>, AllocError> {
    let mut body = Vec::new(alloc);
    body.extend_from_slice(&SIX)?;
    for index in 0..6 {
        if broken && index == 2 {
            push_tile(&mut body, index, 0, &[0x40])?;
        } else if broken && index == 5 {
            push_tile(&mut body, index, 0, &LONG_RUN)?;
        } else {
            push_grey(alloc, &mut body, index, 128)?;
        }
    }
    Ok(body)
}

/// The frame of three tiles, the last of which is lighter.
fn three_tiles(alloc: Global) -> Result<Vec<u8>, AllocError> {
    let mut body = Vec::new(alloc);
    body.extend_from_slice(&THREE)?;
    push_grey(alloc, &mut body, 0, 16)?;
    push_grey(alloc, &mut body, 1, 16)?;
    push_tile(&mut body, 2, 22, &LIGHT)?;
    Ok(body)
}

/// What a frame is decoded to, and nothing where its header or its tiles aren't read.
fn decoded<R: Threads + Sync, G: Gate>(
    crew: &Crew<'_, R, G>,
    alloc: Global,
    body: &[u8],
) -> Result<Option<Result<Frame, ContentBreak>>, AllocError> {
    if body.len() > 10_000 {
        return Ok(None);
    }
    let Ok(head) = read_frame_header(body) else {
        return Ok(None);
    };
    let Ok(table) = read_tiles(body, &head) else {
        return Ok(None);
    };
    let mut frame = Frame::new(alloc, &head.grid)?;
    match decode_tiles(crew, body, &head, &table, &mut frame) {
        Ok(()) => Ok(Some(Ok(frame))),
        Err(broken) => Ok(Some(Err(broken))),
    }
}

/// Whether the samples of the first component of a tile have this value.
fn has_value(frame: &Frame, tile: u32, value: u16) -> bool {
    if tile >= frame.grid().tiles() || frame.grid().format().chroma.comps() == 0 {
        return false;
    }
    frame.part(tile, 0).iter().all(|sample| *sample == value)
}

/// Whether a frame of that many tiles of the value 512, but for the last, is decoded.
fn is_grey(outcome: Option<Result<Frame, ContentBreak>>, tiles: u32, last: u16) -> bool
    requires { 1 ≤ tiles }
{
    let Some(Ok(frame)) = outcome else {
        return false;
    };
    for tile in 0..tiles - 1 {
        if !has_value(&frame, tile, 512) {
            return false;
        }
    }
    has_value(&frame, tiles - 1, last)
}

/// Holds the first tile of each worker's run until all of them have entered, each for at most that
/// many loads.
#[derive(Drop)]
struct Meeting {
    firsts: [u32; 3],
    wanted: u64,
    turns: u32,
    entered: AtomicU64,
    met: AtomicU64,
}

impl Meeting {
    fn new(firsts: [u32; 3], wanted: u64) -> Meeting {
        Meeting {
            firsts,
            wanted,
            turns: 200_000_000,
            entered: AtomicU64::new(0),
            met: AtomicU64::new(0),
        }
    }

    /// Whether each of these tiles has seen all the others enter.
    fn all_met(&self) -> bool {
        self.met.load(Ordering::SeqCst) == self.wanted
    }
}

/// Whether the count was reached within that many loads.
fn reached(count: &AtomicU64, wanted: u64, turns: u32) -> bool {
    for turn in 0..turns {
        if count.load(Ordering::SeqCst) >= wanted {
            return true;
        }
        if turn % 4096 == 0 {
            yield_now();
        }
    }
    false
}

impl Gate for Meeting {
    fn enter(&self, tile: u32) {
        if self.firsts.contains(&tile) {
            self.entered.fetch_add(1, Ordering::SeqCst);
            if reached(&self.entered, self.wanted, self.turns) {
                self.met.fetch_add(1, Ordering::SeqCst);
            }
        }
    }
}

/// Whether all runs of the workers met while they decoded six tiles.
fn meets<R: Threads + Sync>(
    rt: &R,
    alloc: Global,
    gate: &Meeting,
    workers: u8,
) -> Result<bool, Fail>
    requires { (1 ≤ workers) × (workers ≤ 64) }
{
    let body = six_tiles(alloc, false)?;
    let outcome = decoded(&Crew::new(rt, gate, workers), alloc, &body)?;
    Ok(is_grey(outcome, 6, 512) && gate.all_met())
}

#[test]
fn gate_holds_tile_zero(rt: HostRuntime) -> Result<(), Fail> {
    let two = Meeting::new([0, 3, 3], 2);
    assert!(rt; meets(&rt, rt.alloc(), &two, 2)?);
    let three = Meeting::new([0, 3, 4], 3);
    assert!(rt; meets(&rt, rt.alloc(), &three, 3)?);
    Ok(())
}

#[test]
fn least_broken_tile(rt: HostRuntime) -> Result<(), Fail> {
    let body = six_tiles(rt.alloc(), true)?;
    for workers in [1u8, 2, 3, 6, 64] {
        let outcome = decoded(&Crew::new(&rt, &NoGate, workers), rt.alloc(), &body)?;
        let Some(Err(broken)) = outcome else {
            assert!(rt; false);
            continue;
        };
        let expected = ContentBreak {
            tile: 2,
            comp: 0,
            rule: Rule::V27,
        };
        assert!(rt; broken == expected);
    }
    Ok(())
}

#[test]
fn samples_of_each_number_of_workers(rt: HostRuntime) -> Result<(), Fail> {
    let body = three_tiles(rt.alloc())?;
    let steps = StepTable::new(rt.alloc())?;
    let words = CodeWords::new(rt.alloc())?;
    for workers in 1..65u8 {
        let crew = Crew::with_tables(&rt, &NoGate, workers, &steps, &words);
        assert!(rt; is_grey(decoded(&crew, rt.alloc(), &body)?, 3, 612));
    }
    Ok(())
}

#[test]
fn grey_frame(rt: HostRuntime) -> Result<(), Fail> {
    let mut body = Vec::new(rt.alloc());
    body.extend_from_slice(&ONE)?;
    push_grey(rt.alloc(), &mut body, 0, 1)?;
    let crew = Crew::new(&rt, &NoGate, 1);
    assert!(rt; is_grey(decoded(&crew, rt.alloc(), &body)?, 1, 512));
    Ok(())
}
