//! The workers of a run really work at the same time, and what a decoder writes is the same for any number of them.
use crate::runs::{BOTH, samples, words_and, words_of};
use apv_base::{Exit, Slot};
use apv_dec::run_dec;
use apv_enc::run_enc;
use apv_files::MemoryFiles;
use apv_workers::{Gate, NoGate};
use std::alloc::{AllocError, Global};
use std::sync::atomic::{AtomicU64, Ordering};
use std::test::Fail;
use std::thread::{Threads, yield_now};

/// Holds each tile until that many tiles were entered, for at most that many loads.
#[derive(Drop)]
struct Meeting {
    wanted: u64,
    turns: u32,
    entered: AtomicU64,
    met: AtomicU64,
}

impl Meeting {
    fn new(wanted: u64, turns: u32) -> Meeting {
        Meeting {
            wanted,
            turns,
            entered: AtomicU64::new(0),
            met: AtomicU64::new(0),
        }
    }

    /// Whether enough tiles were entered before the loads ended.
    fn is_reached(&self) -> bool {
        for turn in 0..self.turns {
            if self.entered.load(Ordering::SeqCst) >= self.wanted {
                return true;
            }
            if turn % 4096 == 0 {
                yield_now();
            }
        }
        false
    }
}

impl Gate for Meeting {
    fn enter(&self, _tile: u32) {
        self.entered.fetch_add(1, Ordering::SeqCst);
        if self.is_reached() {
            self.met.fetch_add(1, Ordering::SeqCst);
        }
    }
}

/// Words for a picture of three tiles: 528x16 samples, 4:0:0 and 10 bits.
const THREE_TILES: &[&str] = &[
    "--input=in",
    "--output=out",
    "--recon=r",
    "--width=528",
    "--height=16",
    "--chroma=400",
    "--depth=10",
    "--qp=0",
];

#[test]
fn workers_of_an_encoder_meet(rt: HostRuntime) -> Result<(), Fail> {
    for (threads, workers) in [("--threads=2", 2), ("--threads=3", 3)] {
        let words = words_of(rt.alloc(), &[THREE_TILES, &[threads]])?;
        let gate = Meeting::new(workers, 200_000_000);
        let mut files = MemoryFiles::new(rt.alloc());
        files.hold("in", &samples(rt.alloc(), &[(528 * 16, 512)])?)?;
        let exit = run_enc(rt.alloc(), &rt, &words, &mut files, &gate);
        assert_eq!(rt; exit, Exit::Done);
        assert_eq!(rt; files.written(Slot::Recon).len(), 2 * 528 * 16);
        let met = gate.met.load(Ordering::SeqCst);
        assert_eq!(rt; met, gate.entered.load(Ordering::SeqCst), "{threads}");
    }
    Ok(())
}

/// The start of a file of one access unit with one primary frame of 528x16 samples, 4:0:0 and 10 bits, in three tiles.
const START: [u8; 36] = [
    0, 0, 1, 0x35, 0x61, 0x50, 0x76, 0x31, 0, 0, 1, 0x2D, 1, 0, 1, 0, 0x63, 0x7B, 0, 0, 2, 0x10, 0,
    0, 0x10, 2, 0, 0, 0, 0, 0, 0x40, 0, 2, 0, 0,
];

/// The header of a tile of 16 macroblocks at QP 0, up to its number.
const TILE: [u8; 7] = [0, 0, 0, 0x7B, 0, 10, 0];

/// The data of 64 blocks of the value 512, after the first byte and before the last: these bytes again and again.
const PERIOD: [u8; 7] = [0x07, 0xD4, 0x1F, 0x50, 0x7D, 0x41, 0xF5];

/// The last tile, of one macroblock of the value 612 at QP 22.
const LAST_TILE: [u8; 23] = [
    0, 0, 0, 0x13, 0, 10, 0, 2, 0, 0, 0, 9, 22, 0, 0x51, 0x08, 0x3E, 0x81, 0x07, 0xD4, 0x1F, 0x50,
    0x7C,
];

/// Appends a tile of 64 blocks of the value 512.
fn push_tile(file: &mut Vec<u8>, index: u8) -> Result<(), AllocError> {
    file.extend_from_slice(&TILE)?;
    file.extend_from_slice(&[index, 0, 0, 0, 0x71, 0, 0, 0x81])?;
    for _ in 0..15 {
        file.extend_from_slice(&PERIOD)?;
    }
    file.extend_from_slice(&[0x07, 0xD4, 0x1F, 0x50, 0x7D, 0x41, 0xF0])
}

/// The file.
fn three_tiles(alloc: Global) -> Result<Vec<u8>, AllocError> {
    let mut file = Vec::new(alloc);
    file.extend_from_slice(&START)?;
    push_tile(&mut file, 0)?;
    push_tile(&mut file, 1)?;
    file.extend_from_slice(&LAST_TILE)?;
    Ok(file)
}

/// Its picture.
fn picture(alloc: Global) -> Result<Vec<u8>, AllocError> {
    let mut bytes = Vec::new(alloc);
    for place in 0..528 * 16u32 {
        let sample = if place % 528 < 512 { [0, 2] } else { [100, 2] };
        bytes.extend_from_slice(&sample)?;
    }
    Ok(bytes)
}

/// Whether the file is decoded to its picture.
fn is_decoded<R: Threads + Sync, G: Gate>(
    alloc: Global,
    rt: &R,
    gate: &G,
    threads: &str,
) -> Result<bool, AllocError> {
    let words = words_and(alloc, BOTH, threads)?;
    let mut files = MemoryFiles::new(alloc);
    files.hold("in", &three_tiles(alloc)?)?;
    let exit = run_dec(alloc, rt, &words, &mut files, gate);
    Ok(exit == Exit::Done && files.written(Slot::Output) == picture(alloc)?.as_slice())
}

#[test]
fn workers_of_a_decoder_meet(rt: HostRuntime) -> Result<(), Fail> {
    for (threads, workers) in [("--threads=2", 2), ("--threads=3", 3)] {
        let gate = Meeting::new(workers, 200_000_000);
        assert!(rt; is_decoded(rt.alloc(), &rt, &gate, threads)?, "{threads}");
        assert_eq!(rt; gate.met.load(Ordering::SeqCst), 3, "{threads}");
    }
    Ok(())
}

#[test]
fn one_worker_of_a_decoder_is_alone(rt: HostRuntime) -> Result<(), Fail> {
    let gate = Meeting::new(2, 10_000);
    assert!(rt; is_decoded(rt.alloc(), &rt, &gate, "--threads=1")?);
    assert_eq!(rt; gate.met.load(Ordering::SeqCst), 2);
    Ok(())
}

#[test]
fn writes_the_same_for_any_number_of_workers(rt: HostRuntime) -> Result<(), Fail> {
    for threads in [
        "--threads=1",
        "--threads=2",
        "--threads=3",
        "--threads=8",
        "--threads=64",
    ] {
        assert!(rt; is_decoded(rt.alloc(), &rt, &NoGate, threads)?, "{threads}");
    }
    Ok(())
}
