//! Pictures, written to files and read from them.
ghost use Rattle.std.specs.Prelude.{◌≡◌};
ghost use Rattle.apv_base.specs.model.Format.{IsSoundFormat};

mod buffer;
mod pictures;

use crate::grid::rows::{component_out, frame, frame_in};
use crate::plan::{Least, Plan, too_many_rounds};
use apv_base::Slot;
use apv_files::{Failed, Files, MemoryFiles};
use apv_grid::Frame;
use buffer::Buffer;
use pictures::{file_of, read_pictures, sum_of_bytes, write_pictures};
use std::io;
use std::io::ErrorKind;
use std::time::Instant;

/// The maximum number of pictures of a batch, which are in memory at the same time.
const MAX_PICTURES: u32 = 64;

/// The bytes of a picture.
const SIZE: usize = 8294400;

/// What the time is that of. `bench/run.sh` takes the number of bytes from it.
const UNIT: &str = "picture of 8294400 bytes";

/// The error of the output for a call on files in memory that failed.
fn error_of(failed: Failed) -> io::Error {
    match failed {
        Failed::Device => io::Error::from(ErrorKind::Other),
        Failed::Memory => io::Error::from(ErrorKind::OutOfMemory),
    }
}

/// Measures `write_frame` to files in memory, each of which begins without memory for it, so that
/// the time has the growth of a vector of bytes in it.
fn run_growing(rt: &HostRuntime, plan: Plan, frame: &Frame) -> io::Result<()> {
    let mut least = Least::none();
    let mut checksum = 0;
    for _batch in 0..plan.batches.unwrap_or(1) {
        let mut files = MemoryFiles::new(rt.alloc());
        files.create(Slot::Recon, "recon").map_err(error_of)?;
        let start = Instant::now(rt)?;
        write_pictures(&mut files, frame, plan.rounds);
        least.take(start.elapsed(rt)?);
        checksum = sum_of_bytes(files.written(Slot::Recon));
    }
    plan.print(rt, "write_frame, a file that grows", UNIT, checksum, least)
}

/// Measures `read_frame` from files in memory, each of which is opened before.
fn run_reading(rt: &HostRuntime, plan: Plan, bytes: &[u8], frame: &mut Frame) -> io::Result<()>
    requires { IsSoundFormat frame.old.grid.format }
{
    let mut least = Least::none();
    for _batch in 0..plan.batches.unwrap_or(1) {
        let mut files = MemoryFiles::new(rt.alloc());
        files.hold("in", bytes)?;
        files.open(Slot::Input, "in").map_err(error_of)?;
        let start = Instant::now(rt)?;
        read_pictures(&mut files, frame, plan.rounds);
        least.take(start.elapsed(rt)?);
    }
    let checksum = component_out(frame, 0);
    plan.print(rt, "read_frame", UNIT, checksum, least)
}

/// Measures a planar picture of 1920x1080 samples in 4:2:2 and 10 bits, written as one of n to
/// files that grow and to one that is written over, and read as one of n.
pub fn run(rt: &HostRuntime, plan: Plan) -> io::Result<()> {
    println!(rt; "video")?;
    if plan.rounds > MAX_PICTURES {
        return Err(too_many_rounds());
    }
    let mut frame = frame(rt.alloc())?;
    frame_in(&mut frame, 0);
    run_growing(rt, plan, &frame)?;
    let mut buffer = Buffer::new(rt.alloc(), SIZE)?;
    plan.run(rt, "write_frame, a file written over", UNIT, || {
        write_pictures(&mut buffer, &frame, plan.rounds);
        sum_of_bytes(buffer.bytes())
    })?;
    let bytes = file_of(rt.alloc(), &frame, plan.rounds)?;
    run_reading(rt, plan, bytes.as_slice(), &mut frame)
}
