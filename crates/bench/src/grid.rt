//! The samples of a frame, moved.
pub mod rows;

use crate::plan::Plan;
use rows::{frame, pad, rows_in, rows_out};
use std::io;

/// Measures a frame of 1920x1080 samples in 4:2:2, which has 65,280 blocks: written row by row,
/// padded, and copied out row by row.
pub fn run(rt: &HostRuntime, plan: Plan) -> io::Result<()> {
    println!(rt; "grid")?;
    let mut frame = frame(rt.alloc())?;
    plan.run(rt, "put_row", "frame", || rows_in(&mut frame, plan.rounds))?;
    plan.run(rt, "pad", "frame", || pad(&mut frame, plan.rounds))?;
    plan.run(rt, "row_into", "frame", || rows_out(&frame, plan.rounds))
}
