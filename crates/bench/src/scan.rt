//! Blocks of levels, written, counted and read by tables, and read without one.
mod blocks;
mod work;

use crate::noise::Density;
use crate::plan::{Plan, too_many_rounds};
use apv_scan::{CodeWords, StepTable};
use std::io;
use work::Work;

/// Measures a block in each call.
fn run_blocks(
    rt: &HostRuntime,
    plan: Plan,
    words: &CodeWords,
    steps: &StepTable,
    work: &mut Work,
) -> io::Result<()> {
    plan.run(rt, "put_block_with", "block", || work.write_with(words))?;
    plan.run(rt, "len_block_with", "block", || work.count_with(words))?;
    plan.run(rt, "read_block", "block", || work.read())?;
    plan.run(rt, "read_block_with", "block", || work.read_with(steps))
}

/// Measures a block in each call, for blocks of both densities.
pub fn run(rt: &HostRuntime, plan: Plan) -> io::Result<()> {
    let words = CodeWords::new(rt.alloc())?;
    let steps = StepTable::new(rt.alloc())?;
    for density in Density::BOTH {
        println!(rt; "scan, {} levels", density.levels())?;
        let Some(mut work) = Work::new(rt.alloc(), &words, plan.rounds, density)? else {
            return Err(too_many_rounds());
        };
        run_blocks(rt, plan, &words, &steps, &mut work)?;
    }
    Ok(())
}
