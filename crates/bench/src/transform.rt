//! Blocks, transformed at a bit depth that the compiler doesn't know.
mod rounds;

use crate::plan::Plan;
use rounds::{forward_rounds, inverse_rounds, large_inverse_rounds};
use std::io;

/// Measures a block in both transforms, and in the inverse one also a block whose values between
/// the passes need more than 16 bits.
pub fn run(rt: &HostRuntime, plan: Plan) -> io::Result<()> {
    println!(rt; "transform")?;
    let depth = plan.depth();
    plan.run(rt, "forward", "block", || {
        forward_rounds(plan.rounds, depth)
    })?;
    plan.run(rt, "inverse", "block", || {
        inverse_rounds(plan.rounds, depth)
    })?;
    plan.run(rt, "inverse of large coefficients", "block", || {
        large_inverse_rounds(plan.rounds, depth)
    })
}
